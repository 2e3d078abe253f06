// A session table that its program holds by value, and the two calls that the lab makes with it (RULES 10): those of `session_table` on its records.
#![tactic(auto)]

ghost use Rattle.std.specs.Prelude.{◌≡◌, length, replicate};
ghost use Rattle.protocol.specs.Calls.{adding, opening, only_table, message_and_table};
ghost use Rattle.protocol.specs.Contract.{Makes, Returns};
ghost use Rattle.answer.specs.Reading.{number_in, answer_of};
ghost use Rattle.connection.specs.Reading.{connection_of};
ghost use Rattle.session_record.specs.Reading.{free};
ghost use Rattle.session_record.specs.Adds.{adding_of};
ghost use Rattle.session_table.specs.Reading.{table_of};
ghost use Rattle.session_table.specs.Exactly.{Exactly};

use answer::{Answer, Refusal};
use connection::Connection;
use session_record::{Adding, Session};

// How many records a table has.
pub const RECORDS: usize = 16;

#[derive(Clone, Copy)]
pub struct Table {
    pub records: [Session; RECORDS],
}

impl Table {
    // A table of free records.
    pub fn empty() -> Table
        ensures { result.records ≡ replicate (length result.records) free }
    {
        let none = Session::vacant();
        Table {
            records: [none; RECORDS],
        }
    }

    // Adds a session of a new id in the first free record: 40, 18 to 22. Refused, the table is as it was.
    pub fn add(&mut self, a: Adding, material: &[u8], chain: &[u8]) -> Result<(), Refusal>
        ensures { Returns (adding (adding_of a chain.now material.now)) (only_table (table_of self.old.records)) (number_in result) (only_table (table_of self.new.records))
            × Exactly (adding (adding_of a chain.now material.now)) (only_table (table_of self.old.records)) self.old.records self.new.records }
    {
        session_table::add(&mut self.records, a, material, chain)
    }

    // Opens the message in place with the session that its header names: 1 to 5, 29, 6, 7, 8, 35, 9 to 16. Refused, the message is as it was lent.
    pub fn open(&self, c: Connection, message: &mut [u8]) -> Answer
        ensures { Makes (opening (connection_of c)) (message_and_table message.old (table_of self.now.records)) (answer_of result) (message_and_table message.new (table_of self.now.records)) }
    {
        session_table::open(&self.records, c, message)
    }
}
