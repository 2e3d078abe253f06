// A run of session records that the caller lends, and the calls with it (RULES 10). Each finds the record, and leaves to `session_calls` what there
// is to decide about it.
#![tactic(auto)]

ghost use Rattle.std.specs.Prelude.{◌≡◌, ℕ, ◌<◌, true, false, length, position, IfSome};
ghost use Rattle.protocol.specs.Calls.{adding, removing, sealing, opening, only_table, message_and_table};
ghost use Rattle.protocol.specs.Contract.{Makes, Returns};
ghost use Rattle.answer.specs.Reading.{number_in, answer_of};
ghost use Rattle.connection.specs.Reading.{connection_of};
ghost use Rattle.session_record.specs.Reading.{is_wanted, stepped};
ghost use Rattle.session_record.specs.Adds.{adding_of};
ghost use Rattle.session_table.specs.Place.{first, place_in, record_at, put_at};
ghost use Rattle.session_table.specs.Reading.{table_of};
ghost use Rattle.session_table.specs.Exactly.{Exactly};

use answer::{Answer, Refusal};
use connection::Connection;
use session_record::{Adding, Session};

// The place of the session of the id.
pub fn find(table: &[Session], id: u64) -> Option<usize>
    ensures first { result ≡ position (is_wanted true id) table.now }
    ensures place { place_in table.now result ≡ first (is_wanted true id) table.now }
    ensures inside { IfSome result (λ i. i < length table.now) }
{
    table.iter().position(|s| s.is_session(id))
}

// The first free place.
pub fn find_free(table: &[Session]) -> Option<usize>
    ensures first { (id : ℕ) → result ≡ position (is_wanted false id) table.now }
    ensures place { (id : ℕ) → place_in table.now result ≡ first (is_wanted false id) table.now }
    ensures inside { IfSome result (λ i. i < length table.now) }
{
    table.iter().position(|s| s.is_free())
}

// The record at a place, or a free one past the end.
pub fn at(table: &[Session], i: usize) -> Session
    ensures { result ≡ record_at i table.now }
{
    if i < table.len() {
        return table[i];
    }
    Session::vacant()
}

// A record to a place; past the end nothing changes.
pub fn put_at(table: &mut [Session], i: usize, s: Session)
    ensures { table.new ≡ put_at i s table.old }
{
    if i < table.len() {
        table[i] = s;
    }
}

// The record at a place that was found, or a free one where none was.
fn record(table: &[Session], place: Option<usize>) -> Session
    ensures { result ≡ record_at (place_in table.now place) table.now }
{
    match place {
        Some(i) => at(table, i),
        None => Session::vacant(),
    }
}

// A record to a place that was found.
fn put(table: &mut [Session], place: Option<usize>, s: Session)
    ensures { table.new ≡ put_at (place_in table.old place) s table.old }
{
    if let Some(i) = place {
        put_at(table, i, s);
    }
}

// The counter step of the record at a place: up by that many, and unchanged where it would pass the last.
pub fn step(table: &mut [Session], i: usize, by: u64)
    ensures { table.new ≡ put_at i (stepped by (record_at i table.old)) table.old }
{
    let s = at(table, i).stepped(by);
    put_at(table, i, s);
}

// Adds a session of a new id in the first free record: 40, 18 to 22. Refused, the table is as it was.
pub fn add(table: &mut [Session], a: Adding, material: &[u8], chain: &[u8]) -> Result<(), Refusal>
    ensures { Returns (adding (adding_of a chain.now material.now)) (only_table (table_of table.old)) (number_in result) (only_table (table_of table.new))
        × Exactly (adding (adding_of a chain.now material.now)) (only_table (table_of table.old)) table.old table.new }
{
    let taken = find(table, a.id).is_some();
    let free = find_free(table);
    let s = session_calls::add_record(a, taken, free.is_some(), material, chain)?;
    put(table, free, s);
    Ok(())
}

// Takes the session of the id out, its keys with it: 6.
pub fn remove(table: &mut [Session], id: u64) -> Result<(), Refusal>
    ensures { Returns (removing id) (only_table (table_of table.old)) (number_in result) (only_table (table_of table.new))
        × Exactly (removing id) (only_table (table_of table.old)) table.old table.new }
{
    let i = find(table, id).ok_or(Refusal::OtherSession)?;
    table[i] = Session::vacant();
    Ok(())
}

// Seals the message in place for the session of the id: 1, 2, 3, 6, 7, 8, 35, 11 to 16, 17. Refused, the message and the table are as they were.
pub fn seal(table: &mut [Session], c: Connection, id: u64, message: &mut [u8]) -> Answer
    ensures { Makes (sealing (connection_of c) id) (message_and_table message.old (table_of table.old)) (answer_of result) (message_and_table message.new (table_of table.new))
        × Exactly (sealing (connection_of c) id) (message_and_table message.old (table_of table.old)) table.old table.new }
{
    let place = find(table, id);
    let s = record(table, place);
    let headers = session_calls::seal_record(&s, c, id, message)?;
    if let Some(i) = place {
        step(table, i, 1);
    }
    Ok(headers)
}

// Opens the message in place with the session that its header names: 1 to 5, 29, 6, 7, 8, 35, 9 to 16. Refused, the message is as it was.
pub fn open(table: &[Session], c: Connection, message: &mut [u8]) -> Answer
    ensures { Makes (opening (connection_of c)) (message_and_table message.old (table_of table.now)) (answer_of result) (message_and_table message.new (table_of table.now)) }
{
    let id = session_record::session_id(message);
    let s = record(table, find(table, id));
    session_calls::open_record(&s, c, message)
}
