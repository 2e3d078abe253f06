// The calls from C with a session table: a run of `struct smb3seal_session` that the caller lends, any bytes of which are a table.
ghost use Rattle.std.specs.Prelude.{◌≡◌};
ghost use Rattle.protocol.specs.Calls.{adding, removing, sealing, opening, only_table, message_and_table};
ghost use Rattle.protocol.specs.Contract.{Returns};
ghost use Rattle.connection.specs.Reading.{connection_of};
ghost use Rattle.session_record.specs.Adds.{adding_for, adding_of};
ghost use Rattle.session_table.specs.Reading.{table_of};
ghost use Rattle.session_table.specs.Place.{place_of};
ghost use Rattle.session_table.specs.Exactly.{Exactly};
ghost use Rattle.smb3seal.specs.Exports.{Reports};

use answer::{number, report};
use connection::Connection;
use session_record::{Adding, Session};

// The place of the session of the id, or the table's length where there is none.
pub fn smb3seal_table_find(table: &[Session], id: u64) -> usize
    ensures { result ≡ place_of id table.now }
{
    session_table::find(table, id).unwrap_or(table.len())
}

// Adds a session of a new id in the first free record.
pub fn smb3seal_table_add(
    table: &mut [Session],
    connection: Connection,
    id: u64,
    guest: u32,
    anonymous: u32,
    material: &[u8],
    chain: &[u8],
) -> u32
    ensures { Returns (adding (adding_of (adding_for connection id guest anonymous) chain.now material.now)) (only_table (table_of table.old)) result (only_table (table_of table.new))
        × Exactly (adding (adding_of (adding_for connection id guest anonymous) chain.now material.now)) (only_table (table_of table.old)) table.old table.new }
{
    let a = Adding::new(connection, id, guest, anonymous);
    number(session_table::add(table, a, material, chain))
}

// Takes the session of the id out, its keys with it.
pub fn smb3seal_table_remove(table: &mut [Session], id: u64) -> u32
    ensures { Returns (removing id) (only_table (table_of table.old)) result (only_table (table_of table.new))
        × Exactly (removing id) (only_table (table_of table.old)) table.old table.new }
{
    number(session_table::remove(table, id))
}

// Seals the message in place for the session of the id.
pub fn smb3seal_table_seal(
    table: &mut [Session],
    connection: Connection,
    id: u64,
    message: &mut [u8],
    headers: &mut u64,
) -> u32
    ensures { Reports (sealing (connection_of connection) id) (message_and_table message.old (table_of table.old)) result (message_and_table message.new (table_of table.new)) headers.old headers.new
        × Exactly (sealing (connection_of connection) id) (message_and_table message.old (table_of table.old)) table.old table.new }
{
    let answer = session_table::seal(table, connection, id, message);
    report(answer, headers)
}

// Opens the message in place with the session that its header names.
pub fn smb3seal_table_open(
    table: &[Session],
    connection: Connection,
    message: &mut [u8],
    headers: &mut u64,
) -> u32
    ensures { Reports (opening (connection_of connection)) (message_and_table message.old (table_of table.now)) result (message_and_table message.new (table_of table.now)) headers.old headers.new }
{
    let answer = session_table::open(table, connection, message);
    report(answer, headers)
}
