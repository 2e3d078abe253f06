// The writer of lab traces (RULES 16): one edition, into lent room.
#![tactic(auto)]

ghost use Rattle.std.specs.Prelude.{◌≡◌, ◌+◌, ◌*◌, ◌≤◌, ◌<◌, true, ◌++◌, length};
ghost use Rattle.std.proofs.Math.Seq.{paste};
ghost use Rattle.trace_format.specs.Format.{edition_of, admitted};
ghost use Rattle.trace_format.specs.Records.{bit, record_head, file_head_bytes, head_writable, record_bytes, writable, written_edition};
ghost use Rattle.trace_writer.specs.Answers.{Writes, record_with};

use big_endian::to_bytes;
use runs::copy;
use trace_format::Layout;
pub use trace_format::Unreadable;

// The edition of every record that is written.
const WRITTEN: u8 = 2;

// The head of a record whose length stands in its field.
fn head_number(kind: u32, from_server: bool, field: usize) -> u32
    requires { (kind ≤ 3) × (field < 268435456) }
    ensures { result ≡ kind * 536870912 + bit from_server * 268435456 + field }
{
    kind * 536870912 + u32::from(from_server) * 268435456 + (field as u32)
}

// The four bytes before a payload of n bytes.
fn head_bytes(kind: u32, from_server: bool, n: usize) -> [u8; 4]
    requires { admitted (edition_of written_edition) kind n ≡ true }
    ensures { result ≡ record_head (edition_of written_edition) kind from_server n }
{
    to_bytes(u64::from(head_number(kind, from_server, n * Layout::SECOND.unit)))
}

// Puts head and payload in the place of the bytes from `at` on.
fn put_record(room: &mut [u8], at: usize, head: [u8; 4], payload: &[u8])
    requires { at + (4 + length payload.now) ≤ length room.old }
    ensures { room.new ≡ paste room.old at (head ++ payload.now) (length (head ++ payload.now)) }
{
    copy(room, at, &head);
    copy(room, at + 4, payload);
}

// Writes a file head at the start of the room: the place behind it.
pub fn write_file_head(
    edition: u8,
    dialect: u16,
    cipher: u16,
    room: &mut [u8],
) -> Result<usize, Unreadable>
    ensures { Writes (head_writable edition cipher) (file_head_bytes edition dialect cipher) room.old 0 result room.new }
{
    let other = edition != WRITTEN;
    if other || 256 <= cipher || room.len() < 4 {
        return Err(Unreadable);
    }
    let number = u32::from(edition) * 16777216 + u32::from(dialect) * 256 + u32::from(cipher);
    let head: [u8; 4] = to_bytes(u64::from(number));
    copy(room, 0, &head);
    Ok(4)
}

// Writes a record at a place of the room: the place behind it.
pub fn write_record(
    kind: u32,
    from_server: bool,
    payload: &[u8],
    room: &mut [u8],
    at: usize,
) -> Result<usize, Unreadable>
    ensures { Writes (writable (edition_of written_edition) (record_with kind from_server payload.now)) (record_bytes (edition_of written_edition) (record_with kind from_server payload.now)) room.old at result room.new }
{
    let n = payload.len();
    if !Layout::SECOND.admits(kind as usize, n) {
        return Err(Unreadable);
    }
    // an admitted payload is short: this sum does not wrap, where at + 4 + n could
    if room.len().saturating_sub(at) < 4 + n {
        return Err(Unreadable);
    }
    put_record(room, at, head_bytes(kind, from_server, n), payload);
    Ok(at + 4 + n)
}
