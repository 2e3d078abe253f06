// The reader of lab traces (RULES 16): any bytes and any place get an answer.
#![tactic(auto)]

ghost use Rattle.std.specs.Prelude.{◌≡◌};
ghost use Rattle.trace_format.specs.Format.{edition_of, read_file_head, read_head, read_at, read_in};
ghost use Rattle.trace_reader.specs.Answers.{file_reading_of, head_reading_of, reading_of};

use big_endian::number_at;
pub use trace_format::Unreadable;
use trace_format::layout_of;

#[derive(Clone, Copy, Debug, PartialEq, Eq)]
pub struct FileHead {
    pub edition: u8,
    pub dialect: u16,
    pub cipher: u8,
}

// The payload has len bytes. Kind and edition stay numbers: C is told them, and `read_head`, `lab_steps::step` and `Layout::admits` answer for any.
#[derive(Clone, Copy, Debug, PartialEq, Eq)]
pub struct Head {
    pub kind: u8,
    pub from_server: bool,
    pub len: usize,
}

// The payload is len bytes from start on; the next record begins at next.
#[derive(Clone, Copy, Debug, PartialEq, Eq)]
pub struct Record {
    pub kind: u8,
    pub from_server: bool,
    pub start: usize,
    pub len: usize,
    pub next: usize,
}

// The head of a file that begins with these bytes.
pub fn read_file_head(b: &[u8]) -> Result<FileHead, Unreadable>
    ensures { file_reading_of result ≡ read_file_head b.now }
{
    if b.len() < 4 {
        return Err(Unreadable);
    }
    let h = number_at::<4>(b, 0);
    let edition = (h / 16777216) as u8;
    let unknown = layout_of(edition).is_none();
    if unknown {
        return Err(Unreadable);
    }
    Ok(FileHead {
        edition,
        dialect: (h / 256 % 65536) as u16,
        cipher: (h % 256) as u8,
    })
}

// The head of a record that begins with these bytes: four are enough, and the payload need not be there.
pub fn read_head(edition: u8, b: &[u8]) -> Result<Head, Unreadable>
    ensures { head_reading_of result ≡ read_head (edition_of edition) b.now }
{
    let layout = layout_of(edition).ok_or(Unreadable)?;
    if b.len() < 4 {
        return Err(Unreadable);
    }
    let unit = layout.unit;
    let h = number_at::<4>(b, 0) as usize;
    let kind = h / 536870912;
    let len = h % 268435456 / unit;
    let spare = h % unit;
    if spare != 0 {
        return Err(Unreadable);
    }
    if !layout.admits(kind, len) {
        return Err(Unreadable);
    }
    Ok(Head {
        kind: kind as u8,
        from_server: h / 268435456 % 2 == 1,
        len,
    })
}

// The record at a place of a file. No byte left is the end, and no record.
pub fn read_record(edition: u8, file: &[u8], at: usize) -> Result<Option<Record>, Unreadable>
    ensures { reading_of result ≡ read_at (edition_of edition) file.now at }
{
    if file.len() <= at {
        return Ok(None);
    }
    let head = read_head(edition, &file[at..])?;
    // a head was read, so that four bytes are there; this difference does not wrap, where the sum at + 4 + len could
    if file.len() - at - 4 < head.len {
        return Err(Unreadable);
    }
    Ok(Some(Record {
        kind: head.kind,
        from_server: head.from_server,
        start: at + 4,
        len: head.len,
        next: at + 4 + head.len,
    }))
}

// The record at a place of a file that begins with its head. Under a bad head no place can be read.
pub fn read_in(file: &[u8], at: usize) -> Result<Option<Record>, Unreadable>
    ensures { reading_of result ≡ read_in file.now at }
{
    let head = read_file_head(file)?;
    read_record(head.edition, file, at)
}
