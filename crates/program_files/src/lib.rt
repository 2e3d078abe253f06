// Files as the programs of lab traces use them: each function here makes a call or two of the library. Which bytes a file gives and
// where they go no contract can say; what becomes of what is lent, these do.
#![tactic(auto)]

ghost use Rattle.std.specs.Prelude.{◌≡◌, ◌≤◌, length, IfOk, OnErr};
ghost use Rattle.program_files.specs.Reads.{ReadsBehind, Gathers};

use std::env::{Env, FillError};
use std::fs::{OpenFile, OpenOptions};
use std::io::{Cursor, ErrorKind, Print, Read, Write};
use std::os::unix::fs::OpenOptionsExt;
use std::rt::Files;
use std::{fs, io, str};

// The system's numbers of two errors: a name that is too long, and bytes that are no text.
pub const NAME_TOO_LONG: i32 = 36;

const NO_TEXT: i32 = 84;

// Reads once behind the window's first `have` bytes: how many came, none at the end of the file. A window without room counts as a read
// that failed, and not as the end.
pub fn read_behind<R: Read>(file: &mut R, window: &mut [u8], have: usize) -> io::Result<usize>
    ensures { ReadsBehind window.old have result window.new }
{
    if window.len() <= have {
        return Err(io::Error::from(ErrorKind::InvalidInput));
    }
    file.read(&mut window[have..])
}

// The window's first `have` bytes were read; then the file ended, or not.
#[derive(Clone, Copy)]
pub struct Gathered {
    pub have: usize,
    pub ended: bool,
}

// Reads from the window's start on until n bytes are there. Where a read fails, the window holds what came before it.
pub fn gather<R: Read>(file: &mut R, window: &mut [u8], n: usize) -> io::Result<Gathered>
    ensures ok { IfOk result (λ r. Gathers n r window.new) }
    ensures err { OnErr result (length window.new ≡ length window.old) }
{
    let mut have: usize = 0;
    while have < n {
        let more = read_behind(file, window, have)?;
        if more == 0 {
            return Ok(Gathered { have, ended: true });
        }
        have += more;
    }
    Ok(Gathered { have, ended: false })
}

// Where the words of an error end: the system's number, which the library puts behind them in parentheses, is left out.
fn words_end(text: &[u8]) -> usize
    ensures { result ≤ length text.now }
{
    match text.iter().rposition(|b| *b == b'(') {
        Some(i) => i.saturating_sub(1),
        None => text.len(),
    }
}

// The error in the library's form, put at the start of the room: how many bytes. What has no room is left out.
fn put_error(error: io::Error, room: &mut [u8]) -> usize {
    let mut text = Cursor::new(room);
    let _ = write!(text, "{error}");
    text.position() as usize
}

// The words for an error, put at the start of the room: how many bytes they are.
fn reason(error: io::Error, room: &mut [u8]) -> usize
    ensures { result ≤ length room.new }
{
    let n = put_error(error, room).min(room.len());
    if error.raw_os_error().is_none() {
        return n;
    }
    words_end(&room[..n])
}

// A program, whose words on standard error begin with its name.
#[derive(Clone, Copy)]
pub struct Program<'a> {
    pub rt: &'a HostRuntime,
    pub name: &'a [u8],
}

impl Program<'_> {
    // A line on standard error: the program, what failed, and why. Where it cannot be written, nobody is told.
    pub fn complain(&self, what: &[u8], error: io::Error) {
        let mut room = [0u8; 256];
        let n = reason(error, &mut room);
        let to = self.rt.stderr();
        for part in [self.name, b": ", what, b": ", &room[..n], b"\n"] {
            let _ = to.write_all(part);
        }
    }

    // Writes to standard output: whether all of it was taken. If not, that is said on standard error.
    pub fn answer(&self, text: &[u8]) -> bool {
        match self.rt.stdout().write_all(text) {
            Ok(()) => true,
            Err(error) => {
                self.complain(b"standard output", error);
                false
            }
        }
    }
}

// ---- arguments and names

// Whether the program was started with an argument of this number; 0 is its own name.
pub fn has_argument(env: &impl Env, i: usize) -> bool {
    let mut none = [0u8; 1];
    !matches!(env.arg(i, &mut none), Err(FillError::NotPresent))
}

// An argument, put at the start of the room: how many bytes it has. One that is not there is the error of a file that is not there.
pub fn argument(env: &impl Env, i: usize, room: &mut [u8]) -> io::Result<usize>
    ensures { IfOk result (λ n. n ≤ length room.new) }
{
    env.arg(i, room).map_err(|error| match error {
        FillError::TooLong => io::Error::from_raw_os_error(NAME_TOO_LONG),
        FillError::NotPresent => io::Error::from(ErrorKind::NotFound),
    })
}

// A name as the library takes it: one that is not UTF-8 names no file.
fn text_of(name: &[u8]) -> io::Result<&str> {
    str::from_utf8(name).map_err(|_| io::Error::from_raw_os_error(NO_TEXT))
}

// ---- files by their names

pub fn open<R: Files>(files: &R, name: &[u8]) -> io::Result<R::File> {
    fs::open(files, text_of(name)?)
}

// A new file that may be read by whom the process's mask lets; where the name is taken, an error.
pub fn create<R: Files>(files: &R, name: &[u8]) -> io::Result<R::File> {
    OpenOptions::new()
        .write(true)
        .create_new(true)
        .open(files, text_of(name)?)
}

// The same, but nobody other than its owner may read it, at no time.
pub fn create_private<R: Files>(files: &R, name: &[u8]) -> io::Result<R::File> {
    OpenOptions::new()
        .write(true)
        .create_new(true)
        .mode(0o600)
        .open(files, text_of(name)?)
}

// Writes the bytes to a file, and closes it. They are given to the disk before, since nobody is told of an error that comes with the close.
pub fn fill<F: Write + OpenFile + Drop>(mut file: F, bytes: &[u8]) -> io::Result<()> {
    file.write_all(bytes)?;
    file.sync_all()
}

pub fn rename(files: &impl Files, from: &[u8], to: &[u8]) -> io::Result<()> {
    fs::rename(files, text_of(from)?, text_of(to)?)
}

pub fn remove(files: &impl Files, name: &[u8]) -> io::Result<()> {
    fs::remove_file(files, text_of(name)?)
}
