// What is said and written. A file that is made holds keys: nobody else may read it, at no time.
use program_files::{NAME_TOO_LONG, Program, create, create_private, fill, remove, rename};
use std::io;
use std::random::RandomSource;
use std::rt::Files;

// How often another name is tried where one is taken.
const TRIES: usize = 238328;

const LETTERS: &[u8; 62] = b"abcdefghijklmnopqrstuvwxyzABCDEFGHIJKLMNOPQRSTUVWXYZ0123456789";

// The last six letters of a name are replaced by what the system picks at random.
fn pick(source: &impl RandomSource, name: &mut [u8]) -> io::Result<()> {
    let mut picked = [0u8; 6];
    source.fill_bytes(&mut picked)?;
    let at = name.len().saturating_sub(6);
    for (letter, random) in name[at..].iter_mut().zip(picked) {
        *letter = LETTERS[(random % 62) as usize];
    }
    Ok(())
}

// A new file for its owner alone, under a name that nobody has: the last six letters are picked.
fn create_temporary<R: Files + RandomSource>(rt: &R, name: &mut [u8]) -> io::Result<R::File> {
    for _ in 0..TRIES {
        pick(rt, name)?;
        match create_private(rt, name) {
            Err(error) if error.kind() == io::ErrorKind::AlreadyExists => {}
            made => return made,
        }
    }
    Err(io::Error::from(io::ErrorKind::AlreadyExists))
}

// Writes the bytes to a file of its own, and gives it the name. Where that fails, the file goes again.
fn write_and_name<R: Files + RandomSource>(
    rt: &R,
    temporary: &mut [u8],
    path: &[u8],
    bytes: &[u8],
) -> io::Result<()> {
    let file = create_temporary(rt, temporary)?;
    let done = fill(file, bytes).and_then(|()| rename(rt, temporary, path));
    if done.is_err() {
        let _ = remove(rt, temporary);
    }
    done
}

// The bytes go to a file in the same folder, which is made for its owner alone, and which then takes the name.
fn write_beside<R: Files + RandomSource>(rt: &R, path: &[u8], bytes: &[u8]) -> io::Result<()> {
    let mut room = [0u8; 4096];
    // a name that fills the room is as long as no path that the system takes
    match program_text::beside(path, &mut room) {
        Some(n) if n < room.len() => write_and_name(rt, &mut room[..n], path, bytes),
        _ => Err(io::Error::from_raw_os_error(NAME_TOO_LONG)),
    }
}

// Makes a new file of these bytes. An empty file claims the name first, so that one that is taken is left as it is; where a later step fails,
// it goes again.
fn make_new<R: Files + RandomSource>(rt: &R, path: &[u8], bytes: &[u8]) -> io::Result<()> {
    let claim = create(rt, path)?;
    drop(claim);
    let done = write_beside(rt, path, bytes);
    if done.is_err() {
        let _ = remove(rt, path);
    }
    done
}

// Whether a new file was made of these bytes. If not, that is said.
pub fn write_new(program: Program<'_>, path: &[u8], bytes: &[u8]) -> bool {
    match make_new(program.rt, path, bytes) {
        Ok(()) => true,
        Err(error) => {
            program.complain(path, error);
            false
        }
    }
}
