// smb3seal-rescue INPUT OUTPUT: copies the good records of a damaged lab trace (RULES 17) into a new file, and writes a line for each gap:
// the place of its first byte in the input, a space, how many bytes are dropped. To an input of more than 65,536 bytes it writes "long", to
// one whose file head cannot be read "stop 0", and then makes no file. What fails is said on standard error, and then there is no new file.
#![tactic(auto)]

mod output;

ghost use Rattle.std.specs.Prelude.{◌≡◌, ltb};

use output::write_new;
use program_files::{Program, argument, gather, has_argument};
use program_text::{Lines, asks_help, asks_version, front};
use std::io;
use std::io::Print;

// One byte more than the program takes.
const ROOM: usize = 65537;

fn is_long(n: usize) -> bool
    ensures { result ≡ ltb 65536 n }
{
    65536 < n
}

// Of an input of at most 65,536 bytes no more come out, with at most 7,282 gaps (`enough-room`): an unreadable file head alone is refused.
// The program has no heap, so that these rooms are fixed.
fn rescue(program: Program<'_>, input: &[u8], to: &[u8]) {
    let mut room = [0u8; 65536];
    let mut list = [0u64; 14564];
    let Ok(rescued) = trace_rescue::rescue(input, &mut room, &mut list) else {
        program.answer(b"stop 0\n");
        return;
    };
    let mut lines: Lines<305844> = Lines::new();
    lines.gap_lines(&list, rescued.gaps);
    if write_new(program, to, front(&room, rescued.written)) {
        program.answer(lines.put_so_far());
    }
}

// The input's first bytes: how many there are.
fn read_input(program: Program<'_>, from: &[u8], input: &mut [u8]) -> io::Result<usize> {
    let mut file = program_files::open(program.rt, from)?;
    let g = gather(&mut file, input, ROOM)?;
    Ok(g.have)
}

// All of the input is read before anything else is done: a read that fails makes no file.
fn rescue_file(program: Program<'_>, from: &[u8], to: &[u8]) {
    let mut input = [0u8; ROOM];
    match read_input(program, from, &mut input) {
        Ok(have) if is_long(have) => {
            program.answer(b"long\n");
        }
        Ok(have) => rescue(program, front(&input, have), to),
        Err(error) => program.complain(from, error),
    }
}

fn usage(to: &impl Print) {
    let _ = to.write_all(b"usage: smb3seal-rescue INPUT OUTPUT\n");
}

// One argument that is no file, or too few of them.
fn rescue_nothing(program: Program<'_>) {
    let mut room = [0u8; 4096];
    let n = argument(program.rt, 1, &mut room).unwrap_or(0);
    let word = front(&room, n);
    if asks_help(word) {
        usage(&program.rt.stdout());
    } else if asks_version(word) {
        program.answer(b"smb3seal-rescue 0.11.0\n");
    } else {
        usage(&program.rt.stderr());
    }
}

// An argument that names a file: how many bytes its name has. One that cannot be taken is said, under the name that the usage gives it.
fn name(program: Program<'_>, i: usize, room: &mut [u8], called: &[u8]) -> Option<usize> {
    match argument(program.rt, i, room) {
        Ok(n) => Some(n),
        Err(error) => {
            program.complain(called, error);
            None
        }
    }
}

fn main(rt: HostRuntime) {
    let program = Program {
        rt: &rt,
        name: b"smb3seal-rescue",
    };
    if !has_argument(&rt, 2) || has_argument(&rt, 3) {
        rescue_nothing(program);
        return;
    }
    let mut from = [0u8; 4096];
    let Some(n) = name(program, 1, &mut from, b"INPUT") else {
        return;
    };
    let mut to = [0u8; 4096];
    let Some(m) = name(program, 2, &mut to, b"OUTPUT") else {
        return;
    };
    rescue_file(program, front(&from, n), front(&to, m));
}
