// smb3seal-replay [FILE]: replays a lab trace (RULES 16) from the file, or from standard input. Each record gets a line: its index from 0, a
// space and its answer number, or "long". The last line of a replay that stops is "stop", a space and the place where that record begins.
// What fails is said on standard error, and then no further line is written.
#![tactic(auto)]

mod replay;

use lab::Lab;
use program_files::{Program, argument, gather, has_argument, open};
use program_text::{Lines, asks_help, asks_version, front};
use replay::Replay;
use std::io::{IsTerminal, Print, Read};
use trace_reader::read_file_head;
use trace_window::{Cursor, WINDOW};

fn replay_bytes<'a, R: Read>(program: Program<'a>, file: &mut R, name: &'a [u8]) {
    // the window is read where it stays, and is too large to be moved
    let mut replay = Replay {
        program,
        name,
        edition: 0,
        lab: Lab::new(0, 0),
        cursor: Cursor::first(0, false),
        window: [0u8; WINDOW],
        lines: Lines::new(),
    };
    let g = match gather(file, &mut replay.window, 4) {
        Ok(g) => g,
        Err(error) => {
            program.complain(name, error);
            return;
        }
    };
    let Ok(head) = read_file_head(front(&replay.window, g.have)) else {
        program.answer(b"stop 0\n");
        return;
    };
    replay.edition = head.edition;
    replay.lab = Lab::new(head.dialect, u16::from(head.cipher));
    replay.cursor = Cursor::first(g.have, g.ended);
    let _ = replay.run(file);
    let _ = replay.flush();
}

fn usage(to: &impl Print) {
    let _ = to.write_all(b"usage: smb3seal-replay [FILE]\n");
}

fn replay_file(program: Program<'_>, path: &[u8]) {
    match open(program.rt, path) {
        Ok(mut file) => replay_bytes(program, &mut file, path),
        Err(error) => program.complain(path, error),
    }
}

// The one argument: a file, or a word that is none.
fn replay_argument(program: Program<'_>) {
    let mut room = [0u8; 4096];
    let n = match argument(program.rt, 1, &mut room) {
        Ok(n) => n,
        Err(error) => {
            program.complain(b"FILE", error);
            return;
        }
    };
    let word = front(&room, n);
    if asks_help(word) {
        usage(&program.rt.stdout());
    } else if asks_version(word) {
        program.answer(b"smb3seal-replay 0.11.0\n");
    } else {
        replay_file(program, word);
    }
}

// No argument at a terminal is a question, and no trace.
fn main(rt: HostRuntime) {
    let program = Program {
        rt: &rt,
        name: b"smb3seal-replay",
    };
    if has_argument(&rt, 2) {
        usage(&rt.stderr());
    } else if has_argument(&rt, 1) {
        replay_argument(program);
    } else if rt.stdin().is_terminal() {
        usage(&rt.stderr());
    } else {
        replay_bytes(program, &mut rt.stdin(), b"standard input");
    }
}
