// A replay on its way: what it reads and writes until the next record has its turn, and what that turn does in the lab.
ghost use Rattle.std.specs.Prelude.{◌≡◌, true, is_err, IsErr, OnOk};
ghost use Rattle.program_text.specs.Lines.{long_line, stop_line};
ghost use Rattle.program_text.specs.Puts.{PutLine};
ghost use Rattle.trace_format.specs.Format.{edition_of};
ghost use Rattle.trace_window.specs.Window.{next_of, begun, behind};
ghost use Rattle.lab_state.specs.Reading.{state_of};
ghost use Rattle.lab.specs.Reading.{outcome_of};
ghost use Rattle.replay.specs.Turning.{is_turn, TurnsIn, line_bytes, goes_on, TurnsTo};

use lab::{Lab, Line, Turn};
use program_files::{Program, read_behind};
use program_text::Lines;
use std::io::Read;
use trace_window::{Cursor, Step, WINDOW, move_up};

// The replay has ended, stopped or failed.
#[derive(Clone, Copy, Debug, PartialEq, Eq)]
pub struct Over;

// What is read has a name, which is said of a read that fails. Window and text are of fixed room: the program has no heap.
#[derive(Drop)]
pub struct Replay<'a> {
    pub program: Program<'a>,
    pub name: &'a [u8],
    pub edition: u8,
    pub lab: Lab,
    pub cursor: Cursor,
    pub window: [u8; WINDOW],
    pub lines: Lines<4096>,
}

// Whether the replay goes on behind it.
fn goes_on(line: Line) -> bool
    ensures { result ≡ goes_on (outcome_of line) }
{
    matches!(line, Line::Number(_) | Line::Long)
}

// The record at hand, in the window's bytes that are the file's.
fn in_window(edition: u8, lab: Lab, window: &mut [u8], c: Cursor) -> Turn
    ensures { TurnsIn (edition_of edition) (state_of lab) c.have c.at window.old window.new result }
{
    let n = c.have.min(window.len());
    lab::replay_at(edition, lab, &mut window[..n], c.at)
}

// Its line, behind the others.
fn put_line(lines: &mut Lines<4096>, line: Line, c: Cursor)
    ensures { PutLine (line_bytes (outcome_of line) c.index c.place) lines.old.text lines.old.used lines.new.used lines.new.text }
{
    match line {
        Line::Number(n) => lines.two_numbers(c.index, u64::from(n)),
        Line::Long => lines.long_line(c.index),
        Line::Stop(_) => lines.stop_line(c.place),
        Line::End => {}
    }
}

impl Replay<'_> {
    // The lines that wait are written.
    pub fn flush(&mut self) -> Result<(), Over>
        ensures none_left { self.new.lines.used ≡ 0 }
        ensures text { self.new.lines.text ≡ self.old.lines.text }
        ensures rest { self.new ≡ record self.old { lines = self.new.lines } }
    {
        let all = self.program.answer(self.lines.put_so_far());
        self.lines.used = 0;
        if all { Ok(()) } else { Err(Over) }
    }

    // They are written where the next line might not fit behind them.
    fn make_room(&mut self) -> Result<(), Over>
        ensures text { self.new.lines.text ≡ self.old.lines.text }
        ensures rest { self.new ≡ record self.old { lines = self.new.lines } }
    {
        if self.lines.has_room() {
            return Ok(());
        }
        self.flush()
    }

    // Reads on, behind what the window has from the record at hand on. The lines so far are written before.
    fn read_on<R: Read>(&mut self, file: &mut R) -> Result<(), Over>
        ensures none_left { self.new.lines.used ≡ 0 }
        ensures text { self.new.lines.text ≡ self.old.lines.text }
        ensures rest { self.new ≡ record self.old { cursor = self.new.cursor; window = self.new.window; lines = self.new.lines } }
    {
        self.flush()?;
        let c = self.cursor;
        let m = move_up(&mut self.window, c.at, c.have);
        match read_behind(file, &mut self.window, m) {
            Ok(n) => {
                self.cursor = c.took(m, n);
                Ok(())
            }
            Err(error) => {
                self.program.complain(self.name, error);
                Err(Over)
            }
        }
    }

    // A long record begins, with a payload of n bytes.
    fn begin_long(&mut self, n: usize)
        ensures cursor { self.new.cursor ≡ begun n self.old.cursor }
        ensures rest { self.new ≡ record self.old { cursor = self.new.cursor } }
    {
        self.cursor = self.cursor.begun(n);
    }

    // A long record that was passed over: its line, and the record behind it.
    fn pass(&mut self)
        ensures put_line { PutLine (long_line self.old.cursor.index) self.old.lines.text self.old.lines.used self.new.lines.used self.new.lines.text }
        ensures cursor { self.new.cursor ≡ behind self.old.cursor.size self.old.cursor.at self.old.cursor }
        ensures rest { self.new ≡ record self.old { cursor = self.new.cursor; lines = self.new.lines } }
    {
        self.lines.long_line(self.cursor.index);
        self.cursor = self.cursor.passed_over();
    }

    // A long record that is cut off: the replay stops at its place.
    fn cut_off(&mut self) -> Result<(), Over>
        ensures put_line { PutLine (stop_line self.old.cursor.place) self.old.lines.text self.old.lines.used self.new.lines.used self.new.lines.text }
        ensures over { IsErr result }
        ensures rest { self.new ≡ record self.old { lines = self.new.lines } }
    {
        self.lines.stop_line(self.cursor.place);
        Err(Over)
    }

    // Goes on until the record at hand has its turn, or the replay is over. Nothing says that a file ends: the steps are counted, up to a
    // number that no run uses up.
    fn ready<R: Read>(&mut self, file: &mut R) -> Result<(), Over>
        ensures turn { OnOk result (is_turn (next_of (edition_of self.old.edition) self.new.cursor self.new.window) ≡ true) }
        ensures rest { self.new ≡ record self.old { cursor = self.new.cursor; window = self.new.window; lines = self.new.lines } }
    {
        for _ in 0..u64::MAX {
            self.make_room()?;
            match self.cursor.next(self.edition, &self.window) {
                Step::Turn => return Ok(()),
                Step::Read => self.read_on(file)?,
                Step::Begin(payload) => self.begin_long(payload),
                Step::Passed => self.pass(),
                Step::CutOff => return self.cut_off(),
            }
        }
        Err(Over)
    }

    // The turn of the record at hand: what it does in the lab, and its line.
    pub fn turn(&mut self) -> Result<(), Over>
        ensures rest { self.new ≡ record self.old { lab = self.new.lab; cursor = self.new.cursor; window = self.new.window; lines = self.new.lines } }
        ensures turns { TurnsTo (edition_of self.old.edition) (state_of self.old.lab) self.old.cursor self.old.window self.old.lines.text self.old.lines.used (state_of self.new.lab) self.new.cursor self.new.window self.new.lines.text self.new.lines.used (is_err result) }
    {
        let c = self.cursor;
        let turn = in_window(self.edition, self.lab, &mut self.window, c);
        put_line(&mut self.lines, turn.line, c);
        self.lab = turn.lab;
        self.cursor = c.turned(turn.next);
        if goes_on(turn.line) {
            Ok(())
        } else {
            Err(Over)
        }
    }

    // The records, one after the other, until the replay is over.
    pub fn run<R: Read>(&mut self, file: &mut R) -> Result<(), Over> {
        for _ in 0..u64::MAX {
            self.ready(file)?;
            self.turn()?;
        }
        Ok(())
    }
}
