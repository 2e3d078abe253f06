// What a replay decides about the window through which it reads its file: when there is more to read, when a record has its turn, how much is
// passed over of one that is not held, and where the next one begins.
#![tactic(auto)]

ghost use Rattle.std.specs.Prelude.{◌≡◌, ◌-◌, drop, length, take};
ghost use Rattle.trace_format.specs.Format.{edition_of, read_head};
ghost use Rattle.trace_window.specs.Window as window;

use program_text::{behind, front};
use trace_reader::read_head;

// The longest payload that is held.
pub const HELD: usize = 65536;

// A window that holds it with its head.
pub const WINDOW: usize = 65540;

// The window's first `have` bytes are the file's, and the record at hand begins at `at`. Of one that is not held, of `size` bytes, `left` are
// still to be passed over; else both are 0. Its place in the file and its index are those of its line.
#[derive(Clone, Copy, Debug, PartialEq, Eq)]
pub struct Cursor {
    pub at: usize,
    pub have: usize,
    pub left: usize,
    pub size: usize,
    pub ended: bool,
    pub place: u64,
    pub index: u64,
}

#[derive(Clone, Copy, Debug, PartialEq, Eq)]
pub enum Step {
    // The record at hand is in the window, or all that is left of the file.
    Turn,
    // There may be more of it to read.
    Read,
    // It is not held: a head and a payload of so many bytes are to be passed over.
    Begin(usize),
    // They are.
    Passed,
    // The file ended before.
    CutOff,
}

// The file's bytes in the window, from a place on.
pub fn held_in(bytes: &[u8], at: usize, have: usize) -> &[u8]
    ensures { result.now ≡ drop at (take have bytes.now) }
{
    behind(front(bytes, have), at)
}

// What comes next at a record that begins these bytes.
fn judged(edition: u8, bytes: &[u8], ended: bool) -> Step
    ensures { result ≡ window.by_head (read_head (edition_of edition) bytes.now) (length bytes.now) ended }
{
    match read_head(edition, bytes) {
        Ok(head) if HELD < head.len => Step::Begin(head.len),
        Ok(head) if 4 + head.len <= bytes.len() => Step::Turn,
        Err(_) if 4 <= bytes.len() => Step::Turn,
        _ if ended => Step::Turn,
        _ => Step::Read,
    }
}

impl Cursor {
    // At the first record, behind the file head, with the window's first `have` bytes read.
    pub fn first(have: usize, ended: bool) -> Cursor
        ensures { result ≡ window.first have ended }
    {
        Cursor {
            at: 4,
            have,
            left: 0,
            size: 0,
            ended,
            place: 4,
            index: 0,
        }
    }

    #[tactic(auto, unfolding(crate::specs::Window::next_of))]
    pub fn next(self, edition: u8, bytes: &[u8]) -> Step
        ensures { result ≡ window.next_of (edition_of edition) self bytes.now }
    {
        if 0 < self.left {
            if self.ended {
                return Step::CutOff;
            }
            return Step::Read;
        }
        if 0 < self.size {
            return Step::Passed;
        }
        judged(edition, held_in(bytes, self.at, self.have), self.ended)
    }

    // Of a record that is not held, as many bytes are passed over as there are.
    #[tactic(auto, unfolding(crate::specs::Window::passed))]
    fn passed(self) -> Cursor
        ensures { result ≡ window.passed self }
    {
        let n = self.left.min(self.have.saturating_sub(self.at));
        Cursor {
            at: self.at + n,
            left: self.left - n,
            ..self
        }
    }

    // A record begins that is not held, with a payload of n bytes.
    #[tactic(auto, unfolding(crate::specs::Window::begun))]
    pub fn begun(self, n: usize) -> Cursor
        ensures { result ≡ window.begun n self }
    {
        let size = 4usize.wrapping_add(n);
        let begun = Cursor {
            left: size,
            size,
            ..self
        };
        begun.passed()
    }

    // n bytes were read behind the first m; none at the end of the file.
    #[tactic(auto, unfolding(crate::specs::Window::took))]
    pub fn took(self, m: usize, n: usize) -> Cursor
        ensures { result ≡ window.took m n self }
    {
        let read = Cursor {
            at: 0,
            have: m.wrapping_add(n),
            ended: n == 0,
            ..self
        };
        read.passed()
    }

    // The record at hand had n bytes, and the next one begins in the window at q.
    fn behind_record(self, n: usize, q: usize) -> Cursor
        ensures { result ≡ window.behind n q self }
    {
        Cursor {
            at: q,
            left: 0,
            size: 0,
            place: self.place.wrapping_add(n as u64),
            index: self.index.wrapping_add(1),
            ..self
        }
    }

    // After the turn of a record up to q.
    pub fn turned(self, q: usize) -> Cursor
        ensures { result ≡ window.behind (q - self.at) q self }
    {
        self.behind_record(q.saturating_sub(self.at), q)
    }

    // After a record that was passed over.
    pub fn passed_over(self) -> Cursor
        ensures { result ≡ window.behind self.size self.at self }
    {
        self.behind_record(self.size, self.at)
    }
}

// Moves what the window has from a place on to its start: how many bytes these are.
pub fn move_up(bytes: &mut [u8], at: usize, have: usize) -> usize
    ensures { window.MovesUp bytes.old at have result bytes.new }
{
    let have = have.min(bytes.len());
    let at = at.min(have);
    bytes.copy_within(at..have, 0);
    have - at
}
