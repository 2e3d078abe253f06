// Lines, put one behind the other into a lent text, or into one of fixed room.
ghost use Rattle.std.specs.Prelude.{◌≡◌, ◌+◌, ◌≤◌, length, take};
ghost use Rattle.program_text.specs.Lines.{decimal, two_numbers, long_line, stop_line};
ghost use Rattle.program_text.specs.Puts.{Put, roomy, PutLine, gaps_fit, PutGaps, PutGapsAt};

use crate::parts::front;
use runs::copy;

fn put(text: &mut [u8], at: usize, words: &[u8]) -> usize
    requires { at + length words.now ≤ length text.old }
    ensures { Put words.now text.old at result text.new }
{
    copy(text, at, words);
    at + words.len()
}

fn put_decimal(text: &mut [u8], at: usize, n: u64) -> usize
    requires { at + 20 ≤ length text.old }
    ensures { Put (decimal n) text.old at result text.new }
{
    let mut digits = [0u8; 20];
    let k = io::decimal(n, &mut digits);
    put(text, at, &digits[..k])
}

// Whether any line fits behind a place.
pub fn has_room(text: &[u8], at: usize) -> bool
    ensures { result ≡ roomy text.now at }
{
    42 <= text.len() && at <= text.len() - 42
}

// Two numbers and a space between them: the place behind the line. Where a line might not fit, nothing is put.
pub fn two_numbers(text: &mut [u8], at: usize, a: u64, b: u64) -> usize
    ensures { PutLine (two_numbers a b) text.old at result text.new }
{
    if !has_room(text, at) {
        return at;
    }
    let p = put_decimal(text, at, a);
    let q = put(text, p, b" ");
    let e = put_decimal(text, q, b);
    put(text, e, b"\n")
}

// An index, and "long".
pub fn long_line(text: &mut [u8], at: usize, index: u64) -> usize
    ensures { PutLine (long_line index) text.old at result text.new }
{
    if !has_room(text, at) {
        return at;
    }
    let p = put_decimal(text, at, index);
    put(text, p, b" long\n")
}

// "stop", and a place.
pub fn stop_line(text: &mut [u8], at: usize, place: u64) -> usize
    ensures { PutLine (stop_line place) text.old at result text.new }
{
    if !has_room(text, at) {
        return at;
    }
    let p = put(text, at, b"stop ");
    let q = put_decimal(text, p, place);
    put(text, q, b"\n")
}

// Whether so many gaps are in a list of this length, and a line for each in a text of this one. The products could wrap.
fn gaps_fit(text: usize, list: usize, gaps: usize) -> bool
    ensures { result ≡ gaps_fit text list gaps }
{
    gaps <= text / 42 && gaps <= list / 2
}

// A line for each gap, place and length, behind a place.
fn gap_lines_at(text: &mut [u8], start: usize, list: &[u64], gaps: usize) -> usize
    ensures { PutGapsAt gaps list.now text.old start result text.new }
{
    if !gaps_fit(text.len().saturating_sub(start), list.len(), gaps) {
        return start;
    }
    let mut at = start;
    for i in 0..gaps {
        at = two_numbers(text, at, list[2 * i], list[2 * i + 1]);
    }
    at
}

// A line for each gap, place and length: the place behind the last one. Where they might not fit, nothing is put.
pub fn gap_lines(text: &mut [u8], list: &[u64], gaps: usize) -> usize
    ensures { PutGaps gaps list.now text.old result text.new }
{
    gap_lines_at(text, 0, list, gaps)
}

// The text's first `used` bytes. The programs have no heap: the room is fixed, and a line that might not fit is not put.
#[derive(Drop)]
pub struct Lines<const N: usize> {
    pub text: [u8; N],
    pub used: usize,
}

impl<const N: usize> Lines<N> {
    pub fn new() -> Self
        ensures { result.used ≡ 0 }
    {
        Lines {
            text: [0; N],
            used: 0,
        }
    }

    // The lines that were put.
    pub fn put_so_far(&self) -> &[u8]
        ensures { result.now ≡ take self.now.used self.now.text }
    {
        front(&self.text, self.used)
    }

    // Whether any line fits behind those that were put.
    pub fn has_room(&self) -> bool
        ensures { result ≡ roomy self.now.text self.now.used }
    {
        has_room(&self.text, self.used)
    }

    pub fn two_numbers(&mut self, a: u64, b: u64)
        ensures { PutLine (two_numbers a b) self.old.text self.old.used self.new.used self.new.text }
    {
        self.used = two_numbers(&mut self.text, self.used, a, b);
    }

    pub fn long_line(&mut self, index: u64)
        ensures { PutLine (long_line index) self.old.text self.old.used self.new.used self.new.text }
    {
        self.used = long_line(&mut self.text, self.used, index);
    }

    pub fn stop_line(&mut self, place: u64)
        ensures { PutLine (stop_line place) self.old.text self.old.used self.new.used self.new.text }
    {
        self.used = stop_line(&mut self.text, self.used, place);
    }

    // Behind those that were put.
    pub fn gap_lines(&mut self, list: &[u64], gaps: usize)
        ensures { PutGapsAt gaps list.now self.old.text self.old.used self.new.used self.new.text }
    {
        self.used = gap_lines_at(&mut self.text, self.used, list, gaps);
    }
}
