// Lines of words, which are byte strings in hexadecimal with one space between two. `-` is the empty string.
#![tactic(auto)]

ghost use Rattle.std.specs.Prelude.{◌≡◌, ◌+◌, ◌*◌, ◌%◌, ◌^◌, ◌<◌, ◌≤◌, length, take, drop, replicate, IfSome};
ghost use Rattle.std.specs.Option.{unwrap_or};
ghost use Rattle.octets.specs.Numbers.{big_endian};
ghost use Rattle.test_lines.specs.Lines as lines;

use std::fmt;

// The value of a hexadecimal digit in lower case.
#[tactic(auto, unfolding(crate::specs::Lines::digit))]
fn digit(b: u8) -> Option<u8>
    ensures value { unwrap_or result 16 ≡ lines.digit b }
    ensures small { IfSome result (λ d. d < 16) }
{
    match b {
        b'0'..=b'9' => Some(b - b'0'),
        b'a'..=b'f' => Some(b - b'a' + 10),
        _ => None,
    }
}

// The byte that two digits write.
#[tactic(auto, unfolding(crate::specs::Lines::pair))]
fn pair(x: u8, y: u8) -> Option<u8>
    ensures value { unwrap_or result 256 ≡ lines.pair x y }
    ensures small { IfSome result (λ b. b < 256) }
{
    let (Some(high), Some(low)) = (digit(x), digit(y)) else {
        return None;
    };
    Some(high * 16 + low)
}

// The byte that the two digits from a place on write.
fn byte_at(line: &[u8], at: usize) -> Option<u8>
    ensures value { unwrap_or result 256 ≡ lines.first_byte (drop at line.now) }
    ensures small { IfSome result (λ b. b < 256) }
{
    if line.len().saturating_sub(at) < 2 {
        return None;
    }
    pair(line[at], line[at + 1])
}

// Reads the byte string at a place into out, as far as it has room: how many bytes.
fn bytes_at(line: &[u8], at: usize, out: &mut [u8]) -> usize
    ensures { lines.Reads line.now at out.old out.new result (lines.next_word line.now at) }
{
    for n in 0..out.len() {
        let Some(byte) = byte_at(line, at + 2 * n) else {
            return n;
        };
        out[n] = byte;
    }
    out.len()
}

// The place behind the next space from a place on, or the end of the line.
fn after_space(line: &[u8], at: usize) -> usize
    ensures { result ≡ lines.next_word line.now at }
{
    for i in at..line.len() {
        if line[i] == b' ' {
            return i + 1;
        }
    }
    at.max(line.len())
}

// The words of a line, from a place on.
#[derive(Drop)]
pub struct Words<'a> {
    pub line: &'a [u8],
    pub at: usize,
}

impl Words<'_> {
    // Reads the next word into out, as far as it has room: how many bytes.
    pub fn read(&mut self, out: &mut [u8]) -> usize
        ensures reads { lines.Reads self.old.line.now self.old.at out.old out.new result self.new.at }
        ensures line { self.new.line.now ≡ self.old.line.now }
    {
        let n = bytes_at(self.line, self.at, out);
        self.at = after_space(self.line, self.at);
        n
    }

    // The next word as a number, of at most eight bytes, the highest first.
    pub fn number(&mut self) -> u64
        ensures value { result ≡ big_endian (take 8 (lines.bytes_of (drop self.old.at self.old.line.now))) % 2 ^ 64 }
        ensures next { self.new.at ≡ lines.next_word self.old.line.now self.old.at }
        ensures line { self.new.line.now ≡ self.old.line.now }
    {
        let mut b = [0u8; 8];
        let len = self.read(&mut b);
        let mut n: u64 = 0;
        for i in 0..len {
            n = shifted(n, b[i]);
        }
        n
    }

    // The next word, of at most N bytes.
    pub fn word<const N: usize>(&mut self) -> Word<N>
        ensures reads { lines.Reads self.old.line.now self.old.at (replicate N 0) result.bytes result.len self.new.at }
        ensures inside { result.len ≤ N }
        ensures line { self.new.line.now ≡ self.old.line.now }
    {
        let mut bytes = [0; N];
        let len = self.read(&mut bytes);
        Word { bytes, len }
    }
}

// n with one byte more.
fn shifted(n: u64, b: u8) -> u64
    ensures { result ≡ (n * 256 + b) % 2 ^ 64 }
{
    (n << 8).wrapping_add(u64::from(b))
}

// The first `len` bytes; behind them are zeros.
#[derive(Clone, Copy)]
pub struct Word<const N: usize> {
    pub bytes: [u8; N],
    pub len: usize,
}

impl<const N: usize> Word<N> {
    pub fn as_slice(&self) -> &[u8]
        ensures value { result.now ≡ take self.now.len self.now.bytes }
        ensures short { length result.now ≤ N }
    {
        &self.bytes[..self.len.min(N)]
    }
}

// A byte string in hexadecimal.
#[derive(Clone, Copy)]
pub struct Hex<'a>(pub &'a [u8]);

impl fmt::Display for Hex<'_> {
    fn fmt<W: fmt::Write>(&self, f: &mut fmt::Formatter<W>) -> fmt::Result {
        if self.0.is_empty() {
            return f.write_str("-");
        }
        for b in self.0 {
            write!(f, "{b:02x}")?;
        }
        Ok(())
    }
}
