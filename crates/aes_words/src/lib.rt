// Words of four bytes (FIPS 197, 3.5), the first in the low digits; and a state as its four columns (3.4).
#![tactic(auto)]

ghost use Rattle.std.specs.Prelude.{◌≡◌, ◌++◌, ◌+◌, ◌≤◌, length};
ghost use Rattle.octets.specs.Numbers.{to_big_endian};
ghost use Rattle.octets.specs.Xor.{xor};
ghost use Rattle.aes_words.specs.Words.{Bytes, WordAt, state_of, byte0, byte1, byte2, byte3};

use std::ops::BitXor;

#[derive(Clone, Copy)]
pub struct Columns {
    pub c0: u32,
    pub c1: u32,
    pub c2: u32,
    pub c3: u32,
}

// Byte by byte.
impl BitXor for Columns {
    type Output = Columns;

    fn bitxor(self, k: Columns) -> Columns
        ensures { state_of result ≡ xor (state_of self) (state_of k) }
    {
        Columns {
            c0: self.c0 ^ k.c0,
            c1: self.c1 ^ k.c1,
            c2: self.c2 ^ k.c2,
            c3: self.c3 ^ k.c3,
        }
    }
}

pub fn low(x: u32) -> u8
    ensures { result ≡ byte0 x }
{
    (x & 0xff) as u8
}

pub fn word(a: u8, b: u8, c: u8, d: u8) -> u32
    ensures { Bytes result a b c d }
{
    u32::from(a) | u32::from(b) << 8 | u32::from(c) << 16 | u32::from(d) << 24
}

// Each byte one place on, and the last first.
pub fn turned(x: u32) -> u32
    ensures { Bytes result (byte3 x) (byte0 x) (byte1 x) (byte2 x) }
{
    x.rotate_left(8)
}

// The word that begins at byte `at`.
fn word_at(s: &[u8], at: usize) -> u32
    requires { at + 4 ≤ length s.now }
    ensures { WordAt result s.now at }
{
    word(s[at], s[at + 1], s[at + 2], s[at + 3])
}

pub fn load(s: [u8; 16]) -> Columns
    ensures { state_of result ≡ s }
{
    Columns {
        c0: word_at(&s, 0),
        c1: word_at(&s, 4),
        c2: word_at(&s, 8),
        c3: word_at(&s, 12),
    }
}

// The columns of a counter block: twelve bytes and the number n, its highest byte first. The number never goes through memory.
pub fn load_counter(p: [u8; 12], n: u32) -> Columns
    ensures { state_of result ≡ p ++ to_big_endian 4 n }
{
    let c = big_endian::to_bytes::<4>(u64::from(n));
    Columns {
        c0: word_at(&p, 0),
        c1: word_at(&p, 4),
        c2: word_at(&p, 8),
        c3: word_at(&c, 0),
    }
}

pub fn store(s: Columns) -> [u8; 16]
    ensures { result ≡ state_of s }
{
    [
        low(s.c0),
        low(s.c0 >> 8),
        low(s.c0 >> 16),
        low(s.c0 >> 24),
        low(s.c1),
        low(s.c1 >> 8),
        low(s.c1 >> 16),
        low(s.c1 >> 24),
        low(s.c2),
        low(s.c2 >> 8),
        low(s.c2 >> 16),
        low(s.c2 >> 24),
        low(s.c3),
        low(s.c3 >> 8),
        low(s.c3 >> 16),
        low(s.c3 >> 24),
    ]
}
