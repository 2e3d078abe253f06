// The rounds of the cipher (FIPS 197, 5.1), on columns.
#![tactic(auto)]

ghost use Rattle.std.specs.Prelude.{◌≡◌, ◌<◌, length};
ghost use Rattle.rijndael.specs.Cipher.{cipher, add_round_key, mix_columns, shift_rows, sub_bytes};
ghost use Rattle.aes_words.specs.Words.{Bytes, state_of, byte0, byte1, byte2, byte3};
ghost use Rattle.aes_rounds.specs.Columns.{Mixed};

use aes_tables::{SubBytes, SubMix};
use aes_words::{Columns, load, low, turned, word};

// One row of each column.
fn diagonal(a: u32, b: u32, c: u32, d: u32) -> u32
    ensures { Bytes result (byte0 a) (byte1 b) (byte2 c) (byte3 d) }
{
    word(low(a), low(b >> 8), low(c >> 16), low(d >> 24))
}

// SHIFTROWS (5.1.2): a column takes row r from the column r places on.
fn shift_rows(s: Columns) -> Columns
    ensures { state_of result ≡ shift_rows (state_of s) }
{
    Columns {
        c0: diagonal(s.c0, s.c1, s.c2, s.c3),
        c1: diagonal(s.c1, s.c2, s.c3, s.c0),
        c2: diagonal(s.c2, s.c3, s.c0, s.c1),
        c3: diagonal(s.c3, s.c0, s.c1, s.c2),
    }
}

// MIXCOLUMNS is a sum, to which the byte of each row gives its part, turned to its place.
fn sub_mix_column(t: &SubMix, x: u32) -> u32
    ensures { Mixed result (byte0 x) (byte1 x) (byte2 x) (byte3 x) }
{
    t.sub_mix(low(x))
        ^ turned(t.sub_mix(low(x >> 8)))
        ^ turned(turned(t.sub_mix(low(x >> 16))))
        ^ turned(turned(turned(t.sub_mix(low(x >> 24)))))
}

// SUBBYTES and MIXCOLUMNS (5.1.1, 5.1.3).
fn sub_mix(t: &SubMix, s: Columns) -> Columns
    ensures { state_of result ≡ mix_columns (sub_bytes (state_of s)) }
{
    Columns {
        c0: sub_mix_column(t, s.c0),
        c1: sub_mix_column(t, s.c1),
        c2: sub_mix_column(t, s.c2),
        c3: sub_mix_column(t, s.c3),
    }
}

fn sub_bytes(t: &SubMix, s: Columns) -> Columns
    ensures { state_of result ≡ sub_bytes (state_of s) }
{
    Columns {
        c0: t.sub_word(s.c0),
        c1: t.sub_word(s.c1),
        c2: t.sub_word(s.c2),
        c3: t.sub_word(s.c3),
    }
}

// SUBBYTES goes byte by byte, so that SHIFTROWS may come before it.
fn round(t: &SubMix, s: Columns, k: Columns) -> Columns
    ensures { state_of result ≡ add_round_key (mix_columns (shift_rows (sub_bytes (state_of s)))) (state_of k) }
{
    sub_mix(t, shift_rows(s)) ^ k
}

fn last_round(t: &SubMix, s: Columns, k: Columns) -> Columns
    ensures { state_of result ≡ add_round_key (shift_rows (sub_bytes (state_of s))) (state_of k) }
{
    sub_bytes(t, shift_rows(s)) ^ k
}

// Each key size has its number of rounds. Round keys after the last one are not read.
pub fn encrypt(t: &SubMix, keys: &[[u8; 16]], rounds: usize, block: Columns) -> Columns
    requires { (0 < rounds) × (rounds < length keys.now) }
    ensures { state_of result ≡ cipher rounds keys.now (state_of block) }
{
    let mut s = block ^ load(keys[0]);
    for r in 1..rounds {
        s = round(t, s, load(keys[r]));
    }
    last_round(t, s, load(keys[rounds]))
}
