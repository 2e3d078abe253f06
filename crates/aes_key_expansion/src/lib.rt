// The key expansion (FIPS 197, 5.2) of keys of four and of eight words, by round keys of four words: a key is its first one or two.
#![tactic(auto)]

ghost use Rattle.std.specs.Prelude.{true, ◌≡◌, [], ◌∷◌, ◌+◌, ◌*◌, ◌-◌, ◌/◌, ◌<◌, ◌≤◌, length, take, drop, slice_index_or};
ghost use Rattle.rijndael.specs.KeyExpansion.{temp, xpower, word_of};
ghost use Rattle.rijndael.specs.BlockCipher.{expanded_key};
ghost use Rattle.aes_key_expansion.specs.NextKey.{next_key, IsOwn};
ghost use Rattle.aes_key_expansion.specs.KeySizes.{is_key_length, fifteen};
ghost use Rattle.aes_words.specs.Words.{Bytes, state_of, bytes_of, byte0, byte1, byte2, byte3};

use aes_tables::{Sbox, SubBytes};
use aes_words::{Columns, load, store, turned, word};
use arrays::bytes_at;

// The first bytes of Rcon: the powers of x.
const RCON: [u8; 10] = [0x01, 0x02, 0x04, 0x08, 0x10, 0x20, 0x40, 0x80, 0x1b, 0x36];

// x to the power j.
fn power(j: usize) -> u8
    requires { j < 10 }
    ensures { result ≡ xpower j }
{
    RCON[j]
}

// ROTWORD: one place back, which is three places on.
fn rot_word(w: u32) -> u32
    ensures { Bytes result (byte1 w) (byte2 w) (byte3 w) (byte0 w) }
{
    turned(turned(turned(w)))
}

// What word 4 r takes in of the word w before it (algorithm 2, lines 8 to 13), where the key has 4 · own words.
fn taken_in(sbox: &Sbox, w: u32, own: usize, r: usize) -> u32
    requires { IsOwn own × (own ≤ r) × (r < 4 * own + 7) }
    ensures { bytes_of result [] ≡ temp (4 * own) (4 * r) (bytes_of w []) }
{
    if r % own == 0 {
        return sbox.sub_word(rot_word(w)) ^ word(power(r / own - 1), 0, 0, 0);
    }
    sbox.sub_word(w)
}

// Each of the four takes in the one before it.
fn next_columns(k: Columns, v: u32) -> Columns
    ensures { state_of result ≡ next_key (state_of k) (bytes_of v []) }
{
    let c0 = k.c0 ^ v;
    let c1 = k.c1 ^ c0;
    let c2 = k.c2 ^ c1;
    Columns {
        c0,
        c1,
        c2,
        c3: k.c3 ^ c2,
    }
}

// Round key r: it goes on from the one that stands Nk words before it, and from the last word.
fn round_key(sbox: &Sbox, keys: &[[u8; 16]; 15], own: usize, r: usize) -> [u8; 16]
    requires { IsOwn own × (own ≤ r) × (r < 4 * own + 7) }
    ensures { result ≡ next_key (slice_index_or keys.now (r - own) []) (temp (4 * own) (4 * r) (word_of (slice_index_or keys.now (r - 1) []) 12)) }
{
    let last = load(keys[r - 1]).c3;
    let v = taken_in(sbox, last, own, r);
    store(next_columns(load(keys[r - own]), v))
}

// The round keys that are the key itself.
fn own_keys(key: &[u8]) -> [[u8; 16]; 15]
    requires { is_key_length (length key.now) ≡ true }
    ensures short { length key.now ≡ 16 → result ≡ fifteen (key.now ∷ []) }
    ensures long { length key.now ≡ 32 → result ≡ fifteen (take 16 key.now ∷ drop 16 key.now ∷ []) }
{
    let mut keys = [[0u8; 16]; 15];
    keys[0] = bytes_at(key, 0);
    if key.len() == 32 {
        keys[1] = bytes_at(key, 16);
    }
    keys
}

// The same loop for keys of either size, where the key is its first `own` round keys.
#[inline(always)]
fn expand_by(key: &[u8], own: usize) -> [[u8; 16]; 15]
    requires size { is_key_length (length key.now) ≡ true }
    requires own { own ≡ length key.now / 16 }
    ensures { result ≡ fifteen (expanded_key key.now) }
{
    let sbox = Sbox::new();
    let mut keys = own_keys(key);
    for r in own..4 * own + 7 {
        keys[r] = round_key(&sbox, &keys, own, r);
    }
    keys
}

// KEYEXPANSION: the round keys, and zeros behind the last. Each size names its `own`, so that the compiler knows what is divided by.
pub fn expand(key: &[u8]) -> [[u8; 16]; 15]
    requires { is_key_length (length key.now) ≡ true }
    ensures { result ≡ fifteen (expanded_key key.now) }
{
    if key.len() == 32 {
        return expand_by(key, 2);
    }
    expand_by(key, 1)
}
