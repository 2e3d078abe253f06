// AES (FIPS 197) with keys of 128 and 256 bits: the key expansion and the cipher.
#![tactic(auto)]

ghost use Rattle.std.specs.Prelude.{true, ◌≡◌, ◌++◌, ◌+◌, ◌<◌, length, take};
ghost use Rattle.octets.specs.Numbers.{to_big_endian};
ghost use Rattle.rijndael.specs.BlockCipher.{block_cipher, expanded_key, round_count};
ghost use Rattle.aes.specs.KeySizes.{is_key_length, fifteen};

use aes_tables::SubMix;
use aes_words::{load, load_counter, store};
use std::marker::Model;

// Whether there are keys of so many bytes.
pub fn is_key_length(n: usize) -> bool
    ensures { result ≡ is_key_length n }
{
    (n == 16) | (n == 32)
}

// The round keys (5.2) of a key of either size, and zeros behind the last: the length is part of an array's type.
pub fn round_keys(key: &[u8]) -> [[u8; 16]; 15]
    requires { is_key_length (length key.now) ≡ true }
    ensures { result ≡ fifteen (expanded_key key.now) }
{
    aes_key_expansion::expand(key)
}

// The number of rounds under a key (5, table 3).
pub fn rounds(key: &[u8]) -> usize
    ensures { result ≡ round_count (length key.now) }
{
    key.len() / 4 + 6
}

// A key made ready: its round keys, the number of rounds, and the table of the rounds. Contracts see the round keys, one more than rounds.
// A constant table is copied at each use, so the table is part of the value, which is lent to many blocks.
#[derive(Drop)]
pub struct Cipher {
    table: SubMix,
    keys: [[u8; 16]; 15],
    rounds: usize,
}

impl Model for Cipher {
    ghost use Rattle.std.specs.Prelude.{List, ℕ, ◌+◌, ◌<◌, take};

    ghost Value = { List (List ℕ) };

    ghost view = { λ c. take (c.rounds + 1) c.keys };

    ghost invariant = { λ c. (0 < c.rounds) × (c.rounds < 15) };
}

impl Cipher {
    // The cipher under a key of either size. Hints to inline keep the table from being copied once more at each return.
    #[inline(always)]
    pub fn new(key: &[u8]) -> Cipher
        requires { is_key_length (length key.now) ≡ true }
        ensures { result ≡ expanded_key key.now }
    {
        Cipher::of_round_keys(round_keys(key), rounds(key))
    }

    // The cipher of some rounds, under round keys however they came.
    #[inline(always)]
    pub fn of_round_keys(keys: [[u8; 16]; 15], rounds: usize) -> Cipher
        requires { (0 < rounds) × (rounds < 15) }
        ensures { result ≡ take (rounds + 1) keys }
    {
        Cipher {
            table: SubMix::new(),
            keys,
            rounds,
        }
    }

    // CIPHER (5.1) on one block.
    pub fn encrypt_block(&self, block: [u8; 16]) -> [u8; 16]
        ensures { result ≡ block_cipher self.now block }
    {
        store(aes_rounds::encrypt(&self.table, &self.keys, self.rounds, load(block)))
    }

    // The same on a counter block: twelve bytes and the number n, its highest byte first.
    pub fn encrypt_counter(&self, prefix: [u8; 12], n: u32) -> [u8; 16]
        ensures { result ≡ block_cipher self.now (prefix ++ to_big_endian 4 n) }
    {
        store(aes_rounds::encrypt(
            &self.table,
            &self.keys,
            self.rounds,
            load_counter(prefix, n),
        ))
    }
}
