// The tables of AES. Each is tested against its rule once, where its value is made.
#![tactic(auto)]

ghost use Rattle.std.specs.Prelude.{◌≡◌};
ghost use Rattle.rijndael.specs.Field.{sbox, mul};
ghost use Rattle.aes_words.specs.Words.{Bytes, byte0, byte1, byte2, byte3};
ghost use Rattle.aes_tables.specs.Tables.{SubBytesTable, SubMixTable};

mod constants;

use aes_words::{low, word};

// SUBBYTES of bytes and words (FIPS 197, 5.1.1), by a table that has it.
pub trait SubBytes {
    fn sub_byte(&self, x: u8) -> u8
        ensures { result ≡ sbox x };

    // SUBWORD (5.2).
    fn sub_word(&self, w: u32) -> u32
        ensures { Bytes result (sbox (byte0 w)) (sbox (byte1 w)) (sbox (byte2 w)) (sbox (byte3 w)) }
    {
        word(
            self.sub_byte(low(w)),
            self.sub_byte(low(w >> 8)),
            self.sub_byte(low(w >> 16)),
            self.sub_byte(low(w >> 24)),
        )
    }
}

// The S-box (5.1.1).
#[derive(Drop)]
pub struct Sbox {
    pub bytes: [u8; 256],
    pub ghost rule: { SubBytesTable bytes },
}

impl Sbox {
    #[inline(always)]
    pub fn new() -> Sbox {
        Sbox {
            bytes: constants::SBOX,
        }
    }
}

impl SubBytes for Sbox {
    fn sub_byte(&self, x: u8) -> u8 {
        self.bytes[usize::from(x)]
    }
}

// SUBBYTES and MIXCOLUMNS of each byte (5.1.1, 5.1.3).
#[derive(Drop)]
pub struct SubMix {
    pub words: [u32; 256],
    pub ghost rule: { SubMixTable words },
}

impl SubMix {
    #[inline(always)]
    pub fn new() -> SubMix {
        SubMix {
            words: constants::SUB_MIX,
        }
    }

    // What SUBBYTES and MIXCOLUMNS make of the byte of row 0 of a column, the other bytes being left out.
    pub fn sub_mix(&self, x: u8) -> u32
        ensures { Bytes result (mul 2 (sbox x)) (sbox x) (sbox x) (mul 3 (sbox x)) }
    {
        self.words[usize::from(x)]
    }
}

// The S-box stands in this table too, as the second byte of each word.
impl SubBytes for SubMix {
    fn sub_byte(&self, x: u8) -> u8 {
        low(self.words[usize::from(x)] >> 8)
    }
}
