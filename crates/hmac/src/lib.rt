// HMAC-SHA-256 (FIPS 198-1), of a text at once and in pieces.
#![tactic(auto)]

ghost use Rattle.std.specs.Prelude.{◌≡◌, List, [], ◌++◌, ℕ};
ghost use Rattle.sha_2.specs.Sha256.{sha256};
ghost use Rattle.hmac.specs.Hmac as spec;
ghost use Rattle.hmac.specs.Running.{Holds};

use blocks::zero_padded;
use runs::xor;
use sha256::Sha256;

// The key in a block of the hash (§4, table 1, steps 1 to 3).
fn key_block(key: &[u8]) -> [u8; 64]
    ensures { result ≡ spec.key_block sha256 key.now }
{
    let fits = key.len() <= 64;
    if fits {
        return zero_padded(key);
    }
    zero_padded(&sha256::hash(key))
}

// A MAC under way: the two hashes, each with its block of the key taken in.
#[derive(Clone, Copy)]
pub struct Mac {
    inner: Sha256,
    outer: Sha256,
}

impl Mac {
    pub fn new(key: &[u8]) -> Mac
        ensures { Holds result key.now [] }
    {
        let k = key_block(key);
        let ipad = xor(k, [0x36; 64]);
        let opad = xor(k, [0x5c; 64]);
        Mac {
            inner: Sha256::new().update(&ipad),
            outer: Sha256::new().update(&opad),
        }
    }

    pub fn update(self, piece: &[u8]) -> Mac
        ensures { (key m : List ℕ) → Holds self key m → Holds result key (m ++ piece.now) }
    {
        Mac {
            inner: self.inner.update(piece),
            ..self
        }
    }

    pub fn finish(self) -> [u8; 32]
        ensures { (key m : List ℕ) → Holds self key m → result ≡ spec.hmac sha256 key m }
    {
        let digest = self.inner.finish();
        self.outer.update(&digest).finish()
    }
}

pub fn hmac(key: &[u8], text: &[u8]) -> [u8; 32]
    ensures { result ≡ spec.hmac sha256 key.now text.now }
{
    Mac::new(key).update(text).finish()
}
