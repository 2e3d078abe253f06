// The cipher block chaining message authentication code (SP 800-38C, 6.1) with AES.
#![tactic(auto)]

ghost use Rattle.std.specs.Prelude.{◌≡◌, length};
ghost use Rattle.aes.specs.BlockCipher.{block_cipher};
ghost use Rattle.octets.specs.Blocks.{block_count};
ghost use Rattle.octets.specs.Xor.{xor};
ghost use Rattle.cbc_mac.specs.CbcMac.{cbc_mac};

use aes::Cipher;

// The value after y, with the block x.
fn next(cipher: &Cipher, y: [u8; 16], x: [u8; 16]) -> [u8; 16]
    ensures { result ≡ block_cipher cipher.now (xor y x) }
{
    cipher.encrypt_block(runs::xor(y, x))
}

// The chain from y over the blocks of s, the last filled with zeros.
pub fn chain(cipher: &Cipher, y: [u8; 16], s: &[u8]) -> [u8; 16]
    ensures { result ≡ cbc_mac (block_cipher cipher.now) y s.now (block_count (length s.now)) }
{
    let mut z = y;
    let (whole, rest) = s.as_chunks::<16>();
    for x in whole {
        let after = next(cipher, z, *x);
        z = after;
    }
    if 0 < rest.len() {
        return next(cipher, z, blocks::zero_padded(rest));
    }
    z
}
