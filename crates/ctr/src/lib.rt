// Counter mode (SP 800-38A, 6.5) with AES under round keys of any number, in place.
#![tactic(auto)]

ghost use Rattle.std.specs.Prelude.{◌≡◌, ◌++◌, ◌+◌, ◌<◌, ◌^◌, length};
ghost use Rattle.octets.specs.Numbers.{to_big_endian};
ghost use Rattle.aes.specs.BlockCipher.{block_cipher};
ghost use Rattle.ctr.specs.Ctr.{ctr, counter_blocks};

use aes::Cipher;

// The counter block of number n.
pub fn counter_block(prefix: [u8; 12], n: u32) -> [u8; 16]
    ensures { result ≡ prefix ++ to_big_endian 4 n }
{
    let mut block = [0u8; 16];
    runs::copy(&mut block, 0, &prefix);
    runs::copy(&mut block, 12, &big_endian::to_bytes::<4>(u64::from(n)));
    block
}

// Xors the text with the key stream whose first counter is `first`.
pub fn apply(cipher: &Cipher, prefix: [u8; 12], first: u32, text: &mut [u8])
    requires { first + length text.old < 2 ^ 32 }
    ensures { text.new ≡ ctr (block_cipher cipher.now) (counter_blocks prefix first) text.old }
{
    let whole = text.len() / 16;
    // Whole blocks first, since a fixed length of 16 is xored at once; by number, since after `as_chunks_mut` a proof knows the length alone.
    for j in 0..whole {
        let stream = cipher.encrypt_counter(prefix, first + j as u32);
        runs::xor_into(&mut text[16 * j..16 * j + 16], stream);
    }
    if 16 * whole < text.len() {
        let stream = cipher.encrypt_counter(prefix, first + whole as u32);
        runs::xor_into(&mut text[16 * whole..], stream);
    }
}
