// The last block of a message (SP 800-38B, 6.2, step 4), and the subkeys that it is xored with (6.1).
ghost use Rattle.std.specs.Prelude.{◌≡◌, ◌*◌, ◌≤◌, length};
ghost use Rattle.octets.specs.Numbers.{big_endian, to_big_endian};
ghost use Rattle.aes.specs.BlockCipher.{block_cipher};
ghost use Rattle.cmac.specs.Cmac.{doubled, last_block};

use aes::Cipher;

// X << 1.
fn shifted(x: [u8; 16]) -> [u8; 16]
    ensures { result ≡ to_big_endian 16 (2 * big_endian x) }
{
    (u128::from_be_bytes(x) << 1).to_be_bytes()
}

// R_128 goes on top as often as the first bit says, so that no branch depends on a key.
fn double(x: [u8; 16]) -> [u8; 16]
    ensures { result ≡ doubled x }
{
    let mut r = shifted(x);
    r[15] ^= x[0] / 128 * 0x87;
    r
}

pub fn last_block(cipher: &Cipher, part: &[u8]) -> [u8; 16]
    requires { length part.now ≤ 16 }
    ensures { result ≡ last_block (block_cipher cipher.now) part.now }
{
    let k1 = double(cipher.encrypt_block([0u8; 16]));
    let k2 = double(k1);
    let mut block = blocks::zero_padded(part);
    if part.len() == 16 {
        return runs::xor(block, k1);
    }
    block[part.len()] = 0x80;
    runs::xor(block, k2)
}
