// The tag (SP 800-38D, 7.1, steps 1, 2 and 4 to 6).
ghost use Rattle.std.specs.Prelude.{◌≡◌, ◌<◌, length};
ghost use Rattle.octets.specs.Numbers.{to_big_endian};
ghost use Rattle.aes.specs.BlockCipher.{block_cipher};
ghost use Rattle.ghash.specs.Ghash.{ghash};
ghost use Rattle.gcm.specs.Gcm.{hash_subkey, hash_input, tag};
ghost use Rattle.gcm.specs.Clauses.{longest};

use aes::Cipher;
use ghash::HashKey;

// Step 1: H, ready for GHASH.
fn hash_subkey(cipher: &Cipher) -> HashKey
    ensures { result ≡ hash_subkey (block_cipher cipher.now) }
{
    ghash::prepare(cipher.encrypt_block([0u8; 16]))
}

// Step 5: S. The lengths are in bits.
fn hash(k: &HashKey, aad: &[u8], body: &[u8]) -> [u8; 16]
    requires { (length aad.now < longest) × (length body.now < longest) }
    ensures { result ≡ to_big_endian 16 (ghash k.now (hash_input aad.now body.now)) }
{
    let y = ghash::update(k, ghash::start(), aad);
    let z = ghash::update(k, y, body);
    let s = ghash::update_lengths(k, z, 8 * (aad.len() as u64), 8 * (body.len() as u64));
    ghash::block_of(s)
}

// The tag of the ciphertext `body`.
pub fn tag(cipher: &Cipher, nonce: [u8; 12], aad: &[u8], body: &[u8]) -> [u8; 16]
    requires { (length aad.now < longest) × (length body.now < longest) }
    ensures { result ≡ tag (block_cipher cipher.now) nonce aad.now body.now }
{
    let k = hash_subkey(cipher);
    let s = hash(&k, aad, body);
    // J₀ is the nonce and the number 1 (steps 2 and 6).
    let e = cipher.encrypt_counter(nonce, 1);
    runs::xor(s, e)
}
