// CCM (SP 800-38C) with AES under a key of 128 or 256 bits, a nonce of 11 bytes, 32 bytes of associated data and a tag of 16 bytes; the text in place.
#![tactic(auto)]

ghost use Rattle.std.specs.Prelude.{true, ◌≡◌, ◌<◌, length};
ghost use Rattle.aes.specs.BlockCipher.{block_cipher, expanded_key};
ghost use Rattle.aes.specs.KeySizes.{is_key_length};
ghost use Rattle.ccm.specs.Clauses.{longest, Sealed, Opened};
ghost use Rattle.ccm.specs.Ccm.{encrypt, tag};

use aes::Cipher;
use ccm_formatting::{flags_and_nonce, with_length};

// 6.1, steps 1 to 4 and 8, T.
fn tag(cipher: &Cipher, nonce: [u8; 11], aad: [u8; 32], text: &[u8]) -> [u8; 16]
    requires { length text.now < longest }
    ensures { result ≡ tag (block_cipher cipher.now) nonce aad text.now }
{
    let first = ctr::counter_block(flags_and_nonce(0x7B, nonce), text.len() as u32);
    let associated = with_length(aad);
    let y0 = cbc_mac::chain(cipher, [0u8; 16], &first);
    let y1 = cbc_mac::chain(cipher, y0, &associated);
    let y = cbc_mac::chain(cipher, y1, text);
    let s0 = cipher.encrypt_counter(flags_and_nonce(3, nonce), 0);
    runs::xor(y, s0)
}

// 6.1, steps 5 to 8: the text is xored with S₁, S₂, ..
fn encrypt(cipher: &Cipher, nonce: [u8; 11], text: &mut [u8])
    requires { length text.old < longest }
    ensures { text.new ≡ encrypt (block_cipher cipher.now) nonce text.old }
{
    let prefix = flags_and_nonce(3, nonce);
    ctr::apply(cipher, prefix, 1, text);
}

// Encrypts the text, or turns it back.
pub fn apply(key: &[u8], nonce: [u8; 11], text: &mut [u8])
    requires { (is_key_length (length key.now) ≡ true) × (length text.old < longest) }
    ensures { text.new ≡ encrypt (block_cipher (expanded_key key.now)) nonce text.old }
{
    encrypt(&Cipher::new(key), nonce, text);
}

// Encrypts the text in place, and returns the tag.
pub fn seal(key: &[u8], nonce: [u8; 11], aad: [u8; 32], text: &mut [u8]) -> [u8; 16]
    requires { (is_key_length (length key.now) ≡ true) × (length text.old < longest) }
    ensures { Sealed (block_cipher (expanded_key key.now)) nonce aad text.old text.new result }
{
    let cipher = Cipher::new(key);
    let tag = tag(&cipher, nonce, aad, text);
    encrypt(&cipher, nonce, text);
    tag
}

// Decrypts the text in place where the tag is right, and leaves it as it was where not.
pub fn open(key: &[u8], nonce: [u8; 11], aad: [u8; 32], tag: [u8; 16], text: &mut [u8]) -> bool
    requires { (is_key_length (length key.now) ≡ true) × (length text.old < longest) }
    ensures { Opened (block_cipher (expanded_key key.now)) nonce aad tag text.old text.new result }
{
    let cipher = Cipher::new(key);
    encrypt(&cipher, nonce, text);
    let expected = crate::tag(&cipher, nonce, aad, text);
    let right = compare::same_16(tag, expected);
    if !right {
        encrypt(&cipher, nonce, text);
    }
    right
}
