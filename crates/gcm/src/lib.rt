// GCM (SP 800-38D) with AES, in place. Nonces have 12 bytes and tags 16. Keys have 128 or 256 bits.
#![tactic(auto)]

mod tags;

ghost use Rattle.std.specs.Prelude.{true, ◌≡◌, ◌<◌, length};
ghost use Rattle.aes.specs.BlockCipher.{block_cipher, expanded_key};
ghost use Rattle.aes.specs.KeySizes.{is_key_length};
ghost use Rattle.gcm.specs.Gcm.{encrypt};
ghost use Rattle.gcm.specs.Clauses.{Sealed, Opened, longest};

use aes::Cipher;

// 7.1, step 3.
fn encrypt(cipher: &Cipher, nonce: [u8; 12], text: &mut [u8])
    requires { length text.old < longest }
    ensures { text.new ≡ encrypt (block_cipher cipher.now) nonce text.old }
{
    ctr::apply(cipher, nonce, 2, text);
}

// Encrypts the text, or turns it back.
pub fn apply(key: &[u8], nonce: [u8; 12], text: &mut [u8])
    requires { (is_key_length (length key.now) ≡ true) × (length text.old < longest) }
    ensures { text.new ≡ encrypt (block_cipher (expanded_key key.now)) nonce text.old }
{
    encrypt(&Cipher::new(key), nonce, text);
}

// Encrypts the text in place, and returns the tag.
pub fn seal(key: &[u8], nonce: [u8; 12], aad: &[u8], text: &mut [u8]) -> [u8; 16]
    requires { (is_key_length (length key.now) ≡ true) × (length aad.now < longest) × (length text.old < longest) }
    ensures { Sealed (block_cipher (expanded_key key.now)) nonce aad.now text.old text.new result }
{
    let cipher = Cipher::new(key);
    encrypt(&cipher, nonce, text);
    tags::tag(&cipher, nonce, aad, text)
}

// Decrypts the text in place where the tag is right. Where it is not, the text stays as it was: it is hashed first, and no
// plaintext is formed.
pub fn open(key: &[u8], nonce: [u8; 12], aad: &[u8], tag: [u8; 16], text: &mut [u8]) -> bool
    requires { (is_key_length (length key.now) ≡ true) × (length aad.now < longest) × (length text.old < longest) }
    ensures { Opened (block_cipher (expanded_key key.now)) nonce aad.now tag text.old text.new result }
{
    let cipher = Cipher::new(key);
    let expected = tags::tag(&cipher, nonce, aad, text);
    if compare::same_16(tag, expected) {
        encrypt(&cipher, nonce, text);
        return true;
    }
    false
}
