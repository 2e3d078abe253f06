// AES-CCM and AES-GCM by their number: 2 and 4 are GCM, which takes the first 12 bytes of the nonce field, any other CCM, which takes 11.
// Each call asks the number by itself: with a trait of the two modes each contract would stand three times, and the number would be asked all the same.
ghost use Rattle.std.specs.Prelude.{◌≡◌, true, ℕ, ◌<◌, List, length};
ghost use Rattle.gcm.specs.Clauses.{longest};
ghost use Rattle.aes.specs.KeySizes.{is_key_length};
ghost use Rattle.protocol.specs.Ciphers.{cipher_of};
ghost use Rattle.transform.specs.Steps.{Enciphered, Deciphered};

use arrays::bytes_at;
use connection::is_gcm;

// A cipher by its number, under a key of 16 or 32 bytes.
#[derive(Clone, Copy)]
pub struct Keyed<'a> {
    pub cipher: u16,
    pub key: &'a [u8],
    ghost sized: { is_key_length (length key.now) ≡ true },
}

impl Keyed<'_> {
    // Encrypts the text in place, and returns the tag.
    pub fn seal(self, nonce: [u8; 16], aad: [u8; 32], text: &mut [u8]) -> [u8; 16]
        requires { length text.old < longest }
        ensures { Enciphered (cipher_of self.entry.cipher) self.entry.key.now nonce aad text.old text.new result }
    {
        if is_gcm(self.cipher) {
            return gcm::seal(self.key, bytes_at(&nonce, 0), &aad, text);
        }
        ccm::seal(self.key, bytes_at(&nonce, 0), aad, text)
    }

    // Decrypts the text in place where the tag is right, and leaves it as it was where not.
    pub fn open(self, nonce: [u8; 16], aad: [u8; 32], tag: [u8; 16], text: &mut [u8]) -> bool
        requires { length text.old < longest }
        ensures { Deciphered (cipher_of self.entry.cipher) self.entry.key.now nonce aad tag text.old text.new result }
    {
        if is_gcm(self.cipher) {
            return gcm::open(self.key, bytes_at(&nonce, 0), &aad, tag, text);
        }
        ccm::open(self.key, bytes_at(&nonce, 0), aad, tag, text)
    }

    // Applies the key stream: encrypts a text, whatever the authenticated data, and so turns a decrypted one back.
    pub fn apply(self, nonce: [u8; 16], text: &mut [u8])
        requires { length text.old < longest }
        ensures { (aad : List ℕ) → text.new ≡ (cipher_of self.entry.cipher).encrypt self.entry.key.now nonce aad text.old }
    {
        if is_gcm(self.cipher) {
            gcm::apply(self.key, bytes_at(&nonce, 0), text);
        } else {
            ccm::apply(self.key, bytes_at(&nonce, 0), text);
        }
    }
}
