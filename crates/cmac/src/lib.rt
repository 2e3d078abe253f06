// AES-CMAC (SP 800-38B, RFC 4493), of a message at once and in pieces.
#![tactic(auto)]

mod last;

ghost use Rattle.std.specs.Prelude.{◌≡◌};
ghost use Rattle.aes.specs.BlockCipher.{block_cipher};
ghost use Rattle.cmac.specs.Cmac as spec;
ghost use Rattle.cmac.specs.Running.{nothing_taken, updated, finished};

use aes::Cipher;
use last::last_block;
use runs::copy;

// A code under way: the chain over the blocks before the last, and the last one, of which so many bytes are there. The cipher is lent to each
// call. Arrays with a length beside, since it lies in C's struct smb3seal_sign_state, whose layout stays.
#[repr(C)]
#[derive(Clone, Copy)]
pub struct Mac {
    chain: [u8; 16],
    buffer: [u8; 16],
    filled: u64,
}

impl Mac {
    // Nothing taken in yet.
    pub fn new() -> Mac
        ensures { result ≡ nothing_taken }
    {
        let zeros = [0u8; 16];
        Mac {
            chain: zeros,
            buffer: zeros,
            filled: 0,
        }
    }

    // The piece follows what was taken in, wherever the cut falls: from a state that holds m to one that holds m and the piece.
    pub fn update(self, cipher: &Cipher, piece: &[u8]) -> Mac
        ensures { result ≡ updated (block_cipher cipher.now) self piece.now }
    {
        let n = (self.filled as usize).min(16);
        let mut buffer = self.buffer;
        let room = 16 - n;
        if piece.len() <= room {
            copy(&mut buffer, n, piece);
            let filled = (n + piece.len()) as u64;
            return Mac {
                buffer,
                filled,
                ..self
            };
        }
        copy(&mut buffer, n, &piece[..room]);
        let first = cbc_mac::chain(cipher, self.chain, &buffer);
        let rest = &piece[room..];
        let whole = (rest.len() - 1) / 16 * 16;
        let chain = cbc_mac::chain(cipher, first, &rest[..whole]);
        copy(&mut buffer, 0, &rest[whole..]);
        Mac {
            chain,
            buffer,
            filled: (rest.len() - whole) as u64,
        }
    }

    // The code of what the state holds.
    pub fn finish(self, cipher: &Cipher) -> [u8; 16]
        ensures { result ≡ finished (block_cipher cipher.now) self }
    {
        let n = (self.filled as usize).min(16);
        let last = last_block(cipher, &self.buffer[..n]);
        cbc_mac::chain(cipher, self.chain, &last)
    }
}

pub fn cmac(cipher: &Cipher, m: &[u8]) -> [u8; 16]
    ensures { result ≡ spec.cmac (block_cipher cipher.now) m.now }
{
    Mac::new().update(cipher, m).finish(cipher)
}
