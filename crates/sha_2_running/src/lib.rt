// A hash under way (FIPS 180-4): a message taken in by pieces, wherever they are cut, and its end.
#![tactic(auto)]

mod padding;

ghost use Rattle.std.specs.Prelude.{◌≡◌, ◌*◌, map};
ghost use Rattle.sha_2.specs.Running.{nothing_taken, updated, finished};
ghost use Rattle.sha_2_running.specs.Code.{state};

use padding::{digest, last_blocks};
use runs::copy;
use sha_2_compression::{Algorithm, hash_blocks};

// The hash value after the whole blocks, the bytes past them, and how many bytes there were, modulo 2^64.
#[repr(C)]
#[derive(Clone, Copy)]
pub struct Running<W, const ROUNDS: usize, const BLOCK: usize, const DIGEST: usize> {
    pub hash: [W; 8],
    pub buffer: [u8; BLOCK],
    pub count: u64,
}

impl<
    W: Algorithm<ROUNDS, BLOCK>,
    const ROUNDS: usize,
    const BLOCK: usize,
    const DIGEST: usize,
> Running<W, ROUNDS, BLOCK, DIGEST> {
    // Nothing taken in yet.
    pub fn new() -> Running<W, ROUNDS, BLOCK, DIGEST>
        ensures { state W.value result ≡ nothing_taken W.family }
    {
        Running {
            hash: W::initial_hash_value(),
            buffer: [0; BLOCK],
            count: 0,
        }
    }

    // The piece follows what was taken in: from a state that holds m to one that holds m and the piece.
    pub fn update(self, piece: &[u8]) -> Running<W, ROUNDS, BLOCK, DIGEST>
        ensures { state W.value result ≡ updated W.family (state W.value self) piece.now }
    {
        let waiting = (self.count % BLOCK as u64) as usize;
        let count = self.count.wrapping_add(piece.len() as u64);
        let room = BLOCK - waiting;
        let mut buffer = self.buffer;
        if piece.len() < room {
            copy(&mut buffer, waiting, piece);
            return Running {
                buffer,
                count,
                ..self
            };
        }
        copy(&mut buffer, waiting, &piece[..room]);
        let first = hash_blocks(self.hash, &buffer);
        let rest = &piece[room..];
        let whole = rest.len() / BLOCK * BLOCK;
        copy(&mut buffer, 0, &rest[whole..]);
        Running {
            hash: hash_blocks(first, rest),
            buffer,
            count,
        }
    }

    // The hash of what the state holds. The length that the padding has is that of the count: of a message of 2^64 bytes or more its low 64 bits.
    pub fn finish(self) -> [u8; DIGEST]
        requires { DIGEST ≡ 8 * W.family.bytes }
        ensures { result ≡ finished W.family (state W.value self) }
    {
        let waiting = (self.count % BLOCK as u64) as usize;
        let hash = last_blocks(self.hash, &self.buffer[..waiting], self.count);
        digest(&hash)
    }
}
