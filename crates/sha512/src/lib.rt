// SHA-512 (FIPS 180-4), of a message at once and in pieces.
#![tactic(auto)]

ghost use Rattle.std.specs.Prelude.{◌≡◌};
ghost use Rattle.sha_2.specs.Sha2 as sha2;
ghost use Rattle.sha_2.specs.Sha512.{sha512};
ghost use Rattle.sha512.specs.Code.{nothing_taken, updated, finished};

use sha_2_running::Running;

// Words of 64 bits, 80 rounds, blocks of 128 bytes, digests of 64. It is a struct of its own, since C hands one over in struct
// smb3seal_fold_state, and no struct with parameters may stand in the signature of an exported function.
#[repr(C)]
#[derive(Clone, Copy)]
pub struct Sha512 {
    hash: [u64; 8],
    buffer: [u8; 128],
    count: u64,
}

impl Sha512 {
    // Nothing taken in yet.
    pub fn new() -> Sha512
        ensures { result ≡ nothing_taken }
    {
        let r = Running::<u64, 80, 128, 64>::new();
        let hash = r.hash;
        let buffer = r.buffer;
        Sha512 {
            hash,
            buffer,
            count: r.count,
        }
    }

    // The piece follows what was taken in, wherever the cut falls.
    pub fn update(self, piece: &[u8]) -> Sha512
        ensures { result ≡ updated self piece.now }
    {
        let hash = self.hash;
        let buffer = self.buffer;
        let s = Running::<u64, 80, 128, 64> {
            hash,
            buffer,
            count: self.count,
        };
        let r = s.update(piece);
        let hash = r.hash;
        let buffer = r.buffer;
        Sha512 {
            hash,
            buffer,
            count: r.count,
        }
    }

    // The hash of what the state holds.
    pub fn finish(self) -> [u8; 64]
        ensures { result ≡ finished self }
    {
        let hash = self.hash;
        let buffer = self.buffer;
        let s = Running::<u64, 80, 128, 64> {
            hash,
            buffer,
            count: self.count,
        };
        s.finish()
    }
}

pub fn hash(msg: &[u8]) -> [u8; 64]
    ensures { result ≡ sha2.hash sha512 msg.now }
{
    Sha512::new().update(msg).finish()
}
