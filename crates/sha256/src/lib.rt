// SHA-256 (FIPS 180-4), of a message at once and in pieces.
#![tactic(auto)]

ghost use Rattle.std.specs.Prelude.{◌≡◌};
ghost use Rattle.sha_2.specs.Sha2 as sha2;
ghost use Rattle.sha_2.specs.Sha256.{sha256};

use sha_2_running::Running;

// Words of 32 bits, 64 rounds, blocks of 64 bytes, digests of 32.
pub type Sha256 = Running<u32, 64, 64, 32>;

pub fn hash(msg: &[u8]) -> [u8; 32]
    ensures { result ≡ sha2.hash sha256 msg.now }
{
    Sha256::new().update(msg).finish()
}
