// Key derivation in counter mode (NIST SP 800-108, revision 1, §4.1) with HMAC-SHA-256.
#![tactic(auto)]

ghost use Rattle.std.specs.Prelude.{◌≡◌, ◌≤◌};
ghost use Rattle.sha_2.specs.Sha256.{sha256};
ghost use Rattle.hmac.specs.Hmac as spec;
ghost use Rattle.kdf.specs.CounterMode.{fixed_input, block, derive_sha256};

use arrays::bytes_at;
use big_endian::to_bytes;
use hmac::Mac;

// K(1), where the derived key is to have so many bits.
fn first_block(key: &[u8], label: &[u8], context: &[u8], bits: u64) -> [u8; 32]
    ensures { result ≡ block (spec.hmac sha256) 32 key.now 1 (fixed_input label.now context.now bits) }
{
    let counter = to_bytes::<4>(1);
    let separator = [0u8; 1];
    let length = to_bytes::<4>(bits);
    Mac::new(key)
        .update(&counter)
        .update(label)
        .update(&separator)
        .update(context)
        .update(&length)
        .finish()
}

// A key of N bytes: K(1) has as many as a key of SMB.
pub fn derive<const N: usize>(key: &[u8], label: &[u8], context: &[u8]) -> [u8; N]
    requires { N ≤ 32 }
    ensures { result ≡ derive_sha256 N key.now label.now context.now }
{
    let bits = 8 * N as u64;
    let k = first_block(key, label, context, bits);
    bytes_at(&k, 0)
}
