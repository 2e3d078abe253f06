// The end of a message: its padding (FIPS 180-4 §5.1), and the digest out of the hash value (§6.2.2, §6.4.2).
ghost use Rattle.std.specs.Prelude.{◌≡◌, ◌+◌, ◌-◌, ◌*◌, ◌%◌, ◌≤◌, length, map};
ghost use Rattle.octets.specs.Numbers.{to_big_endian};
ghost use Rattle.sha_2.specs.Sha2 as sha2;
ghost use Rattle.sha_2.specs.Running.{ended};

use big_endian::to_bytes;
use runs::copy;
use sha_2_compression::{Algorithm, Word, hash_blocks};

// The length in bits of a message of n bytes, in sixteen bytes. SHA-256 takes the low eight.
fn length_field(n: u64) -> [u8; 16]
    ensures { result ≡ to_big_endian 16 (8 * n) }
{
    let high = to_bytes::<8>(n >> 61);
    let low = to_bytes::<8>(n << 3);
    let mut field = [0; 16];
    copy(&mut field, 0, &high);
    copy(&mut field, 8, &low);
    field
}

// The bytes past the whole blocks of a message of n bytes, with the padding behind them: one block, or two.
pub fn last_blocks<W: Algorithm<ROUNDS, BLOCK>, const ROUNDS: usize, const BLOCK: usize>(
    hs: [W; 8],
    part: &[u8],
    n: u64,
) -> [W; 8]
    requires { length part.now ≡ n % BLOCK }
    ensures { map W.value result ≡ ended W.family (map W.value hs) part.now n }
{
    let field = length_field(n);
    let length = &field[16 - BLOCK / 8..];
    let length_at = BLOCK - BLOCK / 8;
    let mut block = [0; BLOCK];
    copy(&mut block, 0, part);
    block[part.len()] = 128;
    if part.len() < length_at {
        copy(&mut block, length_at, length);
        return hash_blocks(hs, &block);
    }
    let full = hash_blocks(hs, &block);
    let mut last = [0; BLOCK];
    copy(&mut last, length_at, length);
    hash_blocks(full, &last)
}

pub fn digest<W: Word, const DIGEST: usize>(hs: &[W; 8]) -> [u8; DIGEST]
    requires { DIGEST ≡ 8 * W.family.bytes }
    ensures { result ≡ sha2.digest W.family 8 (map W.value hs.now) }
{
    let mut out = [0; DIGEST];
    for i in 0..8 {
        hs[i].store(&mut out, i * (DIGEST / 8));
    }
    out
}
