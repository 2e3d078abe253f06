// One block, and all whole blocks of a byte string, taken into the hash value (FIPS 180-4 §6.2.2, §6.4.2).
#![tactic(auto)]

mod rounds;
mod sha256;
mod sha512;
mod word;

ghost use Rattle.std.specs.Prelude.{◌≡◌, ◌/◌, length, take, map};
ghost use Rattle.sha_2.specs.Sha2 as sha2;
ghost use Rattle.sha_2.specs.Sha2.{block_size};
ghost use Rattle.sha_2_compression.specs.Code.{of};

use crate::rounds::{Working, first_rounds, last_rounds};
pub use word::{Algorithm, Word};

// The sixteen words of a block (§5.2.1, §5.2.2).
fn parse<W: Algorithm<ROUNDS, BLOCK>, const ROUNDS: usize, const BLOCK: usize>(
    w: &mut [W; ROUNDS],
    block: &[u8],
)
    requires { length block.now ≡ block_size W.family }
    ensures { take 16 (map W.value w.new) ≡ sha2.parse W.family 16 block.now }
{
    for i in 0..16 {
        w[i] = W::word_at(block, i * (BLOCK / 16));
    }
}

// Step 2.
fn working<W: Word>(hs: &[W; 8]) -> Working<W>
    ensures { of W.value result ≡ sha2.working (map W.value hs.now) }
{
    Working {
        a: hs[0],
        b: hs[1],
        c: hs[2],
        d: hs[3],
        e: hs[4],
        f: hs[5],
        g: hs[6],
        h: hs[7],
    }
}

// Step 4.
fn sums<W: Word>(hs: &[W; 8], v: Working<W>) -> [W; 8]
    ensures { map W.value result ≡ sha2.sums W.family (map W.value hs.now) (of W.value v) }
{
    [
        v.a.add(hs[0]),
        v.b.add(hs[1]),
        v.c.add(hs[2]),
        v.d.add(hs[3]),
        v.e.add(hs[4]),
        v.f.add(hs[5]),
        v.g.add(hs[6]),
        v.h.add(hs[7]),
    ]
}

fn compress<W: Algorithm<ROUNDS, BLOCK>, const ROUNDS: usize, const BLOCK: usize>(
    hs: [W; 8],
    block: &[u8],
) -> [W; 8]
    requires { length block.now ≡ block_size W.family }
    ensures { map W.value result ≡ sha2.compress W.family (map W.value hs) block.now }
{
    let mut w = [W::default(); ROUNDS];
    parse(&mut w, block);
    let v = first_rounds(working(&hs), &mut w);
    sums(&hs, last_rounds(v, &w))
}

// The whole blocks of m.
pub fn hash_blocks<W: Algorithm<ROUNDS, BLOCK>, const ROUNDS: usize, const BLOCK: usize>(
    hs: [W; 8],
    m: &[u8],
) -> [W; 8]
    ensures { map W.value result ≡ sha2.hash_blocks W.family (map W.value hs) (length m.now / block_size W.family) m.now }
{
    let mut h = hs;
    for block in m.chunks_exact(BLOCK) {
        h = compress(h, block);
    }
    h
}
