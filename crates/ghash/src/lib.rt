// GHASH (SP 800-38D, 6.4).
#![tactic(auto)]

mod load;

ghost use Rattle.std.specs.Prelude.{◌≡◌, ◌++◌};
ghost use Rattle.octets.specs.Numbers.{big_endian, to_big_endian};
ghost use Rattle.ghash_field.specs.Elements.{element_of};
ghost use Rattle.ghash.specs.Ghash.{ghash_from};

use big_endian::to_bytes;
use ghash_field::Element;

// The hash subkey H, ready for multiplication.
pub use ghash_field::HashKey;

// The running hash, Y.
#[derive(Clone, Copy)]
pub struct Running {
    y: Element,
}

// Prepares the subkey that the block h writes.
pub fn prepare(h: [u8; 16]) -> HashKey
    ensures { result ≡ big_endian h }
{
    HashKey::new(load::element(&h, 0))
}

// 6.4, step 2: Y₀.
pub fn start() -> Running
    ensures { element_of result.y ≡ 0 }
{
    Running {
        y: Element { hi: 0, lo: 0 },
    }
}

// The block that an element is.
fn element_block(e: Element) -> [u8; 16]
    ensures { result ≡ to_big_endian 16 (element_of e) }
{
    let mut r = [0u8; 16];
    runs::copy(&mut r, 0, &to_bytes::<8>(e.hi));
    runs::copy(&mut r, 8, &to_bytes::<8>(e.lo));
    r
}

// All blocks of s, of which the last is filled with zeros (6.4, step 3). By number, and not whole blocks first as in `cbc_mac`: with one call of
// `times` the compiler takes it into the loop.
pub fn update(k: &HashKey, y: Running, s: &[u8]) -> Running
    ensures { element_of result.y ≡ ghash_from k.now (element_of y.y) s.now }
{
    let mut z = y.y;
    for j in 0..s.len().div_ceil(16) {
        z = k.times(z ^ load::block(s, 16 * j));
    }
    Running { y: z }
}

// The block that the hash is.
pub fn block_of(y: Running) -> [u8; 16]
    ensures { result ≡ to_big_endian 16 (element_of y.y) }
{
    element_block(y.y)
}

// The block that two lengths make, of 64 bits each.
pub fn update_lengths(k: &HashKey, y: Running, a: u64, b: u64) -> Running
    ensures { element_of result.y ≡ ghash_from k.now (element_of y.y) (to_big_endian 8 a ++ to_big_endian 8 b) }
{
    let x = element_block(Element { hi: a, lo: b });
    update(k, y, &x)
}
