// Sums of products that are not reduced yet.
ghost use Rattle.std.specs.Prelude.{◌≡◌, ◌+◌, ◌*◌, ◌^◌, ◌<◌, bit_xor};
ghost use Rattle.ghash_field.specs.Elements.{element_of, wide_of, times_power};

use crate::Element;

// 256 bits, w3 the highest word.
#[derive(Clone, Copy)]
pub struct Wide {
    pub w3: u64,
    pub w2: u64,
    pub w1: u64,
    pub w0: u64,
}

pub fn zero() -> Wide
    ensures { (wide_of result ≡ 0) × (result.w3 ≡ 0) }
{
    Wide {
        w3: 0,
        w2: 0,
        w1: 0,
        w0: 0,
    }
}

// w and the elements p, which ends a word before w does, and q, which ends with w.
pub fn added(w: Wide, p: Element, q: Element) -> Wide
    ensures { (wide_of result ≡ bit_xor (wide_of w) (bit_xor (element_of p * 2 ^ 64) (element_of q))) × (result.w3 ≡ w.w3) }
{
    Wide {
        w3: w.w3,
        w2: w.w2 ^ p.hi,
        w1: w.w1 ^ (p.lo ^ q.hi),
        w0: w.w0 ^ q.lo,
    }
}

// Four bits to the left.
pub fn shifted(w: Wide) -> Wide
    requires { w.w3 < 2 ^ 60 }
    ensures { (wide_of result ≡ wide_of w * 16) × (result.w3 < (w.w3 + 1) * 16) }
{
    Wide {
        w3: w.w3 * 16 + w.w2 / 0x1000_0000_0000_0000,
        w2: w.w2 % 0x1000_0000_0000_0000 * 16 + w.w1 / 0x1000_0000_0000_0000,
        w1: w.w1 % 0x1000_0000_0000_0000 * 16 + w.w0 / 0x1000_0000_0000_0000,
        w0: w.w0 % 0x1000_0000_0000_0000 * 16,
    }
}

// The 64 bits d to the right of e, taken in: x¹²⁸ is 1 + x + x² + x⁷ (6.3), so that each comes back at four places.
fn folded(e: Element, d: u64) -> Element
    ensures { element_of result ≡ times_power 64 (element_of e * 2 ^ 64 + d) }
{
    Element {
        hi: e.hi ^ (d ^ (d >> 1) ^ (d >> 2) ^ (d >> 7)),
        lo: e.lo ^ ((d << 63) ^ (d << 62) ^ (d << 57)),
    }
}

// Both words to the right of an element, the last first.
pub fn reduced(w: Wide) -> Element
    ensures { element_of result ≡ times_power 64 (times_power 64 (wide_of w)) }
{
    let e = folded(Element { hi: w.w2, lo: w.w1 }, w.w0);
    folded(Element { hi: w.w3, lo: e.hi }, e.lo)
}
