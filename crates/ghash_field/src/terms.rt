// The terms of a product with four bits.
ghost use Rattle.std.specs.Prelude.{◌≡◌, ◌*◌, ◌<◌};
ghost use Rattle.ghash_field.specs.Field.{times_x};
ghost use Rattle.ghash_field.specs.Elements.{element_of, terms};

use crate::Element;

// x where the bit b is 1, and 0 where it is 0, by a mask of 64 equal bits.
fn bit_times(b: u64, x: u64) -> u64
    requires { b < 2 }
    ensures { result ≡ b * x }
{
    b.wrapping_neg() & x
}

// v · x.
pub fn times_x(v: Element) -> Element
    ensures { element_of result ≡ times_x (element_of v) }
{
    Element {
        hi: (v.hi / 2) ^ bit_times(v.lo % 2, 0xE100_0000_0000_0000),
        lo: v.hi % 2 * 0x8000_0000_0000_0000 + v.lo / 2,
    }
}

// y where the bit b is 1, and zero where it is 0.
fn select(b: u64, y: Element) -> Element
    requires { b < 2 }
    ensures { element_of result ≡ b * element_of y }
{
    Element {
        hi: bit_times(b, y.hi),
        lo: bit_times(b, y.lo),
    }
}

// The sum of those of a, b, c and d for which n has a bit, a for the highest of four.
pub fn sum(n: u64, a: Element, b: Element, c: Element, d: Element) -> Element
    ensures { element_of result ≡ terms n (element_of a) (element_of b) (element_of c) (element_of d) }
{
    (select(n / 8 % 2, a) ^ select(n / 4 % 2, b)) ^ (select(n / 2 % 2, c) ^ select(n % 2, d))
}
