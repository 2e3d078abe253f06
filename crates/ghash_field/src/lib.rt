// Multiplication in the field of SP 800-38D, 6.3, four bits at a time, from a table of the key's sixteen products. The places that are
// looked up depend on the elements: docs/SECURITY.md says what that means.
#![tactic(auto)]

mod terms;
mod wide;

ghost use Rattle.std.specs.Prelude.{◌≡◌, bit_xor};
ghost use Rattle.ghash_field.specs.Field.{mul};
ghost use Rattle.ghash_field.specs.Elements.{element_of};

use std::marker::Model;
use std::ops::BitXor;

// An element of the field: the high and the low word of its number.
#[derive(Clone, Copy)]
pub struct Element {
    pub hi: u64,
    pub lo: u64,
}

// The sum of two elements.
impl BitXor for Element {
    type Output = Element;

    fn bitxor(self, b: Element) -> Element
        ensures { element_of result ≡ bit_xor (element_of self) (element_of b) }
    {
        Element {
            hi: self.hi ^ b.hi,
            lo: self.lo ^ b.lo,
        }
    }
}

// The hash subkey H (6.4), ready for multiplication: its products with the sixteen four-bit values. Contracts see H, which is the product
// with 8, since the first bit of an element stands for 1.
#[derive(Clone, Copy)]
pub struct HashKey {
    pub products: [Element; 16],
}

impl Model for HashKey {
    ghost use Rattle.std.specs.Prelude.{ℕ};
    ghost use Rattle.ghash_field.specs.Elements.{subkey, Products};
    ghost use Rattle.ghash_field.specs.Tables.{Whole, table, table_is};

    ghost Value = { ℕ };

    ghost view = { λ k. subkey k.products };

    ghost invariant = { λ k. Products k.products (subkey k.products) × Whole k.products };

    // H determines the table, so that a key may be copied.
    ghost inverse = { λ h. record { products = table h } };

    ghost inverse_ok = { λ k h i. record { products = table_is k.products h.0 h.1 i } };
}

impl HashKey {
    pub fn new(h: Element) -> HashKey
        ensures { result ≡ element_of h }
    {
        let hx = terms::times_x(h);
        let hx2 = terms::times_x(hx);
        let hx3 = terms::times_x(hx2);
        let mut products = [Element { hi: 0, lo: 0 }; 16];
        for n in 0..16 {
            products[n] = terms::sum(n as u64, h, hx, hx2, hx3);
        }
        HashKey { products }
    }

    // x • H. The words of x go side by side, four bits of each in a turn; the reduction waits for the end.
    pub fn times(&self, x: Element) -> Element
        ensures { element_of result ≡ mul (element_of x) self.now }
    {
        let mut w = wide::zero();
        let mut p = x.hi;
        let mut q = x.lo;
        for _k in 0..16usize {
            let sum = wide::added(
                w,
                self.products[(p >> 60) as usize],
                self.products[(q >> 60) as usize],
            );
            w = wide::shifted(sum);
            p <<= 4;
            q <<= 4;
        }
        wide::reduced(w)
    }
}
