// Elements read from bytes.
ghost use Rattle.std.specs.Prelude.{◌≡◌, ◌+◌, ◌≤◌, length, drop};
ghost use Rattle.octets.specs.Numbers.{big_endian};
ghost use Rattle.octets.specs.Blocks.{zero_padded};
ghost use Rattle.ghash_field.specs.Elements.{element_of};

use ghash_field::Element;

// The element in the 16 bytes from `at` on.
pub fn element(s: &[u8], at: usize) -> Element
    requires { at + 16 ≤ length s.now }
    ensures { element_of result ≡ big_endian (zero_padded 16 (drop at s.now)) }
{
    Element {
        hi: big_endian::number_at::<8>(s, at),
        lo: big_endian::number_at::<8>(s, at + 8),
    }
}

// The element of the block that begins at `at`, filled with zeros where s ends.
pub fn block(s: &[u8], at: usize) -> Element
    requires { at ≤ length s.now }
    ensures { element_of result ≡ big_endian (zero_padded 16 (drop at s.now)) }
{
    if s.len() - at < 16 {
        element(&blocks::zero_padded::<16>(&s[at..]), 0)
    } else {
        element(s, at)
    }
}
