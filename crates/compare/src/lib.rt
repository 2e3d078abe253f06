// Comparison of tags.
#![tactic(auto)]

ghost use Rattle.std.specs.Prelude.{◌≡◌};
ghost use Rattle.octets.specs.Same.{same_bytes};

// Whether two tags are equal. All 16 bytes are read, wherever they differ.
pub fn same_16(a: [u8; 16], b: [u8; 16]) -> bool
    ensures { result ≡ same_bytes a b }
{
    let mut d: u8 = 0;
    for i in 0..16 {
        d |= a[i] ^ b[i];
    }
    d == 0
}
