// Byte strings in blocks.
#![tactic(auto)]

ghost use Rattle.std.specs.Prelude.{◌≡◌, min};
ghost use Rattle.octets.specs.Blocks.{zero_padded};

// How many bytes of n that are left go where `limit` fit.
pub fn at_most(n: usize, limit: usize) -> usize
    ensures { result ≡ min n limit }
{
    if n < limit { n } else { limit }
}

// The first N bytes of s, filled with zeros where s ends.
pub fn zero_padded<const N: usize>(s: &[u8]) -> [u8; N]
    ensures { result ≡ zero_padded N s.now }
{
    let mut r = [0u8; N];
    let n = at_most(s.len(), N);
    r[..n].copy_from_slice(&s[..n]);
    r
}
