// Parts of lent bytes.
ghost use Rattle.std.specs.Prelude.{◌≡◌, take, drop};

// The first n bytes, or all.
pub fn front(b: &[u8], n: usize) -> &[u8]
    ensures { result.now ≡ take n b.now }
{
    &b[..n.min(b.len())]
}

// All but the first n bytes, or none.
pub fn behind(b: &[u8], n: usize) -> &[u8]
    ensures { result.now ≡ drop n b.now }
{
    &b[n.min(b.len())..]
}
