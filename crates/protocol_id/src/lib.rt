// The four bytes that an SMB message or one of its headers begins with (MS-SMB2 2.2.1.2 and 2.2.41): FE 53 4D 42, or FD 53 4D 42 for a
// transform header.
#![tactic(auto)]

ghost use Rattle.std.specs.Prelude.{◌≡◌, [], ◌∷◌};
ghost use Rattle.octets.specs.Numbers.{bytes_at};
ghost use Rattle.octets.specs.Same.{same_bytes};

// The byte `first` stands at the place, and SMB behind it.
pub fn begins(m: &[u8], at: usize, first: u8) -> bool
    ensures { result ≡ same_bytes (bytes_at at 4 m.now) (first ∷ 0x53 ∷ 0x4D ∷ 0x42 ∷ []) }
{
    at <= m.len() && m[at..].starts_with(&[first, b'S', b'M', b'B'])
}
