// Arrays out of byte strings.
#![tactic(auto)]

ghost use Rattle.std.specs.Prelude.{◌≡◌, ◌+◌, ◌≤◌, length};
ghost use Rattle.octets.specs.Numbers.{bytes_at};

// The N bytes from `at` on.
pub fn bytes_at<const N: usize>(b: &[u8], at: usize) -> [u8; N]
    requires { at + N ≤ length b.now }
    ensures { result ≡ bytes_at at N b.now }
{
    let mut r = [0u8; N];
    r.copy_from_slice(&b[at..at + N]);
    r
}
