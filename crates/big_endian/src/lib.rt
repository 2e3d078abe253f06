// Numbers as bytes and in bytes, the highest byte first.
#![tactic(auto)]

ghost use Rattle.std.specs.Prelude.{◌≡◌, ◌+◌, ◌^◌, ◌≤◌, ◌<◌, length};
ghost use Rattle.octets.specs.Numbers.{big_endian, to_big_endian, bytes_at};

// x as N bytes; what is above them is dropped.
pub fn to_bytes<const N: usize>(x: u64) -> [u8; N]
    requires { N ≤ 8 }
    ensures { result ≡ to_big_endian N x }
{
    arrays::bytes_at(&x.to_be_bytes(), 8 - N)
}

// The number in the N bytes from `at` on.
pub fn number_at<const N: usize>(b: &[u8], at: usize) -> u64
    requires within { at + N ≤ length b.now }
    requires fits { N ≤ 8 }
    ensures value { result ≡ big_endian (bytes_at at N b.now) }
    ensures bound { result < 256 ^ N }
{
    let mut word = [0u8; 8];
    runs::copy(&mut word, 8 - N, &b[at..at + N]);
    u64::from_be_bytes(word)
}
