// Runs of bytes, replaced and xored.
#![tactic(auto)]

ghost use Rattle.std.specs.Prelude.{◌≡◌, ◌+◌, ◌≤◌, length};
ghost use Rattle.std.proofs.Math.Seq.{paste};
ghost use Rattle.octets.specs.Xor.{xor};

// Puts src in the place of the bytes from `at` on. A loop and not `copy_from_slice`, of which the compiler makes `memmove` where it cannot see
// that the two lie apart: the archive needs memcpy and memset alone.
pub fn copy(dst: &mut [u8], at: usize, src: &[u8])
    requires { at + length src.now ≤ length dst.old }
    ensures { dst.new ≡ paste dst.old at src.now (length src.now) }
{
    for j in 0..src.len() {
        dst[at + j] = src[j];
    }
}

// Xors the text with as many bytes of the stream.
pub fn xor_into(text: &mut [u8], stream: [u8; 16])
    requires { length text.old ≤ 16 }
    ensures { text.new ≡ xor text.old stream }
{
    for i in 0..text.len() {
        text[i] ^= stream[i];
    }
}

// Two byte strings of one length, xored.
pub fn xor<const N: usize>(x: [u8; N], y: [u8; N]) -> [u8; N]
    ensures { result ≡ xor x.entry y.entry }
{
    let mut r = x;
    for i in 0..N {
        r[i] ^= y[i];
    }
    r
}
