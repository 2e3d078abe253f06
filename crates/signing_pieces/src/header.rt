// The header of a message that arrives in pieces: its first 64 bytes.
ghost use Rattle.std.specs.Prelude.{◌≡◌, ◌+◌, ◌≤◌, length};
ghost use Rattle.std.proofs.Math.Seq.{paste};
ghost use Rattle.signing_pieces.specs.Running as spec;

use runs::copy;

// Bytes put in from a place on.
pub fn filled(header: [u8; 64], at: usize, piece: &[u8]) -> [u8; 64]
    requires { at + length piece.now ≤ 64 }
    ensures { result ≡ paste header at piece.now (length piece.now) }
{
    let mut r = header;
    copy(&mut r, at, piece);
    r
}

// As it is signed: the flag set, zeros for the signature.
pub fn covered(header: [u8; 64]) -> [u8; 64]
    ensures { result ≡ spec.covered header }
{
    let mut r = header;
    signing::set_signed(&mut r);
    copy(&mut r, 48, &[0u8; 16]);
    r
}
