// A message in clear that is signed or verified as it arrives, piece by piece.
ghost use Rattle.std.specs.Prelude.{◌≡◌};
ghost use Rattle.signing_pieces.specs.Running.{no_message, step_with};
ghost use Rattle.signing_pieces.specs.Clauses.{begin_step, piece_step, Signs, verify_number};

use signing_pieces::{SignState, SignStep};

// Begins a message.
pub fn smb3seal_sign_begin(key: &[u8]) -> SignStep
    ensures { result ≡ begin_step key.now }
{
    signing_pieces::begin(key)
}

// Takes a piece in, which stays as it is.
pub fn smb3seal_sign_piece(state: SignState, piece: &[u8]) -> SignStep
    ensures { result ≡ piece_step state piece.now }
{
    state.piece(piece)
}

// Ends a message to sign, and writes its signature.
pub fn smb3seal_sign_finish(state: SignState, signature: &mut [u8]) -> SignStep
    ensures { Signs state signature.old result signature.new }
{
    state.sign(signature)
}

// Ends a message to verify.
pub fn smb3seal_verify_finish(state: SignState) -> SignStep
    ensures { result ≡ step_with no_message (verify_number state) }
{
    state.verify()
}
