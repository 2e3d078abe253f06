// A message in clear that is signed or verified as it arrives, for C.
ghost use Rattle.std.specs.Prelude.{◌≡◌};
ghost use Rattle.signing_pieces.specs.Running.{no_message, step_with};
ghost use Rattle.signing_pieces.specs.Clauses.{begin_step, piece_step, Signs, verify_number};

use signing_pieces::{SignState, SignStep};

// Begins a message.
#[unsafe(no_mangle)]
pub extern "C" fn smb3seal_sign_begin(key: &[u8]) -> SignStep
    ensures { result ≡ begin_step key.now }
{
    smb3seal::smb3seal_sign_begin(key)
}

// Takes a piece in, which stays as it is.
#[unsafe(no_mangle)]
pub extern "C" fn smb3seal_sign_piece(state: SignState, piece: &[u8]) -> SignStep
    ensures { result ≡ piece_step state piece.now }
{
    smb3seal::smb3seal_sign_piece(state, piece)
}

// Ends a message to sign, and writes its signature.
#[unsafe(no_mangle)]
pub extern "C" fn smb3seal_sign_finish(state: SignState, signature: &mut [u8]) -> SignStep
    ensures { Signs state signature.old result signature.new }
{
    smb3seal::smb3seal_sign_finish(state, signature)
}

// Ends a message to verify.
#[unsafe(no_mangle)]
pub extern "C" fn smb3seal_verify_finish(state: SignState) -> SignStep
    ensures { result ≡ step_with no_message (verify_number state) }
{
    smb3seal::smb3seal_verify_finish(state)
}
