// A message folded as it arrives: the state goes in by value, and the one to go on with comes back in the step.
ghost use Rattle.std.specs.Prelude.{◌≡◌, true};
ghost use Rattle.protocol.specs.Preauth.{more_processing};
ghost use Rattle.fold_pieces.specs.Clauses.{begin_step, piece_step, Ends};

use fold_pieces::{FoldState, FoldStep};

// Begins a message on a chain value.
pub fn smb3seal_fold_begin(chain: &[u8]) -> FoldStep
    ensures { result ≡ begin_step chain.now }
{
    fold_pieces::begin(chain)
}

// Takes a piece of it.
pub fn smb3seal_fold_piece(state: FoldState, piece: &[u8]) -> FoldStep
    ensures { result ≡ piece_step state piece.now }
{
    state.piece(piece)
}

// Folds a negotiate message or a session setup request.
pub fn smb3seal_fold_finish(state: FoldState, chain: &mut [u8]) -> FoldStep
    ensures { Ends state true chain.old result chain.new }
{
    state.finish(chain)
}

// Folds a session setup response, if its status asks for that.
pub fn smb3seal_fold_response_finish(state: FoldState, chain: &mut [u8]) -> FoldStep
    ensures { Ends state (more_processing state.head) chain.old result chain.new }
{
    state.finish_response(chain)
}
