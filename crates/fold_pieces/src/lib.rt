// A message folded as it arrives (RULES 8): the running hash is handed on from piece to piece.
#![tactic(auto)]

ghost use Rattle.std.specs.Prelude.{◌≡◌, true};
ghost use Rattle.protocol.specs.Preauth.{more_processing};
ghost use Rattle.answer.specs.Reading.{number_in, fold_answer_of};
ghost use Rattle.fold_pieces.specs.State.{no_message, head_with, step_with};
ghost use Rattle.fold_pieces.specs.Clauses.{begin_step, piece_step, end_answer, ended_with, end_value, Ends};

use answer::{Refusal, refuse};
use runs::copy;
use sha512::Sha512;

// struct smb3seal_fold_state: the hash of the value begun from and of the bytes joined so far, how many these are, and the first twelve of
// them, which end with the status. Any bytes are a state; no message is under way where `underway` is 0.
#[repr(C)]
#[derive(Clone, Copy)]
pub struct FoldState {
    hash: Sha512,
    joined: u64,
    head: [u8; 12],
    underway: u8,
    spare: [u8; 3],
}

// struct smb3seal_fold_step: the state handed back, the number of RULES 2, and the mark of a finish: 1 folded, 0 not folded.
#[repr(C)]
#[derive(Clone, Copy)]
pub struct FoldStep {
    pub state: FoldState,
    pub number: u32,
    pub folded: u32,
}

// No message under way.
fn ended() -> FoldState
    ensures { result ≡ no_message }
{
    FoldState {
        hash: Sha512::new(),
        joined: 0,
        head: [0u8; 12],
        underway: 0,
        spare: [0u8; 3],
    }
}

// What a begin and a piece hand back: they fold nothing yet.
fn step(state: FoldState, judged: Result<(), Refusal>) -> FoldStep
    ensures { result ≡ step_with state (number_in judged) }
{
    FoldStep {
        state,
        number: answer::number(judged),
        folded: 0,
    }
}

// A message begins from the chain value.
pub fn begin(chain: &[u8]) -> FoldStep
    ensures { result ≡ begin_step chain.now }
{
    if chain.len() != 64 {
        return step(ended(), Err(Refusal::BadLength));
    }
    let state = FoldState {
        hash: Sha512::new().update(chain),
        underway: 1,
        ..ended()
    };
    step(state, Ok(()))
}

// The first twelve bytes of what is joined, with the piece behind it.
fn head_with(head: [u8; 12], joined: u64, piece: &[u8]) -> [u8; 12]
    ensures { result ≡ head_with head joined piece.now }
{
    let mut kept = head;
    let at = joined.min(12) as usize;
    let n = piece.len().min(12 - at);
    copy(&mut kept, at, &piece[..n]);
    kept
}

impl FoldState {
    // The piece follows what is joined, unless it would pass the limit: then the state stays as it is.
    pub fn piece(self, piece: &[u8]) -> FoldStep
        ensures { result ≡ piece_step self piece.now }
    {
        let takes = (self.underway != 0) & connection::fits(self.joined, piece.len());
        if !takes {
            return step(self, Err(Refusal::FoldLength));
        }
        let state = FoldState {
            hash: self.hash.update(piece),
            joined: self.joined + piece.len() as u64,
            head: head_with(self.head, self.joined, piece),
            ..self
        };
        step(state, Ok(()))
    }

    // One fold of what is joined, if its status allows it. The status of a message that 23 refuses counts for nothing.
    fn close(self, chain: &mut [u8], allowed: bool) -> Result<bool, Refusal>
        ensures { (fold_answer_of result ≡ end_answer self allowed chain.old) × (chain.new ≡ end_value self allowed chain.old) }
    {
        let ends = (self.underway != 0) & preauth::admits(self.joined);
        refuse(chain.len() != 64, Refusal::BadLength)?;
        refuse(!ends, Refusal::FoldLength)?;
        if allowed {
            chain.copy_from_slice(&self.hash.finish());
        }
        Ok(allowed)
    }

    // A negotiate message or a session setup request: always folded.
    pub fn finish(self, chain: &mut [u8]) -> FoldStep
        ensures { Ends self true chain.old result chain.new }
    {
        finished(self.close(chain, true))
    }

    // A session setup response: folded only if its status, which is read from what is joined, asks for more.
    pub fn finish_response(self, chain: &mut [u8]) -> FoldStep
        ensures { Ends self (more_processing self.head) chain.old result chain.new }
    {
        let allowed = preauth::asks_for_more(&self.head);
        finished(self.close(chain, allowed))
    }
}

// What a finish hands back: the state with no message, whatever it answers.
fn finished(folded: Result<bool, Refusal>) -> FoldStep
    ensures { result ≡ ended_with (fold_answer_of folded) }
{
    FoldStep {
        state: ended(),
        number: answer::number(folded),
        folded: answer::mark_to(folded, 0),
    }
}
