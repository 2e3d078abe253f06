// The walk over the headers of a compounded message (RULES 9).
#![tactic(auto)]

mod header;
mod rules;

ghost use Rattle.std.specs.Prelude.{◌≡◌};
ghost use Rattle.protocol.specs.Compound.{walk};
ghost use Rattle.answer.specs.Reading.{answer_of};
ghost use Rattle.compound.specs.Reading.{envelope_of};

use answer::Answer;

// What is known of an inner message from outside: the id of the session that it is sealed for, and whether it comes from the server.
#[derive(Clone, Copy)]
pub struct Envelope {
    pub id: u64,
    pub from_server: bool,
}

// The walk over the inner message: how many headers it visits, or the first broken rule.
pub fn walk_headers(message: &[u8], e: Envelope) -> Answer
    ensures { answer_of result ≡ walk message.now (envelope_of e) }
{
    let mut header = rules::first(message, e)?;
    let mut visited = 1;
    while let Some(next) = rules::next(header, e)? {
        header = next;
        visited += 1;
    }
    Ok(visited)
}
