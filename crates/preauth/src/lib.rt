// The preauthentication integrity hash: messages folded into a chain value (RULES 8).
#![tactic(auto)]

ghost use Rattle.std.specs.Prelude.{◌≡◌, true, ◌&&◌, ◌++◌, ◌≤◌, leb, length};
ghost use Rattle.protocol.specs.Connection.{longest_message};
ghost use Rattle.protocol.specs.Preauth.{FoldKind, negotiate_message, setup_request, setup_response, admits_length, admitted, more_processing, status_allows};
ghost use Rattle.protocol.specs.Calls.{folding, only_chain};
ghost use Rattle.protocol.specs.Contract.{Makes};
ghost use Rattle.protocol.specs.Suite.{sha512};
ghost use Rattle.answer.specs.Reading.{fold_answer_of};

use answer::{Refusal, refuse};
use little_endian::number_at;
use sha512::Sha512;

// STATUS_MORE_PROCESSING_REQUIRED
const MORE_PROCESSING: u64 = 0xC0000016;

// 23 is not given to a message of this length.
pub fn admits(length: u64) -> bool
    ensures { result ≡ admits_length length }
{
    (64 <= length) & (length <= connection::longest_message() as u64)
}

// The status of a message that is long enough to have one; a shorter one asks for nothing.
pub fn asks_for_more(message: &[u8]) -> bool
    ensures { result ≡ (leb 12 (length message.now) && more_processing message.now) }
{
    12 <= message.len() && number_at::<4>(message, 8) == MORE_PROCESSING
}

// SHA-512 of the old value followed by the message.
fn next_value(old: &[u8], message: &[u8]) -> [u8; 64]
    requires { (length old.now ≡ 64) × (length message.now ≤ longest_message) }
    ensures { result ≡ sha512 (old.now ++ message.now) }
{
    Sha512::new().update(old).update(message).finish()
}

// Folds a message whose status allows it or not, and says whether it did. The status of a message that 23 refuses counts for nothing.
fn fold_if(chain: &mut [u8], message: &[u8], allowed: bool) -> Result<bool, Refusal>
    ensures { (kind : FoldKind) → (admitted message.now ≡ true → allowed ≡ status_allows kind message.now)
        → Makes (folding kind message.now) (only_chain chain.old) (fold_answer_of result) (only_chain chain.new) }
{
    refuse(chain.len() != 64, Refusal::BadLength)?;
    refuse(!admits(message.len() as u64), Refusal::FoldLength)?;
    if allowed {
        let value = next_value(chain, message);
        chain.copy_from_slice(&value);
    }
    Ok(allowed)
}

// A negotiate message or a session setup request: always folded.
pub fn fold(chain: &mut [u8], message: &[u8]) -> Result<bool, Refusal>
    ensures { Makes (folding negotiate_message message.now) (only_chain chain.old) (fold_answer_of result) (only_chain chain.new)
        × Makes (folding setup_request message.now) (only_chain chain.old) (fold_answer_of result) (only_chain chain.new) }
{
    fold_if(chain, message, true)
}

// A session setup response: folded only if its status asks for more.
pub fn fold_response(chain: &mut [u8], message: &[u8]) -> Result<bool, Refusal>
    ensures { Makes (folding setup_response message.now) (only_chain chain.old) (fold_answer_of result) (only_chain chain.new) }
{
    fold_if(chain, message, asks_for_more(message))
}
