// The tests before a message is sealed or opened, in the order of the table of numbers. A call tests one list after the other.
#![tactic(auto)]

ghost use Rattle.std.specs.Prelude.{◌≡◌, ◌++◌, length, IfOk};
ghost use Rattle.protocol.specs.Answer.{first_of};
ghost use Rattle.protocol.specs.TransformHeader.{inner, header_of};
ghost use Rattle.protocol.specs.Calls.{key_tests, signing_key_tests, message_tests, header_tests};
ghost use Rattle.answer.specs.Reading.{number_in};
ghost use Rattle.connection.specs.Reading.{connection_of};
ghost use Rattle.transform_header.specs.Reading.{header_from};

use answer::{Refusal, refuse};
use connection::Connection;
use transform_header::{TransformHeader, read_header};

// 40, of a signing key.
pub fn signing_key_tests(key: &[u8]) -> Result<(), Refusal>
    ensures { number_in result ≡ first_of (signing_key_tests key.now) }
{
    refuse(key.len() != 16, Refusal::BadLength)
}

// 40, of a cipher key.
pub fn key_tests(c: Connection, key: &[u8]) -> Result<(), Refusal>
    ensures { number_in result ≡ first_of (key_tests (connection_of c) key.now) }
{
    refuse(key.len() != c.key_size().key_bytes(), Refusal::BadLength)
}

// How many bytes stand after the header.
fn inner_length(m: &[u8]) -> usize
    ensures { result ≡ length (inner m.now) }
{
    m.len().saturating_sub(52)
}

// 1, 2, 3: of every sealing and opening.
pub fn message_tests(c: Connection, m: &[u8]) -> Result<(), Refusal>
    ensures { number_in result ≡ first_of (message_tests (connection_of c) m.now) }
{
    let long = connection::longest_message() < inner_length(m);
    refuse(!c.encrypting(), Refusal::NotEncrypting)?;
    refuse(m.len() <= 52, Refusal::TooShort)?;
    refuse(long, Refusal::TooLong)
}

// 4, 5, 29: of the header that is opened.
pub fn header_tests(c: Connection, h: TransformHeader) -> Result<(), Refusal>
    ensures { number_in result ≡ first_of (header_tests (connection_of c) (header_from h)) }
{
    refuse(!h.begins, Refusal::NotTransform)?;
    refuse(h.flags != 1, Refusal::BadFlags)?;
    refuse(c.uses_gcm() & (h.nonce_end != 0), Refusal::DirtyNonce)
}

// 1 to 5, 29: of every opening. What passes has this header.
pub fn opening_tests(c: Connection, m: &[u8]) -> Result<TransformHeader, Refusal>
    ensures number { number_in result ≡ first_of (message_tests (connection_of c) m.now ++ header_tests (connection_of c) (header_of m.now)) }
    ensures header { IfOk result (λ h. header_from h ≡ header_of m.now) }
{
    message_tests(c, m)?;
    // never refused here: a message with no room for a header was refused by 2
    let h = read_header(m).ok_or(Refusal::TooShort)?;
    header_tests(c, h)?;
    Ok(h)
}
