// Sealing and opening in place under one given key (RULES 5 and 6; MS-SMB2 3.1.4.3, 3.2.5.1.1 and 3.3.5.2.1).
#![tactic(auto)]

mod body;
mod cipher;

ghost use Rattle.std.specs.Prelude.{◌≡◌, ◌++◌};
ghost use Rattle.protocol.specs.Answer.{first_of};
ghost use Rattle.protocol.specs.Calls.{sealing_under, opening_under, only_message, message_and_counter, key_tests, message_tests, answer};
ghost use Rattle.protocol.specs.Suite.{suite};
ghost use Rattle.protocol.specs.Contract.{Makes};
ghost use Rattle.answer.specs.Reading.{number_in, answer_of};
ghost use Rattle.connection.specs.Reading.{connection_of};
ghost use Rattle.transform.specs.Steps.{Opens};

use answer::{Answer, Refusal, refuse};
use cipher::Keyed;
use connection::Connection;
use transform_header::TransformHeader;

// 40, 1 to 5, 29, 6: of an open, all before the tag. What passes has a header.
fn open_tests(
    c: Connection,
    key: &[u8],
    id: u64,
    message: &[u8],
) -> Result<TransformHeader, Refusal>
    ensures { Opens (connection_of c) key.now id message.now result }
{
    refusals::key_tests(c, key)?;
    let h = refusals::opening_tests(c, message)?;
    refuse(h.session_id != id, Refusal::OtherSession)?;
    Ok(h)
}

// Opens the message in place: 40, 1 to 5, 29, 6, 9 to 16. Refused, the message is as it was lent.
pub fn open_under(c: Connection, key: &[u8], id: u64, message: &mut [u8]) -> Answer
    ensures { Makes (opening_under (connection_of c) key.now id) (only_message message.old) (answer_of result) (only_message message.new) }
{
    let h = open_tests(c, key, id, message)?;
    let keyed = Keyed {
        cipher: c.cipher_used(),
        key,
    };
    body::open_message(keyed, h, envelope::received(c.role(), id), message)
}

// 40, 1, 2, 3: of a seal, before the walk.
fn lines_before(c: Connection, key: &[u8], message: &[u8]) -> Result<(), Refusal>
    ensures { number_in result ≡ first_of (key_tests (connection_of c) key.now ++ message_tests (connection_of c) message.now) }
{
    refusals::key_tests(c, key)?;
    refusals::message_tests(c, message)
}

// 40, 1, 2, 3, 11 to 16, 17: of a seal, all before a byte is written.
fn seal_tests(c: Connection, key: &[u8], id: u64, counter: u64, message: &[u8]) -> Answer
    ensures { answer_of result ≡ answer suite (sealing_under (connection_of c) key.now id) (message_and_counter message.now counter) }
{
    lines_before(c, key, message)?;
    let headers = body::walk_inner(message, envelope::sent(c.role(), id))?;
    refuse(
        counter == connection::last_counter(),
        Refusal::CounterUsedUp,
    )?;
    Ok(headers)
}

// Seals the message in place: 40, 1, 2, 3, 11 to 16, 17. Done, the counter is one up. Refused, it and the message are as they were lent.
pub fn seal_under(
    c: Connection,
    key: &[u8],
    id: u64,
    counter: &mut u64,
    message: &mut [u8],
) -> Answer
    ensures { Makes (sealing_under (connection_of c) key.now id) (message_and_counter message.old counter.old) (answer_of result) (message_and_counter message.new counter.new) }
{
    let headers = seal_tests(c, key, id, *counter, message)?;
    let keyed = Keyed {
        cipher: c.cipher_used(),
        key,
    };
    body::seal_message(keyed, *counter, id, message);
    *counter += 1;
    Ok(headers)
}
