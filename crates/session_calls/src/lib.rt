// What sealing, opening and adding do with one session record (RULES 10).
#![tactic(auto)]

ghost use Rattle.std.specs.Prelude.{◌≡◌, ◌++◌, IfOk};
ghost use Rattle.protocol.specs.Answer.{first_of};
ghost use Rattle.protocol.specs.TransformHeader.{header_of, session_id_of};
ghost use Rattle.protocol.specs.Calls.{message_tests, header_tests, record_tests, add_tests};
ghost use Rattle.answer.specs.Reading.{number_in, answer_of};
ghost use Rattle.connection.specs.Reading.{connection_of};
ghost use Rattle.session_record.specs.Reading.{session_of};
ghost use Rattle.session_record.specs.Clauses.{SealsWith, OpensWith};
ghost use Rattle.session_record.specs.Adds.{adding_of, made_or, AddsWith};
ghost use Rattle.session_record.specs.declared.Session as code;

use answer::{Answer, Refusal, refuse};
use connection::Connection;
use session_record::{Adding, Session, place_tests, record_tests};

// 1, 2, 3, 6, 7, 8, 35: of a seal, before the walk.
fn lines_before(s: &Session, c: Connection, message: &[u8]) -> Result<(), Refusal>
    ensures { number_in result ≡ first_of (message_tests (connection_of c) message.now ++ record_tests (connection_of c) (session_of s.now)) }
{
    refusals::message_tests(c, message)?;
    record_tests(s, c)
}

// Seals the message in place: 1, 2, 3, 6, 7, 8, 35, 11 to 16, 17. Refused, the message is as it was.
pub fn seal_record(s: &Session, c: Connection, id: u64, message: &mut [u8]) -> Answer
    ensures { SealsWith (session_of s.now) (connection_of c) id message.old message.new (answer_of result) }
{
    lines_before(s, c, message)?;
    let mut counter = s.counter;
    transform::seal_under(c, s.sealing_key(c.role()), id, &mut counter, message)
}

// 1 to 5, 29, 6, 7, 8, 35: of an open, before the tag. What passes has a header, which names this session.
fn open_tests(s: &Session, c: Connection, message: &[u8]) -> Result<u64, Refusal>
    ensures number { number_in result ≡ first_of ((message_tests (connection_of c) message.now ++ header_tests (connection_of c) (header_of message.now)) ++ record_tests (connection_of c) (session_of s.now)) }
    ensures named { IfOk result (λ id. id ≡ session_id_of message.now) }
{
    let h = refusals::opening_tests(c, message)?;
    record_tests(s, c)?;
    Ok(h.session_id)
}

// Opens the message in place: 1 to 5, 29, 6, 7, 8, 35, 9 to 16. Refused, the message is as it was.
pub fn open_record(s: &Session, c: Connection, message: &mut [u8]) -> Answer
    ensures { OpensWith (session_of s.now) (connection_of c) message.old message.new (answer_of result) }
{
    let id = open_tests(s, c, message)?;
    transform::open_under(c, s.opening_key(c.role()), id, message)
}

// 40, 18 to 22: of adding.
fn add_tests(
    a: Adding,
    taken: bool,
    room: bool,
    material: &[u8],
    chain: &[u8],
) -> Result<(), Refusal>
    ensures { number_in result ≡ first_of (add_tests (adding_of a chain.now material.now) taken room) }
{
    refuse(chain.len() != 64, Refusal::BadLength)?;
    key_refusals::material_tests(a.dialect, a.cipher, material)?;
    place_tests(a.id, taken, room)
}

// Adds: 40, 18 to 22. Whether the id is taken, and whether there is a free place.
pub fn add_record(
    a: Adding,
    taken: bool,
    room: bool,
    material: &[u8],
    chain: &[u8],
) -> Result<Session, Refusal>
    ensures { (old : code.Session) → AddsWith (adding_of a chain.now material.now) taken room old (number_in result) (made_or old result) }
{
    add_tests(a, taken, room, material, chain)?;
    Ok(session_record::fresh(
        a,
        derived_keys::derived(a.dialect, a.cipher, chain, material),
    ))
}
