// The tests of one record, in the order of the table of numbers.
ghost use Rattle.std.specs.Prelude.{◌≡◌, [], ◌∷◌};
ghost use Rattle.protocol.specs.Answer.{first_of};
ghost use Rattle.protocol.specs.Refusals.{id_zero, id_taken, table_full};
ghost use Rattle.protocol.specs.Calls.{record_tests};
ghost use Rattle.answer.specs.Reading.{number_in};
ghost use Rattle.connection.specs.Reading.{connection_of};
ghost use Rattle.session_record.specs.Reading.{session_of};

use crate::Session;
use answer::{Refusal, refuse};
use connection::Connection;

// 6, 7, 8, 35.
pub fn record_tests(s: &Session, c: Connection) -> Result<(), Refusal>
    ensures { number_in result ≡ first_of (record_tests (connection_of c) (session_of s.now)) }
{
    refuse(s.used == 0, Refusal::OtherSession)?;
    refuse(c.constrained != 0, Refusal::Constrained)?;
    refuse((s.guest != 0) | (s.anonymous != 0), Refusal::Guest)?;
    refuse(s.key_size() != c.key_size(), Refusal::OtherKeySize)
}

// 20, 21, 22.
pub fn place_tests(id: u64, taken: bool, room: bool) -> Result<(), Refusal>
    ensures { number_in result ≡ first_of (id_zero id ∷ id_taken taken ∷ table_full room ∷ []) }
{
    refuse(id == 0, Refusal::IdZero)?;
    refuse(taken, Refusal::IdTaken)?;
    refuse(!room, Refusal::TableFull)
}
