// What the calls answer with (RULES 2).
#![tactic(auto)]

mod carried;
mod numbered;
mod refusal;

ghost use Rattle.std.specs.Prelude.{◌≡◌, cond};
ghost use Rattle.protocol.specs.Answer.{answer_number, carried};
ghost use Rattle.answer.specs.Reading.{number_by, answer_by, marked};

pub use carried::Carried;
pub use numbered::Numbered;
pub use refusal::Refusal;

// Done, with the number of inner headers visited; or refused, by a line of the table of RULES 2.
pub type Answer = Result<u64, Refusal>;

// The number that a caller gets.
pub fn number<T: Drop, E: Numbered>(answer: Result<T, E>) -> u32
    ensures { result ≡ number_by E.number answer }
{
    match answer {
        Ok(_done) => 0,
        Err(why) => why.number(),
    }
}

// To C: the number is returned, and what a done answer carries goes to its place.
pub fn report<E: Numbered>(a: Result<u64, E>, place: &mut u64) -> u32
    ensures { (result ≡ answer_number (answer_by (λ n. n) E.number a)) × (place.new ≡ carried (answer_by (λ n. n) E.number a) place.old) }
{
    *place = a.unwrap_or(*place);
    number(a)
}

// What the caller's place for a mark holds afterwards: 1 where a done answer carries anything but 0, as a fold does if the message was folded in.
pub fn mark_to<T: Carried, E: Numbered>(a: Result<T, E>, mark: u32) -> u32
    ensures { result ≡ marked (answer_by T.value E.number a) mark }
{
    match a {
        Ok(done) => u32::from(done.value() != 0),
        Err(_) => mark,
    }
}

// A line of the table of numbers: where it applies, the call is refused by it, and a `?` leaves the later lines untested.
pub fn refuse<E: Drop>(when: bool, why: E) -> Result<(), E>
    ensures { result ≡ cond when (Err why) (Ok tt) }
{
    if when { Err(why) } else { Ok(()) }
}
