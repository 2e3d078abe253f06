// The number of a refusal (RULES 2.3).
ghost use Rattle.std.specs.Prelude.{◌≡◌, ℕ};
ghost use Rattle.answer.specs.Reading.{number_of};

use crate::Refusal;

// A reason to refuse, with the number that a caller gets: a line of the table of numbers, or a number that stands for itself.
pub trait Numbered: Copy {
    ghost number: { Self → ℕ };

    fn number(self) -> u32
        ensures { result ≡ number self };
}

impl Numbered for Refusal {
    ghost number = { number_of };

    fn number(self) -> u32 {
        u32::from(self)
    }
}

impl Numbered for u32 {
    ghost number = { λ n. n };

    fn number(self) -> u32 {
        self
    }
}
