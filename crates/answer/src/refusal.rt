// The table of numbers (RULES 2): a reason to refuse for each line, under the name that the line has in protocol's Refusals.
ghost use Rattle.std.specs.Prelude.{◌≡◌};
ghost use Rattle.answer.specs.Reading.{number_of};

#[derive(Clone, Copy, Debug, PartialEq, Eq)]
pub enum Refusal {
    NotEncrypting = 1,
    TooShort = 2,
    TooLong = 3,
    NotTransform = 4,
    BadFlags = 5,
    OtherSession = 6,
    Constrained = 7,
    Guest = 8,
    BadTag = 9,
    BadSize = 10,
    InnerTooShort = 11,
    NotHeader = 12,
    FirstRelated = 13,
    InnerSession = 14,
    NextOutside = 15,
    NextUnaligned = 16,
    CounterUsedUp = 17,
    UnknownDialect = 18,
    BadKeyMaterial = 19,
    IdZero = 20,
    IdTaken = 21,
    TableFull = 22,
    FoldLength = 23,
    NotSigned = 24,
    BadSignature = 25,
    DirtyNonce = 29,
    OtherKeySize = 35,
    BadLength = 40,
}

// The number that a caller gets.
impl From<Refusal> for u32 {
    ghost from_gives = { λ why n. n ≡ number_of why };

    fn from(why: Refusal) -> u32 {
        why as u32
    }
}
