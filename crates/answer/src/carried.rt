// What a done answer carries (RULES 2.2).
ghost use Rattle.std.specs.Prelude.{◌≡◌, ℕ, cond};

// A number; or after a fold whether the message was folded in, which is 1 or 0.
pub trait Carried: Copy {
    ghost value: { Self → ℕ };

    fn value(self) -> u64
        ensures { result ≡ value self };
}

impl Carried for u64 {
    ghost value = { λ n. n };

    fn value(self) -> u64 {
        self
    }
}

impl Carried for bool {
    ghost value = { λ b. cond b 1 0 };

    fn value(self) -> u64 {
        u64::from(self)
    }
}
