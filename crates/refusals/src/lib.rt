// The refusals of 01, each with its number there. It knows nothing of what is refused.
#![tactic(auto)]

ghost use Rattle.std.specs.Prelude.{◌≡◌};
ghost use Rattle.refusals.specs.Refusals.{refusal_number};

// Why a call is refused. Callers hand it on whole.
#[derive(Clone, Copy, PartialEq, Eq)]
pub enum Refusal {
    Length = 1,
    Type = 2,
    Time = 3,
    Field = 4,
    Price = 5,
    Shares = 6,
    Stock = 7,
    Conflict = 8,
    Duplicate = 9,
    NoOrder = 10,
    Over = 11,
    Full = 12,
    Book = 13,
    Shape = 14,
}

// The number that 01 gives it.
impl From<Refusal> for u8 {
    ghost from_gives = { λ r n. n ≡ refusal_number r };

    fn from(r: Refusal) -> u8 {
        r as u8
    }
}
