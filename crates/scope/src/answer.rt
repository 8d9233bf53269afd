// What a call answers: five numbers; and why it refuses.
ghost use Rattle.std.specs.Prelude.{◌≡◌};
ghost use Rattle.scope.specs.declared.answer.Denial.TheVariants.{Refused};

use crate::outcome::Passed;

#[derive(Clone, Copy, Debug, PartialEq, Eq)]
pub struct Answer {
    pub code: u64,
    pub change: u64,
    pub value: u64,
    pub more: u64,
    pub kind: u64,
}

impl Answer {
    pub const LAST_CHANGE: u32 = 4294967295;
}

// The refusals, each with its code.
#[derive(Clone, Copy, Debug, PartialEq, Eq)]
pub enum Refusal {
    WrongLength = 1,
    OutOfRange = 2,
    Damaged = 3,
    KeyPresent = 4,
    KeyAbsent = 5,
    NoFreeSlot = 6,
    LastChange = 7,
    GuardFails = 8,
    TooHigh = 9,
    Unreadable = 10,
}

// Why an amend or a drop is denied: it is refused, or its key is absent, with the last keys passed on the walk to it.
#[derive(Clone, Copy, Debug, PartialEq, Eq)]
pub enum Denial {
    Refused(Refusal),
    Absent(Passed),
}

impl From<Refusal> for Denial {
    ghost from_gives = { λ why denial. denial ≡ Refused why };

    fn from(why: Refusal) -> Denial {
        Denial::Refused(why)
    }
}
