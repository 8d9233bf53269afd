// How many slots a table has.
ghost use Rattle.std.specs.Prelude.{◌≡◌, ok_or};
ghost use Rattle.scope.specs.Numbers.{slots_of};
ghost use Rattle.scope.specs.declared.answer.Refusal.TheVariants.{WrongLength};

use crate::answer::Refusal;

#[derive(Clone, Copy, Debug, PartialEq, Eq)]
pub struct Slots {
    pub count: usize,
}

impl Slots {
    pub const MOST: usize = 4095;
}

// A raw number read as a number of slots.
impl TryFrom<usize> for Slots {
    type Error = Refusal;

    ghost try_from_gives = { λ raw r. r ≡ ok_or (slots_of raw) WrongLength };

    #[tactic(auto, unfolding(crate::specs::Numbers::slots_of))]
    fn try_from(raw: usize) -> Result<Slots, Refusal> {
        if (raw != 0) & (raw <= Slots::MOST) {
            Ok(Slots { count: raw })
        } else {
            Err(Refusal::WrongLength)
        }
    }
}
