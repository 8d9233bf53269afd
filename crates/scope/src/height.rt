// An apparent height, as a register holds it.
ghost use Rattle.std.specs.Prelude.{◌≡◌, ok_or};
ghost use Rattle.scope.specs.Numbers.{height_of};
ghost use Rattle.scope.specs.declared.answer.Refusal.TheVariants.{TooHigh};

use crate::answer::Refusal;

#[derive(Clone, Copy, Debug, PartialEq, Eq)]
pub struct Height {
    pub number: u32,
}

impl Height {
    pub const MOST: u32 = 65535;
}

// A raw number read as a height.
impl TryFrom<u64> for Height {
    type Error = Refusal;

    ghost try_from_gives = { λ raw r. r ≡ ok_or (height_of raw) TooHigh };

    #[tactic(auto, unfolding(crate::specs::Numbers::height_of))]
    fn try_from(raw: u64) -> Result<Height, Refusal> {
        if raw <= Height::MOST as u64 {
            Ok(Height { number: raw as u32 })
        } else {
            Err(Refusal::TooHigh)
        }
    }
}
