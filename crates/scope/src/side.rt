// The two sides of a node, and the link that leads to a node: a holder and a side of it.
ghost use Rattle.std.specs.Prelude.{◌≡◌, ok_or};
ghost use Rattle.scope.specs.Numbers.{other, side_of, link_of};
ghost use Rattle.scope.specs.declared.answer.Refusal.TheVariants.{OutOfRange};

use crate::answer::Refusal;

#[derive(Clone, Copy, Debug, PartialEq, Eq)]
pub enum Side {
    Left,
    Right,
}

impl Side {
    pub const LEFT: u32 = 0;

    pub const RIGHT: u32 = 1;

    pub fn other(self) -> Side
        ensures { result ≡ other self }
    {
        match self {
            Side::Left => Side::Right,
            Side::Right => Side::Left,
        }
    }
}

// A raw number read as a side.
impl TryFrom<u32> for Side {
    type Error = Refusal;

    ghost try_from_gives = { λ raw r. r ≡ ok_or (side_of raw) OutOfRange };

    #[tactic(auto, unfolding(crate::specs::Numbers::side_of))]
    fn try_from(raw: u32) -> Result<Side, Refusal> {
        match raw {
            Side::LEFT => Ok(Side::Left),
            Side::RIGHT => Ok(Side::Right),
            _ => Err(Refusal::OutOfRange),
        }
    }
}

// A link: a side of the slot that holds it, or the root's link, which slot 0 holds on its left.
#[derive(Clone, Copy, Debug, PartialEq, Eq)]
pub struct Link {
    pub holder: usize,
    pub side: Side,
}

impl Link {
    pub const ROOT: usize = 0;

    // Two raw numbers read as a link of a table of so many slots: three numbers, so no TryFrom.
    #[tactic(auto, unfolding(crate::specs::Numbers::link_of))]
    pub fn of(slots: usize, holder: u32, side: u32) -> Result<Link, Refusal>
        ensures { result ≡ ok_or (link_of slots holder side) OutOfRange }
    {
        let named = holder as usize;
        if slots < named {
            return Err(Refusal::OutOfRange);
        }
        let on = Side::try_from(side)?;
        if (named == Link::ROOT) & (side != Side::LEFT) {
            Err(Refusal::OutOfRange)
        } else {
            Ok(Link {
                holder: named,
                side: on,
            })
        }
    }
}
