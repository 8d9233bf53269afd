// The eight rules: four kinds, each on two sides.
ghost use Rattle.std.specs.Prelude.{◌≡◌, ok_or};
ghost use Rattle.scope.specs.Numbers.{rule_is, rule_of};
ghost use Rattle.scope.specs.declared.answer.Refusal.TheVariants.{OutOfRange};

use crate::answer::Refusal;
use crate::side::Side;

// What a rule does: carry a height up, rotate where u leans out, rotate where u is even, rotate twice.
#[derive(Clone, Copy, Debug, PartialEq, Eq)]
pub enum Kind {
    Propagate,
    Lean,
    Even,
    Double,
}

#[derive(Clone, Copy, Debug, PartialEq, Eq)]
pub struct Rule {
    pub kind: Kind,
    pub side: Side,
}

// A node's two registers as a rule sees them: near is on the rule's side, far on the other.
#[derive(Clone, Copy, Debug, PartialEq, Eq)]
pub struct Pair {
    pub near: u32,
    pub far: u32,
}

impl Rule {
    pub const LP: u32 = 1;

    pub const RP: u32 = 2;

    pub const RR_LEAN: u32 = 3;

    pub const LR_LEAN: u32 = 4;

    pub const RR_EVEN: u32 = 5;

    pub const LR_EVEN: u32 = 6;

    pub const LRR: u32 = 7;

    pub const RLR: u32 = 8;

    fn known(kind: Kind, side: Side) -> Result<Rule, Refusal>
        ensures { result ≡ ok_or (rule_is kind side) OutOfRange }
    {
        Ok(Rule { kind, side })
    }
}

// A raw number read as a rule.
impl TryFrom<u32> for Rule {
    type Error = Refusal;

    ghost try_from_gives = { λ raw r. r ≡ ok_or (rule_of raw) OutOfRange };

    #[tactic(auto, unfolding(crate::specs::Numbers::rule_of))]
    fn try_from(raw: u32) -> Result<Rule, Refusal> {
        match raw {
            Rule::LP => Rule::known(Kind::Propagate, Side::Left),
            Rule::RP => Rule::known(Kind::Propagate, Side::Right),
            Rule::RR_LEAN => Rule::known(Kind::Lean, Side::Left),
            Rule::LR_LEAN => Rule::known(Kind::Lean, Side::Right),
            Rule::RR_EVEN => Rule::known(Kind::Even, Side::Left),
            Rule::LR_EVEN => Rule::known(Kind::Even, Side::Right),
            Rule::LRR => Rule::known(Kind::Double, Side::Left),
            Rule::RLR => Rule::known(Kind::Double, Side::Right),
            _ => Err(Refusal::OutOfRange),
        }
    }
}
