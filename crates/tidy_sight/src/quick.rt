// Whether any rule may be due at a slot, from its sons' registers alone: most slots of a tidy table are told here.
ghost use Rattle.std.specs.Prelude.{◌≡◌};
ghost use Rattle.spelling.specs.Ready.{Sized};
ghost use Rattle.tidy_sight.specs.MayBeDue.{side_may_be_due, may_be_due};

use scope::{Side, Slot, State};

// On a side: a son is there, and the slot leans to it or the register above it is not up to date.
pub fn side_may_be_due(t: &[u32], c: usize, s: Slot, side: Side) -> bool
    requires { Sized t.now c }
    ensures { result ≡ side_may_be_due t.now c s side }
{
    let u = words::son(s, side) as usize;
    if (u != 0) & (u <= c) {
        let v = fire_guards::seen(s, side);
        let su = words::slot_at(t, u);
        fire_guards::heavy(v) | !fire_guards::reliable(v.near, fire_guards::seen(su, side))
    } else {
        false
    }
}

pub fn may_be_due(t: &[u32], c: usize, s: Slot) -> bool
    requires { Sized t.now c }
    ensures { result ≡ may_be_due t.now c s }
{
    (s.state != State::FREE)
        & (side_may_be_due(t, c, s, Side::Left) | side_may_be_due(t, c, s, Side::Right))
}
