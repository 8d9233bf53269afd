// What is seen on each side of a slot, the test of a rule by it, and the nodes of a rule that is due.
ghost use Rattle.std.specs.Prelude.{◌≡◌};
ghost use Rattle.scope.specs.Tidy.{nodes_at};
ghost use Rattle.spelling.specs.Ready.{Sized};
ghost use Rattle.tidy_sight.specs.Sight.{sight_of, on_side, allowed, due_seen, Present};

use scope::{Height, Kind, Link, Nodes, Pair, Rule, Side, Slot, State};

// A side of slot v: whether it has a son u there, the registers of both, and u's son on the other side. No Option: with one
// a tidy of 4,095 rising postings takes 1.3 times as long, and more than its bar over plain Rust.
#[derive(Clone, Copy)]
pub struct Sight {
    pub there: bool,
    pub v: Pair,
    pub u: Pair,
    pub w: usize,
}

#[tactic(auto, unfolding(crate::specs::Sight::sight_of))]
pub fn look(t: &[u32], c: usize, s: Slot, side: Side) -> Sight
    requires { Sized t.now c }
    ensures { result ≡ sight_of t.now c s side }
{
    let k = words::son(s, side) as usize;
    let v = fire_guards::seen(s, side);
    if (s.state != State::FREE) & ((k != 0) & (k <= c)) {
        let su = words::slot_at(t, k);
        let u = fire_guards::seen(su, side);
        let w = words::son(su, side.other()) as usize;
        Sight {
            there: true,
            v,
            u,
            w,
        }
    } else {
        Sight {
            there: false,
            v,
            u: v,
            w: 0,
        }
    }
}

// What was seen on one of two sides.
pub fn on_side(side: Side, left: Sight, right: Sight) -> Sight
    ensures { result ≡ on_side side left right }
{
    match side {
        Side::Left => left,
        Side::Right => right,
    }
}

// The guard holds, and the action would write no height above the limit.
pub fn allowed(kind: Kind, v: Pair, u: Pair, w: Pair) -> bool
    ensures { result ≡ allowed kind v u w }
{
    fire_guards::guard(kind, v, u, w) & (fire_guards::highest(kind, v, u, w) <= Height::MOST as u64)
}

// A rule is due, by what is seen on its side.
#[tactic(auto, unfolding(crate::specs::Sight::due_seen))]
pub fn due(t: &[u32], c: usize, r: Rule, x: Sight) -> bool
    requires { Sized t.now c }
    ensures { result ≡ due_seen t.now c r x }
{
    let kind = r.kind;
    let side = r.side;
    let v = x.v;
    let u = x.u;
    let w = x.w;
    if x.there {
        if fire_aim::has_third(kind) {
            if (w != 0) & (w <= c) {
                allowed(kind, v, u, fire_guards::seen(words::slot_at(t, w), side))
            } else {
                false
            }
        } else {
            allowed(kind, v, u, u)
        }
    } else {
        false
    }
}

// The nodes of a rule at slot v, where they are all there.
pub fn nodes(t: &[u32], c: usize, r: Rule, link: Link, v: usize, sv: Slot) -> Nodes
    requires { Present t.now c r v sv }
    ensures { result ≡ nodes_at t.now r link v }
{
    let kind = r.kind;
    let side = r.side;
    let u = words::son(sv, side) as usize;
    let su = words::slot_at(t, u);
    if fire_aim::has_third(kind) {
        let w = words::son(su, side.other()) as usize;
        let sw = words::slot_at(t, w);
        Nodes {
            link,
            v,
            u,
            w,
            sv,
            su,
            sw,
        }
    } else {
        Nodes {
            link,
            v,
            u,
            w: u,
            sv,
            su,
            sw: su,
        }
    }
}
