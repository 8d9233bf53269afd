// From a link to a firing: its nodes in turn, each tested, then the guard and the height limit.
#![tactic(auto)]

ghost use Rattle.std.specs.Prelude.{◌≡◌, ◌≤◌, leb};
ghost use Rattle.scope.specs.Table.{son};
ghost use Rattle.scope.specs.Numbers.{other, most_height};
ghost use Rattle.scope.specs.Rules.{guard_at, highest_at};
ghost use Rattle.scope.specs.Fire.{take_of, judged, has_third, aim_w, aim_u, aim_v, aim};
ghost use Rattle.spelling.specs.Ready.{Sized, Ready};
ghost use Rattle.fire_aim.specs.Aimed.{Aimed, Nearby, LinkReached};

use scope::{Height, Kind, Link, Nodes, Refusal, Rule, Slot, State};

// A slot that a firing names: it has to be there, fit, and none of the slots a, b and e before it. Slot 0 is none, as in
// the table (`take_of`).
pub fn take(t: &[u32], c: usize, k: usize, a: usize, b: usize, e: usize) -> Result<Slot, Refusal>
    requires { Sized t.now c × (k ≤ c) }
    ensures { result ≡ take_of t.now c k a b e }
{
    if k == 0 {
        return Err(Refusal::GuardFails);
    }
    let s = words::slot_at(t, k);
    if gate::fit(c, s) & (k != a) & (k != b) & (k != e) {
        Ok(s)
    } else {
        Err(Refusal::Damaged)
    }
}

// The rule's guard holds at its nodes.
pub fn guarded(r: Rule, n: Nodes) -> bool
    ensures { result ≡ guard_at r n }
{
    let kind = r.kind;
    let side = r.side;
    fire_guards::guard(
        kind,
        fire_guards::seen(n.sv, side),
        fire_guards::seen(n.su, side),
        fire_guards::seen(n.sw, side),
    )
}

// The heights that its action works out are heights.
#[tactic(auto, unfolding(scope::specs::Rules::highest_at, scope::specs::Numbers::height_of))]
pub fn within(r: Rule, n: Nodes) -> bool
    ensures { result ≡ leb (highest_at r n) most_height }
{
    let kind = r.kind;
    let side = r.side;
    let h = fire_guards::highest(
        kind,
        fire_guards::seen(n.sv, side),
        fire_guards::seen(n.su, side),
        fire_guards::seen(n.sw, side),
    );
    Height::try_from(h).is_ok()
}

#[tactic(auto, unfolding(scope::specs::Fire::judged))]
pub fn judge(r: Rule, n: Nodes) -> Result<(Rule, Nodes), Refusal>
    ensures { result ≡ judged r n }
{
    if !guarded(r, n) {
        return Err(Refusal::GuardFails);
    }
    if within(r, n) {
        Ok((r, n))
    } else {
        Err(Refusal::TooHigh)
    }
}

// Rules 7 and 8 have a third node.
pub fn has_third(kind: Kind) -> bool
    ensures { result ≡ has_third kind }
{
    kind == Kind::Double
}

pub fn aim_w(
    t: &[u32],
    c: usize,
    r: Rule,
    link: Link,
    v: usize,
    sv: Slot,
    u: usize,
    su: Slot,
) -> Result<(Rule, Nodes), Refusal>
    requires { Nearby t.now c link v × (1 ≤ u) × (u ≤ c) × (son su (other r.side) ≤ c) }
    ensures { Aimed c (aim_w t.now c r link v sv u su) result }
{
    let side = r.side;
    let w = words::son(su, side.other()) as usize;
    let sw = take(t, c, w, link.holder, v, u)?;
    judge(
        r,
        Nodes {
            link,
            v,
            u,
            w,
            sv,
            su,
            sw,
        },
    )
}

pub fn aim_u(
    t: &[u32],
    c: usize,
    r: Rule,
    link: Link,
    v: usize,
    sv: Slot,
) -> Result<(Rule, Nodes), Refusal>
    requires { Nearby t.now c link v × (son sv r.side ≤ c) }
    ensures { Aimed c (aim_u t.now c r link v sv) result }
{
    let kind = r.kind;
    let side = r.side;
    let u = words::son(sv, side) as usize;
    let su = take(t, c, u, link.holder, v, 0)?;
    if has_third(kind) {
        return aim_w(t, c, r, link, v, sv, u, su);
    }
    judge(
        r,
        Nodes {
            link,
            v,
            u,
            w: u,
            sv,
            su,
            sw: su,
        },
    )
}

pub fn aim_v(t: &[u32], c: usize, r: Rule, link: Link) -> Result<(Rule, Nodes), Refusal>
    requires { LinkReached t.now c link }
    ensures { Aimed c (aim_v t.now c r link) result }
{
    let v = words::link_at(t, link);
    let sv = take(t, c, v, link.holder, 0, 0)?;
    aim_u(t, c, r, link, v, sv)
}

// The firing of a rule at a link: the holder first, then v, u and w.
pub fn aim(t: &[u32], c: usize, r: Rule, link: Link) -> Result<(Rule, Nodes), Refusal>
    requires { Ready t.now c × (link.holder ≤ c) }
    ensures { Aimed c (aim t.now c r link) result }
{
    let holder = link.holder;
    if holder == Link::ROOT {
        return aim_v(t, c, r, link);
    }
    let s = words::slot_at(t, holder);
    if s.state == State::FREE {
        return Err(Refusal::GuardFails);
    }
    if gate::fit(c, s) {
        aim_v(t, c, r, link)
    } else {
        Err(Refusal::Damaged)
    }
}
