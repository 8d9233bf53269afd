// The guards of the rules, and the heights that they lead to, over registers as a rule sees them.
#![tactic(auto)]

ghost use Rattle.std.specs.Prelude.{◌≡◌};
ghost use Rattle.scope.specs.Rules.{seen, localh, reliable, heavy, guard, highest};

use scope::{Kind, Pair, Side, Slot};
pub use words::over;

// A slot's registers, seen from a side.
pub fn seen(s: Slot, near: Side) -> Pair
    ensures { result ≡ seen near s }
{
    Pair {
        near: words::register(s, near),
        far: words::register(s, near.other()),
    }
}

// One more than the larger of its registers.
pub fn localh(x: Pair) -> u64
    ensures { result ≡ localh x }
{
    over(x.near, x.far)
}

// The register above a node says its local height.
pub fn reliable(above: u32, x: Pair) -> bool
    ensures { result ≡ reliable above x }
{
    u64::from(above) == localh(x)
}

// Two or more higher on the near side.
pub fn heavy(v: Pair) -> bool
    ensures { result ≡ heavy v }
{
    u64::from(v.far) + 2 <= u64::from(v.near)
}

// A rule's guard, over its two or three nodes.
pub fn guard(kind: Kind, v: Pair, u: Pair, w: Pair) -> bool
    ensures { result ≡ guard kind v u w }
{
    match kind {
        Kind::Propagate => !reliable(v.near, u),
        Kind::Lean => reliable(v.near, u) & heavy(v) & (u.far < u.near),
        Kind::Even => reliable(v.near, u) & heavy(v) & (u.far == u.near),
        Kind::Double => (reliable(v.near, u) & reliable(u.far, w)) & heavy(v) & (u.near < u.far),
    }
}

// The highest of the heights that an action works out.
pub fn highest(kind: Kind, v: Pair, u: Pair, w: Pair) -> u64
    ensures { result ≡ highest kind v u w }
{
    match kind {
        Kind::Propagate => localh(u),
        Kind::Lean | Kind::Even => over(u.far, v.far),
        Kind::Double => over(u.near, w.near).max(over(w.far, v.far)),
    }
}
