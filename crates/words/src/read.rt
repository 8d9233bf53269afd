// Reading words, slots and links.
ghost use Rattle.std.specs.Prelude.{◌≡◌, ◌≤◌, ◌<◌, length};
ghost use Rattle.scope.specs.Numbers.{most_slots};
ghost use Rattle.scope.specs.Table.{word, root_word, count_word, change_word, zero_word, slot_at, son, register, link_at, register_at, InTable};
ghost use Rattle.scope.specs.Tree.{over};
ghost use Rattle.spelling.specs.Ready.{Headed};

use scope::{Head, Link, Side, Slot};

// One more than the larger of two registers.
pub fn over(a: u32, b: u32) -> u64
    ensures { result ≡ over a b }
{
    1 + u64::from(a.max(b))
}

// The root's slot. This, a son and what hangs at a link are the table's own words, and its 0 for none stays: each
// promise is an equation with the word (`word`, `son`).
pub fn root(t: &[u32]) -> u32
    requires { Headed t.now }
    ensures { result ≡ word t.now root_word }
{
    t[Head::ROOT]
}

// How many records the header counts.
pub fn records(t: &[u32]) -> u32
    requires { Headed t.now }
    ensures { result ≡ word t.now count_word }
{
    t[Head::COUNT]
}

// The change number.
pub fn change(t: &[u32]) -> u32
    requires { Headed t.now }
    ensures { result ≡ word t.now change_word }
{
    t[Head::CHANGE]
}

// The header's last word, which is 0 in a good one.
pub fn zero(t: &[u32]) -> u32
    requires { Headed t.now }
    ensures { result ≡ word t.now zero_word }
{
    t[Head::ZERO]
}

// A slot by value.
pub fn slot_at(t: &[u32], k: usize) -> Slot
    requires { InTable t.now k }
    ensures { result ≡ slot_at t.now k }
{
    let b = Head::WORDS + Slot::WORDS * (k - 1);
    Slot {
        state: t[b],
        key: t[b + Slot::KEY],
        pieces: t[b + Slot::PIECES],
        left: t[b + Slot::LEFT],
        right: t[b + Slot::RIGHT],
        lefth: t[b + Slot::LEFTH],
        righth: t[b + Slot::RIGHTH],
        last: t[b + Slot::LAST],
    }
}

// A slot's son on a side, as its word says: 0 for none.
pub fn son(s: Slot, side: Side) -> u32
    ensures { result ≡ son s side }
{
    match side {
        Side::Left => s.left,
        Side::Right => s.right,
    }
}

// A slot's register on a side.
pub fn register(s: Slot, side: Side) -> u32
    ensures { result ≡ register s side }
{
    match side {
        Side::Left => s.lefth,
        Side::Right => s.righth,
    }
}

// Where a link stands.
pub fn link_word(link: Link) -> usize
    requires { link.holder ≤ most_slots }
    ensures { result ≡ link_at link }
{
    let holder = link.holder;
    if holder == Link::ROOT {
        return Head::ROOT;
    }
    let b = Head::WORDS + Slot::WORDS * (holder - 1);
    let side = link.side;
    match side {
        Side::Left => b + Slot::LEFT,
        Side::Right => b + Slot::RIGHT,
    }
}

// The slot that hangs at a link, as its word says: 0 for none.
pub fn link_at(t: &[u32], link: Link) -> usize
    requires { (link.holder ≤ most_slots) × (link_at link < length t.now) }
    ensures { result ≡ word t.now (link_at link) }
{
    let at = link_word(link);
    t[at] as usize
}

// Where the register on a side of a slot stands.
pub fn register_at(k: usize, side: Side) -> usize
    requires { (1 ≤ k) × (k ≤ most_slots) }
    ensures { result ≡ register_at k side }
{
    let b = Head::WORDS + Slot::WORDS * (k - 1);
    match side {
        Side::Left => b + Slot::LEFTH,
        Side::Right => b + Slot::RIGHTH,
    }
}
