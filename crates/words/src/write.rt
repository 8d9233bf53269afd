// Writing words, slots and links.
ghost use Rattle.std.specs.Prelude.{◌≡◌, ◌≤◌, ◌<◌, length, set};
ghost use Rattle.scope.specs.Numbers.{most_slots};
ghost use Rattle.scope.specs.Table.{count_word, change_word, with_slot, link_at, register_at, InTable};
ghost use Rattle.spelling.specs.Ready.{Headed};

use crate::read::{link_word, register_at};
use scope::{Head, Link, Side, Slot};

// All words of a slot.
pub fn put_slot(t: &mut [u32], k: usize, s: Slot)
    requires { InTable t.old k }
    ensures { t.new ≡ with_slot t.old k s }
{
    let b = Head::WORDS + Slot::WORDS * (k - 1);
    t[b] = s.state;
    t[b + Slot::KEY] = s.key;
    t[b + Slot::PIECES] = s.pieces;
    t[b + Slot::LEFT] = s.left;
    t[b + Slot::RIGHT] = s.right;
    t[b + Slot::LEFTH] = s.lefth;
    t[b + Slot::RIGHTH] = s.righth;
    t[b + Slot::LAST] = s.last;
}

// A slot's number, or 0, in a link.
pub fn put_link(t: &mut [u32], link: Link, k: u32)
    requires { (link.holder ≤ most_slots) × (link_at link < length t.old) }
    ensures { t.new ≡ set t.old (link_at link) k }
{
    let at = link_word(link);
    t[at] = k;
}

// A height in a register.
pub fn put_register(t: &mut [u32], k: usize, side: Side, height: u32)
    requires { (1 ≤ k) × (k ≤ most_slots) × (register_at k side < length t.old) }
    ensures { t.new ≡ set t.old (register_at k side) height }
{
    let at = register_at(k, side);
    t[at] = height;
}

// How many records there are.
pub fn put_records(t: &mut [u32], n: usize)
    requires { Headed t.old × (n ≤ most_slots) }
    ensures { t.new ≡ set t.old count_word n }
{
    t[Head::COUNT] = n as u32;
}

// The change number.
pub fn put_change(t: &mut [u32], change: u32)
    requires { Headed t.old }
    ensures { t.new ≡ set t.old change_word change }
{
    t[Head::CHANGE] = change;
}
