// Single words of a firing: a link, a son, a register, a height worked out anew. The table keeps its size.
ghost use Rattle.std.specs.Prelude.{◌≤◌};
ghost use Rattle.scope.specs.Edits.{son_on, register_on, place_of};
ghost use Rattle.spelling.specs.Ready.{Sized};
ghost use Rattle.fire_act.specs.Wrote.{Wrote, SlotThere};

use scope::{Link, Side};

// A slot's number, or 0, at a link.
pub fn put_top(t: &mut [u32], c: usize, link: Link, k: usize)
    requires { Sized t.old c × (link.holder ≤ c) × (k ≤ c) }
    ensures { Wrote t.old c (place_of link.holder (son_on link.side)) k t.new }
{
    words::put_link(t, link, k as u32);
}

// The same at a side of a slot.
pub fn put_son(t: &mut [u32], c: usize, holder: usize, side: Side, son: u32)
    requires { SlotThere t.old c holder }
    ensures { Wrote t.old c (place_of holder (son_on side)) son t.new }
{
    words::put_link(t, Link { holder, side }, son);
}

// A height in the register on a side of a slot.
pub fn put_height(t: &mut [u32], c: usize, k: usize, side: Side, height: u32)
    requires { SlotThere t.old c k }
    ensures { Wrote t.old c (place_of k (register_on side)) height t.new }
{
    words::put_register(t, k, side, height);
}
