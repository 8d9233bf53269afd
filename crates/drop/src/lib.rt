// Carrying a drop out, in the stated order of writing.
#![tactic(auto)]

ghost use Rattle.std.specs.Prelude.{◌≡◌, ◌-◌, ◌≤◌, ◌<◌};
ghost use Rattle.scope.specs.Numbers.{last_change, most_slots};
ghost use Rattle.scope.specs.Table.{slot_at, with_slot, InTable};
ghost use Rattle.scope.specs.Table.{zero_slot};
ghost use Rattle.scope.specs.Drop.{relinked, with_record_of, dropped};
ghost use Rattle.scope.specs.Calls.{Drop, Promise};
ghost use Rattle.scope.specs.declared.outcome.Dropping.TheVariants.{Lift, Replace};
ghost use Rattle.gate.specs.Ends.{Does, settled};
ghost use Rattle.drop_plan.specs.Planned.{Linkable, Liftable, Replaceable};

use drop_plan::plan_drop;
use scope::{Answer, Dropping, Link, Slot};

// The link takes the son; where that is none, a slot that holds the link has 0 in the register beside it.
pub fn relink(t: &mut [u32], link: Link, son: usize)
    requires { Linkable t.old link son }
    ensures { t.new ≡ relinked t.old link son }
{
    words::put_link(t, link, son as u32);
    let holder = link.holder;
    if (son != 0) | (holder == Link::ROOT) {
        return;
    }
    let side = link.side;
    words::put_register(t, holder, side, 0);
}

// The slot takes another's record, and keeps its own links and registers.
pub fn take_record(t: &mut [u32], slot: usize, from: Slot)
    requires { InTable t.old slot }
    ensures { t.new ≡ with_slot t.old slot (with_record_of (slot_at t.old slot) from) }
{
    let s = words::slot_at(t, slot);
    let new = s.with_record(from.state, from.key, from.pieces);
    words::put_slot(t, slot, new);
}

// The slot is freed: zeros, one record fewer than before, one change more.
pub fn vacate(t: &mut [u32], slot: usize, count: usize, change: u32) -> Answer
    requires { InTable t.old slot × (1 ≤ count) × (count ≤ most_slots) × (change < last_change) }
    ensures { Does (settled (with_slot t.old slot zero_slot) (count - 1) change slot) result t.new }
{
    words::put_slot(t, slot, Slot::zeros());
    words::put_records(t, count - 1);
    gate::next_change(t, change, slot)
}

// A record with at most one son: the son takes its link.
pub fn lift(t: &mut [u32], slot: usize, link: Link, son: usize) -> Answer
    requires { Liftable t.old slot link son }
    ensures { Does (dropped t.old (Ok (Lift slot link son))) result t.new }
{
    let count = words::records(t) as usize;
    let change = words::change(t);
    relink(t, link, son);
    vacate(t, slot, count, change)
}

// A record with two sons: the least of its right side takes its place.
pub fn replace(t: &mut [u32], slot: usize, least: usize, link: Link) -> Answer
    requires { Replaceable t.old slot least link }
    ensures { Does (dropped t.old (Ok (Replace slot least link))) result t.new }
{
    let count = words::records(t) as usize;
    let change = words::change(t);
    let m = words::slot_at(t, least);
    take_record(t, slot, m);
    relink(t, link, m.right as usize);
    vacate(t, least, count, change)
}

// drop: a record is taken out.
pub fn drop(t: &mut [u32], key: u32) -> Answer
    ensures { Promise (Drop key) t.old result t.new }
{
    match plan_drop(t, key) {
        Err(why) => gate::deny(why),
        Ok(Dropping::Lift { slot, link, son }) => lift(t, slot, link, son),
        Ok(Dropping::Replace { slot, least, link }) => replace(t, slot, least, link),
    }
}
