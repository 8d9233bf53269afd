// What a drop is to do: read and tested before anything is written.
#![tactic(auto)]

ghost use Rattle.std.specs.Prelude.{◌≤◌};
ghost use Rattle.scope.specs.Drop.{leftmost_from, if_may, replacing, drop_at, dropping_at, drop_plan};
ghost use Rattle.spelling.specs.Ready.{Headed};
ghost use Rattle.walk.specs.Walked.{WalkInside};
ghost use Rattle.drop_plan.specs.Planned.{HitFits, FoundAt, right_link, LeastReached, DropAimed, DropPlanned};

use gate::Table;
use scope::{Answer, Denial, Dropping, Leftmost, Link, Refusal, Side, Walk};

// The leftmost slot below a slot that hangs at a link, where at most `most` slots are visited.
pub fn leftmost(table: Table, most: usize, slot: usize, link: Link) -> Option<Leftmost>
    requires { (1 ≤ slot) × (slot ≤ table.slots) × (link.holder ≤ table.slots) }
    ensures { LeastReached table.entry.words.now table.entry.slots
        (leftmost_from most table.entry.words.now table.entry.slots slot link) result }
{
    let t = table.words;
    let c = table.slots;
    let mut at = slot;
    let mut held = link;
    for _visit in 0..most {
        let s = words::slot_at(t, at);
        if !gate::fit(c, s) {
            return None;
        }
        let next = s.left as usize;
        if next == 0 {
            return Some(Leftmost {
                slot: at,
                link: held,
            });
        }
        held = Link {
            holder: at,
            side: Side::Left,
        };
        at = next;
    }
    None
}

// A plan or a refusal, as it was given, if a record is counted and there is a change number left.
#[tactic(auto, unfolding(scope::specs::Drop::if_may), using(crate::proofs::Plans::can_drop))]
pub fn if_may(t: &[u32], plan: Result<Dropping, Denial>) -> Result<Dropping, Denial>
    requires { Headed t.now × DropAimed t.now plan }
    ensures { DropPlanned t.now (if_may t.now plan) result }
{
    if words::records(t) == 0 {
        return Err(Denial::Refused(Refusal::Damaged));
    }
    if words::change(t) < Answer::LAST_CHANGE {
        plan
    } else {
        Err(Denial::Refused(Refusal::LastChange))
    }
}

// With two sons the walk goes on to the leftmost on the right, where at most `most` slots are visited.
pub fn replacing(table: Table, most: usize, slot: usize, right: usize) -> Result<Dropping, Denial>
    requires { (1 ≤ slot) × (slot ≤ table.slots) × (1 ≤ right) × (right ≤ table.slots) }
    ensures { DropPlanned table.entry.words.now
        (replacing table.entry.words.now slot
        (leftmost_from most table.entry.words.now table.entry.slots right (right_link slot))) result }
{
    let link = Link {
        holder: slot,
        side: Side::Right,
    };
    let least = leftmost(table, most, right, link).ok_or(Refusal::Damaged)?;
    if_may(
        table.words,
        Ok(Dropping::Replace {
            slot,
            least: least.slot,
            link: least.link,
        }),
    )
}

// What is to be done with the record of a fit slot, found after `seen` visits.
pub fn drop_at(table: Table, slot: usize, link: Link, seen: usize) -> Result<Dropping, Denial>
    requires { FoundAt table.words.now table.slots slot link seen }
    ensures { DropPlanned table.entry.words.now (drop_at table.entry.words.now table.entry.slots slot link seen) result }
{
    let t = table.words;
    let s = words::slot_at(t, slot);
    let left = s.left as usize;
    let right = s.right as usize;
    if left == 0 {
        return if_may(
            t,
            Ok(Dropping::Lift {
                slot,
                link,
                son: right,
            }),
        );
    }
    if right == 0 {
        return if_may(
            t,
            Ok(Dropping::Lift {
                slot,
                link,
                son: left,
            }),
        );
    }
    replacing(table, table.slots - seen, slot, right)
}

// Test 5 comes before that.
pub fn dropping_at(table: Table, w: Walk) -> Result<Dropping, Denial>
    requires { WalkInside table.slots w × HitFits table.words.now table.slots w }
    ensures { DropPlanned table.entry.words.now (dropping_at table.entry.words.now table.entry.slots w) result }
{
    match w {
        Walk::Damage => Err(Denial::Refused(Refusal::Damaged)),
        Walk::Miss { passed, .. } => Err(Denial::Absent(passed)),
        Walk::Hit { slot, link, seen } => drop_at(table, slot, link, seen),
    }
}

// The plan for a key.
#[tactic(auto, unfolding(scope::specs::Drop::drop_plan), using(scope::proofs::Errs::denied_on))]
pub fn plan_drop(t: &[u32], key: u32) -> Result<Dropping, Denial>
    ensures { DropPlanned t.now (drop_plan t.now key) result }
{
    let table = gate::enter(t, key != 0)?;
    dropping_at(table, walk::search(table, key))
}
