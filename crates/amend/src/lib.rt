// amend: other pieces and another state for a record that is there.
#![tactic(auto)]

ghost use Rattle.scope.specs.Amend.{amending_at, amend_plan, amended};
ghost use Rattle.scope.specs.Calls.{Amend, Promise};
ghost use Rattle.walk.specs.Walked.{WalkInside};
ghost use Rattle.gate.specs.Ends.{Does};
ghost use Rattle.amend.specs.Planned.{Changeable};
ghost use Rattle.amend.specs.Planned.{AmendPlanned};

use gate::{Table, next_change};
use scope::{Answer, Denial, Refusal, Walk};

// Tests 5 and 7.
pub fn amending_at(table: Table, w: Walk) -> Result<usize, Denial>
    requires { WalkInside table.slots w }
    ensures { AmendPlanned table.entry.words.now (amending_at table.entry.words.now w) result }
{
    match w {
        Walk::Damage => Err(Denial::Refused(Refusal::Damaged)),
        Walk::Miss { passed, .. } => Err(Denial::Absent(passed)),
        Walk::Hit { slot, .. } => {
            if words::change(table.words) < Answer::LAST_CHANGE {
                Ok(slot)
            } else {
                Err(Denial::Refused(Refusal::LastChange))
            }
        }
    }
}

// What an amend is to do: read and tested before anything is written.
#[tactic(auto, unfolding(scope::specs::Amend::amend_plan), using(scope::proofs::Errs::denied_on))]
pub fn plan_amend(t: &[u32], key: u32, pieces: u32, state: u32) -> Result<usize, Denial>
    ensures { AmendPlanned t.now (amend_plan t.now key pieces state) result }
{
    let table = gate::enter(t, gate::record_ok(key, pieces, state))?;
    amending_at(table, walk::search(table, key))
}

// The record of slot k with other pieces and another state.
pub fn change_record(t: &mut [u32], k: usize, pieces: u32, state: u32) -> Answer
    requires { Changeable t.old k }
    ensures { Does (amended t.old pieces state (Ok k)) result t.new }
{
    let change = words::change(t);
    let s = words::slot_at(t, k);
    let new = s.with_record(state, s.key, pieces);
    words::put_slot(t, k, new);
    next_change(t, change, k)
}

// amend: a record's pieces and state.
pub fn amend(t: &mut [u32], key: u32, pieces: u32, state: u32) -> Answer
    ensures { Promise (Amend key pieces state) t.old result t.new }
{
    match plan_amend(t, key, pieces, state) {
        Err(why) => gate::deny(why),
        Ok(slot) => change_record(t, slot, pieces, state),
    }
}
