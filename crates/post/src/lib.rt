// post: a new record in the lowest free slot, hung where its key belongs.
#![tactic(auto)]

ghost use Rattle.std.specs.Prelude.{◌≡◌, ◌≤◌};
ghost use Rattle.scope.specs.Post.{hang_at, posting_at, post_plan, leaf_slot, posted};
ghost use Rattle.scope.specs.Calls.{Post, Promise};
ghost use Rattle.walk.specs.Walked.{WalkInside};
ghost use Rattle.gate.specs.Ends.{Does};
ghost use Rattle.post.specs.Planned.{Hangable};
ghost use Rattle.post.specs.Planned.{PostPlanned};

use gate::Table;
use scope::{Answer, Link, Posting, Refusal, Slot, Walk};

// Whether the lowest free slot k can be filled: test 6, and what follows it.
pub fn hang_at(table: Table, link: Link, k: usize) -> Result<Posting, Refusal>
    requires { (link.holder ≤ table.slots) × (k ≤ table.slots) }
    ensures { PostPlanned table.entry.words.now (hang_at table.entry.words.now table.entry.slots link k) result }
{
    let t = table.words;
    if k == 0 {
        return Err(Refusal::NoFreeSlot);
    }
    if gate::blank(words::slot_at(t, k)) & ((words::records(t) as usize) < table.slots) {
        if words::change(t) < Answer::LAST_CHANGE {
            Ok(Posting { slot: k, link })
        } else {
            Err(Refusal::LastChange)
        }
    } else {
        Err(Refusal::Damaged)
    }
}

// Test 4 comes before them.
pub fn posting_at(table: Table, w: Walk) -> Result<Posting, Refusal>
    requires { WalkInside table.slots w }
    ensures { PostPlanned table.entry.words.now (posting_at table.entry.words.now table.entry.slots w) result }
{
    match w {
        Walk::Damage => Err(Refusal::Damaged),
        Walk::Hit { .. } => Err(Refusal::KeyPresent),
        Walk::Miss { link, .. } => hang_at(table, link, words::free_slot(table.words, table.slots)),
    }
}

// What a post is to do: read and tested before anything is written.
#[tactic(auto, unfolding(scope::specs::Post::post_plan), using(scope::proofs::Errs::handed_on))]
pub fn plan_post(t: &[u32], key: u32, pieces: u32, state: u32) -> Result<Posting, Refusal>
    ensures { PostPlanned t.now (post_plan t.now key pieces state) result }
{
    let table = gate::enter(t, gate::record_ok(key, pieces, state))?;
    posting_at(table, walk::search(table, key))
}

// A record with no sons.
pub fn leaf(key: u32, pieces: u32, state: u32) -> Slot
    ensures { result ≡ leaf_slot key pieces state }
{
    Slot::zeros().with_record(state, key, pieces)
}

// The leaf in slot k, and k in its link.
pub fn hang(t: &mut [u32], k: usize, link: Link, new: Slot) -> Answer
    requires { Hangable t.old k link }
    ensures { Does (posted t.old new (Ok (record { slot = k; link = link }))) result t.new }
{
    let count = words::records(t) as usize;
    let change = words::change(t);
    words::put_slot(t, k, new);
    words::put_link(t, link, k as u32);
    words::put_records(t, count + 1);
    gate::next_change(t, change, k)
}

// post: a new record.
pub fn post(t: &mut [u32], key: u32, pieces: u32, state: u32) -> Answer
    ensures { Promise (Post key pieces state) t.old result t.new }
{
    match plan_post(t, key, pieces, state) {
        Err(why) => gate::refuse(why),
        Ok(Posting { slot, link }) => hang(t, slot, link, leaf(key, pieces, state)),
    }
}
