// rank: the slot of the r-th smallest key, by a walk of both sides that carries what is still wanted.
#![tactic(auto)]

ghost use Rattle.std.specs.Prelude.{◌≡◌, ◌≤◌};
ghost use Rattle.scope.specs.Sound.{tree_in};
ghost use Rattle.scope.specs.Sums.{rank_of, ranked};
ghost use Rattle.scope.specs.Calls.{Promise};
ghost use Rattle.scope.specs.Calls as calls;
ghost use Rattle.spelling.specs.Ready.{Headed};
ghost use Rattle.fork.specs.Hangs.{FewHang};
ghost use Rattle.rank.specs.Ranks.{Seeks};

use gate::SoundTable;
use scope::{Answer, Refusal};
use std::ops::ControlFlow;

// Looks for a rank among slot x and what hangs below it: breaks with its slot, or goes on with the rank that is wanted
// after all these. No fold (`fork::Fold`): once it has its slot, it asks nothing of what is on the right.
#[cycle(rank_at_rank_under)]
pub fn rank_at(t: &[u32], more: usize, x: usize, wanted: usize) -> ControlFlow<usize, usize>
    requires { (1 ≤ x) × (1 ≤ wanted) × FewHang t.now more x }
    ensures { Seeks t.now x wanted result }
{
    let f = fork::fork_at(t, x);
    let less = more - 1;
    let n = rank_under(t, less, f.left, wanted)?;
    if n == 1 {
        return ControlFlow::Break(x);
    }
    rank_under(t, less, f.right, n - 1)
}

// The same at a link, which may be empty.
#[cycle(rank_at_rank_under)]
pub fn rank_under(t: &[u32], more: usize, x: usize, wanted: usize) -> ControlFlow<usize, usize>
    requires { (1 ≤ wanted) × FewHang t.now more x }
    ensures { Seeks t.now x wanted result }
{
    if x == 0 {
        ControlFlow::Continue(wanted)
    } else {
        rank_at(t, more, x, wanted)
    }
}

// The slot of the r-th smallest key of a sound table, or how many records it has.
pub fn rank_in(table: SoundTable, r: usize) -> Result<usize, usize>
    requires { 1 ≤ r }
    ensures { result ≡ rank_of r (tree_in table.entry.words.now table.entry.slots) }
{
    let t = table.words;
    let n = words::records(t) as usize;
    if n < r {
        return Err(n);
    }
    match rank_at(t, n, words::root(t) as usize, r) {
        ControlFlow::Break(slot) => Ok(slot),
        ControlFlow::Continue(wanted) => Err(r - wanted),
    }
}

// What rank answers.
pub fn ranked(t: &[u32], found: Result<usize, usize>) -> Answer
    requires { Headed t.now }
    ensures { result ≡ ranked t.now found }
{
    match found {
        Ok(slot) => gate::told(t, slot as u64),
        Err(_) => gate::refuse(Refusal::KeyAbsent),
    }
}

// rank: the slot of the r-th smallest key.
#[tactic(auto, unfolding(scope::specs::Sums::rank_answer))]
pub fn rank(t: &[u32], r: u32) -> Answer
    ensures { Promise (calls.Rank r) t.now result t.now }
{
    match sound::enter_sound(t, r != 0) {
        Err(why) => gate::refuse(why),
        Ok(table) => ranked(table.words, rank_in(table, r as usize)),
    }
}
