// A slot with its two sons, and what every walk over both subtrees stands on: a tree hangs at a link, and a count of
// the slots that may still be reached falls at each slot.
#![tactic(auto)]

ghost use Rattle.std.specs.Prelude.{◌≡◌};
ghost use Rattle.scope.specs.Table.{InTable};
ghost use Rattle.fork.specs.Hangs.{fork_at};

pub mod fold;

pub use fold::{Fold, fold_at, fold_in, fold_under};
use scope::Slot;

#[derive(Clone, Copy)]
pub struct Fork {
    pub slot: Slot,
    pub left: usize,
    pub right: usize,
}

pub fn fork_at(t: &[u32], x: usize) -> Fork
    requires { InTable t.now x }
    ensures { result ≡ fork_at t.now x }
{
    let slot = words::slot_at(t, x);
    Fork {
        slot,
        left: slot.left as usize,
        right: slot.right as usize,
    }
}
