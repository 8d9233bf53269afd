// Sums over a sound table: the true height and the total, each by the walk of both sides of every slot (`fork`).
#![tactic(auto)]

ghost use Rattle.std.specs.Prelude.{◌≡◌};
ghost use Rattle.scope.specs.Tree.{true_height};
ghost use Rattle.scope.specs.Sound.{tree_in};
ghost use Rattle.scope.specs.Sums.{total_of};
ghost use Rattle.scope.specs.Calls.{Total, Promise};
ghost use Rattle.total.specs.Adding.{height_answer, counted_of};

use fork::{Fold, Fork};
use gate::SoundTable;
use scope::{Answer, Slot};

// The true height of a tree.
#[derive(Clone, Copy)]
pub struct Heights;

impl Fold for Heights {
    type Down = ();

    type Up = usize;

    ghost says = { λ it down T. true_height T };

    ghost bears = { λ it more down. Unit };

    ghost handed = { λ it register. tt };

    ghost borne = { λ it t more x f down d any. (tt, tt) };

    fn nothing(self) -> usize {
        0
    }

    fn hand(self, _register: u32) {}

    fn join(self, _f: Fork, _down: (), a: usize, b: usize) -> usize {
        1 + a.max(b)
    }
}

// The same over a sound table.
#[tactic(auto, using(gate::proofs::Tables::table_whole))]
pub fn height_in(table: SoundTable) -> usize
    ensures { result ≡ true_height (tree_in table.entry.words.now table.entry.slots) }
{
    fork::fold_in(Heights, table.words, table.slots, ())
}

// The true height, answered like a call of document 01, though none asks for it.
#[tactic(auto, unfolding(crate::specs::Adding::height_answer))]
pub fn height(t: &[u32]) -> Answer
    ensures { result ≡ height_answer t.now }
{
    match sound::enter_sound(t, true) {
        Err(why) => gate::refuse(why),
        Ok(table) => gate::told(table.words, height_in(table) as u64),
    }
}

// What a record counts of a total: its pieces, if its key is at most `key`.
pub fn counted(s: Slot, key: u32) -> u64
    ensures { result ≡ counted_of key s.key s.pieces }
{
    if s.key <= key { u64::from(s.pieces) } else { 0 }
}

// The pieces of all records of a tree with a key of at most `key`.
#[derive(Clone, Copy)]
pub struct Pieces {
    pub key: u32,
}

// What is said of the right side is added last, so that the fold goes on there by itself.
impl Fold for Pieces {
    type Down = ();

    type Up = u64;

    ghost says = { λ it down T. total_of it.key T };

    ghost bears = { λ it more down. Unit };

    ghost handed = { λ it register. tt };

    ghost borne = { λ it t more x f down d any. (tt, tt) };

    fn nothing(self) -> u64 {
        0
    }

    fn hand(self, _register: u32) {}

    fn join(self, f: Fork, _down: (), a: u64, b: u64) -> u64 {
        a + counted(f.slot, self.key) + b
    }
}

// The same over a sound table.
#[tactic(auto, using(gate::proofs::Tables::table_whole))]
pub fn total_in(table: SoundTable, key: u32) -> u64
    ensures { result ≡ total_of key (tree_in table.entry.words.now table.entry.slots) }
{
    fork::fold_in(Pieces { key }, table.words, table.slots, ())
}

// total: the pieces of all records with a key of at most `key`.
#[tactic(auto, unfolding(scope::specs::Sums::total_answer))]
pub fn total(t: &[u32], key: u32) -> Answer
    ensures { Promise (Total key) t.now result t.now }
{
    match sound::enter_sound(t, true) {
        Err(why) => gate::refuse(why),
        Ok(table) => gate::told(table.words, total_in(table, key)),
    }
}
