// The agenda lists the slots at which a rule may be due: a bit for each slot, and a word above that has a bit for each
// word in which a slot is listed.
#![tactic(auto)]

ghost use Rattle.std.specs.Prelude.{◌≡◌, ◌<◌, ℕ, List};
ghost use Rattle.marks.specs.Marks.{NoneMarked, Marked, Unmarked};
ghost use Rattle.tidy_agenda.specs.Agenda.{AboveTells, LowestBit, Lowest};

use marks::Marks;
use std::marker::Model;

// The slots that are listed, and the word above.
#[derive(Drop)]
pub struct Agenda {
    pub slots: Marks,
    pub above: u64,
}

// A contract sees the marks of the slots.
impl Model for Agenda {
    ghost Value = { List ℕ };

    ghost view = { λ a. a.slots };

    ghost invariant = { λ a. AboveTells a.slots a.above };
}

impl Agenda {
    // No slot is listed.
    pub fn new() -> Self
        ensures { NoneMarked result }
    {
        Agenda {
            slots: Marks::new(),
            above: 0,
        }
    }

    // Lists slot k.
    pub fn list(&mut self, k: usize)
        requires { k < 4096 }
        ensures { Marked self.old k self.new }
    {
        self.slots.mark(k);
        self.above = marks::with_bit(self.above, k / 64);
    }

    // Strikes slot k, whether it is listed or not.
    pub fn strike(&mut self, k: usize)
        requires { k < 4096 }
        ensures { Unmarked self.old k self.new }
    {
        let left = self.slots.unmark(k);
        if left == 0 {
            self.above = marks::without_bit(self.above, k / 64);
        }
    }

    // The lowest slot that is listed.
    pub fn lowest(&self) -> Option<usize>
        ensures { Lowest self.now result }
    {
        if self.above == 0 {
            return None;
        }
        let at = lowest_in(self.above);
        Some(64 * at + lowest_in(self.slots.word(at)))
    }
}

// The lowest bit that is on in a word.
pub fn lowest_in(word: u64) -> usize
    requires { word ≡ 0 → ⊥ }
    ensures { LowestBit word 64 result }
{
    word.trailing_zeros() as usize
}
