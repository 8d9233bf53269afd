// The loop of tidy: fire the next one, until none is due or the budget is spent.
ghost use Rattle.tidy.specs.Coming.{Running};
ghost use Rattle.tidy.specs.Firing.{MayAct, Acted, ToFire, AfterFiring};
ghost use Rattle.tidy.specs.Run.{Ended};

use crate::notes::Notes;
use crate::review::{review, review_nodes};
use crate::scan::Coming;
use scope::{Kind, Nodes, Rule};
use tidy_holders::Holders;

// How a run ended: the firings made, and whether no guard holds then.
#[derive(Clone, Copy)]
pub struct End {
    pub made: u32,
    pub quiet: bool,
}

// Writes the action of a rule at its nodes, and notes the links that it writes.
pub fn act_and_note(t: &mut [u32], c: usize, h: &mut Holders, r: Rule, x: Nodes)
    requires { MayAct t.old c r x }
    ensures { Acted t.old h.old c r x t.new h.new }
{
    match r.kind {
        Kind::Propagate => fire_act::propagate(t, c, x, r.side),
        Kind::Lean | Kind::Even => {
            fire_act::rotate(t, c, x, r.side);
            h.turned(x, r.side);
        }
        Kind::Double => {
            fire_act::rotate_twice(t, c, x, r.side);
            h.turned_twice(x, r.side);
        }
    }
}

impl Notes {
    // Fires a rule that is due at its nodes, and reviews the slots whose tests that may change: the nodes, and the two
    // holders above them.
    pub fn fire_next(&mut self, t: &mut [u32], c: usize, r: Rule, x: Nodes)
        requires { ToFire t.old c self.old r x }
        ensures { AfterFiring t.old c r x t.new self.new }
    {
        let above = self.holders.above(x.v);
        let upper = self.holders.above(above);
        act_and_note(t, c, &mut self.holders, r, x);
        review_nodes(t, c, &mut self.agenda, r.kind, x);
        review(t, c, &mut self.agenda, above);
        review(t, c, &mut self.agenda, upper);
    }

    // Makes at most so many firings. Where no rule is due no guard holds, so the scan that ends a run tells that too, and
    // a `for` over the budget would want that scan once more.
    pub fn run_budget(&mut self, t: &mut [u32], c: usize, budget: u32) -> End
        requires { Running t.old c self.old }
        ensures { Ended t.old c budget result t.new }
    {
        let mut made: u32 = 0;
        loop {
            match self.next(t, c) {
                None => break End { made, quiet: true },
                Some(Coming { rule, nodes, .. }) => {
                    if made == budget {
                        break End { made, quiet: false };
                    }
                    self.fire_next(t, c, rule, nodes);
                    made += 1;
                }
            }
        }
    }
}
