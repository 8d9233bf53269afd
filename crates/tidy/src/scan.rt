// The stated order: the lowest slot, then the lowest rule, left by a label at the first that is due.
ghost use Rattle.std.specs.Prelude.{◌≡◌};
ghost use Rattle.tidy.specs.Coming.{Running, Comes};

use crate::notes::Notes;
use scope::{Nodes, Rule, Side};
use tidy_sight::{due, look};

// The next firing: its slot, its rule's number, that rule and its nodes.
#[derive(Clone, Copy)]
pub struct Coming {
    pub slot: usize,
    pub number: u32,
    pub rule: Rule,
    pub nodes: Nodes,
}

impl Notes {
    // Looks only at slots that are listed, and strikes those at which no rule is due. None if no rule is due at any.
    pub fn next(&mut self, t: &[u32], c: usize) -> Option<Coming>
        requires { Running t.now c self.old }
        ensures next { Comes t.now c self.new.agenda result }
        ensures holders { self.new.holders ≡ self.old.holders }
    {
        'slots: loop {
            let v = self.agenda.lowest()?;
            if c < v {
                break None;
            }
            let s = words::slot_at(t, v);
            let left = look(t, c, s, Side::Left);
            let right = look(t, c, s, Side::Right);
            for n in Rule::LP..=Rule::RLR {
                match Rule::try_from(n) {
                    Err(_) => {}
                    Ok(r) => {
                        if due(t, c, r, tidy_sight::sight::on_side(r.side, left, right)) {
                            let link = self.holders.link(v);
                            break 'slots Some(Coming {
                                slot: v,
                                number: n,
                                rule: r,
                                nodes: tidy_sight::nodes(t, c, r, link, v, s),
                            });
                        }
                    }
                }
            }
            self.agenda.strike(v);
        }
    }
}
