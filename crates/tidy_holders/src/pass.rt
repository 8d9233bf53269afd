// The links at first: one pass over a sound table.
ghost use Rattle.std.specs.Prelude.{◌≡◌};
ghost use Rattle.spelling.specs.Whole.{Whole};
ghost use Rattle.tidy_holders.specs.Holds.{AllNoted, Sons, sons_noted};

use crate::entry::Holders;
use scope::Side;

impl Holders {
    // The two sons of slot k.
    pub fn note_sons(&mut self, t: &[u32], k: usize)
        requires { Sons t.now k }
        ensures { self.new.links ≡ sons_noted t.now k self.old.links }
    {
        let s = words::slot_at(t, k);
        self.note(words::son(s, Side::Left) as usize, k, Side::Left);
        self.note(words::son(s, Side::Right) as usize, k, Side::Right);
    }

    // The link of every slot of a sound table, whatever was noted before.
    pub fn note_all(&mut self, t: &[u32], c: usize)
        requires { Whole t.now c }
        ensures { AllNoted t.now c self.new.links }
    {
        self.note(words::root(t) as usize, 0, Side::Left);
        for k in 1..=c {
            self.note_sons(t, k);
        }
    }
}
