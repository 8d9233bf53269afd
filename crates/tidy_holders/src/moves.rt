// What a firing moves: the slots whose link it writes.
ghost use Rattle.std.specs.Prelude.{◌≡◌};
ghost use Rattle.scope.specs.Rules.{rotated, twice_top, twice_sons, rotated_twice};
ghost use Rattle.tidy_holders.specs.Holds.{Moving, noted};

use crate::entry::Holders;
use scope::{Nodes, Side};

impl Holders {
    // u takes v's link, v hangs at u's far side, and u's old far son at v's near one.
    pub fn turned(&mut self, n: Nodes, near: Side)
        requires { Moving n near }
        ensures { self.new.links ≡ noted (rotated near n) self.old.links }
    {
        let far = near.other();
        self.note(n.u, n.link.holder, n.link.side);
        self.note(n.v, n.u, far);
        self.note(words::son(n.su, far) as usize, n.v, near);
    }

    // w takes v's link, with u near and v far.
    pub fn top_moved(&mut self, n: Nodes, near: Side)
        requires { Moving n near }
        ensures { self.new.links ≡ noted (twice_top near n) self.old.links }
    {
        self.note(n.w, n.link.holder, n.link.side);
        self.note(n.u, n.w, near);
        self.note(n.v, n.w, near.other());
    }

    // w's old sons hang at u's far side and v's near side.
    pub fn sons_moved(&mut self, n: Nodes, near: Side)
        requires { Moving n near }
        ensures { self.new.links ≡ noted (twice_sons near n) self.old.links }
    {
        let far = near.other();
        self.note(words::son(n.sw, near) as usize, n.u, far);
        self.note(words::son(n.sw, far) as usize, n.v, near);
    }

    // Both.
    pub fn turned_twice(&mut self, n: Nodes, near: Side)
        requires { Moving n near }
        ensures { self.new.links ≡ noted (rotated_twice near n) self.old.links }
    {
        self.top_moved(n, near);
        self.sons_moved(n, near);
    }
}
