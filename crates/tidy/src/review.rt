// Slots looked at again: the agenda lists those at which a rule may be due.
ghost use Rattle.tidy.specs.Reviewed.{SlotIn, Reviewed, Around, NodesReviewed, AllReviewed};
ghost use Rattle.std.specs.Prelude.{◌+◌};
ghost use Rattle.spelling.specs.Ready.{Sized};

use scope::{Kind, Nodes};
use tidy_agenda::Agenda;

// Lists slot k if a rule may be due there, and strikes it if not.
pub fn review(t: &[u32], c: usize, m: &mut Agenda, k: usize)
    requires { SlotIn t.now c k }
    ensures { Reviewed t.now c m.old k m.new }
{
    if tidy_sight::may_be_due(t, c, words::slot_at(t, k)) {
        m.list(k);
    } else {
        m.strike(k);
    }
}

// The nodes of a firing; where its rule has no third, that is u.
pub fn review_nodes(t: &[u32], c: usize, m: &mut Agenda, kind: Kind, x: Nodes)
    requires { Around t.now c kind x }
    ensures { NodesReviewed t.now c m.old x m.new }
{
    review(t, c, m, x.v);
    review(t, c, m, x.u);
    if fire_aim::has_third(kind) {
        review(t, c, m, x.w);
    }
}

// Every slot of a table, with an agenda that lists none.
pub fn review_all(t: &[u32], c: usize, m: &mut Agenda)
    requires { Sized t.now c × AllReviewed t.now c m.old 1 }
    ensures { AllReviewed t.now c m.new (c + 1) }
{
    for k in 1..=c {
        review(t, c, m, k);
    }
}
