// The search walk, and the two calls that need nothing else: start and find.
#![tactic(auto)]

ghost use Rattle.std.specs.Prelude.{◌≡◌, length, replicate};
ghost use Rattle.scope.specs.Walk.{passing};
ghost use Rattle.scope.specs.Find.{found_in};
ghost use Rattle.scope.specs.Calls.{Start, Find, Promise};
ghost use Rattle.spelling.specs.Ready.{Sized};
ghost use Rattle.walk.specs.Walked.{Walked, WalkInside, way_of};

use gate::Table;
use scope::{Answer, Link, Passed, Refusal, Side, Slot, Walk};

// The side on which a key would hang under a slot.
pub fn way(key: u32, s: Slot) -> Side
    ensures { result ≡ way_of key s }
{
    if key < s.key { Side::Left } else { Side::Right }
}

// The last keys passed after a turn at a key: to the left it lies above, to the right below.
pub fn pass(side: Side, key: u32, passed: Passed) -> Passed
    ensures { result ≡ passing side key passed }
{
    match side {
        Side::Left => Passed {
            below: passed.below,
            above: key,
        },
        Side::Right => Passed {
            below: key,
            above: passed.above,
        },
    }
}

// Walks from the root to a key, or to the empty link where it would hang. Each slot is first asked where it leads, and
// tested only then, together with the number of its visit: the processor needs the answer for the next slot, and does
// the tests beside it.
pub fn search(table: Table, key: u32) -> Walk
    ensures { Walked table.entry.words.now table.entry.slots key result }
{
    let t = table.words;
    let c = table.slots;
    let mut at = words::root(t) as usize;
    let mut link = Link {
        holder: Link::ROOT,
        side: Side::Left,
    };
    let mut passed = Passed { below: 0, above: 0 };
    let mut seen: usize = 0;
    loop {
        if at == 0 {
            break Walk::Miss { passed, link, seen };
        }
        let s = words::slot_at(t, at);
        let side = way(key, s);
        let next = words::son(s, side) as usize;
        // `seen` is what the walk answers; document 01 wants this loop to break with its outcome.
        seen += 1;
        if !gate::visit_ok(c, seen, s) {
            break Walk::Damage;
        }
        if key == s.key {
            break Walk::Hit {
                slot: at,
                link,
                seen,
            };
        }
        link = Link { holder: at, side };
        passed = pass(side, s.key, passed);
        at = next;
    }
}

// What find answers at a walk's end.
pub fn found(t: &[u32], c: usize, w: Walk) -> Answer
    requires { Sized t.now c × WalkInside c w }
    ensures { result ≡ found_in t.now w }
{
    match w {
        Walk::Damage => gate::refuse(Refusal::Damaged),
        Walk::Miss { passed, .. } => gate::absent(passed),
        Walk::Hit { slot, seen, .. } => {
            let s = words::slot_at(t, slot);
            gate::accept(
                u64::from(words::change(t)),
                u64::from(s.pieces),
                seen as u64,
                u64::from(s.state),
            )
        }
    }
}

// find: the record of a key.
#[tactic(auto, unfolding(scope::specs::Find::find_answer), using(gate::proofs::Tables::table_ready))]
pub fn find(t: &[u32], key: u32) -> Answer
    ensures { Promise (Find key) t.now result t.now }
{
    match gate::enter(t, key != 0) {
        Err(why) => gate::refuse(why),
        Ok(table) => found(table.words, table.slots, search(table, key)),
    }
}

// Zeroes every word.
pub fn clear(t: &mut [u32])
    ensures { t.new ≡ replicate (length t.old) 0 }
{
    t.fill(0);
}

// start: an empty table.
#[tactic(auto, unfolding(scope::specs::Find::start_of, scope::specs::Answers::gate))]
pub fn start(t: &mut [u32]) -> Answer
    ensures { Promise Start t.old result t.new }
{
    match gate::capacity(t.len()) {
        Err(why) => gate::refuse(why),
        Ok(_) => {
            clear(t);
            gate::accept(0, 0, 0, 0)
        }
    }
}
