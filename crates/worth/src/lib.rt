// The worth of a sound table, by the walk of both sides (`fork`), which counts the slots as it goes.
#![tactic(auto)]

ghost use Rattle.std.specs.Prelude.{◌≡◌, ◌+◌, ◌-◌, ◌*◌, ◌≤◌, ◌<◌};
ghost use Rattle.scope.specs.Numbers.{most_slots, most_height};
ghost use Rattle.scope.specs.Sound.{tree_in};
ghost use Rattle.scope.specs.Worth.{worth_of};
ghost use Rattle.scope.specs.Calls.{Worth, Promise};
ghost use Rattle.fork.specs.Hangs.{Says};
ghost use Rattle.worth.specs.Weight.{own_weight, load_of, top_of, Light, Bearable, Rooted};
ghost use Rattle.worth.specs.Bearing.{bears-sides};

use fork::{Fold, Fork};
use gate::SoundTable;
use scope::{Answer, Slot};

// What hangs at a link: what it weighs, and how many slots it is.
#[derive(Clone, Copy)]
pub struct Load {
    pub weight: u64,
    pub slots: u64,
}

// What a carry weighs: `out` slots outside, the local height, the register above it.
pub fn carry(out: u64, high: u64, above: u64) -> u64
    requires { (out ≤ most_slots) × (high ≤ 65536) × (above ≤ 65536) }
    ensures { (result ≡ out * (high - above) + (above - high)) × (result ≤ 268500000) }
{
    if above < high {
        out * (high - above)
    } else {
        above - high
    }
}

// What a balance weighs: twice, and once more by as much as it is over one.
pub fn balance(p: u64) -> u64
    requires { p ≤ most_height }
    ensures { result ≡ 2 * p + (p - 1) }
{
    if p == 0 { 0 } else { 2 * p + (p - 1) }
}

// What a slot weighs by itself.
pub fn own_weight(s: Slot, out: u64, above: u64) -> u64
    requires { Light s out above }
    ensures { (result ≡ own_weight s.lefth s.righth out above) × (result ≤ 2000000000) }
{
    let w = carry(out, words::over(s.lefth, s.righth), above);
    let p = u64::from(s.lefth.abs_diff(s.righth));
    6 * w + balance(p)
}

// The load of a tree, of n slots in all, with a register above it.
#[derive(Clone, Copy)]
pub struct Loads {
    pub n: u64,
}

impl Fold for Loads {
    type Down = u64;

    type Up = Load;

    ghost says = { λ it above T. load_of it.n above T };

    ghost bears = { λ it more above. Bearable more it.n above };

    ghost handed = { λ it register. register };

    ghost borne = { λ it t more x f above d w. bears-sides d w };

    fn nothing(self) -> Load {
        Load {
            weight: 0,
            slots: 0,
        }
    }

    fn hand(self, register: u32) -> u64 {
        u64::from(register)
    }

    fn join(self, f: Fork, above: u64, a: Load, b: Load) -> Load {
        let slots = a.slots + b.slots + 1;
        let own = own_weight(f.slot, self.n - slots, above);
        Load {
            weight: a.weight + b.weight + own,
            slots,
        }
    }
}

// The height that the registers at link x show, under which it has no carry.
pub fn top(t: &[u32], x: usize) -> u64
    requires { Rooted t.now x }
    ensures { Says t.now x top_of result × (result ≤ 65536) }
{
    if x == 0 {
        0
    } else {
        let s = words::slot_at(t, x);
        words::over(s.lefth, s.righth)
    }
}

// The worth of a sound table.
pub fn worth_in(table: SoundTable) -> u64
    ensures { result ≡ worth_of (tree_in table.entry.words.now table.entry.slots) }
{
    let t = table.words;
    let n = words::records(t) as u64;
    let above = top(t, words::root(t) as usize);
    fork::fold_in(Loads { n }, t, table.slots, above).weight
}

// worth: how far the registers are from those of a balanced tree.
#[tactic(auto, unfolding(scope::specs::Worth::worth_answer))]
pub fn worth(t: &[u32]) -> Answer
    ensures { Promise Worth t.now result t.now }
{
    match sound::enter_sound(t, true) {
        Err(why) => gate::refuse(why),
        Ok(table) => gate::told(table.words, worth_in(table)),
    }
}
