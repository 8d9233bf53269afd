// The soundness check: a scan that marks each slot it reaches, then a pass over the slots that it did not reach.
#![tactic(auto)]

ghost use Rattle.std.specs.Prelude.{◌≡◌, ◌≤◌};
ghost use Rattle.scope.specs.Numbers.{most_slots};
ghost use Rattle.scope.specs.Table.{word, InTable};
ghost use Rattle.scope.specs.Sound.{sound_table};
ghost use Rattle.scope.specs.Sums.{sound_gate};
ghost use Rattle.scope.specs.Calls.{Check, Promise};
ghost use Rattle.gate.specs.Opens.{OpensSound};
ghost use Rattle.spelling.specs.Ready.{Sized};
ghost use Rattle.sound.specs.Scan.{in_place, settled_at, Looking, Scanning, VisitSays, Scanned, RestIs};

use gate::SoundTable;
use marks::Marks;
use scope::{Answer, Refusal, Slot, Visit};

// One more than the largest key.
pub const PAST_KEYS: u64 = 4294967296;

// Whether a slot is fit and its key lies between two bounds.
pub fn in_place(c: usize, s: Slot, low: u64, high: u64) -> bool
    requires { c ≤ most_slots }
    ensures { result ≡ in_place c s low high }
{
    let key = u64::from(s.key);
    gate::fit(c, s) & (low < key) & (key < high)
}

// Tests slot x and marks it: it must not have been reached before.
pub fn visit(t: &[u32], m: &mut Marks, c: usize, x: usize, low: u64, high: u64) -> Option<Visit>
    requires { (1 ≤ x) × Looking t.now c x }
    ensures { VisitSays t.now m.old m.new c x low high result }
{
    if m.marked(x) {
        return None;
    }
    let s = words::slot_at(t, x);
    if in_place(c, s, low, high) {
        m.mark(x);
        let left = s.left as usize;
        let right = s.right as usize;
        let key = u64::from(s.key);
        Some(Visit { left, right, key })
    } else {
        None
    }
}

// Scans slot x and what hangs below it: at most `more` slots, with keys between two bounds. Says how many are left
// over, or nothing where it finds damage. It calls itself for what hangs on the left, and goes on to the right by itself.
#[cycle(scan_under)]
pub fn scan(
    t: &[u32],
    m: &mut Marks,
    c: usize,
    more: usize,
    x: usize,
    low: u64,
    high: u64,
) -> Option<usize>
    requires { (1 ≤ x) × Scanning t.now c more x }
    ensures { Scanned t.now m.old m.new c more x low high result }
{
    let mut at = x;
    let mut from = low;
    let mut few = more;
    loop {
        if few == 0 {
            return None;
        }
        let here = visit(t, m, c, at, from, high)?;
        let n = under(t, m, c, few - 1, here.left, from, here.key)?;
        if here.right == 0 {
            return Some(n);
        }
        at = here.right;
        from = here.key;
        few = n;
    }
}

// The same at a link, which may be empty.
#[cycle(scan_under)]
pub fn under(
    t: &[u32],
    m: &mut Marks,
    c: usize,
    more: usize,
    x: usize,
    low: u64,
    high: u64,
) -> Option<usize>
    requires { Scanning t.now c more x }
    ensures { Scanned t.now m.old m.new c more x low high result }
{
    if x == 0 {
        Some(more)
    } else {
        scan(t, m, c, more, x, low, high)
    }
}

// The same from the root on, over all keys. It calls `scan`, and not `under`, which then costs no call of its own.
pub fn from_root(t: &[u32], m: &mut Marks, c: usize, more: usize, x: usize) -> Option<usize>
    requires { Scanning t.now c more x }
    ensures { Scanned t.now m.old m.new c more x 0 4294967296 result }
{
    if x == 0 {
        Some(more)
    } else {
        scan(t, m, c, more, x, 0, PAST_KEYS)
    }
}

// Whether slot k was reached, or is blank.
pub fn settled(t: &[u32], m: &Marks, k: usize) -> bool
    requires { InTable t.now k × (k ≤ most_slots) }
    ensures { result ≡ settled_at t.now m.now k }
{
    if m.marked(k) {
        true
    } else {
        gate::blank(words::slot_at(t, k))
    }
}

// Whether every slot that was not reached is blank; a word of marks with all on is passed over at once, so this is no
// `for`: k goes on by as many slots as `past` says.
pub fn rest_blank(t: &[u32], m: &Marks, c: usize) -> bool
    requires { Sized t.now c }
    ensures { RestIs t.now m.now c result }
{
    let mut k = 1;
    while k <= c {
        if settled(t, m, k) {
            k = m.past(k, Marks::ALL_ON);
        } else {
            return false;
        }
    }
    true
}

// Whether the table is sound.
pub fn sound(t: &[u32], c: usize) -> bool
    requires { Sized t.now c }
    ensures { result ≡ sound_table t.now c }
{
    if gate::header_ok(c, t) {
        let mut m = Marks::new();
        let n = words::records(t) as usize;
        let root = words::root(t) as usize;
        match from_root(t, &mut m, c, n, root) {
            None => false,
            Some(missing) => missing == 0 && rest_blank(t, &m, c),
        }
    } else {
        false
    }
}

// Tests 1 to 3 of the calls that want a sound table.
pub fn enter_sound(t: &[u32], in_range: bool) -> Result<SoundTable<'_>, Refusal>
    ensures { OpensSound t.now (sound_gate t.now in_range) result }
{
    let table = gate::enter(t, in_range)?;
    let slots = table.slots;
    if sound(t, slots) {
        Ok(SoundTable { words: t, slots })
    } else {
        Err(Refusal::Damaged)
    }
}

// check: whether the table is sound.
#[tactic(auto, unfolding(scope::specs::Sums::check_answer))]
pub fn check(t: &[u32]) -> Answer
    ensures { Promise Check t.now result t.now }
{
    match enter_sound(t, true) {
        Err(why) => gate::refuse(why),
        Ok(table) => gate::told(table.words, 0),
    }
}
