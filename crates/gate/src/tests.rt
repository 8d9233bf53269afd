// The tests of a slot, of a visit and of the header.
ghost use Rattle.std.specs.Prelude.{◌≡◌, suc, ◌≤◌};
ghost use Rattle.scope.specs.Numbers.{most_slots, most_height};
ghost use Rattle.scope.specs.Fit.{state_ok, pieces_ok, fit_slot, blank_slot, header_ok, record_ok};
ghost use Rattle.gate.specs.Parts.{burden_of, spare_of, beside_of, bounds_ok, ends_ok, visit_ok};
ghost use Rattle.spelling.specs.Ready.{Headed};

use scope::{Height, Slot, State};

pub fn state_ok(s: u32) -> bool
    ensures { result ≡ state_ok s }
{
    (s == State::POURED) | (s == State::REMELT)
}

pub fn pieces_ok(p: u32) -> bool
    ensures { result ≡ pieces_ok p }
{
    (p != 0) & (p <= Slot::MOST_PIECES)
}

// Key, pieces and state are in range.
pub fn record_ok(key: u32, pieces: u32, state: u32) -> bool
    ensures { result ≡ record_ok key pieces state }
{
    (key != 0) & pieces_ok(pieces) & state_ok(state)
}

// What is added to a register before it is held to the limit: beside an empty link any height is then too high.
pub fn burden(link: u32) -> u64
    ensures { result ≡ burden_of link }
{
    if link == 0 { Height::MOST as u64 } else { 0 }
}

// What is added to the number of a slot, or of a visit, before it is held to the same limit: past the table's slots any
// is then too high.
pub fn spare(c: usize) -> u64
    requires { c ≤ most_slots }
    ensures { result ≡ spare_of c }
{
    Height::MOST as u64 - c as u64
}

// A link and the register beside it. The limit is all ones, so numbers are within it exactly if their bits together are.
pub fn beside(extra: u64, link: u32, register: u32) -> u64
    requires { extra ≤ most_height }
    ensures { result ≡ beside_of extra link register }
{
    (register as u64 + burden(link)) | (link as u64 + extra)
}

// Both links with their registers, and the number of a visit, at once.
pub fn bounds_ok(c: usize, n: usize, s: Slot) -> bool
    requires { (c ≤ most_slots) × (n ≤ suc c) }
    ensures { result ≡ bounds_ok c n s }
{
    let extra = spare(c);
    let left = beside(extra, s.left, s.lefth);
    let right = beside(extra, s.right, s.righth);
    (left | (right | (n as u64 + extra))) <= Height::MOST as u64
}

// The first and the last word of a slot at once: 1 or 2, and 0.
pub fn ends_ok(s: Slot) -> bool
    ensures { result ≡ ends_ok s }
{
    let ends = s.state as u64 + 4 * (s.last as u64);
    (ends == State::POURED as u64) | (ends == State::REMELT as u64)
}

// The n-th visit of a walk through a table of c slots: n is at most c, and the slot is fit. The tests are made one after
// the other, so that the processor guesses that they pass.
pub fn visit_ok(c: usize, n: usize, s: Slot) -> bool
    requires { (c ≤ most_slots) × (n ≤ suc c) }
    ensures { result ≡ visit_ok c n s }
{
    s.key != 0 && (pieces_ok(s.pieces) && (bounds_ok(c, n, s) && ends_ok(s)))
}

// A visit with the number 0 is never one too many.
pub fn fit(c: usize, s: Slot) -> bool
    requires { c ≤ most_slots }
    ensures { result ≡ fit_slot c s }
{
    visit_ok(c, 0, s)
}

// Eight zeros.
pub fn blank(s: Slot) -> bool
    ensures { result ≡ blank_slot s }
{
    (s.state == State::FREE)
        & (s.key == 0)
        & (s.pieces == 0)
        & (s.left == 0)
        & (s.right == 0)
        & (s.lefth == 0)
        & (s.righth == 0)
        & (s.last == 0)
}

// The root, the count and the zero of the header at once.
pub fn header_ok(c: usize, t: &[u32]) -> bool
    requires { Headed t.now × (c ≤ most_slots) }
    ensures { result ≡ header_ok c t.now }
{
    let extra = spare(c);
    let root = words::root(t) as u64 + extra;
    let count = words::records(t) as u64 + extra;
    let zero = words::zero(t) as u64 * (Height::MOST as u64 + 1);
    (root | (count | zero)) <= Height::MOST as u64
}
