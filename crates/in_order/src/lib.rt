// One walk in key order: it hands each record's slot on, into a lent list, and says where the list ends.
#![tactic(auto)]

ghost use Rattle.std.specs.Prelude.{◌≤◌, length};
ghost use Rattle.spelling.specs.Whole.{Whole};
ghost use Rattle.in_order.specs.Listed.{Roomy, Written, InOrder};

// Lists slot x and what hangs below it, from the place `at` on: the place after them. No fold (`fork::Fold`): it writes
// in a lent list, and hands its place on from the left side to the right.
#[cycle(order_at_order_under)]
pub fn order_at(t: &[u32], more: usize, x: usize, list: &mut [usize], at: usize) -> usize
    requires { (1 ≤ x) × Roomy t.now more x list.old at }
    ensures { Written t.now list.old x at list.new result }
{
    let f = fork::fork_at(t, x);
    let less = more - 1;
    let here = order_under(t, less, f.left, list, at);
    list[here] = x;
    order_under(t, less, f.right, list, here + 1)
}

// The same at a link, which may be empty.
#[cycle(order_at_order_under)]
pub fn order_under(t: &[u32], more: usize, x: usize, list: &mut [usize], at: usize) -> usize
    requires { Roomy t.now more x list.old at }
    ensures { Written t.now list.old x at list.new result }
{
    if x == 0 {
        at
    } else {
        order_at(t, more, x, list, at)
    }
}

// Lists all slots of a sound table in the order of their keys: how many.
pub fn order_in(t: &[u32], c: usize, list: &mut [usize]) -> usize
    requires { Whole t.now c × (c ≤ length list.old) }
    ensures { InOrder t.now c list.new result }
{
    let n = words::records(t) as usize;
    let root = words::root(t) as usize;
    if root == 0 {
        0
    } else {
        order_at(t, n, root, list, 0)
    }
}
