// One walk over both subtrees of every slot, for whatever a table is asked to add up. It is two functions, at a slot and
// at a link, which may be empty. It starts at a slot: entered there, the test of a link is compiled into the slot above
// it, and an empty link costs no call.
ghost use Rattle.std.specs.Prelude.{◌≡◌, ◌≤◌, ℕ};
ghost use Rattle.scope.specs.Table.{word, count_word};
ghost use Rattle.scope.specs.Tree.{Tree, leaf};
ghost use Rattle.scope.specs.Sound.{tree_in};
ghost use Rattle.spelling.specs.Whole.{Whole};
ghost use Rattle.fork.specs.Hangs.{FewHang, Says};
ghost use Rattle.fork.specs.Folds.{BearsSides, Branches, Joins};

use crate::{Fork, fork_at};

// What is handed down to a tree, and what is said of it.
pub trait Fold: Copy {
    type Down: Copy;

    type Up;

    // what is said of a tree
    ghost says: { Self → Self.Down → Tree → Self.Up };

    // at most so many slots can be borne where that is handed down
    ghost bears: { Self → ℕ → Self.Down → Type 0 };

    // what a side is handed, from the register on it
    ghost handed: { Self → ℕ → Self.Down };

    // Of the empty link.
    fn nothing(self) -> Self::Up
        ensures { (down : Self.Down) → result ≡ says self down leaf };

    // What a side is handed, from the register on it.
    fn hand(self, register: u32) -> Self::Down
        ensures { result ≡ handed self register };

    // Of a slot, from what is said of its two sides.
    fn join(self, f: Fork, down: Self::Down, a: Self::Up, b: Self::Up) -> Self::Up
        requires { Branches (bears self) (handed self) (says self) f down a b }
        ensures { Joins (bears self) (handed self) (says self) f down a b result };

    ghost borne: { (it : Self) → BearsSides (bears it) (handed it) };
}

// Slot x and what hangs below it, where that is at most `more` slots. An empty right side is joined at once: where a join
// only adds what is said of the right side, the call for that side is then compiled into a loop, and a chain to the
// right takes no stack.
#[cycle(fold_at_fold_under)]
pub fn fold_at<F: Fold>(it: F, t: &[u32], more: usize, x: usize, down: F::Down) -> F::Up
    requires { (1 ≤ x) × FewHang t.now more x × F.bears it more down }
    ensures { Says t.now x (F.says it down) result }
{
    let f = fork_at(t, x);
    let less = more - 1;
    let a = fold_under(it, t, less, f.left, it.hand(f.slot.lefth));
    if f.right == 0 {
        return it.join(f, down, a, it.nothing());
    }
    let b = fold_under(it, t, less, f.right, it.hand(f.slot.righth));
    it.join(f, down, a, b)
}

// The same at a link, which may be empty.
#[cycle(fold_at_fold_under)]
pub fn fold_under<F: Fold>(it: F, t: &[u32], more: usize, x: usize, down: F::Down) -> F::Up
    requires { FewHang t.now more x × F.bears it more down }
    ensures { Says t.now x (F.says it down) result }
{
    if x == 0 {
        it.nothing()
    } else {
        fold_at(it, t, more, x, down)
    }
}

// The same over a sound table.
pub fn fold_in<F: Fold>(it: F, t: &[u32], c: usize, down: F::Down) -> F::Up
    requires { Whole t.now c × F.bears it (word t.now count_word) down }
    ensures { result ≡ F.says it down (tree_in t.now c) }
{
    let n = words::records(t) as usize;
    let root = words::root(t) as usize;
    if root == 0 {
        it.nothing()
    } else {
        fold_at(it, t, n, root, down)
    }
}
