// How the parts of a call end: each outcome by name.
use crate::side::{Link, Side};
use crate::slot::Slot;

// What one slot tells a walk: the key is here, go down to a slot, or the slot is not fit.
#[derive(Clone, Copy, Debug, PartialEq, Eq)]
pub enum Step {
    Here,
    Down(Side, usize),
    Broken,
}

// The last key that a walk has passed on each side of the one it is for: one below it, one above it, 0 for none.
#[derive(Clone, Copy, Debug, PartialEq, Eq)]
pub struct Passed {
    pub below: u32,
    pub above: u32,
}

// How a walk ends: at its slot, at the empty link where its key would hang, or at damage. Document 01 names these three
// ends, so they are one enum, and no Result within a Result.
#[derive(Clone, Copy, Debug, PartialEq, Eq)]
pub enum Walk {
    Hit {
        slot: usize,
        link: Link,
        seen: usize,
    },
    Miss {
        passed: Passed,
        link: Link,
        seen: usize,
    },
    Damage,
}

// The leftmost slot of a subtree and the link that leads to it.
#[derive(Clone, Copy, Debug, PartialEq, Eq)]
pub struct Leftmost {
    pub slot: usize,
    pub link: Link,
}

// What a post is to do: fill a slot, and hang it at a link.
#[derive(Clone, Copy, Debug, PartialEq, Eq)]
pub struct Posting {
    pub slot: usize,
    pub link: Link,
}

// What a drop is to do: take out a record with at most one son, or one with two whose place the
// leftmost record of its right side takes.
#[derive(Clone, Copy, Debug, PartialEq, Eq)]
pub enum Dropping {
    Lift {
        slot: usize,
        link: Link,
        son: usize,
    },
    Replace {
        slot: usize,
        least: usize,
        link: Link,
    },
}

// What the soundness check goes on with at a slot that it enters.
#[derive(Clone, Copy, Debug, PartialEq, Eq)]
pub struct Visit {
    pub left: usize,
    pub right: usize,
    pub key: u64,
}

// The nodes of a firing: the link to v, and v, u and w with their words. Where a rule has no w, u stands for it.
#[derive(Clone, Copy, Debug, PartialEq, Eq)]
pub struct Nodes {
    pub link: Link,
    pub v: usize,
    pub u: usize,
    pub w: usize,
    pub sv: Slot,
    pub su: Slot,
    pub sw: Slot,
}
