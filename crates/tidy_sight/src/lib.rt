// What the rules see at a slot: whether any may be due there, whether one is, and its nodes.
#![tactic(auto)]

pub mod quick;
pub mod sight;

pub use quick::may_be_due;
pub use sight::{Sight, due, look, nodes, on_side};
