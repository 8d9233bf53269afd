// The actions of the eight rules: the words that a firing writes, one by one.
#![tactic(auto)]

pub mod action;
pub mod put;

pub use action::{act, propagate, rotate, rotate_twice};
