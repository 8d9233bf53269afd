// The link that holds each slot, kept beside the table: twice its holder, and one more on the right.
#![tactic(auto)]

pub mod entry;
pub mod moves;
pub mod pass;

pub use entry::Holders;
