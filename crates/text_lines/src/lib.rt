// The text that `stand` reads: a line of bytes read to the command that it is.
#![tactic(auto)]

pub mod command;
pub mod form;

pub use command::Command;
pub use form::parse;
