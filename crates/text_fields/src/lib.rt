// The parts of a line that `stand` reads: words, numbers and fields, and where a line ends.
#![tactic(auto)]

pub mod input;
pub mod number;
pub mod read;

pub use input::line_end;
pub use read::{Read, end, field, word};
