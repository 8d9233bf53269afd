// What `stand` prints: the line of an answer, and the line of a record.
#![tactic(auto)]

pub mod line;
pub mod text;

pub use line::{put_answer, put_record};
