// Document 01 as types; its rules stand beside them, in specs/, as definitions that compute.
#![tactic(auto)]

pub mod answer;
pub mod height;
pub mod outcome;
pub mod rule;
pub mod side;
pub mod slot;
pub mod slots;

pub use answer::{Answer, Denial, Refusal};
pub use height::Height;
pub use outcome::{Dropping, Leftmost, Nodes, Passed, Posting, Step, Visit, Walk};
pub use rule::{Kind, Pair, Rule};
pub use side::{Link, Side};
pub use slot::{Head, Slot, State};
pub use slots::Slots;
