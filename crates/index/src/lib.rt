// The eleven calls of the table, in one place: whoever uses the library uses this crate.
#![tactic(auto)]

pub use amend::amend;
pub use drop::drop;
pub use fire::fire;
pub use post::post;
pub use rank::rank;
pub use sound::check;
pub use tidy::tidy;
pub use total::total;
pub use walk::{find, start};
pub use worth::worth;
