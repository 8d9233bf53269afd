// tidy: the firings of the stated order, until none is due or the budget is spent.
#![tactic(auto)]

pub mod call;
pub mod notes;
pub mod review;
pub mod run;
pub mod scan;

pub use call::tidy;
