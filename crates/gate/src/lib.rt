// How a call begins and ends: the tests of header and slot, the numbers of the refusals, the header's numbers written.
#![tactic(auto)]

pub mod call;
pub mod ending;
pub mod table;
pub mod tests;

pub use call::{absent, accept, capacity, deny, enter, refuse, told};
pub use ending::next_change;
pub use table::{SoundTable, Table};
pub use tests::{blank, fit, header_ok, pieces_ok, record_ok, state_ok, visit_ok};
