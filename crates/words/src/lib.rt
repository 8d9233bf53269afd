// Reading and writing the lent words: the only code that knows where a word stands.
#![tactic(auto)]

pub mod read;
pub mod seek;
pub mod write;

pub use read::{
    change, link_at, link_word, over, records, register, register_at, root, slot_at, son, zero,
};
pub use seek::free_slot;
pub use write::{put_change, put_link, put_records, put_register, put_slot};
