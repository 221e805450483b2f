//! A kept file: an SQLite database with a store's state, and the transactions since that state.
//!
//! It is written through SQLite's trees, without SQL text.
#![tactic(auto)]

mod checksum;
mod entry;
mod opening;
mod reading;
mod tables;
mod writing;

pub use checksum::entry_sum;
pub use entry::Entry;
pub use opening::{Unused, append_and_crash, open};
pub use reading::{ReadError, read_entries};
pub use tables::unopened;
pub use writing::append;
