//! Writes a journal's entry as bytes, and reads it back.
//!
//! The encoding is compact. A small number takes one byte, a name or string takes its own bytes and
//! a number that gives their count, and an outcome takes bytes only if it is a node. `set 1 "size"
//! LONG 5`, written by pass 0, takes eleven bytes.
//!
//! # What is proved The bytes that are appended are `entry_bytes`, which depends only on the entry
//! (`specs/Encoding.antt`). An entry that was written is read back unchanged, whatever follows it
//! (`entry_is_read`). An entry takes at most 18 bytes plus 356 per operation (`entry_is_short`), so
//! a writer can reserve memory beforehand.
#![tactic(auto)]

mod laws;
mod ranges;
mod reading;
mod writing;

pub use laws::{entry_is_read, entry_is_short};
pub use ranges::outcomes_can_be;
pub use reading::{read_entry, read_head, read_step, read_steps, skip_entry};
pub use writing::{most_bytes, write_entry};
