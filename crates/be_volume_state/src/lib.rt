//! The operations that rebuild a volume from the empty one.
//!
//! A long-running process can drop its history. It reads the operations that create the present
//! volume, applies them to a new store, and continues with a short journal.
#![tactic(auto)]

mod laws;
mod lists;
mod pieces;
mod plain;
mod whole;

pub use laws::{fewest, made_again, numbered};
pub use lists::{Place, next_list};
pub use plain::{WholeVolume, whole_volume};
pub use whole::Whole;
