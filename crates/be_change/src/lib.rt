//! Changes: a program reads a snapshot, collects operations, and writes them if no other write was
//! made in the meantime.
#![tactic(auto)]

mod changes;
mod ending;
mod errors;
mod kinds;
pub mod laws;
mod once;
mod overlay;

pub use changes::{Change, MOST_OPERATIONS};
pub use ending::{Ended, Kinds};
pub use errors::CollectError;
pub use kinds::{KindMismatch, check_kinds};
