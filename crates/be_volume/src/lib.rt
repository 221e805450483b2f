//! The plain volume: nodes with attributes, and indices that lead from values back to nodes.
//!
//! This is the sequential object with which everything else is compared: one thread, ordered maps,
//! and each call equal to its definition. A store in pages gives the same outcomes as this volume,
//! and a journal is legal if its outcomes are those that this volume gives.
#![tactic(auto)]

mod ahead;
mod contents;
mod each;
mod facts;
mod keys;
mod laws;
mod maps;
mod ops;
mod pairs;
mod queries;
mod volumes;

pub use ahead::{MAX_ATTRIBUTES, MAX_INDICES, first_refusal};
pub use facts::Facts;
pub use laws::{sound_steps, stays_within, step_items};
pub use ops::{Done, Op};
pub use queries::{holds, is_true_of, literal_number};
pub use volumes::Volume;
