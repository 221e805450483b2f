//! Builds a store that begins with a volume, which the caller gives in order.
//!
//! First come the indices in ascending order of their names, then the nodes in ascending order of
//! their numbers, each followed by its attributes in ascending order of their names. The store then
//! begins with this volume: no entry of its journal describes it.
#![tactic(auto)]

mod builder;
mod first_pages;

pub use builder::StoreBuilder;
