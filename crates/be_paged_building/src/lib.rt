//! Builds a version of a volume that is given in order, in as few pages as possible.
//!
//! First come the indices in ascending order of their names, then the nodes in ascending order of
//! their numbers, each followed by its attributes in ascending order of their names. An attribute
//! is held if the index of its name has it; an index needn't have each attribute of its name.
//!
//! The catalog is built as the nodes come. The keys of each index are collected, and put in order
//! at the end.
#![tactic(auto)]

mod building;
mod given;
mod keys;

pub use building::VolumeBuilder;
