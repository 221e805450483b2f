//! Tests of stores that begin with a volume.
//!
//! The tests are in a separate crate, so that be_store_building is proved only once.
#![tactic(auto)]

#[cfg(test)]
mod tests;
