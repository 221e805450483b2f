//! Tests of the ranges that an answer walks.
//!
//! The tests are in a separate crate, so that be_ways is proved only once.
#![tactic(auto)]

#[cfg(test)]
mod tests;
