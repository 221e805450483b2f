//! Tests of the public calls of the crates from be_value to be_journal. They cover values as
//! callers see them, printed text, sizes at their limits, the number of words read, and calls
//! repeated after a refused request for memory.
//!
//! The tests are here, and not in the crates that they test, because a crate would be proved a
//! second time along with its own tests.
#![tactic(auto)]

#[cfg(test)]
mod tests;
