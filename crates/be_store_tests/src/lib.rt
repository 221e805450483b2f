//! Worked examples of the store, by its public calls.
//!
//! They are in a crate of their own, so that proving be_store doesn't prove them too.
#![tactic(auto)]

#[cfg(test)]
mod tests;
