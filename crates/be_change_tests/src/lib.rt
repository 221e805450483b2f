//! Changes, by their public calls.
//!
//! They have a crate of their own, so that be_change isn't proved a second time with them.
#![tactic(auto)]

#[cfg(test)]
mod tests;
