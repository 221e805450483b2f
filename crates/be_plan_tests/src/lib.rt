//! The tests of be_plan: its public calls on worked examples.
//!
//! They have a crate of their own, so that be_plan is proved only once.
#![tactic(auto)]

#[cfg(test)]
mod tests;
