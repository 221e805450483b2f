//! Tests of be_volume: its public calls, on worked examples.
//!
//! The tests are in a separate crate, so that be_volume is proved only once.
#![tactic(auto)]

#[cfg(test)]
mod tests;
