//! Scripts and their replies, by public calls.
//!
//! They are in a crate of their own, so that be_script_runner isn't proved a second time with them.
#![tactic(auto)]

#[cfg(test)]
mod tests;
