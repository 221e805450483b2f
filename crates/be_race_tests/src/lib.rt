//! Races of scripts, tested through public calls.
//!
//! The tests are in a separate crate, so that checking them doesn't prove be_script_runner a second
//! time.
#![tactic(auto)]

#[cfg(test)]
mod tests;
