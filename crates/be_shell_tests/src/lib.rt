//! Conversations with a shell, tested through public calls.
//!
//! The tests are in a separate crate, so that checking them doesn't prove be_shell a second time.
#![tactic(auto)]

#[cfg(test)]
mod tests;
