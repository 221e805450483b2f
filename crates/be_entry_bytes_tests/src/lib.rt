//! Worked examples of entries as bytes, tested through public calls.
//!
//! The tests are in a separate crate, so that checking them doesn't prove be_entry_bytes a second
//! time.
#![tactic(auto)]

#[cfg(test)]
mod tests;
