//! A store with far more pages than `Store::open` allows, tested through the store's public calls.
//!
//! The tests are in a separate crate, so that checking them doesn't prove be_store a second time.
#![tactic(auto)]

#[cfg(test)]
mod tests;
