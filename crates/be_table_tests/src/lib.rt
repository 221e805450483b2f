//! Worked examples of the table, by public calls.
//!
//! They have a crate of their own, so that be_table isn't proved a second time with them.
#![tactic(auto)]

#[cfg(test)]
mod tests;
