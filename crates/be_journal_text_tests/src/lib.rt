//! Worked examples of reading journals back, tested through public calls.
//!
//! The tests are in a separate crate, so that checking them doesn't prove be_journal_text a second
//! time.
#![tactic(auto)]

#[cfg(test)]
mod tests;
