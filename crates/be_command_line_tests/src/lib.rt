//! Command lines and the tasks that they request, tested through the public call.
//!
//! The tests are in a separate crate, so that checking them doesn't prove be_command_line a second
//! time.
#![tactic(auto)]

#[cfg(test)]
mod tests;
