//! Tests of versions that are built in order: how many pages they take, and what may not come next.
#![tactic(auto)]

#[cfg(test)]
mod tests;
