//! Tests of kept files.
#![tactic(auto)]

#[cfg(test)]
mod tests;
