//! Patterns with wildcards, matched against the characters of a string.
//!
//! A pattern is a list of tokens. `*` matches any run of characters, and `?` matches any single
//! character. A set matches one character that is in the set or, if the set is negated, one that
//! isn't. Any other token matches its own character. `Pattern::parse` reads the tokens from text,
//! and `matches` compares them with a string in a single pass. It can backtrack to only one place:
//! the end of the run that the last `*` has matched so far.
#![tactic(auto)]

pub mod laws;
pub mod matching;
mod parsing;
mod pattern;
mod printing;
mod token;

pub use pattern::Pattern;
pub use printing::push_marked;
pub use token::Token;
