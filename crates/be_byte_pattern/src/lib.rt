//! Matches patterns against the bytes of a string.
//!
//! be_pattern matches a string character by character. A pattern that is compared with many strings
//! is compiled first. If it has no `?` and no set, it consists of runs of literal bytes separated
//! by `*`. A string matches the pattern if and only if these runs follow one another in its bytes,
//! so no character needs to be decoded. A literal run can be found only at the start of a
//! character, because no byte that begins a character occurs inside another (`proofs/Bytes.antt`).
#![tactic(auto)]

mod byte_pattern;
mod reading;
mod runs;

pub use byte_pattern::BytePattern;
