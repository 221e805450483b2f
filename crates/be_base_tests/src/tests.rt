//! One file for each tested crate, or for each part of a crate.

mod building;
mod byte_pattern;
mod counting_look;
mod journal;
mod lines;
mod machine;
mod pages;
mod pattern;
mod pool;
mod query;
mod stored_words;
mod tree;
mod value;
mod words;
