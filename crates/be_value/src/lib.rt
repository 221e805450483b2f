//! Names, values, their numbers and keys, and every crate's error type.
//!
//! # What an attribute has
//! It has a name of 1 to 63 bytes and a value of one of seven kinds. These are texts, MIME types,
//! raw bytes, and signed and unsigned integers of 32 or 64 bits. Each text, MIME type or raw value
//! has at most 255 bytes. Names and values hold their bytes in place, so no call allocates memory.
//!
//! # How an index finds a value
//! It uses a key: the value's bytes followed by the node in eight bytes. Keys of one kind are in
//! the order of their values and, for equal values, of their nodes. So a tree of byte keys is an
//! index of any kind, and a range of values is a range of keys. MIME types and raw bytes have no
//! key, so no index has these kinds.
//!
//! # Why there is one error type
//! A write passes through most crates, and any of them may refuse it. An error keeps its number and
//! its name on the way up. So a script's reply and a program's error are exactly those of the crate
//! that refused.
//!
//! # What is proved
//! A name or value can be created from exactly the bytes within the limits (`specs/Name.antt`).
//! `key_order` is the law about the order of keys, `keys_differ` says that each key belongs to one
//! pair, and `read_key` reads that pair back (`specs/Key.antt`). `number_of` returns the number
//! that a text encodes (`specs/Number.antt`).
#![tactic(auto)]

mod keys;
mod names;
mod numbers;
mod refusals;
mod values;

pub use keys::{counted32, counted64, key_of, key_order, keys_differ, node_of, read_key};
pub use names::Name;
pub use numbers::{number_of, word_of};
pub use refusals::Refusal;
pub use values::{Bytes, Kind, Text, Value, valid};
