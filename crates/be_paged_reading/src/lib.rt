//! Reads a volume that is stored in pages.
//!
//! # Versions
//!
//! A version of a volume is a single page. It contains the next node number, the root of the
//! catalog tree, and for each index its name, its kind and the root of its tree. The catalog has a
//! pair for each node and a pair for each attribute; an index has a pair for each node in it. All
//! calls read through `Look`, so they work both on a pool in memory and on a shared table.
//!
//! # What a page encodes
//!
//! The relation `IsVersion` says that a page encodes a volume: the pairs in its trees are exactly
//! the nodes, attributes and index keys of the volume. A reader can't compute that volume, so
//! contracts are stated for every volume that the page encodes. Versions are written by be_paged.
#![tactic(auto)]

mod asked;
mod attributes;
mod catalog;
mod cells;
mod comparing;
mod entries;
mod entry;
mod facts;
mod indexed;
mod marks;
mod on_page;
mod paged_source;
mod paged_whole;
mod picking;
mod prepared;
mod reading;
mod rows;
mod texts;
mod version;

pub use asked::{Asked, known_of};
pub use attributes::first_attribute;
pub use catalog::{catalog_key, payload_of};
pub use cells::{Cell, HeldName};
pub use entries::{index_at, search, set_root};
pub use entry::Entry;
pub use facts::PageFacts;
pub use paged_source::{PagedSource, source};
pub use paged_whole::{PagedWhole, whole};
pub use prepared::answer_decided;
pub use reading::{attrs, get, indices, next, nodes, value_in};
pub use rows::{columns, get_into};
pub use version::{Version, fill_version, store_version};
