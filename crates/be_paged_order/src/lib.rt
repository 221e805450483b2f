//! Query results in index order, read from pages.
//!
//! The source in be_paged_reading reads a version from pages and walks an index in either
//! direction. The source in this crate offers the same calls, plus those of be_order. To find a
//! page in order, it walks over a range of keys, starting after a cursor.
#![tactic(auto)]

mod pages;
mod ways;

pub use pages::{OrderedPages, ordered_source};
