//! Writes to a volume that is stored in pages.
//!
//! be_paged_reading defines what a version of a volume is, and which volume a page encodes
//! (`IsVersion`). Writes go through a `Room`, a page writer, so they work on both a pool in memory
//! and a shared table. The trees are copied on write, page by page; the version page is written
//! once, at the end. A write gives up exactly the pages that only the old version has, and takes
//! exactly those that only the new one has.
#![tactic(auto)]

mod changes;
mod counting;
mod edits;
mod encoding;
mod first;
pub mod laws;
mod writes;

pub use be_paged_reading::{
    Cell, HeldName, PagedSource, PagedWhole, Version, answer_decided, attrs, columns, get,
    get_into, indices, next, nodes, source, whole,
};
pub use counting::version_pages;
pub use encoding::one_encoding;
pub use first::first_page;
pub use writes::{apply, apply_into};
