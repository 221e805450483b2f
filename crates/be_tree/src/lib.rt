//! Copy-on-write B+trees over pages of words.
//!
//! # Who owns the pages
//! be_tree_reading defines what a tree is, and be_pages what a page is for a reader (`Look`) and
//! for a write (`Room`). A tree reads words through `Look`, and takes, fills and gives up pages
//! through `Room`. So trees work the same way in a test's vector and in the shared table, and
//! nothing here knows about versions or other threads.
//!
//! # How a tree changes
//! `insert` and `remove` descend to a leaf, write it and the pages above it, and return the root of
//! a new tree. The new tree shares all other pages with the old one. A page that existed when the
//! write began isn't changed: its node is written to a newly taken page, and the old page is given
//! up. A page that the write has already taken is overwritten in place, so a second change nearby
//! usually takes no page. `clear` gives up each page of a tree.
//!
//! A `TreeBuilder` makes a tree anew, with full pages, from pairs in ascending order.
//!
//! # What is proved
//! On the list that be_tree_reading decodes from the words, `insert` puts a pair, `remove` removes
//! one, and `clear` leaves the empty list. The old tree's pages that the new tree doesn't share are
//! given up. Those that only the new tree has were taken, and no other page has changed. `laws`
//! says what follows for other trees in the same pages.
#![tactic(auto)]

mod building;
mod clearing;
mod counting;
mod edit;
mod inserting;
mod item;
mod laws;
mod path;
mod removal;
mod rising;
mod settling;
mod siblings;
mod slot;
mod splicing;
mod storing;
mod taking;
mod writing;

pub use be_tree_reading::{
    Cursor, HEADER_WORDS, ITEM_WORDS, LENGTH_BITS, TreeItem, fill_payload, find, find_into,
    find_place, first_of, has_key, is_key_at, is_past_at, key_at, number_at, numbers_within,
    payload_byte_at, payload_len_at, payload_number_at, payload_number32_at, range, word_from,
};
pub use building::TreeBuilder;
pub use clearing::clear;
pub use counting::{few_in_hand, forest_pages, swaps_take, takes_add, tree_level, tree_pages};
pub use edit::insert;
pub use laws::{tree_beside, tree_kept, tree_replaced, tree_undone};
pub use removal::remove;
