//! Reads B+trees that are stored in pages of words.
//!
//! # What a tree is
//! A tree is a sorted list of pairs. A pair is a key of up to 264 bytes and a payload. A tree is
//! identified by its root: 0 for the empty tree, otherwise its root's page number + 1. A leaf holds
//! pairs. An inner page holds branches, each with the lowest key below it and a page's number. A
//! page has up to 12 items, and each page except the root has at least 6.
//!
//! # What is proved
//! Reading decodes the list from the words (`specs/Tree.antt`). On that list, `find_into` is
//! look-up, `range` finds the next pair, and `Cursor` is a walk (`specs/Key.antt`,
//! `specs/Range.antt`, `specs/Cursor.antt`). `Walk` and `numbers_in_order` traverse a range of it
//! in either direction (`specs/Way.antt`, `specs/Walk.antt`). be_tree changes trees.
#![tactic(auto)]

mod about;
mod back;
mod cursor;
mod lookup;
mod numbers;
mod ordered;
mod page;
mod payload;
mod walk;
mod way;

pub use about::about_within;
pub use back::BackCursor;
pub use cursor::Cursor;
pub use lookup::{branch_in, find, find_into, find_place, has_key, is_key_at, item_number, search};
pub use numbers::{first_of, is_past_at, number_at, numbers_within};
pub use ordered::{first_of_end, is_within, numbers_in_order};
pub use page::{
    HEADER_WORDS, ITEM_WORDS, LENGTH_BITS, MINIMUM_ITEMS, MOST_ITEMS, child_at, extend, fill_bytes,
    first_word, number_beyond, straddled, word_from,
};
pub use payload::{
    fill_payload, payload_byte_at, payload_len_at, payload_number_at, payload_number32_at,
};
pub use walk::{TreeItem, key_at, range};
pub use way::{Leaf, Walk, Way};
