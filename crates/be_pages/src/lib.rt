//! Pages of 512 words: the traits of their readers and writers, and a page writer in memory.
//!
//! # Looks and rooms
//! A `Look` is a page reader: it reads words of pages. A `Room` is a page writer: a `Look` for one
//! write, which takes free pages, fills them and gives pages up. Trees use only these two traits.
//! So the same tree works on a pool in memory, and on a shared table whose readers run alongside
//! the writer.
//!
//! # What a write may do
//! It may fill any page that it has taken, any number of times. `Room::is_taken` returns whether it
//! has taken a page. It never fills a page that was in use when the write began. It gives such a
//! page up, and the page keeps its words until the write is kept. So the state before a write
//! survives until the write ends, and undoing the write changes no words.
//!
//! # Who tracks the pages
//! To a tree, a page has one of five states (`PageState`): free, old, given up, taken, or filled. A
//! pool distinguishes one more: a page that an earlier write gave up is retired while a reader may
//! still read it. `PagePool` keeps a `Place` for each page, and a call's cost depends only on what
//! it changes. `VecRoom` and the shared table are built on it.
//!
//! # What is proved
//! For each type that implements the traits: what each call of a `Look` or a `Room` does to the
//! words and states of pages (`specs/Pages.antt`). For a pool: equations that say how the places of
//! its pages change (`specs/Place.antt`).
#![tactic(auto)]

mod free_pages;
mod page_lists;
mod page_pool;
mod page_set;
mod room;
mod vec_room;

pub use page_pool::{PagePool, Place};
pub use room::{Look, PAGE_WORDS, PageState, Room};
pub use vec_room::VecRoom;
