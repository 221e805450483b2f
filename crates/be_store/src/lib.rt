//! The shared store: writes, pins and queries from many threads.
//!
//! # What callers hold
//! Threads share a `Store` by `&`, and each thread has its own `Pass`, which is a session. A pass
//! records what it has seen of the journal, its own accepted writes, and its pin. Each call takes
//! the store and the caller's pass. No call waits for another pass, and the contracts hold whatever
//! other passes do in the meantime.
//!
//! # What is proved
//! Whatever calls run on whatever threads, the journal is the history of a single thread
//! (`specs/History.antt`). Each accepted write returns what a sequential volume would return at
//! that point in the journal. The journal contains each pass's writes exactly once, in the order in
//! which the pass made them. A pin names a prefix of the journal that includes everything its pass
//! had seen. A query at the pin returns what the volume after that prefix would return. When the
//! volume refuses a write, the volume that refuses it is the one after everything that the pass has
//! seen when the call returns. The laws in `laws` say what follows about what a pass has seen,
//! about a store's only pass, and about how large a pool must be.
//!
//! # What a program depends on
//! A program depends only on this crate, which re-exports what programs need from the crates below:
//! names, values, operations, queries and their covers, the journal, and the list of a write's
//! outcomes.
//!
//! # How it uses the crates below
//! The volume is stored in pages. be_paged_reading reads it through any page reader, and be_paged
//! writes it through any page writer. In be_table, a pinned pass is a page reader and an open write
//! is a page writer. Nothing in this crate looks at a page or a word.
#![tactic(auto)]

mod answers;
mod asking;
mod changed;
mod columns;
mod conditional;
mod entries;
pub mod laws;
mod live;
pub mod machine_laws;
mod marks;
mod named;
mod ordered;
mod pinned;
mod states;
mod store;
mod tries;
mod ways;
mod writing;

pub use answers::{Answer, Updates};
pub use arrayvec::ArrayVec;
pub use be_journal::{Entry, Items, Journal};
pub use be_order::Order;
pub use be_paged::{Cell, HeldName};
pub use be_plan::{Cover, Picks, PreparedQuery, explain};
pub use be_query::{Item, Query, from_rpn, parse};
pub use be_table::{Announcement, Limits, Seat as Pass, Status, Witness};
pub use be_value::{Bytes, Kind, Name, Refusal, Text, Value};
pub use be_volume::{Done, Op};
pub use be_volume_state::Place;
pub use be_ways::{Way, ways_text};
pub use conditional::ApplyIfError;
pub use live::Live;
pub use pinned::Pinned;
pub use store::Store;
