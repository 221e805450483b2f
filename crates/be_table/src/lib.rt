//! The shared table: one lock, one journal, reader slots, and pages made of words.
//!
//! # What passes share
//! Passes are the users of a store, one per thread. They share a table of atomic words: LOCK,
//! CURRENT, one reader slot per pass, and the words of all pages. LOCK, CURRENT and every reader
//! slot each have their own cache line. In addition to the words there is one slot. While no pass
//! holds the lock, the slot holds the writer state: the journal, the version page, and the place of
//! each page (free, in use or retired).
//!
//! # How a write goes
//! A pass takes the lock with one compare-exchange, and with it the writer state. It takes free
//! pages, fills them, gives up pages of the current version, and publishes everything with one
//! store to CURRENT. Then it puts the writer state back and releases the lock. Pages are never
//! changed in place, so readers can continue during a write.
//!
//! # How a reader pins a version
//! It loads CURRENT, publishes the number found there in its reader slot, and loads CURRENT again.
//! It has then pinned the version that the second load found, in three steps and without waiting. A
//! page that a write gives up is retired with the number of the last version that contains it. It
//! becomes free once a scan of the reader slots finds no number at or below that one. So the pages
//! of a pinned version are never filled. In the code, publishing a number is called announcing it.
//!
//! # What a version says
//! A table begins with the empty volume, or with one that its caller has put into pages. That is
//! version 0. The pages of version n have the words that they had when it was published. With these
//! words they encode the volume after the first n entries of the journal. They are exactly those
//! that be_paged_reading reaches from the version page (`specs/Versions.antt`). `publish` requires
//! both. So a pinned pass reads that volume, and a write starts from the volume of the whole
//! journal.
//!
//! # What is proved
//! One rule holds between any two steps (`specs/Rule.antt`). It has four parts:
//! - The words and the slot show a state of be_core's machine and the journal.
//! - The journal is legal, each version encodes its volume, and the machine's invariant holds.
//! - Each pass's knowledge is true.
//! - The trace, a list of the machine's moves, leads from the machine's first state to the state
//!   shown (`specs/Trace.antt`).
//!
//! Each step preserves the rule. A pass's history is the trace up to its own last move, so a call's
//! contract can name the events that its steps make.
#![tactic(auto)]

mod counting;
mod deal;
pub mod laws;
mod limits;
mod marks;
mod pass;
mod pinned;
mod rooms;
mod rule;
mod seat;
mod setting;
mod status;
mod table;
mod witness;
mod writer_state;
mod writing;

pub use counting::{encoded_counts, full_counts, held_counts};
pub use limits::Limits;
pub use pinned::PinnedLook;
pub use seat::Seat;
pub use setting::Setting;
pub use status::{Announcement, Status};
pub use table::VersionTable;
pub use witness::Witness;
pub use writing::Writing;
