//! The journal records which writes were accepted, by which pass, and with which outcomes.
//!
//! A journal is a store's history, written as if by one thread. Replaying it on the volume with
//! which the store began, mostly the empty one, produces the store's content. It is legal if each
//! outcome in it is the one that the volume gives at that point. A store that begins with the
//! content of another carries on its history: the two journals are one legal journal.
#![tactic(auto)]

mod block_readers;
mod blocks;
mod entries;
mod journals;
mod laws;
mod readers;
mod texts;
mod views;

pub use entries::{Entry, Items};
pub use journals::{Journal, first_wrong, replay};
pub use laws::{
    by_pass_append, legal_append, legal_front, legal_last, legal_push, replay_append, replay_push,
    replay_sound,
};
pub use texts::{done_text, entry_line, op_text, quoted, value_text};
pub use views::{EntryView, Steps};
