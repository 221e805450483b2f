//! Journals as text: reading a journal back, checking it, and writing scripts that rebuild it or
//! its volume.
//!
//! [`read_journal`] is the exact inverse of printing a journal: it reads the text of any journal as
//! that journal's entries, and accepts no other text. [`check`] replays a journal's text on an
//! empty volume. [`dump`] writes the script that makes the same writes again, and [`dump_state`]
//! writes the script that rebuilds the same volume. From the bottom up, the modules handle the
//! parts of a line, operations and outcomes, journals, the output of a race, the check, and the
//! scripts.
#![tactic(auto)]

mod checks;
mod dumps;
mod journals;
pub mod laws;
mod lists;
mod outputs;
mod parts;
mod ranges;
mod state_dumps;

pub use checks::{Finding, check};
pub use dumps::dump;
pub use journals::read_journal;
pub use outputs::reported_journal;
pub use state_dumps::{dump_state, push_write, volume_text};
