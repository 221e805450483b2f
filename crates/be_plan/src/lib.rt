//! Plans: which comparisons a query is answered from, and how index walks produce the answer.
//!
//! On a large volume, a query can't afford to test every node. Instead, a few of its comparisons
//! are picked. For each pick, the index of its name is walked over the range of keys that can
//! matter, and each node found there is tested against the whole query. The picks cover the query
//! if these walks can't miss an answer: an `&&` needs one covered side, an `||` needs both. The
//! answer doesn't depend on the plan: any picks that cover the query yield the same ascending list
//! of all nodes that match it.
//!
//! `choose_from` chooses the picks from a source, and `choose` from a list of indices. `run` walks
//! the indices, `explain` prints what was picked, and `answer` chooses and walks in one call;
//! `answer_into` does the same for a list that the caller provides. Walks read a `Source`: a plain
//! volume or a page reader.
#![tactic(auto)]

mod asking;
mod bounding;
mod choosing;
mod coverage;
mod evaluating;
mod explaining;
mod fewest;
mod keytests;
mod listing;
mod names;
mod narrowing;
mod plain;
mod plans;
mod prepared;
mod ranges;
mod running;
mod sifting;
mod sorting;
mod source;
mod spine;
mod texts;
mod walks;

pub use asking::{answer, answer_into, true_nodes_into};
pub use bounding::KeyBounds;
pub use choosing::choose_from;
pub use coverage::covers;
pub use evaluating::{is_covered, is_true};
pub use explaining::explain;
pub use keytests::KeyTest;
pub use listing::choose;
pub use plain::{VolumeSource, volume_source};
pub use plans::{Cover, Picks};
pub use prepared::PreparedQuery;
pub use running::run;
pub use sorting::{Marks, put_in_order};
pub use source::{KeyRange, Source};
pub use texts::{TextTest, text_of};
pub use walks::asked_of_texts;
