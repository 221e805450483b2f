//! The ways of an answer: which ranges of index keys a query really walks.
//!
//! `explain` prints the picks that the specification prescribes. An answer walks other ranges if
//! they have fewer keys, and it may read a second index to test what the first walk leaves. `ways`
//! answers the query through a source that records each walk, and then reports each range with two
//! numbers: how many keys the source estimates that it has, and how many it has. A person who sees
//! them knows why a query is slow.
//!
//! The answer is be_plan's own, so the walks are those that the answer makes. The contract says
//! that each number of keys is right. That no walk is left out is tested, not proved.
#![tactic(auto)]

mod asking;
mod bounds;
mod recorded;
mod text;
mod walked;
mod way;

pub use asking::ways;
pub use text::ways_text;
pub use way::Way;
