//! Tools that the tests of several crates share.
//!
//! They include worked examples as text, the loop over their lines, the text of replies, what an
//! index has, pages that count accesses, a writer that fails, a list with spare capacity, and a
//! second try of a call.
//!
//! As a library, it is proved only once. A test checks results and needs no contract, so most
//! functions here have none.
#![tactic(auto)]

mod again;
mod counted;
mod examples;
mod indices;
mod lines;
mod long_lists;
mod replies;
mod stores;
mod writers;

pub use be_value::Refusal;
pub use counted::Counted;
pub use examples::{COVERAGE, EQUAL_VALUES, EXAMPLES, LISTS, TEXTS, TWO_INDICES};
pub use indices::indexed_value;
pub use lines::{Answers, beyond, check_lines};
pub use long_lists::longest_list;
pub use replies::{answer_lines, done_lines, list_of, reply_lines};
pub use stores::{OUTSIDE_LIMITS, both_of, has_hundred_by_each, is_legal, numbered, pair_of};
pub use writers::{Narrow, list_with_room, may_write};
