//! Finds what the text of a query compares, and escapes strings for use in a query.
//!
//! `comparisons` reads the text with be_query's parser and returns the comparisons of its tree,
//! with their places in the text. `escaped` turns any string into a name or a value, and `any_case`
//! turns it into a pattern that matches the string in both upper and lower case. The libraries for
//! all languages call these functions, so that a query is read the same way everywhere.
#![tactic(auto)]

mod cases;
mod compared;
mod encoding;
mod escaping;
mod places;
mod ranges;

pub use cases::any_case;
pub use compared::{Compared, Form, comparisons};
pub use encoding::{EncodedComparison, Encoding, encoded_comparisons};
pub use escaping::escaped;
pub use places::{Place, TextPlace};
pub use ranges::is_never_true;
