//! The tokens of a query's text.

use crate::tree::Cmp;

/// A token. A name or value is kept as it appears in the text, without its quotes.
#[derive(Clone, Copy)]
pub(crate) enum Token<'a> {
    Open,
    Close,
    Bang,
    Both,
    Either,
    Compares(Cmp),
    Text(&'a str),
}
