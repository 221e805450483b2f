//! The test that a walk over an index applies to each key.
use crate::{Marks, TextTest};

/// A test of a key: whether a comparison is true of the string in the key, or whether the key's
/// node is marked.
#[derive(Clone, Copy)]
pub enum KeyTest<'t, 'q> {
    Text(&'t TextTest<'q>),
    Marked(&'t Marks),
}
