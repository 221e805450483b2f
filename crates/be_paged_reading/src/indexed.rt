//! Tests whether the tree of an index contains a value from the catalog.
//!
//! A node's attribute is in an index if and only if the tree of the index contains the key of the
//! attribute. For signed 64-bit numbers, such as sizes and times, the key is built directly from
//! the words of the number. All other values are decoded first.
ghost use Rattle.std.specs.Prelude.{◌≡◌, ◌≤◌, ◌++◌, is_some, length};
ghost use Rattle.be_paged_reading.specs.Imports.{pairs, payload_at, to_be_bytes, w64, IsReadableAt};
ghost use Rattle.be_paged_reading.specs.Imports.{IsTree, IsUnchanged};
ghost use Rattle.be_paged_reading.specs.Source.{DecidesPair};

use crate::catalog::{kind_at, number64_at, value_at};
use arrayvec::ArrayVec;
use be_pages::Look;
use be_tree_reading::has_key;
use be_value::{Kind, counted64, key_of};

/// Returns `true` if the tree of an index contains the key that consists of the bytes of a number
/// and a node.
fn has_number<L: Look>(look: &mut L, index: u64, number: &[u8], node: u64) -> bool
    requires tree { IsTree (L.page_state look.old) (L.words look.old) index }
    requires short { length number.now ≤ 8 }
    ensures has { result ≡ is_some (payload_at (pairs (L.words look.old) index)
        (number.now ++ to_be_bytes w64 node)) }
    ensures unchanged { IsUnchanged L.kept L.page_state L.words look.old look.new }
{
    let mut key: ArrayVec<u8, 16> = ArrayVec::new();
    key.try_extend_from_slice(number).unwrap();
    key.try_extend_from_slice(&node.to_be_bytes()).unwrap();
    has_key(look, index, &key)
}

/// Returns `true` if the tree of an index contains the key for a node and the value that the item
/// at this offset encodes. The value is decoded. This is a separate function because it needs stack
/// space for the value and its key.
#[inline(never)]
fn any_is_indexed_at<L: Look>(look: &mut L, index: u64, page: u64, at: usize, node: u64) -> bool
    requires tree { IsTree (L.page_state look.old) (L.words look.old) index }
    requires item { IsReadableAt (L.page_state look.old) (L.words look.old) page at }
    ensures has { DecidesPair (L.words look.old) index node page at result }
    ensures unchanged { IsUnchanged L.kept L.page_state L.words look.old look.new }
{
    match value_at(look, page, at) {
        Some(value) => {
            value.kind().indexable() && has_key(look, index, key_of(&value, node).as_slice())
        }
        None => false,
    }
}

/// Returns `true` if the tree of an index contains the key for a node and the value that the item
/// at this offset encodes.
pub(crate) fn is_indexed_at<L: Look>(
    look: &mut L,
    index: u64,
    page: u64,
    at: usize,
    node: u64,
) -> bool
    requires tree { IsTree (L.page_state look.old) (L.words look.old) index }
    requires item { IsReadableAt (L.page_state look.old) (L.words look.old) page at }
    ensures has { DecidesPair (L.words look.old) index node page at result }
    ensures unchanged { IsUnchanged L.kept L.page_state L.words look.old look.new }
{
    let Some(kind) = kind_at(look, page, at) else {
        return false;
    };
    match kind {
        Kind::Llng => match number64_at(look, page, at) {
            Some(n) => has_number(look, index, &counted64(n.cast_signed()).to_be_bytes(), node),
            None => false,
        },
        _ => any_is_indexed_at(look, index, page, at, node),
    }
}
