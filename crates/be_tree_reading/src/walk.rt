//! Finds a tree's lowest pair at or after a key.
//!
//! A tree is a sorted list of pairs, so the pairs at or after a key are a tail of the list. The
//! tail's first pair is the lowest. One descent finds where the tail begins: on each inner page it
//! takes the last branch whose key isn't above the given key. The search ends in the leaf.
ghost use Rattle.std.specs.Prelude.{◌≡◌, [], ◌+◌, ◌≤◌, IsTrue, option_map};
ghost use Rattle.be_pages.specs.Pages.{IsUnchanged, is_readable};
ghost use Rattle.be_tree_reading.specs.Page.{IsItem, item_at};
ghost use Rattle.be_tree_reading.specs.Range.{first_from, pair_in};
ghost use Rattle.be_tree_reading.specs.Tree.{IsTree, pairs};

use crate::cursor::Cursor;
use crate::page::{LENGTH_BITS, fill_bytes};
use arrayvec::ArrayVec;
use be_pages::Look;

/// A pair of a tree, read from its page.
#[derive(Drop)]
pub struct TreeItem {
    /// Up to 264 bytes.
    pub key: ArrayVec<u8, 264>,
    /// Up to 328 bytes with the key.
    pub payload: ArrayVec<u8, 328>,
}

/// Returns the lowest pair whose key is at or after `from`; if `after` is set, strictly after it.
/// It costs one descent, plus another to the next leaf if the first leaf has no such pair.
pub fn range<L: Look>(look: &mut L, root: u64, from: &[u8], after: bool) -> Option<TreeItem>
    requires tree { IsTree (L.page_state look.old) (L.words look.old) root }
    ensures item { option_map pair_in result
        ≡ first_from (pairs (L.words look.old) root) from.now after }
    ensures unchanged { IsUnchanged L.kept L.page_state L.words look.old look.new }
{
    let mut cursor = Cursor::new();
    cursor.seek(look, root, from, after);
    cursor.next(look)
}

/// Returns the key of the item at this place of a page, as returned by `Cursor::step`.
pub fn key_at<L: Look>(look: &mut L, page: u64, at: usize) -> ArrayVec<u8, 264>
    requires readable { IsTrue (is_readable (L.page_state look.old page)) }
    requires in_page { at + 42 ≤ 512 }
    requires item { IsItem (L.words look.old page) at }
    ensures key { result.items ≡ (item_at (L.words look.old page) at).key }
    ensures unchanged { IsUnchanged L.kept L.page_state L.words look.old look.new }
{
    let mut key = ArrayVec::new();
    fill_key(look, page, at, &mut key);
    key
}

/// Writes the key at this place of a page into an empty vector.
pub(crate) fn fill_key<L: Look>(look: &mut L, page: u64, at: usize, key: &mut ArrayVec<u8, 264>)
    requires readable { IsTrue (is_readable (L.page_state look.old page)) }
    requires in_page { at + 42 ≤ 512 }
    requires item { IsItem (L.words look.old page) at }
    requires empty { key.old.items ≡ [] }
    ensures key { key.new.items ≡ (item_at (L.words look.old page) at).key }
    ensures unchanged { IsUnchanged L.kept L.page_state L.words look.old look.new }
{
    let key_len = (look.word(page, at) >> LENGTH_BITS) as usize;
    fill_bytes(look, page, at + 1, 0, key_len, key);
}
