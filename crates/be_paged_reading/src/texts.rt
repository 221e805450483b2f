//! Tests the strings in an index leaf by leaf.
//!
//! The string of each key is copied to a buffer, where it replaces the previous one, and tested
//! there. The words of the key are compared with the bound in place. No key is unpacked, and the
//! node is read only if the string passes.
ghost use Rattle.std.specs.Prelude.{◌≡◌, ◌+◌, ◌-◌, ◌*◌, ◌<◌, ◌≤◌, ◌++◌, IsTrue, IfErr, IfOk, OnOk};
ghost use Rattle.std.specs.Prelude.{false, length, take, drop};
ghost use Rattle.be_paged_reading.specs.Imports.{bytes_at, is_past, is_readable, item_at, items_of};
ghost use Rattle.be_paged_reading.specs.Imports.{list_any, option_copied, pairs, pairs_from};
ghost use Rattle.be_paged_reading.specs.Imports.{remaining, text_in, to_be_bytes, w64, words_for};
ghost use Rattle.be_paged_reading.specs.Imports.{HasFirst, IsCursor, IsItem, IsTree, IsTreeAt};
ghost use Rattle.be_paged_reading.specs.Imports.{IsUnchanged};
ghost use Rattle.be_paged_reading.specs.Texts.{AreTexts, IsTextKey, node_if_passing};
ghost use Rattle.be_paged_reading.specs.Texts.{nodes_passing_to};

use be_pages::Look;
use be_plan::TextTest;
use be_tree_reading::{
    Cursor, HEADER_WORDS, ITEM_WORDS, LENGTH_BITS, first_of, is_past_at, number_at,
};
use std::alloc::AllocError;

/// The size of a buffer for the longest string, which has 255 bytes, rounded up to whole words.
pub(crate) const ROOM: usize = 256;

/// Returns the length of the string in the key at this offset of a page.
#[inline(always)]
fn text_len_at<L: Look>(look: &mut L, page: u64, at: usize) -> usize
    requires readable { IsTrue (is_readable (L.page_state look.old page)) }
    requires in_page { at + 42 ≤ 512 }
    requires item { IsItem (L.words look.old page) at }
    ensures len { result ≡ length (item_at (L.words look.old page) at).key - 9 }
    ensures short { result ≤ 255 }
    ensures unchanged { IsUnchanged L.kept L.page_state L.words look.old look.new }
{
    let key_len = (look.word(page, at) >> LENGTH_BITS) as usize;
    key_len.saturating_sub(9)
}

/// Writes the eight bytes of a word at position `at`.
#[inline(always)]
fn put_word(room: &mut [u8], at: usize, word: u64)
    requires { at + 8 ≤ length room.old }
    ensures { take (at + 8) room.new ≡ take at room.old ++ to_be_bytes w64 word }
{
    room[at..at + 8].copy_from_slice(&word.to_be_bytes());
}

/// Copies the first `n` bytes of the words at this offset of a page to the beginning of `room`.
#[inline(always)]
fn put_bytes<L: Look>(look: &mut L, page: u64, at: usize, n: usize, room: &mut [u8])
    requires readable { IsTrue (is_readable (L.page_state look.old page)) }
    requires in_page { at + words_for n ≤ 512 }
    requires fits { 8 * words_for n ≤ length room.old }
    ensures bytes { take n room.new ≡ bytes_at (L.words look.old page) at n }
    ensures unchanged { IsUnchanged L.kept L.page_state L.words look.old look.new }
{
    for i in 0..(n + 7) / 8 {
        let word = look.word(page, at + i);
        put_word(room, 8 * i, word);
    }
}

/// Copies the string in the key at this offset of a page to the beginning of `room`, and returns
/// its length.
#[inline(always)]
fn put_text<L: Look>(look: &mut L, page: u64, at: usize, room: &mut [u8]) -> usize
    requires readable { IsTrue (is_readable (L.page_state look.old page)) }
    requires in_page { at + 42 ≤ 512 }
    requires item { IsItem (L.words look.old page) at }
    requires fits { length room.old ≡ 256 }
    ensures text { take result room.new ≡ text_in (item_at (L.words look.old page) at).key }
    ensures short { result ≤ 255 }
    ensures unchanged { IsUnchanged L.kept L.page_state L.words look.old look.new }
{
    let length = text_len_at(look, page, at);
    put_bytes(look, page, at + 1, length, room);
    length
}

/// Returns the first `n` bytes.
#[inline(always)]
fn front(room: &[u8], n: usize) -> &[u8]
    requires { n ≤ length room.now }
    ensures { result.now ≡ take n room.now }
{
    &room[..n]
}

/// Adds the node of the key at this offset of a page if its string passes the test. After an error
/// the list is unchanged.
#[inline(always)]
pub(crate) fn test_item<L: Look>(
    look: &mut L,
    page: u64,
    at: usize,
    test: &TextTest<'_>,
    room: &mut [u8],
    found: &mut Vec<u64>,
) -> Result<(), AllocError>
    requires readable { IsTrue (is_readable (L.page_state look.old page)) }
    requires in_page { at + 42 ≤ 512 }
    requires item { IsItem (L.words look.old page) at }
    requires is_text { IsTextKey (item_at (L.words look.old page) at).key }
    requires fits { length room.old ≡ 256 }
    ensures added { OnOk result (found.new.items ≡ found.old.items
        ++ node_if_passing test.now.0 test.now.1 (item_at (L.words look.old page) at)) }
    ensures kept { IfErr result (λ _. found.new.items ≡ found.old.items) }
    ensures unchanged { IsUnchanged L.kept L.page_state L.words look.old look.new }
{
    let length = put_text(look, page, at, room);
    let passes = test.passes(front(room, length));
    if passes {
        let number = number_at(look, page, at);
        found.push(number)?;
    }
    Ok(())
}

/// Tests the keys of a leaf, starting with an item, up to the bound, and adds the nodes of those
/// whose strings pass. Returns `true` if a key is above the bound. `leaf` is the page and the
/// number of the item.
fn test_leaf<L: Look>(
    look: &mut L,
    leaf: (u64, usize),
    high: Option<&[u8]>,
    test: &TextTest<'_>,
    room: &mut [u8],
    found: &mut Vec<u64>,
) -> Result<bool, AllocError>
    requires leaf { IsTreeAt 0 1 (L.page_state look.old) (L.words look.old) leaf.0 }
    requires left { leaf.1 < L.words look.old leaf.0 1 }
    requires texts { AreTexts (drop leaf.1 (items_of (L.words look.old leaf.0))) }
    requires fits { length room.old ≡ 256 }
    ensures first { HasFirst found.old.items (nodes_passing_to test.now.0 test.now.1
        (drop leaf.1 (items_of (L.words look.old leaf.0))) (option_copied high.entry))
        found.new.items }
    ensures found { OnOk result (found.new.items ≡ found.old.items
        ++ nodes_passing_to test.now.0 test.now.1
        (drop leaf.1 (items_of (L.words look.old leaf.0))) (option_copied high.entry)) }
    ensures past { IfOk result (λ past. past
        ≡ list_any (λ x. is_past (option_copied high.entry) x.key)
        (drop leaf.1 (items_of (L.words look.old leaf.0)))) }
    ensures unchanged { IsUnchanged L.kept L.page_state L.words look.old look.new }
{
    let (page, from) = leaf;
    let first = first_of(high);
    let count = look.word(page, 1) as usize;
    for i in from..count {
        let at = HEADER_WORDS + ITEM_WORDS * i;
        let is_past = is_past_at(look, page, at, high, first);
        if is_past {
            return Ok(true);
        }
        test_item(look, page, at, test, room, found)?;
    }
    Ok(false)
}

/// Tests the keys ahead of the cursor, leaf by leaf, up to the bound, and adds the nodes of those
/// whose strings pass.
fn test_rest<L: Look>(
    look: &mut L,
    cursor: &mut Cursor,
    high: Option<&[u8]>,
    test: &TextTest<'_>,
    found: &mut Vec<u64>,
) -> Result<(), AllocError>
    requires cursor { IsCursor (L.page_state look.old) (L.words look.old) cursor.old }
    requires texts { AreTexts (remaining (L.words look.old) cursor.old) }
    ensures first { HasFirst found.old.items (nodes_passing_to test.now.0 test.now.1
        (remaining (L.words look.old) cursor.old) (option_copied high.entry)) found.new.items }
    ensures found { OnOk result (found.new.items ≡ found.old.items
        ++ nodes_passing_to test.now.0 test.now.1
        (remaining (L.words look.old) cursor.old) (option_copied high.entry)) }
    ensures unchanged { IsUnchanged L.kept L.page_state L.words look.old look.new }
{
    let mut room = [0u8; ROOM];
    'leaves: while let Some((page, from)) = cursor.step_leaf(look) {
        let is_last = test_leaf(look, (page, from), high, test, &mut room, found)?;
        if is_last {
            return Ok(());
        }
    }
    Ok(())
}

/// Tests the keys from `low` to `high`, both inclusive, or to the last key, and adds the nodes of
/// those whose strings pass, in the order of the keys. It costs one descent, and reads the words of
/// each string.
pub(crate) fn nodes_passing<L: Look>(
    look: &mut L,
    root: u64,
    low: &[u8],
    high: Option<&[u8]>,
    test: &TextTest<'_>,
    found: &mut Vec<u64>,
) -> Result<(), AllocError>
    requires tree { IsTree (L.page_state look.old) (L.words look.old) root }
    requires texts { AreTexts (pairs (L.words look.old) root) }
    ensures first { HasFirst found.old.items (nodes_passing_to test.now.0 test.now.1
        (pairs_from (pairs (L.words look.old) root) low.now false) (option_copied high.entry))
        found.new.items }
    ensures found { OnOk result (found.new.items ≡ found.old.items
        ++ nodes_passing_to test.now.0 test.now.1
        (pairs_from (pairs (L.words look.old) root) low.now false) (option_copied high.entry)) }
    ensures unchanged { IsUnchanged L.kept L.page_state L.words look.old look.new }
{
    let mut cursor = Cursor::new();
    cursor.seek(look, root, low, false);
    test_rest(look, &mut cursor, high, test, found)
}
