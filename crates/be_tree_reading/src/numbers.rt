//! The numbers at the ends of keys.
//!
//! An index has a key for each of its entries, and the key's last eight bytes are the entry's node.
//! A reader that needs only these numbers for a range of keys gets them here: each key's words are
//! compared with the bound in place, and no key is unpacked. In each leaf after the first, the last
//! key is compared before the others: if it isn't above the bound, no key in the leaf is.
ghost use Rattle.std.specs.Prelude.{◌≡◌, ◌+◌, ◌<◌, ◌≤◌, ◌++◌, [], List, true, false, IsTrue, IfOk};
ghost use Rattle.std.specs.Prelude.{OnOk, length, drop};
ghost use Rattle.std.specs.List.{list_any};
ghost use Rattle.std.specs.Option.{option_copied};
ghost use Rattle.be_pages.specs.Pages.{IsUnchanged, is_readable};
ghost use Rattle.be_tree_reading.specs.Cursor.{IsCursor, remaining};
ghost use Rattle.be_tree_reading.specs.Page.{IsItem, item_at, item_place, items_of};
ghost use Rattle.be_tree_reading.specs.Pair.{Pair};
ghost use Rattle.be_tree_reading.specs.Places.{AreFrom, IsNext, number_at_place};
ghost use Rattle.be_tree_reading.specs.Range.{AreLong, HasFirst, is_past, number_of, numbers_to};
ghost use Rattle.be_tree_reading.specs.Range.{pairs_from};
ghost use Rattle.be_tree_reading.specs.Tree.{IsTree, IsTreeAt, pairs};
ghost use Rattle.be_tree_reading.specs.Words.{IsFirst, IsFirstOf};

use crate::cursor::Cursor;
use crate::lookup::{branch_for, end_of, is_above, search};
use crate::page::{HEADER_WORDS, ITEM_WORDS, LENGTH_BITS, child_at, first_word, number_beyond};
use crate::walk::key_at;
use be_pages::Look;
use std::alloc::AllocError;

/// A branch, given by its place on a page: the one after a leaf, which has the lowest key after
/// that leaf. Place 0 means that no key comes after the leaf.
#[derive(Clone, Copy)]
struct NextBranch {
    page: u64,
    place: usize,
}

/// The leaf in which the keys at or after some key begin, the place of the first of them, and the
/// branch after the leaf. The place may be the end of the leaf's items.
#[derive(Clone, Copy)]
struct FirstLeaf {
    page: u64,
    at: usize,
    next: NextBranch,
}

/// Adds the numbers in the last eight bytes of the keys from `low` to `high`, both included, in the
/// keys' order; without `high`, up to the last key. It costs one descent, or two if more than one
/// leaf has such keys, and reads a few words per key.
pub fn numbers_within<L: Look>(
    look: &mut L,
    root: u64,
    low: &[u8],
    high: Option<&[u8]>,
    found: &mut Vec<u64>,
) -> Result<(), AllocError>
    requires tree { IsTree (L.page_state look.old) (L.words look.old) root }
    requires long { AreLong (pairs (L.words look.old) root) }
    ensures first { HasFirst found.old.items
        (numbers_to (pairs_from (pairs (L.words look.old) root) low.now false)
        (option_copied high.entry)) found.new.items }
    ensures found { OnOk result (found.new.items
        ≡ found.old.items ++ numbers_to (pairs_from (pairs (L.words look.old) root) low.now false)
        (option_copied high.entry)) }
    ensures unchanged { IsUnchanged L.kept L.page_state L.words look.old look.new }
{
    if root == 0 {
        return Ok(());
    }
    let leaf = first_leaf(look, root, low);
    let is_last = push_to(look, leaf.page, leaf.at, high, found)?;
    if is_last {
        return Ok(());
    }
    let is_end = ends_before(look, leaf.next, high);
    if is_end {
        return Ok(());
    }
    push_past(look, root, leaf, low, high, found)
}

/// Returns the leaf in which the keys at or after `low` begin.
#[inline(always)]
fn first_leaf<L: Look>(look: &mut L, root: u64, low: &[u8]) -> FirstLeaf
    requires tree { IsTree (L.page_state look.old) (L.words look.old) root }
    requires some { 0 < root }
    ensures leaf { IsTreeAt 0 1 (L.page_state look.old) (L.words look.old) result.page }
    ensures from { (rest : List Pair) ×
        (AreFrom (L.words look.old) result.page result.at
        (pairs_from (pairs (L.words look.old) root) low.now false) rest
        × IsNext (L.page_state look.old) (L.words look.old) result.next.page result.next.place
        rest) }
    ensures unchanged { IsUnchanged L.kept L.page_state L.words look.old look.new }
{
    let first = first_word(low);
    let mut page = root - 1;
    let mut level = look.word(page, 0);
    let mut next = NextBranch { page: 0, place: 0 };
    while level > 0 {
        let end = end_of(look, page);
        let at = branch_for(look, page, end, low, first);
        next = next_of(page, at + ITEM_WORDS, end, next);
        page = child_at(look, page, at);
        level -= 1;
    }
    let at = first_from(look, page, low, first);
    FirstLeaf { page, at, next }
}

/// Returns the branch at this place of a page, or, if the page's items end there, the branch found
/// on a level above.
#[inline(always)]
fn next_of(page: u64, place: usize, end: usize, above: NextBranch) -> NextBranch
    ensures here { place < end → result ≡ record { page = page; place = place } }
    ensures above { end ≤ place → result ≡ above }
{
    if place < end {
        NextBranch { page, place }
    } else {
        above
    }
}

/// Returns the place of the first of a leaf's keys that isn't lower than a key, or the end of the
/// leaf's items.
#[inline(always)]
fn first_from<L: Look>(look: &mut L, page: u64, low: &[u8], first: u64) -> usize
    requires leaf { IsTreeAt 0 1 (L.page_state look.old) (L.words look.old) page }
    requires first { IsFirst low.now first }
    ensures from { AreFrom (L.words look.old) page result
        (pairs_from (items_of (L.words look.old page)) low.now false) [] }
    ensures unchanged { IsUnchanged L.kept L.page_state L.words look.old look.new }
{
    match search(look, page, low, first) {
        Ok(at) => at,
        Err(at) => at,
    }
}

/// Returns `true` if all keys from a branch on are above the bound.
#[inline(always)]
fn ends_before<L: Look>(look: &mut L, next: NextBranch, high: Option<&[u8]>) -> bool
    requires next { (rest : List Pair)
        × IsNext (L.page_state look.old) (L.words look.old) next.page next.place rest }
    ensures none { result ≡ true → (rest : List Pair)
        → IsNext (L.page_state look.old) (L.words look.old) next.page next.place rest →
        numbers_to rest (option_copied high.entry) ≡ [] }
    ensures unchanged { IsUnchanged L.kept L.page_state L.words look.old look.new }
{
    if next.place == 0 {
        return true;
    }
    is_past_at(look, next.page, next.place, high, first_of(high))
}

/// Adds the numbers of the keys after the first leaf, up to the bound.
#[inline(never)]
fn push_past<L: Look>(
    look: &mut L,
    root: u64,
    leaf: FirstLeaf,
    low: &[u8],
    high: Option<&[u8]>,
    found: &mut Vec<u64>,
) -> Result<(), AllocError>
    requires tree { IsTree (L.page_state look.old) (L.words look.old) root }
    requires long { AreLong (pairs (L.words look.old) root) }
    requires leaf { IsTreeAt 0 1 (L.page_state look.old) (L.words look.old) leaf.page }
    requires from { (rest : List Pair)
        × AreFrom (L.words look.old) leaf.page leaf.at
        (pairs_from (pairs (L.words look.old) root) low.now false) rest }
    ensures first { (rest : List Pair)
        → AreFrom (L.words look.old) leaf.page leaf.at
        (pairs_from (pairs (L.words look.old) root) low.now false) rest →
        HasFirst found.old.items (numbers_to rest (option_copied high.entry)) found.new.items }
    ensures found { OnOk result ((rest : List Pair)
        → AreFrom (L.words look.old) leaf.page leaf.at
        (pairs_from (pairs (L.words look.old) root) low.now false) rest →
        found.new.items ≡ found.old.items ++ numbers_to rest (option_copied high.entry)) }
    ensures unchanged { IsUnchanged L.kept L.page_state L.words look.old look.new }
{
    let mut cursor = Cursor::new();
    seek_past(look, root, leaf, low, &mut cursor);
    push_rest(look, &mut cursor, high, found)
}

/// Moves a cursor past the first leaf: to just after its last key, or, if the leaf has none of the
/// keys, to just before the first of them.
fn seek_past<L: Look>(look: &mut L, root: u64, leaf: FirstLeaf, low: &[u8], cursor: &mut Cursor)
    requires tree { IsTree (L.page_state look.old) (L.words look.old) root }
    requires leaf { IsTreeAt 0 1 (L.page_state look.old) (L.words look.old) leaf.page }
    requires from { (rest : List Pair)
        × AreFrom (L.words look.old) leaf.page leaf.at
        (pairs_from (pairs (L.words look.old) root) low.now false) rest }
    ensures cursor { IsCursor (L.page_state look.old) (L.words look.old) cursor.new }
    ensures remaining { (rest : List Pair)
        → AreFrom (L.words look.old) leaf.page leaf.at
        (pairs_from (pairs (L.words look.old) root) low.now false) rest →
        remaining (L.words look.old) cursor.new ≡ rest }
    ensures unchanged { IsUnchanged L.kept L.page_state L.words look.old look.new }
{
    let end = end_of(look, leaf.page);
    if leaf.at < end {
        let last = key_at(look, leaf.page, end - ITEM_WORDS);
        cursor.seek(look, root, last.as_slice(), true);
    } else {
        cursor.seek(look, root, low, false);
    }
}

/// Adds the numbers of the keys that a cursor has ahead, up to the bound, leaf by leaf.
fn push_rest<L: Look>(
    look: &mut L,
    cursor: &mut Cursor,
    high: Option<&[u8]>,
    found: &mut Vec<u64>,
) -> Result<(), AllocError>
    requires cursor { IsCursor (L.page_state look.old) (L.words look.old) cursor.old }
    requires long { AreLong (remaining (L.words look.old) cursor.old) }
    ensures first { HasFirst found.old.items
        (numbers_to (remaining (L.words look.old) cursor.old) (option_copied high.entry))
        found.new.items }
    ensures found { OnOk result (found.new.items
        ≡ found.old.items ++ numbers_to (remaining (L.words look.old) cursor.old)
        (option_copied high.entry)) }
    ensures unchanged { IsUnchanged L.kept L.page_state L.words look.old look.new }
{
    'leaves: while let Some((page, from)) = cursor.step_leaf(look) {
        let is_last = push_leaf(look, page, from, high, found)?;
        if is_last {
            return Ok(());
        }
    }
    Ok(())
}

/// Adds the numbers of a leaf's keys up to the bound, starting with the item that has this number.
/// Returns `true` if a key is above the bound. If the last key isn't above it, no other key is
/// compared.
fn push_leaf<L: Look>(
    look: &mut L,
    page: u64,
    from: usize,
    high: Option<&[u8]>,
    found: &mut Vec<u64>,
) -> Result<bool, AllocError>
    requires leaf { IsTreeAt 0 1 (L.page_state look.old) (L.words look.old) page }
    requires left { from < L.words look.old page 1 }
    requires long { AreLong (drop from (items_of (L.words look.old page))) }
    ensures first { HasFirst found.old.items
        (numbers_to (drop from (items_of (L.words look.old page))) (option_copied high.entry))
        found.new.items }
    ensures found { OnOk result (found.new.items
        ≡ found.old.items ++ numbers_to (drop from (items_of (L.words look.old page)))
        (option_copied high.entry)) }
    ensures past { IfOk result (λ past. past
        ≡ list_any (λ x. is_past (option_copied high.entry) x.key)
        (drop from (items_of (L.words look.old page)))) }
    ensures unchanged { IsUnchanged L.kept L.page_state L.words look.old look.new }
{
    let count = look.word(page, 1) as usize;
    let last = HEADER_WORDS + ITEM_WORDS * (count - 1);
    let place = HEADER_WORDS + ITEM_WORDS * from;
    if is_past_at(look, page, last, high, first_of(high)) {
        push_to(look, page, place, high, found)
    } else {
        push_to(look, page, place, None, found)
    }
}

/// Adds the numbers of a leaf's keys up to the bound, starting with the item at this place. Returns
/// `true` if a key is above the bound.
#[inline(always)]
fn push_to<L: Look>(
    look: &mut L,
    page: u64,
    from: usize,
    high: Option<&[u8]>,
    found: &mut Vec<u64>,
) -> Result<bool, AllocError>
    requires leaf { IsTreeAt 0 1 (L.page_state look.old) (L.words look.old) page }
    requires place { from ≡ item_place (number_at_place from) }
    requires in_range { number_at_place from ≤ L.words look.old page 1 }
    requires long { AreLong (drop (number_at_place from) (items_of (L.words look.old page))) }
    ensures first { HasFirst found.old.items
        (numbers_to (drop (number_at_place from) (items_of (L.words look.old page)))
        (option_copied high.entry)) found.new.items }
    ensures found { OnOk result (found.new.items
        ≡ found.old.items ++ numbers_to (drop (number_at_place from)
        (items_of (L.words look.old page))) (option_copied high.entry)) }
    ensures past { IfOk result (λ past. past
        ≡ list_any (λ x. is_past (option_copied high.entry) x.key)
        (drop (number_at_place from) (items_of (L.words look.old page)))) }
    ensures unchanged { IsUnchanged L.kept L.page_state L.words look.old look.new }
{
    let first = first_of(high);
    let end = end_of(look, page);
    let mut at = from;
    while at < end {
        if is_past_at(look, page, at, high, first) {
            return Ok(true);
        }
        let number = number_at(look, page, at);
        found.push(number)?;
        at += ITEM_WORDS;
    }
    Ok(false)
}

/// Returns the first word of the bound, or 0 if there is none.
pub fn first_of(high: Option<&[u8]>) -> u64
    ensures { IsFirstOf (option_copied high.entry) result }
{
    match high {
        Some(high) => first_word(high),
        None => 0,
    }
}

/// Returns `true` if the key of the item at this place is above the bound, whose first word is
/// `first`.
#[inline(always)]
pub fn is_past_at<L: Look>(
    look: &mut L,
    page: u64,
    at: usize,
    high: Option<&[u8]>,
    first: u64,
) -> bool
    requires readable { IsTrue (is_readable (L.page_state look.old page)) }
    requires in_page { at + 42 ≤ 512 }
    requires item { IsItem (L.words look.old page) at }
    requires first { IsFirstOf (option_copied high) first }
    ensures past { result ≡ is_past (option_copied high.entry)
        (item_at (L.words look.old page) at).key }
    ensures unchanged { IsUnchanged L.kept L.page_state L.words look.old look.new }
{
    match high {
        Some(high) => is_above(look, page, at, high, first),
        None => false,
    }
}

/// Returns the number in the last eight bytes of the key of the item at this place.
#[inline(always)]
pub fn number_at<L: Look>(look: &mut L, page: u64, at: usize) -> u64
    requires readable { IsTrue (is_readable (L.page_state look.old page)) }
    requires in_page { at + 42 ≤ 512 }
    requires item { IsItem (L.words look.old page) at }
    requires long { 8 ≤ length (item_at (L.words look.old page) at).key }
    ensures number { result ≡ number_of (item_at (L.words look.old page) at).key }
    ensures unchanged { IsUnchanged L.kept L.page_state L.words look.old look.new }
{
    let key_len = (look.word(page, at) >> LENGTH_BITS) as usize;
    number_beyond(look, page, at + key_len / 8, key_len % 8)
}
