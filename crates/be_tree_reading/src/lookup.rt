//! Looks up keys.
//!
//! On each level the items of one page are compared in place, one after another. The comparison
//! stops at the first item with a higher key, or, in a leaf, at the item that has the key. A page
//! has at most 12 items, and a processor reads ahead through them, whereas each step of a binary
//! search waits for the one before.
//!
//! Usually the first word after an item's lengths decides the comparison. If it is lower than the
//! key's first word, the item's key is lower, however short that is: the bytes that follow a short
//! key can only make its word higher. If it is higher, the item's key may be short, so its length
//! is read too.
ghost use Rattle.std.specs.Prelude.{◌≡◌, [], ◌+◌, ◌-◌, ◌<◌, ◌≤◌, true, false, length, option_map};
ghost use Rattle.std.specs.Prelude.{is_some, IfNone, IfSome, IfOk, IfErr, None, Some};
ghost use Rattle.std.specs.Prelude.{◌/◌, IsTrue};
ghost use Rattle.std.specs.Ordering.{is_eq, is_gt};
ghost use Rattle.be_pages.specs.Pages.{IsUnchanged, is_readable};
ghost use Rattle.be_tree_reading.specs.Page.{IsItem, IsPage, item_at, item_place, items_of};
ghost use Rattle.be_tree_reading.specs.Key.{IsRank, key_cmp, payload_at};
ghost use Rattle.be_tree_reading.specs.Places.{IsBranchAt, IsFoundAt, IsGapAt};
ghost use Rattle.be_tree_reading.specs.Words.{IsFirst};
ghost use Rattle.be_tree_reading.specs.Tree.{IsTree, pairs};

use crate::page::{HEADER_WORDS, ITEM_WORDS, LENGTH_BITS, child_at, cmp_at, cmp_from, first_word};
use crate::payload::fill_payload;
use arrayvec::ArrayVec;
use be_pages::Look;
use std::cmp::Ordering;

/// Writes a key's payload into an empty vector, and returns whether the tree has the key; if it
/// doesn't, the vector remains empty. The vector is filled in place, because passing one by value
/// costs its whole capacity at each move. It costs one descent.
pub fn find_into<L: Look>(
    look: &mut L,
    root: u64,
    key: &[u8],
    payload: &mut ArrayVec<u8, 328>,
) -> bool
    requires tree { IsTree (L.page_state look.old) (L.words look.old) root }
    requires empty { payload.old.items ≡ [] }
    ensures found { result ≡ true → payload_at (pairs (L.words look.old) root) key.now
        ≡ Some payload.new.items }
    ensures absent { result ≡ false → payload_at (pairs (L.words look.old) root) key.now ≡ None }
    ensures empty { result ≡ false → payload.new.items ≡ [] }
    ensures unchanged { IsUnchanged L.kept L.page_state L.words look.old look.new }
{
    let Some((page, at)) = find_place(look, root, key) else {
        return false;
    };
    fill_payload(look, page, at, payload);
    true
}

/// Does the same as `find_into`, but returns the payload.
pub fn find<L: Look>(look: &mut L, root: u64, key: &[u8]) -> Option<ArrayVec<u8, 328>>
    requires tree { IsTree (L.page_state look.old) (L.words look.old) root }
    ensures payload { option_map (λ payload. payload.items) result
        ≡ payload_at (pairs (L.words look.old) root) key.now }
    ensures unchanged { IsUnchanged L.kept L.page_state L.words look.old look.new }
{
    let mut payload = ArrayVec::new();
    if !find_into(look, root, key, &mut payload) {
        return None;
    }
    Some(payload)
}

/// Returns `true` if the tree has a key. It costs one descent, and reads no payload.
pub fn has_key<L: Look>(look: &mut L, root: u64, key: &[u8]) -> bool
    requires tree { IsTree (L.page_state look.old) (L.words look.old) root }
    ensures found { result ≡ is_some (payload_at (pairs (L.words look.old) root) key.now) }
    ensures unchanged { IsUnchanged L.kept L.page_state L.words look.old look.new }
{
    find_place(look, root, key).is_some()
}

/// Returns the page and place of the item with this key, for callers that read its payload in place
/// (with `payload_number_at` and similar calls). It costs one descent.
pub fn find_place<L: Look>(look: &mut L, root: u64, key: &[u8]) -> Option<(u64, usize)>
    requires tree { IsTree (L.page_state look.old) (L.words look.old) root }
    ensures none { IfNone result (payload_at (pairs (L.words look.old) root) key.now ≡ None) }
    ensures some { IfSome result (λ at. payload_at (pairs (L.words look.old) root) key.now
        ≡ Some (item_at (L.words look.old at.0) at.1).payload) }
    ensures readable { IfSome result (λ at. IsTrue (is_readable (L.page_state look.old at.0))) }
    ensures in_page { IfSome result (λ at. at.1 + 42 ≤ 512) }
    ensures fits { IfSome result (λ at. IsItem (L.words look.old at.0) at.1) }
    ensures unchanged { IsUnchanged L.kept L.page_state L.words look.old look.new }
{
    if root == 0 {
        return None;
    }
    let first = first_word(key);
    let mut page = root - 1;
    let mut level = look.word(page, 0);
    while level > 0 {
        let at = branch_in(look, page, key, first);
        page = child_at(look, page, at);
        level -= 1;
    }
    match search(look, page, key, first) {
        Ok(at) => Some((page, at)),
        Err(_) => None,
    }
}

/// Returns `true` if the item at this place of a page, as returned by `Cursor::step`, has this key.
/// The keys are compared in place.
pub fn is_key_at<L: Look>(look: &mut L, page: u64, at: usize, key: &[u8]) -> bool
    requires readable { IsTrue (is_readable (L.page_state look.old page)) }
    requires in_page { at + 42 ≤ 512 }
    requires item { IsItem (L.words look.old page) at }
    ensures same { result ≡ is_eq (key_cmp (item_at (L.words look.old page) at).key key.now) }
    ensures unchanged { IsUnchanged L.kept L.page_state L.words look.old look.new }
{
    cmp_at(look, page, at, key).is_eq()
}

/// Returns how many of a page's items have keys that aren't higher than a key. For most items it
/// reads one word.
pub(crate) fn rank<L: Look>(look: &mut L, page: u64, key: &[u8]) -> usize
    requires readable { IsTrue (is_readable (L.page_state look.old page)) }
    requires page { IsPage (L.words look.old page) }
    ensures rank { IsRank key.now (items_of (L.words look.old page)) result }
    ensures unchanged { IsUnchanged L.kept L.page_state L.words look.old look.new }
{
    let first = first_word(key);
    let count = look.word(page, 1) as usize;
    for at in 0..count {
        if is_above(look, page, HEADER_WORDS + ITEM_WORDS * at, key, first) {
            return at;
        }
    }
    count
}

/// Returns the place where a page's items end.
#[inline(always)]
pub(crate) fn end_of<L: Look>(look: &mut L, page: u64) -> usize
    requires readable { IsTrue (is_readable (L.page_state look.old page)) }
    requires page { IsPage (L.words look.old page) }
    ensures end { result ≡ item_place (L.words look.old page 1) }
    ensures unchanged { IsUnchanged L.kept L.page_state L.words look.old look.new }
{
    HEADER_WORDS + ITEM_WORDS * look.word(page, 1) as usize
}

/// Returns the number of the item at this place of a page.
pub fn item_number(at: usize) -> usize
    requires { 2 ≤ at }
    ensures { result ≡ (at - 2) / 42 }
{
    (at - HEADER_WORDS) / ITEM_WORDS
}

/// Returns the place of the branch below which a key belongs, as `branch_for` finds it.
#[inline(always)]
pub fn branch_in<L: Look>(look: &mut L, page: u64, key: &[u8], first: u64) -> usize
    requires readable { IsTrue (is_readable (L.page_state look.old page)) }
    requires page { IsPage (L.words look.old page) }
    requires some { 0 < L.words look.old page 1 }
    requires first { IsFirst key.now first }
    ensures branch { IsBranchAt key.now (items_of (L.words look.old page)) result }
    ensures unchanged { IsUnchanged L.kept L.page_state L.words look.old look.new }
{
    let end = end_of(look, page);
    branch_for(look, page, end, key, first)
}

/// Returns the place of the branch below which a key belongs, on a page whose items end at `end`.
/// It is the last branch whose key isn't higher, or the first branch if there is none. So the first
/// branch's key is never read.
#[inline(always)]
pub(crate) fn branch_for<L: Look>(
    look: &mut L,
    page: u64,
    end: usize,
    key: &[u8],
    first: u64,
) -> usize
    requires readable { IsTrue (is_readable (L.page_state look.old page)) }
    requires page { IsPage (L.words look.old page) }
    requires some { 0 < L.words look.old page 1 }
    requires end { end ≡ item_place (L.words look.old page 1) }
    requires first { IsFirst key.now first }
    ensures branch { IsBranchAt key.now (items_of (L.words look.old page)) result }
    ensures unchanged { IsUnchanged L.kept L.page_state L.words look.old look.new }
{
    let mut at = HEADER_WORDS + ITEM_WORDS;
    while at < end {
        if is_above(look, page, at, key, first) {
            return at - ITEM_WORDS;
        }
        at += ITEM_WORDS;
    }
    at - ITEM_WORDS
}

/// Returns the place of the item that has a key, or, if there is none, the place after the items
/// with lower keys.
#[inline(always)]
pub fn search<L: Look>(look: &mut L, page: u64, key: &[u8], first: u64) -> Result<usize, usize>
    requires readable { IsTrue (is_readable (L.page_state look.old page)) }
    requires page { IsPage (L.words look.old page) }
    requires first { IsFirst key.now first }
    ensures found { IfOk result (IsFoundAt key.now (L.words look.old page)) }
    ensures absent { IfErr result (IsGapAt key.now (L.words look.old page)) }
    ensures unchanged { IsUnchanged L.kept L.page_state L.words look.old look.new }
{
    let end = end_of(look, page);
    let mut at = HEADER_WORDS;
    while at < end {
        let order = order_at(look, page, at, key, first);
        if order.is_eq() {
            return Ok(at);
        }
        if order.is_gt() {
            return Err(at);
        }
        at += ITEM_WORDS;
    }
    Err(at)
}

/// Returns `true` if the key of the item at this place is higher than a key whose first word is
/// `first`.
#[inline(always)]
pub(crate) fn is_above<L: Look>(look: &mut L, page: u64, at: usize, key: &[u8], first: u64) -> bool
    requires readable { IsTrue (is_readable (L.page_state look.old page)) }
    requires in_page { at + 42 ≤ 512 }
    requires item { IsItem (L.words look.old page) at }
    requires first { IsFirst key.now first }
    ensures above { result ≡ is_gt (key_cmp (item_at (L.words look.old page) at).key key.now) }
    ensures unchanged { IsUnchanged L.kept L.page_state L.words look.old look.new }
{
    order_at(look, page, at, key, first).is_gt()
}

/// Compares the key of the item at this place with a key whose first word is `first`. Usually the
/// first words decide. If they are equal, the second words are compared next. `cmp_at` compares
/// keys that are shorter than a word.
#[inline(always)]
pub fn order_at<L: Look>(look: &mut L, page: u64, at: usize, key: &[u8], first: u64) -> Ordering
    requires readable { IsTrue (is_readable (L.page_state look.old page)) }
    requires in_page { at + 42 ≤ 512 }
    requires item { IsItem (L.words look.old page) at }
    requires first { IsFirst key.now first }
    ensures order { result ≡ key_cmp (item_at (L.words look.old page) at).key key.now }
    ensures unchanged { IsUnchanged L.kept L.page_state L.words look.old look.new }
{
    let mine = look.word(page, at + 1);
    if mine < first {
        return Ordering::Less;
    }
    let len = (look.word(page, at) >> LENGTH_BITS) as usize;
    if mine > first && len >= 8 {
        return Ordering::Greater;
    }
    if mine == first && len >= 8 && key.len() >= 8 {
        return cmp_from(look, page, at, len, key, 1);
    }
    cmp_at(look, page, at, key)
}
