//! Tests the keys of an index in a walk that goes forward or backward.
//!
//! The walk proceeds leaf by leaf. Each key is compared with the end of the way and tested on its
//! page, until enough keys have passed or the way ends.
ghost use Rattle.std.specs.Prelude.{◌≡◌, ◌+◌, ◌≤◌, ◌++◌, ℕ, List, [], IfNone, IfOk, IfSome};
ghost use Rattle.std.specs.Prelude.{IsTrue, OnOk, false, length, take, true};
ghost use Rattle.be_paged_reading.specs.Imports.{ahead, end_of_way, is_on_way, is_readable};
ghost use Rattle.be_paged_reading.specs.Imports.{item_at, items_ahead, pairs, walk_of, IsFirstOf};
ghost use Rattle.be_paged_reading.specs.Imports.{IsItem, IsLeaf, IsTree, IsUnchanged, IsWalk, Pair};
ghost use Rattle.be_paged_reading.specs.Imports.{StaysFalse};
ghost use Rattle.be_paged_reading.specs.KeyTests.{AreTestable, IsTestable, node_if, nodes_passing};
ghost use Rattle.be_paged_reading.specs.KeyTests.{passing_on};

use crate::texts::{ROOM, test_item};
use be_pages::Look;
use be_plan::KeyTest;
use be_tree_reading::{Leaf, Walk, Way, first_of_end, is_within, number_at};
use std::alloc::AllocError;

/// Adds the node of the key at this offset of a page if the key passes the test.
#[inline(always)]
fn pick_item<L: Look>(
    look: &mut L,
    page: u64,
    at: usize,
    test: KeyTest<'_, '_>,
    room: &mut [u8],
    found: &mut Vec<u64>,
) -> Result<(), AllocError>
    requires readable { IsTrue (is_readable (L.page_state look.old page)) }
    requires in_page { at + 42 ≤ 512 }
    requires item { IsItem (L.words look.old page) at }
    requires testable { IsTestable test (item_at (L.words look.old page) at).key }
    requires fits { length room.old ≡ 256 }
    ensures added { OnOk result (found.new.items ≡ found.old.items
        ++ node_if test.entry (item_at (L.words look.old page) at)) }
    ensures unchanged { IsUnchanged L.kept L.page_state L.words look.old look.new }
{
    match test {
        KeyTest::Text(test) => test_item(look, page, at, test, room, found),
        KeyTest::Marked(marks) => {
            let number = number_at(look, page, at);
            if marks.has(number) {
                found.push(number)?;
            }
            Ok(())
        }
    }
}

/// Returns `true` if no key can be past the end of the way.
fn is_endless(way: Way<'_>) -> bool
    ensures { result ≡ true → (key : List ℕ) → is_on_way way.entry key ≡ true }
{
    if way.back {
        return way.low.is_empty();
    }
    match way.high {
        Some(_) => false,
        None => true,
    }
}

/// Returns the first word of the key at which a way ends, or `None` if no key can be past the end
/// of the way.
fn end_word(way: Way<'_>) -> Option<u64>
    ensures first { IfSome result (λ first. IsFirstOf (end_of_way way.entry) first) }
    ensures endless { IfNone result ((key : List ℕ) → is_on_way way.entry key ≡ true) }
{
    if is_endless(way) {
        return None;
    }
    Some(first_of_end(way))
}

/// Returns `true` if the key of the item at this offset isn't past the end of the way. `end` is the
/// first word of that end. If the way has no end, the key isn't compared.
#[inline(always)]
fn is_ahead<L: Look>(look: &mut L, page: u64, at: usize, way: Way<'_>, end: Option<u64>) -> bool
    requires readable { IsTrue (is_readable (L.page_state look.old page)) }
    requires in_page { at + 42 ≤ 512 }
    requires item { IsItem (L.words look.old page) at }
    requires first { IfSome end (λ first. IsFirstOf (end_of_way way) first) }
    requires endless { IfNone end ((key : List ℕ) → is_on_way way key ≡ true) }
    ensures within { result ≡ is_on_way way.entry (item_at (L.words look.old page) at).key }
    ensures unchanged { IsUnchanged L.kept L.page_state L.words look.old look.new }
{
    match end {
        Some(first) => is_within(look, page, at, way, first),
        None => true,
    }
}

/// Tests the keys of a leaf that are ahead of the walk, in the order of the walk, and adds the
/// nodes of those that pass until the list contains `most`. Returns `true` if the walk ends in this
/// leaf because the list is full or a key is past the end of the way.
fn pick_ahead<L: Look>(
    look: &mut L,
    leaf: Leaf,
    way: Way<'_>,
    test: KeyTest<'_, '_>,
    room: &mut [u8],
    most: usize,
    found: &mut Vec<u64>,
) -> Result<bool, AllocError>
    requires leaf { IsLeaf (L.page_state look.old) (L.words look.old) leaf }
    requires back { leaf.back ≡ way.back }
    requires testable { AreTestable test (items_ahead (L.words look.old) leaf) }
    requires fits { length room.old ≡ 256 }
    requires few { length found.old.items ≤ most }
    ensures few { IfOk result (λ _. length found.new.items ≤ most) }
    ensures ended { IfOk result (λ ended. ended ≡ true → (rest : List Pair)
        → StaysFalse (is_on_way way.entry) (items_ahead (L.words look.old) leaf ++ rest)
        → found.new.items ≡ take most (found.old.items ++ passing_on test.entry
        way.entry (items_ahead (L.words look.old) leaf ++ rest))) }
    ensures goes_on { IfOk result (λ ended. ended ≡ false → found.new.items
        ≡ found.old.items ++ passing_on test.entry way.entry
        (items_ahead (L.words look.old) leaf)) }
    ensures unchanged { IsUnchanged L.kept L.page_state L.words look.old look.new }
{
    let end = end_word(way);
    let ahead = leaf.count(look);
    for i in 0..ahead {
        if found.len() >= most {
            return Ok(true);
        }
        let at = leaf.place(i);
        if !is_ahead(look, leaf.page, at, way, end) {
            return Ok(true);
        }
        pick_item(look, leaf.page, at, test, room, found)?;
    }
    Ok(false)
}

/// Tests the keys ahead of the walk, up to the end of the way. Fills an empty list with the nodes
/// of the first `most` keys that pass.
fn pick_all<L: Look>(
    look: &mut L,
    walk: &mut Walk,
    way: Way<'_>,
    test: KeyTest<'_, '_>,
    most: usize,
    found: &mut Vec<u64>,
) -> Result<(), AllocError>
    requires walk { IsWalk (L.page_state look.old) (L.words look.old) walk.old }
    requires back { walk.old.back ≡ way.back }
    requires testable { AreTestable test (ahead (L.words look.old) walk.old) }
    requires ends { StaysFalse (is_on_way way) (ahead (L.words look.old) walk.old) }
    requires empty { found.old.items ≡ [] }
    ensures found { OnOk result (found.new.items ≡ take most (passing_on test.entry
        way.entry (ahead (L.words look.old) walk.old))) }
    ensures unchanged { IsUnchanged L.kept L.page_state L.words look.old look.new }
{
    let mut room = [0u8; ROOM];
    'leaves: while let Some(leaf) = walk.step_leaf(look) {
        let is_last = pick_ahead(look, leaf, way, test, &mut room, most, found)?;
        if is_last {
            return Ok(());
        }
    }
    Ok(())
}

/// Walks along a way over an index and tests its keys. Replaces the content of the list with the
/// nodes of the first `most` keys that pass, in the order of the walk. It costs one descent. For
/// each key that the walk visits, it reads what the test needs.
pub(crate) fn passing_in_order<L: Look>(
    look: &mut L,
    root: u64,
    way: Way<'_>,
    test: KeyTest<'_, '_>,
    most: usize,
    found: &mut Vec<u64>,
) -> Result<(), AllocError>
    requires tree { IsTree (L.page_state look.old) (L.words look.old) root }
    requires testable { AreTestable test (pairs (L.words look.old) root) }
    ensures found { OnOk result (found.new.items ≡ take most (nodes_passing test.entry
        (walk_of way.entry (pairs (L.words look.old) root)))) }
    ensures unchanged { IsUnchanged L.kept L.page_state L.words look.old look.new }
{
    found.clear();
    let mut walk = Walk::begin(look, root, way);
    pick_all(look, &mut walk, way, test, most, found)
}
