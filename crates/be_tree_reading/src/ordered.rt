//! The numbers at the ends of keys, in the keys' order or in reverse, up to a limit.
//!
//! In each leaf that a walk reaches, the last key that may still be wanted is compared with the end
//! of the range. Usually it is within the range, and all these numbers are added without reading
//! the other keys.
ghost use Rattle.std.specs.Prelude.{◌≡◌, ℕ, List, [], ◌+◌, ◌-◌, ◌<◌, ◌≤◌, ◌++◌, length, take, true};
ghost use Rattle.std.specs.Prelude.{false, IfOk, IsTrue, OnOk, slice_index_or};
ghost use Rattle.be_pages.specs.Pages.{IsUnchanged, is_readable};
ghost use Rattle.be_tree_reading.specs.Page.{IsItem, item_at};
ghost use Rattle.be_tree_reading.specs.Pair.{Pair};
ghost use Rattle.be_tree_reading.specs.Range.{AreLong, HasFirst};
ghost use Rattle.be_tree_reading.specs.Tree.{IsTree, pairs};
ghost use Rattle.be_tree_reading.specs.Walk.{IsLeaf, IsWalk, StaysFalse, ahead, end_of_way};
ghost use Rattle.be_tree_reading.specs.Walk.{is_on_way, items_ahead, on_way};
ghost use Rattle.be_tree_reading.specs.Way.{IsLastOf, numbers_in, walk_of};
ghost use Rattle.be_tree_reading.specs.Words.{IsFirstOf};

use crate::lookup::order_at;
use crate::numbers::{first_of, is_past_at, number_at};
use crate::page::{first_word, smaller_of};
use crate::way::{Leaf, Walk, Way};
use be_pages::Look;
use std::alloc::AllocError;

/// How many of a leaf's items are taken, and how many are still wanted after that.
#[derive(Clone, Copy)]
struct Run {
    count: usize,
    want: usize,
}

/// Walks over a range of keys. In the walk's order, it adds the number in the last eight bytes of
/// each key, for at most `most` keys. Returns the page and place of the last key whose number was
/// added, if there is one. It costs one descent, one comparison per leaf, and a few words per
/// number.
pub fn numbers_in_order<L: Look>(
    look: &mut L,
    root: u64,
    way: Way<'_>,
    most: usize,
    found: &mut Vec<u64>,
) -> Result<Option<(u64, usize)>, AllocError>
    requires tree { IsTree (L.page_state look.old) (L.words look.old) root }
    requires long { AreLong (pairs (L.words look.old) root) }
    ensures first { HasFirst found.old.items
        (numbers_in (take most (walk_of way.entry (pairs (L.words look.old) root))))
        found.new.items }
    ensures found { OnOk result (found.new.items ≡ found.old.items
        ++ numbers_in (take most (walk_of way.entry (pairs (L.words look.old) root)))) }
    ensures last { IfOk result (λ last. IsLastOf (L.page_state look.old) (L.words look.old) last
        (take most (walk_of way.entry (pairs (L.words look.old) root)))) }
    ensures unchanged { IsUnchanged L.kept L.page_state L.words look.old look.new }
{
    let mut walk = Walk::begin(look, root, way);
    push_ahead(look, &mut walk, way, most, found)
}

/// Adds the numbers of the keys that a walk has ahead, up to the end of its range and for at most
/// `most` keys. Returns the place of the last key.
fn push_ahead<L: Look>(
    look: &mut L,
    walk: &mut Walk,
    way: Way<'_>,
    most: usize,
    found: &mut Vec<u64>,
) -> Result<Option<(u64, usize)>, AllocError>
    requires walk { IsWalk (L.page_state look.old) (L.words look.old) walk.old }
    requires back { walk.old.back ≡ way.back }
    requires long { AreLong (ahead (L.words look.old) walk.old) }
    requires ends { StaysFalse (is_on_way way) (ahead (L.words look.old) walk.old) }
    ensures first { HasFirst found.old.items
        (numbers_in (take most (on_way way.entry (ahead (L.words look.old) walk.old))))
        found.new.items }
    ensures found { OnOk result (found.new.items ≡ found.old.items
        ++ numbers_in (take most (on_way way.entry (ahead (L.words look.old) walk.old)))) }
    ensures last { IfOk result (λ last. IsLastOf (L.page_state look.old) (L.words look.old) last
        (take most (on_way way.entry (ahead (L.words look.old) walk.old)))) }
    ensures unchanged { IsUnchanged L.kept L.page_state L.words look.old look.new }
{
    let first = first_of_end(way);
    let mut last = None;
    let mut want = most;
    'leaves: while want > 0 {
        let Some(leaf) = walk.step_leaf(look) else {
            return Ok(last);
        };
        let run = run_in(look, leaf, way, first, want);
        if run.count == 0 {
            return Ok(last);
        }
        push_run(look, leaf, run.count, found)?;
        let at = leaf.place(run.count - 1);
        last = Some((leaf.page, at));
        want = run.want;
    }
    Ok(last)
}

/// Returns how many of the items that a walk has ahead in a leaf are within its range, at most
/// `want`. Also returns how many are still wanted after them: none if the range ends in this leaf.
fn run_in<L: Look>(look: &mut L, leaf: Leaf, way: Way<'_>, first: u64, want: usize) -> Run
    requires leaf { IsLeaf (L.page_state look.old) (L.words look.old) leaf }
    requires back { leaf.back ≡ way.back }
    requires first { IsFirstOf (end_of_way way) first }
    requires some { 0 < length (items_ahead (L.words look.old) leaf) }
    requires wanted { 0 < want }
    ensures in_range { result.count ≤ length (items_ahead (L.words look.old) leaf) }
    ensures less { result.want < want }
    ensures ended { result.count ≡ 0 → result.want ≡ 0 }
    ensures parts { (rest : List Pair)
        → StaysFalse (is_on_way way.entry) (items_ahead (L.words look.old) leaf ++ rest)
        → take want (on_way way.entry (items_ahead (L.words look.old) leaf ++ rest))
        ≡ take result.count (items_ahead (L.words look.old) leaf)
        ++ take result.want (on_way way.entry rest) }
    ensures unchanged { IsUnchanged L.kept L.page_state L.words look.old look.new }
{
    let ahead = leaf.count(look);
    let most = smaller_of(ahead, want);
    let count = count_within(look, leaf, way, first, most);
    if count < most {
        return Run { count, want: 0 };
    }
    Run {
        count,
        want: want - count,
    }
}

/// Returns how many of the first `most` items that a walk has ahead in a leaf are within its range.
/// If the last of them is within it, no other is compared.
fn count_within<L: Look>(look: &mut L, leaf: Leaf, way: Way<'_>, first: u64, most: usize) -> usize
    requires leaf { IsLeaf (L.page_state look.old) (L.words look.old) leaf }
    requires back { leaf.back ≡ way.back }
    requires first { IsFirstOf (end_of_way way) first }
    requires in_range { most ≤ length (items_ahead (L.words look.old) leaf) }
    ensures at_most { result ≤ most }
    ensures within { (d : Pair) → 0 < result → is_on_way way.entry
        (slice_index_or (items_ahead (L.words look.old) leaf) (result - 1) d).key ≡ true }
    ensures past { (d : Pair) → result < most → is_on_way way.entry
        (slice_index_or (items_ahead (L.words look.old) leaf) result d).key ≡ false }
    ensures unchanged { IsUnchanged L.kept L.page_state L.words look.old look.new }
{
    let mut count = most;
    while count > 0 {
        let at = leaf.place(count - 1);
        if is_within(look, leaf.page, at, way, first) {
            return count;
        }
        count -= 1;
    }
    0
}

/// Returns `true` if the key of the item at this place isn't past the end of a way, whose first
/// word is `first` (`first_of_end`).
#[inline(always)]
pub fn is_within<L: Look>(look: &mut L, page: u64, at: usize, way: Way<'_>, first: u64) -> bool
    requires readable { IsTrue (is_readable (L.page_state look.old page)) }
    requires in_page { at + 42 ≤ 512 }
    requires item { IsItem (L.words look.old page) at }
    requires first { IsFirstOf (end_of_way way) first }
    ensures within { result ≡ is_on_way way.entry (item_at (L.words look.old page) at).key }
    ensures unchanged { IsUnchanged L.kept L.page_state L.words look.old look.new }
{
    if way.back {
        order_at(look, page, at, way.low, first).is_ge()
    } else {
        !is_past_at(look, page, at, way.high, first)
    }
}

/// Returns the first word of the key at which a way ends, or 0 if there is none.
pub fn first_of_end(way: Way<'_>) -> u64
    ensures { IsFirstOf (end_of_way way.entry) result }
{
    if way.back {
        first_word(way.low)
    } else {
        first_of(way.high)
    }
}

/// Adds the numbers of the first keys that a walk has ahead in a leaf.
fn push_run<L: Look>(
    look: &mut L,
    leaf: Leaf,
    count: usize,
    found: &mut Vec<u64>,
) -> Result<(), AllocError>
    requires leaf { IsLeaf (L.page_state look.old) (L.words look.old) leaf }
    requires in_range { count ≤ length (items_ahead (L.words look.old) leaf) }
    requires long { AreLong (items_ahead (L.words look.old) leaf) }
    ensures first { HasFirst found.old.items
        (numbers_in (take count (items_ahead (L.words look.old) leaf))) found.new.items }
    ensures found { OnOk result (found.new.items ≡ found.old.items
        ++ numbers_in (take count (items_ahead (L.words look.old) leaf))) }
    ensures unchanged { IsUnchanged L.kept L.page_state L.words look.old look.new }
{
    for i in 0..count {
        let at = leaf.place(i);
        let number = number_at(look, leaf.page, at);
        found.push(number)?;
    }
    Ok(())
}
