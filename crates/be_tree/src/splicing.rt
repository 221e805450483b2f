//! Replaces some of a page's items with others.
//!
//! A page that this write has taken is changed in place: the items after the cut are moved up or
//! down, and the others are left where they are. A page that existed when the write began keeps its
//! words: its items are copied to a newly taken page, directly to their new places.
ghost use Rattle.std.specs.Prelude.{◌≡◌, ℕ, ◌+◌, ◌^◌, ◌<◌, ◌≤◌, All, IsTrue, length};
ghost use Rattle.std.specs.Prelude.{IfErr, IfOk, OnErr, slice_index_or};
ghost use Rattle.be_pages.specs.declared.room.PageState.TheVariants.{Free, Taken, Filled};
ghost use Rattle.be_pages.specs.Pages.{OnlyWrites, SetsStateAt, is_kept, is_readable};
ghost use Rattle.be_pages.specs.Refusal.{IsFullOf};
ghost use Rattle.be_tree.specs.declared.slot.Slot.{Slot as Slots};
ghost use Rattle.be_tree_reading.specs.Page.{IsItem, IsPage, item_place};
ghost use Rattle.be_tree.specs.Slot.{IsOff, IsReady, pair_of};
ghost use Rattle.be_tree.specs.Splicing.{AreCopies, CanBeSpliced, HasGap, IsSpliced};
ghost use Rattle.be_tree.specs.Splicing.{IsStored, IsTaken, WritesItems};
ghost use Rattle.be_tree.specs.Writing.{Refuses};

use crate::item::Item;
use crate::slot::Slot;
use crate::storing::{copy_item, store_slot};
use be_pages::Room;
use be_tree_reading::{HEADER_WORDS, ITEM_WORDS};
use be_value::Refusal;

/// Copies items to lower places, or to another page, starting with the first.
fn copy_down<R: Room>(room: &mut R, from: u64, first: usize, page: u64, at: usize, count: usize)
    requires filled { R.page_state room.old page ≡ Filled }
    requires in_page { (at + count ≤ 12) × (first + count ≤ 12) }
    requires readable { IsTrue (is_readable (R.page_state room.old from)) }
    requires down { from ≡ page → at ≤ first }
    requires items { (k : ℕ) → k < count → IsItem (R.words room.old from) (item_place (first + k)) }
    requires open { IsTrue (R.is_open (R.kept room.old)) }
    ensures copied { AreCopies (R.words room.old from) (R.words room.new page) first at count }
    ensures only { WritesItems R.kept R.page_state R.words page at (at + count) room.old room.new }
{
    for i in 0..count {
        let to = HEADER_WORDS + ITEM_WORDS * (at + i);
        let place = HEADER_WORDS + ITEM_WORDS * (first + i);
        copy_item(room, page, to, from, place);
    }
}

/// Copies items to higher places, starting with the last.
fn copy_up<R: Room>(room: &mut R, page: u64, first: usize, at: usize, count: usize)
    requires filled { R.page_state room.old page ≡ Filled }
    requires in_page { at + count ≤ 12 }
    requires up { first < at }
    requires items { (k : ℕ) → k < count → IsItem (R.words room.old page) (item_place (first + k)) }
    requires open { IsTrue (R.is_open (R.kept room.old)) }
    ensures copied { AreCopies (R.words room.old page) (R.words room.new page) first at count }
    ensures only { WritesItems R.kept R.page_state R.words page at (at + count) room.old room.new }
{
    for i in 0..count {
        let j = count - 1 - i;
        let to = HEADER_WORDS + ITEM_WORDS * (at + j);
        let place = HEADER_WORDS + ITEM_WORDS * (first + j);
        copy_item(room, page, to, page, place);
    }
}

/// Moves items within a page, in an order in which none is overwritten before it is copied.
fn move_items<R: Room>(room: &mut R, page: u64, first: usize, at: usize, count: usize)
    requires filled { R.page_state room.old page ≡ Filled }
    requires in_page { (at + count ≤ 12) × (first + count ≤ 12) }
    requires items { (k : ℕ) → k < count → IsItem (R.words room.old page) (item_place (first + k)) }
    requires open { IsTrue (R.is_open (R.kept room.old)) }
    ensures copied { AreCopies (R.words room.old page) (R.words room.new page) first at count }
    ensures only { WritesItems R.kept R.page_state R.words page at (at + count) room.old room.new }
{
    if first < at {
        copy_up(room, page, first, at, count);
        return;
    }
    copy_down(room, page, first, page, at, count);
}

/// The items of a node that are left out: `gone` of them, starting at number `at`.
#[derive(Clone, Copy)]
pub(crate) struct Cut {
    pub(crate) at: usize,
    pub(crate) gone: usize,
}

/// On a page that this write has taken, moves the items after a cut to make room for `more` items
/// in the cut's place.
fn open_here<R: Room>(room: &mut R, page: u64, cut: Cut, more: usize)
    requires filled { R.page_state room.old page ≡ Filled }
    requires page { IsPage (R.words room.old page) }
    requires in_range { cut.at + cut.gone ≤ R.words room.old page 1 }
    requires few { R.words room.old page 1 + more ≤ 12 + cut.gone }
    requires open { IsTrue (R.is_open (R.kept room.old)) }
    ensures gap { HasGap (R.words room.old page) (R.words room.new page) cut more }
    ensures only { OnlyWrites R.kept R.page_state R.words page 0 512 room.old room.new }
{
    let count = room.word(page, 1) as usize;
    let next = cut.at + cut.gone;
    let rest = count - next;
    room.fill(page, 1, (cut.at + more + rest) as u64);
    move_items(room, page, next, cut.at + more, rest);
}

/// Takes a page to hold a copy of a page on this level. From level 2 up, it asks for the page that
/// this one was copied from, most of whose words are the same. On lower levels, that page has
/// usually left the cache by then, so the page that was freed last is more likely to be in it.
fn take_copy<R: Room>(room: &mut R, page: u64, level: u64) -> Result<u64, Refusal>
    requires open { IsTrue (R.is_open (R.kept room.old)) }
    ensures page { IfOk result (λ copy. (copy < 2 ^ 32) × (R.page_state room.old copy ≡ Free)) }
    ensures ok { IfOk result (λ copy. SetsStateAt (R.page_state room.old) (R.page_state room.new)
        copy Taken) }
    ensures err { OnErr result (R.page_state room.new ≡ R.page_state room.old) }
    ensures full { IfErr result (IsFullOf (R.full room.new)) }
    ensures words { R.words room.new ≡ R.words room.old }
    ensures kept { R.kept room.new ≡ R.kept room.old }
{
    if level < 2 {
        return room.take();
    }
    room.take_like(page)
}

/// Copies a page to a newly taken one, with room for `more` items in a cut's place, and returns the
/// copy.
fn open_copy<R: Room>(room: &mut R, page: u64, cut: Cut, more: usize) -> Result<u64, Refusal>
    requires in_use { IsTrue (is_kept (R.page_state room.old page)) }
    requires page { IsPage (R.words room.old page) }
    requires in_range { cut.at + cut.gone ≤ R.words room.old page 1 }
    requires few { R.words room.old page 1 + more ≤ 12 + cut.gone }
    requires open { IsTrue (R.is_open (R.kept room.old)) }
    ensures gap { IfOk result (λ copy. HasGap (R.words room.old page) (R.words room.new copy) cut
        more) }
    ensures taken { IfOk result (λ copy. IsTaken R.kept R.page_state R.words copy room.old
        room.new) }
    ensures refused { Refuses R.kept R.page_state R.words R.full 1 result room.old room.new }
{
    let level = room.word(page, 0);
    let copy = take_copy(room, page, level)?;
    let count = room.word(page, 1) as usize;
    let next = cut.at + cut.gone;
    let rest = count - next;
    room.fill(copy, 0, level);
    room.fill(copy, 1, (cut.at + more + rest) as u64);
    copy_down(room, page, 0, copy, 0, cut.at);
    copy_down(room, page, next, copy, cut.at + more, rest);
    Ok(copy)
}

/// Writes the items of slots one after another, starting at item number `at` of a page.
pub(crate) fn store_slots<R: Room>(room: &mut R, page: u64, at: usize, slots: &[Slot], pair: &Item)
    requires filled { R.page_state room.old page ≡ Filled }
    requires in_page { at + length slots.now ≤ 12 }
    requires ready { All (IsReady (R.page_state room.old) (R.words room.old)) slots.now }
    requires off { All (IsOff page) slots.now }
    requires key_fits { length pair.now.key ≤ 264 }
    requires open { IsTrue (R.is_open (R.kept room.old)) }
    ensures items { (k : ℕ) (d : Slots) → k < length slots.now
        → IsStored (R.words room.new page) (at + k)
        (pair_of (R.words room.old) pair.now (slice_index_or slots.now k d)) }
    ensures only { WritesItems R.kept R.page_state R.words page at (at + length slots.now) room.old
        room.new }
{
    for i in 0..slots.len() {
        store_slot(
            room,
            page,
            HEADER_WORDS + ITEM_WORDS * (at + i),
            slots[i],
            pair,
        );
    }
}

/// Replaces a cut with slots. If this write has taken the page, it is changed in place; otherwise a
/// copy is changed, and the page is given up. Returns the page that now has the items.
pub(crate) fn splice<R: Room>(
    room: &mut R,
    page: u64,
    cut: Cut,
    slots: &[Slot],
    pair: &Item,
) -> Result<u64, Refusal>
    requires cut { CanBeSpliced (R.page_state room.old) (R.words room.old) page cut pair.now
        slots.now }
    requires open { IsTrue (R.is_open (R.kept room.old)) }
    ensures ok { IfOk result (λ to. IsSpliced R.kept R.page_state R.words page cut pair.now
        slots.now to room.old room.new) }
    ensures refused { Refuses R.kept R.page_state R.words R.full 1 result room.old room.new }
{
    if room.is_taken(page) {
        open_here(room, page, cut, slots.len());
        store_slots(room, page, cut.at, slots, pair);
        return Ok(page);
    }
    let copy = open_copy(room, page, cut, slots.len())?;
    store_slots(room, copy, cut.at, slots, pair);
    room.give_up(page);
    Ok(copy)
}
