//! Settles nodes that have too many or too few items: such a node is split, shares items with a
//! neighbour, or is merged with one.
//!
//! If a node has thirteen items and its left neighbour has room, the items of both are written
//! together. The neighbour takes all that it can hold. If it has no room, the node is split. If a
//! node has five items, they are written together with those of a neighbour, which is the next one
//! if there is one. They go to one page if they fit, otherwise to two. As a result the page above
//! may gain or lose a branch, and may itself become too large or too small.
ghost use Rattle.std.specs.Prelude.{◌≡◌, ◌≤◌, ◌+◌, ◌-◌, ◌<◌, ◌⊎◌, ◌++◌, suc, take, drop};
ghost use Rattle.std.specs.Prelude.{length, true, IfOk, IsTrue};
ghost use Rattle.be_pages.specs.Pages.{IsUnchanged, is_readable};
ghost use Rattle.be_tree.specs.Counting.{TakesAtMost, most_taken};
ghost use Rattle.be_tree_reading.specs.Page.{IsPage, item_at, item_place, level_of};
ghost use Rattle.be_tree.specs.Path.{IsInHand, whole};
ghost use Rattle.be_tree.specs.Settling.{IsChildInHand, IsTurned, Settles, taken_for};
ghost use Rattle.be_tree.specs.Slot.{loaded, pairs_of};
ghost use Rattle.be_tree.specs.Splicing.{spliced};
ghost use Rattle.be_tree_reading.specs.Tree.{BecomesTree, child, pages, pairs_below};
ghost use Rattle.be_tree.specs.Writing.{Refuses};

use crate::item::Item;
use crate::path::Step;
use crate::rising::{Changed, rise};
use crate::siblings::{append, count_of};
use crate::slot::{Node, Slot};
use crate::splicing::{Cut, splice};
use crate::storing::fill_slots;
use crate::writing::{pack, pack_two, write_rest};
use arrayvec::ArrayVec;
use be_pages::{Look, Room};
use be_tree_reading::{HEADER_WORDS, ITEM_WORDS, MINIMUM_ITEMS, MOST_ITEMS, child_at};
use be_value::Refusal;

/// The branches to the pages that were written, which replace some of a node's branches.
#[derive(Drop)]
pub(crate) struct Settled {
    pub(crate) cut: Cut,
    pub(crate) branches: ArrayVec<Slot, 2>,
}

/// How an unwritten node was settled, or why it wasn't.
type Settling = Result<Settled, Refusal>;

/// Splits an unwritten node that is too large into two pages. The node's page is the child at a
/// step.
fn settle_split<R: Room>(room: &mut R, step: Step, was: u64, node: Node<'_>) -> Settling
    requires child { (start : R) × IsChildInHand R.kept R.page_state R.words step was node.level
        node.pair.now node.slots.now start room.old }
    requires crowded { 12 < length node.slots.now }
    requires open { IsTrue (R.is_open (R.kept room.old)) }
    ensures ok { Settles R.kept R.page_state R.words step was node.entry.level node.entry.pair.now
        node.entry.slots.now result room.old room.new }
    ensures refused { Refuses R.kept R.page_state R.words R.full 2 result room.old room.new }
{
    let at = step.at;
    let branches = pack(room, was, node)?;
    let cut = Cut { at, gone: 1 };
    Ok(Settled { cut, branches })
}

/// Writes the node together with the items of the child before it.
fn settle_left<R: Room>(room: &mut R, step: Step, was: u64, node: Node<'_>) -> Settling
    requires child { (start : R) × IsChildInHand R.kept R.page_state R.words step was node.level
        node.pair.now node.slots.now start room.old }
    requires beyond { 0 < step.at }
    requires room { R.words room.old (child
        (item_at (R.words room.old step.page) (item_place (step.at - 1)))) 1 + length node.slots.now
        ≤ 24 }
    requires open { IsTrue (R.is_open (R.kept room.old)) }
    ensures ok { Settles R.kept R.page_state R.words step was node.entry.level node.entry.pair.now
        node.entry.slots.now result room.old room.new }
    ensures refused { Refuses R.kept R.page_state R.words R.full 2 result room.old room.new }
{
    let at = step.at - 1;
    let left = child_at(room, step.page, HEADER_WORDS + ITEM_WORDS * at);
    let mut slots = ArrayVec::new();
    fill_slots(room, left, &mut slots);
    append(&mut slots, node.slots);
    let both = Node {
        level: node.level,
        slots: &slots,
        pair: node.pair,
    };
    let branches = pack_two(room, left, was, both)?;
    let cut = Cut { at, gone: 2 };
    Ok(Settled { cut, branches })
}

/// Writes the node together with the items of the child after it.
fn settle_right<R: Room>(room: &mut R, step: Step, was: u64, node: Node<'_>) -> Settling
    requires child { (start : R) × IsChildInHand R.kept R.page_state R.words step was node.level
        node.pair.now node.slots.now start room.old }
    requires before { step.at + 1 < R.words room.old step.page 1 }
    requires few { length node.slots.now ≤ 12 }
    requires open { IsTrue (R.is_open (R.kept room.old)) }
    ensures ok { Settles R.kept R.page_state R.words step was node.entry.level node.entry.pair.now
        node.entry.slots.now result room.old room.new }
    ensures refused { Refuses R.kept R.page_state R.words R.full 2 result room.old room.new }
{
    let right = child_at(room, step.page, HEADER_WORDS + ITEM_WORDS * (step.at + 1));
    let mut others = ArrayVec::new();
    fill_slots(room, right, &mut others);
    let mut slots: ArrayVec<Slot, 24> = ArrayVec::new();
    append(&mut slots, node.slots);
    append(&mut slots, &others);
    let both = Node {
        level: node.level,
        slots: &slots,
        pair: node.pair,
    };
    let branches = pack_two(room, was, right, both)?;
    let at = step.at;
    let cut = Cut { at, gone: 2 };
    Ok(Settled { cut, branches })
}

/// Returns `true` if there is a child before the step's that has room for an item.
fn left_has_room<R: Room>(room: &mut R, step: Step, was: u64, node: Node<'_>) -> bool
    requires child { (start : R) × IsChildInHand R.kept R.page_state R.words step was node.level
        node.pair.now node.slots.now start room.old }
    ensures beyond { result ≡ true → 0 < step.at }
    ensures room { result ≡ true → R.words room.old
        (child (item_at (R.words room.old step.page) (item_place (step.at - 1)))) 1 < 12 }
    ensures unchanged { IsUnchanged R.kept R.page_state R.words room.old room.new }
{
    if step.at == 0 {
        return false;
    }
    let left = child_at(room, step.page, HEADER_WORDS + ITEM_WORDS * (step.at - 1));
    count_of(room, left) < MOST_ITEMS
}

/// Settles an unwritten node whose page is the child at a step.
fn settle_child<R: Room>(room: &mut R, step: Step, was: u64, node: Node<'_>) -> Settling
    requires child { (start : R) × IsChildInHand R.kept R.page_state R.words step was node.level
        node.pair.now node.slots.now start room.old }
    requires open { IsTrue (R.is_open (R.kept room.old)) }
    ensures ok { Settles R.kept R.page_state R.words step was node.entry.level node.entry.pair.now
        node.entry.slots.now result room.old room.new }
    ensures refused { Refuses R.kept R.page_state R.words R.full 2 result room.old room.new }
{
    if node.slots.len() > MOST_ITEMS {
        if left_has_room(room, step, was, node) {
            return settle_left(room, step, was, node);
        }
        return settle_split(room, step, was, node);
    }
    if step.at + 1 < count_of(room, step.page) {
        return settle_right(room, step, was, node);
    }
    settle_left(room, step, was, node)
}

/// Removes one slot of a cut if the cut has two.
fn leave_one(slots: &mut ArrayVec<Slot, 24>, cut: Cut)
    requires in_range { cut.at + cut.gone ≤ length slots.old.items }
    requires gone { (0 < cut.gone) × (cut.gone ≤ 2) }
    ensures { slots.new.items ≡ take cut.at slots.old.items
        ++ drop (cut.at + cut.gone - 1) slots.old.items }
{
    if cut.gone == 2 {
        slots.remove(cut.at);
    }
}

/// Returns the slots of a page's items, with others replacing a cut.
fn slots_with<L: Look>(look: &mut L, page: u64, settled: Settled) -> ArrayVec<Slot, 24>
    requires readable { IsTrue (is_readable (L.page_state look.old page)) }
    requires page { IsPage (L.words look.old page) }
    requires in_range { settled.cut.at + settled.cut.gone ≤ L.words look.old page 1 }
    requires gone { (0 < settled.cut.gone) × (settled.cut.gone ≤ 2) }
    requires some { (0 < length settled.branches.items) × (length settled.branches.items ≤ 2) }
    ensures slots { result.items ≡ spliced settled.cut (loaded page (L.words look.old page 1))
        settled.branches.items }
    ensures unchanged { IsUnchanged L.kept L.page_state L.words look.old look.new }
{
    let mut slots = ArrayVec::new();
    fill_slots(look, page, &mut slots);
    leave_one(&mut slots, settled.cut);
    replace_at(&mut slots, settled.cut.at, settled.branches);
    slots
}

/// Inserts slots at a place.
fn insert_all(slots: &mut ArrayVec<Slot, 24>, at: usize, mut more: ArrayVec<Slot, 2>)
    requires in_range { at ≤ length slots.old.items }
    requires room { length slots.old.items + length more.items ≤ 24 }
    ensures { slots.new.items ≡ take at slots.old.items ++ (more.items ++ drop at slots.old.items) }
{
    while let Some(slot) = more.pop() {
        slots.insert(at, slot);
    }
}

/// Replaces the slot at a place with others. If a single slot replaces it, as is usual, no other
/// slot is moved.
fn replace_at(slots: &mut ArrayVec<Slot, 24>, at: usize, mut more: ArrayVec<Slot, 2>)
    requires in_range { at < length slots.old.items }
    requires room { length slots.old.items + length more.items ≤ 25 }
    ensures { slots.new.items ≡ take at slots.old.items
        ++ (more.items ++ drop (suc at) slots.old.items) }
{
    match more.pop() {
        Some(last) => {
            slots[at] = last;
            insert_all(slots, at, more);
        }
        None => {
            slots.remove(at);
        }
    }
}

/// Returns `true` if a page may have this many items: a root needs two branches, and any other page
/// needs six items.
fn fits(count: usize, is_root: bool) -> bool
    ensures most { result ≡ true → count ≤ 12 }
    ensures least { result ≡ true → 2 ≤ count }
    ensures minimum_below { result ≡ true → (is_root ≡ true) ⊎ (6 ≤ count) }
{
    if count > MOST_ITEMS || count < 2 {
        return false;
    }
    is_root || count >= MINIMUM_ITEMS
}

/// What happened to an unwritten node when it was settled.
#[derive(Drop)]
pub(crate) enum Turn {
    /// The tree is complete and has this root.
    Whole(u64),
    /// The page above now has too many or too few items. These slots are to be written for it.
    Above(u64, ArrayVec<Slot, 24>),
}

/// Settles an unwritten node that isn't the root, and writes the pages above it if possible.
fn settle_once<R: Room>(
    room: &mut R,
    root: u64,
    above: &[Step],
    was: u64,
    slots: &[Slot],
    pair: &Item,
) -> Result<Turn, Refusal>
    requires in_hand { (start : R) × IsInHand R.kept R.page_state R.words root above.now was
        pair.now slots.now (level_of (R.words start was)) start room.old }
    requires below { 0 < length above.now }
    requires size { (5 ≤ length slots.now) × (length slots.now ≤ 13) }
    requires open { IsTrue (R.is_open (R.kept room.old)) }
    ensures ok { IfOk result (λ turn. (start : R)
        → IsInHand R.kept R.page_state R.words root above.now was pair.now slots.now
        (level_of (R.words start was)) start room.old
        → IsTurned R.kept R.page_state R.words root above.now pair.now (whole (R.words start)
        above.now (pairs_below (level_of (R.words start was)) (R.words room.old)
        (pairs_of (R.words room.old) pair.now slots.now))) turn start room.new) }
    ensures takes { IfOk result (λ turn. TakesAtMost (taken_for turn (length above.now))
        (R.page_state room.old) (R.page_state room.new)) }
    ensures refused { Refuses R.kept R.page_state R.words R.full (length above.now + 2) result
        room.old room.new }
{
    let level = room.word(was, 0);
    let last = above.len() - 1;
    let step = above[last];
    let node = Node { level, slots, pair };
    let settled = settle_child(room, step, was, node)?;
    let count = count_of(room, step.page) - settled.cut.gone + settled.branches.len();
    if fits(count, last == 0) {
        let page = splice(room, step.page, settled.cut, &settled.branches, pair)?;
        let changed = Changed {
            was: step.page,
            page,
            same_minimum: settled.cut.at > 0,
        };
        let whole = rise(room, root, &above[..last], changed)?;
        return Ok(Turn::Whole(whole));
    }
    let slots = slots_with(room, step.page, settled);
    Ok(Turn::Above(step.page, slots))
}

/// Settles an unwritten node, and each page above it that is left with too many or too few items.
/// Writes the other pages above, and returns the new root.
#[inline(never)]
pub(crate) fn settle<R: Room>(
    room: &mut R,
    root: u64,
    above: &[Step],
    was: u64,
    in_hand: ArrayVec<Slot, 24>,
    pair: &Item,
) -> Result<u64, Refusal>
    requires in_hand { (start : R) × IsInHand R.kept R.page_state R.words root above.now was
        pair.now in_hand.items (level_of (R.words start was)) start room.old }
    requires few { length in_hand.items ≤ 13 }
    requires some { 0 < length above.now → 5 ≤ length in_hand.items }
    requires open { IsTrue (R.is_open (R.kept room.old)) }
    ensures ok { IfOk result (λ new. (start : R)
        → IsInHand R.kept R.page_state R.words root above.now was pair.now in_hand.items
        (level_of (R.words start was)) start room.old
        → BecomesTree R.kept R.page_state R.words (pages (R.words start) root)
        (whole (R.words start) above.now (pairs_below (level_of (R.words start was))
        (R.words room.old) (pairs_of (R.words room.old) pair.now in_hand.items))) new start
        room.new) }
    ensures refused { Refuses R.kept R.page_state R.words R.full
        (most_taken (length above.now)) result room.old room.new }
{
    let mut slots = in_hand;
    let mut was = was;
    for i in 0..above.len() {
        let left = &above[..above.len() - i];
        let turn = settle_once(room, root, left, was, &slots, pair)?;
        match turn {
            Turn::Whole(new) => return Ok(new),
            Turn::Above(page, items) => {
                was = page;
                slots = items;
            }
        }
    }
    let level = room.word(was, 0);
    let node = Node {
        level,
        slots: &slots,
        pair,
    };
    write_rest(room, was, node)
}
