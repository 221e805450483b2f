//! Writes unwritten nodes to new pages.
//!
//! Such a node has too many or too few items. The items are on one or two pages, and go to one or
//! two newly taken pages. The pages where they were are given up.
ghost use Rattle.std.specs.Prelude.{◌≡◌, ◌+◌, ◌-◌, ◌^◌, ◌<◌, ◌≤◌, [], ◌∷◌};
ghost use Rattle.std.specs.Prelude.{length, take, All, IfOk};
ghost use Rattle.std.specs.Prelude.{IsTrue};
ghost use Rattle.be_pages.specs.Pages.{is_kept, IsUnchanged};
ghost use Rattle.be_pages.specs.Pages.{Swaps};
ghost use Rattle.be_tree.specs.Slot.{IsBranchSlot, IsReady, branch_to, pair_of, pairs_of};
ghost use Rattle.be_tree_reading.specs.Tree.{IsBelow, IsWritten, BecomesTree, child};
ghost use Rattle.be_tree_reading.specs.Tree.{minimum_of_root};
ghost use Rattle.be_tree.specs.Writing.{AreApart, AreReady, IsApart, IsWritable, Packs, Replaces};
ghost use Rattle.be_tree.specs.Writing.{Refuses, ReplacesTree};

use crate::item::Item;
use crate::slot::{Node, Slot};
use crate::splicing::store_slots;
use arrayvec::ArrayVec;
use be_pages::{Look, Room};
use be_tree_reading::{MINIMUM_ITEMS, MOST_ITEMS, child_at};
use be_value::Refusal;

/// Writes a node to a new page, and returns that page.
pub(crate) fn write_node<R: Room>(room: &mut R, node: Node<'_>) -> Result<u64, Refusal>
    requires size { (0 < length node.slots.now) × (length node.slots.now ≤ 12) }
    requires ready { AreReady (R.page_state room.old) (R.words room.old) node.pair.now
        node.slots.now }
    requires open { IsTrue (R.is_open (R.kept room.old)) }
    ensures ok { IfOk result (λ page. IsWritten node.entry.level (R.words room.new)
        (pairs_of (R.words room.old) node.entry.pair.now node.entry.slots.now)
        (branch_to (R.words room.new) page)) }
    ensures swaps { IfOk result (λ page. Swaps R.kept R.page_state R.words [] (page ∷ []) room.old
        room.new) }
    ensures small { IfOk result (λ page. page < 2 ^ 32) }
    ensures refused { Refuses R.kept R.page_state R.words R.full 1 result room.old room.new }
{
    let page = room.take()?;
    room.fill(page, 0, node.level);
    room.fill(page, 1, node.slots.len() as u64);
    store_slots(room, page, 0, node.slots, node.pair);
    Ok(page)
}

/// Writes a changed node to a new page, gives up the old one, and returns the new one.
fn write_changed<R: Room>(room: &mut R, old: u64, node: Node<'_>) -> Result<u64, Refusal>
    requires size { (0 < length node.slots.now) × (length node.slots.now ≤ 12) }
    requires ready { AreReady (R.page_state room.old) (R.words room.old) node.pair.now
        node.slots.now }
    requires kept { IsTrue (is_kept (R.page_state room.old old)) }
    requires open { IsTrue (R.is_open (R.kept room.old)) }
    ensures ok { IfOk result (λ page. IsWritten node.entry.level (R.words room.new)
        (pairs_of (R.words room.old) node.entry.pair.now node.entry.slots.now)
        (branch_to (R.words room.new) page)) }
    ensures swaps { IfOk result (λ page. Swaps R.kept R.page_state R.words (old ∷ []) (page ∷ [])
        room.old room.new) }
    ensures small { IfOk result (λ page. page < 2 ^ 32) }
    ensures refused { Refuses R.kept R.page_state R.words R.full 1 result room.old room.new }
{
    let page = write_node(room, node)?;
    room.give_up(old);
    Ok(page)
}

/// Writes a node as `write_changed` does, and returns the new page. Its contract covers what is
/// below the node.
pub(crate) fn write_branch<R: Room>(room: &mut R, old: u64, node: Node<'_>) -> Result<u64, Refusal>
    requires node { IsWritable R.page_state R.words room.old node.level node.pair.now
        node.slots.now }
    requires size { (6 ≤ length node.slots.now) × (length node.slots.now ≤ 12) }
    requires old { IsApart R.page_state R.words room.old node.level node.pair.now node.slots.now
        old }
    requires open { IsTrue (R.is_open (R.kept room.old)) }
    ensures ok { IfOk result (λ page. Replaces R.kept R.page_state R.words node.entry.level
        node.entry.pair.now node.entry.slots.now (old ∷ [])
        (branch_to (R.words room.new) page ∷ []) room.old room.new) }
    ensures small { IfOk result (λ page. page < 2 ^ 32) }
    ensures refused { Refuses R.kept R.page_state R.words R.full 1 result room.old room.new }
{
    let page = write_changed(room, old, node)?;
    Ok(page)
}

/// Writes an unwritten node to two pages, with its first `cut` items on the first, and returns the
/// pages. Gives up the old page.
fn write_parts<R: Room>(
    room: &mut R,
    old: u64,
    node: Node<'_>,
    cut: usize,
) -> Result<(u64, u64), Refusal>
    requires node { IsWritable R.page_state R.words room.old node.level node.pair.now
        node.slots.now }
    requires first { (6 ≤ cut) × (cut ≤ 12) }
    requires second { (cut + 6 ≤ length node.slots.now) × (length node.slots.now ≤ cut + 12) }
    requires old { IsApart R.page_state R.words room.old node.level node.pair.now node.slots.now
        old }
    requires open { IsTrue (R.is_open (R.kept room.old)) }
    ensures ok { IfOk result (λ both. Replaces R.kept R.page_state R.words node.entry.level
        node.entry.pair.now node.entry.slots.now (old ∷ [])
        (branch_to (R.words room.new) both.0 ∷ branch_to (R.words room.new) both.1 ∷ []) room.old
        room.new) }
    ensures small { IfOk result (λ both. (both.0 < 2 ^ 32) × (both.1 < 2 ^ 32)) }
    ensures refused { Refuses R.kept R.page_state R.words R.full 2 result room.old room.new }
{
    let Node { level, slots, pair } = node;
    let (front, back) = slots.split_at(cut);
    let slots = back;
    let right = write_node(room, Node { level, slots, pair })?;
    let slots = front;
    let left = write_changed(room, old, Node { level, slots, pair })?;
    Ok((left, right))
}

/// Returns how many items the first of two pages takes: all that it can hold, as long as six are
/// left for the second.
fn first_of_two(len: usize) -> usize
    requires { (12 < len) × (len ≤ 24) }
    ensures first { (6 ≤ result) × (result ≤ 12) }
    ensures second { (result + 6 ≤ len) × (len ≤ result + 12) }
{
    if len < MOST_ITEMS + MINIMUM_ITEMS {
        len - MINIMUM_ITEMS
    } else {
        MOST_ITEMS
    }
}

/// Writes an unwritten node to one or two pages, and returns the branches to them. Gives up the old
/// page.
pub(crate) fn pack<R: Room>(
    room: &mut R,
    old: u64,
    node: Node<'_>,
) -> Result<ArrayVec<Slot, 2>, Refusal>
    requires node { IsWritable R.page_state R.words room.old node.level node.pair.now
        node.slots.now }
    requires size { (6 ≤ length node.slots.now) × (length node.slots.now ≤ 24) }
    requires old { IsApart R.page_state R.words room.old node.level node.pair.now node.slots.now
        old }
    requires open { IsTrue (R.is_open (R.kept room.old)) }
    ensures ok { Packs R.kept R.page_state R.words node.entry.level node.entry.pair.now
        node.entry.slots.now (old ∷ []) result room.old room.new }
    ensures branches { IfOk result (λ branches. All IsBranchSlot branches.items) }
    ensures some { IfOk result (λ branches. (0 < length branches.items)
        × (length branches.items ≤ 2)) }
    ensures refused { Refuses R.kept R.page_state R.words R.full 2 result room.old room.new }
{
    let mut branches = ArrayVec::new();
    if node.slots.len() <= MOST_ITEMS {
        let page = write_branch(room, old, node)?;
        branches.push(Slot::Branch(page as u32));
        return Ok(branches);
    }
    let (left, right) = write_parts(room, old, node, first_of_two(node.slots.len()))?;
    branches.push(Slot::Branch(left as u32));
    branches.push(Slot::Branch(right as u32));
    Ok(branches)
}

/// Does the same as `pack` for an unwritten node whose items are on two neighbouring pages. Gives
/// up both pages.
pub(crate) fn pack_two<R: Room>(
    room: &mut R,
    left: u64,
    right: u64,
    node: Node<'_>,
) -> Result<ArrayVec<Slot, 2>, Refusal>
    requires node { IsWritable R.page_state R.words room.old node.level node.pair.now
        node.slots.now }
    requires size { (6 ≤ length node.slots.now) × (length node.slots.now ≤ 24) }
    requires two { AreApart R.page_state R.words room.old node.level node.pair.now node.slots.now
        left right }
    requires open { IsTrue (R.is_open (R.kept room.old)) }
    ensures ok { Packs R.kept R.page_state R.words node.entry.level node.entry.pair.now
        node.entry.slots.now (left ∷ right ∷ []) result room.old room.new }
    ensures branches { IfOk result (λ branches. All IsBranchSlot branches.items) }
    ensures some { IfOk result (λ branches. (0 < length branches.items)
        × (length branches.items ≤ 2)) }
    ensures refused { Refuses R.kept R.page_state R.words R.full 2 result room.old room.new }
{
    let branches = pack(room, left, node)?;
    room.give_up(right);
    Ok(branches)
}

/// Writes items as a one-page tree, and returns its root.
pub(crate) fn write_first_root<R: Room>(
    room: &mut R,
    slots: &[Slot],
    pair: &Item,
) -> Result<u64, Refusal>
    requires below { IsBelow 0 (R.page_state room.old) (R.words room.old)
        (pairs_of (R.words room.old) pair.now slots.now) }
    requires ready { All (IsReady (R.page_state room.old) (R.words room.old)) slots.now }
    requires some { 0 < length slots.now }
    requires few { length slots.now ≤ 12 }
    requires key_fits { length pair.now.key ≤ 264 }
    requires open { IsTrue (R.is_open (R.kept room.old)) }
    ensures ok { IfOk result (λ root. BecomesTree R.kept R.page_state R.words []
        (pairs_of (R.words room.old) pair.now slots.now) root room.old room.new) }
    ensures refused { Refuses R.kept R.page_state R.words R.full 1 result room.old room.new }
{
    let node = Node {
        level: 0,
        slots,
        pair,
    };
    let top = write_node(room, node)?;
    Ok(top + 1)
}

/// Writes items as a tree of their own, and returns its root. Gives up the old root's page.
pub(crate) fn write_root<R: Room>(room: &mut R, old: u64, node: Node<'_>) -> Result<u64, Refusal>
    requires node { IsWritable R.page_state R.words room.old node.level node.pair.now
        node.slots.now }
    requires enough { minimum_of_root node.level ≤ length node.slots.now }
    requires few { length node.slots.now ≤ 18 }
    requires old { IsApart R.page_state R.words room.old node.level node.pair.now node.slots.now
        old }
    requires low { node.level < 2 ^ 32 }
    requires open { IsTrue (R.is_open (R.kept room.old)) }
    ensures ok { IfOk result (λ root. ReplacesTree R.kept R.page_state R.words node.entry.level
        node.entry.pair.now node.entry.slots.now old root room.old room.new) }
    ensures refused { Refuses R.kept R.page_state R.words R.full 3 result room.old room.new }
{
    if node.slots.len() <= MOST_ITEMS {
        let top = write_changed(room, old, node)?;
        return Ok(top + 1);
    }
    let (left, right) = write_parts(room, old, node, first_of_two(node.slots.len()))?;
    let branches = [Slot::Branch(left as u32), Slot::Branch(right as u32)];
    let above = Node {
        level: node.level + 1,
        slots: &branches,
        pair: node.pair,
    };
    let top = write_node(room, above)?;
    Ok(top + 1)
}

/// Writes what is left of a root as a tree, and returns the tree's root: 0 if nothing is left. If
/// an inner root has only one branch left, the new root is that branch's page. Gives up the old
/// root's page.
pub(crate) fn write_rest<R: Room>(room: &mut R, old: u64, node: Node<'_>) -> Result<u64, Refusal>
    requires low { node.level < 2 ^ 32 }
    requires node { IsWritable R.page_state R.words room.old node.level node.pair.now
        node.slots.now }
    requires few { length node.slots.now ≤ 18 }
    requires old { IsApart R.page_state R.words room.old node.level node.pair.now node.slots.now
        old }
    requires open { IsTrue (R.is_open (R.kept room.old)) }
    ensures ok { IfOk result (λ root. ReplacesTree R.kept R.page_state R.words node.entry.level
        node.entry.pair.now node.entry.slots.now old root room.old room.new) }
    ensures refused { Refuses R.kept R.page_state R.words R.full 3 result room.old room.new }
{
    let Node { level, slots, pair } = node;
    if slots.len() == 0 {
        room.give_up(old);
        return Ok(0);
    }
    if level > 0 && slots.len() == 1 {
        let child = child_of(room, slots[0], pair);
        room.give_up(old);
        return Ok(child + 1);
    }
    let root = write_root(room, old, node)?;
    Ok(root)
}

/// Returns the page of a slot's branch.
fn child_of<L: Look>(look: &mut L, slot: Slot, pair: &Item) -> u64
    requires ready { IsReady (L.page_state look.old) (L.words look.old) slot }
    requires names_page { length (pair_of (L.words look.old) pair.now slot).payload ≡ 8 }
    ensures child { result ≡ child (pair_of (L.words look.old) pair.now slot) }
    ensures unchanged { IsUnchanged L.kept L.page_state L.words look.old look.new }
{
    match slot {
        Slot::At(place, page) => child_at(look, page as u64, place as usize),
        Slot::Branch(page) => page as u64,
        Slot::New => pair.child(),
    }
}
