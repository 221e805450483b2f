//! Builds a tree from pairs in ascending order, with full pages.
//!
//! The builder holds the last pairs, up to 17 of them. As soon as there are 18, the first twelve
//! become a leaf, so at least six are left for the next one. At the end, up to twelve pairs become
//! one leaf, and more of them two with at least six each. Then each level is written over the one
//! below in the same way, until its branches fit on one page, the root.
ghost use Rattle.std.specs.Prelude.{◌≡◌, ◌+◌, ◌-◌, ◌*◌, ◌/◌, ◌^◌, ◌<◌, ◌≤◌, ◌⊎◌, [], ◌∷◌, ◌++◌};
ghost use Rattle.std.specs.Prelude.{ℕ, All, IfOk, IsTrue, OnOk, length, slice_index_or, suc, take};
ghost use Rattle.be_pages.specs.declared.room.PageState.{PageState as AnyPageState};
ghost use Rattle.be_pages.specs.declared.room.PageState.TheVariants.{Filled};
ghost use Rattle.be_pages.specs.Pages.{Swaps};
ghost use Rattle.be_tree_reading.specs.Key.{IsRising};
ghost use Rattle.be_tree_reading.specs.Pair.{Pair};
ghost use Rattle.be_tree_reading.specs.Tree.{Becomes, BecomesTree, IsBelow, IsWritten, pages};
ghost use Rattle.be_tree_reading.specs.Tree.{pages_below, pairs_below};
ghost use Rattle.be_tree.specs.Building.{AreFewest, Gains, HoldsFewer, IsBegun, IsBuilder, IsShort};
ghost use Rattle.be_tree.specs.Building.{RefusesAt, Writes, WritesAll, branches_of, items_on};
ghost use Rattle.be_tree.specs.Building.{pages_taken, pairs_given};
ghost use Rattle.be_tree.specs.Counting.{TakesAtMost};
ghost use Rattle.be_tree.specs.Slot.{IsBranchSlot, branch_to};
ghost use Rattle.be_tree.specs.Splicing.{IsStored, WritesItems};
ghost use Rattle.be_tree.specs.Writing.{Refuses};

use crate::item::Item;
use crate::slot::{Node, Slot};
use crate::storing::store_item;
use crate::writing::write_node;
use be_pages::Room;
use be_tree_reading::{HEADER_WORDS, ITEM_WORDS, MINIMUM_ITEMS, MOST_ITEMS};
use be_value::Refusal;
use std::alloc::Global;

/// A tree that is being built: the leaves that are written, and the pairs after them.
#[derive(Drop)]
pub struct TreeBuilder {
    alloc: Global,
    leaves: Vec<Slot>,
    items: Vec<Item>,
}

/// Writes items one after another to a page that has a filled word.
fn store_items<R: Room>(room: &mut R, page: u64, items: &[Item])
    requires filled { R.page_state room.old page ≡ Filled }
    requires in_page { length items.now ≤ 12 }
    requires keys_fit { All (λ item. length item.key ≤ 264) items.now }
    requires open { IsTrue (R.is_open (R.kept room.old)) }
    ensures items { (k : ℕ) (d : Pair) → k < length items.now
        → IsStored (R.words room.new page) k (slice_index_or items.now k d) }
    ensures only { WritesItems R.kept R.page_state R.words page 0 (length items.now) room.old
        room.new }
{
    for i in 0..items.len() {
        store_item(room, page, HEADER_WORDS + ITEM_WORDS * i, &items[i]);
    }
}

/// Writes items to a leaf, and returns its page.
fn write_leaf<R: Room>(room: &mut R, items: &[Item]) -> Result<u64, Refusal>
    requires size { (0 < length items.now) × (length items.now ≤ 12) }
    requires keys_fit { All (λ item. length item.key ≤ 264) items.now }
    requires open { IsTrue (R.is_open (R.kept room.old)) }
    ensures ok { IfOk result (λ page. IsWritten 0 (R.words room.new) items.now
        (branch_to (R.words room.new) page)) }
    ensures swaps { IfOk result (λ page. Swaps R.kept R.page_state R.words [] (page ∷ []) room.old
        room.new) }
    ensures small { IfOk result (λ page. page < 2 ^ 32) }
    ensures refused { Refuses R.kept R.page_state R.words R.full 1 result room.old room.new }
{
    let page = room.take()?;
    room.fill(page, 0, 0);
    room.fill(page, 1, items.len() as u64);
    store_items(room, page, items);
    Ok(page)
}

/// Returns how many of a level's last items the next page takes: all that it can hold, as long as
/// six are left for the page after it, if there is one.
fn next_part(len: usize) -> usize
    requires { 6 ≤ len }
    ensures size { (6 ≤ result) × ((result ≤ 12) × (result ≤ len)) }
    ensures rest { (result ≡ len) ⊎ (6 ≤ len - result) }
    ensures pages { (len - result + 11) / 12 + 1 ≡ (len + 11) / 12 }
{
    if len <= MOST_ITEMS {
        len
    } else if len < MOST_ITEMS + MINIMUM_ITEMS {
        len - MINIMUM_ITEMS
    } else {
        MOST_ITEMS
    }
}

/// Writes the pages of a level, given the branches that they contain, and returns the branches to
/// them.
fn write_level<R: Room>(
    alloc: Global,
    room: &mut R,
    level: u64,
    slots: &[Slot],
) -> Result<Vec<Slot>, Refusal>
    requires below { IsBelow level (R.page_state room.old) (R.words room.old)
        (branches_of (R.words room.old) slots.now) }
    requires branches { (0 < level) × All IsBranchSlot slots.now }
    requires some { 6 ≤ length slots.now }
    requires open { IsTrue (R.is_open (R.kept room.old)) }
    ensures ok { IfOk result (λ above. Becomes R.kept R.page_state R.words
        (pages_below level (R.words room.old) (branches_of (R.words room.old) slots.now))
        (pairs_below level (R.words room.old) (branches_of (R.words room.old) slots.now))
        (suc level) (branches_of (R.words room.new) above.items) room.old room.new) }
    ensures branches { IfOk result (λ above. All IsBranchSlot above.items) }
    ensures size { IfOk result (λ above. length above.items ≡ (length slots.now + 11) / 12) }
    ensures pages { IfOk result (λ above. length (pages_below (suc level) (R.words room.new)
        (branches_of (R.words room.new) above.items)) ≡ length above.items
        + length (pages_below level (R.words room.old)
        (branches_of (R.words room.old) slots.now))) }
    ensures takes { IfOk result (λ above. TakesAtMost (length above.items) (R.page_state room.old)
        (R.page_state room.new)) }
    ensures refused { RefusesAt R.kept R.page_state R.words R.full
        (HoldsFewer 0 ((length slots.now + 11) / 12) (R.page_state room.old)
        (R.page_state room.new)) result room.old room.new }
{
    let nothing = Item::new(&[], &[]);
    let mut above = Vec::new(alloc);
    let mut at = 0;
    while at < slots.len() {
        let end = at + next_part(slots.len() - at);
        let node = Node {
            level,
            slots: &slots[at..end],
            pair: &nothing,
        };
        let page = write_node(room, node)?;
        above.push(Slot::Branch(page as u32))?;
        at = end;
    }
    Ok(above)
}

/// Writes the levels above leaves, given the branches to them, and returns the root.
fn write_above<R: Room>(alloc: Global, room: &mut R, leaves: Vec<Slot>) -> Result<u64, Refusal>
    requires below { IsBelow 1 (R.page_state room.old) (R.words room.old)
        (branches_of (R.words room.old) leaves.items) }
    requires branches { All IsBranchSlot leaves.items }
    requires some { 2 ≤ length leaves.items }
    requires full { length leaves.items ≡ items_on 1 (length (pairs_below 1 (R.words room.old)
        (branches_of (R.words room.old) leaves.items))) }
    requires open { IsTrue (R.is_open (R.kept room.old)) }
    ensures ok { IfOk result (λ root. BecomesTree R.kept R.page_state R.words
        (pages_below 1 (R.words room.old) (branches_of (R.words room.old) leaves.items))
        (pairs_below 1 (R.words room.old) (branches_of (R.words room.old) leaves.items)) root
        room.old room.new) }
    ensures fewest { IfOk result (λ root. AreFewest (length (pages (R.words room.new) root))
        (length (pairs_below 1 (R.words room.old)
        (branches_of (R.words room.old) leaves.items)))) }
    ensures refused { RefusesAt R.kept R.page_state R.words R.full
        (IsShort (length leaves.items) (length (pairs_below 1 (R.words room.old)
        (branches_of (R.words room.old) leaves.items))) (R.page_state room.old)
        (R.page_state room.new)) result room.old room.new }
{
    let mut slots = leaves;
    let mut level = 1;
    while slots.len() > MOST_ITEMS {
        slots = write_level(alloc, room, level, &slots)?;
        level += 1;
    }
    let nothing = Item::new(&[], &[]);
    let node = Node {
        level,
        slots: &slots,
        pair: &nothing,
    };
    let top = write_node(room, node)?;
    Ok(top + 1)
}

impl TreeBuilder {
    /// Begins with no pairs.
    pub fn new(alloc: Global) -> TreeBuilder
        ensures builds { (page_state : ℕ → AnyPageState) (words : ℕ → ℕ → ℕ)
            → IsBuilder page_state words result }
        ensures empty { (words : ℕ → ℕ → ℕ) → pairs_given words result ≡ [] }
        ensures no_pages { (words : ℕ → ℕ → ℕ) → pages_taken words result ≡ [] }
    {
        TreeBuilder {
            alloc,
            leaves: Vec::new(alloc),
            items: Vec::new(alloc),
        }
    }

    /// Writes the first pairs that are held to a leaf.
    fn write_first<R: Room>(&mut self, room: &mut R, count: usize) -> Result<(), Refusal>
        requires begun { IsBegun (R.page_state room.old) (R.words room.old) self.old }
        requires size { (6 ≤ count) × ((count ≤ 12) × (count ≤ length self.old.items.items)) }
        requires open { IsTrue (R.is_open (R.kept room.old)) }
        ensures ok { OnOk result (Writes R.kept R.page_state R.words count self.old self.new
            room.old room.new) }
        ensures refused { RefusesAt R.kept R.page_state R.words R.full (HoldsFewer 0 1
            (R.page_state room.old) (R.page_state room.new)) result room.old room.new }
    {
        let rest = self.items.split_off(count)?;
        let page = write_leaf(room, &self.items)?;
        self.items = rest;
        self.leaves.push(Slot::Branch(page as u32))?;
        Ok(())
    }

    /// Writes all pairs that are held to one leaf or two.
    fn write_rest<R: Room>(&mut self, room: &mut R) -> Result<(), Refusal>
        requires builds { IsBuilder (R.page_state room.old) (R.words room.old) self.old }
        requires many { 12 < length (pairs_given (R.words room.old) self.old) }
        requires open { IsTrue (R.is_open (R.kept room.old)) }
        ensures ok { OnOk result (WritesAll R.kept R.page_state R.words self.old self.new room.old
            room.new) }
        ensures refused { RefusesAt R.kept R.page_state R.words R.full
            (IsShort (length self.old.leaves.items)
            (length (pairs_given (R.words room.old) self.old)) (R.page_state room.old)
            (R.page_state room.new)) result room.old room.new }
    {
        let held = self.items.len();
        if held <= MOST_ITEMS {
            return self.write_first(room, held);
        }
        self.write_first(room, held - MINIMUM_ITEMS)?;
        self.write_first(room, MINIMUM_ITEMS)
    }

    /// Appends a pair, whose key is above those before it. After an error the builder can't be used
    /// again.
    pub fn push<R: Room>(&mut self, room: &mut R, key: &[u8], payload: &[u8]) -> Result<(), Refusal>
        requires builds { IsBuilder (R.page_state room.old) (R.words room.old) self.old }
        requires rising { IsRising (pairs_given (R.words room.old) self.old
            ++ record { key = key.now; payload = payload.now } ∷ []) }
        requires key_fits { length key.now ≤ 264 }
        requires fits { length key.now + length payload.now ≤ 328 }
        requires open { IsTrue (R.is_open (R.kept room.old)) }
        ensures builds { OnOk result (IsBuilder (R.page_state room.new) (R.words room.new)
            self.new) }
        ensures gains { OnOk result (Gains R.kept R.page_state R.words
            (record { key = key.now; payload = payload.now } ∷ []) self.old self.new room.old
            room.new) }
        ensures refused { RefusesAt R.kept R.page_state R.words R.full
            (IsShort (length (pages_taken (R.words room.old) self.old))
            (length (pairs_given (R.words room.old) self.old) + 1) (R.page_state room.old)
            (R.page_state room.new)) result room.old room.new }
    {
        self.items.push(Item::new(key, payload))?;
        if self.items.len() < MOST_ITEMS + MINIMUM_ITEMS {
            return Ok(());
        }
        self.write_first(room, MOST_ITEMS)
    }

    /// Writes the pairs that are held and the levels above the leaves, and returns the root.
    pub fn finish<R: Room>(self, room: &mut R) -> Result<u64, Refusal>
        requires builds { IsBuilder (R.page_state room.old) (R.words room.old) self }
        requires open { IsTrue (R.is_open (R.kept room.old)) }
        ensures ok { IfOk result (λ root. BecomesTree R.kept R.page_state R.words
            (pages_taken (R.words room.old) self)
            (pairs_given (R.words room.old) self) root room.old room.new) }
        ensures fewest { IfOk result (λ root. AreFewest (length (pages (R.words room.new) root))
            (length (pairs_given (R.words room.old) self))) }
        ensures refused { RefusesAt R.kept R.page_state R.words R.full
            (IsShort (length (pages_taken (R.words room.old) self))
            (length (pairs_given (R.words room.old) self)) (R.page_state room.old)
            (R.page_state room.new)) result room.old room.new }
    {
        if self.leaves.is_empty() && self.items.len() <= MOST_ITEMS {
            let TreeBuilder {
                alloc: _,
                leaves: _,
                items,
            } = self;
            return write_only(room, &items);
        }
        let mut builder = self;
        builder.write_rest(room)?;
        let TreeBuilder {
            alloc,
            leaves,
            items: _,
        } = builder;
        write_above(alloc, room, leaves)
    }
}

/// Writes up to twelve items as a tree, and returns its root: 0 if there are none.
fn write_only<R: Room>(room: &mut R, items: &[Item]) -> Result<u64, Refusal>
    requires few { length items.now ≤ 12 }
    requires keys_fit { All (λ item. length item.key ≤ 264) items.now }
    requires rising { IsRising items.now }
    requires open { IsTrue (R.is_open (R.kept room.old)) }
    ensures ok { IfOk result (λ root. BecomesTree R.kept R.page_state R.words [] items.now root
        room.old room.new) }
    ensures fewest { IfOk result (λ root. AreFewest (length (pages (R.words room.new) root))
        (length items.now)) }
    ensures refused { RefusesAt R.kept R.page_state R.words R.full (IsShort 0 (length items.now)
        (R.page_state room.old) (R.page_state room.new)) result room.old room.new }
{
    if items.len() == 0 {
        return Ok(0);
    }
    let page = write_leaf(room, items)?;
    Ok(page + 1)
}
