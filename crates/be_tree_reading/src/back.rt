//! A cursor that goes backwards through a tree's pairs.
//!
//! It keeps the path from the root down to a leaf, as `Cursor` does. The pairs before the deepest
//! place come first, in reverse order. Then come those before the place above it, and so on up to
//! the root.
ghost use Rattle.std.specs.Prelude.{◌≡◌, ℕ, [], ◌+◌, ◌<◌, ◌≤◌, ◌++◌, length, take, Some, None};
ghost use Rattle.std.specs.Prelude.{IfNone, IfSome, IsTrue};
ghost use Rattle.std.specs.Option.{option_copied};
ghost use Rattle.be_pages.specs.declared.room.PageState.{PageState as AnyPageState};
ghost use Rattle.be_pages.specs.Pages.{IsUnchanged};
ghost use Rattle.be_tree_reading.specs.Back.{IsBackCursor, coming, pairs_before};
ghost use Rattle.be_tree_reading.specs.Cursor.{IsPlace};
ghost use Rattle.be_tree_reading.specs.Page.{items_of};
ghost use Rattle.be_tree_reading.specs.Tree.{IsTree, IsTreeAt, pairs, pairs_at};
ghost use Rattle.be_tree_reading.specs.Way.{pairs_until};

use crate::cursor::{Place, leaf_from};
use crate::lookup::{branch_in, item_number};
use crate::page::{HEADER_WORDS, ITEM_WORDS, child_at, first_word};
use arrayvec::ArrayVec;
use be_pages::Look;

/// A position among a tree's pairs, from which a walk goes down to the lowest key. It is valid as
/// long as the tree's pages keep their words. It takes no memory beyond its own 14 places.
#[derive(Drop)]
pub struct BackCursor {
    path: ArrayVec<Place, 14>,
}

impl BackCursor {
    /// Creates a cursor before all pairs.
    pub fn new() -> BackCursor
        ensures cursor { (page_state : ℕ → AnyPageState) (words : ℕ → ℕ → ℕ)
            → IsBackCursor page_state words result }
        ensures coming { (words : ℕ → ℕ → ℕ) → coming words result ≡ [] }
    {
        BackCursor {
            path: ArrayVec::new(),
        }
    }

    /// Moves the cursor to just after a tree's highest pair whose key is at or before `to`; if
    /// `before` is set, strictly before it. Without a key, the cursor moves past all pairs. It
    /// costs one descent, or without a key only a read of the root's page.
    pub fn seek<L: Look>(&mut self, look: &mut L, root: u64, to: Option<&[u8]>, before: bool)
        requires tree { IsTree (L.page_state look.old) (L.words look.old) root }
        ensures cursor { IsBackCursor (L.page_state look.old) (L.words look.old) self.new }
        ensures coming { coming (L.words look.old) self.new
            ≡ pairs_until (pairs (L.words look.old) root) (option_copied to.entry) before }
        ensures unchanged { IsUnchanged L.kept L.page_state L.words look.old look.new }
    {
        self.path.clear();
        if root == 0 {
            return;
        }
        match to {
            Some(to) => self.descend(look, root, to, before),
            None => self.begin_at_end(look, root),
        }
    }

    /// Moves an empty cursor past all pairs of a tree.
    fn begin_at_end<L: Look>(&mut self, look: &mut L, root: u64)
        requires tree { IsTree (L.page_state look.old) (L.words look.old) root }
        requires some { 0 < root }
        requires empty { self.old.path.items ≡ [] }
        ensures cursor { IsBackCursor (L.page_state look.old) (L.words look.old) self.new }
        ensures coming { coming (L.words look.old) self.new ≡ pairs (L.words look.old) root }
        ensures unchanged { IsUnchanged L.kept L.page_state L.words look.old look.new }
    {
        let level = look.word(root - 1, 0);
        let place = after_items(look, root - 1, level);
        self.path.push(place);
    }

    /// Descends with an empty cursor to the leaf with the last pair that `seek` moves past.
    fn descend<L: Look>(&mut self, look: &mut L, root: u64, to: &[u8], before: bool)
        requires tree { IsTree (L.page_state look.old) (L.words look.old) root }
        requires some { 0 < root }
        requires empty { self.old.path.items ≡ [] }
        ensures cursor { IsBackCursor (L.page_state look.old) (L.words look.old) self.new }
        ensures coming { coming (L.words look.old) self.new
            ≡ pairs_until (pairs (L.words look.old) root) (Some to.now) before }
        ensures unchanged { IsUnchanged L.kept L.page_state L.words look.old look.new }
    {
        let first = first_word(to);
        let mut page = root - 1;
        let mut level = look.word(page, 0);
        while level > 0 {
            let at = branch_in(look, page, to, first);
            let next = item_number(at);
            let child = child_at(look, page, at);
            self.path.push(Place {
                page: page as u32,
                next: next as u8,
                level: level as u8,
            });
            page = child;
            level -= 1;
        }
        let next = leaf_from(look, page, to, first, !before);
        self.path.push(Place {
            page: page as u32,
            next: next as u8,
            level: 0,
        });
    }

    /// Removes places from the end of the path up to the deepest one that has an item before it,
    /// and returns that one.
    fn pop_spent(&mut self) -> Option<Place>
        ensures none { IfNone result ((words : ℕ → ℕ → ℕ) → coming words self.old ≡ []) }
        ensures empty { IfNone result ((words : ℕ → ℕ → ℕ) → coming words self.new ≡ []) }
        ensures left { IfSome result (λ place. 0 < place.next) }
        ensures place { IfSome result (λ place. (page_state : ℕ → AnyPageState) (words : ℕ → ℕ → ℕ)
            → IsBackCursor page_state words self.old → IsPlace page_state words place) }
        ensures short { IfSome result (λ place. (page_state : ℕ → AnyPageState) (words : ℕ → ℕ → ℕ)
            → IsBackCursor page_state words self.old
            → place.level + length self.new.path.items ≤ 13) }
        ensures parts { IfSome result (λ place. (words : ℕ → ℕ → ℕ) → coming words self.old
            ≡ coming words self.new ++ pairs_before words place) }
        ensures cursor { (page_state : ℕ → AnyPageState) (words : ℕ → ℕ → ℕ)
            → IsBackCursor page_state words self.old → IsBackCursor page_state words self.new }
    {
        while let Some(place) = self.path.pop() {
            if place.next > 0 {
                return Some(place);
            }
        }
        None
    }

    /// Returns the leaf of the next pair, and how many of the leaf's items are still ahead, in
    /// reverse order. The cursor moves past all of these.
    pub fn step_leaf<L: Look>(&mut self, look: &mut L) -> Option<(u64, usize)>
        requires cursor { IsBackCursor (L.page_state look.old) (L.words look.old) self.old }
        ensures none { IfNone result (coming (L.words look.old) self.old ≡ []) }
        ensures leaf { IfSome result (λ at. IsTreeAt 0 1 (L.page_state look.old) (L.words look.old)
            at.0) }
        ensures some { IfSome result (λ at. 0 < at.1) }
        ensures in_range { IfSome result (λ at. at.1 ≤ L.words look.old at.0 1) }
        ensures parts { IfSome result (λ at. coming (L.words look.old) self.old
            ≡ coming (L.words look.old) self.new
            ++ take at.1 (items_of (L.words look.old at.0))) }
        ensures cursor { IsBackCursor (L.page_state look.old) (L.words look.old) self.new }
        ensures unchanged { IsUnchanged L.kept L.page_state L.words look.old look.new }
    {
        let mut place = self.pop_spent()?;
        while place.level > 0 {
            let next = place.next - 1;
            self.path.push(Place { next, ..place });
            let at = HEADER_WORDS + ITEM_WORDS * next as usize;
            let child = child_at(look, place.page as u64, at);
            place = after_items(look, child, place.level as u64 - 1);
        }
        Some((place.page as u64, place.next as usize))
    }
}

/// Returns the place after all of a page's items.
fn after_items<L: Look>(look: &mut L, page: u64, level: u64) -> Place
    requires tree { (least : ℕ) × (0 < least)
        × IsTreeAt level least (L.page_state look.old) (L.words look.old) page }
    ensures page { result.page ≡ page }
    ensures level { result.level ≡ level }
    ensures next { result.next ≡ L.words look.old page 1 }
    ensures place { IsPlace (L.page_state look.old) (L.words look.old) result }
    ensures all { pairs_before (L.words look.old) result ≡ pairs_at level (L.words look.old) page }
    ensures unchanged { IsUnchanged L.kept L.page_state L.words look.old look.new }
{
    let count = look.word(page, 1);
    Place {
        page: page as u32,
        next: count as u8,
        level: level as u8,
    }
}
