//! A cursor among a tree's pairs.
//!
//! A cursor keeps the path from the root down to the next pair: for each page on the path, the
//! number of the item after those already passed. Ahead of it are the pairs after the deepest
//! place, then those after the place above, and so on up to the root. When it has passed everything
//! on a page, it removes the page's place and continues from the one above. So most steps read one
//! leaf, and a walk over a whole tree reads each inner page about once. A look-up for each pair
//! would descend from the root every time.
//!
//! A page has up to 12 items, and each page except the root has at least 6. So a tree with fewer
//! than 2^32 pages has no level above 13, and a path has at most 14 places.
ghost use Rattle.std.specs.Prelude.{◌≡◌, ℕ, [], ◌+◌, ◌<◌, ◌≤◌, ◌++◌, length};
ghost use Rattle.std.specs.Prelude.{option_map, drop, IfNone, IfSome, Some, slice_get};
ghost use Rattle.be_pages.specs.declared.room.PageState.{PageState as AnyPageState};
ghost use Rattle.be_pages.specs.Pages.{IsUnchanged};
ghost use Rattle.be_tree_reading.specs.Cursor.{IsCursor, IsNextPlace, IsSplit, remaining};
ghost use Rattle.be_tree_reading.specs.Page.{IsReadableAt, item_at, items_of};
ghost use Rattle.be_tree_reading.specs.Range.{pair_in, pairs_from};
ghost use Rattle.be_tree_reading.specs.Tree.{IsTree, IsTreeAt, pairs};
ghost use Rattle.be_tree_reading.specs.Words.{IsFirst};

use crate::lookup::{branch_in, item_number, search};
use crate::page::{HEADER_WORDS, ITEM_WORDS, child_at, first_word};
use crate::payload::fill_payload;
use crate::walk::{TreeItem, fill_key, key_at};
use arrayvec::ArrayVec;
use be_pages::Look;

/// A place on a page at some level: the number of the next item. It is kept small, because a cursor
/// has room for 14 of them.
#[derive(Clone, Copy)]
pub(crate) struct Place {
    pub(crate) page: u32,
    pub(crate) next: u8,
    pub(crate) level: u8,
}

impl Default for Place {
    fn default() -> Place {
        Place {
            page: 0,
            next: 0,
            level: 0,
        }
    }
}

/// A position among a tree's pairs, with the path to it from the root. It is valid as long as the
/// tree's pages keep their words. It takes no memory beyond its own 14 places.
#[derive(Drop)]
pub struct Cursor {
    path: ArrayVec<Place, 14>,
}

impl Cursor {
    /// Creates a cursor past all pairs.
    pub fn new() -> Cursor
        ensures cursor { (page_state : ℕ → AnyPageState) (words : ℕ → ℕ → ℕ)
            → IsCursor page_state words result }
        ensures remaining { (words : ℕ → ℕ → ℕ) → remaining words result ≡ [] }
    {
        Cursor {
            path: ArrayVec::new(),
        }
    }

    /// Moves the cursor to just before a tree's lowest pair whose key is at or after `from`; if
    /// `after` is set, strictly after it. It costs one descent.
    pub fn seek<L: Look>(&mut self, look: &mut L, root: u64, from: &[u8], after: bool)
        requires tree { IsTree (L.page_state look.old) (L.words look.old) root }
        ensures cursor { IsCursor (L.page_state look.old) (L.words look.old) self.new }
        ensures remaining { remaining (L.words look.old) self.new
            ≡ pairs_from (pairs (L.words look.old) root) from.now after }
        ensures unchanged { IsUnchanged L.kept L.page_state L.words look.old look.new }
    {
        if root == 0 {
            self.path.clear();
            return;
        }
        let (page, next) = self.descend(look, root, from, after);
        self.path.push(Place {
            page: page as u32,
            next: next as u8,
            level: 0,
        });
    }

    /// Descends to the leaf with the pair that `seek` moves to. Returns the leaf, and how many of
    /// its items come before that pair. The cursor is then past the leaf.
    pub(crate) fn descend<L: Look>(
        &mut self,
        look: &mut L,
        root: u64,
        from: &[u8],
        after: bool,
    ) -> (u64, usize)
        requires tree { IsTree (L.page_state look.old) (L.words look.old) root }
        requires some { 0 < root }
        ensures leaf { IsTreeAt 0 1 (L.page_state look.old) (L.words look.old) result.0 }
        ensures in_range { result.1 ≤ L.words look.old result.0 1 }
        ensures parts { pairs_from (pairs (L.words look.old) root) from.now after
            ≡ drop result.1 (items_of (L.words look.old result.0))
            ++ remaining (L.words look.old) self.new }
        ensures short { length self.new.path.items ≤ 13 }
        ensures cursor { IsCursor (L.page_state look.old) (L.words look.old) self.new }
        ensures unchanged { IsUnchanged L.kept L.page_state L.words look.old look.new }
    {
        self.path.clear();
        let first = first_word(from);
        let mut page = root - 1;
        let mut level = look.word(page, 0);
        while level > 0 {
            let at = branch_in(look, page, from, first);
            let next = item_number(at) + 1;
            let child = child_at(look, page, at);
            self.path.push(Place {
                page: page as u32,
                next: next as u8,
                level: level as u8,
            });
            page = child;
            level -= 1;
        }
        let next = leaf_from(look, page, from, first, after);
        (page, next)
    }

    /// Returns the next pair and steps past it. Returns `None` after the last. This is the pair
    /// that `range` returns for the last pair's key with `after` set, without the descent.
    pub fn next<L: Look>(&mut self, look: &mut L) -> Option<TreeItem>
        requires cursor { IsCursor (L.page_state look.old) (L.words look.old) self.old }
        ensures item { option_map pair_in result
            ≡ slice_get (remaining (L.words look.old) self.old) 0 }
        ensures cursor { IsCursor (L.page_state look.old) (L.words look.old) self.new }
        ensures remaining { remaining (L.words look.old) self.new
            ≡ drop 1 (remaining (L.words look.old) self.old) }
        ensures unchanged { IsUnchanged L.kept L.page_state L.words look.old look.new }
    {
        let (page, at) = self.step(look)?;
        let mut item = TreeItem {
            key: ArrayVec::new(),
            payload: ArrayVec::new(),
        };
        fill_key(look, page, at, &mut item.key);
        fill_payload(look, page, at, &mut item.payload);
        Some(item)
    }

    /// Returns the next pair's key and steps past the pair. Reads no payload.
    pub fn next_key<L: Look>(&mut self, look: &mut L) -> Option<ArrayVec<u8, 264>>
        requires cursor { IsCursor (L.page_state look.old) (L.words look.old) self.old }
        ensures key { option_map (λ key. key.items) result
            ≡ option_map (λ x. x.key) (slice_get (remaining (L.words look.old) self.old) 0) }
        ensures cursor { IsCursor (L.page_state look.old) (L.words look.old) self.new }
        ensures remaining { remaining (L.words look.old) self.new
            ≡ drop 1 (remaining (L.words look.old) self.old) }
        ensures unchanged { IsUnchanged L.kept L.page_state L.words look.old look.new }
    {
        let (page, at) = self.step(look)?;
        Some(key_at(look, page, at))
    }

    /// Removes places from the end of the path up to the deepest one that has an item left, and
    /// returns that one.
    fn pop_spent<L: Look>(&mut self, look: &mut L) -> Option<Place>
        requires cursor { IsCursor (L.page_state look.old) (L.words look.old) self.old }
        ensures none { IfNone result (remaining (L.words look.old) self.old ≡ []) }
        ensures empty { IfNone result (remaining (L.words look.old) self.new ≡ []) }
        ensures place { IfSome result (λ place. IsNextPlace (L.page_state look.old)
            (L.words look.old) place self.new) }
        ensures parts { IfSome result (λ at. IsSplit (L.words look.old) self.old at self.new) }
        ensures cursor { IsCursor (L.page_state look.old) (L.words look.old) self.new }
        ensures unchanged { IsUnchanged L.kept L.page_state L.words look.old look.new }
    {
        while let Some(place) = self.path.pop() {
            if (place.next as u64) < look.word(place.page as u64, 1) {
                return Some(place);
            }
        }
        None
    }

    /// Removes the next pair's place from the path and returns it: a place in a leaf with an item
    /// left.
    fn take_place<L: Look>(&mut self, look: &mut L) -> Option<Place>
        requires cursor { IsCursor (L.page_state look.old) (L.words look.old) self.old }
        ensures none { IfNone result (remaining (L.words look.old) self.old ≡ []) }
        ensures empty { IfNone result (remaining (L.words look.old) self.new ≡ []) }
        ensures place { IfSome result (λ place. IsNextPlace (L.page_state look.old)
            (L.words look.old) place self.new) }
        ensures leaf { IfSome result (λ place. place.level ≡ 0) }
        ensures parts { IfSome result (λ at. IsSplit (L.words look.old) self.old at self.new) }
        ensures cursor { IsCursor (L.page_state look.old) (L.words look.old) self.new }
        ensures unchanged { IsUnchanged L.kept L.page_state L.words look.old look.new }
    {
        let mut place = self.pop_spent(look)?;
        while place.level > 0 {
            self.path.push(Place {
                next: place.next + 1,
                ..place
            });
            let child = child_at(
                look,
                place.page as u64,
                HEADER_WORDS + ITEM_WORDS * place.next as usize,
            );
            place = Place {
                page: child as u32,
                next: 0,
                level: place.level - 1,
            };
        }
        Some(place)
    }

    /// Returns the next item's page and place, and steps past the item. Reads nothing of the item
    /// itself.
    pub fn step<L: Look>(&mut self, look: &mut L) -> Option<(u64, usize)>
        requires cursor { IsCursor (L.page_state look.old) (L.words look.old) self.old }
        ensures none { IfNone result (remaining (L.words look.old) self.old ≡ []) }
        ensures item { IfSome result (λ at. slice_get (remaining (L.words look.old) self.old) 0
            ≡ Some (item_at (L.words look.old at.0) at.1)) }
        ensures here { IfSome result (λ at. IsReadableAt (L.page_state look.old) (L.words look.old)
            at.0 at.1) }
        ensures cursor { IsCursor (L.page_state look.old) (L.words look.old) self.new }
        ensures remaining { remaining (L.words look.old) self.new
            ≡ drop 1 (remaining (L.words look.old) self.old) }
        ensures unchanged { IsUnchanged L.kept L.page_state L.words look.old look.new }
    {
        let place = self.take_place(look)?;
        self.path.push(Place {
            next: place.next + 1,
            ..place
        });
        Some((
            place.page as u64,
            HEADER_WORDS + ITEM_WORDS * place.next as usize,
        ))
    }

    /// Returns the leaf of the next pair, and the number of the pair's item in that leaf. The
    /// cursor steps past all of the leaf's pairs.
    pub fn step_leaf<L: Look>(&mut self, look: &mut L) -> Option<(u64, usize)>
        requires cursor { IsCursor (L.page_state look.old) (L.words look.old) self.old }
        ensures none { IfNone result (remaining (L.words look.old) self.old ≡ []) }
        ensures leaf { IfSome result (λ at. IsTreeAt 0 1 (L.page_state look.old) (L.words look.old)
            at.0) }
        ensures left { IfSome result (λ at. at.1 < L.words look.old at.0 1) }
        ensures parts { IfSome result (λ at. remaining (L.words look.old) self.old
            ≡ drop at.1 (items_of (L.words look.old at.0))
            ++ remaining (L.words look.old) self.new) }
        ensures cursor { IsCursor (L.page_state look.old) (L.words look.old) self.new }
        ensures unchanged { IsUnchanged L.kept L.page_state L.words look.old look.new }
    {
        let place = self.take_place(look)?;
        Some((place.page as u64, place.next as usize))
    }
}

/// Returns how many of a leaf's items come before the pairs at or after a key; if `after` is set,
/// before those strictly after it.
pub(crate) fn leaf_from<L: Look>(
    look: &mut L,
    page: u64,
    from: &[u8],
    first: u64,
    after: bool,
) -> usize
    requires tree { IsTreeAt 0 1 (L.page_state look.old) (L.words look.old) page }
    requires first { IsFirst from.now first }
    ensures in_range { result ≤ length (items_of (L.words look.old page)) }
    ensures rest { drop result (items_of (L.words look.old page))
        ≡ pairs_from (items_of (L.words look.old page)) from.now after }
    ensures unchanged { IsUnchanged L.kept L.page_state L.words look.old look.new }
{
    match search(look, page, from, first) {
        Ok(at) => {
            let number = item_number(at);
            if after { number + 1 } else { number }
        }
        Err(at) => {
            let before = item_number(at);
            before
        }
    }
}
