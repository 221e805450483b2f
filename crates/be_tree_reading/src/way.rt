//! A walk over a range of keys, in either direction.
//!
//! It goes leaf by leaf, with a cursor for its direction. It treats a leaf's items the same way in
//! both directions: a `Leaf` counts them from where the walk reached it.
ghost use Rattle.std.specs.Prelude.{◌≡◌, [], ◌<◌, ◌++◌, length, IfNone, IfSome};
ghost use Rattle.be_pages.specs.Pages.{IsUnchanged};
ghost use Rattle.be_tree_reading.specs.Page.{item_place};
ghost use Rattle.be_tree_reading.specs.Tree.{IsTree, pairs};
ghost use Rattle.be_tree_reading.specs.Walk.{IsAhead, IsLeaf, IsWalk, ahead, begun, items_ahead};
ghost use Rattle.be_tree_reading.specs.Walk.{number_ahead};

use crate::back::BackCursor;
use crate::cursor::Cursor;
use crate::page::{HEADER_WORDS, ITEM_WORDS};
use be_pages::Look;

/// A range of keys and the direction of a walk over it. The walk goes up from `low`, or, if `back`
/// is set, down from `high`. If there is no `high`, it goes down from the last key. Both ends
/// belong to the range, but `strict` leaves out the end where the walk begins.
#[derive(Clone, Copy)]
pub struct Way<'a> {
    pub low: &'a [u8],
    pub high: Option<&'a [u8]>,
    pub strict: bool,
    pub back: bool,
}

/// A position among a tree's pairs, from which a walk continues in its direction. It is valid as
/// long as the tree's pages keep their words.
#[derive(Drop)]
pub struct Walk {
    back: bool,
    rising: Cursor,
    falling: BackCursor,
}

/// A leaf that a walk has reached. The walk continues with the items from `at` on, or, if `back` is
/// set, with the items before it.
#[derive(Clone, Copy)]
pub struct Leaf {
    pub page: u64,
    pub at: usize,
    pub back: bool,
}

impl Walk {
    /// Creates a walk at the beginning of a way. It costs one descent.
    pub fn begin<L: Look>(look: &mut L, root: u64, way: Way<'_>) -> Walk
        requires tree { IsTree (L.page_state look.old) (L.words look.old) root }
        ensures walk { IsWalk (L.page_state look.old) (L.words look.old) result }
        ensures back { result.back ≡ way.entry.back }
        ensures ahead { ahead (L.words look.old) result
            ≡ begun way.entry (pairs (L.words look.old) root) }
        ensures unchanged { IsUnchanged L.kept L.page_state L.words look.old look.new }
    {
        let mut walk = Walk {
            back: way.back,
            rising: Cursor::new(),
            falling: BackCursor::new(),
        };
        if way.back {
            walk.falling.seek(look, root, way.high, way.strict);
            return walk;
        }
        walk.rising.seek(look, root, way.low, way.strict);
        walk
    }

    /// Returns the leaf of the next pair, and steps past all of the leaf's pairs that were still
    /// ahead.
    pub fn step_leaf<L: Look>(&mut self, look: &mut L) -> Option<Leaf>
        requires walk { IsWalk (L.page_state look.old) (L.words look.old) self.old }
        ensures none { IfNone result (ahead (L.words look.old) self.old ≡ []) }
        ensures leaf { IfSome result (λ leaf. IsLeaf (L.page_state look.old) (L.words look.old)
            leaf) }
        ensures turned { IfSome result (λ leaf. leaf.back ≡ self.old.back) }
        ensures some { IfSome result (λ leaf. 0 < length (items_ahead (L.words look.old) leaf)) }
        ensures parts { IfSome result (λ leaf. ahead (L.words look.old) self.old
            ≡ items_ahead (L.words look.old) leaf ++ ahead (L.words look.old) self.new) }
        ensures back { self.new.back ≡ self.old.back }
        ensures walk { IsWalk (L.page_state look.old) (L.words look.old) self.new }
        ensures unchanged { IsUnchanged L.kept L.page_state L.words look.old look.new }
    {
        if self.back {
            let (page, at) = self.falling.step_leaf(look)?;
            return Some(Leaf {
                page,
                at,
                back: true,
            });
        }
        let (page, at) = self.rising.step_leaf(look)?;
        Some(Leaf {
            page,
            at,
            back: false,
        })
    }
}

impl Leaf {
    /// Returns how many of the leaf's items the walk has ahead.
    #[inline(always)]
    pub fn count<L: Look>(self, look: &mut L) -> usize
        requires leaf { IsLeaf (L.page_state look.old) (L.words look.old) self }
        ensures count { result ≡ length (items_ahead (L.words look.old) self) }
        ensures unchanged { IsUnchanged L.kept L.page_state L.words look.old look.new }
    {
        if self.back {
            return self.at;
        }
        look.word(self.page, 1) as usize - self.at
    }

    /// Returns the place of one of the items that the walk has ahead, given its number among them.
    #[inline(always)]
    pub fn place(self, i: usize) -> usize
        requires { IsAhead self i }
        ensures { result ≡ item_place (number_ahead self i) }
    {
        if self.back {
            return HEADER_WORDS + ITEM_WORDS * (self.at - 1 - i);
        }
        HEADER_WORDS + ITEM_WORDS * (self.at + i)
    }
}
