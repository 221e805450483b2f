//! Estimates how many keys a range has.
//!
//! Two paths go down side by side, from the root to the two ends of the range. On each level the
//! items between them are counted: those on the two pages that the paths are on, plus, for each
//! page in between, the average of these two pages' counts.
ghost use Rattle.std.specs.Prelude.{ℕ, ◌-◌, ◌<◌, IsTrue};
ghost use Rattle.be_pages.specs.Pages.{IsUnchanged, is_readable};
ghost use Rattle.be_tree_reading.specs.Page.{IsPage};
ghost use Rattle.be_tree_reading.specs.Tree.{IsTree, IsTreeAt};

use crate::cursor::leaf_from;
use crate::lookup::{branch_in, item_number};
use crate::page::{HEADER_WORDS, ITEM_WORDS, child_at, first_word};
use be_pages::Look;

/// A position on a page: how many of the page's items come before it, and how many the page has in
/// all.
#[derive(Clone, Copy)]
struct End {
    before: u64,
    count: u64,
}

/// Estimates how many keys of a tree are between `low` and `high`, both included; without `high`,
/// up to the last key. It costs two descents, and is exact for a range within one leaf. No contract
/// says how close the estimate is.
pub fn about_within<L: Look>(look: &mut L, root: u64, low: &[u8], high: Option<&[u8]>) -> u64
    requires tree { IsTree (L.page_state look.old) (L.words look.old) root }
    ensures unchanged { IsUnchanged L.kept L.page_state L.words look.old look.new }
{
    if root == 0 {
        return 0;
    }
    let mut left = root - 1;
    let mut right = root - 1;
    let mut apart = 0;
    let mut level = look.word(root - 1, 0);
    while level > 0 {
        let (low_page, low_end) = step_down(look, left, Some(low));
        let (high_page, high_end) = step_down(look, right, high);
        apart = apart_by(apart, low_end, high_end);
        left = low_page;
        right = high_page;
        level -= 1;
    }
    let low_end = end_in(look, left, Some(low), false);
    let high_end = end_in(look, right, high, true);
    apart_by(apart, low_end, high_end)
}

/// Returns how many items are between two positions whose pages are this many pages apart.
fn apart_by(apart: u64, from: End, to: End) -> u64 {
    if apart == 0 {
        return to.before.saturating_sub(from.before);
    }
    let average = from.count.saturating_add(to.count) / 2;
    let between = (apart - 1).saturating_mul(average);
    let after = from.count.saturating_sub(from.before);
    between.saturating_add(after).saturating_add(to.before)
}

/// Returns the page below the branch that leads to a key, and the branch's position. Without a key,
/// it takes the last branch.
fn step_down<L: Look>(look: &mut L, page: u64, key: Option<&[u8]>) -> (u64, End)
    requires inner { (level : ℕ) × ((least : ℕ) × ((0 < level) × ((0 < least)
        × IsTreeAt level least (L.page_state look.old) (L.words look.old) page))) }
    ensures below { (level least : ℕ) → 0 < level → 0 < least
        → IsTreeAt level least (L.page_state look.old) (L.words look.old) page
        → IsTreeAt (level - 1) 1 (L.page_state look.old) (L.words look.old) result.0 }
    ensures unchanged { IsUnchanged L.kept L.page_state L.words look.old look.new }
{
    let count = look.word(page, 1);
    let number = branch_to(look, page, key);
    let child = child_at(look, page, HEADER_WORDS + ITEM_WORDS * number);
    let end = End {
        before: number as u64,
        count,
    };
    (child, end)
}

/// Returns the number of the branch that leads to a key, or of the last branch if there is no key.
fn branch_to<L: Look>(look: &mut L, page: u64, key: Option<&[u8]>) -> usize
    requires readable { IsTrue (is_readable (L.page_state look.old page)) }
    requires page { IsPage (L.words look.old page) }
    requires some { 0 < L.words look.old page 1 }
    ensures in_range { result < L.words look.old page 1 }
    ensures unchanged { IsUnchanged L.kept L.page_state L.words look.old look.new }
{
    let Some(key) = key else {
        return look.word(page, 1) as usize - 1;
    };
    let at = branch_in(look, page, key, first_word(key));
    item_number(at)
}

/// Returns the position in a leaf just before the first key at or after a given key; if `after` is
/// set, strictly after it. Without a key, returns the leaf's end.
fn end_in<L: Look>(look: &mut L, page: u64, key: Option<&[u8]>, after: bool) -> End
    requires leaf { IsTreeAt 0 1 (L.page_state look.old) (L.words look.old) page }
    ensures unchanged { IsUnchanged L.kept L.page_state L.words look.old look.new }
{
    let count = look.word(page, 1);
    let Some(key) = key else {
        return End {
            before: count,
            count,
        };
    };
    let before = leaf_from(look, page, key, first_word(key), after) as u64;
    End { before, count }
}
