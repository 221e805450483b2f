//! Gives up a tree, page by page.
ghost use Rattle.std.specs.Prelude.{◌≡◌, [], IsTrue};
ghost use Rattle.be_pages.specs.Pages.{Swaps};
ghost use Rattle.be_tree_reading.specs.Page.{items_of};
ghost use Rattle.be_tree_reading.specs.Tree.{IsTree, IsTreeAt, pages, pages_at, pages_below};

use be_pages::Room;
use be_tree_reading::{HEADER_WORDS, ITEM_WORDS, child_at};

/// Gives up each page of a tree. A page that existed when the write began keeps its words until the
/// write is kept, so undoing the write restores the tree. It gives up each page once, reads the
/// inner pages, and takes no pages.
pub fn clear<R: Room>(room: &mut R, root: u64)
    requires tree { IsTree (R.page_state room.old) (R.words room.old) root }
    requires open { IsTrue (R.is_open (R.kept room.old)) }
    ensures pages { Swaps R.kept R.page_state R.words (pages (R.words room.old) root) [] room.old
        room.new }
    ensures words { R.words room.new ≡ R.words room.old }
{
    if root == 0 {
        return;
    }
    let page = root - 1;
    let level = room.word(page, 0);
    clear_page(room, level, page);
}

/// Gives up a page and all pages below it.
#[cycle(clear)]
fn clear_page<R: Room>(room: &mut R, level: u64, page: u64)
    requires tree { IsTreeAt level 1 (R.page_state room.old) (R.words room.old) page }
    requires open { IsTrue (R.is_open (R.kept room.old)) }
    ensures pages { Swaps R.kept R.page_state R.words (pages_at level (R.words room.old) page) []
        room.old room.new }
    ensures words { R.words room.new ≡ R.words room.old }
{
    clear_below(room, level, page);
    room.give_up(page);
}

/// Gives up all pages below a page.
#[cycle(clear)]
fn clear_below<R: Room>(room: &mut R, level: u64, page: u64)
    requires tree { IsTreeAt level 1 (R.page_state room.old) (R.words room.old) page }
    requires open { IsTrue (R.is_open (R.kept room.old)) }
    ensures pages { Swaps R.kept R.page_state R.words
        (pages_below level (R.words room.old) (items_of (R.words room.old page))) [] room.old
        room.new }
    ensures words { R.words room.new ≡ R.words room.old }
{
    if level == 0 {
        return;
    }
    let count = room.word(page, 1) as usize;
    for j in 0..count {
        let child = child_at(room, page, HEADER_WORDS + ITEM_WORDS * j);
        clear_page(room, level - 1, child);
    }
}
