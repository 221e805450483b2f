//! Inserts a pair into a tree.
//!
//! # Full pages
//! A full leaf shares its items with its left neighbour, which takes all that it can hold. If the
//! neighbour is full too, the leaf is split. The first of the two pages takes all that it can hold,
//! but leaves at least six items for the second. An inner page that gains one branch too many is
//! treated the same way. So ascending keys produce full pages. An insertion writes at most two
//! pages per level, and three at the root.
ghost use Rattle.std.specs.Prelude.{◌+◌, ◌≤◌, length, IfOk, OnErr, IfErr, IsTrue};
ghost use Rattle.be_pages.specs.Pages.{KeepsStart};
ghost use Rattle.be_pages.specs.Refusal.{IsFullOf};
ghost use Rattle.be_tree.specs.Counting.{Takes, most_taken};
ghost use Rattle.be_tree_reading.specs.Key.{put};
ghost use Rattle.be_tree_reading.specs.Tree.{BecomesTree, IsTree, level_of_root, pairs, pages};

use crate::inserting::put_on;
use crate::item::Item;
use crate::path::{Path, find_path};
use crate::slot::Slot;
use crate::writing::write_first_root;
use be_pages::Room;
use be_value::Refusal;

/// Inserts a pair into a tree, replacing any pair with the same key, and returns the new root. The
/// old tree's pages that the new one doesn't share are given up; those that this write had taken
/// earlier may be overwritten. After an error, undoing the write restores the tree.
pub fn insert<R: Room>(room: &mut R, root: u64, key: &[u8], payload: &[u8]) -> Result<u64, Refusal>
    requires tree { IsTree (R.page_state room.old) (R.words room.old) root }
    requires key_fits { length key.now ≤ 264 }
    requires fits { length key.now + length payload.now ≤ 328 }
    requires open { IsTrue (R.is_open (R.kept room.old)) }
    ensures ok { IfOk result (λ new. BecomesTree R.kept R.page_state R.words
        (pages (R.words room.old) root)
        (put (record { key = key.now; payload = payload.now }) (pairs (R.words room.old) root)) new
        room.old room.new) }
    ensures err { OnErr result (KeepsStart R.kept R.page_state R.words room.old room.new) }
    ensures full { IfErr result (IsFullOf (R.full room.new)) }
    ensures takes { Takes (most_taken (level_of_root (R.words room.old) root)) result
        (R.page_state room.old) (R.page_state room.new) }
{
    let pair = Item::new(key, payload);
    if root == 0 {
        return write_first_root(room, &[Slot::New], &pair);
    }
    let mut path = Path::new();
    find_path(room, root, pair.key(), &mut path);
    put_on(room, root, &path, &pair)
}
