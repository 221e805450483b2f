//! Removes a key from a tree.
//!
//! # Neighbours
//! A page that is left with fewer than six items is rewritten together with a neighbour under the
//! same parent. The neighbour is the next page if there is one. The items of both go to one page if
//! they fit, otherwise to two. So no page is left with too few items, and sparse pages are merged.
//! A removal writes at most two pages per level.
//!
//! # Absent keys
//! Nothing is written on the way down, so if the key isn't in the leaf, nothing has changed.
ghost use Rattle.std.specs.Prelude.{◌≡◌, IfOk, OnErr, IfErr, IsTrue, None, Ok};
ghost use Rattle.be_pages.specs.Pages.{IsUnchanged, KeepsStart};
ghost use Rattle.be_pages.specs.Refusal.{IsFullOf};
ghost use Rattle.be_tree.specs.Counting.{Takes, most_taken};
ghost use Rattle.be_tree_reading.specs.Key.{payload_at, without};
ghost use Rattle.be_tree_reading.specs.Tree.{BecomesTree, IsTree, level_of_root, pages, pairs};

use crate::path::{Path, find_path};
use crate::taking::take_out;
use be_pages::Room;
use be_value::Refusal;

/// Removes a key from a tree, and returns the new root. If the key is absent, the root is the same
/// and no page is taken. After an error, undoing the write restores the tree.
pub fn remove<R: Room>(room: &mut R, root: u64, key: &[u8]) -> Result<u64, Refusal>
    requires tree { IsTree (R.page_state room.old) (R.words room.old) root }
    requires open { IsTrue (R.is_open (R.kept room.old)) }
    ensures ok { IfOk result (λ new. BecomesTree R.kept R.page_state R.words
        (pages (R.words room.old) root)
        (without key.now (pairs (R.words room.old) root)) new room.old room.new) }
    ensures absent { payload_at (pairs (R.words room.old) root) key.now ≡ None → result ≡ Ok root }
    ensures still { payload_at (pairs (R.words room.old) root) key.now ≡ None
        → IsUnchanged R.kept R.page_state R.words room.old room.new }
    ensures err { OnErr result (KeepsStart R.kept R.page_state R.words room.old room.new) }
    ensures full { IfErr result (IsFullOf (R.full room.new)) }
    ensures takes { Takes (most_taken (level_of_root (R.words room.old) root)) result
        (R.page_state room.old) (R.page_state room.new) }
{
    if root == 0 {
        return Ok(root);
    }
    let mut path = Path::new();
    find_path(room, root, key, &mut path);
    match path.place {
        Ok(at) => take_out(room, root, key, &path, at),
        Err(_) => Ok(root),
    }
}
