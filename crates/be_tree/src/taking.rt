//! Removes the item that a path leads to.
ghost use Rattle.std.specs.Prelude.{◌≡◌, IsTrue, Ok, length};
ghost use Rattle.be_tree.specs.Counting.{most_taken};
ghost use Rattle.be_tree.specs.Path.{IsPathAt, TakesOut, minimum_at};
ghost use Rattle.be_tree.specs.Writing.{Refuses};

use crate::item::Item;
use crate::path::{NewRoot, Path, Step};
use crate::rising::{Edit, change_leaf};
use crate::settling::settle;
use crate::siblings::count_of;
use crate::splicing::Cut;
use crate::storing::fill_slots;
use arrayvec::ArrayVec;
use be_pages::Room;
use be_tree_reading::MINIMUM_ITEMS;

/// Removes the item that a path leads to, which is number `at` of its leaf, and returns the new
/// root.
pub(crate) fn take_out<R: Room>(
    room: &mut R,
    root: u64,
    key: &[u8],
    path: &Path,
    at: usize,
) -> NewRoot
    requires path { IsPathAt R.page_state R.words room.old root key.now path.now (Ok at) }
    requires open { IsTrue (R.is_open (R.kept room.old)) }
    ensures ok { TakesOut R.kept R.page_state R.words root key.now result room.old room.new }
    ensures refused { Refuses R.kept R.page_state R.words R.full
        (most_taken (length path.now.above.items)) result room.old room.new }
{
    if count_of(room, path.leaf) <= minimum_of_leaf(&path.above) {
        return underflow(room, root, key, path, at);
    }
    let none = Item::new(&[], &[]);
    let edit = Edit {
        cut: Cut { at, gone: 1 },
        same_minimum: at > 0,
    };
    change_leaf(room, root, path, edit, &[], &none)
}

/// Removes an item from a leaf that has only the minimum number of items.
#[inline(never)]
fn underflow<R: Room>(room: &mut R, root: u64, key: &[u8], path: &Path, at: usize) -> NewRoot
    requires path { IsPathAt R.page_state R.words room.old root key.now path.now (Ok at) }
    requires open { IsTrue (R.is_open (R.kept room.old)) }
    ensures ok { TakesOut R.kept R.page_state R.words root key.now result room.old room.new }
    ensures refused { Refuses R.kept R.page_state R.words R.full
        (most_taken (length path.now.above.items)) result room.old room.new }
{
    let none = Item::new(&[], &[]);
    let mut slots = ArrayVec::new();
    fill_slots(room, path.leaf, &mut slots);
    slots.remove(at);
    settle(room, root, &path.above, path.leaf, slots, &none)
}

/// Returns the minimum number of items of a leaf below these pages.
fn minimum_of_leaf(above: &[Step]) -> usize
    ensures { result ≡ minimum_at above.now 0 }
{
    if above.len() == 0 { 1 } else { MINIMUM_ITEMS }
}
