//! Inserts a pair where a path leads.
ghost use Rattle.std.specs.Prelude.{◌≡◌, ◌≤◌, IsTrue, Ok, Err, length};
ghost use Rattle.be_tree.specs.Counting.{most_taken};
ghost use Rattle.be_tree.specs.Path.{IsPathFor, IsPathTo, PutsInto};
ghost use Rattle.be_tree.specs.Writing.{Refuses};

use crate::item::Item;
use crate::path::{NewRoot, Path};
use crate::rising::{Edit, change_leaf};
use crate::settling::settle;
use crate::siblings::count_of;
use crate::slot::Slot;
use crate::splicing::Cut;
use crate::storing::fill_slots;
use arrayvec::ArrayVec;
use be_pages::Room;
use be_tree_reading::MOST_ITEMS;

/// Inserts a pair where a path to its key leads, and returns the new root.
pub(crate) fn put_on<R: Room>(room: &mut R, root: u64, path: &Path, pair: &Item) -> NewRoot
    requires path { IsPathTo (R.page_state room.old) (R.words room.old) root pair.now.key path.now }
    requires key_fits { length pair.now.key ≤ 264 }
    requires open { IsTrue (R.is_open (R.kept room.old)) }
    ensures ok { PutsInto R.kept R.page_state R.words root pair.now result room.old room.new }
    ensures refused { Refuses R.kept R.page_state R.words R.full
        (most_taken (length path.now.above.items)) result room.old room.new }
{
    match path.place {
        Ok(at) => put_over(room, root, path, at, pair),
        Err(at) => put_in(room, root, path, at, pair),
    }
}

/// Replaces the pair that has this key.
fn put_over<R: Room>(room: &mut R, root: u64, path: &Path, at: usize, pair: &Item) -> NewRoot
    requires path { IsPathFor R.page_state R.words room.old root pair.now path.now (Ok at) }
    requires open { IsTrue (R.is_open (R.kept room.old)) }
    ensures ok { PutsInto R.kept R.page_state R.words root pair.now result room.old room.new }
    ensures refused { Refuses R.kept R.page_state R.words R.full
        (most_taken (length path.now.above.items)) result room.old room.new }
{
    let edit = Edit {
        cut: Cut { at, gone: 1 },
        same_minimum: true,
    };
    change_leaf(room, root, path, edit, &[Slot::New], pair)
}

/// Inserts a pair between two others if no pair has its key.
fn put_in<R: Room>(room: &mut R, root: u64, path: &Path, at: usize, pair: &Item) -> NewRoot
    requires path { IsPathFor R.page_state R.words room.old root pair.now path.now (Err at) }
    requires open { IsTrue (R.is_open (R.kept room.old)) }
    ensures ok { PutsInto R.kept R.page_state R.words root pair.now result room.old room.new }
    ensures refused { Refuses R.kept R.page_state R.words R.full
        (most_taken (length path.now.above.items)) result room.old room.new }
{
    if count_of(room, path.leaf) == MOST_ITEMS {
        return overflow(room, root, path, at, pair);
    }
    let edit = Edit {
        cut: Cut { at, gone: 0 },
        same_minimum: at > 0,
    };
    change_leaf(room, root, path, edit, &[Slot::New], pair)
}

/// Inserts a pair into a full leaf.
#[inline(never)]
fn overflow<R: Room>(room: &mut R, root: u64, path: &Path, at: usize, pair: &Item) -> NewRoot
    requires path { IsPathFor R.page_state R.words room.old root pair.now path.now (Err at) }
    requires full { R.words room.old path.now.leaf 1 ≡ 12 }
    requires open { IsTrue (R.is_open (R.kept room.old)) }
    ensures ok { PutsInto R.kept R.page_state R.words root pair.now result room.old room.new }
    ensures refused { Refuses R.kept R.page_state R.words R.full
        (most_taken (length path.now.above.items)) result room.old room.new }
{
    let mut slots = ArrayVec::new();
    fill_slots(room, path.leaf, &mut slots);
    slots.insert(at, Slot::New);
    settle(room, root, &path.above, path.leaf, slots, pair)
}
