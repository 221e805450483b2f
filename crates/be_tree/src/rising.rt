//! Changes the pages above a changed page as far as necessary.
//!
//! A page that is copied gets a new number, so the branch to it changes. If a page's lowest key
//! changes, the branch above it must get the new key. If neither happens, the pages above are left
//! unchanged.
ghost use Rattle.std.specs.Prelude.{◌≡◌, ◌+◌, ◌<◌, ◌⊎◌, IfOk, IsTrue, length, true};
ghost use Rattle.be_tree_reading.specs.Page.{items_of, level_of};
ghost use Rattle.be_tree.specs.Path.{IsChanged, IsEdit, IsWayIn, whole};
ghost use Rattle.be_tree.specs.Slot.{pairs_of};
ghost use Rattle.be_tree.specs.Splicing.{CanBeSpliced, spliced};
ghost use Rattle.be_tree_reading.specs.Tree.{BecomesTree, pages, pairs_at};
ghost use Rattle.be_tree.specs.Writing.{Refuses};

use crate::item::Item;
use crate::path::{Path, Step};
use crate::slot::Slot;
use crate::splicing::{Cut, splice};
use be_pages::Room;
use be_value::Refusal;

/// A changed page of a tree.
#[derive(Clone, Copy)]
pub(crate) struct Changed {
    /// The page before the change.
    pub(crate) was: u64,
    /// The page that now has the items: the same page, or its copy.
    pub(crate) page: u64,
    /// Whether the lowest key below it is known to be unchanged.
    pub(crate) same_minimum: bool,
}

/// Returns `true` if the lowest key below a page is known to be unchanged after the child of branch
/// `at` was changed.
fn keeps_minimum(child: Changed, at: usize) -> bool
    ensures { result ≡ true → (0 < at) ⊎ (child.same_minimum ≡ true) }
{
    child.same_minimum || at > 0
}

/// Writes the branch to a changed page, then, from the bottom up, the branches to the pages above
/// that change with it, and returns the new root. If a page was changed in place and its lowest key
/// is the same, nothing above it changes.
pub(crate) fn rise<R: Room>(
    room: &mut R,
    root: u64,
    above: &[Step],
    changed: Changed,
) -> Result<u64, Refusal>
    requires changed { (start : R) × IsChanged R.kept R.page_state R.words root above.now changed
        (level_of (R.words start changed.was)) start room.old }
    requires open { IsTrue (R.is_open (R.kept room.old)) }
    ensures ok { IfOk result (λ new. (start : R)
        → IsChanged R.kept R.page_state R.words root above.now changed
        (level_of (R.words start changed.was)) start room.old
        → BecomesTree R.kept R.page_state R.words (pages (R.words start) root)
        (whole (R.words start) above.now (pairs_at (level_of (R.words start changed.was))
        (R.words room.old) changed.page)) new start room.new) }
    ensures refused { Refuses R.kept R.page_state R.words R.full (length above.now) result
        room.old room.new }
{
    let none = Item::new(&[], &[]);
    let mut below = changed;
    for i in 0..above.len() {
        if below.page == below.was && below.same_minimum {
            return Ok(root);
        }
        let step = above[above.len() - 1 - i];
        let cut = Cut {
            at: step.at,
            gone: 1,
        };
        let page = splice(
            room,
            step.page,
            cut,
            &[Slot::Branch(below.page as u32)],
            &none,
        )?;
        below = Changed {
            was: step.page,
            page,
            same_minimum: keeps_minimum(below, step.at),
        };
    }
    Ok(below.page + 1)
}

/// Which items of a leaf are left out, and whether its first key is known to be unchanged after
/// others replace them.
#[derive(Clone, Copy)]
pub(crate) struct Edit {
    pub(crate) cut: Cut,
    pub(crate) same_minimum: bool,
}

/// Replaces a cut of the leaf at the end of a path with slots, and returns the new root.
pub(crate) fn change_leaf<R: Room>(
    room: &mut R,
    root: u64,
    path: &Path,
    edit: Edit,
    slots: &[Slot],
    pair: &Item,
) -> Result<u64, Refusal>
    requires way { IsWayIn (R.page_state room.old) (R.words room.old) root path.now.above.items
        path.now.leaf }
    requires cut { CanBeSpliced (R.page_state room.old) (R.words room.old) path.now.leaf edit.cut
        pair.now slots.now }
    requires edit { IsEdit (R.words room.old) path.now.above.items path.now.leaf edit pair.now
        slots.now }
    requires open { IsTrue (R.is_open (R.kept room.old)) }
    ensures ok { IfOk result (λ new. BecomesTree R.kept R.page_state R.words
        (pages (R.words room.old) root)
        (whole (R.words room.old) path.now.above.items
        (spliced edit.cut (items_of (R.words room.old path.now.leaf))
        (pairs_of (R.words room.old) pair.now slots.now))) new room.old room.new) }
    ensures refused { Refuses R.kept R.page_state R.words R.full
        (length path.now.above.items + 1) result room.old room.new }
{
    let page = splice(room, path.leaf, edit.cut, slots, pair)?;
    let changed = Changed {
        was: path.leaf,
        page,
        same_minimum: edit.same_minimum,
    };
    rise(room, root, &path.above, changed)
}
