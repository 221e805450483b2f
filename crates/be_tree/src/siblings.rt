//! Helpers for neighbouring pages and lists of slots.
ghost use Rattle.std.specs.Prelude.{◌≡◌, ◌+◌, ◌≤◌, ◌++◌, length, IsTrue};
ghost use Rattle.be_pages.specs.Pages.{IsUnchanged, is_readable};
ghost use Rattle.be_tree_reading.specs.Page.{IsPage};

use crate::slot::Slot;
use arrayvec::ArrayVec;
use be_pages::Look;

/// Returns the number of items on a page.
pub(crate) fn count_of<L: Look>(look: &mut L, page: u64) -> usize
    requires readable { IsTrue (is_readable (L.page_state look.old page)) }
    requires page { IsPage (L.words look.old page) }
    ensures count { result ≡ L.words look.old page 1 }
    ensures unchanged { IsUnchanged L.kept L.page_state L.words look.old look.new }
{
    look.word(page, 1) as usize
}

/// Appends slots to a list.
pub(crate) fn append(slots: &mut ArrayVec<Slot, 24>, more: &[Slot])
    requires { length slots.old.items + length more.now ≤ 24 }
    ensures { slots.new.items ≡ slots.old.items ++ more.now }
{
    let _ = slots.try_extend_from_slice(more);
}
