//! Lookups and walks work with any page reader. Here the reader owns a room and counts the words
//! that it reads.
ghost use Rattle.std.specs.Prelude.{◌≡◌, ℕ, IfOk, IsTrue, OnOk};
ghost use Rattle.be_pages.specs.declared.room.PageState.TheVariants.{Free};
ghost use Rattle.be_pages.specs.Pages.{IsUnchanged};
ghost use Rattle.be_tree_reading.specs.Tree.{IsTree};

use be_pages::{Look, Room, VecRoom};
use be_test_tools::Counted;
use be_tree::{Cursor, clear, find, has_key, insert, range};
use be_value::Refusal;
use std::alloc::Global;
use std::test::Fail;

/// A page writer in memory. If the first call runs out of memory, it is repeated.
pub(crate) fn room_of(alloc: Global, pages: u64) -> Result<VecRoom, Refusal>
    ensures { IfOk result (λ r. (q : ℕ) → ⟦<VecRoom as Look>⟧.page_state r q ≡ Free) }
{
    match VecRoom::new(alloc, pages) {
        Err(Refusal::OutOfMemory) => VecRoom::new(alloc, pages),
        answer => answer,
    }
}

/// Inserts the numbers below `count` in order, and returns the root.
fn filled<R: Room>(room: &mut R, count: u64) -> Result<u64, Refusal>
    requires { IsTrue (R.is_open (R.kept room.old)) }
    ensures tree { IfOk result (λ root. IsTree (R.page_state room.new) (R.words room.new) root) }
    ensures kept { OnOk result (R.kept room.new ≡ R.kept room.old) }
{
    let mut root = 0;
    for i in 0..count {
        root = insert(room, root, &i.to_be_bytes(), &i.to_le_bytes())?;
    }
    Ok(root)
}

/// Whether each number below `count` is found with its payload, and `count` itself isn't found.
pub(crate) fn finds<L: Look>(look: &mut L, root: u64, count: u64) -> bool
    requires { IsTree (L.page_state look.old) (L.words look.old) root }
    ensures { IsUnchanged L.kept L.page_state L.words look.old look.new }
{
    for i in 0..count {
        match find(look, root, &i.to_be_bytes()) {
            Some(payload) if &payload[..] == &i.to_le_bytes()[..] => {}
            _ => return false,
        }
        if !has_key(look, root, &i.to_be_bytes()) {
            return false;
        }
    }
    !has_key(look, root, &count.to_be_bytes())
}

/// Whether `range` returns the numbers below `count` in order, and nothing else.
pub(crate) fn ranges<L: Look>(look: &mut L, root: u64, count: u64) -> bool
    requires { IsTree (L.page_state look.old) (L.words look.old) root }
    ensures { IsUnchanged L.kept L.page_state L.words look.old look.new }
{
    let mut from = [0; 8];
    let mut after = false;
    for i in 0..count {
        match range(look, root, &from, after) {
            Some(item) if &item.key[..] == &i.to_be_bytes()[..] => {}
            _ => return false,
        }
        from = i.to_be_bytes();
        after = true;
    }
    range(look, root, &from, after).is_none()
}

/// Whether a cursor returns the numbers below `count` in order, and nothing else.
fn steps<L: Look>(look: &mut L, root: u64, count: u64) -> bool
    requires { IsTree (L.page_state look.old) (L.words look.old) root }
    ensures { IsUnchanged L.kept L.page_state L.words look.old look.new }
{
    let mut cursor = Cursor::new();
    cursor.seek(look, root, &[], false);
    for i in 0..count {
        match cursor.next(look) {
            Some(item) if &item.key[..] == &i.to_be_bytes()[..] => {}
            _ => return false,
        }
    }
    cursor.next_key(look).is_none()
}

/// A hundred pairs need two levels. A lookup reads about forty words; a step reads one word plus
/// those of the pair.
#[test]
fn counting_look(rt: HostRuntime) -> Result<(), Fail> {
    let mut room = room_of(rt.alloc(), 64)?;
    let root = filled(&mut room, 100)?;
    let mut look = Counted::new(room);
    assert!(rt; finds(&mut look, root, 100));
    let found = look.reads;
    assert!(rt; found < 201 * 50);
    assert!(rt; ranges(&mut look, root, 100));
    let ranged = look.reads;
    assert!(rt; ranged < found + 101 * 50);
    assert!(rt; steps(&mut look, root, 100));
    assert!(rt; look.reads < ranged + 101 * 8);
    let mut room = look.pages;
    clear(&mut room, root);
    assert_eq!(rt; room.free(), 64);
    Ok(())
}
