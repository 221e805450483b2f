//! Trees in a room of few pages: the number of pages that they take, and what is left when a room
//! is full. There is also a test of equal values in one index.
ghost use Rattle.std.specs.Prelude.{◌≡◌, ◌<◌, ◌≤◌, IfOk, OnErr};
ghost use Rattle.be_pages.specs.declared.room.PageState.TheVariants.{Free};
ghost use Rattle.be_pages.specs.Pages.{IsUnchanged};
ghost use Rattle.be_tree_reading.specs.Forest.{IsWriteStart};
ghost use Rattle.be_tree_reading.specs.Tree.{IsTree};

use super::counting_look::{finds, ranges, room_of};
use super::lines::{first_number, replies};
use be_pages::{Look, VecRoom};
use be_tree::{Cursor, insert, remove};
use be_value::Refusal;
use std::alloc::Global;
use std::test::Fail;

/// Inserts a number's key. Keeps the write, or undoes it if the key is refused.
pub(crate) fn put_number(room: &mut VecRoom, root: u64, i: u64) -> Result<u64, Refusal>
    requires tree { IsTree (⟦<VecRoom as Look>⟧.page_state room.old)
        (⟦<VecRoom as Look>⟧.words room.old) root }
    requires start { IsWriteStart (⟦<VecRoom as Look>⟧.page_state room.old) }
    ensures ok { IfOk result (λ new. IsTree (⟦<VecRoom as Look>⟧.page_state room.new)
        (⟦<VecRoom as Look>⟧.words room.new) new) }
    ensures err { OnErr result (IsTree (⟦<VecRoom as Look>⟧.page_state room.new)
        (⟦<VecRoom as Look>⟧.words room.new) root) }
    ensures start { IsWriteStart (⟦<VecRoom as Look>⟧.page_state room.new) }
{
    match insert(room, root, &i.to_be_bytes(), &i.to_le_bytes()) {
        Ok(new) => {
            room.keep();
            Ok(new)
        }
        Err(refusal) => {
            room.undo();
            Err(refusal)
        }
    }
}

/// Inserts the numbers below `to` in order, each in a write that is kept. Returns the root, and the
/// first number that was refused, or `to` if none was.
fn put_numbers(room: &mut VecRoom, root: u64, to: u64) -> (u64, u64)
    requires tree { IsTree (⟦<VecRoom as Look>⟧.page_state room.old)
        (⟦<VecRoom as Look>⟧.words room.old) root }
    requires start { IsWriteStart (⟦<VecRoom as Look>⟧.page_state room.old) }
    ensures tree { IsTree (⟦<VecRoom as Look>⟧.page_state room.new)
        (⟦<VecRoom as Look>⟧.words room.new) result.0 }
    ensures start { IsWriteStart (⟦<VecRoom as Look>⟧.page_state room.new) }
{
    let mut root = root;
    for i in 0..to {
        match put_number(room, root, i) {
            Ok(new) => root = new,
            Err(_) => return (root, i),
        }
    }
    (root, to)
}

/// Removes the numbers below `to` in order, each in a write that is kept.
fn take_numbers(room: &mut VecRoom, root: u64, to: u64) -> Result<u64, Refusal>
    requires tree { IsTree (⟦<VecRoom as Look>⟧.page_state room.old)
        (⟦<VecRoom as Look>⟧.words room.old) root }
    ensures tree { IfOk result (λ new. IsTree (⟦<VecRoom as Look>⟧.page_state room.new)
        (⟦<VecRoom as Look>⟧.words room.new) new) }
{
    let mut root = root;
    for i in 0..to {
        root = remove(room, root, &i.to_be_bytes())?;
        room.keep();
    }
    Ok(root)
}

/// The number of free pages after the numbers below a count were inserted. Returns an error if a
/// walk doesn't return them in order.
pub(crate) fn free_with(alloc: Global, line: &str) -> Result<String, Refusal> {
    let (pages, numbers) = first_number(line);
    let (count, _) = first_number(numbers);
    let mut room = room_of(alloc, pages)?;
    let (root, accepted) = put_numbers(&mut room, 0, count);
    if accepted != count || !ranges(&mut room, root, count) {
        return Err(Refusal::Full(accepted));
    }
    let free = room.free();
    Ok(format!(in alloc; "{free}")?)
}

/// The root, and the number of free pages, after the numbers below a count were inserted and
/// removed again.
pub(crate) fn free_without(alloc: Global, line: &str) -> Result<String, Refusal> {
    let (pages, numbers) = first_number(line);
    let (count, _) = first_number(numbers);
    let mut room = room_of(alloc, pages)?;
    let (root, accepted) = put_numbers(&mut room, 0, count);
    let root = take_numbers(&mut room, root, accepted)?;
    let free = room.free();
    Ok(format!(in alloc; "{accepted} taken, root {root}, {free} free")?)
}

/// Twelve pairs fit into one page. Adding the thirteenth splits it into two leaves below an inner
/// page. Ascending keys fill their pages: 600 pairs take 50 leaves with 12 pairs each, five pages
/// above them, and the root.
#[test]
fn tree_pages(rt: HostRuntime) -> Result<(), Fail> {
    let lines = "free 16 1 => 15
free 16 12 => 15
free 16 13 => 13
free 128 600 => 72
emptied 16 13 => 13 taken, root 0, 16 free";
    replies(rt.alloc(), lines)
}

/// The limits of a room.
#[test]
fn limits(rt: HostRuntime) -> Result<(), Fail> {
    let lines = "free 0 0 => refused 21 BadLimits
free 7 0 => refused 21 BadLimits
free 16385 0 => refused 21 BadLimits
free 16384 0 => 16384";
    replies(rt.alloc(), lines)
}

/// A room of eight pages accepts at least 20 and at most 60 ascending keys. The next key is
/// refused, and its write is undone, so the earlier pairs are still there.
#[test]
fn full_tree(rt: HostRuntime) -> Result<(), Fail> {
    let mut room = room_of(rt.alloc(), 8)?;
    let (root, accepted) = put_numbers(&mut room, 0, 61);
    assert!(rt; accepted >= 20 && accepted < 61);
    assert_eq!(rt;
        put_number(&mut room, root, accepted),
        Err(Refusal::Full(0))
    );
    assert!(rt; finds(&mut room, root, accepted));
    assert!(rt; ranges(&mut room, root, accepted));
    Ok(())
}

/// The key of the string `x` and a node, in an index.
fn value_key(node: u8) -> [u8; 10] {
    let mut key = *b"x\0\0\0\0\0\0\0\0\0";
    key[9] = node;
    key
}

/// Inserts the keys of nodes, and returns the root.
fn put_nodes(room: &mut VecRoom, nodes: &[u8]) -> Result<u64, Refusal>
    ensures tree { IfOk result (λ root. IsTree (⟦<VecRoom as Look>⟧.page_state room.new)
        (⟦<VecRoom as Look>⟧.words room.new) root) }
{
    let mut root = 0;
    for node in nodes {
        root = insert(room, root, &value_key(*node), &[])?;
    }
    Ok(root)
}

/// Whether the tree has exactly the keys of these nodes, in this order, from the string `x` onward.
fn has_nodes<L: Look>(look: &mut L, root: u64, nodes: &[u8]) -> bool
    requires { IsTree (L.page_state look.old) (L.words look.old) root }
    ensures { IsUnchanged L.kept L.page_state L.words look.old look.new }
{
    let mut cursor = Cursor::new();
    cursor.seek(look, root, b"x\0", false);
    for node in nodes {
        match cursor.next_key(look) {
            Some(key) if &key[..] == &value_key(*node)[..] => {}
            _ => return false,
        }
    }
    cursor.next_key(look).is_none()
}

/// One value at three nodes has three keys. One of them is removed.
#[test]
fn equal_values(rt: HostRuntime) -> Result<(), Fail> {
    let mut room = room_of(rt.alloc(), 8)?;
    let root = put_nodes(&mut room, &[1, 2, 3])?;
    assert!(rt; has_nodes(&mut room, root, &[1, 2, 3]));
    let root = remove(&mut room, root, &value_key(2))?;
    assert!(rt; has_nodes(&mut room, root, &[1, 3]));
    Ok(())
}
