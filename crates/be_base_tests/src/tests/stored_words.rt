//! The number of words that a write stores, as counted by its page writer.
ghost use Rattle.std.specs.Prelude.{◌≡◌, ℕ, ◌<◌, IfOk, IsTrue, OnOk};
ghost use Rattle.be_pages.specs.declared.room.PageState.TheVariants.{Free};
ghost use Rattle.be_tree_reading.specs.Tree.{IsTree};

use super::counting_look::room_of;
use super::lines::{first_number, replies};
use super::tree::put_number;
use be_pages::{Look, Room, VecRoom};
use be_test_tools::Counted;
use be_tree::{insert, remove};
use be_value::Refusal;
use std::alloc::Global;
use std::test::Fail;

/// The number of keys in the tree. Each key is 1,000 above the previous one.
const KEYS: u64 = 600;

/// Inserts the keys in an order that is far from ascending, each in a write that is kept. Returns
/// the root.
fn put_keys(room: &mut VecRoom) -> Result<u64, Refusal>
    requires { (q : ℕ) → ⟦<VecRoom as Look>⟧.page_state room.old q ≡ Free }
    ensures { IfOk result (λ root. IsTree (⟦<VecRoom as Look>⟧.page_state room.new)
        (⟦<VecRoom as Look>⟧.words room.new) root) }
{
    let mut root = 0;
    for i in 0..KEYS {
        root = put_number(room, root, i * 271 % KEYS * 1000)?;
    }
    Ok(root)
}

/// The numbers of a write: `count` numbers that begin with `first`, in steps of `step`.
#[derive(Clone, Copy)]
struct Numbers {
    first: u64,
    step: u64,
    count: u64,
}

impl Numbers {
    /// The key of the number at this position.
    fn key(self, i: u64) -> [u8; 8] {
        self.first
            .saturating_add(self.step.saturating_mul(i))
            .to_be_bytes()
    }
}

/// Inserts numbers, and returns the root.
fn put_all<R: Room>(room: &mut R, root: u64, numbers: Numbers) -> Result<u64, Refusal>
    requires tree { IsTree (R.page_state room.old) (R.words room.old) root }
    requires open { IsTrue (R.is_open (R.kept room.old)) }
    ensures tree { IfOk result (λ new. IsTree (R.page_state room.new) (R.words room.new) new) }
{
    let mut root = root;
    for i in 0..numbers.count {
        root = insert(room, root, &numbers.key(i), &i.to_be_bytes())?;
    }
    Ok(root)
}

/// Removes numbers, and returns the root.
fn take_all<R: Room>(room: &mut R, root: u64, numbers: Numbers) -> Result<u64, Refusal>
    requires tree { IsTree (R.page_state room.old) (R.words room.old) root }
    requires open { IsTrue (R.is_open (R.kept room.old)) }
    ensures tree { IfOk result (λ new. IsTree (R.page_state room.new) (R.words room.new) new) }
    ensures kept { OnOk result (R.kept room.new ≡ R.kept room.old) }
{
    let mut root = root;
    for i in 0..numbers.count {
        root = remove(room, root, &numbers.key(i))?;
    }
    Ok(root)
}

/// One write in the middle of the tree.
fn change<R: Room>(
    room: &mut R,
    root: u64,
    kind: &str,
    count: u64,
    step: u64,
) -> Result<u64, Refusal>
    requires tree { IsTree (R.page_state room.old) (R.words room.old) root }
    requires open { IsTrue (R.is_open (R.kept room.old)) }
{
    let first = KEYS * 500;
    let there = Numbers { first, step, count };
    let new = Numbers {
        first: first + 1,
        step,
        count,
    };
    match kind {
        "put" => put_all(room, root, new),
        "take" => take_all(room, root, there),
        _ => {
            let rest = take_all(room, root, there)?;
            put_all(room, rest, new)
        }
    }
}

/// The number of words that a write stores in a tree that already has its keys.
pub(crate) fn stored_by(alloc: Global, line: &str) -> Result<String, Refusal> {
    let (kind, numbers) = line.split_once(" ").unwrap_or((line, ""));
    let (count, steps) = first_number(numbers);
    let (step, _) = first_number(steps);
    let mut room = room_of(alloc, 256)?;
    let root = put_keys(&mut room)?;
    let mut room = Counted::new(room);
    let _root = change(&mut room, root, kind, count, step)?;
    let stores = room.stores;
    Ok(format!(in alloc; "{stores}")?)
}

/// A page that a write has taken is edited in place. If a list of operations changes the same
/// leaves repeatedly, most of the words are already there. The first line inserts one key; the
/// second removes one key and inserts another next to it. The others insert or remove 64 keys,
/// either adjacent or far apart.
#[test]
fn stored_words(rt: HostRuntime) -> Result<(), Fail> {
    let lines = "stored put 1 1 => 65
stored set 1 1 => 51
stored put 64 1 => 1177
stored put 64 4000 => 1912
stored take 64 1000 => 1370
stored take 64 4000 => 1287";
    replies(rt.alloc(), lines)
}
