//! A builder makes a tree of as few pages as possible, at each size around those at which a page or
//! a level is added.
ghost use Rattle.std.specs.Prelude.{◌≡◌, IfOk, IsTrue, OnOk};
ghost use Rattle.be_tree_reading.specs.Tree.{IsTree};

use super::counting_look::{finds, ranges, room_of};
use super::lines::{first_number, replies};
use be_pages::Room;
use be_tree::TreeBuilder;
use be_value::Refusal;
use std::alloc::Global;
use std::test::Fail;

/// Builds a tree of the numbers below `count`, and returns its root.
fn built<R: Room>(alloc: Global, room: &mut R, count: u64) -> Result<u64, Refusal>
    requires { IsTrue (R.is_open (R.kept room.old)) }
    ensures tree { IfOk result (λ root. IsTree (R.page_state room.new) (R.words room.new) root) }
    ensures kept { OnOk result (R.kept room.new ≡ R.kept room.old) }
{
    let mut builder = TreeBuilder::new(alloc);
    for i in 0..count {
        builder.push(room, &i.to_be_bytes(), &i.to_le_bytes())?;
    }
    builder.finish(room)
}

/// How many pages a tree of so many numbers takes in a pool of so many pages.
pub(crate) fn pages_of(alloc: Global, line: &str) -> Result<String, Refusal> {
    let (count, sizes) = first_number(line);
    let (pages, _) = first_number(sizes);
    let mut room = room_of(alloc, pages)?;
    let root = built(alloc, &mut room, count)?;
    let used = pages.saturating_sub(room.free());
    if finds(&mut room, root, count) && ranges(&mut room, root, count) {
        return Ok(format!(in alloc; "{used}")?);
    }
    Ok(String::from_str(alloc, "lost")?)
}

/// Each size is built in exactly the pages that it needs. With one page fewer, the builder is
/// refused.
#[test]
fn built_trees(rt: HostRuntime) -> Result<(), Fail> {
    let lines = "built 0 8 => 0
built 1 8 => 1
built 11 8 => 1
built 12 8 => 1
built 13 8 => 3
built 17 8 => 3
built 18 8 => 3
built 23 8 => 3
built 24 8 => 3
built 25 8 => 4
built 29 8 => 4
built 30 8 => 4
built 143 13 => 13
built 143 12 => refused 11 Full 0
built 144 13 => 13
built 145 16 => 16
built 145 15 => refused 11 Full 0
built 149 16 => 16
built 150 16 => 16
built 156 16 => 16
built 157 17 => 17
built 157 16 => refused 11 Full 0
built 1728 157 => 157
built 1728 156 => refused 11 Full 0
built 1729 161 => 161
built 1729 160 => refused 11 Full 0
built 1734 161 => 161
built 10000 911 => 911
built 10000 910 => refused 11 Full 0";
    replies(rt.alloc(), lines)
}
