//! The operations that rebuild a version, one per line.
ghost use Rattle.std.specs.Prelude.{◌≡◌, ℕ, None};
ghost use Rattle.be_store.specs.Passes.{IsPassOf, IsPinnedTo};
ghost use Rattle.be_store.specs.Seats.{pinned_number};
ghost use Rattle.be_store_tests.specs.Staying.{StaysPass};

use crate::tests::calls::Text;
use be_journal::op_text;
use be_store::{Op, Pass, Place, Refusal, Store};
use std::alloc::{AllocError, Global};

/// The next operations, None after the last, or why they were refused.
type List = Result<Option<Vec<Op>>, Refusal>;

/// Adds a line for each of these operations.
fn push_lines(alloc: Global, ops: &[Op], text: &mut String) -> Result<(), AllocError> {
    for op in ops {
        text.push_str(op_text(alloc, op)?.as_str())?;
        text.push_str("\n")?;
    }
    Ok(())
}

/// The first list, at a pin made for the read.
fn first_list(store: &Store, alloc: Global, pass: &mut Pass, place: &mut Place) -> List
    requires pass { IsPassOf store.now pass.old }
    requires unpinned { pinned_number pass.old.knows.phase ≡ None }
    ensures { StaysPass store.now pass.old pass.new }
{
    let mut version = store.pinned(pass);
    version.state(alloc, place)
}

/// The next list at the pin; for a pass that isn't pinned, the first list.
fn next_list(store: &Store, alloc: Global, pass: &mut Pass, place: &mut Place) -> List
    requires { IsPassOf store.now pass.old }
    ensures { StaysPass store.now pass.old pass.new }
{
    match pass.pinned() {
        Some(_) => store.state(alloc, pass, place),
        None => first_list(store, alloc, pass, place),
    }
}

/// The lists at the pin; for a pass that isn't pinned, only the first list. BadLimits if there are
/// a hundred or more.
pub(crate) fn lists_of(
    store: &Store,
    alloc: Global,
    pass: &mut Pass,
) -> Result<Vec<Vec<Op>>, Refusal>
    requires { IsPassOf store.now pass.old }
    ensures { StaysPass store.now pass.old pass.new }
{
    let mut lists = Vec::new(alloc);
    let mut place = Place::new(alloc);
    for _ in 0..100 {
        let Some(ops) = next_list(store, alloc, pass, &mut place)? else {
            return Ok(lists);
        };
        lists.push(ops)?;
        if pass.pinned().is_none() {
            return Ok(lists);
        }
    }
    Err(Refusal::BadLimits)
}

/// The operations of the lists at the pin; if the pass isn't pinned, only those of the first list.
pub(crate) fn state_text(store: &Store, alloc: Global, pass: &mut Pass) -> Text
    requires { IsPassOf store.now pass.old }
    ensures { StaysPass store.now pass.old pass.new }
{
    let lists = lists_of(store, alloc, pass)?;
    let mut text = String::new(alloc);
    for ops in &lists {
        push_lines(alloc, ops.as_slice(), &mut text)?;
    }
    Ok(text)
}

/// Up to `most` nodes from a number on, at the pin or at a pin made for the read.
pub(crate) fn nodes_from(
    store: &Store,
    alloc: Global,
    pass: &mut Pass,
    from: u64,
    most: usize,
) -> Result<Vec<u64>, Refusal>
    requires { IsPassOf store.now pass.old }
    ensures { StaysPass store.now pass.old pass.new }
{
    match pass.pinned() {
        Some(_) => store.nodes(alloc, pass, from, most),
        None => {
            let mut version = store.pinned(pass);
            version.nodes(alloc, from, most)
        }
    }
}
