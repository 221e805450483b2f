//! Which set in a list has another kind than the index of its name.
ghost use Rattle.be_store.specs.Passes.{IsPassOf};

use crate::tests::steps::{abandoned, begun, open_for_one, write};
use be_change::check_kinds;
use be_store::{Kind, Op, Pass, Refusal, Store};
use be_test_tools::{again, list_of};
use std::alloc::Global;

/// The place of the first such set, and the kind of its index.
fn first_mismatch(store: &Store, pass: &mut Pass, ops: &[Op]) -> Option<(usize, Kind)>
    requires { IsPassOf store.now pass.old }
    ensures { IsPassOf store.now pass.new }
{
    if pass.pinned().is_none() {
        return None;
    }
    match check_kinds(store, pass, ops) {
        Ok(()) => None,
        Err(mismatch) => Some((mismatch.place, mismatch.index)),
    }
}

/// The same at a change's pin, in a store with an index "a" of texts.
fn mismatch_in(
    store: &Store,
    alloc: Global,
    pass: &mut Pass,
    ops: &[Op],
) -> Result<Option<(usize, Kind)>, Refusal>
    requires { IsPassOf store.now pass.old }
    ensures { IsPassOf store.now pass.new }
{
    write(store, alloc, pass, "mkindex a CSTR")?;
    let change = begun(store, alloc, pass)?;
    let found = first_mismatch(store, pass, ops);
    abandoned(change, store, pass);
    Ok(found)
}

/// The same for a list in the script language, in a new store.
fn mismatch_of(alloc: Global, list: &str) -> Result<Option<(usize, Kind)>, Refusal> {
    let ops = list_of(alloc, list)?;
    let (store, mut pass) = open_for_one(alloc, 100)?;
    mismatch_in(&store, alloc, &mut pass, ops.as_slice())
}

/// Whether this is what was expected: a place and a kind, or `none`.
fn is_expected(found: Option<(usize, Kind)>, expected: &str) -> bool {
    match found {
        Some((place, kind)) => {
            let (word, name) = expected.split_once(" ").unwrap_or((expected, ""));
            word.parse().unwrap_or(64) == place && kind.name() == name
        }
        None => expected == "none",
    }
}

/// Whether a line `LIST => PLACE KIND` or `LIST => none` is right.
pub(crate) fn has_mismatch(alloc: Global, line: &str) -> Result<bool, Refusal> {
    let (list, expected) = line.split_once(" => ").unwrap_or((line, ""));
    let found = again!(mismatch_of(alloc, list))?;
    Ok(is_expected(found, expected))
}
