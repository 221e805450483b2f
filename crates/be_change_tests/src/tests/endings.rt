//! How changes end.
ghost use Rattle.be_store.specs.Passes.{IsPassOf};

use crate::tests::steps::{
    abandoned, begun, current_number, ended, new_node, open_for_one, open_for_two, remove,
    set_and_end, unset, write,
};
use be_change::{Change, Ended};
use be_store::{Name, Pass, Refusal, Store};
use std::alloc::Global;

/// The list that makes node 1 with the number 1.
const FIRST: &str = "new;set 1 a LLNG 1";

/// Makes this many nodes, and returns the number of the last.
fn make_nodes(change: &mut Change, count: u64) -> Result<u64, Refusal> {
    let mut last = 0;
    for _ in 0..count {
        last = new_node(change)?;
    }
    Ok(last)
}

/// The number of the next node.
fn next_number(store: &Store, alloc: Global, pass: &mut Pass) -> Result<u64, Refusal>
    requires { IsPassOf store.now pass.old }
    ensures { IsPassOf store.now pass.new }
{
    let mut change = begun(store, alloc, pass)?;
    let next = new_node(&mut change);
    abandoned(change, store, pass);
    next
}

/// Makes this many nodes with a change. Returns the change's commit number, and the last number
/// that it returned.
fn write_nodes(
    store: &Store,
    alloc: Global,
    pass: &mut Pass,
    count: u64,
) -> Result<(u64, u64), Refusal>
    requires { IsPassOf store.now pass.old }
    ensures { IsPassOf store.now pass.new }
{
    let mut change = begun(store, alloc, pass)?;
    let last = make_nodes(&mut change, count)?;
    match ended(change, store, pass)? {
        Ended::Accepted(number) => Ok((number, last)),
        _ => Err(Refusal::BadLimits),
    }
}

/// The same, with the next node's number after the change between the two.
fn written_in(
    store: &Store,
    alloc: Global,
    pass: &mut Pass,
    count: u64,
) -> Result<(u64, u64, u64), Refusal>
    requires { IsPassOf store.now pass.old }
    ensures { IsPassOf store.now pass.new }
{
    let (number, last) = write_nodes(store, alloc, pass, count)?;
    let next = next_number(store, alloc, pass)?;
    Ok((number, next, last))
}

/// Makes this many nodes with a change on an empty store. Returns the change's commit number, the
/// next node's number after it, and the last number that it returned.
pub(crate) fn written_of(alloc: Global, count: u64) -> Result<(u64, u64, u64), Refusal> {
    let (store, mut pass) = open_for_one(alloc, 100)?;
    written_in(&store, alloc, &mut pass, count)
}

/// Sets the number of node 1 with a change. Returns whether it was written.
fn write_number(store: &Store, alloc: Global, pass: &mut Pass, number: i64) -> Result<bool, Refusal>
    requires { IsPassOf store.now pass.old }
    ensures { IsPassOf store.now pass.new }
{
    let change = begun(store, alloc, pass)?;
    set_and_end(change, store, pass, 1, number)
}

/// Whether a change has to be repeated, if another pass wrote a 7 since it began.
fn is_too_late(
    store: &Store,
    alloc: Global,
    first: &mut Pass,
    second: &mut Pass,
) -> Result<bool, Refusal>
    requires passes { IsPassOf store.now first.old × IsPassOf store.now second.old }
    ensures passes { IsPassOf store.now first.new × IsPassOf store.now second.new }
{
    let change = begun(store, alloc, first)?;
    let other = write_number(store, alloc, second, 7);
    let is_written = set_and_end(change, store, first, 1, 8)?;
    other?;
    Ok(!is_written)
}

/// Whether a change has to be repeated, if another pass wrote a 7 since it began. Also the number
/// then, and after the next attempt, which writes an 8.
fn against(
    store: &Store,
    alloc: Global,
    first: &mut Pass,
    second: &mut Pass,
) -> Result<(bool, Option<i64>, Option<i64>), Refusal>
    requires passes { IsPassOf store.now first.old × IsPassOf store.now second.old }
    ensures passes { IsPassOf store.now first.new × IsPassOf store.now second.new }
{
    write(store, alloc, second, FIRST)?;
    let again = is_too_late(store, alloc, first, second)?;
    let before = current_number(store, alloc, second, 1)?;
    write_number(store, alloc, first, 8)?;
    let after = current_number(store, alloc, second, 1)?;
    Ok((again, before, after))
}

/// The same on a store with two passes.
pub(crate) fn ends_again(alloc: Global) -> Result<(bool, Option<i64>, Option<i64>), Refusal> {
    let (store, mut first, mut second) = open_for_two(alloc)?;
    against(&store, alloc, &mut first, &mut second)
}

/// The error with which the change is refused. BadLimits if it isn't.
fn refusal_of(change: Change, store: &Store, pass: &mut Pass) -> Result<Refusal, Refusal>
    requires { IsPassOf store.now pass.old }
    ensures { IsPassOf store.now pass.new }
{
    match ended(change, store, pass) {
        Err(Refusal::OutOfMemory) => Err(Refusal::OutOfMemory),
        Err(refusal) => Ok(refusal),
        Ok(_) => Err(Refusal::BadLimits),
    }
}

/// What a change asks for after it has made a node.
#[derive(Clone, Copy)]
enum Next {
    Nothing,
    /// To remove a node that doesn't exist.
    RemoveNinth,
    /// To remove an attribute that the new node doesn't have.
    UnsetNew,
}

fn collect(change: &mut Change, next: Next) -> Result<(), Refusal> {
    let node = new_node(change)?;
    match next {
        Next::Nothing => Ok(()),
        Next::RemoveNinth => remove(change, 9),
        Next::UnsetNew => unset(change, node, &Name::new("a")?),
    }
}

/// The error of a change that makes a node and asks for this.
fn refused(store: &Store, alloc: Global, pass: &mut Pass, next: Next) -> Result<Refusal, Refusal>
    requires { IsPassOf store.now pass.old }
    ensures { IsPassOf store.now pass.new }
{
    let mut change = begun(store, alloc, pass)?;
    collect(&mut change, next)?;
    refusal_of(change, store, pass)
}

/// The errors of three changes, the last one at the journal's limit; and the next node's number
/// before that one.
fn refusals_in(
    store: &Store,
    alloc: Global,
    pass: &mut Pass,
) -> Result<(Refusal, Refusal, Refusal, u64), Refusal>
    requires { IsPassOf store.now pass.old }
    ensures { IsPassOf store.now pass.new }
{
    let node = refused(store, alloc, pass, Next::RemoveNinth)?;
    let attribute = refused(store, alloc, pass, Next::UnsetNew)?;
    let next = next_number(store, alloc, pass)?;
    write(store, alloc, pass, FIRST)?;
    let room = refused(store, alloc, pass, Next::Nothing)?;
    Ok((node, attribute, room, next))
}

/// The same in a store for one write.
pub(crate) fn refusals(alloc: Global) -> Result<(Refusal, Refusal, Refusal, u64), Refusal> {
    let (store, mut pass) = open_for_one(alloc, 1)?;
    refusals_in(&store, alloc, &mut pass)
}

type Pin = Option<u64>;

/// The pin after a change that is ended or abandoned.
fn pin_after(store: &Store, alloc: Global, pass: &mut Pass, ends: bool) -> Result<Pin, Refusal>
    requires { IsPassOf store.now pass.old }
    ensures { IsPassOf store.now pass.new }
{
    let change = begun(store, alloc, pass)?;
    if !ends {
        abandoned(change, store, pass);
        return Ok(pass.pinned());
    }
    ended(change, store, pass)?;
    Ok(pass.pinned())
}

/// Pins the pass if it isn't pinned.
fn pin(store: &Store, pass: &mut Pass)
    requires { IsPassOf store.now pass.old }
    ensures { IsPassOf store.now pass.new }
{
    if pass.pinned().is_none() {
        store.pin(pass);
    }
}

/// The three pins that `keeps_pins` returns.
fn pins_in(store: &Store, alloc: Global, pass: &mut Pass) -> Result<(Pin, Pin, Pin), Refusal>
    requires { IsPassOf store.now pass.old }
    ensures { IsPassOf store.now pass.new }
{
    let after_end = pin_after(store, alloc, pass, true)?;
    let after_abandon = pin_after(store, alloc, pass, false)?;
    pin(store, pass);
    Ok((
        after_end,
        after_abandon,
        pin_after(store, alloc, pass, true)?,
    ))
}

/// The pin after a change by a pass that wasn't pinned, after one that was abandoned, and after one
/// by a pass that was pinned.
pub(crate) fn keeps_pins(alloc: Global) -> Result<(Pin, Pin, Pin), Refusal> {
    let (store, mut pass) = open_for_one(alloc, 100)?;
    pins_in(&store, alloc, &mut pass)
}
