//! Two threads that move amounts from one node to another with changes.
ghost use Rattle.std.specs.Prelude.{IfOk};
ghost use Rattle.be_store.specs.Passes.{IsPassOf};

use crate::tests::steps::{
    TRIES, abandoned, begun, current_number, ended, is_accepted, number_at, set, write,
};
use be_change::Change;
use be_store::{Limits, Name, Pass, Refusal, Store};
use std::alloc::{AllocGlobal, Global};
use std::thread;
use std::thread::Threads;

/// An amount, and the nodes from which and to which it is moved.
#[derive(Clone, Copy)]
struct Transfer {
    from: u64,
    to: u64,
    amount: i64,
}

/// Moves an amount from one node to the other, as the change reads them.
fn collect_move(
    change: &mut Change,
    store: &Store,
    pass: &mut Pass,
    transfer: Transfer,
) -> Result<(), Refusal>
    requires { IsPassOf store.now pass.old }
    ensures { IsPassOf store.now pass.new }
{
    let name = Name::new("a")?;
    let Transfer { from, to, amount } = transfer;
    let before = number_at(change, store, pass, from, &name).unwrap_or(0);
    set(change, from, &name, before.saturating_sub(amount))?;
    let before = number_at(change, store, pass, to, &name).unwrap_or(0);
    set(change, to, &name, before.saturating_add(amount))
}

/// One attempt to move. Returns whether it was written.
fn try_move(
    store: &Store,
    alloc: Global,
    pass: &mut Pass,
    transfer: Transfer,
) -> Result<bool, Refusal>
    requires { IsPassOf store.now pass.old }
    ensures { IsPassOf store.now pass.new }
{
    let mut change = begun(store, alloc, pass)?;
    match collect_move(&mut change, store, pass, transfer) {
        Ok(()) => Ok(is_accepted(ended(change, store, pass)?)),
        Err(refusal) => {
            abandoned(change, store, pass);
            Err(refusal)
        }
    }
}

/// Whether a move was written; one that ran out of memory wasn't.
fn has_moved(moved: Result<bool, Refusal>) -> Result<bool, Refusal> {
    match moved {
        Err(Refusal::OutOfMemory) => Ok(false),
        moved => moved,
    }
}

/// Tries to move until it is written.
fn move_at_last(
    store: &Store,
    alloc: Global,
    pass: &mut Pass,
    transfer: Transfer,
) -> Result<(), Refusal>
    requires { IsPassOf store.now pass.old }
    ensures { IsPassOf store.now pass.new }
{
    for _ in 0..TRIES {
        if has_moved(try_move(store, alloc, pass, transfer))? {
            return Ok(());
        }
    }
    Err(Refusal::BadLimits)
}

/// Two hundred moves.
fn move_often(
    store: &Store,
    alloc: Global,
    mut pass: Pass,
    transfer: Transfer,
) -> Result<(), Refusal>
    requires { IsPassOf store.now pass }
{
    for _ in 0..200 {
        move_at_last(store, alloc, &mut pass, transfer)?;
    }
    Ok(())
}

/// A store with three passes. There are so many pages that no schedule leaves a write without one,
/// however long the other thread is pinned.
fn open_for_three(alloc: Global) -> Result<(Store, Pass, Pass, Pass), Refusal>
    ensures { IfOk result (λ r. IsPassOf r.0 r.1 × IsPassOf r.0 r.2 × IsPassOf r.0 r.3) }
{
    let limits = Limits {
        pages: 4096,
        passes: 3,
        commits: 1000,
    };
    let (store, mut passes) = Store::open(alloc, limits)?;
    match (passes.pop(), passes.pop(), passes.pop()) {
        (Some(third), Some(second), Some(first)) => Ok((store, first, second, third)),
        _ => Err(Refusal::BadLimits),
    }
}

/// The numbers of both nodes.
fn read_both(store: &Store, alloc: Global, pass: &mut Pass) -> Result<(i64, i64), Refusal>
    requires { IsPassOf store.now pass.old }
    ensures { IsPassOf store.now pass.new }
{
    let first = current_number(store, alloc, pass, 1)?.unwrap_or(0);
    let second = current_number(store, alloc, pass, 2)?.unwrap_or(0);
    Ok((first, second))
}

/// Makes two nodes with 1,000 each. Then one thread moves 1 from the first node to the second 200
/// times, and another moves 2 back 200 times. Returns what the nodes have then.
fn move_between<R: AllocGlobal + Threads + Sync>(
    rt: &R,
    store: &Store,
    first: Pass,
    second: Pass,
    reader: &mut Pass,
) -> Result<(i64, i64), Refusal>
    requires threads { IsPassOf store.now first × IsPassOf store.now second }
    requires reader { IsPassOf store.now reader.old }
{
    let alloc = rt.alloc();
    let list = "new;new;set 1 a LLNG 1000;set 2 a LLNG 1000";
    write(store, alloc, reader, list)?;
    let there = Transfer {
        from: 1,
        to: 2,
        amount: 1,
    };
    let back = Transfer {
        from: 2,
        to: 1,
        amount: 2,
    };
    let (one, other) = thread::join(
        rt,
        || move_often(store, alloc, first, there),
        || move_often(store, alloc, second, back),
    );
    one?;
    other?;
    read_both(store, alloc, reader)
}

/// The same in a new store.
pub(crate) fn move_both_ways<R: AllocGlobal + Threads + Sync>(
    rt: &R,
) -> Result<(i64, i64), Refusal> {
    let (store, first, second, mut reader) = open_for_three(rt.alloc())?;
    move_between(rt, &store, first, second, &mut reader)
}
