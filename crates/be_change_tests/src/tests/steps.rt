//! Calls on a change with a pass about which only its store is known. Each call checks whether the
//! pass is pinned, and returns BadLimits if it isn't. What else a call promises is dropped by the
//! helper that makes it.
ghost use Rattle.std.specs.Prelude.{IfOk};
ghost use Rattle.be_store.specs.Passes.{IsPassOf};

use be_change::{Change, CollectError, Ended, Kinds};
use be_store::{Limits, Name, Op, Pass, Refusal, Store, Value};
use be_test_tools::{both_of, list_of};
use std::alloc::Global;

/// The maximum number of tries of a write while another pass holds the lock.
pub(crate) const TRIES: u64 = 10_000_000;

/// The limits of a store with two passes.
const FOR_TWO: Limits = Limits {
    pages: 64,
    passes: 2,
    commits: 100,
};

/// What a call that collects an operation returns. WrongKind becomes NotIndexable here.
pub(crate) fn collected<T: Drop>(answer: Result<T, CollectError>) -> Result<T, Refusal> {
    match answer {
        Ok(value) => Ok(value),
        Err(CollectError::OutOfMemory) => Err(Refusal::OutOfMemory),
        Err(CollectError::TooMany) => Err(Refusal::TooMany),
        Err(CollectError::WrongKind(_, _)) => Err(Refusal::NotIndexable),
    }
}

/// Whether the kind of a set was accepted.
pub(crate) fn is_taken(answer: Result<(), CollectError>) -> Result<bool, Refusal> {
    match answer {
        Err(CollectError::WrongKind(_, _)) => Ok(false),
        answer => {
            collected(answer)?;
            Ok(true)
        }
    }
}

/// Makes a node, and returns its number.
pub(crate) fn new_node(change: &mut Change) -> Result<u64, Refusal> {
    collected(change.new_node())
}

/// Removes a node.
pub(crate) fn remove(change: &mut Change, node: u64) -> Result<(), Refusal> {
    collected(change.remove_node(node))
}

/// Sets an attribute to a number.
pub(crate) fn set(change: &mut Change, node: u64, name: &Name, number: i64) -> Result<(), Refusal> {
    collected(change.set(node, name.copy(), Value::int64(number)))
}

/// Removes an attribute.
pub(crate) fn unset(change: &mut Change, node: u64, name: &Name) -> Result<(), Refusal> {
    collected(change.unset(node, name.copy()))
}

/// Whether the change accepts a number at this name of node 1.
pub(crate) fn takes_number(change: &mut Change, name: &str) -> Result<bool, Refusal> {
    let name = Name::new(name)?;
    is_taken(change.set(1, name, Value::int64(1)))
}

/// Whether the change accepts a text at this name of node 1.
pub(crate) fn takes_text(change: &mut Change, name: &str) -> Result<bool, Refusal> {
    let name = Name::new(name)?;
    let text = Value::text("x")?;
    is_taken(change.set(1, name, text))
}

/// Begins a change that checks kinds.
pub(crate) fn begun(store: &Store, alloc: Global, pass: &mut Pass) -> Result<Change, Refusal>
    requires { IsPassOf store.now pass.old }
    ensures { IsPassOf store.now pass.new }
{
    Change::begin(alloc, store, pass, Kinds::Checked)
}

/// The number that a node has at the name, as the change reads it.
pub(crate) fn number_at(
    change: &Change,
    store: &Store,
    pass: &mut Pass,
    node: u64,
    name: &Name,
) -> Option<i64>
    requires { IsPassOf store.now pass.old }
    ensures { IsPassOf store.now pass.new }
{
    match pass.pinned() {
        Some(_) => number_in(change.get(store, pass, node, name)),
        None => None,
    }
}

fn number_in(value: Option<Value>) -> Option<i64> {
    match value {
        Some(Value::Llng(number)) => Some(number),
        _ => None,
    }
}

/// Ends the change.
pub(crate) fn ended(change: Change, store: &Store, pass: &mut Pass) -> Result<Ended, Refusal>
    requires { IsPassOf store.now pass.old }
    ensures { IsPassOf store.now pass.new }
{
    match pass.pinned() {
        Some(_) => change.end(store, pass, TRIES),
        None => Err(Refusal::BadLimits),
    }
}

/// Whether the change is written.
pub(crate) fn is_accepted(ended: Ended) -> bool {
    matches!(ended, Ended::Accepted(_))
}

/// Ends the change without writing.
pub(crate) fn abandoned(change: Change, store: &Store, pass: &mut Pass)
    requires { IsPassOf store.now pass.old }
    ensures { IsPassOf store.now pass.new }
{
    if pass.pinned().is_some() {
        change.abandon(store, pass);
    }
}

fn set_first(change: &mut Change, node: u64, number: i64) -> Result<(), Refusal> {
    let name = Name::new("a")?;
    set(change, node, &name, number)
}

/// Sets a number, ends the change, and returns whether it was written.
pub(crate) fn set_and_end(
    mut change: Change,
    store: &Store,
    pass: &mut Pass,
    node: u64,
    number: i64,
) -> Result<bool, Refusal>
    requires { IsPassOf store.now pass.old }
    ensures { IsPassOf store.now pass.new }
{
    match set_first(&mut change, node, number) {
        Ok(()) => Ok(is_accepted(ended(change, store, pass)?)),
        Err(refusal) => {
            abandoned(change, store, pass);
            Err(refusal)
        }
    }
}

/// A node's number in the current version.
pub(crate) fn current_number(
    store: &Store,
    alloc: Global,
    pass: &mut Pass,
    node: u64,
) -> Result<Option<i64>, Refusal>
    requires { IsPassOf store.now pass.old }
    ensures { IsPassOf store.now pass.new }
{
    let name = Name::new("a")?;
    let change = begun(store, alloc, pass)?;
    let number = number_at(&change, store, pass, node, &name);
    abandoned(change, store, pass);
    Ok(number)
}

/// A store with one pass, and with this many writes.
pub(crate) fn open_for_one(alloc: Global, commits: u64) -> Result<(Store, Pass), Refusal>
    ensures { IfOk result (λ r. IsPassOf r.0 r.1) }
{
    let limits = Limits {
        passes: 1,
        commits,
        ..FOR_TWO
    };
    let (store, mut passes) = Store::open(alloc, limits)?;
    match passes.pop() {
        Some(pass) => Ok((store, pass)),
        None => Err(Refusal::BadLimits),
    }
}

/// A store with two passes.
pub(crate) fn open_for_two(alloc: Global) -> Result<(Store, Pass, Pass), Refusal>
    ensures { IfOk result (λ r. IsPassOf r.0 r.1 × IsPassOf r.0 r.2) }
{
    let (store, passes) = Store::open(alloc, FOR_TWO)?;
    let (first, second) = both_of(passes)?;
    Ok((store, first, second))
}

/// Writes a list. BadLimits if it has no operations, or more than 64.
fn apply(store: &Store, pass: &mut Pass, ops: &[Op]) -> Result<(), Refusal>
    requires { IsPassOf store.now pass.old }
    ensures { IsPassOf store.now pass.new }
{
    if ops.is_empty() || ops.len() > 64 {
        return Err(Refusal::BadLimits);
    }
    match store.apply(pass, ops) {
        Ok(_) => Ok(()),
        Err(refusal) => Err(refusal),
    }
}

/// Writes a list in the script language.
pub(crate) fn write(
    store: &Store,
    alloc: Global,
    pass: &mut Pass,
    list: &str,
) -> Result<(), Refusal>
    requires { IsPassOf store.now pass.old }
    ensures { IsPassOf store.now pass.new }
{
    let ops = list_of(alloc, list)?;
    apply(store, pass, ops.as_slice())
}
