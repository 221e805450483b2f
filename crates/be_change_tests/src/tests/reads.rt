//! What a change reads of its own operations, and which kinds it accepts.
ghost use Rattle.be_store.specs.Passes.{IsPassOf};

use crate::tests::steps::{
    begun, collected, current_number, ended, new_node, number_at, open_for_one, remove, set,
    takes_number, takes_text, unset, write,
};
use be_change::{Change, Kinds};
use be_store::{Kind, Name, Pass, Refusal, Store};
use std::alloc::Global;

/// What a change does between two reads.
#[derive(Clone, Copy)]
enum Step {
    Set(i64),
    Unset,
    Remove,
}

fn take(change: &mut Change, node: u64, name: &Name, step: Step) -> Result<(), Refusal> {
    match step {
        Step::Set(number) => set(change, node, name, number),
        Step::Unset => unset(change, node, name),
        Step::Remove => remove(change, node),
    }
}

/// The number at a node, as a change reads it before and after a step.
type Around = (Option<i64>, Option<i64>);

/// What a change reads around each of its steps. Node 2 is new.
fn reads_around_steps(
    change: &mut Change,
    store: &Store,
    alloc: Global,
    pass: &mut Pass,
) -> Result<Vec<Around>, Refusal>
    requires { IsPassOf store.now pass.old }
    ensures { IsPassOf store.now pass.new }
{
    let name = Name::new("a")?;
    let steps = [
        (1, Step::Set(2)),
        (1, Step::Set(3)),
        (1, Step::Unset),
        (2, Step::Set(5)),
        (1, Step::Set(1)),
        (1, Step::Remove),
    ];
    new_node(change)?;
    let mut reads = Vec::new(alloc);
    for (node, step) in steps {
        let before = number_at(change, store, pass, node, &name);
        take(change, node, &name, step)?;
        reads.push((before, number_at(change, store, pass, node, &name)))?;
    }
    Ok(reads)
}

/// The same, and the number at node 2 in the store afterwards.
type Reads = (Vec<Around>, Option<i64>);

fn reads_in(store: &Store, alloc: Global, pass: &mut Pass) -> Result<Reads, Refusal>
    requires { IsPassOf store.now pass.old }
    ensures { IsPassOf store.now pass.new }
{
    write(store, alloc, pass, "new;set 1 a LLNG 1")?;
    let mut change = begun(store, alloc, pass)?;
    let reads = reads_around_steps(&mut change, store, alloc, pass)?;
    ended(change, store, pass)?;
    Ok((reads, current_number(store, alloc, pass, 2)?))
}

/// What a change reads, given its own operations.
pub(crate) fn own_reads(alloc: Global) -> Result<Reads, Refusal> {
    let (store, mut pass) = open_for_one(alloc, 100)?;
    reads_in(&store, alloc, &mut pass)
}

/// The list that makes node 1 and an index of texts.
const TEXT_INDEX: &str = "new;mkindex a CSTR";

/// Whether a change accepts a number at a name with an index of texts, a text there, and a number
/// at another name.
fn taken_by_snapshot(change: &mut Change) -> Result<(bool, bool, bool), Refusal> {
    let number = takes_number(change, "a")?;
    let text = takes_text(change, "a")?;
    let other = takes_number(change, "b")?;
    Ok((number, text, other))
}

fn remove_index(change: &mut Change) -> Result<(), Refusal> {
    let name = Name::new("a")?;
    collected(change.remove_index(name))
}

fn make_index(change: &mut Change) -> Result<(), Refusal> {
    let name = Name::new("a")?;
    collected(change.make_index(name, Kind::Llng))
}

/// Whether a change accepts a number once it has removed the index. Then, whether it accepts a text
/// and a number once it has made an index of numbers.
fn taken_by_change(change: &mut Change) -> Result<(bool, bool, bool), Refusal> {
    remove_index(change)?;
    let removed = takes_number(change, "a")?;
    make_index(change)?;
    let text = takes_text(change, "a")?;
    let number = takes_number(change, "a")?;
    Ok((removed, text, number))
}

type Taken = ((bool, bool, bool), (bool, bool, bool));

fn taken_by_each(change: &mut Change) -> Result<Taken, Refusal> {
    let before = taken_by_snapshot(change)?;
    let after = taken_by_change(change)?;
    Ok((before, after))
}

fn kinds_in(store: &Store, alloc: Global, pass: &mut Pass) -> Result<Taken, Refusal>
    requires { IsPassOf store.now pass.old }
    ensures { IsPassOf store.now pass.new }
{
    write(store, alloc, pass, TEXT_INDEX)?;
    let mut change = begun(store, alloc, pass)?;
    let taken = taken_by_each(&mut change)?;
    ended(change, store, pass)?;
    Ok(taken)
}

/// Which kinds a change accepts if it checks them.
pub(crate) fn kinds_taken(alloc: Global) -> Result<Taken, Refusal> {
    let (store, mut pass) = open_for_one(alloc, 100)?;
    kinds_in(&store, alloc, &mut pass)
}

fn takes_unchecked(store: &Store, alloc: Global, pass: &mut Pass) -> Result<bool, Refusal>
    requires { IsPassOf store.now pass.old }
    ensures { IsPassOf store.now pass.new }
{
    write(store, alloc, pass, TEXT_INDEX)?;
    let mut change = Change::begin(alloc, store, pass, Kinds::Unchecked)?;
    takes_number(&mut change, "a")
}

/// Whether a change that doesn't check kinds accepts a number at a name with an index of texts.
pub(crate) fn unchecked_kinds(alloc: Global) -> Result<bool, Refusal> {
    let (store, mut pass) = open_for_one(alloc, 100)?;
    takes_unchecked(&store, alloc, &mut pass)
}
