//! Two threads share one store. Each signs a letter and queries which letters are signed. The
//! store's journal is one history of all the calls of both threads. The contract of `sign_both`
//! says so, in terms of be_store's main statement.
#![tactic(auto)]

ghost use Rattle.std.specs.Prelude.{◌≡◌, ◌≤◌, ℕ, [], ◌∷◌, ◌++◌, IfOk, None, length};
ghost use Rattle.be_query.specs.Grammar.{Formula};
ghost use Rattle.be_store.specs.Calls.{Calls};
ghost use Rattle.be_store.specs.Passes.{IsPassOf};
ghost use Rattle.be_store.specs.Seats.{pinned_number};
ghost use Rattle.be_store.specs.Views.{IsClosed};
ghost use Rattle.be_volume.specs.Volume.{empty};
ghost use Rattle.example_history.specs.Visits.{FindsAll, HasVisited, IsHistoryOf, IsNew, MayVisit};
ghost use Rattle.example_history.specs.Visits.{asks, visits, writes};

use be_store::machine_laws::one_history;
use be_store::{
    ArrayVec, Done, Journal, Kind, Limits, Name, Op, Pass, Query, Refusal, Store, Value, parse,
};
use std::alloc::{AllocGlobal, Global};
use std::process::ExitCode;
use std::thread::Threads;
use std::{io, thread};

/// The maximum number of times that a write is tried while another pass is writing.
const TRIES: u64 = 10_000_000;

/// The result of an accepted write: its commit number, and the outcomes of its operations.
#[derive(Drop)]
struct Accepted {
    number: u64,
    outcomes: ArrayVec<Done, 64>,
}

/// The result of a query: the nodes, and the commit number of its pin.
#[derive(Drop)]
struct Found {
    pin: u64,
    nodes: Vec<u64>,
}

/// The results of one thread's calls.
#[derive(Drop)]
struct Visit {
    signed: Accepted,
    found: Found,
}

/// The results of all calls on a store: those of a write before the threads start and of both
/// threads' calls, and the journal returned when the store was closed.
#[derive(Drop)]
struct Outcome {
    begun: Accepted,
    ann: Visit,
    bob: Visit,
    journal: Journal,
}

/// Writes the operations once.
fn write(store: &Store, pass: &mut Pass, ops: &[Op]) -> Result<Accepted, Refusal>
    requires pass { IsPassOf store.now pass.old }
    requires count { (1 ≤ length ops.now) × (length ops.now ≤ 64) }
    ensures pass { IsPassOf store.now pass.new }
    ensures pin { pass.new.knows.phase ≡ pass.old.knows.phase }
    ensures calls { IfOk result (λ a. Calls pass.old.knows
        (writes pass.old.knows.number ops.now a.number a.outcomes.items) pass.new.knows) }
{
    let (number, outcomes) = store.apply_or_retry(pass, ops, TRIES)?;
    Ok(Accepted { number, outcomes })
}

/// Pins, runs a query, and unpins.
fn ask(alloc: Global, store: &Store, pass: &mut Pass, query: &Query) -> Result<Found, Refusal>
    requires pass { IsPassOf store.now pass.old }
    requires unpinned { pinned_number pass.old.knows.phase ≡ None }
    ensures pass { IsPassOf store.now pass.new }
    ensures calls { IfOk result (λ f. Calls pass.old.knows (asks query.now f.pin f.nodes.items)
        pass.new.knows) }
{
    let pin = store.pin(pass);
    let answer = store.query(alloc, pass, query);
    store.unpin(pass);
    let nodes = answer?.nodes;
    Ok(Found { pin, nodes })
}

/// Writes, and then runs a query. Returns the pass.
fn write_then_ask(
    alloc: Global,
    store: &Store,
    mut pass: Pass,
    ops: &[Op],
    query: &Query,
) -> (Pass, Result<Visit, Refusal>)
    requires { MayVisit store.now pass ops.now }
    ensures { HasVisited store.now pass.knows ops.now query.now result.0 result.1 }
{
    let signed = match write(store, &mut pass, ops) {
        Ok(signed) => signed,
        Err(refusal) => return (pass, Err(refusal)),
    };
    match ask(alloc, store, &mut pass, query) {
        Ok(found) => (pass, Ok(Visit { signed, found })),
        Err(refusal) => (pass, Err(refusal)),
    }
}

/// The first and the second of two passes.
fn both_of(mut passes: Vec<Pass>) -> Result<(Pass, Pass), Refusal>
    ensures { IfOk result (λ both. passes.items ≡ both.0 ∷ both.1 ∷ []) }
{
    match (passes.pop(), passes.pop()) {
        (Some(second), Some(first)) if passes.is_empty() => Ok((first, second)),
        _ => Err(Refusal::BadLimits),
    }
}

/// Opens a store with two passes.
fn open_two(alloc: Global) -> Result<(Store, Pass, Pass), Refusal>
    ensures two { IfOk result (λ r. r.0.limits.passes ≡ 2) }
    ensures empty { IfOk result (λ r. r.0.limits.volume ≡ empty) }
    ensures first { IfOk result (λ r. IsPassOf r.0 r.1 × IsNew r.1.knows 0) }
    ensures second { IfOk result (λ r. IsPassOf r.0 r.2 × IsNew r.2.knows 1) }
{
    let limits = Limits {
        pages: 256,
        passes: 2,
        commits: 1_000,
    };
    let (store, passes) = Store::open(alloc, limits)?;
    let (first, second) = both_of(passes)?;
    Ok((store, first, second))
}

/// Closes a store with two passes that began empty.
#[tactic(auto, using(crate::proofs::Runs::two_apart, crate::proofs::Runs::two_begin))]
fn close_two(alloc: Global, store: Store, first: Pass, second: Pass) -> Result<Journal, Refusal>
    requires first { IsPassOf store first × (first.knows.number ≡ 0) }
    requires second { IsPassOf store second × (second.knows.number ≡ 1) }
    requires two { store.limits.passes ≡ 2 }
    requires empty { store.limits.volume ≡ empty }
    ensures { IfOk result (λ j. IsClosed empty 2 j.entries (first.knows ∷ second.knows ∷ [])) }
{
    let mut passes = Vec::new(alloc);
    passes.push(first)?;
    passes.push(second)?;
    Ok(store.close(passes))
}

/// Runs two threads, each of which makes a write and runs the same query.
fn sign_at_once<R: Threads + Sync>(
    rt: &R,
    alloc: Global,
    store: &Store,
    first: Pass,
    second: Pass,
    ann: &[Op],
    bob: &[Op],
    query: &Query,
) -> (
    (Pass, Result<Visit, Refusal>),
    (Pass, Result<Visit, Refusal>),
)
    requires ann { MayVisit store.now first ann.now }
    requires bob { MayVisit store.now second bob.now }
    ensures ann { HasVisited store.now first.knows ann.now query.now result.0.0 result.0.1 }
    ensures bob { HasVisited store.now second.knows bob.now query.now result.1.0 result.1.1 }
{
    thread::join(
        rt,
        move || -> (Pass, Result<Visit, Refusal>)
            requires { MayVisit store.now first ann.now }
            ensures { HasVisited store.entry.now first.knows ann.entry.now query.entry.now result.0
                result.1 }
        { write_then_ask(alloc, store, first, ann, query) },
        move || -> (Pass, Result<Visit, Refusal>)
            requires { MayVisit store.now second bob.now }
            ensures { HasVisited store.entry.now second.knows bob.entry.now query.entry.now result.0
                result.1 }
        { write_then_ask(alloc, store, second, bob, query) },
    )
}

/// Makes a write, and then runs two threads, each of which makes a write and runs the same query.
/// The journal is one history of all these calls. It contains each write once, at the commit number
/// that the write returned. Each query found the nodes that match in the volume after the prefix
/// that its pin names. So the query after the later write found the nodes that match in the final
/// volume. If a call is refused, the store isn't closed, and the contract says nothing about the
/// results of the other calls.
fn sign_both<R: AllocGlobal + Threads + Sync>(
    rt: &R,
    begin: &[Op],
    ann: &[Op],
    bob: &[Op],
    query: &Query,
) -> Result<Outcome, Refusal>
    requires begin { (1 ≤ length begin.now) × (length begin.now ≤ 64) }
    requires ann { (1 ≤ length ann.now) × (length ann.now ≤ 64) }
    requires bob { (1 ≤ length bob.now) × (length bob.now ≤ 64) }
    ensures history { IfOk result (λ o. IsHistoryOf o.journal.entries
        (writes 0 begin.now o.begun.number o.begun.outcomes.items
        ++ visits 0 ann.now o.ann.signed.number o.ann.signed.outcomes.items query.now
        o.ann.found.pin o.ann.found.nodes.items)
        (visits 1 bob.now o.bob.signed.number o.bob.signed.outcomes.items query.now
        o.bob.found.pin o.bob.found.nodes.items)) }
    ensures later { IfOk result (λ o. FindsAll o.journal.entries query.now o.ann.signed.number
        o.bob.signed.number o.ann.found.nodes.items o.bob.found.nodes.items) }
{
    let alloc = rt.alloc();
    let (store, mut first, second) = open_two(alloc)?;
    let begun = write(&store, &mut first, begin)?;
    let (anns, bobs) = sign_at_once(rt, alloc, &store, first, second, ann, bob, query);
    let (first, ann) = anns;
    let (second, bob) = bobs;
    let (ann, bob) = (ann?, bob?);
    let journal = close_two(alloc, store, first, second)?;
    one_history();
    Ok(Outcome {
        begun,
        ann,
        bob,
        journal,
    })
}

/// Creates an index and two letters, and lets Ann and Bob each sign one. The journal then has these
/// three entries, and the query after the later write found the nodes that match in the final
/// volume. If a call is refused, the contract says nothing.
fn letters<R: AllocGlobal + Threads + Sync>(rt: &R) -> Result<Outcome, Refusal>
    ensures three { IfOk result (λ o. length o.journal.entries ≡ 3) }
    ensures later { IfOk result (λ o. (query : Formula) × FindsAll o.journal.entries query
        o.ann.signed.number o.bob.signed.number o.ann.found.nodes.items o.bob.found.nodes.items) }
{
    let from = Name::new("MAIL:from")?;
    let begin = [Op::MkIndex(from.copy(), Kind::Cstr), Op::New, Op::New];
    let ann = [Op::Set(1, from.copy(), Value::text("Ann")?)];
    let bob = [Op::Set(2, from, Value::text("Bob")?)];
    let query = parse(rt.alloc(), "MAIL:from==*")?;
    sign_both(rt, &begin, &ann, &bob, &query)
}

/// The number of letters that the later writer found.
fn found_by_later(outcome: &Outcome) -> usize {
    let (ann, bob) = (&outcome.ann, &outcome.bob);
    if ann.signed.number < bob.signed.number {
        bob.found.nodes.len()
    } else {
        ann.found.nodes.len()
    }
}

/// Prints the number of entries in the journal, and the number of letters that the later writer
/// found. The contract of `letters` says that these are the letters that match in the final volume,
/// whatever the threads do. A test checks that there are two of them.
fn main(rt: HostRuntime) -> io::Result<ExitCode> {
    match letters(&rt) {
        Ok(outcome) => {
            let found = found_by_later(&outcome);
            println!(rt; "entries of the journal: {}", outcome.journal.len())?;
            println!(rt; "letters that the later writer found: {found}")?;
            Ok(ExitCode::SUCCESS)
        }
        Err(refusal) => {
            eprintln!(rt; "{refusal}")?;
            Ok(ExitCode::FAILURE)
        }
    }
}
