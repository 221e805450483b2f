//! Four threads whose writes depend on what they have read.
ghost use Rattle.std.specs.Prelude.{◌≡◌, None};
ghost use Rattle.be_store_writers_tests.specs.Imports.{pinned_number, IsPassOf};

use be_store::{ApplyIfError, Kind, Limits, Name, Op, Pass, Refusal, Store, Value, parse};
use std::alloc::{AllocGlobal, Global};
use std::thread;
use std::thread::Threads;

const TRIES: u64 = 10_000_000;

/// What a pass read before its next write: its pin, the next node's number, and the count stored at
/// node 1.
#[derive(Clone, Copy)]
struct Seen {
    number: u64,
    next: u64,
    count: i64,
}

fn look(store: &Store, pass: &mut Pass, count: &Name) -> Seen
    requires pass { IsPassOf store.now pass.old }
    requires unpinned { pinned_number pass.old.knows.phase ≡ None }
    ensures { IsPassOf store.now pass.new }
{
    let mut snapshot = store.pinned(pass);
    let found = match snapshot.get(1, count) {
        Some(Value::Llng(found)) => found,
        _ => 0,
    };
    Seen {
        number: snapshot.number(),
        next: snapshot.next(),
        count: found,
    }
}

/// Creates a node that records which pass created it, and adds one to the count, both based on what
/// was read. Returns whether no other write came first.
fn change(store: &Store, pass: &mut Pass, seen: &Seen) -> Result<bool, Refusal>
    requires { IsPassOf store.now pass.old }
    ensures { IsPassOf store.now pass.new }
{
    let maker = Value::uint64(pass.number());
    let ops = [
        Op::New,
        Op::Set(seen.next, Name::new("by")?, maker),
        Op::Set(
            1,
            Name::new("count")?,
            Value::int64(seen.count.saturating_add(1)),
        ),
    ];
    match store.apply_if_or_retry(pass, seen.number, &ops, TRIES) {
        Ok(_) => Ok(true),
        Err(ApplyIfError::Conflict(_) | ApplyIfError::Refused(Refusal::OutOfMemory)) => Ok(false),
        Err(ApplyIfError::Refused(refusal)) => Err(refusal),
    }
}

/// Reads and then writes. Returns whether no other write came in between.
fn change_once(store: &Store, pass: &mut Pass) -> Result<bool, Refusal>
    requires { IsPassOf store.now pass.old }
    ensures { IsPassOf store.now pass.new }
{
    let count = Name::new("count")?;
    match pass.pinned() {
        Some(_) => Err(Refusal::BadLimits),
        None => {
            let seen = look(store, pass, &count);
            change(store, pass, &seen)
        }
    }
}

/// Reads and writes, and repeats both until no other write comes in between.
fn change_at_last(store: &Store, pass: &mut Pass) -> Result<(), Refusal>
    requires { IsPassOf store.now pass.old }
    ensures { IsPassOf store.now pass.new }
{
    for _ in 0..TRIES {
        if change_once(store, pass)? {
            return Ok(());
        }
    }
    Err(Refusal::BadLimits)
}

/// Makes fifty changes.
fn change_fifty(store: &Store, mut pass: Pass) -> Result<(), Refusal>
    requires { IsPassOf store.now pass }
{
    for _ in 0..50 {
        change_at_last(store, &mut pass)?;
    }
    Ok(())
}

/// Makes fifty changes by each of two passes, on two threads.
fn change_by_two<R: Threads + Sync>(
    rt: &R,
    store: &Store,
    first: Pass,
    second: Pass,
) -> (Result<(), Refusal>, Result<(), Refusal>)
    requires { IsPassOf store.now first × IsPassOf store.now second }
{
    thread::join(
        rt,
        || change_fifty(store, first),
        || change_fifty(store, second),
    )
}

/// Whether a query finds exactly fifty nodes, at a pin that is released after the read.
fn find_fifty(store: &Store, alloc: Global, pass: &mut Pass, text: &str) -> Result<bool, Refusal>
    requires pass { IsPassOf store.now pass.old }
    requires unpinned { pinned_number pass.old.knows.phase ≡ None }
    ensures { IsPassOf store.now pass.new }
{
    let query = parse(alloc, text)?;
    let mut snapshot = store.pinned(pass);
    let found = snapshot.query(alloc, &query)?;
    Ok(found.nodes.len() == 50)
}

fn has_fifty(store: &Store, alloc: Global, pass: &mut Pass, text: &str) -> Result<bool, Refusal>
    requires { IsPassOf store.now pass.old }
    ensures { IsPassOf store.now pass.new }
{
    match pass.pinned() {
        Some(_) => Err(Refusal::BadLimits),
        None => find_fifty(store, alloc, pass, text),
    }
}

fn count_of(store: &Store, pass: &mut Pass) -> Result<i64, Refusal>
    requires { IsPassOf store.now pass.old }
{
    let count = Name::new("count")?;
    match pass.pinned() {
        Some(_) => Err(Refusal::BadLimits),
        None => Ok(look(store, pass, &count).count),
    }
}

/// The number of passes, out of four, that have created exactly fifty nodes, and the count.
fn totals(store: &Store, alloc: Global, pass: &mut Pass) -> Result<(u64, i64), Refusal>
    requires { IsPassOf store.now pass.old }
{
    let mut made: u64 = 0;
    for text in ["by==0", "by==1", "by==2", "by==3"] {
        if has_fifty(store, alloc, pass, text)? {
            made = made.saturating_add(1);
        }
    }
    Ok((made, count_of(store, pass)?))
}

/// Four threads each create fifty nodes and count them. Returns the number of threads that have
/// created exactly fifty, and the count.
pub(crate) fn change_by_four<R: AllocGlobal + Threads + Sync>(
    rt: &R,
) -> Result<(u64, i64), Refusal> {
    // Enough pages for all 200 writes, even if a thread that has pinned the first version doesn't
    // run until the others are done, as on a busy machine.
    let limits = Limits {
        pages: 4096,
        passes: 5,
        commits: 1000,
    };
    let (store, mut passes) = Store::open(rt.alloc(), limits)?;
    let (Some(mut reader), Some(fourth), Some(third), Some(second), Some(first)) = (
        passes.pop(),
        passes.pop(),
        passes.pop(),
        passes.pop(),
        passes.pop(),
    ) else {
        unreachable!()
    };
    store.apply(
        &mut reader,
        &[Op::New, Op::MkIndex(Name::new("by")?, Kind::Ullg)],
    )?;
    let ((one, two), (three, four)) = thread::join(
        rt,
        ||
            requires { IsPassOf store first × IsPassOf store second }
        { change_by_two(rt, &store, first, second) },
        ||
            requires { IsPassOf store third × IsPassOf store fourth }
        { change_by_two(rt, &store, third, fourth) },
    );
    one?;
    two?;
    three?;
    four?;
    totals(&store, rt.alloc(), &mut reader)
}
