//! Writes by two threads, and closing a store.
ghost use Rattle.std.specs.Prelude.{◌≡◌};
ghost use Rattle.be_store.specs.Passes.{IsPassOf};
ghost use Rattle.be_store_tests.specs.Staying.{StaysPass};

use be_store::{Journal, Op, Pass, Refusal, Store};
use be_test_tools::{again, is_legal, pair_of};
use std::alloc::Global;
use std::thread;
use std::thread::Threads;

/// Makes a node, and tries again while another pass holds the lock.
fn make_once(store: &Store, pass: &mut Pass) -> Result<(), Refusal>
    requires { IsPassOf store.now pass.old }
    ensures { StaysPass store.now pass.old pass.new }
{
    match store.apply_or_retry(pass, &[Op::New], 10_000_000) {
        Ok(_) => Ok(()),
        Err(refusal) => Err(refusal),
    }
}

/// The same, tried once more if memory runs out.
fn make_at_last(store: &Store, pass: &mut Pass) -> Result<(), Refusal>
    requires { IsPassOf store.now pass.old }
    ensures { StaysPass store.now pass.old pass.new }
{
    again!(make_once(store, pass))
}

/// Makes a hundred nodes. Returns whether all were accepted.
pub(crate) fn make_hundred(store: &Store, mut pass: Pass) -> (Pass, bool)
    requires { IsPassOf store.now pass }
    ensures { StaysPass store.now pass result.0 }
{
    for _ in 0..100 {
        if make_at_last(store, &mut pass).is_err() {
            return (pass, false);
        }
    }
    (pass, true)
}

/// Two passes make a hundred nodes each, each on its own thread.
pub(crate) fn make_both<R: Threads + Sync>(
    rt: &R,
    store: &Store,
    first: Pass,
    second: Pass,
) -> ((Pass, bool), (Pass, bool))
    requires { IsPassOf store.now first × IsPassOf store.now second }
    ensures { StaysPass store.now first result.0.0 × StaysPass store.now second result.1.0 }
{
    thread::join(
        rt,
        || make_hundred(store, first),
        || make_hundred(store, second),
    )
}

/// Closes a store with two passes, and returns its journal.
pub(crate) fn journal_of(
    alloc: Global,
    store: Store,
    first: Pass,
    second: Pass,
) -> Result<Journal, Refusal>
    requires two { store.limits.passes ≡ 2 }
    requires first { IsPassOf store first × (first.knows.number ≡ 0) }
    requires second { IsPassOf store second × (second.knows.number ≡ 1) }
{
    let passes = pair_of(alloc, first, second)?;
    Ok(store.close(passes))
}

/// Closes a store with one pass. Returns the journal's length, and whether it is legal.
pub(crate) fn closed(alloc: Global, store: Store, pass: Pass) -> Result<(u64, bool), Refusal>
    requires one { store.limits.passes ≡ 1 }
    requires pass { IsPassOf store pass × (pass.knows.number ≡ 0) }
{
    let mut passes = match Vec::with_capacity(alloc, 1) {
        Err(_) => Vec::with_capacity(alloc, 1)?,
        Ok(passes) => passes,
    };
    passes.push_reserved(pass);
    let journal = store.close(passes);
    Ok((journal.len(), is_legal(&journal)?))
}
