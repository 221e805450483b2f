//! An inbox in a store: two threads file letters while a third runs a live query at the version
//! that it has pinned.
#![tactic(auto)]

ghost use Rattle.std.specs.Prelude.{◌≡◌, ℕ, None};
ghost use Rattle.be_store.specs.Passes.{IsPassOf, IsPinnedTo};
ghost use Rattle.be_store.specs.Seats.{pinned_number};

use be_store::{Done, Kind, Limits, Live, Name, Op, Pass, Refusal, Store, Value, parse};
use std::alloc::AllocGlobal;
use std::process::ExitCode;
use std::thread::Threads;
use std::{io, thread};

/// The maximum number of times that a write is tried while another pass is writing.
const TRIES: u64 = 10_000_000;

/// Files a letter: a node with the sender's name and the time of arrival, in seconds since 1970.
fn file(store: &Store, pass: &mut Pass, from: &str, when: i64) -> Result<(), Refusal>
    requires { IsPassOf store.now pass.old }
    ensures { IsPassOf store.now pass.new }
{
    let (_, dones) = store.apply_or_retry(pass, &[Op::New], TRIES)?;
    if let Some(Done::Node(letter)) = dones.first() {
        let sender = Op::Set(*letter, Name::new("MAIL:from")?, Value::text(from)?);
        let time = Op::Set(*letter, Name::new("MAIL:when")?, Value::int64(when));
        store.apply_or_retry(pass, &[sender, time], TRIES)?;
    }
    Ok(())
}

/// Files ten letters. Returns the pass.
fn file_ten(store: &Store, mut pass: Pass, from: &str) -> (Pass, Result<(), Refusal>)
    requires { IsPassOf store.now pass }
    ensures { IsPassOf store.now result.0 }
{
    for i in 0..10 {
        if let Err(refusal) = file(store, &mut pass, from, 1_700_000_000 + i) {
            return (pass, Err(refusal));
        }
    }
    (pass, Ok(()))
}

/// Files ten letters from Ada and ten from Bob, with a thread for each sender.
fn file_both<R: Threads + Sync>(
    rt: &R,
    store: &Store,
    first: Pass,
    second: Pass,
) -> Result<(), Refusal>
    requires first { IsPassOf store.now first }
    requires second { IsPassOf store.now second }
{
    let (ada, bob) = thread::join(
        rt,
        || file_ten(store, first, "Ada"),
        || file_ten(store, second, "Bob"),
    );
    ada.1?;
    bob.1
}

/// The number of letters that have joined the query's answer since it last ran. Returns the pass,
/// unpinned.
fn ask(store: &Store, mut pass: Pass, mut live: Live) -> (Pass, Live, Result<usize, Refusal>)
    requires pass { IsPassOf store.now pass }
    requires pinned { (n : ℕ) × IsPinnedTo pass.knows n }
    ensures pass { IsPassOf store.now result.0 }
    ensures unpinned { pinned_number result.0.knows.phase ≡ None }
{
    let came = match live.refresh(store, &mut pass) {
        Ok(updates) => Ok(updates.created.len()),
        Err(refusal) => Err(refusal),
    };
    store.unpin(&mut pass);
    (pass, live, came)
}

/// Runs the live query at the pin, while the other two passes file their letters.
fn ask_meanwhile<R: Threads + Sync>(
    rt: &R,
    store: &Store,
    reader: Pass,
    live: Live,
    first: Pass,
    second: Pass,
) -> ((Pass, Live, Result<usize, Refusal>), Result<(), Refusal>)
    requires reader { IsPassOf store.now reader }
    requires pinned { (n : ℕ) × IsPinnedTo reader.knows n }
    requires first { IsPassOf store.now first }
    requires second { IsPassOf store.now second }
    ensures pass { IsPassOf store.now result.0.0 }
    ensures unpinned { pinned_number result.0.0.knows.phase ≡ None }
{
    thread::join(
        rt,
        || ask(store, reader, live),
        ||
            requires { IsPassOf store.now first × IsPassOf store.now second }
        { file_both(rt, store, first, second) },
    )
}

/// The number of letters from Ada at a pin, and the number of letters from Ada that arrived while
/// the query ran.
fn count_letters<R: AllocGlobal + Threads + Sync>(rt: &R) -> Result<(usize, usize), Refusal> {
    let limits = Limits {
        pages: 256,
        passes: 3,
        commits: 1_000,
    };
    let (store, mut passes) = Store::open(rt.alloc(), limits)?;
    let (Some(mut reader), Some(second), Some(mut first)) = (
        passes.pop(),
        passes.pop(),
        passes.pop(),
    ) else {
        unreachable!()
    };
    let index = Op::MkIndex(Name::new("MAIL:from")?, Kind::Cstr);
    store.apply_or_retry(&mut first, &[index], TRIES)?;
    file(&store, &mut first, "Ada", 1_600_000_000)?;
    let live = Live::new(rt.alloc(), parse(rt.alloc(), "MAIL:from==Ada")?);
    store.pin(&mut reader);
    let ((mut reader, live, before), filed) = ask_meanwhile(
        rt, &store, reader, live, first, second,
    );
    filed?;
    store.pin(&mut reader);
    let (_, _, since) = ask(&store, reader, live);
    Ok((before?, since?))
}

/// Prints both numbers, or prints the store's error to standard error.
fn main(rt: HostRuntime) -> io::Result<ExitCode> {
    match count_letters(&rt) {
        Ok((before, since)) => {
            println!(rt; "letters from Ada at the pin: {before}")?;
            println!(rt; "filed while it was asked: {since}")?;
            Ok(ExitCode::SUCCESS)
        }
        Err(refusal) => {
            eprintln!(rt; "{refusal}")?;
            Ok(ExitCode::FAILURE)
        }
    }
}
