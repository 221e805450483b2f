//! The worked example of the machine, and the machine's limits.
//!
//! Every call is repeated after `OutOfMemory`, and must then give the example's answer. So the
//! tests also pass if any single request for memory is refused (`rt try --test --fail-alloc N`).
ghost use Rattle.std.specs.Prelude.{◌≡◌, IfOk};
ghost use Rattle.be_core.specs.Shown.{page_count};

use super::lines::{first_number, replies, yes_or_no};
use be_core::{Event, State};
use be_value::Refusal;
use std::alloc::Global;
use std::test::Fail;

/// A new machine. If the first call runs out of memory, it is repeated.
fn machine(alloc: Global, pages: u64, passes: u64, commits: u64) -> Result<State, Refusal>
    ensures { IfOk result (λ s. page_count s ≡ pages) }
{
    match State::new(alloc, pages, passes, commits) {
        Err(Refusal::OutOfMemory) => State::new(alloc, pages, passes, commits),
        answer => answer,
    }
}

/// The answer to the event. If the first call runs out of memory, it is repeated.
fn answer(state: &mut State, event: &Event) -> Result<bool, Refusal>
    ensures { page_count state.new ≡ page_count state.old }
{
    match state.step(event) {
        Err(Refusal::OutOfMemory) => state.step(event),
        answer => answer,
    }
}

/// The event that a word and its numbers name. `publish` gives up the page given by its last
/// number.
fn event_of(alloc: Global, word: &str, numbers: [u64; 4]) -> Result<Event, Refusal> {
    let [pass, second, third, fourth] = numbers;
    match word {
        "look" => Ok(Event::Look(pass)),
        "announce" => Ok(Event::Announce(pass)),
        "again" => Ok(Event::LookAgain(pass)),
        "read" => Ok(Event::Read(pass, second, third as usize)),
        "unpin" => Ok(Event::Unpin(pass)),
        "lock" => Ok(Event::Lock(pass)),
        "scan" => Ok(Event::Scan(pass, second)),
        "fill" => Ok(Event::Fill(pass, second, third as usize, fourth)),
        "publish" => Ok(Event::Publish(pass, second, vec![in alloc; third]?)),
        _ => Ok(Event::Unlock(pass)),
    }
}

/// The event that a line of words names.
fn event_in(alloc: Global, line: &str) -> Result<Event, Refusal> {
    let (word, numbers) = line.split_once(" ").unwrap_or((line, ""));
    let (first, numbers) = first_number(numbers);
    let (second, numbers) = first_number(numbers);
    let (third, numbers) = first_number(numbers);
    let (fourth, _) = first_number(numbers);
    event_of(alloc, word, [first, second, third, fourth])
}

/// Whether the events, one per line, are allowed in this order. An event after a `not` must be
/// refused.
fn gives(alloc: Global, state: &mut State, lines: &str) -> Result<bool, Refusal>
    ensures { page_count state.new ≡ page_count state.old }
{
    for line in lines.lines() {
        let (expected, line) = match line.strip_prefix("not ") {
            Some(line) => (false, line),
            None => (true, line),
        };
        let event = match event_in(alloc, line) {
            Err(Refusal::OutOfMemory) => event_in(alloc, line)?,
            event => event?,
        };
        if answer(state, &event)? != expected {
            return Ok(false);
        }
    }
    Ok(true)
}

/// A run with a writer and a reader. A page that the reader has pinned isn't filled again until it
/// is unpinned.
#[test]
fn machine_run(rt: HostRuntime) -> Result<(), Fail> {
    let alloc = rt.alloc();
    let mut state = machine(alloc, 3, 2, 10)?;

    let first = "look 1
lock 0
fill 0 1 0 7
publish 0 1 0
unlock 0
announce 1
lock 0
fill 0 2 0 9
publish 0 2 1
unlock 0
again 1
read 1 2 0
not read 1 1 0";
    assert!(rt; gives(alloc, &mut state, first)?);
    assert_eq!(rt; state.word(2, 0), 9);

    let second = "lock 0
scan 0 0
scan 0 1
not fill 0 0 0 5
unlock 0
unpin 1
lock 0
scan 0 0
scan 0 1
fill 0 0 0 5";
    assert!(rt; gives(alloc, &mut state, second)?);
    assert_eq!(rt; state.word(0, 0), 5);
    Ok(())
}

/// Whether a machine with these numbers of pages, passes and commits can be created.
pub(crate) fn is_opened(alloc: Global, line: &str) -> Result<String, Refusal> {
    let (pages, numbers) = first_number(line);
    let (passes, numbers) = first_number(numbers);
    let (commits, _) = first_number(numbers);
    let _state = machine(alloc, pages, passes, commits)?;
    yes_or_no(alloc, true)
}

#[test]
fn limits(rt: HostRuntime) -> Result<(), Fail> {
    let lines = "machine 0 2 10 => refused 21 BadLimits
machine 16385 2 10 => refused 21 BadLimits
machine 3 0 10 => refused 21 BadLimits
machine 3 65 10 => refused 21 BadLimits
machine 3 2 0 => refused 21 BadLimits
machine 3 2 4294967296 => refused 21 BadLimits
machine 1 1 1 => yes
machine 16384 64 4294967295 => yes";
    replies(rt.alloc(), lines)
}

/// Machines with numbers of pages around each power of two, and with different numbers of passes.
#[test]
fn machine_sizes(rt: HostRuntime) -> Result<(), Fail> {
    for power in 3..15u32 {
        let pages = 1u64 << power;
        let _machine = machine(rt.alloc(), pages, 64, 4_294_967_295)?;
        let _machine = machine(rt.alloc(), pages.saturating_sub(1).max(8), 1, 1)?;
        let _machine = machine(rt.alloc(), pages.saturating_add(1).min(16_384), 2, 1)?;
    }
    Ok(())
}
