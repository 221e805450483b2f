//! Worked examples of the table, by its public calls.
//!
//! A test has a table with its seats (a `Room`), and a text of requests with their replies. `0` and
//! `1` name the pass that makes a request. In `hold` and `between`, the first pass holds the lock
//! while others make requests; `turn` makes the next pass the first.

mod calls;
mod races;
mod reads;
mod room;
mod writes;

use crate::tests::races::race;
use crate::tests::room::{Room, count_seats, opened};
use be_table::Limits;
use be_test_tools::{OUTSIDE_LIMITS, again, check_lines};
use be_value::Refusal;
use be_volume::Op;
use std::alloc::Global;
use std::test::Fail;

/// Fails unless a room of 64 pages gives these replies.
fn check(alloc: Global, lines: &str) -> Result<(), Fail> {
    check_lines(alloc, &mut opened(alloc, 64)?, lines)
}

/// Limits out of range are refused with BadLimits; the smallest valid ones open a table with one
/// seat.
#[test]
fn open_limits(rt: HostRuntime) -> Result<(), Fail> {
    for (pages, passes, commits) in OUTSIDE_LIMITS {
        let limits = Limits {
            pages,
            passes,
            commits,
        };
        let refused = count_seats(rt.alloc(), limits);
        assert_eq!(rt; refused, Err(Refusal::BadLimits));
    }
    let least = Limits {
        pages: 8,
        passes: 1,
        commits: 1,
    };
    assert_eq!(rt; count_seats(rt.alloc(), least), Ok(1));
    Ok(())
}

#[test]
fn busy(rt: HostRuntime) -> Result<(), Fail> {
    let lines = "hold lock, pin | seen => refused 1 Busy 0 / pin 0 / 0
1 lock => 0";
    check(rt.alloc(), lines)
}

/// Each of three passes learns which of the others has the lock.
#[test]
fn busy_of_three(rt: HostRuntime) -> Result<(), Fail> {
    let lines = "turn / turn / hold lock | lock => refused 1 Busy 2 / refused 1 Busy 2
turn / turn / hold lock | lock => refused 1 Busy 1 / refused 1 Busy 1";
    check(rt.alloc(), lines)
}

/// While a pass holds the lock, another pins and reads: before the write is published, and after.
#[test]
fn reading_under_held_lock(rt: HostRuntime) -> Result<(), Fail> {
    let lines = "between pin | read, look, unpin, pin, read => pin 0 / 1 / 1 / 1 / ok / pin 1 / 2";
    check(rt.alloc(), lines)
}

/// A pinned version is the volume after the entries up to it, while a later write changes the
/// current version. This holds for the page reader and for queries.
#[test]
fn pinned_volume(rt: HostRuntime) -> Result<(), Fail> {
    let lines = "0 mkindex size LONG;new;set 1 size LONG 5 / 1 pin => 1 / pin 1
0 set 1 size LONG 6;rmindex size / 1 get 1 size => 2 / LONG 5 / LONG / LONG 5
1 unpin / 1 pin / 1 get 1 size => ok / pin 2 / LONG 6 / none / LONG 6
1 get 2 size => none / none / none";
    check(rt.alloc(), lines)
}

#[test]
fn stale_announcement(rt: HostRuntime) -> Result<(), Fail> {
    let lines = "0 new / 0 new / late 8 => 1 / 2 / 2 / 10
0 scan / 1 unpin / 0 scan => 2 / ok / 10";
    check(rt.alloc(), lines)
}

#[test]
fn meeting(rt: HostRuntime) -> Result<(), Fail> {
    let lines = "0 new / 1 seen / meet / 0 seen / 1 seen => 1 / 0 / 1 / 1 / 1";
    check(rt.alloc(), lines)
}

/// Creates nodes until a scan is due, and returns how many it created. BadLimits if no scan is due
/// after 1,000 nodes.
fn enter_until_due(room: &mut Room) -> Result<u64, Refusal> {
    for count in 0..1000 {
        if room.in_write(&[], "due")? == 1 {
            return Ok(count);
        }
        room.in_write(&[Op::New], "")?;
    }
    Err(Refusal::BadLimits)
}

/// The number of writes until a scan is due, and of further writes until the next one is, while a
/// pass is pinned.
fn count_until_due(alloc: Global, room: &mut Room) -> Result<(u64, u64), Fail> {
    check_lines(alloc, room, "1 pin => pin 0")?;
    let before = enter_until_due(room)?;
    check_lines(alloc, room, "0 scan => 0")?;
    Ok((before, enter_until_due(room)?))
}

fn scanned(alloc: Global, written: u64) -> Result<String, Refusal> {
    Ok(format!(in alloc; "1 read / 1 unpin / 0 scan / 0 due => 1 / ok / {written} / 0")?)
}

/// Checks what is read, and what a scan finds, after this many writes.
fn check_scanned(alloc: Global, room: &mut Room, written: u64) -> Result<(), Fail> {
    let lines = again!(scanned(alloc, written))?;
    check_lines(alloc, room, lines.as_str())
}

fn scans_early(alloc: Global, room: &mut Room) -> Result<bool, Fail> {
    let (before, beyond) = count_until_due(alloc, room)?;
    check_scanned(alloc, room, before.saturating_add(beyond))?;
    Ok(before == 1 && beyond == 15)
}

/// A scan is due once a page is retired. If a pin keeps that page, the next scan is due after 32
/// more. The first write of a node retires one page. Later ones retire two while the catalog is one
/// page, and three once it has an inner page.
#[test]
fn scan_due(rt: HostRuntime) -> Result<(), Fail> {
    let is_early = scans_early(rt.alloc(), &mut opened(rt.alloc(), 1024)?)?;
    assert!(rt; is_early);
    Ok(())
}

/// Two passes make a hundred nodes each, each on its own thread.
#[test]
fn two_writers(rt: HostRuntime) -> Result<(), Fail> {
    assert_eq!(rt; race(&rt, rt.alloc()), Ok((true, true)));
    Ok(())
}
