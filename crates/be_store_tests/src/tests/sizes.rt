//! Requests and their replies at sizes between the limits. No contract excludes that a call runs
//! out of memory at one particular size.
//!
//! A row has its largest size, and then requests with their replies, as in all tests of a room. In
//! them, `@` is the size. `{PART}` repeats the part once for each number from 2 to the size, with
//! the number replacing `#`. Together with what comes before it, the part appears as often as the
//! size says.

use crate::tests::check_one;
use crate::tests::room::{Room, for_one};
use be_store::{Name, Op, Refusal, Value};
use be_test_tools::{again, check_lines};
use be_value::word_of;
use std::alloc::{AllocError, Global};
use std::test::Fail;

/// Comparisons, operations and attributes, indices, bytes of a query, of a name and of a value.
/// Each is read at a pin made for the read, and at a pin that stays.
const ROWS: &str = "256
0 mkindex k LONG;new;set 1 k LONG 0 => commit 1 / ok / node 1 / ok
0 query k==0{||k==#} / 0 query k<1{&&k<#} => pin 1 / nodes 1 / pin 1 / nodes 1
live k==0{||k==#} / 0 pin / 0 refresh / 0 query k!=1{&&k!=#} => ok / pin 1 / created 1 / removed / \
 pin 1 / nodes 1

64
0 new / 0 set 1 a1 LONG 1{;set 1 a# LONG 1} => commit 1 / node 1 / commit 2 / ok{ / ok}
head attrs 1 / 0 pin / head attrs 1 => attrs @ / pin 2 / attrs @
0 unset 1 a1{;unset 1 a#} => commit 3 / ok{ / ok}

32
0 mkindex i1 LONG{;mkindex i# CSTR} => commit 1 / ok{ / ok}
head indices / 0 pin / head indices => indices @ / pin 1 / indices @

4093
0 mkindex k CSTR => commit 1 / ok
0 query k==x{x} / live k<x{x} / 0 pin / 0 refresh => pin 1 / nodes / ok / pin 1 / created / removed

63
0 mkindex n{n} LONG;new;set 1 n{n} LONG 5 => commit 1 / ok / node 1 / ok
0 get 1 n{n} / 0 query n{n}==5 / 0 pin / 0 get 1 n{n} => LONG 5 / pin 1 / nodes 1 / pin 1 / LONG 5

255
0 mkindex k CSTR;new;set 1 k CSTR x{x};set 1 r MIMS x{x} => commit 1 / ok / node 1 / ok / ok
0 get 1 k / 0 query k==x{x} / 0 pin / 0 get 1 r => CSTR \"x{x}\" / pin 1 / nodes 1 / pin 1 / MIMS \
 \"x{x}\"";

/// The powers of two below the largest size of a row.
const POWERS: &str = "2 4 8 16 32 64 128 256 512 1024 2048 4096";

/// The text with the number in place of each mark.
fn with_number(alloc: Global, text: &str, mark: &str, number: u64) -> Result<String, AllocError> {
    let number = format!(in alloc; "{number}")?;
    text.replace(alloc, mark, number.as_str())
}

/// Appends a part once for each number from 2 to the size.
fn push_each(alloc: Global, text: &mut String, part: &str, size: u64) -> Result<(), AllocError> {
    for number in 2..=size {
        text.push_str(with_number(alloc, part, "#", number)?.as_str())?;
    }
    Ok(())
}

/// Appends a row, with each part as often as the size says.
fn push_row(alloc: Global, text: &mut String, row: &str, size: u64) -> Result<(), AllocError> {
    for part in row.split('}') {
        let (once, each) = part.split_once("{").unwrap_or((part, ""));
        text.push_str(once)?;
        push_each(alloc, text, each, size)?;
    }
    Ok(())
}

/// The requests and replies of a row at this size.
fn lines_at(alloc: Global, row: &str, size: u64) -> Result<String, AllocError> {
    let row = with_number(alloc, row, "@", size)?;
    let mut text = String::new(alloc);
    push_row(alloc, &mut text, row.as_str(), size)?;
    Ok(text)
}

/// Fails unless a new room gives a row's replies at this size.
fn check_size(alloc: Global, row: &str, size: u64) -> Result<(), Fail> {
    let lines = match lines_at(alloc, row, size) {
        Err(_) => lines_at(alloc, row, size)?,
        Ok(lines) => lines,
    };
    let pages = size.saturating_add(256);
    check_one(alloc, pages, 20_000, lines.as_str())
}

/// The same at one less than a power of two, at the power, and at one more.
fn check_around(alloc: Global, row: &str, power: u64) -> Result<(), Fail> {
    check_size(alloc, row, power.saturating_sub(1).max(1))?;
    check_size(alloc, row, power)?;
    check_size(alloc, row, power.saturating_add(1))
}

/// The same around each power of two below the largest size, and at that size.
fn check_row(alloc: Global, row: &str) -> Result<(), Fail> {
    let (most, row) = row.split_once("\n").unwrap_or(("", row));
    let most = word_of(most.as_bytes()).unwrap_or(1);
    for power in POWERS.split(' ') {
        let power = word_of(power.as_bytes()).unwrap_or(most);
        if power < most {
            check_around(alloc, row, power)?;
        }
    }
    check_size(alloc, row, most.saturating_sub(1).max(1))?;
    check_size(alloc, row, most)
}

/// Each row at each of its sizes.
#[test]
fn sizes(rt: HostRuntime) -> Result<(), Fail> {
    for row in ROWS.split("\n\n") {
        check_row(rt.alloc(), row)?;
    }
    Ok(())
}

/// The numbers of nodes at which a query and a live query run: around each power of two, and the
/// limit.
const COUNTS: &str =
    "1 2 3 4 5 7 8 9 15 16 17 31 32 33 63 64 65 127 128 129 255 256 257 511 512 513 1023 1024 1025 \
     2047 2048 \
2049 4095 4096 4097 8191 8192 8193 16383 16384 16385 26000";

/// Requests that find all of `count` nodes, and their replies. `pin` is the number of writes so
/// far.
fn found_lines(alloc: Global, count: u64, pin: u64) -> Result<String, AllocError> {
    let mut nodes = String::from_str(alloc, "1")?;
    push_each(alloc, &mut nodes, " #", count)?;
    format!(in alloc;
        "live k==7 / 0 refresh / 0 query k==7 => ok / created {nodes} / removed / pin {pin} / \
         nodes {nodes}
0 pin / 0 refresh / 0 query k>6 && k!=8 || k==9 => pin {pin} / created / removed / pin {pin} / \
         nodes {nodes}
live k>6 / 0 refresh / 0 unpin => ok / created {nodes} / removed / ok"
    )
}

/// Makes the nodes after the first `made`, up to `count`.
fn make_nodes(room: &mut Room, made: u64, count: u64) -> Result<(), Refusal> {
    for node in made.saturating_add(1)..=count {
        room.write(Op::New)?;
        room.write(Op::Set(node, Name::new("k")?, Value::int32(7)))?;
    }
    Ok(())
}

/// The same, and then checks that queries find all of them.
fn find_nodes(alloc: Global, room: &mut Room, made: u64, count: u64) -> Result<(), Fail> {
    make_nodes(room, made, count)?;
    let pin = count.saturating_mul(2).saturating_add(1);
    let lines = match found_lines(alloc, count, pin) {
        Err(_) => found_lines(alloc, count, pin)?,
        Ok(lines) => lines,
    };
    check_lines(alloc, room, lines.as_str())
}

/// Makes an index and then nodes, up to each of the counts.
fn find_growing(alloc: Global, room: &mut Room) -> Result<(), Fail> {
    check_lines(alloc, room, "0 mkindex k LONG => commit 1 / ok")?;
    let mut made = 0;
    for count in COUNTS.split(' ') {
        let count = word_of(count.as_bytes()).unwrap_or(0);
        find_nodes(alloc, room, made, count)?;
        made = count;
    }
    Ok(())
}

/// The nodes of a query's answer and of a live query's.
#[test]
fn many_nodes(rt: HostRuntime) -> Result<(), Fail> {
    find_growing(rt.alloc(), &mut for_one(rt.alloc(), 16384, 60_000)?)
}

/// Lists the first nodes; again if memory runs out.
fn list_first(alloc: Global, room: &mut Room, count: u64) -> Result<Vec<u64>, Refusal> {
    let most = usize::try_from(count).unwrap_or(0);
    again!(room.nodes(alloc, 1, most))
}

/// Fails unless as many nodes are listed as are asked for, up to each of the counts.
fn list_growing(alloc: Global, room: &mut Room) -> Result<(), Fail> {
    for _ in 0..26_000u64 {
        room.write(Op::New)?;
    }
    for count in COUNTS.split(' ') {
        let count = word_of(count.as_bytes()).unwrap_or(0);
        let nodes = list_first(alloc, room, count)?;
        if nodes.len() as u64 != count || nodes.last() != Some(&count) {
            return Err(Fail::new("another list of nodes"));
        }
    }
    Ok(())
}

/// Nodes can be listed.
#[test]
fn listed_nodes(rt: HostRuntime) -> Result<(), Fail> {
    list_growing(rt.alloc(), &mut for_one(rt.alloc(), 16384, 30_000)?)
}
