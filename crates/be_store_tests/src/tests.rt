//! Worked examples of the store, by its public calls.
//!
//! A test is a room, and a text of requests with their replies. `0` or `1` before a request names
//! the pass that makes it. `head` takes only the first line of pass 0's reply. `state` lists the
//! operations that rebuild pass 0's version.

mod calls;
mod carrying;
mod conditional;
mod handing;
mod races;
mod room;
mod sizes;
mod states;

use crate::tests::room::{Room, for_one, for_two};
use be_store::{Kind, Limits, Name, Op, Refusal, Store, Value};
use be_test_tools::{OUTSIDE_LIMITS, again, check_lines, has_hundred_by_each, numbered};
use std::alloc::{AllocError, Global};
use std::test::Fail;
use std::thread::Threads;

/// Fails unless a room for one pass gives these replies.
pub(crate) fn check_one(alloc: Global, pages: u64, commits: u64, lines: &str) -> Result<(), Fail> {
    check_lines(alloc, &mut for_one(alloc, pages, commits)?, lines)
}

/// Fails unless a room for two passes gives these replies.
fn check_two(alloc: Global, pages: u64, commits: u64, lines: &str) -> Result<(), Fail> {
    check_lines(alloc, &mut for_two(alloc, pages, commits)?, lines)
}

/// How many passes a store with these limits has.
fn count_once(alloc: Global, limits: Limits) -> Result<u64, Refusal> {
    let (_, dealt) = Store::open(alloc, limits)?;
    Ok(dealt.len() as u64)
}

/// The same. After running out of memory, the store is opened again.
fn count_passes(alloc: Global, pages: u64, passes: u64, commits: u64) -> Result<u64, Refusal> {
    let limits = Limits {
        pages,
        passes,
        commits,
    };
    again!(count_once(alloc, limits))
}

/// Limits that are out of range, the largest ones, and each number of passes.
#[test]
fn open_limits(rt: HostRuntime) -> Result<(), Fail> {
    for (pages, passes, commits) in OUTSIDE_LIMITS {
        let refused = count_passes(rt.alloc(), pages, passes, commits);
        assert_eq!(rt; refused, Err(Refusal::BadLimits));
    }
    let dealt = count_passes(rt.alloc(), 16384, 64, 4_294_967_295);
    assert_eq!(rt; dealt, Ok(64));
    for passes in 1..=64 {
        assert_eq!(rt; count_passes(rt.alloc(), 8, passes, 1), Ok(passes));
    }
    Ok(())
}

/// A pinned pass reads its pinned version, whatever is written afterwards. The next pin sees the
/// writes.
#[test]
fn two_passes(rt: HostRuntime) -> Result<(), Fail> {
    let lines = "0 new / 1 pin / 0 set 1 k CSTR v => commit 1 / node 1 / pin 1 / commit 2 / ok
1 get 1 k / 1 indices / 1 attrs 1 => none / indices 0 / attrs 0
1 unpin / 1 pin / 1 get 1 k => ok / pin 2 / CSTR \"v\"";
    check_two(rt.alloc(), 64, 100, lines)
}

/// An index has only pairs that were set after it was made. It finds an older node once the node's
/// attribute is set again.
#[test]
fn index_made_later(rt: HostRuntime) -> Result<(), Fail> {
    let lines =
        "0 new / 0 set 1 size LONG 5 / 0 mkindex size LONG => commit 1 / node 1 / commit 2 / ok / \
         commit 3 / ok
0 pin / 0 query size==5 / 0 unpin => pin 3 / pin 3 / nodes / ok
0 set 1 size LONG 5 / 0 pin / 0 query size==5 => commit 4 / ok / pin 4 / pin 4 / nodes 1";
    check_one(rt.alloc(), 64, 100, lines)
}

/// A store for two commits: an error of the volume comes before CommitsSpent, and reads still work.
#[test]
fn commits_spent(rt: HostRuntime) -> Result<(), Fail> {
    let lines = "0 new / 0 drop 9 => commit 1 / node 1 / refused 2 NoNode
0 mkindex k LONG / 0 new / 0 drop 9 => commit 2 / ok / refused 9 CommitsSpent / refused 2 NoNode
0 pin / 0 query k==1 => pin 2 / pin 2 / nodes";
    check_one(rt.alloc(), 64, 2, lines)
}

/// After two passes meet, both have seen what either had.
#[test]
fn meeting(rt: HostRuntime) -> Result<(), Fail> {
    let lines = "0 new / seen / meet / seen => commit 1 / node 1 / seen 1 0 / met 1 / seen 1 1";
    check_two(rt.alloc(), 64, 100, lines)
}

/// A pass that joins another pass's witness has seen what the witness has. A pass that has seen
/// more keeps that.
#[test]
fn joining(rt: HostRuntime) -> Result<(), Fail> {
    let lines = "0 new / seen / join / seen => commit 1 / node 1 / seen 1 0 / met 1 / seen 1 1
1 new / join / seen => commit 2 / node 2 / met 2 / seen 1 2";
    check_two(rt.alloc(), 64, 100, lines)
}

/// A live query returns which nodes have joined its answer, and which have left, since its last
/// refresh.
#[test]
fn live_query(rt: HostRuntime) -> Result<(), Fail> {
    let lines =
        "live k>4 / 0 mkindex k LONG / 0 new / 0 set 1 k LONG 5 => ok / commit 1 / ok / commit 2 / \
         node 1 / commit 3 / ok
0 pin / 0 refresh => pin 3 / created 1 / removed
0 new / 0 set 1 k LONG 1 / 0 set 2 k LONG 9 => commit 4 / node 2 / commit 5 / ok / commit 6 / ok
0 unpin / 0 pin / 0 refresh => ok / pin 6 / created 2 / removed 1
0 unpin / 0 pin / 0 refresh => ok / pin 6 / created / removed";
    check_one(rt.alloc(), 64, 100, lines)
}

/// A live query is refreshed by another pass, at an older pin, and after its index was removed and
/// made again.
#[test]
fn live_query_of_two_passes(rt: HostRuntime) -> Result<(), Fail> {
    let lines = "live k>4 / 0 mkindex k LONG / 0 new;set 1 k LONG 5 => ok / commit 1 / ok / \
         commit 2 / node 1 / ok
0 pin / 0 refresh / 1 new;set 2 k LONG 9 => pin 2 / created 1 / removed / commit 3 / node 2 / ok
1 pin / 1 refresh / 0 refresh / 1 refresh => pin 3 / created 2 / removed / created / removed 2 / \
         created 2 / removed
1 drop 1;set 2 k LONG 1;new;set 3 k LONG 7 / 1 unpin / 1 pin => commit 4 / ok / ok / node 3 / ok / \
         ok / pin 4
1 refresh / 1 rmindex k / 1 unpin / 1 pin => created 3 / removed 1 2 / commit 5 / ok / ok / pin 5
1 refresh / 1 mkindex k LONG / 1 unpin / 1 pin => refused 17 NotCovered / commit 6 / ok / \
         ok / pin 6
1 refresh / 1 set 2 k LONG 8 / 1 unpin / 1 pin / 1 refresh => created / removed 3 / commit 7 / \
         ok / ok / pin 7 / created 2 / removed";
    check_two(rt.alloc(), 64, 100, lines)
}

/// A prepared query follows its name's index to another place and to another kind, and notices when
/// it is removed.
#[test]
fn prepared_query(rt: HostRuntime) -> Result<(), Fail> {
    let lines =
        "live k>=5 / 0 mkindex k LONG / 0 new;set 1 k LONG 5;new;set 2 k LONG 4 => ok / commit 1 / \
         ok / commit 2 / node 1 / ok / node 2 / ok
0 pin / again / 0 unpin / again => pin 2 / pin 2 / nodes 1 / ok / not pinned
0 mkindex a LONG;set 2 k LONG 7 / 0 pin / again / 0 unpin => commit 3 / ok / ok / pin 3 / pin 3 / \
         nodes 1 2 / ok
0 rmindex k / 0 mkindex k CSTR / 0 set 2 k CSTR 50 => commit 4 / ok / commit 5 / ok / commit 6 / ok
0 pin / again / 0 unpin / 0 rmindex k / 0 pin / again => pin 6 / pin 6 / nodes 2 / ok / commit 7 / \
         ok / pin 7 / refused 17 NotCovered";
    check_one(rt.alloc(), 64, 100, lines)
}

/// A pass that isn't pinned reads at a pin made for the read. That pin is released even if the read
/// is refused.
#[test]
fn pinned_for_a_read(rt: HostRuntime) -> Result<(), Fail> {
    let lines =
        "0 mkindex k LONG / live k>1 / 0 new;set 1 k LONG 5 => commit 1 / ok / ok / commit 2 / \
         node 1 / ok
0 query k==5 / 0 get 1 k / 0 get 1 j => pin 2 / nodes 1 / LONG 5 / none
0 attrs 1 / 0 indices / 0 refresh => attrs 1 / \"k\" LONG 5 / indices 1 / \"k\" LONG / created 1 / \
         removed
0 query j==5 / 0 attrs 9 / 0 unpin => refused 17 NotCovered / refused 2 NoNode / not pinned";
    check_one(rt.alloc(), 64, 100, lines)
}

/// The operations that rebuild a version: with a dropped number, an attribute outside its index,
/// and one in it. At a pin they stay the same, whatever is written.
#[test]
fn states_in_order(rt: HostRuntime) -> Result<(), Fail> {
    let lines = "0 new;set 1 k LONG 5;new;drop 2 => commit 1 / node 1 / ok / node 2 / ok
state => new / set 1 \"k\" LONG 5 / new / drop 2
0 mkindex k LONG;mkindex j LONG;set 1 j LONG 6 / 0 pin => commit 2 / ok / ok / ok / pin 2
1 new;set 1 j LONG 7;set 3 k LONG 8;rmindex j => commit 3 / node 3 / ok / ok / ok
state => new / set 1 \"k\" LONG 5 / new / drop 2 / mkindex \"j\" LONG / mkindex \"k\" LONG / set 1 \
     \"j\" LONG 6
0 unpin => ok
state => new / set 1 \"j\" LONG 7 / set 1 \"k\" LONG 5 / new / drop 2 / new / mkindex \"k\" LONG / \
     set 3 \"k\" LONG 8";
    check_two(rt.alloc(), 64, 100, lines)
}

/// A text, repeated `count` times.
fn times(alloc: Global, part: &str, count: u64) -> Result<String, AllocError> {
    let mut text = String::new(alloc);
    for _ in 0..count {
        text.push_str(part)?;
    }
    Ok(text)
}

/// Requests that set k of node 1 to 1 to 63, and then this last one.
fn after_63(alloc: Global, last: &str) -> Result<String, AllocError> {
    let mut text = String::new(alloc);
    for i in 1..=63 {
        text.push_str(format!(in alloc; "set 1 k LONG {i};")?.as_str())?;
    }
    text.push_str(last)?;
    Ok(text)
}

/// Three writes by pass 1, and a pin. Then pass 1 writes a list of 64, which is accepted, and pass
/// 0 one that is refused; pass 0 stays pinned. Other requests come between and after these.
fn lists_of_64(alloc: Global) -> Result<String, AllocError> {
    let accepted = after_63(alloc, "set 1 k LONG 64")?;
    let refused = after_63(alloc, "drop 9")?;
    let oks = times(alloc, " / ok", 64)?;
    format!(in alloc;
        "1 new / 1 mkindex k LONG / 1 set 1 k LONG 0 => commit 1 / node 1 / commit 2 / ok / commit \
         3 / ok
0 pin => pin 3
1 {accepted} => commit 4{oks}
0 query k==0 / 0 unpin / 0 pin / 0 query k==64 => pin 3 / nodes 1 / ok / pin 4 / pin 4 / nodes 1
0 {refused} => refused 2 NoNode
1 pin / 1 query k==64 => pin 4 / pin 4 / nodes 1"
    )
}

const ZERO: &str =
    "0 new / 0 mkindex k LONG / 0 set 1 k LONG 0 => commit 1 / node 1 / commit 2 / ok / commit 3 / \
     ok
1 pin => pin 3";

/// The same, tried again if memory runs out.
fn lines_of_64(alloc: Global) -> Result<String, AllocError> {
    match lists_of_64(alloc) {
        Err(_) => lists_of_64(alloc),
        lines => lines,
    }
}

/// Pass 1's list of 64 is accepted. Pass 0's is refused, and pass 0 stays pinned.
#[test]
fn batches_in_store(rt: HostRuntime) -> Result<(), Fail> {
    let lines = lines_of_64(rt.alloc())?;
    check_two(rt.alloc(), 32, 100, lines.as_str())
}

/// Sets 64 attributes of node 1, named by number.
fn set_most(room: &mut Room) -> Result<(), Refusal> {
    for number in 0..64u8 {
        room.write(Op::Set(1, numbered(number)?, Value::int32(1)))?;
    }
    Ok(())
}

/// Makes 32 indices, named by number.
fn index_most(room: &mut Room) -> Result<(), Refusal> {
    for number in 0..32u8 {
        room.write(Op::MkIndex(numbered(number)?, Kind::Long))?;
    }
    Ok(())
}

/// Makes node 1 with 64 attributes, and 32 indices.
fn make_most(room: &mut Room) -> Result<(), Refusal> {
    room.write(Op::New)?;
    set_most(room)?;
    index_most(room)
}

/// Writes the largest numbers of attributes and indices, and lists them.
fn list_most(alloc: Global, room: &mut Room) -> Result<(), Fail> {
    make_most(room)?;
    let lines = "0 pin / head attrs 1 / head indices => pin 97 / attrs 64 / indices 32";
    check_lines(alloc, room, lines)
}

/// The largest number of attributes of a node, and of indices, can be listed.
#[test]
fn longest_lists(rt: HostRuntime) -> Result<(), Fail> {
    list_most(rt.alloc(), &mut for_one(rt.alloc(), 256, 100)?)
}

/// Sets k of node 1 by pass 0.
fn set(room: &mut Room, number: i32) -> Result<u64, Refusal> {
    room.write(Op::Set(1, Name::new("k")?, Value::int32(number)))
}

/// Sets k of node 1 to the next number. The reply has to be right: accepted if no earlier number
/// was refused, otherwise Full. Returns the first number that found no page, or BadLimits for any
/// other reply.
fn set_next(room: &mut Room, number: i32, first: Option<i32>) -> Result<Option<i32>, Refusal> {
    match set(room, number) {
        Ok(_) if first.is_none() => Ok(None),
        Err(Refusal::Full(3)) => Ok(first.or(Some(number))),
        _ => Err(Refusal::BadLimits),
    }
}

/// Sets k of node 1 to 1 to 500, and runs these lines after each. Returns the first number that
/// found no page, if all later ones found none either.
fn fill(alloc: Global, room: &mut Room, lines: &str) -> Result<i32, Fail> {
    let mut first = None;
    for i in 1..=500 {
        first = set_next(room, i, first)?;
        check_lines(alloc, room, lines)?;
    }
    Ok(first.unwrap_or(500))
}

/// The first number that found no page while pass 1 was pinned. After its unpin a write is
/// accepted. If the passes also met before and after that, this would follow from
/// `be_store::laws::large_enough_unpinned`: the volume has 3 items and 1 index, for which a pool of
/// 8 pages is large enough.
fn fill_pinned(alloc: Global, room: &mut Room) -> Result<i32, Fail> {
    check_lines(alloc, room, ZERO)?;
    let first = fill(alloc, room, "1 query k==0 => pin 3 / nodes 1")?;
    check_lines(alloc, room, "1 unpin => ok")?;
    set(room, 0)?;
    Ok(first)
}

/// The same, in a pool with this many pages.
fn first_full(alloc: Global, pages: u64) -> Result<i32, Fail> {
    fill_pinned(alloc, &mut for_two(alloc, pages, 1000)?)
}

/// In a small pool, writes end with Full while a pass is pinned, and the pin still reads its
/// version.
#[test]
fn pinned_small_pool(rt: HostRuntime) -> Result<(), Fail> {
    assert!(rt; first_full(rt.alloc(), 64)? < 64);
    Ok(())
}

/// A pool has more pages than it takes for a scan to be due. So writes scan before it is empty,
/// with one pass pinned all the time. What the pin reads stays, every page is used, and the write
/// that finds none has scanned.
#[test]
fn early_scan(rt: HostRuntime) -> Result<(), Fail> {
    let first = first_full(rt.alloc(), 1024)?;
    assert!(rt; first > 128 && first < 500);
    Ok(())
}

/// Makes up to 60 nodes. Returns how many were made, if every later write was refused with Full of
/// exactly this number.
fn make_nodes(room: &mut Room) -> Option<u64> {
    let mut made = None;
    for i in 0..60 {
        match room.write(Op::New) {
            Ok(_) if made.is_none() => {}
            Err(Refusal::Full(least)) if made.unwrap_or(i) == least => made = Some(least),
            _ => return None,
        }
    }
    made
}

/// A list of several operations that finds no page is refused with Full, though there is memory.
/// Once the pin is released, it is accepted.
#[test]
fn list_at_full(rt: HostRuntime) -> Result<(), Fail> {
    let lines =
        "1 pin / 0 new / 0 new / 0 new => pin 0 / commit 1 / node 1 / commit 2 / node 2 / commit 3 \
         / node 3
0 new;new / 0 drop 1;new;new / 0 new;drop 9 => refused 11 Full 0 / refused 11 Full 0 / refused 2 \
         NoNode
1 unpin / 0 new;new => ok / commit 4 / node 4 / node 5";
    check_two(rt.alloc(), 8, 100, lines)
}

/// What is refused and what is read in a full pool with this many nodes.
fn full_lines(alloc: Global, made: u64) -> Result<String, AllocError> {
    format!(in alloc;
        "0 new;drop 99 => refused 2 NoNode
0 pin / 0 get 1 k / 0 indices / 0 unpin => pin {made} / none / indices 0 / ok"
    )
}

/// Fills the room with nodes, and checks it. Returns how many nodes there are.
fn fill_with_nodes(alloc: Global, room: &mut Room) -> Result<u64, Fail> {
    let made = make_nodes(room).unwrap_or(0);
    let lines = match full_lines(alloc, made) {
        Err(_) => full_lines(alloc, made)?,
        Ok(lines) => lines,
    };
    check_lines(alloc, room, lines.as_str())?;
    Ok(made)
}

/// How many nodes the smallest pool takes, the journal's length, and whether the journal is legal.
fn fill_smallest(alloc: Global) -> Result<(u64, u64, bool), Fail> {
    let mut room = for_one(alloc, 8, 100)?;
    let made = fill_with_nodes(alloc, &mut room)?;
    let (length, is_legal) = room.close(alloc)?;
    Ok((made, length, is_legal))
}

/// In the smallest pool, writes end with Full of the number of nodes made. The volume's errors,
/// reads and the journal still work.
#[test]
fn smallest_pool(rt: HostRuntime) -> Result<(), Fail> {
    let (made, length, is_legal) = fill_smallest(rt.alloc())?;
    assert!(rt; made >= 13 && made < 37);
    assert!(rt; length == made && is_legal);
    Ok(())
}

/// Sets k of node 1 to 1 to 10,000. Returns the last write's number.
fn set_many(room: &mut Room) -> Result<u64, Refusal> {
    let mut last = 0;
    for i in 1..=10_000 {
        last = set(room, i)?;
    }
    Ok(last)
}

fn write_many(alloc: Global, room: &mut Room) -> Result<u64, Fail> {
    let lines =
        "0 new / 0 mkindex k LONG / 0 set 1 k LONG 0 => commit 1 / node 1 / commit 2 / ok / commit \
         3 / ok";
    check_lines(alloc, room, lines)?;
    Ok(set_many(room)?)
}

/// Ten thousand writes run in a pool of 64 pages while no pass is pinned.
#[test]
fn pages_reused(rt: HostRuntime) -> Result<(), Fail> {
    let last = write_many(rt.alloc(), &mut for_one(rt.alloc(), 64, 20_000)?)?;
    assert_eq!(rt; last, 10_003);
    Ok(())
}

/// Requests that read k, and their replies if it is this number.
fn number_lines(alloc: Global, number: i32) -> Result<String, Refusal> {
    let pin = number.saturating_add(3);
    let nodes = if number == 0 { " 1" } else { "" };
    Ok(format!(in alloc;
        "0 pin / 0 query k==0 / 0 get 1 k => pin {pin} / pin {pin} / nodes{nodes} / LONG {number}"
    )?)
}

fn check_number(alloc: Global, room: &mut Room, number: i32) -> Result<(), Fail> {
    let lines = again!(number_lines(alloc, number))?;
    check_lines(alloc, room, lines.as_str())
}

/// The first number that found no page after the pinned pass was dropped. The number before it is
/// read.
fn fill_alone(alloc: Global, room: &mut Room) -> Result<i32, Fail> {
    check_lines(alloc, room, ZERO)?;
    room.lose_second();
    let first = fill(alloc, room, "")?;
    check_number(alloc, room, first.saturating_sub(1))?;
    Ok(first)
}

/// A pass that is dropped while pinned keeps its pages for good; the other pass can still read.
#[test]
fn dropped_pass(rt: HostRuntime) -> Result<(), Fail> {
    let first = fill_alone(rt.alloc(), &mut for_two(rt.alloc(), 64, 1000)?)?;
    assert!(rt; first < 64);
    Ok(())
}

/// Whether all writes of two threads were accepted, and whether the journal has each exactly once.
fn race<R: Threads + Sync>(rt: &R, alloc: Global) -> Result<(bool, bool), Refusal> {
    let room = for_two(alloc, 64, 1000)?;
    let (journal, is_accepted) = room.race(rt, alloc)?;
    Ok((is_accepted, has_hundred_by_each(&journal)?))
}

/// Two threads write. The journal has each write of both exactly once, and is legal.
#[test]
fn two_writers(rt: HostRuntime) -> Result<(), Fail> {
    let (is_accepted, has_each) = race(&rt, rt.alloc())?;
    assert!(rt; is_accepted);
    assert!(rt; has_each);
    Ok(())
}

/// A pass joins a witness on its own thread. Returns the number of its pin, and whether all writes
/// of the other pass were accepted.
fn hand<R: Threads + Sync>(rt: &R, alloc: Global, room: &mut Room) -> Result<(u64, bool), Fail> {
    let lines = "0 new;new / seen => commit 1 / node 1 / node 2 / seen 1 0";
    check_lines(alloc, room, lines)?;
    Ok(room.hand(rt)?)
}

/// A pass joins a witness on its own thread, and pins what the witness had seen, or more, while the
/// other pass writes. There are enough pages for all writes and the pin.
#[test]
fn handed_to_a_thread(rt: HostRuntime) -> Result<(), Fail> {
    let (number, is_accepted) = hand(&rt, rt.alloc(), &mut for_two(rt.alloc(), 1024, 1000)?)?;
    assert!(rt; is_accepted);
    assert!(rt; number >= 1);
    Ok(())
}

/// Two passes have read the same version. The first one writes, so the second one's write gets a
/// Conflict and does nothing. Without the condition, the write is accepted, and the node that it
/// names is the other pass's.
#[test]
fn writes_on_what_was_read(rt: HostRuntime) -> Result<(), Fail> {
    let lines =
        "0 next / 0 if 0 new;set 1 k LONG 5 / 0 if 0 new => next 1 / commit 1 / node 1 / ok / \
         conflict 1
0 pin / 0 next / 1 pin / 1 next => pin 1 / next 2 / pin 1 / next 2
0 if 1 new;set 2 k LONG 6 / 1 if 1 new;set 2 k LONG 7 => commit 2 / node 2 / ok / conflict 2
1 next / 1 unpin / 1 pin / 1 next => next 2 / ok / pin 2 / next 3
1 new;set 2 k LONG 7 / 0 unpin / 0 get 2 k / 0 get 3 k => commit 3 / node 3 / ok / ok / LONG 7 / \
         none
0 if 2 new / 0 if 4 new / 0 if 3 drop 9 / 0 if 3 drop 3 => conflict 3 / conflict 3 / refused 2 \
         NoNode / commit 4 / ok";
    check_two(rt.alloc(), 64, 4, lines)?;
    let spent =
        "0 new / 0 if 0 new / 0 if 1 drop 9 / 0 if 1 new => commit 1 / node 1 / conflict 1 / \
         refused 2 NoNode / refused 9 CommitsSpent";
    check_one(rt.alloc(), 64, 1, spent)
}

/// The journal's entries from any index on, up to any number of them.
#[test]
fn entries_of_the_journal(rt: HostRuntime) -> Result<(), Fail> {
    let lines =
        "0 entries 0 9 / 0 new;new / 1 set 1 k LONG 5 / 0 drop 2 => commit 1 / node 1 / node 2 / \
         commit 2 / ok / commit 3 / ok
0 entries 0 9 => 1 by 0 new; new -> node 1; node 2 / 2 by 1 set 1 \"k\" LONG 5 -> ok / 3 by 0 drop \
         2 -> ok
1 entries 1 1 / 1 entries 2 1 => 2 by 1 set 1 \"k\" LONG 5 -> ok / 3 by 0 drop 2 -> ok
1 entries 0 0 / 1 entries 3 9 / 1 entries 18446744073709551615 18446744073709551615 / 1 next => \
         next 3";
    check_two(rt.alloc(), 64, 9, lines)
}

/// Writes lists of different kinds: new nodes and a dropped one, an attribute outside its index and
/// two in theirs, and indices. Then it pins. The state at that pin has two lists.
fn write_and_pin(alloc: Global, room: &mut Room) -> Result<(), Fail> {
    let lines = "0 new;set 1 k LONG 5;new;drop 2 => commit 1 / node 1 / ok / node 2 / ok
0 mkindex k LONG;mkindex j LONG;set 1 j LONG 6 => commit 2 / ok / ok / ok
0 new;set 3 k LONG 8 => commit 3 / node 3 / ok";
    check_lines(alloc, room, lines)?;
    for _ in 0..64 {
        room.write(Op::New)?;
    }
    check_lines(alloc, room, "0 pin => pin 67")
}

/// Fails unless the second room's journal has two lists, which make this state.
fn check_carried(alloc: Global, carried: &mut Room, state: &str) -> Result<(), Fail> {
    check_lines(alloc, carried, "0 pin => pin 2")?;
    if carried.state(alloc)?.as_str() != state {
        return Err(Fail::new("another state"));
    }
    Ok(())
}

/// Writes the state at the room's pin to a second room, while a hundred nodes are made. Returns
/// whether all of them were accepted.
fn carry<R: Threads + Sync>(rt: &R, alloc: Global, room: &mut Room) -> Result<bool, Fail> {
    let state = room.state(alloc)?;
    let (mut carried, is_accepted) = room.carry(rt, alloc)?;
    check_carried(alloc, &mut carried, state.as_str())?;
    Ok(is_accepted)
}

/// The same for the state that those lists make. Then it pins once more.
fn carry_between<R: Threads + Sync>(rt: &R, alloc: Global, room: &mut Room) -> Result<bool, Fail> {
    write_and_pin(alloc, room)?;
    let is_accepted = carry(rt, alloc, room)?;
    check_lines(alloc, room, "0 unpin / 0 pin => ok / pin 167")?;
    Ok(is_accepted)
}

/// A state is written to a second store while another thread writes. It is the pinned state, and
/// all writes are accepted.
#[test]
fn carried_meanwhile(rt: HostRuntime) -> Result<(), Fail> {
    let is_accepted = carry_between(&rt, rt.alloc(), &mut for_two(rt.alloc(), 1024, 1000)?)?;
    assert!(rt; is_accepted);
    Ok(())
}
