//! Counts the pages of a room.
//!
//! After `OutOfMemory`, the room is created again. So the tests also pass if any single request for
//! memory is refused (`rt try --test --fail-alloc N`).

use super::counting_look::room_of;
use be_pages::{Look, Room, VecRoom};
use be_value::Refusal;
use std::alloc::Global;
use std::test::Fail;

/// The number of free pages after a page was taken and filled, and the word in that page. Then the
/// number of free pages after that write was kept and an empty write was undone, and after another
/// write was undone.
fn free_when_kept(alloc: Global) -> Result<[u64; 4], Refusal> {
    let mut room = room_of(alloc, 8)?;
    let page = room.take()?;
    room.fill(page, 3, 9);
    let taken = room.free();
    let word = room.word(page, 3);
    room.keep();
    room.undo();
    let kept = room.free();
    let second = room.take()?;
    room.fill(second, 0, 1);
    room.undo();
    Ok([taken, word, kept, room.free()])
}

#[test]
fn keeps_and_undoes(rt: HostRuntime) -> Result<(), Fail> {
    assert!(rt; matches!(free_when_kept(rt.alloc())?, [7, 9, 7, 7]));
    Ok(())
}

/// Takes each page once, and then tries to take one more. Returns the number of free pages before
/// each call, as digits.
fn take_all(alloc: Global) -> Result<(u64, Refusal), Refusal> {
    let mut room = room_of(alloc, 8)?;
    let mut digits: u64 = 0;
    for taken in 0..8 {
        let _ = taken;
        digits = digits.wrapping_mul(10).wrapping_add(room.free());
        let _page = room.take()?;
    }
    match room.take() {
        Ok(_) => Ok((digits, Refusal::NoNode)),
        Err(refusal) => Ok((digits, refusal)),
    }
}

/// Each page can be taken once; then the room is full.
#[test]
fn full_room(rt: HostRuntime) -> Result<(), Fail> {
    assert!(rt; matches!(take_all(rt.alloc())?, (87654321, Refusal::Full(0))));
    Ok(())
}

/// The number of free pages after a taken page is given up, and whether that page is taken next.
fn take_again(alloc: Global) -> Result<(u64, bool), Refusal> {
    let mut room = room_of(alloc, 8)?;
    let page = room.take()?;
    room.give_up(page);
    let free = room.free();
    Ok((free, room.take()? == page))
}

/// A page that was taken and given up in the same write is free immediately, and is taken next.
#[test]
fn page_given_up(rt: HostRuntime) -> Result<(), Fail> {
    assert!(rt; matches!(take_again(rt.alloc())?, (8, true)));
    Ok(())
}

/// Numbers of pages in a room: around each power of two, up to the maximum for a store.
const SIZES: [u64; 32] = [
    8, 9, 15, 16, 17, 31, 32, 33, 63, 64, 65, 127, 128, 129, 255, 256, 257, 511, 512, 513, 1023,
    1024, 1025, 2047, 2048, 2049, 4095, 4096, 8191, 8192, 16383, 16384,
];

/// In a new room of any size, all pages are free.
#[test]
fn room_sizes(rt: HostRuntime) -> Result<(), Fail> {
    for pages in SIZES {
        if room_of(rt.alloc(), pages)?.free() != pages {
            return Err(Fail::new(pages));
        }
    }
    Ok(())
}
