//! A pool's pages, some of which are spared for the copy of another page. After a refused request
//! for memory, the pool is created again.
ghost use Rattle.std.specs.Prelude.{◌≤◌};

use be_pages::{PagePool, Place};
use std::alloc::{AllocError, Global};
use std::test::Fail;

/// Stands for no page.
const NONE: u64 = 99_999;

/// A pool whose pages below `used` are in use.
fn pool_of(alloc: Global, pages: usize, used: usize) -> Result<PagePool, AllocError>
    requires { used ≤ pages }
{
    match PagePool::new(alloc, pages, used) {
        Err(AllocError) => PagePool::new(alloc, pages, used),
        pool => pool,
    }
}

fn take(pool: &mut PagePool) -> u64 {
    pool.take().unwrap_or(NONE)
}

fn take_like(pool: &mut PagePool, page: u64) -> u64 {
    pool.take_like(page).unwrap_or(NONE)
}

/// Gives up a page if it is in the current version.
fn let_go(pool: &mut PagePool, page: u64) {
    if page >= pool.len() as u64 {
        return;
    }
    match pool.place(page) {
        Place::Current => pool.give_up(page),
        _ => {}
    }
}

/// Makes a write that copies two pages, gives up the originals, and is kept. Returns the copies.
fn copy_both(pool: &mut PagePool, first: u64, second: u64) -> (u64, u64) {
    let copies = (take_like(pool, first), take_like(pool, second));
    let_go(pool, first);
    let_go(pool, second);
    pool.keep();
    copies
}

/// Each page is copied back to the page that it was copied from, in whatever order.
fn return_to_earlier(alloc: Global) -> Result<bool, AllocError> {
    let mut pool = pool_of(alloc, 6, 2)?;
    Ok(
        matches!(copy_both(&mut pool, 0, 1), (2, 3))
            && matches!(copy_both(&mut pool, 2, 3), (0, 1))
            && matches!(copy_both(&mut pool, 1, 0), (3, 2))
            && matches!(copy_both(&mut pool, 2, 3), (0, 1)),
    )
}

#[test]
fn copies_return(rt: HostRuntime) -> Result<(), Fail> {
    assert!(rt; return_to_earlier(rt.alloc())?);
    Ok(())
}

/// Makes one page spared, and takes all pages for other purposes. Returns the number of free pages
/// before that, and the pages that were taken.
fn take_others(alloc: Global) -> Result<(usize, [u64; 4]), AllocError> {
    let mut pool = pool_of(alloc, 4, 1)?;
    take_like(&mut pool, 0);
    let_go(&mut pool, 0);
    pool.keep();
    let free = pool.free();
    let taken = [
        take(&mut pool),
        take(&mut pool),
        take(&mut pool),
        take(&mut pool),
    ];
    Ok((free, taken))
}

/// A spared page is taken for another purpose only if no other page is free.
#[test]
fn spared_page_is_last(rt: HostRuntime) -> Result<(), Fail> {
    assert!(rt; matches!(take_others(rt.alloc())?, (3, [2, 3, 0, NONE])));
    Ok(())
}

/// The page that a copy takes before its write is undone, the page that is then taken for another
/// purpose, and the page that the copy takes the second time.
fn take_again(alloc: Global) -> Result<[u64; 3], AllocError> {
    let mut pool = pool_of(alloc, 4, 1)?;
    take_like(&mut pool, 0);
    let_go(&mut pool, 0);
    pool.keep();
    let first = take_like(&mut pool, 1);
    pool.undo();
    Ok([first, take(&mut pool), take_like(&mut pool, 1)])
}

/// A page that was spared is spared again after the write is undone.
#[test]
fn spared_after_undo(rt: HostRuntime) -> Result<(), Fail> {
    assert!(rt; matches!(take_again(rt.alloc())?, [0, 2, 0]));
    Ok(())
}

/// Numbers of pages in a pool, at and next to limits.
const SIZES: [usize; 9] = [1, 2, 3, 8, 63, 64, 65, 16383, 16384];

/// The pages that copies take from a pool with one free page. The first is a copy of a page outside
/// the pool. That write is undone, and then the second is a copy of the pool's last page. The third
/// is a copy of the greatest page number, when no page is free.
fn take_last(alloc: Global, pages: usize) -> Result<[u64; 3], AllocError>
    requires { 1 ≤ pages }
{
    let mut pool = pool_of(alloc, pages, pages - 1)?;
    let past = take_like(&mut pool, pages as u64);
    pool.undo();
    let last = take_like(&mut pool, pages as u64 - 1);
    Ok([past, last, take_like(&mut pool, u64::MAX)])
}

#[test]
fn pool_sizes(rt: HostRuntime) -> Result<(), Fail> {
    for pages in SIZES {
        let last = pages as u64 - 1;
        let taken = take_last(rt.alloc(), pages)?;
        if taken[0] != last || taken[1] != last || taken[2] != NONE {
            return Err(Fail::new(pages as u64));
        }
    }
    Ok(())
}
