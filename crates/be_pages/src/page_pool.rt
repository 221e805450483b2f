//! The place of each page of a pool.
//!
//! # Places
//! A page is free, taken by the open write, in the current version, given up by the open write, or
//! retired. A retired page was given up by an earlier write, and a reader of an older version may
//! still read it. It carries the number of the last version that contains it.
//!
//! # Sweeps
//! Once no reader can read the versions below a number, a sweep frees the pages that were retired
//! with smaller numbers. There can be very many: all that were retired while a reader held one
//! version. So a sweep only raises a mark. A retired page whose number is below the mark has
//! expired: it is free, but it waits in the queue of retired pages until it is moved to the free
//! pages. A sweep moves a few of them, and `take` moves some if it finds no other free page.
//!
//! # Costs
//! A sweep that raises the mark searches the queue, in logarithmic time. A sweep and a `take` move
//! at most `MOVED_AT_ONCE` pages. Ending a write costs as much as the pages that it touched.
ghost use Rattle.std.specs.Prelude.{◌≡◌, ◌≢◌, ℕ, ◌+◌, ◌<◌, ◌≤◌, List, Bool, true, false, length};
ghost use Rattle.std.specs.Prelude.{map, count_by, slice_set, IsTrue, IfOk, IfSome, IfNone};
ghost use Rattle.be_pages.specs.Place.{given_place, is_expired, is_free, is_held_page, is_in_hand};
ghost use Rattle.be_pages.specs.Place.{is_retired, kept_place, retired_at};
ghost use Rattle.be_pages.specs.Place.{place_of, published_place, swept_place, undone_place};
ghost use Rattle.be_pages.specs.declared.page_pool.Place.TheVariants.{Free, Reserved, Filled};
ghost use Rattle.be_pages.specs.declared.page_pool.Place.TheVariants.{Current};

use crate::page_lists::PageLists;
use std::alloc::{AllocError, Global};

/// How many expired pages are moved to the free pages at once. Even a write of 64 operations on
/// large indices gives up fewer. If writes gave up more, the pages left waiting would become more
/// with each of them, and a large pool's pages would be used one after another instead of again.
const MOVED_AT_ONCE: usize = 1024;

/// The place of a page.
#[derive(Clone, Copy, Debug, PartialEq, Eq)]
pub enum Place {
    /// In no version, and not taken.
    Free,
    /// Taken by the open write, and not filled yet.
    Reserved,
    /// Taken by the open write, with at least one word filled.
    Filled,
    /// In the current version.
    Current,
    /// In the current version, and given up by the open write.
    GivenUp,
    /// Given up by the write that followed the version with this number.
    Retired(u64),
}

/// How a write ends.
#[derive(Clone, Copy, Debug, PartialEq, Eq)]
pub(crate) enum Ending {
    /// Pages that were given up become retired with this number.
    Published(u64),
    /// Pages that were given up become free.
    Kept,
    /// Pages that were taken become free, and pages that were given up return to the current
    /// version.
    Undone,
}

/// The places of a pool's pages.
#[derive(Drop)]
pub struct PagePool {
    lists: PageLists,
    /// A page that was retired with a number below this one is free.
    mark: u64,
    /// How many such pages there are.
    expired: usize,
    ghost counted: { expired ≡ count_by (is_expired mark) lists.places.items },
}

impl PagePool {
    ghost use Rattle.be_pages.specs.PagePool.{places};

    /// Creates a pool of `pages` pages. The pages below `used` are in the current version, and the
    /// others are free.
    pub fn new(alloc: Global, pages: usize, used: usize) -> Result<PagePool, AllocError>
        requires { used ≤ pages }
        ensures pages { IfOk result (λ pool. length (places pool) ≡ pages) }
        ensures used { IfOk result (λ pool. (q : ℕ) → q < used → place_of (places pool) q
            ≡ Current) }
        ensures free { IfOk result (λ pool. (q : ℕ) → used ≤ q → q < pages
            → place_of (places pool) q ≡ Free) }
    {
        let lists = PageLists::new(alloc, pages, used)?;
        Ok(PagePool {
            lists,
            mark: 0,
            expired: 0,
        })
    }

    /// Returns how many pages there are.
    pub fn len(&self) -> usize
        ensures { result ≡ length (places self.now) }
    {
        self.lists.len()
    }

    /// Returns the place of a page.
    pub fn place(&self, page: u64) -> Place
        requires { page < length (places self.now) }
        ensures { result ≡ place_of (places self.now) page }
    {
        swept(self.lists.place(page), self.mark)
    }

    /// Returns `true` if the open write has taken a page.
    pub fn is_in_hand(&self, page: u64) -> bool
        requires { page < length (places self.now) }
        ensures { result ≡ is_in_hand (place_of (places self.now) page) }
    {
        self.lists.is_in_hand(page)
    }

    /// Takes the page that was freed last; it takes a spared page only if there is no other, and an
    /// expired page only if no other page is free.
    pub fn take(&mut self) -> Option<u64>
        ensures free { IfSome result (λ page. (page < length (places self.old))
            × (place_of (places self.old) page ≡ Free)) }
        ensures some { IfSome result (λ page. places self.new
            ≡ slice_set (places self.old) page Reserved) }
        ensures none { IfNone result ((q : ℕ) → q < length (places self.old)
            → place_of (places self.old) q ≢ Free) }
        ensures same { IfNone result (places self.new ≡ places self.old) }
    {
        self.supply();
        let page = self.lists.take()?;
        Some(page)
    }

    /// Takes a free page to hold a copy of `page`: the page that `page` was copied from, if that
    /// one is spared. Otherwise it takes the page that `take` takes.
    pub fn take_like(&mut self, page: u64) -> Option<u64>
        ensures free { IfSome result (λ copy. (copy < length (places self.old))
            × (place_of (places self.old) copy ≡ Free)) }
        ensures some { IfSome result (λ copy. places self.new
            ≡ slice_set (places self.old) copy Reserved) }
        ensures none { IfNone result ((q : ℕ) → q < length (places self.old)
            → place_of (places self.old) q ≢ Free) }
        ensures same { IfNone result (places self.new ≡ places self.old) }
    {
        self.supply();
        let copy = self.lists.take_like(page)?;
        Some(copy)
    }

    /// Marks a taken page as filled. Most calls find it already marked and write nothing.
    pub fn fill(&mut self, page: u64)
        requires { IsTrue (is_in_hand (place_of (places self.old) page)) }
        ensures { places self.new ≡ slice_set (places self.old) page Filled }
    {
        self.lists.fill(page);
    }

    /// Gives a page up. A page that the open write took becomes free immediately.
    pub fn give_up(&mut self, page: u64)
        requires inside { page < length (places self.old) }
        requires held { IsTrue (is_held_page (place_of (places self.old) page)) }
        ensures { places self.new ≡ slice_set (places self.old) page
            (given_place (place_of (places self.old) page)) }
    {
        self.lists.give_up(page);
    }

    /// Publishes the write. The pages that it filled join the current version; the pages that it
    /// gave up are retired with this number. No retired page may have a greater number. A page that
    /// was taken but not filled becomes free.
    pub fn publish(&mut self, number: u64)
        requires newest { (q : ℕ) → retired_at (places self.old) q ≤ number }
        ensures { places self.new ≡ map (published_place number) (places self.old) }
    {
        self.lower(number);
        self.lists.end(Ending::Published(number));
    }

    /// Keeps the write: the pages that it took join the current version, and the pages that it gave
    /// up become free.
    pub fn keep(&mut self)
        ensures { places self.new ≡ map kept_place (places self.old) }
    {
        self.lists.end(Ending::Kept);
    }

    /// Undoes the write: the pages that it took become free, and the pages that it gave up return
    /// to the current version.
    pub fn undo(&mut self)
        ensures { places self.new ≡ map undone_place (places self.old) }
    {
        self.lists.end(Ending::Undone);
    }

    /// Frees the pages that were retired with a number below `least`. Their number affects the cost
    /// only through the search of the queue.
    pub fn sweep(&mut self, least: u64)
        ensures { places self.new ≡ map (swept_place least) (places self.old) }
    {
        self.raise(least);
        self.move_some();
    }

    /// Returns how many pages are free.
    pub fn free(&self) -> usize
        ensures { result ≡ count_by is_free (places self.now) }
    {
        self.lists.free() + self.expired
    }

    /// Returns how many pages are retired.
    pub fn retired(&self) -> usize
        ensures { result ≡ count_by is_retired (places self.now) }
    {
        self.lists.retired() - self.expired
    }

    /// Moves some expired pages to the free pages if none is there.
    fn supply(&mut self)
        ensures same { places self.new ≡ places self.old }
        ensures left { count_by is_free self.new.lists.places.items ≡ 0 → self.new.expired ≡ 0 }
    {
        if self.expired > 0 && self.lists.free() == 0 {
            self.move_some();
        }
    }

    /// Moves at most `MOVED_AT_ONCE` expired pages to the free pages.
    fn move_some(&mut self)
        ensures same { places self.new ≡ places self.old }
        ensures left { count_by is_free self.new.lists.places.items ≡ 0 → self.new.expired ≡ 0 }
    {
        let moved = self.lists.free_expired(self.mark, MOVED_AT_ONCE);
        self.expired -= moved;
    }

    /// Raises the mark to `least` if it is lower.
    fn raise(&mut self, least: u64)
        ensures { places self.new ≡ map (swept_place least) (places self.old) }
    {
        if least <= self.mark {
            return;
        }
        self.expired = self.lists.count_expired(least);
        self.mark = least;
    }

    /// Lowers the mark if it is above `number`: a page retired with that number must not expire at
    /// once. No table does this, so it may move every expired page.
    fn lower(&mut self, number: u64)
        ensures same { places self.new ≡ places self.old }
        ensures mark { self.new.mark ≤ number }
    {
        if self.mark <= number {
            return;
        }
        let _ = self.lists.free_expired(self.mark, self.expired);
        self.expired = 0;
        self.mark = 0;
    }
}

/// Returns the place that a page has once those retired with a number below `least` are freed.
fn swept(place: Place, least: u64) -> Place
    ensures { result ≡ swept_place least place }
{
    match place {
        Place::Free => Place::Free,
        Place::Reserved => Place::Reserved,
        Place::Filled => Place::Filled,
        Place::Current => Place::Current,
        Place::GivenUp => Place::GivenUp,
        Place::Retired(number) => {
            if number < least {
                Place::Free
            } else {
                Place::Retired(number)
            }
        }
    }
}
