//! The places of a pool's pages, with lists that limit the cost of each call to what it changes.
//!
//! # Lists
//! There are three lists alongside the places. The free pages form a stack: the page that was
//! freed last is taken first, because its words are probably still in the cache. Pages that are
//! spared for a copy are the exception (`FreePages`). A second stack holds the pages that the open
//! write took or gave up, so ending the write visits only these. The retired pages form a queue,
//! oldest first, so freeing the expired ones visits no other page. Each list has room for every
//! page from the start, so only `new` allocates memory.
ghost use Rattle.std.specs.Prelude.{◌≡◌, ◌≢◌, ℕ, ◌+◌, ◌<◌, ◌≤◌, List, Bool, true, false, length};
ghost use Rattle.std.specs.Prelude.{vec_len, map, count_by, slice_set};
ghost use Rattle.std.specs.Prelude.{slice_index, slice_index_or, IsTrue, IfOk, IfSome, IfNone};
ghost use Rattle.std.specs.VecDeque.{deque_len, deque_capacity};
ghost use Rattle.be_pages.specs.Pages.{times};
ghost use Rattle.be_pages.specs.PageSet.{has_page, one_if};
ghost use Rattle.be_pages.specs.FreePages.{has_free};
ghost use Rattle.be_pages.specs.Place.{given_place, is_expired, is_free, is_held_page, is_idle};
ghost use Rattle.be_pages.specs.Place.{is_in_hand, is_retired, retired_at};
ghost use Rattle.be_pages.specs.Place.{place_after, place_of, swept_place};
ghost use Rattle.be_pages.specs.Place.{IsNewest, IsOldestFirst};
ghost use Rattle.be_pages.specs.declared.page_pool.Place.TheVariants.{Free, Reserved, Filled};
ghost use Rattle.be_pages.specs.declared.page_pool.Place.TheVariants.{Current, GivenUp, Retired};
ghost use Rattle.be_pages.specs.declared.page_pool.Ending.TheVariants.{Published, Kept, Undone};

use crate::free_pages::FreePages;
use crate::page_pool::{Ending, Place};
use crate::page_set::PageSet;
use std::alloc::{AllocError, Global};
use std::collections::VecDeque;

/// The places of a pool's pages. A retired page keeps its place until it is freed.
#[derive(Drop)]
pub(crate) struct PageLists {
    places: Vec<Place>,
    free: FreePages,
    touched: PageSet,
    retired: VecDeque<u64>,
    ghost free_pages: { length free.plain.places.items ≡ vec_len places },
    ghost touched_pages: { length touched.places.items ≡ vec_len places },
    ghost retired_room: { vec_len places ≤ deque_capacity retired },
    ghost retired_count: { length retired.items ≡ count_by is_retired places.items },
    ghost frees: { (q : ℕ) → has_free free q ≡ is_free (place_of places.items q) },
    ghost touches: { (q : ℕ) → is_idle (place_of places.items q) ≡ false
        → has_page touched.places.items q ≡ true },
    ghost retires: { (q : ℕ) → times q retired.items
        ≡ one_if (is_retired (place_of places.items q)) },
    ghost oldest_first: { IsOldestFirst (retired_at places.items) retired.items },
}

impl PageLists {
    /// Creates a pool of `pages` pages. The pages below `used` are in the current version, and the
    /// others are free.
    pub(crate) fn new(alloc: Global, pages: usize, used: usize) -> Result<PageLists, AllocError>
        requires { used ≤ pages }
        ensures pages { IfOk result (λ pool. length pool.places.items ≡ pages) }
        ensures used { IfOk result (λ pool. (q : ℕ) → q < used → place_of pool.places.items q
            ≡ Current) }
        ensures free { IfOk result (λ pool. (q : ℕ) → used ≤ q → q < pages
            → place_of pool.places.items q ≡ Free) }
    {
        let places = new_places(alloc, pages, used)?;
        let free = FreePages::from(alloc, used, pages)?;
        let touched = PageSet::new(alloc, pages)?;
        let retired = VecDeque::with_capacity(alloc, pages)?;
        Ok(PageLists {
            places,
            free,
            touched,
            retired,
        })
    }

    /// Returns how many pages there are.
    pub(crate) fn len(&self) -> usize
        ensures { result ≡ length self.now.places.items }
    {
        self.places.len()
    }

    /// Returns the place of a page.
    pub(crate) fn place(&self, page: u64) -> Place
        requires { page < length self.now.places.items }
        ensures { result ≡ place_of self.now.places.items page }
    {
        self.places[page as usize]
    }

    /// Returns `true` if the open write has taken a page.
    pub(crate) fn is_in_hand(&self, page: u64) -> bool
        requires { page < length self.now.places.items }
        ensures { result ≡ is_in_hand (place_of self.now.places.items page) }
    {
        is_in_hand(self.place(page))
    }

    /// Takes the page that was freed last; it takes a spared page only if there is no other.
    pub(crate) fn take(&mut self) -> Option<u64>
        ensures free { IfSome result (λ page. (page < length self.old.places.items)
            × (place_of self.old.places.items page ≡ Free)) }
        ensures some { IfSome result (λ page. self.new.places.items
            ≡ slice_set self.old.places.items page Reserved) }
        ensures none { IfNone result ((q : ℕ) → q < length self.old.places.items
            → place_of self.old.places.items q ≢ Free) }
        ensures same { IfNone result (self.new.places.items ≡ self.old.places.items) }
    {
        let page = self.free.pop()?;
        self.touched.insert(page);
        self.places[page as usize] = Place::Reserved;
        Some(page)
    }

    /// Takes a free page to hold a copy of `page`: the page that `page` was copied from, if that
    /// one is spared. Otherwise it takes the page that `take` takes.
    pub(crate) fn take_like(&mut self, page: u64) -> Option<u64>
        ensures free { IfSome result (λ copy. (copy < length self.old.places.items)
            × (place_of self.old.places.items copy ≡ Free)) }
        ensures some { IfSome result (λ copy. self.new.places.items
            ≡ slice_set self.old.places.items copy Reserved) }
        ensures none { IfNone result ((q : ℕ) → q < length self.old.places.items
            → place_of self.old.places.items q ≢ Free) }
        ensures same { IfNone result (self.new.places.items ≡ self.old.places.items) }
    {
        let copy = self.free.pop_like(page)?;
        self.touched.insert(copy);
        self.places[copy as usize] = Place::Reserved;
        Some(copy)
    }

    /// Marks a taken page as filled. Most calls find it already marked and write nothing.
    pub(crate) fn fill(&mut self, page: u64)
        requires { IsTrue (is_in_hand (place_of self.old.places.items page)) }
        ensures { self.new.places.items ≡ slice_set self.old.places.items page Filled }
    {
        if matches!(self.places[page as usize], Place::Filled) {
            return;
        }
        self.places[page as usize] = Place::Filled;
    }

    /// Gives a page up. A page that the open write took becomes free immediately.
    pub(crate) fn give_up(&mut self, page: u64)
        requires inside { page < length self.old.places.items }
        requires held { IsTrue (is_held_page (place_of self.old.places.items page)) }
        ensures { self.new.places.items ≡ slice_set self.old.places.items page
            (given_place (place_of self.old.places.items page)) }
    {
        let at = page as usize;
        match self.places[at] {
            Place::Current => {
                self.touched.insert(page);
                self.places[at] = Place::GivenUp;
            }
            _ => {
                self.free.insert(page);
                self.places[at] = Place::Free;
            }
        }
    }

    /// Ends a write by settling each page that it touched.
    pub(crate) fn end(&mut self, ending: Ending)
        requires newest { IsNewest ending (retired_at self.old.places.items) }
        ensures { self.new.places.items ≡ map (place_after ending) self.old.places.items }
    {
        while let Some(page) = self.touched.pop() {
            let at = page as usize;
            let old = self.places[at];
            if is_idle(old) {
                continue;
            }
            let place = settled(ending, old);
            match place {
                Place::Free => {
                    self.free.insert(page);
                    self.places[at] = place;
                }
                Place::Retired(_) => {
                    self.retired.push_back_reserved(page);
                    self.places[at] = place;
                }
                _ => self.places[at] = place,
            }
        }
    }

    /// Frees at most `most` of the pages that were retired with a number below `least`, and returns
    /// how many it freed.
    pub(crate) fn free_expired(&mut self, least: u64, most: usize) -> usize
        ensures same { map (swept_place least) self.new.places.items
            ≡ map (swept_place least) self.old.places.items }
        ensures fewer { count_by (is_expired least) self.new.places.items + result
            ≡ count_by (is_expired least) self.old.places.items }
        ensures free { count_by is_free self.new.places.items
            ≡ count_by is_free self.old.places.items + result }
        ensures all { result < most → count_by (is_expired least) self.new.places.items ≡ 0 }
    {
        for freed in 0..most {
            let Some(page) = self.first_expired(least) else {
                return freed;
            };
            let _ = self.retired.pop_front();
            self.free.insert(page);
            self.places[page as usize] = Place::Free;
        }
        most
    }

    /// Counts the pages that were retired with a number below `least`. The queue is sorted by these
    /// numbers, so the cost is logarithmic.
    #[tactic(auto, using(crate::proofs::Marks::searching))]
    pub(crate) fn count_expired(&self, least: u64) -> usize
        ensures { result ≡ count_by (is_expired least) self.now.places.items }
    {
        let mut low = 0;
        let mut high = self.retired.len();
        'halves: while low < high {
            let middle = low + (high - low) / 2;
            if self.number(self.retired[middle]) < least {
                low = middle + 1;
            } else {
                high = middle;
            }
        }
        low
    }

    /// Returns the oldest retired page if its number is below `least`.
    fn first_expired(&self, least: u64) -> Option<u64>
        ensures first { IfSome result (λ page. (0 < length self.now.retired.items)
            × (page ≡ slice_index self.now.retired.items 0)) }
        ensures retired { IfSome result (λ page.
            (is_retired (place_of self.now.places.items page) ≡ true)
            × (swept_place least (place_of self.now.places.items page) ≡ Free)) }
        ensures none { IfNone result ((q : ℕ) → swept_place least (place_of self.now.places.items q)
            ≡ place_of self.now.places.items q) }
    {
        let page = *self.retired.front()?;
        if self.number(page) < least {
            Some(page)
        } else {
            None
        }
    }

    /// Returns the number with which a page was retired.
    fn number(&self, page: u64) -> u64
        requires { is_retired (place_of self.now.places.items page) ≡ true }
        ensures { result ≡ retired_at self.now.places.items page }
    {
        match self.places[page as usize] {
            Place::Retired(number) => number,
            _ => 0,
        }
    }

    /// Returns how many pages are free.
    pub(crate) fn free(&self) -> usize
        ensures { result ≡ count_by is_free self.now.places.items }
    {
        self.free.len()
    }

    /// Returns how many pages are retired.
    pub(crate) fn retired(&self) -> usize
        ensures { result ≡ count_by is_retired self.now.places.items }
    {
        self.retired.len()
    }
}

/// Returns `true` if this is the place of a page that the open write has taken.
fn is_in_hand(place: Place) -> bool
    ensures { result ≡ is_in_hand place }
{
    match place {
        Place::Reserved | Place::Filled => true,
        Place::Free | Place::Current | Place::GivenUp | Place::Retired(_) => false,
    }
}

/// Returns `true` if this is the place of a page that the open write hasn't touched.
fn is_idle(place: Place) -> bool
    ensures { result ≡ is_idle place }
{
    match place {
        Place::Free | Place::Current | Place::Retired(_) => true,
        Place::Reserved | Place::Filled | Place::GivenUp => false,
    }
}

/// Returns the place that a page has after a write ends.
fn settled(ending: Ending, place: Place) -> Place
    ensures { result ≡ place_after ending place }
{
    match (place, ending) {
        (Place::Free, _) => Place::Free,
        (Place::Reserved, Ending::Kept) => Place::Current,
        (Place::Reserved, _) => Place::Free,
        (Place::Filled, Ending::Undone) => Place::Free,
        (Place::Filled, _) => Place::Current,
        (Place::Current, _) => Place::Current,
        (Place::GivenUp, Ending::Published(number)) => Place::Retired(number),
        (Place::GivenUp, Ending::Kept) => Place::Free,
        (Place::GivenUp, Ending::Undone) => Place::Current,
        (Place::Retired(number), _) => Place::Retired(number),
    }
}

/// Creates the places of a new pool.
fn new_places(alloc: Global, pages: usize, used: usize) -> Result<Vec<Place>, AllocError>
    requires { used ≤ pages }
    ensures pages { IfOk result (λ places. vec_len places ≡ pages) }
    ensures used { IfOk result (λ places. (q : ℕ) → q < used → place_of places.items q ≡ Current) }
    ensures free { IfOk result (λ places. (q : ℕ) → used ≤ q → q < pages → place_of places.items q
        ≡ Free) }
{
    let mut places = vec![in alloc; Place::Free; pages]?;
    for page in 0..used {
        places[page] = Place::Current;
    }
    Ok(places)
}
