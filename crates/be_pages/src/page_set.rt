//! A set of pages. `pop` takes the page that was added last.
ghost use Rattle.std.specs.Prelude.{◌≡◌, ◌≢◌, ℕ, ◌<◌, ◌≤◌, ◌==◌, if◌then◌else◌, Bool, true, false};
ghost use Rattle.std.specs.Prelude.{length, vec_len, count_by, IfOk, IfSome, IfNone};
ghost use Rattle.be_pages.specs.PageSet.{has_page, is_place, IsListed};

use std::alloc::{AllocError, Global};

/// A set of pages with numbers below a limit. Only `new` and `from` allocate memory.
#[derive(Drop)]
pub(crate) struct PageSet {
    list: Vec<u64>,
    len: usize,
    /// For each page, its position in the list plus one, or 0 if it isn't in the list.
    places: Vec<usize>,
    ghost same: { vec_len list ≡ vec_len places },
    ghost counted: { len ≡ count_by is_place places.items },
    ghost listed: { IsListed list.items places.items len },
}

impl PageSet {
    /// Creates the empty set, for pages below `pages`.
    #[tactic(auto, unfolding(crate::specs::PageSet::has_page))]
    pub(crate) fn new(alloc: Global, pages: usize) -> Result<PageSet, AllocError>
        ensures none { IfOk result (λ s. (q : ℕ) → has_page s.places.items q ≡ false) }
        ensures pages { IfOk result (λ s. length s.places.items ≡ pages) }
    {
        let list = vec![in alloc; 0; pages]?;
        let places = vec![in alloc; 0; pages]?;
        Ok(PageSet {
            list,
            len: 0,
            places,
        })
    }

    /// Creates the set of the pages from `first` up to, but not including, `pages`. `pop` takes the
    /// lowest page first.
    pub(crate) fn from(alloc: Global, first: usize, pages: usize) -> Result<PageSet, AllocError>
        requires { first ≤ pages }
        ensures in_set { IfOk result (λ s. (q : ℕ) → first ≤ q → q < pages
            → has_page s.places.items q ≡ true) }
        ensures out { IfOk result (λ s. (q : ℕ) → q < first → has_page s.places.items q ≡ false) }
        ensures pages { IfOk result (λ s. length s.places.items ≡ pages) }
    {
        let mut set = PageSet::new(alloc, pages)?;
        for i in 0..pages - first {
            set.insert((pages - 1 - i) as u64);
        }
        Ok(set)
    }

    /// Adds a page. It may already be in the set.
    #[tactic(auto, unfolding(crate::specs::PageSet::has_page))]
    pub(crate) fn insert(&mut self, page: u64)
        requires { page < length self.old.places.items }
        ensures has { (q : ℕ) → has_page self.new.places.items q
            ≡ (if q == page then true else has_page self.old.places.items q) }
        ensures pages { length self.new.places.items ≡ length self.old.places.items }
    {
        let at = page as usize;
        if self.places[at] > 0 {
            return;
        }
        self.list[self.len] = page;
        self.len += 1;
        self.places[at] = self.len;
    }

    /// Takes the last page of the list: the one that was added last, unless a page has been removed
    /// since.
    #[tactic(auto, unfolding(crate::specs::PageSet::has_page))]
    pub(crate) fn pop(&mut self) -> Option<u64>
        ensures some { IfSome result (λ page. has_page self.old.places.items page ≡ true) }
        ensures inside { IfSome result (λ page. page < length self.old.places.items) }
        ensures has { IfSome result (λ page. (q : ℕ) → has_page self.new.places.items q
            ≡ (if q == page then false else has_page self.old.places.items q)) }
        ensures none { IfNone result ((q : ℕ) → has_page self.old.places.items q ≡ false) }
        ensures still_none { IfNone result (self.new.places.items ≡ self.old.places.items) }
        ensures fewer { IfSome result (λ page. self.new.len < self.old.len) }
        ensures pages { length self.new.places.items ≡ length self.old.places.items }
    {
        if self.len == 0 {
            return None;
        }
        let page = self.list[self.len - 1];
        self.len -= 1;
        self.places[page as usize] = 0;
        Some(page)
    }

    /// Returns `true` if a page is in the set.
    #[tactic(auto, unfolding(crate::specs::PageSet::has_page))]
    pub(crate) fn has(&self, page: u64) -> bool
        ensures { result ≡ has_page self.now.places.items page }
    {
        match self.places.get(page as usize) {
            Some(&place) => place > 0,
            None => false,
        }
    }

    /// Removes a page, which must be in the set. The last page of the list moves to its position.
    #[tactic(auto, unfolding(crate::specs::PageSet::has_page))]
    pub(crate) fn remove(&mut self, page: u64)
        requires { has_page self.old.places.items page ≡ true }
        ensures has { (q : ℕ) → has_page self.new.places.items q
            ≡ (if q == page then false else has_page self.old.places.items q) }
        ensures pages { length self.new.places.items ≡ length self.old.places.items }
    {
        let place = self.places[page as usize];
        let last = self.list[self.len - 1];
        self.list[place - 1] = last;
        self.places[last as usize] = place;
        self.places[page as usize] = 0;
        self.len -= 1;
    }

    /// Returns how many pages there are.
    pub(crate) fn len(&self) -> usize
        ensures { result ≡ count_by is_place self.now.places.items }
    {
        self.len
    }
}
