//! A pool's free pages, some of which are spared for a copy of a particular page.
//!
//! # Spared pages
//! A write copies each tree page that it changes. Writes that change the same pages again and again
//! copy each of them back and forth between two pages. The page that receives the copy already has
//! most of the words. So once a copied page is free, it is spared for the next copy of its copy.
//! That copy stores only the words that differ. A spared page is used for anything else only if no
//! other page is free.
ghost use Rattle.std.specs.Prelude.{◌≡◌, ℕ, ◌+◌, ◌<◌, ◌≤◌, ◌==◌, if◌then◌else◌, Bool, true, false};
ghost use Rattle.std.specs.Prelude.{length, vec_len, count_by, IfOk, IfSome, IfNone};
ghost use Rattle.be_pages.specs.PageSet.{has_page, is_place};

use crate::page_set::PageSet;
use std::alloc::{AllocError, Global};

/// The free pages among those with numbers below a limit. Only `from` allocates memory.
#[derive(Drop)]
pub(crate) struct FreePages {
    plain: PageSet,
    spare: PageSet,
    /// For each page, the page that it was last copied from, plus one, or 0 if there is none.
    earlier: Vec<u64>,
    /// For each page, whether it will be spared once it is free.
    spared: Vec<bool>,
    ghost spare_pages: { length spare.places.items ≡ length plain.places.items },
    ghost earlier_pages: { vec_len earlier ≡ length plain.places.items },
    ghost spared_pages: { vec_len spared ≡ length plain.places.items },
    ghost apart: { (q : ℕ) → has_page plain.places.items q ≡ true
        → has_page spare.places.items q ≡ false },
}

impl FreePages {
    ghost use Rattle.be_pages.specs.FreePages.{has_free};

    /// Creates the set of the pages from `first` up to, but not including, `pages`. `pop` takes the
    /// lowest page first.
    #[tactic(auto, unfolding(crate::specs::FreePages::has_free))]
    pub(crate) fn from(alloc: Global, first: usize, pages: usize) -> Result<FreePages, AllocError>
        requires { first ≤ pages }
        ensures in_set { IfOk result (λ s. (q : ℕ) → first ≤ q → q < pages
            → has_free s q ≡ true) }
        ensures out { IfOk result (λ s. (q : ℕ) → q < first → has_free s q ≡ false) }
        ensures pages { IfOk result (λ s. length s.plain.places.items ≡ pages) }
    {
        let plain = PageSet::from(alloc, first, pages)?;
        let spare = PageSet::new(alloc, pages)?;
        let earlier = vec![in alloc; 0; pages]?;
        let spared = vec![in alloc; false; pages]?;
        Ok(FreePages {
            plain,
            spare,
            earlier,
            spared,
        })
    }

    /// Adds a page, which must not be in the set.
    #[tactic(auto, unfolding(crate::specs::FreePages::has_free))]
    pub(crate) fn insert(&mut self, page: u64)
        requires inside { page < length self.old.plain.places.items }
        requires out { has_free self.old page ≡ false }
        ensures has { (q : ℕ) → has_free self.new q
            ≡ (if q == page then true else has_free self.old q) }
        ensures pages { length self.new.plain.places.items ≡ length self.old.plain.places.items }
    {
        if self.spared[page as usize] {
            self.spare.insert(page);
        } else {
            self.plain.insert(page);
        }
    }

    /// Takes the page that was added last; it takes a spared page only if there is no other.
    #[tactic(auto, unfolding(crate::specs::FreePages::has_free))]
    pub(crate) fn pop(&mut self) -> Option<u64>
        ensures some { IfSome result (λ page. has_free self.old page ≡ true) }
        ensures inside { IfSome result (λ page. page < length self.old.plain.places.items) }
        ensures has { IfSome result (λ page. (q : ℕ) → has_free self.new q
            ≡ (if q == page then false else has_free self.old q)) }
        ensures none { IfNone result ((q : ℕ) → has_free self.old q ≡ false) }
        ensures still_none { IfNone result ((q : ℕ) → has_free self.new q ≡ has_free self.old q) }
        ensures pages { length self.new.plain.places.items ≡ length self.old.plain.places.items }
    {
        if let Some(page) = self.plain.pop() {
            return Some(page);
        }
        let page = self.spare.pop()?;
        self.spared[page as usize] = false;
        Some(page)
    }

    /// Takes a page to hold a copy of `page`: the page that `page` was copied from, if that one is
    /// spared. Otherwise it takes the page that `pop` takes.
    #[tactic(auto, unfolding(crate::specs::FreePages::has_free))]
    pub(crate) fn pop_like(&mut self, page: u64) -> Option<u64>
        ensures some { IfSome result (λ copy. has_free self.old copy ≡ true) }
        ensures inside { IfSome result (λ copy. copy < length self.old.plain.places.items) }
        ensures has { IfSome result (λ copy. (q : ℕ) → has_free self.new q
            ≡ (if q == copy then false else has_free self.old q)) }
        ensures none { IfNone result ((q : ℕ) → has_free self.old q ≡ false) }
        ensures still_none { IfNone result ((q : ℕ) → has_free self.new q ≡ has_free self.old q) }
        ensures pages { length self.new.plain.places.items ≡ length self.old.plain.places.items }
    {
        let Some(&earlier) = self.earlier.get(page as usize) else {
            return self.pop();
        };
        let copy = match earlier {
            0 => self.pop()?,
            _ => self.pop_spared(earlier - 1)?,
        };
        self.earlier[copy as usize] = page + 1;
        self.spared[page as usize] = true;
        Some(copy)
    }

    /// Takes this page if it is spared, otherwise the page that `pop` takes.
    #[tactic(auto, unfolding(crate::specs::FreePages::has_free))]
    fn pop_spared(&mut self, page: u64) -> Option<u64>
        ensures some { IfSome result (λ copy. has_free self.old copy ≡ true) }
        ensures inside { IfSome result (λ copy. copy < length self.old.plain.places.items) }
        ensures has { IfSome result (λ copy. (q : ℕ) → has_free self.new q
            ≡ (if q == copy then false else has_free self.old q)) }
        ensures none { IfNone result ((q : ℕ) → has_free self.old q ≡ false) }
        ensures still_none { IfNone result ((q : ℕ) → has_free self.new q ≡ has_free self.old q) }
        ensures pages { length self.new.plain.places.items ≡ length self.old.plain.places.items }
    {
        if !self.spare.has(page) {
            return self.pop();
        }
        self.spare.remove(page);
        Some(page)
    }

    /// Returns how many pages are free.
    pub(crate) fn len(&self) -> usize
        ensures { result ≡ count_by is_place self.now.plain.places.items
            + count_by is_place self.now.spare.places.items }
    {
        self.plain.len() + self.spare.len()
    }
}
