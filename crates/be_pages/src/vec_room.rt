//! A page writer in memory: the places of a pool's pages, and their words, one page after another.
//! Tests use it in place of a table. So does code in which only one thread reads and writes.
ghost use Rattle.std.specs.Prelude.{◌≡◌, ◌≢◌, ℕ, ◌<◌, ◌≤◌, ◌*◌, false, length, vec_len, count_by};
ghost use Rattle.std.specs.Prelude.{slice_index, IfOk, IfErr, OnErr, ◌^◌};
ghost use Rattle.be_pages.specs.declared.room.PageState.TheVariants.{Free, Taken};
ghost use Rattle.be_pages.specs.Pages.{SetsStateAt, after_keep, after_undo, is_takable};
ghost use Rattle.be_pages.specs.PagePool.{places};
ghost use Rattle.be_pages.specs.Place.{is_retired, place_of};
ghost use Rattle.be_pages.specs.Refusal.{IsFullOf, IsLimitOrMemory};
ghost use Rattle.be_pages.specs.VecRoom.{NoneFree, page_state_in, page_states, pool_word};

use crate::page_pool::PagePool;
use crate::room::{Look, PAGE_WORDS, PageState, Room};
use be_value::Refusal;
use std::alloc::{AllocError, Global};

/// A pool of 8 to 16,384 pages in memory. Its write is always open.
#[derive(Drop)]
pub struct VecRoom {
    words: Vec<u64>,
    pool: PagePool,
    ghost pages_fit: { vec_len words ≡ length (places pool) * 512 },
    ghost at_most: { length (places pool) ≤ 16384 },
    ghost unretired: { (q : ℕ) → is_retired (place_of (places pool) q) ≡ false },
}

impl Look for VecRoom {
    ghost use Rattle.std.specs.Prelude.{ℕ, length, true};
    ghost use Rattle.be_pages.specs.PagePool.{places};
    ghost use Rattle.be_pages.specs.VecRoom.{page_state_in, pool_word, small_in};

    ghost Kept = { ℕ };

    ghost kept = { λ r. length (places r.pool) };

    ghost is_open = { λ _. true };

    ghost page_state = { λ r q. page_state_in (places r.pool) q };

    ghost words = { λ r q i. pool_word r.words.items q i };

    ghost pages_small = { λ r q some. small_in (places r.pool) q r.at_most some };

    fn word(&mut self, page: u64, i: usize) -> u64 {
        self.words[page as usize * PAGE_WORDS + i]
    }
}

impl Room for VecRoom {
    ghost use Rattle.be_pages.specs.PagePool.{places};
    ghost use Rattle.be_pages.specs.VecRoom.{NoneFree};

    ghost full = { λ r least. (least ≡ 0) × NoneFree (places r.pool) };

    #[tactic(auto, using(crate::proofs::Rooms::read_inside, crate::proofs::Rooms::taken_is))]
    fn is_taken(&self, page: u64) -> bool {
        self.pool.is_in_hand(page)
    }

    #[tactic(auto, using(crate::proofs::Rooms::taking))]
    fn take(&mut self) -> Result<u64, Refusal> {
        match self.pool.take() {
            Some(page) => Ok(page),
            None => Err(Refusal::Full(0)),
        }
    }

    fn take_like(&mut self, _page: u64) -> Result<u64, Refusal> {
        self.take()
    }

    #[tactic(auto, using(crate::proofs::Rooms::filling))]
    fn fill(&mut self, page: u64, i: usize, word: u64) {
        self.words[page as usize * PAGE_WORDS + i] = word;
        self.pool.fill(page);
    }

    #[tactic(auto, using(crate::proofs::Rooms::refilling))]
    fn refill(&mut self, page: u64, i: usize, word: u64) {
        self.words[page as usize * PAGE_WORDS + i] = word;
    }

    fn give_up(&mut self, page: u64) {
        self.pool.give_up(page);
    }
}

impl VecRoom {
    /// Creates a pool whose pages are all free. Fails with `BadLimits` if the number of pages is
    /// out of range, and otherwise with `OutOfMemory` if memory runs out.
    pub fn new(alloc: Global, pages: u64) -> Result<VecRoom, Refusal>
        ensures ok { IfOk result (λ r. (8 ≤ pages) × (pages ≤ 16384)
            × (⟦<VecRoom as Look>⟧.kept r ≡ pages)) }
        ensures free { IfOk result (λ r. (q : ℕ) → ⟦<VecRoom as Look>⟧.page_state r q ≡ Free) }
        ensures err { IfErr result (IsLimitOrMemory pages) }
    {
        if pages < 8 || pages > 16384 {
            return Err(Refusal::BadLimits);
        }
        VecRoom::of_pages(alloc, pages as usize).map_err(|_| Refusal::OutOfMemory)
    }

    fn of_pages(alloc: Global, pages: usize) -> Result<VecRoom, AllocError>
        requires { pages ≤ 16384 }
        ensures pages { IfOk result (λ r. length (places r.pool) ≡ pages) }
        ensures free { IfOk result (λ r. (q : ℕ) → page_state_in (places r.pool) q ≡ Free) }
    {
        let words = vec![in alloc; 0; pages * PAGE_WORDS]?;
        let pool = PagePool::new(alloc, pages, 0)?;
        Ok(VecRoom { words, pool })
    }

    /// Keeps the write: the pages that it gave up become free, and the pages that it took become
    /// old. The cost depends on how many pages the write touched.
    pub fn keep(&mut self)
        ensures page_state { (q : ℕ) → ⟦<VecRoom as Look>⟧.page_state self.new q
            ≡ after_keep (⟦<VecRoom as Look>⟧.page_state self.old q) }
        ensures words { ⟦<VecRoom as Look>⟧.words self.new ≡ ⟦<VecRoom as Look>⟧.words self.old }
        ensures kept { ⟦<VecRoom as Look>⟧.kept self.new ≡ ⟦<VecRoom as Look>⟧.kept self.old }
    {
        self.pool.keep();
    }

    /// Undoes the write: the pages that it took become free, and the pages that it gave up become
    /// old again.
    pub fn undo(&mut self)
        ensures page_state { (q : ℕ) → ⟦<VecRoom as Look>⟧.page_state self.new q
            ≡ after_undo (⟦<VecRoom as Look>⟧.page_state self.old q) }
        ensures words { ⟦<VecRoom as Look>⟧.words self.new ≡ ⟦<VecRoom as Look>⟧.words self.old }
        ensures kept { ⟦<VecRoom as Look>⟧.kept self.new ≡ ⟦<VecRoom as Look>⟧.kept self.old }
    {
        self.pool.undo();
    }

    /// Returns how many pages are free.
    #[tactic(auto, using(crate::proofs::Rooms::count_free))]
    pub fn free(&self) -> u64
        ensures { result ≡ count_by is_takable (page_states (places self.now.pool)) }
    {
        self.pool.free() as u64
    }
}
