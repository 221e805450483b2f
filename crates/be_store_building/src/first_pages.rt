//! A page writer over the words of a table that isn't open yet.
ghost use Rattle.std.specs.Prelude.{◌≡◌, ◌≢◌, ℕ, ◌+◌, ◌*◌, ◌<◌, ◌≤◌, IsTrue, IfOk, IfSome, IfNone};
ghost use Rattle.std.specs.Prelude.{length, vec_len, slice_index, false, true};
ghost use Rattle.be_pages.specs.Pages.{is_from_before, is_taken};
ghost use Rattle.be_pages.specs.declared.room.PageState.TheVariants.{Free};
ghost use Rattle.be_store_building.specs.FirstPages.{NoneFree, state_in};
ghost use Rattle.be_table.specs.Setting.{largest_pool};

use be_pages::{Look, PAGE_WORDS, PageState, Room};
use be_value::Refusal;
use std::alloc::{AllocError, Global};

/// The number of words before the pages, which stay 0.
const WORDS_BEFORE: usize = 528;

/// All words of a table. It takes the lowest page that is free: pages 0, 1, 2 .. unless a page is
/// given up. Its write is always open.
#[derive(Drop)]
pub(crate) struct FirstPages {
    words: Vec<u64>,
    states: Vec<PageState>,
    /// No page below this one is free.
    used: usize,
    ghost size: { vec_len words ≡ 528 + 512 * vec_len states },
    ghost few: { length states.items ≤ largest_pool },
    ghost inside: { used ≤ vec_len states },
    ghost blank: { (k : ℕ) → k < 528 → slice_index words.items k ≡ 0 },
    ghost busy: { (q : ℕ) → q < used → state_in states.items q ≢ Free },
    ghost own: { (q : ℕ) → is_from_before (state_in states.items q) ≡ false },
}

impl Look for FirstPages {
    ghost use Rattle.std.specs.Prelude.{ℕ, length, true};
    ghost use Rattle.be_store_building.specs.FirstPages.{small_in, state_in};
    ghost use Rattle.be_table.specs.Reading.{word_of_page};

    ghost Kept = { ℕ };

    ghost kept = { λ r. length r.states.items };

    ghost is_open = { λ _. true };

    ghost page_state = { λ r q. state_in r.states.items q };

    ghost words = { λ r q i. word_of_page r.words.items q i };

    ghost pages_small = { λ r q some. small_in r.states.items q r.few some };

    fn word(&mut self, page: u64, i: usize) -> u64 {
        self.words[WORDS_BEFORE + page as usize * PAGE_WORDS + i]
    }
}

impl Room for FirstPages {
    ghost use Rattle.be_store_building.specs.FirstPages.{NoneFree};

    ghost full = { λ r least. (least ≡ 0) × NoneFree r.states.items };

    fn is_taken(&self, page: u64) -> bool {
        matches!(
            self.states[page as usize],
            PageState::Taken | PageState::Filled
        )
    }

    fn take(&mut self) -> Result<u64, Refusal> {
        let Some(page) = self.first_free() else {
            return Err(Refusal::Full(0));
        };
        self.states[page] = PageState::Taken;
        self.used = page + 1;
        Ok(page as u64)
    }

    fn take_like(&mut self, _page: u64) -> Result<u64, Refusal> {
        self.take()
    }

    fn fill(&mut self, page: u64, i: usize, word: u64) {
        self.words[WORDS_BEFORE + page as usize * PAGE_WORDS + i] = word;
        self.states[page as usize] = PageState::Filled;
    }

    fn refill(&mut self, page: u64, i: usize, word: u64) {
        self.words[WORDS_BEFORE + page as usize * PAGE_WORDS + i] = word;
    }

    fn give_up(&mut self, page: u64) {
        self.states[page as usize] = PageState::Free;
        self.used = self.used.min(page as usize);
    }
}

impl FirstPages {
    /// Begins with pages that are all free.
    pub(crate) fn new(alloc: Global, pages: usize) -> Result<FirstPages, AllocError>
        requires { pages ≤ largest_pool }
        ensures pages { IfOk result (λ r. length r.states.items ≡ pages) }
        ensures free { IfOk result (λ r. (q : ℕ) → state_in r.states.items q ≡ Free) }
    {
        let words = vec![in alloc; 0; WORDS_BEFORE + pages * PAGE_WORDS]?;
        let states = vec![in alloc; PageState::Free; pages]?;
        Ok(FirstPages {
            words,
            states,
            used: 0,
        })
    }

    /// Returns the lowest page that is free.
    fn first_free(&self) -> Option<usize>
        ensures free { IfSome result (λ page. (page < vec_len self.now.states)
            × (state_in self.now.states.items page ≡ Free)) }
        ensures lowest { IfSome result (λ page. (q : ℕ) → q < page
            → state_in self.now.states.items q ≢ Free) }
        ensures none { IfNone result (NoneFree self.now.states.items) }
    {
        let above = self.states[self.used..]
            .iter()
            .position(|state| *state == PageState::Free)?;
        Some(self.used + above)
    }

    /// Returns how many pages are in use, if these are the first ones: none was given up and not
    /// taken again.
    pub(crate) fn used(&self) -> Option<u64>
        ensures inside { IfSome result (λ used. used ≤ length self.now.states.items) }
        ensures taken { IfSome result (λ used. (q : ℕ) → q < used
            → IsTrue (is_taken (state_in self.now.states.items q))) }
        ensures free { IfSome result (λ used. (q : ℕ) → used ≤ q
            → state_in self.now.states.items q ≡ Free) }
    {
        if self.states[self.used..]
            .iter()
            .all(|state| *state == PageState::Free)
        {
            Some(self.used as u64)
        } else {
            None
        }
    }

    /// Returns all words of the table.
    pub(crate) fn words(&self) -> &[u64]
        ensures words { result.now ≡ self.now.words.items }
        ensures size { length result.now ≡ 528 + 512 * length self.now.states.items }
        ensures blank { (k : ℕ) → k < 528 → slice_index result.now k ≡ 0 }
    {
        &self.words
    }
}
