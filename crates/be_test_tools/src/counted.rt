//! Pages that count accesses.
ghost use Rattle.std.specs.Prelude.{◌≡◌};

use be_pages::{Look, Room};
use be_value::Refusal;

/// A page reader or page writer that counts the words read and stored, and the pages taken. As in a
/// table, a word that a page already has isn't stored again. Its facts are those of the reader or
/// writer inside it.
#[derive(Drop)]
pub struct Counted<P> {
    pub pages: P,
    pub reads: u64,
    pub stores: u64,
    pub takes: u64,
}

impl<P: Drop> Counted<P> {
    /// Counts accesses to these pages, beginning at 0.
    pub fn new(pages: P) -> Counted<P>
        ensures { result.pages ≡ pages }
    {
        Counted {
            pages,
            reads: 0,
            stores: 0,
            takes: 0,
        }
    }
}

impl<L: Look> Look for Counted<L> {
    ghost Kept = { L.Kept };

    ghost kept = { λ c. L.kept c.pages };

    ghost is_open = { L.is_open };

    ghost page_state = { λ c. L.page_state c.pages };

    ghost words = { λ c. L.words c.pages };

    ghost pages_small = { λ c q some. L.pages_small c.pages q some };

    fn word(&mut self, page: u64, i: usize) -> u64 {
        self.reads = self.reads.wrapping_add(1);
        self.pages.word(page, i)
    }
}

impl<R: Room> Room for Counted<R> {
    ghost full = { λ c least. R.full c.pages least };

    fn is_taken(&self, page: u64) -> bool {
        self.pages.is_taken(page)
    }

    fn take(&mut self) -> Result<u64, Refusal> {
        self.takes = self.takes.wrapping_add(1);
        self.pages.take()
    }

    fn take_like(&mut self, page: u64) -> Result<u64, Refusal> {
        self.takes = self.takes.wrapping_add(1);
        self.pages.take_like(page)
    }

    #[tactic(auto, using(crate::proofs::PageStates::taken_readable))]
    fn fill(&mut self, page: u64, i: usize, word: u64) {
        if self.pages.word(page, i) != word {
            self.stores = self.stores.wrapping_add(1);
        }
        self.pages.fill(page, i, word);
    }

    #[tactic(auto, using(crate::proofs::PageStates::filled_readable))]
    fn refill(&mut self, page: u64, i: usize, word: u64) {
        if self.pages.word(page, i) != word {
            self.stores = self.stores.wrapping_add(1);
        }
        self.pages.refill(page, i, word);
    }

    fn give_up(&mut self, page: u64) {
        self.pages.give_up(page)
    }
}
