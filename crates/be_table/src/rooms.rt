//! An open write as a page reader and a page writer.
//!
//! The trees use the traits of be_pages. This module gives an open write the same contract as a
//! page writer in memory: the state of each page, its words, and what no call changes. No call
//! changes the table, the pass's number, limits and phase, or what the pass has seen. The write
//! remains unpublished, and the history up to its lock is unchanged.

use crate::writing::Writing;
use be_pages::{Look, Room};
use be_value::Refusal;

impl<'a> Look for Writing<'a> {
    ghost use Rattle.std.specs.Prelude.{not};
    ghost use Rattle.be_table.specs.Reading.{StaysOpen, open_of, page_state_in_work, words_of};
    ghost use Rattle.be_table.specs.Reading.{small_open};

    ghost Kept = { StaysOpen };

    ghost kept = { open_of };

    ghost is_open = { λ k. not k.published };

    ghost page_state = { page_state_in_work };

    ghost words = { words_of };

    ghost pages_small = { small_open };

    fn word(&mut self, page: u64, i: usize) -> u64 {
        self.own_word(page, i)
    }
}

impl<'a> Room for Writing<'a> {
    ghost use Rattle.be_table.specs.Works.{IsFull};

    ghost full = { IsFull };

    #[tactic(auto, using(crate::proofs::PageStates::taken))]
    fn is_taken(&self, page: u64) -> bool {
        Writing::is_taken(self, page)
    }

    fn take(&mut self) -> Result<u64, Refusal> {
        Writing::take(self)
    }

    fn take_like(&mut self, page: u64) -> Result<u64, Refusal> {
        Writing::take_like(self, page)
    }

    fn fill(&mut self, page: u64, i: usize, word: u64) {
        Writing::fill(self, page, i, word)
    }

    fn refill(&mut self, page: u64, i: usize, word: u64) {
        Writing::refill(self, page, i, word)
    }

    fn give_up(&mut self, page: u64) {
        Writing::give_up(self, page)
    }
}
