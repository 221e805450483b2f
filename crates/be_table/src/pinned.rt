//! A reader of the version to which a pass is pinned.
//!
//! Its readable pages are those of the version, with the words that they had when it was published.
//! Each read is one load, and no other call takes a step.
ghost use Rattle.std.specs.Prelude.{◌≡◌, ◌<◌, IsTrue, slice_index};
ghost use Rattle.be_table.specs.Imports.{is_readable};
ghost use Rattle.be_table.specs.Reading.{pinned_page_state};
ghost use Rattle.be_table.specs.Rule.{one_step_on, word_place};

use crate::marks::Marks;
use crate::rule::PinnedWord;
use crate::seat::{Base, Seat};
use crate::table::{PAGES, VersionTable};
use be_pages::{Look, PAGE_WORDS};
use std::marker::Model;

/// A pinned pass as a reader of pages.
pub struct PinnedLook<'a> {
    table: &'a VersionTable,
    base: Base,
    marks: Marks,
}

impl<'a> Model for PinnedLook<'a> {
    ghost use Rattle.be_table.specs.Place.{Pin};
    ghost use Rattle.std.specs.Coded.{codes};
    ghost use Rattle.be_table.specs.Setting.{coded_setting};

    ghost Value = { Pin };

    ghost coded = { Prim.hlevel (codes, coded_setting) };

    ghost use Rattle.be_table.specs.Readers.{reader_of, IsReader};

    ghost view = { reader_of };

    ghost invariant = { IsReader };
}

impl<'a> PinnedLook<'a> {
    ghost use Rattle.be_table.specs.Works.{IsSeatOf};

    pub(crate) fn of(table: &'a VersionTable, seat: Seat) -> PinnedLook<'a>
        requires { IsSeatOf table.now seat }
        ensures { (result.table ≡ table.now) × (result.knows ≡ seat.knows) }
    {
        let (base, marks) = seat.into_base();
        PinnedLook { table, base, marks }
    }

    /// Returns word `i` of a page of the pinned version. One load.
    fn read(&mut self, page: u64, i: usize) -> u64
        requires page { IsTrue (is_readable (pinned_page_state self.old.knows page)) }
        requires place { i < 512 }
        ensures look { self.new ≡ record self.old { knows = one_step_on self.old.knows } }
        ensures word { result ≡ slice_index self.old.knows.image (word_place page i) }
    {
        let table = self.table;
        let word = PAGES + PAGE_WORDS * page as usize + i;
        table.table.shared.load::<PinnedWord>(&mut self.base, word)
    }

    /// Returns the seat.
    pub fn into_seat(self) -> Seat
        ensures { IsSeatOf self.entry.table result × (result.knows ≡ self.entry.knows) }
    {
        let PinnedLook {
            table: _,
            base,
            marks,
        } = self;
        Seat::of(base, marks)
    }
}

impl<'a> Look for PinnedLook<'a> {
    ghost use Rattle.std.specs.Prelude.{true};
    ghost use Rattle.be_table.specs.Place.{Opened};
    ghost use Rattle.be_table.specs.Reading.{steady, word_of_page, small_pin};
    ghost use Rattle.be_table.specs.declared.pass.Knowledge.{Knowledge};

    ghost Kept = { Opened × Knowledge };

    ghost kept = { λ p. (p.table, steady p.knows) };

    ghost is_open = { λ k. true };

    ghost page_state = { λ p q. pinned_page_state p.knows q };

    ghost words = { λ p q i. word_of_page p.knows.image q i };

    ghost pages_small = { small_pin };

    fn word(&mut self, page: u64, i: usize) -> u64 {
        self.read(page, i)
    }
}
