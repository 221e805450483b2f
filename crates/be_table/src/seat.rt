//! A pass's seat at the table.
//!
//! A seat is the right to take steps for one pass. No two seats share a pass, so a pass's knowledge
//! is available only to the owner of its seat. Along with that right it carries the pass's number,
//! how much of the journal the pass has seen, and its pin.
ghost use Rattle.std.specs.Prelude.{◌≡◌, ℕ, ◌<◌, true, false, [], length, IsTrue};
ghost use Rattle.be_table.specs.Imports.{has, Pinned};
ghost use Rattle.be_table.specs.Rule.{alone, pass_of, page_at, reach_at};

use crate::marks::Marks;
use crate::pass::View;
use crate::writer_state::WriterState;
use atomic_table::Badge;
use std::marker::Model;
use std::mem;

pub(crate) type Base = atomic_table::Seat<Option<WriterState>, View>;

/// The right to take steps for one pass. A seat that has been moved out is blank and can't take
/// steps.
#[derive(Drop)]
pub struct Seat {
    badge: Badge<View>,
    marks: Marks,
}

impl Model for Seat {
    ghost use Rattle.be_table.specs.Place.{SeatFacts};
    ghost use Rattle.std.specs.Coded.{codes};
    ghost use Rattle.be_table.specs.Setting.{coded_setting};

    ghost Value = { SeatFacts };

    ghost coded = { Prim.hlevel (codes, coded_setting) };

    ghost use Rattle.be_table.specs.Seats.{facts_of, IsPlaced};

    ghost view = { facts_of };

    ghost invariant = { IsPlaced };
}

impl Seat {
    ghost use Rattle.std.specs.Prelude.{take};
    ghost use Rattle.be_table.specs.Imports.{replay_from};
    ghost use Rattle.be_table.specs.Reading.{word_of_page};
    ghost use Rattle.be_table.specs.Rule.{entries};
    ghost use Rattle.be_table.specs.Seats.{IsReported, pin_of, pinned_number};
    ghost use Rattle.be_table.specs.Steps.{IsPass};
    ghost use Rattle.be_table.specs.Versions.{EncodesVolume};

    pub(crate) fn of(base: Base, marks: Marks) -> Seat
        requires number { marks.number < 64 }
        requires pass { base.me ≡ (alone (pass_of base.me.0), []) }
        requires reported { IsReported (pass_of base.me.0) marks.number marks.seen }
        requires pin { marks.pin ≡ pin_of (pass_of base.me.0).phase (pass_of base.me.0).seen }
        ensures { (result.blank ≡ false) × (result.table ≡ base.table_id)
            × (result.knows ≡ pass_of base.me.0) }
    {
        Seat {
            badge: base.into_badge(),
            marks,
        }
    }

    /// Returns the underlying seat and the pass's marks.
    pub(crate) fn into_base(self) -> (Base, Marks)
        requires { self.blank ≡ false }
        ensures pass { (result.0.table_id ≡ self.table) × (result.0.me ≡ (alone self.knows, [])) }
        ensures reported { (result.1.number < 64)
            × IsReported self.knows result.1.number result.1.seen }
        ensures pin { result.1.pin ≡ pin_of self.knows.phase self.knows.seen }
    {
        let Seat { badge, marks } = self;
        (badge.into_seat(), marks)
    }

    /// Returns the pass's number, counting from 0.
    pub fn number(&self) -> u64
        requires { self.now.blank ≡ false }
        ensures { result ≡ self.now.knows.number }
    {
        self.marks.number
    }

    /// Returns how many entries of the journal the pass has seen.
    pub fn seen(&self) -> u64
        requires { self.now.blank ≡ false }
        ensures { result ≡ length self.now.knows.seen }
    {
        self.marks.seen
    }

    /// Returns the number of the version to which the pass is pinned, or `None` if it isn't pinned.
    pub fn pinned(&self) -> Option<u64>
        requires { self.now.blank ≡ false }
        ensures { result ≡ pinned_number self.now.knows.phase }
    {
        match self.marks.pin {
            Some(pin) => Some(pin.number),
            None => None,
        }
    }

    /// Returns the version page of the version to which the pass is pinned. From there, the
    /// version's pages, with the words that they had when it was published, encode a volume. It is
    /// the volume after the first n entries of the journal, where n is the version's number.
    pub fn version_page(&self) -> u64
        requires seat { self.now.blank ≡ false }
        requires pinned { (x : ℕ) × (n : ℕ) × (self.now.knows.phase ≡ Pinned x n) }
        ensures page { (x n : ℕ) → self.now.knows.phase ≡ Pinned x n → result
            ≡ page_at self.now.knows.seen n }
        ensures readable { (x n : ℕ) → self.now.knows.phase ≡ Pinned x n
            → IsTrue (has (reach_at self.now.knows.limits self.now.knows.seen n) result) }
        ensures encoded { (x n : ℕ) → self.now.knows.phase ≡ Pinned x n
            → EncodesVolume (reach_at self.now.knows.limits self.now.knows.seen n)
            (word_of_page self.now.knows.image) (page_at self.now.knows.seen n)
            (replay_from self.now.knows.limits.volume (take n (entries self.now.knows.seen))) }
    {
        self.is_pass();
        match self.marks.pin {
            Some(pin) => pin.page,
            None => unreachable!(),
        }
    }

    /// A law of one seat: what holds for every pass holds for this one. A contract can't state this
    /// about a seat that it borrows. It does nothing.
    pub fn is_pass(&self)
        requires { self.now.blank ≡ false }
        ensures { IsPass self.now.knows }
    {
        let _ = &self.badge;
    }

    /// Moves the seat out and leaves a blank one in its place. No step.
    pub fn move_out(&mut self) -> Seat
        ensures { (result ≡ self.old) × (self.new.blank ≡ true) }
    {
        let marks = self.marks;
        let badge = mem::replace(&mut self.badge, Badge::blank());
        Seat { badge, marks }
    }
}
