//! The table that passes share, and the steps that readers take.
//!
//! Word 0 is LOCK: 0 if the lock is free, otherwise the writer's pass number + 1. Word 8 is
//! CURRENT: the current version's number times 2^32, plus its version page. Word 16 + 8 k is the
//! reader slot of pass k: 0 if empty, otherwise the published number + 1. Word i of page p is word
//! 528 + 512 p + i.
ghost use Rattle.std.specs.Prelude.{◌≡◌, ℕ, ◌<◌, false, length, map, IfErr, IfOk, MatchResult};
ghost use Rattle.std.specs.Prelude.{IsTrue};
ghost use Rattle.std.specs.Prelude.{slice_index};
ghost use Rattle.be_table.specs.Imports.{has};
ghost use Rattle.be_table.specs.Rule.{one_step_on, reach_at, word_place, page_at};

use crate::deal::{deal, gather, lay_first};
use crate::limits::Limits;
use crate::marks::PinnedVersion;
use crate::pass::View;
use crate::pinned::PinnedLook;
use crate::rule::{
    Announce, Arrive, Attest, Compare, Deal, Law, Learn, Lock, Look, LookAgain, PinnedWord, Unpin,
};
use crate::seat::Seat;
use crate::setting::{Setting, empty_volume};
use crate::witness::Witness;
use crate::writer_state::{WriterState, first_space};
use crate::writing::Writing;
use atomic_table::Table;
use be_core::Phase;
use be_journal::Journal;
use be_pages::{PAGE_WORDS, PagePool};
use be_value::Refusal;
use be_volume::Volume;
use std::alloc::Global;
use std::marker::Model;
use std::snapshot::Snapshot;

/// 0 while no pass holds the lock, otherwise the writer's pass number + 1.
pub(crate) const LOCK: usize = 0;

/// The current version: its number times 2^32, plus its version page.
pub(crate) const CURRENT: usize = 8;

/// Word ANNOUNCE + 8 * k is the reader slot of pass k, on its own cache line.
pub(crate) const ANNOUNCE: usize = 16;

/// The index of the first page's first word. Each page has `PAGE_WORDS` words.
pub(crate) const PAGES: usize = 528;

pub(crate) type Inner = Table<Option<WriterState>, View, Setting, Law, Global>;

/// The words, the slot and the limits of a table. Passes share it through a `&`.
#[derive(Drop)]
pub struct VersionTable {
    pub(crate) table: Inner,
    pub(crate) limits: Setting,
}

impl Model for VersionTable {
    ghost use Rattle.std.specs.Prelude.{◌≡◌, ◌+◌, ◌*◌};
    ghost use Rattle.be_table.specs.Place.{Opened};
    ghost use Rattle.be_table.specs.Setting.{IsSetting};
    ghost use Rattle.std.specs.Coded.{codes};
    ghost use Rattle.be_table.specs.Setting.{coded_setting};

    ghost Value = { Opened };

    ghost coded = { Prim.hlevel (codes, coded_setting) };

    ghost view = { λ t. record { id = t.table.shared.table_id; limits = t.table.shared.key } };

    ghost invariant = { λ t. (t.table.shared.table_id.words ≡ 528 + 512 * t.limits.pages)
        × (t.table.shared.table_id.slots ≡ 1)
        × (t.limits ≡ t.table.shared.key) × IsSetting t.limits };
}

impl VersionTable {
    ghost use Rattle.std.specs.Prelude.{[], ◌∷◌, ◌+◌, ◌*◌, ◌^◌, ◌≤◌, take};
    ghost use Rattle.be_table.specs.declared.pass.Move.TheVariants as moves;
    ghost use Rattle.be_table.specs.Imports.{empty, replay_from, IsLegalFrom, IsNumbered};
    ghost use Rattle.be_table.specs.Imports.{IsVersion, Pinned};
    ghost use Rattle.be_table.specs.History.{StartsWith, AreOfPasses};
    ghost use Rattle.be_table.specs.Reading.{pinned_page_state, word_of_page};
    ghost use Rattle.be_table.specs.Rule.{entries};
    ghost use Rattle.be_table.specs.Setting.{IsPossible, IsWithin, begins_empty, begins_with};
    ghost use Rattle.be_table.specs.Setting.{limits_of, pages_below};
    ghost use Rattle.be_table.specs.Steps.{announces, unpins, longer, KeepsSeen};
    ghost use Rattle.be_table.specs.Steps.{with_history};
    ghost use Rattle.be_table.specs.Trace.{HasTrace};
    ghost use Rattle.be_table.specs.Versions.{at_start, CanEncodeEach, EncodesVolume};
    ghost use Rattle.be_table.specs.Works.{IsSeatOf, IsWitnessOf, SeesMore, TakesLock, FoundHeld};
    ghost use Rattle.be_table.specs.Works.{PinsCurrent, Moves, AreAllSeats, AreNew, IsOpenRefused};
    ghost use Rattle.be_table.specs.Works.{IsLargeRefused, Meets, knows_of};
    ghost use Rattle.be_value.specs.declared.refusals.Refusal.TheVariants.{OutOfMemory};

    /// Creates a table with an empty journal, and returns it with its passes' seats in the order of
    /// their numbers. Version 0 consists only of page 0, which holds `first` and encodes the empty
    /// volume. All other pages are free.
    ///
    /// Fails with BadLimits if a limit is out of range, and otherwise with OutOfMemory if memory
    /// runs out. After that, only `reserve`, `journal_text` and `entry` allocate memory.
    pub fn open(
        alloc: Global,
        limits: Limits,
        first: &[u64; PAGE_WORDS],
    ) -> Result<(VersionTable, Vec<Seat>), Refusal>
        requires { IsVersion (λ q. at_start (has (0 ∷ []) q)) (λ q i. slice_index first.now i) 0
            empty }
        ensures { MatchResult result
            (λ r. (r.0.limits ≡ begins_empty limits) × (length r.1.items ≡ limits.passes)
            × AreNew r.0 0 r.1.items × IsWithin limits)
            (λ r. IsOpenRefused limits r) }
    {
        if !limits.are_within() {
            return Err(Refusal::BadLimits);
        }
        VersionTable::laid_out(alloc, limits, first)
    }

    /// Does what `open` does, for a table of up to 16,777,216 pages.
    pub fn open_large(
        alloc: Global,
        limits: Limits,
        first: &[u64; PAGE_WORDS],
    ) -> Result<(VersionTable, Vec<Seat>), Refusal>
        requires { IsVersion (λ q. at_start (has (0 ∷ []) q)) (λ q i. slice_index first.now i) 0
            empty }
        ensures { MatchResult result
            (λ r. (r.0.limits ≡ begins_empty limits) × (length r.1.items ≡ limits.passes)
            × AreNew r.0 0 r.1.items × IsPossible limits)
            (λ r. IsLargeRefused limits r) }
    {
        if !limits.are_possible() {
            return Err(Refusal::BadLimits);
        }
        VersionTable::laid_out(alloc, limits, first)
    }

    /// Creates a table with limits that are in range. The only error is `OutOfMemory`.
    fn laid_out(
        alloc: Global,
        limits: Limits,
        first: &[u64; PAGE_WORDS],
    ) -> Result<(VersionTable, Vec<Seat>), Refusal>
        requires limits { IsPossible limits }
        requires first { IsVersion (λ q. at_start (has (0 ∷ []) q)) (λ q i. slice_index first.now i)
            0 empty }
        ensures ok { IfOk result (λ r. (r.0.limits ≡ begins_empty limits)
            × (length r.1.items ≡ limits.passes) × AreNew r.0 0 r.1.items) }
        ensures err { IfErr result (λ r. r ≡ OutOfMemory) }
    {
        let Ok(mut words) = vec![in alloc; 0; PAGES + PAGE_WORDS * limits.pages as usize] else {
            return Err(Refusal::OutOfMemory);
        };
        lay_first(&mut words, first);
        let volume = empty_volume(alloc);
        VersionTable::open_with(alloc, limits, words.as_slice(), 1, volume)
    }

    /// Does what `open_large` does, for a table that begins with a given volume. `words` are all of
    /// the table's words before any step. Version 0 consists of the pages below `used`, which
    /// encode the volume, from page 0 on; all other pages are free. The only error is
    /// `OutOfMemory`.
    pub fn open_with(
        alloc: Global,
        limits: Limits,
        words: &[u64],
        used: u64,
        volume: Snapshot<Volume>,
    ) -> Result<(VersionTable, Vec<Seat>), Refusal>
        requires limits { IsPossible limits }
        requires used { used ≤ limits.pages }
        requires numbers { IsNumbered volume.value × (volume.value.next ≤ 2 ^ 63) }
        requires size { length words.now ≡ 528 + 512 * limits.pages }
        requires blank { (k : ℕ) → k < 528 → slice_index words.now k ≡ 0 }
        requires encoded { EncodesVolume (pages_below used) (word_of_page words.now) 0
            volume.value }
        ensures ok { IfOk result (λ r. (r.0.limits ≡ begins_with limits used volume.value)
            × (length r.1.items ≡ limits.passes) × AreNew r.0 0 r.1.items) }
        ensures err { IfErr result (λ r. r ≡ OutOfMemory) }
    {
        let Ok(mut seats) = Vec::with_capacity(alloc, limits.passes as usize) else {
            return Err(Refusal::OutOfMemory);
        };
        let Ok(mut slots) = Vec::with_capacity(alloc, 1) else {
            return Err(Refusal::OutOfMemory);
        };
        let Ok(pool) = PagePool::new(alloc, limits.pages as usize, used as usize) else {
            return Err(Refusal::OutOfMemory);
        };
        let Ok(space) = first_space(alloc) else {
            return Err(Refusal::OutOfMemory);
        };
        slots.push_reserved(Some(WriterState {
            journal: Journal::new(alloc, limits.commits),
            page: 0,
            pool,
            left: 0,
            space: Some(space),
        }));
        let passes = limits.passes;
        let limits = Setting::of(limits, used, volume);
        let Ok((table, mut rest)) = Inner::new(alloc, words, slots, &limits) else {
            return Err(Refusal::OutOfMemory);
        };
        deal(&table, &mut rest, passes, &mut seats);
        Ok((VersionTable { table, limits }, seats))
    }

    pub(crate) fn passes(&self) -> u64
        ensures { result ≡ self.now.limits.passes }
    {
        self.limits.limits().passes
    }

    pub(crate) fn limits(&self) -> Limits
        ensures { result ≡ limits_of self.now.limits }
    {
        self.limits.limits()
    }

    /// Returns what the table was opened with, which only contracts see.
    pub fn setting(&self) -> Snapshot<Setting>
        ensures { result.value ≡ self.now.limits }
    {
        Snapshot::of(&self.limits)
    }

    /// Looks at the whole journal so far, and returns its length. One load.
    pub fn look(&self, seat: &mut Seat) -> u64
        requires { IsSeatOf self.now seat.old }
        ensures seat { IsSeatOf self.now seat.new }
        ensures sees { SeesMore seat.old.knows seat.new.knows }
        ensures result { result ≡ length seat.new.knows.seen }
    {
        let (mut base, mut marks) = seat.move_out().into_base();
        let version = self.table.shared.load::<Look>(&mut base, CURRENT) >> 32;
        marks.seen = version;
        *seat = Seat::of(base, marks);
        version
    }

    /// Publishes the number that the pass looked at, by storing it in the pass's reader slot. From
    /// then on, no write's scan frees a page of that version or a later one. One store.
    pub fn announce(&self, seat: &mut Seat, number: u64)
        requires seat { IsSeatOf self.now seat.old }
        requires looked { seat.old.knows.phase ≡ Phase.Looked number }
        ensures seat { IsSeatOf self.now seat.new }
        ensures pass { seat.new.knows ≡ announces
            (with_history seat.old.knows seat.new.knows.history) number }
        ensures moves { Moves seat.old.knows (moves.Announce seat.old.knows.number ∷ [])
            seat.new.knows }
    {
        let (mut base, marks) = seat.move_out().into_base();
        let word = ANNOUNCE + 8 * marks.number as usize;
        self.table
            .shared
            .store::<Announce>(&mut base, word, number + 1);
        *seat = Seat::of(base, marks);
    }

    /// Pins the version that is current after the number was published; it may be newer than that
    /// number's version. Returns the pinned version's number and its version page. One load.
    pub fn look_again(&self, seat: &mut Seat) -> (u64, u64)
        requires seat { IsSeatOf self.now seat.old }
        requires announced { (x : ℕ) × (seat.old.knows.phase ≡ Phase.Announced x) }
        ensures seat { IsSeatOf self.now seat.new }
        ensures pass { PinsCurrent seat.old.knows seat.new.knows }
        ensures number { result.0 ≡ length seat.new.knows.seen }
        ensures page { result.1 ≡ page_at seat.new.knows.seen (length seat.new.knows.seen) }
    {
        let (mut base, mut marks) = seat.move_out().into_base();
        let word = self.table.shared.load::<LookAgain>(&mut base, CURRENT);
        let number = word >> 32;
        let page = word & 0xffff_ffff;
        marks.seen = number;
        marks.pin = Some(PinnedVersion { number, page });
        *seat = Seat::of(base, marks);
        (number, page)
    }

    /// Clears the reader slot. One store.
    pub fn unpin(&self, seat: &mut Seat)
        requires seat { IsSeatOf self.now seat.old }
        requires pinned { (x : ℕ) × (n : ℕ) × (seat.old.knows.phase ≡ Phase.Pinned x n) }
        ensures seat { IsSeatOf self.now seat.new }
        ensures pass { seat.new.knows ≡ unpins
            (with_history seat.old.knows seat.new.knows.history) }
        ensures moves { Moves seat.old.knows (moves.Unpin seat.old.knows.number ∷ [])
            seat.new.knows }
    {
        let (mut base, mut marks) = seat.move_out().into_base();
        let word = ANNOUNCE + 8 * marks.number as usize;
        self.table.shared.store::<Unpin>(&mut base, word, 0);
        marks.pin = None;
        *seat = Seat::of(base, marks);
    }

    /// Takes the lock. If another pass holds it, fails with Busy and the pass that was found
    /// holding it. One compare-exchange.
    pub fn lock(&self, seat: Seat) -> Result<Writing<'_>, (Seat, Refusal)>
        requires { IsSeatOf self.now seat }
        ensures { MatchResult result
            (λ w. (w.table ≡ self.now) × (w.reserved ≡ 0) × TakesLock seat.knows w.knows)
            (λ r. IsSeatOf self.now r.0 × FoundHeld r.1 seat.knows r.0.knows) }
    {
        let (mut base, marks) = seat.into_base();
        let shared = &self.table.shared;
        let found = shared.compare_exchange::<Lock>(&mut base, LOCK, 0, marks.number + 1);
        if found == 0 {
            let writer_state = shared.exchange(&mut base, 0, None).unwrap();
            Ok(Writing::of(self, base, marks, writer_state))
        } else {
            Err((Seat::of(base, marks), Refusal::Busy(found - 1)))
        }
    }

    /// Returns word `i` of a page of the pinned version, as it was when that version was published.
    /// One load.
    pub fn pinned_word(&self, seat: &mut Seat, page: u64, i: usize) -> u64
        requires seat { IsSeatOf self.now seat.old }
        requires pinned { (x : ℕ) × (n : ℕ) × (seat.old.knows.phase ≡ Phase.Pinned x n)
            × IsTrue (has (reach_at seat.old.knows.limits seat.old.knows.seen n) page) }
        requires place { i < 512 }
        ensures seat { IsSeatOf self.now seat.new }
        ensures pass { seat.new.knows ≡ one_step_on seat.old.knows }
        ensures word { result ≡ slice_index seat.old.knows.image (word_place page i) }
    {
        let (mut base, marks) = seat.move_out().into_base();
        let word = PAGES + PAGE_WORDS * page as usize + i;
        let found = self.table.shared.load::<PinnedWord>(&mut base, word);
        *seat = Seat::of(base, marks);
        found
    }

    /// Returns a reader of the pinned version's pages. They encode the volume after the first n
    /// entries of the journal, where n is the version's number. No step.
    pub fn pinned_look(&self, seat: Seat) -> PinnedLook<'_>
        requires seat { IsSeatOf self.now seat }
        requires pinned { (x : ℕ) × (n : ℕ) × (seat.knows.phase ≡ Phase.Pinned x n) }
        ensures look { (result.table ≡ self.now) × (result.knows ≡ seat.knows) }
        ensures version { (x n : ℕ) → seat.knows.phase ≡ Pinned x n
            → IsVersion (pinned_page_state result.knows) (word_of_page result.knows.image)
            (page_at result.knows.seen n)
            (replay_from result.knows.limits.volume (take n (entries result.knows.seen))) }
    {
        seat.is_pass();
        PinnedLook::of(self, seat)
    }

    /// Lets two passes share what they have seen, in three steps: it joins their seats, compares
    /// what they have seen with one load, and splits the seats again. Both passes have then seen
    /// the longer of their two prefixes of the journal. Returns its length. All that the two passes
    /// have done so far is in one trace, and a meeting adds nothing to it.
    pub fn meet(&self, left: Seat, right: Seat) -> (Seat, Seat, u64)
        requires { IsSeatOf self.now left × IsSeatOf self.now right }
        ensures seats { IsSeatOf self.now result.0 × IsSeatOf self.now result.1 }
        ensures left { Meets left.knows (longer left.knows.seen right.knows.seen) result.0.knows }
        ensures right { Meets right.knows (longer left.knows.seen right.knows.seen) result.1.knows }
        ensures length { result.2 ≡ length (longer left.knows.seen right.knows.seen) }
        ensures trace { HasTrace self.now.limits (left.knows ∷ right.knows ∷ []) }
    {
        let (mut base, mut marks) = left.into_base();
        let (other, mut other_marks) = right.into_base();
        let shared = &self.table.shared;
        shared.join_seat::<Deal>(&mut base, other);
        shared.load::<Compare>(&mut base, LOCK);
        let first = shared.split_seat::<Deal>(&mut base);
        let both = if marks.seen < other_marks.seen {
            other_marks.seen
        } else {
            marks.seen
        };
        marks.seen = both;
        other_marks.seen = both;
        (Seat::of(first, marks), Seat::of(base, other_marks), both)
    }

    /// Returns a witness of all that the pass has seen of the journal, for use on any thread. One
    /// load.
    pub fn witness(&self, seat: &mut Seat) -> Witness
        requires { IsSeatOf self.now seat.old }
        ensures seat { IsSeatOf self.now seat.new × (seat.new.knows ≡ one_step_on seat.old.knows) }
        ensures witness { IsWitnessOf self.now result × (result.seen ≡ seat.old.knows.seen) }
    {
        let (mut base, marks) = seat.move_out().into_base();
        let front = self.table.shared.split_seat::<Attest>(&mut base);
        *seat = Seat::of(base, marks);
        Witness::of(front, marks.seen)
    }

    /// Lets the pass and the witness share what they have seen, in three steps as in `meet`: it
    /// joins the seats, compares what they have seen with one load, and gives the witness a seat
    /// again. Both have then seen the longer of their two prefixes of the journal. Returns its
    /// length. No move.
    pub fn join(&self, seat: &mut Seat, witness: &mut Witness) -> u64
        requires { IsSeatOf self.now seat.old × IsWitnessOf self.now witness.old }
        ensures of { IsSeatOf self.now seat.new × IsWitnessOf self.now witness.new }
        ensures pass { Meets seat.old.knows (longer seat.old.knows.seen witness.old.seen)
            seat.new.knows }
        ensures witness { StartsWith (longer seat.old.knows.seen witness.old.seen) witness.old.seen
            × (witness.new.seen ≡ longer seat.old.knows.seen witness.old.seen) }
        ensures length { result ≡ length (longer seat.old.knows.seen witness.old.seen) }
    {
        let (mut base, mut marks) = seat.move_out().into_base();
        let (other, seen) = witness.move_out().into_base();
        let shared = &self.table.shared;
        shared.join_seat::<Deal>(&mut base, other);
        shared.load::<Learn>(&mut base, LOCK);
        let front = shared.split_seat::<Attest>(&mut base);
        let both = if marks.seen < seen { seen } else { marks.seen };
        marks.seen = both;
        *seat = Seat::of(base, marks);
        *witness = Witness::of(front, both);
        both
    }

    /// Returns the journal once all seats are back. The passes may still be pinned.
    pub fn close(self, seats: Vec<Seat>) -> Journal
        requires { AreAllSeats self seats.items }
        ensures legal { IsLegalFrom self.limits.volume result.entries }
        ensures by { AreOfPasses self.limits.passes result.entries }
        ensures seats { KeepsSeen result.entries (map knows_of seats.items) }
        ensures volumes { CanEncodeEach self.limits.pages self.limits.volume result.entries }
        ensures limit { result.limit ≡ self.limits.commits }
        ensures trace { HasTrace self.limits (map knows_of seats.items) }
    {
        let VersionTable { table, limits: _ } = self;
        // An empty seat absorbs the others.
        let (_, mut rest) = table.shared.load_new_seat::<Arrive>(LOCK);
        gather(&table, &mut rest, seats);
        let mut closed = table.close_with(rest);
        let slot = closed.take(0);
        closed.free();
        let Some(writer_state) = slot else {
            unreachable!()
        };
        writer_state.into_journal()
    }
}
