//! An open write: the pass holds the lock and owns the writer state.
//!
//! A write takes pages, fills them, gives pages up, and publishes. Until it publishes, no other
//! pass sees anything of it, and `unlock` undoes it. It has no `Drop`, so it can end only with
//! `unlock`, and the writer state is always put back.
ghost use Rattle.std.specs.Prelude.{map, get_or, slice_index, IsTrue, List, IfOk, IfErr, IfSome};
ghost use Rattle.std.specs.Prelude.{IfNone, ◌≢◌, Ok, string_bytes, ◌≡◌, ◌≤◌, All, suc, ◌+◌, ◌*◌};
ghost use Rattle.std.specs.Prelude.{◌^◌, ◌<◌, true, false, [], ◌∷◌, length, count_by, None};
ghost use Rattle.std.specs.Prelude.{MatchResult, ℕ};
ghost use Rattle.be_table.specs.declared.pass.Move.TheVariants as moves;
ghost use Rattle.be_table.specs.Imports.{given_place, is_held_page, is_in_hand, is_retired};
ghost use Rattle.be_table.specs.Imports.{place_of, Full, IsOperation, Taken};
ghost use Rattle.be_table.specs.Reading.{page_state_among};
ghost use Rattle.be_table.specs.Rule.{Reaches, alone, announce_word, pass_of, one_step_on};
ghost use Rattle.be_table.specs.Rule.{word_place, current_word, largest_pool};
ghost use Rattle.be_table.specs.Statuses.{FindsOldest, LieAt, Reports};
ghost use Rattle.be_table.specs.Steps.{AreFound, take_moves, fill_moves, given_moves, given_of};
ghost use Rattle.be_table.specs.Steps.{scans_of, NoneRetiredLater, IsPass, IsFound, MayPublish};
ghost use Rattle.be_table.specs.Steps.{publishes, ChangesAlone, MayBeFilled, MayReadAnnouncement};
ghost use Rattle.be_table.specs.Steps.{IsPart, fills_word, with_history, takes_page, gives_up};
ghost use Rattle.be_table.specs.Steps.{scans, scans_out, scans_all, lowest_found};
ghost use Rattle.be_table.specs.Steps.{IsLowestAnnounced, IsOwnLowest, UnreachedAreFree};
ghost use Rattle.be_table.specs.Trace.{Makes, upto_lock};
ghost use Rattle.be_table.specs.Working.{HasWorked, MakesForReason};
ghost use Rattle.be_table.specs.Works.{due_after, HasReasonToScan, Moves};

use crate::limits::Limits;
use crate::marks::Marks;
use crate::rule::{Fill, FoundFill, GiveUp, NextVersion, OwnWord, Publish, Scan, TakePage, Unlock};
use crate::seat::{Base, Seat};
use crate::status::{Announcement, Found, Status, older};
use crate::table::{ANNOUNCE, CURRENT, LOCK, PAGES, VersionTable};
use crate::writer_state::WriterState;
use be_journal::{Entry, replay_push};
use be_paged::Version;
use be_pages::{PAGE_WORDS, Place};
use be_value::Refusal;
use be_volume::{Done, Op};
use std::marker::{Brand, Model};

/// A retired page can be reused only after a scan has freed it. If a write lets the pool run empty
/// before it scans, it goes through the memory of every page, although the pages given up most
/// recently are still in the cache. A write gives up 6 to 16 pages, all of which map to the same
/// few lines of the cache. So the pages given up by the last two or three writes are still in the
/// nearest levels of the cache. While readers hold pages, scanning at every write frees nothing
/// more and costs one load per pass.
const EARLY: usize = 32;

/// How many pages must be retired, beyond those that the last whole scan left, before a scan pays.
/// If that scan left none, no reader holds pages, and every write scans. The pages that the last
/// write gave up are then free, so each page can be copied back to the page that it was copied
/// from.
fn due_after(left: usize) -> usize
    ensures { result ≡ due_after left }
{
    if left == 0 { 1 } else { EARLY }
}

/// An open write, whose pass holds the lock. It has no `Drop`, so it ends only with `unlock`.
pub struct Writing<'a> {
    table: &'a VersionTable,
    base: Base,
    marks: Marks,
    pub(crate) writer_state: WriterState,
    reserved: usize,
}

impl<'a> Model for Writing<'a> {
    ghost use Rattle.be_table.specs.Place.{Work};
    ghost use Rattle.std.specs.Coded.{codes};
    ghost use Rattle.be_table.specs.Setting.{coded_setting};

    ghost Value = { Work };

    ghost coded = { Prim.hlevel (codes, coded_setting) };

    ghost use Rattle.be_table.specs.Writes.{work_of, IsOpen};

    ghost view = { work_of };

    ghost invariant = { IsOpen };
}

impl<'a> Writing<'a> {
    ghost use Rattle.be_table.specs.Imports.{bit, is_kept, lines_from, reach, replay_from};
    ghost use Rattle.be_table.specs.Imports.{state_after};
    ghost use Rattle.be_table.specs.Imports.{times, Agrees, Answers, IsFullOf, IsVersion};
    ghost use Rattle.be_table.specs.Imports.{OutOfMemory};
    ghost use Rattle.be_table.specs.Reading.{word_of_page};
    ghost use Rattle.be_table.specs.Rule.{page_at, entries};
    ghost use Rattle.be_table.specs.Seats.{pin_of};
    ghost use Rattle.be_table.specs.Steps.{entry_by, without_lock};
    ghost use Rattle.be_table.specs.Works.{FillsWord, FindsNone, HasNoFree, HasNoRoom, IsSeatOf};
    ghost use Rattle.be_table.specs.Works.{MakesScan, TakesFree, TakesPage};

    pub(crate) fn of(
        table: &'a VersionTable,
        base: Base,
        marks: Marks,
        writer_state: WriterState,
    ) -> Writing<'a>
        requires seat { (base.table_id ≡ table.now.id)
            × (base.me ≡ (alone (pass_of base.me.0), (0, None) ∷ [])) }
        requires pass { ((pass_of base.me.0).number ≡ marks.number)
            × ((pass_of base.me.0).limits ≡ table.now.limits)
            × (marks.number < 64) × ((pass_of base.me.0).writes ≡ true)
            × IsPass (pass_of base.me.0) }
        requires writer_state { IsFound writer_state (pass_of base.me.0) }
        requires turn { (pass_of base.me.0).scanned ≡ 0 }
        requires pin { marks.pin ≡ pin_of (pass_of base.me.0).phase (pass_of base.me.0).seen }
        requires begun { upto_lock (pass_of base.me.0).number (pass_of base.me.0).history
            ≡ (pass_of base.me.0).history }
        ensures { (result.table ≡ table.now) × (result.knows ≡ pass_of base.me.0)
            × (result.reserved ≡ 0) }
    {
        Writing {
            table,
            base,
            marks,
            writer_state,
            reserved: 0,
        }
    }

    /// Returns the length of the journal and the version page. However long the journal is, the
    /// volume still has 64 node numbers left. No step.
    pub fn current(&self) -> (u64, u64)
        ensures version { (result.0 ≡ length self.now.knows.seen)
            × (result.1 ≡ page_at self.now.knows.seen (length self.now.knows.seen)) }
        ensures next { (replay_from self.now.knows.limits.volume
            (entries self.now.knows.seen)).next + 64 < 2 ^ 64 }
    {
        (self.writer_state.journal.len(), self.writer_state.page)
    }

    /// Takes out the buffer for a version's contents. If it is put back, the next write finds it.
    pub fn take_space(&mut self) -> Option<Box<Version>>
        ensures { self.new ≡ self.old }
    {
        self.writer_state.space.take()
    }

    /// Puts back what `take_space` took out.
    pub fn put_space(&mut self, space: Option<Box<Version>>)
        ensures { self.new ≡ self.old }
    {
        self.writer_state.space = space;
    }

    /// Returns the journal's text. May fail with OutOfMemory. No step.
    pub fn journal_text(&self) -> Result<String, Refusal>
        ensures { Answers string_bytes result (Ok (lines_from 1 (entries self.now.knows.seen))) }
    {
        self.writer_state.journal.text()
    }

    /// Returns a copy of the journal entry at index `i`, counting from 0. May fail with
    /// OutOfMemory. No step.
    pub fn entry(&self, i: u64) -> Result<Entry, Refusal>
        requires { i < length self.now.knows.seen }
        ensures ok { IfOk result (λ entry. entry ≡ get_or (entries self.now.knows.seen) i entry) }
        ensures err { IfErr result (λ e. e ≡ OutOfMemory) }
    {
        Ok(self.writer_state.journal.get(i).to_entry()?)
    }

    /// Returns word `i` of a page, as it is in the current version or as this write filled it. One
    /// load.
    pub fn own_word(&mut self, page: u64, i: usize) -> u64
        requires place { (page < length self.old.knows.places) × (i < 512) }
        ensures write { self.new ≡ record self.old { knows = one_step_on self.old.knows } }
        ensures word { result ≡ slice_index self.old.knows.words (word_place page i) }
    {
        let table = self.table;
        let word = PAGES + PAGE_WORDS * page as usize + i;
        table.table.shared.load::<OwnWord>(&mut self.base, word)
    }

    /// Returns `true` if this write has taken a page. No step.
    pub fn is_taken(&self, page: u64) -> bool
        requires page { page < length self.now.knows.places }
        ensures { result ≡ is_in_hand (place_of self.now.knows.places page) }
    {
        self.writer_state.pool.is_in_hand(page)
    }

    /// Writes word `i` of a page that this write took. One load, and one store unless the word is
    /// there already. A reused page already has many of the words, and a store costs far more than
    /// a load.
    pub fn fill(&mut self, page: u64, i: usize, word: u64)
        requires open { self.old.knows.published ≡ false }
        requires taken { (page < length self.old.knows.places)
            × IsTrue (is_in_hand (place_of self.old.knows.places page)) }
        requires place { i < 512 }
        ensures write { FillsWord self.old self.new page i word }
        ensures inside { word_place page i < length self.old.knows.words }
    {
        fill_word(self.table, &mut self.base, page, i, word);
        self.writer_state.pool.fill(page);
    }

    /// Does what `fill` does, for a page in which this write has already filled a word. It saves
    /// looking up the page's place.
    pub fn refill(&mut self, page: u64, i: usize, word: u64)
        requires open { self.old.knows.published ≡ false }
        requires filled { (page < length self.old.knows.places)
            × (place_of self.old.knows.places page ≡ Place.Filled) }
        requires place { i < 512 }
        ensures write { FillsWord self.old self.new page i word }
        ensures inside { word_place page i < length self.old.knows.words }
    {
        fill_word(self.table, &mut self.base, page, i, word);
    }

    /// Gives a page up. A page that this write took is free immediately; a page of the current
    /// version keeps its words until a scan frees it. One load.
    pub fn give_up(&mut self, page: u64)
        requires open { self.old.knows.published ≡ false }
        requires held { (page < length self.old.knows.places)
            × IsTrue (is_held_page (place_of self.old.knows.places page)) }
        ensures write { self.new ≡ record self.old
            { knows = gives_up (with_history self.old.knows self.new.knows.history) page } }
        ensures moves { Makes self.old.knows.number self.old.knows.history
            (given_moves self.old.knows page) self.new.knows.history }
    {
        // The load records that the page is given up.
        let table = self.table;
        table
            .table
            .shared
            .load::<GiveUp>(&mut self.base, PAGES + PAGE_WORDS * page as usize);
        self.writer_state.pool.give_up(page);
    }

    /// Takes the most recently freed page, if any page is free. A page that is spared for a copy is
    /// taken only if there is no other.
    fn take_free(&mut self) -> Option<u64>
        requires open { self.old.knows.published ≡ false }
        ensures taken { IfSome result (TakesFree self.old self.new) }
        ensures none { IfNone result (HasNoFree self.old) }
        ensures count { IfNone result (length self.old.knows.places ≡ self.old.knows.limits.pages) }
        ensures same { IfNone result (self.new ≡ self.old) }
    {
        let page = self.writer_state.pool.take()?;
        report_taken(self.table, &mut self.base, page);
        Some(page)
    }

    /// Takes a free page to hold a copy of `page`: the page that `page` was copied from, if that is
    /// free and spared. While readers hold pages, the pages that one write gives up aren't free at
    /// the next. In that case it takes the page that `take_free` would take.
    fn take_free_like(&mut self, page: u64) -> Option<u64>
        requires open { self.old.knows.published ≡ false }
        ensures taken { IfSome result (TakesFree self.old self.new) }
        ensures same { IfNone result (self.new ≡ self.old) }
    {
        if self.writer_state.left > 0 {
            return self.take_free();
        }
        let copy = self.writer_state.pool.take_like(page)?;
        report_taken(self.table, &mut self.base, copy);
        Some(copy)
    }

    /// Takes the most recently freed page. A page that is spared for a copy is taken only if there
    /// is no other. If no page is free, it scans first. If none is free after the scan either, it
    /// fails with Full and the lowest number that the scan found. This write then holds every page
    /// that belongs to no version with that number or a higher one. One load, plus the scan's loads
    /// if it scans.
    pub fn take(&mut self) -> Result<u64, Refusal>
        requires open { self.old.knows.published ≡ false }
        ensures ok { IfOk result (λ page. TakesPage self.old self.new page) }
        ensures full { IfErr result (IsFullOf (FindsNone self.old self.new)) }
    {
        if let Some(page) = self.take_free() {
            return Ok(page);
        }
        let least = self.scan();
        match self.take_free() {
            Some(page) => Ok(page),
            None => Err(Refusal::Full(least)),
        }
    }

    /// Takes a free page to hold a copy of `page`: the page that `page` was copied from, most of
    /// whose words are the same. That page must be free and spared, and the last whole scan must
    /// have left no page retired. Otherwise it takes the page that `take` would take, at the same
    /// cost.
    pub fn take_like(&mut self, page: u64) -> Result<u64, Refusal>
        requires open { self.old.knows.published ≡ false }
        ensures ok { IfOk result (λ page. TakesPage self.old self.new page) }
        ensures full { IfErr result (IsFullOf (FindsNone self.old self.new)) }
    {
        if let Some(copy) = self.take_free_like(page) {
            return Ok(copy);
        }
        self.take()
    }

    /// Returns `true` if a scan pays even though pages are free. It does once the retired pages
    /// outnumber those that the last whole scan had to leave for readers, by 1 if it left none and
    /// by 32 otherwise. There are never fewer retired pages than that scan left. No step.
    pub fn is_scan_due(&self) -> bool
        ensures due { result ≡ true → self.now.left + due_after self.now.left
            ≤ count_by is_retired self.now.knows.places }
        ensures not_yet { result ≡ false → count_by is_retired self.now.knows.places
            < self.now.left + due_after self.now.left }
        ensures left { self.now.left ≤ count_by is_retired self.now.knows.places }
    {
        let left = self.writer_state.left;
        self.writer_state.pool.retired().saturating_sub(left) >= due_after(left)
    }

    /// Reads every reader slot once. Returns the lowest of the numbers there and the current
    /// number; pages that were retired with a lower number are then free. One load per pass, and
    /// work for each page that becomes free. It may be called right after the lock is taken, or
    /// when no page is free.
    pub fn scan(&mut self) -> u64
        requires open { self.old.knows.published ≡ false }
        requires reason { HasReasonToScan self.old }
        ensures { MakesScan self.old self.new result }
    {
        self.survey().least
    }

    /// Scans, and also finds the oldest announcement.
    fn survey(&mut self) -> Found
        requires open { self.old.knows.published ≡ false }
        requires reason { HasReasonToScan self.old }
        ensures scan { MakesScan self.old self.new result.least }
        ensures oldest { FindsOldest self.old.knows.limits self.old.knows.number
            self.old.knows.history self.new.knows.history result.oldest }
        ensures places { LieAt self.old.knows.limits self.new.knows.history self.new.knows.places }
    {
        let current = self.writer_state.journal.len();
        let found = read_all(self.table, &mut self.base, current);
        self.writer_state.sweep(found.least);
        found
    }

    /// Returns the table's current figures, with this announcement. No step.
    fn count(&self, oldest: Option<Announcement>) -> Status
        ensures reports { Reports self.now.knows result }
        ensures oldest { result.oldest ≡ oldest }
    {
        let Limits { pages, commits, .. } = self.table.limits();
        Status {
            pages,
            free: self.writer_state.pool.free() as u64,
            retired: self.writer_state.pool.retired() as u64,
            entries: self.writer_state.journal.len(),
            commits,
            oldest,
        }
    }

    /// Scans, then returns how full the table is and the oldest announcement that the scan found.
    /// It costs the same as `scan`.
    pub fn status(&mut self) -> Status
        requires open { self.old.knows.published ≡ false }
        requires reason { HasReasonToScan self.old }
        ensures scan { (least : ℕ) × MakesScan self.old self.new least }
        ensures oldest { FindsOldest self.old.knows.limits self.old.knows.number
            self.old.knows.history self.new.knows.history result.oldest }
        ensures places { LieAt self.old.knows.limits self.new.knows.history self.new.knows.places }
        ensures reports { Reports self.new.knows result }
    {
        let found = self.survey();
        self.count(found.oldest)
    }

    /// Makes room for one entry of `count` operations. Fails with CommitsSpent if the journal has
    /// reached its limit, or with OutOfMemory. Either error leaves the write unchanged.
    #[tactic(auto, using(crate::proofs::Opened::no_room, crate::proofs::Opened::has_room))]
    pub fn reserve(&mut self, count: usize) -> Result<(), Refusal>
        requires open { self.old.knows.published ≡ false }
        requires count { (1 ≤ count) × (count ≤ 64) }
        ensures { MatchResult result
            (λ _. (self.new ≡ record self.old { reserved = count })
            × (length self.old.knows.seen < self.old.knows.limits.commits))
            (λ r. (self.new ≡ self.old) × HasNoRoom r self.old.knows) }
    {
        self.writer_state.reserve(count)?;
        self.reserved = count;
        Ok(())
    }

    /// A law: a filled page is a page of the table. It does nothing.
    fn is_filled(&self, page: u64)
        requires { page_state_among self.now.knows.places page ≡ Full }
        ensures { (page < length self.now.knows.places)
            × (place_of self.now.knows.places page ≡ Place.Filled) }
    {}

    /// Enters a write into the journal, with the version made of the pages that the write keeps.
    /// The version must encode the volume after the entry and reach exactly these pages. Returns
    /// the journal's length, which is the new version's number. One store, and work for each page
    /// that the write took or gave up; allocates no memory.
    pub fn publish(&mut self, page: u64, ops: &[Op], dones: &[Done]) -> u64
        requires open { self.old.knows.published ≡ false }
        requires count { (1 ≤ length ops.now) × (length ops.now ≤ 64) }
        requires reserved { length ops.now ≡ self.old.reserved }
        requires entry { Agrees
            (replay_from self.old.knows.limits.volume (entries self.old.knows.seen))
            (entry_by self.old.knows ops.now dones.now) }
        requires page { page_state_among self.old.knows.places page ≡ Full }
        requires filled { (q : ℕ) → page_state_among self.old.knows.places q ≢ Taken }
        requires volume { IsVersion (page_state_among self.old.knows.places)
            (word_of_page self.old.knows.words)
            page
            (state_after (replay_from self.old.knows.limits.volume (entries self.old.knows.seen))
            ops.now) }
        requires exact { (q : ℕ) → times q (reach (word_of_page self.old.knows.words) page)
            ≡ bit (is_kept (page_state_among self.old.knows.places q)) }
        ensures write { self.new ≡ record self.old {
          knows = publishes (with_history self.old.knows self.new.knows.history)
              (entry_by self.old.knows ops.now dones.now) page;
          reserved = 0;
        } }
        ensures moves { Moves self.old.knows
            (moves.Publish self.old.knows.number page (given_of self.old.knows) ∷ [])
            self.new.knows }
        ensures worked { HasWorked self.old.knows.limits self.old.knows.number
            self.old.knows.history }
        ensures result { result ≡ length self.new.knows.seen }
    {
        all_valid(ops);
        replay_push();
        self.is_filled(page);
        let number = self.marks.number;
        let version = self.writer_state.journal.len() + 1;
        let word = (version << 32) + page;
        store_version::<Brand>(self.table, &mut self.base, number, ops, dones, page, word);
        self.writer_state.append(number, ops, dones, page);
        self.reserved = 0;
        version
    }

    /// Puts the writer state back and releases the lock. Anything not yet published is undone. One
    /// store.
    pub fn unlock(self) -> Seat
        ensures seat { IsSeatOf self.entry.table result }
        ensures pass { result.knows ≡ without_lock
            (with_history self.entry.knows result.knows.history) }
        ensures moves { Moves self.entry.knows (moves.Unlock self.entry.knows.number ∷ [])
            result.knows }
        ensures worked { self.entry.knows.published ≡ false
            → HasWorked self.entry.knows.limits self.entry.knows.number self.entry.knows.history }
    {
        let Writing {
            table,
            mut base,
            mut marks,
            mut writer_state,
            reserved: _,
        } = self;
        marks.seen = writer_state.journal.len();
        writer_state.rest();
        let shared = &table.table.shared;
        let _ = shared.exchange(&mut base, 0, Some(writer_state));
        shared.store::<Unlock>(&mut base, LOCK, 0);
        Seat::of(base, marks)
    }
}

/// A law: the operations are valid operations of the program, as their types guarantee.
fn all_valid(ops: &[Op])
    ensures { All IsOperation ops.now }
{
    for op in ops {
        op.valid();
    }
}

/// The store to CURRENT, the single step at which the write takes effect.
fn store_version<E: NextVersion>(
    table: &VersionTable,
    base: &mut Base,
    by: u64,
    ops: &[Op],
    dones: &[Done],
    page: u64,
    word: u64,
)
    requires reported { (E.entry ≡ record { by = by; ops = ops.now; dones = dones.now })
        × (page ≡ E.page) }
    requires seat { base.old.table_id ≡ table.now.id }
    requires pass { (base.old.me.0 ≡ alone (pass_of base.old.me.0))
        × MayPublish table.now.limits (pass_of base.old.me.0) E.entry page }
    requires word { word ≡ current_word (length (pass_of base.old.me.0).seen + 1) page }
    ensures seat { (base.new.table_id ≡ base.old.table_id) × (base.new.id ≡ base.old.id) }
    ensures me { ChangesAlone base.old.me base.new.me (λ a. publishes a E.entry page) }
    ensures moves { Moves (pass_of base.old.me.0)
        (moves.Publish (pass_of base.old.me.0).number page (given_of (pass_of base.old.me.0)) ∷ [])
        (pass_of base.new.me.0) }
    ensures pass { IsPass (pass_of base.new.me.0) }
    ensures newest { NoneRetiredLater (pass_of base.old.me.0) }
{
    table.table.shared.store::<Publish<E>>(base, CURRENT, word)
}

/// The load that takes a page.
fn report_taken(table: &VersionTable, base: &mut Base, page: u64)
    requires seat { base.old.table_id ≡ table.now.id }
    requires pass { (base.old.me.0 ≡ alone (pass_of base.old.me.0))
        × ((pass_of base.old.me.0).writes ≡ true) × ((pass_of base.old.me.0).published ≡ false) }
    requires small { page < largest_pool }
    requires page { (page < table.now.limits.pages) × (page < length (pass_of base.old.me.0).places)
        × (place_of (pass_of base.old.me.0).places page ≡ Place.Free) }
    ensures seat { (base.new.table_id ≡ base.old.table_id) × (base.new.id ≡ base.old.id) }
    ensures me { ChangesAlone base.old.me base.new.me (λ a. takes_page a page) }
    ensures moves { Makes (pass_of base.old.me.0).number (pass_of base.old.me.0).history
        (take_moves (pass_of base.old.me.0) page) (pass_of base.new.me.0).history }
{
    let at = PAGES + PAGE_WORDS * page as usize;
    table.table.shared.load::<TakePage>(base, at);
}

/// Stores a word in a page that the write holds, unless it is there already.
fn fill_word(table: &VersionTable, base: &mut Base, page: u64, i: usize, word: u64)
    requires seat { base.old.table_id ≡ table.now.id }
    requires pass { (base.old.me.0 ≡ alone (pass_of base.old.me.0))
        × ((pass_of base.old.me.0).writes ≡ true) × ((pass_of base.old.me.0).published ≡ false) }
    requires small { page < largest_pool }
    requires page { (page < table.now.limits.pages)
        × MayBeFilled (pass_of base.old.me.0).places page }
    requires place { i < 512 }
    ensures seat { (base.new.table_id ≡ base.old.table_id) × (base.new.id ≡ base.old.id) }
    ensures me { ChangesAlone base.old.me base.new.me (λ a. fills_word a page i word) }
    ensures moves { Makes (pass_of base.old.me.0).number (pass_of base.old.me.0).history
        (fill_moves (pass_of base.old.me.0) page i word)
        (pass_of base.new.me.0).history }
{
    let shared = &table.table.shared;
    let at = PAGES + PAGE_WORDS * page as usize + i;
    let found = shared.load::<FoundFill>(base, at);
    if found != word {
        shared.store::<Fill>(base, at, word);
    }
}

/// Loads the reader slot of the pass whose turn it is in the scan.
fn read_announcement(table: &VersionTable, base: &mut Base, pass: u64) -> u64
    requires seat { base.old.table_id ≡ table.now.id }
    requires pass { MayReadAnnouncement table.now.limits base.old.me pass }
    ensures seat { (base.new.table_id ≡ base.old.table_id) × (base.new.id ≡ base.old.id) }
    ensures me { ChangesAlone base.old.me base.new.me (λ a. scans a result) }
    ensures moves { Makes (pass_of base.old.me.0).number (pass_of base.old.me.0).history
        (moves.Scan (pass_of base.old.me.0).number (pass_of base.old.me.0).scanned ∷ [])
        (pass_of base.new.me.0).history }
    ensures found { Reaches (pass_of base.new.me.0)
        (λ w. result ≡ announce_word (w.phases (pass_of base.old.me.0).scanned)) }
    ensures leaves { suc (pass_of base.old.me.0).scanned ≡ (pass_of base.old.me.0).limits.passes
        → UnreachedAreFree (scans_out (pass_of base.old.me.0) result) }
    ensures own { (pass_of base.old.me.0).scanned ≡ (pass_of base.old.me.0).number → result
        ≡ announce_word (pass_of base.old.me.0).phase }
    ensures reason { ((p : ℕ) → place_of (pass_of base.old.me.0).places p ≢ Place.Free)
        → MakesForReason (pass_of base.old.me.0).limits (pass_of base.old.me.0).number
        (pass_of base.old.me.0).history
        (moves.Scan (pass_of base.old.me.0).number (pass_of base.old.me.0).scanned ∷ [])
        (pass_of base.new.me.0).history }
{
    table
        .table
        .shared
        .load::<Scan>(base, ANNOUNCE + 8 * pass as usize)
}

fn lower(least: u64, found: u64) -> u64
    ensures { result ≡ lowest_found least found }
{
    if found == 0 {
        least
    } else {
        least.min(found - 1)
    }
}

fn read_all(table: &VersionTable, base: &mut Base, current: u64) -> Found
    requires seat { base.old.table_id ≡ table.now.id }
    requires pass { MayReadAnnouncement table.now.limits base.old.me 0 }
    requires number { (pass_of base.old.me.0).number < table.now.limits.passes }
    requires current { ((pass_of base.old.me.0).limits ≡ table.now.limits)
        × (current ≡ length (pass_of base.old.me.0).seen) }
    ensures seat { (base.new.table_id ≡ base.old.table_id) × (base.new.id ≡ base.old.id) }
    ensures me { (found : List ℕ) × (length found ≡ table.now.limits.passes)
        × (base.new.me ≡ (
          alone (with_history (scans_all (pass_of base.old.me.0) found)
              (pass_of base.new.me.0).history),
          base.old.me.1,
        ))
        × IsLowestAnnounced current found result.least
        × AreFound (pass_of base.old.me.0).limits (pass_of base.old.me.0).number
        (pass_of base.old.me.0).history (pass_of base.new.me.0).history found }
    ensures moves { Makes (pass_of base.old.me.0).number (pass_of base.old.me.0).history
        (scans_of (pass_of base.old.me.0).number table.now.limits.passes)
        (pass_of base.new.me.0).history }
    ensures reasons { ((p : ℕ) → place_of (pass_of base.old.me.0).places p ≢ Place.Free)
        → MakesForReason (pass_of base.old.me.0).limits (pass_of base.old.me.0).number
        (pass_of base.old.me.0).history
        (scans_of (pass_of base.old.me.0).number table.now.limits.passes)
        (pass_of base.new.me.0).history }
    ensures part { IsPart table.now.limits.passes (pass_of base.old.me.0) (pass_of base.new.me.0)
        table.now.limits.passes result.least }
    ensures own { IsOwnLowest (pass_of base.old.me.0) result.least }
    ensures oldest { FindsOldest (pass_of base.old.me.0).limits (pass_of base.old.me.0).number
        (pass_of base.old.me.0).history (pass_of base.new.me.0).history result.oldest }
    ensures places { LieAt (pass_of base.old.me.0).limits (pass_of base.new.me.0).history
        (pass_of base.new.me.0).places }
{
    let mut least = current;
    let mut oldest = None;
    for pass in 0..table.passes() {
        let found = read_announcement(table, base, pass);
        least = lower(least, found);
        oldest = older(oldest, found, pass);
    }
    Found { least, oldest }
}
