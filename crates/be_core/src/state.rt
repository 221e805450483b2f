//! An executable machine: it applies events one by one, and returns whether each was allowed.
//!
//! A `State` represents a state of the machine (`shown`). It doesn't keep the words of past
//! versions, so `shown` takes them as an argument, and each clause holds for any such words.
ghost use Rattle.std.specs.Prelude.{◌≡◌, ◌≢◌, ℕ, suc, ◌+◌, ◌<◌, ◌≤◌, ◌^◌, vec_len, length};
ghost use Rattle.std.specs.Prelude.{slice_index_or, false, ◌||◌, if◌then◌else◌};
ghost use Rattle.std.specs.Prelude.{◌&&◌, not, All, AllPairs, IsTrue, IfOk, Vec, Bool, ◌∷◌, []};
ghost use Rattle.std.specs.Prelude.{◌==◌, slice_index, nat_lt, ◌↔◌};
ghost use Rattle.std.specs.declared.alloc.Global.{Global};
ghost use Rattle.be_core.specs.Machine.{is_below, has};

use crate::event::{Event, Phase};
use be_value::Refusal;
use std::alloc::{AllocError, Global};

/// The writer: its pass, how many reader slots its scan has read, the minimum so far, and whether
/// it has published.
#[derive(Clone, Copy)]
struct Writer {
    pass: u64,
    scanned: u64,
    least: u64,
    published: bool,
}

/// The machine's state: each version's pages, the words of all pages, and which set each page is
/// in.
#[derive(Drop)]
pub struct State {
    alloc: Global,
    commits: u64,
    current: u64,
    reach: Vec<Vec<bool>>,
    words: Vec<[u64; 512]>,
    free: Vec<bool>,
    taken: Vec<bool>,
    retired: Vec<Option<u64>>,
    writer: Option<Writer>,
    phases: Vec<Phase>,
    ghost in_free: { vec_len free ≡ vec_len words },
    ghost in_taken: { vec_len taken ≡ vec_len words },
    ghost in_retired: { vec_len retired ≡ vec_len words },
    ghost versions: { vec_len reach ≡ current + 1 },
    ghost rows: { All (λ row. vec_len row ≡ vec_len words) reach.items },
    ghost few: { commits < 2 ^ 32 },
}

/// Adds the members of `other` to `set`.
fn add_all(set: &mut Vec<bool>, other: &Vec<bool>)
    requires { vec_len set.old ≡ vec_len other.now }
    ensures len { vec_len set.new ≡ vec_len set.old }
    ensures either { (p : ℕ) → slice_index_or set.new.items p false
        ≡ (slice_index_or set.old.items p false || slice_index_or other.now.items p false) }
{
    for p in 0..set.len() {
        set[p] = set[p] || other[p];
    }
}

fn empty_set(alloc: Global, len: usize) -> Result<Vec<bool>, AllocError>
    ensures len { IfOk result (λ set. vec_len set ≡ len) }
    ensures empty { IfOk result (λ set. (p : ℕ) → slice_index_or set.items p false ≡ false) }
{
    Ok(vec![in alloc; false; len]?)
}

/// Returns the pages of version 0: only page 0.
fn first_row(alloc: Global, len: usize) -> Result<Vec<bool>, AllocError>
    requires { 0 < len }
    ensures len { IfOk result (λ row. vec_len row ≡ len) }
    ensures first { IfOk result (λ row. (p : ℕ) → slice_index_or row.items p false ≡ nat_lt p 1) }
{
    let mut row = empty_set(alloc, len)?;
    row[0] = true;
    Ok(row)
}

fn zero_pages(alloc: Global, len: usize) -> Result<Vec<[u64; 512]>, AllocError>
    ensures len { IfOk result (λ words. vec_len words ≡ len) }
    ensures zero { IfOk result (λ words. (p i : ℕ) → slice_index (slice_index_or words.items p []) i
        ≡ 0) }
{
    let mut words = Vec::new(alloc);
    for _page in 0..len {
        words.push([0; 512])?;
    }
    Ok(words)
}

/// Returns the pages that are free at first: all except page 0.
fn first_free(alloc: Global, len: usize) -> Result<Vec<bool>, AllocError>
    requires { 0 < len }
    ensures len { IfOk result (λ free. vec_len free ≡ len) }
    ensures others { IfOk result (λ free. (p : ℕ) → slice_index_or free.items p false
        ≡ (nat_lt p len && not (nat_lt p 1))) }
{
    let mut free = vec![in alloc; true; len]?;
    free[0] = false;
    Ok(free)
}

fn none_retired(alloc: Global, len: usize) -> Result<Vec<Option<u64>>, AllocError>
    ensures len { IfOk result (λ retired. vec_len retired ≡ len) }
    ensures none { IfOk result (λ retired. (p : ℕ) → slice_index_or retired.items p None ≡ None) }
{
    Ok(vec![in alloc; None; len]?)
}

fn all_idle(alloc: Global, len: usize) -> Result<Vec<Phase>, AllocError>
    ensures len { IfOk result (λ phases. vec_len phases ≡ len) }
    ensures idle { IfOk result (λ phases. (k : ℕ) → slice_index_or phases.items k Phase.Idle
        ≡ Phase.Idle) }
{
    Ok(vec![in alloc; Phase::Idle; len]?)
}

fn clear(set: &mut Vec<bool>)
    ensures len { vec_len set.new ≡ vec_len set.old }
    ensures empty { (p : ℕ) → slice_index_or set.new.items p false ≡ false }
{
    set.fill(false);
}

/// Frees each page that was retired with a number below the minimum.
fn sweep(free: &mut Vec<bool>, retired: &mut Vec<Option<u64>>, least: u64)
    requires { vec_len free.old ≡ vec_len retired.old }
    ensures len_free { vec_len free.new ≡ vec_len free.old }
    ensures len_retired { vec_len retired.new ≡ vec_len retired.old }
    ensures freed { (p : ℕ) → slice_index_or free.new.items p false
        ≡ (slice_index_or free.old.items p false
        || is_below least (slice_index_or retired.old.items p None)) }
    ensures left { (p : ℕ) → slice_index_or retired.new.items p None
        ≡ (if is_below least (slice_index_or retired.old.items p None) then None
        else slice_index_or retired.old.items p None) }
{
    for p in 0..free.len() {
        if let Some(r) = retired[p]
            && r < least
        {
            free[p] = true;
            retired[p] = None;
        }
    }
}

/// Removes the given pages from a set.
fn remove_all(set: &mut Vec<bool>, given: &[u64])
    requires { All (λ p. p < vec_len set.old) given.now }
    ensures len { vec_len set.new ≡ vec_len set.old }
    ensures without { (p : ℕ) → slice_index_or set.new.items p false
        ≡ (slice_index_or set.old.items p false && not (has given.now p)) }
{
    for p in given {
        set[*p as usize] = false;
    }
}

/// Retires the given pages with this number.
fn retire(retired: &mut Vec<Option<u64>>, given: &[u64], number: u64)
    requires { All (λ p. p < vec_len retired.old) given.now }
    ensures len { vec_len retired.new ≡ vec_len retired.old }
    ensures retired { (p : ℕ) → slice_index_or retired.new.items p None
        ≡ (if has given.now p then Some number else slice_index_or retired.old.items p None) }
{
    for p in given {
        retired[*p as usize] = Some(number);
    }
}

fn is_distinct(given: &[u64]) -> bool
    ensures { IsTrue result ↔ AllPairs ◌≢◌ given.now }
{
    for i in 0..given.len() {
        for j in 0..i {
            if given[j] == given[i] {
                return false;
            }
        }
    }
    true
}

impl State {
    ghost use Rattle.std.specs.Prelude.{IfOk, OnErr, IsOk, IsOkUnless, IsTrue, IsFalse, IfNone};
    ghost use Rattle.std.specs.Prelude.{IfSome, IsNone, ◌↔◌, All, ◌&&◌, ◌||◌, not, slice_index};
    ghost use Rattle.std.specs.Prelude.{slice_index_or};
    ghost use Rattle.be_core.specs.Machine.{World, Allowed, after_event, MayLook, after_look};
    ghost use Rattle.be_core.specs.Machine.{MayAnnounce, after_announce, MayLookAgain};
    ghost use Rattle.be_core.specs.Machine.{after_look_again, MayUnpin, after_unpin, MayLock};
    ghost use Rattle.be_core.specs.Machine.{after_lock, MayUnlock, after_unlock, MayFill};
    ghost use Rattle.be_core.specs.Machine.{after_fill, MayRead, HasOpenWrite, MayScan, after_scan};
    ghost use Rattle.be_core.specs.Machine.{MayPublish, after_publish, has, first_state};
    ghost use Rattle.be_core.specs.Machine.{most_pages, zeros, AreLimits};
    ghost use Rattle.be_core.specs.Machine as machine;
    ghost use Rattle.be_core.specs.Laws.{LeavesNone};
    ghost use Rattle.be_core.specs.Shown.{shown, MakesStep, ShowsSound, Images, blank, as_writer};
    ghost use Rattle.be_core.specs.Shown.{IsUnchanged, page_count};

    /// Creates the first state, with every word 0: version 0 has only page 0, and every other page
    /// is free. Fails with `BadLimits` unless there are 1 to 16,384 pages, 1 to 64 passes and 1 to
    /// 4,294,967,295 commits. Each page costs 4 KiB of memory.
    pub fn new(alloc: Global, pages: u64, passes: u64, commits: u64) -> Result<State, Refusal>
        ensures first { IfOk result (λ s. shown s blank
            ≡ first_state pages 1 passes commits zeros) }
        ensures size { IfOk result (λ s. page_count s ≡ pages) }
        ensures within { IsOk result → AreLimits 1 most_pages pages passes commits }
        ensures sound { IfOk result (λ s. ShowsSound s) }
        ensures limits { (result ≡ Err Refusal.BadLimits)
            ↔ (¬ (AreLimits 1 most_pages pages passes commits)) }
        ensures memory { AreLimits 1 most_pages pages passes commits
            → IsOkUnless result Refusal.OutOfMemory }
    {
        if pages == 0 || pages > 16_384 {
            return Err(Refusal::BadLimits);
        }
        if passes == 0 || passes > 64 {
            return Err(Refusal::BadLimits);
        }
        if commits == 0 || commits > 4_294_967_295 {
            return Err(Refusal::BadLimits);
        }
        let len = pages as usize;
        Ok(State {
            alloc,
            commits,
            current: 0,
            reach: vec![in alloc; first_row(alloc, len)?]?,
            words: zero_pages(alloc, len)?,
            free: first_free(alloc, len)?,
            taken: empty_set(alloc, len)?,
            retired: none_retired(alloc, len)?,
            writer: None,
            phases: all_idle(alloc, passes as usize)?,
        })
    }

    /// Returns the word at place `i` of a page.
    pub fn word(&self, page: u64, i: usize) -> u64
        requires page_in { page < page_count self.now }
        requires place_in { i < 512 }
        ensures { result ≡ (shown self.now blank).words page i }
    {
        self.words[page as usize][i]
    }

    /// Returns the phase of pass k, or `None` if there is no such pass.
    fn phase(&self, k: u64) -> Option<Phase>
        ensures phase { IfSome result (λ phase. (k < vec_len self.now.phases)
            × (slice_index_or self.now.phases.items k Phase.Idle ≡ phase)) }
        ensures none { IfNone result (vec_len self.now.phases ≤ k) }
    {
        if k >= self.phases.len() as u64 {
            return None;
        }
        Some(self.phases[k as usize])
    }

    fn look(&mut self, k: u64) -> bool
        ensures done { MakesStep self.old (λ w. MayLook w k) (λ w. after_look w k) result self.new }
        ensures size { page_count self.new ≡ page_count self.old }
    {
        let Some(phase) = self.phase(k) else {
            return false;
        };
        if let Phase::Idle | Phase::Looked(_) = phase {
            self.phases[k as usize] = Phase::Looked(self.current);
        }
        true
    }

    fn announce(&mut self, k: u64) -> bool
        ensures done { MakesStep self.old (λ w. MayAnnounce w k) (λ w. after_announce w k) result
            self.new }
        ensures size { page_count self.new ≡ page_count self.old }
    {
        match self.phase(k) {
            Some(Phase::Looked(a)) => {
                self.phases[k as usize] = Phase::Announced(a);
                true
            }
            Some(Phase::Idle | Phase::Announced(_) | Phase::Pinned(_, _)) | None => false,
        }
    }

    fn look_again(&mut self, k: u64) -> bool
        ensures done { MakesStep self.old (λ w. MayLookAgain w k) (λ w. after_look_again w k) result
            self.new }
        ensures size { page_count self.new ≡ page_count self.old }
    {
        match self.phase(k) {
            Some(Phase::Announced(a)) => {
                self.phases[k as usize] = Phase::Pinned(a, self.current);
                true
            }
            Some(Phase::Idle | Phase::Looked(_) | Phase::Pinned(_, _)) | None => false,
        }
    }

    fn unpin(&mut self, k: u64) -> bool
        ensures done { MakesStep self.old (λ w. MayUnpin w k) (λ w. after_unpin w k) result
            self.new }
        ensures size { page_count self.new ≡ page_count self.old }
    {
        match self.phase(k) {
            Some(Phase::Pinned(_, _)) => {
                self.phases[k as usize] = Phase::Idle;
                true
            }
            Some(Phase::Idle | Phase::Looked(_) | Phase::Announced(_)) | None => false,
        }
    }

    /// Returns `true` if the version has the page.
    fn reaches(&self, version: u64, page: u64) -> bool
        ensures { result ≡ (shown self.now blank).reach version page }
    {
        match self.reach.get(version as usize) {
            Some(row) => match row.get(page as usize) {
                Some(&is_in) => is_in,
                None => false,
            },
            None => false,
        }
    }

    fn may_read(&self, k: u64, page: u64, i: usize) -> bool
        ensures { IsTrue result ↔ MayRead (shown self.now blank) k page i }
    {
        if k >= self.phases.len() as u64 || i >= 512 {
            return false;
        }
        match self.phases[k as usize] {
            Phase::Pinned(_, n) => self.reaches(n, page),
            Phase::Idle | Phase::Looked(_) | Phase::Announced(_) => false,
        }
    }

    /// Pass k takes the lock. Returns false and changes nothing if there is no such pass or the
    /// lock is held.
    fn lock(&mut self, k: u64) -> bool
        ensures done { MakesStep self.old (λ w. MayLock w k) (λ w. after_lock w k) result self.new }
        ensures size { page_count self.new ≡ page_count self.old }
    {
        if k >= self.phases.len() as u64 || self.writer.is_some() {
            return false;
        }
        clear(&mut self.taken);
        self.writer = Some(Writer {
            pass: k,
            scanned: 0,
            least: self.current,
            published: false,
        });
        true
    }

    fn unlock(&mut self, k: u64) -> bool
        ensures done { MakesStep self.old (λ w. MayUnlock w k) (λ w. after_unlock w) result
            self.new }
        ensures size { page_count self.new ≡ page_count self.old }
    {
        match self.writer {
            Some(h) if h.pass == k => {}
            _ => return false,
        }
        add_all(&mut self.free, &self.taken);
        clear(&mut self.taken);
        self.writer = None;
        true
    }

    /// Returns `true` if pass k holds the lock and hasn't published.
    fn writes(&self, k: u64) -> bool
        ensures { IsTrue result ↔ ((h : machine.Writer) × HasOpenWrite (shown self.now blank) k h) }
    {
        match self.writer {
            Some(h) => h.pass == k && !h.published,
            None => false,
        }
    }

    fn may_fill(&self, k: u64, page: u64, i: usize) -> bool
        ensures { IsTrue result ↔ MayFill (shown self.now blank) k page i }
    {
        if page >= self.words.len() as u64 || i >= 512 || !self.writes(k) {
            return false;
        }
        let p = page as usize;
        self.taken[p] || self.free[p]
    }

    fn fill(&mut self, k: u64, page: u64, i: usize, word: u64) -> bool
        ensures done { MakesStep self.old (λ w. MayFill w k page i) (λ w. after_fill w page i word)
            result self.new }
        ensures size { page_count self.new ≡ page_count self.old }
    {
        if !self.may_fill(k, page, i) {
            return false;
        }
        let p = page as usize;
        self.taken[p] = true;
        self.free[p] = false;
        let words = &mut self.words[p];
        words[i] = word;
        true
    }

    /// Returns the writer's state if pass k may read the reader slot of pass j.
    fn scanner(&self, k: u64, j: u64) -> Option<Writer>
        ensures some { IfSome result (λ h. (self.now.writer ≡ Some h)
            × MayScan (shown self.now blank) k j) }
        ensures none { IsNone result → ¬ (MayScan (shown self.now blank) k j) }
    {
        if j >= self.phases.len() as u64 || !self.writes(k) {
            return None;
        }
        match self.writer {
            Some(h) if h.scanned == j => Some(h),
            _ => None,
        }
    }

    /// Returns the minimum once the reader slot of pass j has been read.
    fn lowest_after(&self, h: Writer, j: u64) -> u64
        requires { j < vec_len self.now.phases }
        ensures { result ≡ machine.lowest_after (shown self.now blank) (as_writer h) j }
    {
        let least = if j == 0 { self.current } else { h.least };
        match self.phases[j as usize] {
            Phase::Announced(a) | Phase::Pinned(a, _) => least.min(a),
            Phase::Idle | Phase::Looked(_) => least,
        }
    }

    /// Writer k reads the reader slot of pass j, the next one in its scan. After the last one, it
    /// frees each page that was retired with a number below the minimum found. Returns false and
    /// changes nothing if the step isn't allowed.
    fn scan(&mut self, k: u64, j: u64) -> bool
        ensures done { MakesStep self.old (λ w. MayScan w k j) (λ w. after_scan w j) result
            self.new }
        ensures size { page_count self.new ≡ page_count self.old }
    {
        let Some(h) = self.scanner(k, j) else {
            return false;
        };
        let least = self.lowest_after(h, j);
        if j + 1 == self.phases.len() as u64 {
            sweep(&mut self.free, &mut self.retired, least);
            self.writer = Some(Writer {
                scanned: 0,
                least,
                ..h
            });
        } else {
            self.writer = Some(Writer {
                scanned: j + 1,
                least,
                ..h
            });
        }
        true
    }

    fn may_publish(&self, k: u64, version: u64, given: &[u64]) -> bool
        ensures { IsTrue result ↔ MayPublish (shown self.now blank) k version given.now }
    {
        if self.current >= self.commits || version >= self.words.len() as u64 || !self.writes(k) {
            return false;
        }
        self.taken[version as usize] && is_distinct(given) && self.reaches_all(given)
    }

    fn reaches_all(&self, given: &[u64]) -> bool
        ensures { IsTrue result ↔ All (λ p. IsTrue
            ((shown self.now blank).reach self.now.current p)) given.now }
    {
        given.iter().all(|p| self.reaches(self.current, *p))
    }

    fn current_row(&self) -> &Vec<bool>
        ensures len { vec_len result.now ≡ vec_len self.now.words }
        ensures pages { (p : ℕ) → slice_index_or result.now.items p false
            ≡ (shown self.now blank).reach self.now.current p }
    {
        &self.reach[self.current as usize]
    }

    fn next_row(&self, given: &[u64]) -> Result<Vec<bool>, AllocError>
        requires { All (λ p. IsTrue ((shown self.now blank).reach self.now.current p)) given.now }
        ensures len { IfOk result (λ row. vec_len row ≡ vec_len self.now.words) }
        ensures pages { IfOk result (λ row. (p : ℕ) → slice_index_or row.items p false
            ≡ (((shown self.now blank).reach self.now.current p && not (has given.now p))
            || slice_index_or self.now.taken.items p false)) }
    {
        let mut row = empty_set(self.alloc, self.words.len())?;
        add_all(&mut row, self.current_row());
        remove_all(&mut row, given);
        add_all(&mut row, &self.taken);
        Ok(row)
    }

    /// Writer k publishes a version: the current version's pages without the given ones, plus the
    /// pages that k took. Returns false and changes nothing if this isn't allowed. The only error
    /// is `OutOfMemory`.
    fn publish(&mut self, k: u64, version: u64, given: &[u64]) -> Result<bool, Refusal>
        ensures done { IfOk result (λ done. MakesStep self.old
            (λ w. MayPublish w k version given.now) (λ w. after_publish w given.now) done
            self.new) }
        ensures err { OnErr result (IsUnchanged self.old self.new) }
        ensures memory { IsOkUnless result Refusal.OutOfMemory }
        ensures size { page_count self.new ≡ page_count self.old }
    {
        if !self.may_publish(k, version, given) {
            return Ok(false);
        }
        let row = self.next_row(given)?;
        self.reach.push(row)?;
        retire(&mut self.retired, given, self.current);
        clear(&mut self.taken);
        self.current += 1;
        if let Some(h) = self.writer {
            self.writer = Some(Writer {
                published: true,
                ..h
            });
        }
        Ok(true)
    }

    /// Applies the event, and returns whether it was allowed.
    fn happen(&mut self, event: &Event) -> Result<bool, Refusal>
        ensures done { IfOk result (λ done. MakesStep self.old (λ w. Allowed w event.now)
            (λ w. after_event w event.now) done self.new) }
        ensures err { OnErr result (IsUnchanged self.old self.new) }
        ensures memory { IsOkUnless result Refusal.OutOfMemory }
        ensures size { page_count self.new ≡ page_count self.old }
    {
        match event {
            Event::Look(k) => Ok(self.look(*k)),
            Event::Announce(k) => Ok(self.announce(*k)),
            Event::LookAgain(k) => Ok(self.look_again(*k)),
            Event::Read(k, page, i) => Ok(self.may_read(*k, *page, *i)),
            Event::Unpin(k) => Ok(self.unpin(*k)),
            Event::Lock(k) => Ok(self.lock(*k)),
            Event::Scan(k, j) => Ok(self.scan(*k, *j)),
            Event::Fill(k, page, i, word) => Ok(self.fill(*k, *page, *i, *word)),
            Event::Publish(k, version, given) => self.publish(*k, *version, given),
            Event::Unlock(k) => Ok(self.unlock(*k)),
        }
    }
    /// Applies the event, and returns whether it was allowed. An event isn't allowed if it names a
    /// page, a place in a page or a pass that is out of range. The only error is `OutOfMemory`, and
    /// only `Publish` can return it.
    pub fn step(&mut self, event: &Event) -> Result<bool, Refusal>
        ensures done { IfOk result (λ done. MakesStep self.old (λ w. Allowed w event.now)
            (λ w. after_event w event.now) done self.new) }
        ensures err { OnErr result (IsUnchanged self.old self.new) }
        ensures memory { IsOkUnless result Refusal.OutOfMemory }
        ensures sound { ShowsSound self.old → ShowsSound self.new }
        // a whole scan leaves a page retired only if some version from the minimum on reaches it
        ensures leaves_none { ShowsSound self.old
            → IfOk result (λ done. IsTrue done
            → LeavesNone (shown self.old blank) event.now (shown self.new blank)) }
        ensures size { page_count self.new ≡ page_count self.old }
    {
        self.happen(event)
    }
}
