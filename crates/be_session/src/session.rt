//! `Session`, a pass together with a share of its store, and its calls.
ghost use Rattle.std.specs.Prelude.{◌≡◌, ◌⊎◌, ◌≤◌, ◌<◌, ◌+◌, ◌*◌, ◌^◌, ℕ, [], None, Ok, IsOk, IfOk};
ghost use Rattle.std.specs.Prelude.{IfErr, OnErr, OnOk, false, is_some, length, map as each};
ghost use Rattle.std.specs.Prelude.{string_bytes, true, vec_len};
ghost use Rattle.be_session.specs.Imports.{attribute, attributes_at, entries};
ghost use Rattle.be_session.specs.Imports.{entries_from, index_kinds, is_held, name_in};
ghost use Rattle.be_session.specs.Imports.{nodes_from, one_step_on, pinned_number, scan};
ghost use Rattle.be_session.specs.Imports.{text_seen, volume_pinned, Accepts, AcceptsAt};
ghost use Rattle.be_session.specs.Imports.{AnyRefusal, AreNew, FoundHeld, HasRead};
ghost use Rattle.be_session.specs.Imports.{IsLargeRefused, IsLegalFrom, IsLiveOf, IsPass};
ghost use Rattle.be_session.specs.Imports.{IsPassOf, IsPinnedTo, IsReadInto};
ghost use Rattle.be_session.specs.Imports.{IsTextOf, IsUnreported};
ghost use Rattle.be_session.specs.Imports.{IsWitnessOf, Learns, LocksAndUnlocks, OutOfMemory, Pins};
ghost use Rattle.be_session.specs.Imports.{ReportsColumns, ReportsStatus, Unpins};
ghost use Rattle.be_session.specs.Explained.{explanation_in};
ghost use Rattle.be_session.specs.Finishing.{IsFinished, IsNotLast, IsUnfinished};
ghost use Rattle.be_session.specs.Prepared.{ReturnsRefresh, StaysUnrefreshed};
ghost use Rattle.be_session.specs.Sitting.{having_searched, AtPin, HasMet, IsHandedOut, IsPinned};
ghost use Rattle.be_session.specs.Sitting.{IsNotHandedOut, IsTakenFrom};
ghost use Rattle.be_session.specs.Sitting.{IsFirst, IsNoQuery, IsOpened, IsUnwritten};
ghost use Rattle.be_session.specs.Sitting.{IsUnwrittenIf};
ghost use Rattle.be_session.specs.Sitting.{IsUnrefreshed, Joins, ReadAnswers};
ghost use Rattle.be_session.specs.States.{unreported, waiting};
ghost use Rattle.be_session.specs.declared.faults.Fault.TheVariants.{AlreadyPinned, BadCount};
ghost use Rattle.be_session.specs.declared.faults.Fault.TheVariants.{NoPass, NotPinned, Refused};

use crate::explaining::cover_text;
use crate::held::are_few;
use crate::passes::{put_last, take_last};
use crate::share::Share;
use crate::{Fault, StatePlace, Unfinished};
use be_store::laws::seen_is_legal;
use be_store::{
    ArrayVec, Cell, Done, Entry, HeldName, Journal, Kind, Limits, Live, Name, Op, Pass, Query,
    Refusal, Status, Store, Updates, Value, Witness, parse,
};
use std::alloc::{AllocFailed, Global};
use std::marker::Model;

/// A pass, together with its store and the unused passes that wait for sessions of their own.
#[derive(Drop)]
pub struct Session {
    pub(crate) share: Share,
    pub(crate) pass: Pass,
    spare: Vec<Pass>,
    /// A reusable list for the outcomes of a change. Clearing a new list for each change would take
    /// longer than checking the kinds of the values.
    pub(crate) outcomes: ArrayVec<Done, 64>,
}

impl Model for Session {
    ghost use Rattle.be_session.specs.Sitting.{Sitting};

    ghost Value = { Sitting };

    ghost use Rattle.std.specs.Prelude.{vec_len};
    ghost use Rattle.std.specs.Coded.{codes};
    ghost use Rattle.be_session.specs.Imports.{coded_setting, AreNew, IsPassOf};

    ghost coded = { Prim.hlevel (codes, coded_setting) };

    ghost view = { λ s. record {
      store = s.share.shared.value;
      knows = s.pass.knows;
      holds = record {
        spare = vec_len s.spare;
        given = s.share.given;
        vain = s.share.vain;
        began = s.share.began;
      };
    } };

    ghost invariant = { λ s. IsPassOf s.share.shared.value s.pass
        × AreNew s.share.shared.value 0 s.spare.items };
}

/// What is left of a session that was closed: its witness, and its share of the store.
#[derive(Drop)]
pub struct Closed {
    pub witness: Witness,
    pub(crate) share: Share,
}

/// Creates the first session of a new store, which also holds the other passes of the store. The
/// only error is `OutOfMemory`.
pub(crate) fn first_session(
    alloc: Global,
    store: Store,
    mut passes: Vec<Pass>,
) -> Result<Session, Fault>
    requires passes { AreNew store 0 passes.items }
    requires count { (vec_len passes ≡ store.limits.passes) × (1 ≤ vec_len passes) }
    ensures ok { IfOk result (IsFirst store.limits) }
    ensures err { IfErr result (λ e. e ≡ Refused OutOfMemory) }
{
    let share = Share::first(alloc, store, passes.as_slice())?;
    let Some(pass) = take_last(share.store(), &mut passes) else {
        unreachable!()
    };
    Ok(Session {
        share,
        pass,
        spare: passes,
        outcomes: ArrayVec::new(),
    })
}

/// Takes the pass out of a session. The session's share of the store and its waiting passes are
/// dropped.
fn pass_of(session: Session) -> Pass
    ensures pass { IsPassOf session.store result }
    ensures knows { result.knows ≡ session.knows }
{
    let Session {
        share: _share,
        pass,
        spare: _spare,
        outcomes: _outcomes,
    } = session;
    pass
}

/// Creates a boxed session for a pass, with no waiting passes. If memory runs out, the session is
/// returned as the error.
fn in_box(alloc: Global, share: Share, pass: Pass) -> Result<Box<Session, Global>, Session>
    requires { IsPassOf share.shared.value pass }
    ensures session { IfOk result (λ s. s.value.store ≡ share.shared.value) }
    ensures holds { IfOk result (λ s. s.value.holds ≡ record {
      spare = 0;
      given = share.given;
      vain = share.vain;
      began = share.began;
    }) }
    ensures knows { IfOk result (λ s. s.value.knows ≡ pass.knows) }
    ensures back { IfErr result (λ s. (s.store ≡ share.shared.value) × (s.knows ≡ pass.knows)) }
{
    let session = Session {
        share,
        pass,
        spare: Vec::new(alloc),
        outcomes: ArrayVec::new(),
    };
    match Box::new(alloc, session) {
        Ok(session) => Ok(session),
        Err(AllocFailed { value }) => Err(value),
    }
}

/// Puts a session back together from its parts, and returns it with the reason why it can't close
/// its store.
fn kept(share: Share, pass: Pass, spare: Vec<Pass>, fault: Fault) -> Unfinished
    requires pass { IsPassOf share.shared.value pass }
    requires spare { AreNew share.shared.value 0 spare.items }
    requires fault { IsNotLast fault }
    ensures { IsUnfinished (record {
      store = share.shared.value;
      knows = pass.knows;
      holds = record {
        spare = vec_len spare;
        given = share.given;
        vain = share.vain;
        began = share.began;
      };
    }) result }
{
    let session = Session {
        share,
        pass,
        spare,
        outcomes: ArrayVec::new(),
    };
    Unfinished::Kept(session, fault)
}

/// Returns whether a write can have this many operations, which is 1 to 64.
pub(crate) fn is_batch(ops: &[Op]) -> bool
    ensures is { result ≡ true → (1 ≤ length ops.now) × (length ops.now ≤ 64) }
    ensures not { result ≡ false → (length ops.now ≡ 0) ⊎ (64 < length ops.now) }
{
    !ops.is_empty() && ops.len() <= 64
}

impl Session {
    /// Opens a new store, and returns a session with the last of its passes, which has seen nothing
    /// yet. The other passes wait with the session.
    ///
    /// Returns `BadLimits` if a limit is out of range, and only then, or `OutOfMemory`. A store has
    /// 8 to 16,777,216 pages. The call allocates them all, 4 KiB each, and briefly needs memory for
    /// a second copy of their words.
    pub fn open(alloc: Global, limits: Limits) -> Result<Session, Fault>
        ensures ok { IfOk result (λ s. IsOpened limits s) }
        ensures err { IfErr result (λ e. (why : AnyRefusal) × (e ≡ Refused why)
            × IsLargeRefused limits why) }
    {
        match Store::open_large(alloc, limits) {
            Ok((store, passes)) => first_session(alloc, store, passes),
            Err(refusal) => Err(Fault::Refused(refusal)),
        }
    }

    /// Creates another session of the same store, in a box. The new session gets the last pass that
    /// waits here. If none waits, it gets one that was given back by `close` in any thread. The two
    /// passes then meet, so that the new session has seen everything that this one has seen,
    /// including its writes. A pin of the caller is unaffected. Returns `NoPass` if there is no
    /// such pass, or `OutOfMemory`, in which case the pass remains where it was.
    ///
    /// The passes that have never been used wait with the session that opened the store. A pass
    /// that was given back keeps what it has seen, and its writes remain in the journal under its
    /// number. Apart from allocating the box, the call takes three steps.
    pub fn another(&mut self, alloc: Global) -> Result<Box<Session, Global>, Fault>
        ensures same { self.new.store ≡ self.old.store }
        ensures session { IfOk result (λ s. s.value.store ≡ self.old.store) }
        ensures pass { IfOk result (λ s. IsHandedOut self.old self.new s.value) }
        ensures err { IfErr result (IsNotHandedOut self.old self.new) }
    {
        let mut session = self.take_another(alloc)?;
        self.share.store().meet(&mut self.pass, &mut session.pass);
        Ok(session)
    }

    /// Creates another session of the same store, in a box, without letting its pass meet this one.
    fn take_another(&mut self, alloc: Global) -> Result<Box<Session, Global>, Fault>
        ensures same { (self.new.store ≡ self.old.store) × (self.new.knows ≡ self.old.knows) }
        ensures session { IfOk result (λ s. s.value.store ≡ self.old.store) }
        ensures pass { IfOk result (λ s. IsTakenFrom self.old self.new s.value.knows
            s.value.holds) }
        ensures err { IfErr result (IsNotHandedOut self.old self.new) }
    {
        if self.spare.is_empty() {
            self.with_returned(alloc)
        } else {
            self.with_unused(alloc)
        }
    }

    /// Creates another session with the last pass that waits here.
    fn with_unused(&mut self, alloc: Global) -> Result<Box<Session, Global>, Fault>
        requires some { 0 < self.old.holds.spare }
        ensures same { (self.new.store ≡ self.old.store) × (self.new.knows ≡ self.old.knows) }
        ensures session { IfOk result (λ s. s.value.store ≡ self.old.store) }
        ensures pass { IfOk result (λ s. IsTakenFrom self.old self.new s.value.knows
            s.value.holds) }
        ensures err { IfErr result (IsNotHandedOut self.old self.new) }
    {
        let Some(share) = self.share.give() else {
            return Err(Fault::Refused(Refusal::OutOfMemory));
        };
        let Some(pass) = take_last(self.share.store(), &mut self.spare) else {
            unreachable!()
        };
        match in_box(alloc, share, pass) {
            Ok(session) => Ok(session),
            Err(session) => {
                put_last(self.share.store(), &mut self.spare, pass_of(session));
                Err(Fault::Refused(Refusal::OutOfMemory))
            }
        }
    }

    /// Creates another session with a pass that was given back.
    fn with_returned(&mut self, alloc: Global) -> Result<Box<Session, Global>, Fault>
        requires none { self.old.holds.spare ≡ 0 }
        ensures same { (self.new.store ≡ self.old.store) × (self.new.knows ≡ self.old.knows) }
        ensures session { IfOk result (λ s. s.value.store ≡ self.old.store) }
        ensures pass { IfOk result (λ s. IsTakenFrom self.old self.new s.value.knows
            s.value.holds) }
        ensures err { IfErr result (IsNotHandedOut self.old self.new) }
    {
        let (share, pass) = self.share.give_with_pass()?;
        match in_box(alloc, share, pass) {
            Ok(session) => Ok(session),
            Err(session) => {
                drop(session.close());
                Err(Fault::Refused(Refusal::OutOfMemory))
            }
        }
    }

    /// Releases the pin, and gives back the pass and the passes that wait here. Any session of the
    /// store can then get them from `another`. Passes are lost if their session is dropped instead.
    /// The store is freed together with its last session. The call never waits.
    ///
    /// Returns a witness of everything that the pass has seen of the journal, including its own
    /// writes. If the session that calls `finish` has joined the witness, these writes are in the
    /// journal that `finish` returns. The session's share of the store comes with the witness, and
    /// is given up when it is dropped.
    pub fn close(self) -> Closed
        ensures witness { IsWitnessOf self.store result.witness
            × (result.witness.seen ≡ self.knows.seen) }
        ensures share { (result.share.shared.value ≡ self.store)
            × (result.share.given ≡ self.holds.given) × (result.share.vain ≡ self.holds.vain) }
    {
        let Session {
            share,
            pass,
            spare,
            outcomes: _outcomes,
        } = self;
        let witness = share.give_back(pass);
        share.give_back_all(spare);
        Closed { witness, share }
    }

    /// Checks whether `finish` can be called. Returns `InUse` if another session of the store is
    /// open, or `OutOfMemory`. If the check succeeds, the memory that `finish` needs has been
    /// allocated.
    pub fn may_finish(&mut self) -> Result<(), Fault>
        ensures same { self.new ≡ self.old }
        ensures err { IfErr result IsNotLast }
    {
        if !self.share.is_only() {
            return Err(Fault::InUse);
        }
        self.spare.reserve(self.share.passes() + 1)?;
        Ok(())
    }

    /// Closes the store, if this is its last session, and returns the journal. Takes the session's
    /// own pass, the passes that were given back, and those that wait; they may be pinned. The
    /// call never waits, and costs one load and one join per pass.
    ///
    /// The journal covers everything that happened, whatever calls were made by whatever sessions.
    /// It contains each accepted write of a session at its commit number, and nothing else. The
    /// error says what became of the session.
    pub fn finish(self) -> Result<Journal, Unfinished>
        ensures ok { IfOk result (IsFinished self) }
        ensures err { IfErr result (IsUnfinished self) }
    {
        let Session {
            share,
            pass,
            mut spare,
            outcomes: _outcomes,
        } = self;
        if spare.reserve(share.passes() + 1).is_err() {
            return Err(kept(share, pass, spare, Fault::Refused(Refusal::OutOfMemory)));
        }
        match share.into_shared() {
            Ok(shared) => match shared.finish(pass, spare) {
                Some(journal) => Ok(journal),
                None => Err(Unfinished::PassLost),
            },
            Err(share) => Err(kept(share, pass, spare, Fault::InUse)),
        }
    }

    /// Meets a pass that was given back, so that both have then seen the longer of two prefixes of
    /// the journal. Returns the length of that prefix. Returns `NoPass` if there is no such pass,
    /// or if another thread is using it.
    ///
    /// If two sessions meet such a pass in turn, it carries what the first has seen to the second.
    pub fn meet(&mut self) -> Result<u64, Fault>
        ensures store { self.new.store ≡ self.old.store }
        ensures ok { IfOk result (λ n. (self.new.holds ≡ self.old.holds)
            × HasMet self.old.store self.old.knows self.new.knows n) }
        ensures err { IfErr result (λ e. (e ≡ NoPass) × (self.new ≡ having_searched self.old)) }
    {
        match self.share.meet(&mut self.pass) {
            Some(length) => Ok(length),
            None => Err(Fault::NoPass),
        }
    }

    /// Returns a witness of everything that the pass has seen of the journal. Send it to another
    /// thread over any channel. A session that joins the witness there has then seen at least as
    /// much. The witness has no share of the store. Takes one step and allocates no memory.
    pub fn witness(&mut self) -> Witness
        ensures store { (self.new.store ≡ self.old.store) × (self.new.holds ≡ self.old.holds) }
        ensures knows { self.new.knows ≡ one_step_on self.old.knows }
        ensures witness { IsWitnessOf self.old.store result
            × (result.seen ≡ self.old.knows.seen) }
    {
        self.share.store().witness(&mut self.pass)
    }

    /// Shows the session what the witness has seen, and the witness what the session has seen.
    /// Afterwards both have seen the longer of the two prefixes of the journal, whose length is
    /// returned. A pin is unaffected, and the witness can be sent on to other threads. Everything
    /// that the session pins and writes from then on comes after what the witness had seen. Takes
    /// three steps and allocates no memory.
    ///
    /// One requirement of this call is not checked at run time: the witness must be of this store.
    pub fn join(&mut self, witness: &mut Witness) -> u64
        requires witness { IsWitnessOf self.old.store witness.old }
        ensures store { (self.new.store ≡ self.old.store) × (self.new.holds ≡ self.old.holds) }
        ensures witness { IsWitnessOf self.old.store witness.new }
        ensures joins { Joins self.old.knows witness.old.seen self.new.knows witness.new.seen
            result }
    {
        self.share.store().join(&mut self.pass, witness)
    }

    /// Pins the current version, and returns its number, which is how many writes it includes.
    pub fn pin(&mut self) -> Result<u64, Fault>
        ensures store { (self.new.store ≡ self.old.store) × (self.new.holds ≡ self.old.holds) }
        ensures ok { IfOk result (λ n. Pins self.old.knows self.new.knows n) }
        ensures err { IfErr result (λ e. (self.new ≡ self.old) × (e ≡ AlreadyPinned)
            × IsPinned self.old.knows) }
    {
        if self.pass.pinned().is_some() {
            return Err(Fault::AlreadyPinned);
        }
        let mut pass = self.pass.move_out();
        let number = self.share.store().pin(&mut pass);
        self.pass = pass;
        Ok(number)
    }

    /// Returns whether a version is pinned.
    pub fn is_pinned(&self) -> bool
        ensures { result ≡ is_some (pinned_number self.now.knows.phase) }
    {
        self.pass.pinned().is_some()
    }

    /// Releases the pin.
    pub fn unpin(&mut self) -> Result<(), Fault>
        ensures store { (self.new.store ≡ self.old.store) × (self.new.holds ≡ self.old.holds) }
        ensures ok { OnOk result (Unpins self.old.knows self.new.knows) }
        ensures err { IfErr result (λ e. (self.new ≡ self.old) × (e ≡ NotPinned)
            × (pinned_number self.old.knows.phase ≡ None)) }
    {
        let Some(_) = self.pass.pinned() else {
            return Err(Fault::NotPinned);
        };
        self.share.store().unpin(&mut self.pass);
        Ok(())
    }

    /// Writes a batch of 1 to 64 operations, all or none. Returns the journal's length including
    /// this batch. The outcomes of the operations replace the contents of `dones`. For any other
    /// number of operations, returns `BadCount` without doing anything. Otherwise does what the
    /// store's `apply_into` does.
    pub fn apply(&mut self, ops: &[Op], dones: &mut ArrayVec<Done, 64>) -> Result<u64, Fault>
        ensures store { (self.new.store ≡ self.old.store) × (self.new.holds ≡ self.old.holds) }
        ensures ok { IfOk result (λ n. Accepts self.old.knows self.new.knows ops.now n
            dones.new.items) }
        ensures count { OnOk result ((1 ≤ length ops.now) × (length ops.now ≤ 64)) }
        ensures err { IfErr result (λ e. IsUnwritten self.old.knows self.new.knows ops.now e) }
        ensures empty { OnErr result (dones.new.items ≡ []) }
    {
        if !is_batch(ops) {
            dones.clear();
            return Err(Fault::BadCount);
        }
        Ok(self.share.store().apply_into(&mut self.pass, ops, dones)?)
    }

    /// Does what `apply` does if the journal has exactly `number` entries, and otherwise writes
    /// nothing, like the store's `apply_if_into`. `BadCount` takes precedence over every other
    /// error. `Conflict` carries the length that was found.
    pub fn apply_if(
        &mut self,
        number: u64,
        ops: &[Op],
        dones: &mut ArrayVec<Done, 64>,
    ) -> Result<u64, Fault>
        ensures store { (self.new.store ≡ self.old.store) × (self.new.holds ≡ self.old.holds) }
        ensures ok { IfOk result (λ n. AcceptsAt self.old.knows self.new.knows number ops.now n
            dones.new.items) }
        ensures count { OnOk result ((1 ≤ length ops.now) × (length ops.now ≤ 64)) }
        ensures err { IfErr result (IsUnwrittenIf self.old.knows self.new.knows number ops.now) }
        ensures empty { OnErr result (dones.new.items ≡ []) }
    {
        if !is_batch(ops) {
            dones.clear();
            return Err(Fault::BadCount);
        }
        let store = self.share.store();
        Ok(store.apply_if_into(&mut self.pass, number, ops, dones)?)
    }

    /// Returns the pass's number, under which its entries are in the journal.
    pub fn number(&self) -> u64
        ensures { result ≡ self.now.knows.number }
    {
        self.pass.number()
    }

    /// Returns how many journal entries the pass has seen.
    pub fn seen(&self) -> u64
        ensures { result ≡ length self.now.knows.seen }
    {
        self.pass.seen()
    }

    /// Returns up to `most` journal entries, starting at the index `from`, which counts from 0, as
    /// the store's `journal_from` does. Needs no pin.
    pub fn journal_from(
        &mut self,
        alloc: Global,
        from: u64,
        most: usize,
    ) -> Result<Vec<Entry>, Fault>
        ensures store { (self.new.store ≡ self.old.store) × (self.new.holds ≡ self.old.holds) }
        ensures learns { Learns self.old.knows self.new.knows }
        ensures list { IfOk result (λ list. list.items
            ≡ entries_from (entries self.new.knows.seen) from most) }
        ensures err { IfErr result (λ e. (why : AnyRefusal) × (e ≡ Refused why)
            × IsUnreported self.old.knows self.new.knows why) }
        ensures moves { OnOk result (LocksAndUnlocks self.old.knows self.new.knows) }
    {
        let store = self.share.store();
        Ok(store.journal_from(alloc, &mut self.pass, from, most)?)
    }

    /// Returns the number that the next new node would get in the pinned version.
    pub fn next(&mut self) -> Result<u64, Fault>
        ensures store { (self.new.store ≡ self.old.store) × (self.new.holds ≡ self.old.holds) }
        ensures read { HasRead self.old.knows self.new.knows }
        ensures next { AtPin (pinned_number self.old.knows.phase) result
            (result ≡ Ok (volume_pinned self.old.knows).next) }
    {
        let Some(_) = self.pass.pinned() else {
            return Err(Fault::NotPinned);
        };
        Ok(self.share.store().next(&mut self.pass))
    }

    /// Returns the journal's text so far, as the store's `journal_text` does. The journal is legal
    /// from the store's first volume on. Needs no pin.
    pub fn journal_text(&mut self) -> Result<String, Fault>
        ensures store { (self.new.store ≡ self.old.store) × (self.new.holds ≡ self.old.holds) }
        ensures learns { Learns self.old.knows self.new.knows }
        ensures legal { IsLegalFrom self.new.store.limits.volume
            (entries self.new.knows.seen) }
        ensures text { IfOk result (λ text. string_bytes text ≡ text_seen self.new.knows) }
        ensures err { IfErr result (λ e. (why : AnyRefusal) × (e ≡ Refused why)
            × IsUnreported self.old.knows self.new.knows why) }
        ensures moves { OnOk result (LocksAndUnlocks self.old.knows self.new.knows) }
    {
        let store = self.share.store();
        let answer = store.journal_text(&mut self.pass);
        seen_is_legal(store, &self.pass);
        Ok(answer?)
    }

    /// Reports how full the store is and the oldest version in a reader slot, as the store's
    /// `status` does. Needs no pin.
    pub fn status(&mut self) -> Result<Status, Fault>
        ensures store { (self.new.store ≡ self.old.store) × (self.new.holds ≡ self.old.holds) }
        ensures learns { Learns self.old.knows self.new.knows }
        ensures reported { IfOk result (λ s. ReportsStatus self.old.knows self.new.knows s) }
        ensures err { IfErr result (λ e. (why : AnyRefusal) × (e ≡ Refused why)
            × FoundHeld why self.old.knows self.new.knows) }
    {
        let reported = self.share.store().status(&mut self.pass);
        Ok(reported?)
    }

    /// Returns the nodes that match the query in the pinned version, in ascending order.
    pub fn query(&mut self, alloc: Global, query: &Query) -> Result<Vec<u64>, Fault>
        ensures store { (self.new.store ≡ self.old.store) × (self.new.holds ≡ self.old.holds) }
        ensures read { HasRead self.old.knows self.new.knows }
        ensures nodes { AtPin (pinned_number self.old.knows.phase) result
            (ReadAnswers (λ nodes. nodes.items) result
            (scan (volume_pinned self.old.knows) query.now)) }
    {
        let Some(_) = self.pass.pinned() else {
            return Err(Fault::NotPinned);
        };
        let store = self.share.store();
        Ok(store.query(alloc, &mut self.pass, query)?.nodes)
    }

    /// Replaces the contents of a list with the nodes that match a live query in the pinned
    /// version, in ascending order. If the list has room for them, no memory is allocated. After an
    /// error, the list is empty. The answer of the last refresh is unchanged.
    pub fn query_into(&mut self, live: &mut Live, nodes: &mut Vec<u64>) -> Result<(), Fault>
        ensures store { (self.new.store ≡ self.old.store) × (self.new.holds ≡ self.old.holds) }
        ensures read { HasRead self.old.knows self.new.knows }
        ensures nodes { OnOk result (scan (volume_pinned self.old.knows) live.old.query
            ≡ Ok nodes.new.items) }
        ensures pin { OnOk result ((n : ℕ) × IsPinnedTo self.old.knows n) }
        ensures same { live.new ≡ live.old }
        ensures err { IfErr result (λ e. (nodes.new.items ≡ [])
            × IsUnrefreshed (pinned_number self.old.knows.phase)
            (scan (volume_pinned self.old.knows) live.old.query) e) }
    {
        let Some(_) = self.pass.pinned() else {
            nodes.clear();
            return Err(Fault::NotPinned);
        };
        match live.query_into(self.share.store(), &mut self.pass, nodes) {
            Ok(_) => Ok(()),
            Err(refusal) => {
                nodes.clear();
                Err(Fault::Refused(refusal))
            }
        }
    }

    /// Runs a live query in the pinned version, and returns which nodes were added and removed
    /// since its last refresh. An error leaves the live query unchanged.
    pub fn refresh(&mut self, live: &mut Live) -> Result<Updates, Fault>
        ensures store { (self.new.store ≡ self.old.store) × (self.new.holds ≡ self.old.holds) }
        ensures read { HasRead self.old.knows self.new.knows }
        ensures own { IfOk result (λ u. IsLiveOf self.old.store live.new) }
        ensures ok { IfOk result (ReturnsRefresh self.old.knows live.old live.new) }
        ensures err { IfErr result (StaysUnrefreshed self.old.knows live.old live.new) }
    {
        let Some(_) = self.pass.pinned() else {
            return Err(Fault::NotPinned);
        };
        Ok(live.refresh(self.share.store(), &mut self.pass)?)
    }

    /// Returns the index cover from which a query would be answered in the pinned version: the
    /// chosen comparisons in canonical form, joined by ` || `, and the score. Returns `NotCovered`
    /// if no index of that version covers the query, or `OutOfMemory`.
    pub fn explain(&mut self, alloc: Global, query: &Query) -> Result<String, Fault>
        ensures store { (self.new.store ≡ self.old.store) × (self.new.holds ≡ self.old.holds) }
        ensures read { HasRead self.old.knows self.new.knows }
        ensures text { AtPin (pinned_number self.old.knows.phase) result
            (ReadAnswers string_bytes result
            (explanation_in (volume_pinned self.old.knows) query.now)) }
    {
        let Some(_) = self.pass.pinned() else {
            return Err(Fault::NotPinned);
        };
        let cover = self.share.store().explain(alloc, &mut self.pass, query)?;
        Ok(cover_text(alloc, query, &cover)?)
    }

    /// Returns up to `most` nodes of the pinned version in ascending order, starting at the number
    /// `from`. A list with fewer nodes is the last one. To continue, call it again with the number
    /// after the last node.
    pub fn nodes(&mut self, alloc: Global, from: u64, most: usize) -> Result<Vec<u64>, Fault>
        ensures store { (self.new.store ≡ self.old.store) × (self.new.holds ≡ self.old.holds) }
        ensures read { HasRead self.old.knows self.new.knows }
        ensures nodes { AtPin (pinned_number self.old.knows.phase) result
            (ReadAnswers (λ nodes. nodes.items) result
            (Ok (nodes_from (volume_pinned self.old.knows) from most))) }
    {
        let Some(_) = self.pass.pinned() else {
            return Err(Fault::NotPinned);
        };
        let store = self.share.store();
        Ok(store.nodes(alloc, &mut self.pass, from, most)?)
    }

    /// Returns an attribute of a node in the pinned version, or `None` if the node doesn't have it.
    pub fn get(&mut self, node: u64, name: &Name) -> Result<Option<Value>, Fault>
        ensures store { (self.new.store ≡ self.old.store) × (self.new.holds ≡ self.old.holds) }
        ensures read { HasRead self.old.knows self.new.knows }
        ensures value { AtPin (pinned_number self.old.knows.phase) result
            (result ≡ Ok (attribute (volume_pinned self.old.knows) node name.now)) }
    {
        let Some(_) = self.pass.pinned() else {
            return Err(Fault::NotPinned);
        };
        Ok(self.share.store().get(&mut self.pass, node, name))
    }

    /// Returns whether the index with this name has the node's attribute in the pinned version.
    pub fn is_held(&mut self, alloc: Global, node: u64, name: &Name) -> Result<bool, Fault>
        ensures store { (self.new.store ≡ self.old.store) × (self.new.holds ≡ self.old.holds) }
        ensures read { HasRead self.old.knows self.new.knows }
        ensures held { AtPin (pinned_number self.old.knows.phase) result
            (result ≡ Ok (is_held (volume_pinned self.old.knows) node name.now)) }
    {
        let Some(_) = self.pass.pinned() else {
            return Err(Fault::NotPinned);
        };
        let store = self.share.store();
        Ok(store.is_held(alloc, &mut self.pass, node, name))
    }

    /// Returns an attribute of a node in the pinned version as a cell, or `None` if the node
    /// doesn't have it. If the attribute is a string, its bytes are written to the start of
    /// `bytes`, as many as fit.
    pub fn get_into(
        &mut self,
        node: u64,
        name: &HeldName,
        bytes: &mut [u8],
    ) -> Result<Option<Cell>, Fault>
        ensures store { (self.new.store ≡ self.old.store) × (self.new.holds ≡ self.old.holds) }
        ensures read { HasRead self.old.knows self.new.knows }
        ensures value { AtPin (pinned_number self.old.knows.phase) result (IsOk result
            × IfOk result (λ cell. IsReadInto
            (attribute (volume_pinned self.old.knows) node (name_in name.now)) cell bytes.old
            bytes.new)) }
        ensures kept { OnErr result (bytes.new ≡ bytes.old) }
    {
        let Some(_) = self.pass.pinned() else {
            return Err(Fault::NotPinned);
        };
        let store = self.share.store();
        Ok(store.get_into(&mut self.pass, node, name, bytes))
    }

    /// Reads the attributes with the given names from each of the nodes in the pinned version, and
    /// writes one cell per node and name, like the store's `columns`. Returns `BadCount` if there
    /// are more than 2^32 cells.
    pub fn columns(
        &mut self,
        nodes: &[u64],
        names: &[HeldName],
        cells: &mut [Cell],
        bytes: &mut [u8],
    ) -> Result<u64, Fault>
        ensures store { (self.new.store ≡ self.old.store) × (self.new.holds ≡ self.old.holds) }
        ensures read { HasRead self.old.knows self.new.knows }
        ensures reported { AtPin (pinned_number self.old.knows.phase) result
            (IfOk result (λ needed. ReportsColumns (volume_pinned self.old.knows) nodes.now
            (each name_in names.now) cells.old cells.new bytes.old bytes.new needed)
            × IfErr result (λ e. (e ≡ BadCount) × (2 ^ 32 < length nodes.now * length names.now))) }
        ensures kept { OnErr result ((cells.new ≡ cells.old) × (bytes.new ≡ bytes.old)) }
    {
        let Some(_) = self.pass.pinned() else {
            return Err(Fault::NotPinned);
        };
        if !are_few(nodes.len(), names.len()) {
            return Err(Fault::BadCount);
        }
        let store = self.share.store();
        Ok(store.columns(&mut self.pass, nodes, names, cells, bytes))
    }

    /// Returns the attributes of a node in the pinned version, sorted by the bytes of their names.
    /// `OutOfMemory` is returned only for nodes that exist.
    pub fn attrs(&mut self, alloc: Global, node: u64) -> Result<Vec<(Name, Value)>, Fault>
        ensures store { (self.new.store ≡ self.old.store) × (self.new.holds ≡ self.old.holds) }
        ensures read { HasRead self.old.knows self.new.knows }
        ensures list { AtPin (pinned_number self.old.knows.phase) result
            (ReadAnswers (λ list. list.items) result
            (attributes_at (volume_pinned self.old.knows) node)) }
        ensures wanted { IfErr result (λ e. e ≡ Refused OutOfMemory
            → IsOk (attributes_at (volume_pinned self.old.knows) node)) }
    {
        let Some(_) = self.pass.pinned() else {
            return Err(Fault::NotPinned);
        };
        Ok(self.share.store().attrs(alloc, &mut self.pass, node)?)
    }

    /// Returns the names and kinds of the pinned version's indices, sorted by the bytes of the
    /// names.
    pub fn indices(&mut self, alloc: Global) -> Result<Vec<(Name, Kind)>, Fault>
        ensures store { (self.new.store ≡ self.old.store) × (self.new.holds ≡ self.old.holds) }
        ensures read { HasRead self.old.knows self.new.knows }
        ensures list { AtPin (pinned_number self.old.knows.phase) result
            (ReadAnswers (λ list. list.items) result
            (Ok (index_kinds (volume_pinned self.old.knows)))) }
    {
        let Some(_) = self.pass.pinned() else {
            return Err(Fault::NotPinned);
        };
        Ok(self.share.store().indices(alloc, &mut self.pass)?)
    }

    /// Reads the next operations that rebuild the pinned version in an empty store, up to 64 of
    /// them, unless some are still ready. After the last operation, it reads none. `OutOfMemory`
    /// loses nothing.
    ///
    /// A place belongs to one pin. At another pin, it continues after the same steps of that
    /// version, but any operations that are ready are still those of the first pin.
    pub fn state(&mut self, alloc: Global, place: &mut StatePlace) -> Result<(), Fault>
        ensures store { (self.new.store ≡ self.old.store) × (self.new.holds ≡ self.old.holds) }
        ensures read { HasRead self.old.knows self.new.knows }
        ensures same { unreported (volume_pinned self.old.knows) place.new
            ≡ unreported (volume_pinned self.old.knows) place.old }
        ensures few { length (waiting place.new) ≤ 64 }
        ensures ends { OnOk result (waiting place.new ≡ []
            → unreported (volume_pinned self.old.knows) place.old ≡ []) }
        ensures err { AtPin (pinned_number self.old.knows.phase) result
            (IfErr result (λ e. e ≡ Refused OutOfMemory)) }
    {
        let Some(_) = self.pass.pinned() else {
            return Err(Fault::NotPinned);
        };
        if !place.ready.is_empty() {
            return Ok(());
        }
        let store = self.share.store();
        match store.state(alloc, &mut self.pass, &mut place.place)? {
            Some(ops) => {
                place.ready = ops;
                Ok(())
            }
            None => Ok(()),
        }
    }
}

/// Parses a query from the bytes of its text. Returns `NotUtf8` if the bytes aren't valid UTF-8,
/// and otherwise the result of `be_query::parse`.
pub fn query_of(alloc: Global, text: &[u8]) -> Result<Query, Fault>
    ensures ok { IfOk result (λ query. IsTextOf text.now query) }
    ensures err { IfErr result (λ e. IsNoQuery text.now e) }
{
    match str::from_utf8(text) {
        Ok(text) => Ok(parse(alloc, text)?),
        Err(_) => Err(Fault::NotUtf8),
    }
}

/// Returns its argument. It compiles only for types whose values can be sent to another thread.
pub fn sent<T: Send>(value: T) -> T
    ensures { result ≡ value }
{
    value
}

/// A law of sessions, which does nothing: what always holds for a pass holds for the pass of a
/// session.
pub fn session_is_pass(session: &Session)
    ensures { IsPass session.now.knows }
{
    session.pass.is_pass();
}

/// A law of the type, which does nothing: a session can be sent to another thread.
pub fn may_move(session: Session) -> Session
    ensures { result ≡ session }
{
    sent(session)
}
