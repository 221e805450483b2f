//! The store and the calls that its passes make.
ghost use Rattle.std.specs.Prelude.{◌≡◌, ◌⊎◌, ◌≤◌, ◌<◌, ◌++◌, ℕ, true, false, [], ◌∷◌, None, Some};
ghost use Rattle.std.specs.Prelude.{Ok, MatchResult, IsOk, IfOk, IfErr, IfNone, IfSome, OnErr};
ghost use Rattle.std.specs.Prelude.{OnOk, length, map, string_bytes};
ghost use Rattle.be_store.specs.History.{Accepts, Learns, IsReason, IsLastReason, IsUnreported};
ghost use Rattle.be_store.specs.History.{LocksAndUnlocks, Pins, entries_from, text_seen};
ghost use Rattle.be_store.specs.Passes.{IsPassOf, IsPinnedTo, HasRead, volume_pinned};

use crate::answers::Answer;
use crate::asking::{ask, ask_into, ask_prepared, choose_at};
use crate::entries::entries_from;
use crate::states::{held_in, read_on};
use crate::tries::{back_off, longer, was_busy};
use crate::writing::write;
use crate::{Limits, Pass};
use arrayvec::ArrayVec;
use be_journal::{Entry, Journal};
use be_paged::{attrs, first_page, get, indices, next, nodes};
use be_plan::{Cover, PreparedQuery};
use be_query::Query;
use be_table::{PinnedLook, Setting, Status, VersionTable, Witness, Writing};
use be_value::{Kind, Name, Refusal, Value};
use be_volume::{Done, Op, Volume};
use be_volume_state::Place;
use std::alloc::Global;
use std::marker::Model;
use std::snapshot::Snapshot;

/// A shared store. A pass may be used only with the store that created it.
#[derive(Drop)]
pub struct Store {
    table: VersionTable,
}

impl Model for Store {
    ghost use Rattle.be_store.specs.Imports.{Opened};
    ghost use Rattle.be_store.specs.Live.{coded_opened};

    ghost Value = { Opened };

    ghost coded = { coded_opened };

    ghost view = { λ s. s.table };
}

impl Store {
    ghost use Rattle.std.specs.Prelude.{◌+◌, ◌*◌, ◌^◌, All, slice_index};
    ghost use Rattle.be_store.specs.Imports.{begins_empty, begins_with, pages_below, EncodesVolume};
    ghost use Rattle.be_store.specs.Imports.{IsNumbered};
    ghost use Rattle.be_table.specs.declared.pass.Move.TheVariants as moves;
    ghost use Rattle.be_store.specs.Imports.{are_places, attribute, attributes_at, chosen, covered};
    ghost use Rattle.be_store.specs.Imports.{covers, entries, given, has_index, index_kinds};
    ghost use Rattle.be_store.specs.Imports.{is_held, knows_of, left, longer, met, nodes_from};
    ghost use Rattle.be_store.specs.Imports.{one_step_on, pinned_number, pinned_page_state, scan};
    ghost use Rattle.be_store.specs.Imports.{unpins};
    ghost use Rattle.be_store.specs.Imports.{with_history, word_of_page, AllAt, Answers, AreNew};
    ghost use Rattle.be_store.specs.Imports.{AreOfPasses, CanEncodeEach, FoundHeld, Has, HasTrace};
    ghost use Rattle.be_store.specs.Imports.{IsLargeRefused, IsLegalFrom, IsOpenRefused};
    ghost use Rattle.be_store.specs.Imports.{IsPossible, IsStrictlyIncreasing};
    ghost use Rattle.be_store.specs.Imports.{IsVersion, IsWithin, IsWitnessOf, KeepsSeen, Moves};
    ghost use Rattle.be_store.specs.Imports.{NotCovered, OutOfMemory, StartsWith, TakesLock};
    ghost use Rattle.be_store.specs.Calls.{AreInOneTrace, HasWrites, ReadsFronts};
    ghost use Rattle.be_store.specs.Statuses.{ReportsStatus};

    /// Opens an empty store and returns it together with its passes. They are ordered by number,
    /// starting from 0, and have seen nothing yet.
    ///
    /// Returns `BadLimits` if a limit is out of range, and only then, or `OutOfMemory`. The call
    /// allocates all pages, 4 KiB each, and briefly needs memory for a second copy of their words.
    pub fn open(alloc: Global, limits: Limits) -> Result<(Store, Vec<Pass>), Refusal>
        ensures { MatchResult result
            (λ r. (r.0.limits ≡ begins_empty limits) × (length r.1.items ≡ limits.passes)
            × AreNew r.0 0 r.1.items × IsWithin limits)
            (λ e. IsOpenRefused limits e) }
    {
        let (table, passes) = VersionTable::open(alloc, limits, &first_page())?;
        Ok((Store { table }, passes))
    }

    /// Does what `open` does, for a store of up to 16,777,216 pages. No other call costs more in a
    /// large store, but for the greater height of its trees.
    pub fn open_large(alloc: Global, limits: Limits) -> Result<(Store, Vec<Pass>), Refusal>
        ensures { MatchResult result
            (λ r. (r.0.limits ≡ begins_empty limits) × (length r.1.items ≡ limits.passes)
            × AreNew r.0 0 r.1.items × IsPossible limits)
            (λ e. IsLargeRefused limits e) }
    {
        let (table, seats) = VersionTable::open_large(alloc, limits, &first_page())?;
        Ok((Store { table }, seats))
    }

    /// Does what `open_large` does, for a store that begins with a given volume. `words` are all of
    /// the store's words: 528 that are 0, and then 512 a page. The pages below `used` encode the
    /// volume, from page 0 on. The only error is `OutOfMemory`.
    pub fn open_with(
        alloc: Global,
        limits: Limits,
        words: &[u64],
        used: u64,
        volume: Snapshot<Volume>,
    ) -> Result<(Store, Vec<Pass>), Refusal>
        requires limits { IsPossible limits }
        requires used { used ≤ limits.pages }
        requires numbers { IsNumbered volume.value × (volume.value.next ≤ 2 ^ 63) }
        requires size { length words.now ≡ 528 + 512 * limits.pages }
        requires blank { (k : ℕ) → k < 528 → slice_index words.now k ≡ 0 }
        requires encoded { EncodesVolume (pages_below used) (word_of_page words.now) 0
            volume.value }
        ensures ok { IfOk result (λ r. (r.0.limits ≡ begins_with limits used volume.value)
            × (length r.1.items ≡ limits.passes) × AreNew r.0 0 r.1.items) }
        ensures err { IfErr result (λ e. e ≡ OutOfMemory) }
    {
        let (table, seats) = VersionTable::open_with(alloc, limits, words, used, volume)?;
        Ok((Store { table }, seats))
    }

    /// Returns what the store was opened with, which only contracts see.
    pub(crate) fn setting(&self) -> Snapshot<Setting>
        ensures { result.value ≡ self.now.limits }
    {
        self.table.setting()
    }

    /// Takes the lock and returns an open write. The pass is blank until the caller puts back the
    /// seat of the write. Returns `Busy` if another pass holds the lock.
    pub(crate) fn lock(&self, pass: &mut Pass) -> Result<Writing<'_>, Refusal>
        requires pass { IsPassOf self.now pass.old }
        ensures held { IfOk result (λ w. (w.table ≡ self.now) × (w.reserved ≡ 0)
            × TakesLock pass.old.knows w.knows) }
        ensures busy { IfErr result (λ e. IsPassOf self.now pass.new
            × FoundHeld e pass.old.knows pass.new.knows) }
    {
        match self.table.lock(pass.move_out()) {
            Ok(writing) => Ok(writing),
            Err((seat, refusal)) => {
                *pass = seat;
                Err(refusal)
            }
        }
    }

    /// Writes a transaction of 1 to 64 operations, all or none. Returns its commit number, which is
    /// the journal's length including this transaction. The outcomes of the operations replace the
    /// contents of `dones`. A pin is unaffected.
    ///
    /// Errors are reported in this order:
    /// - `Busy` if another pass holds the lock. The call tries once, and can be retried;
    /// - an error of the volume that the journal describes, from `NoNode` to `NotIndexable`;
    /// - `CommitsSpent` if the journal has reached its limit;
    /// - `OutOfMemory` if there is no memory for the journal entry. The call can be retried;
    /// - `Full` if no page is free.
    ///
    /// If the call fails, nothing is written and the list is empty.
    ///
    /// Beginning the write costs one compare-exchange, each change costs new pages along its path,
    /// and publishing and unlocking cost one store each. Every word that is read costs a load, and
    /// every word that is changed costs a store. The call scans if no page is free, or if enough
    /// pages were retired since the last scan: one page, or 32 if that scan had to leave pages to
    /// readers. A scan reads every reader slot and processes each page that it frees. Only the
    /// journal entry allocates memory. A call that returns `Busy` costs the compare-exchange.
    ///
    /// The list is filled in place because returning it by value would copy its whole capacity at
    /// each move.
    pub fn apply_into(
        &self,
        pass: &mut Pass,
        ops: &[Op],
        dones: &mut ArrayVec<Done, 64>,
    ) -> Result<u64, Refusal>
        requires pass { IsPassOf self.now pass.old }
        requires count { (1 ≤ length ops.now) × (length ops.now ≤ 64) }
        ensures pass { IsPassOf self.now pass.new }
        ensures accepted { IfOk result (λ n. Accepts pass.old.knows pass.new.knows ops.now n
            dones.new.items) }
        ensures refused { IfErr result (λ e. Learns pass.old.knows pass.new.knows
            × IsReason pass.old.knows pass.new.knows ops.now e) }
        ensures empty { OnErr result (dones.new.items ≡ []) }
    {
        dones.clear();
        let mut writing = self.lock(pass)?;
        let answer = write(&mut writing, ops, dones);
        *pass = writing.unlock();
        pass.is_pass();
        match answer {
            Ok(number) => Ok(number),
            Err(refusal) => {
                dones.clear();
                Err(refusal)
            }
        }
    }

    /// Does what `apply_into` does, but returns the outcomes in a new list.
    pub fn apply(&self, pass: &mut Pass, ops: &[Op]) -> Result<(u64, ArrayVec<Done, 64>), Refusal>
        requires pass { IsPassOf self.now pass.old }
        requires count { (1 ≤ length ops.now) × (length ops.now ≤ 64) }
        ensures pass { IsPassOf self.now pass.new }
        ensures accepted { IfOk result (λ r. Accepts pass.old.knows pass.new.knows ops.now r.0
            r.1.items) }
        ensures refused { IfErr result (λ e. Learns pass.old.knows pass.new.knows
            × IsReason pass.old.knows pass.new.knows ops.now e) }
    {
        let mut dones = ArrayVec::new();
        match self.apply_into(pass, ops, &mut dones) {
            Ok(number) => Ok((number, dones)),
            Err(refusal) => Err(refusal),
        }
    }

    /// Does what `apply` does, but retries while another pass holds the lock, for up to `tries`
    /// attempts in total. If they all fail, `Busy` names the pass that held the lock at the last
    /// attempt.
    ///
    /// It yields to other threads once before the second attempt, and twice as often before each
    /// further attempt, up to 1,024 times. An attempt that finds the lock taken costs one
    /// compare-exchange.
    pub fn apply_or_retry(
        &self,
        pass: &mut Pass,
        ops: &[Op],
        tries: u64,
    ) -> Result<(u64, ArrayVec<Done, 64>), Refusal>
        requires pass { IsPassOf self.now pass.old }
        requires count { (1 ≤ length ops.now) × (length ops.now ≤ 64) }
        requires tries { 1 ≤ tries }
        ensures pass { IsPassOf self.now pass.new }
        ensures accepted { IfOk result (λ r. Accepts pass.old.knows pass.new.knows ops.now r.0
            r.1.items) }
        ensures refused { IfErr result (λ e. Learns pass.old.knows pass.new.knows
            × IsLastReason tries pass.old.knows pass.new.knows ops.now e) }
    {
        let mut turns = 1;
        for _made in 1..tries {
            let answer = self.apply(pass, ops);
            if !was_busy(&answer) {
                return answer;
            }
            back_off(turns);
            turns = longer(turns);
        }
        self.apply(pass, ops)
    }

    /// Pins the current version and returns its number. Until it is unpinned, the pass reads the
    /// volume after that many journal entries, whatever is written in the meantime. Takes three
    /// steps and allocates no memory.
    pub fn pin(&self, pass: &mut Pass) -> u64
        requires pass { IsPassOf self.now pass.old }
        requires unpinned { pinned_number pass.old.knows.phase ≡ None }
        ensures pass { IsPassOf self.now pass.new }
        ensures pin { Pins pass.old.knows pass.new.knows result }
    {
        let number = self.table.look(pass);
        self.table.announce(pass, number);
        self.table.look_again(pass).0
    }

    /// Releases the pin. Takes one step and allocates no memory.
    pub fn unpin(&self, pass: &mut Pass)
        requires pass { IsPassOf self.now pass.old }
        requires pinned { (n : ℕ) × IsPinnedTo pass.old.knows n }
        ensures pass { IsPassOf self.now pass.new }
        ensures unpinned { pass.new.knows
            ≡ unpins (with_history pass.old.knows pass.new.knows.history) }
        ensures moves { Moves pass.old.knows (moves.Unpin pass.old.knows.number ∷ [])
            pass.new.knows }
    {
        self.table.unpin(pass);
    }

    /// Returns a reader of the pinned version, and the version page. The pass is blank until the
    /// caller puts back the reader's seat.
    pub(crate) fn reader(&self, pass: &mut Pass) -> (PinnedLook<'_>, u64)
        requires pass { IsPassOf self.now pass.old }
        requires pinned { (n : ℕ) × IsPinnedTo pass.old.knows n }
        ensures look { (result.0.table ≡ self.now) × (result.0.knows ≡ pass.old.knows) }
        ensures version { IsVersion (pinned_page_state result.0.knows)
            (word_of_page result.0.knows.image) result.1 (volume_pinned result.0.knows) }
    {
        let page = pass.version_page();
        (self.table.pinned_look(pass.move_out()), page)
    }

    /// Returns the number that the next `Op::New` would get in the pinned version. A batch that is
    /// passed to `apply_if` with the pin's number can therefore name the nodes that it creates
    /// itself. Costs one load and allocates no memory.
    pub fn next(&self, pass: &mut Pass) -> u64
        requires pass { IsPassOf self.now pass.old }
        requires pinned { (n : ℕ) × IsPinnedTo pass.old.knows n }
        ensures pass { IsPassOf self.now pass.new × HasRead pass.old.knows pass.new.knows }
        ensures next { result ≡ (volume_pinned pass.old.knows).next }
    {
        let (mut look, page) = self.reader(pass);
        let number = next(&mut look, page);
        *pass = look.into_seat();
        number
    }

    /// Returns the nodes that match the query in the pinned version, in ascending order, and the
    /// pin's number.
    ///
    /// Returns `NotCovered` if no index of that version covers the query, or `OutOfMemory`. The
    /// call descends one tree for each chosen index and walks the range of keys to which the query
    /// narrows that index. If the range alone doesn't decide the query, it also looks up the
    /// query's other names at each key. Memory is allocated for the plan, for the nodes, and for
    /// the marks that are used to sort large results.
    pub fn query(&self, alloc: Global, pass: &mut Pass, query: &Query) -> Result<Answer, Refusal>
        requires pass { IsPassOf self.now pass.old }
        requires pinned { (n : ℕ) × IsPinnedTo pass.old.knows n }
        ensures pass { IsPassOf self.now pass.new × HasRead pass.old.knows pass.new.knows }
        ensures nodes { Answers (λ a. a.nodes.items) result
            (scan (volume_pinned pass.old.knows) query.now) }
        ensures rising { IfOk result (λ a. IsStrictlyIncreasing a.nodes.items) }
        ensures pin { IfOk result (λ a. IsPinnedTo pass.old.knows a.pin) }
    {
        let Some(pin) = pass.pinned() else {
            unreachable!()
        };
        let (look, page) = self.reader(pass);
        let (look, nodes) = ask(alloc, look, page, query);
        *pass = look.into_seat();
        Ok(Answer { pin, nodes: nodes? })
    }

    /// Replaces the contents of a list with the nodes that match the query in the pinned version,
    /// in ascending order. Returns the pin's number. If the list has room for the nodes, it
    /// allocates no memory and keeps its capacity.
    ///
    /// The errors and the cost are those of `query`. After an error, the contents of the list are
    /// unspecified.
    pub fn query_into(
        &self,
        alloc: Global,
        pass: &mut Pass,
        query: &Query,
        nodes: &mut Vec<u64>,
    ) -> Result<u64, Refusal>
        requires pass { IsPassOf self.now pass.old }
        requires pinned { (n : ℕ) × IsPinnedTo pass.old.knows n }
        ensures pass { IsPassOf self.now pass.new × HasRead pass.old.knows pass.new.knows }
        ensures nodes { Answers (λ _. nodes.new.items) result
            (scan (volume_pinned pass.old.knows) query.now) }
        ensures rising { OnOk result (IsStrictlyIncreasing nodes.new.items) }
        ensures pin { IfOk result (λ pin. IsPinnedTo pass.old.knows pin) }
    {
        let Some(pin) = pass.pinned() else {
            unreachable!()
        };
        let (look, page) = self.reader(pass);
        let (look, answer) = ask_into(alloc, look, page, query, nodes);
        *pass = look.into_seat();
        answer?;
        Ok(pin)
    }

    /// Does what `query_into` does, for a prepared query. The first call computes everything that
    /// depends only on the query. If all comparisons use the same name and none is under `||`, that
    /// is the range of keys in the index of that name. Such a query then costs one descent and a
    /// walk over the range. The index is looked up again only if another index has taken its place,
    /// and the range is computed again only if the kind of the index has changed. Any other query
    /// costs as much as `query`.
    #[inline(always)]
    pub fn query_prepared(
        &self,
        alloc: Global,
        pass: &mut Pass,
        query: &mut PreparedQuery,
        nodes: &mut Vec<u64>,
    ) -> Result<u64, Refusal>
        requires pass { IsPassOf self.now pass.old }
        requires pinned { (n : ℕ) × IsPinnedTo pass.old.knows n }
        ensures pass { IsPassOf self.now pass.new × HasRead pass.old.knows pass.new.knows }
        ensures nodes { Answers (λ _. nodes.new.items) result
            (scan (volume_pinned pass.old.knows) query.old) }
        ensures rising { OnOk result (IsStrictlyIncreasing nodes.new.items) }
        ensures pin { IfOk result (λ pin. IsPinnedTo pass.old.knows pin) }
        ensures same { query.new ≡ query.old }
    {
        let Some(pin) = pass.pinned() else {
            unreachable!()
        };
        let (look, page) = self.reader(pass);
        let (look, answer) = ask_prepared(alloc, look, page, query, nodes);
        *pass = look.into_seat();
        answer?;
        Ok(pin)
    }

    /// Explains how the query would be answered in the pinned version: which comparisons have their
    /// indices chosen, and their score. `be_plan::explain` formats the result as text.
    ///
    /// Returns `NotCovered` if no index of that version covers the query, or `OutOfMemory`. The
    /// call looks up the index of each comparison's name but reads no keys and no nodes. Memory is
    /// allocated for the plan.
    pub fn explain(&self, alloc: Global, pass: &mut Pass, query: &Query) -> Result<Cover, Refusal>
        requires pass { IsPassOf self.now pass.old }
        requires pinned { (n : ℕ) × IsPinnedTo pass.old.knows n }
        ensures pass { IsPassOf self.now pass.new × HasRead pass.old.knows pass.new.knows }
        ensures cover { Answers (λ cover. cover) result
            (chosen (has_index (volume_pinned pass.old.knows)) query.now) }
        ensures covers { IfOk result (λ cover. covers (has_index (volume_pinned pass.old.knows))
            cover.picks query.now ≡ true) }
        ensures places { IfOk result (λ cover. are_places query.now cover.picks ≡ true) }
        ensures refused { IfErr result (λ e. (e ≡ OutOfMemory)
            ⊎ ((e ≡ NotCovered) × (covered (volume_pinned pass.old.knows) query.now ≡ false))) }
    {
        let (reader, page) = self.reader(pass);
        let (reader, cover) = choose_at(alloc, reader, page, query);
        *pass = reader.into_seat();
        cover
    }

    /// Returns an attribute of a node in the pinned version, or `None` if the node doesn't have it.
    /// Costs one descent of a tree and allocates no memory.
    #[inline(always)]
    pub fn get(&self, pass: &mut Pass, node: u64, name: &Name) -> Option<Value>
        requires pass { IsPassOf self.now pass.old }
        requires pinned { (n : ℕ) × IsPinnedTo pass.old.knows n }
        ensures pass { IsPassOf self.now pass.new × HasRead pass.old.knows pass.new.knows }
        ensures value { result ≡ attribute (volume_pinned pass.old.knows) node name.now }
    {
        let (mut look, page) = self.reader(pass);
        let value = get(&mut look, page, node, name);
        *pass = look.into_seat();
        value
    }

    /// Returns whether the index with this name has the node's attribute in the pinned version. It
    /// doesn't have an attribute of another kind, or one that was set before the index was created.
    /// Returns `false` too if the index, the node or the attribute doesn't exist.
    /// Costs one descent of the catalog and, if the node has the attribute, one of the index.
    /// Allocates no memory.
    pub fn is_held(&self, alloc: Global, pass: &mut Pass, node: u64, name: &Name) -> bool
        requires pass { IsPassOf self.now pass.old }
        requires pinned { (n : ℕ) × IsPinnedTo pass.old.knows n }
        ensures pass { IsPassOf self.now pass.new × HasRead pass.old.knows pass.new.knows }
        ensures held { result ≡ is_held (volume_pinned pass.old.knows) node name.now }
    {
        let (reader, page) = self.reader(pass);
        let (reader, is_held) = held_in(alloc, reader, page, node, name);
        *pass = reader.into_seat();
        is_held
    }

    /// Returns the attributes of a node in the pinned version, sorted by the bytes of their names.
    ///
    /// Returns `NoNode` if the node doesn't exist. `OutOfMemory` is returned only for nodes that
    /// exist. Costs one descent, and one step for each attribute. Memory is allocated for the list.
    pub fn attrs(
        &self,
        alloc: Global,
        pass: &mut Pass,
        node: u64,
    ) -> Result<Vec<(Name, Value)>, Refusal>
        requires pass { IsPassOf self.now pass.old }
        requires pinned { (n : ℕ) × IsPinnedTo pass.old.knows n }
        ensures pass { IsPassOf self.now pass.new × HasRead pass.old.knows pass.new.knows }
        ensures list { Answers (λ list. list.items) result
            (attributes_at (volume_pinned pass.old.knows) node) }
        ensures wanted { IfErr result (λ e. e ≡ OutOfMemory
            → IsOk (attributes_at (volume_pinned pass.old.knows) node)) }
    {
        let (mut look, page) = self.reader(pass);
        let list = attrs(alloc, &mut look, page, node);
        *pass = look.into_seat();
        list
    }

    /// Returns the names and kinds of the pinned version's indices, sorted by the bytes of the
    /// names.
    ///
    /// The only error is `OutOfMemory`. The call reads only the version page, and allocates memory
    /// for the list.
    pub fn indices(&self, alloc: Global, pass: &mut Pass) -> Result<Vec<(Name, Kind)>, Refusal>
        requires pass { IsPassOf self.now pass.old }
        requires pinned { (n : ℕ) × IsPinnedTo pass.old.knows n }
        ensures pass { IsPassOf self.now pass.new × HasRead pass.old.knows pass.new.knows }
        ensures list { Answers (λ list. list.items) result
            (Ok (index_kinds (volume_pinned pass.old.knows))) }
    {
        let (mut look, page) = self.reader(pass);
        let list = indices(alloc, &mut look, page);
        *pass = look.into_seat();
        list
    }

    /// Returns up to `most` nodes of the pinned version in ascending order, starting at the number
    /// `from`.
    ///
    /// The only error is `OutOfMemory`. Costs one descent, plus one step for each node that is
    /// returned and for each attribute of these nodes. Memory is allocated for the list.
    pub fn nodes(
        &self,
        alloc: Global,
        pass: &mut Pass,
        from: u64,
        most: usize,
    ) -> Result<Vec<u64>, Refusal>
        requires pass { IsPassOf self.now pass.old }
        requires pinned { (n : ℕ) × IsPinnedTo pass.old.knows n }
        ensures pass { IsPassOf self.now pass.new × HasRead pass.old.knows pass.new.knows }
        ensures list { Answers (λ list. list.items) result
            (Ok (nodes_from (volume_pinned pass.old.knows) from most)) }
    {
        let (mut look, page) = self.reader(pass);
        let list = nodes(alloc, &mut look, page, from, most);
        *pass = look.into_seat();
        list
    }

    /// Returns the next batch of the operations that rebuild the pinned version in an empty store:
    /// 1 to 64 operations, or `None` after the last batch. A new `Place` starts with the first
    /// batch. Concatenated, the batches of one pin are be_volume_state's `state_ops` of that
    /// version, and every batch but the last has 64 operations. A place is meaningless at any other
    /// pin, so start there with a new one.
    ///
    /// The only error is `OutOfMemory`; nothing is lost, and the call can be retried. Together, all
    /// calls read the attributes of every node number that was ever assigned, twice, and search the
    /// index of each attribute twice. A call allocates memory for its batch and for the operations
    /// of one node.
    pub fn state(
        &self,
        alloc: Global,
        pass: &mut Pass,
        place: &mut Place,
    ) -> Result<Option<Vec<Op>>, Refusal>
        requires pass { IsPassOf self.now pass.old }
        requires pinned { (n : ℕ) × IsPinnedTo pass.old.knows n }
        ensures pass { IsPassOf self.now pass.new × HasRead pass.old.knows pass.new.knows }
        ensures list { left (volume_pinned pass.old.knows) place.old
            ≡ given (λ ops. ops.items) result ++ left (volume_pinned pass.old.knows) place.new }
        ensures length { IfOk result (λ list. IfSome list
            (λ ops. (1 ≤ length ops.items) × (length ops.items ≤ 64))) }
        ensures full { IfOk result (λ list. IfSome list
            (λ ops. length ops.items < 64 → left (volume_pinned pass.old.knows) place.new ≡ [])) }
        ensures ends { IfOk result (λ list. IfNone list
            (left (volume_pinned pass.old.knows) place.old ≡ [])) }
        ensures wanted { IfErr result (λ e. e ≡ OutOfMemory) }
    {
        let (reader, page) = self.reader(pass);
        let (reader, list) = read_on(alloc, reader, page, place);
        *pass = reader.into_seat();
        Ok(list?)
    }

    /// Returns the journal's text so far, in the format of `Journal::text`, while passes are in
    /// use. A pin is unaffected.
    ///
    /// Returns `Busy` if another pass holds the lock (the call tries once), or `OutOfMemory`. The
    /// call holds the lock while it writes the text, so writes by other passes return `Busy` during
    /// that time.
    pub fn journal_text(&self, pass: &mut Pass) -> Result<String, Refusal>
        requires pass { IsPassOf self.now pass.old }
        ensures pass { IsPassOf self.now pass.new }
        ensures learns { Learns pass.old.knows pass.new.knows }
        ensures text { IfOk result (λ text. string_bytes text ≡ text_seen pass.new.knows) }
        ensures err { IfErr result (λ e. IsUnreported pass.old.knows pass.new.knows e) }
        ensures moves { OnOk result (LocksAndUnlocks pass.old.knows pass.new.knows) }
    {
        let held = self.lock(pass)?;
        let answer = held.journal_text();
        *pass = held.unlock();
        pass.is_pass();
        match answer {
            Ok(text) => Ok(text),
            Err(_) => Err(Refusal::OutOfMemory),
        }
    }

    /// Returns up to `most` journal entries while passes are in use, starting at the index `from`,
    /// which counts from 0. Each entry has its pass, its operations and their outcomes. The entry
    /// at index n has the commit number n + 1. A pin is unaffected.
    ///
    /// Returns `Busy` if another pass holds the lock (the call tries once), or `OutOfMemory`. The
    /// call holds the lock while it reads the entries, so writes by other passes return `Busy`
    /// during that time.
    pub fn journal_from(
        &self,
        alloc: Global,
        pass: &mut Pass,
        from: u64,
        most: usize,
    ) -> Result<Vec<Entry>, Refusal>
        requires pass { IsPassOf self.now pass.old }
        ensures pass { IsPassOf self.now pass.new }
        ensures learns { Learns pass.old.knows pass.new.knows }
        ensures list { IfOk result (λ list. list.items
            ≡ entries_from (entries pass.new.knows.seen) from most) }
        ensures err { IfErr result (λ e. IsUnreported pass.old.knows pass.new.knows e) }
        ensures moves { OnOk result (LocksAndUnlocks pass.old.knows pass.new.knows) }
    {
        let held = self.lock(pass)?;
        let answer = entries_from(alloc, &held, from, most);
        *pass = held.unlock();
        pass.is_pass();
        match answer {
            Ok(list) => Ok(list),
            Err(_) => Err(Refusal::OutOfMemory),
        }
    }

    /// Reports how full the store is, and which pass is the oldest active reader, while passes are
    /// in use. A pin is unaffected.
    ///
    /// The only error is `Busy`, if another pass holds the lock; the call tries once. While it
    /// holds the lock, it reads every reader slot and frees the retired pages that no reader needs.
    /// The pages that it counts as retired are therefore still needed. No memory is allocated.
    pub fn status(&self, pass: &mut Pass) -> Result<Status, Refusal>
        requires pass { IsPassOf self.now pass.old }
        ensures pass { IsPassOf self.now pass.new }
        ensures learns { Learns pass.old.knows pass.new.knows }
        ensures reported { IfOk result (λ status. ReportsStatus pass.old.knows pass.new.knows
            status) }
        ensures busy { IfErr result (λ e. FoundHeld e pass.old.knows pass.new.knows) }
    {
        let mut held = self.lock(pass)?;
        let status = held.status();
        *pass = held.unlock();
        pass.is_pass();
        Ok(status)
    }

    /// Shows each pass what the other has seen. Afterwards both have seen the longer of the two
    /// prefixes of the journal, whose length is returned. All moves that either pass has made so
    /// far lie in one trace, and the meeting itself makes no move. Takes three steps and allocates
    /// no memory.
    pub fn meet(&self, left: &mut Pass, right: &mut Pass) -> u64
        requires passes { IsPassOf self.now left.old × IsPassOf self.now right.old }
        ensures passes { IsPassOf self.now left.new × IsPassOf self.now right.new }
        ensures left { StartsWith (longer left.old.knows.seen right.old.knows.seen)
            left.old.knows.seen
            × (left.new.knows ≡ met left.old.knows
            (longer left.old.knows.seen right.old.knows.seen)) }
        ensures right { StartsWith (longer left.old.knows.seen right.old.knows.seen)
            right.old.knows.seen
            × (right.new.knows ≡ met right.old.knows
            (longer left.old.knows.seen right.old.knows.seen)) }
        ensures length { result ≡ length (longer left.old.knows.seen right.old.knows.seen) }
        ensures trace { HasTrace self.now.limits (left.old.knows ∷ right.old.knows ∷ []) }
    {
        let (first, second, length) = self.table.meet(left.move_out(), right.move_out());
        *left = first;
        *right = second;
        length
    }

    /// Returns a witness of everything that the pass has seen of the journal. Send it to another
    /// thread over any channel. A pass that joins the witness there has then seen at least as much.
    /// Takes one step and allocates no memory.
    pub fn witness(&self, pass: &mut Pass) -> Witness
        requires pass { IsPassOf self.now pass.old }
        ensures pass { IsPassOf self.now pass.new × (pass.new.knows ≡ one_step_on pass.old.knows) }
        ensures witness { IsWitnessOf self.now result × (result.seen ≡ pass.old.knows.seen) }
    {
        self.table.witness(pass)
    }

    /// Shows the pass what the witness has seen, and the witness what the pass has seen. Afterwards
    /// both have seen the longer of the two prefixes of the journal, whose length is returned. A
    /// pin is unaffected, and the witness can be sent on to other threads. Everything that the pass
    /// does from then on comes after what the witness had seen (`laws::learned_order`). Takes three
    /// steps, makes no move and allocates no memory.
    pub fn join(&self, pass: &mut Pass, witness: &mut Witness) -> u64
        requires pass { IsPassOf self.now pass.old }
        requires witness { IsWitnessOf self.now witness.old }
        ensures of { IsPassOf self.now pass.new × IsWitnessOf self.now witness.new }
        ensures pass { StartsWith (longer pass.old.knows.seen witness.old.seen) pass.old.knows.seen
            × (pass.new.knows ≡ met pass.old.knows (longer pass.old.knows.seen witness.old.seen)) }
        ensures witness { StartsWith (longer pass.old.knows.seen witness.old.seen) witness.old.seen
            × (witness.new.seen ≡ longer pass.old.knows.seen witness.old.seen) }
        ensures length { result ≡ length (longer pass.old.knows.seen witness.old.seen) }
    {
        self.table.join(pass, witness)
    }

    /// Closes the store and returns its journal. All passes must be handed over, and they may be
    /// pinned. A store can't be closed if one of its passes was dropped.
    ///
    /// `writes` and `reads` state what holds for the whole run, whatever calls were made on
    /// whatever threads. A write that was accepted with the number n is the n-th entry of the
    /// journal, with its pass, its operations and their outcomes. Whatever a pass read at pin n
    /// came from the volume after the first n entries of the journal. `moves` orders all steps:
    /// there is a single list of moves, and after each call the calling pass's history is a prefix
    /// of it. Costs one load and one join per pass, and allocates no memory.
    pub fn close(self, passes: Vec<Pass>) -> Journal
        requires passes { AllAt self.id passes.items }
        requires all { (k : ℕ) → k < self.limits.passes → Has (map knows_of passes.items) k }
        ensures legal { IsLegalFrom self.limits.volume result.entries }
        ensures by { AreOfPasses self.limits.passes result.entries }
        ensures passes { KeepsSeen result.entries (map knows_of passes.items) }
        ensures writes { All (HasWrites result.entries) (map knows_of passes.items) }
        ensures reads { All (ReadsFronts result.entries) (map knows_of passes.items) }
        ensures volumes { CanEncodeEach self.limits.pages self.limits.volume result.entries }
        ensures limit { result.limit ≡ self.limits.commits }
        ensures moves { AreInOneTrace self.limits (map knows_of passes.items) }
    {
        let Store { table } = self;
        table.close(passes)
    }
}
