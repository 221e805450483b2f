//! Live queries, which report how an answer has changed since the last refresh.
ghost use Rattle.std.specs.Prelude.{◌≡◌, ◌≢◌, ◌⊎◌, ◌<◌, ◌≤◌, ◌-◌, ◌++◌, ℕ, [], IfOk, IfErr, OnOk};
ghost use Rattle.std.specs.Prelude.{Err, OnErr, None, drop, false, get_or, length, take, true};
ghost use Rattle.be_store.specs.Imports.{cursor_bytes, from_number, page, page_with, scan};
ghost use Rattle.be_store.specs.Imports.{Answers, IsAnyOf, IsStrictlyIncreasing, OutOfMemory};
ghost use Rattle.be_store.specs.History.{Learns, LocksAtMostOnce};
ghost use Rattle.be_store.specs.Live.{IsAnswerBut, IsLiveOf, Refreshes, without};
ghost use Rattle.be_store.specs.Passes.{IsPassOf, IsPinnedTo, HasRead, volume_pinned};

use crate::answers::Updates;
use crate::changed::{ask_each, put_in, take_out};
use crate::marks::Mark;
use crate::named::MOST;
use crate::{Pass, Store};
use arrayvec::ArrayVec;
use be_order::Order;
use be_plan::PreparedQuery;
use be_query::Query;
use be_value::Refusal;
use std::alloc::Global;
use std::marker::Model;

/// If the last answer has fewer nodes than this, running the whole query costs less than finding
/// out which nodes were written.
const MINIMUM: usize = 96;

/// A live query: it is refreshed repeatedly, and keeps the answer of the last refresh.
///
/// It also remembers the version of that refresh, so that `refresh_changed` can read what was
/// written since then. `refresh_changed` needs a pass of the same store; `refresh` works with any
/// store.
#[derive(Drop)]
pub struct Live {
    alloc: Global,
    query: PreparedQuery,
    last: Vec<u64>,
    mark: Option<Mark>,
}

impl Model for Live {
    ghost use Rattle.be_store.specs.Imports.{option_map, IsStrictlyIncreasing};
    ghost use Rattle.be_store.specs.Live.{LiveQuery, coded_live};
    ghost use Rattle.be_store.specs.Marks.{IsMarked, opened_of};

    ghost Value = { LiveQuery };

    ghost coded = { coded_live };

    ghost view = { λ l. record {
      query = l.query;
      last = l.last.items;
      table = option_map opened_of l.mark;
    } };

    ghost invariant = { λ l. IsStrictlyIncreasing l.last.items
        × IsMarked l.query l.last.items l.mark };
}

impl Live {
    /// Creates a live query that has never been refreshed, so its last answer is empty. No memory
    /// is allocated.
    pub fn new(alloc: Global, query: Query) -> Live
        ensures { result ≡ record { query = query; last = []; table = None } }
    {
        Live {
            alloc,
            query: PreparedQuery::new(query),
            last: Vec::new(alloc),
            mark: None,
        }
    }

    /// Returns the query that is refreshed.
    pub fn query(&self) -> &Query
        ensures { result.now ≡ self.now.query }
    {
        self.query.query()
    }

    /// Runs the query in the pinned version, as `Store::query_prepared` does, without changing the
    /// answer of the last refresh.
    #[inline(always)]
    pub fn query_into(
        &mut self,
        store: &Store,
        pass: &mut Pass,
        nodes: &mut Vec<u64>,
    ) -> Result<u64, Refusal>
        requires pass { IsPassOf store.now pass.old }
        requires pinned { (n : ℕ) × IsPinnedTo pass.old.knows n }
        ensures pass { IsPassOf store.now pass.new × HasRead pass.old.knows pass.new.knows }
        ensures nodes { Answers (λ _. nodes.new.items) result
            (scan (volume_pinned pass.old.knows) self.old.query) }
        ensures rising { OnOk result (IsStrictlyIncreasing nodes.new.items) }
        ensures pin { IfOk result (λ pin. IsPinnedTo pass.old.knows pin) }
        ensures same { self.new ≡ self.old }
    {
        store.query_prepared(self.alloc, pass, &mut self.query, nodes)
    }

    /// Replaces the contents of a list with a page of the answer in the order of an index, as
    /// `Store::ordered` does. Leaves the answer of the last refresh unchanged.
    pub fn ordered(
        &mut self,
        store: &Store,
        pass: &mut Pass,
        order: Order<'_>,
        cursor: &mut Option<ArrayVec<u8, 264>>,
        nodes: &mut Vec<u64>,
    ) -> Result<bool, Refusal>
        requires pass { IsPassOf store.now pass.old }
        requires pinned { (n : ℕ) × IsPinnedTo pass.old.knows n }
        ensures pass { IsPassOf store.now pass.new × HasRead pass.old.knows pass.new.knows }
        ensures page { Answers (page_with nodes.new.items (cursor_bytes cursor.new)) result
            (page (volume_pinned pass.old.knows) self.old.query order.entry.by.now
            order.entry.descending (cursor_bytes cursor.old) order.entry.most) }
        ensures cursor { OnErr result (cursor.new ≡ cursor.old) }
        ensures same { self.new ≡ self.old }
    {
        store.ordered(self.alloc, pass, &mut self.query, order, cursor, nodes)
    }

    /// Replaces the contents of a list with the nodes of the answer from a given number on, as
    /// `Store::first` does. Leaves the answer of the last refresh unchanged.
    pub fn first(
        &mut self,
        store: &Store,
        pass: &mut Pass,
        from: u64,
        most: usize,
        nodes: &mut Vec<u64>,
    ) -> Result<(), Refusal>
        requires pass { IsPassOf store.now pass.old }
        requires pinned { (n : ℕ) × IsPinnedTo pass.old.knows n }
        ensures pass { IsPassOf store.now pass.new × HasRead pass.old.knows pass.new.knows }
        ensures nodes { Answers (λ _. nodes.new.items) result
            (from_number (volume_pinned pass.old.knows) self.old.query from most) }
        ensures same { self.new ≡ self.old }
    {
        store.first(self.alloc, pass, &mut self.query, from, most, nodes)
    }

    /// Replaces the contents of a list with arbitrary nodes of the answer, as `Store::any` does.
    /// Leaves the answer of the last refresh unchanged.
    pub fn any(
        &mut self,
        store: &Store,
        pass: &mut Pass,
        most: usize,
        nodes: &mut Vec<u64>,
    ) -> Result<(), Refusal>
        requires pass { IsPassOf store.now pass.old }
        requires pinned { (n : ℕ) × IsPinnedTo pass.old.knows n }
        ensures pass { IsPassOf store.now pass.new × HasRead pass.old.knows pass.new.knows }
        ensures any { OnOk result
            (IsAnyOf (scan (volume_pinned pass.old.knows) self.old.query) most nodes.new.items) }
        ensures refused { IfErr result (λ e. (e ≡ OutOfMemory)
            ⊎ (scan (volume_pinned pass.old.knows) self.old.query ≡ Err e)) }
        ensures same { self.new ≡ self.old }
    {
        store.any(self.alloc, pass, &mut self.query, most, nodes)
    }

    /// Takes the query's current nodes, wherever they were found, and returns which nodes were
    /// added and removed since the last time. The next refresh runs the whole query.
    ///
    /// The only error is `OutOfMemory`, which leaves the live query unchanged. The call goes
    /// through both lists once, and allocates memory for the result.
    pub fn update(&mut self, answer: Vec<u64>) -> Result<Updates, Refusal>
        requires { IsStrictlyIncreasing answer.items }
        ensures ok { IfOk result (λ u. (self.new
            ≡ record { query = self.old.query; last = answer.items; table = None })
            × (u.created.items ≡ without answer.items self.old.last)
            × (u.removed.items ≡ without self.old.last answer.items)) }
        ensures err { IfErr result (λ e. (self.new ≡ self.old) × (e ≡ OutOfMemory)) }
    {
        let updates = changes(self.alloc, self.last.as_slice(), answer.as_slice())?;
        self.last = answer;
        self.mark = None;
        Ok(updates)
    }

    /// Finds the nodes at which the answer in the pinned version can differ from the last one.
    /// Returns `false` if the whole query has to be run.
    fn find_changes(
        &mut self,
        store: &Store,
        pass: &mut Pass,
        pin: u64,
        nodes: &mut ArrayVec<u64, 64>,
    ) -> bool
        requires pass { IsPassOf store.now pass.old }
        requires pinned { IsPinnedTo pass.old.knows pin }
        requires own { IsLiveOf store.now self.old }
        requires empty { nodes.old.items ≡ [] }
        ensures pass { IsPassOf store.now pass.new }
        ensures learns { Learns pass.old.knows pass.new.knows }
        ensures moves { LocksAtMostOnce pass.old.knows pass.new.knows }
        ensures volume { volume_pinned pass.new.knows ≡ volume_pinned pass.old.knows }
        ensures same { self.new ≡ self.old }
        ensures rising { IsStrictlyIncreasing nodes.new.items }
        ensures others { result ≡ true → IsAnswerBut nodes.new.items
            (volume_pinned pass.old.knows) self.old.query self.old.last }
    {
        pass.is_pass();
        if self.last.len() < MINIMUM {
            return false;
        }
        let Some(mut mark) = self.mark.take() else {
            return false;
        };
        store.join(pass, &mut mark.witness);
        pass.is_pass();
        let most = most_asked(self.last.len());
        let found = store.add_named_between(pass, mark.number, pin, most, nodes);
        self.mark = Some(mark);
        found && nodes.len() <= most
    }

    /// Evaluates the query only at these nodes, and updates the last answer accordingly.
    fn ask_changed(
        &mut self,
        store: &Store,
        pass: &mut Pass,
        pin: u64,
        nodes: &[u64],
    ) -> Result<Updates, Refusal>
        requires pass { IsPassOf store.now pass.old }
        requires pinned { IsPinnedTo pass.old.knows pin }
        requires rising { IsStrictlyIncreasing nodes.now }
        requires others { IsAnswerBut nodes.now (volume_pinned pass.old.knows) self.old.query
            self.old.last }
        ensures pass { IsPassOf store.now pass.new × HasRead pass.old.knows pass.new.knows }
        ensures ok { IfOk result (λ u. Refreshes (volume_pinned pass.old.knows) self.old self.new
            u.created.items u.removed.items) }
        ensures own { IfOk result (λ u. IsLiveOf store.now self.new) }
        ensures err { IfErr result (λ e. (self.new ≡ self.old) × (e ≡ OutOfMemory)) }
    {
        pass.is_pass();
        let mut updates = Updates {
            created: Vec::new(self.alloc),
            removed: Vec::new(self.alloc),
        };
        let (look, page) = store.reader(pass);
        let list = self.last.as_slice();
        let (look, answer) = ask_each(look, page, self.query.query(), list, nodes, &mut updates);
        *pass = look.into_seat();
        answer?;
        self.last.reserve(updates.created.len())?;
        let witness = store.witness(pass);
        let setting = store.setting();
        take_out(&mut self.last, updates.removed.as_slice());
        put_in(&mut self.last, updates.created.as_slice());
        self.mark = Some(Mark {
            witness,
            number: pin,
            setting,
        });
        Ok(updates)
    }

    /// Runs the query in the pinned version, and returns which nodes were added and removed since
    /// the last refresh, even if that was in another store. It reads the pinned version and takes
    /// no lock.
    ///
    /// `NotCovered` and `OutOfMemory` leave the live query unchanged. The cost is that of
    /// `Store::query_prepared` plus that of `update`.
    pub fn refresh(&mut self, store: &Store, pass: &mut Pass) -> Result<Updates, Refusal>
        requires pass { IsPassOf store.now pass.old }
        requires pinned { (n : ℕ) × IsPinnedTo pass.old.knows n }
        ensures pass { IsPassOf store.now pass.new × HasRead pass.old.knows pass.new.knows }
        ensures ok { IfOk result (λ u. Refreshes (volume_pinned pass.old.knows) self.old self.new
            u.created.items u.removed.items) }
        ensures own { IfOk result (λ u. IsLiveOf store.now self.new) }
        ensures err { IfErr result (λ e. (self.new ≡ self.old)
            × ((e ≡ OutOfMemory) ⊎ (scan (volume_pinned pass.old.knows) self.old.query ≡ Err e))) }
    {
        pass.is_pass();
        let mut nodes = Vec::with_capacity(self.alloc, self.last.len())?;
        let number = store.query_prepared(self.alloc, pass, &mut self.query, &mut nodes)?;
        let updates = changes(self.alloc, self.last.as_slice(), nodes.as_slice())?;
        let witness = store.witness(pass);
        let setting = store.setting();
        self.last = nodes;
        self.mark = Some(Mark {
            witness,
            number,
            setting,
        });
        Ok(updates)
    }

    /// Returns what `refresh` returns, but the last refresh must have been in this store. Reads the
    /// journal entries since then, and evaluates the query only at the nodes that they name. The
    /// pin is unaffected. Use this function for a large answer that changes little between
    /// refreshes.
    ///
    /// `NotCovered` and `OutOfMemory` leave the live query unchanged. To read the journal, the call
    /// tries the lock once, and releases it after reading those entries. Writes by other passes
    /// return `Busy` during that time. If the last answer has at least 96 nodes, the pass has
    /// afterwards also seen what the last refresh had seen of the journal. Memory is allocated for
    /// the result.
    ///
    /// In these cases it runs the whole query, at the cost of `refresh`:
    /// - the last answer has fewer than 96 nodes;
    /// - the query was never refreshed, or `update` was called after the last refresh;
    /// - another pass holds the lock, or there is no memory to read an entry;
    /// - the pinned version is older than that of the last refresh;
    /// - an index was created or removed since then;
    /// - many nodes were written: more than 64, or more than 4 plus one for every 32 nodes of the
    ///   last answer.
    pub fn refresh_changed(&mut self, store: &Store, pass: &mut Pass) -> Result<Updates, Refusal>
        requires pass { IsPassOf store.now pass.old }
        requires pinned { (n : ℕ) × IsPinnedTo pass.old.knows n }
        requires own { IsLiveOf store.now self.old }
        ensures pass { IsPassOf store.now pass.new }
        ensures learns { Learns pass.old.knows pass.new.knows }
        ensures moves { LocksAtMostOnce pass.old.knows pass.new.knows }
        ensures volume { volume_pinned pass.new.knows ≡ volume_pinned pass.old.knows }
        ensures own { IsLiveOf store.now self.new }
        ensures ok { IfOk result (λ u. Refreshes (volume_pinned pass.old.knows) self.old self.new
            u.created.items u.removed.items) }
        ensures err { IfErr result (λ e. (self.new ≡ self.old)
            × ((e ≡ OutOfMemory) ⊎ (scan (volume_pinned pass.old.knows) self.old.query ≡ Err e))) }
    {
        let Some(pin) = pass.pinned() else {
            unreachable!()
        };
        let mut nodes = ArrayVec::new();
        if !self.find_changes(store, pass, pin, &mut nodes) {
            return self.refresh(store, pass);
        }
        self.ask_changed(store, pass, pin, nodes.as_slice())
    }
}

/// Returns up to how many nodes a refresh checks one by one, given the size of the last answer.
/// Checking one node costs about as much as reading 32 nodes from a range of an index.
fn most_asked(nodes: usize) -> usize {
    MOST.min(4 + nodes / 32)
}

/// Returns the first index, starting at `from`, at which an ascending list has this number or a
/// greater one. If there is none, returns the length of the list.
#[inline(always)]
fn first_not_below(numbers: &[u64], from: usize, number: u64) -> usize
    requires from { from ≤ length numbers.now }
    ensures range { (from ≤ result) × (result ≤ length numbers.now) }
    ensures below { (i : ℕ) → from ≤ i → i < result → get_or numbers.now i 0 < number }
    ensures not_below { result < length numbers.now → number ≤ get_or numbers.now result 0 }
{
    for i in from..numbers.len() {
        if numbers[i] >= number {
            return i;
        }
    }
    numbers.len()
}

/// Returns which nodes were added and removed between two ascending lists of nodes. Goes through
/// both lists once.
fn changes(alloc: Global, last: &[u64], now: &[u64]) -> Result<Updates, Refusal>
    requires rising { IsStrictlyIncreasing last.now × IsStrictlyIncreasing now.now }
    ensures ok { IfOk result (λ u. (u.created.items ≡ without now.now last.now)
        × (u.removed.items ≡ without last.now now.now)) }
    ensures err { IfErr result (λ e. e ≡ OutOfMemory) }
{
    let mut created = Vec::new(alloc);
    let mut removed = Vec::new(alloc);
    let mut at = 0;
    for node in now {
        let next = first_not_below(last, at, *node);
        push_part(&mut removed, last, at, next)?;
        if is_at(last, next, *node) {
            at = next + 1;
        } else {
            created.push(*node)?;
            at = next;
        }
    }
    push_part(&mut removed, last, at, last.len())?;
    Ok(Updates { created, removed })
}

/// Appends the numbers at the indices from `from` up to but excluding `end` to a list.
#[inline(always)]
fn push_part(list: &mut Vec<u64>, numbers: &[u64], from: usize, end: usize) -> Result<(), Refusal>
    requires range { (from ≤ end) × (end ≤ length numbers.now) }
    ensures ok { OnOk result (list.new.items ≡ list.old.items
        ++ take (end - from) (drop from numbers.now)) }
    ensures err { IfErr result (λ e. e ≡ OutOfMemory) }
{
    for i in from..end {
        list.push(numbers[i])?;
    }
    Ok(())
}

/// Returns whether a list has this number at an index, or `false` if the index is past the end.
#[inline(always)]
fn is_at(numbers: &[u64], at: usize, number: u64) -> bool
    ensures found { result ≡ true → (at < length numbers.now) × (get_or numbers.now at 0 ≡ number) }
    ensures missing { result ≡ false → at < length numbers.now → get_or numbers.now at 0 ≢ number }
{
    match numbers.get(at) {
        Some(found) => *found == number,
        None => false,
    }
}
