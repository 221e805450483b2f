//! The servers that scripts run on.
//!
//! A script's lines need only the calls of the trait [`Server`]. A ghost member describes the store
//! that the calls work on: a journal, the volume after it, the limit on its entries, and the pinned
//! version. Other passes may write between two calls, and each call works on the store as they left
//! it. The proofs about scripts use only the trait, so they hold for every server. [`PassServer`]
//! is a shared store served from one of its passes.
ghost use Rattle.std.specs.Prelude.{◌≡◌, ◌≤◌, true, All, List, Ok, None, IsSome, is_some, length};
ghost use Rattle.std.specs.Prelude.{IfOk, IfErr, OnOk, if◌then◌else◌};
ghost use Rattle.be_script_runner.specs.Imports.{are_places, attribute, attributes_at, chosen};
ghost use Rattle.be_script_runner.specs.Imports.{has_index, index_kinds, page_found, scan};
ghost use Rattle.be_script_runner.specs.Imports.{state_dump, state_ops, string_bytes, Answers};
ghost use Rattle.be_script_runner.specs.Imports.{begins_empty, AnyOp, AnyRefusal, CanBeOp};
ghost use Rattle.be_script_runner.specs.Imports.{IsLastReason, IsPassOf, IsWithin, OutOfMemory};
ghost use Rattle.be_script_runner.specs.Lines.{LeadTo};
ghost use Rattle.be_script_runner.specs.Pages.{page_read};
ghost use Rattle.be_script_runner.specs.Served.{known, seat_of};
ghost use Rattle.be_script_runner.specs.Store.{Store, Joins, Meanwhile, start, viewed, pinned};
ghost use Rattle.be_script_runner.specs.Store.{unpinned, MayWrite};

use crate::Limits;
use crate::pages::read_page;
use crate::states::pinned_text;
use arrayvec::ArrayVec;
use be_plan::Cover;
use be_query::Query;
use be_script_language::{Page, Paging};
use be_store::Pass;
use be_value::{Kind, Name, Refusal, Value};
use be_volume::{Done, Op};
use std::alloc::{AllocError, Global};
use std::marker::Model;
use std::snapshot::Snapshot;

/// The maximum number of times that a write is tried while another pass is writing.
const MAX_TRIES: u64 = 10_000_000;

/// The store that a script runs on. Reads see the pinned version, or the version after all writes
/// if none is pinned.
pub trait Server {
    ghost Kept: { Type 0 };

    /// The part of the server that no call changes.
    ghost kept: { Self → Kept };

    ghost shows: { Self → Store };

    /// Why the server refuses operations, given the server after the call.
    ghost refuses: { Self → List AnyOp → AnyRefusal → Self → Type 0 };

    /// Writes all the operations or none of them. Returns the commit number and the operations'
    /// outcomes. Returns Busy if another pass is writing. Otherwise the errors, in order of
    /// precedence, are the volume's error, CommitsSpent, OutOfMemory and Full. A pin is left in
    /// place.
    fn apply(&mut self, ops: &[Op]) -> Result<(u64, ArrayVec<Done, 64>), Refusal>
        requires some { 1 ≤ length ops.now }
        requires few { length ops.now ≤ 64 }
        ensures stays { kept self.new ≡ kept self.old }
        ensures writes { Meanwhile (shows self.old)
            (λ store. MayWrite (λ dones. dones.items) store ops.now result (shows self.new)) }
        ensures reason { IfErr result (λ e. refuses self.old ops.now e self.new) };

    /// Whether a version is pinned.
    fn is_pinned(&self) -> bool
        ensures { result ≡ is_some (shows self.now).pin };

    /// Pins the version after all writes so far, and returns the number of these writes.
    fn pin(&mut self) -> u64
        requires { (shows self.old).pin ≡ None }
        ensures stays { kept self.new ≡ kept self.old }
        ensures pins { Meanwhile (shows self.old)
            (λ store. (shows self.new ≡ pinned store) × (result ≡ length store.journal)) };

    /// Releases the pin.
    fn unpin(&mut self)
        requires { IsSome (shows self.old).pin }
        ensures stays { kept self.new ≡ kept self.old }
        ensures unpins { shows self.new ≡ unpinned (shows self.old) };

    /// The nodes that satisfy a query, in ascending order. The error is NotCovered or OutOfMemory.
    fn query(&mut self, query: &Query) -> Result<Vec<u64>, Refusal>
        ensures stays { kept self.new ≡ kept self.old }
        ensures joins { Joins (shows self.old) (shows self.new) }
        ensures answers { Answers (λ nodes. nodes.items) result
            (scan (viewed (shows self.new)) query.now) };

    /// A page of a query's answer, in the order of an index. Returns NoSuchIndex if there is no
    /// index with that name, or if the value after which the page begins isn't of the index's kind.
    /// NoSuchIndex takes precedence over NotCovered. OutOfMemory is possible too.
    fn page(&mut self, query: Query, paging: &Paging) -> Result<Page, Refusal>
        ensures stays { kept self.new ≡ kept self.old }
        ensures joins { Joins (shows self.old) (shows self.new) }
        ensures answers { Answers page_found result
            (page_read (viewed (shows self.new)) paging.now query) };

    /// The indices that would answer a query. The error is NotCovered or OutOfMemory.
    fn explain(&mut self, query: &Query) -> Result<Cover, Refusal>
        ensures stays { kept self.new ≡ kept self.old }
        ensures joins { Joins (shows self.old) (shows self.new) }
        ensures answers { Answers (λ cover. cover) result
            (chosen (has_index (viewed (shows self.new))) query.now) }
        ensures places { IfOk result (λ cover. are_places query.now cover.picks ≡ true) };

    /// An attribute's value, if the node has it.
    fn get(&mut self, node: u64, name: &Name) -> Option<Value>
        ensures stays { kept self.new ≡ kept self.old }
        ensures joins { Joins (shows self.old) (shows self.new) }
        ensures answer { result ≡ attribute (viewed (shows self.new)) node name.now };

    /// A node's attributes, in ascending order of their names. The error is NoNode or OutOfMemory.
    fn attrs(&mut self, node: u64) -> Result<Vec<(Name, Value)>, Refusal>
        ensures stays { kept self.new ≡ kept self.old }
        ensures joins { Joins (shows self.old) (shows self.new) }
        ensures answers { Answers (λ list. list.items) result
            (attributes_at (viewed (shows self.new)) node) };

    /// The indices, in ascending order of their names. The only error is OutOfMemory.
    fn indices(&mut self) -> Result<Vec<(Name, Kind)>, Refusal>
        ensures stays { kept self.new ≡ kept self.old }
        ensures joins { Joins (shows self.old) (shows self.new) }
        ensures answers { Answers (λ list. list.items) result
            (Ok (index_kinds (viewed (shows self.new)))) };

    /// The script that rebuilds the version that reads see: the pinned version, or the version
    /// after all writes. It is the text that be_journal_text's `dump_state` returns for a journal
    /// that leaves this version.
    fn state_text(&mut self) -> Result<String, AllocError>
        ensures stays { kept self.new ≡ kept self.old }
        ensures joins { Joins (shows self.old) (shows self.new) }
        ensures text { IfOk result (λ text. string_bytes text
            ≡ state_dump (viewed (shows self.new))) }
        ensures can { OnOk result (All CanBeOp (state_ops (viewed (shows self.new)))) };
}

/// Opens a new store with one pass and with the pages and commits given in the limits. The only
/// error is OutOfMemory.
pub fn open_for_one(alloc: Global, limits: Limits) -> Result<(be_store::Store, Pass), Refusal>
    requires { IsWithin limits }
    ensures opened { IfOk result (λ r. IsPassOf r.0 r.1
        × (known r.1.knows ≡ start limits.commits)) }
    ensures begins { IfOk result (λ r. r.0.limits
        ≡ begins_empty (record limits { passes = 1 })) }
    ensures refused { IfErr result (λ e. e ≡ OutOfMemory) }
{
    let limits = Limits {
        passes: 1,
        ..limits
    };
    let (store, mut passes) = be_store::Store::open(alloc, limits)?;
    let Some(pass) = passes.pop() else {
        unreachable!()
    };
    Ok((store, pass))
}

/// Writes, retrying while another pass is writing, for up to 10,000,000 tries in all. Another
/// thread may run before each retry.
fn apply_at_last(
    store: &be_store::Store,
    pass: &mut Pass,
    ops: &[Op],
) -> Result<(u64, ArrayVec<Done, 64>), Refusal>
    requires pass { IsPassOf store.now pass.old }
    requires count { (1 ≤ length ops.now) × (length ops.now ≤ 64) }
    ensures pass { IsPassOf store.now pass.new }
    ensures number { pass.new.knows.number ≡ pass.old.knows.number }
    ensures call { LeadTo pass.old.knows pass.new.knows }
    ensures writes { Meanwhile (known pass.old.knows)
        (λ store. MayWrite (λ dones. dones.items) store ops.now result (known pass.new.knows)) }
    ensures tries { IfErr result (λ e. IsLastReason MAX_TRIES pass.old.knows pass.new.knows ops.now
        e) }
{
    pass.is_pass();
    let answer = store.apply_or_retry(pass, ops, MAX_TRIES);
    pass.is_pass();
    answer
}

/// A shared store, served from one of its passes. The other passes may write at any time; a script
/// sees what this pass has seen. What the pass knows has changed only through calls to the store.
#[derive(Drop)]
pub struct PassServer<'a> {
    alloc: Global,
    store: &'a be_store::Store,
    pass: Pass,
    first: Snapshot<Pass>,
}

impl<'a> Model for PassServer<'a> {
    ghost use Rattle.std.specs.Coded.{codes};
    ghost use Rattle.be_table.specs.Setting.{coded_setting};
    ghost use Rattle.be_script_runner.specs.Served.{Seated};

    ghost Value = { Seated };

    ghost coded = { Prim.hlevel (codes, coded_setting) };

    ghost use Rattle.be_script_runner.specs.Lines.{IsLedFrom};

    ghost view = { λ s. record {
      store = s.store.now;
      knows = s.pass.knows;
      first = s.first.value.knows;
    } };

    ghost invariant = { λ s. IsLedFrom s.first.value s.store.now s.pass };
}

impl<'a> PassServer<'a> {
    /// Serves scripts from this pass of the store.
    pub fn new(alloc: Global, store: &'a be_store::Store, pass: Pass) -> PassServer<'a>
        requires { IsPassOf store.now pass }
        ensures { (result.store ≡ store.now) × (result.knows ≡ pass.knows) }
    {
        PassServer::at_first(alloc, store, pass)
    }

    /// Like `new`, but also records what the pass knew at first.
    pub(crate) fn at_first(alloc: Global, store: &'a be_store::Store, pass: Pass) -> PassServer<'a>
        requires { IsPassOf store.now pass }
        ensures store { result.store ≡ store.now }
        ensures knows { result.knows ≡ pass.knows }
        ensures first { result.first ≡ pass.knows }
    {
        let first = Snapshot::of(&pass);
        PassServer {
            alloc,
            store,
            pass,
            first,
        }
    }

    /// Returns the pass.
    pub fn into_pass(self) -> Pass
        ensures { IsPassOf self.entry.store result × (result.knows ≡ self.entry.knows) }
    {
        let PassServer { pass, .. } = self;
        pass
    }

    /// Returns the pass, and says that what it knows changed only through calls to the store.
    pub(crate) fn at_last(self) -> Pass
        ensures pass { IsPassOf self.entry.store result }
        ensures knows { result.knows ≡ self.entry.knows }
        ensures calls { LeadTo self.entry.first result.knows }
    {
        let PassServer { pass, .. } = self;
        pass
    }

    /// If no version is pinned, pins one for a single read. Returns whether it did.
    fn begin_read(&mut self) -> bool
        ensures stays { seat_of self.new ≡ seat_of self.old }
        ensures pinned { IsSome (known self.new.knows).pin }
        ensures same_view { viewed (known self.new.knows)
            ≡ viewed (if result then unpinned (known self.new.knows) else known self.new.knows) }
        ensures joins { Joins (known self.old.knows)
            (if result then unpinned (known self.new.knows) else known self.new.knows) }
    {
        if self.is_pinned() {
            return false;
        }
        self.pin();
        true
    }

    /// Releases the pin if `begin_read` made it for this read.
    fn end_read(&mut self, made: bool)
        requires { IsSome (known self.old.knows).pin }
        ensures stays { seat_of self.new ≡ seat_of self.old }
        ensures unpinned { known self.new.knows
            ≡ (if made then unpinned (known self.old.knows) else known self.old.knows) }
    {
        if made {
            self.unpin();
        }
    }
}

impl<'a> Server for PassServer<'a> {
    ghost use Rattle.std.specs.Prelude.{ℕ};
    ghost use Rattle.be_script_runner.specs.Imports.{Knowledge, Opened};
    ghost use Rattle.be_script_runner.specs.Served.{IsRefusedBy, seat_of};

    ghost Kept = { Opened × ℕ × Knowledge };

    ghost kept = { seat_of };

    ghost shows = { λ s. known s.knows };

    ghost refuses = { λ s ops e t. IsRefusedBy s.knows ops e t.knows };

    fn apply(&mut self, ops: &[Op]) -> Result<(u64, ArrayVec<Done, 64>), Refusal> {
        apply_at_last(self.store, &mut self.pass, ops)
    }

    fn is_pinned(&self) -> bool {
        self.pass.pinned().is_some()
    }

    fn pin(&mut self) -> u64 {
        self.pass.is_pass();
        let number = self.store.pin(&mut self.pass);
        self.pass.is_pass();
        number
    }

    fn unpin(&mut self) {
        self.store.unpin(&mut self.pass);
    }

    fn query(&mut self, query: &Query) -> Result<Vec<u64>, Refusal> {
        let made = self.begin_read();
        let answer = self.store.query(self.alloc, &mut self.pass, query);
        self.end_read(made);
        Ok(answer?.nodes)
    }

    fn page(&mut self, query: Query, paging: &Paging) -> Result<Page, Refusal> {
        let made = self.begin_read();
        let page = read_page(self.alloc, self.store, &mut self.pass, query, paging);
        self.end_read(made);
        page
    }

    fn explain(&mut self, query: &Query) -> Result<Cover, Refusal> {
        let made = self.begin_read();
        let cover = self.store.explain(self.alloc, &mut self.pass, query);
        self.end_read(made);
        cover
    }

    fn get(&mut self, node: u64, name: &Name) -> Option<Value> {
        let made = self.begin_read();
        let value = self.store.get(&mut self.pass, node, name);
        self.end_read(made);
        value
    }

    fn attrs(&mut self, node: u64) -> Result<Vec<(Name, Value)>, Refusal> {
        let made = self.begin_read();
        let list = self.store.attrs(self.alloc, &mut self.pass, node);
        self.end_read(made);
        list
    }

    fn indices(&mut self) -> Result<Vec<(Name, Kind)>, Refusal> {
        let made = self.begin_read();
        let list = self.store.indices(self.alloc, &mut self.pass);
        self.end_read(made);
        list
    }

    fn state_text(&mut self) -> Result<String, AllocError> {
        let made = self.begin_read();
        let text = pinned_text(self.alloc, self.store, &mut self.pass);
        self.end_read(made);
        text
    }
}
