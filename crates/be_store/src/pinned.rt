//! A guard for a pass that is pinned.
//!
//! A pin that is never released holds the pages of its version for as long as the store lives. A
//! function that can return early with `?` should therefore query through a `Pinned`, which unpins
//! when it is dropped.
ghost use Rattle.std.specs.Prelude.{◌≡◌, ◌⊎◌, ◌<◌, ◌≤◌, ◌++◌, ◌*◌, ◌^◌, ℕ, true, false, [], None};
ghost use Rattle.std.specs.Prelude.{Ok, IsOk, IfOk, IfErr, IfNone, IfSome, OnErr, OnOk, length};
ghost use Rattle.std.specs.Prelude.{map as each};
ghost use Rattle.std.specs.Coded.{codes};
ghost use Rattle.be_table.specs.Setting.{coded_setting};
ghost use Rattle.be_store.specs.Imports.{are_places, attribute, attributes_at, chosen, covered};
ghost use Rattle.be_store.specs.Imports.{covers, cursor_bytes, from_number, given, has_index};
ghost use Rattle.be_store.specs.Imports.{index_kind, index_kinds, is_held, left, name_in};
ghost use Rattle.be_store.specs.Imports.{nodes_from, page, page_with, pinned_number, scan};
ghost use Rattle.be_store.specs.Imports.{Answers, IsAnyOf};
ghost use Rattle.be_store.specs.Imports.{IsReadInto, IsSeatOf, IsStrictlyIncreasing, NotCovered};
ghost use Rattle.be_store.specs.Imports.{OutOfMemory, ReportsColumns};
ghost use Rattle.be_store.specs.Finding.{FailsWith, FindsAtPin};
ghost use Rattle.be_store.specs.History.{Learns, LocksAtMostOnce, Pins, Unpins};
ghost use Rattle.be_store.specs.Live.{IsLiveOf, Refreshes};
ghost use Rattle.be_store.specs.Passes.{IsAtRest, IsAtRest-prop, IsPassOf, IsPinnedTo};
ghost use Rattle.be_store.specs.Passes.{volume_pinned};

use crate::answers::{Answer, Updates};
use crate::{Live, Pass, Store};
use arrayvec::ArrayVec;
use be_order::Order;
use be_paged::{Cell, HeldName};
use be_plan::{Cover, PreparedQuery};
use be_query::Query;
use be_value::{Kind, Name, Refusal, Value};
use be_volume::Op;
use be_volume_state::Place;
use std::alloc::Global;

/// A pass that stays pinned for as long as this guard lives. Dropping the guard unpins the pass.
pub struct Pinned<'a> {
    store: &'a Store,
    pass: &'a mut Pass,
    number: u64,
    ghost seat: { IsSeatOf store.now pass.now } by { Prim.hlevel (codes, coded_setting) },
    ghost between: { IsAtRest store.now pass.now } by { IsAtRest-prop store.now pass.now },
}

impl Store {
    /// Pins the current version, as `pin` does, until the returned guard is dropped. Takes three
    /// steps, plus one when the guard is dropped, and allocates no memory.
    pub fn pinned<'a>(&'a self, pass: &'a mut Pass) -> Pinned<'a>
        requires pass { IsPassOf self.now pass.old }
        requires unpinned { pinned_number pass.old.knows.phase ≡ None }
        ensures same_reference { result.pass.ghost_name ≡ pass.entry.ghost_name }
        ensures store { result.store.now ≡ self.now }
        ensures pin { Pins pass.old.knows result.pass.now.knows result.number }
    {
        let number = self.pin(pass);
        Pinned {
            store: self,
            pass,
            number,
        }
    }
}

impl Pinned<'_> {
    ghost use Rattle.be_store.specs.Guards.{HasReadThrough, IsSameGuard};

    /// Returns the number of the pinned version, which is how many journal entries it includes.
    pub fn number(&self) -> u64
        ensures { result ≡ self.now.number }
    {
        self.number
    }

    /// Equivalent to `Store::query`.
    pub fn query(&mut self, alloc: Global, query: &Query) -> Result<Answer, Refusal>
        requires pinned { (n : ℕ) × IsPinnedTo self.old.pass.now.knows n }
        ensures read { HasReadThrough self.old self.new }
        ensures nodes { Answers (λ a. a.nodes.items) result
            (scan (volume_pinned self.old.pass.now.knows) query.now) }
        ensures rising { IfOk result (λ a. IsStrictlyIncreasing a.nodes.items) }
        ensures pin { IfOk result (λ a. IsPinnedTo self.old.pass.now.knows a.pin) }
    {
        self.store.query(alloc, self.pass, query)
    }

    /// Equivalent to `Store::query_into`.
    pub fn query_into(
        &mut self,
        alloc: Global,
        query: &Query,
        nodes: &mut Vec<u64>,
    ) -> Result<u64, Refusal>
        requires pinned { (n : ℕ) × IsPinnedTo self.old.pass.now.knows n }
        ensures read { HasReadThrough self.old self.new }
        ensures found { FindsAtPin self.old.pass.now.knows query.now nodes.new.items result }
    {
        self.store.query_into(alloc, self.pass, query, nodes)
    }

    /// Equivalent to `Store::query_prepared`.
    #[inline(always)]
    pub fn query_prepared(
        &mut self,
        alloc: Global,
        query: &mut PreparedQuery,
        nodes: &mut Vec<u64>,
    ) -> Result<u64, Refusal>
        requires pinned { (n : ℕ) × IsPinnedTo self.old.pass.now.knows n }
        ensures read { HasReadThrough self.old self.new }
        ensures found { FindsAtPin self.old.pass.now.knows query.old nodes.new.items result }
        ensures same { query.new ≡ query.old }
    {
        self.store.query_prepared(alloc, self.pass, query, nodes)
    }

    /// Equivalent to `Store::ordered`.
    pub fn ordered(
        &mut self,
        alloc: Global,
        query: &mut PreparedQuery,
        order: Order<'_>,
        cursor: &mut Option<ArrayVec<u8, 264>>,
        nodes: &mut Vec<u64>,
    ) -> Result<bool, Refusal>
        requires pinned { (n : ℕ) × IsPinnedTo self.old.pass.now.knows n }
        ensures read { HasReadThrough self.old self.new }
        ensures page { Answers (page_with nodes.new.items (cursor_bytes cursor.new)) result
            (page (volume_pinned self.old.pass.now.knows) query.old order.entry.by.now
            order.entry.descending (cursor_bytes cursor.old) order.entry.most) }
        ensures cursor { OnErr result (cursor.new ≡ cursor.old) }
        ensures same { query.new ≡ query.old }
    {
        self.store
            .ordered(alloc, self.pass, query, order, cursor, nodes)
    }

    /// Equivalent to `Store::first`.
    pub fn first(
        &mut self,
        alloc: Global,
        query: &mut PreparedQuery,
        from: u64,
        most: usize,
        nodes: &mut Vec<u64>,
    ) -> Result<(), Refusal>
        requires pinned { (n : ℕ) × IsPinnedTo self.old.pass.now.knows n }
        ensures read { HasReadThrough self.old self.new }
        ensures nodes { Answers (λ _. nodes.new.items) result
            (from_number (volume_pinned self.old.pass.now.knows) query.old from most) }
        ensures same { query.new ≡ query.old }
    {
        self.store.first(alloc, self.pass, query, from, most, nodes)
    }

    /// Equivalent to `Store::any`.
    pub fn any(
        &mut self,
        alloc: Global,
        query: &mut PreparedQuery,
        most: usize,
        nodes: &mut Vec<u64>,
    ) -> Result<(), Refusal>
        requires pinned { (n : ℕ) × IsPinnedTo self.old.pass.now.knows n }
        ensures read { HasReadThrough self.old self.new }
        ensures any { OnOk result (IsAnyOf (scan (volume_pinned self.old.pass.now.knows) query.old)
            most nodes.new.items) }
        ensures refused { IfErr result (FailsWith (volume_pinned self.old.pass.now.knows)
            query.old) }
        ensures same { query.new ≡ query.old }
    {
        self.store.any(alloc, self.pass, query, most, nodes)
    }

    /// Equivalent to `Store::index_kind`.
    pub fn index_kind(&mut self, name: &Name) -> Option<Kind>
        requires pinned { (n : ℕ) × IsPinnedTo self.old.pass.now.knows n }
        ensures read { HasReadThrough self.old self.new }
        ensures kind { result ≡ index_kind (volume_pinned self.old.pass.now.knows) name.now }
    {
        self.store.index_kind(self.pass, name)
    }

    /// Equivalent to `Store::explain`.
    pub fn explain(&mut self, alloc: Global, query: &Query) -> Result<Cover, Refusal>
        requires pinned { (n : ℕ) × IsPinnedTo self.old.pass.now.knows n }
        ensures read { HasReadThrough self.old self.new }
        ensures cover { Answers (λ cover. cover) result
            (chosen (has_index (volume_pinned self.old.pass.now.knows)) query.now) }
        ensures covers { IfOk result (λ cover. covers
            (has_index (volume_pinned self.old.pass.now.knows)) cover.picks query.now ≡ true) }
        ensures places { IfOk result (λ cover. are_places query.now cover.picks ≡ true) }
        ensures refused { IfErr result (λ e. (e ≡ OutOfMemory)
            ⊎ ((e ≡ NotCovered) × (covered (volume_pinned self.old.pass.now.knows) query.now
            ≡ false))) }
    {
        self.store.explain(alloc, self.pass, query)
    }

    /// Equivalent to `Store::get`.
    #[inline(always)]
    pub fn get(&mut self, node: u64, name: &Name) -> Option<Value>
        requires pinned { (n : ℕ) × IsPinnedTo self.old.pass.now.knows n }
        ensures read { HasReadThrough self.old self.new }
        ensures value { result ≡ attribute (volume_pinned self.old.pass.now.knows) node name.now }
    {
        self.store.get(self.pass, node, name)
    }

    /// Equivalent to `Store::is_held`.
    pub fn is_held(&mut self, alloc: Global, node: u64, name: &Name) -> bool
        requires pinned { (n : ℕ) × IsPinnedTo self.old.pass.now.knows n }
        ensures read { HasReadThrough self.old self.new }
        ensures held { result ≡ is_held (volume_pinned self.old.pass.now.knows) node name.now }
    {
        self.store.is_held(alloc, self.pass, node, name)
    }

    /// Equivalent to `Store::columns`.
    pub fn columns(
        &mut self,
        nodes: &[u64],
        names: &[HeldName],
        cells: &mut [Cell],
        bytes: &mut [u8],
    ) -> u64
        requires pinned { (n : ℕ) × IsPinnedTo self.old.pass.now.knows n }
        requires few { length nodes.now * length names.now ≤ 2 ^ 32 }
        ensures read { HasReadThrough self.old self.new }
        ensures reported { ReportsColumns (volume_pinned self.old.pass.now.knows) nodes.now
            (each name_in names.now) cells.old cells.new bytes.old bytes.new result }
    {
        self.store.columns(self.pass, nodes, names, cells, bytes)
    }

    /// Equivalent to `Store::get_into`.
    pub fn get_into(&mut self, node: u64, name: &HeldName, bytes: &mut [u8]) -> Option<Cell>
        requires pinned { (n : ℕ) × IsPinnedTo self.old.pass.now.knows n }
        ensures read { HasReadThrough self.old self.new }
        ensures value { IsReadInto (attribute (volume_pinned self.old.pass.now.knows) node
            (name_in name.now)) result bytes.old bytes.new }
    {
        self.store.get_into(self.pass, node, name, bytes)
    }

    /// Equivalent to `Store::next`.
    pub fn next(&mut self) -> u64
        requires pinned { (n : ℕ) × IsPinnedTo self.old.pass.now.knows n }
        ensures read { HasReadThrough self.old self.new }
        ensures next { result ≡ (volume_pinned self.old.pass.now.knows).next }
    {
        self.store.next(self.pass)
    }

    /// Equivalent to `Store::attrs`.
    pub fn attrs(&mut self, alloc: Global, node: u64) -> Result<Vec<(Name, Value)>, Refusal>
        requires pinned { (n : ℕ) × IsPinnedTo self.old.pass.now.knows n }
        ensures read { HasReadThrough self.old self.new }
        ensures list { Answers (λ list. list.items) result
            (attributes_at (volume_pinned self.old.pass.now.knows) node) }
        ensures wanted { IfErr result (λ e. e ≡ OutOfMemory
            → IsOk (attributes_at (volume_pinned self.old.pass.now.knows) node)) }
    {
        self.store.attrs(alloc, self.pass, node)
    }

    /// Equivalent to `Store::indices`.
    pub fn indices(&mut self, alloc: Global) -> Result<Vec<(Name, Kind)>, Refusal>
        requires pinned { (n : ℕ) × IsPinnedTo self.old.pass.now.knows n }
        ensures read { HasReadThrough self.old self.new }
        ensures list { Answers (λ list. list.items) result
            (Ok (index_kinds (volume_pinned self.old.pass.now.knows))) }
    {
        self.store.indices(alloc, self.pass)
    }

    /// Equivalent to `Store::nodes`.
    pub fn nodes(&mut self, alloc: Global, from: u64, most: usize) -> Result<Vec<u64>, Refusal>
        requires pinned { (n : ℕ) × IsPinnedTo self.old.pass.now.knows n }
        ensures read { HasReadThrough self.old self.new }
        ensures list { Answers (λ list. list.items) result
            (Ok (nodes_from (volume_pinned self.old.pass.now.knows) from most)) }
    {
        self.store.nodes(alloc, self.pass, from, most)
    }

    /// Equivalent to `Store::state`.
    pub fn state(&mut self, alloc: Global, place: &mut Place) -> Result<Option<Vec<Op>>, Refusal>
        requires pinned { (n : ℕ) × IsPinnedTo self.old.pass.now.knows n }
        ensures read { HasReadThrough self.old self.new }
        ensures list { left (volume_pinned self.old.pass.now.knows) place.old
            ≡ given (λ ops. ops.items) result
            ++ left (volume_pinned self.old.pass.now.knows) place.new }
        ensures length { IfOk result (λ list. IfSome list
            (λ ops. (1 ≤ length ops.items) × (length ops.items ≤ 64))) }
        ensures full { IfOk result (λ list. IfSome list
            (λ ops. length ops.items < 64 → left (volume_pinned self.old.pass.now.knows) place.new
            ≡ [])) }
        ensures ends { IfOk result (λ list. IfNone list
            (left (volume_pinned self.old.pass.now.knows) place.old ≡ [])) }
        ensures wanted { IfErr result (λ e. e ≡ OutOfMemory) }
    {
        self.store.state(alloc, self.pass, place)
    }

    /// Equivalent to `Live::refresh`.
    pub fn refresh(&mut self, live: &mut Live) -> Result<Updates, Refusal>
        requires pinned { (n : ℕ) × IsPinnedTo self.old.pass.now.knows n }
        ensures read { HasReadThrough self.old self.new }
        ensures own { IfOk result (λ u. IsLiveOf self.old.store.now live.new) }
        ensures ok { IfOk result (λ u. Refreshes (volume_pinned self.old.pass.now.knows) live.old
            live.new u.created.items u.removed.items) }
        ensures err { IfErr result (λ e. (live.new ≡ live.old)
            × FailsWith (volume_pinned self.old.pass.now.knows) live.old.query e) }
    {
        live.refresh(self.store, self.pass)
    }

    /// Equivalent to `Live::refresh_changed`.
    pub fn refresh_changed(&mut self, live: &mut Live) -> Result<Updates, Refusal>
        requires pinned { (n : ℕ) × IsPinnedTo self.old.pass.now.knows n }
        requires own { IsLiveOf self.old.store.now live.old }
        ensures same_guard { IsSameGuard self.old self.new }
        ensures learns { Learns self.old.pass.now.knows self.new.pass.now.knows }
        ensures moves { LocksAtMostOnce self.old.pass.now.knows self.new.pass.now.knows }
        ensures volume { volume_pinned self.new.pass.now.knows
            ≡ volume_pinned self.old.pass.now.knows }
        ensures own { IsLiveOf self.old.store.now live.new }
        ensures ok { IfOk result (λ u. Refreshes (volume_pinned self.old.pass.now.knows) live.old
            live.new u.created.items u.removed.items) }
        ensures err { IfErr result (λ e. (live.new ≡ live.old)
            × FailsWith (volume_pinned self.old.pass.now.knows) live.old.query e) }
    {
        live.refresh_changed(self.store, self.pass)
    }
}

impl Drop for Pinned<'_> {
    fn drop(self)
        requires pinned { (n : ℕ) × IsPinnedTo self.pass.now.knows n }
        ensures pass { IsPassOf self.entry.store.now self.exit.1.0.now }
        ensures unpins { Unpins self.entry.pass.now.knows self.exit.1.0.now.knows }
    {
        let Pinned {
            store,
            pass,
            number: _,
        } = self;
        store.unpin(pass);
    }
}
