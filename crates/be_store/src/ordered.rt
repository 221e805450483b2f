//! Returns parts of a prepared query's answer: a page in the order of an index, the first nodes by
//! number, or a few arbitrary nodes.
ghost use Rattle.std.specs.Prelude.{◌≡◌, ◌⊎◌, ℕ, Err, OnErr, OnOk, IfErr};
ghost use Rattle.be_store.specs.Imports.{cursor_bytes, from_number, index_kind, page, page_with};
ghost use Rattle.be_store.specs.Imports.{scan, Answers, IsAnyOf, IsVersion, OutOfMemory, State};
ghost use Rattle.be_store.specs.Passes.{HasRead, IsPassOf, IsPinnedTo, volume_pinned};

use crate::{Pass, Store};
use arrayvec::ArrayVec;
use be_order::{Order, any_prepared_into, first_prepared_into, ordered_prepared_into};
use be_paged::source;
use be_paged_order::ordered_source;
use be_pages::Look;
use be_plan::{PreparedQuery, Source};
use be_value::{Kind, Name, Refusal};
use std::alloc::Global;

/// Returns the kind of the index with that name, or `None` if there is no such index, and gives the
/// reader back.
fn kind_at<L: Look>(look: L, version_page: u64, name: &Name) -> (L, Option<Kind>)
    ghost volume: { State }
    requires version { IsVersion (L.page_state look) (L.words look) version_page volume }
    ensures kind { result.1 ≡ index_kind volume name.now }
    ensures kept { L.kept result.0 ≡ L.kept look }
{
    let mut source = source(look, version_page);
    let kind = source.kind_of(name);
    (source.into_look(), kind)
}

/// Replaces the contents of a list with a page of the answer. Gives the reader back.
fn ask_page<L: Look>(
    alloc: Global,
    look: L,
    version_page: u64,
    prepared: &mut PreparedQuery,
    order: Order<'_>,
    cursor: &mut Option<ArrayVec<u8, 264>>,
    found: &mut Vec<u64>,
) -> (L, Result<bool, Refusal>)
    ghost volume: { State }
    requires version { IsVersion (L.page_state look) (L.words look) version_page volume }
    ensures answer { Answers (page_with found.new.items (cursor_bytes cursor.new)) result.1
        (page volume prepared.old order.entry.by.now order.entry.descending
        (cursor_bytes cursor.old) order.entry.most) }
    ensures cursor { OnErr result.1 (cursor.new ≡ cursor.old) }
    ensures same { prepared.new ≡ prepared.old }
    ensures kept { L.kept result.0 ≡ L.kept look }
{
    let mut source = ordered_source(look, version_page);
    let answer = ordered_prepared_into(alloc, prepared, &mut source, order, cursor, found);
    (source.into_look(), answer)
}

/// Replaces the contents of a list with up to `most` nodes of the answer, starting at the number
/// `from`. Gives the reader back.
fn ask_first<L: Look>(
    alloc: Global,
    look: L,
    version_page: u64,
    prepared: &mut PreparedQuery,
    from: u64,
    most: usize,
    found: &mut Vec<u64>,
) -> (L, Result<(), Refusal>)
    ghost volume: { State }
    requires version { IsVersion (L.page_state look) (L.words look) version_page volume }
    ensures answer { Answers (λ _. found.new.items) result.1
        (from_number volume prepared.old from most) }
    ensures same { prepared.new ≡ prepared.old }
    ensures kept { L.kept result.0 ≡ L.kept look }
{
    let mut source = ordered_source(look, version_page);
    let answer = first_prepared_into(alloc, prepared, &mut source, from, most, found);
    (source.into_look(), answer)
}

/// Replaces the contents of a list with up to `most` arbitrary nodes of the answer. Gives the
/// reader back.
fn ask_any<L: Look>(
    alloc: Global,
    look: L,
    version_page: u64,
    prepared: &mut PreparedQuery,
    most: usize,
    found: &mut Vec<u64>,
) -> (L, Result<(), Refusal>)
    ghost volume: { State }
    requires version { IsVersion (L.page_state look) (L.words look) version_page volume }
    ensures any { OnOk result.1 (IsAnyOf (scan volume prepared.old) most found.new.items) }
    ensures refused { IfErr result.1 (λ e. (e ≡ OutOfMemory) ⊎ (scan volume prepared.old ≡ Err e)) }
    ensures same { prepared.new ≡ prepared.old }
    ensures kept { L.kept result.0 ≡ L.kept look }
{
    let mut source = ordered_source(look, version_page);
    let answer = any_prepared_into(alloc, prepared, &mut source, most, found);
    (source.into_look(), answer)
}

impl Store {
    /// Returns the kind of the index with that name in the pinned version, or `None` if there is no
    /// such index. Reads only the version page and allocates no memory.
    pub fn index_kind(&self, pass: &mut Pass, name: &Name) -> Option<Kind>
        requires pass { IsPassOf self.now pass.old }
        requires pinned { (n : ℕ) × IsPinnedTo pass.old.knows n }
        ensures pass { IsPassOf self.now pass.new × HasRead pass.old.knows pass.new.knows }
        ensures kind { result ≡ index_kind (volume_pinned pass.old.knows) name.now }
    {
        let (look, version) = self.reader(pass);
        let (look, kind) = kind_at(look, version, name);
        *pass = look.into_seat();
        kind
    }

    /// Replaces the contents of a list with one page of the query's answer, and returns whether
    /// more pages follow. The nodes are in the order of an index: sorted by value, with equal
    /// values sorted by number, in ascending order or exactly its reverse. A page has the first
    /// `order.most` nodes after the cursor. Nodes that have no pair in the index are on no page.
    /// The call moves the cursor to the last node of the page; an empty page leaves it unchanged.
    /// Pass `None` as the cursor to get the first page.
    ///
    /// The cursor is a position in the order, not a count. At a later version, the next page
    /// continues from that position, whatever was written in the meantime. A node whose value has
    /// moved before the cursor is missed, and a node that was already returned and has moved past
    /// the cursor is returned again.
    ///
    /// Returns `NoSuchIndex` if that version has no index with the order's name; otherwise
    /// `NotCovered` if none of its indices covers the query, or `OutOfMemory`. An error leaves the
    /// cursor unchanged and the contents of the list unspecified.
    ///
    /// The cost is that of the cheapest of three methods, or up to about twice as much:
    /// - A walk over the keys of the page and one more, if all comparisons use the order's name and
    ///   their range decides the query. Memory is allocated only for the list.
    /// - Otherwise, a walk over the order's index that starts at the cursor and evaluates the query
    ///   at each node until the page is full.
    /// - If that would cost more than computing the whole answer: the cost of `query_prepared`, two
    ///   descents for each node that is found, and a sort. Memory is allocated for the keys after
    ///   the cursor.
    pub fn ordered(
        &self,
        alloc: Global,
        pass: &mut Pass,
        query: &mut PreparedQuery,
        order: Order<'_>,
        cursor: &mut Option<ArrayVec<u8, 264>>,
        nodes: &mut Vec<u64>,
    ) -> Result<bool, Refusal>
        requires pass { IsPassOf self.now pass.old }
        requires pinned { (n : ℕ) × IsPinnedTo pass.old.knows n }
        ensures pass { IsPassOf self.now pass.new × HasRead pass.old.knows pass.new.knows }
        ensures page { Answers (page_with nodes.new.items (cursor_bytes cursor.new)) result
            (page (volume_pinned pass.old.knows) query.old order.entry.by.now
            order.entry.descending (cursor_bytes cursor.old) order.entry.most) }
        ensures cursor { OnErr result (cursor.new ≡ cursor.old) }
        ensures same { query.new ≡ query.old }
    {
        let (look, version) = self.reader(pass);
        let (look, more) = ask_page(alloc, look, version, query, order, cursor, nodes);
        *pass = look.into_seat();
        more
    }

    /// Replaces the contents of a list with up to `most` nodes of the query's answer in ascending
    /// order, starting at the number `from`. To continue, call it again with the number after the
    /// last of these nodes.
    ///
    /// The errors and the cost are those of `query_prepared`. After an error, the contents of the
    /// list are unspecified.
    pub fn first(
        &self,
        alloc: Global,
        pass: &mut Pass,
        query: &mut PreparedQuery,
        from: u64,
        most: usize,
        nodes: &mut Vec<u64>,
    ) -> Result<(), Refusal>
        requires pass { IsPassOf self.now pass.old }
        requires pinned { (n : ℕ) × IsPinnedTo pass.old.knows n }
        ensures pass { IsPassOf self.now pass.new × HasRead pass.old.knows pass.new.knows }
        ensures nodes { Answers (λ _. nodes.new.items) result
            (from_number (volume_pinned pass.old.knows) query.old from most) }
        ensures same { query.new ≡ query.old }
    {
        let (look, version) = self.reader(pass);
        let (look, answer) = ask_first(alloc, look, version, query, from, most, nodes);
        *pass = look.into_seat();
        answer
    }

    /// Replaces the contents of a list with arbitrary nodes of the query's answer, without
    /// duplicates: `most` nodes, or all if the answer has fewer.
    ///
    /// The errors are those of `query_prepared`. After an error, the contents of the list are
    /// unspecified. Costs a walk over `most` keys if the range of one index decides the query, and
    /// otherwise as much as `query_prepared`.
    pub fn any(
        &self,
        alloc: Global,
        pass: &mut Pass,
        query: &mut PreparedQuery,
        most: usize,
        nodes: &mut Vec<u64>,
    ) -> Result<(), Refusal>
        requires pass { IsPassOf self.now pass.old }
        requires pinned { (n : ℕ) × IsPinnedTo pass.old.knows n }
        ensures pass { IsPassOf self.now pass.new × HasRead pass.old.knows pass.new.knows }
        ensures any { OnOk result
            (IsAnyOf (scan (volume_pinned pass.old.knows) query.old) most nodes.new.items) }
        ensures refused { IfErr result (λ e. (e ≡ OutOfMemory)
            ⊎ (scan (volume_pinned pass.old.knows) query.old ≡ Err e)) }
        ensures same { query.new ≡ query.old }
    {
        let (look, version) = self.reader(pass);
        let (look, answer) = ask_any(alloc, look, version, query, most, nodes);
        *pass = look.into_seat();
        answer
    }
}
