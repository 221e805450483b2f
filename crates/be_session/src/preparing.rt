//! Queries that are parsed once and kept for repeated use.
ghost use Rattle.std.specs.Prelude.{◌≡◌, ◌≤◌, ℕ, [], Ok, IfOk, IfErr, OnErr, OnOk, string_bytes};
ghost use Rattle.be_session.specs.Imports.{from_number, name_in, or_text, pinned_number, scan};
ghost use Rattle.be_session.specs.Imports.{volume_pinned, Formula, HasRead, IsAnyOf, IsLiveOf};
ghost use Rattle.be_session.specs.Imports.{IsPinnedTo, IsTextOf, Learns, LocksAtMostOnce};
ghost use Rattle.be_session.specs.Imports.{OutOfMemory};
ghost use Rattle.be_session.specs.Items.{IsBuilt, IsUnbuilt};
ghost use Rattle.be_session.specs.Prepared.{IsUnasked, KeepsUnrefreshed, RefreshesAtPin};
ghost use Rattle.be_session.specs.Prepared.{with_found};
ghost use Rattle.be_session.specs.Ordering.{AreUnread, IsNoPage, IsPageRead};
ghost use Rattle.be_session.specs.Sitting.{IsNoQuery, IsUnread, IsUnrefreshed};
ghost use Rattle.be_session.specs.declared.faults.Fault.TheVariants.{Refused};

use crate::session::{Session, query_of};
use crate::{Cursor, Fault, HeldOrder, ListFault, PredicateItem, query_of_items};
use be_query::print;
use be_store::{Live, Query, Updates};
use std::alloc::{AllocError, Global};
use std::marker::Model;

/// A query that is parsed once and kept. It holds the nodes that it last found, its answer at the
/// last refresh, and which nodes that refresh added and removed. It belongs to no session, and any
/// session can run it.
#[derive(Drop)]
pub struct Prepared {
    live: Live,
    found: Vec<u64>,
    updates: Updates,
}

impl Model for Prepared {
    ghost use Rattle.be_session.specs.Prepared.{PreparedQuery, coded_prepared};

    ghost Value = { PreparedQuery };

    ghost coded = { coded_prepared };

    ghost view = { λ p. record {
      live = p.live;
      found = p.found.items;
      came = p.updates.created.items;
      went = p.updates.removed.items;
    } };
}

impl Prepared {
    /// Runs the query in the session's pinned version, and keeps the matching nodes in place of
    /// those that it found before. After an error, it keeps none. The answer of the last refresh is
    /// unchanged.
    ///
    /// The cost is that of `Store::query_prepared`. The call reuses the list of the previous call,
    /// so it allocates memory only if that list is too small.
    #[tactic(auto, using(crate::proofs::Same::same_but_found))]
    pub fn find(&mut self, session: &mut Session) -> Result<(), Fault>
        ensures store { (session.new.store ≡ session.old.store)
            × (session.new.holds ≡ session.old.holds) }
        ensures read { HasRead session.old.knows session.new.knows }
        ensures nodes { OnOk result (scan (volume_pinned session.old.knows) self.old.live.query
            ≡ Ok self.new.found) }
        ensures pin { OnOk result ((n : ℕ) × IsPinnedTo session.old.knows n) }
        ensures same { self.new ≡ with_found self.old self.new.found }
        ensures err { IfErr result (λ e. (self.new.found ≡ [])
            × IsUnrefreshed (pinned_number session.old.knows.phase)
            (scan (volume_pinned session.old.knows) self.old.live.query) e) }
    {
        session.query_into(&mut self.live, &mut self.found)
    }

    /// Finds a page of the answer in the session's pinned version, in the order of an index. Keeps
    /// the nodes of the page in place of those found before, and returns whether more pages follow.
    /// The errors are those of `Session::ordered`. They leave the cursor unchanged, and no nodes
    /// are kept.
    #[tactic(auto, using(crate::proofs::Same::same_but_found))]
    pub fn find_ordered(
        &mut self,
        session: &mut Session,
        order: HeldOrder<'_>,
        cursor: &mut Cursor,
    ) -> Result<bool, Fault>
        ensures store { (session.new.store ≡ session.old.store)
            × (session.new.holds ≡ session.old.holds) }
        ensures read { HasRead session.old.knows session.new.knows }
        ensures pin { IfOk result (λ more. (n : ℕ) × IsPinnedTo session.old.knows n) }
        ensures page { IfOk result (IsPageRead (volume_pinned session.old.knows)
            self.old.live.query (name_in order.entry.by.now) order.entry.descending
            order.entry.most cursor.old cursor.new self.new.found) }
        ensures same { self.new ≡ with_found self.old self.new.found }
        ensures err { IfErr result (λ e. IsUnread (pinned_number session.old.knows.phase)
            (IsNoPage (volume_pinned session.old.knows) self.old.live.query
            (name_in order.entry.by.now) order.entry.descending order.entry.most cursor.old e) e) }
        ensures kept { OnErr result ((cursor.new ≡ cursor.old) × (self.new.found ≡ [])) }
    {
        session.ordered(&mut self.live, order, cursor, &mut self.found)
    }

    /// Finds up to `most` nodes of the answer in the session's pinned version, starting at a given
    /// number, and keeps them in place of those found before. After an error, none are kept.
    #[tactic(auto, using(crate::proofs::Same::same_but_found))]
    pub fn find_first(
        &mut self,
        session: &mut Session,
        first: u64,
        most: usize,
    ) -> Result<(), Fault>
        ensures store { (session.new.store ≡ session.old.store)
            × (session.new.holds ≡ session.old.holds) }
        ensures read { HasRead session.old.knows session.new.knows }
        ensures pin { OnOk result ((n : ℕ) × IsPinnedTo session.old.knows n) }
        ensures wanted { OnOk result (1 ≤ most) }
        ensures nodes { OnOk result (from_number (volume_pinned session.old.knows)
            self.old.live.query first most ≡ Ok self.new.found) }
        ensures same { self.new ≡ with_found self.old self.new.found }
        ensures err { IfErr result (λ e. IsUnread (pinned_number session.old.knows.phase)
            (AreUnread (from_number (volume_pinned session.old.knows) self.old.live.query first
            most) most e) e) }
        ensures kept { OnErr result (self.new.found ≡ []) }
    {
        session.first(&mut self.live, first, most, &mut self.found)
    }

    /// Finds up to `most` arbitrary nodes of the answer in the session's pinned version, and keeps
    /// them in place of those found before. After an error, none are kept.
    #[tactic(auto, using(crate::proofs::Same::same_but_found))]
    pub fn find_any(&mut self, session: &mut Session, most: usize) -> Result<(), Fault>
        ensures store { (session.new.store ≡ session.old.store)
            × (session.new.holds ≡ session.old.holds) }
        ensures read { HasRead session.old.knows session.new.knows }
        ensures pin { OnOk result ((n : ℕ) × IsPinnedTo session.old.knows n) }
        ensures wanted { OnOk result (1 ≤ most) }
        ensures nodes { OnOk result (IsAnyOf (scan (volume_pinned session.old.knows)
            self.old.live.query) most self.new.found) }
        ensures same { self.new ≡ with_found self.old self.new.found }
        ensures err { IfErr result (λ e. IsUnread (pinned_number session.old.knows.phase)
            (AreUnread (scan (volume_pinned session.old.knows) self.old.live.query) most e) e) }
        ensures kept { OnErr result (self.new.found ≡ []) }
    {
        session.any(&mut self.live, most, &mut self.found)
    }

    /// Returns the nodes that the last call found, in the order in which it found them. There are
    /// none before the first call or after an error.
    pub fn found(&self) -> &[u64]
        ensures { result.now ≡ self.now.found }
    {
        self.found.as_slice()
    }

    /// Runs the query in the session's pinned version, and keeps which nodes were added and removed
    /// since the last refresh. The nodes that were last found stay. An error leaves everything
    /// unchanged.
    #[tactic(auto, using(crate::proofs::Same::same_prepared))]
    pub fn refresh(&mut self, session: &mut Session) -> Result<(), Fault>
        ensures store { (session.new.store ≡ session.old.store)
            × (session.new.holds ≡ session.old.holds) }
        ensures read { HasRead session.old.knows session.new.knows }
        ensures own { OnOk result (IsLiveOf session.old.store self.new.live) }
        ensures ok { OnOk result (RefreshesAtPin session.old.knows self.old.live self.new.live
            self.new.came self.new.went) }
        ensures found { self.new.found ≡ self.old.found }
        ensures err { IfErr result (KeepsUnrefreshed session.old.knows self.old self.new) }
    {
        match session.refresh(&mut self.live) {
            Ok(updates) => {
                self.updates = updates;
                Ok(())
            }
            Err(fault) => Err(fault),
        }
    }

    /// Does what `refresh` does, but computes the result from what was written since the last
    /// refresh, which must have been in the session's store. The nodes that were last found stay.
    /// An error leaves everything unchanged.
    #[tactic(auto, using(crate::proofs::Same::same_prepared))]
    pub fn refresh_changed(&mut self, session: &mut Session) -> Result<(), Fault>
        requires own { IsLiveOf session.old.store self.old.live }
        ensures store { (session.new.store ≡ session.old.store)
            × (session.new.holds ≡ session.old.holds) }
        ensures learns { Learns session.old.knows session.new.knows }
        ensures moves { LocksAtMostOnce session.old.knows session.new.knows }
        ensures volume { volume_pinned session.new.knows ≡ volume_pinned session.old.knows }
        ensures own { IsLiveOf session.old.store self.new.live }
        ensures ok { OnOk result (RefreshesAtPin session.old.knows self.old.live self.new.live
            self.new.came self.new.went) }
        ensures found { self.new.found ≡ self.old.found }
        ensures err { IfErr result (KeepsUnrefreshed session.old.knows self.old self.new) }
    {
        self.updates = session.refresh_changed(&mut self.live)?;
        Ok(())
    }

    /// Returns the canonical text of the query. The only error is `OutOfMemory`.
    pub fn text(&self, alloc: Global) -> Result<String, Fault>
        ensures ok { IfOk result (λ text. string_bytes text ≡ or_text self.now.live.query) }
        ensures err { IfErr result (λ e. e ≡ Refused OutOfMemory) }
    {
        Ok(print(alloc, self.live.query())?)
    }

    /// Returns the nodes that the last refresh added, in ascending order.
    pub fn created(&self) -> &[u64]
        ensures { result.now ≡ self.now.came }
    {
        self.updates.created.as_slice()
    }

    /// Returns the nodes that the last refresh removed, in ascending order.
    pub fn removed(&self) -> &[u64]
        ensures { result.now ≡ self.now.went }
    {
        self.updates.removed.as_slice()
    }
}

/// Creates a boxed query that has never been run or refreshed.
fn in_box(alloc: Global, query: Query) -> Result<Box<Prepared, Global>, AllocError>
    ensures { IfOk result (λ p. IsUnasked query p.value) }
{
    let prepared = Prepared {
        live: Live::new(alloc, query),
        found: Vec::new(alloc),
        updates: Updates {
            created: Vec::new(alloc),
            removed: Vec::new(alloc),
        },
    };
    match Box::new(alloc, prepared) {
        Ok(prepared) => Ok(prepared),
        Err(_) => Err(AllocError),
    }
}

/// Parses a query from its text and returns it in a box. The errors are those of `query_of`.
pub fn prepare(alloc: Global, text: &[u8]) -> Result<Box<Prepared, Global>, Fault>
    ensures ok { IfOk result (λ p. (query : Formula) × IsTextOf text.now query
        × IsUnasked query p.value) }
    ensures err { IfErr result (λ e. IsNoQuery text.now e) }
{
    let query = query_of(alloc, text)?;
    Ok(in_box(alloc, query)?)
}

/// Builds a query from items in reverse Polish notation and returns it in a box. The errors are
/// those of `query_of_items`.
pub fn prepare_items(
    alloc: Global,
    encoded: &[PredicateItem],
    bytes: &[u8],
) -> Result<Box<Prepared, Global>, ListFault>
    ensures ok { IfOk result (λ p. (query : Formula) × IsBuilt encoded.now bytes.now query
        × IsUnasked query p.value) }
    ensures err { IfErr result (λ e. IsUnbuilt encoded.now bytes.now e.fault e.place) }
{
    let query = query_of_items(alloc, encoded, bytes)?;
    Ok(in_box(alloc, query)?)
}
