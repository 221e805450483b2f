//! Queries that are used repeatedly.
//!
//! In most queries, all comparisons are on one name. The answer then depends only on that name's
//! index, and the range of keys to read depends only on the query and the kind of the index. A
//! prepared query therefore keeps that range, along with the place where the index was last found.
ghost use Rattle.std.specs.Prelude.{◌≡◌, true, IfSome};
ghost use Rattle.be_plan.specs.Imports.{option_copied};
ghost use Rattle.be_plan.specs.Narrow.{high_of};
ghost use Rattle.be_plan.specs.Prepared.{Decides};
ghost use Rattle.be_plan.specs.Walk.{AreAllOn};

use crate::KeyRange;
use crate::names::only_name;
use crate::narrowing::narrow_alone;
use crate::ranges::Range;
use be_query::Query;
use be_value::{Kind, Name};
use std::marker::Model;

/// A query, together with what its uses have in common. If all its comparisons are on one name, it
/// keeps that name and the range of keys that decides them. The range is valid for indices of the
/// kind that was last passed to `meet`. A prepared query can be used with any version of any store,
/// one at a time. Contracts view it as the query.
#[derive(Drop)]
pub struct PreparedQuery {
    query: Query,
    name: Option<Name>,
    place: usize,
    met: Option<Kind>,
    decided: Option<Kind>,
    range: Range,
}

impl Model for PreparedQuery {
    ghost use Rattle.std.specs.Prelude.{IfSome};
    ghost use Rattle.be_plan.specs.Imports.{coded_formula, Formula};
    ghost use Rattle.be_plan.specs.Narrow.{high_of};
    ghost use Rattle.be_plan.specs.Prepared.{DecidesIf};
    ghost use Rattle.be_plan.specs.Walk.{AreAllOn};

    ghost Value = { Formula };

    ghost coded = { coded_formula };

    ghost view = { λ p. p.query };

    ghost invariant = { λ p. IfSome p.name (λ name. AreAllOn p.query name)
        × DecidesIf p.decided p.query p.range.low.items (high_of p.range) };
}

/// Returns the name that all comparisons of the query are on, or `None` if their names differ or
/// the query contains an `||`.
fn name_asked(query: &Query) -> Option<Name>
    ensures { IfSome result (λ name. AreAllOn query.now name) }
{
    match only_name(query.tree()) {
        Some(name) => Some(name.copy()),
        None => None,
    }
}

/// Computes the range of keys that comparisons on one name allow in its index. Returns `true` if
/// the range decides the comparisons.
fn range_decides(range: &mut Range, query: &Query, kind: Kind) -> bool
    ensures { result ≡ true → Decides query.now kind range.new.low.items (high_of range.new) }
{
    range.open();
    match narrow_alone(range, query.tree(), kind) {
        Some(_) => false,
        None => true,
    }
}

impl PreparedQuery {
    /// Prepares a query. Allocates no memory. The range isn't computed until `meet` is called.
    pub fn new(query: Query) -> PreparedQuery
        ensures { result ≡ query }
    {
        let name = name_asked(&query);
        PreparedQuery {
            query,
            name,
            place: 0,
            met: None,
            decided: None,
            range: Range::whole(),
        }
    }

    /// Returns the query.
    pub fn query(&self) -> &Query
        ensures { result.now ≡ self.now }
    {
        &self.query
    }

    /// Returns the name that all comparisons are on, or `None` if their names differ or the query
    /// contains an `||`.
    pub fn name(&self) -> Option<&Name>
        ensures { IfSome (option_copied result) (λ name. AreAllOn self.now name) }
    {
        match &self.name {
            Some(name) => Some(name),
            None => None,
        }
    }

    /// Returns the place of the index that was last passed to `meet`, or 0 before the first call.
    pub fn place(&self) -> usize {
        self.place
    }

    /// Stores the place of the index, and computes the range for its kind unless the range was last
    /// computed for the same kind.
    #[inline(always)]
    pub fn meet(&mut self, place: usize, kind: Kind)
        ensures { self.new ≡ self.old }
    {
        self.place = place;
        if self.met != Some(kind) {
            self.make_range(kind);
        }
    }

    /// Computes the range for an index of this kind.
    #[inline(never)]
    fn make_range(&mut self, kind: Kind)
        ensures { self.new ≡ self.old }
    {
        self.met = Some(kind);
        if range_decides(&mut self.range, &self.query, kind) {
            self.decided = Some(kind);
        } else {
            self.decided = None;
        }
    }

    /// Returns the range that decides the query in an index of this kind. Returns `None` if the
    /// range was computed for another kind, or if it doesn't decide the query.
    #[inline(always)]
    pub fn keys_for(&self, kind: Kind) -> Option<KeyRange<'_>>
        ensures on { IfSome result (λ keys. AreAllOn self.now keys.name.now) }
        ensures decides { IfSome result (λ keys. Decides self.now kind keys.low.now
            (option_copied keys.high)) }
    {
        if self.decided != Some(kind) {
            return None;
        }
        match &self.name {
            Some(name) => Some(self.range.keys(name)),
            None => None,
        }
    }
}
