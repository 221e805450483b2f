//! Returns the ranges of index keys that the answer to a query walks.
ghost use Rattle.std.specs.Prelude.{All, IfErr, IfOk, IsOk, OnOk, ℕ, ◌≡◌};
ghost use Rattle.be_store.specs.Finding.{FailsWith};
ghost use Rattle.be_store.specs.Imports.{scan, IsVersion, IsWay, State};
ghost use Rattle.be_store.specs.Passes.{HasRead, IsPassOf, IsPinnedTo, volume_pinned};

use crate::{Pass, Store};
use be_paged::source;
use be_pages::Look;
use be_query::Query;
use be_value::Refusal;
use be_ways::{Way, ways};
use std::alloc::Global;

/// Returns the ranges of a version's indices that the answer walks, and gives the reader back.
fn ways_at<L: Look>(
    alloc: Global,
    look: L,
    version_page: u64,
    query: &Query,
) -> (L, Result<Vec<Way>, Refusal>)
    ghost volume: { State }
    requires version { IsVersion (L.page_state look) (L.words look) version_page volume }
    ensures ways { IfOk result.1 (λ ways. All (IsWay volume) ways.items) }
    ensures answered { OnOk result.1 (IsOk (scan volume query.now)) }
    ensures refused { IfErr result.1 (FailsWith volume query.now) }
    ensures kept { L.kept result.0 ≡ L.kept look }
{
    let source = source(look, version_page);
    let (source, answer) = ways(alloc, query, source);
    (source.into_look(), answer)
}

impl Store {
    /// Answers the query at the pinned version, and returns the ranges of index keys that the
    /// answer walked, in that order. Each has the number of its keys, and an estimate of it from
    /// which such ranges are chosen. `ways_text` formats them as text. These ranges say why a query
    /// is slow; the picks that `explain` returns may be others.
    ///
    /// The errors are those of `query`. The call costs as much as `query`, and lists each range
    /// once more to count its keys. Memory is allocated for the answer, for the nodes of one range
    /// at a time, and for about 600 bytes per range.
    pub fn ways(&self, alloc: Global, pass: &mut Pass, query: &Query) -> Result<Vec<Way>, Refusal>
        requires pass { IsPassOf self.now pass.old }
        requires pinned { (n : ℕ) × IsPinnedTo pass.old.knows n }
        ensures pass { IsPassOf self.now pass.new × HasRead pass.old.knows pass.new.knows }
        ensures ways { IfOk result (λ ways. All (IsWay (volume_pinned pass.old.knows))
            ways.items) }
        ensures answered { OnOk result (IsOk (scan (volume_pinned pass.old.knows) query.now)) }
        ensures refused { IfErr result (FailsWith (volume_pinned pass.old.knows) query.now) }
    {
        let (look, version) = self.reader(pass);
        let (look, answer) = ways_at(alloc, look, version, query);
        *pass = look.into_seat();
        answer
    }
}
