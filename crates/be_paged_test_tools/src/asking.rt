//! Reads of each form of a volume.
//!
//! A call that runs out of memory is repeated, so each test passes even if any one request for
//! memory is refused.
ghost use Rattle.std.specs.Prelude.{◌≡◌, true, IfOk};
ghost use Rattle.be_pages.specs.Pages.{IsUnchanged};
ghost use Rattle.be_volume.specs.Query.{has_index};
ghost use Rattle.be_volume.specs.Volume.{State};
ghost use Rattle.be_plan.specs.Cover.{covers};
ghost use Rattle.be_paged_reading.specs.Version.{IsVersion};

use crate::same::same_lists;
use be_paged::source;
use be_pages::Look;
use be_plan::{Cover, Picks, Source, choose_from, covers, run};
use be_query::{Query, parse};
use be_test_tools::again;
use be_value::Refusal;
use be_volume::Volume;
use std::alloc::Global;
use std::test::Fail;

/// Parses a query.
pub fn read_query(alloc: Global, text: &str) -> Result<Query, Refusal> {
    again!(parse(alloc, text))
}

/// The plan for a query: the one pick that is given, or the chosen indices.
fn cover_of<S: Source>(
    alloc: Global,
    query: &Query,
    pick: Option<usize>,
    source: &mut S,
) -> Result<Cover, Refusal>
    ghost volume: { State }
    requires answers { S.answers_for source.old volume }
    ensures answers { S.answers_for source.new volume }
    ensures stays { S.kept source.new ≡ S.kept source.old }
{
    let Some(place) = pick else {
        return choose_from(alloc, query, source);
    };
    let mut places = Vec::new(alloc);
    places.push(place)?;
    Ok(Cover {
        picks: Picks::new(places),
        score: 0,
    })
}

/// The nodes that a query finds, with the given pick or the chosen indices. The plain volume isn't
/// read: it only names the volume that the source reads.
fn ask<S: Source>(
    alloc: Global,
    _plain: &Volume,
    query: &Query,
    pick: Option<usize>,
    source: &mut S,
) -> Result<Vec<u64>, Refusal>
    ghost volume: { State }
    requires answers { S.answers_for source.old volume }
    ensures answers { S.answers_for source.new volume }
    ensures stays { S.kept source.new ≡ S.kept source.old }
{
    let cover = cover_of(alloc, query, pick, source)?;
    if !covers(&cover, query, source) {
        return Err(Refusal::BadLimits);
    }
    run(alloc, &cover, query, source)
}

/// The nodes that a query finds in the plain volume.
fn asked_plain(plain: &Volume, query: &Query) -> Result<Vec<u64>, Refusal> {
    again!(plain.query(query))
}

/// The nodes that a query finds in both forms, with the given pick or the chosen indices in the one
/// in pages. It returns the page reader too.
pub fn query_both<L: Look + Drop>(
    alloc: Global,
    plain: &Volume,
    look: L,
    page: u64,
    query: &Query,
    pick: Option<usize>,
) -> Result<(L, Result<Vec<u64>, Refusal>), Fail>
    requires version { IsVersion (L.page_state look) (L.words look) page plain.now }
    ensures unchanged { IfOk result (λ r. IsUnchanged L.kept L.page_state L.words look r.0) }
{
    let mut reader = source(look, page);
    let answer = again!(ask(alloc, plain, query, pick, &mut reader));
    let look = reader.into_look();
    if !same_lists(&answer, &asked_plain(plain, query)) {
        return Err(Fail::new("the forms answer the query otherwise"));
    }
    Ok((look, answer))
}
