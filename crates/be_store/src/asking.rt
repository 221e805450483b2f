//! Queries on a version, through any page reader.
ghost use Rattle.std.specs.Prelude.{◌≡◌, ◌⊎◌, true, false, IfOk, IfErr};
ghost use Rattle.be_store.specs.Imports.{are_places, chosen, covered, covers, has_index, scan};
ghost use Rattle.be_store.specs.Imports.{Answers, IsStrictlyIncreasing, IsVersion, NotCovered};
ghost use Rattle.be_store.specs.Imports.{OutOfMemory, State};
ghost use Rattle.be_store.specs.Finding.{Finds};

use be_paged::{answer_decided, source};
use be_pages::Look;
use be_plan::{Cover, PreparedQuery, answer, answer_into, choose_from};
use be_query::Query;
use be_value::Refusal;
use std::alloc::Global;

/// Returns the nodes that match the query, in ascending order, and gives the reader back.
pub(crate) fn ask<L: Look>(
    alloc: Global,
    look: L,
    version_page: u64,
    query: &Query,
) -> (L, Result<Vec<u64>, Refusal>)
    ghost volume: { State }
    requires version { IsVersion (L.page_state look) (L.words look) version_page volume }
    ensures answer { Answers (λ nodes. nodes.items) result.1 (scan volume query.now) }
    ensures rising { IfOk result.1 (λ nodes. IsStrictlyIncreasing nodes.items) }
    ensures kept { L.kept result.0 ≡ L.kept look }
{
    let mut source = source(look, version_page);
    let nodes = answer(alloc, query, &mut source);
    (source.into_look(), nodes)
}

/// Replaces the contents of a list with the nodes that match the query, in ascending order. Gives
/// the reader back.
#[inline(never)]
pub(crate) fn ask_into<L: Look>(
    alloc: Global,
    look: L,
    version_page: u64,
    query: &Query,
    found: &mut Vec<u64>,
) -> (L, Result<(), Refusal>)
    ghost volume: { State }
    requires version { IsVersion (L.page_state look) (L.words look) version_page volume }
    ensures found { Finds volume query.now found.new.items result.1 }
    ensures kept { L.kept result.0 ≡ L.kept look }
{
    let mut source = source(look, version_page);
    let answer = answer_into(alloc, query, &mut source, found);
    (source.into_look(), answer)
}

/// Does what `ask_into` does, for a prepared query.
#[inline(always)]
pub(crate) fn ask_prepared<L: Look>(
    alloc: Global,
    look: L,
    version_page: u64,
    prepared: &mut PreparedQuery,
    found: &mut Vec<u64>,
) -> (L, Result<(), Refusal>)
    ghost volume: { State }
    requires version { IsVersion (L.page_state look) (L.words look) version_page volume }
    ensures found { Finds volume prepared.old found.new.items result.1 }
    ensures same { prepared.new ≡ prepared.old }
    ensures kept { L.kept result.0 ≡ L.kept look }
{
    let mut look = look;
    match answer_decided(alloc, &mut look, version_page, prepared, found) {
        Ok(true) => (look, Ok(())),
        Ok(false) => ask_into(alloc, look, version_page, prepared.query(), found),
        Err(refusal) => (look, Err(refusal)),
    }
}

/// Returns the comparisons that are chosen for the query from the version's own indices, and gives
/// the reader back.
pub(crate) fn choose_at<L: Look>(
    alloc: Global,
    look: L,
    version_page: u64,
    query: &Query,
) -> (L, Result<Cover, Refusal>)
    ghost volume: { State }
    requires version { IsVersion (L.page_state look) (L.words look) version_page volume }
    ensures cover { Answers (λ cover. cover) result.1 (chosen (has_index volume) query.now) }
    ensures covers { IfOk result.1 (λ cover. covers (has_index volume) cover.picks query.now
        ≡ true) }
    ensures places { IfOk result.1 (λ cover. are_places query.now cover.picks ≡ true) }
    ensures refused { IfErr result.1 (λ e. (e ≡ OutOfMemory)
        ⊎ ((e ≡ NotCovered) × (covered volume query.now ≡ false))) }
    ensures kept { L.kept result.0 ≡ L.kept look }
{
    let mut source = source(look, version_page);
    let cover = choose_from(alloc, query, &mut source);
    (source.into_look(), cover)
}
