//! Query evaluation with picks chosen from a source's own indices.
//!
//! The sides of an `||` are evaluated one after the other, independently. A side that is a single
//! comparison, as most are, therefore leaves nothing to choose. Neither do comparisons on one name
//! under `&&`, such as the two ends of a range: their index is looked up once, and no cover is
//! built. For any other side with an `&&`, picks are chosen as if it were a query of its own.
ghost use Rattle.std.specs.Prelude.{◌≡◌, ◌≤◌, true, OnOk, IfOk, IfErr};
ghost use Rattle.be_plan.specs.Imports.{comparisons, covered, formula, scan, Answers};
ghost use Rattle.be_plan.specs.Imports.{IsStrictlyIncreasing, State};
ghost use Rattle.be_plan.specs.Walk.{AddsTrue, Collects, HasAllTrue, IsNoAnswer};

use crate::Source;
use crate::fewest::choose_fewest;
use crate::names::only_name;
use crate::ranges::Range;
use crate::running::walk_picks;
use crate::sifting::walk_index;
use crate::sorting::put_in_order;
use crate::walks::{Index, ROOM};
use be_query::{Query, Tree};
use be_value::Refusal;
use std::alloc::Global;

/// Adds the nodes that match a side of the query, using picks chosen for it from the source's
/// indices. This is a separate function so that comparisons on one name need no stack space for a
/// cover.
#[inline(never)]
fn collect_chosen<S: Source>(
    alloc: Global,
    source: &mut S,
    range: &mut Range,
    tree: &Tree,
    found: &mut Vec<u64>,
) -> Result<(), Refusal>
    ghost volume: { State }
    requires answers { S.answers_for source.old volume }
    requires few { comparisons (formula tree.now) ≤ 256 }
    ensures stays { S.kept source.new ≡ S.kept source.old }
    ensures answers { S.answers_for source.new volume }
    ensures collects { Collects volume (formula tree.now) found.old.items found.new.items }
    ensures has { OnOk result (HasAllTrue volume (formula tree.now) found.new.items) }
    ensures covered { OnOk result (covered volume (formula tree.now) ≡ true) }
    ensures refused { IfErr result (λ e. IsNoAnswer volume (formula tree.now) e) }
{
    let Some(cover) = choose_fewest(alloc, source, range, tree)? else {
        return Err(Refusal::NotCovered);
    };
    walk_picks(alloc, source, range, tree, &cover, found)
}

/// Adds the nodes that match a side of an `||`.
fn collect_side<S: Source>(
    alloc: Global,
    source: &mut S,
    range: &mut Range,
    tree: &Tree,
    found: &mut Vec<u64>,
) -> Result<(), Refusal>
    ghost volume: { State }
    requires answers { S.answers_for source.old volume }
    requires few { comparisons (formula tree.now) ≤ 256 }
    ensures stays { S.kept source.new ≡ S.kept source.old }
    ensures answers { S.answers_for source.new volume }
    ensures collects { Collects volume (formula tree.now) found.old.items found.new.items }
    ensures has { OnOk result (HasAllTrue volume (formula tree.now) found.new.items) }
    ensures covered { OnOk result (covered volume (formula tree.now) ≡ true) }
    ensures refused { IfErr result (λ e. IsNoAnswer volume (formula tree.now) e) }
{
    let Some(name) = only_name(tree) else {
        return collect_chosen(alloc, source, range, tree, found);
    };
    let Some(kind) = source.kind_of(name) else {
        return Err(Refusal::NotCovered);
    };
    walk_index(alloc, source, range, tree, Index { name, kind }, found)
}

/// Adds the nodes that match the tree, one side of an `||` at a time. A query with many parts under
/// `||` leans to the left, so its last side is evaluated first.
fn collect<S: Source>(
    alloc: Global,
    source: &mut S,
    range: &mut Range,
    tree: &Tree,
    found: &mut Vec<u64>,
) -> Result<(), Refusal>
    ghost volume: { State }
    requires answers { S.answers_for source.old volume }
    requires few { comparisons (formula tree.now) ≤ 256 }
    ensures stays { S.kept source.new ≡ S.kept source.old }
    ensures answers { S.answers_for source.new volume }
    ensures only { AddsTrue volume (formula tree.now) found.old.items found.new.items }
    ensures has { OnOk result (HasAllTrue volume (formula tree.now) found.new.items) }
    ensures covered { OnOk result (covered volume (formula tree.now) ≡ true) }
    ensures refused { IfErr result (λ e. IsNoAnswer volume (formula tree.now) e) }
{
    let mut rest = tree;
    'sides: while let Tree::Or(a, b) = rest {
        collect_side(alloc, source, range, b, found)?;
        rest = a;
    }
    collect_side(alloc, source, range, rest, found)
}

/// Replaces the content of a list with the nodes that match a part of a query, just as
/// `answer_into` does for a whole query.
pub fn true_nodes_into<S: Source>(
    alloc: Global,
    tree: &Tree,
    source: &mut S,
    found: &mut Vec<u64>,
) -> Result<(), Refusal>
    ghost volume: { State }
    requires answers { S.answers_for source.old volume }
    requires few { comparisons (formula tree.now) ≤ 256 }
    ensures answer { Answers (λ _. found.new.items) result (scan volume (formula tree.now)) }
    ensures rising { OnOk result (IsStrictlyIncreasing found.new.items) }
    ensures stays { S.kept source.new ≡ S.kept source.old }
    ensures answers { S.answers_for source.new volume }
{
    found.clear();
    let mut range = Range::whole();
    collect(alloc, source, &mut range, tree, found)?;
    put_in_order(alloc, found)?;
    Ok(())
}

/// Replaces the content of a list with the nodes that match the query, in ascending order. The
/// picks are chosen from the source's own indices; to see them, call `explain` with the cover that
/// `choose_from` returns. Returns `NotCovered` if the indices don't cover the query.
///
/// The index of each comparison is looked up once; comparisons on one name under `&&` share a
/// single lookup. If picks have to be chosen under an `&&`, each pick takes a second lookup. If a
/// walk leaves more than 64 nodes to test against comparisons on one other name, the function calls
/// `estimate` for that name's index, and looks that index up once more unless the estimate is too
/// large. The list isn't reallocated if it already has room for the nodes. After an error the
/// source still represents the volume, but the content of the list is unspecified.
pub fn answer_into<S: Source>(
    alloc: Global,
    query: &Query,
    source: &mut S,
    found: &mut Vec<u64>,
) -> Result<(), Refusal>
    ghost volume: { State }
    requires { S.answers_for source.old volume }
    ensures answer { Answers (λ _. found.new.items) result (scan volume query.now) }
    ensures rising { OnOk result (IsStrictlyIncreasing found.new.items) }
    ensures stays { S.kept source.new ≡ S.kept source.old }
    ensures answers { S.answers_for source.new volume }
{
    true_nodes_into(alloc, query.tree(), source, found)
}

/// Does what `answer_into` does, but returns the nodes in a new list.
pub fn answer<S: Source>(alloc: Global, query: &Query, source: &mut S) -> Result<Vec<u64>, Refusal>
    ghost volume: { State }
    requires { S.answers_for source.old volume }
    ensures answer { Answers (λ nodes. nodes.items) result (scan volume query.now) }
    ensures rising { IfOk result (λ nodes. IsStrictlyIncreasing nodes.items) }
    ensures stays { S.kept source.new ≡ S.kept source.old }
    ensures answers { S.answers_for source.new volume }
{
    let mut found = Vec::with_capacity(alloc, ROOM)?;
    answer_into(alloc, query, source, &mut found)?;
    Ok(found)
}
