//! Checking whether picks cover a query.
//!
//! `run` accepts any picks that cover the query. Those from `choose_from` always do; use `covers`
//! to check picks from elsewhere.
ghost use Rattle.std.specs.Prelude.{◌≡◌, ◌≤◌, ◌+◌};
ghost use Rattle.be_plan.specs.Imports.{comparisons, formula, has_index, list_all, State};
ghost use Rattle.be_plan.specs.Cover.{covers, covers_part, rests_on};

use crate::choosing::count;
use crate::running::comparison_at;
use crate::{Cover, Source};
use be_query::{Query, Tree};

/// Returns `true` if the pick is the position of a comparison whose name has an index.
fn rests_on<S: Source>(source: &mut S, tree: &Tree, pick: usize) -> bool
    ghost volume: { State }
    requires answers { S.answers_for source.old volume }
    requires few { comparisons (formula tree.now) ≤ 256 }
    ensures rests { result ≡ rests_on (has_index volume) (formula tree.now) pick }
    ensures stays { S.kept source.new ≡ S.kept source.old }
    ensures answers { S.answers_for source.new volume }
{
    match comparison_at(tree, pick) {
        Some(comparison) => source.kind_of(&comparison.name).is_some(),
        None => false,
    }
}

/// Returns `true` if every pick is the position of a comparison whose name has an index.
fn all_rest<S: Source>(source: &mut S, tree: &Tree, picks: &[usize]) -> bool
    ghost volume: { State }
    requires answers { S.answers_for source.old volume }
    requires few { comparisons (formula tree.now) ≤ 256 }
    ensures rest { result ≡ list_all (rests_on (has_index volume) (formula tree.now)) picks.now }
    ensures stays { S.kept source.new ≡ S.kept source.old }
    ensures answers { S.answers_for source.new volume }
{
    for pick in picks {
        if !rests_on(source, tree, *pick) {
            return false;
        }
    }
    true
}

/// Returns `true` if the picks cover the part whose first comparison is at position `at`.
fn covers_part(picks: &[usize], at: usize, tree: &Tree) -> bool
    requires { at + comparisons (formula tree.now) ≤ 256 }
    ensures { result ≡ covers_part picks.now at (formula tree.now) }
{
    match tree {
        Tree::Leaf(_) => picks.contains(&at),
        Tree::And(a, b) => covers_part(picks, at, a) || covers_part(picks, at + count(a), b),
        Tree::Or(a, b) => covers_part(picks, at, a) && covers_part(picks, at + count(a), b),
    }
}

/// Returns `true` if the picks cover the query on the source's volume, so that any cover can be
/// checked before it is passed to `run`. Each pick must be the position of a comparison on an
/// indexed name. At least one side of each `&&` must be covered, and both sides of each `||`. The
/// source is asked for at most one index per pick.
pub fn covers<S: Source>(cover: &Cover, query: &Query, source: &mut S) -> bool
    ghost volume: { State }
    requires { S.answers_for source.old volume }
    ensures covers { result ≡ covers (has_index volume) cover.now.picks query.now }
    ensures stays { S.kept source.new ≡ S.kept source.old }
    ensures answers { S.answers_for source.new volume }
{
    let tree = query.tree();
    all_rest(source, tree, cover.picks.as_slice()) && covers_part(cover.picks.as_slice(), 0, tree)
}
