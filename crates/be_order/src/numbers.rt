//! The first nodes of an answer by number, found by testing one number after another, or the nodes
//! of one side of an `&&`.
//!
//! Nodes are numbered in the order in which they are created, so most numbers are nodes. If most
//! nodes satisfy a query, the first of its answer are soon found by testing numbers. A number
//! without a node satisfies no query, and testing it costs one look-up. If fewer nodes satisfy the
//! query, but an index lists those that satisfy one side of an `&&`, only the first of these are
//! tested against the whole query.
ghost use Rattle.std.specs.Prelude.{◌≡◌, ◌≤◌, true, filter, nat_le, take, IfErr, IfOk, IfSome, Ok};
ghost use Rattle.std.specs.Prelude.{OnOk};
ghost use Rattle.be_order.specs.Imports.{comparisons, formula, option_copied, sat};
ghost use Rattle.be_order.specs.Imports.{OutOfMemory, State};
ghost use Rattle.be_order.specs.Asked.{IsAsked};
ghost use Rattle.be_order.specs.Firsts.{from_number, true_from, IsNeeded};

use crate::OrderedSource;
use crate::asked::{Left, push_if_true};
use crate::costs::{FirstWays, first_ways};
use crate::prepared::{list_true, ready_test};
use be_plan::is_covered;
use be_query::Tree;
use be_value::Refusal;
use std::alloc::Global;

/// So many numbers are tested, or so large a part of the limit, before their share of true ones is
/// judged.
const TRIAL: u64 = 16;

/// Returns `true` if, at twice the share of true numbers so far, more than `limit` numbers would
/// have to be tested to find `most`. The next number is counted as true, since so few numbers say
/// little of a small share.
fn is_hopeless(tested: u64, found: usize, most: usize, limit: u64) -> bool {
    if tested < TRIAL.max(limit / TRIAL) {
        return false;
    }
    let twice = (found as u64).saturating_add(1).saturating_mul(2);
    twice.saturating_mul(limit) < tested.saturating_mul(most as u64)
}

/// Replaces the content of a list with the first `most` nodes that satisfy a condition and have a
/// number of `first` or above, and returns `true`. Returns `false` if it gives up: after `limit`
/// numbers, or once so many won't be enough.
fn first_tested<S: OrderedSource>(
    source: &mut S,
    left: Left<'_, '_, '_>,
    first: u64,
    most: usize,
    limit: u64,
    found: &mut Vec<u64>,
) -> Result<bool, Refusal>
    ghost volume: { State }
    requires answers { S.answers_for source.old volume }
    requires asked { IsAsked volume (formula left.tree.now) (option_copied left.test)
        (option_copied left.listed) }
    ensures first { IfOk result (λ done. done ≡ true → found.new.items
        ≡ take most (true_from volume (formula left.entry.tree.now) first)) }
    ensures memory { IfErr result (λ e. e ≡ OutOfMemory) }
    ensures stays { S.kept source.new ≡ S.kept source.old }
    ensures answers { S.answers_for source.new volume }
{
    found.clear();
    for number in first..first.saturating_add(limit) {
        if found.len() >= most {
            return Ok(true);
        }
        if is_hopeless(number - first, found.len(), most, limit) {
            return Ok(false);
        }
        push_if_true(source, left, number, found)?;
    }
    Ok(found.len() >= most)
}

/// Replaces the content of a list with the first `most` nodes that satisfy a query and have a
/// number of `first` or above, and returns `true`. Returns `false` if it gives up after `limit`
/// numbers, or if that isn't enough for so many nodes.
pub(crate) fn first_by_numbers<S: OrderedSource>(
    alloc: Global,
    tree: &Tree,
    source: &mut S,
    first: u64,
    most: usize,
    limit: u64,
    found: &mut Vec<u64>,
) -> Result<bool, Refusal>
    ghost volume: { State }
    requires { S.answers_for source.old volume }
    ensures first { IfOk result (λ done. done ≡ true → found.new.items
        ≡ take most (true_from volume (formula tree.now) first)) }
    ensures memory { IfErr result (λ e. e ≡ OutOfMemory) }
    ensures stays { S.kept source.new ≡ S.kept source.old }
    ensures answers { S.answers_for source.new volume }
{
    if limit < most as u64 {
        return Ok(false);
    }
    let ready = ready_test(alloc, tree)?;
    let left = Left {
        tree,
        test: ready.as_ref(),
        listed: None,
    };
    first_tested(source, left, first, most, limit, found)
}

/// Replaces the content of a list with the first `most` of the nodes that satisfy a condition.
fn first_listed<S: OrderedSource>(
    source: &mut S,
    left: Left<'_, '_, '_>,
    nodes: &[u64],
    most: usize,
    found: &mut Vec<u64>,
) -> Result<(), Refusal>
    ghost volume: { State }
    requires answers { S.answers_for source.old volume }
    requires asked { IsAsked volume (formula left.tree.now) (option_copied left.test)
        (option_copied left.listed) }
    ensures first { OnOk result (found.new.items
        ≡ take most (filter (sat volume (formula left.entry.tree.now)) nodes.now)) }
    ensures memory { IfErr result (λ e. e ≡ OutOfMemory) }
    ensures stays { S.kept source.new ≡ S.kept source.old }
    ensures answers { S.answers_for source.new volume }
{
    found.clear();
    for node in nodes {
        if found.len() == most {
            return Ok(());
        }
        push_if_true(source, left, *node, found)?;
    }
    Ok(())
}

/// Replaces the content of a list with the first `most` nodes that satisfy a query and have a
/// number of `first` or above, by listing the nodes of a side and testing these. Returns `false` if
/// no side is given, if it needs an index that is missing, or if memory runs out.
pub(crate) fn first_of_side<S: OrderedSource>(
    alloc: Global,
    tree: &Tree,
    side: Option<&Tree>,
    source: &mut S,
    first: u64,
    most: usize,
    found: &mut Vec<u64>,
) -> Result<bool, Refusal>
    ghost volume: { State }
    requires answers { S.answers_for source.old volume }
    requires few { comparisons (formula tree.now) ≤ 256 }
    requires side { IfSome (option_copied side)
        (λ side. IsNeeded (formula tree.now) (formula side)) }
    ensures first { IfOk result (λ done. done ≡ true → found.new.items
        ≡ take most (true_from volume (formula tree.now) first)) }
    ensures memory { IfErr result (λ e. e ≡ OutOfMemory) }
    ensures stays { S.kept source.new ≡ S.kept source.old }
    ensures answers { S.answers_for source.new volume }
{
    let Some(side) = side else {
        return Ok(false);
    };
    let Some(mut nodes) = list_true(alloc, side, source) else {
        return Ok(false);
    };
    nodes.retain(|node| *node >= first);
    let ready = ready_test(alloc, tree)?;
    let left = Left {
        tree,
        test: ready.as_ref(),
        listed: None,
    };
    first_listed(source, left, nodes.as_slice(), most, found)?;
    Ok(true)
}

/// Replaces the content of a list with the first `most` nodes that satisfy a query and have a
/// number of `first` or above, and returns `true`. Returns `false` if the indices don't cover the
/// query, or if finding the whole answer is expected to cost less.
pub(crate) fn first_of<S: OrderedSource>(
    alloc: Global,
    tree: &Tree,
    source: &mut S,
    first: u64,
    most: usize,
    found: &mut Vec<u64>,
) -> Result<bool, Refusal>
    ghost volume: { State }
    requires answers { S.answers_for source.old volume }
    requires few { comparisons (formula tree.now) ≤ 256 }
    ensures first { IfOk result (λ done. done ≡ true
        → from_number volume (formula tree.now) first most ≡ Ok found.new.items) }
    ensures memory { IfErr result (λ e. e ≡ OutOfMemory) }
    ensures stays { S.kept source.new ≡ S.kept source.old }
    ensures answers { S.answers_for source.new volume }
{
    if !is_covered(source, tree) {
        return Ok(false);
    }
    let FirstWays { tests, side } = first_ways(source, tree, most);
    if first_by_numbers(alloc, tree, source, first, most, tests, found)? {
        return Ok(true);
    }
    first_of_side(alloc, tree, side, source, first, most, found)
}
