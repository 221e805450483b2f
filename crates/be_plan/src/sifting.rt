//! Walks after which only comparisons on other names remain to be tested.
//!
//! The range of a walk may decide everything that the query says about the index's name, as for one
//! side of an `&&`. The source then returns the nodes of the range in one call, and these are
//! tested against the remaining condition in ascending order.
//!
//! If there are few nodes, the source tests each of them. If there are many, and the remaining
//! condition is entirely on one name whose index isn't much larger than their number, that index is
//! walked as well, and the answer is the intersection of both lists. In the time that testing one
//! node takes, such a walk visits several keys. All other walks are handled as described in
//! `walks`.
ghost use Rattle.std.specs.Prelude.{◌≡◌, ◌⊎◌, ◌<◌, ◌≤◌, ℕ, true, Some, OnOk, IfErr, IfOk};
ghost use Rattle.std.specs.Prelude.{IfSome, length, slice_index};
ghost use Rattle.be_plan.specs.Imports.{formula, index_kind, option_copied, option_map, sat};
ghost use Rattle.be_plan.specs.Imports.{Contains, IsStrictlyIncreasing, OutOfMemory, State};
ghost use Rattle.be_plan.specs.Walk.{AddsTrueOf, AreAllOn, AreOnIndex, Collects, HasAllTrue};
ghost use Rattle.be_plan.specs.Walk.{HasOnlyTrue, HasTrueOf, HasWithin, Keeps};

use crate::evaluating::{asks_name, is_true};
use crate::names::only_name;
use crate::narrowing::narrow_alone;
use crate::ranges::Range;
use crate::sorting::put_in_order;
use crate::walks::{Index, ROOM, Walk, walk_alone};
use crate::{KeyRange, Source};
use be_query::Tree;
use be_value::{Name, Refusal};
use std::alloc::{AllocError, Global};

/// Up to this number of nodes, the source tests each of them.
const FEW: usize = 64;

/// Testing a node takes at least as long as walking over this number of keys.
const KEYS_A_NODE: u64 = 8;

/// Adds the node if it satisfies the tree. The source evaluates the comparisons.
fn add_if_true<S: Source>(
    source: &mut S,
    tree: &Tree,
    node: u64,
    found: &mut Vec<u64>,
) -> Result<(), Refusal>
    ghost volume: { State }
    requires answers { S.answers_for source.old volume }
    ensures stays { S.kept source.new ≡ S.kept source.old }
    ensures answers { S.answers_for source.new volume }
    ensures memory { IfErr result (λ e. e ≡ OutOfMemory) }
    ensures keeps { Keeps found.old.items found.new.items }
    ensures only { (n : ℕ) → Contains found.new.items n → Contains found.old.items n
        ⊎ ((node ≡ n) × (sat volume (formula tree.now) n ≡ true)) }
    ensures has { OnOk result (sat volume (formula tree.now) node ≡ true
        → Contains found.new.items node) }
{
    if is_true(source, tree, node) {
        found.push(node)?;
    }
    Ok(())
}

/// Adds those nodes that satisfy the tree. The source tests each node.
fn ask_all<S: Source>(
    source: &mut S,
    tree: &Tree,
    nodes: &[u64],
    found: &mut Vec<u64>,
) -> Result<(), Refusal>
    ghost volume: { State }
    requires answers { S.answers_for source.old volume }
    ensures stays { S.kept source.new ≡ S.kept source.old }
    ensures answers { S.answers_for source.new volume }
    ensures memory { IfErr result (λ e. e ≡ OutOfMemory) }
    ensures keeps { Keeps found.old.items found.new.items }
    ensures only { AddsTrueOf volume (formula tree.now) nodes.now found.old.items found.new.items }
    ensures has { OnOk result (HasTrueOf volume (formula tree.now) nodes.now found.new.items) }
{
    for i in 0..nodes.len() {
        add_if_true(source, tree, nodes[i], found)?;
    }
    Ok(())
}

/// Returns the first position, starting from `from`, of a number that isn't below `number`, or the
/// length of the list if there is none.
fn pass_below(numbers: &[u64], from: usize, number: u64) -> usize
    requires { from ≤ length numbers.now }
    ensures from { from ≤ result }
    ensures end { result ≤ length numbers.now }
    ensures below { (k : ℕ) → from ≤ k → k < result → slice_index numbers.now k < number }
    ensures stops { result < length numbers.now → number ≤ slice_index numbers.now result }
{
    let mut at = from;
    'below: while at < numbers.len() && numbers[at] < number {
        at += 1;
    }
    at
}

/// Adds the number if the other list has it at this position.
fn add_if_at(others: &[u64], at: usize, number: u64, found: &mut Vec<u64>) -> Result<(), AllocError>
    ensures keeps { Keeps found.old.items found.new.items }
    ensures only { (n : ℕ) → Contains found.new.items n → Contains found.old.items n
        ⊎ ((number ≡ n) × Contains others.now n) }
    ensures has { OnOk result (at < length others.now → slice_index others.now at ≡ number →
        Contains found.new.items number) }
{
    if at < others.len() && others[at] == number {
        found.push(number)?;
    }
    Ok(())
}

/// Adds the numbers that are in both lists, in one pass over the two.
fn add_common(numbers: &[u64], others: &[u64], found: &mut Vec<u64>) -> Result<(), AllocError>
    requires rising { IsStrictlyIncreasing numbers.now }
    requires others { IsStrictlyIncreasing others.now }
    ensures keeps { Keeps found.old.items found.new.items }
    ensures only { (n : ℕ) → Contains found.new.items n → Contains found.old.items n
        ⊎ (Contains numbers.now n × Contains others.now n) }
    ensures has { OnOk result ((n : ℕ) → Contains numbers.now n → Contains others.now n →
        Contains found.new.items n) }
{
    let mut at = 0;
    for i in 0..numbers.len() {
        at = pass_below(others, at, numbers[i]);
        add_if_at(others, at, numbers[i], found)?;
    }
    Ok(())
}

/// Returns the index of the name that all comparisons are on, or `None` if their names differ or
/// the tree contains an `||`. Also returns `None` unless walking the whole index is expected to
/// take no longer than testing `count` nodes.
fn index_to_walk<'t, S: Source>(source: &mut S, tree: &'t Tree, count: usize) -> Option<Index<'t>>
    ghost volume: { State }
    requires answers { S.answers_for source.old volume }
    ensures named { IfSome result (λ index. AreAllOn (formula tree.now) index.name.now) }
    ensures kind { IfSome result (λ index. index_kind volume index.name.now ≡ Some index.kind) }
    ensures stays { S.kept source.new ≡ S.kept source.old }
    ensures answers { S.answers_for source.new volume }
{
    if count <= FEW {
        return None;
    }
    let name = only_name(tree)?;
    if source.estimate(name) / KEYS_A_NODE > count as u64 {
        return None;
    }
    let kind = source.kind_of(name)?;
    Some(Index { name, kind })
}

/// Adds the nodes that satisfy a part in which all comparisons are on this index's name.
#[inline]
pub(crate) fn walk_index<S: Source>(
    alloc: Global,
    source: &mut S,
    range: &mut Range,
    tree: &Tree,
    index: Index<'_>,
    found: &mut Vec<u64>,
) -> Result<(), Refusal>
    ghost volume: { State }
    requires answers { S.answers_for source.old volume }
    requires index { AreOnIndex volume (formula tree.now) index.name.now index.kind }
    ensures stays { S.kept source.new ≡ S.kept source.old }
    ensures answers { S.answers_for source.new volume }
    ensures memory { IfErr result (λ e. e ≡ OutOfMemory) }
    ensures collects { Collects volume (formula tree.now) found.old.items found.new.items }
    ensures has { OnOk result (HasAllTrue volume (formula tree.now) found.new.items) }
{
    range.open();
    let rest = narrow_alone(range, tree, index.kind);
    walk_alone(alloc, source, Walk { tree, index, range }, rest, found)
}

/// Returns the nodes, in ascending order, that satisfy a part in which all comparisons are on this
/// index's name.
fn nodes_of_index<S: Source>(
    alloc: Global,
    source: &mut S,
    tree: &Tree,
    index: Index<'_>,
) -> Result<Vec<u64>, Refusal>
    ghost volume: { State }
    requires answers { S.answers_for source.old volume }
    requires index { AreOnIndex volume (formula tree.now) index.name.now index.kind }
    ensures stays { S.kept source.new ≡ S.kept source.old }
    ensures answers { S.answers_for source.new volume }
    ensures memory { IfErr result (λ e. e ≡ OutOfMemory) }
    ensures rising { IfOk result (λ nodes. IsStrictlyIncreasing nodes.items) }
    ensures only { IfOk result (λ nodes. (n : ℕ) → Contains nodes.items n
        → sat volume (formula tree.now) n ≡ true) }
    ensures has { IfOk result (λ nodes. HasAllTrue volume (formula tree.now) nodes.items) }
{
    let mut nodes = Vec::with_capacity(alloc, ROOM)?;
    let mut range = Range::whole();
    walk_index(alloc, source, &mut range, tree, index, &mut nodes)?;
    put_in_order(alloc, &mut nodes)?;
    Ok(nodes)
}

/// Adds the nodes of these keys that satisfy the tree. The source returns the nodes in one call,
/// and they are tested in ascending order. So what the source reads for one node is close to what
/// it read for the node before, and the nodes are added in ascending order.
#[inline(never)]
pub(crate) fn ask_each<S: Source>(
    alloc: Global,
    source: &mut S,
    tree: &Tree,
    keys: KeyRange<'_>,
    found: &mut Vec<u64>,
) -> Result<(), Refusal>
    ghost volume: { State }
    requires answers { S.answers_for source.old volume }
    ensures stays { S.kept source.new ≡ S.kept source.old }
    ensures answers { S.answers_for source.new volume }
    ensures memory { IfErr result (λ e. e ≡ OutOfMemory) }
    ensures keeps { Keeps found.old.items found.new.items }
    ensures only { HasOnlyTrue volume (formula tree.now) keys.entry.name.now keys.entry.low.now
        (option_copied keys.entry.high) found.old.items found.new.items }
    ensures has { OnOk result (HasWithin volume (formula tree.now) keys.entry.name.now
        keys.entry.low.now (option_copied keys.entry.high) found.new.items) }
{
    let mut nodes = Vec::with_capacity(alloc, ROOM)?;
    source.nodes_within(keys, &mut nodes)?;
    put_in_order(alloc, &mut nodes)?;
    if let Some(index) = index_to_walk(source, tree, nodes.len()) {
        let others = nodes_of_index(alloc, source, tree, index)?;
        add_common(&nodes, &others, found)?;
        return Ok(());
    }
    ask_all(source, tree, &nodes, found)
}

/// Returns the remaining condition if all its comparisons are on names other than the index's own.
pub(crate) fn asked_apart<'t>(rest: Option<&'t Tree>, name: &Name) -> Option<&'t Tree>
    ensures { IfSome (option_copied result)
        (λ t. option_map formula (option_copied rest.entry) ≡ Some (formula t)) }
{
    let rest = rest?;
    if asks_name(rest, name) {
        return None;
    }
    Some(rest)
}
