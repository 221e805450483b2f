//! Walks over indices.
//!
//! A walk visits the keys in a range and collects those of their nodes that match the query. If the
//! range decides the query, every node in it is an answer, and the source returns the nodes in one
//! call. If a single comparison with a string remains, the source is asked for the nodes that
//! satisfy it. If it is a single `!=` with an integer, the walk has two ranges: what is below that
//! integer, and what is above it.
//!
//! Otherwise, or if the source doesn't test strings, the walk steps from key to key with
//! `next_key`, from the low end of the range to the first key above its high end, and tests each
//! node against the query. It reads one key more than it tests. For walks that leave only
//! comparisons on other names, see `sifting`.
ghost use Rattle.std.specs.Prelude.{◌≡◌, ◌<◌, ◌^◌, ℕ, List, true, false, None, Some, OnOk, IfErr};
ghost use Rattle.std.specs.Prelude.{IfOk, IfSome};
ghost use Rattle.be_plan.specs.Imports.{formula, index_kind, key_bytes, literal, option_copied};
ghost use Rattle.be_plan.specs.Imports.{option_map, sat, AnyValue, Contains, Cstr, Leaf, Ne};
ghost use Rattle.be_plan.specs.Imports.{OutOfMemory, State};
ghost use Rattle.be_plan.specs.Narrow.{high_of, AllTrue, IsIn, KeepsTrue};
ghost use Rattle.be_plan.specs.Walk.{Collects, CollectsFor, HasWalked, IsKeyOfKind, LeavesInIndex};

use crate::Source;
use crate::evaluating::satisfies;
use crate::narrowing::narrow_by_operator;
use crate::ranges::Range;
use crate::texts::TextTest;
use be_query::{Cmp, Comparison, Tree};
use be_value::{Kind, Name, Refusal, read_key};
use std::alloc::Global;

/// The initial capacity of a list of nodes, so that a hundred results don't make it grow. An
/// allocator returns these 1,024 bytes as fast as a few bytes; more would take longer.
pub(crate) const ROOM: usize = 128;

/// The index of a name, and the kind of the index.
#[derive(Clone, Copy)]
pub(crate) struct Index<'a> {
    pub(crate) name: &'a Name,
    pub(crate) kind: Kind,
}

/// The keys of an index in a range, and the query that their nodes are tested against.
#[derive(Clone, Copy)]
pub(crate) struct Walk<'a> {
    pub(crate) tree: &'a Tree,
    pub(crate) index: Index<'a>,
    pub(crate) range: &'a Range,
}

/// Adds the node of an index key if the node satisfies the tree.
fn visit<S: Source>(
    source: &mut S,
    tree: &Tree,
    index: Index<'_>,
    key: &[u8],
    found: &mut Vec<u64>,
) -> Result<(), Refusal>
    ghost volume: { State }
    requires answers { S.answers_for source.old volume }
    requires is_key { IsKeyOfKind volume index.name.now index.kind key.now }
    ensures stays { S.kept source.new ≡ S.kept source.old }
    ensures answers { S.answers_for source.new volume }
    ensures memory { IfErr result (λ e. e ≡ OutOfMemory) }
    ensures collects { Collects volume (formula tree.now) found.old.items found.new.items }
    ensures has { OnOk result ((v : AnyValue) (n : ℕ) → n < 2 ^ 64 → key.now ≡ key_bytes v n →
        sat volume (formula tree.now) n ≡ true → Contains found.new.items n) }
{
    let Some((value, node)) = &read_key(index.kind, key) else {
        unreachable!()
    };
    if satisfies(source, tree, index.name, value, *node) {
        found.push(*node)?;
    }
    Ok(())
}

/// Adds the nodes of a walk's keys that satisfy its tree, stepping from key to key. It isn't
/// inlined, so that a walk whose range decides the tree needs no stack space for keys.
#[inline(never)]
fn visit_all<S: Source>(source: &mut S, walk: Walk<'_>, found: &mut Vec<u64>) -> Result<(), Refusal>
    ghost volume: { State }
    requires answers { S.answers_for source.old volume }
    requires kind { index_kind volume walk.index.name.now ≡ Some walk.index.kind }
    ensures stays { S.kept source.new ≡ S.kept source.old }
    ensures answers { S.answers_for source.new volume }
    ensures memory { IfErr result (λ e. e ≡ OutOfMemory) }
    ensures collects { CollectsFor volume walk.entry found.old.items found.new.items }
    ensures has { OnOk result (HasWalked volume walk.entry found.new.items) }
{
    let mut next = source.next_key(walk.index.name, walk.range.low(), false);
    'keys: while let Some(key) = &next {
        if walk.range.ends_before(key.as_slice()) {
            return Ok(());
        }
        visit(source, walk.tree, walk.index, key.as_slice(), found)?;
        next = source.next_key(walk.index.name, key.as_slice(), true);
    }
    Ok(())
}

/// Returns the remaining condition if it is a single comparison with the strings of this index.
pub fn asked_of_texts<'t>(rest: &'t Tree, name: &Name, kind: Kind) -> Option<&'t Comparison>
    ensures leaf { IfSome (option_copied result)
        (λ c. formula rest.now ≡ Leaf name.now c.op (literal c.literal)) }
    ensures kind { IfSome result (λ _. kind ≡ Cstr) }
{
    match rest {
        Tree::Leaf(comparison) => {
            if kind == Kind::Cstr && comparison.name == *name {
                Some(comparison)
            } else {
                None
            }
        }
        _ => None,
    }
}

/// Adds the nodes of a walk's keys that satisfy its tree, and returns `true`. It does so only if
/// the condition that remains to be tested on them is a single comparison with strings, and the
/// source tests strings in place. Otherwise it adds nothing and returns `false`.
#[inline(never)]
fn pass_texts<S: Source>(
    alloc: Global,
    source: &mut S,
    walk: Walk<'_>,
    rest: &Tree,
    found: &mut Vec<u64>,
) -> Result<bool, Refusal>
    ghost volume: { State }
    requires answers { S.answers_for source.old volume }
    requires leaves { LeavesInIndex volume (formula walk.tree.now) walk.index.name.now
        walk.index.kind walk.range.now.low.items (high_of walk.range.now)
        (Some (formula rest.now)) }
    ensures stays { S.kept source.new ≡ S.kept source.old }
    ensures answers { S.answers_for source.new volume }
    ensures memory { IfErr result (λ e. e ≡ OutOfMemory) }
    ensures collects { CollectsFor volume walk.entry found.old.items found.new.items }
    ensures has { IfOk result (λ tested. tested ≡ true
        → HasWalked volume walk.entry found.new.items) }
    ensures none { IfOk result (λ tested. tested ≡ false
        → found.new.items ≡ found.old.items) }
{
    let Some(comparison) = asked_of_texts(rest, walk.index.name, walk.index.kind) else {
        return Ok(false);
    };
    let test = TextTest::new(alloc, comparison)?;
    source.nodes_passing(walk.range.keys(walk.index.name), &test, found)
}

/// Returns the remaining condition if it is a single `!=` on this name.
fn asked_unequal<'t>(rest: &'t Tree, name: &Name) -> Option<&'t Comparison>
    ensures { IfSome (option_copied result)
        (λ c. formula rest.now ≡ Leaf name.now Ne (literal c.literal)) }
{
    match rest {
        Tree::Leaf(comparison) => match comparison.op {
            Cmp::Ne if comparison.name == *name => Some(comparison),
            _ => None,
        },
        _ => None,
    }
}

/// Returns the part of a walk's range whose integers are below the comparison's literal, or above
/// it, depending on the operator. Returns `None` if the literal isn't a value of the index.
fn part_beyond(walk: Walk<'_>, comparison: &Comparison, op: Cmp) -> Option<Range>
    ensures within { IfSome result (λ part. (k : List ℕ) → IsIn part k
        → IsIn walk.entry.range.now k) }
    ensures keeps { IfSome result (KeepsTrue walk.entry.index.kind op
        (literal comparison.now.literal) walk.entry.range.now) }
    ensures decides { IfSome result (AllTrue walk.entry.index.kind op
        (literal comparison.now.literal)) }
{
    let Some(mut part) = walk.range.copy() else {
        return None;
    };
    if !narrow_by_operator(&mut part, op, comparison, walk.index.kind) {
        return None;
    }
    Some(part)
}

/// Adds the nodes of a walk's keys. The range decides the walk's tree.
fn walk_decided<S: Source>(
    source: &mut S,
    walk: Walk<'_>,
    found: &mut Vec<u64>,
) -> Result<(), Refusal>
    ghost volume: { State }
    requires answers { S.answers_for source.old volume }
    requires leaves { LeavesInIndex volume (formula walk.tree.now) walk.index.name.now
        walk.index.kind walk.range.now.low.items (high_of walk.range.now) None }
    ensures stays { S.kept source.new ≡ S.kept source.old }
    ensures answers { S.answers_for source.new volume }
    ensures memory { IfErr result (λ e. e ≡ OutOfMemory) }
    ensures collects { CollectsFor volume walk.entry found.old.items found.new.items }
    ensures has { OnOk result (HasWalked volume walk.entry found.new.items) }
{
    source.nodes_within(walk.range.keys(walk.index.name), found)
}

/// Adds the nodes of a walk's keys that satisfy its tree, and returns `true`, if the condition that
/// remains to be tested on them is a single `!=` on integers: these are the nodes of the keys below
/// the literal and above it. Otherwise it adds nothing and returns `false`.
#[inline(never)]
fn pass_unequal<S: Source>(
    source: &mut S,
    walk: Walk<'_>,
    rest: &Tree,
    found: &mut Vec<u64>,
) -> Result<bool, Refusal>
    ghost volume: { State }
    requires answers { S.answers_for source.old volume }
    requires leaves { LeavesInIndex volume (formula walk.tree.now) walk.index.name.now
        walk.index.kind walk.range.now.low.items (high_of walk.range.now)
        (Some (formula rest.now)) }
    ensures stays { S.kept source.new ≡ S.kept source.old }
    ensures answers { S.answers_for source.new volume }
    ensures memory { IfErr result (λ e. e ≡ OutOfMemory) }
    ensures collects { CollectsFor volume walk.entry found.old.items found.new.items }
    ensures has { IfOk result (λ passed. passed ≡ true
        → HasWalked volume walk.entry found.new.items) }
{
    let Some(comparison) = asked_unequal(rest, walk.index.name) else {
        return Ok(false);
    };
    let Some(below) = part_beyond(walk, comparison, Cmp::Lt) else {
        return Ok(false);
    };
    let Some(above) = part_beyond(walk, comparison, Cmp::Gt) else {
        return Ok(false);
    };
    let Walk {
        tree,
        index,
        range: _,
    } = walk;
    let first = Walk {
        tree,
        index,
        range: &below,
    };
    walk_decided(source, first, found)?;
    let second = Walk {
        tree,
        index,
        range: &above,
    };
    walk_decided(source, second, found)?;
    Ok(true)
}

/// Adds the nodes of a walk's keys that satisfy its tree, given the condition that remains to be
/// tested on them, or `None` if the range decides the tree. The condition is tested key by key.
#[inline]
pub(crate) fn walk_alone<S: Source>(
    alloc: Global,
    source: &mut S,
    walk: Walk<'_>,
    rest: Option<&Tree>,
    found: &mut Vec<u64>,
) -> Result<(), Refusal>
    ghost volume: { State }
    requires answers { S.answers_for source.old volume }
    requires leaves { LeavesInIndex volume (formula walk.tree.now) walk.index.name.now
        walk.index.kind walk.range.now.low.items (high_of walk.range.now)
        (option_map formula (option_copied rest)) }
    ensures stays { S.kept source.new ≡ S.kept source.old }
    ensures answers { S.answers_for source.new volume }
    ensures memory { IfErr result (λ e. e ≡ OutOfMemory) }
    ensures collects { CollectsFor volume walk.entry found.old.items found.new.items }
    ensures has { OnOk result (HasWalked volume walk.entry found.new.items) }
{
    let Some(rest) = rest else {
        return walk_decided(source, walk, found);
    };
    if pass_unequal(source, walk, rest, found)? {
        return Ok(());
    }
    if pass_texts(alloc, source, walk, rest, found)? {
        return Ok(());
    }
    visit_all(source, walk, found)
}
