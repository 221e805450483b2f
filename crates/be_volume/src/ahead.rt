//! Finds why a list of operations would be refused, given the list and the facts of the old volume.
//!
//! Whether an operation is refused may depend on what earlier operations do. Each fact is read from
//! the old volume and then carried through those operations, so nothing is copied and no memory is
//! allocated. For a list of n operations this costs n steps per fact. Counting attributes would
//! cost n reads per operation. So they are counted only for a new name, and only if the old count
//! plus the earlier sets on that node reaches the limit.
ghost use Rattle.std.specs.FinMap as map;
ghost use Rattle.std.specs.Prelude.{◌≡◌, ◌≤◌, ◌<◌, ◌+◌, ◌^◌, IsOk, false, length, nat_eq};
ghost use Rattle.std.specs.Prelude.{nat_le};
ghost use Rattle.std.specs.Cmp.Lexicographic.{pointwise};
ghost use Rattle.std.specs.Result.{result_err};
ghost use Rattle.be_volume.specs.Ahead.{AreDone, StillAnswers, state_after, next_after, node_after};
ghost use Rattle.be_volume.specs.Ahead.{attribute_after, count_after, sets_after, index_after};
ghost use Rattle.be_volume.specs.Ahead.{indices_after, IsThere};
ghost use Rattle.be_volume.specs.Maps.{attributes_of};
ghost use Rattle.be_volume.specs.Volume.{State, step, steps};
ghost use Rattle.be_volume.specs.declared.ops.Op.TheVariants as ops;

use crate::{Facts, Op};
use be_value::{Kind, Name, Refusal, Value};

/// The maximum number of attributes of a node.
pub const MAX_ATTRIBUTES: usize = 64;

/// The maximum number of indices of a volume.
pub const MAX_INDICES: usize = 32;

/// Returns the error, `NoNode` to `NotIndexable`, of the first operation in the list that would be
/// refused, or `None` if all would be accepted. It allocates no memory and changes nothing; callers
/// use it before the first change.
pub fn first_refusal<F: Facts>(facts: &mut F, ops: &[Op]) -> Option<Refusal>
    ghost volume: { State }
    requires answers { F.answers_for facts.old volume }
    requires fits { volume.next + length ops.now < 2 ^ 64 }
    ensures answer { result ≡ result_err (steps volume ops.now) }
    ensures stays { F.kept facts.new ≡ F.kept facts.old }
    ensures answers { F.answers_for facts.new volume }
{
    for (i, op) in ops.iter().enumerate() {
        if let Some(refusal) = refusal_after(facts, &ops[..i], op) {
            return Some(refusal);
        }
    }
    None
}

/// Returns why the operation is refused after those before it, if it is.
fn refusal_after<F: Facts>(facts: &mut F, before: &[Op], op: &Op) -> Option<Refusal>
    ghost volume: { State }
    requires answers { F.answers_for facts.old volume }
    requires before { AreDone volume before.now }
    ensures answer { result ≡ result_err (step (state_after volume before.now) op.now) }
    ensures reads { StillAnswers F.kept F.answers_for volume facts.old facts.new }
{
    match op {
        Op::New => None,
        Op::Drop(node) => drop_refusal(facts, before, *node),
        Op::Set(node, name, value) => set_refusal(facts, before, *node, name, value),
        Op::Unset(node, name) => unset_refusal(facts, before, *node, name),
        Op::MkIndex(name, kind) => make_refusal(facts, before, name, *kind),
        Op::RmIndex(name) => remove_refusal(facts, before, name),
    }
}

fn drop_refusal<F: Facts>(facts: &mut F, before: &[Op], node: u64) -> Option<Refusal>
    ghost volume: { State }
    requires answers { F.answers_for facts.old volume }
    requires before { AreDone volume before.now }
    ensures answer { result ≡ result_err (step (state_after volume before.now) (ops.Drop node)) }
    ensures reads { StillAnswers F.kept F.answers_for volume facts.old facts.new }
{
    if has_node(facts, before, node) {
        None
    } else {
        Some(Refusal::NoNode)
    }
}

fn set_refusal<F: Facts>(
    facts: &mut F,
    before: &[Op],
    node: u64,
    name: &Name,
    value: &Value,
) -> Option<Refusal>
    ghost volume: { State }
    requires answers { F.answers_for facts.old volume }
    requires before { AreDone volume before.now }
    ensures answer { result ≡ result_err
        (step (state_after volume before.now) (ops.Set node name.now value.now)) }
    ensures reads { StillAnswers F.kept F.answers_for volume facts.old facts.new }
{
    if has_attribute(facts, before, node, name) {
        return None;
    }
    if !has_node(facts, before, node) {
        return Some(Refusal::NoNode);
    }
    if is_full(facts, before, node) {
        return Some(Refusal::TooManyAttrs);
    }
    None
}

fn unset_refusal<F: Facts>(facts: &mut F, before: &[Op], node: u64, name: &Name) -> Option<Refusal>
    ghost volume: { State }
    requires answers { F.answers_for facts.old volume }
    requires before { AreDone volume before.now }
    ensures answer { result ≡ result_err
        (step (state_after volume before.now) (ops.Unset node name.now)) }
    ensures reads { StillAnswers F.kept F.answers_for volume facts.old facts.new }
{
    if has_attribute(facts, before, node, name) {
        None
    } else if has_node(facts, before, node) {
        Some(Refusal::NoAttr)
    } else {
        Some(Refusal::NoNode)
    }
}

fn make_refusal<F: Facts>(facts: &mut F, before: &[Op], name: &Name, kind: Kind) -> Option<Refusal>
    ghost volume: { State }
    requires answers { F.answers_for facts.old volume }
    requires accepted { IsOk (steps volume before.now) }
    ensures answer { result ≡ result_err
        (step (state_after volume before.now) (ops.MkIndex name.now kind)) }
    ensures reads { StillAnswers F.kept F.answers_for volume facts.old facts.new }
{
    if has_index(facts, before, name) {
        Some(Refusal::IndexExists)
    } else if index_count(facts, before) >= MAX_INDICES {
        Some(Refusal::TooManyIndices)
    } else if !kind.indexable() {
        Some(Refusal::NotIndexable)
    } else {
        None
    }
}

fn remove_refusal<F: Facts>(facts: &mut F, before: &[Op], name: &Name) -> Option<Refusal>
    ghost volume: { State }
    requires answers { F.answers_for facts.old volume }
    requires accepted { IsOk (steps volume before.now) }
    ensures answer { result ≡ result_err
        (step (state_after volume before.now) (ops.RmIndex name.now)) }
    ensures reads { StillAnswers F.kept F.answers_for volume facts.old facts.new }
{
    if has_index(facts, before, name) {
        None
    } else {
        Some(Refusal::NoSuchIndex)
    }
}

/// Returns the next node number after an operation.
fn next_after(op: &Op, next: u64) -> u64
    requires { next + 1 < 2 ^ 64 }
    ensures { result ≡ next_after op.now next }
{
    match op {
        Op::New => next + 1,
        _ => next,
    }
}

/// Returns `true` if the node exists after these operations.
fn has_node<F: Facts>(facts: &mut F, before: &[Op], node: u64) -> bool
    ghost volume: { State }
    requires answers { F.answers_for facts.old volume }
    requires before { AreDone volume before.now }
    ensures answer { result ≡ map.contains_key (state_after volume before.now).nodes node }
    ensures reads { StillAnswers F.kept F.answers_for volume facts.old facts.new }
{
    let mut next = facts.next();
    let mut there = facts.has_node(node);
    for op in before {
        there = node_after(op, next, there, node);
        next = next_after(op, next);
    }
    there
}

fn node_after(op: &Op, next: u64, there: bool, node: u64) -> bool
    ensures { result ≡ node_after op.now next there node }
{
    match op {
        Op::New => node == next || there,
        Op::Drop(dropped) => node != *dropped && there,
        _ => there,
    }
}

/// Returns `true` if the node has the attribute after these operations.
fn has_attribute<F: Facts>(facts: &mut F, before: &[Op], node: u64, name: &Name) -> bool
    ghost volume: { State }
    requires answers { F.answers_for facts.old volume }
    requires before { AreDone volume before.now }
    ensures answer { result ≡ map.contains_key
        (attributes_of (state_after volume before.now).nodes node) name.now }
    ensures reads { StillAnswers F.kept F.answers_for volume facts.old facts.new }
{
    let mut next = facts.next();
    let mut there = facts.has_attribute(node, name);
    for op in before {
        there = attribute_after(op, next, there, node, name);
        next = next_after(op, next);
    }
    there
}

fn attribute_after(op: &Op, next: u64, there: bool, node: u64, name: &Name) -> bool
    ensures { result ≡ attribute_after op.now next there node name.now }
{
    match op {
        Op::New => node != next && there,
        Op::Drop(dropped) => node != *dropped && there,
        Op::Set(changed, set, _) => (node == *changed && is_same(name, set)) || there,
        Op::Unset(changed, unset) => !(node == *changed && is_same(name, unset)) && there,
        _ => there,
    }
}

/// Returns `true` if two names are equal. Names in one list usually differ in their length or last
/// byte, so these are compared first.
#[inline(always)]
fn is_same(name: &Name, other: &Name) -> bool
    ensures { result ≡ pointwise nat_eq name.now other.now }
{
    let bytes = name.as_str().as_bytes();
    let others = other.as_str().as_bytes();
    bytes.len() == others.len() && bytes.last() == others.last() && name == other
}

/// Returns `true` if the node has the maximum number of attributes after these operations. They are
/// counted only if the maximum may have been reached.
fn is_full<F: Facts>(facts: &mut F, before: &[Op], node: u64) -> bool
    ghost volume: { State }
    requires answers { F.answers_for facts.old volume }
    requires before { AreDone volume before.now }
    ensures answer { result ≡ nat_le 64
        (map.len (attributes_of (state_after volume before.now).nodes node)) }
    ensures reads { StillAnswers F.kept F.answers_for volume facts.old facts.new }
{
    may_be_full(facts, before, node) && attribute_count(facts, before, node) >= MAX_ATTRIBUTES
}

/// Returns `true` if the old count plus the sets on this node among these operations reaches the
/// limit. Each set adds at most one attribute.
fn may_be_full<F: Facts>(facts: &mut F, before: &[Op], node: u64) -> bool
    ghost volume: { State }
    requires answers { F.answers_for facts.old volume }
    requires before { AreDone volume before.now }
    ensures few { result ≡ false → map.len
        (attributes_of (state_after volume before.now).nodes node) < 64 }
    ensures reads { StillAnswers F.kept F.answers_for volume facts.old facts.new }
{
    let old = facts.attribute_count(node);
    let mut sets = 0;
    for op in before {
        sets = sets_after(op, sets, node);
    }
    reach_limit(old, sets)
}

/// Returns `true` if the sum of the two counts reaches the maximum number of attributes of a node.
fn reach_limit(old: usize, sets: usize) -> bool
    ensures { result ≡ nat_le 64 (old + sets) }
{
    old >= MAX_ATTRIBUTES || sets >= MAX_ATTRIBUTES - old
}

fn sets_after(op: &Op, sets: usize, node: u64) -> usize
    requires { sets + 1 < 2 ^ 64 }
    ensures { result ≡ sets_after op.now sets node }
{
    match op {
        Op::Set(changed, _, _) if node == *changed => sets + 1,
        _ => sets,
    }
}

/// Returns how many attributes the node has after these operations.
fn attribute_count<F: Facts>(facts: &mut F, before: &[Op], node: u64) -> usize
    ghost volume: { State }
    requires answers { F.answers_for facts.old volume }
    requires before { AreDone volume before.now }
    ensures answer { result ≡ map.len (attributes_of (state_after volume before.now).nodes node) }
    ensures reads { StillAnswers F.kept F.answers_for volume facts.old facts.new }
{
    let mut next = facts.next();
    let mut count = facts.attribute_count(node);
    for (i, op) in before.iter().enumerate() {
        let has = sets_again(facts, &before[..i], op);
        count = count_after(op, next, count, node, has);
        next = next_after(op, next);
    }
    count
}

/// Returns `true` if the operation sets an attribute that already exists.
fn sets_again<F: Facts>(facts: &mut F, before: &[Op], op: &Op) -> bool
    ghost volume: { State }
    requires answers { F.answers_for facts.old volume }
    requires before { AreDone volume before.now }
    ensures answer { IsThere (state_after volume before.now) op.now result }
    ensures reads { StillAnswers F.kept F.answers_for volume facts.old facts.new }
{
    match op {
        Op::Set(node, name, _) => has_attribute(facts, before, *node, name),
        _ => false,
    }
}

fn count_after(op: &Op, next: u64, count: usize, node: u64, has: bool) -> usize
    requires { count_after op.now next count node has < 2 ^ 64 }
    ensures { result ≡ count_after op.now next count node has }
{
    match op {
        Op::New if node == next => 0,
        Op::Drop(dropped) if node == *dropped => 0,
        Op::Set(changed, _, _) if node == *changed && !has => count + 1,
        Op::Unset(changed, _) if node == *changed => count.saturating_sub(1),
        _ => count,
    }
}

/// Returns `true` if there is an index with this name after these operations.
fn has_index<F: Facts>(facts: &mut F, before: &[Op], name: &Name) -> bool
    ghost volume: { State }
    requires answers { F.answers_for facts.old volume }
    requires accepted { IsOk (steps volume before.now) }
    ensures answer { result ≡ map.contains_key (state_after volume before.now).indices name.now }
    ensures reads { StillAnswers F.kept F.answers_for volume facts.old facts.new }
{
    let mut there = facts.has_index(name);
    for op in before {
        there = index_after(op, there, name);
    }
    there
}

fn index_after(op: &Op, there: bool, name: &Name) -> bool
    ensures { result ≡ index_after op.now there name.now }
{
    match op {
        Op::MkIndex(made, _) => name == made || there,
        Op::RmIndex(removed) => name != removed && there,
        _ => there,
    }
}

/// Returns how many indices there are after these operations.
fn index_count<F: Facts>(facts: &mut F, before: &[Op]) -> usize
    ghost volume: { State }
    requires answers { F.answers_for facts.old volume }
    requires accepted { IsOk (steps volume before.now) }
    ensures answer { result ≡ map.len (state_after volume before.now).indices }
    ensures reads { StillAnswers F.kept F.answers_for volume facts.old facts.new }
{
    let mut count = facts.index_count();
    for op in before {
        count = indices_after(op, count);
    }
    count
}

fn indices_after(op: &Op, count: usize) -> usize
    requires { indices_after op.now count < 2 ^ 64 }
    ensures { result ≡ indices_after op.now count }
{
    match op {
        Op::MkIndex(_, _) => count + 1,
        Op::RmIndex(_) => count.saturating_sub(1),
        _ => count,
    }
}
