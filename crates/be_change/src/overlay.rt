//! Computes what collected operations leave of one attribute, and of the index of one name.
ghost use Rattle.std.specs.Prelude.{◌≡◌, ◌≤◌, ◌+◌, IsOk, count_by, true, unwrap_or};
ghost use Rattle.be_change.specs.Imports.{attribute, index_kind, index_kinds, next_after};
ghost use Rattle.be_change.specs.Imports.{state_after, steps, State};
ghost use Rattle.be_change.specs.Left.{index_kind_left, index_left_by, is_new, left_by};

use be_value::{Kind, Name, Value};
use be_volume::Op;

/// Returns what the operations leave of the attribute, or `None` if none of them affects it. The
/// last operation that sets or removes the attribute, or creates or removes its node, determines
/// the result. `next` is the number of the next node after all operations.
pub(crate) fn attribute_left(ops: &[Op], next: u64, node: u64, name: &Name) -> Option<Option<Value>>
    requires made { count_by is_new ops.now ≤ next }
    ensures { (base : State) → next ≡ base.next + count_by is_new ops.now
        → IsOk (steps base ops.now) → attribute (state_after base ops.now) node name.now
        ≡ unwrap_or result (attribute base node name.now) }
{
    let mut number = next;
    for i in (0..ops.len()).rev() {
        let op = &ops[i];
        number = number_before(op, number);
        if let Some(left) = left_by(op, number, node, name) {
            return Some(left);
        }
    }
    None
}

/// Returns the number of the next node before the operation, given the number after it.
fn number_before(op: &Op, next: u64) -> u64
    requires { is_new op.now ≡ true → 1 ≤ next }
    ensures { next ≡ next_after op.now result }
{
    match op {
        Op::New => next - 1,
        _ => next,
    }
}

/// Returns what the operation leaves of the attribute, or `None` if it doesn't affect it. A node
/// that the operation creates has the number `next`.
fn left_by(op: &Op, next: u64, node: u64, name: &Name) -> Option<Option<Value>>
    ensures { result ≡ left_by op.now next node name.now }
{
    match op {
        Op::New if node == next => Some(None),
        Op::Drop(dropped) if node == *dropped => Some(None),
        Op::Set(changed, set, value) if node == *changed && name == set => {
            Some(Some(value.copy()))
        }
        Op::Unset(changed, unset) if node == *changed && name == unset => Some(None),
        _ => None,
    }
}

/// Returns the kind of the index of this name after the operations, or `None` if none of them
/// creates or removes it.
pub(crate) fn index_left(ops: &[Op], name: &Name) -> Option<Option<Kind>>
    ensures { (base : State) → index_kind_left base ops.now name.now
        ≡ unwrap_or result (index_kind base name.now) }
{
    for i in (0..ops.len()).rev() {
        if let Some(left) = index_left_by(&ops[i], name) {
            return Some(left);
        }
    }
    None
}

/// Returns the kind of the index of this name after the operation, or `None` if the operation
/// doesn't create or remove it.
fn index_left_by(op: &Op, name: &Name) -> Option<Option<Kind>>
    ensures { result ≡ index_left_by op.now name.now }
{
    match op {
        Op::MkIndex(made, kind) if name == made => Some(Some(*kind)),
        Op::RmIndex(removed) if name == removed => Some(None),
        _ => None,
    }
}

/// Returns the kind of the index of this name, given all indices of a volume.
pub(crate) fn listed_kind(indices: &[(Name, Kind)], name: &Name) -> Option<Kind>
    ensures { (base : State) → indices.now ≡ index_kinds base → result
        ≡ index_kind base name.now }
{
    for (listed, kind) in indices {
        if name == listed {
            return Some(*kind);
        }
    }
    None
}
