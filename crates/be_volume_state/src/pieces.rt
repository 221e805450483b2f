//! The operations for one number, and those for the indices.
ghost use Rattle.std.specs.Prelude.{◌≡◌, ◌++◌, ◌∷◌, [], IfOk, OnOk, filter, not, if◌then◌else◌};
ghost use Rattle.std.specs.Prelude.{map as each};
ghost use Rattle.be_volume.specs.Volume.{State};
ghost use Rattle.be_volume.specs.declared.ops.Op.TheVariants as ops_of;
ghost use Rattle.be_volume_state.specs.Rebuilding as model;

use crate::Whole;
use be_value::{Kind, Name, Value};
use be_volume::Op;
use std::alloc::{AllocError, Global};

/// Returns the operations for the next number. They create its node and set the attributes that no
/// index has; if the volume has no such node, they then drop it.
pub(crate) fn number_ops<W: Whole>(
    alloc: Global,
    whole: &mut W,
    node: u64,
) -> Result<Vec<Op>, AllocError>
    ghost volume: { State }
    requires answers { W.answers_for whole.old volume }
    ensures ops { IfOk result (λ ops. ops.items ≡ model.number_ops volume node) }
    ensures stays { W.kept whole.new ≡ W.kept whole.old }
    ensures answers { W.answers_for whole.new volume }
{
    let mut ops = Vec::new(alloc);
    ops.push(Op::New)?;
    let Some(attributes) = whole.attrs(node)? else {
        ops.push(Op::Drop(node))?;
        return Ok(ops);
    };
    push_outside(whole, node, attributes.as_slice(), &mut ops)?;
    Ok(ops)
}

/// Returns the operations that set those of a node's attributes that an index has.
pub(crate) fn held_ops<W: Whole>(
    alloc: Global,
    whole: &mut W,
    node: u64,
) -> Result<Vec<Op>, AllocError>
    ghost volume: { State }
    requires answers { W.answers_for whole.old volume }
    ensures ops { IfOk result (λ ops. ops.items ≡ model.held_ops volume node) }
    ensures stays { W.kept whole.new ≡ W.kept whole.old }
    ensures answers { W.answers_for whole.new volume }
{
    let mut ops = Vec::new(alloc);
    let Some(attributes) = whole.attrs(node)? else {
        return Ok(ops);
    };
    push_held(whole, node, attributes.as_slice(), &mut ops)?;
    Ok(ops)
}

/// Returns the operations that create the indices.
pub(crate) fn index_ops<W: Whole>(alloc: Global, whole: &mut W) -> Result<Vec<Op>, AllocError>
    ghost volume: { State }
    requires answers { W.answers_for whole.old volume }
    ensures ops { IfOk result (λ ops. ops.items ≡ model.index_ops volume) }
    ensures stays { W.kept whole.new ≡ W.kept whole.old }
    ensures answers { W.answers_for whole.new volume }
{
    let indices = whole.indices()?;
    made(alloc, indices.as_slice())
}

fn made(alloc: Global, indices: &[(Name, Kind)]) -> Result<Vec<Op>, AllocError>
    ensures { IfOk result (λ ops. ops.items ≡ each (λ e. ops_of.MkIndex e.0 e.1) indices.now) }
{
    let mut ops = Vec::new(alloc);
    for (name, kind) in indices {
        ops.push(Op::MkIndex(name.copy(), *kind))?;
    }
    Ok(ops)
}

/// Appends the operations that set those of the given attributes that no index has.
fn push_outside<W: Whole>(
    whole: &mut W,
    node: u64,
    attributes: &[(Name, Value)],
    ops: &mut Vec<Op>,
) -> Result<(), AllocError>
    ghost volume: { State }
    requires answers { W.answers_for whole.old volume }
    ensures ops { OnOk result (ops.new.items ≡ ops.old.items
        ++ model.set_all node (filter (λ e. not (model.is_held volume node e.0)) attributes.now)) }
    ensures stays { W.kept whole.new ≡ W.kept whole.old }
    ensures answers { W.answers_for whole.new volume }
{
    for (name, value) in attributes {
        let is_held = whole.is_held(node, name);
        push_set(!is_held, node, name, value, ops)?;
    }
    Ok(())
}

/// Appends the operations that set those of the given attributes that an index has.
fn push_held<W: Whole>(
    whole: &mut W,
    node: u64,
    attributes: &[(Name, Value)],
    ops: &mut Vec<Op>,
) -> Result<(), AllocError>
    ghost volume: { State }
    requires answers { W.answers_for whole.old volume }
    ensures ops { OnOk result (ops.new.items ≡ ops.old.items
        ++ model.set_all node (filter (λ e. model.is_held volume node e.0) attributes.now)) }
    ensures stays { W.kept whole.new ≡ W.kept whole.old }
    ensures answers { W.answers_for whole.new volume }
{
    for (name, value) in attributes {
        let is_held = whole.is_held(node, name);
        push_set(is_held, node, name, value, ops)?;
    }
    Ok(())
}

/// Appends the operation that sets this attribute, if it is wanted.
fn push_set(
    wanted: bool,
    node: u64,
    name: &Name,
    value: &Value,
    ops: &mut Vec<Op>,
) -> Result<(), AllocError>
    ensures { OnOk result (ops.new.items ≡ ops.old.items
        ++ (if wanted then ops_of.Set node name.now value.now ∷ [] else [])) }
{
    if wanted {
        ops.push(Op::Set(node, name.copy(), value.copy()))?;
    }
    Ok(())
}
