//! Checks whether the sets in a list of operations have the kinds that the indices of their names
//! take.
ghost use Rattle.std.specs.Prelude.{◌≡◌, ℕ, IfErr, OnOk, length};
ghost use Rattle.be_change.specs.Imports.{volume_pinned, HasRead, IsPassOf, IsPinnedTo};
ghost use Rattle.be_change.specs.Comparing.{ComparesKinds, HaveRightKinds, IsFirstOfWrongKind};
ghost use Rattle.be_change.specs.Left.{index_kind_left};

use crate::overlay::index_left;
use be_store::{Name, Pass, Store};
use be_value::Kind;
use be_volume::Op;

/// A set whose value isn't of the kind that the index of its name takes. The store would accept the
/// attribute, but no query on that name would find its node.
#[derive(Clone, Copy, Debug, PartialEq, Eq)]
pub struct KindMismatch {
    /// The index of the operation in its list, counting from 0.
    pub place: usize,
    /// The kind that the index takes.
    pub index: Kind,
}

/// Compares the kind of each set with that of the index of its name, and returns the first set that
/// differs. The index is that of the pinned snapshot, as the operations before the set leave it. A
/// name without an index takes any kind. Reads the version page once for each set and allocates no
/// memory.
pub fn check_kinds(store: &Store, pass: &mut Pass, ops: &[Op]) -> Result<(), KindMismatch>
    requires pass { IsPassOf store.now pass.old }
    requires pinned { (n : ℕ) × IsPinnedTo pass.old.knows n }
    ensures pass { IsPassOf store.now pass.new × HasRead pass.old.knows pass.new.knows }
    ensures right { OnOk result (HaveRightKinds (volume_pinned pass.old.knows) ops.now
        (length ops.now)) }
    ensures wrong { IfErr result (λ e. IsFirstOfWrongKind (volume_pinned pass.old.knows) ops.now
        e.place e.index) }
{
    for (i, op) in ops.iter().enumerate() {
        if let Some(index) = other_kind(store, pass, &ops[..i], op) {
            return Err(KindMismatch { place: i, index });
        }
    }
    Ok(())
}

/// Returns the kind of the index of a set's name if the value has another kind.
fn other_kind(store: &Store, pass: &mut Pass, before: &[Op], op: &Op) -> Option<Kind>
    requires pass { IsPassOf store.now pass.old }
    requires pinned { (n : ℕ) × IsPinnedTo pass.old.knows n }
    ensures pass { IsPassOf store.now pass.new × HasRead pass.old.knows pass.new.knows }
    ensures compared { ComparesKinds (volume_pinned pass.old.knows) before.now op.now result }
{
    let Op::Set(_, name, value) = op else {
        return None;
    };
    match kind_left(store, pass, before, name) {
        Some(index) if index != value.kind() => Some(index),
        _ => None,
    }
}

/// Returns the kind of the index of this name in the pinned snapshot, as the operations leave it.
fn kind_left(store: &Store, pass: &mut Pass, ops: &[Op], name: &Name) -> Option<Kind>
    requires pass { IsPassOf store.now pass.old }
    requires pinned { (n : ℕ) × IsPinnedTo pass.old.knows n }
    ensures pass { IsPassOf store.now pass.new × HasRead pass.old.knows pass.new.knows }
    ensures kind { result ≡ index_kind_left (volume_pinned pass.old.knows) ops.now name.now }
{
    match index_left(ops, name) {
        Some(kind) => kind,
        None => store.index_kind(pass, name),
    }
}
