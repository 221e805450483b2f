//! Changes made through calls of a session, which begin, collect, read and end them without a
//! callback.
ghost use Rattle.std.specs.Prelude.{◌≡◌, IfErr, IfOk, false, true};
ghost use Rattle.be_session.specs.Imports.{Begins, HasRead, IsNotBegun, OutOfMemory};
ghost use Rattle.be_session.specs.Changes.{Abandons, Collects, CollectsMeant, EndsChange};
ghost use Rattle.be_session.specs.Changes.{IsNotCollected, IsOwnChange, IsUncollected};
ghost use Rattle.be_session.specs.Changes.{IsUnwrittenChange};
ghost use Rattle.be_session.specs.Changes.{ReadsChanged, WritesChange};
ghost use Rattle.be_session.specs.declared.faults.Fault.TheVariants.{Refused};

use crate::lists::one;
use crate::session::is_batch;
use crate::{Fault, ListFault, Operation, Session};
use be_change::{Change, CollectError, Ended, Kinds, check_kinds};
use be_store::{Name, Op, Refusal, Value};
use std::alloc::{AllocFailed, Global};

/// Collects an operation. If it creates a node, returns the number that the node will have, and
/// otherwise 0.
fn collect(change: &mut Change, op: Op) -> Result<u64, CollectError>
    ensures ok { IfOk result (λ node. Collects change.old change.new op node) }
    ensures err { IfErr result (λ e. (change.new ≡ change.old) × IsUncollected change.old op e) }
{
    match op {
        Op::New => change.new_node(),
        Op::Drop(node) => {
            change.remove_node(node)?;
            Ok(0)
        }
        Op::Set(node, name, value) => {
            change.set(node, name, value)?;
            Ok(0)
        }
        Op::Unset(node, name) => {
            change.unset(node, name)?;
            Ok(0)
        }
        Op::MkIndex(name, kind) => {
            change.make_index(name, kind)?;
            Ok(0)
        }
        Op::RmIndex(name) => {
            change.remove_index(name)?;
            Ok(0)
        }
    }
}

/// Decodes an operation and collects it. If it creates a node, returns the number that the node
/// will have, and otherwise 0.
///
/// An error adds nothing. The errors are those of an invalid operation, `WrongKind` if the change
/// checks kinds and the index of that name takes another kind, `BadCount` at the 65th operation,
/// and `OutOfMemory`.
pub fn collect_operation(
    change: &mut Change,
    encoded: &Operation,
    bytes: &[u8],
) -> Result<u64, Fault>
    ensures ok { IfOk result (λ node. CollectsMeant change.old change.new encoded.now bytes.now
        node) }
    ensures err { IfErr result (λ e. (change.new ≡ change.old)
        × IsNotCollected change.old encoded.now bytes.now e) }
{
    let op = match one(encoded, bytes) {
        Ok(op) => op,
        Err(fault) => return Err(fault),
    };
    match collect(change, op) {
        Ok(node) => Ok(node),
        Err(error) => Err(Fault::from(error)),
    }
}

impl Session {
    /// Writes a batch as a change on the pinned snapshot, all or none, if no other write has been
    /// made since. Returns the commit number and leaves the pin in place. New nodes are numbered
    /// from `next` on.
    ///
    /// Errors are reported in this order: `BadCount`; `NotPinned`; `WrongKind`; the errors of
    /// `apply_if` at the snapshot's number. `WrongKind` has the place of the first set whose value
    /// isn't of the kind of its index, with the preceding operations taken into account. For the
    /// errors of `apply_if`, the place is the number that comes with the error. If the call fails,
    /// nothing is written. Besides the write, the call reads the version page once for each set.
    pub fn apply_change(&mut self, ops: &[Op]) -> Result<u64, ListFault>
        ensures store { (self.new.store ≡ self.old.store) × (self.new.holds ≡ self.old.holds) }
        ensures ok { IfOk result (λ n. WritesChange self.old.knows self.new.knows ops.now n) }
        ensures err { IfErr result (λ e. IsUnwrittenChange self.old.knows self.new.knows ops.now
            e.fault e.place) }
    {
        if !is_batch(ops) {
            return Err(ListFault::from(Fault::BadCount));
        }
        let Some(number) = self.pass.pinned() else {
            return Err(ListFault::from(Fault::NotPinned));
        };
        let store = self.share.store();
        check_kinds(store, &mut self.pass, ops)?;
        match store.apply_if_into(&mut self.pass, number, ops, &mut self.outcomes) {
            Ok(length) => Ok(length),
            Err(error) => Err(ListFault::from(Fault::from(error))),
        }
    }

    /// Returns whether the session's own pass began the change and is pinned to its snapshot.
    fn owns(&self, change: &Change) -> bool
        ensures yes { result ≡ true → IsOwnChange change.now self.now.knows }
        ensures no { result ≡ false → ¬ (IsOwnChange change.now self.now.knows) }
    {
        match self.pass.pinned() {
            Some(pinned) => pinned == change.number() && self.pass.number() == change.by(),
            None => false,
        }
    }

    /// Begins a change on the pinned snapshot, with checking of kinds. If the session isn't pinned,
    /// this call pins it, and the end of the change unpins it. `OutOfMemory` leaves the session
    /// pinned or unpinned as before. Memory is allocated for the change and for a list of the
    /// snapshot's indices.
    pub fn begin_change(&mut self, alloc: Global) -> Result<Box<Change, Global>, Fault>
        ensures store { (self.new.store ≡ self.old.store) × (self.new.holds ≡ self.old.holds) }
        ensures ok { IfOk result (λ change. Begins change.value true self.old.knows
            self.new.knows) }
        ensures err { IfErr result (λ e. (e ≡ Refused OutOfMemory)
            × IsNotBegun self.old.knows self.new.knows) }
    {
        let store = self.share.store();
        let change = Change::begin(alloc, store, &mut self.pass, Kinds::Checked)?;
        match Box::new(alloc, change) {
            Ok(change) => Ok(change),
            Err(AllocFailed { value }) => {
                value.abandon(self.share.store(), &mut self.pass);
                Err(Fault::Refused(Refusal::OutOfMemory))
            }
        }
    }

    /// Returns an attribute of a node as the change's operations leave it, or `None` if the node
    /// doesn't have it. Returns `NotPinned` if the session's pass didn't begin the change, or
    /// isn't pinned to its snapshot.
    pub fn changed(
        &mut self,
        change: &Change,
        node: u64,
        name: &Name,
    ) -> Result<Option<Value>, Fault>
        ensures store { (self.new.store ≡ self.old.store) × (self.new.holds ≡ self.old.holds) }
        ensures read { HasRead self.old.knows self.new.knows }
        ensures value { ReadsChanged change.now self.old.knows node name.now result }
    {
        if !self.owns(change) {
            return Err(Fault::NotPinned);
        }
        Ok(change.get(self.share.store(), &mut self.pass, node, name))
    }

    /// Writes what the change has collected as one transaction, if no other write has been made
    /// since its snapshot. Unpins the session if `begin_change` pinned it. Returns the commit
    /// number, or the snapshot's number if nothing was collected.
    ///
    /// Returns `NotPinned` if the session's pass didn't begin the change, or isn't pinned to its
    /// snapshot; `Conflict` with the journal's length if another write came first; or an error of
    /// the store. After a `Conflict`, begin the change again. If the call fails, nothing is
    /// written.
    pub fn end_change(&mut self, change: Change) -> Result<u64, Fault>
        ensures store { (self.new.store ≡ self.old.store) × (self.new.holds ≡ self.old.holds) }
        ensures ends { EndsChange change self.old.knows self.new.knows result }
    {
        if !self.owns(&change) {
            return Err(Fault::NotPinned);
        }
        let store = self.share.store();
        match change.end_once(store, &mut self.pass, &mut self.outcomes) {
            Ok(Ended::Accepted(number)) => Ok(number),
            Ok(Ended::Again(found)) => Err(Fault::Conflict(found)),
            Err(refusal) => Err(Fault::Refused(refusal)),
        }
    }

    /// Ends a change without writing, and unpins the session if `begin_change` pinned it. If this
    /// session's pass didn't begin the change, the pin of the pass that did remains.
    pub fn abandon_change(&mut self, change: Change)
        ensures store { (self.new.store ≡ self.old.store) × (self.new.holds ≡ self.old.holds) }
        ensures abandons { Abandons change self.old.knows self.new.knows }
    {
        if !self.owns(&change) {
            return;
        }
        change.abandon(self.share.store(), &mut self.pass);
    }
}
