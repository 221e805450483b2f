//! Begins changes, reads through them and ends them, in a store.
ghost use Rattle.std.specs.Prelude.{◌≡◌, ◌≤◌, ℕ, [], None, IfErr, IfOk};
ghost use Rattle.be_change.specs.Imports.{attribute, pinned_number, volume_pinned, HasRead};
ghost use Rattle.be_change.specs.Imports.{IsPassOf, IsPinnedTo, Knowledge, OutOfMemory, Pins};
ghost use Rattle.be_change.specs.Imports.{Unpins};
ghost use Rattle.be_change.specs.Changing.{After, Reads};
ghost use Rattle.be_change.specs.Ending.{Begins, Ends, IsChangeOf, IsNotBegun, Releases};
ghost use Rattle.be_change.specs.Ending.{are_checked};

use crate::Change;
use be_store::laws::seen_is_legal;
use be_store::{ApplyIfError, Name, Pass, Refusal, Store, Value};
use std::alloc::Global;

/// How a change ended, unless it was refused.
#[derive(Clone, Copy, Debug, PartialEq, Eq)]
pub enum Ended {
    /// It was written with this commit number. A change that collected nothing writes nothing, and
    /// the number is then that of the snapshot.
    Accepted(u64),
    /// Another write was made in the meantime, and nothing was written. Begin again on a new
    /// snapshot. The number is how many entries the journal has.
    Again(u64),
}

/// Whether a change refuses a value whose kind isn't the one that the index of its name takes. The
/// store would accept such an attribute, but no query on that name would find its node.
#[derive(Clone, Copy, Debug, PartialEq, Eq)]
pub enum Kinds {
    Checked,
    Unchecked,
}

impl Kinds {
    fn are_checked(&self) -> bool
        ensures { result ≡ are_checked self.now }
    {
        matches!(self, Kinds::Checked)
    }
}

impl Change {
    /// Begins a change on the snapshot to which the pass is pinned. If the pass isn't pinned, this
    /// call pins it, and `end` unpins it.
    ///
    /// `OutOfMemory` leaves the pass pinned or unpinned as before. Memory is allocated for a list
    /// of the snapshot's indices. Apart from the pin, the call costs two reads of the version page.
    pub fn begin(
        alloc: Global,
        store: &Store,
        pass: &mut Pass,
        kinds: Kinds,
    ) -> Result<Change, Refusal>
        requires pass { IsPassOf store.now pass.old }
        ensures pass { IsPassOf store.now pass.new }
        ensures ok { IfOk result (λ change. Begins change (are_checked kinds) pass.old.knows
            pass.new.knows) }
        ensures err { IfErr result (λ e. (e ≡ OutOfMemory)
            × IsNotBegun pass.old.knows pass.new.knows) }
    {
        let checks_kinds = kinds.are_checked();
        match pass.pinned() {
            Some(number) => at_pin(alloc, store, pass, number, checks_kinds, false),
            None => {
                let number = store.pin(pass);
                match at_pin(alloc, store, pass, number, checks_kinds, true) {
                    Ok(change) => Ok(change),
                    Err(refusal) => {
                        store.unpin(pass);
                        Err(refusal)
                    }
                }
            }
        }
    }

    /// Returns an attribute of a node as the collected operations leave it, or `None` if the node
    /// doesn't have it. The call searches for the last operation that affects the attribute or its
    /// node, and reads the snapshot only if there is none. No memory is allocated.
    pub fn get(&self, store: &Store, pass: &mut Pass, node: u64, name: &Name) -> Option<Value>
        requires pass { IsPassOf store.now pass.old }
        requires pinned { (n : ℕ) × IsPinnedTo pass.old.knows n }
        ensures pass { IsPassOf store.now pass.new × HasRead pass.old.knows pass.new.knows }
        ensures value { Reads self.now (volume_pinned pass.old.knows)
            → After self.now (volume_pinned pass.old.knows)
            (λ s. result ≡ attribute s node name.now) }
    {
        match self.left(node, name) {
            Some(value) => value,
            None => store.get(pass, node, name),
        }
    }

    /// Writes the collected operations as one transaction, if no other write has been made since
    /// the snapshot. Unpins the pass if `begin` pinned it. The call retries while another pass
    /// holds the lock, for up to `tries` attempts in total, as `Store::apply_if_or_retry` does.
    ///
    /// The errors are those of `Store::apply_if_or_retry` except `Conflict`: `Busy`; an error of
    /// the snapshot after the preceding operations, from `NoNode` to `NotIndexable`;
    /// `CommitsSpent`; `OutOfMemory`; `Full`. If the call fails, nothing is written.
    pub fn end(self, store: &Store, pass: &mut Pass, tries: u64) -> Result<Ended, Refusal>
        requires pass { IsPassOf store.now pass.old }
        requires pinned { (n : ℕ) × IsPinnedTo pass.old.knows n }
        requires tries { 1 ≤ tries }
        ensures pass { IsPassOf store.now pass.new }
        ensures ends { (c : Knowledge) × Ends tries self pass.old.knows c result
            × Releases self.pins c pass.new.knows }
    {
        let ended = write(&self, store, pass, tries);
        release(self.pins(), store, pass);
        ended
    }

    /// Ends the change without writing, and unpins the pass if `begin` pinned it. Dropping a change
    /// instead leaves that pin in place.
    pub fn abandon(self, store: &Store, pass: &mut Pass)
        requires pass { IsPassOf store.now pass.old }
        requires pinned { (n : ℕ) × IsPinnedTo pass.old.knows n }
        ensures pass { IsPassOf store.now pass.new }
        ensures released { Releases self.pins pass.old.knows pass.new.knows }
    {
        release(self.pins(), store, pass);
    }
}

/// Creates a change on the snapshot to which the pass is pinned.
fn at_pin(
    alloc: Global,
    store: &Store,
    pass: &mut Pass,
    number: u64,
    checks_kinds: bool,
    pins: bool,
) -> Result<Change, Refusal>
    requires pass { IsPassOf store.now pass.old }
    requires pinned { IsPinnedTo pass.old.knows number }
    ensures pass { IsPassOf store.now pass.new × HasRead pass.old.knows pass.new.knows }
    ensures ok { IfOk result (λ change. IsChangeOf change pass.old.knows
        × (change.number ≡ number) × (change.ops ≡ []) × (change.checks ≡ checks_kinds)
        × (change.pins ≡ pins) × (change.by ≡ pass.new.knows.number)) }
    ensures err { IfErr result (λ e. e ≡ OutOfMemory) }
{
    seen_is_legal(store, pass);
    let first = store.next(pass);
    let indices = store.indices(alloc, pass)?;
    let by = pass.number();
    Ok(Change::new(alloc, number, by, first, indices, checks_kinds, pins))
}

/// Writes what the change has collected, if anything. Leaves the pin in place.
fn write(change: &Change, store: &Store, pass: &mut Pass, tries: u64) -> Result<Ended, Refusal>
    requires pass { IsPassOf store.now pass.old }
    requires tries { 1 ≤ tries }
    ensures pass { IsPassOf store.now pass.new }
    ensures ends { Ends tries change.now pass.old.knows pass.new.knows result }
    ensures pin { pass.new.knows.phase ≡ pass.old.knows.phase }
{
    let ops = change.operations();
    if ops.is_empty() {
        return Ok(Ended::Accepted(change.number()));
    }
    match store.apply_if_or_retry(pass, change.number(), ops, tries) {
        Ok((number, _)) => Ok(Ended::Accepted(number)),
        Err(ApplyIfError::Conflict(found)) => Ok(Ended::Again(found)),
        Err(ApplyIfError::Refused(refusal)) => Err(refusal),
    }
}

/// Unpins the pass if the change pinned it.
pub(crate) fn release(pins: bool, store: &Store, pass: &mut Pass)
    requires pass { IsPassOf store.now pass.old }
    requires pinned { (n : ℕ) × IsPinnedTo pass.old.knows n }
    ensures pass { IsPassOf store.now pass.new }
    ensures released { Releases pins pass.old.knows pass.new.knows }
{
    if pins {
        store.unpin(pass);
    }
}
