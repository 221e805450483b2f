//! Ends a change with a single attempt, for programs that must not wait for the writer.
ghost use Rattle.std.specs.Prelude.{◌≡◌, ℕ};
ghost use Rattle.be_change.specs.Imports.{IsPassOf, IsPinnedTo, Knowledge};
ghost use Rattle.be_change.specs.Ending.{EndsOnce, Releases};

use crate::ending::release;
use crate::{Change, Ended};
use be_store::{ApplyIfError, ArrayVec, Done, Pass, Refusal, Store};

impl Change {
    /// Ends the change as `end` does, but with a single attempt. It doesn't yield to other threads,
    /// which the library for C must not do. After `Busy`, nothing is written and the change is
    /// gone, so begin again. The list receives the outcomes of the operations, as from
    /// `Store::apply_if_into`, so that a caller can reuse one list.
    pub fn end_once(
        self,
        store: &Store,
        pass: &mut Pass,
        outcomes: &mut ArrayVec<Done, 64>,
    ) -> Result<Ended, Refusal>
        requires pass { IsPassOf store.now pass.old }
        requires pinned { (n : ℕ) × IsPinnedTo pass.old.knows n }
        ensures pass { IsPassOf store.now pass.new }
        ensures ends { (c : Knowledge) × EndsOnce self pass.old.knows c result
            × Releases self.pins c pass.new.knows }
    {
        let ended = write_once(&self, store, pass, outcomes);
        release(self.pins(), store, pass);
        ended
    }
}

/// Writes what the change has collected, if anything. Leaves the pin in place.
fn write_once(
    change: &Change,
    store: &Store,
    pass: &mut Pass,
    outcomes: &mut ArrayVec<Done, 64>,
) -> Result<Ended, Refusal>
    requires pass { IsPassOf store.now pass.old }
    ensures pass { IsPassOf store.now pass.new }
    ensures ends { EndsOnce change.now pass.old.knows pass.new.knows result }
    ensures pin { pass.new.knows.phase ≡ pass.old.knows.phase }
{
    let ops = change.operations();
    if ops.is_empty() {
        return Ok(Ended::Accepted(change.number()));
    }
    match store.apply_if_into(pass, change.number(), ops, outcomes) {
        Ok(number) => Ok(Ended::Accepted(number)),
        Err(ApplyIfError::Conflict(found)) => Ok(Ended::Again(found)),
        Err(ApplyIfError::Refused(refusal)) => Err(refusal),
    }
}
