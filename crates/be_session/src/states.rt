//! The operations that rebuild a version, as they are returned to other languages.
//!
//! Operations that were read stay ready until there is room to return all of them, so that neither
//! running out of memory nor a lack of room loses an operation.
ghost use Rattle.std.specs.Prelude.{◌≤◌, length};

use crate::encodings::encoded_operations;
use crate::{Encoding, Fault};
use be_store::{Op, Place};
use std::alloc::Global;

/// A position in the operations that rebuild a version: how far they have been returned, and which
/// were read and are ready.
#[derive(Drop)]
pub struct StatePlace {
    pub(crate) place: Place,
    pub(crate) ready: Vec<Op>,
    ghost few: { length ready.items ≤ 64 },
}

impl StatePlace {
    ghost use Rattle.std.specs.Prelude.{◌≡◌, IfOk, IfErr};
    ghost use Rattle.be_session.specs.Imports.{state_ops, OutOfMemory, State};
    ghost use Rattle.be_session.specs.Operations.{AreEncoded};
    ghost use Rattle.be_session.specs.States.{WaitAfter, unread, unreported, waiting};
    ghost use Rattle.be_session.specs.declared.faults.Fault.TheVariants.{Refused};

    /// Returns the position before the first operation. No memory is allocated.
    pub fn new(alloc: Global) -> StatePlace
        ensures { (volume : State) → unreported volume result ≡ state_ops volume }
    {
        StatePlace {
            place: Place::new(alloc),
            ready: Vec::new(alloc),
        }
    }

    /// Encodes the operations that are ready. If the encoding fits into this many operations and
    /// bytes, they count as returned, and otherwise they stay ready. They also stay ready after
    /// `OutOfMemory`.
    pub fn report(
        &mut self,
        alloc: Global,
        operations_room: usize,
        bytes_room: usize,
    ) -> Result<Encoding, Fault>
        ensures unread { (volume : State) → unread volume self.new ≡ unread volume self.old }
        ensures ok { IfOk result (λ s. AreEncoded s.operations.items s.bytes.items
            (waiting self.old)) }
        ensures beyond { IfOk result (λ s. WaitAfter (waiting self.old) operations_room bytes_room
            s.operations.items s.bytes.items (waiting self.new)) }
        ensures err { IfErr result (λ e. (e ≡ Refused OutOfMemory)
            × (waiting self.new ≡ waiting self.old)) }
    {
        let encoding = encoded_operations(alloc, self.ready.as_slice())?;
        if operations_room < encoding.operations.len() || bytes_room < encoding.bytes.len() {
            return Ok(encoding);
        }
        self.ready.clear();
        Ok(encoding)
    }
}
