//! Why a call of a session did nothing.
ghost use Rattle.std.specs.Prelude.{◌≡◌};
ghost use Rattle.be_session.specs.Imports.{OutOfMemory};
ghost use Rattle.be_session.specs.Fault.{fault_carried, fault_code, fault_of, fault_of_collecting};
ghost use Rattle.be_session.specs.declared.faults.Fault.TheVariants.{Refused, WrongKind};

use be_change::{CollectError, KindMismatch};
use be_store::{ApplyIfError, Kind, Refusal};
use std::alloc::{AllocError, AllocFailed};

/// The reason why a call of a session did nothing. A refused write may still have shown the pass
/// more of the journal.
#[derive(Clone, Copy, Debug, PartialEq, Eq)]
pub enum Fault {
    NotPinned,
    AlreadyPinned,
    /// The store has no unused pass.
    NoPass,
    /// A write with no operations, or with more than 64.
    BadCount,
    /// Bytes that must be text but aren't valid UTF-8.
    NotUtf8,
    /// A number that doesn't stand for an operation.
    NoOperation,
    /// A type code that doesn't stand for a kind.
    NoKind,
    /// A number that the kind can't hold.
    NoValue,
    /// A part that isn't within the bytes.
    BadPart,
    /// A number that doesn't stand for an item of a predicate.
    NoItem,
    /// Another write came first: the journal has this many entries, which isn't the number that the
    /// caller passed.
    Conflict(u64),
    /// Another session of the store is open, so this one can't close the store.
    InUse,
    /// A cursor whose kind isn't that of the index, or whose key doesn't have 8 to 264 bytes.
    BadCursor,
    /// There is no room for even a single node.
    NoRoom,
    /// The index of that name takes values of this kind, and the value has a different one.
    WrongKind(Kind),
    Refused(Refusal),
}

impl Fault {
    /// Returns the number that comes with the error. For a refusal, this is the refusal's own
    /// number, such as the pass that is writing or the offset of a byte in a text. For a conflict,
    /// it is the journal's length, and for a value of the wrong kind, the type code of the index.
    /// Otherwise it is 0.
    pub fn carried(&self) -> u64
        ensures { result ≡ fault_carried self.now }
    {
        match self {
            Fault::Refused(refusal) => refusal.carried().unwrap_or(0),
            Fault::Conflict(length) => *length,
            Fault::WrongKind(index) => u64::from(index.code()),
            _ => 0,
        }
    }

    /// Returns the number that identifies the error in other languages. It is never 0.
    pub fn code(&self) -> u32
        ensures { result ≡ fault_code self.now }
    {
        match self {
            Fault::Refused(refusal) => refusal.number() as u32,
            Fault::NotPinned => 66,
            Fault::AlreadyPinned => 67,
            Fault::NoPass => 68,
            Fault::BadCount => 69,
            Fault::NotUtf8 => 70,
            Fault::NoOperation => 71,
            Fault::NoKind => 72,
            Fault::NoValue => 73,
            Fault::BadPart => 74,
            Fault::NoItem => 75,
            Fault::Conflict(_) => 76,
            Fault::InUse => 77,
            Fault::BadCursor => 78,
            Fault::NoRoom => 79,
            Fault::WrongKind(_) => 80,
        }
    }
}

/// The reason why a list of operations or items is invalid.
#[derive(Clone, Copy, Debug, PartialEq, Eq)]
pub struct ListFault {
    pub fault: Fault,
    /// The index of the invalid item in the list, counting from 0. If the list as a whole is
    /// invalid, this is the number that comes with the error, or 0.
    pub place: u64,
}

impl From<Refusal> for Fault {
    ghost from_gives = { λ refusal fault. fault ≡ Refused refusal };

    fn from(refusal: Refusal) -> Fault {
        Fault::Refused(refusal)
    }
}

impl From<ApplyIfError> for Fault {
    ghost from_gives = { λ error fault. fault ≡ fault_of error };

    fn from(error: ApplyIfError) -> Fault {
        match error {
            ApplyIfError::Conflict(length) => Fault::Conflict(length),
            ApplyIfError::Refused(refusal) => Fault::Refused(refusal),
        }
    }
}

impl From<CollectError> for Fault {
    ghost from_gives = { λ error fault. fault ≡ fault_of_collecting error };

    fn from(error: CollectError) -> Fault {
        match error {
            CollectError::TooMany => Fault::BadCount,
            CollectError::WrongKind(index, _) => Fault::WrongKind(index),
            CollectError::OutOfMemory => Fault::Refused(Refusal::OutOfMemory),
        }
    }
}

impl<T: Drop> From<AllocFailed<T>> for Fault {
    ghost from_gives = { λ _ fault. fault ≡ Refused OutOfMemory };

    fn from(_failed: AllocFailed<T>) -> Fault {
        Fault::Refused(Refusal::OutOfMemory)
    }
}

impl From<AllocError> for Fault {
    ghost from_gives = { λ _ fault. fault ≡ Refused OutOfMemory };

    fn from(_failed: AllocError) -> Fault {
        Fault::Refused(Refusal::OutOfMemory)
    }
}

impl From<Fault> for ListFault {
    ghost from_gives = { λ fault e. (e.fault ≡ fault) × (e.place ≡ fault_carried fault) };

    fn from(fault: Fault) -> ListFault {
        ListFault {
            fault,
            place: fault.carried(),
        }
    }
}

impl From<Refusal> for ListFault {
    ghost from_gives = { λ refusal e. (e.fault ≡ Refused refusal)
        × (e.place ≡ fault_carried (Refused refusal)) };

    fn from(refusal: Refusal) -> ListFault {
        let fault = Fault::Refused(refusal);
        ListFault {
            fault,
            place: fault.carried(),
        }
    }
}

impl From<KindMismatch> for ListFault {
    ghost from_gives = { λ mismatch e. (e.fault ≡ WrongKind mismatch.index)
        × (e.place ≡ mismatch.place) };

    fn from(mismatch: KindMismatch) -> ListFault {
        ListFault {
            fault: Fault::WrongKind(mismatch.index),
            place: mismatch.place as u64,
        }
    }
}

impl<T: Drop> From<AllocFailed<T>> for ListFault {
    ghost from_gives = { λ _ e. (e.fault ≡ Refused OutOfMemory) × (e.place ≡ 0) };

    fn from(_failed: AllocFailed<T>) -> ListFault {
        ListFault {
            fault: Fault::Refused(Refusal::OutOfMemory),
            place: 0,
        }
    }
}

impl From<AllocError> for ListFault {
    ghost from_gives = { λ _ e. (e.fault ≡ Refused OutOfMemory) × (e.place ≡ 0) };

    fn from(_failed: AllocError) -> ListFault {
        ListFault {
            fault: Fault::Refused(Refusal::OutOfMemory),
            place: 0,
        }
    }
}
