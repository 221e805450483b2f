//! Why an operation wasn't collected.
ghost use Rattle.std.specs.Prelude.{◌≡◌};
ghost use Rattle.be_change.specs.declared.errors.CollectError.TheVariants.{OutOfMemory};

use be_value::Kind;
use std::alloc::AllocFailed;
use std::error::Error;
use std::fmt;

/// The reason why an operation wasn't collected. The change is unchanged.
#[derive(Clone, Copy, Debug, PartialEq, Eq)]
pub enum CollectError {
    /// The change has 64 operations, the maximum for a transaction.
    TooMany,
    /// The index of that name takes values of the first kind, and this value has the second. The
    /// store would accept the attribute, but no query on its name would find the node.
    WrongKind(Kind, Kind),
    /// Memory ran out. The call can be retried.
    OutOfMemory,
}

impl fmt::Display for CollectError {
    /// Says what was wrong, and what would be right.
    fn fmt<W: fmt::Write>(&self, f: &mut fmt::Formatter<W>) -> fmt::Result {
        match self {
            CollectError::TooMany => f.write_str("a change has at most 64 operations"),
            CollectError::WrongKind(index, value) => {
                let index = index.name();
                let value = value.name();
                write!(
                    f,
                    "the index of this name takes {index} values, and this one is {value}"
                )
            }
            CollectError::OutOfMemory => f.write_str("memory ran out; the call may be made again"),
        }
    }
}

impl Error for CollectError {}

impl<T: Drop> From<AllocFailed<T>> for CollectError {
    ghost from_gives = { λ _ error. error ≡ OutOfMemory };

    fn from(_failed: AllocFailed<T>) -> CollectError {
        CollectError::OutOfMemory
    }
}
