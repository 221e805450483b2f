//! Why a run stops before the end of its script.
use thiserror::Error;

/// Why a run stopped before the end of its script.
#[derive(Debug, Drop, Error)]
pub enum RunFault {
    /// A limit is out of range. Nothing was read or written.
    #[error("a limit is out of its range")]
    Limits,
    /// A read failed. Nothing was written.
    #[error("the script can't be read")]
    Read,
    /// The script has more than 1,048,576 bytes. Nothing was written.
    #[error("the script is too long")]
    TooLong,
    /// A write failed or accepted no bytes. A prefix of an output was written.
    #[error("a reply can't be written")]
    Write,
    /// Memory ran out for the store, a line or a reply. A prefix of an output was written.
    #[error("out of memory")]
    Memory,
}
