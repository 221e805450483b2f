//! Why a session did not close its store.

use crate::{Fault, Session};

/// The reason why a session did not close its store, and what became of the session.
#[derive(Drop)]
pub enum Unfinished {
    /// Nothing happened, and the session is returned. The error is `InUse` if another session of
    /// the store is open, or `OutOfMemory`.
    Kept(Session, Fault),
    /// A pass is missing because its session was dropped without `close`. The store has been
    /// dropped, since it could never have been closed.
    PassLost,
}
