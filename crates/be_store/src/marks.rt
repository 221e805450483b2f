//! What a live query remembers about its last refresh.
use be_table::{Setting, Witness};
use std::snapshot::Snapshot;

/// The point of the last refresh: the number of its version, and a witness of a prefix of the
/// journal that is at least that long. Contracts also see with what the store began.
#[derive(Drop)]
pub(crate) struct Mark {
    pub witness: Witness,
    pub number: u64,
    pub setting: Snapshot<Setting>,
}
