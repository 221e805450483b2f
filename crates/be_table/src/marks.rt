//! What a seat knows about its pass without taking a step.

/// A pinned version: its number and its version page.
#[derive(Clone, Copy)]
pub(crate) struct PinnedVersion {
    pub number: u64,
    pub page: u64,
}

/// The pass's number, how much of the journal it has seen, and its pin.
#[derive(Clone, Copy)]
pub(crate) struct Marks {
    pub number: u64,
    pub seen: u64,
    pub pin: Option<PinnedVersion>,
}
