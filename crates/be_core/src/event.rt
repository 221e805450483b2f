//! The machine's events, and the phases of a pass on its way to a pin.
//!
//! A reader's events are Look, Announce, LookAgain, Read and Unpin. The writer's are Lock, Scan,
//! Fill, Publish and Unlock. In `specs/Machine.antt`, `MayX` says when event X is allowed, and
//! `after_X` says how it changes the state.

/// How far a pass has got in pinning a version.
#[derive(Clone, Copy, Debug, PartialEq, Eq)]
pub enum Phase {
    Idle,
    /// The pass has looked, and found this current number.
    Looked(u64),
    /// The pass has published this number in its reader slot.
    Announced(u64),
    /// The reader slot has the first number, and the pass is pinned to the version with the second.
    Pinned(u64, u64),
}

/// An event. The first field is the pass that takes the step.
#[derive(Debug, Drop)]
pub enum Event {
    Look(u64),
    Announce(u64),
    LookAgain(u64),
    /// The pass reads the word at this place in this page.
    Read(u64, u64, usize),
    Unpin(u64),
    Lock(u64),
    /// The pass reads the reader slot of the pass in the second field.
    Scan(u64, u64),
    /// The pass writes a word at this place in this page.
    Fill(u64, u64, usize, u64),
    /// The pass publishes the version with this version page, and gives up the listed pages.
    Publish(u64, u64, Vec<u64>),
    Unlock(u64),
}
