//! The reclamation machine, which says when a page of an old version may be reused.
//!
//! # The machine
//! Versions are sets of pages. A pass that wants to read looks at the current number, publishes it
//! in its reader slot (announces it), and looks again. It is then pinned to the version that is
//! current at the second look.
//!
//! The writer, the pass that holds the lock, fills free pages and publishes them as part of the
//! next version. The pages that this version gives up are retired with the old version's number. A
//! scan reads every reader slot, and frees the pages that were retired with a number below the
//! minimum that it found.
//!
//! # Why it is a separate crate
//! The machine is pure: it has no threads and no atomics, only states, events, and which events
//! each state allows (`specs/Machine.antt`). A program that runs it on words shared by threads has
//! to show that each of its steps is one of these events. The theorem then holds for that program
//! under every schedule.
//!
//! # What is proved
//! `law` is the theorem about every list of events. `laws` has its parts for such a program, one
//! for each event. `State` is an executable machine.
#![tactic(auto)]

ghost use Rattle.be_core.specs.Machine.{Protected, Partition};
ghost use Rattle.be_core.specs.Laws.{Always, EachScheduleRuns, FillsNoPinned, ScanLeavesNone};

mod event;
pub mod laws;
mod state;

pub use event::{Event, Phase};
pub use state::State;

/// After any events in any order, no page of a pinned version is free, taken or changed, and none
/// may be filled. Each page is in exactly one of four sets: free, taken, retired, or in the current
/// version. A whole scan leaves a page retired only if some version from the minimum on reaches it.
/// Each list of events has a run, so the theorem isn't vacuous.
pub fn law()
    ensures protected { Always Protected }
    ensures partition { Always Partition }
    ensures fills_no_pinned { Always FillsNoPinned }
    ensures leaves_none { Always ScanLeavesNone }
    ensures runs { EachScheduleRuns }
{}
