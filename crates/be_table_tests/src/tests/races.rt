//! Writes by two threads, and closing a table.
ghost use Rattle.std.specs.Prelude.{◌≡◌};
ghost use Rattle.be_table_tests.specs.Resting.{IsResting, StaysSeat};

use crate::tests::room::open;
use crate::tests::writes::enter_many;
use be_journal::Journal;
use be_table::{Limits, Seat, VersionTable};
use be_test_tools::{again, both_of, has_hundred_by_each, pair_of};
use be_value::Refusal;
use std::alloc::Global;
use std::thread;
use std::thread::Threads;

/// Makes a hundred nodes, and returns whether it could.
fn enter_hundred(table: &VersionTable, mut seat: Seat) -> (Seat, bool)
    requires { IsResting table.now seat }
    ensures { StaysSeat table.now seat result.0 }
{
    let entered = enter_many(table, &mut seat, 100);
    (seat, entered)
}

/// The journal after two passes have made a hundred nodes each, each on its own thread, and whether
/// all were made.
fn race_once<R: Threads + Sync>(rt: &R, alloc: Global) -> Result<(Journal, bool), Refusal> {
    let limits = Limits {
        pages: 64,
        passes: 2,
        commits: 1000,
    };
    let (table, seats) = open(alloc, limits)?;
    let (first, second) = both_of(seats)?;
    let (first, second) = thread::join(
        rt,
        || enter_hundred(&table, first),
        || enter_hundred(&table, second),
    );
    let seats = pair_of(alloc, first.0, second.0)?;
    Ok((table.close(seats), first.1 && second.1))
}

/// Whether all nodes of two threads were made, and whether the journal has each exactly once. Tried
/// again if memory runs out.
pub(crate) fn race<R: Threads + Sync>(rt: &R, alloc: Global) -> Result<(bool, bool), Refusal> {
    let (journal, entered) = again!(race_once(rt, alloc))?;
    Ok((entered, has_hundred_by_each(&journal)?))
}
