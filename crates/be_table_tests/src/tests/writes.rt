//! What a pass does while it holds the lock. be_paged applies lists of operations to the open
//! write.
ghost use Rattle.std.specs.Prelude.{◌≡◌, ◌≤◌, ◌<◌, ◌+◌, ◌^◌, ℕ, false, length, IfErr, IfOk};
ghost use Rattle.be_table_tests.specs.Imports.{open_of, page_state_among, page_state_in_work};
ghost use Rattle.be_table_tests.specs.Imports.{word_of_page, words_of, Applies, IsVersion};
ghost use Rattle.be_table_tests.specs.Imports.{Knowledge, State, TakesLock};
ghost use Rattle.be_table_tests.specs.Resting.{IsResting, StaysSeat};

use arrayvec::ArrayVec;
use be_paged::apply;
use be_table::{Seat, VersionTable, Writing};
use be_test_tools::again;
use be_value::Refusal;
use be_volume::{Done, Op};

/// Reserves memory for this many operations. If memory runs out at the first call, a second one
/// follows.
fn make_room(writing: &mut Writing<'_>, count: usize) -> Result<(), Refusal>
    requires open { writing.old.knows.published ≡ false }
    requires count { (1 ≤ count) × (count ≤ 64) }
    ensures knows { writing.new.knows ≡ writing.old.knows }
    ensures table { writing.new.table ≡ writing.old.table }
    ensures reserved { IfOk result (λ _. writing.new.reserved ≡ count) }
{
    again!(writing.reserve(count))
}

/// Applies a list of operations to a version in an open write.
fn apply_to(
    writing: &mut Writing<'_>,
    page: u64,
    ops: &[Op],
) -> Result<(u64, ArrayVec<Done, 64>), Refusal>
    ghost volume: { State }
    requires version { IsVersion (page_state_among writing.old.knows.places)
        (word_of_page writing.old.knows.words) page volume }
    requires count { (1 ≤ length ops.now) × (length ops.now ≤ 64) }
    requires fits { volume.next + 64 < 2 ^ 64 }
    requires open { writing.old.knows.published ≡ false }
    ensures ok { IfOk result (λ r. Applies open_of page_state_in_work words_of page r.0 volume
        ops.now r.1.items writing.old writing.new) }
    ensures err { IfErr result (λ e. open_of writing.new ≡ open_of writing.old) }
{
    apply(writing, page, ops)
}

/// Applies a list of operations to the current version, and publishes the result. Returns the
/// journal's length.
fn write(writing: &mut Writing<'_>, ops: &[Op]) -> Result<u64, Refusal>
    requires begun { (a : Knowledge) × TakesLock a writing.old.knows }
    requires count { (1 ≤ length ops.now) × (length ops.now ≤ 64) }
    ensures table { writing.new.table ≡ writing.old.table }
    ensures pass { (writing.new.knows.number ≡ writing.old.knows.number)
        × (writing.new.knows.phase ≡ writing.old.knows.phase) }
{
    let (_, old) = writing.current();
    let (page, dones) = apply_to(writing, old, ops)?;
    make_room(writing, ops.len())?;
    Ok(writing.publish(page, ops, dones.as_slice()))
}

/// The minimum that a scan finds, whether a scan is due, or 0, right after taking the lock.
fn look_round(writing: &mut Writing<'_>, words: &str) -> u64
    requires open { writing.old.knows.published ≡ false }
    requires begun { (a : Knowledge) × TakesLock a writing.old.knows }
    ensures table { writing.new.table ≡ writing.old.table }
    ensures pass { (writing.new.knows.number ≡ writing.old.knows.number)
        × (writing.new.knows.phase ≡ writing.old.knows.phase) }
{
    match words {
        "scan" => writing.scan(),
        "due" => writing.is_scan_due() as u64,
        _ => 0,
    }
}

/// Writes a list. If it is empty, scans or asks whether a scan is due, as the words say. BadLimits
/// if it has more than 64 operations.
pub(crate) fn act(writing: &mut Writing<'_>, ops: &[Op], words: &str) -> Result<u64, Refusal>
    requires begun { (a : Knowledge) × TakesLock a writing.old.knows }
    ensures table { writing.new.table ≡ writing.old.table }
    ensures pass { (writing.new.knows.number ≡ writing.old.knows.number)
        × (writing.new.knows.phase ≡ writing.old.knows.phase) }
{
    if ops.is_empty() {
        return Ok(look_round(writing, words));
    }
    if ops.len() > 64 {
        return Err(Refusal::BadLimits);
    }
    write(writing, ops)
}

/// Locks, acts, and unlocks.
pub(crate) fn in_write(
    table: &VersionTable,
    seat: &mut Seat,
    ops: &[Op],
    words: &str,
) -> Result<u64, Refusal>
    requires { IsResting table.now seat.old }
    ensures { StaysSeat table.now seat.old seat.new }
{
    let mut writing = match table.lock(seat.move_out()) {
        Ok(writing) => writing,
        Err((kept, refusal)) => {
            *seat = kept;
            return Err(refusal);
        }
    };
    let answer = act(&mut writing, ops, words);
    *seat = writing.unlock();
    answer
}

/// Makes a node, trying again while another pass has the lock. Returns whether it could.
fn enter_at_last(table: &VersionTable, seat: &mut Seat) -> bool
    requires { IsResting table.now seat.old }
    ensures { StaysSeat table.now seat.old seat.new }
{
    for _ in 0..10_000_000 {
        match in_write(table, seat, &[Op::New], "") {
            Err(Refusal::Busy(_)) => {}
            answer => return answer.is_ok(),
        }
    }
    false
}

/// Makes this many nodes, and returns whether it could.
pub(crate) fn enter_many(table: &VersionTable, seat: &mut Seat, count: u64) -> bool
    requires { IsResting table.now seat.old }
    ensures { StaysSeat table.now seat.old seat.new }
{
    for _ in 0..count {
        if !enter_at_last(table, seat) {
            return false;
        }
    }
    true
}
