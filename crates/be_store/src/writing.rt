//! Makes a single write while the lock is held.
ghost use Rattle.std.specs.Prelude.{◌≡◌, [], ◌+◌, ◌^◌, ◌<◌, ◌≤◌, IfOk, IfErr, OnErr, false};
ghost use Rattle.std.specs.Prelude.{length};
ghost use Rattle.be_store.specs.Imports.{open_of, page_state_among, page_state_in_work, upto_lock};
ghost use Rattle.be_store.specs.Imports.{word_of_page, words_of, Applies, IsFull, IsRefusedList};
ghost use Rattle.be_store.specs.Imports.{IsVersion, Knowledge, State, TakesFew, TakesLock, Work};
ghost use Rattle.be_store.specs.Conditional.{WritesIf};
ghost use Rattle.be_store.specs.Writing.{Begins, HasRoomAtFull, ScansEarly, Writes};

use crate::ApplyIfError;
use arrayvec::ArrayVec;
use be_paged::{Version, apply_into};
use be_table::Writing;
use be_value::Refusal;
use be_volume::{Done, Op};

/// Applies the operations to a version in an open write. Borrows the write's buffer for the
/// contents of the version, and puts it back.
fn apply_to(
    writing: &mut Writing<'_>,
    version_page: u64,
    ops: &[Op],
    dones: &mut ArrayVec<Done, 64>,
) -> Result<u64, Refusal>
    ghost volume: { State }
    requires version { IsVersion (page_state_among writing.old.knows.places)
        (word_of_page writing.old.knows.words) version_page volume }
    requires count { (1 ≤ length ops.now) × (length ops.now ≤ 64) }
    requires fits { volume.next + 64 < 2 ^ 64 }
    requires open { writing.old.knows.published ≡ false }
    requires empty { dones.old.items ≡ [] }
    ensures ok { IfOk result (λ page. Applies open_of page_state_in_work words_of version_page page
        volume ops.now dones.new.items writing.old writing.new) }
    ensures err { IfErr result (λ e. IsRefusedList open_of page_state_in_work words_of IsFull
        volume ops.now e writing.old writing.new) }
    ensures few { OnErr result (TakesFew volume ops.now (page_state_in_work writing.old)
        (page_state_in_work writing.new)) }
{
    let mut space = writing.take_space();
    let answer = apply_in(writing, &mut space, version_page, ops, dones);
    writing.put_space(space);
    answer
}

/// Applies the operations, using the given buffer for the contents of the version if there is one.
fn apply_in(
    writing: &mut Writing<'_>,
    space: &mut Option<Box<Version>>,
    version_page: u64,
    ops: &[Op],
    dones: &mut ArrayVec<Done, 64>,
) -> Result<u64, Refusal>
    ghost volume: { State }
    requires version { IsVersion (page_state_among writing.old.knows.places)
        (word_of_page writing.old.knows.words) version_page volume }
    requires count { (1 ≤ length ops.now) × (length ops.now ≤ 64) }
    requires fits { volume.next + 64 < 2 ^ 64 }
    requires open { writing.old.knows.published ≡ false }
    requires empty { dones.old.items ≡ [] }
    ensures ok { IfOk result (λ page. Applies open_of page_state_in_work words_of version_page page
        volume ops.now dones.new.items writing.old writing.new) }
    ensures err { IfErr result (λ e. IsRefusedList open_of page_state_in_work words_of IsFull
        volume ops.now e writing.old writing.new) }
    ensures few { OnErr result (TakesFew volume ops.now (page_state_in_work writing.old)
        (page_state_in_work writing.new)) }
{
    match space {
        Some(version) => apply_into(writing, version, version_page, ops, dones),
        None => apply_apart(writing, version_page, ops, dones),
    }
}

/// Applies the operations using a buffer of its own. This is a separate function because a function
/// clears all its local variables on entry.
#[inline(never)]
fn apply_apart(
    writing: &mut Writing<'_>,
    version_page: u64,
    ops: &[Op],
    dones: &mut ArrayVec<Done, 64>,
) -> Result<u64, Refusal>
    ghost volume: { State }
    requires version { IsVersion (page_state_among writing.old.knows.places)
        (word_of_page writing.old.knows.words) version_page volume }
    requires count { (1 ≤ length ops.now) × (length ops.now ≤ 64) }
    requires fits { volume.next + 64 < 2 ^ 64 }
    requires open { writing.old.knows.published ≡ false }
    requires empty { dones.old.items ≡ [] }
    ensures ok { IfOk result (λ page. Applies open_of page_state_in_work words_of version_page page
        volume ops.now dones.new.items writing.old writing.new) }
    ensures err { IfErr result (λ e. IsRefusedList open_of page_state_in_work words_of IsFull
        volume ops.now e writing.old writing.new) }
    ensures few { OnErr result (TakesFew volume ops.now (page_state_in_work writing.old)
        (page_state_in_work writing.new)) }
{
    let mut version = Version::new();
    apply_into(writing, &mut version, version_page, ops, dones)
}

/// Scans if a scan is due, so that the write can take pages that were retired recently.
fn scan_early(writing: &mut Writing<'_>)
    requires begins { Begins writing.old.knows }
    requires first { upto_lock writing.old.knows.number writing.old.knows.history
        ≡ writing.old.knows.history }
    ensures table { writing.new.table ≡ writing.old.table }
    ensures begins { Begins writing.new.knows }
    ensures kept { open_of writing.new ≡ open_of writing.old }
    ensures early { ScansEarly writing.old writing.new }
{
    if writing.is_scan_due() {
        writing.scan();
    }
}

/// Applies the operations to the current version, and publishes the result. The outcomes are added
/// in place to a list that is empty at first. If the volume refuses the write, that error is
/// returned immediately. A journal that has no room for the entry is reported in preference to
/// `Full`.
fn write_current(
    writing: &mut Writing<'_>,
    ops: &[Op],
    dones: &mut ArrayVec<Done, 64>,
) -> Result<u64, Refusal>
    requires begins { Begins writing.old.knows }
    requires count { (1 ≤ length ops.now) × (length ops.now ≤ 64) }
    requires empty { dones.old.items ≡ [] }
    ensures table { writing.new.table ≡ writing.old.table }
    ensures answer { Writes writing.old.knows writing.new.knows ops.now dones.new.items result }
    ensures room { IfErr result (HasRoomAtFull writing.new (length ops.now)) }
{
    let (_, version_page) = writing.current();
    match apply_to(writing, version_page, ops, dones) {
        Ok(page) => {
            writing.reserve(ops.len())?;
            let number = writing.publish(page, ops, dones.as_slice());
            Ok(number)
        }
        Err(Refusal::Full(least)) => {
            writing.reserve(ops.len())?;
            Err(Refusal::Full(least))
        }
        Err(refusal) => Err(refusal),
    }
}

/// Writes to the current version, after a scan if one is due.
pub(crate) fn write(
    writing: &mut Writing<'_>,
    ops: &[Op],
    dones: &mut ArrayVec<Done, 64>,
) -> Result<u64, Refusal>
    requires begun { (a : Knowledge) × TakesLock a writing.old.knows }
    requires count { (1 ≤ length ops.now) × (length ops.now ≤ 64) }
    requires empty { dones.old.items ≡ [] }
    ensures table { writing.new.table ≡ writing.old.table }
    ensures answer { Writes writing.old.knows writing.new.knows ops.now dones.new.items result }
    ensures room { IfErr result (HasRoomAtFull writing.new (length ops.now)) }
    ensures early { (between : Work) × ScansEarly writing.old between
        × Writes between.knows writing.new.knows ops.now dones.new.items result }
{
    scan_early(writing);
    write_current(writing, ops, dones)
}

/// Does what `write` does if the journal has exactly `number` entries, and otherwise writes
/// nothing.
pub(crate) fn write_if(
    writing: &mut Writing<'_>,
    number: u64,
    ops: &[Op],
    dones: &mut ArrayVec<Done, 64>,
) -> Result<u64, ApplyIfError>
    requires begun { (a : Knowledge) × TakesLock a writing.old.knows }
    requires count { (1 ≤ length ops.now) × (length ops.now ≤ 64) }
    requires empty { dones.old.items ≡ [] }
    ensures table { writing.new.table ≡ writing.old.table }
    ensures answer { WritesIf writing.old.knows writing.new.knows number ops.now dones.new.items
        result }
{
    let (length, _) = writing.current();
    if length != number {
        return Err(ApplyIfError::Conflict(length));
    }
    Ok(write(writing, ops, dones)?)
}
