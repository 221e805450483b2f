//! Lists of operations on each form of a volume.
//!
//! A call that runs out of memory is repeated, so each test passes even if any one request for
//! memory is refused.
ghost use Rattle.std.specs.Prelude.{◌≡◌, ◌<◌, ◌≤◌, ◌+◌, ◌^◌, Ok, IfOk, OnOk, IfErr, List, length};
ghost use Rattle.be_pages.specs.Pages.{after_undo};
ghost use Rattle.be_tree_reading.specs.Forest.{IsWriteStart};
ghost use Rattle.be_volume.specs.Volume.{State, Writes, steps, empty};
ghost use Rattle.be_volume.specs.declared.ops.Done.{Done as AnyDone};
ghost use Rattle.be_paged.specs.Changes.{Applies, IsRefusedList};
ghost use Rattle.be_paged_reading.specs.Version.{IsVersion};

use arrayvec::ArrayVec;
use be_paged::{apply, first_page};
use be_pages::{Look, Room, VecRoom};
use be_test_tools::again;
use be_value::Refusal;
use be_volume::{Done, Op, Volume};
use std::alloc::Global;
use std::test::Fail;

/// A page writer with the first version, and that version's page.
pub fn room_of(alloc: Global, pages: u64) -> Result<(VecRoom, u64), Refusal>
    ensures version { IfOk result (λ r. IsVersion (⟦<VecRoom as Look>⟧.page_state r.0)
        (⟦<VecRoom as Look>⟧.words r.0) r.1 empty) }
    ensures start { IfOk result (λ r. IsWriteStart (⟦<VecRoom as Look>⟧.page_state r.0)) }
{
    let mut room = again!(VecRoom::new(alloc, pages))?;
    let page = room.take()?;
    let words = first_page();
    room.fill(page, 0, words[0]);
    for i in 1..512 {
        room.fill(page, i, words[i]);
    }
    room.keep();
    Ok((room, page))
}

/// Applies a list of operations to the plain volume.
fn apply_plain(plain: &mut Volume, ops: &[Op]) -> Result<ArrayVec<Done, 64>, Refusal>
    requires some { 1 ≤ length ops.now }
    requires few { length ops.now ≤ 64 }
    requires fits { plain.old.next + 64 < 2 ^ 64 }
    ensures { Writes (λ dones. dones.items) plain.old ops.now result plain.new }
{
    again!(plain.apply(ops))
}

/// Applies a list of operations to the pages. The plain volume isn't read: it only names the volume
/// that they encode.
pub fn apply_pages(
    _plain: &Volume,
    room: &mut VecRoom,
    page: u64,
    ops: &[Op],
) -> Result<(u64, ArrayVec<Done, 64>), Refusal>
    ghost volume: { State }
    requires version { IsVersion (⟦<VecRoom as Look>⟧.page_state room.old)
        (⟦<VecRoom as Look>⟧.words room.old) page volume }
    requires some { 1 ≤ length ops.now }
    requires few { length ops.now ≤ 64 }
    requires fits { volume.next + 64 < 2 ^ 64 }
    ensures ok { IfOk result (λ r. Applies ⟦<VecRoom as Look>⟧.kept ⟦<VecRoom as Look>⟧.page_state
        ⟦<VecRoom as Look>⟧.words
        page r.0 volume ops.now r.1.items room.old room.new) }
    ensures err { IfErr result (λ e. IsRefusedList ⟦<VecRoom as Look>⟧.kept
        ⟦<VecRoom as Look>⟧.page_state ⟦<VecRoom as Look>⟧.words
        ⟦<VecRoom as Room>⟧.full volume ops.now e room.old room.new) }
{
    apply(room, page, ops)
}

/// Applies a list to the plain volume, which has to accept it with these outcomes.
pub fn accepts(plain: &mut Volume, ops: &[Op], dones: &[Done]) -> Result<(), Fail>
    requires some { 1 ≤ length ops.now }
    requires few { length ops.now ≤ 64 }
    requires fits { plain.old.next + 64 < 2 ^ 64 }
    ensures { OnOk result ((answers : List AnyDone)
        × (steps plain.old ops.now ≡ Ok (plain.new, answers))) }
{
    match apply_plain(plain, ops) {
        Ok(answer) if answer.as_slice() == dones => Ok(()),
        _ => Err(Fail::new("the pages accept it, or accept it with another answer")),
    }
}

/// Applies a list to the plain volume, which has to refuse it with the same error. If that error is
/// Full, the plain volume has to accept the list, and nothing else is checked.
pub fn refuses(plain: &mut Volume, ops: &[Op], refusal: Refusal) -> Result<(), Fail>
    requires some { 1 ≤ length ops.now }
    requires few { length ops.now ≤ 64 }
    requires fits { plain.old.next + 64 < 2 ^ 64 }
    ensures { OnOk result (plain.new ≡ plain.old) }
{
    if refusal == Refusal::Full(0) {
        return match plain.refusal(ops) {
            None => Ok(()),
            Some(_) => Err(Fail::new("the pages are full, and the list is refused")),
        };
    }
    match apply_plain(plain, ops) {
        Err(other) if other == refusal => Ok(()),
        _ => Err(Fail::new("the pages refuse it, or refuse it otherwise")),
    }
}
