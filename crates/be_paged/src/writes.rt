//! Writes: a list of operations on a version.
ghost use Rattle.std.specs.Prelude.{◌≡◌, ◌+◌, ◌≤◌, ◌<◌, ◌^◌, [], ◌∷◌, length, All, IsTrue, IfOk};
ghost use Rattle.std.specs.Prelude.{IfErr, OnErr};
ghost use Rattle.be_paged.specs.Imports.{contents, contents_of, is_kept, result_err, steps};
ghost use Rattle.be_paged.specs.Imports.{AnswersFor, Filled, IsAsked, IsName, IsUnchanged};
ghost use Rattle.be_paged.specs.Imports.{IsVersion, IsVersionPage, State, Swaps, TakesFewer};
ghost use Rattle.be_paged.specs.Changes.{Applies, IsRefusedList};
ghost use Rattle.be_paged.specs.Stops.{RefusesAt, TakesFew};

use crate::edits::edit_all;
use arrayvec::ArrayVec;
use be_paged_reading::{Asked, PageFacts, Version, fill_version, store_version};
use be_pages::{Look, Room};
use be_value::Refusal;
use be_volume::{Done, Op, first_refusal};

/// Returns the error, from NoNode to NotIndexable, with which the volume refuses the list, if it
/// does. The error depends only on the list and the old version, and finding it changes nothing.
/// `asked` receives the first attribute that was looked up, unless it already has one.
fn refusal<L: Look>(
    look: &mut L,
    version: &Version,
    ops: &[Op],
    asked: &mut Option<Asked>,
) -> Option<Refusal>
    ghost volume: { State }
    requires answers { AnswersFor (L.page_state look.old) (L.words look.old) (contents version.now)
        volume }
    requires asked { IsAsked (L.page_state look.old) (L.words look.old) version.now.catalog
        asked.old }
    requires fits { volume.next + length ops.now < 2 ^ 64 }
    ensures answer { result ≡ result_err (steps volume ops.now) }
    ensures asked { IsAsked (L.page_state look.new) (L.words look.new) version.now.catalog
        asked.new }
    ensures unchanged { IsUnchanged L.kept L.page_state L.words look.old look.new }
{
    let mut facts = PageFacts {
        look,
        version,
        counted: None,
        asked,
    };
    first_refusal(&mut facts, ops)
}

/// Writes a version to a new page, which it takes as a copy of the old version page.
fn write_version<R: Room>(room: &mut R, old_page: u64, version: &Version) -> Result<u64, Refusal>
    requires named { All (λ e. IsName e.name) version.now.entries.items }
    requires open { IsTrue (R.is_open (R.kept room.old)) }
    ensures contents { IfOk result (λ p. contents_of (R.words room.new p) ≡ contents version.now) }
    ensures page { IfOk result (λ page. IsVersionPage (R.words room.new page)) }
    ensures taken { IfOk result (λ page. R.page_state room.new page ≡ Filled) }
    ensures swaps { IfOk result (λ page. Swaps R.kept R.page_state R.words [] (page ∷ []) room.old
        room.new) }
    ensures refused { RefusesAt R.kept R.page_state R.words R.full
        (λ old new. TakesFewer 1 (R.page_state old) (R.page_state new)) result room.old room.new }
{
    let page = room.take_like(old_page)?;
    store_version(room, page, version);
    Ok(page)
}

/// Gives up the old version page, and writes the new one.
fn replace_version<R: Room>(room: &mut R, old_page: u64, version: &Version) -> Result<u64, Refusal>
    requires in_use { IsTrue (is_kept (R.page_state room.old old_page)) }
    requires named { All (λ e. IsName e.name) version.now.entries.items }
    requires open { IsTrue (R.is_open (R.kept room.old)) }
    ensures contents { IfOk result (λ p. contents_of (R.words room.new p) ≡ contents version.now) }
    ensures page { IfOk result (λ page. IsVersionPage (R.words room.new page)) }
    ensures taken { IfOk result (λ page. R.page_state room.new page ≡ Filled) }
    ensures swaps { IfOk result (λ page. Swaps R.kept R.page_state R.words (old_page ∷ [])
        (page ∷ []) room.old room.new) }
    ensures refused { RefusesAt R.kept R.page_state R.words R.full
        (λ old new. TakesFewer 1 (R.page_state old) (R.page_state new)) result room.old room.new }
{
    room.give_up(old_page);
    let page = write_version(room, old_page, version)?;
    Ok(page)
}

/// Applies 1 to 64 operations to the version on a page, either all or none, and returns the new
/// version page. Appends an outcome for each operation to an empty list. The new page is one that
/// this write has taken, even if nothing changed. The list is filled in place, because passing it
/// by value costs its whole capacity.
///
/// The errors from NoNode to NotIndexable are the volume's: they are found before a page is taken,
/// and leave the page writer unchanged. If no page is free, the error is Full, and undoing the
/// write restores what was there when it began. Until it is undone, the write holds few pages, if
/// it held none before: about the number in the trees of all items. It allocates no memory.
/// `version` is scratch space for the version's contents: its value before and after the call is
/// meaningless.
pub fn apply_into<R: Room>(
    room: &mut R,
    version: &mut Version,
    version_page: u64,
    ops: &[Op],
    dones: &mut ArrayVec<Done, 64>,
) -> Result<u64, Refusal>
    ghost volume: { State }
    requires version { IsVersion (R.page_state room.old) (R.words room.old) version_page volume }
    requires count { (1 ≤ length ops.now) × (length ops.now ≤ 64) }
    requires fits { volume.next + 64 < 2 ^ 64 }
    requires open { IsTrue (R.is_open (R.kept room.old)) }
    requires empty { dones.old.items ≡ [] }
    ensures ok { IfOk result (λ page. Applies R.kept R.page_state R.words version_page page volume
        ops.now dones.new.items room.old room.new) }
    ensures err { IfErr result (λ e. IsRefusedList R.kept R.page_state R.words R.full volume ops.now
        e room.old room.new) }
    ensures few { OnErr result (TakesFew volume ops.now (R.page_state room.old)
        (R.page_state room.new)) }
{
    fill_version(room, version_page, version);
    let mut asked = None;
    if let Some(reason) = refusal(room, version, ops, &mut asked) {
        return Err(reason);
    }
    edit_all(room, version, ops, asked, dones)?;
    let page = replace_version(room, version_page, version)?;
    Ok(page)
}

/// Does the same as `apply_into`, with its own list of outcomes and its own scratch space.
pub fn apply<R: Room>(
    room: &mut R,
    version_page: u64,
    ops: &[Op],
) -> Result<(u64, ArrayVec<Done, 64>), Refusal>
    ghost volume: { State }
    requires version { IsVersion (R.page_state room.old) (R.words room.old) version_page volume }
    requires count { (1 ≤ length ops.now) × (length ops.now ≤ 64) }
    requires fits { volume.next + 64 < 2 ^ 64 }
    requires open { IsTrue (R.is_open (R.kept room.old)) }
    ensures ok { IfOk result (λ r. Applies R.kept R.page_state R.words version_page r.0 volume
        ops.now r.1.items room.old room.new) }
    ensures err { IfErr result (λ e. IsRefusedList R.kept R.page_state R.words R.full volume ops.now
        e room.old room.new) }
    ensures few { OnErr result (TakesFew volume ops.now (R.page_state room.old)
        (R.page_state room.new)) }
{
    let mut version = Version::new();
    let mut dones = ArrayVec::new();
    match apply_into(room, &mut version, version_page, ops, &mut dones) {
        Ok(page) => Ok((page, dones)),
        Err(refusal) => Err(refusal),
    }
}
