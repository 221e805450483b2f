//! Returns the operations that rebuild a version, one list at a time.
ghost use Rattle.std.specs.Prelude.{◌≡◌, ◌⊎◌, ◌≤◌, [], OnOk, length, true};
ghost use Rattle.bestore_c.specs.Imports.{pinned_number, unreported, volume_pinned, waiting, State};
ghost use Rattle.bestore_c.specs.Calls.{HasOnlyRead};
ghost use Rattle.bestore_c.specs.States.{ReportsNext, ReportsState, unreported_at};

use crate::handle::{Counts, PlaceHandle};
use crate::listing::put_encoding;
use crate::owned::Owned;
use be_session::{Operation, Session, StatePlace};
use std::alloc::{AllocError, Global};

/// Opens the handle of a place if it is closed.
pub(crate) fn begin(alloc: Global, place: &mut PlaceHandle) -> Result<(), AllocError>
    ensures same { (volume : State) → unreported_at volume place.new.owned.value
        ≡ unreported_at volume place.old.owned.value }
    ensures open { OnOk result (place.new.live ≡ true) }
{
    if place.live {
        return Ok(());
    }
    match Box::new(alloc, StatePlace::new(alloc)) {
        Ok(begun) => {
            *place.owned.typed() = Owned::of(begun);
            place.live = true;
            Ok(())
        }
        Err(_) => Err(AllocError),
    }
}

/// Writes the operations that are ready at a place, as far as there is room. If all of them fit,
/// they count as returned.
fn report_ready(
    alloc: Global,
    place: &mut StatePlace,
    counts: &mut Counts,
    operations: &mut [Operation],
    bytes: &mut [u8],
) -> u32
    ensures reported { (volume : State) → length (waiting place.old) ≤ 64
        → (waiting place.old ≡ [] → unreported volume place.old ≡ [])
        → ReportsNext (unreported volume place.old) (unreported volume place.new) counts.new
        operations.old operations.new bytes.old bytes.new result }
    ensures kept { (result ≡ 0) ⊎ ((counts.new ≡ counts.old) × (operations.new ≡ operations.old)
        × (bytes.new ≡ bytes.old)) }
{
    match place.report(alloc, operations.len(), bytes.len()) {
        Ok(encoding) => {
            put_encoding(&encoding, counts, operations, bytes);
            0
        }
        Err(fault) => fault.code(),
    }
}

/// Writes the next list of the operations that rebuild the session's pinned version, as far as
/// there is room.
pub(crate) fn report_state(
    alloc: Global,
    session: &mut Session,
    place: &mut StatePlace,
    counts: &mut Counts,
    operations: &mut [Operation],
    bytes: &mut [u8],
) -> u32
    ensures read { HasOnlyRead session.old session.new }
    ensures reported { ReportsState (pinned_number session.old.knows.phase)
        (unreported (volume_pinned session.old.knows) place.old)
        (unreported (volume_pinned session.old.knows) place.new) counts.new operations.old
        operations.new bytes.old bytes.new result }
    ensures kept { (result ≡ 0) ⊎ ((counts.new ≡ counts.old) × (operations.new ≡ operations.old)
        × (bytes.new ≡ bytes.old)) }
{
    match session.state(alloc, place) {
        Ok(()) => report_ready(alloc, place, counts, operations, bytes),
        Err(fault) => fault.code(),
    }
}
