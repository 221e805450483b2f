//! Changes that are held by C: reading through a change, and taking a change out of its handle.
ghost use Rattle.std.specs.Prelude.{◌≡◌, ◌⊎◌, ℕ, None, Some};
ghost use Rattle.bestore_c.specs.Imports.{HasRead};
ghost use Rattle.bestore_c.specs.Calls.{Shown};
ghost use Rattle.bestore_c.specs.Drafts.{ShowsChanged};

use crate::handle::{Attribute, DraftHandle};
use crate::places::put;
use crate::reading::NO_ATTRIBUTE;
use be_change::Change;
use be_session::{Session, encoded};
use be_store::{Name, Value};
use std::alloc::Global;

/// Writes a value, with as many of its bytes as fit, or returns the code for a missing attribute.
fn show(found: Option<Value>, reported: &mut Attribute, bytes: &mut [u8]) -> u32
    ensures shown { (n : ℕ) → Shown (Some n) found reported.new bytes.old bytes.new result }
    ensures kept { (result ≡ 0) ⊎ ((reported.new ≡ reported.old) × (bytes.new ≡ bytes.old)) }
{
    let Some(value) = found else {
        return NO_ATTRIBUTE;
    };
    let (code, number, data) = encoded(&value);
    *reported = Attribute {
        code,
        length: data.len() as u64,
        number,
    };
    put(bytes, data);
    0
}

/// Reads an attribute as the change's operations leave it, and writes its value.
pub(crate) fn read_changed(
    session: &mut Session,
    change: &Change,
    node: u64,
    name: &Name,
    reported: &mut Attribute,
    bytes: &mut [u8],
) -> u32
    ensures store { (session.new.store ≡ session.old.store)
        × (session.new.holds ≡ session.old.holds) }
    ensures read { HasRead session.old.knows session.new.knows }
    ensures shown { ShowsChanged change.now session.old.knows node name.now reported.new bytes.old
        bytes.new result }
    ensures kept { (result ≡ 0) ⊎ ((reported.new ≡ reported.old) × (bytes.new ≡ bytes.old)) }
{
    match session.changed(change, node, name) {
        Ok(found) => show(found, reported, bytes),
        Err(fault) => fault.code(),
    }
}

/// Takes the change out of its handle, and closes the handle.
pub(crate) fn take_change(alloc: Global, draft: &mut DraftHandle) -> Option<Change>
    ensures closed { draft.new.owned.value ≡ None }
    ensures change { result ≡ draft.old.owned.value }
{
    if !draft.live {
        return None;
    }
    let change = draft.owned.typed().take(alloc);
    draft.live = false;
    Some(Box::into_inner(change))
}
