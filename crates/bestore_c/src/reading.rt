//! Reads an attribute into memory that C provides.
//!
//! The bytes of a value are copied from its page directly to the caller's memory. The pin is
//! checked first, so the proof needs only what the session says about a pinned read.
ghost use Rattle.std.specs.Prelude.{◌≡◌, ◌⊎◌};
ghost use Rattle.bestore_c.specs.Imports.{attribute, name_in, pinned_number, volume_pinned};
ghost use Rattle.bestore_c.specs.Calls.{HasOnlyRead, Shown};

use crate::handle::Attribute;
use be_session::{Fault, Session};
use be_store::{Cell, HeldName};

/// The number of the error for a name that the node doesn't have.
pub(crate) const NO_ATTRIBUTE: u32 = 3;

/// Converts a cell to a value as it is returned to C.
fn attribute_of(cell: Cell) -> Attribute
    ensures { result ≡ record { code = cell.code; length = cell.length; number = cell.number } }
{
    Attribute {
        code: cell.code,
        length: cell.length,
        number: cell.number,
    }
}

/// Reads an attribute in the session's pinned version, and writes its value.
pub(crate) fn read(
    session: &mut Session,
    node: u64,
    name: &HeldName,
    reported: &mut Attribute,
    bytes: &mut [u8],
) -> u32
    ensures read { HasOnlyRead session.old session.new }
    ensures shown { Shown (pinned_number session.old.knows.phase)
        (attribute (volume_pinned session.old.knows) node (name_in name.now))
        reported.new bytes.old bytes.new result }
    ensures kept { (result ≡ 0) ⊎ ((reported.new ≡ reported.old) × (bytes.new ≡ bytes.old)) }
{
    if !session.is_pinned() {
        return Fault::NotPinned.code();
    }
    match session.get_into(node, name, bytes) {
        Ok(Some(cell)) => {
            *reported = attribute_of(cell);
            0
        }
        Ok(None) => NO_ATTRIBUTE,
        Err(fault) => fault.code(),
    }
}
