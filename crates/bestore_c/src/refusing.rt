//! What a call that did nothing returns: the code of an error, and the number that goes with it.
ghost use Rattle.std.specs.Prelude.{◌≡◌};
ghost use Rattle.bestore_c.specs.Imports.{fault_code};
ghost use Rattle.bestore_c.specs.Calls.{Refuses};

use be_session::{Fault, ListFault};

/// Writes the number that an error carries, and returns the code of the error.
pub(crate) fn refuse(fault: Fault, number: &mut u64) -> u32
    ensures { Refuses fault number.new result }
{
    *number = fault.carried();
    fault.code()
}

/// Writes the place of the invalid item in the list, and returns the code of the error.
pub(crate) fn refuse_list(invalid: ListFault, number: &mut u64) -> u32
    ensures code { result ≡ fault_code invalid.fault }
    ensures place { number.new ≡ invalid.place }
{
    *number = invalid.place;
    invalid.fault.code()
}
