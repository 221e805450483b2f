//! The figures of a store, as they are returned to C.
ghost use Rattle.std.specs.Prelude.{◌≡◌};
ghost use Rattle.bestore_c.specs.Usage.{Shows};

use crate::handle::Usage;
use be_store::Status;

/// Returns the figures of a store. A flag says whether there is an oldest version.
pub(crate) fn usage_of(status: &Status) -> Usage
    ensures { Shows status.now result }
{
    let Status {
        pages,
        free,
        retired,
        entries,
        commits,
        oldest,
    } = *status;
    let (is_held, oldest, holder) = match oldest {
        Some(oldest) => (true, oldest.number, oldest.pass),
        None => (false, 0, 0),
    };
    Usage {
        pages,
        free,
        retired,
        entries,
        commits,
        is_held,
        oldest,
        holder,
    }
}
