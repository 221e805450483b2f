//! A journal entry in the form in which C reads it.
ghost use Rattle.std.specs.Prelude.{◌≡◌, IfErr, IfOk, OnErr, OnOk, length, slice_get};
ghost use Rattle.bestore_c.specs.Imports.{entries, option_copied, AnyRefusal, IsUnreported, Learns};
ghost use Rattle.bestore_c.specs.Imports.{LocksAndUnlocks, OutOfMemory, Refused};
ghost use Rattle.bestore_c.specs.Calls.{IsEntryPutOut};

use crate::handle::Counts;
use crate::listing::put_encoding;
use be_session::{Fault, Operation, Session, encoded_entry};
use be_store::Entry;
use std::alloc::Global;

/// Writes the pass and the operations of an entry for the caller, as far as there is room. An
/// operation that created a node has the number of that node. Without an entry, writes zeros.
fn put_entry(
    alloc: Global,
    entry: Option<&Entry>,
    by: &mut u64,
    counts: &mut Counts,
    operations: &mut [Operation],
    bytes: &mut [u8],
) -> Result<(), Fault>
    ensures reported { OnOk result (IsEntryPutOut (option_copied entry.entry) by.new counts.new
        operations.old operations.new bytes.old bytes.new) }
    ensures err { IfErr result (λ e. e ≡ Refused OutOfMemory) }
    ensures kept { OnErr result ((by.new ≡ by.old) × (counts.new ≡ counts.old)
        × (operations.new ≡ operations.old) × (bytes.new ≡ bytes.old)) }
{
    let Some(entry) = entry else {
        *by = 0;
        *counts = Counts {
            operations: 0,
            bytes: 0,
        };
        return Ok(());
    };
    let encoding = encoded_entry(alloc, entry.ops.as_slice(), entry.dones.as_slice())?;
    *by = entry.by;
    put_encoding(&encoding, counts, operations, bytes);
    Ok(())
}

/// Writes the journal entry at this index for the caller, if there is one, as far as there is room.
/// Returns the journal's length.
pub(crate) fn report_entry(
    alloc: Global,
    session: &mut Session,
    from: u64,
    by: &mut u64,
    counts: &mut Counts,
    operations: &mut [Operation],
    bytes: &mut [u8],
) -> Result<u64, Fault>
    ensures store { (session.new.store ≡ session.old.store)
        × (session.new.holds ≡ session.old.holds) }
    ensures learns { Learns session.old.knows session.new.knows }
    ensures length { IfOk result (λ n. n ≡ length session.new.knows.seen) }
    ensures reported { OnOk result (IsEntryPutOut (slice_get (entries session.new.knows.seen) from)
        by.new counts.new operations.old operations.new bytes.old bytes.new) }
    ensures moves { OnOk result (LocksAndUnlocks session.old.knows session.new.knows) }
    ensures err { IfErr result (λ e. (why : AnyRefusal) × (e ≡ Refused why)
        × IsUnreported session.old.knows session.new.knows why) }
    ensures kept { OnErr result ((by.new ≡ by.old) × (counts.new ≡ counts.old)
        × (operations.new ≡ operations.old) × (bytes.new ≡ bytes.old)) }
{
    let list = session.journal_from(alloc, from, 1)?;
    put_entry(alloc, list.first(), by, counts, operations, bytes)?;
    Ok(session.seen())
}
