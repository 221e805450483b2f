//! Reads journal entries while the lock is held.
ghost use Rattle.std.specs.Prelude.{◌≡◌, IfErr, IfOk};
ghost use Rattle.be_store.specs.Imports.{entries, OutOfMemory};
ghost use Rattle.be_store.specs.History.{entries_from};

use be_journal::Entry;
use be_table::Writing;
use be_value::Refusal;
use std::alloc::Global;

/// Returns up to `most` entries, starting at an index.
pub(crate) fn entries_from(
    alloc: Global,
    held: &Writing<'_>,
    from: u64,
    most: usize,
) -> Result<Vec<Entry>, Refusal>
    ensures ok { IfOk result (λ list. list.items
        ≡ entries_from (entries held.now.knows.seen) from most) }
    ensures err { IfErr result (λ e. e ≡ OutOfMemory) }
{
    let (length, _) = held.current();
    let end = from.saturating_add(most as u64).min(length);
    let mut list = Vec::new(alloc);
    for i in from..end {
        list.push(held.entry(i)?)?;
    }
    Ok(list)
}
