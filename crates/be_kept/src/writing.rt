//! A commit of entries.
ghost use Rattle.std.specs.Prelude.{◌≡◌, ◌⊎◌, ◌<◌, ◌≤◌, ◌+◌, ◌^◌, ◌++◌};
ghost use Rattle.std.specs.Prelude.{IsTrue, List, OnOk, length, map};
ghost use Rattle.sqlite_trees.specs.Tree.{Trees};
ghost use Rattle.sqlite_trees.specs.View.{IsClean, IsQuiet, KeepsSchema, doubt};
ghost use Rattle.sqlite_trees.specs.declared.store.Shape.TheVariants as Shape;
ghost use Rattle.be_journal.specs.declared.entries.Entry.{Entry as Transaction};
ghost use Rattle.be_kept.specs.Batches.{written_of};
ghost use Rattle.be_kept.specs.Files.{IsAtRest};
ghost use Rattle.be_kept.specs.History.{HasHistory};
ghost use Rattle.be_kept.specs.Rows.{EndsAt, after, entry_row, entry_tree, written};
ghost use Rattle.be_kept.specs.Writing.{Adds};

use crate::checksum::entry_sum;
use crate::entry::Entry;
use crate::tables::ENTRY;
use sqlite_trees::error::StoreError;
use sqlite_trees::store::Store;
use sqlite_value::row::Row;
use sqlite_value::value::ValueRef;
use std::alloc::AllocError;

/// Replaces `row` with the row of the entry with this number.
fn fill(row: &mut Row, number: u64, entry: &Entry) -> Result<(), AllocError>
    requires { number < 2 ^ 63 }
    ensures { OnOk result (row.new ≡ entry_row number (entry.now.pass, entry.now.batch.items)) }
{
    let batch = entry.batch.as_slice();
    let sum = entry_sum(number, entry.pass, batch);
    row.clear();
    row.push(ValueRef::Int(number as i64))?;
    row.push(ValueRef::Null)?;
    row.push(ValueRef::Int(i64::from(entry.pass)))?;
    row.push(ValueRef::Blob(batch))?;
    row.push(ValueRef::Int(i64::from(sum)))
}

/// Puts the entries after this number into the table, in the transaction that is open.
fn add<S: Store>(
    store: &mut S,
    row: &mut Row,
    number: u64,
    entries: &[Entry],
) -> Result<(), StoreError>
    requires table { IsClean (S.Store.view store.old)
        → (S.Store.view store.old).shape entry_tree ≡ Shape.Table }
    requires ends { IsClean (S.Store.view store.old)
        → EndsAt number ((S.Store.view store.old).trees entry_tree) }
    requires numbers { number + length entries.now < 2 ^ 63 }
    ensures ok { OnOk result (IsClean (S.Store.view store.new)
        → Adds (S.Store.view store.old) (S.Store.view store.new) number (written entries.now)) }
    ensures quiet { IsQuiet S.Store.view S.Store.faults S.Store.recovers S.Store.is_shielded
        store.old store.new }
    ensures schema { OnOk result (KeepsSchema (S.Store.view store.old) (S.Store.view store.new)) }
{
    let mut last = number;
    for entry in entries {
        last += 1;
        fill(row, last, entry)?;
        store.put(ENTRY, row)?;
    }
    Ok(())
}

/// Adds the entries in one commit. The first one gets the number after `number`, which must be the
/// number of the last entry. `row` is room for a row.
///
/// # Errors
/// `Full` if the disk is full, or an entry's number would exceed 2^63 - 1; otherwise the store's
/// error. All of the entries may be in the file after the next opening, or none of them.
pub fn append<S: Store>(
    store: &mut S,
    row: &mut Row,
    number: u64,
    entries: &[Entry],
) -> Result<(), StoreError>
    requires rest { IsClean (S.Store.view store.old) → IsAtRest (S.Store.view store.old) }
    requires ends { IsClean (S.Store.view store.old)
        → EndsAt number ((S.Store.view store.old).trees entry_tree) }
    ensures kept { OnOk result (IsClean (S.Store.view store.new)
        → (S.Store.view store.new).committed
        ≡ after number (written entries.now) (S.Store.view store.old).committed) }
    ensures only { OnOk result (IsClean (S.Store.view store.new) → (db : Trees)
        → S.Store.recovers store.new db
        → db ≡ after number (written entries.now) (S.Store.view store.old).committed) }
    ensures crash { IsClean (S.Store.view store.new) → (db : Trees) → S.Store.recovers store.new db
        → S.Store.recovers store.old db
        ⊎ (db ≡ after number (written entries.now) (S.Store.view store.old).committed) }
    ensures history { OnOk result (IsClean (S.Store.view store.new) → (past more : List Transaction)
        → HasHistory past (S.Store.view store.old).committed → length past ≡ number
        → written entries.now ≡ map written_of more
        → HasHistory (past ++ more) (S.Store.view store.new).committed) }
    ensures rest { OnOk result (IsClean (S.Store.view store.new)
        → IsAtRest (S.Store.view store.new)) }
    ensures ends { OnOk result (IsClean (S.Store.view store.new)
        → EndsAt (number + length entries.now) ((S.Store.view store.new).trees entry_tree)) }
    ensures clean { doubt (S.Store.view store.old).is_clean
        ≤ doubt (S.Store.view store.new).is_clean }
{
    if !may_number(number, entries.len()) {
        return Err(StoreError::Full);
    }
    if let Err(error) = add(store, row, number, entries) {
        store.rollback();
        return Err(error);
    }
    match store.commit() {
        Ok(()) => Ok(()),
        Err(error) => Err(error),
    }
}

/// Returns whether so many entries after this number have numbers that SQLite can store.
fn may_number(number: u64, count: usize) -> bool
    ensures { IsTrue result → number + count < 2 ^ 63 }
{
    match number.checked_add(count as u64) {
        Some(last) => last < 1 << 63,
        None => false,
    }
}
