//! Reading a file's entries.
ghost use Rattle.std.specs.Prelude.{◌≡◌, ◌≤◌, ◌+◌, IfOk, MatchResult, OnOk, length};
ghost use Rattle.sqlite_trees.specs.View.{IsClean, doubt};
ghost use Rattle.be_kept.specs.Rows.{EndsAt, entry_rows, entry_tree, written};
ghost use Rattle.be_kept.specs.Reading.{Finds, HasColumns, IsFirstDamage, OnlyReads};

use crate::checksum::entry_sum;
use crate::entry::Entry;
use crate::tables::ENTRY;
use sqlite_trees::error::StoreError;
use sqlite_trees::store::{Direction, Store};
use sqlite_value::row::Row;
use sqlite_value::value::ValueRef;
use std::alloc::{AllocError, AllocFailed, Global};

/// Why the entries couldn't be read.
#[derive(Clone, Copy, Debug, PartialEq, Eq)]
pub enum ReadError {
    /// The entry with this number isn't in the file as it was written: a byte of it has changed, or
    /// the entry is missing and a later one is there.
    Damaged(u64),
    /// The file couldn't be read.
    Store(StoreError),
}

impl From<StoreError> for ReadError {
    ghost use Rattle.std.specs.Prelude.{◌≡◌};
    ghost use Rattle.be_kept.specs.declared.reading.ReadError.TheVariants.{Store};

    ghost from_gives = { λ error e. e ≡ Store error };

    fn from(error: StoreError) -> ReadError {
        ReadError::Store(error)
    }
}

impl From<AllocError> for ReadError {
    ghost use Rattle.std.specs.Prelude.{◌≡◌};
    ghost use Rattle.be_kept.specs.declared.reading.ReadError.TheVariants.{Store};
    ghost use Rattle.sqlite_trees.specs.declared.error.StoreError.TheVariants.{OutOfMemory};

    ghost from_gives = { λ _ e. e ≡ Store OutOfMemory };

    fn from(_error: AllocError) -> ReadError {
        ReadError::Store(StoreError::OutOfMemory)
    }
}

impl<T: Drop> From<AllocFailed<T>> for ReadError {
    ghost use Rattle.std.specs.Prelude.{◌≡◌};
    ghost use Rattle.be_kept.specs.declared.reading.ReadError.TheVariants.{Store};
    ghost use Rattle.sqlite_trees.specs.declared.error.StoreError.TheVariants.{OutOfMemory};

    ghost from_gives = { λ _ e. e ≡ Store OutOfMemory };

    fn from(_error: AllocFailed<T>) -> ReadError {
        ReadError::Store(StoreError::OutOfMemory)
    }
}

/// Returns a row's numbers and bytes if it has the columns of an entry: its number, its pass, its
/// batch and its checksum.
fn columns(row: &Row) -> Option<(i64, i64, &[u8], i64)>
    ensures { HasColumns row.now result }
{
    if row.len() != 5 || !matches!(row.get(1), ValueRef::Null) {
        return None;
    }
    let (ValueRef::Int(number), ValueRef::Int(pass)) = (row.get(0), row.get(2)) else {
        return None;
    };
    let (ValueRef::Blob(batch), ValueRef::Int(sum)) = (row.get(3), row.get(4)) else {
        return None;
    };
    Some((number, pass, batch, sum))
}

/// Returns the entry with this number if this is its row. Returns `None` if it isn't the row of any
/// entry with this number.
fn entry_in(alloc: Global, number: u64, row: &Row) -> Result<Option<Entry>, AllocError>
    ensures { IfOk result (Finds number row.now) }
{
    let Some((found, pass, batch, sum)) = columns(row) else {
        return Ok(None);
    };
    let (Ok(found), Ok(pass)) = (u64::try_from(found), u32::try_from(pass)) else {
        return Ok(None);
    };
    if found != number || sum != i64::from(entry_sum(number, pass, batch)) {
        return Ok(None);
    }
    let batch = Vec::from_slice(alloc, batch)?;
    Ok(Some(Entry { pass, batch }))
}

/// Returns all entries of the file. `number` is the number of the last entry that the state
/// contains.
///
/// # Errors
/// `Damaged` names the first entry that isn't as it was written.
pub fn read_entries<S: Store>(
    store: &mut S,
    alloc: Global,
    number: u64,
) -> Result<Vec<Entry>, ReadError>
    ensures entries { IsClean (S.Store.view store.new) → MatchResult result
        (λ entries. (S.Store.view store.old).trees entry_tree
        ≡ entry_rows number (written entries.items))
        (IsFirstDamage number ((S.Store.view store.old).trees entry_tree)) }
    ensures ends { IfOk result (λ entries. IsClean (S.Store.view store.new)
        → EndsAt (number + length entries.items) ((S.Store.view store.new).trees entry_tree)) }
    ensures same { OnOk result (IsClean (S.Store.view store.new)
        → OnlyReads (S.Store.view store.old) (S.Store.view store.new)) }
    ensures clean { doubt (S.Store.view store.old).is_clean
        ≤ doubt (S.Store.view store.new).is_clean }
{
    let mut row = Row::new(alloc);
    let mut entries = Vec::new(alloc);
    let Some(first) = number.checked_add(1) else {
        return Err(ReadError::Store(StoreError::Full));
    };
    store.seek(0, ENTRY, &row, Direction::Forward)?;
    'rows: for next in first..1 << 63 {
        if !store.next(0, &mut row)? {
            return Ok(entries);
        }
        let Some(entry) = entry_in(alloc, next, &row)? else {
            return Err(ReadError::Damaged(next));
        };
        entries.push(entry)?;
    }
    Err(ReadError::Store(StoreError::Full))
}
