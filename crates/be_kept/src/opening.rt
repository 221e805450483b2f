//! Opening a file, and what a crash leaves of one.
ghost use Rattle.std.specs.Prelude.{◌≡◌, ◌⊎◌, ◌++◌, IfOk, IsTrue, List, OnOk, length, map};
ghost use Rattle.sqlite_store.specs.FileStore.{view};
ghost use Rattle.sqlite_trees.specs.View.{IsClean};
ghost use Rattle.sqlite_wal.specs.Files.{seen_image};
ghost use Rattle.be_journal.specs.declared.entries.Entry.{Entry as Transaction};
ghost use Rattle.be_kept.specs.Batches.{written_of};
ghost use Rattle.be_kept.specs.Files.{IsAtRest, HasTrees};
ghost use Rattle.be_kept.specs.History.{HasHistory};
ghost use Rattle.be_kept.specs.Rows.{EndsAt, after, entry_tree, written};

use crate::entry::Entry;
use crate::tables::unopened;
use crate::writing::append;
use sqlite_disk::{Disk, Files};
use sqlite_store::{FileStore, OpenError, Unopened};
use sqlite_trees::error::StoreError;
use sqlite_trees::store::{Reopen, Store};
use sqlite_value::row::Row;
use std::alloc::Global;

/// The files that couldn't be opened.
#[derive(Drop)]
pub enum Unused<D: Disk> {
    /// Nothing was done with them.
    Files(Files<D>),
    /// They can be tried again.
    Unopened(Unopened<D>),
}

/// Opens a file that exists, as a crash may have left it. The store contains exactly what the two
/// files stand for. `seed` should be random: the WAL's salts are drawn from it.
///
/// # Errors
/// The file isn't an SQLite database with these four tables and pages of 4 KiB, it is damaged, or
/// it can't be read.
pub fn open<D: Disk>(
    alloc: Global,
    files: Files<D>,
    seed: u64,
) -> Result<FileStore<D>, (OpenError, Unused<D>)>
    requires wal { IsTrue (D.Disk.is_usable files.log) }
    requires database { IsTrue (D.Disk.is_usable files.db) }
    ensures found { IfOk result (λ it. IsClean (view it)
        → HasTrees (seen_image D.Disk files.log files.db) (view it).committed) }
    ensures rest { IfOk result (λ it. IsClean (view it) → IsAtRest (view it)) }
{
    let it = match unopened(alloc, files, seed) {
        Ok(it) => it,
        Err(files) => return Err((OpenError::OutOfMemory, Unused::Files(files))),
    };
    match it.open_numbered() {
        Ok(store) => Ok(store),
        Err((error, left)) => Err((error, Unused::Unopened(left))),
    }
}

/// A law: entries are added, whether that succeeds or not, then the machine crashes and the file is
/// opened again. All entries from before are there, and of the new ones all or none: all if
/// `append` returned `Ok`, which this function then returns as `true`.
///
/// # Errors
/// The file couldn't be opened again.
pub fn append_and_crash<S: Reopen>(
    store: &mut S,
    row: &mut Row,
    number: u64,
    entries: &[Entry],
) -> Result<bool, StoreError>
    requires rest { IsClean (S.Store.view store.old) → IsAtRest (S.Store.view store.old) }
    requires open { IsClean (S.Store.view store.old) → IsTrue (S.Store.view store.old).is_open }
    requires ends { IsClean (S.Store.view store.old)
        → EndsAt number ((S.Store.view store.old).trees entry_tree) }
    ensures found { OnOk result (IsClean (S.Store.view store.new)
        → ((S.Store.view store.new).committed ≡ (S.Store.view store.old).committed)
        ⊎ ((S.Store.view store.new).committed
        ≡ after number (written entries.now) (S.Store.view store.old).committed)) }
    ensures history { OnOk result (IsClean (S.Store.view store.new) → (past more : List Transaction)
        → HasHistory past (S.Store.view store.old).committed → length past ≡ number
        → written entries.now ≡ map written_of more
        → HasHistory past (S.Store.view store.new).committed
        ⊎ HasHistory (past ++ more) (S.Store.view store.new).committed) }
    ensures kept { IfOk result (λ done. IsTrue done → IsClean (S.Store.view store.new)
        → (S.Store.view store.new).committed
        ≡ after number (written entries.now) (S.Store.view store.old).committed) }
{
    let done = append(store, row, number, entries).is_ok();
    store.crash_and_reopen()?;
    Ok(done)
}
