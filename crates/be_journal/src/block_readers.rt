//! Reads the entries of one block in order.
ghost use Rattle.std.specs.Prelude.{◌≡◌, ◌<◌, ◌∷◌, length, drop, nat_eq, IfOk};
ghost use Rattle.be_journal.specs.Blocks.{entries_at, AreEntries};
ghost use Rattle.be_journal.specs.Journal.{IsEntry};

use crate::views::EntryView;
use crate::{Entry, Items};
use be_entry_bytes::{read_entry, read_head, skip_entry};
use std::alloc::{AllocError, Global};
use std::marker::Model;

/// A reader of a block's entries. A contract sees the entries that haven't been read yet.
#[derive(Drop)]
pub(crate) struct BlockReader<'a> {
    /// The bytes of the entries that haven't been read yet, and the number of these entries.
    bytes: &'a [u8],
    left: u64,
}

impl<'a> Model for BlockReader<'a> {
    ghost use Rattle.std.specs.Coded.{coded_list};
    ghost use Rattle.std.specs.Prelude.{List};
    ghost use Rattle.be_journal.specs.Blocks.{entries_at, AreEntries};
    ghost use Rattle.be_journal.specs.Journal.{coded_entry};
    ghost use Rattle.be_journal.specs.declared.entries.Entry.{Entry as AnyEntry};

    ghost Value = { List AnyEntry };

    ghost coded = { coded_list coded_entry };

    ghost view = { λ r. entries_at r.left r.bytes.now };

    ghost invariant = { λ r. AreEntries r.left r.bytes.now };
}

impl<'a> BlockReader<'a> {
    /// A reader of the `left` entries that these bytes encode.
    pub(crate) fn new(bytes: &'a [u8], left: u64) -> BlockReader<'a>
        requires { AreEntries left bytes.now }
        ensures { result ≡ entries_at left bytes.now }
    {
        BlockReader { bytes, left }
    }

    /// Whether all entries have been read.
    pub(crate) fn is_empty(&self) -> bool
        ensures { result ≡ nat_eq (length self.now) 0 }
    {
        self.left == 0
    }

    /// Skips the next entry, which must exist. It allocates nothing.
    pub(crate) fn skip(&mut self)
        requires { 0 < length self.old }
        ensures { self.new ≡ drop 1 self.old }
    {
        let Some(rest) = skip_entry(self.bytes) else {
            unreachable!()
        };
        self.bytes = rest;
        self.left -= 1;
    }

    /// A view of the next entry, which must exist. It allocates nothing.
    pub(crate) fn view(&self, alloc: Global) -> EntryView<'a>
        requires { 0 < length self.now }
        ensures { self.now ≡ result ∷ drop 1 self.now }
    {
        let Some((by, count, bytes)) = read_head(self.bytes) else {
            unreachable!()
        };
        EntryView::new(alloc, by, count, bytes)
    }

    /// Reads the next entry, which must exist. It allocates the entry's two lists.
    pub(crate) fn next(&mut self, alloc: Global) -> Result<Entry, AllocError>
        requires { 0 < length self.old }
        ensures next { IfOk result (λ entry. self.old ≡ entry ∷ self.new) }
        ensures is { IfOk result IsEntry }
    {
        let read = read_entry(alloc, self.bytes)?;
        let Some((by, ops, dones, rest)) = read else {
            unreachable!()
        };
        self.bytes = rest;
        self.left -= 1;
        Ok(Entry {
            by,
            ops: Items::from_vec(ops),
            dones: Items::from_vec(dones),
        })
    }
}
