//! Views of entries in a journal.
//!
//! A journal stores an entry as bytes. A view reads the pass and the number of operations when it
//! is created. It decodes each operation, with its outcome, on demand. None of this allocates
//! memory.
ghost use Rattle.std.specs.Iterator.{YieldsFirst, item_count};
ghost use Rattle.std.specs.Prelude.{◌≡◌, IfOk, IsSome, length, map};
ghost use Rattle.be_entry_bytes.specs.Decoding.{steps_at};
ghost use Rattle.be_journal.specs.Blocks.{steps_in};

use crate::{Entry, Items};
use be_entry_bytes::{read_step, read_steps};
use be_volume::{Done, Op};
use std::alloc::{AllocError, Global};
use std::marker::Model;

/// A view of an entry, which reads the journal's own bytes. A contract sees the entry.
#[derive(Drop)]
pub struct EntryView<'a> {
    alloc: Global,
    by: u64,
    /// The number of operations.
    count: u64,
    /// The bytes from the first operation onward.
    bytes: &'a [u8],
}

impl<'a> Model for EntryView<'a> {
    ghost use Rattle.std.specs.Prelude.{IsSome, map};
    ghost use Rattle.be_entry_bytes.specs.Decoding.{steps_at};
    ghost use Rattle.be_journal.specs.Blocks.{steps_in};
    ghost use Rattle.be_journal.specs.Journal.{coded_entry};
    ghost use Rattle.be_journal.specs.declared.entries.Entry.{Entry as AnyEntry};

    ghost Value = { AnyEntry };

    ghost coded = { coded_entry };

    ghost view = { λ v. record {
      by = v.by;
      ops = map (λ s. s.0) (steps_in v.count v.bytes.now);
      dones = map (λ s. s.1) (steps_in v.count v.bytes.now);
    } };

    ghost invariant = { λ v. IsSome (steps_at v.count v.bytes.now) };
}

impl<'a> EntryView<'a> {
    /// A view of an entry that this pass made, with `count` operations. The bytes begin with the
    /// first operation.
    pub(crate) fn new(alloc: Global, by: u64, count: u64, bytes: &'a [u8]) -> EntryView<'a>
        requires { IsSome (steps_at count bytes.now) }
        ensures { result ≡ record {
          by = by;
          ops = map (λ s. s.0) (steps_in count bytes.now);
          dones = map (λ s. s.1) (steps_in count bytes.now);
        } }
    {
        EntryView {
            alloc,
            by,
            count,
            bytes,
        }
    }

    /// The number of the pass that made the write.
    pub fn by(&self) -> u64
        ensures { result ≡ self.now.by }
    {
        self.by
    }

    /// The number of operations.
    pub fn len(&self) -> u64
        ensures { result ≡ length self.now.ops }
    {
        self.count
    }

    /// The entry's operations in order, each with its outcome. Each is decoded on demand.
    pub fn steps(&self) -> Steps<'a>
        ensures ops { map (λ s. s.0) result ≡ self.now.ops }
        ensures dones { map (λ s. s.1) result ≡ self.now.dones }
    {
        Steps {
            left: self.count,
            bytes: self.bytes,
        }
    }

    /// A separate copy of the entry. Its two lists are allocated with the journal's allocator.
    pub fn to_entry(&self) -> Result<Entry, AllocError>
        ensures { IfOk result (λ entry. entry ≡ self.now) }
    {
        let read = read_steps(self.alloc, self.count, self.bytes)?;
        let Some((ops, dones, _rest)) = read else {
            unreachable!()
        };
        Ok(Entry {
            by: self.by,
            ops: Items::from_vec(ops),
            dones: Items::from_vec(dones),
        })
    }
}

/// The operations of an entry that haven't been returned yet, each with its outcome. A contract
/// sees the list of pairs.
#[derive(Drop)]
pub struct Steps<'a> {
    left: u64,
    /// The bytes from the next operation onward.
    bytes: &'a [u8],
}

impl<'a> Model for Steps<'a> {
    ghost use Rattle.std.specs.Coded.{coded_list, coded×};
    ghost use Rattle.std.specs.Prelude.{◌≡◌, List, length};
    ghost use Rattle.be_journal.specs.Blocks.{steps_in};
    ghost use Rattle.be_volume.specs.Coded.{coded_op, coded_done};
    ghost use Rattle.be_volume.specs.declared.ops.Done.{Done as AnyDone};
    ghost use Rattle.be_volume.specs.declared.ops.Op.{Op as AnyOp};

    ghost Value = { List (AnyOp × AnyDone) };

    ghost coded = { coded_list (coded× coded_op coded_done) };

    ghost view = { λ s. steps_in s.left s.bytes.now };

    ghost invariant = { λ s. length (steps_in s.left s.bytes.now) ≡ s.left };
}

impl Iterator for Steps<'_> {
    type Item = (Op, Done);

    ghost next_gives = { YieldsFirst (λ s. s) };

    ghost remaining = { item_count (λ s. s) };

    fn next(&mut self) -> Option<(Op, Done)> {
        if self.left == 0 {
            return None;
        }
        let Some((op, done, rest)) = read_step(self.bytes) else {
            unreachable!()
        };
        self.left -= 1;
        self.bytes = rest;
        Some((op, done))
    }
}
