//! Reads the entries of several blocks in order.
ghost use Rattle.std.specs.Prelude.{◌≡◌, ◌<◌, ◌∷◌, length, IfOk};
ghost use Rattle.be_journal.specs.Blocks.{entries_of, AreFilled};
ghost use Rattle.be_journal.specs.Journal.{IsEntry};

use crate::Entry;
use crate::block_readers::BlockReader;
use crate::blocks::Block;
use std::alloc::{AllocError, Global};
use std::marker::Model;

/// A reader of the entries of several blocks. A contract sees the entries that haven't been read
/// yet.
#[derive(Drop)]
pub(crate) struct Reader<'a> {
    alloc: Global,
    /// The rest of the block that is being read.
    front: BlockReader<'a>,
    /// The blocks after that one.
    blocks: &'a [Block],
}

impl<'a> Model for Reader<'a> {
    ghost use Rattle.std.specs.Coded.{coded_list};
    ghost use Rattle.std.specs.Prelude.{List, ◌++◌};
    ghost use Rattle.be_journal.specs.Blocks.{entries_of, AreFilled};
    ghost use Rattle.be_journal.specs.Journal.{coded_entry};
    ghost use Rattle.be_journal.specs.declared.entries.Entry.{Entry as AnyEntry};

    ghost Value = { List AnyEntry };

    ghost coded = { coded_list coded_entry };

    ghost view = { λ r. r.front ++ entries_of r.blocks.now };

    ghost invariant = { λ r. AreFilled r.blocks.now };
}

impl<'a> Reader<'a> {
    /// A reader of these blocks' entries. Each block must have at least one entry.
    pub(crate) fn new(alloc: Global, blocks: &'a [Block]) -> Reader<'a>
        requires { AreFilled blocks.now }
        ensures { result ≡ entries_of blocks.now }
    {
        Reader {
            alloc,
            front: BlockReader::new(&[], 0),
            blocks,
        }
    }

    /// Reads the next entry, which must exist. It allocates the entry's two lists.
    pub(crate) fn next(&mut self) -> Result<Entry, AllocError>
        requires { 0 < length self.old }
        ensures next { IfOk result (λ entry. self.old ≡ entry ∷ self.new) }
        ensures is { IfOk result IsEntry }
    {
        if !self.front.is_empty() {
            return self.front.next(self.alloc);
        }
        let Some((block, rest)) = self.blocks.split_first() else {
            unreachable!()
        };
        self.front = block.reader();
        self.blocks = rest;
        self.front.next(self.alloc)
    }
}
