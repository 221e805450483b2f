//! Blocks of entries, stored as bytes.
//!
//! A block is allocated at its full size, so its contents never move. No entry is split across
//! blocks.
ghost use Rattle.std.specs.Prelude.{◌≡◌, ◌+◌, ◌≤◌, ◌<◌, ◌^◌, ◌++◌, ◌∷◌, [], true, false, length};
ghost use Rattle.std.specs.Prelude.{get_or, nat_le, vec_len, vec_capacity, IfOk, OnOk, IsSome};
ghost use Rattle.be_entry_bytes.specs.Encoding.{most_bytes as longest};
ghost use Rattle.be_journal.specs.Blocks.{entries_of, has_room, with_place, AreFilled, IsSpare};
ghost use Rattle.be_journal.specs.declared.entries.Entry.{Entry as AnyEntry};

use crate::block_readers::BlockReader;
use crate::views::EntryView;
use be_entry_bytes::{most_bytes, write_entry};
use be_volume::{Done, Op};
use std::alloc::{AllocError, Global};
use std::marker::Model;

/// The size of a block in bytes: 256 KiB.
const ROOM: usize = 1 << 18;

/// The maximum number of offsets that a block keeps: one for every 16 entries, each of which takes
/// at least four bytes.
const PLACES: usize = ROOM / 64;

/// Entries, one after another. A contract sees the entries and the number of free bytes.
#[derive(Drop)]
pub(crate) struct Block {
    /// The number of entries.
    count: u64,
    bytes: Vec<u8>,
    /// The offset of every 16th entry, beginning with the first.
    places: Vec<usize>,
}

impl Model for Block {
    ghost use Rattle.std.specs.Prelude.{◌-◌, nat_lt, vec_len, vec_capacity, if◌then◌else◌};
    ghost use Rattle.be_journal.specs.Blocks.{Filled, coded_filled, entries_at, AreEntries};
    ghost use Rattle.be_journal.specs.Blocks.{ArePlaces};

    ghost Value = { Filled };

    ghost coded = { coded_filled };

    ghost view = { λ b. record {
      entries = entries_at b.count b.bytes.items;
      room = if nat_lt (vec_len b.places) (vec_capacity b.places)
          then vec_capacity b.bytes - vec_len b.bytes else 0;
    } };

    ghost invariant = { λ b. AreEntries b.count b.bytes.items
        × ArePlaces b.places.items b.count b.bytes.items };
}

impl Block {
    /// A block without entries, which has room for any single entry.
    pub(crate) fn new(alloc: Global) -> Result<Block, AllocError>
        ensures empty { IfOk result (λ block. block.entries ≡ []) }
        ensures room { IfOk result (λ block. longest 64 ≤ block.room) }
    {
        let bytes = Vec::with_capacity(alloc, ROOM)?;
        let places = Vec::with_capacity(alloc, PLACES)?;
        Ok(Block {
            count: 0,
            bytes,
            places,
        })
    }

    /// The number of entries.
    pub(crate) fn len(&self) -> u64
        ensures { result ≡ length self.now.entries }
    {
        self.count
    }

    /// Whether there is room for any entry with this many operations.
    pub(crate) fn has_room(&self, count: usize) -> bool
        requires { count ≤ 64 }
        ensures { result ≡ nat_le (longest count) self.now.room }
    {
        self.places.len() < self.places.capacity()
            && most_bytes(count) <= self.bytes.capacity() - self.bytes.len()
    }

    /// Appends an entry, for which there must be room. It allocates nothing.
    pub(crate) fn push(&mut self, by: u64, ops: &[Op], dones: &[Done])
        requires some { 1 ≤ length ops.now }
        requires few { length ops.now ≤ 64 }
        requires each { length dones.now ≡ length ops.now }
        requires room { longest (length ops.now) ≤ self.old.room }
        requires fits { length self.old.entries + 1 < 2 ^ 64 }
        ensures { self.new.entries ≡ self.old.entries
            ++ record { by = by; ops = ops.now; dones = dones.now } ∷ [] }
    {
        keep_place(&mut self.places, self.count, self.bytes.len());
        write_entry(&mut self.bytes, by, ops, dones);
        self.count += 1;
    }

    /// A reader of the entries.
    pub(crate) fn reader(&self) -> BlockReader<'_>
        ensures { result ≡ self.now.entries }
    {
        BlockReader::new(self.bytes.as_slice(), self.count)
    }

    /// The entry with this index in the block, counting from 0. It skips at most 15 entries to find
    /// it.
    pub(crate) fn get(&self, alloc: Global, i: u64) -> EntryView<'_>
        requires { i < length self.now.entries }
        ensures { result ≡ get_or self.now.entries i result }
    {
        let before = i / 16;
        let place = self.places[before as usize];
        let mut reader = BlockReader::new(&self.bytes[place..], self.count - 16 * before);
        for _ in 0..i % 16 {
            reader.skip();
        }
        reader.view(alloc)
    }
}

/// Keeps the offset of the next entry if that entry begins a new group of 16.
fn keep_place(places: &mut Vec<usize>, count: u64, place: usize)
    requires { vec_len places.old < vec_capacity places.old }
    ensures { places.new.items ≡ with_place places.old.items count place }
{
    if count / 16 == places.len() as u64 {
        places.push_reserved(place);
    }
}

/// The block that holds the entry with this index, counting from 0, and the entry's index in that
/// block.
pub(crate) fn block_of(blocks: &[Block], i: u64) -> (&Block, u64)
    requires { i < length (entries_of blocks.now) }
    ensures within { result.1 < length result.0.now.entries }
    ensures is { (e : AnyEntry) → get_or result.0.now.entries result.1 e
        ≡ get_or (entries_of blocks.now) i e }
{
    let mut left = i;
    for block in blocks {
        if left < block.len() {
            return (block, left);
        }
        left -= block.len();
    }
    unreachable!()
}

/// Whether the last block has room for any entry with this many operations.
fn last_has_room(blocks: &[Block], count: usize) -> bool
    requires { count ≤ 64 }
    ensures { result ≡ has_room count blocks.now }
{
    match blocks.last() {
        Some(block) => block.has_room(count),
        None => false,
    }
}

/// Makes room for any entry with this many operations, either in the last block or in a spare
/// block.
pub(crate) fn make_spare(
    alloc: Global,
    blocks: &[Block],
    spare: &mut Option<Block>,
    count: usize,
) -> Result<(), AllocError>
    requires few { count ≤ 64 }
    requires spare { IsSpare spare.old }
    ensures spare { IsSpare spare.new }
    ensures room { OnOk result (has_room count blocks.now ≡ false → IsSome spare.new) }
    ensures stays { IsSome spare.old → IsSome spare.new }
{
    if spare.is_some() || last_has_room(blocks, count) {
        return Ok(());
    }
    *spare = Some(Block::new(alloc)?);
    Ok(())
}

/// Appends an entry to the last block, which must have room for it.
fn push_last(blocks: &mut [Block], by: u64, ops: &[Op], dones: &[Done])
    requires some { 1 ≤ length ops.now }
    requires few { length ops.now ≤ 64 }
    requires each { length dones.now ≡ length ops.now }
    requires room { has_room (length ops.now) blocks.old ≡ true }
    requires fits { length (entries_of blocks.old) + 1 < 2 ^ 64 }
    ensures entries { entries_of blocks.new ≡ entries_of blocks.old
        ++ record { by = by; ops = ops.now; dones = dones.now } ∷ [] }
    ensures filled { AreFilled blocks.old → AreFilled blocks.new }
{
    let last = blocks.len() - 1;
    blocks[last].push(by, ops, dones);
}

/// Appends an entry to the last block if it has room, and otherwise to the spare block, which then
/// becomes the last block. It allocates nothing.
pub(crate) fn append(
    blocks: &mut Vec<Block>,
    spare: &mut Option<Block>,
    by: u64,
    ops: &[Op],
    dones: &[Done],
)
    requires some { 1 ≤ length ops.now }
    requires few { length ops.now ≤ 64 }
    requires each { length dones.now ≡ length ops.now }
    requires filled { AreFilled blocks.old.items }
    requires spare { IsSpare spare.old }
    requires room { has_room (length ops.now) blocks.old.items ≡ false → IsSome spare.old }
    requires list { vec_len blocks.old < vec_capacity blocks.old }
    requires fits { length (entries_of blocks.old.items) + 1 < 2 ^ 64 }
    ensures entries { entries_of blocks.new.items ≡ entries_of blocks.old.items
        ++ record { by = by; ops = ops.now; dones = dones.now } ∷ [] }
    ensures filled { AreFilled blocks.new.items }
    ensures spare { IsSpare spare.new }
{
    if last_has_room(blocks, ops.len()) {
        push_last(blocks, by, ops, dones);
        return;
    }
    let Some(mut block) = spare.take() else {
        unreachable!()
    };
    block.push(by, ops, dones);
    blocks.push_reserved(block);
}
