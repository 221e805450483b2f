//! The journal, its replay, and the check that it is legal.
//!
//! An entry can be appended in two ways. `push` allocates the memory that it needs. A writer that
//! mustn't fail after it has published allocates the memory first, with `reserve`, and then appends
//! with `push_reserved`, which allocates nothing.
ghost use Rattle.std.specs.Prelude.{◌≡◌, ◌≤◌, ◌<◌, ◌^◌, ◌↔◌, ℕ, length, get_or, true, IfOk, IfErr};
ghost use Rattle.std.specs.Prelude.{OnOk, Ok, [], ◌++◌, ◌+◌, vec_len, vec_capacity, All};
ghost use Rattle.std.specs.String.{string_bytes};
ghost use Rattle.be_value.specs.Refusal.{Answers};
ghost use Rattle.be_value.specs.declared.refusals.Refusal.TheVariants.{OutOfMemory};
ghost use Rattle.be_volume.specs.Ahead.{state_after};
ghost use Rattle.be_volume.specs.Volume.{steps};
ghost use Rattle.be_journal.specs.Journal as model;
ghost use Rattle.be_journal.specs.Text.{lines_from};

use crate::Entry;
use crate::blocks::{Block, append, block_of, make_spare};
use crate::readers::Reader;
use crate::texts::entry_line;
use crate::views::EntryView;
use be_value::Refusal;
use be_volume::{Done, Op, Volume};
use std::alloc::{AllocError, Global};
use std::marker::Model;

/// The accepted writes, in order. A contract sees a `Log`: the limit, the entries, and the number
/// of operations for which room is reserved.
///
/// The entries are stored in blocks of bytes, which never move.
#[derive(Drop)]
pub struct Journal {
    alloc: Global,
    limit: u64,
    /// The number of entries.
    len: u64,
    /// The blocks, each with at least one entry. The last block may have room for more.
    blocks: Vec<Block>,
    /// An empty block for an entry that doesn't fit into the last block.
    spare: Option<Block>,
    /// The number of operations for which room is reserved, or 0.
    reserved: usize,
}

impl Model for Journal {
    ghost use Rattle.be_journal.specs.Journal as model;

    ghost Value = { model.Log };

    ghost coded = { model.coded_log };

    ghost use Rattle.be_journal.specs.Room.{log_of, HasRoom};

    ghost view = { log_of };

    ghost invariant = { HasRoom };
}

impl Journal {
    /// A journal without entries that can hold up to `limit` entries. The limit is at most 2^32 -
    /// 1.
    pub fn new(alloc: Global, limit: u64) -> Journal
        requires { limit < 2 ^ 32 }
        ensures { result ≡ record { limit = limit; entries = []; reserved = 0 } }
    {
        Journal {
            alloc,
            limit,
            len: 0,
            blocks: Vec::new(alloc),
            spare: None,
            reserved: 0,
        }
    }

    /// The number of entries.
    pub fn len(&self) -> u64
        ensures len { result ≡ length self.now.entries }
        ensures limit { result ≤ self.now.limit }
    {
        self.len
    }

    /// A reader of the entries.
    fn reader(&self) -> Reader<'_>
        ensures { result ≡ self.now.entries }
    {
        Reader::new(self.alloc, &self.blocks)
    }

    /// A view of the entry with this index, counting from 0. It allocates nothing. To find the
    /// entry, it goes through the blocks, each of which holds about 20,000 small entries, and then
    /// skips at most 15 entries.
    pub fn get(&self, i: u64) -> EntryView<'_>
        requires { i < length self.now.entries }
        ensures { result ≡ get_or self.now.entries i result }
    {
        let (block, place) = block_of(&self.blocks, i);
        block.get(self.alloc, place)
    }

    /// Appends an entry, and cancels any reservation. The error is `CommitsSpent` if the journal is
    /// at its limit. Below the limit, the only error is `OutOfMemory`. After an error, the journal
    /// is unchanged and the entry is dropped.
    pub fn push(&mut self, entry: Entry) -> Result<(), Refusal>
        requires { model.IsEntry entry }
        ensures { model.Grows self.old (model.extended self.old entry) result self.new }
    {
        let ops = entry.ops.as_slice();
        self.reserve(ops.len())?;
        self.push_reserved(entry.by, ops, entry.dones.as_slice());
        Ok(())
    }

    /// Reserves room for one entry with `count` operations, 1 to 64, replacing any earlier
    /// reservation. The error is `CommitsSpent` if the journal is at its limit. Below the limit,
    /// the only error is `OutOfMemory`. After an error, the journal is unchanged.
    pub fn reserve(&mut self, count: usize) -> Result<(), Refusal>
        requires some { 1 ≤ count }
        requires few { count ≤ 64 }
        ensures { model.Grows self.old (model.with_room self.old count) result self.new }
    {
        if self.len >= self.limit {
            return Err(Refusal::CommitsSpent);
        }
        self.blocks.reserve(1)?;
        make_spare(self.alloc, &self.blocks, &mut self.spare, count)?;
        self.reserved = count;
        Ok(())
    }

    /// Appends an entry to the room that was reserved for it since the last entry. It allocates
    /// nothing and always succeeds.
    pub fn push_reserved(&mut self, by: u64, ops: &[Op], dones: &[Done])
        requires some { 1 ≤ length ops.now }
        requires few { length ops.now ≤ 64 }
        requires ops { length ops.now ≡ self.old.reserved }
        requires dones { length dones.now ≡ self.old.reserved }
        ensures { self.new ≡ model.extended self.old
            (record { by = by; ops = ops.now; dones = dones.now }) }
    {
        append(&mut self.blocks, &mut self.spare, by, ops, dones);
        self.len += 1;
        self.reserved = 0;
    }

    /// The volume after all entries, in order. If the volume refuses an entry, no part of that
    /// entry takes effect. The only error is `OutOfMemory`. The cost depends on how much the
    /// entries change.
    pub fn replay(&self) -> Result<Volume, Refusal>
        ensures { Answers (λ volume. volume) result (Ok (model.replay self.now.entries)) }
    {
        let mut volume = Volume::new(self.alloc);
        let mut reader = self.reader();
        for _ in 0..self.len {
            let entry = reader.next()?;
            volume = enter(volume, &entry)?;
        }
        Ok(volume)
    }

    /// The journal's text. It has a line for each entry, numbered from 1. A line contains the pass,
    /// the operations as script lines with quoted names, and their outcomes, for example `2 by 0
    /// set 1 "size" LONG 5 -> ok`. The only error is `OutOfMemory`.
    pub fn text(&self) -> Result<String, Refusal>
        ensures { Answers string_bytes result (Ok (lines_from 1 self.now.entries)) }
    {
        let mut text = String::new(self.alloc);
        let mut reader = self.reader();
        for i in 0..self.len {
            let entry = reader.next()?;
            let line = entry_line(self.alloc, i + 1, &entry)?;
            text.push_str(line.as_str())?;
        }
        Ok(text)
    }

    /// Whether the journal is legal: no entry is refused, and each has the outcomes that the volume
    /// gives after the entries before it. The only error is `OutOfMemory`. The cost depends on how
    /// much the entries change.
    pub fn check(&self) -> Result<bool, Refusal>
        ensures ok { IfOk result (λ legal. (legal ≡ true) ↔ model.IsLegal self.now.entries) }
        ensures err { IfErr result (λ e. e ≡ OutOfMemory) }
    {
        let mut reached = Volume::new(self.alloc);
        let mut reader = self.reader();
        for _ in 0..self.len {
            let entry = reader.next()?;
            let (next, agrees) = enter_if_agreed(reached, &entry)?;
            if !agrees {
                return Ok(false);
            }
            reached = next;
        }
        Ok(true)
    }
}

/// The volume after an entry, or the unchanged volume if it refuses the operations.
fn enter(volume: Volume, entry: &Entry) -> Result<Volume, AllocError>
    requires entry { model.IsEntry entry.now }
    requires fits { volume.next + 64 < 2 ^ 64 }
    ensures after { IfOk result (λ v. v ≡ state_after volume entry.now.ops) }
    ensures grows { IfOk result (λ v. v.next ≤ volume.next + 64) }
{
    let (volume, _answer) = volume.replay(entry.ops.as_slice())?;
    Ok(volume)
}

/// The volume after an entry, and whether the entry has the outcomes that the volume gives.
fn enter_if_agreed(volume: Volume, entry: &Entry) -> Result<(Volume, bool), AllocError>
    requires entry { model.IsEntry entry.now }
    requires fits { volume.next + 64 < 2 ^ 64 }
    ensures so { IfOk result (λ r. r.1 ≡ true → steps volume entry.now.ops
        ≡ Ok (r.0, entry.now.dones)) }
    ensures is { IfOk result (λ r. model.Agrees volume entry.now → r.1 ≡ true) }
    ensures grows { IfOk result (λ r. r.0.next ≤ volume.next + 64) }
{
    let (volume, answer) = volume.replay(entry.ops.as_slice())?;
    match answer {
        Ok(dones) => {
            let agrees = dones.as_slice() == entry.dones.as_slice();
            Ok((volume, agrees))
        }
        Err(_) => Ok((volume, false)),
    }
}

/// The index, counting from 0, of the first entry whose outcomes aren't those that the volume gives
/// after the entries before it. It is `None` if and only if the entries are a legal journal. The
/// cost depends on how much the entries change.
pub fn first_wrong(alloc: Global, entries: &[Entry]) -> Result<Option<u64>, AllocError>
    requires are { All model.IsEntry entries.now }
    requires few { length entries.now < 2 ^ 32 }
    ensures { IfOk result (λ place. model.IsFirstWrong entries.now place) }
{
    let mut reached = Volume::new(alloc);
    let mut place = 0;
    for entry in entries {
        let (next, agrees) = enter_if_agreed(reached, entry)?;
        if !agrees {
            return Ok(Some(place));
        }
        reached = next;
        place += 1;
    }
    Ok(None)
}

/// The volume after these entries, in order. As in `Journal::replay`, if the volume refuses an
/// entry, no part of that entry takes effect. The cost depends on how much the entries change.
pub fn replay(alloc: Global, entries: &[Entry]) -> Result<Volume, AllocError>
    requires are { All model.IsEntry entries.now }
    requires few { length entries.now < 2 ^ 32 }
    ensures { IfOk result (λ volume. volume ≡ model.replay entries.now) }
{
    let mut volume = Volume::new(alloc);
    for entry in entries {
        volume = enter(volume, entry)?;
    }
    Ok(volume)
}
