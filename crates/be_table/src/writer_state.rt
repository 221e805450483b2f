//! The writer state, which is in the slot while no pass holds the lock.
//!
//! The pass that holds the lock owns the writer state and changes it as plain data. It contains no
//! volume: the pages are the volume.
ghost use Rattle.std.specs.Prelude.{◌≡◌, ◌≤◌, ℕ, count_by, map, length};
ghost use Rattle.be_table.specs.Imports.{extended, is_retired, places, published_place, retired_at};
ghost use Rattle.be_table.specs.Imports.{swept_place, undone_place, with_room, Grows};

use be_journal::Journal;
use be_paged::Version;
use be_pages::PagePool;
use be_value::Refusal;
use be_volume::{Done, Op};
use std::alloc::{AllocError, Global};

/// The journal, and the places of the pages of the current and older versions.
#[derive(Drop)]
pub struct WriterState {
    pub journal: Journal,
    /// The version page of the current version.
    pub page: u64,
    /// The place of each page.
    pub pool: PagePool,
    /// How many pages the last whole scan left retired.
    pub left: usize,
    /// A buffer for a version's contents, which a write takes out and puts back.
    pub space: Option<Box<Version>>,
}

/// Allocates a buffer for a version's contents.
pub(crate) fn first_space(alloc: Global) -> Result<Box<Version>, AllocError> {
    match Box::new(alloc, Version::new()) {
        Ok(space) => Ok(space),
        Err(_) => Err(AllocError),
    }
}

impl WriterState {
    /// Makes room for one entry of `count` operations.
    pub fn reserve(&mut self, count: usize) -> Result<(), Refusal>
        requires { (1 ≤ count) × (count ≤ 64) }
        ensures journal { Grows self.old.journal (with_room self.old.journal count) result
            self.new.journal }
        ensures others { (self.new.page ≡ self.old.page) × (self.new.pool ≡ self.old.pool)
            × (self.new.left ≡ self.old.left) }
    {
        self.journal.reserve(count)
    }

    /// Frees the pages that the write has taken, and keeps those that it has given up.
    pub fn rest(&mut self)
        ensures { (self.new.journal ≡ self.old.journal) × (self.new.page ≡ self.old.page)
            × (places self.new.pool ≡ map undone_place (places self.old.pool))
            × (self.new.left ≡ self.old.left) }
    {
        self.pool.undo();
    }

    /// Frees the pages that were retired with a number below `least`.
    pub fn sweep(&mut self, least: u64)
        ensures kept { (self.new.journal ≡ self.old.journal) × (self.new.page ≡ self.old.page)
            × (places self.new.pool ≡ map (swept_place least) (places self.old.pool)) }
        ensures left { self.new.left ≡ count_by is_retired (places self.new.pool) }
    {
        self.pool.sweep(least);
        self.left = self.pool.retired();
    }

    /// Appends an entry with this version page. The filled pages become pages of the current
    /// version, and those given up are retired. There must be room for the entry.
    pub fn append(&mut self, by: u64, ops: &[Op], dones: &[Done], page: u64)
        requires some { (1 ≤ length ops.now) × (length ops.now ≤ 64) }
        requires room { (length ops.now ≡ self.old.journal.reserved)
            × (length dones.now ≡ self.old.journal.reserved) }
        requires newest { (q : ℕ) → retired_at (places self.old.pool) q
            ≤ length self.old.journal.entries }
        ensures journal { self.new.journal
            ≡ extended self.old.journal (record { by = by; ops = ops.now; dones = dones.now }) }
        ensures page { self.new.page ≡ page }
        ensures left { self.new.left ≡ self.old.left }
        ensures places { places self.new.pool
            ≡ map (published_place (length self.old.journal.entries)) (places self.old.pool) }
    {
        let version = self.journal.len();
        self.pool.publish(version);
        self.journal.push_reserved(by, ops, dones);
        self.page = page;
    }

    /// Returns the journal, and drops the pool and the version page.
    pub fn into_journal(self) -> Journal
        ensures { result ≡ self.journal }
    {
        let WriterState {
            journal,
            page: _,
            pool: _,
            left: _,
            space: _,
        } = self;
        journal
    }
}
