//! A volume with its journal in one thread, as another server of scripts.
ghost use Rattle.std.specs.Prelude.{◌≡◌, ◌≤◌, ◌<◌, ◌^◌, OnOk, IfErr, IsSome, true, length};
ghost use Rattle.std.specs.Prelude.{unwrap_or};
ghost use Rattle.be_value.specs.Refusal.{Answers};
ghost use Rattle.be_value.specs.declared.refusals.Refusal.TheVariants.{OutOfMemory};
ghost use Rattle.be_script_language.specs.Page.{page_found};
ghost use Rattle.be_script_runner.specs.Pages.{last_pair, page_read};
ghost use Rattle.be_script_runner.specs.Pages as spec;
ghost use Rattle.be_order.specs.Ordered.{cursor_bytes};
ghost use Rattle.be_script_runner.specs.Store.{start, viewed, MayWrite};

use arrayvec::ArrayVec;
use be_journal::Journal;
use be_journal_text::volume_text;
use be_order::{Order, ordered_into};
use be_plan::{Cover, choose_from, volume_source};
use be_query::Query;
use be_script_language::{Page, Paging};
use be_script_runner::Server;
use be_value::{Kind, Name, Refusal, Value};
use be_volume::{Done, Op, Volume};
use std::alloc::{AllocError, Global};
use std::marker::Model;

/// A volume and its journal, in one thread.
#[derive(Drop)]
pub struct PlainStore {
    alloc: Global,
    volume: Volume,
    journal: Journal,
    /// How many writes were accepted before the pinned version.
    pin: Option<u64>,
    /// The pinned version's volume, if a write has been tried since.
    kept: Option<Volume>,
}

impl Model for PlainStore {
    ghost use Rattle.std.specs.Prelude.{unwrap_or};
    ghost use Rattle.std.specs.Option.{option_map};
    ghost use Rattle.be_script_runner.specs.Store.{Store, coded_store};

    ghost Value = { Store };

    ghost coded = { coded_store };

    ghost view = { λ s. record {
      journal = s.journal.entries;
      volume = s.volume;
      limit = s.journal.limit;
      passes = 1;
      pass = 0;
      pin = option_map (λ n. record { number = n; volume = unwrap_or s.kept s.volume }) s.pin;
    } };

    ghost use Rattle.std.specs.Prelude.{◌≤◌, ◌+◌, ◌*◌, ◌^◌, ◌<◌, length};

    ghost invariant = { λ s. (s.volume.next ≤ 1 + 64 * length s.journal.entries)
        × (length s.journal.entries ≤ s.journal.limit) × (s.journal.limit < 2 ^ 32) };
}

impl PlainStore {
    /// A store before its first write. It takes this many writes.
    pub fn new(alloc: Global, commits: u64) -> PlainStore
        requires { commits < 2 ^ 32 }
        ensures { result ≡ start commits }
    {
        PlainStore {
            alloc,
            volume: Volume::new(alloc),
            journal: Journal::new(alloc, commits),
            pin: None,
            kept: None,
        }
    }

    /// Writes a list of operations. An error of the volume comes before one of the journal. The
    /// journal makes room before the volume is changed.
    fn write(&mut self, ops: &[Op]) -> Result<(u64, ArrayVec<Done, 64>), Refusal>
        requires some { 1 ≤ length ops.now }
        requires few { length ops.now ≤ 64 }
        ensures { MayWrite (λ dones. dones.items) self.old ops.now result self.new }
    {
        if let Some(refusal) = self.volume.refusal(ops) {
            return Err(refusal);
        }
        self.journal.reserve(ops.len())?;
        keep(self.pin.is_some(), &mut self.kept, &self.volume)?;
        let dones = self.volume.apply(ops)?;
        self.journal.push_reserved(0, ops, dones.as_slice());
        Ok((self.journal.len(), dones))
    }

    fn viewed(&self) -> &Volume
        ensures { result.now ≡ viewed self.now }
    {
        match (&self.pin, &self.kept) {
            (Some(_), Some(volume)) => volume,
            _ => &self.volume,
        }
    }
}

/// Keeps a copy of the volume for a pinned version, if none is kept yet.
fn keep(is_pinned: bool, kept: &mut Option<Volume>, volume: &Volume) -> Result<(), Refusal>
    ensures kept { OnOk result (is_pinned ≡ true → IsSome kept.new) }
    ensures same { unwrap_or kept.new volume.now ≡ unwrap_or kept.old volume.now }
    ensures refused { IfErr result (λ e. e ≡ OutOfMemory) }
{
    if is_pinned && kept.is_none() {
        *kept = Some(volume.copy()?);
    }
    Ok(())
}

/// The value of the last of these nodes, and its number.
fn last_in(volume: &Volume, by: &Name, nodes: &[u64]) -> Option<(Value, u64)>
    ensures { result ≡ last_pair volume.now by.now nodes.now }
{
    let node = *nodes.last()?;
    let value = volume.get(node, by)?;
    Some((value, node))
}

/// The page after a key, found by sorting the whole answer.
fn page_after(
    alloc: Global,
    volume: &Volume,
    query: &Query,
    paging: &Paging,
    cursor: Option<ArrayVec<u8, 264>>,
) -> Result<Page, Refusal>
    ensures { Answers page_found result (spec.page_after volume.now paging.now
        (cursor_bytes cursor) query.now) }
{
    let order = Order {
        by: &paging.by,
        descending: paging.descending,
        most: paging.most as usize,
    };
    let mut source = volume_source(volume);
    let mut cursor = cursor;
    let mut nodes = Vec::new(alloc);
    let more = ordered_into(alloc, query, &mut source, order, &mut cursor, &mut nodes)?;
    let last = last_in(volume, &paging.by, nodes.as_slice());
    Ok(Page { nodes, more, last })
}

/// The page that a line asks for.
fn page_in(alloc: Global, volume: &Volume, query: &Query, paging: &Paging) -> Result<Page, Refusal>
    ensures { Answers page_found result (page_read volume.now paging.now query.now) }
{
    let kind = volume.kind_of(&paging.by);
    let cursor = paging.cursor(kind)?;
    page_after(alloc, volume, query, paging, cursor)
}

impl Server for PlainStore {
    ghost Kept = { Unit {0} };

    ghost kept = { λ s. tt };

    ghost shows = { λ s. s };

    ghost refuses = { λ s ops e t. Unit {0} };

    fn apply(&mut self, ops: &[Op]) -> Result<(u64, ArrayVec<Done, 64>), Refusal> {
        self.write(ops)
    }

    fn is_pinned(&self) -> bool {
        self.pin.is_some()
    }

    fn pin(&mut self) -> u64 {
        let number = self.journal.len();
        self.pin = Some(number);
        self.kept = None;
        number
    }

    fn unpin(&mut self) {
        self.pin = None;
    }

    fn query(&mut self, query: &Query) -> Result<Vec<u64>, Refusal> {
        self.viewed().query(query)
    }

    fn page(&mut self, query: Query, paging: &Paging) -> Result<Page, Refusal> {
        page_in(self.alloc, self.viewed(), &query, paging)
    }

    fn explain(&mut self, query: &Query) -> Result<Cover, Refusal> {
        let mut source = volume_source(self.viewed());
        choose_from(self.alloc, query, &mut source)
    }

    fn get(&mut self, node: u64, name: &Name) -> Option<Value> {
        self.viewed().get(node, name)
    }

    fn attrs(&mut self, node: u64) -> Result<Vec<(Name, Value)>, Refusal> {
        self.viewed().attrs(node)
    }

    fn indices(&mut self) -> Result<Vec<(Name, Kind)>, Refusal> {
        self.viewed().indices()
    }

    fn state_text(&mut self) -> Result<String, AllocError> {
        volume_text(self.alloc, self.viewed())
    }
}
