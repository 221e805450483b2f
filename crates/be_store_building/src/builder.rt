//! A store that is being built.
ghost use Rattle.std.specs.Prelude.{◌≡◌, ◌⊎◌, ◌≤◌, ◌^◌, ℕ, IfOk, IfErr, OnOk, None, Some, length};
ghost use Rattle.be_paged_building.specs.Building.{MayBeIndex, MayBeNode, MayHave};
ghost use Rattle.be_paged_building.specs.Errors.{AttributeError, FinishError, IndexError};
ghost use Rattle.be_paged_building.specs.Errors.{NodeError};
ghost use Rattle.be_paged_building.specs.Given.{with_held, with_index, with_next, with_node};
ghost use Rattle.be_store_building.specs.Building.{IsSpent, Refuses, begun, given, last_node};
ghost use Rattle.be_store_building.specs.Failing.{IsFailure};
ghost use Rattle.be_table.specs.Setting.{IsPossible, begins_with};
ghost use Rattle.be_table.specs.Works.{AreNew, IsLargeRefused};
ghost use Rattle.be_value.specs.declared.refusals.Refusal.TheVariants.{OutOfMemory};

use crate::first_pages::FirstPages;
use be_paged_building::VolumeBuilder;
use be_store::{Limits, Pass, Store};
use be_value::{Kind, Name, Refusal, Value};
use std::alloc::Global;
use std::marker::Model;

/// A store that is being built from a volume that the caller gives in order.
///
/// After `Full` or `OutOfMemory` each call returns that error again. Every other error leaves the
/// builder as it was.
#[derive(Drop)]
pub struct StoreBuilder {
    alloc: Global,
    limits: Limits,
    pages: FirstPages,
    volume: VolumeBuilder,
    failed: Option<Refusal>,
}

impl Model for StoreBuilder {
    ghost use Rattle.std.specs.Coded.{codes};
    ghost use Rattle.be_volume.specs.Volume.{coded_state};
    ghost use Rattle.be_store_building.specs.Building.{Building};

    ghost Value = { Building };

    ghost coded = { Prim.hlevel (codes, coded_state) };

    ghost use Rattle.be_store_building.specs.Inside.{IsBuilding};

    ghost view = { λ b. record {
      limits = b.limits;
      volume = b.volume.volume.value;
      failed = b.failed;
    } };

    ghost invariant = { IsBuilding };
}

/// Returns the error of a call if the builder can't go on after it.
fn failure(answer: &Result<(), Refusal>) -> Option<Refusal>
    ensures { IsFailure answer.now result }
{
    match answer {
        Err(refusal @ (Refusal::Full(_) | Refusal::OutOfMemory)) => Some(*refusal),
        _ => None,
    }
}

impl StoreBuilder {
    /// Begins with the empty volume. Returns `BadLimits` if a limit is out of range, and only then,
    /// or `OutOfMemory`. The limits are those of `Store::open_large`.
    ///
    /// The call allocates all pages, 4 KiB each.
    pub fn new(alloc: Global, limits: Limits) -> Result<StoreBuilder, Refusal>
        ensures ok { IfOk result (λ b. IsPossible limits × (b ≡ begun limits)) }
        ensures err { IfErr result (IsLargeRefused limits) }
    {
        if !limits.are_possible() {
            return Err(Refusal::BadLimits);
        }
        let mut pages = FirstPages::new(alloc, limits.pages as usize)?;
        let volume = VolumeBuilder::new(alloc, &mut pages)?;
        Ok(StoreBuilder {
            alloc,
            limits,
            pages,
            volume,
            failed: None,
        })
    }

    /// Adds an index without pairs. Indices come before the first node, in ascending order of their
    /// names. Errors are reported in this order:
    /// - `NoNode` after a node;
    /// - `NotIndexable` if no index can have this kind;
    /// - `TooManyIndices` after 32 indices;
    /// - `IndexExists` if the name isn't above the last one;
    /// - `OutOfMemory`.
    pub fn index(&mut self, name: &Name, kind: Kind) -> Result<(), Refusal>
        ensures ok { OnOk result ((self.old.failed ≡ None)
            × MayBeIndex self.old.volume name.now kind
            × (self.new ≡ given self.old (with_index self.old.volume name.now kind))) }
        ensures err { IfErr result (Refuses (IndexError self.old.volume name.now kind)
            (λ e. e ≡ OutOfMemory) self.old self.new) }
    {
        if let Some(refusal) = self.failed {
            return Err(refusal);
        }
        let answer = self.volume.index(name, kind);
        self.failed = failure(&answer);
        answer
    }

    /// Adds a node without attributes. Returns `NoNode` if its number isn't above the last one, or
    /// is 2^63 or more; otherwise `OutOfMemory`, or `Full` if the volume doesn't fit into the
    /// pages.
    pub fn node(&mut self, node: u64) -> Result<(), Refusal>
        ensures ok { OnOk result ((self.old.failed ≡ None) × MayBeNode self.old.volume node
            × (self.new ≡ given self.old (with_node self.old.volume node))) }
        ensures err { IfErr result (Refuses (NodeError self.old.volume node)
            (IsSpent self.old.limits.pages (with_node self.old.volume node)) self.old self.new) }
    {
        if let Some(refusal) = self.failed {
            return Err(refusal);
        }
        let answer = self.volume.node(&mut self.pages, node);
        self.failed = failure(&answer);
        answer
    }

    /// Adds an attribute of the last node; if it is held, the index of its name has it. A node's
    /// attributes come in ascending order of their names. Errors are reported in this order:
    /// - `NoNode` before the first node;
    /// - `TooManyAttrs` after 64 attributes;
    /// - `NoAttr` if the name isn't above the last one;
    /// - for one that is held, `NoSuchIndex` if no index has its name, and `NotIndexable` if the
    ///   index is of another kind;
    /// - `OutOfMemory`, or `Full` if the volume doesn't fit into the pages.
    pub fn attribute(&mut self, name: &Name, value: &Value, held: bool) -> Result<(), Refusal>
        ensures ok { OnOk result ((self.old.failed ≡ None)
            × MayHave self.old.volume (last_node self.old.volume) name.now value.now held
            × (self.new ≡ given self.old (with_held self.old.volume (last_node self.old.volume)
            name.now value.now held))) }
        ensures err { IfErr result (Refuses
            (AttributeError self.old.volume (last_node self.old.volume) name.now value.now held)
            (IsSpent self.old.limits.pages (with_held self.old.volume
            (last_node self.old.volume) name.now value.now held)) self.old self.new) }
    {
        if let Some(refusal) = self.failed {
            return Err(refusal);
        }
        let answer = self.volume.attribute(&mut self.pages, name, value, held);
        self.failed = failure(&answer);
        answer
    }

    /// Opens the store, whose next node will have this number. Its journal is empty, and its passes
    /// are as `Store::open_large` returns them. Returns `NoNode` if the number isn't above that of
    /// each node, or is above 2^63; otherwise `OutOfMemory`, or `Full` if the volume doesn't fit
    /// into the pages.
    ///
    /// The call writes the indices, and briefly needs memory for a second copy of all words.
    pub fn finish(self, next: u64) -> Result<(Store, Vec<Pass>), Refusal>
        ensures may { OnOk result ((self.failed ≡ None) × (self.volume.next ≤ next)
            × (next ≤ 2 ^ 63)) }
        ensures ok { IfOk result (λ r. (used : ℕ) × (r.0.limits
            ≡ begins_with self.limits used (with_next self.volume next))
            × (length r.1.items ≡ self.limits.passes) × AreNew r.0 0 r.1.items) }
        ensures err { IfErr result (λ e. (self.failed ≡ Some e) ⊎ ((self.failed ≡ None)
            × (FinishError self.volume next e
            ⊎ IsSpent self.limits.pages (with_next self.volume next) e))) }
    {
        let StoreBuilder {
            alloc,
            limits,
            mut pages,
            volume,
            failed,
        } = self;
        if let Some(refusal) = failed {
            return Err(refusal);
        }
        let (page, volume) = volume.finish(&mut pages, next)?;
        // No builder gives a page up, and the version page comes first.
        let Some(used) = pages.used() else {
            return Err(Refusal::OutOfMemory);
        };
        if page != 0 {
            return Err(Refusal::OutOfMemory);
        }
        Store::open_with(alloc, limits, pages.words(), used, volume)
    }
}
