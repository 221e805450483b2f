//! A plain volume as a source.
//!
//! The source only borrows the volume, so it allocates no memory and forwards each call. The nodes
//! of a range are found by stepping from key to key.
ghost use Rattle.std.specs.Prelude.{◌≡◌, OnOk, IfErr};
ghost use Rattle.be_plan.specs.Imports.{option_copied, IsSound, OutOfMemory};
ghost use Rattle.be_plan.specs.Narrow.{is_above};
ghost use Rattle.be_plan.specs.Walk.{HasNodes, HasOnly, Keeps};

use crate::{KeyRange, Source};
use arrayvec::ArrayVec;
use be_value::{Kind, Name, Refusal, Value, node_of};
use be_volume::Volume;
use std::marker::Model;

/// A borrowed volume. Contracts view it as the volume's `State`.
#[derive(Drop)]
pub struct VolumeSource<'a> {
    volume: &'a Volume,
}

impl<'a> Model for VolumeSource<'a> {
    ghost use Rattle.be_volume.specs.Volume as model;

    ghost Value = { model.State };

    ghost coded = { model.coded_state };

    ghost view = { λ s. s.volume.now };
}

/// Returns the volume as a source.
pub fn volume_source(volume: &Volume) -> VolumeSource<'_>
    ensures view { result ≡ volume.now }
    ensures sound { IsSound volume.now }
{
    volume.sound();
    VolumeSource { volume }
}

impl Source for VolumeSource<'_> {
    ghost use Rattle.be_plan.specs.Imports.{State};
    ghost use Rattle.be_plan.specs.Sources.{IsVolume};

    ghost Kept = { State };

    ghost kept = { λ s. s };

    ghost answers_for = { λ s volume. IsVolume s volume };

    ghost sound = { λ s volume is. is.sound };

    fn kind_of(&mut self, name: &Name) -> Option<Kind> {
        self.volume.kind_of(name)
    }

    fn next_key(&mut self, name: &Name, from: &[u8], after: bool) -> Option<ArrayVec<u8, 264>> {
        self.volume.next_key(name, from, after)
    }

    fn nodes_within(&mut self, keys: KeyRange<'_>, found: &mut Vec<u64>) -> Result<(), Refusal> {
        nodes_in(self.volume, keys.name, keys.low, keys.high, found)
    }

    fn has_key(&mut self, name: &Name, key: &[u8]) -> bool {
        self.volume.has_key(name, key)
    }

    fn value(&mut self, node: u64, name: &Name) -> Option<Value> {
        self.volume.get(node, name)
    }
}

/// Adds the nodes of an index's keys from `low` to `high`, both inclusive, or to the last key if
/// `high` is `None`. It makes one search per key, plus one.
fn nodes_in(
    volume: &Volume,
    name: &Name,
    low: &[u8],
    high: Option<&[u8]>,
    found: &mut Vec<u64>,
) -> Result<(), Refusal>
    requires sound { IsSound volume.now }
    ensures memory { IfErr result (λ e. e ≡ OutOfMemory) }
    ensures keeps { Keeps found.old.items found.new.items }
    ensures only { HasOnly volume.now name.now low.now (option_copied high.entry) found.old.items
        found.new.items }
    ensures has { OnOk result (HasNodes volume.now name.now low.now (option_copied high.entry)
        found.new.items) }
{
    let mut next = volume.next_key(name, low, false);
    'keys: while let Some(key) = &next {
        if is_past(high, key.as_slice()) {
            return Ok(());
        }
        found.push(node_of(key.as_slice()))?;
        next = volume.next_key(name, key.as_slice(), true);
    }
    Ok(())
}

/// Returns `true` if the key is above the bound. Without a bound, no key is.
fn is_past(high: Option<&[u8]>, key: &[u8]) -> bool
    ensures { result ≡ is_above (option_copied high.entry) key.now }
{
    match high {
        Some(high) => key.cmp(&high).is_gt(),
        None => false,
    }
}
