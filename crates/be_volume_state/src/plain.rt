//! A plain volume as a `Whole`.
ghost use Rattle.std.specs.FinMap as map;
ghost use Rattle.std.specs.Option.{option_map};
ghost use Rattle.std.specs.Prelude.{◌≡◌, IfOk};
ghost use Rattle.be_volume.specs.Reading.{index_kinds};
ghost use Rattle.be_volume_state.specs.Rebuilding.{is_held};

use crate::Whole;
use be_value::{Kind, Name, Refusal, Value, key_of};
use be_volume::Volume;
use std::alloc::AllocError;
use std::marker::Model;

/// A borrowed volume. Contracts see its `State`.
#[derive(Drop)]
pub struct WholeVolume<'a> {
    volume: &'a Volume,
}

impl<'a> Model for WholeVolume<'a> {
    ghost use Rattle.be_volume.specs.Volume as model;

    ghost Value = { model.State };

    ghost coded = { model.coded_state };

    ghost view = { λ w. w.volume.now };
}

/// Borrows the volume as a `Whole`.
pub fn whole_volume(volume: &Volume) -> WholeVolume<'_>
    ensures { result ≡ volume.now }
{
    WholeVolume { volume }
}

impl Whole for WholeVolume<'_> {
    ghost use Rattle.std.specs.Prelude.{◌≡◌};
    ghost use Rattle.be_volume.specs.Volume.{State};

    ghost Kept = { State };

    ghost kept = { λ w. w };

    ghost answers_for = { λ w volume. volume ≡ w };

    fn next(&mut self) -> u64 {
        self.volume.next()
    }

    fn attrs(&mut self, node: u64) -> Result<Option<Vec<(Name, Value)>>, AllocError> {
        attrs_of(self.volume, node)
    }

    fn indices(&mut self) -> Result<Vec<(Name, Kind)>, AllocError> {
        indices_of(self.volume)
    }

    fn is_held(&mut self, node: u64, name: &Name) -> bool {
        index_has(self.volume, node, name)
    }
}

fn attrs_of(volume: &Volume, node: u64) -> Result<Option<Vec<(Name, Value)>>, AllocError>
    ensures { IfOk result (λ list. option_map (λ l. l.items) list
        ≡ option_map map.entries (map.get volume.now.nodes node)) }
{
    match volume.attrs(node) {
        Ok(list) => Ok(Some(list)),
        Err(Refusal::NoNode) => Ok(None),
        Err(_) => Err(AllocError),
    }
}

fn indices_of(volume: &Volume) -> Result<Vec<(Name, Kind)>, AllocError>
    ensures { IfOk result (λ list. list.items ≡ index_kinds volume.now) }
{
    match volume.indices() {
        Ok(list) => Ok(list),
        Err(_) => Err(AllocError),
    }
}

/// Returns `true` if the index of that name has the node. A pair in an index is always an attribute
/// of its node, so the function looks for the key of that attribute.
fn index_has(volume: &Volume, node: u64, name: &Name) -> bool
    ensures { result ≡ is_held volume.now node name.now }
{
    volume.sound();
    let Some(value) = volume.get(node, name) else {
        return false;
    };
    value.kind().indexable() && volume.has_key(name, key_of(&value, node).as_slice())
}
