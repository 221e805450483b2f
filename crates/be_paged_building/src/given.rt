//! The volume that a builder has been given, which only contracts see.
ghost use Rattle.std.specs.Prelude.{◌≡◌};
ghost use Rattle.be_paged_building.specs.Given.{with_held, with_index, with_next, with_node};
ghost use Rattle.be_volume.specs.Sound.{IsName};
ghost use Rattle.be_volume.specs.Volume.{State, empty};

use be_value::{Kind, Name, Value};
use be_volume::Volume;
use std::alloc::Global;
use std::snapshot::Snapshot;

/// Returns the empty volume.
pub(crate) fn blank(alloc: Global) -> Snapshot<Volume>
    ensures { result.value ≡ empty }
{
    let volume = Volume::new(alloc);
    Snapshot::of(&volume)
}

/// A law about one name: it satisfies `IsName`. A contract can't assume this of a borrowed name.
/// The function does nothing.
pub(crate) fn named(name: &Name)
    ensures { IsName name.now }
{
    let _text = name.as_str();
}

/// Changes the volume as a contract says, for what was given. It does nothing at run time.
fn renew<T>(volume: &mut Snapshot<Volume>, given: &T)
    ghost now: { State }
    ensures { volume.new.value ≡ now }
{
    let _ = given;
}

/// Adds an index without pairs.
pub(crate) fn add_index(volume: &mut Snapshot<Volume>, name: &Name, kind: Kind)
    ensures { volume.new.value ≡ with_index volume.old.value name.now kind }
{
    renew(volume, &(name, kind));
}

/// Adds a node without attributes.
pub(crate) fn add_node(volume: &mut Snapshot<Volume>, node: u64)
    ensures { volume.new.value ≡ with_node volume.old.value node }
{
    renew(volume, &node);
}

/// Adds an attribute of a node, which the index of its name has if it is held.
pub(crate) fn add_attribute(
    volume: &mut Snapshot<Volume>,
    node: u64,
    name: &Name,
    value: &Value,
    held: bool,
)
    ensures { volume.new.value ≡ with_held volume.old.value node name.now value.now held }
{
    renew(volume, &(node, name, value, held));
}

/// Changes the next node's number.
pub(crate) fn set_next(volume: &mut Snapshot<Volume>, next: u64)
    ensures { volume.new.value ≡ with_next volume.old.value next }
{
    renew(volume, &next);
}
