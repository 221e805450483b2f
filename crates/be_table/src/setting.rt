//! What a table is opened with.
ghost use Rattle.std.specs.Prelude.{◌≡◌};
ghost use Rattle.be_table.specs.Imports.{empty};

use crate::limits::Limits;
use be_volume::Volume;
use std::alloc::Global;
use std::marker::Model;
use std::snapshot::Snapshot;

/// A table's limits, and what it begins with. A table keeps this as a fact alone, so that each pass
/// knows the same volume as the first.
#[derive(Drop)]
pub struct Setting {
    limits: Limits,
    /// The number of version 0's pages.
    used: u64,
    /// The volume that version 0 encodes. Only contracts see it.
    volume: Snapshot<Volume>,
}

impl Model for Setting {
    ghost use Rattle.be_table.specs.Setting as model;

    ghost Value = { model.Setting };

    ghost coded = { model.coded_setting };

    ghost view = { λ s. model.begins_with s.limits s.used s.volume.value };
}

/// Returns the volume of a table that begins empty.
pub(crate) fn empty_volume(alloc: Global) -> Snapshot<Volume>
    ensures { result.value ≡ empty }
{
    let volume = Volume::new(alloc);
    Snapshot::of(&volume)
}

impl Setting {
    ghost use Rattle.be_table.specs.Setting.{begins_with, limits_of};

    pub(crate) fn of(limits: Limits, used: u64, volume: Snapshot<Volume>) -> Setting
        ensures { result ≡ begins_with limits used volume.value }
    {
        Setting {
            limits,
            used,
            volume,
        }
    }

    pub(crate) fn limits(&self) -> Limits
        ensures { result ≡ limits_of self.now }
    {
        self.limits
    }
}
