//! The trait through which a whole volume is read.
//!
//! A volume is read through four calls, each of which may change the reader itself, as moving a
//! cursor does. `kept` is what no call changes. `answers_for` relates the reader to the volume that
//! it reads. It is needed because a reader of pages can't compute the volume that its pages encode.
ghost use Rattle.std.specs.FinMap as map;
ghost use Rattle.std.specs.Option.{option_map};
ghost use Rattle.std.specs.Prelude.{◌≡◌, IfOk};
ghost use Rattle.be_volume.specs.Reading.{index_kinds};
ghost use Rattle.be_volume.specs.Volume.{State};
ghost use Rattle.be_volume_state.specs.Rebuilding.{is_held};

use be_value::{Kind, Name, Value};
use std::alloc::AllocError;

/// A reader of one whole volume. Its calls may change the reader itself, but not the volume or the
/// reader's `kept` facts. Each call requires that the reader answers for some volume, and its
/// clauses hold for every such volume.
pub trait Whole {
    /// The facts about the reader that no call changes.
    ghost Kept: { Type 0 };

    ghost kept: { Self → Kept };

    /// Whether the reader answers for this volume.
    ghost answers_for: { Self → State → Type 0 };

    /// Returns the number that the next node will get.
    fn next(&mut self) -> u64
        requires { (volume : State) × answers_for self.old volume }
        ensures answer { (volume : State) → answers_for self.old volume → result ≡ volume.next }
        ensures stays { kept self.new ≡ kept self.old }
        ensures answers { (volume : State) → answers_for self.old volume
            → answers_for self.new volume };

    /// Returns a node's attributes, in ascending byte order of their names, or `None` if there is
    /// no such node.
    fn attrs(&mut self, node: u64) -> Result<Option<Vec<(Name, Value)>>, AllocError>
        requires { (volume : State) × answers_for self.old volume }
        ensures answer { (volume : State) → answers_for self.old volume →
            IfOk result (λ list. option_map (λ l. l.items) list
            ≡ option_map map.entries (map.get volume.nodes node)) }
        ensures stays { kept self.new ≡ kept self.old }
        ensures answers { (volume : State) → answers_for self.old volume
            → answers_for self.new volume };

    /// Returns the names and kinds of the indices, in ascending byte order of the names.
    fn indices(&mut self) -> Result<Vec<(Name, Kind)>, AllocError>
        requires { (volume : State) × answers_for self.old volume }
        ensures answer { (volume : State) → answers_for self.old volume
            → IfOk result (λ list. list.items ≡ index_kinds volume) }
        ensures stays { kept self.new ≡ kept self.old }
        ensures answers { (volume : State) → answers_for self.old volume
            → answers_for self.new volume };

    /// Returns `true` if the index of that name has the node. It allocates no memory.
    fn is_held(&mut self, node: u64, name: &Name) -> bool
        requires { (volume : State) × answers_for self.old volume }
        ensures answer { (volume : State) → answers_for self.old volume → result
            ≡ is_held volume node name.now }
        ensures stays { kept self.new ≡ kept self.old }
        ensures answers { (volume : State) → answers_for self.old volume
            → answers_for self.new volume };
}
