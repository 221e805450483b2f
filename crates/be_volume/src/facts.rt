//! The facts that decide whether operations are refused.
//!
//! They are few: whether a node exists, how many attributes it has, and which indices there are.
//! With a reader of these facts, a list of operations can be refused before anything is changed,
//! wherever the volume is kept.
ghost use Rattle.std.specs.FinMap as map;
ghost use Rattle.std.specs.Prelude.{◌≡◌};
ghost use Rattle.be_volume.specs.Maps.{attributes_of};
ghost use Rattle.be_volume.specs.Volume.{State};

use be_value::Name;

/// A reader of the facts about one volume that decide whether operations are refused. Its calls may
/// change the reader itself, but not the volume or the reader's `kept` facts.
pub trait Facts {
    /// The facts about the reader that no call changes.
    ghost Kept: { Type 0 };

    ghost kept: { Self → Kept };

    /// Whether the reader's answers are true of this volume.
    ghost answers_for: { Self → State → Type 0 };

    /// Returns the number of the next new node.
    fn next(&mut self) -> u64
        requires { (volume : State) × answers_for self.old volume }
        ensures answer { (volume : State) → answers_for self.old volume → result ≡ volume.next }
        ensures stays { kept self.new ≡ kept self.old }
        ensures answers { (volume : State) → answers_for self.old volume
            → answers_for self.new volume };

    /// Returns `true` if the node exists.
    fn has_node(&mut self, node: u64) -> bool
        requires { (volume : State) × answers_for self.old volume }
        ensures answer { (volume : State) → answers_for self.old volume → result
            ≡ map.contains_key volume.nodes node }
        ensures stays { kept self.new ≡ kept self.old }
        ensures answers { (volume : State) → answers_for self.old volume
            → answers_for self.new volume };

    /// Returns `true` if the node has an attribute with this name.
    fn has_attribute(&mut self, node: u64, name: &Name) -> bool
        requires { (volume : State) × answers_for self.old volume }
        ensures answer { (volume : State) → answers_for self.old volume → result
            ≡ map.contains_key (attributes_of volume.nodes node) name.now }
        ensures stays { kept self.new ≡ kept self.old }
        ensures answers { (volume : State) → answers_for self.old volume
            → answers_for self.new volume };

    /// Returns how many attributes the node has.
    fn attribute_count(&mut self, node: u64) -> usize
        requires { (volume : State) × answers_for self.old volume }
        ensures answer { (volume : State) → answers_for self.old volume → result
            ≡ map.len (attributes_of volume.nodes node) }
        ensures stays { kept self.new ≡ kept self.old }
        ensures answers { (volume : State) → answers_for self.old volume
            → answers_for self.new volume };

    /// Returns `true` if there is an index with this name.
    fn has_index(&mut self, name: &Name) -> bool
        requires { (volume : State) × answers_for self.old volume }
        ensures answer { (volume : State) → answers_for self.old volume → result
            ≡ map.contains_key volume.indices name.now }
        ensures stays { kept self.new ≡ kept self.old }
        ensures answers { (volume : State) → answers_for self.old volume
            → answers_for self.new volume };

    /// Returns how many indices there are.
    fn index_count(&mut self) -> usize
        requires { (volume : State) × answers_for self.old volume }
        ensures answer { (volume : State) → answers_for self.old volume → result
            ≡ map.len volume.indices }
        ensures stays { kept self.new ≡ kept self.old }
        ensures answers { (volume : State) → answers_for self.old volume
            → answers_for self.new volume };
}
