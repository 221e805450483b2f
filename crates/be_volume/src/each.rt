//! A change of every index.
ghost use Rattle.std.specs.BTreeMap as tree;
ghost use Rattle.std.specs.Prelude.{map, ◌≡◌};
ghost use Rattle.be_volume.specs.Indices.{unpaired};
ghost use Rattle.be_volume.specs.Maps.{name_cmp};

use crate::maps::Index;
use be_value::Name;
use std::collections::BTreeMap;

/// Removes a node's pair from every index when the node is dropped. It visits each index once.
pub fn unpair_each(indices: &mut BTreeMap<Name, Index>, node: u64)
    ensures entries { indices.new.entries
        ≡ map (λ e. (e.0, unpaired e.1 node)) indices.old.entries }
    ensures ordered { tree.IsOrdered name_cmp indices.new }
    ensures was_ordered { tree.IsOrdered name_cmp indices.old }
{
    indices.retain(|_, index| {
        index.pairs.remove(node);
        true
    });
}
