//! What an index has.
ghost use Rattle.std.specs.Prelude.{IfSome, IsTrue};
ghost use Rattle.be_value.specs.Value.{is_indexable, kind_of};

use be_value::{Name, Value, key_of};
use be_volume::Volume;

/// The value that the index with this name has for a node, or `None` if it doesn't have the node.
pub fn indexed_value(volume: &Volume, by: &Name, node: u64) -> Option<Value>
    ensures { IfSome result (λ value. IsTrue (is_indexable (kind_of value))) }
{
    let value = volume.get(node, by)?;
    if !value.kind().indexable() {
        return None;
    }
    let key = key_of(&value, node);
    if volume.has_key(by, key.as_slice()) {
        Some(value)
    } else {
        None
    }
}
