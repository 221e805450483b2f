//! The first attribute that was looked up while checking whether operations must be refused.
//!
//! All operations are checked before the first change is made. If the first operation in a list
//! changes this attribute, it can use the result instead of looking up the attribute again.
ghost use Rattle.std.specs.Prelude.{◌≡◌, ℕ, Some};
ghost use Rattle.be_paged_reading.specs.Imports.{option_or, AnyPageState};
ghost use Rattle.be_paged_reading.specs.Place.{IsAsked, IsKnownOf};

use be_value::Name;

/// An attribute of a node that was looked up. If the node has it, `place` is its page and its
/// offset in the catalog tree.
#[derive(Drop)]
pub struct Asked {
    node: u64,
    name: Name,
    place: Option<(u64, usize)>,
}

/// Stores the result of looking up an attribute, unless a result is already stored.
pub fn remember(asked: &mut Option<Asked>, node: u64, name: &Name, place: Option<(u64, usize)>)
    ensures { asked.new ≡ option_or asked.old
        (Some (record { node = node; name = name.now; place = place })) }
{
    if asked.is_none() {
        *asked = Some(Asked {
            node,
            name: name.copy(),
            place,
        });
    }
}

/// Returns the stored result if it belongs to this attribute.
pub fn known_of(asked: &Option<Asked>, node: u64, name: &Name) -> Option<Option<(u64, usize)>>
    ensures { (page_state : ℕ → AnyPageState) (words : ℕ → ℕ → ℕ) (root : ℕ)
        → IsAsked page_state words root asked.now
        → IsKnownOf page_state words root node name.now result }
{
    match asked {
        Some(last) if last.node == node && last.name == *name => Some(last.place),
        _ => None,
    }
}
