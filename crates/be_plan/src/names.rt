//! The name that all comparisons of a query share.
ghost use Rattle.std.specs.Prelude.{◌≡◌, true, IfSome};
ghost use Rattle.be_plan.specs.Imports.{formula, option_copied};
ghost use Rattle.be_plan.specs.Walk.{AreAllOn};

use be_query::Tree;
use be_value::Name;

/// Returns `true` if every comparison is on this name and none of them is under `||`.
fn are_all_on(tree: &Tree, name: &Name) -> bool
    ensures { result ≡ true → AreAllOn (formula tree.now) name.now }
{
    match tree {
        Tree::Leaf(comparison) => comparison.name == *name,
        Tree::And(a, b) => are_all_on(a, name) && are_all_on(b, name),
        Tree::Or(_, _) => false,
    }
}

/// Returns the name that all comparisons are on, or `None` if their names differ or the tree
/// contains an `||`.
pub(crate) fn only_name(tree: &Tree) -> Option<&Name>
    ensures { IfSome (option_copied result) (λ name. AreAllOn (formula tree.now) name) }
{
    match tree {
        Tree::Leaf(comparison) => Some(&comparison.name),
        Tree::And(a, b) => {
            let name = only_name(a)?;
            if are_all_on(b, name) {
                Some(name)
            } else {
                None
            }
        }
        Tree::Or(_, _) => None,
    }
}
