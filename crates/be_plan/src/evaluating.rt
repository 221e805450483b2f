//! Testing whether a node matches a query, with the help of a source.
//!
//! The source evaluates each comparison on the value that the comparison sees. On an indexed name
//! that is the value in the index; on any other name it is the attribute.
ghost use Rattle.std.specs.Prelude.{◌≡◌, Some};
ghost use Rattle.be_plan.specs.Imports.{covered, formula, sat, sees, State};
ghost use Rattle.be_plan.specs.Sources.{StillAnswers};
ghost use Rattle.be_plan.specs.Walk.{asks_name};

use crate::Source;
use be_query::Tree;
use be_value::{Name, Value};
use be_volume::holds;

/// Returns `true` if the node satisfies the tree, provided that comparisons on `name` see this
/// value. The source evaluates only comparisons on other names.
pub(crate) fn satisfies<S: Source>(
    source: &mut S,
    tree: &Tree,
    name: &Name,
    value: &Value,
    node: u64,
) -> bool
    requires { (volume : State) × S.answers_for source.old volume }
    ensures answer { (volume : State) → S.answers_for source.old volume → sees volume node name.now
        ≡ Some value.now →
        result ≡ sat volume (formula tree.now) node }
    ensures stays { S.kept source.new ≡ S.kept source.old }
    ensures answers { StillAnswers S.answers_for source.old source.new }
    ensures still { (volume : State) × S.answers_for source.new volume }
{
    match tree {
        Tree::Leaf(comparison) => {
            if comparison.name == *name {
                holds(comparison, value)
            } else {
                source.holds(node, comparison)
            }
        }
        Tree::And(a, b) => {
            satisfies(source, a, name, value, node) && satisfies(source, b, name, value, node)
        }
        Tree::Or(a, b) => {
            satisfies(source, a, name, value, node) || satisfies(source, b, name, value, node)
        }
    }
}

/// Returns `true` if the node satisfies the tree. The source evaluates the comparisons, from left
/// to right, until the result is known.
pub fn is_true<S: Source>(source: &mut S, tree: &Tree, node: u64) -> bool
    requires { (volume : State) × S.answers_for source.old volume }
    ensures answer { (volume : State) → S.answers_for source.old volume → result
        ≡ sat volume (formula tree.now) node }
    ensures stays { S.kept source.new ≡ S.kept source.old }
    ensures answers { StillAnswers S.answers_for source.old source.new }
    ensures still { (volume : State) × S.answers_for source.new volume }
{
    match tree {
        Tree::Leaf(comparison) => source.holds(node, comparison),
        Tree::And(a, b) => is_true(source, a, node) && is_true(source, b, node),
        Tree::Or(a, b) => is_true(source, a, node) || is_true(source, b, node),
    }
}

/// Returns `true` if the source's indices cover a part of a query. Allocates no memory.
pub fn is_covered<S: Source>(source: &mut S, tree: &Tree) -> bool
    requires { (volume : State) × S.answers_for source.old volume }
    ensures answer { (volume : State) → S.answers_for source.old volume → result
        ≡ covered volume (formula tree.now) }
    ensures stays { S.kept source.new ≡ S.kept source.old }
    ensures answers { StillAnswers S.answers_for source.old source.new }
    ensures still { (volume : State) × S.answers_for source.new volume }
{
    match tree {
        Tree::Leaf(comparison) => source.kind_of(&comparison.name).is_some(),
        Tree::And(a, b) => is_covered(source, a) || is_covered(source, b),
        Tree::Or(a, b) => is_covered(source, a) && is_covered(source, b),
    }
}

/// Returns `true` if any comparison in the tree is on this name.
pub(crate) fn asks_name(tree: &Tree, name: &Name) -> bool
    ensures { result ≡ asks_name (formula tree.now) name.now }
{
    match tree {
        Tree::Leaf(comparison) => comparison.name == *name,
        Tree::And(a, b) | Tree::Or(a, b) => asks_name(a, name) || asks_name(b, name),
    }
}
