//! Testing a node against the sides of an operator, beginning with the side that probably decides.
//!
//! The answer doesn't depend on the order of the sides. Of an `&&` the side that is true of fewer
//! nodes is tested first, and of an `||` the side that is true of more.
ghost use Rattle.std.specs.Prelude.{◌≡◌};
ghost use Rattle.be_order.specs.Imports.{formula, sat, State, StillAnswers};

use be_plan::Source;
use be_query::{Cmp, Tree};

/// Odds are numbers of so many nodes.
const ODDS_OF: u32 = 64;

/// The odds of `==`, of `!=` and of the order operators.
const EQUAL: u32 = 8;

const UNEQUAL: u32 = 56;

const BESIDE: u32 = 32;

/// The number of operators, one within the other, whose sides are looked at.
const DEPTH: u32 = 3;

/// Returns of about how many nodes the tree is true.
fn odds_of(tree: &Tree, depth: u32) -> u32 {
    if depth == 0 {
        return BESIDE;
    }
    match tree {
        Tree::Leaf(comparison) => match comparison.op {
            Cmp::Eq => EQUAL,
            Cmp::Ne => UNEQUAL,
            _ => BESIDE,
        },
        Tree::And(a, b) => {
            let left = odds_of(a, depth - 1);
            left.saturating_mul(odds_of(b, depth - 1)) / ODDS_OF
        }
        Tree::Or(a, b) => {
            let left = ODDS_OF.saturating_sub(odds_of(a, depth - 1));
            let right = ODDS_OF.saturating_sub(odds_of(b, depth - 1));
            ODDS_OF.saturating_sub(left.saturating_mul(right) / ODDS_OF)
        }
    }
}

/// Returns `true` if the node satisfies the tree.
pub(crate) fn is_true_by_odds<S: Source>(source: &mut S, tree: &Tree, node: u64) -> bool
    requires { (volume : State) × S.answers_for source.old volume }
    ensures answer { (volume : State) → S.answers_for source.old volume → result
        ≡ sat volume (formula tree.now) node }
    ensures stays { S.kept source.new ≡ S.kept source.old }
    ensures answers { StillAnswers S.answers_for source.old source.new }
    ensures still { (volume : State) × S.answers_for source.new volume }
{
    match tree {
        Tree::Leaf(comparison) => source.holds(node, comparison),
        Tree::And(a, b) => {
            if odds_of(b, DEPTH) < odds_of(a, DEPTH) {
                is_true_by_odds(source, b, node) && is_true_by_odds(source, a, node)
            } else {
                is_true_by_odds(source, a, node) && is_true_by_odds(source, b, node)
            }
        }
        Tree::Or(a, b) => {
            if odds_of(a, DEPTH) < odds_of(b, DEPTH) {
                is_true_by_odds(source, b, node) || is_true_by_odds(source, a, node)
            } else {
                is_true_by_odds(source, a, node) || is_true_by_odds(source, b, node)
            }
        }
    }
}
