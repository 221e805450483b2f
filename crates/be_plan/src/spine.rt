//! The parts of a query that are only under `||`.
//!
//! A part is only under `||` if every operator above it is an `||`. The other side of an `||` says
//! nothing about a pick, so the walk for a pick considers only the part that contains it. A query
//! with many parts leans to the left: its last part is the right side of the top `||`, and the left
//! side begins with the first comparison of the query. So if the picks are taken from the last to
//! the first, each search continues where the previous one ended, and all searches together visit
//! each `||` once.
ghost use Rattle.std.specs.Prelude.{◌≡◌, ◌≤◌, ◌<◌, ◌+◌};
ghost use Rattle.be_plan.specs.Imports.{comparisons, formula, Formula};
ghost use Rattle.be_plan.specs.Spine.{IsFrontOf, IsUnderOr, LiesIn};

use crate::choosing::count;
use be_query::Tree;

/// A part of a query that begins with the query's first comparison, and the number of comparisons
/// in it. Its last side, which begins at position `from`, is the right side if the part is an `||`,
/// and otherwise the part itself.
#[derive(Clone, Copy)]
pub(crate) struct Front<'a> {
    pub(crate) tree: &'a Tree,
    pub(crate) end: usize,
    pub(crate) side: &'a Tree,
    pub(crate) from: usize,
}

/// Returns the front that is the whole query, where the search starts.
pub(crate) fn whole_front(tree: &Tree) -> Front<'_>
    requires { comparisons (formula tree.now) ≤ 256 }
    ensures { IsFrontOf (formula tree.now) (formula result.tree.now) result.end }
{
    Front {
        tree,
        end: count(tree),
        side: tree,
        from: 0,
    }
}

/// Removes the last sides of a front that begin after the pick, so that the last remaining side
/// contains the pick. The front has `end` comparisons.
fn cut_after(tree: &Tree, end: usize, pick: usize) -> Front<'_>
    requires end { end ≡ comparisons (formula tree.now) }
    requires few { end ≤ 256 }
    requires within { pick < end }
    ensures under { (whole : Formula) → IsUnderOr whole 0 (formula tree.now)
        → IsUnderOr whole 0 (formula result.tree.now) }
    ensures end { result.end ≡ comparisons (formula result.tree.now) }
    ensures few { result.end ≤ 256 }
    ensures lies { (whole : Formula) → IsUnderOr whole 0 (formula tree.now)
        → LiesIn whole pick result.from (formula result.side.now) }
    ensures side { result.from + comparisons (formula result.side.now) ≡ result.end }
{
    match tree {
        Tree::Or(a, b) => {
            let from = end - count(b);
            if pick < from {
                return cut_after(a, from, pick);
            }
            Front {
                tree,
                end,
                side: b,
                from,
            }
        }
        _ => Front {
            tree,
            end,
            side: tree,
            from: 0,
        },
    }
}

/// Returns the front whose last side contains the pick. The search starts from the previous front,
/// or from the whole query if the pick is beyond that front.
pub(crate) fn front_for<'a>(whole: &'a Tree, before: &Front<'a>, pick: usize) -> Front<'a>
    requires front { IsFrontOf (formula whole.now) (formula before.now.tree.now) before.now.end }
    requires whole { comparisons (formula whole.now) ≤ 256 }
    requires within { pick < comparisons (formula whole.now) }
    ensures front { IsFrontOf (formula whole.now) (formula result.tree.now) result.end }
    ensures lies { LiesIn (formula whole.now) pick result.from (formula result.side.now) }
    ensures side { result.from + comparisons (formula result.side.now) ≡ result.end }
{
    if pick < before.end {
        cut_after(before.tree, before.end, pick)
    } else {
        cut_after(whole, count(whole), pick)
    }
}
