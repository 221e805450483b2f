//! Choosing picks from a list of indices, such as the `indices` of a version.
ghost use Rattle.std.specs.Prelude.{◌≡◌, ◌≤◌, ◌+◌, ◌*◌, IfOk, IfErr, IfSome, ◌⊎◌, true, false};
ghost use Rattle.be_plan.specs.Imports.{comparisons, formula, rests, Answers, NotCovered};
ghost use Rattle.be_plan.specs.Imports.{OutOfMemory};
ghost use Rattle.be_plan.specs.Explain.{are_places};
ghost use Rattle.be_plan.specs.Cover.{chosen, choice, covers, is_listed};

use crate::Cover;
use crate::choosing::{PartChoice, cheaper, choose_leaf, join};
use be_query::{Query, Tree};
use be_value::{Kind, Name, Refusal};
use std::alloc::{AllocError, Global};

/// Chooses the picks for the query on a volume with these indices. It follows the same rule as
/// `choose_from` but needs no volume. Returns `NotCovered` if the indices don't cover the query;
/// the only other error is `OutOfMemory`. It makes one pass over the tree and searches the list
/// once for each comparison.
pub fn choose(alloc: Global, query: &Query, indices: &[(Name, Kind)]) -> Result<Cover, Refusal>
    ensures choice { Answers (λ cover. cover) result (chosen (is_listed indices.now) query.now) }
    // The choice covers the query, so each pick is the position of a comparison. `NotCovered` is
    // returned if and only if the indices don't cover the query.
    ensures covers { IfOk result (λ cover. covers (is_listed indices.now) cover.picks query.now
        ≡ true) }
    ensures rests { IfOk result (λ _. rests (is_listed indices.now) query.now ≡ true) }
    ensures places { IfOk result (λ cover. are_places query.now cover.picks ≡ true) }
    ensures refused { IfErr result (λ e. (e ≡ OutOfMemory)
        ⊎ ((e ≡ NotCovered) × (rests (is_listed indices.now) query.now ≡ false))) }
{
    match choose_by_list(alloc, query.tree(), indices)? {
        Some(cover) => Ok(cover),
        None => Err(Refusal::NotCovered),
    }
}

/// Returns the choice for a whole query, or `None` if the indices don't cover it.
fn choose_by_list(
    alloc: Global,
    tree: &Tree,
    indices: &[(Name, Kind)],
) -> Result<Option<Cover>, AllocError>
    requires { comparisons (formula tree.now) ≤ 256 }
    ensures choice { IfOk result (λ cover. cover
        ≡ choice (is_listed indices.now) 0 (formula tree.now)) }
{
    let PartChoice { cover, end: _ } = choose_part(alloc, tree, 0, indices)?;
    Ok(cover)
}

/// Returns the choice for a part of a query whose first comparison is at position `at`.
fn choose_part(
    alloc: Global,
    tree: &Tree,
    at: usize,
    indices: &[(Name, Kind)],
) -> Result<PartChoice, AllocError>
    requires { at + comparisons (formula tree.now) ≤ 256 }
    ensures choice { IfOk result (λ c. c.cover
        ≡ choice (is_listed indices.now) at (formula tree.now)) }
    ensures end { IfOk result (λ c. c.end ≡ at + comparisons (formula tree.now)) }
    ensures small { IfOk result (λ c. IfSome c.cover
        (λ cover. cover.score ≤ 5 * comparisons (formula tree.now))) }
{
    match tree {
        Tree::Leaf(comparison) => {
            let indexed = is_listed(indices, &comparison.name);
            Ok(choose_leaf(comparison, at, indexed))
        }
        Tree::And(a, b) => {
            let left = choose_part(alloc, a, at, indices)?;
            let right = choose_part(alloc, b, left.end, indices)?;
            let end = right.end;
            let cover = cheaper(left.cover, right.cover);
            Ok(PartChoice { cover, end })
        }
        Tree::Or(a, b) => {
            let left = choose_part(alloc, a, at, indices)?;
            let right = choose_part(alloc, b, left.end, indices)?;
            let end = right.end;
            match (left.cover, right.cover) {
                (Some(left), Some(right)) => Ok(PartChoice {
                    cover: Some(join(alloc, left, right)?),
                    end,
                }),
                _ => Ok(PartChoice { cover: None, end }),
            }
        }
    }
}

/// Returns `true` if the list contains an index of that name.
fn is_listed(indices: &[(Name, Kind)], name: &Name) -> bool
    ensures { result ≡ is_listed indices.now name.now }
{
    indices.iter().any(|index| index.0 == *name)
}
