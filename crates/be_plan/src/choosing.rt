//! Choosing the picks for a query.
//!
//! Each comparison on an indexed name gets a score, from 1 for an exact match to 5 for `!=`, which
//! visits nearly the whole index. The score depends on the operator and, for `==`, on the pattern.
//! An `||` needs both of its sides, so their scores are added. An `&&` is answered from its cheaper
//! side, as in the Be File System (Giampaolo, "Practical File System Design", on queries).
ghost use Rattle.std.specs.Prelude.{◌≡◌, ◌≤◌, ◌<◌, ◌+◌, ◌*◌, ◌∷◌, ◌++◌, [], IfOk, IfErr, IfSome};
ghost use Rattle.std.specs.Prelude.{◌⊎◌, true, false, Some, None, if◌then◌else◌};
ghost use Rattle.be_plan.specs.Imports.{comparisons, covered, formula, has_index, literal, Answers};
ghost use Rattle.be_plan.specs.Imports.{NotCovered, OutOfMemory, State};
ghost use Rattle.be_plan.specs.Explain.{are_places};
ghost use Rattle.be_plan.specs.Sources.{StillAnswers};
ghost use Rattle.be_plan.specs.Cover.{chosen, choice, covers, cheaper, score_of};

use crate::{Cover, Picks, Source};
use be_query::{Cmp, Comparison, Literal, Query, Tree};
use be_value::Refusal;
use std::alloc::{AllocError, Global};

/// Chooses the picks for the query. For an `&&`, it chooses the covered side with the lower score,
/// or the left side if the scores are equal. Returns `NotCovered` if the indices don't cover the
/// query. The source is asked once for each comparison, so the cost doesn't depend on the number of
/// indices in the volume.
pub fn choose_from<S: Source>(
    alloc: Global,
    query: &Query,
    source: &mut S,
) -> Result<Cover, Refusal>
    ghost volume: { State }
    requires { S.answers_for source.old volume }
    ensures choice { Answers (λ cover. cover) result (chosen (has_index volume) query.now) }
    // The choice covers the query, so each pick is the position of a comparison. `NotCovered` is
    // returned if and only if the indices don't cover the query.
    ensures covers { IfOk result (λ cover. covers (has_index volume) cover.picks query.now ≡ true) }
    ensures rests { IfOk result (λ _. covered volume query.now ≡ true) }
    ensures places { IfOk result (λ cover. are_places query.now cover.picks ≡ true) }
    ensures refused { IfErr result (λ e. (e ≡ OutOfMemory)
        ⊎ ((e ≡ NotCovered) × (covered volume query.now ≡ false))) }
    ensures stays { S.kept source.new ≡ S.kept source.old }
    ensures answers { S.answers_for source.new volume }
{
    match choose_by_source(alloc, query.tree(), source)? {
        Some(cover) => Ok(cover),
        None => Err(Refusal::NotCovered),
    }
}

/// Returns the choice for a whole query, or `None` if the indices don't cover it.
pub(crate) fn choose_by_source<S: Source>(
    alloc: Global,
    tree: &Tree,
    source: &mut S,
) -> Result<Option<Cover>, AllocError>
    ghost volume: { State }
    requires answers { S.answers_for source.old volume }
    requires few { comparisons (formula tree.now) ≤ 256 }
    ensures choice { IfOk result (λ cover. cover ≡ choice (has_index volume) 0 (formula tree.now)) }
    ensures stays { S.kept source.new ≡ S.kept source.old }
    ensures answers { S.answers_for source.new volume }
{
    let PartChoice { cover, end: _ } = choose_part(alloc, tree, 0, source)?;
    Ok(cover)
}

/// Returns the number of comparisons in the tree.
pub(crate) fn count(tree: &Tree) -> usize
    requires { comparisons (formula tree.now) ≤ 256 }
    ensures { result ≡ comparisons (formula tree.now) }
{
    match tree {
        Tree::Leaf(_) => 1,
        Tree::And(a, b) | Tree::Or(a, b) => count(a) + count(b),
    }
}

/// The choice for a part of a query, and the position after the part's last comparison.
#[derive(Drop)]
pub(crate) struct PartChoice {
    pub(crate) cover: Option<Cover>,
    pub(crate) end: usize,
}

/// Returns the choice for a part of a query whose first comparison is at position `at`. The source
/// is asked once for each comparison.
fn choose_part<S: Source>(
    alloc: Global,
    tree: &Tree,
    at: usize,
    source: &mut S,
) -> Result<PartChoice, AllocError>
    requires volume { (volume : State) × S.answers_for source.old volume }
    requires few { at + comparisons (formula tree.now) ≤ 256 }
    ensures choice { (volume : State) → S.answers_for source.old volume
        → IfOk result (λ c. c.cover ≡ choice (has_index volume) at (formula tree.now)) }
    ensures end { IfOk result (λ c. c.end ≡ at + comparisons (formula tree.now)) }
    ensures small { IfOk result (λ c. IfSome c.cover
        (λ cover. cover.score ≤ 5 * comparisons (formula tree.now))) }
    ensures stays { S.kept source.new ≡ S.kept source.old }
    ensures answers { StillAnswers S.answers_for source.old source.new }
    ensures still { (volume : State) × S.answers_for source.new volume }
{
    match tree {
        Tree::Leaf(comparison) => {
            let indexed = source.kind_of(&comparison.name).is_some();
            Ok(choose_leaf(comparison, at, indexed))
        }
        Tree::And(a, b) => {
            let left = choose_part(alloc, a, at, source)?;
            let right = choose_part(alloc, b, left.end, source)?;
            let end = right.end;
            let cover = cheaper(left.cover, right.cover);
            Ok(PartChoice { cover, end })
        }
        Tree::Or(a, b) => {
            let left = choose_part(alloc, a, at, source)?;
            let right = choose_part(alloc, b, left.end, source)?;
            let end = right.end;
            match (left.cover, right.cover) {
                (Some(left), Some(right)) => Ok(PartChoice {
                    cover: Some(join(alloc, left, right)?),
                    end,
                }),
                _ => Ok(PartChoice { cover: None, end }),
            }
        }
    }
}

/// Returns the choice for the comparison at position `at`: the comparison itself if its name has an
/// index. Allocates no memory.
pub(crate) fn choose_leaf(comparison: &Comparison, at: usize, indexed: bool) -> PartChoice
    requires { at < 256 }
    ensures cover { result.cover ≡ if indexed
        then Some (record {
          picks = at ∷ [];
          score = score_of comparison.now.op (literal comparison.now.literal);
        })
        else None }
    ensures small { IfSome result.cover (λ cover. cover.score ≤ 5) }
    ensures end { result.end ≡ at + 1 }
{
    let end = at + 1;
    if !indexed {
        return PartChoice { cover: None, end };
    }
    let cover = Cover {
        picks: Picks::one(at),
        score: score_of(comparison),
    };
    PartChoice {
        cover: Some(cover),
        end,
    }
}

/// Returns the cover with the lower score, or the left one if the scores are equal. If there is
/// only one cover, returns that one.
pub(crate) fn cheaper(left: Option<Cover>, right: Option<Cover>) -> Option<Cover>
    ensures { result ≡ cheaper left right }
{
    match (left, right) {
        (Some(left), Some(right)) => Some(if right.score < left.score {
            right
        } else {
            left
        }),
        (None, right) => right,
        (left, None) => left,
    }
}

/// Returns the picks of both, one after the other.
pub(crate) fn join_picks(alloc: Global, left: Picks, right: Picks) -> Result<Picks, AllocError>
    ensures { IfOk result (λ picks. picks ≡ left ++ right) }
{
    let mut places = left.into_vec(alloc)?;
    places.extend_from_slice(right.as_slice())?;
    Ok(Picks::new(places))
}

/// Returns a cover with the picks of both covers and the sum of their scores.
pub(crate) fn join(alloc: Global, left: Cover, right: Cover) -> Result<Cover, AllocError>
    requires { left.score + right.score ≤ 1280 }
    ensures { IfOk result (λ c. c ≡ record {
      picks = left.picks ++ right.picks;
      score = left.score
          + right.score;
    }) }
{
    Ok(Cover {
        picks: join_picks(alloc, left.picks, right.picks)?,
        score: left.score + right.score,
    })
}

/// Returns the score of the comparison. A higher score means that answering from this comparison is
/// more expensive.
pub(crate) fn score_of(comparison: &Comparison) -> u64
    ensures score { result ≡ score_of comparison.now.op (literal comparison.now.literal) }
    ensures small { result ≤ 5 }
{
    match comparison.op {
        Cmp::Eq => match &comparison.literal {
            Literal::Text(_) => 1,
            Literal::Pattern(pattern) => {
                if pattern.is_plain() {
                    1
                } else if !pattern.prefix().is_empty() {
                    2
                } else {
                    4
                }
            }
        },
        Cmp::Ne => 5,
        Cmp::Lt | Cmp::Le | Cmp::Gt | Cmp::Ge => 3,
    }
}
