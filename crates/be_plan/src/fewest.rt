//! Choosing the picks whose walks are expected to visit the fewest keys.
//!
//! `choose_from` looks only at operators, so that its choice can be explained. Any other cover
//! gives the same answer, so a call that answers takes the cover whose ranges have the fewest keys.
//! The source estimates how many keys a range has. All comparisons on one name that `&&` joins
//! bound the same range, wherever they are.
ghost use Rattle.std.specs.Prelude.{◌≡◌, ◌≤◌, ◌<◌, ◌+◌, ◌∷◌, [], true, is_some, IfOk, IfSome};
ghost use Rattle.be_plan.specs.Imports.{comparisons, covered, formula, has_index, option_map};
ghost use Rattle.be_plan.specs.Imports.{Formula, State};
ghost use Rattle.be_plan.specs.Cover.{both_covers, covers};
ghost use Rattle.be_plan.specs.Covering.{IsChoice, IsPart};
ghost use Rattle.be_plan.specs.Sources.{StillAnswers};

use crate::choosing::{PartChoice, cheaper, count, join_picks, score_of};
use crate::narrowing::narrow_beside;
use crate::ranges::Range;
use crate::{Cover, Picks, Source};
use be_query::{Cmp, Comparison, Tree};
use be_value::Name;
use std::alloc::{AllocError, Global};

/// Walking over this many keys takes no longer than estimating how many keys another range has.
const FEW: u64 = 16;

/// Stepping to a key to test it takes as many instructions as listing this many.
const KEYS_A_STEP: u64 = 32;

/// Returns about how many keys a part of a query allows in the index of a name, or `None` if there
/// is no index. The range is narrowed to these keys.
pub(crate) fn keys_allowed<S: Source>(
    source: &mut S,
    range: &mut Range,
    tree: &Tree,
    name: &Name,
) -> Option<u64>
    requires { (volume : State) × S.answers_for source.old volume }
    ensures indexed { (volume : State) → S.answers_for source.old volume
        → is_some result ≡ has_index volume name.now }
    ensures stays { S.kept source.new ≡ S.kept source.old }
    ensures answers { StillAnswers S.answers_for source.old source.new }
    ensures still { (volume : State) × S.answers_for source.new volume }
{
    let Some(kind) = source.kind_of(name) else {
        return None;
    };
    range.open();
    let _rest = narrow_beside(range, tree, name, kind);
    if range.is_empty() {
        return Some(0);
    }
    Some(source.about(range.keys(name)))
}

/// Returns about how many keys are listed in the time of a walk for this comparison over `keys`
/// keys. No range decides a `!=`, so its walk tests each key. Of two comparisons with equally many
/// keys, the one with the lower score costs less.
fn cost_of(comparison: &Comparison, keys: u64) -> u64 {
    let listed = match comparison.op {
        Cmp::Ne => keys.saturating_mul(KEYS_A_STEP),
        _ => keys,
    };
    listed.saturating_add(score_of(comparison))
}

/// Returns the choice for the comparison at position `at`, whose range has about `keys` keys if its
/// name has an index.
fn fewest_leaf(comparison: &Comparison, at: usize, keys: Option<u64>) -> PartChoice
    requires { at < 256 }
    ensures chosen { is_some result.cover ≡ is_some keys }
    ensures picks { IfSome result.cover (λ cover. cover.picks ≡ at ∷ []) }
    ensures end { result.end ≡ at + 1 }
{
    let cover = match keys {
        Some(keys) => Some(Cover {
            picks: Picks::one(at),
            score: cost_of(comparison, keys),
        }),
        None => None,
    };
    PartChoice { cover, end: at + 1 }
}

/// Returns `true` if the walks of the cover visit so few keys that no other cover is worth an
/// estimate.
fn has_few(cover: &Option<Cover>) -> bool
    ensures { result ≡ true → is_some cover.now ≡ true }
{
    match cover {
        Some(cover) => cover.score <= FEW,
        None => false,
    }
}

/// Returns a cover with the picks of both covers, if there are both. Its walks visit the keys of
/// both.
fn both(
    alloc: Global,
    left: Option<Cover>,
    right: Option<Cover>,
) -> Result<Option<Cover>, AllocError>
    ensures { IfOk result (λ cover. option_map (λ c. c.picks) cover
        ≡ option_map (λ c. c.picks) (both_covers left right)) }
{
    match (left, right) {
        (Some(left), Some(right)) => {
            let score = left.score.saturating_add(right.score);
            let picks = join_picks(alloc, left.picks, right.picks)?;
            Ok(Some(Cover { picks, score }))
        }
        _ => Ok(None),
    }
}

/// Returns the choice for a part of a query whose first comparison is at position `at`. `joined` is
/// the part together with everything that `&&` joins to it.
fn fewest_part<S: Source>(
    alloc: Global,
    source: &mut S,
    range: &mut Range,
    tree: &Tree,
    joined: &Tree,
    at: usize,
) -> Result<PartChoice, AllocError>
    requires volume { (volume : State) × S.answers_for source.old volume }
    requires few { at + comparisons (formula tree.now) ≤ 256 }
    ensures choice { (volume : State) → S.answers_for source.old volume → (whole : Formula)
        → IsPart whole at (formula tree.now)
        → IfOk result (λ c. IsChoice (has_index volume) whole at (formula tree.now) c.cover) }
    ensures end { IfOk result (λ c. c.end ≡ at + comparisons (formula tree.now)) }
    ensures stays { S.kept source.new ≡ S.kept source.old }
    ensures answers { StillAnswers S.answers_for source.old source.new }
    ensures still { (volume : State) × S.answers_for source.new volume }
{
    match tree {
        Tree::Leaf(comparison) => {
            let keys = keys_allowed(source, range, joined, &comparison.name);
            Ok(fewest_leaf(comparison, at, keys))
        }
        Tree::And(a, b) => {
            let left = fewest_part(alloc, source, range, a, joined, at)?;
            if has_few(&left.cover) {
                let end = left.end + count(b);
                return Ok(PartChoice {
                    cover: left.cover,
                    end,
                });
            }
            let right = fewest_part(alloc, source, range, b, joined, left.end)?;
            let end = right.end;
            let cover = cheaper(left.cover, right.cover);
            Ok(PartChoice { cover, end })
        }
        Tree::Or(a, b) => {
            let left = fewest_part(alloc, source, range, a, a, at)?;
            let right = fewest_part(alloc, source, range, b, b, left.end)?;
            let end = right.end;
            let cover = both(alloc, left.cover, right.cover)?;
            Ok(PartChoice { cover, end })
        }
    }
}

/// Returns the cover of a query whose walks are expected to visit the fewest keys, or `None` if the
/// indices don't cover the query. The source estimates each comparison's range once, until a range
/// has only a few keys.
pub(crate) fn choose_fewest<S: Source>(
    alloc: Global,
    source: &mut S,
    range: &mut Range,
    tree: &Tree,
) -> Result<Option<Cover>, AllocError>
    ghost volume: { State }
    requires answers { S.answers_for source.old volume }
    requires few { comparisons (formula tree.now) ≤ 256 }
    ensures covers { IfOk result (λ cover. IfSome cover (λ cover.
        covers (has_index volume) cover.picks (formula tree.now) ≡ true)) }
    ensures covered { IfOk result (λ cover. is_some cover ≡ covered volume (formula tree.now)) }
    ensures stays { S.kept source.new ≡ S.kept source.old }
    ensures answers { S.answers_for source.new volume }
{
    let PartChoice { cover, end: _ } = fewest_part(alloc, source, range, tree, tree, 0)?;
    Ok(cover)
}
