//! Counting the keys of a range that was walked.
ghost use Rattle.std.specs.Prelude.{◌≡◌, IfErr, IfOk, IfSome, All};
ghost use Rattle.be_ways.specs.Imports.{OutOfMemory, State};
ghost use Rattle.be_ways.specs.Ways.{IsWay};

use crate::walked::Walked;
use arrayvec::ArrayVec;
use be_plan::{Source, put_in_order};
use be_value::{Kind, Name, Refusal};
use std::alloc::Global;

/// A range of keys that an answer walked in the index of a name, which has this kind: the keys from
/// `low` to `high`, both inclusive, or to the last key if `high` is `None`. The range has `walked`
/// keys. The source estimated that it has `about` as many.
///
/// A walk that steps from key to key ends at the first key that it doesn't need. Its range includes
/// that key.
#[derive(Drop)]
pub struct Way {
    pub name: Name,
    pub kind: Kind,
    pub low: ArrayVec<u8, 265>,
    pub high: Option<ArrayVec<u8, 265>>,
    pub about: u64,
    pub walked: u64,
}

/// Counts the keys of a range that was walked, by listing their nodes, and returns the range with
/// that number. Returns `None` if the name has no index. The content of the list is replaced.
fn counted<S: Source>(
    alloc: Global,
    source: &mut S,
    walk: Walked,
    nodes: &mut Vec<u64>,
) -> Result<Option<Way>, Refusal>
    ghost volume: { State }
    requires answers { S.answers_for source.old volume }
    ensures way { IfOk result (λ way. IfSome way (IsWay volume)) }
    ensures memory { IfErr result (λ e. e ≡ OutOfMemory) }
    ensures stays { S.kept source.new ≡ S.kept source.old }
    ensures answers { S.answers_for source.new volume }
{
    let Some(kind) = source.kind_of(&walk.name) else {
        return Ok(None);
    };
    let about = source.about(walk.keys());
    nodes.clear();
    source.nodes_within(walk.keys(), nodes)?;
    put_in_order(alloc, nodes)?;
    let Walked { name, low, high } = walk;
    Ok(Some(Way {
        name,
        kind,
        low,
        high,
        about,
        walked: nodes.len() as u64,
    }))
}

/// Counts the keys of each range that was walked. The list is reused for all of them.
pub(crate) fn count_all<S: Source>(
    alloc: Global,
    source: &mut S,
    walks: Vec<Walked>,
    nodes: &mut Vec<u64>,
) -> Result<Vec<Way>, Refusal>
    ghost volume: { State }
    requires answers { S.answers_for source.old volume }
    ensures ways { IfOk result (λ ways. All (IsWay volume) ways.items) }
    ensures memory { IfErr result (λ e. e ≡ OutOfMemory) }
    ensures stays { S.kept source.new ≡ S.kept source.old }
    ensures answers { S.answers_for source.new volume }
{
    let mut ways = Vec::with_capacity(alloc, walks.len())?;
    for walk in walks {
        if let Some(way) = counted(alloc, source, walk, nodes)? {
            ways.push(way)?;
        }
    }
    Ok(ways)
}
