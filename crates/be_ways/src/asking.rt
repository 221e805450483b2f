//! Answering a query while its walks are recorded.
ghost use Rattle.std.specs.Prelude.{◌≡◌, ◌⊎◌, All, Err, IfErr, IfOk, IsOk, OnOk};
ghost use Rattle.be_ways.specs.Imports.{scan, OutOfMemory, State};
ghost use Rattle.be_ways.specs.Ways.{IsWay};

use crate::Way;
use crate::recorded::Recorded;
use crate::walked::Walked;
use crate::way::count_all;
use be_plan::{Source, answer_into};
use be_query::Query;
use be_value::Refusal;
use std::alloc::Global;

/// Answers the query and counts the keys of the walks, which have been recorded. Returns
/// `OutOfMemory` if they couldn't be.
fn count_recorded<S: Source>(
    alloc: Global,
    source: &mut S,
    walks: Option<Vec<Walked>>,
    nodes: &mut Vec<u64>,
) -> Result<Vec<Way>, Refusal>
    ghost volume: { State }
    requires answers { S.answers_for source.old volume }
    ensures ways { IfOk result (λ ways. All (IsWay volume) ways.items) }
    ensures memory { IfErr result (λ e. e ≡ OutOfMemory) }
    ensures stays { S.kept source.new ≡ S.kept source.old }
    ensures answers { S.answers_for source.new volume }
{
    match walks {
        Some(walks) => count_all(alloc, source, walks, nodes),
        None => Err(Refusal::OutOfMemory),
    }
}

/// Returns the ranges of index keys that the answer to the query walks, in the order in which it
/// walks them, and gives the source back. Each range has the number of its keys and the estimate of
/// it. A range that is walked twice is reported twice.
///
/// Returns `NotCovered` if the indices don't cover the query, or `OutOfMemory`. The call finds the
/// answer, and then lists each range that was walked once more, to count its keys. Memory is
/// allocated for the answer, for the nodes of one range at a time, and for about 600 bytes per
/// range.
pub fn ways<S: Source>(alloc: Global, query: &Query, source: S) -> (S, Result<Vec<Way>, Refusal>)
    ghost volume: { State }
    requires { S.answers_for source volume }
    ensures ways { IfOk result.1 (λ ways. All (IsWay volume) ways.items) }
    ensures answered { OnOk result.1 (IsOk (scan volume query.now)) }
    ensures refused { IfErr result.1 (λ e. (e ≡ OutOfMemory) ⊎ (scan volume query.now ≡ Err e)) }
    ensures stays { S.kept result.0 ≡ S.kept source }
    ensures answers { S.answers_for result.0 volume }
{
    let mut recorded = Recorded::new(alloc, source);
    let mut nodes = Vec::new(alloc);
    let answer = answer_into(alloc, query, &mut recorded, &mut nodes);
    let (mut source, walks) = recorded.into_parts();
    let ways = match answer {
        Ok(()) => count_recorded(alloc, &mut source, walks, &mut nodes),
        Err(refusal) => Err(refusal),
    };
    (source, ways)
}
