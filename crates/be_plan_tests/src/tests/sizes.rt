//! Finds as many nodes of a plain volume as a version may have, in each way. No contract rules out
//! that memory runs out at only one size.
use super::volume_of;
use be_plan::{answer, choose_from, run, volume_source};
use be_query::{Query, parse};
use be_test_tools::again;
use be_value::{Refusal, word_of};
use be_volume::Volume;
use std::alloc::Global;
use std::test::Fail;

/// How many nodes are asked for: numbers around each power of two, and the bound.
const COUNTS: &str =
    "1 2 3 4 5 7 8 9 15 16 17 31 32 33 63 64 65 127 128 129 255 256 257 511 512 513 1023 1024 1025 \
     2047 2048 \
2049 4095 4096 4097 8191 8192 8193 16383 16384 16385 26000";

/// The lines of a volume of `count` nodes, each with its number in the attribute k.
fn numbered_lines(alloc: Global, count: u64) -> Result<String, Refusal> {
    let mut lines = String::from_str(alloc, "mkindex k ULLG")?;
    for node in 1..=count {
        lines.push_str(format!(in alloc; "\nnew;set {node} k ULLG {node}")?.as_str())?;
    }
    Ok(lines)
}

/// The volume of these lines. If memory runs out, the lines are made again.
fn numbered(alloc: Global, count: u64) -> Result<Volume, Refusal> {
    let lines = again!(numbered_lines(alloc, count))?;
    volume_of(alloc, lines.as_str())
}

/// Whether these are the nodes from 1 to `count`.
fn are_from_one(nodes: &[u64], count: u64) -> bool {
    nodes.len() as u64 == count && nodes.first() == Some(&1) && nodes.last() == Some(&count)
}

/// Whether `run` finds the nodes up to this number by what is chosen.
fn by_plan(alloc: Global, volume: &Volume, query: &Query, count: u64) -> Result<bool, Refusal> {
    let mut source = volume_source(volume);
    let cover = choose_from(alloc, query, &mut source)?;
    let nodes = run(alloc, &cover, query, &mut source)?;
    Ok(are_from_one(&nodes, count))
}

/// Whether `answer` finds the nodes up to this number.
fn by_answer(alloc: Global, volume: &Volume, query: &Query, count: u64) -> Result<bool, Refusal> {
    let mut source = volume_source(volume);
    let nodes = answer(alloc, query, &mut source)?;
    Ok(are_from_one(&nodes, count))
}

/// Whether a scan finds the nodes up to this number.
fn by_scan(volume: &Volume, query: &Query, count: u64) -> Result<bool, Refusal> {
    let nodes = volume.query(query)?;
    Ok(are_from_one(&nodes, count))
}

/// Whether each way finds the nodes up to this number.
fn finds(alloc: Global, volume: &Volume, count: &str) -> Result<bool, Refusal> {
    let text = format!(in alloc; "k<={count}")?;
    let query = parse(alloc, text.as_str())?;
    let count = word_of(count.as_bytes()).unwrap_or(0);
    Ok(
        by_plan(alloc, volume, &query, count)?
            && by_answer(alloc, volume, &query, count)?
            && by_scan(volume, &query, count)?,
    )
}

/// Whether a copy has the same next number.
fn copies(volume: &Volume) -> Result<bool, Refusal> {
    Ok(volume.copy()?.next() == volume.next())
}

/// Fails unless each way finds each number of nodes.
fn finds_each(alloc: Global, volume: &Volume) -> Result<(), Fail> {
    for count in COUNTS.split(' ') {
        if !again!(finds(alloc, volume, count))? {
            return Err(Fail::new(count));
        }
    }
    Ok(())
}

/// Fails unless each way finds each number of nodes. Returns whether a copy has the same next
/// number.
fn finds_and_copies(alloc: Global, volume: &Volume) -> Result<bool, Fail> {
    finds_each(alloc, volume)?;
    Ok(again!(copies(volume))?)
}

/// Nodes that a query finds, and a copy of all of them.
#[test]
fn many_nodes(rt: HostRuntime) -> Result<(), Fail> {
    let copies = finds_and_copies(rt.alloc(), &numbered(rt.alloc(), 26_000)?)?;
    assert!(rt; copies);
    Ok(())
}
