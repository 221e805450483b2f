//! Both sides of an `&&` of two indexed names. Up to a number of hits of one, the source is asked
//! about each of them. With one hit more, the other's index is walked too.

use super::counting::nodes_estimated;
use super::volume_of;
use be_query::parse;
use be_test_tools::again;
use be_value::{Refusal, word_of};
use be_volume::Volume;
use std::alloc::Global;
use std::test::Fail;

/// The lines of nodes 1 to 130. k is the node's number and m falls from 130 to 1; both have an
/// index.
fn crossing_lines(alloc: Global) -> Result<String, Refusal> {
    let mut lines = String::from_str(alloc, "mkindex k ULLG\nmkindex m ULLG")?;
    for node in 1..=130u64 {
        let descending = 131u64.wrapping_sub(node);
        lines.push_str(format!(in alloc;
            "\nnew;set {node} k ULLG {node};set {node} m ULLG {descending}"
        )?.as_str())?;
    }
    Ok(lines)
}

/// The volume of these lines. If memory runs out, the lines are made again.
fn crossing(alloc: Global) -> Result<Volume, Refusal> {
    let lines = again!(crossing_lines(alloc))?;
    volume_of(alloc, lines.as_str())
}

/// The nodes, and how often a value was read, as `FIRST LAST COUNT asks ASKED`.
fn summary(alloc: Global, volume: &Volume, text: &str, keys: u64) -> Result<String, Refusal> {
    let query = parse(alloc, text)?;
    let (nodes, counts) = nodes_estimated(alloc, volume, &query, keys)?;
    let first = nodes.first().copied().unwrap_or(0);
    let last = nodes.last().copied().unwrap_or(0);
    Ok(format!(in alloc; "{first} {last} {} asks {}", nodes.len(), counts.values)?)
}

/// Whether `summary` returns this text. If memory runs out, it tries again.
fn has_summary(
    alloc: Global,
    volume: &Volume,
    text: &str,
    keys: u64,
    wanted: &str,
) -> Result<bool, Refusal> {
    let summary = again!(summary(alloc, volume, text, keys))?;
    Ok(summary.as_str() == wanted)
}

/// The estimate for an index, the query, and the text. A line that begins with `#` is a comment.
const CASES: &str =
    "# With 64 hits the source is asked about each; with 65 the other index is walked.
130 k<=64 && m>=70 => 1 61 61 asks 64
130 k<=65 && m>=70 => 1 61 61 asks 0
# The first and last nodes of both lists are the same, or one of them is.
130 k<=65 && m>=66 => 1 65 65 asks 0
130 k>=66 && m<=65 => 66 130 65 asks 0
130 k<=65 && m<=130 => 1 65 65 asks 0
130 k>=60 && m>=65 => 60 66 7 asks 0
# One or both lists are empty.
130 k<=65 && m>=131 => 0 0 0 asks 0
130 k>=131 && m>=1 => 0 0 0 asks 0
130 k<=65 && m<=65 => 0 0 0 asks 0
# Two ends of the other range, and of the first one.
130 k<=70 && (m>=70 && m<=120) => 11 61 51 asks 0
130 k>=3 && k<=67 && m>=70 => 3 61 59 asks 0
# An index with many more keys than there are hits isn't walked.
527 k<=65 && m>=70 => 1 61 61 asks 0
528 k<=65 && m>=70 => 1 61 61 asks 65
18446744073709551615 k<=65 && m>=70 => 1 61 61 asks 65
# The source is asked about each node of an `||`.
130 k<=65 && (m>=70 || m==1) => 1 61 61 asks 69";

/// Whether a case has its text.
fn has_text_of(alloc: Global, volume: &Volume, line: &str) -> Result<bool, Refusal> {
    let (request, wanted) = line.split_once(" => ").unwrap_or((line, ""));
    let (keys, text) = request.split_once(" ").unwrap_or((request, ""));
    let keys = word_of(keys.as_bytes()).unwrap_or(0);
    has_summary(alloc, volume, text, keys, wanted)
}

/// Fails unless each case has its text.
fn check_summaries(alloc: Global, volume: &Volume) -> Result<(), Fail> {
    for line in CASES.lines() {
        if !line.starts_with('#') && !has_text_of(alloc, volume, line)? {
            return Err(Fail::new(line));
        }
    }
    Ok(())
}

#[test]
fn both_sides(rt: HostRuntime) -> Result<(), Fail> {
    check_summaries(rt.alloc(), &crossing(rt.alloc())?)
}
