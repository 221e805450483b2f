//! An answer walks the ranges with the fewest keys, in whatever order the comparisons are and
//! wherever the parentheses are, and a range that allows no key isn't tested.

use super::counting::nodes_fewest;
use super::volume_of;
use be_query::parse;
use be_test_tools::again;
use be_value::Refusal;
use be_volume::Volume;
use std::alloc::Global;
use std::test::Fail;

/// The lines of nodes 1 to 60. k is the node's number, and f is 1 for every sixth node and 0 for
/// the others; both have an index. z is 1 for each and has none.
fn flagged_lines(alloc: Global) -> Result<String, Refusal> {
    let mut lines = String::from_str(alloc, "mkindex k ULLG\nmkindex f LONG")?;
    for node in 1..=60u64 {
        let flag = if node % 6 == 0 { 1 } else { 0 };
        lines.push_str(format!(in alloc;
            "\nnew;set {node} k ULLG {node};set {node} f LONG {flag};set {node} z LONG 1"
        )?.as_str())?;
    }
    Ok(lines)
}

/// The volume of these lines. If memory runs out, the lines are made again.
fn flagged(alloc: Global) -> Result<Volume, Refusal> {
    let lines = again!(flagged_lines(alloc))?;
    volume_of(alloc, lines.as_str())
}

/// The nodes, how many keys were listed, how often a value was read, and how many ranges were
/// estimated, as `FIRST LAST COUNT keys LISTED asks VALUES estimates ESTIMATES`.
fn summary(alloc: Global, volume: &Volume, text: &str) -> Result<String, Refusal> {
    let query = parse(alloc, text)?;
    let (nodes, counts) = nodes_fewest(alloc, volume, &query)?;
    let first = nodes.first().copied().unwrap_or(0);
    let last = nodes.last().copied().unwrap_or(0);
    Ok(format!(in alloc;
        "{first} {last} {} keys {} asks {} estimates {}",
        nodes.len(),
        counts.listed,
        counts.values,
        counts.estimates
    )?)
}

/// The queries, and the texts. A line that begins with `#` is a comment.
const CASES: &str =
    "# The range of k has 20 keys, and the flag 0 has 50. Only the flag is asked about.
f==0 && k>=11 && k<=30 => 11 29 16 keys 20 asks 20 estimates 3
k>=11 && k<=30 && f==0 => 11 29 16 keys 20 asks 20 estimates 3
f==0 && (k>=11 && k<=30) => 11 29 16 keys 20 asks 20 estimates 3
k>=11 && f==0 && k<=30 => 11 29 16 keys 20 asks 20 estimates 3
# The flag 1 has 10 keys, fewer than the range of k. If it is first, nothing else is estimated.
k>=11 && k<=50 && f==1 => 12 48 7 keys 10 asks 19 estimates 3
f==1 && (k>=11 && k<=50) => 12 48 7 keys 10 asks 19 estimates 1
# An `||` costs what both of its sides do.
(k<=3 || k>=58) && f==0 => 1 59 5 keys 6 asks 6 estimates 2
f==0 && (k<=30 || k>=31) => 1 59 50 keys 50 asks 75 estimates 3
f==1 && (k<=30 || k>=31) => 6 60 10 keys 10 asks 15 estimates 1
# Bounds that allow no key, beside one that allows most. They aren't estimated.
f==0 && k>=31 && k<=30 => 0 0 0 keys 0 asks 0 estimates 1
k>=31 && (f==0 && k<=30) => 0 0 0 keys 0 asks 0 estimates 0
# A `!=` that remains alone has two ranges. Beside others it is a dear choice.
k!=7 => 1 60 59 keys 59 asks 0 estimates 0
f!=0 => 6 60 10 keys 10 asks 0 estimates 0
k>=5 && k!=7 => 5 60 55 keys 55 asks 0 estimates 0
f!=1 && k<=40 => 1 40 34 keys 40 asks 40 estimates 2";

/// Whether a case has its text. If memory runs out, it tries again.
fn has_text_of(alloc: Global, volume: &Volume, line: &str) -> Result<bool, Refusal> {
    let (text, wanted) = line.split_once(" => ").unwrap_or((line, ""));
    let summary = again!(summary(alloc, volume, text))?;
    Ok(summary.as_str() == wanted)
}

/// Fails unless each case has its text.
fn check_summaries(alloc: Global, volume: &Volume) -> Result<(), Fail> {
    for line in CASES.lines() {
        if !line.starts_with('#') && !has_text_of(alloc, volume, line)? {
            return Err(Fail::new(line));
        }
    }
    Ok(())
}

#[test]
fn fewest_keys(rt: HostRuntime) -> Result<(), Fail> {
    check_summaries(rt.alloc(), &flagged(rt.alloc())?)
}
