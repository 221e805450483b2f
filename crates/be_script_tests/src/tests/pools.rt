//! Scripts that fill a small pool of pages.
use super::LIMITS;
use be_script_runner::{Limits, run};
use std::alloc::{AllocError, Global};
use std::test::Fail;

/// A script: its first lines, a repeated line, and its last lines.
fn repeated(
    alloc: Global,
    first: &str,
    line: &str,
    count: usize,
    last: &str,
) -> Result<String, AllocError> {
    let mut script = String::from_str(alloc, first)?;
    script.push_str(line.repeat(alloc, count)?.as_str())?;
    script.push_str(last)?;
    Ok(script)
}

/// The replies to a script over this many pages, or `None` if memory ran out.
fn replies_over(alloc: Global, pages: u64, script: &str) -> Option<String> {
    let mut replies: Vec<u8> = Vec::new(alloc);
    let limits = Limits { pages, ..LIMITS };
    match run(alloc, &mut script.as_bytes(), &mut replies, limits) {
        Ok(()) => String::from_utf8(replies).ok(),
        Err(_) => None,
    }
}

fn count_of(replies: &str, line: &str) -> usize {
    replies.lines().filter(|reply| *reply == line).count()
}

fn count_nodes(replies: &str) -> usize {
    replies
        .lines()
        .filter(|line| line.starts_with("node "))
        .count()
}

/// How the replies end if `nodes` nodes fill the pages and `full` refuses the next.
fn end_of_full(alloc: Global, full: &str, nodes: usize) -> Result<String, AllocError> {
    format!(in alloc;
        "{full}\npin {nodes}\nnone\nindices 0\nok\nok\nqueued\nqueued\nrefused 2 NoNode\n{full}\n"
    )
}

/// Whether the replies show 13 to 36 nodes, a refusal of each later one, and answers even so.
fn is_of_eight_pages(alloc: Global, replies: &str) -> Result<bool, AllocError> {
    let nodes = count_nodes(replies);
    let full = format!(in alloc; "refused 11 Full {nodes}")?;
    let end = end_of_full(alloc, full.as_str(), nodes)?;
    let fulls = count_of(replies, full.as_str());
    Ok(
        (13..37).contains(&nodes)
            && fulls == 61_usize.saturating_sub(nodes)
            && replies.ends_with(end.as_str()),
    )
}

/// Whether 8 pages hold that many nodes of 60, and reads are still answered.
fn fills_eight_pages(alloc: Global) -> Result<bool, AllocError> {
    let last = "pin\nget 1 k\nindices\nunpin\nbegin\nnew\ndrop 99\ncommit\nnew\n";
    let script = repeated(alloc, "", "new\n", 60, last)?;
    match replies_over(alloc, 8, script.as_str()) {
        Some(replies) => is_of_eight_pages(alloc, replies.as_str()),
        None => Ok(false),
    }
}

#[test]
fn smallest_pool(rt: HostRuntime) -> Result<(), Fail> {
    let alloc = rt.alloc();
    assert!(rt;
        matches!(fills_eight_pages(alloc), Ok(true)) || matches!(fills_eight_pages(alloc), Ok(true))
    );
    Ok(())
}

/// Whether writes were refused, the pin was readable throughout, and unpinning gave the pages back.
fn is_of_pin(replies: &str) -> bool {
    count_of(replies, "refused 11 Full 3") > 16
        && count_of(replies, "LONG 0") == 80
        && replies.ends_with("refused 11 Full 3\nLONG 0\nnodes 1\nok\nok\nnodes 1\n")
}

/// Whether a pin keeps 64 pages from taking 64 writes, and stays readable.
fn is_held_full(alloc: Global) -> Result<bool, AllocError> {
    let first = "mkindex k LONG\nnew\nset 1 k LONG 0\npin\n";
    let last = "query k==0\nunpin\nset 1 k LONG 7\nquery k==7\n";
    let script = repeated(alloc, first, "set 1 k LONG 7\nget 1 k\n", 80, last)?;
    match replies_over(alloc, 64, script.as_str()) {
        Some(replies) => Ok(is_of_pin(replies.as_str())),
        None => Ok(false),
    }
}

#[test]
fn pinned_small_pool(rt: HostRuntime) -> Result<(), Fail> {
    let alloc = rt.alloc();
    assert!(rt; matches!(is_held_full(alloc), Ok(true)) || matches!(is_held_full(alloc), Ok(true)));
    Ok(())
}
