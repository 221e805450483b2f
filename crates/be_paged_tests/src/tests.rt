//! Makes the same requests to both forms of a volume, by lines `REQUEST => REPLY` in the words of
//! scripts. ` / ` separates several requests, and the lines of replies.
//!
//! A list of several operations has `;` between them. `pick PLACE TEXT` is a query answered by one
//! pick. `free` is the number of free pages, which only the room can report.

mod costs;
mod lines;
mod look_tests;
mod nodes;
mod random_lists;
mod sizes;
mod test_looks;

use crate::tests::lines::{nodes_text, refused, request_of, written_text};
use be_paged_test_tools::{Forms, read_query};
use be_script_language::{Reply, Request};
use be_test_tools::{EXAMPLES, LISTS, TWO_INDICES, again, beyond, list_of, reply_lines};
use be_value::{Name, Refusal, word_of};
use be_volume::Op;
use std::alloc::Global;
use std::test::Fail;

/// Both forms' reply to a list of operations.
fn write(alloc: Global, forms: &mut Forms, ops: &[Op]) -> Result<String, Fail> {
    Ok(written_text(alloc, forms.write(ops)?)?)
}

/// Both forms' reply to a query, by one pick or by what is chosen.
fn query(
    alloc: Global,
    forms: &mut Forms,
    text: &str,
    pick: Option<usize>,
) -> Result<String, Fail> {
    let query = read_query(alloc, text)?;
    Ok(nodes_text(alloc, forms.query(alloc, &query, pick)?)?)
}

/// The same, by the pick whose place comes before the query.
fn picked(alloc: Global, forms: &mut Forms, text: &str) -> Result<String, Fail> {
    let (place, text) = text.split_once(" ").unwrap_or(("0", text));
    let place = word_of(place.as_bytes()).unwrap_or(99) as usize;
    query(alloc, forms, text, Some(place))
}

fn attribute(alloc: Global, forms: &mut Forms, node: u64, name: &Name) -> Result<String, Fail> {
    let value = forms.get(node, name)?;
    Ok(reply_lines(alloc, &Reply::Value(value))?)
}

fn attributes(alloc: Global, forms: &mut Forms, node: u64) -> Result<String, Fail> {
    match forms.attrs(alloc, node)? {
        Ok(list) => Ok(reply_lines(alloc, &Reply::Attributes(list))?),
        Err(refusal) => Ok(refused(alloc, refusal)?),
    }
}

fn indices(alloc: Global, forms: &mut Forms) -> Result<String, Fail> {
    let list = forms.indices(alloc)?;
    Ok(reply_lines(alloc, &Reply::Kinds(list))?)
}

/// Both forms' reply to a read.
fn read(alloc: Global, forms: &mut Forms, asked: &Request) -> Result<String, Fail> {
    match asked {
        Request::Get(node, Ok(name)) => attribute(alloc, forms, *node, name),
        Request::Attrs(node) => attributes(alloc, forms, *node),
        Request::Indices => indices(alloc, forms),
        Request::Malformed => Ok(reply_lines(alloc, &Reply::BadLine)?),
        _ => Err(Fail::new("no request")),
    }
}

/// Both forms' reply to a line of a script.
fn line_reply(alloc: Global, forms: &mut Forms, line: &str) -> Result<String, Fail> {
    match request_of(alloc, line)? {
        Request::Write(Ok(op)) => write(alloc, forms, &[op]),
        Request::Write(Err(refusal)) => Ok(refused(alloc, refusal)?),
        Request::Query(text) => query(alloc, forms, text.as_str(), None),
        asked => read(alloc, forms, &asked),
    }
}

/// How many pages are free.
fn free_text(alloc: Global, free: u64) -> Result<String, Refusal> {
    Ok(format!(in alloc; "{free}\n")?)
}

/// The reply to a request.
fn reply(alloc: Global, forms: &mut Forms, request: &str) -> Result<String, Fail> {
    if request.contains(';') {
        let ops = list_of(alloc, request)?;
        return write(alloc, forms, &ops);
    }
    if let Some(text) = request.strip_prefix("pick ") {
        return picked(alloc, forms, text);
    }
    if request == "free" {
        return Ok(again!(free_text(alloc, forms.free()))?);
    }
    line_reply(alloc, forms, request)
}

/// Makes the requests of a line. Returns whether each has its reply.
fn replies(alloc: Global, forms: &mut Forms, requests: &str, expected: &str) -> Result<bool, Fail> {
    let mut expected = expected;
    for request in requests.split(" / ") {
        let text = reply(alloc, forms, request)?;
        match beyond(expected, text.as_str()) {
            Some(rest) => expected = rest,
            None => return Ok(false),
        }
    }
    Ok(expected.is_empty())
}

/// Fails unless each request of these lines has its reply.
pub(crate) fn run_lines(alloc: Global, forms: &mut Forms, lines: &str) -> Result<(), Fail> {
    for line in lines.lines() {
        let (requests, expected) = line.split_once(" => ").unwrap_or((line, "no reply"));
        if !replies(alloc, forms, requests, expected)? {
            return Err(Fail::new(line));
        }
    }
    Ok(())
}

/// Fails unless both forms give these replies, with 64 pages for the one.
fn runs(alloc: Global, lines: &str) -> Result<(), Fail> {
    run_lines(alloc, &mut Forms::new(alloc, 64)?, lines)
}

/// The same, followed by more lines.
fn runs_both(alloc: Global, lines: &str, more: &str) -> Result<(), Fail> {
    let mut forms = Forms::new(alloc, 64)?;
    run_lines(alloc, &mut forms, lines)?;
    run_lines(alloc, &mut forms, more)
}

/// The examples that every form of a volume has to answer the same way.
#[test]
fn examples(rt: HostRuntime) -> Result<(), Fail> {
    for lines in EXAMPLES {
        runs(rt.alloc(), lines)?;
    }
    Ok(())
}

/// The nodes that a query finds by each pick.
#[test]
fn picks(rt: HostRuntime) -> Result<(), Fail> {
    let lines = "pick 0 a==1 && b==2 / pick 1 a==1 && b==2 => nodes 2 / nodes 2";
    runs_both(rt.alloc(), TWO_INDICES, lines)
}

/// Lists of several operations, and how many pages they leave free.
#[test]
fn batches(rt: HostRuntime) -> Result<(), Fail> {
    runs_both(rt.alloc(), LISTS, "free => 61")
}

/// An index takes no page before it has a pair, and frees all its pages when it is removed.
#[test]
fn paged_pool(rt: HostRuntime) -> Result<(), Fail> {
    let lines = "free / new / free => 63 / node 1 / 62
mkindex k LONG / free / set 1 k LONG 0 / free => ok / 62 / ok / 61
rmindex k / free / drop 1 / free => ok / 62 / ok / 63";
    runs(rt.alloc(), lines)
}

/// Makes nodes, one list after another, until one is refused. It returns how many there are.
fn make_nodes(forms: &mut Forms, most: u64) -> Result<u64, Fail> {
    for i in 0..most {
        if forms.write(&[Op::New])?.is_err() {
            return Ok(i);
        }
    }
    Ok(most)
}

/// Fills the room with nodes, and checks that its version can still be read. Returns how many nodes
/// there are.
fn fill_pool(alloc: Global, forms: &mut Forms) -> Result<u64, Fail> {
    let made = make_nodes(forms, 37)?;
    let lines = "new / get 1 k / attrs 1 / indices => refused 11 Full 0 / none / attrs 0 / indices 0
new;drop 99 / new => refused 2 NoNode / refused 11 Full 0";
    run_lines(alloc, forms, lines)?;
    Ok(made)
}

/// A room of eight pages takes at least 13 and at most 36 nodes. Then it is full, but its version
/// can still be read.
#[test]
fn smallest_pool(rt: HostRuntime) -> Result<(), Fail> {
    let made = fill_pool(rt.alloc(), &mut Forms::new(rt.alloc(), 8)?)?;
    assert!(rt; made >= 13 && made < 37);
    Ok(())
}
