//! The limits of scripts and stores.
use super::faults::{dripped, end_of};
use super::{LIMITS, check, check_bytes};
use be_script_runner::{Limits, run};
use be_test_tools::longest_list;
use be_value::word_of;
use std::alloc::{AllocError, Global};
use std::test::Fail;

/// Rows between a first and a last one, numbered from 1 to `count`.
fn numbered(
    alloc: Global,
    first: &str,
    count: u64,
    row: (&str, &str),
    last: &str,
) -> Result<String, AllocError> {
    let (before, beyond) = row;
    let mut rows = String::from_str(alloc, first)?;
    for n in 1..=count {
        rows.push_str(format!(in alloc; "{before}{n}{beyond}\n")?.as_str())?;
    }
    rows.push_str(last)?;
    Ok(rows)
}

fn check_numbered(
    alloc: Global,
    first: &str,
    count: u64,
    row: (&str, &str),
    last: &str,
) -> Result<(), Fail> {
    let rows = match numbered(alloc, first, count, row, last) {
        Ok(rows) => rows,
        Err(_) => numbered(alloc, first, count, row, last)?,
    };
    check(alloc, &rows)
}

/// A node has at most 64 attributes: a new name is refused, and an old one isn't.
#[test]
fn too_many_attrs(rt: HostRuntime) -> Result<(), Fail> {
    let last = "
        set 1 b LONG 5 => refused 4 TooManyAttrs
        set 1 a1 CSTR x => ok
        set 2 b LONG 5 => refused 2 NoNode
        begin => ok
        new => queued
        set 1 b LONG 5 => queued
        commit => refused 4 TooManyAttrs
        commit => not begun
        get 1 b => none
        begin => ok
        unset 1 a2 => queued
        set 1 b LONG 5 => queued
        commit => commit 67 / ok / ok
        get 1 b => LONG 5
        begin => ok
        unset 1 a3 => queued
        set 1 c LONG 5 => queued
        set 1 d LONG 5 => queued
        commit => refused 4 TooManyAttrs
        begin => ok
        new => queued
        set 2 a LONG 5 => queued
        set 2 a2 LONG 5 => queued
        unset 1 a3 => queued
        set 1 c LONG 5 => queued
        commit => commit 68 / node 2 / ok / ok / ok / ok
        set 1 a2 LONG 5 => refused 4 TooManyAttrs";
    check_numbered(
        rt.alloc(),
        "new => node 1\n",
        64,
        ("set 1 a", " LONG 5 => ok"),
        last,
    )
}

/// A reply is written whole, however long it is.
#[test]
fn longest_replies(rt: HostRuntime) -> Result<(), Fail> {
    let (script, replies) = longest_list(rt.alloc())?;
    check_bytes(rt.alloc(), script.as_bytes(), &replies, LIMITS.commits)
}

/// A store has at most 32 indices. A name that already has an index is reported before the limit,
/// and a kind that can't be indexed after it.
#[test]
fn too_many_indices(rt: HostRuntime) -> Result<(), Fail> {
    let last = "
        mkindex j LONG => refused 7 TooManyIndices
        mkindex j RAWT => refused 7 TooManyIndices
        mkindex i1 LONG => refused 5 IndexExists
        mkindex i1 RAWT => refused 5 IndexExists
        begin => ok
        new => queued
        mkindex j LONG => queued
        commit => refused 7 TooManyIndices
        commit => not begun
        query j==1 => refused 17 NotCovered
        begin => ok
        rmindex i1 => queued
        mkindex j RAWT => queued
        commit => refused 8 NotIndexable
        begin => ok
        rmindex i1 => queued
        mkindex j CSTR => queued
        commit => commit 33 / ok / ok
        mkindex i1 LONG => refused 7 TooManyIndices
        new => node 1";
    check_numbered(rt.alloc(), "", 32, ("mkindex i", " LONG => ok"), last)
}

/// A batch takes 64 operations. Bad lines and errors are reported before `full batch`.
#[test]
fn full_batch(rt: HostRuntime) -> Result<(), Fail> {
    check(
        rt.alloc(),
        "
        new => node 1
        begin => ok
        {63*set 1 k LONG 5␊}set 1 k LONG 6 => {63*queued␊}queued
        new => full batch
        drop 9 => full batch
        unset 1 \"\" => refused 18 NameLength
        set 1 k CSTR {256*x} => refused 19 DataLength
        sett => bad line
        set 1 k LONG x => bad line
        begin => already begun
        get 1 k => none
        commit => commit 2{64*␊ok}
        get 1 k => LONG 6
        begin => ok
        {63*new␊}new => {63*queued␊}queued
        abort => ok
        new => node 2",
    )
}

/// The limits of a query's text.
#[test]
fn long_queries(rt: HostRuntime) -> Result<(), Fail> {
    check(
        rt.alloc(),
        "
        mkindex k LONG => ok
        query k==1{255*||k==1} => nodes
        query k==1{256*||k==1} => refused 16 TooMany
        query k==1{256*||k==1}␀ => refused 16 TooMany
        query {64*(}k==1( => refused 12 Syntax 68
        query k==1{4092*␠} => nodes
        query k==1{4093*␠} => refused 14 TooLong
        explain {4097*(} => refused 14 TooLong
        page by k limit 1 k==1{4092*␠} => nodes / end
        page by k limit 1 k==1{4093*␠} => refused 14 TooLong
        query {64*(}k==1{64*)} => nodes
        query {32*(}{33*!}a==1 => refused 15 TooDeep
        query {65*(} => refused 15 TooDeep
        query {64*(} => refused 12 Syntax 64",
    )
}

/// The number of writes that `--commits` allows.
#[test]
fn commits_spent(rt: HostRuntime) -> Result<(), Fail> {
    let script =
        b"new\ndrop 9\nmkindex k LONG\nnew\ndrop 9\nquery k==1\nbegin\nnew\ncommit\ncommit\n";
    let replies = "node 1\nrefused 2 NoNode\nok\nrefused 9 CommitsSpent\nrefused 2 \
         NoNode\nnodes\nok\nqueued\n\
        refused 9 CommitsSpent\nnot begun\n";
    check_bytes(rt.alloc(), script, replies, 2)
}

/// Whether a run of these bytes, each of which costs a read, ends like this after 1,048,577 reads,
/// and writes nothing.
fn ends_unwritten(alloc: Global, bytes: &[u8], fails: bool, end: &str) -> bool {
    let outcome = dripped(alloc, bytes, fails);
    outcome.end == end && outcome.written == 0 && outcome.reads == 1_048_577
}

/// Fails unless the run ends like this, without writing anything.
fn expect_end(alloc: Global, bytes: &[u8], fails: bool, end: &str) -> Result<(), Fail> {
    if ends_unwritten(alloc, bytes, fails, end) {
        return Ok(());
    }
    Err(Fail::new(end))
}

/// The same for a script that is a byte too long, and for the script without its first byte.
fn check_longest(alloc: Global, script: &[u8]) -> Result<(), Fail> {
    let longest = script.get(1..).unwrap_or(&[]);
    expect_end(alloc, script, false, "too long")?;
    expect_end(alloc, longest, false, "well")?;
    expect_end(alloc, longest, true, "read")?;
    expect_end(alloc, script, true, "too long")
}

/// A script of 1,048,576 bytes runs, and one more byte is too long. Each byte costs a read. A read
/// that fails after the last allowed byte is reported. A read after one byte more is never made.
#[test]
fn longest_script(rt: HostRuntime) -> Result<(), Fail> {
    let alloc = rt.alloc();
    let script = match vec![in alloc; b'#'; 1_048_577] {
        Ok(script) => script,
        Err(_) => vec![in alloc; b'#'; 1_048_577]?,
    };
    check_longest(alloc, &script)
}

/// How a run of a script without requests ends, within these limits.
fn run_within(alloc: Global, limits: Limits) -> &'static str {
    let mut written: Vec<u8> = Vec::new(alloc);
    end_of(run(alloc, &mut b"# x".as_slice(), &mut written, limits))
}

/// The same. If memory ran out, it runs again.
fn end_within(alloc: Global, limits: Limits) -> &'static str {
    match run_within(alloc, limits) {
        "memory" => run_within(alloc, limits),
        end => end,
    }
}

/// The number that a word encodes, or 0 if it encodes none.
fn number_in(word: Option<&str>) -> u64 {
    word_of(word.unwrap_or("").as_bytes()).unwrap_or(0)
}

/// Whether a run ends as a line says: the pages, the passes, the commits, and the end.
fn ends_as_said(alloc: Global, line: &str) -> bool {
    let mut words = line.split(' ');
    let limits = Limits {
        pages: number_in(words.next()),
        passes: number_in(words.next()),
        commits: number_in(words.next()),
    };
    words.next() == Some(end_within(alloc, limits))
}

/// The limits of a store: both ends of each range, and values outside it.
#[test]
fn limits(rt: HostRuntime) -> Result<(), Fail> {
    let lines = "7 1 1 limits
16385 1 1 limits
8 0 1 limits
8 65 1 limits
8 1 0 limits
8 1 4294967296 limits
8 1 1 well
16384 64 4294967295 well";
    for line in lines.lines() {
        if !ends_as_said(rt.alloc(), line) {
            return Err(Fail::new(line));
        }
    }
    Ok(())
}
