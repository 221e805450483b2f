//! Worked examples.
use super::{FIVE, check, check_after, check_bytes};
use be_test_tools::{COVERAGE, EXAMPLES, TEXTS, TWO_INDICES};
use std::test::Fail;

/// The examples that every form of a volume has to answer the same way, and what only a script can
/// ask after three of them.
#[test]
fn shared_examples(rt: HostRuntime) -> Result<(), Fail> {
    for rows in EXAMPLES {
        check(rt.alloc(), rows)?;
    }
    check_after(
        rt.alloc(),
        TEXTS,
        "set 1 t CSTR {256*x} => refused 19 DataLength",
    )?;
    let explained = r#"explain a==1 && b==2 => "a"=="1" score 1"#;
    check_after(rt.alloc(), TWO_INDICES, explained)?;
    let explained = r#"explain !(a==2||b==3) => "a"!="2" score 5"#;
    check_after(rt.alloc(), COVERAGE, explained)
}

#[test]
fn faults(rt: HostRuntime) -> Result<(), Fail> {
    let rows = r#"
        query name=="[a" => refused 13 BadPattern 7
        query (a==1 => refused 12 Syntax 5
        query a==1 b => refused 12 Syntax 5
        query a==1 & b==2 => refused 12 Syntax 5
        query => refused 12 Syntax 0"#;
    check(rt.alloc(), rows)
}

/// A batch is written whole, or not at all if one of its operations is refused. The reply says if
/// no batch is open, or if one is already open or empty.
#[test]
fn batches(rt: HostRuntime) -> Result<(), Fail> {
    check(
        rt.alloc(),
        "
        mkindex k LONG => ok
        begin => ok
        new => queued
        set 1 k LONG 5 => queued
        commit => commit 2 / node 1 / ok
        begin => ok
        set 1 k LONG 6 => queued
        drop 9 => queued
        commit => refused 2 NoNode
        query k==5 => nodes 1
        commit => not begun
        begin => ok
        begin => already begun
        commit => empty batch
        abort => ok
        abort => not begun",
    )
}

/// At each refresh, a live query reports which nodes have joined and left its result since the
/// previous one.
#[test]
fn live_query(rt: HostRuntime) -> Result<(), Fail> {
    let rows = "
        live k>4 => ok
        refresh => created 1 / removed
        new => node 2
        set 1 k LONG 1 => ok
        set 2 k LONG 9 => ok
        refresh => created 2 / removed 1
        refresh => created / removed";
    check_after(rt.alloc(), FIVE, rows)
}

/// Reads are of the pinned version until `unpin`. A second `pin` or `unpin` changes nothing, and
/// its reply says so.
#[test]
fn pins_in_scripts(rt: HostRuntime) -> Result<(), Fail> {
    check(
        rt.alloc(),
        "
        sett 1 => bad line
        pin => pin 0
        pin => already pinned
        new => node 1
        get 1 k => none
        unpin => ok
        unpin => not pinned
        refresh => no live query",
    )
}

#[test]
fn script_bytes(rt: HostRuntime) -> Result<(), Fail> {
    check_bytes(rt.alloc(), b"new", "node 1\n", 1)?;
    check_bytes(rt.alloc(), b"\xff\n", "bad line\n", 1)?;
    check_bytes(rt.alloc(), b"", "", 1)?;
    let lines = b"#\xff\nnew\r\n\r\n# new\n \t\n\nnew\r";
    check_bytes(rt.alloc(), lines, "bad line\nnode 1\nnode 2\n", 2)
}
