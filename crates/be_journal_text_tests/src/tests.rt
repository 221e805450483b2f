//! Journals as text, in the form that docs/SCRIPTS.md shows: which of them can be read, what a
//! check finds, and the script of a journal.
//!
//! Every test passes even if any single request for memory is refused, because a call that runs out
//! of memory is repeated.
use be_journal::{Entry, entry_line};
use be_journal_text::{Finding, check, dump, dump_state, read_journal, reported_journal};
use std::alloc::{AllocError, Global};
use std::test::Fail;

/// Entries with each operation and each kind of value. Their names and strings contain characters
/// that look like the end of a part.
const EACH: &str = "\
1 by 0 new -> node 1\n\
2 by 63 set 1 \"a -> b; c\\\"\\\\\\n\\r\" CSTR \"; > \\\" -> ok\" -> ok\n\
3 by 1 set 1 \"l\" LONG -2147483648; set 1 \"m\" LLNG -9223372036854775808 -> ok; ok\n\
4 by 1 set 1 \"n\" ULNG 4294967295; set 1 \"o\" ULLG 18446744073709551615 -> ok; ok\n\
5 by 0 set 1 \"é\" MIMS \"text/plain\"; set 1 \"r\" RAWT \"00ff\"; new -> ok; ok; node 2\n\
6 by 2 mkindex \"l\" LONG -> ok\n\
7 by 2 unset 1 \"l\"; drop 2; rmindex \"l\" -> ok; ok; ok\n";

/// The dump of these entries.
const EACH_DUMPED: &str = "\
new\n\
set 1 \"a -> b; c\\\"\\\\\\n\\r\" CSTR \"; > \\\" -> ok\"\n\
begin\nset 1 \"l\" LONG -2147483648\nset 1 \"m\" LLNG -9223372036854775808\ncommit\n\
begin\nset 1 \"n\" ULNG 4294967295\nset 1 \"o\" ULLG 18446744073709551615\ncommit\n\
begin\nset 1 \"é\" MIMS \"text/plain\"\nset 1 \"r\" RAWT \"00ff\"\nnew\ncommit\n\
mkindex \"l\" LONG\n\
begin\nunset 1 \"l\"\ndrop 2\nrmindex \"l\"\ncommit\n";

/// The script that rebuilds their final state, with attributes ordered by the bytes of their names,
/// and no index.
const EACH_STATE: &str = "\
begin\n\
new\n\
set 1 \"a -> b; c\\\"\\\\\\n\\r\" CSTR \"; > \\\" -> ok\"\n\
set 1 \"m\" LLNG -9223372036854775808\n\
set 1 \"n\" ULNG 4294967295\n\
set 1 \"o\" ULLG 18446744073709551615\n\
set 1 \"r\" RAWT \"00ff\"\n\
set 1 \"é\" MIMS \"text/plain\"\n\
new\n\
drop 2\n\
commit\n";

/// A journal with an attribute that isn't in its index, and an attribute that is.
const OUTSIDE: &str = "\
1 by 0 new; set 1 \"k\" LONG 5; mkindex \"k\" LONG -> node 1; ok; ok\n\
2 by 1 mkindex \"j\" LONG -> ok\n\
3 by 0 set 1 \"j\" LONG 6 -> ok\n";

/// The script that rebuilds its final state.
const OUTSIDE_STATE: &str = "\
begin\n\
new\n\
set 1 \"k\" LONG 5\n\
mkindex \"j\" LONG\n\
mkindex \"k\" LONG\n\
set 1 \"j\" LONG 6\n\
commit\n";

/// The entries of a text. If memory ran out, the text is read again.
fn read(alloc: Global, text: &str) -> Result<Option<Vec<Entry>>, AllocError> {
    match read_journal(alloc, text.as_bytes()) {
        Ok(read) => Ok(read),
        Err(_) => read_journal(alloc, text.as_bytes()),
    }
}

fn reported(alloc: Global, text: &str) -> Result<Option<Vec<Entry>>, AllocError> {
    match reported_journal(alloc, text.as_bytes()) {
        Ok(read) => Ok(read),
        Err(_) => reported_journal(alloc, text.as_bytes()),
    }
}

fn checked(alloc: Global, text: &str) -> Result<Finding, AllocError> {
    match check(alloc, text.as_bytes()) {
        Ok(found) => Ok(found),
        Err(_) => check(alloc, text.as_bytes()),
    }
}

fn dumped(alloc: Global, entries: &[Entry]) -> Result<String, AllocError> {
    match dump(alloc, entries) {
        Ok(text) => Ok(text),
        Err(_) => dump(alloc, entries),
    }
}

fn state_dumped(alloc: Global, text: &str) -> Result<Option<String>, AllocError> {
    match dump_state(alloc, text.as_bytes()) {
        Ok(script) => Ok(script),
        Err(_) => dump_state(alloc, text.as_bytes()),
    }
}

fn print(alloc: Global, entries: &[Entry]) -> Result<String, AllocError> {
    let mut text = String::new(alloc);
    for (i, entry) in entries.iter().enumerate() {
        text.push_str(entry_line(alloc, i as u64 + 1, entry)?.as_str())?;
    }
    Ok(text)
}

fn printed(alloc: Global, entries: &[Entry]) -> Result<String, AllocError> {
    match print(alloc, entries) {
        Ok(text) => Ok(text),
        Err(_) => print(alloc, entries),
    }
}

/// Printing a journal that was read gives the same text.
#[test]
fn texts_are_read(rt: HostRuntime) -> Result<(), Fail> {
    let alloc = rt.alloc();
    for text in ["", "1 by 0 new -> node 1\n", EACH] {
        let Some(entries) = read(alloc, text)? else {
            return Err(Fail::new("a text that isn't read"));
        };
        let again = printed(alloc, &entries)?;
        assert_eq!(rt; again.as_str(), text);
    }
    Ok(())
}

/// Strings that aren't the text of any journal, though each is close to one.
#[test]
fn other_texts_are_not(rt: HostRuntime) -> Result<(), Fail> {
    let alloc = rt.alloc();
    for text in [
        "1 by 0 new -> node 1",
        "2 by 0 new -> node 1\n",
        "01 by 0 new -> node 1\n",
        "1 by 00 new -> node 1\n",
        "1 by  new -> node 1\n",
        "1 by 0 new -> node 01\n",
        "1 by 0 new -> node\n",
        "1 by 0 new -> Node 1\n",
        "1 by 0 new -> ok; ok\n",
        "1 by 0 new;new -> node 1; node 2\n",
        "1 by 0 new ; new -> node 1; node 2\n",
        "1 by 0  -> \n",
        "1 by 0 new > ok\n",
        "1 by 0 new ->\n",
        "1 by 0 query a==1 -> ok\n",
        "1 by 0 set 1 a LONG 1 -> ok\n",
        "1 by 0 set 1 \"a\" LONG 01 -> ok\n",
        "1 by 0 set 1 \"a\" LONG 2147483648 -> ok\n",
        "1 by 0 set 1 \"a\" RAWT \"FF\" -> ok\n",
        "1 by 0 unset 1 \"a -> ok\n",
        "1 by 0 unset 1 \"\" -> ok\n",
        "1 by 18446744073709551616 new -> node 1\n",
        "1 by 0 new -> node 1\n\n",
        "1 by 0 new -> node 1\r\n",
        "j",
        "\n",
    ] {
        let read = read(alloc, text)?;
        assert!(rt; read.is_none());
    }
    Ok(())
}

/// The text before the last `journal N` doesn't matter, but the text after it does.
#[test]
fn results_are_reported(rt: HostRuntime) -> Result<(), Fail> {
    let alloc = rt.alloc();
    for (text, count) in [
        ("", Some(0)),
        ("1 by 0 new -> node 1\n", Some(1)),
        ("journal 0\nreplay ok\n", Some(0)),
        (
            "pass 0\nnode 1\njournal 1\n1 by 0 new -> node 1\nreplay ok\n",
            Some(1),
        ),
        (
            "journal 0\njournal 1\n1 by 0 new -> node 1\nreplay ok\n",
            Some(1),
        ),
        ("pass 0\n", None),
        ("journal 2\n1 by 0 new -> node 1\nreplay ok\n", None),
        ("journal 1\n1 by 0 new -> node 1\nreplay bad\n", None),
        ("journal 1\n1 by 0 new -> node 1\nreplay ok", None),
        ("journal 0\n1 by 0 new -> node 1\nreplay ok\n", None),
        ("okjournal 0\nreplay ok\n", None),
    ] {
        let read = reported(alloc, text)?;
        let found = match &read {
            Some(entries) => Some(entries.len()),
            None => None,
        };
        assert_eq!(rt; found, count);
    }
    Ok(())
}

/// The text that a finding prints, and the number of entries in it.
fn shown(found: &Finding) -> (&str, u64) {
    match found {
        Finding::NoJournal => ("no journal", 0),
        Finding::Right(count) => ("right", *count),
        Finding::Wrong(line, count) => (line.as_str(), *count),
    }
}

/// Each text has this finding (no journal, right, or the first wrong line) and this number of
/// entries.
#[test]
fn journals_are_checked(rt: HostRuntime) -> Result<(), Fail> {
    let alloc = rt.alloc();
    for (text, expected, count) in [
        ("", "right", 0),
        (EACH, "right", 7),
        ("pass 0\n", "no journal", 0),
        ("1 by 0 new -> node 2\n", "1 by 0 new -> node 2\n", 1),
        (
            "1 by 0 new -> node 1\n2 by 1 new -> node 1\n3 by 0 new -> node 9\n",
            "2 by 1 new -> node 1\n",
            3,
        ),
        (
            "journal 2\n1 by 0 new -> node 1\n2 by 0 drop 2 -> ok\nreplay ok\n",
            "2 by 0 drop 2 -> ok\n",
            2,
        ),
    ] {
        let found = checked(alloc, text)?;
        let (reported, counted) = shown(&found);
        assert_eq!(rt; reported, expected);
        assert_eq!(rt; counted, count);
    }
    Ok(())
}

#[test]
fn journals_are_dumped(rt: HostRuntime) -> Result<(), Fail> {
    let alloc = rt.alloc();
    let Some(entries) = read(alloc, EACH)? else {
        return Err(Fail::new("a text that isn't read"));
    };
    let text = dumped(alloc, &entries)?;
    assert_eq!(rt; text.as_str(), EACH_DUMPED);
    Ok(())
}

/// Fails unless this is the script that rebuilds a text's state, or there is no script and `None`
/// is expected.
fn check_state(alloc: Global, text: &str, expected: Option<&str>) -> Result<(), Fail> {
    let script = state_dumped(alloc, text)?;
    match (&script, expected) {
        (Some(script), Some(expected)) if script.as_str() == expected => Ok(()),
        (None, None) => Ok(()),
        _ => Err(Fail::new(text)),
    }
}

/// A refused entry changes nothing, and outcomes aren't checked.
#[test]
fn states_are_dumped(rt: HostRuntime) -> Result<(), Fail> {
    let alloc = rt.alloc();
    for (text, expected) in [
        ("", Some("")),
        ("pass 0\n", None),
        ("1 by 0 new -> node 1\n", Some("new\n")),
        ("1 by 0 drop 1 -> ok\n2 by 0 new -> node 7\n", Some("new\n")),
        (EACH, Some(EACH_STATE)),
        (OUTSIDE, Some(OUTSIDE_STATE)),
    ] {
        check_state(alloc, text, expected)?;
    }
    Ok(())
}

/// The text of a journal that creates this many nodes.
fn journal_of_nodes(alloc: Global, count: u64) -> Result<String, AllocError> {
    let mut text = String::new(alloc);
    for n in 1..=count {
        text.push_str(format!(in alloc; "{n} by 0 new -> node {n}\n")?.as_str())?;
    }
    Ok(text)
}

/// The script that rebuilds the state of these nodes: a batch for every 64 nodes, and a batch for
/// the rest if that is more than one node.
fn nodes_dumped(alloc: Global, count: u64) -> Result<String, AllocError> {
    let mut text = String::new(alloc);
    for n in 1..=count {
        if n % 64 == 1 && n < count {
            text.push_str("begin\n")?;
        }
        text.push_str("new\n")?;
        if n % 64 == 0 || n == count && n % 64 != 1 {
            text.push_str("commit\n")?;
        }
    }
    Ok(text)
}

fn texts_of_nodes(alloc: Global, count: u64) -> Result<(String, String), AllocError> {
    Ok((journal_of_nodes(alloc, count)?, nodes_dumped(alloc, count)?))
}

/// Numbers of operations at and next to the maximum length of a list.
#[test]
fn states_of_many_lists(rt: HostRuntime) -> Result<(), Fail> {
    let alloc = rt.alloc();
    for count in [2, 63, 64, 65, 66, 128, 129] {
        let (reported, dumped) = match texts_of_nodes(alloc, count) {
            Ok(texts) => texts,
            Err(_) => texts_of_nodes(alloc, count)?,
        };
        check_state(alloc, reported.as_str(), Some(dumped.as_str()))?;
    }
    Ok(())
}
