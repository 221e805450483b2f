//! Worked examples of journals.
//!
//! A request has a journal's limit, followed by its entries, separated by ` | `. An entry is
//! `OPERATIONS -> OUTCOMES`, in the words of scripts, with `;` between operations and between
//! outcomes.
//!
//! The reply gives the journal's text, says whether it is legal and whether it has room, and then
//! gives the next node of its volume and the attributes of node 1 there.

use super::lines::{first_number, replies};
use be_journal::{Entry, Items, Journal};
use be_script_language::Reply;
use be_test_tools::{is_legal, list_of, reply_lines};
use be_value::{Name, Refusal, Value, word_of};
use be_volume::{Done, Op};
use std::alloc::{AllocError, Global};
use std::test::Fail;

/// Pushes an entry made by pass 0.
fn push(journal: &mut Journal, ops: Vec<Op>, dones: Vec<Done>) -> Result<(), Refusal> {
    if ops.is_empty() || ops.len() > 64 || dones.len() != ops.len() {
        return Err(Refusal::BadLimits);
    }
    journal.push(Entry {
        by: 0,
        ops: Items::from_vec(ops),
        dones: Items::from_vec(dones),
    })
}

/// Appends a pass's list to room that was reserved for it.
fn enter(journal: &mut Journal, pass: u64, ops: &[Op], dones: &[Done]) -> Result<(), Refusal> {
    if ops.is_empty() || ops.len() > 64 || dones.len() != ops.len() {
        return Err(Refusal::BadLimits);
    }
    journal.reserve(ops.len())?;
    journal.push_reserved(pass, ops, dones);
    Ok(())
}

/// The outcome that a text encodes: `node NUMBER` or `ok`.
fn done_of(text: &str) -> Done {
    match text.strip_prefix("node ") {
        Some(number) => Done::Node(word_of(number.as_bytes()).unwrap_or(0)),
        None => Done::Unit,
    }
}

fn outcomes_of(alloc: Global, texts: &str) -> Result<Vec<Done>, AllocError> {
    let mut dones = Vec::new(alloc);
    for text in texts.split(';') {
        dones.push(done_of(text))?;
    }
    Ok(dones)
}

/// Pushes the entry that a text encodes. A list of several operations goes into reserved room.
fn push_text(alloc: Global, journal: &mut Journal, text: &str) -> Result<(), Refusal> {
    let (ops, dones) = text.split_once(" -> ").unwrap_or((text, ""));
    let ops = list_of(alloc, ops)?;
    let dones = outcomes_of(alloc, dones)?;
    if ops.len() > 1 {
        return enter(journal, 0, &ops, &dones);
    }
    push(journal, ops, dones)
}

/// A journal that holds at most `limit` entries.
fn journal_within(alloc: Global, limit: u64) -> Result<Journal, Refusal> {
    if limit > 2_000 {
        return Err(Refusal::BadLimits);
    }
    Ok(Journal::new(alloc, limit))
}

/// The journal of a request.
fn journal_of(alloc: Global, request: &str) -> Result<Journal, Refusal> {
    let (limit, entries) = first_number(request);
    let mut journal = journal_within(alloc, limit)?;
    for entry in entries.split(" | ") {
        if !entry.is_empty() {
            push_text(alloc, &mut journal, entry)?;
        }
    }
    Ok(journal)
}

/// Pushes an entry that creates a node.
fn push_node(alloc: Global, journal: &mut Journal, node: u64) -> Result<(), Refusal> {
    let text = format!(in alloc; "new -> node {node}")?;
    push_text(alloc, journal, text.as_str())
}

/// A journal that creates 1,100 nodes.
fn nodes(alloc: Global) -> Result<Journal, Refusal> {
    let mut journal = journal_within(alloc, 1_100)?;
    for node in 1..=1_100 {
        push_node(alloc, &mut journal, node)?;
    }
    Ok(journal)
}

/// A list of 64 operations, each with a string of 255 bytes.
fn long_list(alloc: Global) -> Result<Vec<Op>, Refusal> {
    let text = "x".repeat(alloc, 255)?;
    let set = format!(in alloc; "set 0 a CSTR {text}")?;
    let sets = format!(in alloc; ";{set}")?.as_str().repeat(alloc, 63)?;
    list_of(alloc, format!(in alloc; "{set}{sets}")?.as_str())
}

/// A journal of `count` long lists. Each list was written by the pass with the list's number. A
/// block of the journal has room for 15 of them.
fn long_lists(alloc: Global, count: u64) -> Result<Journal, Refusal> {
    let ops = long_list(alloc)?;
    let dones = vec![in alloc; Done::Unit; 64]?;
    let mut journal = journal_within(alloc, count)?;
    for pass in 0..count {
        enter(&mut journal, pass, &ops, &dones)?;
    }
    Ok(journal)
}

/// The number of entries that have 64 operations and were written by the pass with the entry's
/// number.
fn found_lists(journal: &Journal) -> u64 {
    let mut found: u64 = 0;
    for i in 0..journal.len() {
        let entry = journal.get(i);
        if entry.by() == i && entry.len() == 64 {
            found = found.saturating_add(1);
        }
    }
    found
}

/// The reply to `attrs`.
fn attributes(list: Result<Vec<(Name, Value)>, Refusal>) -> Result<Reply, Refusal> {
    match list {
        Ok(list) => Ok(Reply::Attributes(list)),
        Err(Refusal::OutOfMemory) => Err(Refusal::OutOfMemory),
        Err(refusal) => Ok(Reply::Refused(refusal)),
    }
}

/// The next node of the journal's volume, and the attributes of node 1.
fn contents(alloc: Global, journal: &Journal) -> Result<String, Refusal> {
    let volume = journal.replay()?;
    let list = reply_lines(alloc, &attributes(volume.attrs(1))?)?;
    let next = volume.next();
    Ok(format!(in alloc; "next {next}\n{list}")?)
}

fn has_room(journal: &mut Journal) -> Result<bool, Refusal> {
    match journal.reserve(64) {
        Err(Refusal::CommitsSpent) => Ok(false),
        Err(refusal) => Err(refusal),
        Ok(()) => Ok(true),
    }
}

fn takes_entry(alloc: Global, journal: &mut Journal) -> Result<bool, Refusal> {
    match push_text(alloc, journal, "new -> ok") {
        Err(Refusal::CommitsSpent) => Ok(false),
        Err(refusal) => Err(refusal),
        Ok(()) => Ok(true),
    }
}

/// Whether there is room for 64 operations, and whether an entry can be pushed. At the limit,
/// neither is the case.
fn room(alloc: Global, journal: &mut Journal) -> Result<&'static str, Refusal> {
    match (has_room(journal)?, takes_entry(alloc, journal)?) {
        (true, true) => Ok("room"),
        (false, false) => Ok("spent"),
        _ => Ok("room, and yet none"),
    }
}

/// The report on a journal: its text, whether it is legal, whether it has room, and its contents.
fn report(alloc: Global, mut journal: Journal) -> Result<String, Refusal> {
    let text = journal.text()?;
    let word = if is_legal(&journal)? {
        "legal"
    } else {
        "wrong"
    };
    let has = contents(alloc, &journal)?;
    let room = room(alloc, &mut journal)?;
    Ok(format!(in alloc; "{text}{word}, {room}, {has}")?)
}

/// The report on the journal of a request.
pub(crate) fn report_of(alloc: Global, request: &str) -> Result<String, Refusal> {
    report(alloc, journal_of(alloc, request)?)
}

/// The report on a journal of 1,100 nodes, from the text after the 1,099th entry onward.
pub(crate) fn report_end(alloc: Global) -> Result<String, Refusal> {
    let text = report(alloc, nodes(alloc)?)?;
    let front = "\n1099 by 0 new -> node 1099\n";
    let (_, end) = text.as_str().split_once(front).unwrap_or(("", ""));
    Ok(String::from_str(alloc, end)?)
}

/// The number of long lists that are found in their journal.
pub(crate) fn report_lists(alloc: Global, text: &str) -> Result<String, Refusal> {
    let (count, _) = first_number(text);
    let journal = long_lists(alloc, count)?;
    let found = found_lists(&journal);
    Ok(format!(in alloc; "{found} found")?)
}

/// Reports the text of entries, whether they are legal, and what their volume contains. A journal
/// without entries has room for 64 operations. An outcome that the volume doesn't give is wrong,
/// and so is an entry that the volume refuses. The last line is the example `batches`: a list is
/// appended to room that was reserved for it.
#[test]
fn journals_are_reported(rt: HostRuntime) -> Result<(), Fail> {
    let lines =
        "journal 2 new -> node 1 | set 1 size LONG 5 -> ok => 1 by 0 new -> node 1 / 2 by 0 set 1 \
         \"size\" LONG 5 -> ok / legal, spent, next 2 / attrs 1 / \"size\" LONG 5
journal 1 => legal, room, next 1 / refused 2 NoNode
journal 2 new -> node 2 | set 1 size LONG 5 -> ok => 1 by 0 new -> node 2 / 2 by 0 set 1 \"size\" \
         LONG 5 -> ok / wrong, spent, next 2 / attrs 1 / \"size\" LONG 5
journal 2 new -> node 1 | drop 9 -> ok => 1 by 0 new -> node 1 / 2 by 0 drop 9 -> ok / wrong, \
         spent, next 2 / attrs 0
journal 2 mkindex k LONG -> ok | new;set 1 k LONG 5 -> node 1;ok => 1 by 0 mkindex \"k\" LONG -> \
         ok / 2 by 0 new; set 1 \"k\" LONG 5 -> node 1; ok / legal, spent, next 2 / attrs 1 / \
         \"k\" LONG 5";
    replies(rt.alloc(), lines)
}

/// The text of each operation and each kind of value. Node 1 doesn't exist, so none of these
/// entries is accepted.
#[test]
fn operations_have_a_text(rt: HostRuntime) -> Result<(), Fail> {
    let lines =
        "journal 1 set 1 \"a\\\"b\" CSTR \"x\\\\y\\n\\r\" -> ok => 1 by 0 set 1 \"a\\\"b\" CSTR \
         \"x\\\\y\\n\\r\" -> ok / wrong, spent, next 1 / refused 2 NoNode
journal 1 set 1 r RAWT 00abff -> ok => 1 by 0 set 1 \"r\" RAWT \"00abff\" -> ok / wrong, spent, \
         next 1 / refused 2 NoNode
journal 2 set 1 l LLNG -9223372036854775808 -> ok | set 1 u ULLG 18446744073709551615 -> ok => 1 \
         by 0 set 1 \"l\" LLNG -9223372036854775808 -> ok / 2 by 0 set 1 \"u\" ULLG \
         18446744073709551615 -> ok / wrong, spent, next 1 / refused 2 NoNode
journal 3 unset 7 m -> ok | rmindex k -> ok | drop 7 -> ok => 1 by 0 unset 7 \"m\" -> ok / 2 by 0 \
         rmindex \"k\" -> ok / 3 by 0 drop 7 -> ok / wrong, spent, next 1 / refused 2 NoNode";
    replies(rt.alloc(), lines)
}

/// A journal of 1,100 entries is completely reported, checked and replayed. Entries are found in a
/// journal's first block when it is exactly full, and in the following blocks.
#[test]
fn long_journals(rt: HostRuntime) -> Result<(), Fail> {
    let lines = "nodes => 1100 by 0 new -> node 1100 / legal, spent, next 1101 / attrs 0
lists 15 => 15 found
lists 16 => 16 found
lists 46 => 46 found";
    replies(rt.alloc(), lines)
}
