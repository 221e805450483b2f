//! Conditional writes, the next node's number, and journal entries, as texts.
ghost use Rattle.std.specs.Prelude.{◌≡◌, None};
ghost use Rattle.be_store.specs.Passes.{IsPassOf};
ghost use Rattle.be_store.specs.Seats.{pinned_number};
ghost use Rattle.be_store_tests.specs.Staying.{StaysPass};

use crate::tests::calls::{Text, written_text};
use be_journal::entry_line;
use be_store::{ApplyIfError, Entry, Op, Pass, Refusal, Store};
use be_test_tools::list_of;
use std::alloc::Global;

/// Writes a list if the journal has this many entries. BadLimits if the list has no operations, or
/// more than 64.
fn write_if(store: &Store, alloc: Global, pass: &mut Pass, number: u64, ops: &[Op]) -> Text
    requires { IsPassOf store.now pass.old }
    ensures { StaysPass store.now pass.old pass.new }
{
    if ops.is_empty() || ops.len() > 64 {
        return Err(Refusal::BadLimits);
    }
    match store.apply_if(pass, number, ops) {
        Ok(written) => written_text(alloc, Ok(written)),
        Err(ApplyIfError::Conflict(length)) => Ok(format!(in alloc; "conflict {length}")?),
        Err(ApplyIfError::Refused(refusal)) => Err(refusal),
    }
}

/// The next node's number, at a pin made for the read.
fn next_once(store: &Store, pass: &mut Pass) -> u64
    requires pass { IsPassOf store.now pass.old }
    requires unpinned { pinned_number pass.old.knows.phase ≡ None }
    ensures { StaysPass store.now pass.old pass.new }
{
    let mut snapshot = store.pinned(pass);
    snapshot.next()
}

/// The next node's number, at the pin or at a pin made for the read.
fn next(store: &Store, pass: &mut Pass) -> u64
    requires { IsPassOf store.now pass.old }
    ensures { StaysPass store.now pass.old pass.new }
{
    match pass.pinned() {
        Some(_) => store.next(pass),
        None => next_once(store, pass),
    }
}

/// Adds a line for each of these entries, the first of which has this index.
fn push_entries(
    alloc: Global,
    text: &mut String,
    from: u64,
    list: &[Entry],
) -> Result<(), Refusal> {
    let mut number = from;
    for entry in list {
        number = number.saturating_add(1);
        text.push_str(entry_line(alloc, number, entry)?.as_str())?;
    }
    Ok(())
}

fn lines_of(alloc: Global, from: u64, list: Result<Vec<Entry>, Refusal>) -> Text {
    let list = list?;
    let mut text = String::new(alloc);
    push_entries(alloc, &mut text, from, &list)?;
    Ok(text)
}

/// Up to `most` journal entries as lines, from an index on.
fn entries_text(store: &Store, alloc: Global, pass: &mut Pass, from: u64, most: usize) -> Text
    requires { IsPassOf store.now pass.old }
    ensures { StaysPass store.now pass.old pass.new }
{
    let list = store.journal_from(alloc, pass, from, most);
    lines_of(alloc, from, list)
}

fn number_of(word: &str) -> u64 {
    word.parse().unwrap_or(0)
}

/// The reply to the write `NUMBER OPERATIONS`.
fn answer_if(store: &Store, alloc: Global, pass: &mut Pass, words: &str) -> Text
    requires { IsPassOf store.now pass.old }
    ensures { StaysPass store.now pass.old pass.new }
{
    let (number, list) = words.split_once(" ").unwrap_or((words, ""));
    let ops = list_of(alloc, list)?;
    write_if(store, alloc, pass, number_of(number), ops.as_slice())
}

/// The reply to `FROM MOST`: journal entries.
fn answer_entries(store: &Store, alloc: Global, pass: &mut Pass, words: &str) -> Text
    requires { IsPassOf store.now pass.old }
    ensures { StaysPass store.now pass.old pass.new }
{
    let (from, most) = words.split_once(" ").unwrap_or((words, ""));
    entries_text(
        store,
        alloc,
        pass,
        number_of(from),
        number_of(most) as usize,
    )
}

/// A pass's reply to `if NUMBER OPERATIONS`, `next` and `entries FROM MOST`, which scripts don't
/// have.
pub(crate) fn answer_beside(
    store: &Store,
    alloc: Global,
    pass: &mut Pass,
    words: &str,
) -> Option<Text>
    requires { IsPassOf store.now pass.old }
    ensures { StaysPass store.now pass.old pass.new }
{
    let (command, rest) = words.split_once(" ").unwrap_or((words, ""));
    match command {
        "if" => Some(answer_if(store, alloc, pass, rest)),
        "entries" => Some(answer_entries(store, alloc, pass, rest)),
        "next" => {
            let number = next(store, pass);
            Some(number_text(alloc, number))
        }
        _ => None,
    }
}

fn number_text(alloc: Global, number: u64) -> Text {
    Ok(format!(in alloc; "next {number}")?)
}
