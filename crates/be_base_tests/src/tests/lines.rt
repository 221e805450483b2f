//! Requests and replies of tests as text, in lines `COMMAND TEXT => REPLY`. The reply to a refused
//! request is the printed error.

use super::{building, byte_pattern, journal, machine, pattern, query, stored_words, tree, value};
use be_test_tools::{Answers, check_lines};
use be_value::{Refusal, word_of};
use std::alloc::Global;
use std::test::Fail;

/// The answer to a command.
fn answer(alloc: Global, command: &str, text: &str) -> Result<String, Refusal> {
    match command {
        "journal" => journal::report_of(alloc, text),
        "nodes" => journal::report_end(alloc),
        "lists" => journal::report_lists(alloc, text),
        "machine" => machine::is_opened(alloc, text),
        "free" => tree::free_with(alloc, text),
        "emptied" => tree::free_without(alloc, text),
        "stored" => stored_words::stored_by(alloc, text),
        "built" => building::pages_of(alloc, text),
        _ => answer_query(alloc, command, text),
    }
}

/// The answer to a command on a query or a predicate.
fn answer_query(alloc: Global, command: &str, text: &str) -> Result<String, Refusal> {
    match command {
        "query" => query::printed_twice(alloc, text),
        "leaf" => query::leaf_matches(alloc, text),
        "right" => query::right_pattern(alloc, text),
        "feeds" => query::printed_with_feeds(alloc, text),
        "items" => query::printed_items(alloc, text),
        "comparison" => query::printed_comparison(alloc, text),
        "literal" => query::printed_literal(alloc, text),
        _ => answer_pattern(alloc, command, text),
    }
}

/// The answer to a command on a pattern or a value.
fn answer_pattern(alloc: Global, command: &str, text: &str) -> Result<String, Refusal> {
    match command {
        "pattern" => pattern::canonical(alloc, text),
        "matches" => pattern::matches(alloc, text),
        "bytes" => byte_pattern::matches_both_ways(alloc, text),
        "prefix" => pattern::prefix(alloc, text),
        "decided" => pattern::is_decided_by_prefix(alloc, text),
        "around" => pattern::around(alloc, text),
        "kind" => value::kind_numbered(alloc, text),
        "number" => value::encoded_number(alloc, text),
        "pair" => value::key_of_pair(alloc, text),
        _ => answer_long(alloc, command, repeated(alloc, text)?.as_str()),
    }
}

/// The answer to a command on a text with repeated pieces.
fn answer_long(alloc: Global, command: &str, text: &str) -> Result<String, Refusal> {
    match command {
        "name" => value::is_name(alloc, text),
        "text" => value::is_text(alloc, text),
        "mime" => value::is_mime(alloc, text),
        "raw" => value::is_raw(alloc, text),
        "key" => value::key_length(alloc, text),
        "times" => query::printed(alloc, text),
        "read" => query::is_read(alloc, text),
        "build" => query::is_built(alloc, text),
        "reread" => query::reread(alloc, text),
        _ => Ok(String::from_str(alloc, "no command")?),
    }
}

/// The number that the first of these words encodes, or 0 if it encodes none, and the other words.
pub(crate) fn first_number(words: &str) -> (u64, &str) {
    let (word, others) = words.split_once(" ").unwrap_or((words, ""));
    (word_of(word.as_bytes()).unwrap_or(0), others)
}

/// The text of `COUNT FRONT;MIDDLE;BACK;END`: the front `COUNT` times, the middle, the back `COUNT`
/// times, and the end.
fn repeated(alloc: Global, request: &str) -> Result<String, Refusal> {
    let (count, pieces) = first_number(request);
    let count = count as usize;
    let mut pieces = pieces.split(';');
    let mut text = pieces.next().unwrap_or("").repeat(alloc, count)?;
    text.push_str(pieces.next().unwrap_or(""))?;
    let back = pieces.next().unwrap_or("").repeat(alloc, count)?;
    text.push_str(back.as_str())?;
    text.push_str(pieces.next().unwrap_or(""))?;
    Ok(text)
}

/// The word `yes` or `no`.
pub(crate) fn yes_or_no(alloc: Global, holds: bool) -> Result<String, Refusal> {
    let word = if holds { "yes" } else { "no" };
    Ok(String::from_str(alloc, word)?)
}

/// The answers of the crates to commands.
#[derive(Drop)]
struct Crates;

impl Answers for Crates {
    fn reply(&mut self, alloc: Global, request: &str) -> Result<String, Refusal> {
        let (command, text) = request.split_once(" ").unwrap_or((request, ""));
        match answer(alloc, command, text) {
            Err(Refusal::OutOfMemory) => Err(Refusal::OutOfMemory),
            Err(refusal) => Ok(format!(in alloc; "{refusal}")?),
            reply => reply,
        }
    }
}

/// Fails unless each request gets the expected reply.
pub(crate) fn replies(alloc: Global, lines: &str) -> Result<(), Fail> {
    check_lines(alloc, &mut Crates, lines)
}
