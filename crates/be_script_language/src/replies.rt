//! Replies and their text.
//!
//! A reply has one or more lines, each ending with LF. Its whole text is built before any of it is
//! written, so a reply is never half written when memory runs out.
ghost use Rattle.std.specs.Prelude.{◌≡◌, ◌++◌, ◌∷◌, IfOk, OnOk, codes, decimal, flat_map};
ghost use Rattle.std.specs.String.{string_bytes};
ghost use Rattle.be_script_language.specs.Page.{page_found};
ghost use Rattle.be_script_language.specs.Reply as spec;

use crate::pages::Page;
use arrayvec::ArrayVec;
use be_journal::{done_text, quoted, value_text};
use be_value::{Kind, Name, Refusal, Value};
use be_volume::Done;
use std::alloc::{AllocError, Global};

/// The reply to a line.
#[derive(Debug, Drop)]
pub enum Reply {
    /// The line has no reply.
    Silent,
    BadLine,
    Done,
    Node(u64),
    /// The nodes that a query found.
    Nodes(Vec<u64>),
    /// The page that `page` found.
    Page(Page),
    /// The value that `get` found, or `None` if there is no such value.
    Value(Option<Value>),
    Attributes(Vec<(Name, Value)>),
    Kinds(Vec<(Name, Kind)>),
    /// The plan that `explain` found, as text.
    Cover(String),
    /// The number of the version that was pinned.
    Pinned(u64),
    AlreadyPinned,
    NotPinned,
    /// The nodes that joined the answer and those that left it, as `refresh` found them.
    Updates(Vec<u64>, Vec<u64>),
    NoLiveQuery,
    Queued,
    FullBatch,
    EmptyBatch,
    AlreadyBegun,
    NotBegun,
    /// The commit number, and the outcome of each operation.
    Committed(u64, ArrayVec<Done, 64>),
    Refused(Refusal),
}

ghost use Rattle.be_script_language.specs.View.{reply_of};

/// The text of a reply, as it is written.
pub fn reply_text(alloc: Global, reply: &Reply) -> Result<String, AllocError>
    ensures { IfOk result (λ text. string_bytes text ≡ spec.text_of (reply_of reply.now)) }
{
    match reply {
        Reply::Silent => Ok(String::new(alloc)),
        Reply::BadLine => String::from_str(alloc, "bad line\n"),
        Reply::Done => String::from_str(alloc, "ok\n"),
        Reply::Node(n) => format!(in alloc; "node {n}\n"),
        Reply::Nodes(nodes) => numbers_line(alloc, "nodes", nodes),
        Reply::Page(page) => page_text(alloc, page),
        Reply::Value(value) => value_line(alloc, value),
        Reply::Attributes(list) => attributes_text(alloc, list),
        Reply::Kinds(list) => kinds_text(alloc, list),
        Reply::Cover(text) => format!(in alloc; "{text}\n"),
        Reply::Pinned(n) => format!(in alloc; "pin {n}\n"),
        Reply::AlreadyPinned => String::from_str(alloc, "already pinned\n"),
        Reply::NotPinned => String::from_str(alloc, "not pinned\n"),
        Reply::Updates(created, removed) => updates_text(alloc, created, removed),
        Reply::NoLiveQuery => String::from_str(alloc, "no live query\n"),
        Reply::Queued => String::from_str(alloc, "queued\n"),
        Reply::FullBatch => String::from_str(alloc, "full batch\n"),
        Reply::EmptyBatch => String::from_str(alloc, "empty batch\n"),
        Reply::AlreadyBegun => String::from_str(alloc, "already begun\n"),
        Reply::NotBegun => String::from_str(alloc, "not begun\n"),
        Reply::Committed(n, dones) => commit_text(alloc, *n, dones.as_slice()),
        Reply::Refused(refusal) => format!(in alloc; "{refusal}\n"),
    }
}

/// A line with the word, and then each of the numbers after a space.
fn numbers_line(alloc: Global, word: &str, numbers: &[u64]) -> Result<String, AllocError>
    ensures { IfOk result (λ text. string_bytes text ≡ spec.numbers_line word.now numbers.now) }
{
    let mut text = String::from_str(alloc, word)?;
    for number in numbers {
        text.push_str(after_space(alloc, *number)?.as_str())?;
    }
    text.push_str("\n")?;
    Ok(text)
}

fn updates_text(alloc: Global, created: &[u64], removed: &[u64]) -> Result<String, AllocError>
    ensures { IfOk result (λ text. string_bytes text
        ≡ spec.text_of (spec.updates created.now removed.now)) }
{
    let mut text = numbers_line(alloc, "created", created)?;
    text.push_str(numbers_line(alloc, "removed", removed)?.as_str())?;
    Ok(text)
}

fn after_space(alloc: Global, n: u64) -> Result<String, AllocError>
    ensures { IfOk result (λ text. string_bytes text ≡ 32 ∷ decimal n) }
{
    format!(in alloc; " {n}")
}

/// `KIND VALUE`.
fn kind_and_value(alloc: Global, value: &Value) -> Result<String, AllocError>
    ensures { IfOk result (λ text. string_bytes text ≡ spec.kind_and_value value.now) }
{
    let kind = value.kind().name();
    let value = value_text(alloc, value)?;
    format!(in alloc; "{kind} {value}")
}

fn more_word(more: bool) -> &'static str
    ensures { result.now ≡ spec.more_word more }
{
    if more { "more" } else { "end" }
}

/// ` after KIND VALUE NODE`.
fn after_text(alloc: Global, last: &Option<(Value, u64)>) -> Result<String, AllocError>
    ensures { IfOk result (λ text. string_bytes text ≡ spec.after_text last.now) }
{
    match last {
        Some((value, node)) => {
            let value = kind_and_value(alloc, value)?;
            format!(in alloc; " after {value} {node}")
        }
        None => Ok(String::new(alloc)),
    }
}

fn page_text(alloc: Global, page: &Page) -> Result<String, AllocError>
    ensures { IfOk result (λ text. string_bytes text ≡ spec.page_text (page_found page.now)) }
{
    let mut text = numbers_line(alloc, "nodes", &page.nodes)?;
    text.push_str(more_word(page.more))?;
    text.push_str(after_text(alloc, &page.last)?.as_str())?;
    text.push_str("\n")?;
    Ok(text)
}

fn value_line(alloc: Global, value: &Option<Value>) -> Result<String, AllocError>
    ensures { IfOk result (λ text. string_bytes text ≡ spec.value_line value.now) }
{
    match value {
        Some(value) => {
            let value = kind_and_value(alloc, value)?;
            format!(in alloc; "{value}\n")
        }
        None => String::from_str(alloc, "none\n"),
    }
}

/// `"NAME" TEXT`.
fn name_line(alloc: Global, name: &Name, text: &str) -> Result<String, AllocError>
    ensures { IfOk result (λ line. string_bytes line ≡ spec.name_line name.now text.now) }
{
    let name = quoted(alloc, name.as_str())?;
    format!(in alloc; "{name} {text}\n")
}

fn attributes_text(alloc: Global, list: &[(Name, Value)]) -> Result<String, AllocError>
    ensures { IfOk result (λ text. string_bytes text ≡ spec.text_of (spec.attributes list.now)) }
{
    let mut text = format!(in alloc; "attrs {}\n", list.len())?;
    for (name, value) in list {
        let value = kind_and_value(alloc, value)?;
        text.push_str(name_line(alloc, name, value.as_str())?.as_str())?;
    }
    Ok(text)
}

fn kinds_text(alloc: Global, list: &[(Name, Kind)]) -> Result<String, AllocError>
    ensures { IfOk result (λ text. string_bytes text ≡ spec.text_of (spec.kinds list.now)) }
{
    let mut text = format!(in alloc; "indices {}\n", list.len())?;
    for (name, kind) in list {
        text.push_str(name_line(alloc, name, kind.name())?.as_str())?;
    }
    Ok(text)
}

fn commit_text(alloc: Global, number: u64, dones: &[Done]) -> Result<String, AllocError>
    ensures { IfOk result (λ text. string_bytes text
        ≡ spec.text_of (spec.committed number dones.now)) }
{
    let mut text = format!(in alloc; "commit {number}\n")?;
    for done in dones {
        text.push_str(done_text(alloc, done)?.as_str())?;
        text.push_str("\n")?;
    }
    Ok(text)
}
