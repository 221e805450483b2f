//! Calls on a seat as texts: requests and their replies.
ghost use Rattle.be_table_tests.specs.Resting.{IsPinnedSeat, IsResting, StaysSeat};

use crate::tests::reads::{Reported, look_at, pin, read, report, unpin};
use crate::tests::writes::in_write;
use be_script_language::{Reply, Request, read_line};
use be_table::{Seat, VersionTable};
use be_test_tools::{list_of, reply_lines};
use be_value::{Kind, Name, Refusal, Value};
use be_volume::Op;
use std::alloc::{AllocError, Global};

/// A reply as a text, or the error.
pub(crate) type Text = Result<String, Refusal>;

/// The number as a line. If memory runs out, it is written again.
pub(crate) fn number_text(alloc: Global, number: u64) -> Text {
    match format!(in alloc; "{number}\n") {
        Err(_) => Ok(format!(in alloc; "{number}\n")?),
        Ok(text) => Ok(text),
    }
}

fn text_of(alloc: Global, reply: Reply) -> Text {
    Ok(reply_lines(alloc, &reply)?)
}

fn kind_text(alloc: Global, kind: Option<Kind>) -> Result<String, AllocError> {
    match kind {
        Some(kind) => {
            let kind = kind.name();
            format!(in alloc; "{kind}\n")
        }
        None => String::from_str(alloc, "none\n"),
    }
}

/// The value by the page reader, the index's kind, and the value by a query's source.
fn reported_text(alloc: Global, reported: Reported) -> Text {
    let mut text = text_of(alloc, Reply::Value(reported.value))?;
    text.push_str(kind_text(alloc, reported.kind)?.as_str())?;
    text.push_str(text_of(alloc, Reply::Value(reported.asked))?.as_str())?;
    Ok(text)
}

/// Appends text, and tries again if memory runs out.
fn push(text: &mut String, part: &str) -> Result<(), Refusal> {
    if text.push_str(part).is_err() {
        text.push_str(part)?;
    }
    Ok(())
}

/// Appends a reply, or a line with its error.
fn push_reply(alloc: Global, text: &mut String, reply: Text) -> Result<(), Refusal> {
    match reply {
        Ok(reply) => push(text, reply.as_str()),
        Err(Refusal::OutOfMemory) => Err(Refusal::OutOfMemory),
        Err(refusal) => push(text, text_of(alloc, Reply::Refused(refusal))?.as_str()),
    }
}

/// Two replies, one after another.
pub(crate) fn both_texts(alloc: Global, first: Text, second: Text) -> Text {
    let mut text = String::new(alloc);
    push_reply(alloc, &mut text, first)?;
    push_reply(alloc, &mut text, second)?;
    Ok(text)
}

/// Reads with a pinned pass.
fn read_pinned(
    table: &VersionTable,
    alloc: Global,
    seat: Seat,
    words: &str,
    request: &Request,
) -> (Seat, Text)
    requires { IsPinnedSeat table.now seat }
    ensures { IsPinnedSeat table.now result.0 }
{
    match request {
        Request::Get(node, Ok(name)) => {
            let (seat, reported) = report(table, seat, *node, name);
            (seat, reported_text(alloc, reported))
        }
        _ if words == "look" => {
            let (seat, word) = look_at(table, seat);
            (seat, number_text(alloc, word))
        }
        _ => {
            let (seat, word) = read(table, seat);
            (seat, number_text(alloc, word))
        }
    }
}

/// The reply to a pin: its number, or that the pass was already pinned.
fn pin_text(alloc: Global, pin: Option<u64>) -> Text {
    match pin {
        Some(number) => text_of(alloc, Reply::Pinned(number)),
        None => text_of(alloc, Reply::AlreadyPinned),
    }
}

fn unpin_text(alloc: Global, was_pinned: bool) -> Text {
    if was_pinned {
        text_of(alloc, Reply::Done)
    } else {
        text_of(alloc, Reply::NotPinned)
    }
}

/// The reply to a request on an open write.
pub(crate) fn write_text(alloc: Global, answer: Result<u64, Refusal>) -> Text {
    number_text(alloc, answer?)
}

/// The operations in the words, or none if the words aren't a list of operations.
fn ops_of(alloc: Global, words: &str) -> Result<Vec<Op>, Refusal> {
    match list_of(alloc, words) {
        Err(Refusal::BadLimits) => Ok(Vec::new(alloc)),
        ops => ops,
    }
}

/// The reply to a pass that locks and writes.
fn answer_write(table: &VersionTable, alloc: Global, seat: &mut Seat, words: &str) -> Text
    requires { IsResting table.now seat.old }
    ensures { StaysSeat table.now seat.old seat.new }
{
    match ops_of(alloc, words) {
        Ok(ops) => write_text(alloc, in_write(table, seat, ops.as_slice(), words)),
        Err(refusal) => Err(refusal),
    }
}

/// A request that isn't a list of operations. If memory runs out, it is read again.
fn asked(alloc: Global, words: &str) -> Result<Request, Refusal> {
    match read_line(alloc, words.as_bytes()) {
        Err(_) => Ok(read_line(alloc, words.as_bytes())?),
        Ok(request) => Ok(request),
    }
}

/// What a pass reads, if it is pinned.
#[tactic(auto, using(crate::proofs::Phases::pinned_phase))]
fn answer_read(table: &VersionTable, alloc: Global, seat: &mut Seat, words: &str) -> Text
    requires { IsResting table.now seat.old }
    ensures { IsResting table.now seat.new }
{
    let request = match asked(alloc, words) {
        Ok(request) => request,
        Err(refusal) => return Err(refusal),
    };
    if seat.pinned().is_none() {
        return text_of(alloc, Reply::NotPinned);
    }
    let (kept, text) = read_pinned(table, alloc, seat.move_out(), words, &request);
    *seat = kept;
    text
}

fn is_read(words: &str) -> bool {
    words == "read" || words == "look" || words.starts_with("get ")
}

/// The reply to a pass's request.
pub(crate) fn answer(table: &VersionTable, alloc: Global, seat: &mut Seat, words: &str) -> Text
    requires { IsResting table.now seat.old }
    ensures { IsResting table.now seat.new }
{
    match words {
        "pin" => pin_text(alloc, pin(table, seat)),
        "unpin" => unpin_text(alloc, unpin(table, seat)),
        "seen" => number_text(alloc, seat.seen()),
        _ if is_read(words) => answer_read(table, alloc, seat, words),
        _ => answer_write(table, alloc, seat, words),
    }
}

/// The replies to several requests of a pass, which are separated by a comma and a space.
pub(crate) fn answers(table: &VersionTable, alloc: Global, seat: &mut Seat, requests: &str) -> Text
    requires { IsResting table.now seat.old }
    ensures { IsResting table.now seat.new }
{
    let mut text = String::new(alloc);
    for words in requests.split(", ") {
        let reply = answer(table, alloc, seat, words);
        push_reply(alloc, &mut text, reply)?;
    }
    Ok(text)
}
