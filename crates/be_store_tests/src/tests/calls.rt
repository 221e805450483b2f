//! The calls of one pass, as texts: a request in the words of scripts, and its reply.
//!
//! The helper that makes a call drops most of the call's clauses. What is left is that the pass is
//! the store's, with the same number. The helpers ask the pass whether it is pinned.
ghost use Rattle.std.specs.Prelude.{◌≡◌, ◌≤◌, ℕ, None, IfSome, length};
ghost use Rattle.be_store.specs.Live.{IsLiveOf};
ghost use Rattle.be_store.specs.Passes.{IsPassOf, IsPinnedTo};
ghost use Rattle.be_store.specs.Seats.{pinned_number};
ghost use Rattle.be_store_tests.specs.Staying.{StaysPass};

use be_script_language::{Reply, Request, read_line};
use be_store::{
    Answer, ArrayVec, Done, Kind, Live, Name, Op, Pass, Query, Refusal, Store, Updates, Value,
    parse,
};
use be_test_tools::{list_of, reply_lines};
use std::alloc::Global;

/// A write's outcome: its commit number and the operations' outcomes, or why it was refused.
type Written = Result<(u64, ArrayVec<Done, 64>), Refusal>;

/// Names, each with its value or its kind.
type Listed<T> = Result<Vec<(Name, T)>, Refusal>;

/// A reply as a text, or why the request was refused.
pub(crate) type Text = Result<String, Refusal>;

pub(crate) fn written_text(alloc: Global, written: Written) -> Text {
    let (number, dones) = written?;
    Ok(reply_lines(alloc, &Reply::Committed(number, dones))?)
}

/// An answer's pin, followed by its nodes.
fn nodes_text(alloc: Global, answer: Result<Answer, Refusal>) -> Text {
    let Answer { pin, nodes } = answer?;
    let mut text = reply_lines(alloc, &Reply::Pinned(pin))?;
    text.push_str(reply_lines(alloc, &Reply::Nodes(nodes))?.as_str())?;
    Ok(text)
}

fn updates_text(alloc: Global, updates: Result<Updates, Refusal>) -> Text {
    let Updates { created, removed } = updates?;
    Ok(reply_lines(alloc, &Reply::Updates(created, removed))?)
}

fn attributes_text(alloc: Global, list: Listed<Value>) -> Text {
    Ok(reply_lines(alloc, &Reply::Attributes(list?))?)
}

fn kinds_text(alloc: Global, list: Listed<Kind>) -> Text {
    Ok(reply_lines(alloc, &Reply::Kinds(list?))?)
}

fn text_of(alloc: Global, reply: Reply) -> Text {
    Ok(reply_lines(alloc, &reply)?)
}

/// Writes a list. BadLimits if it has no operations, or more than 64.
pub(crate) fn write(store: &Store, pass: &mut Pass, ops: &[Op]) -> Written
    requires { IsPassOf store.now pass.old }
    ensures { StaysPass store.now pass.old pass.new }
{
    if ops.is_empty() || ops.len() > 64 {
        return Err(Refusal::BadLimits);
    }
    store.apply(pass, ops)
}

fn pin(store: &Store, alloc: Global, pass: &mut Pass) -> Text
    requires { IsPassOf store.now pass.old }
    ensures { StaysPass store.now pass.old pass.new }
{
    match pass.pinned() {
        Some(_) => text_of(alloc, Reply::AlreadyPinned),
        None => text_of(alloc, Reply::Pinned(store.pin(pass))),
    }
}

fn unpin(store: &Store, alloc: Global, pass: &mut Pass) -> Text
    requires { IsPassOf store.now pass.old }
    ensures { StaysPass store.now pass.old pass.new }
{
    match pass.pinned() {
        Some(_) => {
            store.unpin(pass);
            text_of(alloc, Reply::Done)
        }
        None => text_of(alloc, Reply::NotPinned),
    }
}

/// A query's answer, in a list that had another node before.
fn find(store: &Store, alloc: Global, pass: &mut Pass, text: &str) -> Text
    requires pass { IsPassOf store.now pass.old }
    requires pinned { (n : ℕ) × IsPinnedTo pass.old.knows n }
    ensures { StaysPass store.now pass.old pass.new }
{
    let query = parse(alloc, text)?;
    let mut nodes = Vec::new(alloc);
    nodes.push(1_000)?;
    let pin = store.query_into(alloc, pass, &query, &mut nodes)?;
    nodes_text(alloc, Ok(Answer { pin, nodes }))
}

/// The nodes that a live query finds, in a list that it is run with twice.
fn find_again(store: &Store, alloc: Global, pass: &mut Pass, live: &mut Live) -> Text
    requires pass { IsPassOf store.now pass.old }
    requires pinned { (n : ℕ) × IsPinnedTo pass.old.knows n }
    requires own { IsLiveOf store.now live.old }
    ensures pass { StaysPass store.now pass.old pass.new }
    ensures own { IsLiveOf store.now live.new }
{
    let mut nodes = Vec::new(alloc);
    live.query_into(store, pass, &mut nodes)?;
    let pin = live.query_into(store, pass, &mut nodes)?;
    nodes_text(alloc, Ok(Answer { pin, nodes }))
}

/// What a live query finds at the pin, without a refresh.
fn found_text(store: &Store, alloc: Global, pass: &mut Pass, live: &mut Live) -> Text
    requires pass { IsPassOf store.now pass.old }
    requires own { IsLiveOf store.now live.old }
    ensures pass { StaysPass store.now pass.old pass.new }
    ensures own { IsLiveOf store.now live.new }
{
    match pass.pinned() {
        Some(_) => find_again(store, alloc, pass, live),
        None => text_of(alloc, Reply::NotPinned),
    }
}

/// The same, if there is a live query; BadLimits if there is none.
pub(crate) fn ask_again(
    store: &Store,
    alloc: Global,
    pass: &mut Pass,
    live: &mut Option<Live>,
) -> Text
    requires pass { IsPassOf store.now pass.old }
    requires own { IfSome live.old (λ l. IsLiveOf store.now l) }
    ensures pass { StaysPass store.now pass.old pass.new }
    ensures own { IfSome live.new (λ l. IsLiveOf store.now l) }
{
    match live {
        Some(live) => found_text(store, alloc, pass, live),
        None => Err(Refusal::BadLimits),
    }
}

/// Which nodes have joined a live query's answer since its last refresh, and which have left. It
/// reads at the pin, or at a pin made for the read.
fn refresh(store: &Store, pass: &mut Pass, live: &mut Live) -> Result<Updates, Refusal>
    requires pass { IsPassOf store.now pass.old }
    requires own { IsLiveOf store.now live.old }
    ensures pass { StaysPass store.now pass.old pass.new }
    ensures own { IsLiveOf store.now live.new }
{
    match pass.pinned() {
        Some(_) => live.refresh_changed(store, pass),
        None => refresh_once(store, pass, live),
    }
}

fn refresh_once(store: &Store, pass: &mut Pass, live: &mut Live) -> Result<Updates, Refusal>
    requires pass { IsPassOf store.now pass.old }
    requires unpinned { pinned_number pass.old.knows.phase ≡ None }
    requires own { IsLiveOf store.now live.old }
    ensures pass { StaysPass store.now pass.old pass.new }
    ensures own { IsLiveOf store.now live.new }
{
    let mut version = store.pinned(pass);
    version.refresh_changed(live)
}

/// Reads with a pinned pass.
fn read(store: &Store, alloc: Global, pass: &mut Pass, request: &Request) -> Text
    requires pass { IsPassOf store.now pass.old }
    requires pinned { (n : ℕ) × IsPinnedTo pass.old.knows n }
    ensures { StaysPass store.now pass.old pass.new }
{
    match request {
        Request::Query(text) => find(store, alloc, pass, text.as_str()),
        Request::Get(node, Ok(name)) => text_of(alloc, Reply::Value(store.get(pass, *node, name))),
        Request::Attrs(node) => attributes_text(alloc, store.attrs(alloc, pass, *node)),
        Request::Indices => kinds_text(alloc, store.indices(alloc, pass)),
        _ => text_of(alloc, Reply::BadLine),
    }
}

/// The answer with another pin.
fn answer_at(pin: u64, answer: Result<Answer, Refusal>) -> Result<Answer, Refusal> {
    let Answer { pin: _, nodes } = answer?;
    Ok(Answer { pin, nodes })
}

/// A query's answer at a pin made for the read, with the version's number as its pin.
fn answer_once(
    store: &Store,
    alloc: Global,
    pass: &mut Pass,
    query: &Query,
) -> Result<Answer, Refusal>
    requires pass { IsPassOf store.now pass.old }
    requires unpinned { pinned_number pass.old.knows.phase ≡ None }
    ensures { StaysPass store.now pass.old pass.new }
{
    let mut version = store.pinned(pass);
    let answer = version.query(alloc, query);
    answer_at(version.number(), answer)
}

fn value_once(store: &Store, pass: &mut Pass, node: u64, name: &Name) -> Option<Value>
    requires pass { IsPassOf store.now pass.old }
    requires unpinned { pinned_number pass.old.knows.phase ≡ None }
    ensures { StaysPass store.now pass.old pass.new }
{
    let mut version = store.pinned(pass);
    version.get(node, name)
}

fn attrs_once(store: &Store, alloc: Global, pass: &mut Pass, node: u64) -> Listed<Value>
    requires pass { IsPassOf store.now pass.old }
    requires unpinned { pinned_number pass.old.knows.phase ≡ None }
    ensures { StaysPass store.now pass.old pass.new }
{
    let mut version = store.pinned(pass);
    version.attrs(alloc, node)
}

fn indices_once(store: &Store, alloc: Global, pass: &mut Pass) -> Listed<Kind>
    requires pass { IsPassOf store.now pass.old }
    requires unpinned { pinned_number pass.old.knows.phase ≡ None }
    ensures { StaysPass store.now pass.old pass.new }
{
    let mut version = store.pinned(pass);
    version.indices(alloc)
}

/// The reply to a query, at a pin made for the read.
fn query_once(store: &Store, alloc: Global, pass: &mut Pass, text: &str) -> Text
    requires pass { IsPassOf store.now pass.old }
    requires unpinned { pinned_number pass.old.knows.phase ≡ None }
    ensures { StaysPass store.now pass.old pass.new }
{
    match parse(alloc, text) {
        Ok(query) => nodes_text(alloc, answer_once(store, alloc, pass, &query)),
        Err(refusal) => Err(refusal),
    }
}

/// Reads with a pass that isn't pinned, at a pin made for the read.
fn read_once(store: &Store, alloc: Global, pass: &mut Pass, request: &Request) -> Text
    requires pass { IsPassOf store.now pass.old }
    requires unpinned { pinned_number pass.old.knows.phase ≡ None }
    ensures { StaysPass store.now pass.old pass.new }
{
    match request {
        Request::Query(text) => query_once(store, alloc, pass, text.as_str()),
        Request::Get(node, Ok(name)) => {
            text_of(alloc, Reply::Value(value_once(store, pass, *node, name)))
        }
        Request::Attrs(node) => attributes_text(alloc, attrs_once(store, alloc, pass, *node)),
        Request::Indices => kinds_text(alloc, indices_once(store, alloc, pass)),
        _ => text_of(alloc, Reply::BadLine),
    }
}

/// Carries out a request that isn't a write and isn't about a live query.
fn ask(store: &Store, alloc: Global, pass: &mut Pass, request: &Request) -> Text
    requires { IsPassOf store.now pass.old }
    ensures { StaysPass store.now pass.old pass.new }
{
    match request {
        Request::Pin => pin(store, alloc, pass),
        Request::Unpin => unpin(store, alloc, pass),
        _ => match pass.pinned() {
            Some(_) => read(store, alloc, pass, request),
            None => read_once(store, alloc, pass, request),
        },
    }
}

/// What a refresh finds, or that there is no live query.
fn updates(store: &Store, alloc: Global, pass: &mut Pass, live: &mut Option<Live>) -> Text
    requires pass { IsPassOf store.now pass.old }
    requires own { IfSome live.old (λ l. IsLiveOf store.now l) }
    ensures pass { StaysPass store.now pass.old pass.new }
    ensures own { IfSome live.new (λ l. IsLiveOf store.now l) }
{
    match live {
        Some(live) => updates_text(alloc, refresh(store, pass, live)),
        None => text_of(alloc, Reply::NoLiveQuery),
    }
}

/// Parses a request that isn't a list of operations.
fn asked(alloc: Global, words: &str) -> Result<Request, Refusal> {
    Ok(read_line(alloc, words.as_bytes())?)
}

/// A pass's reply. The words are a list of operations separated by `;`, or any other request of a
/// script's line.
pub(crate) fn answer(
    store: &Store,
    alloc: Global,
    pass: &mut Pass,
    live: &mut Option<Live>,
    words: &str,
) -> Text
    requires pass { IsPassOf store.now pass.old }
    requires own { IfSome live.old (λ l. IsLiveOf store.now l) }
    ensures pass { StaysPass store.now pass.old pass.new }
    ensures own { IfSome live.new (λ l. IsLiveOf store.now l) }
{
    match list_of(alloc, words) {
        Ok(ops) => return written_text(alloc, write(store, pass, ops.as_slice())),
        Err(Refusal::OutOfMemory) => return Err(Refusal::OutOfMemory),
        Err(_) => {}
    }
    match asked(alloc, words) {
        Ok(Request::Refresh) => updates(store, alloc, pass, live),
        Ok(request) => ask(store, alloc, pass, &request),
        Err(refusal) => Err(refusal),
    }
}
