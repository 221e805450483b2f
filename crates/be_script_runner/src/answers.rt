//! Answers each line.
//!
//! A session consists of the server that the script runs on and what the script keeps besides it: a
//! live query, if there is one, and the operations queued for one write, if a batch is open. A
//! refused or bad line changes neither, except that a commit ends its batch even if it is refused.
//! If other passes write, a line runs on the store as they left it. A read doesn't change that
//! store, and its reply is about that store.
ghost use Rattle.std.specs.Prelude.{◌≡◌, ◌≤◌, Ok, List, Option, length, vec_len};
ghost use Rattle.be_script_runner.specs.Output as spec;
ghost use Rattle.be_script_language.specs.Request as requests;
ghost use Rattle.be_script_runner.specs.Imports.{reply_of, request_of, LiveQuery};
ghost use Rattle.be_script_runner.specs.Store.{Store, Joins};
ghost use Rattle.be_script_runner.specs.View.{RepliesToAny, session, queued_ops, unbatched};
ghost use Rattle.be_script_runner.specs.View.{batched, watched};

use crate::client::Client;
use crate::stores::Server;
use be_plan::explain;
use be_query::parse;
use be_script_language::{Paging, Reply, Request};
use be_store::Live;
use be_value::{Name, Refusal};
use be_volume::{Done, Op};
use std::alloc::Global;

/// The maximum number of operations in a batch.
const MAX_BATCH: usize = 64;

fn begin(alloc: Global, client: &mut Client) -> Reply
    requires few { length (queued_ops client.old) ≤ 64 }
    ensures replies { (store : Store) → spec.Replies (session store client.old) requests.begin
        (reply_of result) (session store client.new) }
    ensures few { length (queued_ops client.new) ≤ 64 }
{
    if client.batch.is_some() {
        return Reply::AlreadyBegun;
    }
    client.batch = Some(Vec::new(alloc));
    Reply::Done
}

fn abort(client: &mut Client) -> Reply
    ensures replies { (store : Store) → spec.Replies (session store client.old) requests.abort
        (reply_of result) (session store client.new) }
    ensures few { length (queued_ops client.new) ≤ 64 }
{
    match client.batch.take() {
        Some(_) => Reply::Done,
        None => Reply::NotBegun,
    }
}

/// The reply to a write that has one operation.
fn done_reply(dones: &[Done]) -> Reply
    ensures { reply_of result ≡ spec.done_reply dones.now }
{
    match dones.first() {
        Some(Done::Node(node)) => Reply::Node(*node),
        _ => Reply::Done,
    }
}

/// Writes one operation.
fn write<S: Server>(server: &mut S, op: Op) -> Reply
    ensures replies { (live : Option LiveQuery) →
        spec.Serves (unbatched (S.shows server.old) live) (requests.write (Ok op)) (reply_of result)
        (unbatched (S.shows server.new) live) }
    ensures stays { S.kept server.new ≡ S.kept server.old }
{
    match server.apply(&[op]) {
        Ok((_, dones)) => done_reply(dones.as_slice()),
        Err(refusal) => Reply::Refused(refusal),
    }
}

/// Queues an operation, if the batch has room for it.
fn enqueue(ops: &mut Vec<Op>, op: Op) -> Reply
    requires few { vec_len ops.old ≤ 64 }
    ensures replies { (store : Store) (live : Option LiveQuery) →
        spec.Replies (batched store ops.old.items live) (requests.write (Ok op)) (reply_of result)
        (batched store ops.new.items live) }
    ensures few { vec_len ops.new ≤ 64 }
{
    if ops.len() >= MAX_BATCH {
        return Reply::FullBatch;
    }
    match ops.push(op) {
        Ok(()) => Reply::Queued,
        Err(_) => Reply::Refused(Refusal::OutOfMemory),
    }
}

/// Writes an operation, or queues it if a batch is open.
fn take<S: Server>(server: &mut S, client: &mut Client, op: Op) -> Reply
    requires few { length (queued_ops client.old) ≤ 64 }
    ensures replies { spec.Serves (session (S.shows server.old) client.old) (requests.write (Ok op))
        (reply_of result)
        (session (S.shows server.new) client.new) }
    ensures stays { S.kept server.new ≡ S.kept server.old }
    ensures few { length (queued_ops client.new) ≤ 64 }
{
    match &mut client.batch {
        Some(ops) => enqueue(ops, op),
        None => write(server, op),
    }
}

/// Writes or queues a write line's operation, if the line has a valid one.
fn write_line<S: Server>(server: &mut S, client: &mut Client, op: Result<Op, Refusal>) -> Reply
    requires few { length (queued_ops client.old) ≤ 64 }
    ensures replies { spec.Serves (session (S.shows server.old) client.old) (requests.write op)
        (reply_of result) (session (S.shows server.new) client.new) }
    ensures stays { S.kept server.new ≡ S.kept server.old }
    ensures few { length (queued_ops client.new) ≤ 64 }
{
    match op {
        Ok(op) => take(server, client, op),
        Err(refusal) => Reply::Refused(refusal),
    }
}

/// Writes the batch's operations as one transaction. This ends the batch even if the write is
/// refused.
fn commit<S: Server>(server: &mut S, client: &mut Client) -> Reply
    requires few { length (queued_ops client.old) ≤ 64 }
    ensures replies { spec.Serves (session (S.shows server.old) client.old) requests.commit
        (reply_of result) (session (S.shows server.new) client.new) }
    ensures stays { S.kept server.new ≡ S.kept server.old }
    ensures few { length (queued_ops client.new) ≤ 64 }
{
    let Some(ops) = client.batch.take() else {
        return Reply::NotBegun;
    };
    if ops.is_empty() {
        client.batch = Some(ops);
        return Reply::EmptyBatch;
    }
    match server.apply(ops.as_slice()) {
        Ok((number, dones)) => Reply::Committed(number, dones),
        Err(refusal) => Reply::Refused(refusal),
    }
}

fn query<S: Server>(alloc: Global, server: &mut S, text: &str) -> Reply
    ensures replies { RepliesToAny (S.shows server.new) (requests.query text.now)
        (reply_of result) }
    ensures joins { Joins (S.shows server.old) (S.shows server.new) }
    ensures stays { S.kept server.new ≡ S.kept server.old }
{
    match parse(alloc, text) {
        Ok(query) => match server.query(&query) {
            Ok(nodes) => Reply::Nodes(nodes),
            Err(refusal) => Reply::Refused(refusal),
        },
        Err(refusal) => Reply::Refused(refusal),
    }
}

/// A page of the answer to a query.
fn page_of<S: Server>(alloc: Global, server: &mut S, paging: &Paging, text: &str) -> Reply
    ensures replies { RepliesToAny (S.shows server.new) (requests.page (Ok paging.now) text.now)
        (reply_of result) }
    ensures joins { Joins (S.shows server.old) (S.shows server.new) }
    ensures stays { S.kept server.new ≡ S.kept server.old }
{
    match parse(alloc, text) {
        Ok(query) => match server.page(query, paging) {
            Ok(page) => Reply::Page(page),
            Err(refusal) => Reply::Refused(refusal),
        },
        Err(refusal) => Reply::Refused(refusal),
    }
}

/// A page of the answer to a query. If the page's name or value is invalid, that error takes
/// precedence.
fn page<S: Server>(
    alloc: Global,
    server: &mut S,
    paging: Result<Paging, Refusal>,
    text: &str,
) -> Reply
    ensures replies { RepliesToAny (S.shows server.new) (requests.page paging text.now)
        (reply_of result) }
    ensures joins { Joins (S.shows server.old) (S.shows server.new) }
    ensures stays { S.kept server.new ≡ S.kept server.old }
{
    match paging {
        Ok(paging) => page_of(alloc, server, &paging, text),
        Err(refusal) => Reply::Refused(refusal),
    }
}

/// The indices that would answer a query. An error in the query's text comes before an error in the
/// plan.
fn explain_query<S: Server>(alloc: Global, server: &mut S, text: &str) -> Reply
    ensures replies { RepliesToAny (S.shows server.new) (requests.explain text.now)
        (reply_of result) }
    ensures joins { Joins (S.shows server.old) (S.shows server.new) }
    ensures stays { S.kept server.new ≡ S.kept server.old }
{
    let query = match parse(alloc, text) {
        Ok(query) => query,
        Err(refusal) => return Reply::Refused(refusal),
    };
    let cover = match server.explain(&query) {
        Ok(cover) => cover,
        Err(refusal) => return Reply::Refused(refusal),
    };
    match explain(alloc, &query, &cover) {
        Ok(text) => Reply::Cover(text),
        Err(refusal) => Reply::Refused(refusal),
    }
}

fn get<S: Server>(server: &mut S, node: u64, name: Result<Name, Refusal>) -> Reply
    ensures replies { RepliesToAny (S.shows server.new) (requests.get node name) (reply_of result) }
    ensures joins { Joins (S.shows server.old) (S.shows server.new) }
    ensures stays { S.kept server.new ≡ S.kept server.old }
{
    match name {
        Ok(name) => Reply::Value(server.get(node, &name)),
        Err(refusal) => Reply::Refused(refusal),
    }
}

fn attrs<S: Server>(server: &mut S, node: u64) -> Reply
    ensures replies { RepliesToAny (S.shows server.new) (requests.attrs node) (reply_of result) }
    ensures joins { Joins (S.shows server.old) (S.shows server.new) }
    ensures stays { S.kept server.new ≡ S.kept server.old }
{
    match server.attrs(node) {
        Ok(list) => Reply::Attributes(list),
        Err(refusal) => Reply::Refused(refusal),
    }
}

fn indices<S: Server>(server: &mut S) -> Reply
    ensures replies { RepliesToAny (S.shows server.new) requests.indices (reply_of result) }
    ensures joins { Joins (S.shows server.old) (S.shows server.new) }
    ensures stays { S.kept server.new ≡ S.kept server.old }
{
    match server.indices() {
        Ok(list) => Reply::Kinds(list),
        Err(refusal) => Reply::Refused(refusal),
    }
}

/// Pins the version after all writes so far, unless a version is already pinned.
fn pin<S: Server>(server: &mut S) -> Reply
    ensures replies { (client : Client) →
        spec.Serves (session (S.shows server.old) client) requests.pin (reply_of result)
        (session (S.shows server.new) client) }
    ensures stays { S.kept server.new ≡ S.kept server.old }
{
    if server.is_pinned() {
        return Reply::AlreadyPinned;
    }
    Reply::Pinned(server.pin())
}

fn unpin<S: Server>(server: &mut S) -> Reply
    ensures replies { (client : Client) →
        spec.Replies (session (S.shows server.old) client) requests.unpin (reply_of result)
        (session (S.shows server.new) client) }
    ensures stays { S.kept server.new ≡ S.kept server.old }
{
    if !server.is_pinned() {
        return Reply::NotPinned;
    }
    server.unpin();
    Reply::Done
}

/// Replaces the live query. The query is accepted whether or not indices cover it.
fn watch(alloc: Global, client: &mut Client, text: &str) -> Reply
    ensures replies { (store : Store) → spec.Replies (session store client.old)
        (requests.live text.now) (reply_of result) (session store client.new) }
    ensures same { client.new.batch ≡ client.old.batch }
{
    match parse(alloc, text) {
        Ok(query) => {
            client.live = Some(Live::new(alloc, query));
            Reply::Done
        }
        Err(refusal) => Reply::Refused(refusal),
    }
}

/// The nodes that have joined the live query's answer since it last ran, and the nodes that have
/// left it.
fn update<S: Server>(server: &mut S, live: &mut Live) -> Reply
    ensures replies { (batch : Option (List Op)) →
        spec.Replies (watched (S.shows server.new) batch live.old) requests.refresh
        (reply_of result) (watched (S.shows server.new) batch live.new) }
    ensures joins { Joins (S.shows server.old) (S.shows server.new) }
    ensures stays { S.kept server.new ≡ S.kept server.old }
{
    let nodes = match server.query(live.query()) {
        Ok(nodes) => nodes,
        Err(refusal) => return Reply::Refused(refusal),
    };
    match live.update(nodes) {
        Ok(updates) => Reply::Updates(updates.created, updates.removed),
        Err(refusal) => Reply::Refused(refusal),
    }
}

/// Runs the live query, if there is one.
fn refresh<S: Server>(server: &mut S, client: &mut Client) -> Reply
    ensures replies { spec.Replies (session (S.shows server.new) client.old) requests.refresh
        (reply_of result) (session (S.shows server.new) client.new) }
    ensures same { client.new.batch ≡ client.old.batch }
    ensures joins { Joins (S.shows server.old) (S.shows server.new) }
    ensures stays { S.kept server.new ≡ S.kept server.old }
{
    match &mut client.live {
        Some(live) => update(server, live),
        None => Reply::NoLiveQuery,
    }
}

/// Carries out what a line requests, and returns its reply.
pub fn answer<S: Server>(
    alloc: Global,
    server: &mut S,
    client: &mut Client,
    request: Request,
) -> Reply
    requires few { length (queued_ops client.old) ≤ 64 }
    ensures replies { spec.Serves (session (S.shows server.old) client.old) (request_of request)
        (reply_of result) (session (S.shows server.new) client.new) }
    ensures stays { S.kept server.new ≡ S.kept server.old }
    ensures few { length (queued_ops client.new) ≤ 64 }
{
    match request {
        Request::Silent => Reply::Silent,
        Request::Malformed => Reply::BadLine,
        Request::Write(op) => write_line(server, client, op),
        Request::Query(text) => query(alloc, server, text.as_str()),
        Request::Page(paging, text) => page(alloc, server, paging, text.as_str()),
        Request::Explain(text) => explain_query(alloc, server, text.as_str()),
        Request::Get(node, name) => get(server, node, name),
        Request::Attrs(node) => attrs(server, node),
        Request::Indices => indices(server),
        Request::Pin => pin(server),
        Request::Unpin => unpin(server),
        Request::Live(text) => watch(alloc, client, text.as_str()),
        Request::Refresh => refresh(server, client),
        Request::Begin => begin(alloc, client),
        Request::Commit => commit(server, client),
        Request::Abort => abort(client),
    }
}
