//! A live query that is refreshed between random writes, and a list that is kept up to date with
//! the results of the refreshes.
ghost use Rattle.std.specs.Prelude.{◌≡◌, ◌<◌, ◌≤◌, IfOk, None, length};
ghost use Rattle.be_store.specs.Live.{IsLiveOf};
ghost use Rattle.be_store.specs.Passes.{IsPassOf, IsPinnedTo};
ghost use Rattle.be_store.specs.Seats.{pinned_number};

use be_store::{Kind, Limits, Live, Name, Op, Pass, Refusal, Store, Updates, Value, parse};
use be_test_tools::both_of;
use std::alloc::Global;

/// The maximum number of times that a write is tried while another pass holds the lock.
const TRIES: u64 = 10_000_000;

/// A query that about four in ten nodes satisfy.
const TEXT: &str = "size>30&&size<70||size==5&&other>50";

/// Pseudorandom numbers: each is computed from the previous one.
#[derive(Drop)]
pub(crate) struct Numbers {
    next: u32,
}

impl Numbers {
    pub(crate) fn new(first: u32) -> Numbers {
        Numbers { next: first }
    }

    fn take(&mut self) -> u32 {
        let number = self.next;
        self.next = number.wrapping_mul(1_664_525).wrapping_add(1_013_904_223);
        number
    }
}

/// An operation on one of these nodes, chosen by a random number.
fn random_op(nodes: u32, number: u32) -> Result<Op, Refusal>
    requires { 0 < nodes }
{
    let node = u64::from((number >> 8) % nodes + 1);
    let size = Name::new("size")?;
    let value = Value::int64(i64::from((number >> 16) % 100));
    if (number >> 24) % 32 == 9 {
        return Ok(Op::MkIndex(Name::new("other")?, Kind::Llng));
    }
    if (number >> 24) % 32 == 10 {
        return Ok(Op::RmIndex(Name::new("other")?));
    }
    match (number >> 24) % 8 {
        0 => Ok(Op::New),
        1 => Ok(Op::Drop(node)),
        2 => Ok(Op::Unset(node, size)),
        3 => Ok(Op::Set(node, Name::new("other")?, value)),
        _ => Ok(Op::Set(node, size, value)),
    }
}

/// Writes an operation, which the volume may refuse. The store also refuses it if no page is free
/// because another thread has pinned a version and holds that version's pages.
fn write_or_not(store: &Store, pass: &mut Pass, op: Op) -> Result<(), Refusal>
    requires { IsPassOf store.now pass.old }
    ensures { IsPassOf store.now pass.new }
{
    match store.apply_or_retry(pass, &[op], TRIES) {
        Ok(_) | Err(Refusal::Full(_)) => Ok(()),
        Err(Refusal::NoNode | Refusal::NoAttr | Refusal::IndexExists | Refusal::NoSuchIndex) => {
            Ok(())
        }
        Err(refusal) => Err(refusal),
    }
}

/// Writes this many random operations.
pub(crate) fn write_some(
    store: &Store,
    pass: &mut Pass,
    nodes: u32,
    count: u32,
    numbers: &mut Numbers,
) -> Result<(), Refusal>
    requires pass { IsPassOf store.now pass.old }
    requires nodes { 0 < nodes }
    ensures { IsPassOf store.now pass.new }
{
    for _ in 0..count {
        write_or_not(store, pass, random_op(nodes, numbers.take())?)?;
    }
    Ok(())
}

/// A live query, and a list that is kept up to date with the results of its refreshes.
#[derive(Drop)]
pub(crate) struct Followed {
    live: Live,
    list: Vec<u64>,
}

/// A live query that has never been refreshed.
pub(crate) fn unread(alloc: Global) -> Result<Followed, Refusal>
    ensures { IfOk result (λ followed. followed.live.table ≡ None) }
{
    Ok(Followed {
        live: Live::new(alloc, parse(alloc, TEXT)?),
        list: Vec::new(alloc),
    })
}

/// Removes from a list the nodes that left the answer, and adds those that joined it. Returns false
/// if a node that left isn't in the list, or if a node that joined is already in it.
fn follow(list: &mut Vec<u64>, updates: &Updates) -> Result<bool, Refusal> {
    for node in updates.removed.as_slice() {
        let Some(at) = list.iter().position(|kept| kept == node) else {
            return Ok(false);
        };
        if at < list.len() {
            list.remove(at);
        }
    }
    for node in updates.created.as_slice() {
        if list.as_slice().contains(node) {
            return Ok(false);
        }
        list.push(*node)?;
    }
    list.sort_unstable();
    Ok(true)
}

/// Pins the pass unless it is already pinned, and returns the pin's number.
fn pin_if_not(store: &Store, pass: &mut Pass) -> u64
    requires pass { IsPassOf store.now pass.old }
    ensures pass { IsPassOf store.now pass.new }
    ensures pinned { IsPinnedTo pass.new.knows result }
{
    match pass.pinned() {
        Some(number) => number,
        None => store.pin(pass),
    }
}

/// Refreshes at a pin that is released after the read. Returns whether the list is then equal to
/// the query's answer there.
pub(crate) fn agrees(
    store: &Store,
    alloc: Global,
    pass: &mut Pass,
    followed: &mut Followed,
) -> Result<bool, Refusal>
    requires pass { IsPassOf store.now pass.old }
    requires own { IsLiveOf store.now followed.old.live }
    ensures pass { IsPassOf store.now pass.new }
    ensures own { IsLiveOf store.now followed.new.live }
{
    pin_if_not(store, pass);
    let updates = followed.live.refresh_changed(store, pass)?;
    let found = store.query(alloc, pass, followed.live.query())?;
    store.unpin(pass);
    let kept = follow(&mut followed.list, &updates)?;
    Ok(kept && followed.list.as_slice() == found.nodes.as_slice())
}

/// Refreshes with one of the two passes.
fn agrees_by(
    store: &Store,
    alloc: Global,
    is_writer: bool,
    writer: &mut Pass,
    reader: &mut Pass,
    followed: &mut Followed,
) -> Result<bool, Refusal>
    requires writer { IsPassOf store.now writer.old }
    requires reader { IsPassOf store.now reader.old }
    requires own { IsLiveOf store.now followed.old.live }
    ensures writer { IsPassOf store.now writer.new }
    ensures reader { IsPassOf store.now reader.new }
    ensures own { IsLiveOf store.now followed.new.live }
{
    if is_writer {
        return agrees(store, alloc, writer, followed);
    }
    agrees(store, alloc, reader, followed)
}

/// Repeatedly writes with one pass and refreshes with either. Returns whether the list was always
/// equal to the query's answer.
fn agrees_always(
    store: &Store,
    alloc: Global,
    writer: &mut Pass,
    reader: &mut Pass,
    nodes: u32,
    followed: &mut Followed,
) -> Result<bool, Refusal>
    requires writer { IsPassOf store.now writer.old }
    requires reader { IsPassOf store.now reader.old }
    requires nodes { 0 < nodes }
    requires own { IsLiveOf store.now followed.old.live }
    ensures writer { IsPassOf store.now writer.new }
    ensures reader { IsPassOf store.now reader.new }
    ensures own { IsLiveOf store.now followed.new.live }
{
    let mut numbers = Numbers::new(7);
    for round in 0..200 {
        let count = if round % 20 == 19 {
            70
        } else {
            numbers.next % 6
        };
        write_some(store, writer, nodes, count, &mut numbers)?;
        let is_writer = numbers.next % 3 == 0;
        if !agrees_by(store, alloc, is_writer, writer, reader, followed)? {
            return Ok(false);
        }
    }
    Ok(true)
}

/// Creates this many nodes, with sizes from pseudorandom numbers.
pub(crate) fn make_nodes(store: &Store, pass: &mut Pass, nodes: u32) -> Result<(), Refusal>
    requires { IsPassOf store.now pass.old }
    ensures { IsPassOf store.now pass.new }
{
    let mut numbers = Numbers::new(11);
    for node in 0..nodes {
        let size = Value::int64(i64::from((numbers.take() >> 16) % 100));
        let set = Op::Set(u64::from(node) + 1, Name::new("size")?, size);
        store.apply(pass, &[Op::New, set])?;
    }
    Ok(())
}

/// Runs `agrees_always` in a new store with this many nodes.
fn follows_writes(alloc: Global, nodes: u32) -> Result<bool, Refusal>
    requires { 0 < nodes }
{
    let limits = Limits {
        pages: 1024,
        passes: 2,
        commits: 10_000,
    };
    let (store, passes) = Store::open(alloc, limits)?;
    let (mut writer, mut reader) = both_of(passes)?;
    let size = Op::MkIndex(Name::new("size")?, Kind::Llng);
    store.apply(&mut writer, &[size])?;
    make_nodes(&store, &mut writer, nodes)?;
    let mut followed = unread(alloc)?;
    agrees_always(
        &store,
        alloc,
        &mut writer,
        &mut reader,
        nodes,
        &mut followed,
    )
}

/// With a small answer, each refresh runs the whole query. With an answer of about 160 nodes, a
/// refresh reads only the writes since the last one, if these are few.
pub(crate) fn follows_random_writes(alloc: Global) -> Result<bool, Refusal> {
    Ok(follows_writes(alloc, 40)? && follows_writes(alloc, 400)?)
}
