//! Fills a store with 1,856,000 nodes.
ghost use Rattle.std.specs.Prelude.{◌≡◌, None};
ghost use Rattle.be_store_large_tests.specs.Imports.{pinned_number, IsPassOf};

use be_store::{Kind, Limits, Name, Op, Pass, Refusal, Store, Value, parse};
use be_test_tools::both_of;
use std::alloc::Global;

/// The transactions of 64 new nodes each. A page has the numbers of about eleven nodes.
const BATCHES: u64 = 29_000;

/// What a filled store has and finds.
#[derive(Drop)]
pub(crate) struct Filled {
    /// The pages in use.
    pub(crate) used: u64,
    /// The nodes created.
    pub(crate) created: u64,
    /// Why the query is refused at a pin from before there was an index.
    pub(crate) early: Option<Refusal>,
    /// How many nodes are listed from the 50th last on.
    pub(crate) listed: usize,
    /// The lowest and the highest node that the query finds.
    pub(crate) found: (u64, u64),
}

fn limits(pages: u64) -> Limits {
    Limits {
        pages,
        passes: 2,
        commits: 30_000,
    }
}

/// How many passes a large store with this many pages has.
pub(crate) fn passes_of(alloc: Global, pages: u64) -> Result<u64, Refusal> {
    let (_, passes) = Store::open_large(alloc, limits(pages))?;
    Ok(passes.len() as u64)
}

/// The operations that create 64 nodes.
fn batch(alloc: Global) -> Result<Vec<Op>, Refusal> {
    let mut ops = Vec::with_capacity(alloc, 64)?;
    for _ in 0..64u64 {
        ops.push(Op::New)?;
    }
    Ok(ops)
}

/// Writes a transaction.
fn write(store: &Store, pass: &mut Pass, ops: &[Op]) -> Result<u64, Refusal>
    requires { IsPassOf store.now pass.old }
    ensures { IsPassOf store.now pass.new }
{
    if ops.is_empty() || ops.len() > 64 {
        return Err(Refusal::BadLimits);
    }
    let (number, _) = store.apply(pass, ops)?;
    Ok(number)
}

/// Creates all nodes, and returns how many pages are then in use.
fn create(store: &Store, pass: &mut Pass, ops: &[Op]) -> Result<u64, Refusal>
    requires { IsPassOf store.now pass.old }
    ensures { IsPassOf store.now pass.new }
{
    for _ in 0..BATCHES {
        write(store, pass, ops)?;
    }
    let status = store.status(pass)?;
    Ok(status.pages.saturating_sub(status.free))
}

/// Gives the first node and the last the same indexed number.
fn mark(store: &Store, pass: &mut Pass, last: u64) -> Result<u64, Refusal>
    requires { IsPassOf store.now pass.old }
    ensures { IsPassOf store.now pass.new }
{
    let ops = [
        Op::MkIndex(Name::new("k")?, Kind::Long),
        Op::Set(1, Name::new("k")?, Value::int32(7)),
        Op::Set(last, Name::new("k")?, Value::int32(7)),
    ];
    write(store, pass, &ops)
}

/// What a pass reads at one pin: how many nodes are listed from a number on, and the two nodes that
/// have the indexed number.
fn read_pinned(
    store: &Store,
    alloc: Global,
    pass: &mut Pass,
    from: u64,
) -> Result<(usize, (u64, u64)), Refusal>
    requires pass { IsPassOf store.now pass.old }
    requires unpinned { pinned_number pass.old.knows.phase ≡ None }
{
    let query = parse(alloc, "k==7")?;
    let mut snapshot = store.pinned(pass);
    let listed = snapshot.nodes(alloc, from, 1000)?;
    let found = snapshot.query(alloc, &query)?;
    match (found.nodes.first(), found.nodes.last()) {
        (Some(&first), Some(&last)) if found.nodes.len() == 2 => Ok((listed.len(), (first, last))),
        _ => Err(Refusal::BadLimits),
    }
}

/// Marks the first node and the last while a pass is pinned. Returns why the pass can't find them.
fn mark_after_pin(
    store: &Store,
    alloc: Global,
    writer: &mut Pass,
    reader: &mut Pass,
    last: u64,
) -> Result<Option<Refusal>, Refusal>
    requires writer { IsPassOf store.now writer.old }
    requires reader { IsPassOf store.now reader.old }
    requires unpinned { pinned_number reader.old.knows.phase ≡ None }
    ensures reader { IsPassOf store.now reader.new }
{
    let query = parse(alloc, "k==7")?;
    let mut snapshot = store.pinned(reader);
    mark(store, writer, last)?;
    match snapshot.query(alloc, &query) {
        Ok(_) => Ok(None),
        Err(refusal) => Ok(Some(refusal)),
    }
}

/// Marks two nodes after a pass has pinned, and then reads at its next pin.
fn mark_and_read(
    store: &Store,
    alloc: Global,
    writer: &mut Pass,
    reader: &mut Pass,
    last: u64,
) -> Result<(Option<Refusal>, usize, (u64, u64)), Refusal>
    requires writer { IsPassOf store.now writer.old }
    requires reader { IsPassOf store.now reader.old }
{
    let early = match reader.pinned() {
        Some(_) => Err(Refusal::BadLimits),
        None => mark_after_pin(store, alloc, writer, reader, last),
    };
    let early = early?;
    let (listed, found) = match reader.pinned() {
        Some(_) => Err(Refusal::BadLimits),
        None => read_pinned(store, alloc, reader, last.saturating_sub(49)),
    }?;
    Ok((early, listed, found))
}

/// Fills a store, and reads it.
pub(crate) fn fill(alloc: Global) -> Result<Filled, Refusal> {
    let (store, passes) = Store::open_large(alloc, limits(180_000))?;
    let (mut writer, mut reader) = both_of(passes)?;
    let ops = batch(alloc)?;
    let used = create(&store, &mut writer, ops.as_slice())?;
    let created = BATCHES * 64;
    let (early, listed, found) = mark_and_read(&store, alloc, &mut writer, &mut reader, created)?;
    Ok(Filled {
        used,
        created,
        early,
        listed,
        found,
    })
}
