//! How many pages a volume needs. A page of a packed tree has 12 pairs, or leads to 12 pages below.
//! The catalog has a pair for each node and each attribute, and an index one for each attribute
//! that it holds. The version page comes on top.
use crate::tests::built::{Built, opened};
use crate::tests::given::begun;
use be_store::{Kind, Op, Refusal, Value};
use be_store_building::StoreBuilder;
use be_test_tools::{again, numbered};
use be_value::word_of;
use std::alloc::Global;
use std::test::Fail;

/// How many nodes a volume has, how many attributes each has, and how many indices, which hold the
/// first of these attributes.
#[derive(Clone, Copy)]
struct Shape {
    nodes: u64,
    attributes: u8,
    indices: u8,
}

/// The numbers of nodes: around the sizes at which the trees get another page or another level, and
/// between them.
const COUNTS: &str =
    "0 1 35 36 37 47 48 49 72 84 85 100 143 144 145 156 157 287 288 289 432 433 575 576 577 1000 \
     1727 1728 1729 2000";

/// The attributes and indices.
const KINDS: [(u8, u8); 4] = [(0, 0), (1, 1), (3, 2), (11, 0)];

/// How many pages a packed tree has.
fn pages_of_tree(pairs: u64) -> u64 {
    let mut pages: u64 = 0;
    let mut level = pairs;
    for _ in 0..20 {
        level = level.div_ceil(12);
        pages = pages.saturating_add(level);
        if level <= 1 {
            return pages;
        }
    }
    pages
}

/// How many pages a volume has.
fn pages_of(shape: Shape) -> u64 {
    let pairs = u64::from(shape.attributes).saturating_add(1);
    let catalog = pages_of_tree(shape.nodes.saturating_mul(pairs));
    let index = pages_of_tree(shape.nodes);
    let indices = index.saturating_mul(u64::from(shape.indices));
    catalog.saturating_add(indices).saturating_add(1)
}

/// Gives a node with its attributes. Neighbours have the same value.
fn give_node(builder: &mut StoreBuilder, shape: Shape, node: u64) -> Result<(), Refusal> {
    builder.node(node)?;
    for i in 0..shape.attributes {
        let value = Value::uint64(node / 2);
        builder.attribute(&numbered(i)?, &value, i < shape.indices)?;
    }
    Ok(())
}

/// Gives the indices and the nodes.
fn give(builder: &mut StoreBuilder, shape: Shape) -> Result<(), Refusal> {
    for i in 0..shape.indices {
        builder.index(&numbered(i)?, Kind::Ullg)?;
    }
    for node in 1..=shape.nodes {
        give_node(builder, shape, node)?;
    }
    Ok(())
}

/// Opens a store with this many pages.
fn build(alloc: Global, shape: Shape, pages: u64) -> Result<Built, Refusal> {
    let mut builder = begun(alloc, pages)?;
    give(&mut builder, shape)?;
    opened(builder, shape.nodes.saturating_add(1))
}

/// Whether no page is left for a new node.
fn is_full(built: &mut Built) -> Result<bool, Refusal> {
    match built.write(&[Op::New]) {
        Err(Refusal::Full(0)) => Ok(true),
        Err(Refusal::OutOfMemory) => Err(Refusal::OutOfMemory),
        _ => Ok(false),
    }
}

/// Whether all nodes are listed, and this many pages are free. If there are none, no write finds
/// one.
fn is_whole(alloc: Global, built: &mut Built, shape: Shape, free: u64) -> Result<bool, Refusal> {
    built.pin();
    let nodes = built.nodes(alloc)?;
    let is_last = nodes.last().copied().unwrap_or(0) == shape.nodes;
    if nodes.len() as u64 != shape.nodes || !is_last || built.pages()?.1 != free {
        return Ok(false);
    }
    Ok(free > 0 || is_full(built)?)
}

/// Fails unless a store with this many pages opens, and has the rest free.
fn check_opens(alloc: Global, shape: Shape, pages: u64, free: u64) -> Result<(), Fail> {
    let mut built = again!(build(alloc, shape, pages))?;
    if again!(is_whole(alloc, &mut built, shape, free))? {
        return Ok(());
    }
    Err(Fail::new(shape.nodes))
}

/// Fails unless this many pages aren't enough.
fn check_full(alloc: Global, shape: Shape, pages: u64) -> Result<(), Fail> {
    match again!(build(alloc, shape, pages)) {
        Err(Refusal::Full(0)) => Ok(()),
        _ => Err(Fail::new(shape.nodes)),
    }
}

/// Fails unless the volume needs exactly the pages that its trees have. No store has fewer than
/// eight.
fn check_size(alloc: Global, shape: Shape) -> Result<(), Fail> {
    let needed = pages_of(shape);
    if needed <= 8 {
        return check_opens(alloc, shape, 8, 8 - needed);
    }
    check_opens(alloc, shape, needed, 0)?;
    check_full(alloc, shape, needed - 1)
}

/// The same for each number of nodes.
fn check_counts(alloc: Global, attributes: u8, indices: u8) -> Result<(), Fail> {
    for count in COUNTS.split(' ') {
        let nodes = word_of(count.as_bytes()).unwrap_or(0);
        let shape = Shape {
            nodes,
            attributes,
            indices,
        };
        check_size(alloc, shape)?;
    }
    Ok(())
}

/// The same for several attributes and indices.
pub(crate) fn check_sizes(alloc: Global) -> Result<(), Fail> {
    for (attributes, indices) in KINDS {
        check_counts(alloc, attributes, indices)?;
    }
    Ok(())
}
