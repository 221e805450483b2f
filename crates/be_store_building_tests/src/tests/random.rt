//! Random volumes, which a plain volume makes by random operations. A store that is built from each
//! gives the same replies as the plain volume, also to writes.
use crate::tests::built::Built;
use crate::tests::given::built_from;
use be_paged_test_tools::Random;
use be_store::{ArrayVec, Kind, Name, Op, Refusal, Value, parse};
use be_test_tools::{again, indexed_value};
use be_volume::{Done, Volume};
use std::alloc::Global;
use std::test::Fail;

/// The names of attributes, each with its kind. MIME types and raw values can't be in an index.
const NAMES: [(&str, Kind); 7] = [
    ("text", Kind::Cstr),
    ("small", Kind::Long),
    ("large", Kind::Llng),
    ("count", Kind::Ulng),
    ("size", Kind::Ullg),
    ("type", Kind::Mims),
    ("raw", Kind::Rawt),
];

/// Queries on each name. Most indices are made and removed in between, so some aren't covered.
const QUERIES: &str = "text==\"*\"
text==a* && size>=1
small>=-1 || large<0
count!=1
size==18446744073709551615
type==\"*b*\" && small!=0
large>-2 && large<1
small<=0 && raw==\"*\"
raw==\"*\"";

fn random_name(random: &mut Random) -> (&'static str, Kind) {
    NAMES[(random.below(7) % 7) as usize]
}

/// One of a few values of a kind: the lowest, the highest, and some between.
fn random_value(random: &mut Random, kind: Kind) -> Result<Value, Refusal> {
    const TEXTS: [&str; 5] = [
        "",
        "a",
        "ab",
        "b",
        "zzzzzzzzzzzzzzzzzzzzzzzzzzzzzzzzzzzzzzz",
    ];
    let at = (random.below(5) % 5) as usize;
    match kind {
        Kind::Cstr => Value::text(TEXTS[at]),
        Kind::Mims => Value::mime(TEXTS[at]),
        Kind::Rawt => Value::raw(TEXTS[at].as_bytes()),
        Kind::Long => Ok(Value::int32([i32::MIN, -1, 0, 1, i32::MAX][at])),
        Kind::Llng => Ok(Value::int64([i64::MIN, -2, 0, 1, i64::MAX][at])),
        Kind::Ulng => Ok(Value::uint32([0, 1, 2, 1 << 31, u32::MAX][at])),
        Kind::Ullg => Ok(Value::uint64([0, 1, 2, 1 << 63, u64::MAX][at])),
    }
}

/// A random operation on a node below `next`, or on an index. Some are refused.
fn random_op(random: &mut Random, next: u64) -> Result<Op, Refusal> {
    let node = random.below(next);
    let (text, kind) = random_name(random);
    let name = Name::new(text)?;
    match random.below(60) {
        0..6 => Ok(Op::New),
        6 => Ok(Op::Drop(node)),
        7 | 8 => Ok(Op::Unset(node, name)),
        9 => Ok(Op::MkIndex(name, kind)),
        10 if random.below(4) == 0 => Ok(Op::RmIndex(name)),
        11 => Ok(Op::Set(node, name, Value::int32(5))),
        _ => Ok(Op::Set(node, name, random_value(random, kind)?)),
    }
}

/// Applies an operation to the plain volume, which may refuse it.
fn apply(plain: &mut Volume, op: &[Op]) -> Result<ArrayVec<Done, 64>, Refusal> {
    if op.is_empty() || op.len() > 64 || plain.next() > u64::MAX - 65 {
        return Err(Refusal::BadLimits);
    }
    again!(plain.apply(op))
}

/// Applies random operations to the plain volume.
fn change(random: &mut Random, plain: &mut Volume, count: u64) -> Result<(), Refusal> {
    for _ in 0..count {
        let op = random_op(random, plain.next())?;
        let _outcome = apply(plain, &[op]);
    }
    Ok(())
}

/// Whether two lists are equal, or two errors. Its only error is `OutOfMemory`.
fn same<T: PartialEq>(
    one: &Result<Vec<T>, Refusal>,
    other: &Result<Vec<T>, Refusal>,
) -> Result<bool, Refusal> {
    match (one, other) {
        (Ok(one), Ok(other)) => Ok(one.as_slice() == other.as_slice()),
        (Err(Refusal::OutOfMemory), _) => Err(Refusal::OutOfMemory),
        (_, Err(Refusal::OutOfMemory)) => Err(Refusal::OutOfMemory),
        (Err(one), Err(other)) => Ok(one == other),
        _ => Ok(false),
    }
}

/// Whether the same indices have a node.
fn same_held(alloc: Global, built: &mut Built, plain: &Volume, node: u64) -> Result<bool, Refusal> {
    for (text, _) in NAMES {
        let name = Name::new(text)?;
        let is_held = indexed_value(plain, &name, node).is_some();
        if built.is_held(alloc, node, &name)? != is_held {
            return Ok(false);
        }
    }
    Ok(true)
}

/// Whether each number has the same attributes, or no node.
fn same_nodes(alloc: Global, built: &mut Built, plain: &Volume) -> Result<bool, Refusal> {
    for node in 0..=plain.next() {
        let is_same = same(&built.attrs(alloc, node), &plain.attrs(node))?;
        if !is_same || !same_held(alloc, built, plain, node)? {
            return Ok(false);
        }
    }
    Ok(true)
}

/// Whether a query finds the same nodes, or isn't covered.
fn same_query(
    alloc: Global,
    built: &mut Built,
    plain: &Volume,
    text: &str,
) -> Result<bool, Refusal> {
    let query = parse(alloc, text)?;
    let found = match built.query(alloc, &query) {
        Ok(answer) => Ok(answer.nodes),
        Err(refusal) => Err(refusal),
    };
    same(&found, &plain.query(&query))
}

fn same_queries(alloc: Global, built: &mut Built, plain: &Volume) -> Result<bool, Refusal> {
    for text in QUERIES.lines() {
        if !same_query(alloc, built, plain, text)? {
            return Ok(false);
        }
    }
    Ok(true)
}

/// Whether the store's newest version is the same as the plain volume.
fn is_same(alloc: Global, built: &mut Built, plain: &Volume) -> Result<bool, Refusal> {
    built.pin();
    Ok(
        built.next()? == plain.next()
            && same(&built.indices(alloc), &plain.indices())?
            && same_nodes(alloc, built, plain)?
            && same_queries(alloc, built, plain)?,
    )
}

/// Fails unless they are the same.
fn check_same(alloc: Global, built: &mut Built, plain: &Volume) -> Result<(), Fail> {
    if again!(is_same(alloc, built, plain))? {
        return Ok(());
    }
    Err(Fail::new("the store has another volume"))
}

/// Applies one operation to both, which have to return the same. Returns whether it was accepted,
/// as the store's commit with this number.
fn write_both(built: &mut Built, plain: &mut Volume, op: Op, commit: u64) -> Result<bool, Fail> {
    let ops = [op];
    let replies = (again!(built.write(&ops)), apply(plain, &ops));
    match &replies {
        (Ok(one), Ok(other)) if one.0 == commit && one.1.as_slice() == other.as_slice() => {
            Ok(true)
        }
        (Err(one), Err(other)) if one == other => Ok(false),
        _ => Err(Fail::new("the store replies otherwise to a write")),
    }
}

/// Applies random operations to both.
fn write_all(random: &mut Random, built: &mut Built, plain: &mut Volume) -> Result<(), Fail> {
    let mut commit = 1;
    for _ in 0..60 {
        let op = random_op(random, plain.next())?;
        if write_both(built, plain, op, commit)? {
            commit = commit.saturating_add(1);
        }
    }
    Ok(())
}

/// Compares a store that is built from the plain volume, before and after writes to both.
fn check_built(alloc: Global, random: &mut Random, plain: &mut Volume) -> Result<(), Fail> {
    let mut built = again!(built_from(alloc, plain))?;
    check_same(alloc, &mut built, plain)?;
    write_all(random, &mut built, plain)?;
    check_same(alloc, &mut built, plain)
}

/// The same for a volume that grows, from the empty one on.
pub(crate) fn check_growing(alloc: Global, random: &mut Random) -> Result<(), Fail> {
    let mut plain = Volume::new(alloc);
    for count in [0, 4, 30, 200, 400, 400] {
        change(random, &mut plain, count)?;
        check_built(alloc, random, &mut plain)?;
    }
    Ok(())
}
