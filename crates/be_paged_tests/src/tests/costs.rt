//! What requests cost a volume in pages: how many words of pages they read and store, and how many
//! pages they take.
//!
//! A row is `REQUEST => COST`, in the words of a script. Each row has its own volume, which is made
//! the same way each time. A page that is used again still has the words written there before, and
//! none of these is stored again. So a cost doesn't depend on other rows, and is the same in each
//! run. It is exact: a row fails if its cost grows, and also if it falls.
ghost use Rattle.std.specs.Prelude.{◌≤◌, ◌<◌, ◌+◌, ◌^◌, length, IsTrue};
ghost use Rattle.be_volume.specs.Volume.{State};
ghost use Rattle.be_paged_reading.specs.Version.{IsVersion};

use crate::tests::lines::request_of;
use arrayvec::ArrayVec;
use be_paged::{Cell, HeldName, Version, answer_decided, apply_into, columns, get, source};
use be_paged_test_tools::{Both, NODES, check_rows, filled, read_query};
use be_pages::{Look, Room};
use be_plan::{PreparedQuery, answer};
use be_query::Query;
use be_script_language::Request;
use be_test_tools::{Counted, again, list_of, numbered};
use be_value::{Name, Refusal, Value, word_of};
use be_volume::{Op, Volume};
use std::alloc::{AllocError, Global};
use std::test::Fail;

/// What a request costs.
#[derive(Clone, Copy)]
enum Cost {
    Read { found: u64, reads: u64 },
    Write { stores: u64, takes: u64, reads: u64 },
}

/// Whether a node has an attribute, and what reading it costs.
fn count_get(both: Both, node: u64, name: &Name) -> Cost {
    let Both { room, page, .. } = both;
    let mut look = Counted::new(room);
    let value = get(&mut look, page, node, name);
    Cost::Read {
        found: value.is_some() as u64,
        reads: look.reads,
    }
}

/// An empty cell, which reading a row overwrites.
fn no_cell() -> Cell {
    Cell {
        error: 1,
        code: 0,
        number: 0,
        offset: 0,
        length: 0,
    }
}

/// How many of the cells have a value.
fn values_in(cells: &[Cell]) -> u64 {
    let mut found: u64 = 0;
    for cell in cells {
        if cell.error == 0 {
            found = found.saturating_add(1);
        }
    }
    found
}

/// How many of three attributes a node has, and what reading their row costs.
fn count_row(both: Both, node: u64, names: &[HeldName; 3]) -> Cost {
    let Both { room, page, .. } = both;
    let mut look = Counted::new(room);
    let mut cells = [no_cell(); 3];
    let mut bytes = [0; 64];
    let _needed = columns(&mut look, page, &[node], names, &mut cells, &mut bytes);
    Cost::Read {
        found: values_in(&cells),
        reads: look.reads,
    }
}

fn held(word: Option<&str>) -> Result<HeldName, Refusal> {
    let name = Name::new(word.unwrap_or(""))?;
    Ok(HeldName::new(&name))
}

/// Three words as names.
fn three_names(text: &str) -> Result<[HeldName; 3], Refusal> {
    let mut words = text.split(" ");
    let first = held(words.next())?;
    let second = held(words.next())?;
    Ok([first, second, held(words.next())?])
}

/// The same, with the node and the names as words.
fn row_cost(alloc: Global, text: &str) -> Result<Cost, Fail> {
    let (node, names) = text.split_once(" ").unwrap_or((text, ""));
    let node = word_of(node.as_bytes()).unwrap_or(0);
    let names = three_names(names)?;
    Ok(count_row(filled(alloc)?, node, &names))
}

/// What it costs to find a query's nodes as a store asks for them, or the query's error. The plain
/// volume isn't read: it names the volume that the pages encode.
fn count_answer<L: Look + Drop>(
    alloc: Global,
    _plain: &Volume,
    look: L,
    page: u64,
    query: &Query,
) -> Result<Cost, Refusal>
    ghost volume: { State }
    requires version { IsVersion (L.page_state look) (L.words look) page volume }
{
    let mut reader = source(Counted::new(look), page);
    let nodes = answer(alloc, query, &mut reader)?;
    Ok(Cost::Read {
        found: nodes.len() as u64,
        reads: reader.into_look().reads,
    })
}

fn count_query(alloc: Global, both: Both, query: &Query) -> Result<Cost, Refusal> {
    let Both { plain, room, page } = both;
    count_answer(alloc, &plain, room, page, query)
}

/// The same on a new volume.
fn query_once(alloc: Global, query: &Query) -> Result<Result<Cost, Refusal>, Fail> {
    let both = filled(alloc)?;
    Ok(count_query(alloc, both, query))
}

/// The same for a query's text. If memory runs out, it tries again on a new volume.
fn query_cost(alloc: Global, text: &str) -> Result<Cost, Fail> {
    let query = read_query(alloc, text)?;
    match query_once(alloc, &query)? {
        Err(Refusal::OutOfMemory) => Ok(query_once(alloc, &query)??),
        cost => Ok(cost?),
    }
}

/// What a prepared query costs when it is asked a second time. One range has to decide it.
fn count_again(alloc: Global, both: Both, query: Query) -> Result<Cost, Refusal> {
    let Both { room, page, .. } = both;
    let mut look = Counted::new(room);
    let mut prepared = PreparedQuery::new(query);
    let mut nodes = Vec::new(alloc);
    answer_decided(alloc, &mut look, page, &mut prepared, &mut nodes)?;
    let before = look.reads;
    answer_decided(alloc, &mut look, page, &mut prepared, &mut nodes)?;
    Ok(Cost::Read {
        found: nodes.len() as u64,
        reads: look.reads.wrapping_sub(before),
    })
}

/// The same for a query's text, on a new volume.
fn again_once(alloc: Global, text: &str) -> Result<Result<Cost, Refusal>, Fail> {
    let query = read_query(alloc, text)?;
    let both = filled(alloc)?;
    Ok(count_again(alloc, both, query))
}

/// The same. If memory runs out, it tries again on a new volume.
fn again_cost(alloc: Global, text: &str) -> Result<Cost, Fail> {
    match again_once(alloc, text)? {
        Err(Refusal::OutOfMemory) => Ok(again_once(alloc, text)??),
        cost => Ok(cost?),
    }
}

/// Applies a list to the pages. The plain volume isn't read: it names the volume that they encode.
fn apply_counted<R: Room>(
    _plain: &Volume,
    room: &mut R,
    page: u64,
    ops: &[Op],
) -> Result<(), Refusal>
    ghost volume: { State }
    requires version { IsVersion (R.page_state room.old) (R.words room.old) page volume }
    requires count { (1 ≤ length ops.now) × (length ops.now ≤ 64) }
    requires fits { volume.next + 64 < 2 ^ 64 }
    requires open { IsTrue (R.is_open (R.kept room.old)) }
{
    let mut version = Version::new();
    let mut dones = ArrayVec::new();
    let _page = apply_into(room, &mut version, page, ops, &mut dones)?;
    Ok(())
}

/// What an accepted list costs.
fn count_write(both: Both, ops: &[Op]) -> Result<Cost, Fail> {
    let Both { plain, room, page } = both;
    if ops.is_empty() || ops.len() > 64 || plain.next() > u64::MAX - 65 {
        return Err(Fail::new("no list, or no node number is left"));
    }
    let mut room = Counted::new(room);
    apply_counted(&plain, &mut room, page, ops)?;
    Ok(Cost::Write {
        stores: room.stores,
        takes: room.takes,
        reads: room.reads,
    })
}

/// One of several sets in a list: of sizes of nodes far apart, or of new names on the node without
/// attributes.
fn set_of(kind: &str, number: u8) -> Result<Op, Refusal> {
    if kind == "names" {
        return Ok(Op::Set(NODES + 1, numbered(number)?, Value::int32(1)));
    }
    let node = 1 + u64::from(number) * 421 % NODES;
    let size = Value::int32(number as i32 * 45 + 5);
    Ok(Op::Set(node, Name::new("size")?, size))
}

fn sets_of(alloc: Global, kind: &str, count: u8) -> Result<Vec<Op>, Refusal> {
    let mut ops = Vec::new(alloc);
    for number in 0..count {
        ops.push(set_of(kind, number)?)?;
    }
    Ok(ops)
}

/// The operations of a row: a number of sizes or names, or a list in the words of a script.
fn ops_of(alloc: Global, request: &str) -> Result<Vec<Op>, Refusal> {
    let (kind, count) = request.split_once(" ").unwrap_or((request, ""));
    if kind != "sizes" && kind != "names" {
        return list_of(alloc, request);
    }
    let count = (word_of(count.as_bytes()).unwrap_or(0) % 256) as u8;
    again!(sets_of(alloc, kind, count))
}

fn write_cost(alloc: Global, request: &str) -> Result<Cost, Fail> {
    let ops = ops_of(alloc, request)?;
    count_write(filled(alloc)?, &ops)
}

/// What a request costs. A prepared query begins with `again`, and a row with `row`.
fn cost_of(alloc: Global, request: &str) -> Result<Cost, Fail> {
    if let Some(("again", text)) = request.split_once(" ") {
        return again_cost(alloc, text);
    }
    if let Some(("row", text)) = request.split_once(" ") {
        return row_cost(alloc, text);
    }
    match request_of(alloc, request)? {
        Request::Get(node, name) => Ok(count_get(filled(alloc)?, node, &name?)),
        Request::Query(text) => query_cost(alloc, text.as_str()),
        _ => write_cost(alloc, request),
    }
}

/// The row of a request with this cost.
fn row_text(alloc: Global, request: &str, cost: Cost) -> Result<String, AllocError> {
    match cost {
        Cost::Read { found, reads } => {
            format!(in alloc; "{request} => {found} found, {reads} words read")
        }
        Cost::Write {
            stores,
            takes,
            reads,
        } => format!(in alloc;
            "{request} => {stores} words stored, {takes} pages taken, {reads} words read"
        ),
    }
}

/// The row of a request, with its actual cost.
fn row_of(alloc: Global, request: &str) -> Result<String, Fail> {
    let cost = cost_of(alloc, request)?;
    match row_text(alloc, request, cost) {
        Err(_) => Ok(row_text(alloc, request, cost)?),
        Ok(text) => Ok(text),
    }
}

/// How each cost could grow.
///
/// The get: by a second descent of the catalog's tree. A query for one node: by a second descent of
/// its index's tree, or by reading the node. The size 1420 has the lowest key of its leaf. Its
/// range begins at the end of the previous leaf, so it does take that second descent.
///
/// A range and a front: by a descent for each key instead of a step along the leaves. The filter
/// estimates both ranges, by two descents each of about 25 words, and then walks over both. Its
/// cost would grow by a descent of the catalog's tree, about 63 words, for each of the front's
/// hundred nodes.
#[test]
fn read_costs(rt: HostRuntime) -> Result<(), Fail> {
    let rows = r#"get 150 size => 1 found, 44 words read
query name=="10150-document.txt" => 1 found, 42 words read
query size==1430 => 1 found, 34 words read
query size==1420 => 1 found, 83 words read
query size>=1000 && size<2000 => 100 found, 460 words read
query name=="101*" => 100 found, 456 words read
query name=="101*" && size>=1500 => 50 found, 1190 words read"#;
    check_rows(rt.alloc(), rows, row_of)
}

/// Queries by patterns that no range decides, on 300 texts of 18 bytes, which take three words
/// each. The cost of the one that finds nothing would grow by 300 for each further word read of a
/// key, such as its number. The cost of the other would also grow for each further word read of a
/// node.
#[test]
fn text_costs(rt: HostRuntime) -> Result<(), Fail> {
    let rows = r#"query name=="*x*" => 300 found, 2595 words read
query name=="*z*" => 0 found, 1695 words read"#;
    check_rows(rt.alloc(), rows, row_of)
}

/// Prepared queries, asked the second time. Each cost could grow by a search for the query's index,
/// or by reading a node. The index's name is compared only at the place where it was found the
/// first time.
#[test]
fn prepared_costs(rt: HostRuntime) -> Result<(), Fail> {
    let rows = r#"again name=="10150-document.txt" => 1 found, 39 words read
again size==1430 => 1 found, 32 words read
again size==1420 => 1 found, 81 words read
again size>=1000 && size<2000 => 100 found, 458 words read"#;
    check_rows(rt.alloc(), rows, row_of)
}

/// Rows of a node: its attributes with three names, in one call. Names in the catalog's order take
/// one descent, also if other attributes lie between them. They would take another for each step
/// along the leaf that isn't made. In reverse order each name takes a descent, and so does a name
/// that the node doesn't have, unless the walk steps over an attribute before it. A node that
/// doesn't exist takes one for each name, and one for itself.
#[test]
fn row_costs(rt: HostRuntime) -> Result<(), Fail> {
    let rows = r#"row 150 kind name size => 3 found, 66 words read
row 150 size name kind => 3 found, 150 words read
row 150 kind size other => 2 found, 109 words read
row 150 kind name other => 2 found, 101 words read
row 150 kind other zebra => 1 found, 106 words read
row 301 kind name size => 0 found, 142 words read
row 302 kind name size => 0 found, 138 words read"#;
    check_rows(rt.alloc(), rows, row_of)
}

/// The costs of a new node, of a set with an index, and of two sets without one. The second of
/// these sets the value that is already there. Then the costs of lists of sets on many nodes and on
/// one, and of a drop.
///
/// How each cost could grow. In pages: by one that is copied twice in a list, such as the version
/// page, or by one of a tree that doesn't change. In words stored: by a page that is written whole
/// instead of edited, or by words that are already there. In words read: by one more descent, or by
/// what is asked again for each set of a list.
#[test]
fn write_costs(rt: HostRuntime) -> Result<(), Fail> {
    let rows =
        "new;set 302 name CSTR 10150-copy.txt;set 302 size LONG 1505;set 302 kind CSTR image/png \
=> 281 words stored, 11 pages taken, 614 words read
set 150 size LONG 1505 => 219 words stored, 7 pages taken, 366 words read
set 150 kind CSTR image/png => 58 words stored, 4 pages taken, 193 words read
set 150 kind CSTR text/plain => 55 words stored, 4 pages taken, 193 words read
sizes 64 => 6247 words stored, 144 pages taken, 17529 words read
names 8 => 141 words stored, 6 pages taken, 616 words read
names 64 => 643 words stored, 26 pages taken, 4685 words read
drop 150 => 258 words stored, 10 pages taken, 722 words read";
    check_rows(rt.alloc(), rows, row_of)
}
