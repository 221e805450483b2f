//! A builder is given indices, nodes and attributes, by lines `REQUEST => REPLY`. A refused request
//! is replied to by the error, and then ends.
//!
//! `pages PAGES NODES ATTRIBUTES INDICES` builds a version in a pool of so many pages. Each node
//! has so many attributes, the first of which are in an index. The reply is how many pages the
//! version has, and how many nodes can be read from it.
//!
//! `order WORD WORD ..` gives the builder one thing after another: `i3` an index of numbers by name
//! 3, `t3` one of texts, `r3` one of raw values, `n5` node 5, `a2` an attribute by name 2, `h2` one
//! that is held, and `f6` the next node's number, at the end. `25*a0` repeats a word, with the next
//! 25 numbers.
ghost use Rattle.std.specs.Prelude.{◌≡◌, IfOk, IsTrue, OnOk};
ghost use Rattle.be_paged_building.specs.Building.{Builds};
ghost use Rattle.be_paged_reading.specs.Version.{HasVersion};

use be_paged_building::VolumeBuilder;
use be_paged_reading::nodes;
use be_pages::{Room, VecRoom};
use be_test_tools::{Answers, answer_lines, check_lines, numbered};
use be_value::{Kind, Refusal, Value, word_of};
use std::alloc::Global;
use std::test::Fail;

/// How many nodes a volume has, how many attributes each has, and how many indices.
#[derive(Clone, Copy)]
struct Shape {
    nodes: u32,
    attributes: u8,
    indices: u8,
}

/// Adds a node's attributes.
fn add_attributes<R: Room>(
    builder: &mut VolumeBuilder,
    room: &mut R,
    shape: Shape,
    number: u64,
) -> Result<(), Refusal>
    requires builds { Builds (R.page_state room.old) (R.words room.old) builder.old
        builder.old.volume.value }
    requires open { IsTrue (R.is_open (R.kept room.old)) }
    ensures builds { OnOk result (Builds (R.page_state room.new) (R.words room.new) builder.new
        builder.new.volume.value) }
    ensures kept { OnOk result (R.kept room.new ≡ R.kept room.old) }
{
    for i in 0..shape.attributes {
        let name = numbered(i)?;
        builder.attribute(room, &name, &Value::Ullg(number), i < shape.indices)?;
    }
    Ok(())
}

/// Builds a version of this shape, and returns its page.
fn built<R: Room>(alloc: Global, room: &mut R, shape: Shape) -> Result<u64, Refusal>
    requires open { IsTrue (R.is_open (R.kept room.old)) }
    ensures version { IfOk result (HasVersion R.page_state R.words room.new) }
{
    let mut builder = VolumeBuilder::new(alloc, room)?;
    for i in 0..shape.indices {
        let name = numbered(i)?;
        builder.index(&name, Kind::Ullg)?;
    }
    for i in 0..shape.nodes {
        let node = u64::from(i) + 1;
        builder.node(room, node)?;
        add_attributes(&mut builder, room, shape, node)?;
    }
    let version = builder.finish(room, u64::from(shape.nodes) + 1)?;
    Ok(version.0)
}

/// The number that the first of these words encodes, or 0 if it encodes none, and the other words.
fn first_number(words: &str) -> (u64, &str) {
    let (word, others) = words.split_once(" ").unwrap_or((words, ""));
    (word_of(word.as_bytes()).unwrap_or(0), others)
}

/// The reply to `pages`.
fn pages_of(alloc: Global, words: &str) -> Result<String, Refusal> {
    let (pages, words) = first_number(words);
    let (count, words) = first_number(words);
    let (attributes, words) = first_number(words);
    let (indices, _) = first_number(words);
    let shape = Shape {
        nodes: (count % 65536) as u32,
        attributes: (attributes % 256) as u8,
        indices: (indices % 256) as u8,
    };
    let mut room = VecRoom::new(alloc, pages)?;
    let page = built(alloc, &mut room, shape)?;
    let used = pages.saturating_sub(room.free());
    let list = nodes(alloc, &mut room, page, 0, usize::MAX)?;
    let found = list.len();
    Ok(format!(in alloc; "{used} {found}")?)
}

/// The kind of the index that a letter asks for, if it asks for one.
fn kind_of(letter: u8) -> Option<Kind> {
    match letter {
        b'i' => Some(Kind::Ullg),
        b't' => Some(Kind::Cstr),
        b'r' => Some(Kind::Rawt),
        _ => None,
    }
}

/// Gives the builder one thing.
fn give<R: Room>(
    builder: &mut VolumeBuilder,
    room: &mut R,
    letter: u8,
    number: u64,
) -> Result<(), Refusal>
    requires builds { Builds (R.page_state room.old) (R.words room.old) builder.old
        builder.old.volume.value }
    requires open { IsTrue (R.is_open (R.kept room.old)) }
    ensures builds { OnOk result (Builds (R.page_state room.new) (R.words room.new) builder.new
        builder.new.volume.value) }
    ensures kept { OnOk result (R.kept room.new ≡ R.kept room.old) }
{
    let name = numbered((number % 256) as u8)?;
    if let Some(kind) = kind_of(letter) {
        builder.index(&name, kind)?;
        return Ok(());
    }
    if letter == b'n' {
        builder.node(room, number)?;
        return Ok(());
    }
    builder.attribute(room, &name, &Value::Ullg(number), letter == b'h')?;
    Ok(())
}

/// Gives the builder some things of one kind, with numbers in order.
fn give_each<R: Room>(builder: &mut VolumeBuilder, room: &mut R, word: &str) -> Result<(), Refusal>
    requires builds { Builds (R.page_state room.old) (R.words room.old) builder.old
        builder.old.volume.value }
    requires open { IsTrue (R.is_open (R.kept room.old)) }
    ensures builds { OnOk result (Builds (R.page_state room.new) (R.words room.new) builder.new
        builder.new.volume.value) }
    ensures kept { OnOk result (R.kept room.new ≡ R.kept room.old) }
{
    let (times, thing) = word.split_once("*").unwrap_or(("1", word));
    let count = word_of(times.as_bytes()).unwrap_or(0);
    let bytes = thing.as_bytes();
    let (letter, digits) = match bytes.split_first() {
        Some((letter, digits)) => (*letter, digits),
        None => (b'a', bytes),
    };
    let first = word_of(digits).unwrap_or(0);
    for i in 0..count {
        give(builder, room, letter, first.saturating_add(i))?;
    }
    Ok(())
}

/// Gives the builder things in this order, and returns the page of the version.
fn given<R: Room>(alloc: Global, room: &mut R, words: &str, next: u64) -> Result<u64, Refusal>
    requires open { IsTrue (R.is_open (R.kept room.old)) }
    ensures version { IfOk result (HasVersion R.page_state R.words room.new) }
{
    let mut builder = VolumeBuilder::new(alloc, room)?;
    for word in words.split(" ") {
        give_each(&mut builder, room, word)?;
    }
    let version = builder.finish(room, next)?;
    Ok(version.0)
}

/// The reply to `order`: how many nodes can be read.
fn order_of(alloc: Global, words: &str) -> Result<String, Refusal> {
    let (things, next) = words.split_once(" f").unwrap_or((words, ""));
    let mut room = VecRoom::new(alloc, 64)?;
    let page = given(
        alloc,
        &mut room,
        things,
        word_of(next.as_bytes()).unwrap_or(0),
    )?;
    let list = nodes(alloc, &mut room, page, 0, usize::MAX)?;
    let found = list.len();
    Ok(format!(in alloc; "{found}")?)
}

/// The requests of these tests.
#[derive(Drop)]
struct Requests;

impl Answers for Requests {
    fn reply(&mut self, alloc: Global, request: &str) -> Result<String, Refusal> {
        let (command, words) = request.split_once(" ").unwrap_or((request, ""));
        let answer = match command {
            "pages" => pages_of(alloc, words),
            _ => order_of(alloc, words),
        };
        answer_lines(alloc, answer)
    }
}

/// Each size is built in exactly the pages that it needs: the version page, the catalog's, and
/// those of each index. With one page fewer, the builder is refused.
#[test]
fn sizes(rt: HostRuntime) -> Result<(), Fail> {
    let lines = "pages 8 0 0 0 => 1 0
pages 8 0 0 32 => 1 0
pages 8 1 0 0 => 2 1
pages 8 1 1 1 => 3 1
pages 8 12 0 0 => 2 12
pages 8 13 0 0 => 4 13
pages 8 6 1 1 => 3 6
pages 8 7 1 1 => 5 7
pages 8 12 1 1 => 5 12
pages 9 12 2 2 => 7 12
pages 14 144 0 0 => 14 144
pages 13 144 0 0 => refused 11 Full 0
pages 17 145 0 0 => 17 145
pages 16 145 0 0 => refused 11 Full 0
pages 41 144 1 1 => 41 144
pages 40 144 1 1 => refused 11 Full 0
pages 21 72 1 1 => 21 72
pages 20 72 1 1 => refused 11 Full 0
pages 14 72 1 1 => refused 11 Full 0
pages 13 72 1 1 => refused 11 Full 0
pages 551 1000 3 2 => 551 1000
pages 550 1000 3 2 => refused 11 Full 0";
    check_lines(rt.alloc(), &mut Requests, lines)
}

/// What may not come next.
#[test]
fn orders(rt: HostRuntime) -> Result<(), Fail> {
    let lines = "order i0 i1 n1 n2 f3 => 2
order i1 i0 f1 => refused 5 IndexExists
order i1 i1 f1 => refused 5 IndexExists
order r0 f1 => refused 8 NotIndexable
order 32*i0 f1 => 0
order 33*i0 f1 => refused 7 TooManyIndices
order n1 i0 f2 => refused 2 NoNode
order n0 f1 => refused 2 NoNode
order n5 n5 f6 => refused 2 NoNode
order n5 n4 f6 => refused 2 NoNode
order n9223372036854775807 f9223372036854775808 => 1
order n9223372036854775808 f9223372036854775808 => refused 2 NoNode
order a0 f1 => refused 2 NoNode
order n1 a1 a0 f2 => refused 3 NoAttr
order n1 a1 a1 f2 => refused 3 NoAttr
order n1 64*a0 f2 => 1
order n1 65*a0 f2 => refused 4 TooManyAttrs
order n1 h0 f2 => refused 6 NoSuchIndex
order t0 n1 h0 f2 => refused 8 NotIndexable
order t0 n1 a0 f2 => 1
order i0 n1 h0 n3 a0 n4 h0 f5 => 3
order n1 f1 => refused 2 NoNode
order n1 f2 => 1
order n1 f9223372036854775808 => 1
order n1 f9223372036854775809 => refused 2 NoNode";
    check_lines(rt.alloc(), &mut Requests, lines)
}
