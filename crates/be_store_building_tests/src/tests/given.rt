//! Gives a builder what a volume has: by words, or from a plain volume.
use crate::tests::built::{Built, opened};
use be_store::{Kind, Limits, Refusal, Value};
use be_store_building::StoreBuilder;
use be_test_tools::{indexed_value, numbered};
use be_value::word_of;
use be_volume::Volume;
use std::alloc::Global;

/// A builder of a store with this many pages, for one pass.
pub(crate) fn begun(alloc: Global, pages: u64) -> Result<StoreBuilder, Refusal> {
    let limits = Limits {
        pages,
        passes: 1,
        commits: 1000,
    };
    StoreBuilder::new(alloc, limits)
}

/// Gives one thing, such as `n5`.
fn give(builder: &mut StoreBuilder, letter: u8, number: u64) -> Result<(), Refusal> {
    let name = numbered((number % 256) as u8)?;
    match letter {
        b'i' => builder.index(&name, Kind::Ullg),
        b't' => builder.index(&name, Kind::Cstr),
        b'n' => builder.node(number),
        _ => builder.attribute(&name, &Value::Ullg(number), letter == b'h'),
    }
}

/// Gives what a word asks for: one thing, or several with numbers in order.
pub(crate) fn give_each(builder: &mut StoreBuilder, word: &str) -> Result<(), Refusal> {
    let (times, thing) = word.split_once("*").unwrap_or(("1", word));
    let bytes = thing.as_bytes();
    let (letter, digits) = match bytes.split_first() {
        Some((letter, digits)) => (*letter, digits),
        None => (b'a', bytes),
    };
    let first = word_of(digits).unwrap_or(0);
    for i in 0..word_of(times.as_bytes()).unwrap_or(0) {
        give(builder, letter, first.saturating_add(i))?;
    }
    Ok(())
}

/// Opens a store of 64 pages with what these words give. The last word is the next node's number.
pub(crate) fn built_by(alloc: Global, words: &str) -> Result<Built, Refusal> {
    let (_, next) = words.rsplit_once("f").unwrap_or((words, ""));
    let mut builder = begun(alloc, 64)?;
    for word in words.split(" ") {
        if !word.starts_with("f") {
            give_each(&mut builder, word)?;
        }
    }
    opened(builder, word_of(next.as_bytes()).unwrap_or(0))
}

/// Gives the indices of a volume.
fn give_indices(builder: &mut StoreBuilder, plain: &Volume) -> Result<(), Refusal> {
    for index in &plain.indices()? {
        builder.index(&index.0, index.1)?;
    }
    Ok(())
}

/// Gives a node of a volume and its attributes. A number without a node gives nothing.
fn give_node(builder: &mut StoreBuilder, plain: &Volume, node: u64) -> Result<(), Refusal> {
    let list = match plain.attrs(node) {
        Err(Refusal::NoNode) => return Ok(()),
        list => list?,
    };
    builder.node(node)?;
    for attribute in &list {
        let is_held = indexed_value(plain, &attribute.0, node).is_some();
        builder.attribute(&attribute.0, &attribute.1, is_held)?;
    }
    Ok(())
}

/// Opens a store that begins with this volume.
pub(crate) fn built_from(alloc: Global, plain: &Volume) -> Result<Built, Refusal> {
    let mut builder = begun(alloc, 512)?;
    give_indices(&mut builder, plain)?;
    for node in 1..plain.next() {
        give_node(&mut builder, plain, node)?;
    }
    opened(builder, plain.next())
}
