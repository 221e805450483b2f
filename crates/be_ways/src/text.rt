//! Printing ways.
ghost use Rattle.std.specs.Prelude.{◌≡◌, ℕ, List, IfErr, IfOk, string_bytes};
ghost use Rattle.be_ways.specs.Imports.{OutOfMemory};
ghost use Rattle.be_ways.specs.Text.{keys_word, line_with, AreLines};

use crate::Way;
use crate::bounds::{high_text, low_text};
use be_journal::quoted;
use be_value::Refusal;
use std::alloc::{AllocError, Global};

/// Returns the text of a way's range: its low end, `..` and its high end, or `none` if it is closed
/// because no value can satisfy the query.
fn range_text(alloc: Global, way: &Way) -> Result<String, AllocError> {
    let high = match &way.high {
        Some(high) if high.is_empty() => return String::from_str(alloc, "none"),
        Some(high) => Some(high.as_slice()),
        None => None,
    };
    let low = low_text(alloc, way.kind, way.low.as_slice())?;
    let high = high_text(alloc, way.kind, high)?;
    match (low.is_empty(), high.is_empty()) {
        (true, true) => String::from_str(alloc, ".."),
        (true, false) => format!(in alloc; ".. {high}"),
        (false, true) => format!(in alloc; "{low} .."),
        (false, false) => format!(in alloc; "{low} .. {high}"),
    }
}

/// Returns the word for this many keys.
fn keys_of(count: u64) -> &'static str
    ensures { result.now ≡ keys_word count }
{
    if count == 1 { "key" } else { "keys" }
}

/// Returns the line of a way.
fn way_text(alloc: Global, way: &Way) -> Result<String, AllocError>
    ensures { IfOk result (λ text. (range : List ℕ) × (string_bytes text
        ≡ line_with range way.now)) }
{
    let name = quoted(alloc, way.name.as_str())?;
    let range = range_text(alloc, way)?;
    let (about, walked) = (way.about, way.walked);
    let keys = keys_of(about);
    format!(in alloc; "{name}  {range}  about {about} {keys}, {walked} walked\n")
}

/// Returns one line for each way: the name of its index, the values at the two ends of its range,
/// about how many keys the range was estimated to have, and how many it has. For example:
/// `"MAIL:when"  1700000000 .. <1800000000  about 40 keys, 41 walked`. A value that the range
/// excludes has `>` or `<` before it. `"ann"*` is the end of all strings that begin with `ann`, and
/// an open end is left out. A range that no value can be in is `none`.
///
/// The only error is `OutOfMemory`.
pub fn ways_text(alloc: Global, ways: &[Way]) -> Result<String, Refusal>
    ensures lines { IfOk result (λ text. AreLines ways.now (string_bytes text)) }
    ensures memory { IfErr result (λ e. e ≡ OutOfMemory) }
{
    let mut text = String::new(alloc);
    for way in ways {
        let line = way_text(alloc, way)?;
        text.push_str(line.as_str())?;
    }
    Ok(text)
}
