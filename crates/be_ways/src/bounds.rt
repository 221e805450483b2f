//! The values at the ends of a range, as a query writes them.
//!
//! A bound is the key of a value with the lowest or the highest node, or the byte string next to
//! such a key if the range excludes the value. The literal prefix of a pattern has a bound without
//! the zero byte that follows a string in a key: above it, a byte that no key has there.
use arrayvec::ArrayVec;
use be_journal::value_text;
use be_value::{Kind, Value, read_key};
use std::alloc::{AllocError, Global};

/// The bytes of the node in a key.
const NODE: usize = 8;

/// What is shown for an end that isn't a value, such as a string that ends within a character.
const UNKNOWN: &str = "?";

/// Returns the value that these bytes encode in a key, or `None` if they don't encode one.
fn value_of(kind: Kind, bytes: &[u8]) -> Option<Value> {
    let mut key = ArrayVec::<u8, 273>::new();
    if key.try_extend_from_slice(bytes).is_err() {
        return None;
    }
    if key.try_extend_from_slice(&[0; NODE]).is_err() {
        return None;
    }
    let (value, _) = read_key(kind, key.as_slice())?;
    Some(value)
}

/// Returns the string of these bytes as a value, or `None` if it isn't one.
fn string_of(bytes: &[u8]) -> Option<Value> {
    let mut text = ArrayVec::<u8, 265>::new();
    if text.try_extend_from_slice(bytes).is_err() || text.try_push(0).is_err() {
        return None;
    }
    value_of(Kind::Cstr, text.as_slice())
}

/// Returns the number of bytes up to and including the first zero byte, or `None` if there is none.
fn through_zero(bytes: &[u8]) -> Option<usize> {
    for at in 0..bytes.len() {
        if bytes[at] == 0 {
            return Some(at + 1);
        }
    }
    None
}

/// Splits a bound after the bytes that encode a value of this kind. Returns `None` if it has no
/// such bytes, as the bound of a string's prefix.
fn split_value(kind: Kind, bound: &[u8]) -> Option<(&[u8], &[u8])> {
    let length = match kind {
        Kind::Long | Kind::Ulng => 4,
        Kind::Llng | Kind::Ullg => 8,
        Kind::Cstr | Kind::Mims | Kind::Rawt => through_zero(bound)?,
    };
    if bound.len() < length {
        return None;
    }
    Some(bound.split_at(length))
}

/// Returns the text of an end: its sign, its value, and what follows the value.
fn end_text(
    alloc: Global,
    sign: &str,
    value: Option<Value>,
    after: &str,
) -> Result<String, AllocError> {
    let shown = match &value {
        Some(value) => value_text(alloc, value)?,
        None => String::from_str(alloc, UNKNOWN)?,
    };
    format!(in alloc; "{sign}{shown}{after}")
}

/// Returns the text of the low end of a range: its lowest value, or `>` and the value that it
/// excludes. An open end has an empty text.
pub(crate) fn low_text(alloc: Global, kind: Kind, low: &[u8]) -> Result<String, AllocError> {
    if low.is_empty() {
        return Ok(String::new(alloc));
    }
    match split_value(kind, low) {
        Some((value, node)) if node.len() > NODE => {
            end_text(alloc, ">", value_of(kind, value), "")
        }
        Some((value, _)) => end_text(alloc, "", value_of(kind, value), ""),
        None => end_text(alloc, "", string_of(low), ""),
    }
}

/// Returns the text of the high end of strings with a prefix: the prefix and `*`, or the prefix
/// alone if it is a whole string. All strings begin with an empty prefix, so their end is open.
fn prefix_text(alloc: Global, high: &[u8]) -> Result<String, AllocError> {
    match high.split_last() {
        Some((255, [])) => Ok(String::new(alloc)),
        Some((255, prefix)) => end_text(alloc, "", string_of(prefix), "*"),
        Some((_, whole)) => end_text(alloc, "", string_of(whole), ""),
        None => Ok(String::new(alloc)),
    }
}

/// Returns the text of the high end of a range: its highest value, or `<` and the value that it
/// excludes, or `*` after the prefix of its highest strings. An open end has an empty text.
pub(crate) fn high_text(
    alloc: Global,
    kind: Kind,
    high: Option<&[u8]>,
) -> Result<String, AllocError> {
    let Some(high) = high else {
        return Ok(String::new(alloc));
    };
    match split_value(kind, high) {
        Some((value, node)) if node.len() < NODE => {
            end_text(alloc, "<", value_of(kind, value), "")
        }
        Some((value, _)) => end_text(alloc, "", value_of(kind, value), ""),
        None => prefix_text(alloc, high),
    }
}
