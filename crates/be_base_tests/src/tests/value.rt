//! Examples that use public calls: keys as bytes, numbers as text, and the limits of names and
//! values.

use super::lines::{replies, yes_or_no};
use arrayvec::ArrayVec;
use be_script_language::Reply;
use be_test_tools::{list_of, reply_lines};
use be_value::{Kind, Name, Refusal, Value, key_of, node_of, number_of, read_key};
use be_volume::Op;
use std::alloc::Global;
use std::test::Fail;

/// Whether these bytes are read as this pair.
fn reads_as(bytes: &[u8], value: &Value, node: u64) -> bool {
    match read_key(value.kind(), bytes) {
        Some((read, of)) => of == node && Value::order(value, &read).is_eq(),
        None => false,
    }
}

/// The key of a pair, or no bytes if no index has the value's kind.
fn key_bytes(value: &Value, node: u64) -> ArrayVec<u8, 264> {
    if value.kind().indexable() {
        key_of(value, node)
    } else {
        ArrayVec::new()
    }
}

fn ends_with(bytes: &[u8], node: u64) -> bool {
    bytes.len() >= 8 && node_of(bytes) == node
}

/// The bytes of a pair's key, printed as a raw value, if reading them gives the pair back.
fn key_text(alloc: Global, value: &Value, node: u64) -> Result<String, Refusal> {
    let key = key_bytes(value, node);
    let bytes = key.as_slice();
    if !ends_with(bytes, node) || !reads_as(bytes, value, node) {
        return Ok(String::from_str(alloc, "not read back")?);
    }
    Ok(reply_lines(alloc, &Reply::Value(Some(Value::raw(bytes)?)))?)
}

/// The key, as in `key_text`, of the value and node that a line sets.
pub(crate) fn key_of_pair(alloc: Global, line: &str) -> Result<String, Refusal> {
    let ops = list_of(alloc, line)?;
    match ops.first() {
        Some(Op::Set(node, _, value)) => key_text(alloc, value, *node),
        _ => Err(Refusal::BadLimits),
    }
}

/// Numbers of 32 and 64 bits, including the lowest, and a string.
#[test]
fn keys_are_these_bytes(rt: HostRuntime) -> Result<(), Fail> {
    let lines = "pair set 1 k LONG 5 => RAWT \"800000050000000000000001\"
pair set 2 k LONG -1 => RAWT \"7fffffff0000000000000002\"
pair set 1 k ULNG 4294967295 => RAWT \"ffffffff0000000000000001\"
pair set 2 k CSTR ab => RAWT \"6162000000000000000002\"
pair set 1 k LLNG -9223372036854775808 => RAWT \"00000000000000000000000000000001\"
pair set 1 k LLNG -1 => RAWT \"7fffffffffffffff0000000000000001\"
pair set 1 k LLNG 5 => RAWT \"80000000000000050000000000000001\"
pair set 1 k ULLG 5 => RAWT \"00000000000000050000000000000001\"";
    replies(rt.alloc(), lines)
}

/// The number of bytes in the key of a long string.
pub(crate) fn key_length(alloc: Global, text: &str) -> Result<String, Refusal> {
    let length = key_bytes(&Value::text(text)?, 1).len();
    Ok(format!(in alloc; "{length}")?)
}

/// Bytes that aren't the key of any pair, and kinds that no index has.
#[test]
fn keys_of_no_pair(rt: HostRuntime) {
    assert!(rt; read_key(Kind::Cstr, b"ab").is_none());
    assert!(rt; read_key(Kind::Mims, b"ab\0\0\0\0\0\0\0\0\x01").is_none());
    assert!(rt; read_key(Kind::Rawt, b"\0\0\0\0\0\0\0\x01").is_none());
}

/// The number that a text encodes.
pub(crate) fn encoded_number(alloc: Global, text: &str) -> Result<String, Refusal> {
    match number_of(text) {
        Some(number) => Ok(format!(in alloc; "{number}")?),
        None => yes_or_no(alloc, false),
    }
}

/// Strings that encode a number, up to the limits of 64 bits and of 20 digits, and strings that
/// encode no number.
#[test]
fn texts_encode_numbers(rt: HostRuntime) -> Result<(), Fail> {
    let lines = "number 0 => 0
number -0 => 0
number 00000000000000000005 => 5
number 18446744073709551615 => 18446744073709551615
number 18446744073709551616 => no
number -9223372036854775808 => -9223372036854775808
number -9223372036854775809 => no
number 000000000000000000005 => no
number  => no
number - => no
number +5 => no
number 5  => no
number abc => no";
    replies(rt.alloc(), lines)
}

/// Whether a text is accepted as a name and read back unchanged.
pub(crate) fn is_name(alloc: Global, text: &str) -> Result<String, Refusal> {
    yes_or_no(alloc, Name::new(text)?.as_str() == text)
}

/// Whether a text is accepted as a string value and read back unchanged.
pub(crate) fn is_text(alloc: Global, text: &str) -> Result<String, Refusal> {
    match Value::text(text)? {
        Value::Cstr(made) => yes_or_no(alloc, made.as_str() == text),
        _ => yes_or_no(alloc, false),
    }
}

pub(crate) fn is_mime(alloc: Global, text: &str) -> Result<String, Refusal> {
    yes_or_no(alloc, Value::mime(text)?.kind() == Kind::Mims)
}

/// Whether a text's bytes are accepted as a raw value.
pub(crate) fn is_raw(alloc: Global, text: &str) -> Result<String, Refusal> {
    yes_or_no(alloc, Value::raw(text.as_bytes())?.kind() == Kind::Rawt)
}

/// The kind with this number: its letters, and whether it can be the kind of an index.
pub(crate) fn kind_numbered(alloc: Global, text: &str) -> Result<String, Refusal> {
    let Ok(number) = u8::try_from(number_of(text).unwrap_or(0)) else {
        return yes_or_no(alloc, false);
    };
    let Some(kind) = Kind::numbered(number) else {
        return yes_or_no(alloc, false);
    };
    let number = kind.number();
    let letters = kind.code().to_be_bytes();
    let mut report = format!(in alloc; "{number} ")?;
    for letter in letters {
        report.push(char::from(letter))?;
    }
    if kind.indexable() {
        report.push_str(" indexable")?;
    }
    Ok(report)
}

/// Limits of names and values, and the kinds in the Be Book.
#[test]
fn names_and_values_have_limits(rt: HostRuntime) -> Result<(), Fail> {
    let lines = "name 63 x => yes
name 0 x => refused 18 NameLength
name 64 \0 => refused 18 NameLength
name 1 a\0 => refused 20 HasNul
text 255 x => yes
mime 256 \0 => refused 19 DataLength
text 1 \0 => refused 20 HasNul
raw 255 \0 => yes
raw 256 \0 => refused 19 DataLength
key 255 x => 264
kind 1 => 1 CSTR indexable
kind 2 => 2 LONG indexable
kind 3 => 3 LLNG indexable
kind 4 => 4 MIMS
kind 5 => 5 RAWT
kind 6 => 6 ULNG indexable
kind 7 => 7 ULLG indexable
kind 0 => no
kind 8 => no";
    replies(rt.alloc(), lines)
}
