//! Entries as bytes, and bytes that aren't an entry.
//!
//! A request is either an entry's line, as in a journal's text, or `bytes` followed by bytes as
//! numbers. The reply is the bytes of that entry, or of the entry that the bytes encode. Each entry
//! is written and read back with a byte after it, and no shorter prefix of its bytes is read as an
//! entry. Every test passes even if any single request for memory is refused.
use be_entry_bytes::{most_bytes, read_entry, write_entry};
use be_journal::Entry;
use be_journal_text::read_journal;
use be_test_tools::{Answers, check_lines};
use be_value::{Refusal, word_of};
use be_volume::{Done, Op};
use std::alloc::{AllocError, Global};
use std::test::Fail;

fn written(alloc: Global, by: u64, ops: &[Op], dones: &[Done]) -> Result<Vec<u8>, Refusal> {
    if ops.len() > 64 || dones.len() != ops.len() {
        return Err(Refusal::BadLimits);
    }
    let mut bytes = Vec::with_capacity(alloc, most_bytes(ops.len()))?;
    write_entry(&mut bytes, by, ops, dones);
    Ok(bytes)
}

/// Whether the bytes are read as this entry, followed by these bytes.
fn is_read(alloc: Global, bytes: &[u8], entry: &Entry, beyond: &[u8]) -> Result<bool, AllocError> {
    let Some((by, ops, dones, rest)) = read_entry(alloc, bytes)? else {
        return Ok(false);
    };
    Ok(
        by == entry.by
            && ops.as_slice() == entry.ops.as_slice()
            && dones.as_slice() == entry.dones.as_slice()
            && rest == beyond,
    )
}

/// Whether no shorter prefix of the bytes is an entry.
fn has_no_front(alloc: Global, bytes: &[u8]) -> Result<bool, AllocError> {
    for len in 0..bytes.len() {
        if read_entry(alloc, &bytes[..len])?.is_some() {
            return Ok(false);
        }
    }
    Ok(true)
}

/// The bytes as a line of numbers.
fn numbers(alloc: Global, bytes: &[u8]) -> Result<String, AllocError> {
    let mut text = String::new(alloc);
    for byte in bytes {
        if !text.is_empty() {
            text.push(' ')?;
        }
        text.push_str(format!(in alloc; "{byte}")?.as_str())?;
    }
    text.push('\n')?;
    Ok(text)
}

/// The bytes of an entry, or `lost` if they aren't read back.
fn bytes_of(alloc: Global, entry: &Entry) -> Result<String, Refusal> {
    let mut bytes = written(
        alloc,
        entry.by,
        entry.ops.as_slice(),
        entry.dones.as_slice(),
    )?;
    let text = numbers(alloc, &bytes)?;
    let has_no_front = has_no_front(alloc, &bytes)?;
    bytes.push(7)?;
    if has_no_front && is_read(alloc, &bytes, entry, &[7])? {
        return Ok(text);
    }
    Ok(String::from_str(alloc, "lost\n")?)
}

/// The bytes of the entry in this line.
fn bytes_of_line(alloc: Global, line: &str) -> Result<String, Refusal> {
    let text = format!(in alloc; "{line}\n")?;
    let Some(entries) = read_journal(alloc, text.as_bytes())? else {
        return Ok(String::from_str(alloc, "no entry\n")?);
    };
    match entries.as_slice() {
        [entry] => bytes_of(alloc, entry),
        _ => Ok(String::from_str(alloc, "no entry\n")?),
    }
}

/// The bytes with these numbers.
fn bytes_in(alloc: Global, text: &str) -> Result<Vec<u8>, AllocError> {
    let mut bytes = Vec::new(alloc);
    for word in text.split(' ') {
        let byte = word_of(word.as_bytes()).unwrap_or(0);
        bytes.push(u8::try_from(byte).unwrap_or(0))?;
    }
    Ok(bytes)
}

/// Reads the entry in these bytes and writes it again. Returns the new bytes.
fn bytes_again(alloc: Global, text: &str) -> Result<String, Refusal> {
    let bytes = bytes_in(alloc, text)?;
    match read_entry(alloc, &bytes)? {
        None => Ok(String::from_str(alloc, "none\n")?),
        Some((by, ops, dones, _)) => Ok(numbers(alloc, &written(alloc, by, &ops, &dones)?)?),
    }
}

#[derive(Drop)]
struct Encoder;

impl Answers for Encoder {
    fn reply(&mut self, alloc: Global, request: &str) -> Result<String, Refusal> {
        match request.strip_prefix("bytes ") {
            Some(bytes) => bytes_again(alloc, bytes),
            None => bytes_of_line(alloc, request),
        }
    }
}

/// Small numbers take one byte. An outcome that is a node takes its own bytes; any other outcome
/// takes none.
#[test]
fn entries_have_bytes(rt: HostRuntime) -> Result<(), Fail> {
    let lines = r#"1 by 0 set 1 "size" LONG 5 -> ok => 0 1 2 1 4 115 105 122 101 2 5
1 by 0 new -> node 1 => 0 1 128 1
1 by 0 new -> ok => 0 1 0
1 by 63 drop 7 -> ok => 63 1 1 7
1 by 0 drop 1 -> node 9 => 0 1 129 1 9
1 by 0 unset 7 "m" -> ok => 0 1 3 7 1 109
1 by 0 mkindex "k" LONG -> ok => 0 1 4 1 107 2
1 by 0 rmindex "é" -> ok => 0 1 5 2 195 169
1 by 2 new; set 1 "k" LONG 5 -> node 1; ok => 2 2 128 1 2 1 1 107 2 5"#;
    check_lines(rt.alloc(), &mut Encoder, lines)
}

/// Numbers at the limits of one, two, four and eight bytes.
#[test]
fn numbers_have_bytes(rt: HostRuntime) -> Result<(), Fail> {
    let lines = r#"1 by 0 drop 252 -> ok => 0 1 1 252
1 by 0 drop 253 -> ok => 0 1 1 253 0 253
1 by 0 drop 65535 -> ok => 0 1 1 253 255 255
1 by 0 drop 65536 -> ok => 0 1 1 254 0 1 0 0
1 by 0 drop 4294967295 -> ok => 0 1 1 254 255 255 255 255
1 by 0 drop 4294967296 -> ok => 0 1 1 255 0 0 0 1 0 0 0 0
1 by 0 drop 18446744073709551615 -> ok => 0 1 1 255 255 255 255 255 255 255 255 255"#;
    check_lines(rt.alloc(), &mut Encoder, lines)
}

/// A value of each kind, and the lowest and highest number of each kind.
#[test]
fn values_have_bytes(rt: HostRuntime) -> Result<(), Fail> {
    let lines = "1 by 0 set 1 \"a\" CSTR \"\" -> ok => 0 1 2 1 1 97 1 0
1 by 0 set 1 \"a\" LONG 2147483647 -> ok => 0 1 2 1 1 97 2 254 127 255 255 255
1 by 0 set 1 \"a\" LONG -1 -> ok => 0 1 2 1 1 97 130 0
1 by 0 set 1 \"a\" LONG -2147483648 -> ok => 0 1 2 1 1 97 130 254 127 255 255 255
1 by 0 set 1 \"a\" LLNG -9223372036854775808 -> ok => 0 1 2 1 1 97 131 255 127 255 255 255 255 255 \
     255 255
1 by 0 set 1 \"a\" MIMS \"t/p\" -> ok => 0 1 2 1 1 97 4 3 116 47 112
1 by 0 set 1 \"a\" RAWT \"00ff\" -> ok => 0 1 2 1 1 97 5 2 0 255
1 by 0 set 1 \"a\" ULNG 4294967295 -> ok => 0 1 2 1 1 97 6 254 255 255 255 255
1 by 0 set 1 \"a\" ULLG 300 -> ok => 0 1 2 1 1 97 7 253 1 44";
    check_lines(rt.alloc(), &mut Encoder, lines)
}

/// Bytes that aren't an entry because they have an unknown form or kind, an invalid name, a number
/// that is too large for its kind, or too few operations. A name is invalid if it has a zero byte
/// or isn't valid UTF-8. A number with more bytes than it needs is accepted.
#[test]
fn other_bytes_are_no_entry(rt: HostRuntime) -> Result<(), Fail> {
    let lines = r#"bytes 0 1 6 => none
bytes 0 1 4 1 107 8 => none
bytes 0 1 4 1 107 0 => none
bytes 0 1 5 0 => none
bytes 0 1 5 1 0 => none
bytes 0 1 5 1 255 => none
bytes 0 1 2 1 1 97 2 254 128 0 0 0 => none
bytes 0 1 2 1 1 97 8 5 => none
bytes 0 2 0 => none
bytes 0 1 1 253 0 5 => 0 1 1 5"#;
    check_lines(rt.alloc(), &mut Encoder, lines)
}
