//! Kinds and values, as the words of a line encode them.
//!
//! If a word encodes no value of its kind, the line is bad. A word may also encode a value that no
//! store accepts, such as a string of more than 255 bytes. That is an error in the value, which is
//! reported only if nothing makes the line bad.
ghost use Rattle.std.specs.Option.{option_map};
ghost use Rattle.std.specs.Prelude.{◌≡◌, ◌<◌, IfOk, IfSome};
ghost use Rattle.be_script_language.specs.Values as spec;

use be_value::{Kind, Refusal, Value, number_of, word_of};
use std::alloc::{AllocError, Global};

/// The kind with this name.
pub fn kind_of(word: &str) -> Option<Kind>
    ensures { result ≡ spec.kind_in word.now }
{
    match word {
        "CSTR" => Some(Kind::Cstr),
        "LONG" => Some(Kind::Long),
        "LLNG" => Some(Kind::Llng),
        "MIMS" => Some(Kind::Mims),
        "RAWT" => Some(Kind::Rawt),
        "ULNG" => Some(Kind::Ulng),
        "ULLG" => Some(Kind::Ullg),
        _ => None,
    }
}

/// The digits of a number, without its sign.
fn unsigned_part(word: &[u8]) -> &[u8]
    ensures { result.now ≡ spec.unsigned_part word.now }
{
    match word.split_first() {
        Some((c, digits)) if *c == b'-' => digits,
        _ => word,
    }
}

/// The number that an optional `-` and 1 to 19 digits encode.
fn signed_of(word: &str) -> Option<i128>
    ensures { result ≡ spec.signed_in word.now }
{
    if unsigned_part(word.as_bytes()).len() > 19 {
        return None;
    }
    number_of(word)
}

fn int32_of(word: &str) -> Option<i32>
    ensures { result ≡ spec.int32_in word.now }
{
    i32::try_from(signed_of(word)?).ok()
}

fn int64_of(word: &str) -> Option<i64>
    ensures { result ≡ spec.int64_in word.now }
{
    i64::try_from(signed_of(word)?).ok()
}

fn uint32_of(word: &str) -> Option<u32>
    ensures { result ≡ spec.uint32_in word.now }
{
    u32::try_from(word_of(word.as_bytes())?).ok()
}

fn hex_digit_of(c: u8) -> Option<u8>
    ensures digit { result ≡ spec.hex_digit_in c }
    ensures small { IfSome result (λ digit. digit < 16) }
{
    match c {
        b'0'..=b'9' => Some(c - b'0'),
        b'a'..=b'f' => Some(c - b'a' + 10),
        b'A'..=b'F' => Some(c - b'A' + 10),
        _ => None,
    }
}

/// The byte that two hexadecimal digits encode.
fn byte_of(c: u8, d: u8) -> Option<u8>
    ensures { result ≡ spec.byte_in c d }
{
    let high = hex_digit_of(c)?;
    let low = hex_digit_of(d)?;
    Some(16 * high + low)
}

/// The byte that the first two digits encode, with the digits after them.
fn first_byte(word: &[u8]) -> Option<(u8, &[u8])>
    ensures { option_map (λ p. (p.0, p.1.now)) result ≡ spec.first_byte_in word.now }
{
    let (c, rest) = word.split_first()?;
    let (d, rest) = rest.split_first()?;
    Some((byte_of(*c, *d)?, rest))
}

/// The bytes that an even number of hexadecimal digits encode.
fn bytes_of(alloc: Global, word: &[u8]) -> Result<Option<Vec<u8>>, AllocError>
    ensures { IfOk result (λ bytes. option_map (λ b. b.items) bytes ≡ spec.hex_in word.now) }
{
    let mut bytes = Vec::new(alloc);
    let mut rest = word;
    while let Some((byte, beyond)) = first_byte(rest) {
        bytes.push(byte)?;
        rest = beyond;
    }
    if rest.is_empty() {
        Ok(Some(bytes))
    } else {
        Ok(None)
    }
}

/// The value of this kind that a word encodes, or the error if no store accepts that value. Returns
/// `None` if the word encodes no value of this kind.
pub fn value_of(
    alloc: Global,
    kind: Kind,
    word: &str,
) -> Result<Option<Result<Value, Refusal>>, AllocError>
    ensures { IfOk result (λ value. value ≡ spec.value_in kind word.now) }
{
    match kind {
        Kind::Cstr => Ok(Some(Value::text(word))),
        Kind::Mims => Ok(Some(Value::mime(word))),
        Kind::Rawt => match bytes_of(alloc, word.as_bytes())? {
            Some(bytes) => Ok(Some(Value::raw(bytes.as_slice()))),
            None => Ok(None),
        },
        Kind::Long => match int32_of(word) {
            Some(n) => Ok(Some(Ok(Value::int32(n)))),
            None => Ok(None),
        },
        Kind::Llng => match int64_of(word) {
            Some(n) => Ok(Some(Ok(Value::int64(n)))),
            None => Ok(None),
        },
        Kind::Ulng => match uint32_of(word) {
            Some(n) => Ok(Some(Ok(Value::uint32(n)))),
            None => Ok(None),
        },
        Kind::Ullg => match word_of(word.as_bytes()) {
            Some(n) => Ok(Some(Ok(Value::uint64(n)))),
            None => Ok(None),
        },
    }
}
