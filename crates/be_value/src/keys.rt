//! Keys of an index.
//!
//! An index maps a value to the nodes that have it. It keeps its pairs in a tree of byte keys, as
//! the Be File System does. A key consists of the value's bytes followed by the node in eight
//! bytes. Within one kind, sorting keys by their bytes sorts them by their pairs. So a range of
//! values is a range of keys.
//!
//! A signed integer is written as its distance from the lowest of its kind, and every integer is
//! written high byte first. A text is followed by a zero byte, which no text contains.
ghost use Rattle.std.specs.Prelude.{◌≡◌, ◌<◌, ◌≤◌, ◌^◌, ◌↔◌, ℕ, IsTrue, IfSome, IfNone, length};
ghost use Rattle.std.specs.Prelude.{Some, None, Ok, List, [], ◌∷◌, ◌++◌, IsUtf8};
ghost use Rattle.std.specs.Int.{to_be_bytes, w32, w64};
ghost use Rattle.be_value.specs.Name.{text_from};
ghost use Rattle.std.specs.Ordering.{nat_cmp};
ghost use Rattle.std.specs.Cmp.Lexicographic.{slice_cmp};
ghost use Rattle.be_value.specs.Value.{kind_of, is_indexable};
ghost use Rattle.be_value.specs.Key.{key, value_key, counted, IsValue, pair_cmp};
ghost use Rattle.be_value.specs.declared.values.Value.{Value as AnyValue};

use crate::{Kind, Text, Value};
use arrayvec::ArrayVec;
use std::str;

/// Returns a 32-bit number's distance from the lowest one. Its four bytes, high byte first, are
/// those in the number's key.
pub fn counted32(n: i32) -> u32
    ensures { result ≡ counted (2 ^ 31) n }
{
    (i64::from(n) + (1 << 31)) as u32
}

/// Returns a 64-bit number's distance from the lowest one. Its eight bytes, high byte first, are
/// those in the number's key.
pub fn counted64(n: i64) -> u64
    ensures { result ≡ counted (2 ^ 63) n }
{
    if n < 0 {
        (n - i64::MIN) as u64
    } else {
        n as u64 + (1 << 63)
    }
}

/// Returns the key of a value and a node: the value's bytes followed by the node's eight. It has at
/// most 264 bytes: a text of 255, a zero byte, and the node.
pub fn key_of(value: &Value, node: u64) -> ArrayVec<u8, 264>
    requires { IsTrue (is_indexable (kind_of value.now)) }
    ensures { result.items ≡ key value.now node }
{
    let mut key = ArrayVec::new();
    match value {
        Value::Cstr(text) => {
            key.try_extend_from_slice(text.as_str().as_bytes()).unwrap();
            key.push(0);
        }
        Value::Long(n) => key
            .try_extend_from_slice(&counted32(*n).to_be_bytes())
            .unwrap(),
        Value::Llng(n) => key
            .try_extend_from_slice(&counted64(*n).to_be_bytes())
            .unwrap(),
        Value::Ulng(n) => key.try_extend_from_slice(&n.to_be_bytes()).unwrap(),
        Value::Ullg(n) => key.try_extend_from_slice(&n.to_be_bytes()).unwrap(),
        Value::Mims(_) | Value::Rawt(_) => unreachable!(),
    }
    key.try_extend_from_slice(&node.to_be_bytes()).unwrap();
    key
}

/// Returns the number at this distance from the lowest.
fn number32(n: u32) -> i32
    ensures { counted (2 ^ 31) result ≡ n }
{
    (i64::from(n) - (1 << 31)) as i32
}

/// Returns the number at this distance from the lowest.
fn number64(n: u64) -> i64
    ensures { counted (2 ^ 63) result ≡ n }
{
    if n < 1 << 63 {
        n as i64 + i64::MIN
    } else {
        (n - (1 << 63)) as i64
    }
}

/// Returns the number that eight bytes encode.
fn read64(bytes: &[u8]) -> u64
    requires { length bytes.now ≡ 8 }
    ensures { bytes.now ≡ to_be_bytes w64 result }
{
    u64::from_be_bytes([
        bytes[0], bytes[1], bytes[2], bytes[3], bytes[4], bytes[5], bytes[6], bytes[7],
    ])
}

/// Returns the number that four bytes encode.
fn read32(bytes: &[u8]) -> u32
    requires { length bytes.now ≡ 4 }
    ensures { bytes.now ≡ to_be_bytes w32 result }
{
    u32::from_be_bytes([bytes[0], bytes[1], bytes[2], bytes[3]])
}

/// Returns the text before a final zero byte.
fn read_text(bytes: &[u8]) -> Option<Value>
    ensures valid { IfSome result IsValue }
    ensures found { IfSome result (λ v. (kind_of v ≡ Kind.Cstr) × (bytes.now ≡ value_key v)) }
    ensures none { IfNone result ((text : List ℕ) → text_from text ≡ Ok text → IsUtf8 text
        → bytes.now ≡ text ++ 0 ∷ [] → ⊥) }
{
    let (end, text) = bytes.split_last()?;
    if *end != 0 {
        return None;
    }
    let text = str::from_utf8(text).ok()?;
    Some(Value::Cstr(Text::new(text).ok()?))
}

/// Returns the value of this kind that these bytes encode in a key.
fn read_value(kind: Kind, bytes: &[u8]) -> Option<Value>
    ensures valid { IfSome result IsValue }
    ensures found { IfSome result (λ v. (kind_of v ≡ kind) × (bytes.now ≡ value_key v)) }
    ensures none { IfNone result ((v : AnyValue) → IsValue v → IsTrue (is_indexable kind)
        → kind_of v ≡ kind → bytes.now ≡ value_key v → ⊥) }
    ensures indexable { IfSome result (λ _. IsTrue (is_indexable kind)) }
{
    match kind {
        Kind::Cstr => read_text(bytes),
        Kind::Long => {
            if bytes.len() != 4 {
                return None;
            }
            Some(Value::Long(number32(read32(bytes))))
        }
        Kind::Llng => {
            if bytes.len() != 8 {
                return None;
            }
            Some(Value::Llng(number64(read64(bytes))))
        }
        Kind::Ulng => {
            if bytes.len() != 4 {
                return None;
            }
            Some(Value::Ulng(read32(bytes)))
        }
        Kind::Ullg => {
            if bytes.len() != 8 {
                return None;
            }
            Some(Value::Ullg(read64(bytes)))
        }
        Kind::Mims | Kind::Rawt => None,
    }
}

/// Returns the pair that has this key, if its value is of this kind. This is the exact inverse of
/// `key_of`. It copies the value once and allocates nothing.
pub fn read_key(kind: Kind, bytes: &[u8]) -> Option<(Value, u64)>
    ensures found { IfSome result (λ pair. (kind_of pair.0 ≡ kind)
        × (bytes.now ≡ key pair.0 pair.1)) }
    ensures none { IfNone result ((v : AnyValue) (n : ℕ) → IsValue v → n < 2 ^ 64
        → IsTrue (is_indexable kind) →
        kind_of v ≡ kind → bytes.now ≡ key v n → ⊥) }

    // No other pair has this key.
    ensures only { IfSome result (λ pair. (v : AnyValue) (n : ℕ) → IsValue v → n < 2 ^ 64
        → IsTrue (is_indexable kind) →
        kind_of v ≡ kind → bytes.now ≡ key v n → (pair.0 ≡ v) × (pair.1 ≡ n)) }

    // If no index can have this kind, there is no such pair.
    ensures indexable { IfSome result (λ _. IsTrue (is_indexable kind)) }
{
    let at = bytes.len().checked_sub(8)?;
    let (front, last) = bytes.split_at(at);
    let value = read_value(kind, front)?;
    Some((value, read64(last)))
}

/// Returns the node at the end of a key. It reads only the last eight bytes.
pub fn node_of(bytes: &[u8]) -> u64
    requires { 8 ≤ length bytes.now }
    ensures { (front : List ℕ) (n : ℕ) → n < 2 ^ 64 → bytes.now ≡ front ++ to_be_bytes w64 n
        → result ≡ n }
{
    let (_, last) = bytes.split_at(bytes.len() - 8);
    read64(last)
}

/// A law: within one kind, keys compare by their bytes as their pairs (value, node) do.
pub fn key_order()
    ensures { (v w : AnyValue) (m n : ℕ) → IsValue v → IsValue w → m < 2 ^ 64 → n < 2 ^ 64 →
        IsTrue (is_indexable (kind_of v)) → kind_of v ≡ kind_of w →
        slice_cmp nat_cmp (key v m) (key w n) ≡ pair_cmp v m w n }
{}

/// A law: each key belongs to one pair.
pub fn keys_differ()
    ensures { (v w : AnyValue) (m n : ℕ) → IsValue v → IsValue w → m < 2 ^ 64 → n < 2 ^ 64 →
        IsTrue (is_indexable (kind_of v)) → kind_of v ≡ kind_of w → key v m ≡ key w n → (v ≡ w)
        × (m ≡ n) }
{}
