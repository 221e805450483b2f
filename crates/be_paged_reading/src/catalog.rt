//! The keys and payloads of the catalog.
ghost use Rattle.std.specs.Prelude.{◌≡◌, ◌+◌, ◌≤◌, ◌<◌, ◌^◌, ℕ, List, ◌∷◌, length, Ok, Some};
ghost use Rattle.std.specs.Prelude.{IsTrue, IsUtf8};
ghost use Rattle.be_paged_reading.specs.Imports.{is_readable, item_at, kind_of, name_from};
ghost use Rattle.be_paged_reading.specs.Imports.{text_from, to_be_bytes, w32, w64, AnyValue};
ghost use Rattle.be_paged_reading.specs.Imports.{IsItem, IsUnchanged, IsValue};
ghost use Rattle.be_paged_reading.specs.Catalog.{catalog_key as key_in_catalog};
ghost use Rattle.be_paged_reading.specs.Catalog.{payload_of as payload};

use arrayvec::ArrayVec;
use be_pages::Look;
use be_tree_reading::{
    fill_payload, payload_byte_at, payload_len_at, payload_number_at, payload_number32_at,
};
use be_value::{Bytes, Kind, Name, Text, Value};
use std::str;

/// Returns the catalog key of a node's attribute.
pub fn catalog_key(node: u64, name: &Name) -> ArrayVec<u8, 72>
    ensures key { result.items ≡ key_in_catalog node name.now }
    ensures short { length result.items ≤ 71 }
    ensures valid { name_from name.now ≡ Ok name.now }
{
    let mut key = ArrayVec::new();
    key.try_extend_from_slice(&node.to_be_bytes()).unwrap();
    key.try_extend_from_slice(name.as_str().as_bytes()).unwrap();
    key
}

/// Returns the value encoded in the payload of the item at this offset, if it encodes one. An
/// integer is read from its one or two words. The bytes of a string are copied once before they are
/// put into the value. This function is inlined so that the value isn't moved between calls.
/// Strings are handled by separate functions, so only a string incurs the cost of clearing the
/// buffer.
#[inline(always)]
pub(crate) fn value_at<L: Look>(look: &mut L, page: u64, at: usize) -> Option<Value>
    requires readable { IsTrue (is_readable (L.page_state look.old page)) }
    requires in_page { at + 42 ≤ 512 }
    requires item { IsItem (L.words look.old page) at }
    ensures value { (v : AnyValue) → IsValue v → (item_at (L.words look.old page) at).payload
        ≡ payload v → result ≡ Some v }
    ensures unchanged { IsUnchanged L.kept L.page_state L.words look.old look.new }
{
    let kind = kind_at(look, page, at)?;
    match kind {
        Kind::Cstr => cstr_at(look, page, at),
        Kind::Long => Some(Value::Long(number32_at(look, page, at)?.cast_signed())),
        Kind::Llng => Some(Value::Llng(number64_at(look, page, at)?.cast_signed())),
        Kind::Mims => mims_at(look, page, at),
        Kind::Rawt => rawt_at(look, page, at),
        Kind::Ulng => Some(Value::Ulng(number32_at(look, page, at)?)),
        Kind::Ullg => Some(Value::Ullg(number64_at(look, page, at)?)),
    }
}

/// Returns the string after the first byte of a payload as a `Cstr`.
#[inline(never)]
fn cstr_at<L: Look>(look: &mut L, page: u64, at: usize) -> Option<Value>
    requires readable { IsTrue (is_readable (L.page_state look.old page)) }
    requires in_page { at + 42 ≤ 512 }
    requires item { IsItem (L.words look.old page) at }
    ensures value { (k : ℕ) (t : List ℕ) → text_from t ≡ Ok t → IsUtf8 t
        → (item_at (L.words look.old page) at).payload ≡ k ∷ t → result ≡ Some (AnyValue.Cstr t) }
    ensures unchanged { IsUnchanged L.kept L.page_state L.words look.old look.new }
{
    Some(Value::Cstr(text_at(look, page, at)?))
}

/// Returns the string after the first byte of a payload as a `Mims`.
#[inline(never)]
fn mims_at<L: Look>(look: &mut L, page: u64, at: usize) -> Option<Value>
    requires readable { IsTrue (is_readable (L.page_state look.old page)) }
    requires in_page { at + 42 ≤ 512 }
    requires item { IsItem (L.words look.old page) at }
    ensures value { (k : ℕ) (t : List ℕ) → text_from t ≡ Ok t → IsUtf8 t
        → (item_at (L.words look.old page) at).payload ≡ k ∷ t → result ≡ Some (AnyValue.Mims t) }
    ensures unchanged { IsUnchanged L.kept L.page_state L.words look.old look.new }
{
    Some(Value::Mims(text_at(look, page, at)?))
}

/// Returns the bytes after the first byte of a payload as a `Rawt`.
#[inline(never)]
fn rawt_at<L: Look>(look: &mut L, page: u64, at: usize) -> Option<Value>
    requires readable { IsTrue (is_readable (L.page_state look.old page)) }
    requires in_page { at + 42 ≤ 512 }
    requires item { IsItem (L.words look.old page) at }
    ensures value { (k : ℕ) (bytes : List ℕ) → length bytes ≤ 255
        → (item_at (L.words look.old page) at).payload ≡ k ∷ bytes → result
        ≡ Some (AnyValue.Rawt bytes) }
    ensures unchanged { IsUnchanged L.kept L.page_state L.words look.old look.new }
{
    Some(Value::Rawt(bytes_at(look, page, at)?))
}

/// Returns the kind whose number is the first byte of the payload, if there is such a kind.
pub(crate) fn kind_at<L: Look>(look: &mut L, page: u64, at: usize) -> Option<Kind>
    requires readable { IsTrue (is_readable (L.page_state look.old page)) }
    requires in_page { at + 42 ≤ 512 }
    requires item { IsItem (L.words look.old page) at }
    ensures kind { (v : AnyValue) → (item_at (L.words look.old page) at).payload ≡ payload v
        → result ≡ Some (kind_of v) }
    ensures unchanged { IsUnchanged L.kept L.page_state L.words look.old look.new }
{
    let len = payload_len_at(look, page, at);
    if len == 0 {
        return None;
    }
    let number = payload_byte_at(look, page, at, 0);
    Kind::numbered(number)
}

/// Returns the number after the first byte of a payload, if it is four bytes long.
pub(crate) fn number32_at<L: Look>(look: &mut L, page: u64, at: usize) -> Option<u32>
    requires readable { IsTrue (is_readable (L.page_state look.old page)) }
    requires in_page { at + 42 ≤ 512 }
    requires item { IsItem (L.words look.old page) at }
    ensures number { (k n : ℕ) → n < 2 ^ 32 → (item_at (L.words look.old page) at).payload ≡ k
        ∷ to_be_bytes w32 n → result ≡ Some n }
    ensures unchanged { IsUnchanged L.kept L.page_state L.words look.old look.new }
{
    let len = payload_len_at(look, page, at);
    if len != 5 {
        return None;
    }
    Some(payload_number32_at(look, page, at, 1))
}

/// Returns the number after the first byte of a payload, if it is eight bytes long.
pub(crate) fn number64_at<L: Look>(look: &mut L, page: u64, at: usize) -> Option<u64>
    requires readable { IsTrue (is_readable (L.page_state look.old page)) }
    requires in_page { at + 42 ≤ 512 }
    requires item { IsItem (L.words look.old page) at }
    ensures number { (k n : ℕ) → n < 2 ^ 64 → (item_at (L.words look.old page) at).payload ≡ k
        ∷ to_be_bytes w64 n → result ≡ Some n }
    ensures unchanged { IsUnchanged L.kept L.page_state L.words look.old look.new }
{
    let len = payload_len_at(look, page, at);
    if len != 9 {
        return None;
    }
    Some(payload_number_at(look, page, at, 1))
}

/// Returns the string after the first byte of a payload, if it is valid in a value.
fn text_at<L: Look>(look: &mut L, page: u64, at: usize) -> Option<Text>
    requires readable { IsTrue (is_readable (L.page_state look.old page)) }
    requires in_page { at + 42 ≤ 512 }
    requires item { IsItem (L.words look.old page) at }
    ensures text { (k : ℕ) (t : List ℕ) → text_from t ≡ Ok t → IsUtf8 t
        → (item_at (L.words look.old page) at).payload ≡ k ∷ t → result ≡ Some t }
    ensures unchanged { IsUnchanged L.kept L.page_state L.words look.old look.new }
{
    let mut payload = ArrayVec::new();
    fill_payload(look, page, at, &mut payload);
    text_of(&payload)
}

fn text_of(payload: &[u8]) -> Option<Text>
    ensures { (k : ℕ) (t : List ℕ) → text_from t ≡ Ok t → IsUtf8 t → payload.now ≡ k ∷ t → result
        ≡ Some t }
{
    let (_, text) = payload.split_first()?;
    Text::new(str::from_utf8(text).ok()?).ok()
}

/// Returns the bytes after the first byte of a payload, unless there are more than a value may
/// have.
fn bytes_at<L: Look>(look: &mut L, page: u64, at: usize) -> Option<Bytes>
    requires readable { IsTrue (is_readable (L.page_state look.old page)) }
    requires in_page { at + 42 ≤ 512 }
    requires item { IsItem (L.words look.old page) at }
    ensures bytes { (k : ℕ) (bytes : List ℕ) → length bytes ≤ 255
        → (item_at (L.words look.old page) at).payload ≡ k ∷ bytes → result ≡ Some bytes }
    ensures unchanged { IsUnchanged L.kept L.page_state L.words look.old look.new }
{
    let mut payload = ArrayVec::new();
    fill_payload(look, page, at, &mut payload);
    bytes_of(&payload)
}

fn bytes_of(payload: &[u8]) -> Option<Bytes>
    ensures { (k : ℕ) (bytes : List ℕ) → length bytes ≤ 255 → payload.now ≡ k ∷ bytes → result
        ≡ Some bytes }
{
    let (_, bytes) = payload.split_first()?;
    Bytes::new(bytes).ok()
}

/// Returns the payload that encodes a value.
pub fn payload_of(value: &Value) -> ArrayVec<u8, 264>
    ensures payload { result.items ≡ payload value.now }
    ensures short { length result.items ≤ 256 }
    ensures valid { IsValue value.now }
{
    let mut bytes = ArrayVec::new();
    bytes.push(value.kind().number());
    match value {
        Value::Cstr(text) | Value::Mims(text) => {
            bytes
                .try_extend_from_slice(text.as_str().as_bytes())
                .unwrap();
        }
        Value::Long(n) => {
            bytes.try_extend_from_slice(&n.to_be_bytes()).unwrap();
        }
        Value::Llng(n) => {
            bytes.try_extend_from_slice(&n.to_be_bytes()).unwrap();
        }
        Value::Rawt(raw) => {
            bytes.try_extend_from_slice(raw.as_slice()).unwrap();
        }
        Value::Ulng(n) => {
            bytes.try_extend_from_slice(&n.to_be_bytes()).unwrap();
        }
        Value::Ullg(n) => {
            bytes.try_extend_from_slice(&n.to_be_bytes()).unwrap();
        }
    }
    bytes
}
