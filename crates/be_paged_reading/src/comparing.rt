//! Compares values without decoding them.
//!
//! A decoded value has room for the longest string, whatever its kind, and every move copies all of
//! that room. The item itself is compared instead: an integer is read as a number, and only the
//! bytes of a string are copied. If the caller prepares the comparison before testing many items,
//! the string isn't decoded either.
ghost use Rattle.std.specs.Prelude.{◌≡◌, ◌+◌, ◌≤◌, ℕ, List, ◌∷◌, IfSome, Ok, IsTrue, IsUtf8};
ghost use Rattle.be_paged_reading.specs.Imports.{holds, holds_of_number, holds_of_text};
ghost use Rattle.be_paged_reading.specs.Imports.{is_readable, item_at, literal_number, literal_of};
ghost use Rattle.be_paged_reading.specs.Imports.{option_copied, text_from, AnyValue, IsItem};
ghost use Rattle.be_paged_reading.specs.Imports.{IsUnchanged, IsValue};
ghost use Rattle.be_paged_reading.specs.Catalog.{payload_of as payload};

use crate::catalog::{kind_at, number32_at, number64_at};
use arrayvec::ArrayVec;
use be_pages::Look;
use be_plan::TextTest;
use be_query::{Cmp, Comparison, Literal};
use be_tree_reading::fill_payload;
use be_value::Kind;
use be_volume::{is_true_of, literal_number};
use std::str;

/// Returns `true` if the comparison is true of the value encoded in the payload of the item at this
/// offset. If the caller has prepared the comparison, `test` is its prepared form.
pub(crate) fn holds_at<L: Look>(
    look: &mut L,
    page: u64,
    at: usize,
    comparison: &Comparison,
    test: Option<&TextTest<'_>>,
) -> bool
    requires readable { IsTrue (is_readable (L.page_state look.old page)) }
    requires in_page { at + 42 ≤ 512 }
    requires item { IsItem (L.words look.old page) at }
    requires test { IfSome (option_copied test) (λ t. t
        ≡ (comparison.now.op, literal_of comparison.now.literal)) }
    ensures holds { (v : AnyValue) → IsValue v → (item_at (L.words look.old page) at).payload
        ≡ payload v →
        result ≡ holds comparison.now.op v (literal_of comparison.now.literal) }
    ensures unchanged { IsUnchanged L.kept L.page_state L.words look.old look.new }
{
    let Some(kind) = kind_at(look, page, at) else {
        return false;
    };
    match kind {
        Kind::Cstr | Kind::Mims => text_holds_at(look, page, at, comparison, test),
        Kind::Long => match number32_at(look, page, at) {
            Some(n) => number_holds(comparison, i128::from(n.cast_signed())),
            None => false,
        },
        Kind::Llng => match number64_at(look, page, at) {
            Some(n) => number_holds(comparison, i128::from(n.cast_signed())),
            None => false,
        },
        Kind::Ulng => match number32_at(look, page, at) {
            Some(n) => number_holds(comparison, i128::from(n)),
            None => false,
        },
        Kind::Ullg => match number64_at(look, page, at) {
            Some(n) => number_holds(comparison, i128::from(n)),
            None => false,
        },
        Kind::Rawt => false,
    }
}

/// Returns `true` if the comparison is true of the string after the first byte of a payload on a
/// page.
fn text_holds_at<L: Look>(
    look: &mut L,
    page: u64,
    at: usize,
    comparison: &Comparison,
    test: Option<&TextTest<'_>>,
) -> bool
    requires readable { IsTrue (is_readable (L.page_state look.old page)) }
    requires in_page { at + 42 ≤ 512 }
    requires item { IsItem (L.words look.old page) at }
    requires test { IfSome (option_copied test) (λ t. t
        ≡ (comparison.now.op, literal_of comparison.now.literal)) }
    ensures holds { (k : ℕ) (t : List ℕ) → text_from t ≡ Ok t → IsUtf8 t
        → (item_at (L.words look.old page) at).payload ≡ k ∷ t →
        result ≡ holds_of_text comparison.now.op t (literal_of comparison.now.literal) }
    ensures unchanged { IsUnchanged L.kept L.page_state L.words look.old look.new }
{
    let mut payload = ArrayVec::new();
    fill_payload(look, page, at, &mut payload);
    payload_holds(comparison, test, &payload)
}

/// Returns `true` if the comparison is true of the string after the first byte of `payload`.
fn payload_holds(comparison: &Comparison, test: Option<&TextTest<'_>>, payload: &[u8]) -> bool
    requires test { IfSome (option_copied test) (λ t. t
        ≡ (comparison.now.op, literal_of comparison.now.literal)) }
    ensures { (k : ℕ) (t : List ℕ) → IsUtf8 t → payload.now ≡ k ∷ t → result
        ≡ holds_of_text comparison.now.op t (literal_of comparison.now.literal) }
{
    match payload.split_first() {
        Some((_, text)) => match test {
            Some(test) => test.passes(text),
            None => text_holds(comparison, text),
        },
        None => false,
    }
}

/// Returns `true` if the comparison is true of the string with these bytes.
fn text_holds(comparison: &Comparison, text: &[u8]) -> bool
    ensures { IsUtf8 text.now → result
        ≡ holds_of_text comparison.now.op text.now (literal_of comparison.now.literal) }
{
    match &comparison.literal {
        Literal::Text(words) => is_true_of(comparison.op, text.cmp(&words.as_str().as_bytes())),
        Literal::Pattern(pattern) => match str::from_utf8(text) {
            Ok(text) => match comparison.op {
                Cmp::Eq => pattern.matches(text),
                _ => !pattern.matches(text),
            },
            Err(_) => false,
        },
    }
}

/// Returns `true` if the comparison is true of a number.
fn number_holds(comparison: &Comparison, n: i128) -> bool
    ensures { result ≡ holds_of_number comparison.now.op n
        (literal_number (literal_of comparison.now.literal)) }
{
    match literal_number(&comparison.literal) {
        Some(m) => is_true_of(comparison.op, n.cmp(&m)),
        None => false,
    }
}
