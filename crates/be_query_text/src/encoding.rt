//! Comparisons in the form that is passed to other languages.
ghost use Rattle.std.specs.Prelude.{◌≡◌, IfOk, map};
ghost use Rattle.be_query_text.specs.Described.{reported};
ghost use Rattle.be_query_text.specs.EncodedComparisons.{bytes_of, form_number, op_number};
ghost use Rattle.be_query_text.specs.EncodedComparisons.{encoded_as};
ghost use Rattle.be_query_text.specs.EncodedComparisons.{encoded_from};

use crate::compared::{Compared, Form};
use crate::ranges::is_never_true;
use be_query::Cmp;
use be_value::Kind;
use std::alloc::{AllocError, Global};

/// A comparison in the form that is passed to other languages. Offsets are in bytes of the text,
/// except for the `plain` ones, which are in a byte string that all comparisons share.
#[repr(C)]
#[derive(Clone, Copy)]
pub struct EncodedComparison {
    /// The extent of the comparison, from its name to its value.
    pub at: u64,
    pub end: u64,
    /// The extents of the name and the value, without quotes but with their backslashes.
    pub name_at: u64,
    pub name_end: u64,
    pub value_at: u64,
    pub value_end: u64,
    /// The name without backslashes, followed by the value without backslashes or, for a pattern,
    /// by the canonical text.
    pub plain_name_at: u64,
    pub plain_value_at: u64,
    pub plain_end: u64,
    /// The operator, inverted by every `!` around the comparison: 4 to 9 for `==`, `!=`, `<`, `<=`,
    /// `>` and `>=`.
    pub kind: u32,
    /// The operator in the text, with the same numbers.
    pub kind_in_text: u32,
    /// 0 for a string, 1 for a whole number, and 2 for a pattern with a wildcard.
    pub form: u32,
    /// Whether the comparison is false for all values of the kind.
    pub is_never_int32: bool,
    pub is_never_int64: bool,
    pub is_never_uint32: bool,
    pub is_never_uint64: bool,
}

/// Comparisons, along with the bytes of their names and values.
#[derive(Drop)]
pub struct Encoding {
    pub comparisons: Vec<EncodedComparison>,
    pub bytes: Vec<u8>,
}

/// Returns the comparisons in the form that is passed to other languages.
pub fn encoded_comparisons(alloc: Global, compared: &[Compared]) -> Result<Encoding, AllocError>
    ensures comparisons { IfOk result (λ s. s.comparisons.items
        ≡ encoded_from 0 (map reported compared.now)) }
    ensures bytes { IfOk result (λ s. s.bytes.items ≡ bytes_of (map reported compared.now)) }
{
    let mut comparisons = Vec::new(alloc);
    let mut bytes = Vec::new(alloc);
    let mut rest = compared;
    'comparisons: while let Some((first, after)) = rest.split_first() {
        let plain_name_at = bytes.len();
        bytes.extend_from_slice(first.name.as_str().as_bytes())?;
        let plain_value_at = bytes.len();
        bytes.extend_from_slice(first.words.as_bytes())?;
        comparisons.push(encode_one(first, plain_name_at, plain_value_at, bytes.len()))?;
        rest = after;
    }
    Ok(Encoding { comparisons, bytes })
}

/// Returns a comparison whose plain name and value are at these offsets.
fn encode_one(compared: &Compared, name_at: usize, value_at: usize, end: usize) -> EncodedComparison
    ensures { result ≡ encoded_as name_at value_at end (reported compared.now) }
{
    let place = &compared.place;
    EncodedComparison {
        at: place.name.at as u64,
        end: place.value.end as u64,
        name_at: place.name.start as u64,
        name_end: place.name.stop as u64,
        value_at: place.value.start as u64,
        value_end: place.value.stop as u64,
        plain_name_at: name_at as u64,
        plain_value_at: value_at as u64,
        plain_end: end as u64,
        kind: op_number(compared.op),
        kind_in_text: op_number(place.op),
        form: form_number(compared.form),
        is_never_int32: is_never_true(compared.op, compared.number, Kind::Long),
        is_never_int64: is_never_true(compared.op, compared.number, Kind::Llng),
        is_never_uint32: is_never_true(compared.op, compared.number, Kind::Ulng),
        is_never_uint64: is_never_true(compared.op, compared.number, Kind::Ullg),
    }
}

/// Returns the number that an operator has among the items of a predicate.
fn op_number(op: Cmp) -> u32
    ensures { result ≡ op_number op }
{
    match op {
        Cmp::Eq => 4,
        Cmp::Ne => 5,
        Cmp::Lt => 6,
        Cmp::Le => 7,
        Cmp::Gt => 8,
        Cmp::Ge => 9,
    }
}

/// Returns the number of a form.
fn form_number(form: Form) -> u32
    ensures { result ≡ form_number form }
{
    match form {
        Form::Text => 0,
        Form::Number => 1,
        Form::Pattern => 2,
    }
}
