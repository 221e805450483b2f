//! What a line `page` requests, and what it finds.
//!
//! The words come in this order: `by NAME`, `descending` for the reverse order, `after KIND VALUE
//! NODE` for any page but the first, and `limit N`. The query follows them.
ghost use Rattle.std.specs.Option.{option_map};
ghost use Rattle.std.specs.Prelude.{◌≡◌, IfErr, IfOk, false, string_bytes, true};
ghost use Rattle.be_value.specs.Name.{name_from};
ghost use Rattle.be_value.specs.declared.refusals.Refusal.TheVariants.{NoSuchIndex};
ghost use Rattle.be_script_language.specs.Page as spec;

use crate::values::{kind_of, value_of};
use crate::words::{first_word, skip, text_of};
use arrayvec::ArrayVec;
use be_value::{Kind, Name, Refusal, Value, key_of, word_of};
use std::alloc::{AllocError, Global};

/// The page of a query's answer that a line requests.
#[derive(Debug, Drop)]
pub struct Paging {
    /// The name of the index that gives the order.
    pub by: Name,
    /// Whether that order is reversed.
    pub descending: bool,
    /// The value and node after which the page begins, or `None` for the first page.
    pub after: Option<(Value, u64)>,
    /// The maximum number of nodes; at least 1.
    pub most: u64,
}

impl Paging {
    /// The key after which the page begins in an index of this kind, or `None` for the first page.
    /// For any other page, the error is `NoSuchIndex` if there is no index, or if the value is of a
    /// different kind.
    pub fn cursor(&self, kind: Option<Kind>) -> Result<Option<ArrayVec<u8, 264>>, Refusal>
        ensures begins { IfOk result (λ _. spec.may_begin kind self.now.after ≡ true) }
        ensures key { IfOk result (λ cursor. option_map (λ key. key.items) cursor
            ≡ option_map spec.key_at self.now.after) }
        ensures refused { IfErr result (λ e. (e ≡ NoSuchIndex)
            × (spec.may_begin kind self.now.after ≡ false)) }
    {
        let Some((value, node)) = &self.after else {
            return Ok(None);
        };
        let Some(kind) = kind else {
            return Err(Refusal::NoSuchIndex);
        };
        if !value.kind().indexable() {
            return Err(Refusal::NoSuchIndex);
        }
        if value.kind().number() != kind.number() {
            return Err(Refusal::NoSuchIndex);
        }
        Ok(Some(key_of(value, *node)))
    }
}

/// The page that a line finds.
#[derive(Debug, Drop)]
pub struct Page {
    /// The page's nodes, in the index's order.
    pub nodes: Vec<u64>,
    /// Whether more nodes come after them.
    pub more: bool,
    /// The last node's value and number, after which the next page begins. `None` if the page is
    /// empty.
    pub last: Option<(Value, u64)>,
}

/// The text after the first word, if that word is the expected one.
fn past<'a>(
    alloc: Global,
    expected: &str,
    text: &'a [char],
) -> Result<Option<&'a [char]>, AllocError>
    ensures { IfOk result (λ rest. option_map (λ r. r.now) rest
        ≡ spec.past expected.now text.now) }
{
    let Some((word, rest)) = first_word(alloc, text)? else {
        return Ok(None);
    };
    if word.as_str() == expected {
        Ok(Some(rest))
    } else {
        Ok(None)
    }
}

/// Reads `by NAME`, and returns the name and the text after it.
fn name_part(alloc: Global, text: &[char]) -> Result<Option<(String, &[char])>, AllocError>
    ensures { IfOk result (λ name. option_map (λ p. (string_bytes p.0, p.1.now)) name
        ≡ spec.name_in text.now) }
{
    match past(alloc, "by", text)? {
        Some(rest) => first_word(alloc, rest),
        None => Ok(None),
    }
}

/// Whether `descending` comes first, and the text left to read.
fn direction_part(alloc: Global, text: &[char]) -> Result<(bool, &[char]), AllocError>
    ensures { IfOk result (λ direction. (direction.0, direction.1.now)
        ≡ spec.direction_in text.now) }
{
    match past(alloc, "descending", text)? {
        Some(rest) => Ok((true, rest)),
        None => Ok((false, text)),
    }
}

/// The value and node that three words encode, or the error of the value. Returns `None` if the
/// line is bad.
fn pair_of(
    alloc: Global,
    kind: &str,
    value: &str,
    node: &str,
) -> Result<Option<Result<Option<(Value, u64)>, Refusal>>, AllocError>
    ensures { IfOk result (λ pair. pair ≡ spec.pair_from kind.now value.now node.now) }
{
    let Some(kind) = kind_of(kind) else {
        return Ok(None);
    };
    let Some(value) = value_of(alloc, kind, value)? else {
        return Ok(None);
    };
    let Some(node) = word_of(node.as_bytes()) else {
        return Ok(None);
    };
    match value {
        Ok(value) => Ok(Some(Ok(Some((value, node))))),
        Err(refusal) => Ok(Some(Err(refusal))),
    }
}

/// The place after which a page begins, if there is one, with the text after it. There is `None` if
/// the line is bad.
type Start<'a> = Option<(Result<Option<(Value, u64)>, Refusal>, &'a [char])>;

/// Reads `KIND VALUE NODE`, and returns the value and node with the text after them.
fn pair_part(alloc: Global, text: &[char]) -> Result<Start<'_>, AllocError>
    ensures { IfOk result (λ pair. option_map (λ p. (p.0, p.1.now)) pair
        ≡ spec.pair_in text.now) }
{
    let Some((kind, rest)) = first_word(alloc, text)? else {
        return Ok(None);
    };
    let Some((value, rest)) = first_word(alloc, rest)? else {
        return Ok(None);
    };
    let Some((node, rest)) = first_word(alloc, rest)? else {
        return Ok(None);
    };
    match pair_of(alloc, kind.as_str(), value.as_str(), node.as_str())? {
        Some(pair) => Ok(Some((pair, rest))),
        None => Ok(None),
    }
}

/// If `after` comes first, reads `after KIND VALUE NODE`. Returns the value and node, if there are
/// any, with the text left to read.
fn after_part(alloc: Global, text: &[char]) -> Result<Start<'_>, AllocError>
    ensures { IfOk result (λ after. option_map (λ p. (p.0, p.1.now)) after
        ≡ spec.after_in text.now) }
{
    match past(alloc, "after", text)? {
        Some(rest) => pair_part(alloc, rest),
        None => Ok(Some((Ok(None), text))),
    }
}

/// The number that a word encodes, unless it is 0.
fn most_of(word: &str) -> Option<u64>
    ensures { result ≡ spec.most_from word.now }
{
    let most = word_of(word.as_bytes())?;
    if most == 0 { None } else { Some(most) }
}

/// Reads `limit N`, and returns the number and the text after it.
fn limit_part(alloc: Global, text: &[char]) -> Result<Option<(u64, &[char])>, AllocError>
    ensures { IfOk result (λ limit. option_map (λ p. (p.0, p.1.now)) limit
        ≡ spec.limit_in text.now) }
{
    let Some(rest) = past(alloc, "limit", text)? else {
        return Ok(None);
    };
    let Some((word, rest)) = first_word(alloc, rest)? else {
        return Ok(None);
    };
    match most_of(word.as_str()) {
        Some(most) => Ok(Some((most, rest))),
        None => Ok(None),
    }
}

/// Builds the page request from its parts. An error in the name comes before an error in the value.
fn paging_of(
    name: &str,
    descending: bool,
    after: Result<Option<(Value, u64)>, Refusal>,
    most: u64,
) -> Result<Paging, Refusal>
    ensures { result ≡ spec.paging_from (name_from name.now) descending after most }
{
    let by = Name::new(name)?;
    let after = after?;
    Ok(Paging {
        by,
        descending,
        after,
        most,
    })
}

/// The page that the words after `page` request, or the error of its name or value, with the
/// query's text. Returns `None` if the line is bad.
pub(crate) fn page_asked(
    alloc: Global,
    text: &[char],
) -> Result<Option<(Result<Paging, Refusal>, String)>, AllocError>
    ensures { IfOk result (λ page. option_map (λ p. (p.0, string_bytes p.1)) page
        ≡ spec.asked_in text.now) }
{
    let Some((name, rest)) = name_part(alloc, text)? else {
        return Ok(None);
    };
    let (descending, rest) = direction_part(alloc, rest)?;
    let Some((after, rest)) = after_part(alloc, rest)? else {
        return Ok(None);
    };
    let Some((most, rest)) = limit_part(alloc, rest)? else {
        return Ok(None);
    };
    let paging = paging_of(name.as_str(), descending, after, most);
    Ok(Some((paging, text_of(alloc, skip(rest))?)))
}
