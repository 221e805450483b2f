//! The comparisons in the text of a query.
ghost use Rattle.std.specs.Prelude.{◌≡◌, ◌≤◌, ◌+◌, ◌++◌, ◌∷◌, List, IfErr, IfOk, None, Some};
ghost use Rattle.std.specs.Prelude.{length, map, string_bytes};
ghost use Rattle.be_query.specs.Faults.{fault};
ghost use Rattle.be_query.specs.Grammar.{Formula, IsTextOf, comparisons};
ghost use Rattle.be_query.specs.View.{IsMemory, formula, literal as literal_of};
ghost use Rattle.be_value.specs.declared.refusals.Refusal.TheVariants.{OutOfMemory};
ghost use Rattle.be_volume.specs.Query.{literal_number};
ghost use Rattle.be_query_text.specs.Described.{Comparison as AnyComparison, described};
ghost use Rattle.be_query_text.specs.Described.{description, form_of, leaves, reported, words_of};
ghost use Rattle.be_query_text.specs.Places.{places};

use crate::places::{Place, places};
use be_query::{Cmp, Comparison, Literal, Tree, parse};
use be_value::{Name, Refusal};
use be_volume::literal_number;
use std::alloc::Global;

/// What a comparison compares with.
#[derive(Clone, Copy, Debug, PartialEq, Eq)]
pub enum Form {
    /// A string that encodes a whole number from -2^63 to 2^64 - 1.
    Number,
    /// Any other string.
    Text,
    /// A pattern with a wildcard.
    Pattern,
}

/// A comparison in the text of a query.
#[derive(Debug, Drop)]
pub struct Compared {
    pub name: Name,
    /// The operator in the tree: it is inverted by every `!` around the comparison.
    pub op: Cmp,
    pub form: Form,
    /// The number, if the value encodes one.
    pub number: Option<i128>,
    /// What the comparison compares with, without quotes and backslashes. For a pattern, it is the
    /// canonical text.
    pub words: String,
    /// The place of the comparison, and its operator in the text.
    pub place: Place,
}

/// Returns the comparisons in the text of a query, from left to right, or the error of `parse`. It
/// costs as much as `parse`, plus the memory for the comparisons.
pub fn comparisons(alloc: Global, text: &str) -> Result<Vec<Compared>, Refusal>
    // The result contains the comparisons of the tree that the text encodes, each with its place in
    // the text.
    ensures ok { IfOk result (λ v. (fault text.now ≡ None) × (tree : Formula)
        × IsTextOf text.now tree × (map reported v.items
        ≡ described (leaves tree) (places text.now))) }
    // If the text isn't a query, the error is that of `parse`.
    ensures err { IfErr result (λ e. IsMemory e (fault text.now ≡ Some e)) }
{
    let query = parse(alloc, text)?;
    let places = places(alloc, text)?;
    let mut compared = Vec::new(alloc);
    push_each(alloc, query.tree(), &places, &mut compared)?;
    Ok(compared)
}

/// Appends the comparisons of a part of a query. The leading places are theirs; returns the places
/// that follow.
fn push_each<'a>(
    alloc: Global,
    tree: &Tree,
    places: &'a [Place],
    compared: &mut Vec<Compared>,
) -> Result<&'a [Place], Refusal>
    requires { comparisons (formula tree.now) ≤ length places.now }
    ensures reported { IfOk result (λ rest. (more : List AnyComparison)
        → map reported compared.new.items ++ described more rest.now
        ≡ map reported compared.old.items
        ++ described (leaves (formula tree.now) ++ more) places.now) }
    ensures left { IfOk result (λ rest. comparisons (formula tree.now) + length rest.now
        ≡ length places.now) }
    ensures memory { IfErr result (λ e. e ≡ OutOfMemory) }
{
    match tree {
        Tree::Leaf(comparison) => {
            let Some((place, rest)) = places.split_first() else {
                return Ok(places);
            };
            compared.push(describe(alloc, comparison, *place)?)?;
            Ok(rest)
        }
        Tree::And(left, right) | Tree::Or(left, right) => {
            let rest = push_each(alloc, left, places, compared)?;
            push_each(alloc, right, rest, compared)
        }
    }
}

/// Returns the description of a comparison at a place.
fn describe(alloc: Global, comparison: &Comparison, place: Place) -> Result<Compared, Refusal>
    ensures ok { IfOk result (λ c. reported c ≡ description (record {
      name = comparison.now.name;
      op = comparison.now.op;
      literal = literal_of comparison.now.literal;
    }) place) }
    ensures memory { IfErr result (λ e. e ≡ OutOfMemory) }
{
    let number = literal_number(&comparison.literal);
    Ok(Compared {
        name: comparison.name.copy(),
        op: comparison.op,
        form: form_of(&comparison.literal, number),
        number,
        words: words_of(alloc, &comparison.literal)?,
        place,
    })
}

/// Returns the form of a literal, given the number that it encodes, if any.
fn form_of(literal: &Literal, number: Option<i128>) -> Form
    ensures { result ≡ form_of (literal_of literal.now) number }
{
    if number.is_some() {
        return Form::Number;
    }
    match literal {
        Literal::Text(_) => Form::Text,
        Literal::Pattern(pattern) => {
            if pattern.is_plain() {
                Form::Text
            } else {
                Form::Pattern
            }
        }
    }
}

/// Returns what a literal compares with: a string, or the canonical text of a pattern.
fn words_of(alloc: Global, literal: &Literal) -> Result<String, Refusal>
    ensures ok { IfOk result (λ words. string_bytes words ≡ words_of (literal_of literal.now)) }
    ensures memory { IfErr result (λ e. e ≡ OutOfMemory) }
{
    match literal {
        Literal::Text(words) => Ok(String::from_str(alloc, words)?),
        Literal::Pattern(pattern) => {
            if pattern.is_plain() {
                Ok(String::from_str(alloc, pattern.prefix())?)
            } else {
                pattern.canonical(alloc)
            }
        }
    }
}
