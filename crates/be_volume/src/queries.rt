//! What a query sees of a volume, and which nodes satisfy it.
//!
//! A comparison on a name that has an index sees the value that the index has for a node; otherwise
//! it sees the node's attribute. If it sees nothing of a node, it is false, even for `!=`. This is
//! the definition, node by node; a plan that walks indices must find the same nodes.
ghost use Rattle.std.specs.Option.{option_copied};
ghost use Rattle.std.specs.Prelude.{◌≡◌};
ghost use Rattle.be_query.specs.View.{formula, literal as literal_of};
ghost use Rattle.be_volume.specs.Query.{sees, sat, covered, holds, holds_of_text, holds_of_number};
ghost use Rattle.be_volume.specs.Query.{literal_number, is_true_of, is_true_of_match};

use crate::contents::Contents;
use be_query::{Cmp, Comparison, Literal, Tree};
use be_value::{Name, Value, number_of};
use std::cmp::Ordering;

/// Returns `true` if indices cover the tree.
pub fn covers(contents: &Contents, tree: &Tree) -> bool
    ensures { result ≡ covered contents.now (formula tree.now) }
{
    match tree {
        Tree::Leaf(comparison) => contents.indices().get(&comparison.name).is_some(),
        Tree::And(a, b) => covers(contents, a) || covers(contents, b),
        Tree::Or(a, b) => covers(contents, a) && covers(contents, b),
    }
}

/// Returns `true` if the node satisfies the tree.
pub fn satisfies(contents: &Contents, tree: &Tree, node: u64) -> bool
    ensures { result ≡ sat contents.now (formula tree.now) node }
{
    match tree {
        Tree::Leaf(comparison) => match seen(contents, node, &comparison.name) {
            Some(value) => holds(comparison, value),
            None => false,
        },
        Tree::And(a, b) => satisfies(contents, a, node) && satisfies(contents, b, node),
        Tree::Or(a, b) => satisfies(contents, a, node) || satisfies(contents, b, node),
    }
}

/// Returns what a comparison on this name sees of the node.
fn seen<'a>(contents: &'a Contents, node: u64, name: &Name) -> Option<&'a Value>
    ensures { option_copied result ≡ sees contents.now node name.now }
{
    match contents.indices().get(name) {
        Some(index) => index.pairs.get(node),
        None => contents.nodes().get(node)?.get(name),
    }
}

/// Returns `true` if a comparison is true of a value. Texts match a pattern by their characters,
/// and are compared with an exact literal by their bytes. Integers of every kind are compared, as
/// numbers, with the number that the literal encodes. If it encodes no number, the comparison is
/// false, even for `!=`. Every comparison with raw bytes is false.
pub fn holds(comparison: &Comparison, value: &Value) -> bool
    ensures { result ≡ holds comparison.now.op value.now (literal_of comparison.now.literal) }
{
    let op = comparison.op;
    match value {
        Value::Cstr(text) | Value::Mims(text) => {
            holds_of_text(op, text.as_str(), &comparison.literal)
        }
        Value::Long(n) => holds_of_number(op, i128::from(*n), &comparison.literal),
        Value::Llng(n) => holds_of_number(op, i128::from(*n), &comparison.literal),
        Value::Ulng(n) => holds_of_number(op, i128::from(*n), &comparison.literal),
        Value::Ullg(n) => holds_of_number(op, i128::from(*n), &comparison.literal),
        Value::Rawt(_) => false,
    }
}

fn holds_of_text(op: Cmp, text: &str, literal: &Literal) -> bool
    ensures { result ≡ holds_of_text op text.now (literal_of literal.now) }
{
    match literal {
        Literal::Text(words) => is_true_of(op, text.cmp(words.as_str())),
        Literal::Pattern(pattern) => match op {
            Cmp::Eq => pattern.matches(text),
            _ => !pattern.matches(text),
        },
    }
}

fn holds_of_number(op: Cmp, n: i128, literal: &Literal) -> bool
    ensures { result ≡ holds_of_number op n (literal_number (literal_of literal.now)) }
{
    match literal_number(literal) {
        Some(m) => is_true_of(op, n.cmp(&m)),
        None => false,
    }
}

/// Returns the number that a literal encodes, if any. A pattern with a wildcard encodes no number.
/// A plain pattern's number is read from its characters after the backslashes are removed.
pub fn literal_number(literal: &Literal) -> Option<i128>
    ensures { result ≡ literal_number (literal_of literal.now) }
{
    match literal {
        Literal::Text(words) => number_of(words.as_str()),
        Literal::Pattern(pattern) => {
            if pattern.is_plain() {
                number_of(pattern.prefix())
            } else {
                None
            }
        }
    }
}

/// Returns `true` if an operator is true of a value and something that compares with it in this
/// order, the value first.
pub fn is_true_of(op: Cmp, order: Ordering) -> bool
    ensures { result ≡ is_true_of op order }
{
    match op {
        Cmp::Eq => order.is_eq(),
        Cmp::Ne => order.is_ne(),
        Cmp::Lt => order.is_lt(),
        Cmp::Le => order.is_le(),
        Cmp::Gt => order.is_gt(),
        Cmp::Ge => order.is_ge(),
    }
}
