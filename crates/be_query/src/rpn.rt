//! Builds queries from items in reverse Polish notation.
//!
//! The items operate on a stack (like `BQuery` in the Be Book).
ghost use Rattle.std.specs.Prelude.{◌≡◌, ◌≤◌, ℕ, ◌∷◌, Ok, Err, Some, None, IfOk, IfErr};
ghost use Rattle.std.specs.Prelude.{MatchOption, map, string_bytes};
ghost use Rattle.be_query.specs.Building.{conjunction};
ghost use Rattle.be_query.specs.Faults.{bad_pattern};
ghost use Rattle.be_query.specs.Grammar.{Leaf};
ghost use Rattle.be_query.specs.Rpn.{Number, Attribute, Value, Whole, top_value, top_attribute};
ghost use Rattle.be_query.specs.Rpn.{top_tree, top_comparison, top_trees};
ghost use Rattle.be_query.specs.Rpn.{counts, given_literal, compares, surrounds, joins};
ghost use Rattle.be_query.specs.Rpn.{complements, work, shallow, one_tree, rpn};
ghost use Rattle.be_query.specs.Rpn.{thing_of, things_of, stack_of, item_of, ItemClean};
ghost use Rattle.be_value.specs.Name.{has_nul};
ghost use Rattle.std.specs.Fmt.{decimal, signed_decimal};
ghost use Rattle.be_query.specs.View.{IsMemory, formula, literal};

use crate::parser::{MAX_COMPARISONS, read_literal};
use crate::query::Query;
use crate::tree::{Cmp, Comparison, Literal, Tree};
use be_pattern::Pattern;
use be_value::{Name, Refusal};
use std::alloc::{AllocError, Global};

/// The maximum number of things on the stack after an item.
const MAX_THINGS: usize = 64;

/// An item of a predicate in reverse Polish notation.
#[derive(Drop)]
pub enum Item {
    Attr(Name),
    Text(String),
    Int(i64),
    Uint(u64),
    Eq,
    Ne,
    Lt,
    Le,
    Gt,
    Ge,
    /// The attribute contains the string.
    Contains,
    /// The attribute begins with the string.
    BeginsWith,
    /// The attribute ends with the string.
    EndsWith,
    And,
    Or,
    Not,
}

/// A thing on the stack.
#[derive(Drop)]
pub(crate) enum Thing {
    Attribute(Name),
    Value(String),
    Whole(Tree),
}

/// The stack, and the number of comparisons that have been built.
#[derive(Drop)]
pub(crate) struct Stack {
    things: Vec<Thing>,
    comparisons: usize,
}

/// Builds the query that the items describe.
///
/// `BadRpn` and `BadPattern` contain the index of an item, counting from 0. `BadRpn` is returned
/// for an item whose operands aren't on the stack, and for a string that contains a NUL. If the
/// items leave anything other than a single query on the stack, its index is the number of items.
/// `BadPattern` is returned for a comparison with an invalid pattern.
///
/// `TooMany` is returned for the 257th comparison, and `TooDeep` if there are more than 64 things
/// on the stack. If one item causes several errors, `BadRpn` takes precedence over `BadPattern`,
/// then `TooMany`, then `TooDeep`.
pub fn from_rpn(alloc: Global, items: &[Item]) -> Result<Query, Refusal>
    // The tree is the one that the items build.
    ensures ok { IfOk result (λ q. rpn (map item_of items.now) ≡ Ok q) }
    // The error is that of the items, unless memory ran out.
    ensures err { IfErr result (λ e. IsMemory e (rpn (map item_of items.now) ≡ Err e)) }
{
    let mut stack = Stack {
        things: Vec::new(alloc),
        comparisons: 0,
    };
    'items: for (at, item) in items.iter().enumerate() {
        know_item(item);
        take_item(alloc, &mut stack, at, item)?;
    }
    let whole = finish(&mut stack, items.len())?;
    let tree = Box::new(alloc, whole)?;
    Ok(Query { tree })
}

/// States facts that hold for every item. This function does nothing.
fn know_item(item: &Item)
    ensures { ItemClean (item_of item.now) }
{
    match item {
        Item::Attr(name) => {
            let _name = name.as_str();
        }
        Item::Text(text) => {
            let _text = text.as_str();
        }
        Item::Int(n) => {
            let _n = *n;
        },
        Item::Uint(n) => know_uint(*n),
        Item::Eq
        | Item::Ne
        | Item::Lt
        | Item::Le
        | Item::Gt
        | Item::Ge
        | Item::Contains
        | Item::BeginsWith
        | Item::EndsWith
        | Item::And
        | Item::Or
        | Item::Not => {}
    }
}

/// States facts that hold for the decimal form of a number. This function does nothing.
fn know_uint(n: u64)
    ensures { ItemClean (Number (decimal n)) }
{
    let _n = n;
}

/// Returns the tree that is left after `len` items.
fn finish(stack: &mut Stack, len: usize) -> Result<Tree, Refusal>
    ensures ok { IfOk result (λ t. one_tree len (stack_of stack.old).1 ≡ Ok (formula t)) }
    ensures err { IfErr result (λ e. one_tree len (stack_of stack.old).1 ≡ Err e) }
{
    let Some(tree) = pop_tree(&mut stack.things) else {
        return Err(Refusal::BadRpn(len));
    };
    if stack.things.is_empty() {
        return Ok(tree);
    }
    Err(Refusal::BadRpn(len))
}

/// Applies an item, and then checks that the stack isn't too high.
fn take_item(alloc: Global, stack: &mut Stack, at: usize, item: &Item) -> Result<(), Refusal>
    ensures ok { IfOk result (λ _. shallow
        (work at (stack_of stack.old).0 (stack_of stack.old).1 (item_of item.now))
        ≡ Ok (stack_of stack.new)) }
    ensures err { IfErr result (λ e. IsMemory e
        (shallow (work at (stack_of stack.old).0 (stack_of stack.old).1 (item_of item.now))
        ≡ Err e)) }
{
    match work(alloc, stack, at, item) {
        Ok(()) => {}
        Err(refusal) => return Err(refusal),
    }
    if stack.things.len() > MAX_THINGS {
        return Err(Refusal::TooDeep);
    }
    Ok(())
}

/// Applies an item to the stack.
fn work(alloc: Global, stack: &mut Stack, at: usize, item: &Item) -> Result<(), Refusal>
    ensures ok { IfOk result (λ _. work at (stack_of stack.old).0 (stack_of stack.old).1
        (item_of item.now) ≡ Ok (stack_of stack.new)) }
    ensures err { IfErr result (λ e. IsMemory e
        (work at (stack_of stack.old).0 (stack_of stack.old).1 (item_of item.now) ≡ Err e)) }
{
    match item {
        Item::Attr(name) => push(stack, Thing::Attribute(name.copy())),
        Item::Text(text) => {
            if has_nul(text) {
                return Err(Refusal::BadRpn(at));
            }
            push(stack, Thing::Value(text.clone()?))
        }
        Item::Int(n) => push(stack, Thing::Value(n.to_string(alloc)?)),
        Item::Uint(n) => push(stack, Thing::Value(n.to_string(alloc)?)),
        Item::Eq => compare(alloc, stack, at, Cmp::Eq),
        Item::Ne => compare(alloc, stack, at, Cmp::Ne),
        Item::Lt => compare(alloc, stack, at, Cmp::Lt),
        Item::Le => compare(alloc, stack, at, Cmp::Le),
        Item::Gt => compare(alloc, stack, at, Cmp::Gt),
        Item::Ge => compare(alloc, stack, at, Cmp::Ge),
        Item::Contains => surround(alloc, stack, at, true, true),
        Item::BeginsWith => surround(alloc, stack, at, false, true),
        Item::EndsWith => surround(alloc, stack, at, true, false),
        Item::And => join(alloc, stack, at, false),
        Item::Or => join(alloc, stack, at, true),
        Item::Not => turn(alloc, stack, at),
    }
}

/// Returns `true` if the string contains a NUL.
fn has_nul(text: &str) -> bool
    ensures { result ≡ has_nul text.now }
{
    text.as_bytes().contains(&0)
}

/// Pushes a thing onto the stack.
fn push(stack: &mut Stack, thing: Thing) -> Result<(), Refusal>
    ensures ok { IfOk result (λ _. stack_of stack.new
        ≡ ((stack_of stack.old).0, thing_of thing ∷ (stack_of stack.old).1)) }
    ensures err { IfErr result (λ e. e ≡ Refusal.OutOfMemory) }
{
    stack.things.push(thing)?;
    Ok(())
}

/// Pushes a comparison onto the stack and counts it.
fn push_comparison(stack: &mut Stack, comparison: Comparison) -> Result<(), Refusal>
    ensures ok { IfOk result (λ _. counts (stack_of stack.old).0
        (Leaf comparison.name comparison.op (literal comparison.literal)) (stack_of stack.old).1
        ≡ Ok (stack_of stack.new)) }
    ensures err { IfErr result (λ e. IsMemory e
        (counts (stack_of stack.old).0 (Leaf comparison.name comparison.op
        (literal comparison.literal)) (stack_of stack.old).1 ≡ Err e)) }
{
    if stack.comparisons >= MAX_COMPARISONS {
        return Err(Refusal::TooMany);
    }
    push(stack, Thing::Whole(Tree::Leaf(comparison)))?;
    stack.comparisons += 1;
    Ok(())
}

/// Pops a value and the attribute below it, and pushes their comparison.
fn compare(alloc: Global, stack: &mut Stack, at: usize, op: Cmp) -> Result<(), Refusal>
    ensures ok { IfOk result (λ _. compares at (stack_of stack.old).0 op
        (top_comparison (stack_of stack.old).1) ≡ Ok (stack_of stack.new)) }
    ensures err { IfErr result (λ e. IsMemory e
        (compares at (stack_of stack.old).0 op (top_comparison (stack_of stack.old).1) ≡ Err e)) }
{
    let Some((name, text)) = pop_comparison(&mut stack.things) else {
        return Err(Refusal::BadRpn(at));
    };
    let literal = match given_literal(alloc, op, text)? {
        Ok(literal) => literal,
        Err(_) => return Err(Refusal::BadPattern(at)),
    };
    push_comparison(stack, Comparison { name, op, literal })
}

/// Returns the literal for a value. For `==` and `!=` it is a pattern, or the position of the error
/// in the pattern. For an order operator it is the string as it is.
fn given_literal(alloc: Global, op: Cmp, text: String) -> Result<Result<Literal, usize>, AllocError>
    ensures ok { IfOk result (λ r. IfOk r
        (λ l. (literal l ≡ given_literal op (string_bytes text))
        × (bad_pattern op (string_bytes text) ≡ None))) }
    ensures err { IfOk result (λ r. IfErr r
        (λ place. bad_pattern op (string_bytes text) ≡ Some place)) }
{
    match op {
        Cmp::Eq | Cmp::Ne => read_literal(alloc, op, &text),
        Cmp::Lt | Cmp::Le | Cmp::Gt | Cmp::Ge => Ok(Ok(Literal::Text(text))),
    }
}

/// Pops a value and the attribute below it, and pushes an `==` comparison of the attribute with a
/// pattern. The pattern is the literal string, with a `*` before it if `before` is `true` and one
/// after it if `beyond` is `true`.
fn surround(
    alloc: Global,
    stack: &mut Stack,
    at: usize,
    before: bool,
    beyond: bool,
) -> Result<(), Refusal>
    ensures ok { IfOk result (λ _. surrounds at (stack_of stack.old).0 before beyond
        (top_comparison (stack_of stack.old).1) ≡ Ok (stack_of stack.new)) }
    ensures err { IfErr result (λ e. IsMemory e
        (surrounds at (stack_of stack.old).0 before beyond (top_comparison (stack_of stack.old).1)
        ≡ Err e)) }
{
    let Some((name, text)) = pop_comparison(&mut stack.things) else {
        return Err(Refusal::BadRpn(at));
    };
    let literal = Literal::Pattern(Pattern::around(alloc, before, &text, beyond)?);
    let op = Cmp::Eq;
    push_comparison(stack, Comparison { name, op, literal })
}

/// Joins the two topmost trees by `||` or `&&`.
fn join(alloc: Global, stack: &mut Stack, at: usize, either: bool) -> Result<(), Refusal>
    ensures ok { IfOk result (λ _. joins at (stack_of stack.old).0 (conjunction either)
        (top_trees (stack_of stack.old).1) ≡ Ok (stack_of stack.new)) }
    ensures err { IfErr result (λ e. IsMemory e
        (joins at (stack_of stack.old).0 (conjunction either) (top_trees (stack_of stack.old).1)
        ≡ Err e)) }
{
    let Some((left, right)) = pop_trees(&mut stack.things) else {
        return Err(Refusal::BadRpn(at));
    };
    let tree = Tree::joined(either, Box::new(alloc, left)?, Box::new(alloc, right)?);
    push(stack, Thing::Whole(tree))
}

/// Replaces the topmost tree with its complement.
fn turn(alloc: Global, stack: &mut Stack, at: usize) -> Result<(), Refusal>
    ensures ok { IfOk result (λ _. complements at (stack_of stack.old).0
        (top_tree (stack_of stack.old).1) ≡ Ok (stack_of stack.new)) }
    ensures err { IfErr result (λ e. IsMemory e
        (complements at (stack_of stack.old).0 (top_tree (stack_of stack.old).1) ≡ Err e)) }
{
    let Some(tree) = pop_tree(&mut stack.things) else {
        return Err(Refusal::BadRpn(at));
    };
    let tree = tree.complement(alloc)?;
    push(stack, Thing::Whole(tree))
}

/// Pops a value.
fn pop_value(things: &mut Vec<Thing>) -> Option<String>
    ensures { MatchOption result (top_value (things_of things.old.items) ≡ None)
        (λ text. top_value (things_of things.old.items)
        ≡ Some (string_bytes text, things_of things.new.items)) }
{
    match things.pop()? {
        Thing::Value(text) => Some(text),
        Thing::Attribute(_) => None,
        Thing::Whole(_) => None,
    }
}

/// Pops an attribute.
fn pop_attribute(things: &mut Vec<Thing>) -> Option<Name>
    ensures { MatchOption result (top_attribute (things_of things.old.items) ≡ None)
        (λ name. top_attribute (things_of things.old.items)
        ≡ Some (name, things_of things.new.items)) }
{
    match things.pop()? {
        Thing::Attribute(name) => Some(name),
        Thing::Value(_) => None,
        Thing::Whole(_) => None,
    }
}

/// Pops a tree.
fn pop_tree(things: &mut Vec<Thing>) -> Option<Tree>
    ensures { MatchOption result (top_tree (things_of things.old.items) ≡ None)
        (λ tree. top_tree (things_of things.old.items)
        ≡ Some (formula tree, things_of things.new.items)) }
{
    match things.pop()? {
        Thing::Whole(tree) => Some(tree),
        Thing::Attribute(_) => None,
        Thing::Value(_) => None,
    }
}

/// Pops a value and then the attribute below it.
fn pop_comparison(things: &mut Vec<Thing>) -> Option<(Name, String)>
    ensures { MatchOption result (top_comparison (things_of things.old.items) ≡ None)
        (λ p. top_comparison (things_of things.old.items)
        ≡ Some (p.0, string_bytes p.1, things_of things.new.items)) }
{
    let text = pop_value(things)?;
    let name = pop_attribute(things)?;
    Some((name, text))
}

/// Pops two trees and returns the lower one first.
fn pop_trees(things: &mut Vec<Thing>) -> Option<(Tree, Tree)>
    ensures { MatchOption result (top_trees (things_of things.old.items) ≡ None)
        (λ p. top_trees (things_of things.old.items)
        ≡ Some (formula p.0, formula p.1, things_of things.new.items)) }
{
    let right = pop_tree(things)?;
    let left = pop_tree(things)?;
    Some((left, right))
}
