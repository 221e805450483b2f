//! Prints the canonical text of a query, with parentheses only where the tree needs them.
ghost use Rattle.std.specs.Prelude.{◌≡◌, ◌++◌, ◌<◌, [], length, IfOk, IfErr, string_bytes};
ghost use Rattle.be_value.specs.declared.refusals.Refusal.TheVariants.{OutOfMemory};
ghost use Rattle.be_query.specs.Printing.{or_text, leaf_text, cmp_text, literal_text};
ghost use Rattle.be_query.specs.Printing.{with_backslashes, wants_backslash};
ghost use Rattle.be_query.specs.Grammar.{Formula, IsTextOf};
ghost use Rattle.be_query.specs.View.{formula, literal, printed_at, only_if};

use crate::query::Query;
use crate::tree::{Cmp, Comparison, Literal, Tree};
use be_pattern::matching::split_first_char;
use be_value::Refusal;
use std::alloc::{AllocError, Global};

/// The context in which a tree is printed. It determines whether the tree needs parentheses.
#[derive(Clone, Copy, Debug, PartialEq, Eq)]
pub(crate) enum Place {
    /// On its own, or to the left of `||`.
    Side,
    /// To the right of `||`, or to the left of `&&`.
    Part,
    /// To the right of `&&`.
    Operand,
}

/// Returns the canonical text of the query: each comparison in the form `"name"op"value"`, joined
/// by ` && ` and ` || `.
///
/// `parse` can read the text back unless it exceeds a limit: it may be longer than 4,096 bytes, or
/// have more than 64 parentheses around a comparison. Printing recurses on the inner nodes of the
/// tree, of which a query has at most 255.
pub fn print(alloc: Global, query: &Query) -> Result<String, Refusal>
    // The result is the canonical text of the tree.
    ensures text { IfOk result (λ s. string_bytes s ≡ or_text query.now) }
    // The text encodes the tree.
    ensures parses { IfOk result (λ s. IsTextOf (string_bytes s) query.now) }
    // The text encodes no other tree.
    ensures alone { IfOk result (λ s. (tree : Formula) → IsTextOf (string_bytes s) tree → tree
        ≡ query.now) }
    ensures err { IfErr result (λ e. e ≡ OutOfMemory) }
{
    let mut text = String::new(alloc);
    push_tree(alloc, &mut text, query.tree(), Place::Side)?;
    Ok(text)
}

/// Returns the canonical text of one comparison, just as it appears in that of the query.
pub fn print_comparison(alloc: Global, comparison: &Comparison) -> Result<String, Refusal>
    ensures ok { IfOk result (λ s. string_bytes s
        ≡ leaf_text comparison.now.name comparison.now.op (literal comparison.now.literal)) }
    ensures err { IfErr result (λ e. e ≡ OutOfMemory) }
{
    let mut text = String::new(alloc);
    push_comparison(alloc, &mut text, comparison)?;
    Ok(text)
}

/// Appends a tree, with the parentheses that it needs in this context.
fn push_tree(alloc: Global, text: &mut String, tree: &Tree, place: Place) -> Result<(), Refusal>
    ensures ok { IfOk result (λ _. string_bytes text.new ≡ string_bytes text.old
        ++ printed_at place (formula tree.now)) }
    ensures err { IfErr result (λ e. e ≡ OutOfMemory) }
{
    match tree {
        Tree::Leaf(comparison) => push_comparison(alloc, text, comparison),
        Tree::And(left, right) => {
            let grouped = place == Place::Operand;
            push_if(text, grouped, "(")?;
            push_tree(alloc, text, left, Place::Part)?;
            text.push_str(" && ")?;
            push_tree(alloc, text, right, Place::Operand)?;
            push_if(text, grouped, ")")?;
            Ok(())
        }
        Tree::Or(left, right) => {
            let grouped = place != Place::Side;
            push_if(text, grouped, "(")?;
            push_tree(alloc, text, left, Place::Side)?;
            text.push_str(" || ")?;
            push_tree(alloc, text, right, Place::Part)?;
            push_if(text, grouped, ")")?;
            Ok(())
        }
    }
}

/// Appends `piece` if `shown` is `true`.
fn push_if(text: &mut String, shown: bool, piece: &str) -> Result<(), AllocError>
    ensures { IfOk result (λ _. string_bytes text.new ≡ string_bytes text.old
        ++ only_if shown piece.now) }
{
    if !shown {
        return Ok(());
    }
    text.push_str(piece)
}

/// Appends a comparison.
fn push_comparison(alloc: Global, text: &mut String, comparison: &Comparison) -> Result<(), Refusal>
    ensures ok { IfOk result (λ _. string_bytes text.new
        ≡ string_bytes text.old ++ leaf_text comparison.now.name comparison.now.op
        (literal comparison.now.literal)) }
    ensures err { IfErr result (λ e. e ≡ OutOfMemory) }
{
    text.push('"')?;
    push_escaped(text, comparison.name.as_str())?;
    text.push('"')?;
    text.push_str(sign_of(comparison.op))?;
    text.push('"')?;
    push_value(alloc, text, &comparison.literal)?;
    text.push('"')?;
    Ok(())
}

/// Returns the text of an operator.
fn sign_of(op: Cmp) -> &'static str
    ensures { result.now ≡ cmp_text op }
{
    match op {
        Cmp::Eq => "==",
        Cmp::Ne => "!=",
        Cmp::Lt => "<",
        Cmp::Le => "<=",
        Cmp::Gt => ">",
        Cmp::Ge => ">=",
    }
}

/// Appends the value of a comparison, without its quotes.
fn push_value(alloc: Global, text: &mut String, value: &Literal) -> Result<(), Refusal>
    ensures ok { IfOk result (λ _. string_bytes text.new ≡ string_bytes text.old
        ++ literal_text (literal value.now)) }
    ensures err { IfErr result (λ e. e ≡ OutOfMemory) }
{
    match value {
        Literal::Pattern(pattern) => {
            let canonical = pattern.canonical(alloc)?;
            text.push_str(&canonical)?;
            Ok(())
        }
        Literal::Text(exact) => {
            push_escaped(text, exact)?;
            Ok(())
        }
    }
}

/// Appends a string with a backslash before every `"` and `\`.
fn push_escaped(text: &mut String, piece: &str) -> Result<(), AllocError>
    ensures { IfOk result (λ _. string_bytes text.new ≡ string_bytes text.old
        ++ with_backslashes piece.now) }
{
    let mut rest = piece;
    'characters: while let Some((c, after)) = split_first_char(rest) {
        push_if(text, wants_backslash(c), "\\")?;
        text.push(c)?;
        rest = after;
    }
    Ok(())
}

/// Returns `true` if the character is printed with a backslash.
fn wants_backslash(c: char) -> bool
    ensures { result ≡ wants_backslash c }
{
    c == '"' || c == '\\'
}
