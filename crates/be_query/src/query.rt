//! Queries, and how they are read from text.
//!
//! Tokens are read one by one from left to right. The first token that can't follow, or that is
//! itself in error, is reported with its byte offset.
ghost use Rattle.std.specs.Prelude.{◌≡◌, ◌≤◌, None, Some, IfOk, IfErr};
ghost use Rattle.be_query.specs.Faults.{fault};
ghost use Rattle.be_query.specs.Grammar.{IsTextOf, comparisons};
ghost use Rattle.be_query.specs.Printing.{IsKept};
ghost use Rattle.be_query.specs.View.{formula, IsMemory};

use crate::lexer::{Front, split_front};
use crate::parser::Parser;
use crate::tree::Tree;
use be_value::Refusal;
use std::alloc::Global;
use std::marker::Model;

/// The maximum length of a query's text in bytes.
const MAX_LEN: usize = 4096;

/// A query: a tree of at most 256 comparisons whose names and values can be encoded in a canonical
/// text. Contracts view it as the tree, regardless of where it is stored.
#[derive(Debug, Drop)]
pub struct Query {
    pub(crate) tree: Box<Tree>,
}

impl Model for Query {
    ghost use Rattle.std.specs.Prelude.{◌≤◌};
    ghost use Rattle.be_query.specs.Printing.{IsKept};
    ghost use Rattle.be_query.specs.Coded.{coded_formula};
    ghost use Rattle.be_query.specs.Grammar.{Formula, comparisons};
    ghost use Rattle.be_query.specs.View.{formula};

    ghost Value = { Formula };

    ghost coded = { coded_formula };

    ghost view = { λ q. formula q.tree.value };

    ghost invariant = { λ q. (comparisons (formula q.tree.value) ≤ 256)
        × IsKept (formula q.tree.value) };
}

impl Query {
    /// Borrows the tree.
    pub fn tree(&self) -> &Tree
        ensures tree { formula result.now ≡ self.now }
        ensures few { comparisons self.now ≤ 256 }
        ensures kept { IsKept self.now }
    {
        &self.tree
    }
}

/// Parses the text of a query.
///
/// Text of more than 4,096 bytes is `TooLong`, whatever it contains. Otherwise the leftmost error
/// is returned, with its byte offset:
///
/// - `Syntax` at a token that can't follow, or at the end of text that ends too soon
/// - `BadPattern` at the `[` of an invalid set
/// - `TooMany` at the 257th comparison
/// - `TooDeep` at a `(` or `!` inside 64 open ones
///
/// The text is read once, in a loop, and no tree is visited again: a `!` costs no more than any
/// other token. Nothing recurses, whatever the text contains, not even when an error drops the
/// trees that have been built.
///
/// Memory is allocated for a name if it contains a backslash or is longer than 63 bytes before
/// unescaping. It is also allocated for every value; for a pattern that uses pattern notation,
/// including each of its sets; for every comparison; and for every connective when its right side
/// is complete.
pub fn parse(alloc: Global, text: &str) -> Result<Query, Refusal>
    // Text without an error is a sentence of the grammar, and this is its tree.
    ensures ok { IfOk result (λ q. (fault text.now ≡ None) × IsTextOf text.now q) }
    // The error is that of the text, unless memory ran out.
    ensures err { IfErr result (λ e. IsMemory e (fault text.now ≡ Some e)) }
{
    if text.len() > MAX_LEN {
        return Err(Refusal::TooLong);
    }
    let Parser {
        mut stage,
        mut context,
    } = Parser::new(alloc);
    let mut rest = text;
    'lexemes: while !rest.is_empty() {
        let at = text.len() - rest.len();
        match split_front(rest) {
            Front::Separator(beyond) => rest = beyond,
            Front::Token(token, shift, beyond) => {
                stage = context.take(alloc, stage, at, at + shift, token)?;
                rest = beyond;
            }
            Front::Broken(len) => return Err(stage.broken(at, len)),
            Front::Odd => return Err(Refusal::Syntax(at)),
        }
    }
    let tree = context.finish(alloc, stage, text.len())?;
    Ok(Query { tree })
}
