//! Comparisons that are applied to many strings.
//!
//! A walk over an index of strings tests each key against one comparison. The pattern is therefore
//! compiled once and then matched against the bytes of the keys. No string is decoded or copied out
//! of a key.
ghost use Rattle.std.specs.Prelude.{◌≡◌, IsUtf8, IfOk, IfErr};
ghost use Rattle.be_plan.specs.Imports.{holds_of_text, literal, OutOfMemory};
ghost use Rattle.be_plan.specs.Texts.{text_in};

use be_byte_pattern::BytePattern;
use be_query::{Cmp, Comparison, Literal};
use be_value::Refusal;
use be_volume::is_true_of;
use std::alloc::Global;
use std::marker::Model;

/// The literal that strings are compared with.
#[derive(Drop)]
enum Compared<'q> {
    Words(&'q str),
    Pattern(BytePattern<'q>),
}

/// A comparison prepared for strings. Contracts view it as its operator and its literal.
#[derive(Drop)]
pub struct TextTest<'q> {
    op: Cmp,
    compared: Compared<'q>,
}

impl<'q> Model for TextTest<'q> {
    ghost use Rattle.be_plan.specs.Imports.{AnyLiteral, Operator};
    ghost use Rattle.be_plan.specs.Texts.{literal_of};

    ghost Value = { Operator × AnyLiteral };

    ghost view = { λ t. (t.op, literal_of t.compared) };
}

impl<'q> TextTest<'q> {
    /// Prepares a comparison. Allocates memory only for a pattern.
    pub fn new(alloc: Global, comparison: &'q Comparison) -> Result<TextTest<'q>, Refusal>
        ensures ok { IfOk result (λ test. test
            ≡ (comparison.now.op, literal comparison.now.literal)) }
        ensures err { IfErr result (λ e. e ≡ OutOfMemory) }
    {
        let compared = match &comparison.literal {
            Literal::Text(words) => Compared::Words(words.as_str()),
            Literal::Pattern(pattern) => Compared::Pattern(BytePattern::new(alloc, pattern)?),
        };
        Ok(TextTest {
            op: comparison.op,
            compared,
        })
    }

    /// Returns `true` if the comparison is true of the string with these bytes.
    pub fn passes(&self, text: &[u8]) -> bool
        ensures { IsUtf8 text.now → result ≡ holds_of_text self.now.0 text.now self.now.1 }
    {
        match &self.compared {
            Compared::Words(words) => is_true_of(self.op, text.cmp(&words.as_bytes())),
            Compared::Pattern(pattern) => match self.op {
                Cmp::Eq => pattern.matches(text),
                _ => !pattern.matches(text),
            },
        }
    }
}

/// Returns the string in a key of an index of strings: everything before the zero byte and the
/// eight bytes of the node.
pub fn text_of(key: &[u8]) -> &[u8]
    ensures { result.now ≡ text_in key.now }
{
    &key[..key.len().saturating_sub(9)]
}
