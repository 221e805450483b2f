//! A pattern, and the operations on it.
ghost use Rattle.std.specs.Prelude.{◌≡◌, ◌++◌, ℕ, List, [], true, map, length, Ok, Err, IfOk};
ghost use Rattle.std.specs.Prelude.{IfErr, string_bytes, encode_utf8_all};
ghost use Rattle.std.specs.Str.{chars};
ghost use Rattle.be_value.specs.declared.refusals.Refusal.TheVariants.{OutOfMemory};
ghost use Rattle.be_pattern.specs.Canonical.{around, run_if, canonical, is_plain, is_prefix};
ghost use Rattle.be_pattern.specs.Canonical.{literal_prefix};
ghost use Rattle.be_pattern.specs.Match.{Only, kept_parts, matches, parts_of};
ghost use Rattle.be_pattern.specs.Parse.{pattern, IsFault};

use crate::matching::split_first_char;
use crate::token::Token;
use crate::{matching, parsing, printing};
use be_value::Refusal;
use std::alloc::{AllocError, Global};
use std::marker::Model;

/// A pattern over characters. Contracts see it as its list of tokens.
#[derive(Debug, Drop)]
pub struct Pattern {
    /// The tokens, or `None` if every character of the text is literal. In that case, each
    /// character of `prefix` is a token.
    tokens: Option<Vec<Token>>,
    /// The literal characters before the first wildcard.
    prefix: String,
    /// Whether the pattern has no wildcard.
    is_plain: bool,
    /// Whether the pattern has no wildcard, or only one `*` at the end.
    is_prefix: bool,
}

impl Model for Pattern {
    ghost use Rattle.std.specs.Prelude.{◌≡◌, List, string_bytes, encode_utf8_all};
    ghost use Rattle.be_pattern.specs.Canonical.{is_plain as no_wildcard, is_prefix as only_front};
    ghost use Rattle.be_pattern.specs.Canonical.{literal_prefix};
    ghost use Rattle.std.specs.Str.{chars};
    ghost use Rattle.be_pattern.specs.Match.{Part, kept_parts};

    ghost Value = { List Part };

    ghost view = { λ p. kept_parts (chars (string_bytes p.prefix)) p.tokens };

    ghost invariant = { λ p. let parts = kept_parts (chars (string_bytes p.prefix)) p.tokens in
        (string_bytes p.prefix ≡ encode_utf8_all (literal_prefix parts))
        × (p.is_plain ≡ no_wildcard parts) × (p.is_prefix ≡ only_front parts) };
}

impl Pattern {
    /// Reads a pattern. If the text is invalid, the error has the byte offset of a trailing
    /// backslash, which is looked for first, or of the `[` of the first invalid set. A set is
    /// invalid if it has no `]`, no members, or a descending range. It allocates memory at most a
    /// few times per token.
    pub fn parse(alloc: Global, text: &str) -> Result<Pattern, Refusal>
        // The tokens are those that the text encodes.
        ensures ok { IfOk result (λ p. pattern (chars text.now) ≡ Ok p) }
        // The error is OutOfMemory, or gives the offset at which the text is invalid.
        ensures err { IfErr result (IsFault (pattern (chars text.now)) (length text.now)) }
    {
        if parsing::is_literal(text) {
            return Ok(literal_pattern(alloc, text)?);
        }
        Ok(pattern_of(alloc, parsing::parse(alloc, text)?)?)
    }

    /// A pattern that matches the text literally, with a `*` before it, after it or both, according
    /// to the flags.
    pub fn around(alloc: Global, before: bool, text: &str, beyond: bool) -> Result<Pattern, Refusal>
        ensures ok { IfOk result (λ p. p ≡ around before (chars text.now) beyond) }
        ensures err { IfErr result (λ e. e ≡ OutOfMemory) }
    {
        let tokens = push_run(Vec::new(alloc), before)?;
        let tokens = push_literals(tokens, text)?;
        let tokens = push_run(tokens, beyond)?;
        Ok(pattern_of(alloc, tokens)?)
    }

    /// Whether the pattern matches the whole text. It allocates nothing, and usually takes one step
    /// per character. In the worst case, the number of steps is the number of characters times the
    /// number of tokens after the last `*`.
    pub fn matches(&self, text: &str) -> bool
        ensures { result ≡ matches self.now (chars text.now) }
    {
        match &self.tokens {
            Some(tokens) => matching::matches(tokens, text),
            None => text == self.prefix.as_str(),
        }
    }

    /// Whether the pattern has no wildcard, so that it matches only one text.
    pub fn is_plain(&self) -> bool
        ensures { result ≡ is_plain self.now }
    {
        self.is_plain
    }

    /// Whether the pattern has no wildcard, or only one `*` at the end. In that case, the beginning
    /// of a text determines whether it matches.
    pub fn is_prefix(&self) -> bool
        ensures reported { result ≡ is_prefix self.now }
        // The pattern matches its prefix and, with a `*`, also the prefix followed by anything.
        ensures decides { result ≡ true → (beyond : List ℕ)
            → (is_plain self.now ≡ true → beyond ≡ []) →
            matches self.now (literal_prefix self.now ++ beyond) ≡ true }
    {
        self.is_prefix
    }

    /// The literal characters before the first wildcard. Every matching text begins with them.
    pub fn prefix(&self) -> &str
        ensures { result.now ≡ encode_utf8_all (literal_prefix self.now) }
    {
        &self.prefix
    }

    /// The canonical text, which encodes the same tokens (`laws::canonical`). The members of sets
    /// keep their order. A backslash is written only before `"` and before a character that would
    /// have another meaning without it.
    pub fn canonical(&self, alloc: Global) -> Result<String, Refusal>
        ensures ok { IfOk result (λ s. string_bytes s ≡ encode_utf8_all (canonical self.now)) }
        ensures err { IfErr result (λ e. e ≡ OutOfMemory) }
    {
        match &self.tokens {
            Some(tokens) => Ok(printing::canonical(alloc, tokens)?),
            None => {
                let tokens = push_literals(Vec::new(alloc), &self.prefix)?;
                Ok(printing::canonical(alloc, &tokens)?)
            }
        }
    }
}

/// The pattern of a text whose characters are all literal.
fn literal_pattern(alloc: Global, text: &str) -> Result<Pattern, AllocError>
    ensures { IfOk result (λ p. p ≡ map Only (chars text.now)) }
{
    let prefix = String::from_str(alloc, text)?;
    Ok(Pattern {
        tokens: None,
        prefix,
        is_plain: true,
        is_prefix: true,
    })
}

fn pattern_of(alloc: Global, tokens: Vec<Token>) -> Result<Pattern, AllocError>
    ensures { IfOk result (λ p. p ≡ parts_of tokens.items) }
{
    let prefix = printing::prefix(alloc, &tokens)?;
    let is_plain = printing::is_plain(&tokens);
    let is_prefix = printing::is_prefix(&tokens);
    Ok(Pattern {
        tokens: Some(tokens),
        prefix,
        is_plain,
        is_prefix,
    })
}

/// The tokens, with a `*` added at the end if the flag is set.
fn push_run(mut tokens: Vec<Token>, is_there: bool) -> Result<Vec<Token>, AllocError>
    ensures { IfOk result (λ v. parts_of v.items ≡ parts_of tokens.items ++ run_if is_there) }
{
    if !is_there {
        return Ok(tokens);
    }
    tokens.push(Token::AnyRun)?;
    Ok(tokens)
}

/// The tokens, followed by the characters of a text.
fn push_literals(mut tokens: Vec<Token>, text: &str) -> Result<Vec<Token>, AllocError>
    ensures { IfOk result (λ v. parts_of v.items ≡ parts_of tokens.items
        ++ map Only (chars text.now)) }
{
    let mut rest = text;
    'characters: while let Some((c, after)) = split_first_char(rest) {
        tokens.push(Token::Literal(c))?;
        rest = after;
    }
    Ok(tokens)
}
