//! A pattern's canonical text, and its literal prefix.
ghost use Rattle.std.specs.Prelude.{◌≡◌, ◌++◌, ◌∷◌, ◌<◌, false, [], length, IfOk, IfNone, IfSome};
ghost use Rattle.std.specs.Prelude.{string_bytes, encode_utf8_all};
ghost use Rattle.std.specs.List.{flat_map};
ghost use Rattle.be_pattern.specs.Match.{Only, part_of, parts_of};
ghost use Rattle.be_pattern.specs.Canonical.{canonical, is_literal, is_plain, is_prefix};
ghost use Rattle.be_pattern.specs.Canonical.{is_special, is_special_in_set, marked, member};
ghost use Rattle.be_pattern.specs.Canonical.{member_char, class_opening, part_text, literal_prefix};

use crate::token::Token;
use std::alloc::{AllocError, Global};

fn is_literal(token: &Token) -> bool
    ensures { result ≡ is_literal (part_of token.now) }
{
    match token {
        Token::Literal(_) => true,
        Token::AnyRun
        | Token::AnyOne
        | Token::Set {
            negated: _,
            members: _,
        } => false,
    }
}

/// Whether none of the tokens is a wildcard.
pub(crate) fn is_plain(tokens: &[Token]) -> bool
    ensures { result ≡ is_plain (parts_of tokens.now) }
{
    let mut rest = tokens;
    'tokens: while let Some((first, after)) = rest.split_first() {
        if !is_literal(first) {
            return false;
        }
        rest = after;
    }
    true
}

/// Whether the token, which must not be literal, is a `*` at the end.
fn is_last_run(token: &Token, after: &[Token]) -> bool
    requires { is_literal (part_of token.now) ≡ false }
    ensures { result ≡ is_prefix (part_of token.now ∷ parts_of after.now) }
{
    match token {
        Token::AnyRun => after.is_empty(),
        _ => false,
    }
}

/// Whether none of the tokens is a wildcard, or only a `*` at the end.
pub(crate) fn is_prefix(tokens: &[Token]) -> bool
    ensures { result ≡ is_prefix (parts_of tokens.now) }
{
    let mut rest = tokens;
    'tokens: while let Some((first, after)) = rest.split_first() {
        if !is_literal(first) {
            return is_last_run(first, after);
        }
        rest = after;
    }
    true
}

/// If the first token is literal, returns its character and the tokens after it.
fn split_literal(tokens: &[Token]) -> Option<(char, &[Token])>
    ensures some { IfSome result (λ p. parts_of tokens.now ≡ Only p.0 ∷ parts_of p.1.now) }
    ensures none { IfNone result (literal_prefix (parts_of tokens.now) ≡ []) }
    ensures shorter { IfSome result (λ p. length p.1.now < length tokens.now) }
{
    match tokens.split_first() {
        Some((Token::Literal(c), after)) => Some((*c, after)),
        _ => None,
    }
}

/// The literal characters before the first wildcard.
pub(crate) fn prefix(alloc: Global, tokens: &[Token]) -> Result<String, AllocError>
    ensures { IfOk result (λ s. string_bytes s
        ≡ encode_utf8_all (literal_prefix (parts_of tokens.now))) }
{
    let mut text = String::new(alloc);
    let mut rest = tokens;
    'literals: while let Some((c, after)) = split_literal(rest) {
        text.push(c)?;
        rest = after;
    }
    Ok(text)
}

/// The canonical text of the tokens.
pub(crate) fn canonical(alloc: Global, tokens: &[Token]) -> Result<String, AllocError>
    ensures { IfOk result (λ s. string_bytes s
        ≡ encode_utf8_all (canonical (parts_of tokens.now))) }
{
    let mut text = String::new(alloc);
    let mut rest = tokens;
    'tokens: while let Some((token, after)) = rest.split_first() {
        push_token(&mut text, token)?;
        rest = after;
    }
    Ok(text)
}

/// Appends the text of a token.
fn push_token(text: &mut String, token: &Token) -> Result<(), AllocError>
    ensures { IfOk result (λ _. string_bytes text.new ≡ string_bytes text.old
        ++ encode_utf8_all (part_text (part_of token.now))) }
{
    match token {
        Token::AnyRun => text.push('*'),
        Token::AnyOne => text.push('?'),
        Token::Set { negated, members } => push_set(text, *negated, members),
        Token::Literal(c) => push_marked(text, *c, is_special(*c)),
    }
}

/// Whether a literal character is printed with a backslash.
fn is_special(c: char) -> bool
    ensures { result ≡ is_special c }
{
    c == '"' || c == '\\' || c == '*' || c == '?' || c == '['
}

/// Whether a character of a set is printed with a backslash.
fn is_special_in_set(c: char) -> bool
    ensures { result ≡ is_special_in_set c }
{
    c == '"' || c == '\\' || c == '[' || c == ']' || c == '^' || c == '-'
}

/// Appends a character, preceded by a backslash if the flag is set.
pub fn push_marked(text: &mut String, c: char, backslash: bool) -> Result<(), AllocError>
    ensures { IfOk result (λ _. string_bytes text.new ≡ string_bytes text.old
        ++ encode_utf8_all (marked backslash c)) }
{
    if !backslash {
        return text.push(c);
    }
    text.push('\\')?;
    text.push(c)
}

fn push_set(text: &mut String, negated: bool, members: &[(char, char)]) -> Result<(), AllocError>
    ensures { IfOk result (λ _. string_bytes text.new
        ≡ string_bytes text.old ++ encode_utf8_all
        (class_opening negated ++ (flat_map member members.now ++ 93 ∷ []))) }
{
    push_opening(text, negated)?;
    let mut rest = members;
    'members: while let Some((first, after)) = rest.split_first() {
        push_member(text, *first)?;
        rest = after;
    }
    text.push(']')?;
    Ok(())
}

/// Appends the beginning of a set: `[` or `[^`.
fn push_opening(text: &mut String, negated: bool) -> Result<(), AllocError>
    ensures { IfOk result (λ _. string_bytes text.new ≡ string_bytes text.old
        ++ encode_utf8_all (class_opening negated)) }
{
    if negated {
        return text.push_str("[^");
    }
    text.push('[')
}

fn push_member(text: &mut String, range: (char, char)) -> Result<(), AllocError>
    ensures { IfOk result (λ _. string_bytes text.new ≡ string_bytes text.old
        ++ encode_utf8_all (member range)) }
{
    let (first, last) = range;
    push_marked(text, first, is_special_in_set(first))?;
    if first == last {
        return Ok(());
    }
    text.push('-')?;
    push_marked(text, last, is_special_in_set(last))?;
    Ok(())
}
