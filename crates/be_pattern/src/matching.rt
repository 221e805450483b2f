//! Matches with a single place to backtrack to.
ghost use Rattle.std.specs.Prelude.{false, ◌≡◌, ◌∷◌, ◌++◌, ◌<◌, [], length, encode_utf8, IfNone};
ghost use Rattle.std.specs.Prelude.{IfSome};
ghost use Rattle.std.specs.List.{list_any};
ghost use Rattle.std.specs.Str.{chars};
ghost use Rattle.be_pattern.specs.Match.{Run, TakesOne, admits, begins_with_run, is_within};
ghost use Rattle.be_pattern.specs.Match.{matches, part_of, parts_of};

use crate::token::Token;

/// The first character, and the text after it.
pub fn split_first_char(text: &str) -> Option<(char, &str)>
    ensures empty { IfNone result (chars text.now ≡ []) }
    ensures split { IfSome result (λ p. text.now ≡ encode_utf8 p.0 ++ p.1.now) }
    ensures chars { IfSome result (λ p. chars text.now ≡ p.0 ∷ chars p.1.now) }
    ensures shorter { IfSome result (λ p. length p.1.now < length text.now) }
{
    let mut rest = text.chars();
    let first = rest.next()?;
    Some((first, rest.as_str()))
}

/// Whether one of the ranges contains the character.
fn contains(members: &[(char, char)], c: char) -> bool
    ensures { result ≡ list_any (is_within c) members.now }
{
    members.iter().any(|m| m.0 <= c && c <= m.1)
}

/// Whether the token matches the character. A `*` doesn't.
fn takes(token: &Token, c: char) -> bool
    ensures { result ≡ admits (part_of token.now) c }
{
    match token {
        Token::AnyRun => false,
        Token::AnyOne => true,
        Token::Set { negated, members } => {
            if *negated {
                !contains(members, c)
            } else {
                contains(members, c)
            }
        }
        Token::Literal(d) => c == *d,
    }
}

/// The tokens after a `*`, if the tokens begin with one.
fn split_run(tokens: &[Token]) -> Option<&[Token]>
    ensures found { IfSome result (λ after. parts_of tokens.now ≡ Run ∷ parts_of after.now) }
    ensures none { IfNone result (begins_with_run (parts_of tokens.now) ≡ false) }
    ensures shorter { IfSome result (λ after. length after.now < length tokens.now) }
{
    match tokens.split_first() {
        Some((Token::AnyRun, after)) => Some(after),
        _ => None,
    }
}

/// If the first token matches the first character of the text, returns the remaining tokens and the
/// remaining text.
fn take_one<'a>(tokens: &'a [Token], text: &'a str) -> Option<(&'a [Token], &'a str)>
    ensures taken { IfSome result (λ p. TakesOne (parts_of tokens.now) (chars text.now)
        (parts_of p.0.now) (chars p.1.now)) }
    ensures none { IfNone result (begins_with_run (parts_of tokens.now) ≡ false →
        (parts_of tokens.now ≡ [] → chars text.now ≡ [] → ⊥)
        → matches (parts_of tokens.now) (chars text.now) ≡ false) }
    ensures fewer { IfSome result (λ p. length p.0.now < length tokens.now) }
    ensures shorter { IfSome result (λ p. length p.1.now < length text.now) }
{
    let (first, after) = tokens.split_first()?;
    let (c, shorter) = split_first_char(text)?;
    if takes(first, c) {
        Some((after, shorter))
    } else {
        None
    }
}

/// Whether the tokens match the text. It backtracks only to the most recent `*`.
pub(crate) fn matches(all: &[Token], text: &str) -> bool
    ensures { result ≡ matches (parts_of all.now) (chars text.now) }
{
    let mut tokens = all;
    let mut rest = text;
    // The tokens after that `*`, and the text after the run that it has matched so far.
    let mut retry: Option<(&[Token], &str)> = None;
    'scan: loop {
        if let Some(after) = split_run(tokens) {
            tokens = after;
            retry = Some((after, rest));
            continue 'scan;
        }
        if tokens.is_empty() && split_first_char(rest).is_none() {
            return true;
        }
        if let Some((after, shorter)) = take_one(tokens, rest) {
            tokens = after;
            rest = shorter;
            continue 'scan;
        }
        let Some((after, start)) = retry else {
            return false;
        };
        let Some((_, shorter)) = split_first_char(start) else {
            return false;
        };
        tokens = after;
        rest = shorter;
        retry = Some((after, shorter));
    }
}
