//! Reads a pattern's text one letter at a time. A letter is a character, with or without a
//! backslash before it.
ghost use Rattle.std.specs.Prelude.{◌≡◌, ◌<◌, ◌≤◌, ◌-◌, ◌∷◌, ℕ, [], map, true, false, length, Ok};
ghost use Rattle.std.specs.Prelude.{Some, None, IfOk, IfErr, IfSome, IfNone, MatchOption};
ghost use Rattle.std.specs.List.{list_any};
ghost use Rattle.std.specs.Str.{chars};
ghost use Rattle.be_pattern.specs.Canonical.{is_special};
ghost use Rattle.be_pattern.specs.Match.{Only, part_of, parts_of};
ghost use Rattle.be_pattern.specs.Parse.{pattern, IsFault, is_bare, falls, are_members};
ghost use Rattle.be_pattern.specs.Letters.{letters_in, ending_in, ending_of, letter_of, dashed};
ghost use Rattle.be_pattern.specs.Letters.{member_end, with_members, members_after, set_after};
ghost use Rattle.be_pattern.specs.Letters.{token_at};

use crate::matching::split_first_char;
use crate::token::Token;
use be_value::Refusal;
use std::alloc::{AllocError, Global};

/// The maximum number of tokens for which memory is reserved before they are read.
const MAX_ROOM: usize = 64;

/// A character of a pattern's text.
#[derive(Clone, Copy)]
struct Letter {
    escaped: bool,
    char: char,
}

impl Letter {
    /// Whether the letter is this character without a backslash.
    fn is_plain(self, c: char) -> bool
        ensures { (at : ℕ) → is_bare c (letter_of at self) ≡ result }
    {
        self.char == c && !self.escaped
    }
}

/// The first letter, and the text after it. Returns `None` if the text is empty or is a single
/// backslash.
fn split_letter(text: &str) -> Option<(Letter, &str)>
    ensures some { IfSome result (λ p. (total : ℕ) → length text.now ≤ total
        → letters_in total text.now ≡ letter_of (total - length text.now) p.0
        ∷ letters_in total p.1.now) }
    ensures ending { IfSome result (λ p. (total : ℕ) → length text.now ≤ total
        → ending_in total text.now ≡ ending_in total p.1.now) }
    ensures none { IfNone result ((total : ℕ) → letters_in total text.now ≡ []) }
    ensures end { IfNone result ((total : ℕ) → ending_in total text.now
        ≡ ending_of total (length text.now)) }
    ensures shorter { IfSome result (λ p. length p.1.now < length text.now) }
{
    let Some((char, rest)) = split_first_char(text) else {
        return None;
    };
    if char != '\\' {
        return Some((
            Letter {
                escaped: false,
                char,
            },
            rest,
        ));
    }
    let Some((char, rest)) = split_first_char(rest) else {
        return None;
    };
    Some((
        Letter {
            escaped: true,
            char,
        },
        rest,
    ))
}

/// The text after the last letter: either empty or a trailing backslash.
fn after_letters(text: &str) -> &str
    ensures within { length result.now ≤ length text.now }
    ensures ending { (total : ℕ) → length text.now ≤ total → ending_in total text.now
        ≡ ending_of total (length result.now) }
{
    let mut rest = text;
    'beyond: while let Some((_, after)) = split_letter(rest) {
        rest = after;
    }
    rest
}

/// Whether one of the bytes is `"` or a character that has a special meaning without a backslash.
fn has_special(bytes: &[u8]) -> bool
    ensures { result ≡ list_any is_special bytes.now }
{
    bytes.iter().any(|b| *b == b'"' || *b == b'\\' || *b == b'*' || *b == b'?' || *b == b'[')
}

/// Whether each character of a text is literal without a backslash. Only the bytes are examined.
pub(crate) fn is_literal(text: &str) -> bool
    ensures { result ≡ true → pattern (chars text.now) ≡ Ok (map Only (chars text.now)) }
{
    !has_special(text.as_bytes())
}

/// The number of tokens for which memory is reserved before a text is read.
fn room_for(text: &str) -> usize {
    text.len().min(MAX_ROOM)
}

/// The tokens of a pattern's text.
pub(crate) fn parse(alloc: Global, text: &str) -> Result<Vec<Token>, Refusal>
    ensures ok { IfOk result (λ v. pattern (chars text.now) ≡ Ok (parts_of v.items)) }
    ensures err { IfErr result (IsFault (pattern (chars text.now)) (length text.now)) }
{
    let ending = after_letters(text).len();
    if ending != 0 {
        return Err(Refusal::BadPattern(text.len() - ending));
    }
    let mut tokens = Vec::with_capacity(alloc, room_for(text))?;
    let mut rest = text;
    'tokens: while let Some((letter, after)) = split_letter(rest) {
        let Some((token, beyond)) = read_token(alloc, letter, after)? else {
            return Err(Refusal::BadPattern(text.len() - rest.len()));
        };
        tokens.push(token)?;
        rest = beyond;
    }
    Ok(tokens)
}

/// The token that begins with this letter, and the text after it. Returns `None` if the token is an
/// invalid set.
fn read_token(
    alloc: Global,
    letter: Letter,
    text: &str,
) -> Result<Option<(Token, &str)>, AllocError>
    ensures token { IfOk result (λ o. (at : ℕ) (total : ℕ) → length text.now ≤ total → MatchOption o
        (token_at (letter_of at letter) (letters_in total text.now) ≡ None)
        (λ p. token_at (letter_of at letter) (letters_in total text.now)
        ≡ Some (part_of p.0, letters_in total p.1.now))) }
    ensures within { IfOk result (λ o. IfSome o (λ p. length p.1.now ≤ length text.now)) }
{
    if letter.is_plain('*') {
        return Ok(Some((Token::AnyRun, text)));
    }
    if letter.is_plain('?') {
        return Ok(Some((Token::AnyOne, text)));
    }
    if letter.is_plain('[') {
        return read_set(alloc, text);
    }
    let char = letter.char;
    Ok(Some((Token::Literal(char), text)))
}

/// The text after a `^`, if the text begins with one.
fn split_caret(text: &str) -> Option<&str>
    ensures some { IfSome result (λ after. (total : ℕ) → length text.now ≤ total
        → set_after (letters_in total text.now)
        ≡ with_members true (members_after (letters_in total after.now))) }
    ensures none { IfNone result ((total : ℕ) → length text.now ≤ total
        → set_after (letters_in total text.now)
        ≡ with_members false (members_after (letters_in total text.now))) }
    ensures shorter { IfSome result (λ after. length after.now ≤ length text.now) }
{
    let Some((letter, after)) = split_letter(text) else {
        return None;
    };
    if letter.is_plain('^') {
        Some(after)
    } else {
        None
    }
}

/// The set whose `[` precedes this text, and the text after its `]`. Returns `None` if the set is
/// invalid.
fn read_set(alloc: Global, text: &str) -> Result<Option<(Token, &str)>, AllocError>
    ensures set { IfOk result (λ o. (total : ℕ) → length text.now ≤ total → MatchOption o
        (set_after (letters_in total text.now) ≡ None)
        (λ p. set_after (letters_in total text.now)
        ≡ Some (part_of p.0, letters_in total p.1.now))) }
    ensures within { IfOk result (λ o. IfSome o (λ p. length p.1.now ≤ length text.now)) }
{
    match split_caret(text) {
        Some(after) => read_members(alloc, true, after),
        None => read_members(alloc, false, text),
    }
}

/// The set whose members begin this text, and the text after its `]`. Returns `None` if the set is
/// invalid.
fn read_members(
    alloc: Global,
    negated: bool,
    text: &str,
) -> Result<Option<(Token, &str)>, AllocError>
    ensures set { IfOk result (λ o. (total : ℕ) → length text.now ≤ total → MatchOption o
        (with_members negated (members_after (letters_in total text.now)) ≡ None)
        (λ p. with_members negated (members_after (letters_in total text.now))
        ≡ Some (part_of p.0, letters_in total p.1.now))) }
    ensures within { IfOk result (λ o. IfSome o (λ p. length p.1.now ≤ length text.now)) }
{
    let mut members = Vec::new(alloc);
    let mut rest = text;
    'members: while let Some((first, after)) = split_letter(rest) {
        if first.is_plain(']') {
            if !are_members(&members) {
                return Ok(None);
            }
            return Ok(Some((Token::Set { negated, members }, after)));
        }
        let first = first.char;
        let (last, beyond) = range_end(first, after);
        members.push((first, last))?;
        rest = beyond;
    }
    Ok(None)
}

/// If `-` and a character come next, as in a range, returns that character and the text after it.
fn split_range(text: &str) -> Option<(char, &str)>
    ensures none { IfNone result ((total : ℕ) → length text.now ≤ total
        → dashed (letters_in total text.now) ≡ None) }
    ensures some { IfSome result (λ p. (total : ℕ) → length text.now ≤ total
        → dashed (letters_in total text.now) ≡ Some (p.0, letters_in total p.1.now)) }
    ensures within { IfSome result (λ p. length p.1.now ≤ length text.now) }
{
    let Some((dash, after)) = split_letter(text) else {
        return None;
    };
    if !dash.is_plain('-') {
        return None;
    }
    let Some((last, beyond)) = split_letter(after) else {
        return None;
    };
    if last.is_plain(']') {
        return None;
    }
    let last = last.char;
    Some((last, beyond))
}

/// The last character of a member that begins with `first`, and the text after the member.
fn range_end(first: char, text: &str) -> (char, &str)
    ensures end { (total : ℕ) → length text.now ≤ total
        → member_end first (letters_in total text.now) ≡ (result.0, letters_in total result.1.now) }
    ensures within { length result.1.now ≤ length text.now }
{
    match split_range(text) {
        Some(end) => end,
        None => (first, text),
    }
}

/// Whether there is at least one range and no range is descending.
fn are_members(members: &[(char, char)]) -> bool
    ensures { result ≡ are_members members.now }
{
    !members.is_empty() && !falls(members)
}

/// Whether one of the ranges is descending, such as `z-a`.
fn falls(members: &[(char, char)]) -> bool
    ensures { result ≡ falls members.now }
{
    members.iter().any(|m| m.1 < m.0)
}
