//! The words of a line.
//!
//! Here a line is a list of characters. Its words are separated by blanks (spaces and tabs). A word
//! that begins with a quote ends at the next quote that isn't preceded by a backslash. The closing
//! quote must be followed by a blank or the end of the line. Inside the quotes, a backslash may
//! come only before `"`, `\`, `n` (LF) and `r` (CR). Any other word stands for itself. A word is
//! returned as the text that it stands for, so the code that reads numbers, names and values
//! doesn't see how the word was written.
ghost use Rattle.std.specs.Option.{option_map};
ghost use Rattle.std.specs.Prelude.{◌≡◌, IfOk, position, take, drop};
ghost use Rattle.std.specs.String.{string_bytes};
ghost use Rattle.be_script_language.specs.Words as spec;

use std::alloc::{AllocError, Global};

/// Whether the character is a space or a tab.
pub fn is_blank(c: char) -> bool
    ensures { result ≡ spec.is_blank c }
{
    c == ' ' || c == '\t'
}

/// Whether only blanks are left.
pub fn is_empty(text: &[char]) -> bool
    ensures { result ≡ spec.is_empty text.now }
{
    text.iter().all(|c| is_blank(*c))
}

/// The text without the blanks at its start.
pub fn skip(text: &[char]) -> &[char]
    ensures { result.now ≡ spec.skip text.now }
{
    let mut rest = text;
    while let Some((c, beyond)) = rest.split_first() {
        if !is_blank(*c) {
            return rest;
        }
        rest = beyond;
    }
    rest
}

/// The position of the first blank.
fn first_blank(text: &[char]) -> Option<usize>
    ensures { result ≡ position spec.is_blank text.now }
{
    text.iter().position(|c| is_blank(*c))
}

/// The text up to its first blank, and the rest of the text.
pub fn split_word(text: &[char]) -> (&[char], &[char])
    ensures word { result.0.now ≡ take (spec.end_of_word text.now) text.now }
    ensures rest { result.1.now ≡ drop (spec.end_of_word text.now) text.now }
{
    match first_blank(text) {
        Some(end) if end <= text.len() => text.split_at(end),
        _ => (text, &[]),
    }
}

/// The characters as a string.
pub fn text_of(alloc: Global, text: &[char]) -> Result<String, AllocError>
    ensures { IfOk result (λ bytes. string_bytes bytes ≡ spec.bytes_of text.now) }
{
    let mut bytes = String::new(alloc);
    for c in text {
        bytes.push(*c)?;
    }
    Ok(bytes)
}

/// The character that a backslash and this character stand for in a quoted word.
fn meaning_of(c: char) -> Option<char>
    ensures { result ≡ spec.meaning_of c }
{
    match c {
        '"' | '\\' => Some(c),
        'n' => Some('\n'),
        'r' => Some('\r'),
        _ => None,
    }
}

/// Whether a quoted word may end before this text.
fn ends_word(text: &[char]) -> bool
    ensures { result ≡ spec.ends_word text.now }
{
    match text.first() {
        Some(c) => is_blank(*c),
        None => true,
    }
}

/// The text that a quoted word stands for, and the text after its closing quote. The argument is
/// the text after the opening quote.
fn quoted_word(alloc: Global, text: &[char]) -> Result<Option<(String, &[char])>, AllocError>
    ensures { IfOk result (λ parts. option_map (λ p. (string_bytes p.0, p.1.now)) parts
        ≡ spec.quoted_in text.now) }
{
    let mut meant = String::new(alloc);
    let mut rest = text;
    while let Some((c, beyond)) = rest.split_first() {
        let c = *c;
        if c == '"' {
            return Ok(Some((meant, beyond)));
        }
        if c == '\\' {
            let Some((escaped, beyond)) = beyond.split_first() else {
                return Ok(None);
            };
            let Some(c) = meaning_of(*escaped) else {
                return Ok(None);
            };
            meant.push(c)?;
            rest = beyond;
        } else {
            meant.push(c)?;
            rest = beyond;
        }
    }
    Ok(None)
}

/// The first word, and the text after it. Returns `None` if no word is left, or if the word is
/// malformed.
pub fn first_word(alloc: Global, text: &[char]) -> Result<Option<(String, &[char])>, AllocError>
    ensures { IfOk result (λ parts. option_map (λ p. (string_bytes p.0, p.1.now)) parts
        ≡ spec.first_word text.now) }
{
    let text = skip(text);
    let Some((first, beyond)) = text.split_first() else {
        return Ok(None);
    };
    if *first != '"' {
        let (word, rest) = split_word(text);
        return Ok(Some((text_of(alloc, word)?, rest)));
    }
    match quoted_word(alloc, beyond)? {
        Some((word, rest)) if ends_word(rest) => Ok(Some((word, rest))),
        _ => Ok(None),
    }
}

/// The word of a text that has exactly one word.
pub fn one_word(alloc: Global, text: &[char]) -> Result<Option<String>, AllocError>
    ensures { IfOk result (λ word. option_map string_bytes word ≡ spec.one_word text.now) }
{
    match first_word(alloc, text)? {
        Some((word, rest)) if is_empty(rest) => Ok(Some(word)),
        _ => Ok(None),
    }
}

/// The words of a text that has exactly two words.
pub fn two_words(alloc: Global, text: &[char]) -> Result<Option<(String, String)>, AllocError>
    ensures { IfOk result (λ words. option_map (λ p. (string_bytes p.0, string_bytes p.1)) words
        ≡ spec.two_words text.now) }
{
    let Some((first, rest)) = first_word(alloc, text)? else {
        return Ok(None);
    };
    match one_word(alloc, rest)? {
        Some(second) => Ok(Some((first, second))),
        None => Ok(None),
    }
}
