//! Splits the text of a query into tokens.
//!
//! The longest possible token is taken. A name or value is either a word or a quoted string.
ghost use Rattle.std.specs.Prelude.{false, true, ◌||◌, ℕ, ◌≡◌, ◌≤◌, ◌<◌, ◌+◌, ◌==◌, length, take};
ghost use Rattle.std.specs.Prelude.{drop, slice_get, slice_index, IfNone, IfSome};
ghost use Rattle.std.specs.List.{list_any};
ghost use Rattle.be_query.specs.View.{IsClean, IsCleanFront, token_of, IsFront, SignIs};
ghost use Rattle.be_query.specs.Lexing.{IsBeyond, IsLone, is_quote, is_separator, is_sign, is_word};
ghost use Rattle.be_query.specs.Lexing.{is_mark, word_span, quoted_span};

use crate::token::Token;
use crate::tree::Cmp;

/// The number of bytes of a quoted string that are checked at a time.
const BLOCK: usize = 16;

/// The extent of a name or value.
#[derive(Clone, Copy)]
pub(crate) enum Span {
    /// The length of the name or value in bytes.
    Ends(usize),
    /// The name or value is cut off by a NUL or by the end of the text, this many bytes after its
    /// first byte.
    Breaks(usize),
}

/// What the remaining text begins with.
#[derive(Clone, Copy)]
pub(crate) enum Front<'a> {
    /// A separator, followed by this text.
    Separator(&'a str),
    /// A token, the number of bytes before the token's own text, and the text that follows the
    /// token.
    Token(Token<'a>, usize, &'a str),
    /// A name or value that is cut off this many bytes after its first byte.
    Broken(usize),
    /// A byte that can't begin a token.
    Odd,
}

/// Returns `true` if the byte separates tokens.
fn is_separator(b: u8) -> bool
    ensures { result ≡ is_separator b }
{
    b == b' ' || b == b'\t' || b == b'\n' || b == b'\r'
}

/// Returns `true` if the byte may occur in a word.
fn is_word(b: u8) -> bool
    ensures { result ≡ is_word b }
{
    !(is_separator(b) || is_quote(b) || is_sign(b) || b == 0)
}

/// Returns `true` if the byte begins a quoted string.
fn is_quote(b: u8) -> bool
    ensures { result ≡ is_quote b }
{
    b == b'"' || b == b'\''
}

/// Returns `true` if the byte begins a token that isn't a name or value.
fn is_sign(b: u8) -> bool
    ensures { result ≡ is_sign b }
{
    b == b'='
        || b == b'!'
        || b == b'<'
        || b == b'>'
        || b == b'&'
        || b == b'|'
        || b == b'('
        || b == b')'
}

/// Returns the position after the byte at `at`, or after a backslash and the byte that it escapes.
/// Returns `None` if the escaped byte is missing or a NUL.
fn beyond(bytes: &[u8], at: usize) -> Option<usize>
    requires { at < length bytes.now }
    ensures next { IfSome result (λ next. IsBeyond bytes.now at next) }
    ensures within { IfSome result (λ next. (at < next) × (next ≤ length bytes.now)) }
    ensures lone { IfNone result (IsLone bytes.now at) }
{
    let next = at + 1;
    if bytes[at] != b'\\' {
        return Some(next);
    }
    if next == bytes.len() {
        return None;
    }
    if bytes[next] == 0 {
        return None;
    }
    Some(next + 1)
}

/// Returns the extent of the word at the start of the bytes.
fn word_span(bytes: &[u8]) -> Span
    ensures { result ≡ word_span false bytes.now }
{
    let mut at = 0;
    'word: while at < bytes.len() {
        if !is_word(bytes[at]) {
            return Span::Ends(at);
        }
        let Some(next) = beyond(bytes, at) else {
            return Span::Breaks(at + 1);
        };
        at = next;
    }
    Span::Ends(at)
}

/// Returns the extent of the string that follows an opening quote. The string ends at the next
/// quote of the same kind.
fn quoted_span(quote: u8, bytes: &[u8]) -> Span
    ensures { result ≡ quoted_span quote false bytes.now }
{
    let front = unmarked_front(quote, bytes);
    span_after(quote, bytes, front)
}

/// Returns the number of leading bytes, in whole blocks, that contain neither a backslash nor a
/// byte that ends the quoted string.
fn unmarked_front(quote: u8, bytes: &[u8]) -> usize
    ensures within { result ≤ length bytes.now }
    ensures unmarked { list_any (is_mark quote) (take result bytes.now) ≡ false }
{
    let mut at = 0;
    'steps: while bytes.len() - at >= BLOCK {
        if has_mark(quote, &bytes[at..at + BLOCK]) {
            return at;
        }
        at += BLOCK;
    }
    at
}

/// Returns `true` if any byte in the block is a backslash or ends the quoted string.
fn has_mark(quote: u8, block: &[u8]) -> bool
    ensures { result ≡ list_any (is_mark quote) block.now }
{
    let ends = has_byte(quote, block);
    let breaks = has_byte(0, block);
    let escapes = has_byte(b'\\', block);
    ends | breaks | escapes
}

/// Returns `true` if the byte occurs in the block. Every position is checked so that the compiler
/// can check all of them at once.
fn has_byte(byte: u8, block: &[u8]) -> bool
    ensures { result ≡ list_any (λ b. b == byte) block.now }
{
    let mut found = false;
    'bytes: for b in block {
        found |= *b == byte;
    }
    found
}

/// Returns the extent of the string that follows an opening quote, given that the first `front`
/// bytes need not be checked.
fn span_after(quote: u8, bytes: &[u8], front: usize) -> Span
    requires within { front ≤ length bytes.now }
    requires unmarked { list_any (is_mark quote) (take front bytes.now) ≡ false }
    ensures { result ≡ quoted_span quote false bytes.now }
{
    let mut at = front;
    'quoted: while at < bytes.len() {
        let b = bytes[at];
        if b == quote {
            return Span::Ends(at);
        }
        if b == 0 {
            return Span::Breaks(at);
        }
        let Some(next) = beyond(bytes, at) else {
            return Span::Breaks(at + 1);
        };
        at = next;
    }
    Span::Breaks(at)
}

/// Returns the token that a sign begins and the length of the token in bytes, given the first byte
/// of the sign and the byte after it.
fn sign(first: u8, second: Option<u8>) -> Option<(Token<'static>, usize)>
    ensures sign { SignIs first second result }
    ensures clean { IfSome result (λ p. IsClean (token_of p.0)) }
{
    match (first, second) {
        (b'(', _) => Some((Token::Open, 1)),
        (b')', _) => Some((Token::Close, 1)),
        (b'=', Some(b'=')) => Some((Token::Compares(Cmp::Eq), 2)),
        (b'=', _) => Some((Token::Compares(Cmp::Eq), 1)),
        (b'!', Some(b'=')) => Some((Token::Compares(Cmp::Ne), 2)),
        (b'!', _) => Some((Token::Bang, 1)),
        (b'<', Some(b'=')) => Some((Token::Compares(Cmp::Le), 2)),
        (b'<', _) => Some((Token::Compares(Cmp::Lt), 1)),
        (b'>', Some(b'=')) => Some((Token::Compares(Cmp::Ge), 2)),
        (b'>', _) => Some((Token::Compares(Cmp::Gt), 1)),
        (b'&', Some(b'&')) => Some((Token::Both, 2)),
        (b'|', Some(b'|')) => Some((Token::Either, 2)),
        _ => None,
    }
}

/// Splits off the quoted string that the text begins with.
fn quoted_front(quote: u8, text: &str) -> Front<'_>
    requires nonempty { 0 < length text.now }
    requires first { slice_index text.now 0 ≡ quote }
    requires separator { is_separator quote ≡ false }
    requires quote { is_quote quote ≡ true }
    ensures front { IsFront text.now result }
    ensures clean { IsCleanFront result }
{
    let (_, beyond) = text.split_at(1);
    match quoted_span(quote, beyond.as_bytes()) {
        Span::Ends(len) => {
            let (raw, rest) = beyond.split_at(len);
            let (_, rest) = rest.split_at(1);
            Front::Token(Token::Text(raw), 1, rest)
        }
        Span::Breaks(len) => Front::Broken(len + 1),
    }
}

/// Returns the byte at an index.
fn byte_at(bytes: &[u8], i: usize) -> Option<u8>
    ensures { result ≡ slice_get bytes.now i }
{
    bytes.get(i).copied()
}

/// Splits off the sign that the text begins with. If the text begins with a NUL, no token is found.
fn sign_front(first: u8, text: &str) -> Front<'_>
    requires nonempty { 0 < length text.now }
    requires first { slice_index text.now 0 ≡ first }
    requires separator { is_separator first ≡ false }
    requires quote { is_quote first ≡ false }
    requires sign { (is_sign first || (first == 0)) ≡ true }
    ensures front { IsFront text.now result }
    ensures clean { IsCleanFront result }
{
    let bytes = text.as_bytes();
    match sign(first, byte_at(bytes, 1)) {
        Some((token, width)) => {
            let (_, rest) = text.split_at(width);
            Front::Token(token, 0, rest)
        }
        None => Front::Odd,
    }
}

/// Splits off the word that the text begins with.
fn word_front(text: &str) -> Front<'_>
    requires nonempty { 0 < length text.now }
    requires separator { is_separator (slice_index text.now 0) ≡ false }
    requires quote { is_quote (slice_index text.now 0) ≡ false }
    requires sign { is_sign (slice_index text.now 0) ≡ false }
    requires nul { (slice_index text.now 0 == 0) ≡ false }
    ensures front { IsFront text.now result }
    ensures clean { IsCleanFront result }
{
    match word_span(text.as_bytes()) {
        Span::Ends(len) => {
            let (raw, rest) = text.split_at(len);
            Front::Token(Token::Text(raw), 0, rest)
        }
        Span::Breaks(len) => Front::Broken(len),
    }
}

/// Splits off the separator or token that nonempty text begins with.
pub(crate) fn split_front(text: &str) -> Front<'_>
    requires { 0 < length text.now }
    ensures front { IsFront text.now result }
    ensures clean { IsCleanFront result }
{
    let first = text.as_bytes()[0];
    if is_separator(first) {
        let (_, rest) = text.split_at(1);
        return Front::Separator(rest);
    }
    if is_quote(first) {
        return quoted_front(first, text);
    }
    if is_sign(first) || first == 0 {
        return sign_front(first, text);
    }
    word_front(text)
}
