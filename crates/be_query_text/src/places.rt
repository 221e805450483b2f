//! Finds where the comparisons of a query are in its text.
//!
//! be_query's lexer is private, and a tree doesn't record places, so the lexemes of the text are
//! found here a second time. They are the same as in be_query's definition. In a text that `parse`
//! has accepted, none of them is cut off.
ghost use Rattle.std.specs.Prelude.{◌≡◌, ◌<◌, ◌≤◌, ◌+◌, ◌∷◌, ◌||◌, ◌==◌, ℕ, [], true, false};
ghost use Rattle.std.specs.Prelude.{length, slice_get, slice_index, take, IfNone, IfOk, IfSome};
ghost use Rattle.be_query.specs.Lexing.{IsBeyond, IsLone, all_whole, is_quote, is_separator};
ghost use Rattle.be_query.specs.Lexing.{is_sign, is_word, lexemes, quoted_span, word_span};
ghost use Rattle.be_query.specs.Lexing.{Broken, Takes, Whole, quoted_front, word_front};
ghost use Rattle.be_query.specs.Tokens.{Text};
ghost use Rattle.be_query_text.specs.Places.{pieces, pieces_of, places, three_by_three};
ghost use Rattle.be_query_text.specs.Steps.{GoesOn, IsStep, SignIs, left, token_of};
ghost use Rattle.be_query_text.specs.declared.places.Piece.TheVariants as AnyPiece;

use be_query::Cmp;
use std::alloc::{AllocError, Global};

/// The place of a name or a value in the text, in bytes.
#[derive(Clone, Copy, Debug, PartialEq, Eq)]
pub struct TextPlace {
    /// The offset of the first byte, including an opening quote.
    pub at: usize,
    /// The offset of the first byte after an opening quote, if there is one.
    pub start: usize,
    /// The offset after the last byte, excluding a closing quote.
    pub stop: usize,
    /// The offset after the last byte, including a closing quote.
    pub end: usize,
}

/// The place of a comparison in the text, and its operator there.
#[derive(Clone, Copy, Debug, PartialEq, Eq)]
pub struct Place {
    pub name: TextPlace,
    /// The operator in the text, which isn't inverted by a `!` before the comparison.
    pub op: Cmp,
    pub value: TextPlace,
}

/// A part of a comparison.
#[derive(Clone, Copy)]
pub(crate) enum Piece {
    Text(TextPlace),
    Operator(Cmp),
}

/// A token other than a name or a value.
#[derive(Clone, Copy)]
enum Sign {
    Open,
    Close,
    Bang,
    Both,
    Either,
    Compares(Cmp),
}

/// What a step takes from the front of the text.
#[derive(Clone, Copy)]
enum Step<'a> {
    /// Something that isn't a piece, followed by these bytes.
    Passed(&'a [u8]),
    /// A piece, followed by these bytes.
    Found(Piece, &'a [u8]),
    /// The text isn't a query.
    Stuck,
}

/// Returns `true` if the byte separates tokens.
fn is_separator(b: u8) -> bool
    ensures { result ≡ is_separator b }
{
    b == b' ' || b == b'\t' || b == b'\n' || b == b'\r'
}

/// Returns `true` if the byte begins a quoted string.
fn is_quote(b: u8) -> bool
    ensures { result ≡ is_quote b }
{
    b == b'"' || b == b'\''
}

/// Returns `true` if the byte begins a token that isn't a name or value.
fn is_sign(b: u8) -> bool
    ensures { result ≡ is_sign b }
{
    b == b'='
        || b == b'!'
        || b == b'<'
        || b == b'>'
        || b == b'&'
        || b == b'|'
        || b == b'('
        || b == b')'
}

/// Returns `true` if the byte may occur in a word.
fn is_word(b: u8) -> bool
    ensures { result ≡ is_word b }
{
    !(is_separator(b) || is_quote(b) || is_sign(b) || b == 0)
}

/// Returns the position after the byte at `at`, or after a backslash and the byte that it escapes.
/// Returns `None` if the escaped byte is missing or a NUL.
fn beyond(bytes: &[u8], at: usize) -> Option<usize>
    requires { at < length bytes.now }
    ensures next { IfSome result (λ next. IsBeyond bytes.now at next) }
    ensures within { IfSome result (λ next. (at < next) × (next ≤ length bytes.now)) }
    ensures lone { IfNone result (IsLone bytes.now at) }
{
    let next = at + 1;
    if bytes[at] != b'\\' {
        return Some(next);
    }
    if next == bytes.len() {
        return None;
    }
    if bytes[next] == 0 {
        return None;
    }
    Some(next + 1)
}

/// Returns the length of the word at the start of the bytes, or `None` if it is cut off.
fn word_len(bytes: &[u8]) -> Option<usize>
    requires nonempty { 0 < length bytes.now }
    requires word { is_word (slice_index bytes.now 0) ≡ true }
    ensures ends { IfSome result (λ n. word_front bytes.now (word_span false bytes.now)
        ≡ Takes (Whole (Text (take n bytes.now))) n 0) }
    ensures within { IfSome result (λ n. (1 ≤ n) × (n ≤ length bytes.now)) }
    ensures breaks { IfNone result ((n : ℕ) × (word_front bytes.now (word_span false bytes.now)
        ≡ Takes (Broken n) 1 0)) }
{
    let mut at = 0;
    'word: while at < bytes.len() {
        if !is_word(bytes[at]) {
            return Some(at);
        }
        let Some(next) = beyond(bytes, at) else {
            return None;
        };
        at = next;
    }
    Some(at)
}

/// Returns the length of the string that follows an opening quote, up to the next quote of the same
/// kind, or `None` if the string is cut off.
fn quoted_len(quote: u8, bytes: &[u8]) -> Option<usize>
    ensures ends { IfSome result (λ n. quoted_front bytes.now (quoted_span quote false bytes.now)
        ≡ Takes (Whole (Text (take n bytes.now))) (n + 2) 1) }
    ensures within { IfSome result (λ n. n < length bytes.now) }
    ensures breaks { IfNone result ((n : ℕ)
        × (quoted_front bytes.now (quoted_span quote false bytes.now) ≡ Takes (Broken n) 1 0)) }
{
    let mut at = 0;
    'quoted: while at < bytes.len() {
        let b = bytes[at];
        if b == quote {
            return Some(at);
        }
        if b == 0 {
            return None;
        }
        let Some(next) = beyond(bytes, at) else {
            return None;
        };
        at = next;
    }
    None
}

/// Returns the token that a sign begins and the length of the token in bytes, given the first byte
/// of the sign and the byte after it.
fn read_sign(first: u8, second: Option<u8>) -> Option<(Sign, usize)>
    ensures { SignIs first second result }
{
    match (first, second) {
        (b'(', _) => Some((Sign::Open, 1)),
        (b')', _) => Some((Sign::Close, 1)),
        (b'=', Some(b'=')) => Some((Sign::Compares(Cmp::Eq), 2)),
        (b'=', _) => Some((Sign::Compares(Cmp::Eq), 1)),
        (b'!', Some(b'=')) => Some((Sign::Compares(Cmp::Ne), 2)),
        (b'!', _) => Some((Sign::Bang, 1)),
        (b'<', Some(b'=')) => Some((Sign::Compares(Cmp::Le), 2)),
        (b'<', _) => Some((Sign::Compares(Cmp::Lt), 1)),
        (b'>', Some(b'=')) => Some((Sign::Compares(Cmp::Ge), 2)),
        (b'>', _) => Some((Sign::Compares(Cmp::Gt), 1)),
        (b'&', Some(b'&')) => Some((Sign::Both, 2)),
        (b'|', Some(b'|')) => Some((Sign::Either, 2)),
        _ => None,
    }
}

/// Returns the operator that the sign denotes, if it denotes one.
fn operator_of(sign: Sign) -> Option<Cmp>
    ensures some { IfSome result (λ op. (at start : ℕ) → pieces_of at start (token_of sign)
        ≡ AnyPiece.Operator op ∷ []) }
    ensures none { IfNone result ((at start : ℕ) → pieces_of at start (token_of sign) ≡ []) }
{
    match sign {
        Sign::Compares(op) => Some(op),
        Sign::Open => None,
        Sign::Close => None,
        Sign::Bang => None,
        Sign::Both => None,
        Sign::Either => None,
    }
}

/// Returns the byte at an index.
fn byte_at(bytes: &[u8], i: usize) -> Option<u8>
    ensures { result ≡ slice_get bytes.now i }
{
    bytes.get(i).copied()
}

/// Takes the sign at the start of `rest`, the unread part of the text, which is `total` bytes long.
fn take_sign(total: usize, rest: &[u8]) -> Step<'_>
    requires within { length rest.now ≤ total }
    requires nonempty { 0 < length rest.now }
    requires separator { is_separator (slice_index rest.now 0) ≡ false }
    requires quote { is_quote (slice_index rest.now 0) ≡ false }
    requires sign { (is_sign (slice_index rest.now 0) || (slice_index rest.now 0 == 0)) ≡ true }
    ensures { IsStep total rest.now result }
{
    let Some((sign, width)) = read_sign(rest[0], byte_at(rest, 1)) else {
        return Step::Stuck;
    };
    let (_, beyond) = rest.split_at(width);
    match operator_of(sign) {
        Some(op) => Step::Found(Piece::Operator(op), beyond),
        None => Step::Passed(beyond),
    }
}

/// Takes the quoted string at the start of `rest`, the unread part of the text, which is `total`
/// bytes long.
fn take_quoted(total: usize, rest: &[u8]) -> Step<'_>
    requires within { length rest.now ≤ total }
    requires nonempty { 0 < length rest.now }
    requires separator { is_separator (slice_index rest.now 0) ≡ false }
    requires quote { is_quote (slice_index rest.now 0) ≡ true }
    ensures { IsStep total rest.now result }
{
    let at = total - rest.len();
    let (_, inside) = rest.split_at(1);
    let Some(len) = quoted_len(rest[0], inside) else {
        return Step::Stuck;
    };
    let (_, tail) = inside.split_at(len);
    let (_, beyond) = tail.split_at(1);
    let place = TextPlace {
        at,
        start: at + 1,
        stop: total - tail.len(),
        end: total - beyond.len(),
    };
    Step::Found(Piece::Text(place), beyond)
}

/// Takes the word at the start of `rest`, the unread part of the text, which is `total` bytes long.
fn take_word(total: usize, rest: &[u8]) -> Step<'_>
    requires within { length rest.now ≤ total }
    requires nonempty { 0 < length rest.now }
    requires separator { is_separator (slice_index rest.now 0) ≡ false }
    requires quote { is_quote (slice_index rest.now 0) ≡ false }
    requires sign { is_sign (slice_index rest.now 0) ≡ false }
    requires nul { (slice_index rest.now 0 == 0) ≡ false }
    ensures { IsStep total rest.now result }
{
    let at = total - rest.len();
    let Some(len) = word_len(rest) else {
        return Step::Stuck;
    };
    let (_, beyond) = rest.split_at(len);
    let end = total - beyond.len();
    let place = TextPlace {
        at,
        start: at,
        stop: end,
        end,
    };
    Step::Found(Piece::Text(place), beyond)
}

/// Takes whatever is at the start of `rest`, the unread part of the text, which is `total` bytes
/// long.
fn take_front(total: usize, rest: &[u8]) -> Step<'_>
    requires within { length rest.now ≤ total }
    requires nonempty { 0 < length rest.now }
    ensures { IsStep total rest.now result }
{
    let first = rest[0];
    if is_separator(first) {
        let (_, beyond) = rest.split_at(1);
        return Step::Passed(beyond);
    }
    if is_quote(first) {
        return take_quoted(total, rest);
    }
    if is_sign(first) || first == 0 {
        return take_sign(total, rest);
    }
    take_word(total, rest)
}

/// Returns the next piece in the unread part of the text, and the bytes after it. The whole text is
/// `total` bytes long.
fn next_piece(total: usize, bytes: &[u8]) -> Option<(Piece, &[u8])>
    requires within { length bytes.now ≤ total }
    requires whole { all_whole (left total bytes.now) ≡ true }
    ensures some { IfSome result (λ p. pieces (left total bytes.now)
        ≡ p.0 ∷ pieces (left total p.1.now)) }
    ensures goes_on { IfSome result (λ p. GoesOn total bytes.now p.1.now) }
    ensures none { IfNone result (pieces (left total bytes.now) ≡ []) }
{
    let mut rest = bytes;
    'steps: while !rest.is_empty() {
        match take_front(total, rest) {
            Step::Passed(beyond) => rest = beyond,
            Step::Found(piece, beyond) => return Some((piece, beyond)),
            Step::Stuck => return None,
        }
    }
    None
}

/// Returns the next comparison in the unread part of the text, and the bytes after it. The whole
/// text is `total` bytes long.
fn next_place(total: usize, bytes: &[u8]) -> Option<(Place, &[u8])>
    requires within { length bytes.now ≤ total }
    requires whole { all_whole (left total bytes.now) ≡ true }
    ensures some { IfSome result (λ p. three_by_three (pieces (left total bytes.now))
        ≡ p.0 ∷ three_by_three (pieces (left total p.1.now))) }
    ensures goes_on { IfSome result (λ p. GoesOn total bytes.now p.1.now) }
    ensures none { IfNone result (three_by_three (pieces (left total bytes.now)) ≡ []) }
{
    let Some((Piece::Text(name), after_name)) = next_piece(total, bytes) else {
        return None;
    };
    let Some((Piece::Operator(op), after_op)) = next_piece(total, after_name) else {
        return None;
    };
    let Some((Piece::Text(value), rest)) = next_piece(total, after_op) else {
        return None;
    };
    Some((Place { name, op, value }, rest))
}

/// Returns the places of a query's comparisons in its text, from left to right.
pub(crate) fn places(alloc: Global, text: &str) -> Result<Vec<Place>, AllocError>
    requires { all_whole (lexemes 0 0 text.now) ≡ true }
    ensures { IfOk result (λ v. v.items ≡ places text.now) }
{
    let bytes = text.as_bytes();
    let mut places = Vec::new(alloc);
    let mut rest = bytes;
    'comparisons: while let Some((place, beyond)) = next_place(bytes.len(), rest) {
        places.push(place)?;
        rest = beyond;
    }
    Ok(places)
}
