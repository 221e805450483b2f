//! Escapes a string so that it can be a name or a value in a query.
ghost use Rattle.std.specs.Prelude.{◌≡◌, ◌++◌, ◌||◌, false, IfOk, encode_utf8_all, string_bytes};
ghost use Rattle.be_query.specs.Lexing.{is_quote, is_separator, is_sign};
ghost use Rattle.be_value.specs.Name.{has_nul};
ghost use Rattle.be_query_text.specs.Encoded.{Encodes, escaped_char, is_special};

use be_pattern::matching::split_first_char;
use be_pattern::push_marked;
use std::alloc::{AllocError, Global};

/// Returns the string with a backslash before each character that has a special meaning in a query
/// or a pattern. A query reads the result as the original string: as a name or a value, in quotes
/// of either kind or as a word, and also as part of a pattern. An empty string needs quotes.
pub fn escaped(alloc: Global, text: &str) -> Result<String, AllocError>
    ensures { IfOk result (λ s. has_nul text.now ≡ false → Encodes (string_bytes s) text.now) }
{
    let mut escaped = String::new(alloc);
    let mut rest = text;
    'characters: while let Some((c, after)) = split_first_char(rest) {
        push_escaped(&mut escaped, c)?;
        rest = after;
    }
    Ok(escaped)
}

/// Appends a character, preceded by a backslash if it needs one.
pub(crate) fn push_escaped(text: &mut String, c: char) -> Result<(), AllocError>
    ensures { IfOk result (λ _. string_bytes text.new ≡ string_bytes text.old
        ++ encode_utf8_all (escaped_char c)) }
{
    push_marked(text, c, is_special(c))
}

/// Returns `true` if the character has a special meaning in a query or a pattern.
fn is_special(c: char) -> bool
    ensures { result ≡ is_special c }
{
    is_delimiter(c) || c == '\\' || c == '*' || c == '?' || c == '['
}

/// Returns `true` if the character ends a word.
fn is_delimiter(c: char) -> bool
    ensures { result ≡ (is_separator c || is_quote c || is_sign c) }
{
    c == ' '
        || c == '\t'
        || c == '\n'
        || c == '\r'
        || c == '"'
        || c == '\''
        || c == '='
        || c == '!'
        || c == '<'
        || c == '>'
        || c == '&'
        || c == '|'
        || c == '('
        || c == ')'
}
