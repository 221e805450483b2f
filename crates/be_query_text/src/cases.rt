//! Patterns that match a string in both upper and lower case.
ghost use Rattle.std.specs.Prelude.{◌≡◌, ◌++◌, ◌∷◌, ◌<◌, [], false, IfNone, IfOk, IfSome};
ghost use Rattle.std.specs.Prelude.{encode_utf8, encode_utf8_all, length, string_bytes};
ghost use Rattle.std.specs.Char.{IsScalar};
ghost use Rattle.be_value.specs.Name.{has_nul};
ghost use Rattle.be_query_text.specs.Cases.{MatchesAnyCase, others, set_text};
ghost use Rattle.be_query_text.specs.Encoded.{IsOneToken};

use crate::escaping::push_escaped;
use be_pattern::matching::split_first_char;
use std::alloc::{AllocError, Global};
use std::char;
use ucd_case::{fold_pairs, simple_fold};

/// Returns a pattern that matches exactly the strings that equal this one under Unicode's simple
/// case folding, character by character: `[gG][üÜ]n` for `Gün`. A character that has no other case
/// is written as `escaped` writes it, so the pattern can be used wherever an escaped string can.
///
/// Under simple folding, some sets have three characters, such as `k`, `K` and the Kelvin sign. `ß`
/// and `ss` aren't equal. For each character, 3,134 pairs are searched.
pub fn any_case(alloc: Global, text: &str) -> Result<String, AllocError>
    ensures matches { IfOk result (λ s. MatchesAnyCase (string_bytes s) text.now) }
    ensures token { IfOk result (λ s. has_nul text.now ≡ false → IsOneToken (string_bytes s)) }
{
    let mut pattern = String::new(alloc);
    let mut rest = text;
    'characters: while let Some((c, after)) = split_first_char(rest) {
        push_any_case(alloc, &mut pattern, simple_fold(c))?;
        rest = after;
    }
    Ok(pattern)
}

/// Appends the set of characters that fold to `folded`, which includes `folded` itself.
fn push_any_case(alloc: Global, pattern: &mut String, folded: char) -> Result<(), AllocError>
    ensures { IfOk result (λ _. string_bytes pattern.new ≡ string_bytes pattern.old
        ++ encode_utf8_all (set_text folded (others folded))) }
{
    let others = others(alloc, folded)?;
    if others.as_bytes().is_empty() {
        push_escaped(pattern, folded)?;
        return Ok(());
    }
    pattern.push('[')?;
    pattern.push(folded)?;
    pattern.push_str(&others)?;
    pattern.push(']')?;
    Ok(())
}

/// Returns the other characters that fold to `folded`.
fn others(alloc: Global, folded: char) -> Result<String, AllocError>
    ensures { IfOk result (λ s. string_bytes s ≡ encode_utf8_all (others folded)) }
{
    let mut others = String::new(alloc);
    let mut rest = fold_pairs();
    'pairs: while let Some((pair, after)) = split_pair(rest) {
        if pair.0 == folded as u32 {
            push_code(&mut others, pair.1)?;
        }
        rest = after;
    }
    Ok(others)
}

/// Returns the first pair and the pairs after it.
fn split_pair(pairs: &[(u32, u32)]) -> Option<((u32, u32), &[(u32, u32)])>
    ensures some { IfSome result (λ p. pairs.now ≡ p.0 ∷ p.1.now) }
    ensures none { IfNone result (pairs.now ≡ []) }
    ensures shorter { IfSome result (λ p. length p.1.now < length pairs.now) }
{
    match pairs.split_first() {
        Some((first, after)) => Some((*first, after)),
        None => None,
    }
}

/// Appends the character with this code.
fn push_code(text: &mut String, code: u32) -> Result<(), AllocError>
    requires { IsScalar code }
    ensures { IfOk result (λ _. string_bytes text.new ≡ string_bytes text.old ++ encode_utf8 code) }
{
    match char::from_u32(code) {
        Some(c) => text.push(c),
        None => Ok(()),
    }
}
