//! Reads a pattern's runs from its canonical text.
ghost use Rattle.std.specs.Prelude.{◌≡◌, ◌<◌, ◌≤◌, ◌∷◌, [], List, length, map, IfOk, IfSome};
ghost use Rattle.std.specs.Prelude.{string_bytes, encode_utf8_all};
ghost use Rattle.be_pattern.specs.Match.{Part, Only, Run};
ghost use Rattle.be_pattern.specs.Canonical.{canonical};
ghost use Rattle.be_byte_pattern.specs.Runs.{BeginsWith, IsOfRuns, Leaves, begins_wildcard};

use crate::runs::Runs;
use be_pattern::matching::split_first_char;
use std::alloc::{AllocError, Global};

/// Whether this character begins a wildcard in a canonical text when no backslash precedes it.
fn begins_wildcard(char: char) -> bool
    ensures { result ≡ begins_wildcard char }
{
    char == '*' || char == '?' || char == '['
}

/// The literal character that a canonical text begins with, and the text after it.
fn split_literal(text: &str) -> Option<(char, &str)>
    ensures literal { IfSome result (λ p. (ps : List Part) → text.now
        ≡ encode_utf8_all (canonical ps) → BeginsWith ps p.0 p.1.now) }
    ensures shorter { IfSome result (λ p. length p.1.now < length text.now) }
{
    let (char, rest) = split_first_char(text)?;
    if char == '\\' {
        return split_first_char(rest);
    }
    if begins_wildcard(char) {
        return None;
    }
    Some((char, rest))
}

/// The literal characters that a canonical text begins with, and the text after them.
fn read_run(alloc: Global, text: &str) -> Result<(String, &str), AllocError>
    ensures leaves { IfOk result (λ p. (ps : List Part) → text.now ≡ encode_utf8_all (canonical ps)
        →
        Leaves ps (map Only (string_bytes p.0)) p.1.now) }
    ensures shorter { IfOk result (λ p. length p.1.now ≤ length text.now) }
{
    let mut run = String::new(alloc);
    let mut rest = text;
    'literals: while let Some((char, after)) = split_literal(rest) {
        run.push(char)?;
        rest = after;
    }
    Ok((run, rest))
}

/// The text after a `*`, if the text begins with one.
fn split_star(text: &str) -> Option<&str>
    ensures star { IfSome result (λ rest. (ps : List Part) → text.now
        ≡ encode_utf8_all (canonical ps) →
        Leaves ps (Run ∷ []) rest.now) }
    ensures shorter { IfSome result (λ rest. length rest.now < length text.now) }
{
    match split_first_char(text) {
        Some(('*', rest)) => Some(rest),
        _ => None,
    }
}

/// The runs of a canonical text, or `None` if it has a `?` or a set.
pub(crate) fn read_runs(alloc: Global, text: &str) -> Result<Option<Runs>, AllocError>
    ensures { IfOk result (λ read. IfSome read
        (λ runs. (ps : List Part) → text.now ≡ encode_utf8_all (canonical ps) → IsOfRuns ps runs)) }
{
    let (front, mut rest) = read_run(alloc, text)?;
    let mut later = Vec::new(alloc);
    'stars: while let Some(after) = split_star(rest) {
        let (run, left_over) = read_run(alloc, after)?;
        later.push(run)?;
        rest = left_over;
    }
    if rest.is_empty() {
        Ok(Some(Runs { front, later }))
    } else {
        Ok(None)
    }
}
