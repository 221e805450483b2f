//! Worked examples of patterns.

use super::lines::{replies, yes_or_no};
use be_pattern::Pattern;
use be_value::Refusal;
use std::alloc::Global;
use std::test::Fail;

/// The canonical text of a pattern.
pub(crate) fn canonical(alloc: Global, text: &str) -> Result<String, Refusal> {
    Pattern::parse(alloc, text)?.canonical(alloc)
}

/// Whether a pattern matches the text after it.
pub(crate) fn matches(alloc: Global, request: &str) -> Result<String, Refusal> {
    let (pattern, text) = request.split_once(" ").unwrap_or((request, ""));
    yes_or_no(alloc, Pattern::parse(alloc, pattern)?.matches(text))
}

/// The prefix of a pattern, in quotes, and whether the pattern is plain.
pub(crate) fn prefix(alloc: Global, text: &str) -> Result<String, Refusal> {
    let pattern = Pattern::parse(alloc, text)?;
    let prefix = pattern.prefix();
    let word = if pattern.is_plain() { " plain" } else { "" };
    Ok(format!(in alloc; "\"{prefix}\"{word}")?)
}

pub(crate) fn is_decided_by_prefix(alloc: Global, text: &str) -> Result<String, Refusal> {
    yes_or_no(alloc, Pattern::parse(alloc, text)?.is_prefix())
}

/// The canonical text of a pattern that matches this text literally, with a `*` on each side that
/// has a `.` in the request.
pub(crate) fn around(alloc: Global, text: &str) -> Result<String, Refusal> {
    let (before, text) = match text.strip_prefix(".") {
        Some(text) => (true, text),
        None => (false, text),
    };
    let (beyond, text) = match text.strip_suffix(".") {
        Some(text) => (true, text),
        None => (false, text),
    };
    Pattern::around(alloc, before, text, beyond)?.canonical(alloc)
}

/// The example `patterns`, and the ways to read sets. In these lines, an empty pattern or text is
/// written as nothing.
#[test]
fn patterns(rt: HostRuntime) -> Result<(), Fail> {
    let lines = "matches *[ch] x.c => yes
matches *[ch] x.C => no
matches *[ch] é => no
matches *[ch] xh => yes
matches ? é => yes
matches ? xh => no
matches x.[a-d] x.c => yes
matches x.[a-d] x.C => no
matches x.[^a-d] x.c => no
matches x.[^a-d] x.C => yes
matches x.\\* x.c => no
matches x.\\* x.* => yes
matches *a*b*aa xxaxxbxabxaa => yes
matches *a*b*aa xxaxxbxabxab => no
matches   => yes
matches  a => no
matches *  => yes
matches a] a] => yes
matches [a-b-c] - => yes
matches [-a] - => yes
matches [a-] - => yes
matches [--a] Z => yes
matches [a^] ^ => yes
matches [\\]] ] => yes
matches [α-ω] λ => yes
matches a\0 a\0 => yes";
    replies(rt.alloc(), lines)
}

/// Each canonical text is its own canonical text.
#[test]
fn canonical_texts(rt: HostRuntime) -> Result<(), Fail> {
    let lines = "pattern a\\** => a\\**
pattern [a-b-c] => [a-b\\-c]
pattern [a-b\\-c] => [a-b\\-c]
pattern [--a] => [\\--a]
pattern [\\--a] => [\\--a]
pattern [^a-a] => [^a]
pattern [^a] => [^a]
pattern [a^]]\\x => [a\\^]]x
pattern [a\\^]]x => [a\\^]]x
pattern \"[\"]\\? => \\\"[\\\"]\\?
pattern \\\"[\\\"]\\? => \\\"[\\\"]\\?
pattern [ba] => [ba]";
    replies(rt.alloc(), lines)
}

#[test]
fn faults(rt: HostRuntime) -> Result<(), Fail> {
    let lines = "pattern é[a => refused 13 BadPattern 2
pattern [z-a]\\ => refused 13 BadPattern 5
pattern x[]a] => refused 13 BadPattern 1
pattern [^]] => refused 13 BadPattern 0
pattern [a--] => refused 13 BadPattern 0
pattern [a][b => refused 13 BadPattern 3
pattern [a-] => [a\\-]";
    replies(rt.alloc(), lines)
}

/// Prefixes, patterns that are determined by their prefix, and literal strings with `*` before or
/// after them.
#[test]
fn prefixes(rt: HostRuntime) -> Result<(), Fail> {
    let lines = "prefix \\*éx*y => \"*éx\"
prefix [5] => \"\"
prefix a]\\-5 => \"a]-5\" plain
prefix  => \"\" plain
decided  => yes
decided * => yes
decided é => yes
decided é* => yes
decided a\\* => yes
decided ** => no
decided *a => no
decided a*b => no
decided a? => no
decided a[b] => no
decided [b]* => no
around a* => a\\*
around a*. => a\\**
around .a* => *a\\*
around .a*. => *a\\**";
    replies(rt.alloc(), lines)
}
