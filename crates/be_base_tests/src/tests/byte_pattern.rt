//! Patterns matched against strings by bytes and by characters. The expected results follow from
//! the rules in `docs/QUERIES.md`.
use super::lines::{replies, yes_or_no};
use be_byte_pattern::BytePattern;
use be_pattern::Pattern;
use be_test_tools::again;
use be_value::Refusal;
use std::alloc::Global;
use std::test::Fail;

/// Whether a pattern matches the text after it, by bytes and by characters.
pub(crate) fn matches_both_ways(alloc: Global, request: &str) -> Result<String, Refusal> {
    let (words, text) = request.split_once(" ").unwrap_or((request, ""));
    let pattern = Pattern::parse(alloc, words)?;
    let by_bytes = BytePattern::new(alloc, &pattern)?.matches(text.as_bytes());
    if by_bytes != pattern.matches(text) {
        return Ok(String::from_str(alloc, "one way")?);
    }
    yes_or_no(alloc, by_bytes)
}

/// Literal characters and `*`; every character is one byte long.
#[test]
fn matches_as_written(rt: HostRuntime) -> Result<(), Fail> {
    let lines = "bytes   => yes
bytes  a => no
bytes *  => yes
bytes **  => yes
bytes ** ab => yes
bytes abc abc => yes
bytes abc abcd => no
bytes abc* abc => yes
bytes abc* abcd => yes
bytes abc* ab => no
bytes *.jpg a.jpg => yes
bytes *.jpg .jpg => yes
bytes *.jpg a.jpg  => no
bytes *.jpg jpg => no
bytes *report* draft-report-2022.png => yes
bytes *report* draft-repor-2022.png => no
bytes a*a a => no
bytes a*a aa => yes
bytes a**b ab => yes
bytes *aab* aaab => yes
bytes *ab*ba* aba => no
bytes *ab*ba* abba => yes
bytes *ab*b ab => no
bytes *ab*b abab => yes
bytes *photo*77*.pdf my-photo-1770.pdf => yes
bytes *photo*77*.pdf my-photo-7.pdf => no";
    replies(rt.alloc(), lines)
}

/// Characters of two, three and four bytes. Some share their first byte, others share their last.
#[test]
fn matches_longer_characters(rt: HostRuntime) -> Result<(), Fail> {
    let lines = "bytes *é* café au lait => yes
bytes *é* cafe => no
bytes *©* é => no
bytes é* è => no
bytes *日*本 日x本 => yes
bytes *本* 日 => no
bytes *😀 a😀 => yes
bytes *😀* 😁 => no";
    replies(rt.alloc(), lines)
}

/// Characters with a backslash, and patterns with `?` and sets.
#[test]
fn matches_marked_characters(rt: HostRuntime) -> Result<(), Fail> {
    let lines = "bytes \\** *a => yes
bytes \\** a => no
bytes *\\? a? => yes
bytes *\\[x* y[x => yes
bytes *\\\\* a\\b => yes
bytes *re?ort* a-report => yes
bytes ? é => yes
bytes ?? é => no
bytes *[3-7]é 5é => yes
bytes [^é]* è => yes";
    replies(rt.alloc(), lines)
}

/// Whether a pattern matches these bytes.
fn matches_bytes(alloc: Global, words: &str, bytes: &[u8]) -> Result<bool, Refusal> {
    let pattern = Pattern::parse(alloc, words)?;
    Ok(BytePattern::new(alloc, &pattern)?.matches(bytes))
}

/// Bytes that aren't valid UTF-8 can be matched too.
#[test]
fn takes_any_bytes(rt: HostRuntime) -> Result<(), Fail> {
    assert!(rt; again!(matches_bytes(rt.alloc(), "*b", b"\xffb"))?);
    assert!(rt; !again!(matches_bytes(rt.alloc(), "?b", b"\xffb"))?);
    Ok(())
}
