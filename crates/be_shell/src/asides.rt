//! Lines that are meant for the terminal itself.
ghost use Rattle.std.specs.Prelude.{◌≡◌, position, take, drop};
ghost use Rattle.std.specs.List.{list_all};
ghost use Rattle.be_shell.specs.Aside as spec;

/// The length of the longest line that a terminal returns, in bytes without its LF. The terminal
/// cuts longer lines to this length.
pub(crate) const MAX_TYPED: usize = 4095;

/// What a line asks of the terminal itself.
#[derive(Clone, Copy, Debug, PartialEq, Eq)]
pub enum Aside {
    /// The line is for the store.
    Nothing,
    /// Ctrl-C ended the line.
    Cancelled,
    /// The terminal may have cut the line.
    Cut,
    Help,
    Quit,
    Read,
    Save,
}

pub(crate) fn is_blank(byte: u8) -> bool
    ensures { result ≡ spec.is_blank byte }
{
    byte == b' ' || byte == b'\t' || byte == b'\r'
}

/// Returns the line without its leading blanks.
pub(crate) fn skip(line: &[u8]) -> &[u8]
    ensures { result.now ≡ spec.skip line.now }
{
    let mut rest = line;
    while let Some((c, beyond)) = rest.split_first() {
        if !is_blank(*c) {
            return rest;
        }
        rest = beyond;
    }
    rest
}

fn is_all_blank(line: &[u8]) -> bool
    ensures { result ≡ list_all spec.is_blank line.now }
{
    line.iter().all(|c| is_blank(*c))
}

/// Returns the position of the first blank.
fn first_blank(line: &[u8]) -> Option<usize>
    ensures { result ≡ position spec.is_blank line.now }
{
    line.iter().position(|c| is_blank(*c))
}

/// Splits the line at its first blank.
pub(crate) fn split_word(line: &[u8]) -> (&[u8], &[u8])
    ensures word { result.0.now ≡ take (spec.end_of_word line.now) line.now }
    ensures rest { result.1.now ≡ drop (spec.end_of_word line.now) line.now }
{
    match first_blank(line) {
        Some(end) if end <= line.len() => line.split_at(end),
        _ => (line, &[]),
    }
}

/// Returns what a word asks for, depending on whether it is the only word of its line.
fn named(word: &[u8], is_alone: bool) -> Aside
    ensures { result ≡ spec.named word.now is_alone }
{
    if word == b"help".as_slice() {
        Aside::Help
    } else if word == b"read".as_slice() {
        Aside::Read
    } else if word == b"save".as_slice() {
        Aside::Save
    } else if (word == b"quit".as_slice() || word == b"exit".as_slice()) && is_alone {
        Aside::Quit
    } else {
        Aside::Nothing
    }
}

/// Returns what a line of a file asks of the terminal itself.
pub(crate) fn aside_of(line: &[u8]) -> Aside
    ensures { result ≡ spec.aside_of line.now }
{
    let (word, rest) = split_word(skip(line));
    named(word, is_all_blank(rest))
}

/// Returns whether Ctrl-C ended the line, in which case its last byte is 3.
fn is_cancelled(line: &[u8]) -> bool
    ensures { result ≡ spec.is_cancelled line.now }
{
    line.ends_with(b"\x03".as_slice())
}

/// Returns what a typed line asks of the terminal itself.
pub(crate) fn typed_of(line: &[u8]) -> Aside
    ensures { result ≡ spec.typed_of line.now }
{
    if is_cancelled(line) {
        Aside::Cancelled
    } else if line.len() >= MAX_TYPED {
        Aside::Cut
    } else {
        aside_of(line)
    }
}
