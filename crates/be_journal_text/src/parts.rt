//! Finds the end of each part of an entry's line.
//!
//! The parts of a line are separated by single bytes: a space, `>`, `;` or LF. Quoted names and
//! strings may contain these bytes too, so a part ends at the first such byte outside quotes.
ghost use Rattle.std.specs.Prelude.{◌≡◌, ◌≤◌, ◌<◌, ◌-◌, ◌↔◌, ◌++◌, ◌∷◌, [], ℕ, List, true, drop};
ghost use Rattle.std.specs.Prelude.{take, length, nat_eq, if◌then◌else◌};
ghost use Rattle.be_journal_text.specs.Parts as spec;

/// Whether the next byte is inside quotes.
#[derive(Clone, Copy, Debug, PartialEq, Eq)]
pub enum Quoting {
    Outside,
    Inside,
    /// Inside quotes, after a backslash.
    Escaped,
}

/// The state after this byte.
fn beyond(quoting: Quoting, byte: u8) -> Quoting
    ensures outside { quoting ≡ Quoting.Outside → result
        ≡ (if nat_eq byte 34 then Quoting.Inside else Quoting.Outside) }
    ensures inside { quoting ≡ Quoting.Inside → result ≡ (if nat_eq byte 92 then Quoting.Escaped
        else if nat_eq byte 34 then Quoting.Outside else Quoting.Inside) }
    ensures escaped { quoting ≡ Quoting.Escaped → result ≡ Quoting.Inside }
{
    match quoting {
        Quoting::Outside => {
            if byte == b'"' {
                Quoting::Inside
            } else {
                Quoting::Outside
            }
        }
        Quoting::Inside => {
            if byte == b'\\' {
                Quoting::Escaped
            } else if byte == b'"' {
                Quoting::Outside
            } else {
                Quoting::Inside
            }
        }
        Quoting::Escaped => Quoting::Inside,
    }
}

/// Whether this byte ends a part.
fn is_end(end: u8, quoting: Quoting, byte: u8) -> bool
    ensures { (result ≡ true) ↔ ((quoting ≡ Quoting.Outside) × (byte ≡ end)) }
{
    match quoting {
        Quoting::Outside => byte == end,
        Quoting::Inside | Quoting::Escaped => false,
    }
}

/// The number of bytes before the first `end` outside quotes, or the length of the text if there is
/// no such `end`.
fn length_to(end: u8, text: &[u8]) -> usize
    ensures ends { (part more : List ℕ) → spec.IsLinePart end part → text.now ≡ part ++ end ∷ more
        → result ≡ length part }
    ensures alone { spec.IsLinePart end text.now → result ≡ length text.now }
    ensures within { result ≤ length text.now }
{
    let mut count = 0;
    let mut quoting = Quoting::Outside;
    let mut rest = text;
    while let Some((byte, more)) = rest.split_first() {
        if is_end(end, quoting, *byte) {
            return count;
        }
        quoting = beyond(quoting, *byte);
        count += 1;
        rest = more;
    }
    count
}

/// The text without its first `count` bytes.
pub fn skip(count: usize, text: &[u8]) -> &[u8]
    ensures { result.now ≡ drop count text.now }
{
    if count <= text.len() {
        text.split_at(count).1
    } else {
        &[]
    }
}

/// The text before the first `end` outside quotes, and the text after that `end`. If there is no
/// such `end`, returns the whole text and an empty text.
pub fn split_around(end: u8, text: &[u8]) -> (&[u8], &[u8])
    ensures ends { (part more : List ℕ) → spec.IsLinePart end part → text.now ≡ part ++ end ∷ more
        → (result.0.now ≡ part) × (result.1.now ≡ more) }
    ensures alone { spec.IsLinePart end text.now → (result.0.now ≡ text.now) × (result.1.now ≡ []) }
    ensures within { length result.0.now ≤ length text.now }
    ensures shorter { 1 ≤ length text.now → length result.1.now < length text.now }
{
    let count = length_to(end, text);
    (text.split_at(count).0, skip(count + 1, text))
}

/// The text without its last two bytes.
pub fn without_last_two(text: &[u8]) -> &[u8]
    ensures { result.now ≡ take (length text.now - 2) text.now }
{
    if text.len() < 2 {
        return &[];
    }
    text.split_at(text.len() - 2).0
}
