//! The journal in the output of a race or a run.
//!
//! It is at the end of the output: the line `journal N`, the journal's text, and `replay ok`. No
//! line of a journal's text begins with `j`, so this part begins at the last line that does.
ghost use Rattle.std.specs.Option.{option_map};
ghost use Rattle.std.specs.Prelude.{◌≡◌, ◌≢◌, ◌↔◌, ◌++◌, ℕ, true, List, Some, IfOk, IfSome};
ghost use Rattle.std.specs.Prelude.{MatchOption, codes};
ghost use Rattle.be_journal.specs.Text.{result_text};
ghost use Rattle.be_journal.specs.declared.entries.Entry.{Entry as AnyEntry};
ghost use Rattle.be_journal_text.specs.Finding as spec;
ghost use Rattle.be_journal_text.specs.History.{CanBeJournal};

use crate::journals::{first_line, read_journal};
use be_journal::Entry;
use std::alloc::{AllocError, Global};

/// The last line of an output that ends with a journal.
const LAST_LINE: &[u8] = b"replay ok\n";

/// The text from the last line that begins with `j` to the end. Returns `None` if no line does.
fn from_last_j(text: &[u8]) -> Option<&[u8]>
    ensures { spec.IsFromLastJ text.now (option_map (λ t. t.now) result) }
{
    let mut found = None;
    let mut is_start = true;
    let mut rest = text;
    while let Some((byte, beyond)) = rest.split_first() {
        if is_start && *byte == b'j' {
            found = Some(rest);
        }
        is_start = *byte == b'\n';
        rest = beyond;
    }
    found
}

/// Whether the text is the line `journal N` for this N, with its LF.
fn is_head(alloc: Global, text: &[u8], count: usize) -> Result<bool, AllocError>
    ensures { IfOk result (λ is. (is ≡ true) ↔ (text.now ≡ spec.head count)) }
{
    let head = format!(in alloc; "journal {count}\n")?;
    Ok(head.as_bytes() == text)
}

/// The lines before the last one, if the last one is `replay ok`.
fn before_last(text: &[u8]) -> Option<&[u8]>
    ensures { MatchOption result ((lines : List ℕ) → text.now ≢ lines ++ codes "replay ok\n")
        (λ lines. text.now ≡ lines.now ++ codes "replay ok\n") }
{
    text.strip_suffix(LAST_LINE)
}

/// The entries in the text at the end of a race's output: `journal N`, the journal's text, and
/// `replay ok`.
fn read_result(alloc: Global, text: &[u8]) -> Result<Option<Vec<Entry>>, AllocError>
    ensures reads { IfOk result (λ read. IfSome read
        (λ entries. CanBeJournal entries.items × (text.now ≡ result_text entries.items))) }
    ensures whole { IfOk result (λ read. (entries : List AnyEntry) → CanBeJournal entries → text.now
        ≡ result_text entries →
        option_map (λ v. v.items) read ≡ Some entries) }
{
    let (head, rest) = first_line(text);
    let Some(lines) = before_last(rest) else {
        return Ok(None);
    };
    let Some(entries) = read_journal(alloc, lines)? else {
        return Ok(None);
    };
    if is_head(alloc, head, entries.len())? {
        Ok(Some(entries))
    } else {
        Ok(None)
    }
}

/// The journal in a text. The text may be the output of a race, the output of a run that prints its
/// journal, or the journal's text alone. Returns `None` if the text has no journal. The only error
/// is running out of memory.
///
/// The result is exact: the returned journal is the text's, and every journal that a text can have
/// is found. So no text has two journals.
pub fn reported_journal(alloc: Global, text: &[u8]) -> Result<Option<Vec<Entry>>, AllocError>
    ensures reads { IfOk result (λ read. IfSome read
        (λ entries. CanBeJournal entries.items × spec.TextReports text.now entries.items)) }
    ensures whole { IfOk result (λ read. (entries : List AnyEntry) → CanBeJournal entries
        → spec.TextReports text.now entries →
        option_map (λ v. v.items) read ≡ Some entries) }
{
    match from_last_j(text) {
        Some(result) => read_result(alloc, result),
        None => read_journal(alloc, text),
    }
}
