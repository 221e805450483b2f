//! The check of a journal that another program printed.
ghost use Rattle.std.specs.Prelude.{IfOk};
ghost use Rattle.be_journal_text.specs.Finding as spec;

use crate::outputs::reported_journal;
use be_journal::{Entry, entry_line, first_wrong};
use std::alloc::{AllocError, Global};

/// What checking a text found.
#[derive(Debug, Drop, PartialEq, Eq)]
pub enum Finding {
    /// The text has no journal.
    NoJournal,
    /// The journal has this many entries. Each has the outcomes that a volume gives after running
    /// the entries before it.
    Right(u64),
    /// The line of the first wrong entry, with its LF, and the number of entries in the journal.
    Wrong(String, u64),
}

/// The result of checking these entries.
fn finding_of(alloc: Global, entries: &[Entry]) -> Result<Finding, AllocError>
    requires { spec.AreChecked entries.now }
    ensures { IfOk result (λ found. spec.IsFound entries.now (spec.found_of found)) }
{
    let count = entries.len() as u64;
    let Some(place) = first_wrong(alloc, entries)? else {
        return Ok(Finding::Right(count));
    };
    let line = entry_line(alloc, place + 1, &entries[place as usize])?;
    Ok(Finding::Wrong(line, count))
}

/// Replays a text's journal on an empty volume. Returns the number of entries, and the line of the
/// first entry that has wrong outcomes, if there is one. It trusts only the text. The only error is
/// running out of memory.
pub fn check(alloc: Global, text: &[u8]) -> Result<Finding, AllocError>
    ensures { IfOk result (λ found. spec.IsFinding text.now (spec.found_of found)) }
{
    match reported_journal(alloc, text)? {
        Some(entries) => finding_of(alloc, &entries),
        None => Ok(Finding::NoJournal),
    }
}
