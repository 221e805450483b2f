//! Reads a journal back from its text.
ghost use Rattle.std.specs.Fmt.{decimal};
ghost use Rattle.std.specs.List.{join_by};
ghost use Rattle.std.specs.Option.{option_map};
ghost use Rattle.std.specs.Prelude.{◌≡◌, ◌≤◌, ◌<◌, ◌++◌, ◌∷◌, [], ℕ, List, Some, IfOk, IfSome};
ghost use Rattle.std.specs.Prelude.{codes, length};
ghost use Rattle.be_journal.specs.Journal.{IsEntry};
ghost use Rattle.be_journal.specs.Text.{done_text, entry_line, lines_from, op_text};
ghost use Rattle.be_journal.specs.declared.entries.Entry.{Entry as AnyEntry};
ghost use Rattle.be_journal_text.specs.History as history;
ghost use Rattle.be_journal_text.specs.Parts as spec;

use crate::lists::{read_ops, read_outcomes};
use crate::parts::{skip, split_around, without_last_two};
use crate::ranges::ops_can_be;
use be_entry_bytes::outcomes_can_be;
use be_journal::{Entry, Items, entry_line};
use be_value::word_of;
use be_volume::{Done, Op};
use std::alloc::{AllocError, Global};

/// The maximum number of entries in a journal.
const MAX_ENTRIES: usize = (1 << 32) - 1;

/// The entry with these lists, if both have the same length and that length is valid for a write (1
/// to 64).
fn entry_of(by: u64, ops: Vec<Op>, dones: Vec<Done>) -> Option<Entry>
    ensures { result ≡ history.entry_of by ops.items dones.items }
{
    let count = ops.len();
    if count < 1 || count > 64 || dones.len() != count {
        return None;
    }
    Some(Entry {
        by,
        ops: Items::from_vec(ops),
        dones: Items::from_vec(dones),
    })
}

/// The part of the line of entry N that follows `N by `.
fn after_number(alloc: Global, number: u64, line: &[u8]) -> Result<&[u8], AllocError>
    ensures { IfOk result (λ rest. (more : List ℕ) → line.now ≡ decimal number
        ++ (codes " by " ++ more) → rest.now ≡ more) }
{
    let head = format!(in alloc; "{number} by ")?;
    Ok(skip(head.len(), line))
}

/// The parts of the line of the entry with this number that encode the pass, the operations and the
/// outcomes.
fn parts_of(alloc: Global, number: u64, line: &[u8]) -> Result<(&[u8], &[u8], &[u8]), AllocError>
    ensures { IfOk result (λ parts. (entry : AnyEntry) → history.CanBeEntry entry → line.now
        ≡ entry_line number entry →
        (parts.0.now ≡ decimal entry.by) × (parts.1.now ≡ join_by op_text (codes "; ") entry.ops)
        × (parts.2.now ≡ join_by done_text (codes "; ") entry.dones)) }
{
    let rest = after_number(alloc, number, line)?;
    let (by, rest) = split_around(b' ', rest);
    let (ops, dones) = split_around(b'>', rest);
    let (dones, _) = split_around(b'\n', skip(1, dones));
    Ok((by, without_last_two(ops), dones))
}

/// If this line, with its LF, was printed from an entry, returns that entry; otherwise returns any
/// entry or none.
fn guess_entry(alloc: Global, number: u64, line: &[u8]) -> Result<Option<Entry>, AllocError>
    ensures whole { IfOk result (λ read. (entry : AnyEntry) → history.CanBeEntry entry → line.now
        ≡ entry_line number entry → read ≡ Some entry) }
    ensures is { IfOk result (λ read. IfSome read IsEntry) }
{
    let (by, ops, dones) = parts_of(alloc, number, line)?;
    let Some(by) = word_of(by) else {
        return Ok(None);
    };
    let Some(ops) = read_ops(alloc, ops)? else {
        return Ok(None);
    };
    let dones = read_outcomes(alloc, dones)?;
    Ok(entry_of(by, ops, dones))
}

/// The entry that has this line, with its LF. Returns `None` if no entry has it.
fn read_entry(alloc: Global, number: u64, line: &[u8]) -> Result<Option<Entry>, AllocError>
    ensures reads { IfOk result (λ read. IfSome read
        (λ entry. history.CanBeEntry entry × (line.now ≡ entry_line number entry))) }
    ensures whole { IfOk result (λ read. (entry : AnyEntry) → history.CanBeEntry entry → line.now
        ≡ entry_line number entry → read ≡ Some entry) }
{
    let Some(entry) = guess_entry(alloc, number, line)? else {
        return Ok(None);
    };
    let printed = entry_line(alloc, number, &entry)?;
    if printed.as_bytes() != line {
        return Ok(None);
    }
    ops_can_be(entry.ops.as_slice());
    outcomes_can_be(entry.dones.as_slice());
    Ok(Some(entry))
}

/// The first line with its LF, and the text after it. The last line may lack an LF.
pub(crate) fn first_line(text: &[u8]) -> (&[u8], &[u8])
    ensures whole { result.0.now ++ result.1.now ≡ text.now }
    ensures first { (line more : List ℕ) → spec.IsLinePart 10 line → text.now ≡ line ++ 10 ∷ more
        → (result.0.now ≡ line ++ 10 ∷ []) × (result.1.now ≡ more) }
    ensures shorter { 1 ≤ length text.now → length result.1.now < length text.now }
{
    let end = split_around(b'\n', text).0.len();
    if end < text.len() {
        text.split_at(end + 1)
    } else {
        (text, &[])
    }
}

/// Reads a journal's text. Returns its entries, or `None` if no journal has this text. The only
/// error is running out of memory.
///
/// This is the exact inverse of printing: the returned entries have this text, and if any entries
/// have this text, they are returned.
pub fn read_journal(alloc: Global, text: &[u8]) -> Result<Option<Vec<Entry>>, AllocError>
    ensures reads { IfOk result (λ read. IfSome read
        (λ entries. history.CanBeJournal entries.items × (text.now ≡ lines_from 1 entries.items))) }
    ensures whole { IfOk result (λ read. (entries : List AnyEntry) → history.CanBeJournal entries
        → text.now ≡ lines_from 1 entries →
        option_map (λ v. v.items) read ≡ Some entries) }
{
    let mut entries = Vec::new(alloc);
    let mut number = 1;
    let mut rest = text;
    while !rest.is_empty() {
        let (line, beyond) = first_line(rest);
        let Some(entry) = read_entry(alloc, number, line)? else {
            return Ok(None);
        };
        entries.push(entry)?;
        number += 1;
        rest = beyond;
    }
    if entries.len() > MAX_ENTRIES {
        return Ok(None);
    }
    Ok(Some(entries))
}
