//! The script that rebuilds a journal's volume, but not its history.
//!
//! The journal is replayed on a plain volume, and the operations that rebuild this volume are
//! written list by list. For any journal, the script has no more writes than the journal.
ghost use Rattle.std.specs.Option.{option_map};
ghost use Rattle.std.specs.Prelude.{◌≡◌, ◌<◌, ◌++◌, [], All, IfOk, OnOk, length, true, false};
ghost use Rattle.std.specs.String.{string_bytes};
ghost use Rattle.be_journal.specs.Journal as model;
ghost use Rattle.be_volume_state.specs.Places.{left};
ghost use Rattle.be_volume_state.specs.Rebuilding.{state_ops};
ghost use Rattle.be_journal_text.specs.Dump as spec;
ghost use Rattle.be_journal_text.specs.Finding.{AreChecked};
ghost use Rattle.be_journal_text.specs.History.{CanBeOp};

use crate::dumps::write_text;
use crate::outputs::reported_journal;
use crate::ranges::ops_can_be;
use be_journal::{Entry, replay};
use be_volume::{Op, Volume};
use be_volume_state::{Place, WholeVolume, next_list, whole_volume};
use std::alloc::{AllocError, Global};

/// Appends the lines of one write, and proves that the program can make its operations.
pub fn push_write(alloc: Global, text: &mut String, ops: &[Op]) -> Result<(), AllocError>
    ensures text { OnOk result (string_bytes text.new ≡ string_bytes text.old
        ++ spec.write_lines ops.now) }
    ensures can { All CanBeOp ops.now }
{
    ops_can_be(ops);
    text.push_str(write_text(alloc, ops)?.as_str())
}

/// Appends the lines for the next list of a volume's operations. Returns false if no list is left.
fn push_next(
    alloc: Global,
    whole: &mut WholeVolume<'_>,
    place: &mut Place,
    text: &mut String,
) -> Result<bool, AllocError>
    ensures whole { whole.new ≡ whole.old }
    ensures text { OnOk result (string_bytes text.new ++ spec.cut_lines (left whole.old place.new)
        ≡ string_bytes text.old ++ spec.cut_lines (left whole.old place.old)) }
    ensures can { OnOk result (All CanBeOp (left whole.old place.new)
        → All CanBeOp (left whole.old place.old)) }
    ensures fewer { IfOk result (λ more. more ≡ true → length (left whole.old place.new)
        < length (left whole.old place.old)) }
    ensures ends { IfOk result (λ more. more ≡ false → left whole.old place.new ≡ []) }
{
    let Some(ops) = next_list(whole, place)? else {
        return Ok(false);
    };
    push_write(alloc, text, ops.as_slice())?;
    Ok(true)
}

/// The script that rebuilds a volume, but not its history. It is the script that `dump_state`
/// returns for a journal of this volume. The only error is running out of memory.
pub fn volume_text(alloc: Global, volume: &Volume) -> Result<String, AllocError>
    ensures text { IfOk result (λ text. string_bytes text ≡ spec.state_dump volume.now) }
    ensures can { OnOk result (All CanBeOp (state_ops volume.now)) }
{
    let mut whole = whole_volume(volume);
    let mut place = Place::new(alloc);
    let mut text = String::new(alloc);
    'lists: while push_next(alloc, &mut whole, &mut place, &mut text)? {}
    Ok(text)
}

/// The script that rebuilds the volume of these entries.
fn entries_text(alloc: Global, entries: &[Entry]) -> Result<String, AllocError>
    requires { AreChecked entries.now }
    ensures text { IfOk result (λ text. string_bytes text
        ≡ spec.state_dump (model.replay entries.now)) }
    ensures can { OnOk result (All CanBeOp (state_ops (model.replay entries.now))) }
{
    let volume = replay(alloc, entries)?;
    volume_text(alloc, &volume)
}

/// The script that rebuilds the volume of a text's journal, but not its history. It creates nodes
/// with their numbers, attributes, and indices with their pairs, in batches of 64 operations.
/// Returns `None` if the text has no journal. The only error is running out of memory.
///
/// If the volume refuses an entry, which happens only in a wrong journal, no part of that entry
/// takes effect. be_script_runner's law `state_dump_makes_volume` says what running the script
/// produces. The cost is that of the entries' changes, plus the cost given at be_volume_state's
/// `next_list`.
pub fn dump_state(alloc: Global, text: &[u8]) -> Result<Option<String>, AllocError>
    ensures { IfOk result (λ script. spec.IsStateDump text.now (option_map string_bytes script)) }
{
    let Some(entries) = reported_journal(alloc, text)? else {
        return Ok(None);
    };
    let script = entries_text(alloc, &entries)?;
    Ok(Some(script))
}
