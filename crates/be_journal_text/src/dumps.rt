//! The script that makes a journal's writes again.
ghost use Rattle.std.specs.Prelude.{◌≡◌, ◌++◌, IfOk, OnOk, flat_map};
ghost use Rattle.std.specs.String.{string_bytes};
ghost use Rattle.be_journal_text.specs.Dump as spec;

use be_journal::{Entry, op_text};
use be_volume::Op;
use std::alloc::{AllocError, Global};

/// Appends a line for each operation.
fn push_lines(alloc: Global, text: &mut String, ops: &[Op]) -> Result<(), AllocError>
    ensures { OnOk result (string_bytes text.new ≡ string_bytes text.old
        ++ flat_map spec.op_line ops.now) }
{
    for op in ops {
        text.push_str(op_text(alloc, op)?.as_str())?;
        text.push_str("\n")?;
    }
    Ok(())
}

/// The lines for one write: its only operation, or a batch if there are several operations.
pub(crate) fn write_text(alloc: Global, ops: &[Op]) -> Result<String, AllocError>
    ensures { IfOk result (λ text. string_bytes text ≡ spec.write_lines ops.now) }
{
    let mut text = String::new(alloc);
    if ops.len() > 1 {
        text.push_str("begin\n")?;
    }
    push_lines(alloc, &mut text, ops)?;
    if ops.len() > 1 {
        text.push_str("commit\n")?;
    }
    Ok(text)
}

/// The script that makes these entries' writes again, in order. A write of several operations
/// becomes a batch. be_script_runner's law `dump_makes_journal` says what running the script
/// produces.
pub fn dump(alloc: Global, entries: &[Entry]) -> Result<String, AllocError>
    ensures { IfOk result (λ text. string_bytes text ≡ spec.dump entries.now) }
{
    let mut text = String::new(alloc);
    for entry in entries {
        text.push_str(write_text(alloc, entry.ops.as_slice())?.as_str())?;
    }
    Ok(text)
}
