//! The operations and outcomes in an entry's line.
//!
//! The results are correct if the text was printed from an entry; otherwise they may be anything.
//! So after an entry is read, it is printed again, and it is accepted only if this gives the same
//! line.
ghost use Rattle.std.specs.List.{join_by};
ghost use Rattle.std.specs.Option.{option_map};
ghost use Rattle.std.specs.Prelude.{◌≡◌, List, All, Some, IfOk, codes};
ghost use Rattle.be_volume.specs.declared.ops.Done.{Done as AnyDone};
ghost use Rattle.be_volume.specs.declared.ops.Op.{Op as AnyOp};
ghost use Rattle.be_entry_bytes.specs.Encoding.{CanBeDone};
ghost use Rattle.be_journal.specs.Text.{op_text, done_text};
ghost use Rattle.be_journal_text.specs.History as history;
ghost use Rattle.be_journal_text.specs.Parts as spec;

use crate::laws::printed_op_asks_for_it;
use crate::parts::{skip, split_around};
use be_script_language::{Request, read_line};
use be_value::word_of;
use be_volume::{Done, Op};
use std::alloc::{AllocError, Global};

/// The operation that a script's line requests.
fn read_op(alloc: Global, text: &[u8]) -> Result<Option<Op>, AllocError>
    ensures { IfOk result (λ op. op ≡ spec.op_in text.now) }
{
    let Request::Write(op) = read_line(alloc, text)? else {
        return Ok(None);
    };
    match op {
        Ok(op) => Ok(Some(op)),
        Err(_) => Ok(None),
    }
}

/// The outcome that a text encodes: a node if a number follows `node `, otherwise no value.
fn read_done(text: &[u8]) -> Done
    ensures { (done : AnyDone) → CanBeDone done → text.now ≡ done_text done → result
        ≡ done }
{
    match word_of(skip(5, text)) {
        Some(node) => Done::Node(node),
        None => Done::Unit,
    }
}

/// The operations in a text that separates them with `; `.
pub fn read_ops(alloc: Global, text: &[u8]) -> Result<Option<Vec<Op>>, AllocError>
    ensures { IfOk result (λ read. (ops : List AnyOp) → All history.CanBeOp ops → text.now
        ≡ join_by op_text (codes "; ") ops →
        option_map (λ v. v.items) read ≡ Some ops) }
{
    printed_op_asks_for_it();
    let mut ops = Vec::new(alloc);
    let mut rest = text;
    while !rest.is_empty() {
        let (part, beyond) = split_around(b';', rest);
        let Some(op) = read_op(alloc, part)? else {
            return Ok(None);
        };
        ops.push(op)?;
        rest = skip(1, beyond);
    }
    Ok(Some(ops))
}

/// The outcomes in a text that separates them with `; `.
pub fn read_outcomes(alloc: Global, text: &[u8]) -> Result<Vec<Done>, AllocError>
    ensures { IfOk result (λ read. (dones : List AnyDone) → All CanBeDone dones → text.now
        ≡ join_by done_text (codes "; ") dones → read.items ≡ dones) }
{
    let mut dones = Vec::new(alloc);
    let mut rest = text;
    while !rest.is_empty() {
        let (part, beyond) = split_around(b';', rest);
        dones.push(read_done(part))?;
        rest = skip(1, beyond);
    }
    Ok(dones)
}
