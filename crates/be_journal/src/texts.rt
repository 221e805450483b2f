//! The text of entries.
//!
//! Names and strings are quoted, with a backslash before `"` and `\`, and with LF and CR written as
//! `\n` and `\r`. Raw bytes are written as quoted lowercase hexadecimal digits.
ghost use Rattle.std.specs.Char.{encode_utf8};
ghost use Rattle.std.specs.Fmt.{signed_decimal};
ghost use Rattle.std.specs.List.{join_by};
ghost use Rattle.std.specs.Prelude.{◌≡◌, ◌<◌, ◌++◌, ◌^◌, ◌∷◌, [], IfOk, OnOk, codes, decimal};
ghost use Rattle.std.specs.Prelude.{flat_map};
ghost use Rattle.std.specs.String.{string_bytes};
ghost use Rattle.be_journal.specs.Text as spec;

use crate::Entry;
use be_value::Value;
use be_volume::{Done, Op};
use std::alloc::{AllocError, Global};

/// The line for the entry with this number.
pub fn entry_line(alloc: Global, number: u64, entry: &Entry) -> Result<String, AllocError>
    ensures { IfOk result (λ text. string_bytes text ≡ spec.entry_line number entry.now) }
{
    let by = entry.by;
    let ops = ops_text(alloc, entry.ops.as_slice())?;
    let dones = outcomes_text(alloc, entry.dones.as_slice())?;
    format!(in alloc; "{number} by {by} {ops} -> {dones}\n")
}

fn ops_text(alloc: Global, ops: &[Op]) -> Result<String, AllocError>
    ensures { IfOk result (λ text. string_bytes text ≡ join_by spec.op_text (codes "; ") ops.now) }
{
    let Some((first, rest)) = ops.split_first() else {
        return Ok(String::new(alloc));
    };
    let mut text = op_text(alloc, first)?;
    push_ops(alloc, &mut text, rest)?;
    Ok(text)
}

fn push_ops(alloc: Global, text: &mut String, ops: &[Op]) -> Result<(), AllocError>
    ensures { OnOk result (string_bytes text.new ≡ string_bytes text.old
        ++ flat_map (λ y. codes "; " ++ spec.op_text y) ops.now) }
{
    for op in ops {
        text.push_str("; ")?;
        text.push_str(op_text(alloc, op)?.as_str())?;
    }
    Ok(())
}

fn outcomes_text(alloc: Global, dones: &[Done]) -> Result<String, AllocError>
    ensures { IfOk result (λ text. string_bytes text
        ≡ join_by spec.done_text (codes "; ") dones.now) }
{
    let Some((first, rest)) = dones.split_first() else {
        return Ok(String::new(alloc));
    };
    let mut text = done_text(alloc, first)?;
    push_outcomes(alloc, &mut text, rest)?;
    Ok(text)
}

fn push_outcomes(alloc: Global, text: &mut String, dones: &[Done]) -> Result<(), AllocError>
    ensures { OnOk result (string_bytes text.new ≡ string_bytes text.old
        ++ flat_map (λ y. codes "; " ++ spec.done_text y) dones.now) }
{
    for done in dones {
        text.push_str("; ")?;
        text.push_str(done_text(alloc, done)?.as_str())?;
    }
    Ok(())
}

/// The operation as a script's line, without the LF.
pub fn op_text(alloc: Global, op: &Op) -> Result<String, AllocError>
    ensures { IfOk result (λ text. string_bytes text ≡ spec.op_text op.now) }
{
    match op {
        Op::New => String::from_str(alloc, "new"),
        Op::Drop(node) => format!(in alloc; "drop {node}"),
        Op::Set(node, name, value) => {
            let name = quoted(alloc, name.as_str())?;
            let kind = value.kind().name();
            let value = value_text(alloc, value)?;
            format!(in alloc; "set {node} {name} {kind} {value}")
        }
        Op::Unset(node, name) => {
            let name = quoted(alloc, name.as_str())?;
            format!(in alloc; "unset {node} {name}")
        }
        Op::MkIndex(name, kind) => {
            let name = quoted(alloc, name.as_str())?;
            let kind = kind.name();
            format!(in alloc; "mkindex {name} {kind}")
        }
        Op::RmIndex(name) => {
            let name = quoted(alloc, name.as_str())?;
            format!(in alloc; "rmindex {name}")
        }
    }
}

/// The outcome of an operation, as replies and journals print it.
pub fn done_text(alloc: Global, done: &Done) -> Result<String, AllocError>
    ensures { IfOk result (λ text. string_bytes text ≡ spec.done_text done.now) }
{
    match done {
        Done::Node(node) => format!(in alloc; "node {node}"),
        Done::Unit => String::from_str(alloc, "ok"),
    }
}

/// The value, as replies and journals print it.
pub fn value_text(alloc: Global, value: &Value) -> Result<String, AllocError>
    ensures { IfOk result (λ text. string_bytes text ≡ spec.value_text value.now) }
{
    match value {
        Value::Cstr(text) | Value::Mims(text) => quoted(alloc, text.as_str()),
        Value::Long(n) => n.to_string(alloc),
        Value::Llng(n) => n.to_string(alloc),
        Value::Ulng(n) => n.to_string(alloc),
        Value::Ullg(n) => n.to_string(alloc),
        Value::Rawt(bytes) => quoted_hex(alloc, bytes.as_slice()),
    }
}

/// The text in quotes, with characters escaped where necessary.
pub fn quoted(alloc: Global, text: &str) -> Result<String, AllocError>
    ensures { IfOk result (λ quoted. string_bytes quoted ≡ spec.quoted text.now) }
{
    let mut quoted = String::from_str(alloc, "\"")?;
    for c in text.chars() {
        push_escaped(&mut quoted, c)?;
    }
    quoted.push_str("\"")?;
    Ok(quoted)
}

fn push_escaped(text: &mut String, c: char) -> Result<(), AllocError>
    ensures { OnOk result (string_bytes text.new ≡ string_bytes text.old ++ spec.escaped c) }
{
    match c {
        '"' => text.push_str("\\\""),
        '\\' => text.push_str("\\\\"),
        '\n' => text.push_str("\\n"),
        '\r' => text.push_str("\\r"),
        _ => text.push(c),
    }
}

/// The bytes as quoted hexadecimal digits.
fn quoted_hex(alloc: Global, bytes: &[u8]) -> Result<String, AllocError>
    ensures { IfOk result (λ text. string_bytes text ≡ 34 ∷ (spec.hex bytes.now ++ 34 ∷ [])) }
{
    let mut text = String::from_str(alloc, "\"")?;
    for byte in bytes {
        text.push(hex_digit(*byte / 16))?;
        text.push(hex_digit(*byte % 16))?;
    }
    text.push_str("\"")?;
    Ok(text)
}

fn hex_digit(n: u8) -> char
    requires { n < 16 }
    ensures digit { result ≡ spec.hex_digit n }
    ensures ascii { encode_utf8 result ≡ result ∷ [] }
{
    if n < 10 {
        char::from(b'0' + n)
    } else {
        char::from(b'a' + (n - 10))
    }
}
