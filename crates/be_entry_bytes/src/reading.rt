//! Reads an entry from its bytes.
//!
//! Each function reads one item at the start of the bytes, and returns it with the bytes after it.
//! It returns `None` if the bytes don't begin with such an item.
ghost use Rattle.std.specs.Prelude.{◌≡◌, ◌<◌, ◌^◌, ◌++◌, ℕ, List, IfOk, IfSome, negsuc};
ghost use Rattle.std.specs.Int.{w16, w32, w64};
ghost use Rattle.std.specs.Option.{option_map};
ghost use Rattle.be_entry_bytes.specs.Decoding as spec;
ghost use Rattle.be_entry_bytes.specs.Encoding.{entry_bytes, CanBeEntry};
ghost use Rattle.be_volume.specs.declared.ops.Done.{Done as AnyDone};
ghost use Rattle.be_volume.specs.declared.ops.Op.{Op as AnyOp};

use be_value::{Bytes, Kind, Name, Text, Value};
use be_volume::{Done, Op};
use std::alloc::{AllocError, Global};
use std::str;

fn first_of(bytes: &[u8]) -> Option<(u8, &[u8])>
    ensures { option_map (λ x. (x.0, x.1.now)) result ≡ spec.first_at bytes.now }
{
    match bytes {
        [] => None,
        [first, rest @ ..] => Some((*first, rest)),
    }
}

fn number16_of(bytes: &[u8]) -> Option<(u64, &[u8])>
    ensures { option_map (λ x. (x.0, x.1.now)) result ≡ spec.fixed_at w16 bytes.now }
{
    if bytes.len() < 2 {
        return None;
    }
    let (front, rest) = bytes.split_at(2);
    Some((u64::from(u16::from_be_bytes([front[0], front[1]])), rest))
}

fn number32_of(bytes: &[u8]) -> Option<(u64, &[u8])>
    ensures { option_map (λ x. (x.0, x.1.now)) result ≡ spec.fixed_at w32 bytes.now }
{
    if bytes.len() < 4 {
        return None;
    }
    let (front, rest) = bytes.split_at(4);
    let number = u32::from_be_bytes([front[0], front[1], front[2], front[3]]);
    Some((u64::from(number), rest))
}

fn number64_of(bytes: &[u8]) -> Option<(u64, &[u8])>
    ensures { option_map (λ x. (x.0, x.1.now)) result ≡ spec.fixed_at w64 bytes.now }
{
    if bytes.len() < 8 {
        return None;
    }
    let (front, rest) = bytes.split_at(8);
    let number = u64::from_be_bytes([
        front[0], front[1], front[2], front[3], front[4], front[5], front[6], front[7],
    ]);
    Some((number, rest))
}

#[tactic(auto, unfolding(crate::specs::Decoding::number_at))]
fn number_of(bytes: &[u8]) -> Option<(u64, &[u8])>
    ensures { option_map (λ x. (x.0, x.1.now)) result ≡ spec.number_at bytes.now }
{
    let (first, rest) = first_of(bytes)?;
    match first {
        253 => number16_of(rest),
        254 => number32_of(rest),
        255 => number64_of(rest),
        _ => Some((u64::from(first), rest)),
    }
}

#[tactic(auto, unfolding(crate::specs::Decoding::below_at))]
fn below_of(limit: u64, bytes: &[u8]) -> Option<(u64, &[u8])>
    ensures gives { option_map (λ x. (x.0, x.1.now)) result ≡ spec.below_at limit bytes.now }
    ensures below { IfSome result (λ x. x.0 < limit) }
{
    let (n, rest) = number_of(bytes)?;
    if n < limit { Some((n, rest)) } else { None }
}

#[tactic(auto, unfolding(crate::specs::Decoding::counted_at))]
fn counted_of(bytes: &[u8]) -> Option<(&[u8], &[u8])>
    ensures { option_map (λ x. (x.0.now, x.1.now)) result ≡ spec.counted_at bytes.now }
{
    let (len, rest) = number_of(bytes)?;
    if (rest.len() as u64) < len {
        return None;
    }
    Some(rest.split_at(len as usize))
}

/// All the bytes as a string, if they are valid UTF-8.
fn text_in(bytes: &[u8]) -> Option<&str>
    ensures { option_map (λ x. x.now) result ≡ spec.text_in bytes.now }
{
    match str::from_utf8(bytes) {
        Ok(text) => Some(text),
        Err(_) => None,
    }
}

#[tactic(auto, unfolding(crate::specs::Decoding::name_at))]
fn name_of(bytes: &[u8]) -> Option<(Name, &[u8])>
    ensures { option_map (λ x. (x.0, x.1.now)) result ≡ spec.name_at bytes.now }
{
    let (part, rest) = counted_of(bytes)?;
    let text = text_in(part)?;
    let name = Name::new(text).ok()?;
    Some((name, rest))
}

#[tactic(auto, unfolding(crate::specs::Decoding::text_at))]
fn text_of(bytes: &[u8]) -> Option<(Text, &[u8])>
    ensures { option_map (λ x. (x.0, x.1.now)) result ≡ spec.text_at bytes.now }
{
    let (part, rest) = counted_of(bytes)?;
    let text = text_in(part)?;
    let text = Text::new(text).ok()?;
    Some((text, rest))
}

#[tactic(auto, unfolding(crate::specs::Decoding::raw_at))]
fn raw_of(bytes: &[u8]) -> Option<(Bytes, &[u8])>
    ensures { option_map (λ x. (x.0, x.1.now)) result ≡ spec.raw_at bytes.now }
{
    let (part, rest) = counted_of(bytes)?;
    let raw = Bytes::new(part).ok()?;
    Some((raw, rest))
}

fn kind_numbered(number: u8) -> Option<Kind>
    ensures { result ≡ spec.kind_numbered number }
{
    Kind::numbered(number)
}

#[tactic(auto, unfolding(crate::specs::Decoding::kind_at))]
fn kind_of(bytes: &[u8]) -> Option<(Kind, &[u8])>
    ensures { option_map (λ x. (x.0, x.1.now)) result ≡ spec.kind_at bytes.now }
{
    let (first, rest) = first_of(bytes)?;
    let kind = kind_numbered(first)?;
    Some((kind, rest))
}

/// The negative number -1 - `n`.
fn negative32(n: u64) -> i32
    requires { n < 2 ^ 31 }
    ensures { result ≡ negsuc n }
{
    (-1 - n as i64) as i32
}

/// The negative number -1 - `n`, with 64 bits.
fn negative64(n: u64) -> i64
    requires { n < 2 ^ 63 }
    ensures { result ≡ negsuc n }
{
    -1 - n as i64
}

/// Reads the number after the byte that gives a value's kind and sign. Returns the value and the
/// bytes after it, or `None` if no number has such a byte or if the number is too large for its
/// kind.
#[tactic(auto, unfolding(crate::specs::Decoding::number_value_at))]
fn number_value_of(first: u8, rest: &[u8]) -> Option<(Value, &[u8])>
    ensures { option_map (λ x. (x.0, x.1.now)) result ≡ spec.number_value_at first rest.now }
{
    match first {
        2 => {
            let (n, rest) = below_of(1 << 31, rest)?;
            Some((Value::Long(n as i32), rest))
        }
        130 => {
            let (n, rest) = below_of(1 << 31, rest)?;
            Some((Value::Long(negative32(n)), rest))
        }
        3 => {
            let (n, rest) = below_of(1 << 63, rest)?;
            Some((Value::Llng(n as i64), rest))
        }
        131 => {
            let (n, rest) = below_of(1 << 63, rest)?;
            Some((Value::Llng(negative64(n)), rest))
        }
        6 => {
            let (n, rest) = below_of(1 << 32, rest)?;
            Some((Value::Ulng(n as u32), rest))
        }
        7 => {
            let (n, rest) = number_of(rest)?;
            Some((Value::Ullg(n), rest))
        }
        _ => None,
    }
}

/// The value at the start of the bytes, with the bytes after it. Returns `None` if there is no
/// value.
#[tactic(auto, unfolding(crate::specs::Decoding::value_at))]
fn value_of(bytes: &[u8]) -> Option<(Value, &[u8])>
    ensures { option_map (λ x. (x.0, x.1.now)) result ≡ spec.value_at bytes.now }
{
    let (first, rest) = first_of(bytes)?;
    match first {
        1 => {
            let (text, rest) = text_of(rest)?;
            Some((Value::Cstr(text), rest))
        }
        4 => {
            let (text, rest) = text_of(rest)?;
            Some((Value::Mims(text), rest))
        }
        5 => {
            let (raw, rest) = raw_of(rest)?;
            Some((Value::Rawt(raw), rest))
        }
        _ => number_value_of(first, rest),
    }
}

#[tactic(auto, unfolding(crate::specs::Decoding::set_at))]
fn set_of(bytes: &[u8]) -> Option<(Op, &[u8])>
    ensures { option_map (λ x. (x.0, x.1.now)) result ≡ spec.set_at bytes.now }
{
    let (node, rest) = number_of(bytes)?;
    let (name, rest) = name_of(rest)?;
    let (value, rest) = value_of(rest)?;
    Some((Op::Set(node, name, value), rest))
}

#[tactic(auto, unfolding(crate::specs::Decoding::unset_at))]
fn unset_of(bytes: &[u8]) -> Option<(Op, &[u8])>
    ensures { option_map (λ x. (x.0, x.1.now)) result ≡ spec.unset_at bytes.now }
{
    let (node, rest) = number_of(bytes)?;
    let (name, rest) = name_of(rest)?;
    Some((Op::Unset(node, name), rest))
}

#[tactic(auto, unfolding(crate::specs::Decoding::mkindex_at))]
fn mkindex_of(bytes: &[u8]) -> Option<(Op, &[u8])>
    ensures { option_map (λ x. (x.0, x.1.now)) result ≡ spec.mkindex_at bytes.now }
{
    let (name, rest) = name_of(bytes)?;
    let (kind, rest) = kind_of(rest)?;
    Some((Op::MkIndex(name, kind), rest))
}

/// The operation of this form at the start of the bytes, with the bytes after it. Returns `None` if
/// there is no such operation.
#[tactic(auto, unfolding(crate::specs::Decoding::op_at))]
fn op_of(form: u8, bytes: &[u8]) -> Option<(Op, &[u8])>
    ensures { option_map (λ x. (x.0, x.1.now)) result ≡ spec.op_at form bytes.now }
{
    match form {
        0 => Some((Op::New, bytes)),
        1 => {
            let (node, rest) = number_of(bytes)?;
            Some((Op::Drop(node), rest))
        }
        2 => set_of(bytes),
        3 => unset_of(bytes),
        4 => mkindex_of(bytes),
        5 => {
            let (name, rest) = name_of(bytes)?;
            Some((Op::RmIndex(name), rest))
        }
        _ => None,
    }
}

#[tactic(auto, unfolding(crate::specs::Decoding::quiet_at))]
fn quiet_of(form: u8, bytes: &[u8]) -> Option<(Op, Done, &[u8])>
    ensures { option_map (λ x. (x.0, x.1, x.2.now)) result ≡ spec.quiet_at form bytes.now }
{
    let (op, rest) = op_of(form, bytes)?;
    Some((op, Done::Unit, rest))
}

#[tactic(auto, unfolding(crate::specs::Decoding::answered_at))]
fn answered_of(form: u8, bytes: &[u8]) -> Option<(Op, Done, &[u8])>
    ensures { option_map (λ x. (x.0, x.1, x.2.now)) result ≡ spec.answered_at form bytes.now }
{
    let (op, rest) = op_of(form, bytes)?;
    let (node, rest) = number_of(rest)?;
    Some((op, Done::Node(node), rest))
}

/// The operation at the start of the bytes, its outcome, and the bytes after them. Returns `None`
/// if there is no operation. It allocates nothing, and its cost grows with the operation's length.
#[tactic(auto, unfolding(crate::specs::Decoding::step_at))]
pub fn read_step(bytes: &[u8]) -> Option<(Op, Done, &[u8])>
    ensures { option_map (λ x. (x.0, x.1, x.2.now)) result ≡ spec.step_at bytes.now }
{
    let (first, rest) = first_of(bytes)?;
    if first < 128 {
        quiet_of(first, rest)
    } else {
        answered_of(first - 128, rest)
    }
}

/// The first `count` operations, their outcomes, and the bytes after them. Returns `None` if there
/// are fewer operations. It allocates only the two lists, and its cost grows with their length.
pub fn read_steps(
    alloc: Global,
    count: u64,
    bytes: &[u8],
) -> Result<Option<(Vec<Op>, Vec<Done>, &[u8])>, AllocError>
    ensures { IfOk result (λ read. option_map (λ x. (x.0.items, x.1.items, x.2.now)) read
        ≡ spec.steps_at count bytes.now) }
{
    let mut ops = Vec::new(alloc);
    let mut dones = Vec::new(alloc);
    let mut rest = bytes;
    for _ in 0..count {
        let Some((op, done, after)) = read_step(rest) else {
            return Ok(None);
        };
        ops.push(op)?;
        dones.push(done)?;
        rest = after;
    }
    Ok(Some((ops, dones, rest)))
}

/// The head of the entry at the start of the bytes: its pass, its number of operations, and the
/// bytes after the head. Returns `None` if the bytes don't begin with these two numbers. It
/// allocates nothing, and takes a few steps.
#[tactic(auto, unfolding(crate::specs::Decoding::head_at))]
pub fn read_head(bytes: &[u8]) -> Option<(u64, u64, &[u8])>
    ensures { option_map (λ x. (x.0, x.1, x.2.now)) result ≡ spec.head_at bytes.now }
{
    let (by, rest) = number_of(bytes)?;
    let (count, rest) = number_of(rest)?;
    Some((by, count, rest))
}

#[tactic(auto, unfolding(crate::specs::Decoding::entry_at))]
fn entry_of(
    alloc: Global,
    bytes: &[u8],
) -> Result<Option<(u64, Vec<Op>, Vec<Done>, &[u8])>, AllocError>
    ensures { IfOk result (λ read. option_map (λ x. (x.0, x.1.items, x.2.items, x.3.now)) read
        ≡ spec.entry_at bytes.now) }
{
    let Some((by, count, rest)) = read_head(bytes) else {
        return Ok(None);
    };
    let Some((ops, dones, rest)) = read_steps(alloc, count, rest)? else {
        return Ok(None);
    };
    Ok(Some((by, ops, dones, rest)))
}

/// The entry at the start of the bytes (its pass, operations and outcomes), with the bytes after
/// it. Returns `None` if there is no entry. An entry that `write_entry` appended is read back,
/// whatever follows it. It allocates only the two lists, and its cost grows with the entry's
/// length.
pub fn read_entry(
    alloc: Global,
    bytes: &[u8],
) -> Result<Option<(u64, Vec<Op>, Vec<Done>, &[u8])>, AllocError>
    ensures read { IfOk result (λ read. option_map (λ x. (x.0, x.1.items, x.2.items, x.3.now)) read
        ≡ spec.entry_at bytes.now) }
    ensures written { IfOk result (λ read. (by : ℕ) (ops : List AnyOp) (dones : List AnyDone)
        (rest : List ℕ) →
        CanBeEntry by ops dones → bytes.now ≡ entry_bytes by ops dones ++ rest →
        option_map (λ x. (x.0, x.1.items, x.2.items, x.3.now)) read
        ≡ spec.found by ops dones rest) }
{
    entry_of(alloc, bytes)
}

/// The bytes after the first `count` operations and their outcomes.
fn after_steps(count: u64, bytes: &[u8]) -> Option<&[u8]>
    ensures { option_map (λ x. x.now) result
        ≡ option_map (λ x. x.2) (spec.steps_at count bytes.now) }
{
    let mut rest = bytes;
    for _ in 0..count {
        let (_op, _done, after) = read_step(rest)?;
        rest = after;
    }
    Some(rest)
}

/// The bytes after the entry that they begin with. Returns `None` if there is no entry. It
/// allocates nothing, and its cost grows with the entry's length.
#[tactic(auto, unfolding(crate::specs::Decoding::entry_at))]
pub fn skip_entry(bytes: &[u8]) -> Option<&[u8]>
    ensures { option_map (λ x. x.now) result ≡ option_map (λ x. x.3) (spec.entry_at bytes.now) }
{
    let (_by, count, rest) = read_head(bytes)?;
    after_steps(count, rest)
}
