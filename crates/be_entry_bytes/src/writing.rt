//! Writes an entry as bytes.
//!
//! Each function appends to a vector that has enough capacity, so none of them allocates memory.
ghost use Rattle.std.specs.Prelude.{◌≡◌, ◌+◌, ◌<◌, ◌≤◌, ◌++◌, ◌∷◌, [], All, length, vec_len};
ghost use Rattle.std.specs.Prelude.{vec_capacity};
ghost use Rattle.be_entry_bytes.specs.Encoding as spec;

use crate::ranges::{ops_can_be, outcomes_can_be};
use be_value::Value;
use be_volume::{Done, Op};

/// Appends these bytes.
fn write_bytes(bytes: &mut Vec<u8>, part: &[u8])
    requires room { vec_len bytes.old + length part.now ≤ vec_capacity bytes.old }
    ensures appends { bytes.new.items ≡ bytes.old.items ++ part.now }
    ensures len { vec_len bytes.new ≡ vec_len bytes.old + length part.now }
    ensures room { vec_capacity bytes.old ≤ vec_capacity bytes.new }
{
    // The vector has enough capacity.
    let _ = bytes.extend_from_slice(part);
}

/// Appends a number. A number below 253 takes one byte; any other takes a byte that gives its
/// length, followed by 2, 4 or 8 bytes.
#[tactic(auto, unfolding(crate::specs::Encoding::number_bytes))]
fn write_number(bytes: &mut Vec<u8>, n: u64)
    requires room { vec_len bytes.old + length (spec.number_bytes n) ≤ vec_capacity bytes.old }
    ensures appends { bytes.new.items ≡ bytes.old.items ++ spec.number_bytes n }
    ensures len { vec_len bytes.new ≡ vec_len bytes.old + length (spec.number_bytes n) }
    ensures room { vec_capacity bytes.old ≤ vec_capacity bytes.new }
{
    if n < 253 {
        bytes.push_reserved(n as u8);
    } else if n < 1 << 16 {
        bytes.push_reserved(253);
        write_bytes(bytes, &(n as u16).to_be_bytes());
    } else if n < 1 << 32 {
        bytes.push_reserved(254);
        write_bytes(bytes, &(n as u32).to_be_bytes());
    } else {
        bytes.push_reserved(255);
        write_bytes(bytes, &n.to_be_bytes());
    }
}

#[tactic(auto, unfolding(crate::specs::Encoding::counted_bytes))]
fn write_counted(bytes: &mut Vec<u8>, part: &[u8])
    requires room { vec_len bytes.old + length (spec.counted_bytes part.now)
        ≤ vec_capacity bytes.old }
    ensures appends { bytes.new.items ≡ bytes.old.items ++ spec.counted_bytes part.now }
    ensures len { vec_len bytes.new ≡ vec_len bytes.old + length (spec.counted_bytes part.now) }
    ensures room { vec_capacity bytes.old ≤ vec_capacity bytes.new }
{
    write_number(bytes, part.len() as u64);
    write_bytes(bytes, part);
}

/// Appends the byte of a kind and a number.
fn write_kind_number(bytes: &mut Vec<u8>, first: u8, n: u64)
    requires room { vec_len bytes.old + length (first ∷ spec.number_bytes n)
        ≤ vec_capacity bytes.old }
    ensures appends { bytes.new.items ≡ bytes.old.items ++ first ∷ spec.number_bytes n }
    ensures len { vec_len bytes.new ≡ vec_len bytes.old + length (first ∷ spec.number_bytes n) }
    ensures room { vec_capacity bytes.old ≤ vec_capacity bytes.new }
{
    bytes.push_reserved(first);
    write_number(bytes, n);
}

/// Appends the byte of a kind, then the number of bytes, and then the bytes.
fn write_kind_bytes(bytes: &mut Vec<u8>, first: u8, part: &[u8])
    requires room { vec_len bytes.old + length (first ∷ spec.counted_bytes part.now)
        ≤ vec_capacity bytes.old }
    ensures appends { bytes.new.items ≡ bytes.old.items ++ first ∷ spec.counted_bytes part.now }
    ensures len { vec_len bytes.new ≡ vec_len bytes.old
        + length (first ∷ spec.counted_bytes part.now) }
    ensures room { vec_capacity bytes.old ≤ vec_capacity bytes.new }
{
    bytes.push_reserved(first);
    write_counted(bytes, part);
}

/// The byte that precedes a signed number.
fn sign_byte(kind: u8, n: i64) -> u8
    requires { kind < 128 }
    ensures { result ≡ spec.sign_byte kind n }
{
    if n < 0 { kind + 128 } else { kind }
}

/// A signed number without its sign.
fn magnitude(n: i64) -> u64
    ensures { result ≡ spec.magnitude n }
{
    if n < 0 { (-1 - n) as u64 } else { n as u64 }
}

/// Appends a value: the byte of its kind, and then its number or its bytes.
#[tactic(auto, unfolding(crate::specs::Encoding::value_bytes))]
fn write_value(bytes: &mut Vec<u8>, value: &Value)
    requires room { vec_len bytes.old + length (spec.value_bytes value.now)
        ≤ vec_capacity bytes.old }
    ensures appends { bytes.new.items ≡ bytes.old.items ++ spec.value_bytes value.now }
    ensures len { vec_len bytes.new ≡ vec_len bytes.old + length (spec.value_bytes value.now) }
    ensures room { vec_capacity bytes.old ≤ vec_capacity bytes.new }
{
    match value {
        Value::Cstr(text) => write_kind_bytes(bytes, 1, text.as_str().as_bytes()),
        Value::Long(n) => {
            let n = i64::from(*n);
            write_kind_number(bytes, sign_byte(2, n), magnitude(n))
        }
        Value::Llng(n) => write_kind_number(bytes, sign_byte(3, *n), magnitude(*n)),
        Value::Mims(text) => write_kind_bytes(bytes, 4, text.as_str().as_bytes()),
        Value::Rawt(raw) => write_kind_bytes(bytes, 5, raw.as_slice()),
        Value::Ulng(n) => write_kind_number(bytes, 6, u64::from(*n)),
        Value::Ullg(n) => write_kind_number(bytes, 7, *n),
    }
}

/// The number of an operation's form.
fn form_of(op: &Op) -> u8
    ensures form { result ≡ spec.form_of op.now }
    ensures small { result < 128 }
{
    match op {
        Op::New => 0,
        Op::Drop(_) => 1,
        Op::Set(_, _, _) => 2,
        Op::Unset(_, _) => 3,
        Op::MkIndex(_, _) => 4,
        Op::RmIndex(_) => 5,
    }
}

/// Appends an operation without its form.
#[tactic(auto, unfolding(crate::specs::Encoding::op_bytes))]
fn write_op(bytes: &mut Vec<u8>, op: &Op)
    requires room { vec_len bytes.old + length (spec.op_bytes op.now) ≤ vec_capacity bytes.old }
    ensures appends { bytes.new.items ≡ bytes.old.items ++ spec.op_bytes op.now }
    ensures len { vec_len bytes.new ≡ vec_len bytes.old + length (spec.op_bytes op.now) }
    ensures room { vec_capacity bytes.old ≤ vec_capacity bytes.new }
{
    match op {
        Op::New => {}
        Op::Drop(node) => write_number(bytes, *node),
        Op::Set(node, name, value) => {
            write_number(bytes, *node);
            write_counted(bytes, name.as_str().as_bytes());
            write_value(bytes, value);
        }
        Op::Unset(node, name) => {
            write_number(bytes, *node);
            write_counted(bytes, name.as_str().as_bytes());
        }
        Op::MkIndex(name, kind) => {
            write_counted(bytes, name.as_str().as_bytes());
            bytes.push_reserved(kind.number());
        }
        Op::RmIndex(name) => write_counted(bytes, name.as_str().as_bytes()),
    }
}

/// Appends an operation and its outcome.
#[tactic(auto, unfolding(crate::specs::Encoding::step_bytes))]
fn write_step(bytes: &mut Vec<u8>, op: &Op, done: &Done)
    requires room { vec_len bytes.old + length (spec.step_bytes op.now done.now)
        ≤ vec_capacity bytes.old }
    ensures appends { bytes.new.items ≡ bytes.old.items ++ spec.step_bytes op.now done.now }
    ensures len { vec_len bytes.new ≡ vec_len bytes.old + length (spec.step_bytes op.now done.now) }
    ensures room { vec_capacity bytes.old ≤ vec_capacity bytes.new }
{
    match done {
        Done::Node(node) => {
            bytes.push_reserved(form_of(op) + 128);
            write_op(bytes, op);
            write_number(bytes, *node);
        }
        Done::Unit => {
            bytes.push_reserved(form_of(op));
            write_op(bytes, op);
        }
    }
}

fn write_steps(bytes: &mut Vec<u8>, ops: &[Op], dones: &[Done])
    requires each { length dones.now ≡ length ops.now }
    requires room { vec_len bytes.old + length (spec.steps_bytes ops.now dones.now)
        ≤ vec_capacity bytes.old }
    ensures appends { bytes.new.items ≡ bytes.old.items ++ spec.steps_bytes ops.now dones.now }
    ensures room { vec_capacity bytes.old ≤ vec_capacity bytes.new }
{
    for i in 0..ops.len() {
        write_step(bytes, &ops[i], &dones[i]);
    }
}

#[tactic(auto, unfolding(crate::specs::Encoding::entry_bytes))]
fn write_parts(bytes: &mut Vec<u8>, by: u64, ops: &[Op], dones: &[Done])
    requires each { length dones.now ≡ length ops.now }
    requires room { vec_len bytes.old + length (spec.entry_bytes by ops.now dones.now)
        ≤ vec_capacity bytes.old }
    ensures appends { bytes.new.items ≡ bytes.old.items ++ spec.entry_bytes by ops.now dones.now }
    ensures room { vec_capacity bytes.old ≤ vec_capacity bytes.new }
{
    write_number(bytes, by);
    write_number(bytes, ops.len() as u64);
    write_steps(bytes, ops, dones);
}

/// The maximum number of bytes that an entry with this many operations takes.
pub fn most_bytes(count: usize) -> usize
    requires { count ≤ 64 }
    ensures { result ≡ spec.most_bytes count }
{
    18 + 356 * count
}

/// Appends an entry to a vector that has capacity for the longest entry with the same number of
/// operations. It allocates nothing, and its cost grows with the entry's length. `read_entry` reads
/// back the entry that it appends.
pub fn write_entry(bytes: &mut Vec<u8>, by: u64, ops: &[Op], dones: &[Done])
    requires few { length ops.now ≤ 64 }
    requires each { length dones.now ≡ length ops.now }
    requires room { vec_len bytes.old + spec.most_bytes (length ops.now) ≤ vec_capacity bytes.old }
    ensures appends { bytes.new.items ≡ bytes.old.items ++ spec.entry_bytes by ops.now dones.now }
    ensures room { vec_capacity bytes.old ≤ vec_capacity bytes.new }
    ensures can_be { spec.CanBeEntry by ops.now dones.now }
{
    ops_can_be(ops);
    outcomes_can_be(dones);
    write_parts(bytes, by, ops, dones);
}
