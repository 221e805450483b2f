//! Operations and values as other languages encode them, in numbers and bytes.
ghost use Rattle.std.specs.Prelude.{◌≡◌, ◌≢◌, ◌<◌, ◌^◌, Ok, IfOk, IfErr, IfSome, IfNone, IsUtf8};
ghost use Rattle.be_session.specs.Imports.{cast_signed, code_of, name_from, w32, w64, AnyKind};
ghost use Rattle.be_session.specs.Imports.{FitsSigned};
ghost use Rattle.be_session.specs.Meaning.{HasNoMore, HasOnly, IsMeant, IsValueMeant, IsNoName};
ghost use Rattle.be_session.specs.Meaning.{IsNoOperation, IsNoValue};
ghost use Rattle.be_session.specs.declared.faults.Fault.TheVariants.{NotUtf8, NoKind, NoValue};

use crate::Fault;
use be_store::{Kind, Name, Op, Value};

/// Returns the kind with this type code.
pub(crate) fn kind_of_code(code: u32) -> Option<Kind>
    ensures found { IfSome result (λ kind. code_of kind ≡ code) }
    ensures none { IfNone result ((kind : AnyKind) → code_of kind ≢ code) }
{
    match code {
        0x4353_5452 => Some(Kind::Cstr),
        0x4c4f_4e47 => Some(Kind::Long),
        0x4c4c_4e47 => Some(Kind::Llng),
        0x4d49_4d53 => Some(Kind::Mims),
        0x5241_5754 => Some(Kind::Rawt),
        0x554c_4e47 => Some(Kind::Ulng),
        0x554c_4c47 => Some(Kind::Ullg),
        _ => None,
    }
}

/// Returns the kind with this type code, or `NoKind` if there is none.
pub(crate) fn kind(code: u32) -> Result<Kind, Fault>
    ensures ok { IfOk result (λ kind. code_of kind ≡ code) }
    ensures err { IfErr result (λ e. (e ≡ NoKind) × ((kind : AnyKind) → code_of kind ≢ code)) }
{
    match kind_of_code(code) {
        Some(kind) => Ok(kind),
        None => Err(Fault::NoKind),
    }
}

pub(crate) fn text(bytes: &[u8]) -> Result<&str, Fault>
    ensures ok { IfOk result (λ text. (text.now ≡ bytes.now) × IsUtf8 bytes.now) }
    ensures err { IfErr result (λ e. (e ≡ NotUtf8) × (¬ (IsUtf8 bytes.now))) }
{
    match str::from_utf8(bytes) {
        Ok(text) => Ok(text),
        Err(_) => Err(Fault::NotUtf8),
    }
}

/// Returns these bytes as a name.
pub fn name(bytes: &[u8]) -> Result<Name, Fault>
    ensures ok { IfOk result (λ name. (name ≡ bytes.now) × IsUtf8 bytes.now) }
    ensures named { IfOk result (λ name. name_from bytes.now ≡ Ok bytes.now) }
    ensures err { IfErr result (λ e. IsNoName bytes.now e) }
{
    match Name::new(text(bytes)?) {
        Ok(name) => Ok(name),
        Err(refusal) => Err(Fault::Refused(refusal)),
    }
}

fn int32(number: u64) -> Result<Value, Fault>
    ensures ok { IfOk result (λ value. value ≡ Value.Long (cast_signed w64 number)) }
    ensures err { IfErr result (λ e. (e ≡ NoValue)
        × (¬ (FitsSigned w32 (cast_signed w64 number)))) }
{
    match i32::try_from(number.cast_signed()) {
        Ok(n) => Ok(Value::int32(n)),
        Err(_) => Err(Fault::NoValue),
    }
}

fn uint32(number: u64) -> Result<Value, Fault>
    ensures ok { IfOk result (λ value. value ≡ Value.Ulng number) }
    ensures err { IfErr result (λ e. (e ≡ NoValue) × (¬ (number < 2 ^ 32))) }
{
    match u32::try_from(number) {
        Ok(n) => Ok(Value::uint32(n)),
        Err(_) => Err(Fault::NoValue),
    }
}

/// Decodes a value from a type code, a number and bytes. If the kind doesn't use the number or the
/// bytes, they are ignored.
pub(crate) fn value(code: u32, number: u64, bytes: &[u8]) -> Result<Value, Fault>
    ensures ok { IfOk result (λ value. IsValueMeant code number bytes.now value) }
    ensures err { IfErr result (λ e. IsNoValue code number bytes.now e) }
{
    match kind(code)? {
        Kind::Cstr => Ok(Value::text(text(bytes)?)?),
        Kind::Long => int32(number),
        Kind::Llng => Ok(Value::int64(number.cast_signed())),
        Kind::Mims => Ok(Value::mime(text(bytes)?)?),
        Kind::Rawt => Ok(Value::raw(bytes)?),
        Kind::Ulng => uint32(number),
        Kind::Ullg => Ok(Value::uint64(number)),
    }
}

/// Encodes a value as a type code, a number and bytes. The number is 0 for strings and raw bytes,
/// and the bytes are empty for numbers.
pub fn encoded(value: &Value) -> (u32, u64, &[u8])
    ensures meant { IsValueMeant result.0 result.1 result.2.now value.now }
    ensures no_more { HasNoMore result.1 result.2.now value.now }
{
    let code = value.kind().code();
    match value {
        Value::Cstr(text) | Value::Mims(text) => (code, 0, text.as_str().as_bytes()),
        Value::Long(n) => (code, (*n as i64).cast_unsigned(), b""),
        Value::Llng(n) => (code, n.cast_unsigned(), b""),
        Value::Rawt(bytes) => (code, 0, bytes.as_slice()),
        Value::Ulng(n) => (code, *n as u64, b""),
        Value::Ullg(n) => (code, *n, b""),
    }
}

/// Decodes the operation with this number: 0 creates a node, 1 removes it, 2 sets an attribute, 3
/// removes it, 4 creates an index, and 5 removes it. Parts that the operation doesn't use are
/// ignored.
pub(crate) fn operation(
    number: u32,
    node: u64,
    name_bytes: &[u8],
    code: u32,
    value_number: u64,
    bytes: &[u8],
) -> Result<Op, Fault>
    ensures ok { IfOk result (λ op. IsMeant number node name_bytes.now code value_number bytes.now
        op) }
    ensures err { IfErr result (λ e. IsNoOperation number name_bytes.now code value_number bytes.now
        e) }
{
    match number {
        0 => Ok(Op::New),
        1 => Ok(Op::Drop(node)),
        2 => Ok(Op::Set(node, name(name_bytes)?, value(code, value_number, bytes)?)),
        3 => Ok(Op::Unset(node, name(name_bytes)?)),
        4 => Ok(Op::MkIndex(name(name_bytes)?, kind(code)?)),
        5 => Ok(Op::RmIndex(name(name_bytes)?)),
        _ => Err(Fault::NoOperation),
    }
}

/// Encodes an operation as its number, its node, its name, and the type code, number and bytes of
/// its value. These are the parts that `operation` takes. Parts that the operation doesn't use are
/// 0 or empty.
pub(crate) fn encoded_operation(op: &Op) -> (u32, u64, &[u8], (u32, u64, &[u8]))
    ensures meant { IsMeant result.0 result.1 result.2.now result.3.0 result.3.1 result.3.2.now
        op.now }
    ensures only { HasOnly result.1 result.2.now result.3.0 result.3.1 result.3.2.now op.now }
{
    match op {
        Op::New => (0, 0, b"", (0, 0, b"")),
        Op::Drop(node) => (1, *node, b"", (0, 0, b"")),
        Op::Set(node, name, value) => (2, *node, name.as_str().as_bytes(), encoded(value)),
        Op::Unset(node, name) => (3, *node, name.as_str().as_bytes(), (0, 0, b"")),
        Op::MkIndex(name, kind) => (4, 0, name.as_str().as_bytes(), (kind.code(), 0, b"")),
        Op::RmIndex(name) => (5, 0, name.as_str().as_bytes(), (0, 0, b"")),
    }
}
