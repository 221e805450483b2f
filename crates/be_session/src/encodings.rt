//! Attributes, indices and operations as they are returned to other languages: as operations, with
//! the bytes that contain their parts.
ghost use Rattle.std.specs.Prelude.{◌≡◌, ◌++◌, IfOk, IfErr, IfSome, length, map};
ghost use Rattle.be_session.specs.Imports.{OutOfMemory};
ghost use Rattle.be_session.specs.Operations.{AreEncoded, ArePartsWithin, HasOnlyParts, IsMeantBy};
ghost use Rattle.be_session.specs.Operations.{ReportNodes};
ghost use Rattle.be_session.specs.Operations.{ReportsNode, both_parts, makes, part, sets};
ghost use Rattle.be_session.specs.declared.faults.Fault.TheVariants.{Refused};

use crate::meanings::encoded_operation;
use crate::{Fault, Operation, encoded};
use be_store::{Done, Kind, Name, Op, Refusal, Value};
use std::alloc::Global;

/// Encoded operations, with the bytes that contain their parts.
#[derive(Drop)]
pub struct Encoding {
    pub operations: Vec<Operation>,
    pub bytes: Vec<u8>,
}

/// Appends bytes and returns their offset and length. Returns `OutOfMemory` if memory runs out or
/// at 4 GiB.
fn append(bytes: &mut Vec<u8>, more: &[u8]) -> Result<(u32, u32), Fault>
    ensures ok { IfOk result (λ r. (r.0 ≡ length bytes.old.items) × (r.1 ≡ length more.now)
        × (bytes.new.items ≡ bytes.old.items ++ more.now)) }
    ensures err { IfErr result (λ e. e ≡ Refused OutOfMemory) }
{
    let Ok(at) = u32::try_from(bytes.len()) else {
        return Err(Fault::Refused(Refusal::OutOfMemory));
    };
    let Ok(length) = u32::try_from(more.len()) else {
        return Err(Fault::Refused(Refusal::OutOfMemory));
    };
    bytes.extend_from_slice(more)?;
    Ok((at, length))
}

/// Encodes an operation with this number, this node, this name, and a value with this type code,
/// number and bytes. Appends the name and the bytes. The only error is `OutOfMemory`.
fn encode_parts(
    bytes: &mut Vec<u8>,
    kind: u32,
    node: u64,
    name: &[u8],
    value: (u32, u64, &[u8]),
) -> Result<Operation, Fault>
    ensures more { IfOk result (λ o. bytes.new.items ≡ bytes.old.items
        ++ both_parts o bytes.new.items) }
    ensures within { IfOk result (λ o. ArePartsWithin o (length bytes.new.items)) }
    ensures numbers { IfOk result (λ o. (o.kind ≡ kind) × (o.node ≡ node)
        × (o.code ≡ value.entry.0) × (o.number ≡ value.entry.1)) }
    ensures name { IfOk result (λ o. part bytes.new.items o.name_at o.name_length ≡ name.now) }
    ensures value { IfOk result (λ o. part bytes.new.items o.value_at o.value_length
        ≡ value.entry.2.now) }
    ensures err { IfErr result (λ e. e ≡ Refused OutOfMemory) }
{
    let (code, number, data) = value;
    let (name_at, name_length) = append(bytes, name)?;
    let (value_at, value_length) = append(bytes, data)?;
    Ok(Operation {
        kind,
        code,
        node,
        number,
        name_at,
        name_length,
        value_at,
        value_length,
    })
}

/// Encodes the operation that sets an attribute of a node, and appends its name and value to the
/// bytes. The only error is `OutOfMemory`.
fn encode_attribute(
    bytes: &mut Vec<u8>,
    node: u64,
    name: &Name,
    value: &Value,
) -> Result<Operation, Fault>
    ensures more { IfOk result (λ o. bytes.new.items ≡ bytes.old.items
        ++ both_parts o bytes.new.items) }
    ensures meant { IfOk result (λ o. ArePartsWithin o (length bytes.new.items)
        × IsMeantBy o bytes.new.items (sets node (name.now, value.now))) }
    ensures only { IfOk result (λ o. HasOnlyParts o bytes.new.items
        (sets node (name.now, value.now))) }
    ensures err { IfErr result (λ e. e ≡ Refused OutOfMemory) }
{
    let name = name.as_str().as_bytes();
    encode_parts(bytes, 2, node, name, encoded(value))
}

/// Encodes the operation that creates an index, and appends its name to the bytes. The only error
/// is `OutOfMemory`.
fn encode_index(bytes: &mut Vec<u8>, name: &Name, kind: Kind) -> Result<Operation, Fault>
    ensures more { IfOk result (λ o. bytes.new.items ≡ bytes.old.items
        ++ both_parts o bytes.new.items) }
    ensures meant { IfOk result (λ o. ArePartsWithin o (length bytes.new.items)
        × IsMeantBy o bytes.new.items (makes (name.now, kind))) }
    ensures only { IfOk result (λ o. HasOnlyParts o bytes.new.items (makes (name.now, kind))) }
    ensures err { IfErr result (λ e. e ≡ Refused OutOfMemory) }
{
    let (name_at, name_length) = append(bytes, name.as_str().as_bytes())?;
    Ok(Operation {
        kind: 4,
        code: kind.code(),
        node: 0,
        number: 0,
        name_at,
        name_length,
        value_at: 0,
        value_length: 0,
    })
}

/// Encodes the attributes of a node as the operations that set them, in list order. The only error
/// is `OutOfMemory`.
pub fn encoded_attributes(
    alloc: Global,
    node: u64,
    list: &[(Name, Value)],
) -> Result<Encoding, Fault>
    ensures ok { IfOk result (λ s. AreEncoded s.operations.items s.bytes.items
        (map (sets node) list.now)) }
    ensures err { IfErr result (λ e. e ≡ Refused OutOfMemory) }
{
    let mut operations = Vec::new(alloc);
    let mut bytes = Vec::new(alloc);
    for (name, value) in list {
        let operation = encode_attribute(&mut bytes, node, name, value)?;
        operations.push(operation)?;
    }
    Ok(Encoding { operations, bytes })
}

/// Encodes indices as the operations that create them, in list order. The only error is
/// `OutOfMemory`.
pub fn encoded_indices(alloc: Global, list: &[(Name, Kind)]) -> Result<Encoding, Fault>
    ensures ok { IfOk result (λ s. AreEncoded s.operations.items s.bytes.items
        (map makes list.now)) }
    ensures err { IfErr result (λ e. e ≡ Refused OutOfMemory) }
{
    let mut operations = Vec::new(alloc);
    let mut bytes = Vec::new(alloc);
    for (name, kind) in list {
        let operation = encode_index(&mut bytes, name, *kind)?;
        operations.push(operation)?;
    }
    Ok(Encoding { operations, bytes })
}

/// Encodes an operation, and appends its name and value to the bytes. The only error is
/// `OutOfMemory`.
fn encode(bytes: &mut Vec<u8>, op: &Op) -> Result<Operation, Fault>
    ensures more { IfOk result (λ o. bytes.new.items ≡ bytes.old.items
        ++ both_parts o bytes.new.items) }
    ensures meant { IfOk result (λ o. ArePartsWithin o (length bytes.new.items)
        × IsMeantBy o bytes.new.items op.now) }
    ensures only { IfOk result (λ o. HasOnlyParts o bytes.new.items op.now) }
    ensures err { IfErr result (λ e. e ≡ Refused OutOfMemory) }
{
    let (kind, node, name, value) = encoded_operation(op);
    encode_parts(bytes, kind, node, name, value)
}

/// Encodes operations in list order. The only error is `OutOfMemory`.
pub fn encoded_operations(alloc: Global, list: &[Op]) -> Result<Encoding, Fault>
    ensures ok { IfOk result (λ s. AreEncoded s.operations.items s.bytes.items list.now) }
    ensures err { IfErr result (λ e. e ≡ Refused OutOfMemory) }
{
    let mut operations = Vec::new(alloc);
    let mut bytes = Vec::new(alloc);
    for op in list {
        let operation = encode(&mut bytes, op)?;
        operations.push(operation)?;
    }
    Ok(Encoding { operations, bytes })
}

/// Encodes an operation of an entry as `encode` does. If the operation created a node, its encoding
/// has the number of that node.
fn encode_done(bytes: &mut Vec<u8>, op: &Op, done: Option<&Done>) -> Result<Operation, Fault>
    ensures more { IfOk result (λ o. bytes.new.items ≡ bytes.old.items
        ++ both_parts o bytes.new.items) }
    ensures meant { IfOk result (λ o. ArePartsWithin o (length bytes.new.items)
        × IsMeantBy o bytes.new.items op.now) }
    ensures only { IfOk result (λ o. HasOnlyParts o bytes.new.items op.now) }
    ensures made { IfOk result (λ o. IfSome done.entry (λ d. ReportsNode o op.now d.now)) }
    ensures err { IfErr result (λ e. e ≡ Refused OutOfMemory) }
{
    let mut operation = encode(bytes, op)?;
    if let (Op::New, Some(Done::Node(node))) = (op, done) {
        operation.node = *node;
    }
    Ok(operation)
}

/// Encodes the operations of an entry in order. Each operation that created a node has the number
/// of that node. The only error is `OutOfMemory`.
pub fn encoded_entry(alloc: Global, ops: &[Op], dones: &[Done]) -> Result<Encoding, Fault>
    ensures ok { IfOk result (λ s. AreEncoded s.operations.items s.bytes.items ops.now) }
    ensures made { IfOk result (λ s. ReportNodes s.operations.items ops.now dones.now) }
    ensures err { IfErr result (λ e. e ≡ Refused OutOfMemory) }
{
    let mut operations = Vec::new(alloc);
    let mut bytes = Vec::new(alloc);
    for op in ops {
        let done = dones.get(operations.len());
        let operation = encode_done(&mut bytes, op, done)?;
        operations.push(operation)?;
    }
    Ok(Encoding { operations, bytes })
}
