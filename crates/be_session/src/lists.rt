//! Lists of operations as other languages encode them.
ghost use Rattle.std.specs.Prelude.{◌≡◌, ◌+◌, ◌<◌, ◌≤◌, IfOk, IfErr, IfSome, IfNone, length};
ghost use Rattle.be_session.specs.Operations.{AreMeant, ArePartsWithin, IsInvalid, IsInvalidAt};
ghost use Rattle.be_session.specs.Operations.{IsMeantBy, IsWriteCount, part};

use crate::meanings::operation;
use crate::{Fault, ListFault};
use be_store::Op;
use std::alloc::Global;

/// An operation as C encodes it. Its name and the bytes of its value are parts of one byte string
/// that is shared by all operations of a write.
#[repr(C)]
#[derive(Clone, Copy)]
pub struct Operation {
    /// 0 creates a node, 1 removes it, 2 sets an attribute, 3 removes it, 4 creates an index, and 5
    /// removes it.
    pub kind: u32,
    /// The type code of the value or the index.
    pub code: u32,
    pub node: u64,
    /// The value, if it is a number.
    pub number: u64,
    pub name_at: u32,
    pub name_length: u32,
    pub value_at: u32,
    pub value_length: u32,
}

/// Returns a part of the bytes, or `None` if it doesn't lie within them.
pub(crate) fn part(bytes: &[u8], at: u32, len: u32) -> Option<&[u8]>
    ensures some { IfSome result (λ found. (at + len ≤ length bytes.now)
        × (found.now ≡ part bytes.now at len)) }
    ensures none { IfNone result (length bytes.now < at + len) }
{
    let start = at as usize;
    let end = start + len as usize;
    if end > bytes.len() {
        return None;
    }
    Some(&bytes[start..end])
}

/// Decodes one operation. Returns `BadPart` if a part isn't within the bytes, and otherwise the
/// result of `operation`.
pub(crate) fn one(encoded: &Operation, bytes: &[u8]) -> Result<Op, Fault>
    ensures ok { IfOk result (λ op. ArePartsWithin encoded.now (length bytes.now)
        × IsMeantBy encoded.now bytes.now op) }
    ensures err { IfErr result (λ e. IsInvalidAt encoded.now bytes.now e) }
{
    let Some(name) = part(bytes, encoded.name_at, encoded.name_length) else {
        return Err(Fault::BadPart);
    };
    let Some(value) = part(bytes, encoded.value_at, encoded.value_length) else {
        return Err(Fault::BadPart);
    };
    operation(
        encoded.kind,
        encoded.node,
        name,
        encoded.code,
        encoded.number,
        value,
    )
}

/// Decodes a list of 1 to 64 operations in order. Returns `BadCount`, without allocating memory or
/// reading anything, if there are none or more than 64. Otherwise returns the error and the index
/// of the first invalid operation, or `OutOfMemory`.
pub fn operations(alloc: Global, encoded: &[Operation], bytes: &[u8]) -> Result<Vec<Op>, ListFault>
    ensures count { IfOk result (λ _. IsWriteCount (length encoded.now)) }
    ensures ok { IfOk result (λ ops. AreMeant encoded.now bytes.now ops.items) }
    ensures err { IfErr result (λ e. IsInvalid encoded.now bytes.now e.fault e.place) }
{
    if encoded.is_empty() || 64 < encoded.len() {
        return Err(ListFault {
            fault: Fault::BadCount,
            place: 0,
        });
    }
    let mut ops = Vec::with_capacity(alloc, encoded.len())?;
    for next in encoded {
        match one(next, bytes) {
            Ok(op) => ops.push_reserved(op),
            Err(fault) => {
                let place = ops.len() as u64;
                return Err(ListFault { fault, place });
            }
        }
    }
    Ok(ops)
}
