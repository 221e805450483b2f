//! Returns lists in the form of the operations that would create them.
ghost use Rattle.std.specs.Prelude.{◌≡◌, ◌⊎◌, ℕ, List, IfOk, IfErr, length};
ghost use Rattle.bestore_c.specs.Imports.{makes, sets, AnyKind, AnyOp, AnyOption, AnyRefusal};
ghost use Rattle.bestore_c.specs.Imports.{AnyResult, AnyValue, AreEncoded, AtPin, OutOfMemory};
ghost use Rattle.bestore_c.specs.Imports.{ReadAnswers, Refused};
ghost use Rattle.bestore_c.specs.Calls.{IsPutOut, Listed};
ghost use Rattle.bestore_c.specs.Places.{over};

use crate::handle::Counts;
use crate::places::put;
use be_session::{Encoding, Fault, Operation, encoded_attributes, encoded_indices};
use be_store::{Kind, Name, Value};
use std::alloc::Global;

/// Writes how many operations and bytes an encoding has, and as many of the operations and bytes as
/// fit.
pub(crate) fn put_encoding(
    encoding: &Encoding,
    counts: &mut Counts,
    operations: &mut [Operation],
    bytes: &mut [u8],
)
    ensures operations { (counts.new.operations ≡ length encoding.now.operations.items)
        × (operations.new ≡ over encoding.now.operations.items operations.old) }
    ensures bytes { (counts.new.bytes ≡ length encoding.now.bytes.items)
        × (bytes.new ≡ over encoding.now.bytes.items bytes.old) }
{
    *counts = Counts {
        operations: encoding.operations.len() as u64,
        bytes: encoding.bytes.len() as u64,
    };
    put(operations, encoding.operations.as_slice());
    put(bytes, encoding.bytes.as_slice());
}

/// Writes encoded operations, as far as there is room.
pub(crate) fn put_encoded(
    encoded: Result<Encoding, Fault>,
    counts: &mut Counts,
    operations: &mut [Operation],
    bytes: &mut [u8],
) -> u32
    ensures listed { (ops : List AnyOp)
        → IfOk encoded (λ s. AreEncoded s.operations.items s.bytes.items ops)
        → IfErr encoded (λ e. e ≡ Refused OutOfMemory)
        → IsPutOut ops counts.new operations.old operations.new bytes.old bytes.new result }
    ensures kept { (result ≡ 0) ⊎ ((counts.new ≡ counts.old) × (operations.new ≡ operations.old)
        × (bytes.new ≡ bytes.old)) }
{
    match encoded {
        Ok(encoding) => {
            put_encoding(&encoding, counts, operations, bytes);
            0
        }
        Err(fault) => fault.code(),
    }
}

/// Writes the attributes of a node, as far as there is room. What this means for the version
/// follows from the session's own contract.
pub(crate) fn report_attributes(
    alloc: Global,
    node: u64,
    answer: Result<Vec<(Name, Value)>, Fault>,
    counts: &mut Counts,
    operations: &mut [Operation],
    bytes: &mut [u8],
) -> u32
    ensures listed { (pin : AnyOption ℕ) (meant : AnyResult (List (List ℕ × AnyValue)) AnyRefusal)
        → AtPin pin answer (ReadAnswers (λ list. list.items) answer meant)
        → Listed (sets node) pin meant counts.new operations.old operations.new bytes.old bytes.new
        result }
    ensures kept { (result ≡ 0) ⊎ ((counts.new ≡ counts.old) × (operations.new ≡ operations.old)
        × (bytes.new ≡ bytes.old)) }
{
    match answer {
        Ok(list) => {
            let encoded = encoded_attributes(alloc, node, list.as_slice());
            put_encoded(encoded, counts, operations, bytes)
        }
        Err(fault) => fault.code(),
    }
}

/// Writes the indices, as far as there is room.
pub(crate) fn report_indices(
    alloc: Global,
    answer: Result<Vec<(Name, Kind)>, Fault>,
    counts: &mut Counts,
    operations: &mut [Operation],
    bytes: &mut [u8],
) -> u32
    ensures listed { (pin : AnyOption ℕ) (meant : AnyResult (List (List ℕ × AnyKind)) AnyRefusal)
        → AtPin pin answer (ReadAnswers (λ list. list.items) answer meant)
        → Listed makes pin meant counts.new operations.old operations.new bytes.old bytes.new
        result }
    ensures kept { (result ≡ 0) ⊎ ((counts.new ≡ counts.old) × (operations.new ≡ operations.old)
        × (bytes.new ≡ bytes.old)) }
{
    match answer {
        Ok(list) => {
            let encoded = encoded_indices(alloc, list.as_slice());
            put_encoded(encoded, counts, operations, bytes)
        }
        Err(fault) => fault.code(),
    }
}
