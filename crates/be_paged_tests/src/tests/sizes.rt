//! The greatest sizes, in the plain volume and in the volume in pages. A list of 64 operations is
//! accepted. 64 attributes of a node and 32 indices are accepted and listed whole. One more
//! attribute or index is refused.
use be_paged_test_tools::Forms;
use be_test_tools::{again, numbered};
use be_value::{Kind, Refusal, Value};
use be_volume::Op;
use std::alloc::Global;
use std::test::Fail;

fn sized(number: u8) -> Result<Op, Refusal> {
    Ok(Op::Set(1, numbered(number)?, Value::int32(1)))
}

fn index(number: u8) -> Result<Op, Refusal> {
    Ok(Op::MkIndex(numbered(number)?, Kind::Long))
}

/// A list that makes a node with 63 attributes.
fn node_list(alloc: Global) -> Result<Vec<Op>, Refusal> {
    let mut ops = Vec::new(alloc);
    ops.push(Op::New)?;
    for number in 0..63u8 {
        ops.push(sized(number)?)?;
    }
    Ok(ops)
}

/// A list that makes 32 indices.
fn index_list(alloc: Global) -> Result<Vec<Op>, Refusal> {
    let mut ops = Vec::new(alloc);
    for number in 0..32u8 {
        ops.push(index(number)?)?;
    }
    Ok(ops)
}

/// Fails unless a write of one operation is accepted.
fn accepted(forms: &mut Forms, op: Result<Op, Refusal>) -> Result<(), Fail> {
    let op = op?;
    forms.accept(&[op])
}

/// Fails unless a write of one operation is refused with this error.
fn refused(forms: &mut Forms, op: Result<Op, Refusal>, refusal: Refusal) -> Result<(), Fail> {
    let op = op?;
    match forms.write(&[op])? {
        Err(other) if other == refusal => Ok(()),
        _ => Err(Fail::new("one more is taken, or refused otherwise")),
    }
}

/// Writes a list, which has to have `count` operations.
fn write_whole(forms: &mut Forms, ops: &[Op], count: usize) -> Result<(), Fail> {
    if ops.len() != count {
        return Err(Fail::new("another number of operations"));
    }
    forms.accept(ops)
}

/// Fails unless both forms list `count` attributes of node 1.
fn lists_attributes(alloc: Global, forms: &mut Forms, count: usize) -> Result<(), Fail> {
    if forms.attrs(alloc, 1)??.len() == count {
        return Ok(());
    }
    Err(Fail::new("another number of attributes"))
}

/// Fails unless both forms list `count` indices.
fn lists_indices(alloc: Global, forms: &mut Forms, count: usize) -> Result<(), Fail> {
    if forms.indices(alloc)?.len() == count {
        return Ok(());
    }
    Err(Fail::new("another number of indices"))
}

/// The list makes a node with 63 attributes. The node takes one more, and none after that.
fn fill_node(alloc: Global, forms: &mut Forms, ops: &[Op]) -> Result<(), Fail> {
    write_whole(forms, ops, 64)?;
    accepted(forms, sized(63))?;
    lists_attributes(alloc, forms, 64)?;
    refused(forms, sized(64), Refusal::TooManyAttrs)
}

/// The list makes 32 indices, and none can be made after that.
fn fill_catalog(alloc: Global, forms: &mut Forms, ops: &[Op]) -> Result<(), Fail> {
    write_whole(forms, ops, 32)?;
    lists_indices(alloc, forms, 32)?;
    refused(forms, index(32), Refusal::TooManyIndices)
}

#[test]
fn greatest_sizes(rt: HostRuntime) -> Result<(), Fail> {
    let ops = again!(node_list(rt.alloc()))?;
    fill_node(rt.alloc(), &mut Forms::new(rt.alloc(), 64)?, &ops)?;
    let ops = again!(index_list(rt.alloc()))?;
    fill_catalog(rt.alloc(), &mut Forms::new(rt.alloc(), 64)?, &ops)
}
