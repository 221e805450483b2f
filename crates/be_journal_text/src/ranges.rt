//! Borrowed numbers and operations are within the ranges of their types, a fact that a contract
//! can't derive on its own. Each function does nothing; its contract is the fact.
ghost use Rattle.std.specs.Prelude.{◌<◌, ◌^◌, All};
ghost use Rattle.be_journal_text.specs.History as history;

use be_value::Value;
use be_volume::Op;

/// Bytes are below 256.
fn are_bytes(bytes: &[u8])
    ensures { All (λ b. b < 2 ^ 8) bytes.now }
{
    for byte in bytes {
        let _byte = *byte;
    }
}

fn value_has_bytes(value: &Value)
    ensures { history.HasBytes value.now }
{
    match value {
        Value::Rawt(bytes) => are_bytes(bytes.as_slice()),
        Value::Cstr(_) | Value::Mims(_) => {}
        Value::Long(_) | Value::Llng(_) | Value::Ulng(_) | Value::Ullg(_) => {}
    }
}

/// The borrowed operation is one that the program can make.
fn op_can_be(op: &Op)
    ensures { history.CanBeOp op.now }
{
    op.valid();
    match op {
        Op::Drop(node) | Op::Unset(node, _) => {
            let _node = *node;
        }
        Op::Set(node, _, value) => {
            let _node = *node;
            value_has_bytes(value);
        }
        Op::New | Op::MkIndex(_, _) | Op::RmIndex(_) => {}
    }
}

/// The borrowed operations are ones that the program can make.
pub fn ops_can_be(ops: &[Op])
    ensures { All history.CanBeOp ops.now }
{
    for op in ops {
        op_can_be(op);
    }
}
