//! Borrowed numbers and operations are within the ranges of their types, a fact that a contract
//! can't derive on its own. Each function does nothing; its contract is the fact.
ghost use Rattle.std.specs.Prelude.{◌<◌, ◌^◌, All};
ghost use Rattle.be_entry_bytes.specs.Encoding as spec;

use be_volume::{Done, Op};

fn op_can_be(op: &Op)
    ensures { spec.CanBeOp op.now }
{
    op.valid();
    match op {
        Op::Drop(node) | Op::Set(node, _, _) | Op::Unset(node, _) => {
            let _node = *node;
        }
        Op::New | Op::MkIndex(_, _) | Op::RmIndex(_) => {}
    }
}

/// Each operation is one that the program can make.
pub(crate) fn ops_can_be(ops: &[Op])
    ensures { All spec.CanBeOp ops.now }
{
    for op in ops {
        op_can_be(op);
    }
}

fn done_can_be(done: &Done)
    ensures { spec.CanBeDone done.now }
{
    match done {
        Done::Node(node) => {
            let _node = *node;
        }
        Done::Unit => {}
    }
}

/// Each outcome is one that the program can make.
pub fn outcomes_can_be(dones: &[Done])
    ensures { All spec.CanBeDone dones.now }
{
    for done in dones {
        done_can_be(done);
    }
}
