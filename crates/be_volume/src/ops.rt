//! A volume's operations, and their outcomes.
//!
//! A write is a batch of operations: either all of them are applied, or none. An operation holds
//! its name and value in place, so a list of operations can be copied without allocating memory.
ghost use Rattle.std.specs.Prelude.{◌≡◌};
ghost use Rattle.be_volume.specs.Sound.{IsOperation};

use be_value::{Kind, Name, Value, valid};
use std::alloc::AllocError;

/// One operation. It identifies nodes by their numbers.
#[derive(Debug, Drop, PartialEq, Eq, Hash)]
pub enum Op {
    /// Creates a node with the next number. Numbers begin at 1 and are never reused.
    New,
    /// Removes a node, its attributes, and its pairs in all indices. Error: NoNode.
    Drop(u64),
    /// Sets an attribute of a node, replacing any existing value. The old pair leaves the index of
    /// that name, and the new one enters it if the kinds agree. Errors: NoNode; TooManyAttrs if the
    /// name is new and the node already has 64 attributes.
    Set(u64, Name, Value),
    /// Removes an attribute of a node and its pair. Errors: NoNode, NoAttr.
    Unset(u64, Name),
    /// Creates an index, which is empty at first. Errors: IndexExists; TooManyIndices if there are
    /// already 32; NotIndexable for MIMS and RAWT.
    MkIndex(Name, Kind),
    /// Removes an index. If it is created again later, it is empty. Error: NoSuchIndex.
    RmIndex(Name),
}

/// The outcome of an accepted operation.
#[derive(Clone, Copy, Debug, Default, PartialEq, Eq, Hash)]
pub enum Done {
    /// The number of the new node.
    Node(u64),
    /// The outcome of every other operation.
    #[default]
    Unit,
}

impl Op {
    /// Returns a copy of the operation. It allocates no memory.
    pub fn copy(&self) -> Op
        ensures { result ≡ self.now }
    {
        match self {
            Op::New => Op::New,
            Op::Drop(node) => Op::Drop(*node),
            Op::Set(node, name, value) => Op::Set(*node, name.copy(), value.copy()),
            Op::Unset(node, name) => Op::Unset(*node, name.copy()),
            Op::MkIndex(name, kind) => Op::MkIndex(name.copy(), *kind),
            Op::RmIndex(name) => Op::RmIndex(name.copy()),
        }
    }

    /// States a law about the operation: its names and values are valid. A contract can't assume
    /// this of a borrowed operation. It does nothing else.
    pub fn valid(&self)
        ensures { IsOperation self.now }
    {
        match self {
            Op::New | Op::Drop(_) => {}
            Op::Set(_, name, value) => {
                let _name = name.as_str();
                valid(value);
            }
            Op::Unset(_, name) | Op::MkIndex(name, _) | Op::RmIndex(name) => {
                let _name = name.as_str();
            }
        }
    }
}

/// Returns a copy of the operation. It allocates no memory.
impl Clone for Op {
    ghost is_clone = { λ a b. b ≡ a };

    fn clone(&self) -> Result<Op, AllocError> {
        Ok(self.copy())
    }
}
