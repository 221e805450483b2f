//! The tree of a query: comparisons under `&&` and `||`.
//!
//! It never contains a `!`, because the complement of a tree is also a tree.
ghost use Rattle.std.specs.Prelude.{◌≡◌, ◌<◌, true, false, IfOk};
ghost use Rattle.be_query.specs.Grammar.{And, complement, opposite};
ghost use Rattle.be_query.specs.Turning.{rounds, IsLeaf, BeginsWithLeaf};
ghost use Rattle.be_query.specs.View.{formula};

use be_pattern::Pattern;
use be_value::Name;
use std::alloc::{AllocError, Global};
use std::mem;

/// The operator of a comparison.
#[derive(Clone, Copy, Debug, PartialEq, Eq)]
pub enum Cmp {
    Eq,
    Ne,
    Lt,
    Le,
    Gt,
    Ge,
}

/// What an attribute is compared with.
#[derive(Debug, Drop)]
pub enum Literal {
    /// For `==` and `!=`.
    Pattern(Pattern),
    /// For the order operators.
    Text(String),
}

/// A comparison of an attribute with a literal.
#[derive(Debug, Drop)]
pub struct Comparison {
    pub name: Name,
    pub op: Cmp,
    pub literal: Literal,
}

/// Comparisons under `&&` and `||`. A tree is dropped in a loop, which never recurses, however deep
/// the tree is.
#[derive(Debug)]
pub enum Tree {
    Leaf(Comparison),
    And(Box<Tree>, Box<Tree>),
    Or(Box<Tree>, Box<Tree>),
}

impl Cmp {
    /// Returns the operator that is true if and only if this one is false.
    pub fn opposite(self) -> Cmp
        ensures { result ≡ opposite self }
    {
        match self {
            Cmp::Eq => Cmp::Ne,
            Cmp::Ne => Cmp::Eq,
            Cmp::Lt => Cmp::Ge,
            Cmp::Ge => Cmp::Lt,
            Cmp::Gt => Cmp::Le,
            Cmp::Le => Cmp::Gt,
        }
    }
}

impl Drop for Tree {
    /// Rotates the inner nodes on the left to the right, one at a time, and drops each comparison
    /// that becomes a left side. This takes at most two rounds per inner node.
    fn drop(mut self) {
        'joints: loop {
            if turn(&mut self) {
                continue 'joints;
            }
            match self {
                Tree::Leaf(_) => return,
                Tree::And(left, right) => {
                    Box::into_inner(left).end();
                    self = Box::into_inner(right);
                }
                Tree::Or(left, right) => {
                    Box::into_inner(left).end();
                    self = Box::into_inner(right);
                }
            }
        }
    }
}

/// If the left side of an inner node is itself an inner node, rotates it to the right side, and
/// returns `true`. The comparisons keep their order, but the inner nodes no longer join the same
/// trees.
fn turn(tree: &mut Tree) -> bool
    ensures turned { result ≡ true → rounds (formula tree.new) < rounds (formula tree.old) }
    ensures kept { result ≡ false → formula tree.new ≡ formula tree.old }
    ensures leaf { result ≡ false → BeginsWithLeaf (formula tree.new) }
{
    match tree {
        Tree::Leaf(_) => false,
        Tree::And(left, right) => turn_sides(left, right),
        Tree::Or(left, right) => turn_sides(left, right),
    }
}

/// Does what `turn` does, given the two sides of an inner node.
fn turn_sides(left: &mut Box<Tree>, right: &mut Box<Tree>) -> bool
    ensures turned { result ≡ true → rounds (And (formula left.new.value) (formula right.new.value))
        < rounds (And (formula left.old.value) (formula right.old.value)) }
    ensures kept { result ≡ false → (formula left.new.value ≡ formula left.old.value)
        × (formula right.new.value ≡ formula right.old.value) }
    ensures leaf { result ≡ false → IsLeaf (formula left.new.value) }
{
    let turns = match &mut **left {
        Tree::Leaf(_) => false,
        Tree::And(first, second) => {
            mem::swap(first, second);
            mem::swap(second, right);
            true
        }
        Tree::Or(first, second) => {
            mem::swap(first, second);
            mem::swap(second, right);
            true
        }
    };
    if turns {
        mem::swap(left, right);
    }
    turns
}

impl Tree {
    ghost use Rattle.be_query.specs.Building.{conjunction};

    /// Joins two sides by `||` or `&&`.
    pub(crate) fn joined(either: bool, left: Box<Tree>, right: Box<Tree>) -> Tree
        ensures { formula result ≡ conjunction either (formula left.value) (formula right.value) }
    {
        if either {
            Tree::Or(left, right)
        } else {
            Tree::And(left, right)
        }
    }

    /// Drops a comparison.
    fn end(self)
        requires { IsLeaf (formula self) }
    {
        match self {
            Tree::Leaf(_) => {}
            Tree::And(_left, _right) | Tree::Or(_left, _right) => unreachable!(),
        }
    }

    /// Returns the tree that is true if and only if this one is false. It recurses on the inner
    /// nodes of the tree, of which `from_rpn` allows at most 255, and rebuilds each of them.
    pub(crate) fn complement(self, alloc: Global) -> Result<Tree, AllocError>
        ensures { IfOk result (λ t. formula t ≡ complement (formula self)) }
    {
        match self {
            Tree::Leaf(comparison) => {
                let Comparison { name, op, literal } = comparison;
                let op = op.opposite();
                Ok(Tree::Leaf(Comparison { name, op, literal }))
            }
            Tree::And(left, right) => {
                let left = Box::into_inner(left).complement(alloc)?;
                let right = Box::into_inner(right).complement(alloc)?;
                Ok(Tree::Or(Box::new(alloc, left)?, Box::new(alloc, right)?))
            }
            Tree::Or(left, right) => {
                let left = Box::into_inner(left).complement(alloc)?;
                let right = Box::into_inner(right).complement(alloc)?;
                Ok(Tree::And(Box::new(alloc, left)?, Box::new(alloc, right)?))
            }
        }
    }
}
