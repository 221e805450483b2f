//! A volume's contents, and how an accepted operation changes them.
//!
//! Refusals are found in advance, so an operation only does its work here. If memory runs out
//! midway, nothing is known about the resulting contents: the caller keeps an equal copy, or drops
//! the volume.
ghost use Rattle.std.specs.FinMap as map;
ghost use Rattle.std.specs.Prelude.{◌≡◌, ℕ, ◌<◌, ◌^◌, ◌+◌, IsOk, IfOk, Ok};
ghost use Rattle.be_volume.specs.Maps.{attributes_of};
ghost use Rattle.be_volume.specs.Volume as model;
ghost use Rattle.be_volume.specs.Volume.{step};
ghost use Rattle.be_volume.specs.declared.ops.Op.TheVariants as ops;

use crate::facts::Facts;
use crate::maps::{Attributes, Index, Indices, Nodes};
use crate::pairs::Pairs;
use crate::{Done, Op};
use be_value::{Kind, Name, Value};
use std::alloc::{AllocError, Global};
use std::marker::Model;

/// The contents of a volume, seen as its `State`.
#[derive(Drop)]
pub struct Contents {
    alloc: Global,
    next: u64,
    nodes: Nodes,
    indices: Indices,
}

impl Model for Contents {
    ghost use Rattle.be_volume.specs.Volume as model;

    ghost Value = { model.State };

    ghost coded = { model.coded_state };

    ghost view = { λ v. record { next = v.next; nodes = v.nodes; indices = v.indices } };
}

impl Contents {
    /// Creates empty contents, whose next node is 1.
    pub fn new(alloc: Global) -> Contents
        ensures { result ≡ model.empty }
    {
        Contents {
            alloc,
            next: 1,
            nodes: Nodes::new(alloc),
            indices: Indices::new(alloc),
        }
    }

    /// Returns the number of the next new node.
    pub fn next(&self) -> u64
        ensures { result ≡ self.now.next }
    {
        self.next
    }

    /// Returns the nodes, with their attributes.
    pub fn nodes(&self) -> &Nodes
        ensures { result.now ≡ self.now.nodes }
    {
        &self.nodes
    }

    /// Returns the indices, by name.
    pub fn indices(&self) -> &Indices
        ensures { result.now ≡ self.now.indices }
    {
        &self.indices
    }

    /// Returns a copy of the contents.
    pub fn copy(&self) -> Result<Contents, AllocError>
        ensures { IfOk result (λ copy. copy ≡ self.now) }
    {
        let nodes = self.nodes.clone()?;
        let indices = self.indices.clone()?;
        Ok(Contents {
            alloc: self.alloc,
            next: self.next,
            nodes,
            indices,
        })
    }

    /// Performs an operation that has been accepted. If memory runs out, nothing is known about the
    /// resulting contents.
    pub fn perform(&mut self, op: Op) -> Result<Done, AllocError>
        requires accepted { IsOk (step self.old op) }
        requires fits { self.old.next + 1 < 2 ^ 64 }
        ensures { IfOk result (λ done. step self.old op ≡ Ok (self.new, done)) }
    {
        match op {
            Op::New => self.add_node(),
            Op::Drop(node) => Ok(self.drop_node(node)),
            Op::Set(node, name, value) => self.set(node, name, value),
            Op::Unset(node, name) => Ok(self.unset(node, &name)),
            Op::MkIndex(name, kind) => self.make_index(name, kind),
            Op::RmIndex(name) => Ok(self.remove_index(&name)),
        }
    }

    fn add_node(&mut self) -> Result<Done, AllocError>
        requires { self.old.next + 1 < 2 ^ 64 }
        ensures { IfOk result (λ done. step self.old ops.New ≡ Ok (self.new, done)) }
    {
        let node = self.next;
        self.nodes.insert(node, Attributes::new(self.alloc))?;
        self.next = node + 1;
        Ok(Done::Node(node))
    }

    fn drop_node(&mut self, node: u64) -> Done
        requires { IsOk (step self.old (ops.Drop node)) }
        ensures { step self.old (ops.Drop node) ≡ Ok (self.new, result) }
    {
        self.nodes.remove(node);
        self.indices.unpair_all(node);
        Done::Unit
    }

    fn set(&mut self, node: u64, name: Name, value: Value) -> Result<Done, AllocError>
        requires { IsOk (step self.old (ops.Set node name value)) }
        ensures { IfOk result (λ done. step self.old (ops.Set node name value)
            ≡ Ok (self.new, done)) }
    {
        self.indices.pair(&name, node, value.copy())?;
        self.nodes.put(node, name, value)?;
        Ok(Done::Unit)
    }

    fn unset(&mut self, node: u64, name: &Name) -> Done
        requires { IsOk (step self.old (ops.Unset node name.now)) }
        ensures { step self.old (ops.Unset node name.now) ≡ Ok (self.new, result) }
    {
        self.nodes.take(node, name);
        self.indices.unpair(name, node);
        Done::Unit
    }

    fn make_index(&mut self, name: Name, kind: Kind) -> Result<Done, AllocError>
        requires { IsOk (step self.old (ops.MkIndex name kind)) }
        ensures { IfOk result (λ done. step self.old (ops.MkIndex name kind)
            ≡ Ok (self.new, done)) }
    {
        let pairs = Pairs::new(self.alloc);
        self.indices.insert(name, Index { kind, pairs })?;
        Ok(Done::Unit)
    }

    fn remove_index(&mut self, name: &Name) -> Done
        requires { IsOk (step self.old (ops.RmIndex name.now)) }
        ensures { step self.old (ops.RmIndex name.now) ≡ Ok (self.new, result) }
    {
        self.indices.remove(name);
        Done::Unit
    }
}

/// A reader of the facts of contents that don't change.
#[derive(Drop)]
pub struct Unchanged<'a> {
    pub contents: &'a Contents,
}

impl Facts for Unchanged<'_> {
    ghost use Rattle.std.specs.Prelude.{◌≡◌};
    ghost use Rattle.be_volume.specs.Volume.{State};

    ghost Kept = { State };

    ghost kept = { λ s. s.contents.now };

    ghost answers_for = { λ s volume. volume ≡ s.contents.now };

    fn next(&mut self) -> u64 {
        let contents = self.contents;
        contents.next
    }

    fn has_node(&mut self, node: u64) -> bool {
        let contents = self.contents;
        contents.nodes.get(node).is_some()
    }

    fn has_attribute(&mut self, node: u64, name: &Name) -> bool {
        let contents = self.contents;
        match contents.nodes.get(node) {
            Some(attributes) => attributes.get(name).is_some(),
            None => false,
        }
    }

    fn attribute_count(&mut self, node: u64) -> usize {
        let contents = self.contents;
        match contents.nodes.get(node) {
            Some(attributes) => attributes.len(),
            None => 0,
        }
    }

    fn has_index(&mut self, name: &Name) -> bool {
        let contents = self.contents;
        contents.indices.get(name).is_some()
    }

    fn index_count(&mut self) -> usize {
        let contents = self.contents;
        contents.indices.len()
    }
}
