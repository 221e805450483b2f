//! The volume.
//!
//! A volume holds numbered nodes with typed attributes, and indices that are created and removed by
//! name. Both are like those of the Be File System (Giampaolo, "Practical File System Design"; the
//! Be Book, `fs_attr.h` and `fs_index.h`). One rule is this project's own choice: a new index is
//! empty, and takes only attributes set after it was created.
ghost use Rattle.std.specs.Option.{option_map};
ghost use Rattle.std.specs.Prelude.{◌≡◌, ◌<◌, ◌≤◌, ◌^◌, ◌+◌, IsOk, IfOk, IfErr, IfSome, Ok, length};
ghost use Rattle.std.specs.Prelude.{true};
ghost use Rattle.std.specs.Result.{result_err};
ghost use Rattle.be_value.specs.Refusal.{Answers};
ghost use Rattle.be_value.specs.declared.refusals.Refusal.TheVariants.{OutOfMemory};
ghost use Rattle.be_volume.specs.Keys.{IsKey, IsNextKey};
ghost use Rattle.be_volume.specs.Query.{scan};
ghost use Rattle.be_volume.specs.Reading.{attribute, attributes_at, index_kinds, index_kind};
ghost use Rattle.be_volume.specs.Sound.{IsSound};
ghost use Rattle.be_volume.specs.Volume as model;

use crate::contents::{Contents, Unchanged};
use crate::queries::{covers, satisfies};
use crate::{Done, Op, first_refusal};
use arrayvec::ArrayVec;
use be_query::Query;
use be_value::{Kind, Name, Refusal, Value};
use std::alloc::{AllocError, Global};
use std::marker::Model;
use std::mem;

/// A volume. Contracts see its `State`: the next number, the attributes of each node, and the
/// indices. Every volume is sound: each pair of an index is its node's attribute with that name,
/// and has the index's kind.
///
/// The contents are kept twice, so a volume takes twice the memory of what it holds. `apply` works
/// on one copy while the other remains, because what was removed from an ordered map can't be put
/// back without allocating memory.
#[derive(Drop)]
pub struct Volume {
    alloc: Global,
    contents: Contents,
    /// A copy of the contents, or `None` if it has yet to be made.
    shadow: Option<Contents>,
}

impl Model for Volume {
    ghost use Rattle.std.specs.Prelude.{◌≡◌, IfSome};
    ghost use Rattle.be_volume.specs.Sound.{IsSound};
    ghost use Rattle.be_volume.specs.Volume as model;

    ghost Value = { model.State };

    ghost coded = { model.coded_state };

    ghost view = { λ v. v.contents };

    ghost invariant = { λ v. IsSound v.contents × IfSome v.shadow (λ shadow. shadow ≡ v.contents) };
}

impl Volume {
    /// Creates a volume as it is before any operation: it has no nodes and no indices, and its
    /// first node will be 1.
    pub fn new(alloc: Global) -> Volume
        ensures { result ≡ model.empty }
    {
        Volume {
            alloc,
            contents: Contents::new(alloc),
            shadow: Some(Contents::new(alloc)),
        }
    }

    /// States a law about the volume: it is sound. A contract can't assume this of a borrowed
    /// volume. It does nothing else.
    pub fn sound(&self)
        ensures { IsSound self.now }
    {
        let _next = self.contents.next();
    }

    /// Returns the number of the next new node.
    pub fn next(&self) -> u64
        ensures { result ≡ self.now.next }
    {
        self.contents.next()
    }

    /// Returns a copy of the volume, at the cost of everything that it holds. The only error is
    /// OutOfMemory. The first `apply` on the copy costs the same again.
    pub fn copy(&self) -> Result<Volume, Refusal>
        ensures { Answers (λ copy. copy) result (Ok self.now) }
    {
        let contents = self.contents.copy()?;
        Ok(Volume {
            alloc: self.alloc,
            contents,
            shadow: None,
        })
    }

    /// Returns the error, from NoNode to NotIndexable, that `apply` would return for these
    /// operations, if any. It allocates no memory.
    pub fn refusal(&self, ops: &[Op]) -> Option<Refusal>
        requires few { length ops.now ≤ 64 }
        requires fits { self.now.next + 64 < 2 ^ 64 }
        ensures { result ≡ result_err (model.steps self.now ops.now) }
    {
        let mut facts = Unchanged {
            contents: &self.contents,
        };
        first_refusal(&mut facts, ops)
    }

    /// Applies 1 to 64 operations one after another, either all or none, and returns their
    /// outcomes. The error is that of the first operation that is refused. It is NoNode if the node
    /// doesn't exist, and NoAttr if it lacks the attribute. It is TooManyAttrs if a new name would
    /// be the node's 65th. It is IndexExists if the index exists, and NoSuchIndex if it doesn't. It
    /// is TooManyIndices if the index would be the 33rd, and NotIndexable if the kind can't be
    /// indexed. All this is found before any memory is allocated. If memory runs out, it fails with
    /// OutOfMemory. A refused list leaves the volume unchanged.
    ///
    /// The operations are performed on the shadow copy, which then replaces the contents. They are
    /// performed again on the old contents, which become the new shadow copy. So a call costs twice
    /// what it changes, though no clause says so. The whole volume is copied only if there is no
    /// shadow copy: on the first call after OutOfMemory, after a `replay`, and on a new copy.
    pub fn apply(&mut self, ops: &[Op]) -> Result<ArrayVec<Done, 64>, Refusal>
        requires some { 1 ≤ length ops.now }
        requires few { length ops.now ≤ 64 }
        requires fits { self.old.next + 64 < 2 ^ 64 }
        ensures writes { model.Writes (λ dones. dones.items) self.old ops.now result self.new }
        ensures grows { self.new.next ≤ self.old.next + 64 }
    {
        if let Some(refusal) = self.refusal(ops) {
            return Err(refusal);
        }
        let mut ahead = shadow_of(&self.contents, self.shadow.take())?;
        let dones = perform_all(&mut ahead, ops)?;
        let mut earlier = mem::replace(&mut self.contents, ahead);
        if perform_all(&mut earlier, ops).is_ok() {
            self.shadow = Some(earlier);
        }
        Ok(dones)
    }

    /// Applies operations as `apply` does, and returns the volume with the result, which is never
    /// OutOfMemory. Nothing is kept twice: if memory runs out, the volume is lost. So replaying a
    /// journal costs what its entries change, and no memory beyond the volume's own.
    pub fn replay(
        self,
        ops: &[Op],
    ) -> Result<(Volume, Result<ArrayVec<Done, 64>, Refusal>), AllocError>
        requires some { 1 ≤ length ops.now }
        requires few { length ops.now ≤ 64 }
        requires fits { self.next + 64 < 2 ^ 64 }
        ensures replays { IfOk result (λ r. model.Replays (λ dones. dones.items) self ops.now r.1
            r.0) }
        ensures grows { IfOk result (λ r. r.0.next ≤ self.next + 64) }
    {
        if let Some(refusal) = self.refusal(ops) {
            return Ok((self, Err(refusal)));
        }
        let Volume {
            alloc,
            contents: mut own,
            shadow: _,
        } = self;
        let dones = perform_all(&mut own, ops)?;
        let volume = Volume {
            alloc,
            contents: own,
            shadow: None,
        };
        Ok((volume, Ok(dones)))
    }

    /// Returns an attribute's value, if the node exists and has the attribute.
    pub fn get(&self, node: u64, name: &Name) -> Option<Value>
        ensures { result ≡ attribute self.now node name.now }
    {
        Some(self.contents.nodes().get(node)?.get(name)?.copy())
    }

    /// Returns a node's attributes, in ascending byte order of their names. Fails with NoNode if
    /// the node doesn't exist, and with OutOfMemory only if it does.
    pub fn attrs(&self, node: u64) -> Result<Vec<(Name, Value)>, Refusal>
        ensures list { Answers (λ list. list.items) result (attributes_at self.now node) }
        ensures wanted { IfErr result (λ e. e ≡ OutOfMemory → IsOk (attributes_at self.now node)) }
    {
        let Some(attributes) = self.contents.nodes().get(node) else {
            return Err(Refusal::NoNode);
        };
        Ok(attributes.list(self.alloc)?)
    }

    /// Returns the names and kinds of the indices, in ascending byte order of the names. The only
    /// error is OutOfMemory.
    pub fn indices(&self) -> Result<Vec<(Name, Kind)>, Refusal>
        ensures { Answers (λ list. list.items) result (Ok (index_kinds self.now)) }
    {
        Ok(self.contents.indices().kinds(self.alloc)?)
    }

    /// Returns the kind of the index with this name, if there is one.
    pub fn kind_of(&self, name: &Name) -> Option<Kind>
        ensures { result ≡ index_kind self.now name.now }
    {
        Some(self.contents.indices().get(name)?.kind)
    }

    /// Returns the lowest key at or after `from` in the index with this name, or, if `after` is
    /// set, strictly after it. It costs one tree search.
    pub fn next_key(&self, name: &Name, from: &[u8], after: bool) -> Option<ArrayVec<u8, 264>>
        ensures { IsNextKey self.now name.now from.now after (option_map (λ k. k.items) result) }
    {
        let index = self.contents.indices().get(name)?;
        index.pairs.next_key(from, after)
    }

    /// Returns `true` if the index with this name has the key.
    pub fn has_key(&self, name: &Name, key: &[u8]) -> bool
        ensures found { result ≡ true → IsKey self.now name.now key.now }
        ensures finds { IsKey self.now name.now key.now → result ≡ true }
    {
        let Some(index) = self.contents.indices().get(name) else {
            return false;
        };
        index.pairs.has_key(key)
    }

    /// Returns the nodes that satisfy the query, in ascending order. Fails with NotCovered if
    /// indices don't cover the query, and with OutOfMemory if memory runs out for the result. It
    /// reads every node.
    pub fn query(&self, query: &Query) -> Result<Vec<u64>, Refusal>
        ensures { Answers (λ nodes. nodes.items) result (scan self.now query.now) }
    {
        if !covers(&self.contents, query.tree()) {
            return Err(Refusal::NotCovered);
        }
        let mut found = Vec::new(self.alloc);
        for node in &self.contents.nodes().numbers(self.alloc)? {
            if satisfies(&self.contents, query.tree(), *node) {
                found.push(*node)?;
            }
        }
        Ok(found)
    }
}

/// Returns the shadow copy of these contents, or a new copy if there is none.
fn shadow_of(contents: &Contents, shadow: Option<Contents>) -> Result<Contents, AllocError>
    requires { IfSome shadow (λ shadow. shadow ≡ contents.now) }
    ensures { IfOk result (λ shadow. shadow ≡ contents.now) }
{
    match shadow {
        Some(shadow) => Ok(shadow),
        None => contents.copy(),
    }
}

/// Performs operations that have been accepted. If memory runs out, nothing is known about the
/// resulting contents.
fn perform_all(contents: &mut Contents, ops: &[Op]) -> Result<ArrayVec<Done, 64>, AllocError>
    requires few { length ops.now ≤ 64 }
    requires sound { IsSound contents.old }
    requires accepted { IsOk (model.steps contents.old ops.now) }
    requires fits { contents.old.next + 64 < 2 ^ 64 }
    ensures steps { IfOk result (λ dones. model.steps contents.old ops.now
        ≡ Ok (contents.new, dones.items)) }
    ensures sound { IfOk result (λ _. IsSound contents.new) }
    ensures grows { IfOk result (λ _. contents.new.next ≤ contents.old.next + 64) }
{
    let mut dones = ArrayVec::new();
    for op in ops {
        op.valid();
        dones.push(contents.perform(op.copy())?);
    }
    Ok(dones)
}
