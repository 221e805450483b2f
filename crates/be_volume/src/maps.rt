//! A volume's maps, each seen as a finite map.
//!
//! Each call of a wrapper has one exact clause, so nothing above this file mentions the trees that
//! hold the maps.
ghost use Rattle.std.specs.BTreeMap as tree;
ghost use Rattle.std.specs.FinMap as map;
ghost use Rattle.std.specs.Option.{option_copied};
ghost use Rattle.std.specs.Ordering.{nat_cmp};
ghost use Rattle.std.specs.Prelude.{map as each};
ghost use Rattle.std.specs.Prelude.{◌≡◌, IsSome, IsOk, IfOk, OnOk, OnErr, IsTrue};
ghost use Rattle.be_volume.specs.Maps.{attributes_of, with_attribute, name_cmp};

use crate::each::unpair_each;
use crate::pairs::Pairs;
use be_value::{Kind, Name, Value};
use std::alloc::{AllocError, Global};
use std::collections::BTreeMap;
use std::marker::Model;

/// A map from names to values of one type.
#[derive(Drop)]
pub struct Named<V> {
    named: BTreeMap<Name, V>,
}

impl<V> Model for Named<V> {
    ghost use Rattle.std.specs.Coded.{coded_ℕ, coded_list};
    ghost use Rattle.std.specs.FinMap as map;
    ghost use Rattle.be_volume.specs.Maps.{name_cmp};

    ghost Value = { map.FinMap name_cmp V };

    ghost coded = { map.code (coded_list coded_ℕ) V.code };

    ghost view = { λ m. map.from_entries m.named.entries };
}

impl<V: Drop> Named<V> {
    /// Creates a map without names.
    pub fn new(alloc: Global) -> Named<V>
        ensures { result ≡ map.empty }
    {
        Named {
            named: BTreeMap::new(alloc),
        }
    }

    /// Returns the number of names.
    pub fn len(&self) -> usize
        ensures { result ≡ map.len self.now }
    {
        self.named.len()
    }

    /// Returns the value at a name, if the map has the name.
    pub fn get(&self, name: &Name) -> Option<&V>
        ensures { option_copied result ≡ map.get self.now name.now }
    {
        self.named.get(name)
    }

    /// Sets the value at a name. Returns `AllocError` if memory runs out.
    pub fn insert(&mut self, name: Name, value: V) -> Result<(), AllocError>
        ensures { OnOk result (self.new ≡ map.insert self.old name value) }
    {
        self.named.insert(name, value)?;
        Ok(())
    }

    /// Removes a name, if the map has it.
    pub fn remove(&mut self, name: &Name)
        ensures { self.new ≡ map.remove self.old name.now }
    {
        self.named.remove(name);
    }
}

/// A node's attributes.
pub type Attributes = Named<Value>;

impl Named<Value> {
    /// Lists the attributes in ascending order of their names.
    pub fn list(&self, alloc: Global) -> Result<Vec<(Name, Value)>, AllocError>
        ensures { IfOk result (λ list. list.items ≡ map.entries self.now) }
    {
        attributes_in(alloc, &self.named)
    }
}

fn attributes_in(
    alloc: Global,
    values: &BTreeMap<Name, Value>,
) -> Result<Vec<(Name, Value)>, AllocError>
    ensures list { IfOk result (λ list. list.items ≡ each (λ e. (e.0, e.1)) values.now.entries) }
    ensures ordered { tree.IsOrdered name_cmp values.now }
{
    values
        .iter()
        .map(|(name, value)| (name.copy(), value.copy()))
        .collect(alloc)
}

/// A volume's nodes, by number.
#[derive(Drop)]
pub struct Nodes {
    nodes: BTreeMap<u64, Attributes>,
}

impl Model for Nodes {
    ghost use Rattle.std.specs.FinMap as map;
    ghost use Rattle.be_volume.specs.Maps as maps;

    ghost Value = { maps.Nodes };

    ghost coded = { maps.coded_nodes };

    ghost view = { λ n. map.from_entries n.nodes.entries };
}

fn numbers_of(alloc: Global, nodes: &BTreeMap<u64, Attributes>) -> Result<Vec<u64>, AllocError>
    ensures numbers { IfOk result (λ numbers. numbers.items ≡ tree.keys nodes.now) }
    ensures ordered { tree.IsOrdered nat_cmp nodes.now }
{
    nodes.keys().copied().collect(alloc)
}

impl Nodes {
    /// Creates a map without nodes.
    pub fn new(alloc: Global) -> Nodes
        ensures { result ≡ map.empty }
    {
        Nodes {
            nodes: BTreeMap::new(alloc),
        }
    }

    /// Returns a node's attributes, if the node exists.
    pub fn get(&self, node: u64) -> Option<&Attributes>
        ensures { option_copied result ≡ map.get self.now node }
    {
        self.nodes.get(&node)
    }

    /// Returns the numbers of the nodes, in ascending order.
    pub fn numbers(&self, alloc: Global) -> Result<Vec<u64>, AllocError>
        ensures { IfOk result (λ numbers. numbers.items ≡ map.keys self.now) }
    {
        numbers_of(alloc, &self.nodes)
    }

    /// Sets all of a node's attributes. Returns `AllocError` if memory runs out.
    pub fn insert(&mut self, node: u64, attributes: Attributes) -> Result<(), AllocError>
        ensures { OnOk result (self.new ≡ map.insert self.old node attributes) }
    {
        self.nodes.insert(node, attributes)?;
        Ok(())
    }

    /// Removes a node with its attributes, if the node exists.
    pub fn remove(&mut self, node: u64)
        ensures { self.new ≡ map.remove self.old node }
    {
        self.nodes.remove(&node);
    }

    /// Sets an attribute of an existing node.
    pub fn put(&mut self, node: u64, name: Name, value: Value) -> Result<(), AllocError>
        requires { IsSome (map.get self.old node) }
        ensures { OnOk result (self.new ≡ with_attribute self.old node name value) }
    {
        match self.nodes.get_mut(&node) {
            Some(attributes) => attributes.insert(name, value),
            None => unreachable!(),
        }
    }

    /// Removes an attribute of an existing node.
    pub fn take(&mut self, node: u64, name: &Name)
        requires { IsSome (map.get self.old node) }
        ensures { self.new ≡ map.insert self.old node
            (map.remove (attributes_of self.old node) name.now) }
    {
        match self.nodes.get_mut(&node) {
            Some(attributes) => {
                attributes.remove(name);
            }
            None => unreachable!(),
        }
    }
}

/// An index: its kind and its pairs.
#[derive(Drop)]
pub struct Index {
    pub kind: Kind,
    pub pairs: Pairs,
}

fn kinds_in(alloc: Global, indices: &BTreeMap<Name, Index>) -> Result<Vec<(Name, Kind)>, AllocError>
    ensures list { IfOk result (λ list. list.items
        ≡ each (λ e. (e.0, e.1.kind)) indices.now.entries) }
    ensures ordered { tree.IsOrdered name_cmp indices.now }
{
    indices
        .iter()
        .map(|(name, index)| (name.copy(), index.kind))
        .collect(alloc)
}

/// A volume's indices, by name.
pub type Indices = Named<Index>;

impl Named<Index> {
    ghost use Rattle.std.specs.FinMap as map;
    ghost use Rattle.std.specs.Prelude.{map as each};
    ghost use Rattle.std.specs.Prelude.{◌≡◌, IfOk, OnOk};
    ghost use Rattle.be_volume.specs.Indices.{with_pair, without_pair, without_node};

    /// Returns the names and kinds of the indices, in ascending order of the names.
    pub fn kinds(&self, alloc: Global) -> Result<Vec<(Name, Kind)>, AllocError>
        ensures { IfOk result (λ list. list.items
            ≡ each (λ e. (e.0, e.1.kind)) (map.entries self.now)) }
    {
        kinds_in(alloc, &self.named)
    }

    /// Removes a node's pair from the index with this name, after the node has lost its value
    /// there.
    pub fn unpair(&mut self, name: &Name, node: u64)
        ensures { self.new ≡ without_pair self.old name.now node }
    {
        let Some(index) = self.named.get_mut(name) else {
            return;
        };
        index.pairs.remove(node);
    }

    /// Removes a node's pair from every index when the node is dropped.
    pub fn unpair_all(&mut self, node: u64)
        ensures { self.new ≡ without_node self.old node }
    {
        unpair_each(&mut self.named, node);
    }

    /// Updates the index with this name after the node was given this value there: removes the
    /// node's old pair, and adds the new one if the kinds agree.
    pub fn pair(&mut self, name: &Name, node: u64, value: Value) -> Result<(), AllocError>
        ensures { OnOk result (self.new ≡ with_pair self.old name.now node value) }
    {
        let Some(index) = self.named.get_mut(name) else {
            return Ok(());
        };
        index.pair(node, value)
    }
}

impl Index {
    ghost use Rattle.std.specs.Prelude.{◌≡◌, OnOk, OnErr};
    ghost use Rattle.be_volume.specs.Indices.{paired};

    fn pair(&mut self, node: u64, value: Value) -> Result<(), AllocError>
        ensures { OnOk result (self.new ≡ paired self.old node value) }
    {
        if self.kind.code() == value.kind().code() {
            self.pairs.insert(node, value)
        } else {
            self.pairs.remove(node);
            Ok(())
        }
    }
}

impl Clone for Named<Value> {
    ghost is_clone = { λ a b. b ≡ a };

    fn clone(&self) -> Result<Named<Value>, AllocError> {
        let named = self.named.clone()?;
        Ok(Named { named })
    }
}

impl Clone for Nodes {
    ghost is_clone = { λ a b. b ≡ a };

    fn clone(&self) -> Result<Nodes, AllocError> {
        let nodes = self.nodes.clone()?;
        Ok(Nodes { nodes })
    }
}

impl Clone for Index {
    ghost is_clone = { λ a b. b ≡ a };

    fn clone(&self) -> Result<Index, AllocError> {
        let pairs = self.pairs.clone()?;
        let kind = self.kind;
        Ok(Index { kind, pairs })
    }
}

impl Clone for Named<Index> {
    ghost is_clone = { λ a b. b ≡ a };

    fn clone(&self) -> Result<Named<Index>, AllocError> {
        let named = self.named.clone()?;
        Ok(Named { named })
    }
}
