//! An index's pairs (value, node).
//!
//! A node has at most one pair, so the pairs are kept by node, and contracts see them by node too.
//! In addition, the keys are kept in byte order. So a walk through the index finds each next key in
//! one search of a tree, and reads no other pair.
ghost use Rattle.std.specs.FinMap as map;
ghost use Rattle.std.specs.Option.{option_copied, option_map};
ghost use Rattle.std.specs.Prelude.{◌≡◌, OnOk, true};
ghost use Rattle.be_volume.specs.PairKeys.{IsKeyOf, IsNext};

use crate::keys::{IndexKey, start_of};
use arrayvec::ArrayVec;
use be_value::Value;
use std::alloc::{AllocError, Global};
use std::collections::{BTreeMap, BTreeSet};
use std::marker::Model;
use std::ops::Bound;

/// An index's pairs: the value of each node.
#[derive(Drop)]
pub struct Pairs {
    values: BTreeMap<u64, Value>,
    keys: BTreeSet<IndexKey>,
}

impl Model for Pairs {
    ghost use Rattle.std.specs.BTreeSet.{contains};
    ghost use Rattle.std.specs.FinMap as map;
    ghost use Rattle.std.specs.Ordering.{nat_cmp};
    ghost use Rattle.be_value.specs.declared.values.Value.{Value as AnyValue};
    ghost use Rattle.be_volume.specs.Maps as maps;
    ghost use Rattle.be_volume.specs.PairKeys.{AreKeysOf};

    ghost Value = { map.FinMap nat_cmp AnyValue };

    ghost coded = { maps.coded_pairs };

    ghost view = { λ p. map.from_entries p.values.entries };

    ghost invariant = { λ p. AreKeysOf (map.from_entries p.values.entries)
        (contains maps.name_cmp p.keys) };
}

impl Pairs {
    /// Creates an index without pairs.
    pub fn new(alloc: Global) -> Pairs
        ensures { result ≡ map.empty }
    {
        Pairs {
            values: BTreeMap::new(alloc),
            keys: BTreeSet::new(alloc),
        }
    }

    /// Returns the value in a node's pair, if the node has one.
    pub fn get(&self, node: u64) -> Option<&Value>
        ensures { option_copied result ≡ map.get self.now node }
    {
        self.values.get(&node)
    }

    /// Returns `true` if these bytes are the key of a pair.
    pub fn has_key(&self, bytes: &[u8]) -> bool
        ensures found { result ≡ true → IsKeyOf self.now bytes.now }
        ensures finds { IsKeyOf self.now bytes.now → result ≡ true }
    {
        bytes.len() <= 264 && self.keys.contains(&IndexKey::new(bytes))
    }

    /// Returns the lowest key at or after `from`, or, if `after` is set, strictly after it.
    pub fn next_key(&self, from: &[u8], after: bool) -> Option<ArrayVec<u8, 264>>
        ensures { IsNext (IsKeyOf self.now) from.now after (option_map (λ k. k.items) result) }
    {
        let start = start_of(from, after);
        let next = self.keys.range((start, Bound::Unbounded)).next()?;
        Some(next.to_bytes())
    }

    /// Sets a node's pair, replacing any that it had. Returns `AllocError` if memory runs out.
    pub fn insert(&mut self, node: u64, value: Value) -> Result<(), AllocError>
        ensures { OnOk result (self.new ≡ map.insert self.old node value) }
    {
        self.remove(node);
        let key = IndexKey::of(&value, node);
        self.values.insert(node, value)?;
        let Some(key) = key else {
            return Ok(());
        };
        if self.keys.insert(key).is_err() {
            self.values.remove(&node);
            return Err(AllocError);
        }
        Ok(())
    }

    /// Removes a node's pair, if it has one.
    pub fn remove(&mut self, node: u64)
        ensures { self.new ≡ map.remove self.old node }
    {
        let Some(old) = self.values.remove(&node) else {
            return;
        };
        if let Some(key) = IndexKey::of(&old, node) {
            self.keys.remove(&key);
        }
    }
}

impl Clone for Pairs {
    ghost is_clone = { λ a b. b ≡ a };

    fn clone(&self) -> Result<Pairs, AllocError> {
        let values = self.values.clone()?;
        let keys = self.keys.clone()?;
        Ok(Pairs { values, keys })
    }
}
