//! An index's keys, ordered by their bytes.
//!
//! A walk through an index asks for the lowest key from some bytes on. These bytes may be of any
//! length, but no key has more than 264: a text of 255 bytes, a zero byte and a node.
ghost use Rattle.std.specs.BTreeMap.Range.{is_from_start};
ghost use Rattle.std.specs.Cmp.{partial_equiv_from_equiv};
ghost use Rattle.std.specs.Cmp.Lexicographic.{pointwise, slice_cmp, nat_list_eq_equiv};
ghost use Rattle.std.specs.Cmp.Lexicographic.{nat_list_cmp_total, texts_po, texts_ties};
ghost use Rattle.std.specs.Ordering.{nat_cmp};
ghost use Rattle.std.specs.Prelude.{◌≡◌, ◌≤◌, ◌<◌, ℕ, List, Some, IfSome, length, nat_eq, refl};
ghost use Rattle.be_volume.specs.Maps.{name_cmp};
ghost use Rattle.be_volume.specs.PairKeys.{is_at_or_after, own_key};

use arrayvec::ArrayVec;
use be_value::{Value, key_of};
use std::alloc::AllocError;
use std::cmp::Ordering;
use std::marker::Model;
use std::ops::Bound;

/// The maximum number of bytes in a key.
const MAX_KEY: usize = 264;

/// A key, held in place. Contracts see its bytes.
#[derive(Drop)]
pub struct IndexKey {
    bytes: ArrayVec<u8, 264>,
}

impl Model for IndexKey {
    ghost use Rattle.std.specs.Prelude.{ℕ, ◌≤◌, List, length};

    ghost Value = { List ℕ };

    ghost view = { λ k. k.bytes.items };
}

impl IndexKey {
    /// Returns the key of a pair, if the value can be in an index.
    pub fn of(value: &Value, node: u64) -> Option<IndexKey>
        ensures key { result ≡ own_key value.now node }
        ensures short { IfSome result (λ k. length k ≤ 264) }
    {
        if !value.kind().indexable() {
            return None;
        }
        Some(IndexKey {
            bytes: key_of(value, node),
        })
    }

    /// Creates a key from these bytes.
    pub fn new(bytes: &[u8]) -> IndexKey
        requires { length bytes.now ≤ 264 }
        ensures { result ≡ bytes.now }
    {
        let mut key = ArrayVec::new();
        key.try_extend_from_slice(bytes).unwrap();
        IndexKey { bytes: key }
    }

    /// Returns a copy of the bytes.
    pub fn to_bytes(&self) -> ArrayVec<u8, 264>
        ensures { result.items ≡ self.now }
    {
        let mut bytes = ArrayVec::new();
        bytes.try_extend_from_slice(self.bytes.as_slice()).unwrap();
        bytes
    }
}

/// Returns the start of a range: the keys at or after `from`, or, if `after` is set, those strictly
/// after it.
pub fn start_of(from: &[u8], after: bool) -> Bound<IndexKey>
    ensures { (k : List ℕ) → length k ≤ 264 → is_from_start name_cmp result k
        ≡ is_at_or_after from.now after k }
{
    if from.len() > MAX_KEY {
        // No key has this many bytes, so none is equal to `from`.
        return Bound::Excluded(IndexKey::new(&from[..MAX_KEY]));
    }
    let key = IndexKey::new(from);
    if after {
        Bound::Excluded(key)
    } else {
        Bound::Included(key)
    }
}

impl PartialEq for IndexKey {
    ghost eq = { pointwise nat_eq };

    ghost laws = { partial_equiv_from_equiv nat_list_eq_equiv };

    fn eq(&self, other: &Self) -> bool {
        self.bytes.as_slice() == other.bytes.as_slice()
    }
}

impl Eq for IndexKey {
    ghost laws = { nat_list_eq_equiv };
}

impl PartialOrd for IndexKey {
    ghost partial_cmp = { λ s t. Some (slice_cmp nat_cmp s t) };

    ghost laws = { texts_po };

    fn partial_cmp(&self, other: &Self) -> Option<Ordering> {
        Some(self.cmp(other))
    }
}

/// Keys are ordered by their bytes.
impl Ord for IndexKey {
    ghost cmp = { slice_cmp nat_cmp };

    ghost total = { nat_list_cmp_total };

    ghost matches_partial_cmp = { λ s t. refl };

    ghost matches_eq = { λ s t. texts_ties s t };

    fn cmp(&self, other: &Self) -> Ordering {
        self.bytes.as_slice().cmp(&other.bytes.as_slice())
    }
}

/// Returns a copy of the key. It allocates no memory.
impl Clone for IndexKey {
    ghost is_clone = { λ a b. b ≡ a };

    fn clone(&self) -> Result<IndexKey, AllocError> {
        Ok(IndexKey {
            bytes: self.to_bytes(),
        })
    }
}
