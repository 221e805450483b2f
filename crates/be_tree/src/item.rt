//! An item of a page.
ghost use Rattle.std.specs.Prelude.{◌≡◌, ◌+◌, ◌≤◌, ◌++◌, length};
ghost use Rattle.be_tree_reading.specs.Tree.{child};

use arrayvec::ArrayVec;
use std::marker::Model;

/// A key with its payload, in up to 328 bytes.
#[derive(Drop)]
pub(crate) struct Item {
    bytes: ArrayVec<u8, 328>,
    key_len: usize,
}

impl Model for Item {
    ghost use Rattle.std.specs.Prelude.{take, drop, length, ◌≤◌};
    ghost use Rattle.be_tree_reading.specs.Pair.{Pair};

    ghost Value = { Pair };

    ghost view = { λ a. record {
      key = take a.key_len a.bytes.items;
      payload = drop a.key_len a.bytes.items;
    } };

    ghost invariant = { λ a. (a.key_len ≤ length a.bytes.items) × (length a.bytes.items ≤ 328) };
}

impl Item {
    /// Creates the item of a key and a payload.
    pub(crate) fn new(key: &[u8], payload: &[u8]) -> Item
        requires { length key.now + length payload.now ≤ 328 }
        ensures key { result.key ≡ key.now }
        ensures payload { result.payload ≡ payload.now }
    {
        let mut bytes = ArrayVec::new();
        let _ = bytes.try_extend_from_slice(key);
        let _ = bytes.try_extend_from_slice(payload);
        Item {
            bytes,
            key_len: key.len(),
        }
    }

    /// The key.
    pub(crate) fn key(&self) -> &[u8]
        ensures { result.now ≡ self.now.key }
    {
        &self.bytes[..self.key_len]
    }

    /// The payload.
    pub(crate) fn payload(&self) -> &[u8]
        ensures value { result.now ≡ self.now.payload }
        ensures fits { length result.now ≤ 328 }
    {
        &self.bytes[self.key_len..]
    }

    /// The key followed by the payload.
    pub(crate) fn bytes(&self) -> &[u8]
        ensures value { result.now ≡ self.now.key ++ self.now.payload }
        ensures fits { length result.now ≤ 328 }
    {
        &self.bytes
    }

    /// The length of the key in bytes.
    pub(crate) fn key_len(&self) -> usize
        ensures { result ≡ length self.now.key }
    {
        self.key_len
    }

    /// The page to which a branch leads.
    #[tactic(auto, unfolding(be_tree_reading::specs::Tree::child))]
    pub(crate) fn child(&self) -> u64
        requires { length self.now.payload ≡ 8 }
        ensures { result ≡ child self.now }
    {
        let bytes = self.payload();
        u64::from_be_bytes([
            bytes[0], bytes[1], bytes[2], bytes[3], bytes[4], bytes[5], bytes[6], bytes[7],
        ])
    }
}
