//! The keys of an index, which are collected and put in order at the end.
ghost use Rattle.std.specs.Prelude.{◌≡◌, ◌≢◌, [], ◌∷◌, ◌++◌, ◌≤◌, ◌<◌, ℕ, suc, true, false};
ghost use Rattle.std.specs.Prelude.{All, IfOk, IfSome, IsTrue, OnOk, length, slice_index_or};
ghost use Rattle.be_paged_building.specs.Keys.{AreFewestFor, BecomesKeys, IsShortFor, keys_with};
ghost use Rattle.be_paged_building.specs.Place.{IsPlace, key_in, rank_in};
ghost use Rattle.be_paged_building.specs.declared.keys.Place.{Place as Places};
ghost use Rattle.be_tree.specs.Building.{RefusesAt};
ghost use Rattle.be_tree_reading.specs.Key.{key_cmp};
ghost use Rattle.be_tree_reading.specs.Tree.{pages};
ghost use Rattle.be_value.specs.Key.{key};
ghost use Rattle.be_value.specs.Value.{is_indexable, kind_of};

use be_pages::Room;
use be_tree::TreeBuilder;
use be_tree_reading::first_word;
use be_value::{Refusal, Value, key_of};
use std::alloc::{AllocError, Global};
use std::cmp::Ordering;
use std::marker::Model;

/// Where a key is among the collected bytes. Its first eight bytes, as a word, order most keys
/// without a look at the bytes.
#[derive(Clone, Copy)]
struct Place {
    first: u64,
    from: usize,
    len: usize,
}

/// The keys of one index, in the order in which they were added. They are kept one after another,
/// because most keys are short, and a key has up to 264 bytes.
#[derive(Drop)]
pub(crate) struct Keys {
    bytes: Vec<u8>,
    places: Vec<Place>,
}

impl Model for Keys {
    ghost use Rattle.std.specs.Prelude.{ℕ, List, All, map};
    ghost use Rattle.be_paged_building.specs.Place.{IsPlace, key_in};

    ghost Value = { List (List ℕ) };

    ghost view = { λ keys. map (key_in keys.bytes.items) keys.places.items };

    ghost invariant = { λ keys. All (IsPlace keys.bytes.items) keys.places.items };
}

/// Returns the key at a place; beyond the end of the bytes, it is cut off.
fn key_at(bytes: &[u8], place: Place) -> &[u8]
    ensures { result.now ≡ key_in bytes.now place }
{
    let rest = &bytes[place.from.min(bytes.len())..];
    &rest[..place.len.min(rest.len())]
}

/// Compares two keys by their first words, and then by their bytes.
fn order_of(bytes: &[u8], a: Place, b: Place) -> Ordering
    ensures { result ≡ key_cmp (rank_in bytes.now a) (rank_in bytes.now b) }
{
    if a.first != b.first {
        return a.first.cmp(&b.first);
    }
    key_at(bytes, a).cmp(key_at(bytes, b))
}

impl Keys {
    /// Begins with no keys.
    pub(crate) fn new(alloc: Global) -> Keys
        ensures { result ≡ [] }
    {
        Keys {
            bytes: Vec::new(alloc),
            places: Vec::new(alloc),
        }
    }

    /// Adds a key.
    pub(crate) fn add(&mut self, key: &[u8]) -> Result<(), AllocError>
        ensures { OnOk result (self.new ≡ self.old ++ key.now ∷ []) }
    {
        let place = Place {
            first: first_word(key),
            from: self.bytes.len(),
            len: key.len(),
        };
        self.bytes.extend_from_slice(key)?;
        self.places.push(place)?;
        Ok(())
    }

    /// Builds a tree of the keys in order, without payloads, and returns its root. A key that
    /// occurs twice is in the tree once.
    pub(crate) fn build<R: Room>(self, alloc: Global, room: &mut R) -> Result<u64, Refusal>
        requires fit { All (λ key. length key ≤ 264) self }
        requires open { IsTrue (R.is_open (R.kept room.old)) }
        ensures ok { IfOk result (λ root. BecomesKeys R.kept R.page_state R.words self root room.old
            room.new) }
        ensures fewest { IfOk result (λ root. AreFewestFor (length (pages (R.words room.new) root))
            self) }
        ensures refused { RefusesAt R.kept R.page_state R.words R.full
            (IsShortFor self (R.page_state room.old) (R.page_state room.new)) result room.old
            room.new }
    {
        let Keys { bytes, mut places } = self;
        let bytes = bytes.as_slice();
        places.sort_unstable_by(|a, b| order_of(bytes, *a, *b));
        let places = places.as_slice();
        let mut tree = TreeBuilder::new(alloc);
        for i in 0..places.len() {
            if !is_again(bytes, places, i) {
                tree.push(room, key_at(bytes, places[i]), &[])?;
            }
        }
        tree.finish(room)
    }
}

/// Adds the key of a value and a node to the list at a position, if there is one.
pub(crate) fn add_key(
    lists: &mut Vec<Keys>,
    at: Option<usize>,
    value: &Value,
    node: u64,
) -> Result<(), AllocError>
    requires place { IfSome at (λ i. i < length lists.old.items) }
    requires indexable { IfSome at (λ _. IsTrue (is_indexable (kind_of value.now))) }
    ensures lists { OnOk result (lists.new.items
        ≡ keys_with lists.old.items at (key value.now node)) }
    ensures short { IfSome at (λ _. length (key value.now node) ≤ 264) }
{
    match at {
        Some(at) => lists[at].add(&key_of(value, node)),
        None => Ok(()),
    }
}

/// Returns `true` if the keys at two places are the same.
fn is_same(bytes: &[u8], a: Place, b: Place) -> bool
    ensures same { result ≡ true → key_in bytes.now a ≡ key_in bytes.now b }
    ensures other { result ≡ false → key_in bytes.now a ≢ key_in bytes.now b }
{
    key_at(bytes, a) == key_at(bytes, b)
}

/// Returns `true` if a key is the same as the one before it.
fn is_again(bytes: &[u8], places: &[Place], i: usize) -> bool
    requires { i < length places.now }
    ensures again { result ≡ true → (j : ℕ) × ((suc j ≡ i) × ((d : Places)
        → key_in bytes.now (slice_index_or places.now j d)
        ≡ key_in bytes.now (slice_index_or places.now i d))) }
    ensures new { result ≡ false → (j : ℕ) (d : Places) → suc j ≡ i
        → key_in bytes.now (slice_index_or places.now j d)
        ≢ key_in bytes.now (slice_index_or places.now i d) }
{
    if i == 0 {
        return false;
    }
    is_same(bytes, places[i - 1], places[i])
}
