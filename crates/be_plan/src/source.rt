//! The interface through which plans read a volume.
//!
//! Any call on a source may change the source itself: for example, a cursor moves, or a reader
//! counts its steps. Two things describe what is preserved. `kept` is everything about the source
//! that no call changes, and `answers_for` relates the source to the volume that it reads. It is a
//! relation and not a function because a page reader encodes a volume but can't compute it.
//! Contracts are stated for every volume in that relation, and the caller, who knows the volume,
//! supplies it.
ghost use Rattle.std.specs.Prelude.{◌≡◌, true, false, OnOk, IfErr, IfOk};
ghost use Rattle.be_plan.specs.Imports.{attribute, index_kind, literal, option_copied, option_map};
ghost use Rattle.be_plan.specs.Imports.{sat, IsKey, IsNextKey, IsSound, Leaf, OutOfMemory, State};
ghost use Rattle.be_plan.specs.Sources.{StillAnswers};
ghost use Rattle.be_plan.specs.Walk.{HasNodes, HasOnly, HasOnlyTrue, HasWithin, Keeps};

use crate::TextTest;
use arrayvec::ArrayVec;
use be_query::Comparison;
use be_value::{Kind, Name, Refusal, Value, key_of};
use be_volume::holds;

/// The keys from `low` to `high`, both inclusive, in the index of a name. If `high` is `None`, the
/// range extends to the last key.
#[derive(Clone, Copy)]
pub struct KeyRange<'a> {
    pub name: &'a Name,
    pub low: &'a [u8],
    pub high: Option<&'a [u8]>,
}

/// A reader of one volume. A call may change the reader itself, but neither the volume nor the
/// facts in `kept`. Every call requires that the source represents some volume, and ensures its
/// clauses for each volume that the source represents. No call allocates memory except to grow the
/// list that it adds to.
pub trait Source {
    /// The type of `kept`.
    ghost Kept: { Type 0 };

    ghost kept: { Self → Kept };

    /// Whether the source represents this volume.
    ghost answers_for: { Self → State → Type 0 };

    /// Returns the kind of the index of that name, or `None` if there is no index.
    fn kind_of(&mut self, name: &Name) -> Option<Kind>
        requires { (volume : State) × answers_for self.old volume }
        ensures answer { (volume : State) → answers_for self.old volume → result
            ≡ index_kind volume name.now }
        ensures stays { kept self.new ≡ kept self.old }
        ensures answers { StillAnswers answers_for self.old self.new };

    /// Returns the first key at or after `from` in the index of that name, or strictly after `from`
    /// if `after` is `true`. Keys are ordered bytewise, and `from` may be any bytes. Returns `None`
    /// if there is no such key or no index.
    fn next_key(&mut self, name: &Name, from: &[u8], after: bool) -> Option<ArrayVec<u8, 264>>
        requires { (volume : State) × answers_for self.old volume }
        ensures answer { (volume : State) → answers_for self.old volume →
            IsNextKey volume name.now from.now after (option_map (λ k. k.items) result) }
        ensures stays { kept self.new ≡ kept self.old }
        ensures answers { StillAnswers answers_for self.old self.new };

    /// Adds the node of each key in the range, preferably in key order. Adds nothing if there is no
    /// index.
    fn nodes_within(&mut self, keys: KeyRange<'_>, found: &mut Vec<u64>) -> Result<(), Refusal>
        requires { (volume : State) × answers_for self.old volume }
        ensures memory { IfErr result (λ e. e ≡ OutOfMemory) }
        ensures keeps { Keeps found.old.items found.new.items }
        ensures only { (volume : State) → answers_for self.old volume →
            HasOnly volume keys.entry.name.now keys.entry.low.now (option_copied keys.entry.high)
            found.old.items found.new.items }
        ensures has { OnOk result ((volume : State) → answers_for self.old volume →
            HasNodes volume keys.entry.name.now keys.entry.low.now (option_copied keys.entry.high)
            found.new.items) }
        ensures stays { kept self.new ≡ kept self.old }
        ensures answers { StillAnswers answers_for self.old self.new };

    /// Adds the nodes of those keys whose string satisfies the comparison, and returns `true`. It
    /// does so only if the source tests strings in place and the index holds strings. Otherwise it
    /// adds nothing and returns `false`, and the caller has to step from key to key.
    fn nodes_passing(
        &mut self,
        keys: KeyRange<'_>,
        test: &TextTest<'_>,
        found: &mut Vec<u64>,
    ) -> Result<bool, Refusal>
        requires { (volume : State) × answers_for self.old volume }
        ensures memory { IfErr result (λ e. e ≡ OutOfMemory) }
        ensures keeps { Keeps found.old.items found.new.items }
        ensures only { (volume : State) → answers_for self.old volume →
            HasOnlyTrue volume (Leaf keys.entry.name.now test.now.0 test.now.1)
            keys.entry.name.now keys.entry.low.now (option_copied keys.entry.high)
            found.old.items found.new.items }
        ensures has { IfOk result (λ tested. tested ≡ true → (volume : State)
            → answers_for self.old volume →
            HasWithin volume (Leaf keys.entry.name.now test.now.0 test.now.1)
            keys.entry.name.now keys.entry.low.now (option_copied keys.entry.high)
            found.new.items) }
        ensures none { IfOk result (λ tested. tested ≡ false
            → found.new.items ≡ found.old.items) }
        ensures stays { kept self.new ≡ kept self.old }
        ensures answers { StillAnswers answers_for self.old self.new }
    {
        Ok(false)
    }

    /// Returns `true` if the index of that name contains the key, and `false` if there is no index.
    fn has_key(&mut self, name: &Name, key: &[u8]) -> bool
        requires { (volume : State) × answers_for self.old volume }
        ensures found { (volume : State) → answers_for self.old volume → result ≡ true
            → IsKey volume name.now key.now }
        ensures finds { (volume : State) → answers_for self.old volume
            → IsKey volume name.now key.now → result ≡ true }
        ensures stays { kept self.new ≡ kept self.old }
        ensures answers { StillAnswers answers_for self.old self.new };

    /// Returns the node's attribute of that name, whether or not it is in an index.
    fn value(&mut self, node: u64, name: &Name) -> Option<Value>
        requires { (volume : State) × answers_for self.old volume }
        ensures answer { (volume : State) → answers_for self.old volume → result
            ≡ attribute volume node name.now }
        ensures stays { kept self.new ≡ kept self.old }
        ensures answers { StillAnswers answers_for self.old self.new };

    /// Returns `true` if the comparison is true of the value that it sees for the node. Without an
    /// index of the comparison's name, it sees the attribute. An index contains either the node's
    /// attribute or no value for the node, so looking up the attribute's key determines what the
    /// comparison sees. A source that can compare values in place overrides this method to avoid
    /// copying the value.
    fn holds(&mut self, node: u64, comparison: &Comparison) -> bool
        requires { (volume : State) × answers_for self.old volume }
        ensures answer { (volume : State) → answers_for self.old volume →
            result ≡ sat volume (Leaf comparison.now.name comparison.now.op
            (literal comparison.now.literal)) node }
        ensures stays { kept self.new ≡ kept self.old }
        ensures answers { StillAnswers answers_for self.old self.new }
    {
        let name = &comparison.name;
        let Some(value) = self.value(node, name) else {
            return false;
        };
        if !holds(comparison, &value) {
            return false;
        }
        let Some(_) = self.kind_of(name) else {
            return true;
        };
        value.kind().indexable() && self.has_key(name, key_of(&value, node).as_slice())
    }

    /// Does what `holds` does, for a comparison that the caller applies to many nodes and has
    /// prepared as `test`. A source that compares strings in place then doesn't have to decode
    /// them. The default implementation calls `holds`.
    fn holds_tested(&mut self, node: u64, comparison: &Comparison, test: &TextTest<'_>) -> bool
        requires source { (volume : State) × answers_for self.old volume }
        requires test { test.now ≡ (comparison.now.op, literal comparison.now.literal) }
        ensures answer { (volume : State) → answers_for self.old volume →
            result ≡ sat volume (Leaf comparison.now.name comparison.now.op
            (literal comparison.now.literal)) node }
        ensures stays { kept self.new ≡ kept self.old }
        ensures answers { StillAnswers answers_for self.old self.new }
    {
        self.holds(node, comparison)
    }

    /// Returns the approximate number of keys in the index of that name. It affects only the choice
    /// of plan, so any number is correct, even if there is no index. The default implementation
    /// returns the highest number, so an index is then never walked to test what another walk
    /// leaves.
    fn estimate(&mut self, _name: &Name) -> u64
        requires { (volume : State) × answers_for self.old volume }
        ensures stays { kept self.new ≡ kept self.old }
        ensures answers { StillAnswers answers_for self.old self.new }
    {
        u64::MAX
    }

    /// Returns the approximate number of keys in the range. It affects only the choice of plan, so
    /// any number is correct. The default is higher than the number of keys of most indices.
    fn about(&mut self, _keys: KeyRange<'_>) -> u64
        requires { (volume : State) × answers_for self.old volume }
        ensures stays { kept self.new ≡ kept self.old }
        ensures answers { StillAnswers answers_for self.old self.new }
    {
        1 << 32
    }

    // A law: each pair in an index of the volume is an attribute of its node and has the index's
    // kind.
    ghost sound: { (source : Self) (volume : State) → answers_for source volume → IsSound volume };
}
