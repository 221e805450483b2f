//! Sources that walk an index in its order.
ghost use Rattle.std.specs.Prelude.{◌≡◌, [], true, false, IfErr, IfOk};
ghost use Rattle.be_order.specs.Imports.{option_copied, OutOfMemory, State, StillAnswers};
ghost use Rattle.be_order.specs.Ordered.{cursor_bytes};
ghost use Rattle.be_order.specs.Walks.{HasWalked, IsEntry, IsPassing};

use arrayvec::ArrayVec;
use be_plan::{KeyRange, KeyTest, Source, VolumeSource};
use be_value::Refusal;

/// The keys in a range of an index that come strictly after a cursor, in either direction.
#[derive(Clone, Copy)]
pub struct OrderedKeys<'a> {
    pub keys: KeyRange<'a>,
    pub descending: bool,
    pub cursor: &'a Option<ArrayVec<u8, 264>>,
}

/// A source that may be able to walk an index in its order.
pub trait OrderedSource: Source {
    /// If the source can walk in order, adds the nodes of the first `most` of these keys, in order,
    /// and returns `true`. Otherwise it adds nothing and returns `false`, and the caller has to
    /// sort.
    fn first_nodes(
        &mut self,
        keys: OrderedKeys<'_>,
        most: usize,
        found: &mut Vec<u64>,
    ) -> Result<bool, Refusal>
        requires { (volume : State) × Self.answers_for self.old volume }
        ensures memory { IfErr result (λ e. e ≡ OutOfMemory) }
        ensures walked { IfOk result (λ walked. walked ≡ true → (volume : State)
            → Self.answers_for self.old volume →
            HasWalked (IsEntry volume keys.entry.keys.name.now keys.entry.keys.low.now
            (option_copied keys.entry.keys.high)) keys.entry.descending
            (cursor_bytes keys.entry.cursor.now) most found.old.items found.new.items) }
        ensures none { IfOk result (λ walked. walked ≡ false
            → found.new.items ≡ found.old.items) }
        ensures stays { Self.kept self.new ≡ Self.kept self.old }
        ensures answers { StillAnswers Self.answers_for self.old self.new }
    {
        Ok(false)
    }

    /// Replaces the content of a list with the nodes of the first `most` of these keys that pass a
    /// test, in the order of the keys, and returns `true`.
    ///
    /// Returns `false` if the source doesn't test keys in place, or if the test is for strings and
    /// the index doesn't hold strings. The content of the list is then unspecified.
    fn first_passing(
        &mut self,
        keys: OrderedKeys<'_>,
        test: KeyTest<'_, '_>,
        most: usize,
        found: &mut Vec<u64>,
    ) -> Result<bool, Refusal>
        requires { (volume : State) × Self.answers_for self.old volume }
        ensures memory { IfErr result (λ e. e ≡ OutOfMemory) }
        ensures tested { IfOk result (λ tested. tested ≡ true → (volume : State)
            → Self.answers_for self.old volume →
            HasWalked (IsPassing volume keys.entry.keys.name.now keys.entry.keys.low.now
            (option_copied keys.entry.keys.high) test.entry) keys.entry.descending
            (cursor_bytes keys.entry.cursor.now) most [] found.new.items) }
        ensures stays { Self.kept self.new ≡ Self.kept self.old }
        ensures answers { StillAnswers Self.answers_for self.old self.new }
    {
        Ok(false)
    }
}

/// A plain volume doesn't walk in order, so its answers are sorted.
impl OrderedSource for VolumeSource<'_> {}
