//! A source that records the walks over its indices.
ghost use Rattle.std.specs.Prelude.{◌≡◌};

use crate::walked::{Walked, record, record_step};
use arrayvec::ArrayVec;
use be_plan::{KeyRange, Source, TextTest};
use be_query::Comparison;
use be_value::{Kind, Name, Refusal, Value};
use std::alloc::Global;

/// A source that forwards each call to another one, and records the ranges that are walked there.
/// `complete` says whether all of them could be recorded.
#[derive(Drop)]
pub(crate) struct Recorded<S> {
    source: S,
    walks: Vec<Walked>,
    complete: bool,
}

impl<S> Recorded<S> {
    /// Returns the source as one that records. No walk has been recorded yet.
    pub(crate) fn new(alloc: Global, source: S) -> Recorded<S>
        ensures source { result.source ≡ source }
    {
        Recorded {
            source,
            walks: Vec::new(alloc),
            complete: true,
        }
    }

    /// Returns the source and the walks, or `None` in their place if one couldn't be recorded.
    pub(crate) fn into_parts(self) -> (S, Option<Vec<Walked>>)
        ensures source { result.0 ≡ self.source }
    {
        let Recorded {
            source,
            walks,
            complete,
        } = self;
        if complete {
            (source, Some(walks))
        } else {
            (source, None)
        }
    }
}

impl<S: Source> Source for Recorded<S> {
    ghost Kept = { S.Kept };

    ghost kept = { λ r. S.kept r.source };

    ghost answers_for = { λ r volume. S.answers_for r.source volume };

    ghost sound = { λ r volume is. S.sound r.source volume is };

    fn kind_of(&mut self, name: &Name) -> Option<Kind> {
        self.source.kind_of(name)
    }

    fn next_key(&mut self, name: &Name, from: &[u8], after: bool) -> Option<ArrayVec<u8, 264>> {
        let next = self.source.next_key(name, from, after);
        let recorded = record_step(&mut self.walks, name, from, after, &next);
        self.complete = self.complete && recorded;
        next
    }

    fn nodes_within(&mut self, keys: KeyRange<'_>, found: &mut Vec<u64>) -> Result<(), Refusal> {
        let recorded = record(&mut self.walks, keys);
        self.complete = self.complete && recorded;
        self.source.nodes_within(keys, found)
    }

    fn nodes_passing(
        &mut self,
        keys: KeyRange<'_>,
        test: &TextTest<'_>,
        found: &mut Vec<u64>,
    ) -> Result<bool, Refusal> {
        let passed = self.source.nodes_passing(keys, test, found)?;
        if passed {
            let recorded = record(&mut self.walks, keys);
            self.complete = self.complete && recorded;
        }
        Ok(passed)
    }

    fn has_key(&mut self, name: &Name, key: &[u8]) -> bool {
        self.source.has_key(name, key)
    }

    fn value(&mut self, node: u64, name: &Name) -> Option<Value> {
        self.source.value(node, name)
    }

    fn holds(&mut self, node: u64, comparison: &Comparison) -> bool {
        self.source.holds(node, comparison)
    }

    fn holds_tested(&mut self, node: u64, comparison: &Comparison, test: &TextTest<'_>) -> bool {
        self.source.holds_tested(node, comparison, test)
    }

    fn estimate(&mut self, name: &Name) -> u64 {
        self.source.estimate(name)
    }

    fn about(&mut self, keys: KeyRange<'_>) -> u64 {
        self.source.about(keys)
    }
}
