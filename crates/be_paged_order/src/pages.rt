//! A version as a source that walks indices in their order.
ghost use Rattle.std.specs.Prelude.{◌≡◌};
ghost use Rattle.be_paged_order.specs.Imports.{HasVersion, IsVersion, State};

use crate::ways::way_of;
use arrayvec::ArrayVec;
use be_order::{OrderedKeys, OrderedSource};
use be_paged_reading::{PagedSource, source};
use be_pages::Look;
use be_plan::{KeyRange, KeyTest, Source, TextTest};
use be_query::Comparison;
use be_value::{Kind, Name, Refusal, Value};

/// Reads a version and walks its indices in their order. It consists of the page of the version and
/// a page reader, and uses no other memory.
#[derive(Drop)]
pub struct OrderedPages<L> {
    reader: PagedSource<L>,
}

/// Returns the version on a page as a source that walks in order. No page is read yet. The source
/// holds the page reader until `into_look` is called.
pub fn ordered_source<L: Look>(look: L, version_page: u64) -> OrderedPages<L>
    requires version { HasVersion L.page_state L.words look version_page }
    ensures answers { (volume : State)
        → IsVersion (L.page_state look) (L.words look) version_page volume
        → ⟦<OrderedPages<L> as Source>⟧.answers_for result volume }
    ensures look { ⟦<OrderedPages<L> as Source>⟧.kept result
        ≡ (L.kept look, (L.page_state look, L.words look)) }
{
    OrderedPages {
        reader: source(look, version_page),
    }
}

impl<L: Look> OrderedPages<L> {
    /// Returns the page reader, for which all facts still hold.
    pub fn into_look(self) -> L
        ensures look { (L.kept result, (L.page_state result, L.words result))
            ≡ ⟦<OrderedPages<L> as Source>⟧.kept self }
    {
        self.reader.into_look()
    }
}

impl<L: Look> Source for OrderedPages<L> {
    ghost use Rattle.std.specs.Prelude.{ℕ};
    ghost use Rattle.be_paged_order.specs.Imports.{AnyPageState};

    ghost Kept = { L.Kept × ((ℕ → AnyPageState) × (ℕ → ℕ → ℕ)) };

    ghost kept = { λ s. ⟦<PagedSource<L> as Source>⟧.kept s.reader };

    ghost answers_for = { λ s volume. ⟦<PagedSource<L> as Source>⟧.answers_for s.reader volume };

    ghost sound = { λ s volume is. is.version.sound };

    fn kind_of(&mut self, name: &Name) -> Option<Kind> {
        self.reader.kind_of(name)
    }

    fn next_key(&mut self, name: &Name, from: &[u8], after: bool) -> Option<ArrayVec<u8, 264>> {
        self.reader.next_key(name, from, after)
    }

    fn nodes_within(&mut self, keys: KeyRange<'_>, found: &mut Vec<u64>) -> Result<(), Refusal> {
        self.reader.nodes_within(keys, found)
    }

    fn nodes_passing(
        &mut self,
        keys: KeyRange<'_>,
        test: &TextTest<'_>,
        found: &mut Vec<u64>,
    ) -> Result<bool, Refusal> {
        self.reader.nodes_passing(keys, test, found)
    }

    fn has_key(&mut self, name: &Name, key: &[u8]) -> bool {
        self.reader.has_key(name, key)
    }

    fn value(&mut self, node: u64, name: &Name) -> Option<Value> {
        self.reader.value(node, name)
    }

    fn holds(&mut self, node: u64, comparison: &Comparison) -> bool {
        self.reader.holds(node, comparison)
    }

    fn holds_tested(&mut self, node: u64, comparison: &Comparison, test: &TextTest<'_>) -> bool {
        self.reader.holds_tested(node, comparison, test)
    }

    fn estimate(&mut self, name: &Name) -> u64 {
        self.reader.estimate(name)
    }

    fn about(&mut self, keys: KeyRange<'_>) -> u64 {
        self.reader.about(keys)
    }
}

impl<L: Look> OrderedSource for OrderedPages<L> {
    fn first_nodes(
        &mut self,
        keys: OrderedKeys<'_>,
        most: usize,
        found: &mut Vec<u64>,
    ) -> Result<bool, Refusal> {
        self.reader
            .numbers_in_order(keys.keys.name, way_of(keys), most, found)?;
        Ok(true)
    }

    fn first_passing(
        &mut self,
        keys: OrderedKeys<'_>,
        test: KeyTest<'_, '_>,
        most: usize,
        found: &mut Vec<u64>,
    ) -> Result<bool, Refusal> {
        self.reader
            .passing_in_order(keys.keys.name, way_of(keys), test, most, found)
    }
}
