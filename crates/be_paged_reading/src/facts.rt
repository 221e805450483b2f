//! The facts about a loaded version that determine whether an operation is refused.
//!
//! The operations in a list often concern the same node, so the reader remembers what it found
//! about the last node. It also remembers the first attribute that it looked up, so that a caller
//! that changes this attribute next doesn't have to look it up again.
ghost use Rattle.std.specs.Prelude.{◌≡◌, true};
ghost use Rattle.std.specs.FinMap as map;
ghost use Rattle.be_paged_reading.specs.Imports.{attributes_of, IsSound, IsTree, IsUnchanged};
ghost use Rattle.be_paged_reading.specs.Imports.{State};
ghost use Rattle.be_paged_reading.specs.Facts.{AnswersFor, IsCounted, count_of as count_in};
ghost use Rattle.be_paged_reading.specs.Page.{contents};

use crate::asked::{Asked, remember};
use crate::attributes::attribute_count;
use crate::entries::search;
use crate::reading::attribute_place;
use crate::version::Version;
use be_pages::Look;
use be_value::Name;
use be_volume::Facts;

/// A reader of these facts. It remembers the node whose attributes it counted last, with their
/// number if the node exists, and the first attribute that it looked up.
#[derive(Drop)]
pub struct PageFacts<'a, L: Look> {
    pub look: &'a mut L,
    pub version: &'a Version,
    pub counted: Option<(u64, Option<usize>)>,
    pub asked: &'a mut Option<Asked>,
}

/// Returns the number of attributes of a node, or `None` if the node doesn't exist. A number that
/// hasn't been assigned to a node yet isn't looked up.
fn count_anew<L: Look>(look: &mut L, version: &Version, node: u64) -> Option<usize>
    requires tree { IsTree (L.page_state look.old) (L.words look.old) version.now.catalog }
    ensures count { (volume : State) → AnswersFor (L.page_state look.old) (L.words look.old)
        (contents version.now) volume → result ≡ count_in volume.nodes node }
    ensures unchanged { IsUnchanged L.kept L.page_state L.words look.old look.new }
{
    if node >= version.next {
        return None;
    }
    attribute_count(look, version.catalog, node)
}

/// Returns the number of attributes of a node, or `None` if the node doesn't exist. If this node
/// was counted last, the remembered count is returned. Otherwise the attributes are counted and the
/// result is remembered.
fn count_of<L: Look>(
    look: &mut L,
    version: &Version,
    counted: &mut Option<(u64, Option<usize>)>,
    node: u64,
) -> Option<usize>
    requires tree { IsTree (L.page_state look.old) (L.words look.old) version.now.catalog }
    ensures count { (volume : State) → AnswersFor (L.page_state look.old) (L.words look.old)
        (contents version.now) volume → IsCounted counted.old volume →
        result ≡ count_in volume.nodes node }
    ensures counted { (volume : State)
        → AnswersFor (L.page_state look.old) (L.words look.old) (contents version.now) volume
        → IsCounted counted.old volume →
        IsCounted counted.new volume }
    ensures unchanged { IsUnchanged L.kept L.page_state L.words look.old look.new }
{
    if let Some((last, count)) = *counted {
        if last == node {
            return count;
        }
    }
    let count = count_anew(look, version, node);
    *counted = Some((node, count));
    count
}

/// Returns `true` if it is known without reading pages that the node has no attributes: either its
/// number hasn't been assigned yet, or its attributes were counted and there were none.
fn is_bare(version: &Version, counted: Option<(u64, Option<usize>)>, node: u64) -> bool
    ensures { result ≡ true → (volume : State) → IsSound volume → version.now.next ≡ volume.next
        → IsCounted counted volume →
        map.len (attributes_of volume.nodes node) ≡ 0 }
{
    if node >= version.next {
        return true;
    }
    match counted {
        Some((last, count)) if last == node => count.unwrap_or(0) == 0,
        _ => false,
    }
}

impl<L: Look> Facts for PageFacts<'_, L> {
    ghost use Rattle.std.specs.Prelude.{ℕ};
    ghost use base.Fml.{GName};
    ghost use Rattle.be_paged_reading.specs.Imports.{AnyPageState};
    ghost use Rattle.be_paged_reading.specs.Page.{contents};
    ghost use Rattle.be_paged_reading.specs.Facts.{FactsOf};

    ghost Kept = { (GName × GName) × (L.Kept × ((ℕ → AnyPageState) × ((ℕ → ℕ → ℕ) × ℕ))) };

    ghost kept = { λ f. (
      (f.look.ghost_name, f.asked.ghost_name),
      (
        L.kept f.look.now,
        (
          L.page_state f.look.now,
          (L.words f.look.now, f.version.now.catalog),
        ),
      ),
    ) };

    ghost answers_for = { λ f volume. FactsOf (L.page_state f.look.now) (L.words f.look.now)
        (contents f.version.now) f.counted f.asked.now volume };

    fn next(&mut self) -> u64 {
        self.version.next
    }

    fn has_node(&mut self, node: u64) -> bool {
        count_of(self.look, self.version, &mut self.counted, node).is_some()
    }

    fn has_attribute(&mut self, node: u64, name: &Name) -> bool {
        if is_bare(self.version, self.counted, node) {
            return false;
        }
        let place = attribute_place(self.look, self.version.catalog, node, name);
        remember(self.asked, node, name, place);
        place.is_some()
    }

    fn attribute_count(&mut self, node: u64) -> usize {
        count_of(self.look, self.version, &mut self.counted, node).unwrap_or(0)
    }

    fn has_index(&mut self, name: &Name) -> bool {
        search(&self.version.entries, name).is_ok()
    }

    fn index_count(&mut self) -> usize {
        self.version.entries.len()
    }
}
