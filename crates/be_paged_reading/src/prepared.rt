//! Runs prepared queries on a version.
//!
//! The index for a prepared query is usually at the same position as in the last call, so the name
//! there is compared first. The range is already computed, and the nodes of its keys are the
//! answer, so neither a plan nor an index reader is needed.
ghost use Rattle.std.specs.Prelude.{◌≡◌, ◌<◌, List, ℕ, true, Ok, Some, IfOk, IfErr, IfSome, OnOk};
ghost use Rattle.be_paged_reading.specs.Imports.{option_copied, scan, AreAllOn, HasNodes, HasOnly};
ghost use Rattle.be_paged_reading.specs.Imports.{IsStrictlyIncreasing, IsUnchanged, Keeps};
ghost use Rattle.be_paged_reading.specs.Imports.{OutOfMemory, State};
ghost use Rattle.be_paged_reading.specs.Page.{contents_of};
ghost use Rattle.be_paged_reading.specs.Source.{IsFound};
ghost use Rattle.be_paged_reading.specs.Version.{HasVersion, IsVersion};

use crate::on_page::{FoundIndex, index_there, known_index};
use be_pages::Look;
use be_plan::{KeyRange, PreparedQuery, put_in_order};
use be_tree_reading::numbers_within;
use be_value::Refusal;
use std::alloc::Global;

/// Returns the index of the name that all comparisons in the query are on, if there is such a name
/// and it has an index. Prepares the query's range for the kind of that index.
#[inline(always)]
fn meet_index<L: Look>(
    look: &mut L,
    version_page: u64,
    prepared: &mut PreparedQuery,
) -> Option<FoundIndex>
    requires version { HasVersion L.page_state L.words look.old version_page }
    ensures found { IfSome result (λ index. (name : List ℕ) → AreAllOn prepared.old name →
        IsFound (contents_of (L.words look.new version_page)).entries name (Some index)) }
    ensures same { prepared.new ≡ prepared.old }
    ensures unchanged { IsUnchanged L.kept L.page_state L.words look.old look.new }
{
    let mut known = index_there(look, version_page, prepared.place());
    let Some(name) = prepared.name() else {
        return None;
    };
    let Some(index) = known_index(look, version_page, name, &mut known) else {
        return None;
    };
    prepared.meet(index.place, index.kind);
    Some(index)
}

/// Adds the node of each key in the range. `index` is the index with the range's name.
fn nodes_of<L: Look>(
    look: &mut L,
    version_page: u64,
    index: FoundIndex,
    keys: KeyRange<'_>,
    found: &mut Vec<u64>,
) -> Result<(), Refusal>
    requires version { HasVersion L.page_state L.words look.old version_page }
    requires index { IsFound (contents_of (L.words look.old version_page)).entries keys.name.now
        (Some index) }
    ensures memory { IfErr result (λ e. e ≡ OutOfMemory) }
    ensures only { (volume : State) → IsVersion (L.page_state look.old) (L.words look.old)
        version_page volume →
        HasOnly volume keys.entry.name.now keys.entry.low.now (option_copied keys.entry.high)
        found.old.items found.new.items }
    ensures has { OnOk result ((volume : State)
        → IsVersion (L.page_state look.old) (L.words look.old) version_page volume →
        HasNodes volume keys.entry.name.now keys.entry.low.now (option_copied keys.entry.high)
        found.new.items) }
    ensures unchanged { IsUnchanged L.kept L.page_state L.words look.old look.new }
{
    numbers_within(look, index.root, keys.low, keys.high, found)?;
    Ok(())
}

/// If a range of one index decides the prepared query, this function replaces the content of the
/// list with the nodes that satisfy the query, in ascending order, and returns `true`. Otherwise it
/// returns `false`, and the caller has to run the query with a plan. The search for the index
/// starts where it was found last, and the answer costs one descent. If it returns `false` or
/// `OutOfMemory`, the content of the list is unspecified.
#[inline(always)]
pub fn answer_decided<L: Look>(
    alloc: Global,
    look: &mut L,
    version_page: u64,
    prepared: &mut PreparedQuery,
    found: &mut Vec<u64>,
) -> Result<bool, Refusal>
    requires version { HasVersion L.page_state L.words look.old version_page }
    ensures answer { IfOk result (λ decided. decided ≡ true → (volume : State) →
        IsVersion (L.page_state look.old) (L.words look.old) version_page volume
        → scan volume prepared.old ≡ Ok found.new.items) }
    ensures rising { IfOk result (λ decided. decided ≡ true
        → IsStrictlyIncreasing found.new.items) }
    ensures memory { IfErr result (λ e. e ≡ OutOfMemory) }
    ensures same { prepared.new ≡ prepared.old }
    ensures unchanged { IsUnchanged L.kept L.page_state L.words look.old look.new }
{
    found.clear();
    let Some(index) = meet_index(look, version_page, prepared) else {
        return Ok(false);
    };
    let Some(keys) = prepared.keys_for(index.kind) else {
        return Ok(false);
    };
    nodes_of(look, version_page, index, keys, found)?;
    put_in_order(alloc, found)?;
    Ok(true)
}
