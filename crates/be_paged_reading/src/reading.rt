//! Reads a volume from its version page.
ghost use Rattle.std.specs.Prelude.{◌≡◌, IsOk, IfErr, IfSome, Ok, is_some};
ghost use Rattle.std.specs.FinMap as map;
ghost use Rattle.be_paged_reading.specs.Imports.{attribute, attributes_at, attributes_of};
ghost use Rattle.be_paged_reading.specs.Imports.{index_kinds, literal, option_copied, pairs, sat};
ghost use Rattle.be_paged_reading.specs.Imports.{AllNodes, Answers, IsTree, IsUnchanged, Leaf};
ghost use Rattle.be_paged_reading.specs.Imports.{OutOfMemory, State};
ghost use Rattle.be_paged_reading.specs.Catalog.{IsCatalog, catalog_key as key_in_catalog};
ghost use Rattle.be_paged_reading.specs.Catalog.{value_at};
ghost use Rattle.be_paged_reading.specs.Page.{contents_of};
ghost use Rattle.be_paged_reading.specs.Source.{IsKnown};
ghost use Rattle.be_paged_reading.specs.Nodes.{nodes_from};
ghost use Rattle.be_paged_reading.specs.Place.{IsFoundAt, IsKnownOf};
ghost use Rattle.be_paged_reading.specs.Reading.{AreValid};
ghost use Rattle.be_paged_reading.specs.Version.{HasVersion, IsVersion};

use crate::attributes::list_attributes;
use crate::catalog::{catalog_key, value_at};
use crate::comparing::holds_at;
use crate::entries::kinds;
use crate::indexed::is_indexed_at;
use crate::marks::list_nodes;
use crate::on_page::{FoundIndex, known_index};
use crate::version::{Version, fill_version};
use be_pages::Look;
use be_plan::TextTest;
use be_query::Comparison;
use be_tree_reading::{find_place, has_key};
use be_value::{Kind, Name, Refusal, Value};
use std::alloc::Global;

/// Returns the page and offset of a node's attribute in the catalog tree, if the node has it. It
/// costs one descent.
pub(crate) fn attribute_place<L: Look>(
    look: &mut L,
    catalog: u64,
    node: u64,
    name: &Name,
) -> Option<(u64, usize)>
    requires tree { IsTree (L.page_state look.old) (L.words look.old) catalog }
    ensures there { (nodes : AllNodes) → IsCatalog (pairs (L.words look.old) catalog) nodes
        → is_some result ≡ map.contains_key (attributes_of nodes node) name.now }
    ensures found { IsFoundAt (L.page_state look.new) (L.words look.new) catalog
        (key_in_catalog node name.now) result }
    ensures unchanged { IsUnchanged L.kept L.page_state L.words look.old look.new }
{
    find_place(look, catalog, &catalog_key(node, name))
}

/// Returns the location of the item with this key. A known location is returned as it is; otherwise
/// the key is looked up.
#[inline(always)]
fn place_of<L: Look>(
    look: &mut L,
    catalog: u64,
    key: &[u8],
    known: Option<Option<(u64, usize)>>,
) -> Option<(u64, usize)>
    requires tree { IsTree (L.page_state look.old) (L.words look.old) catalog }
    requires known { IfSome known (IsFoundAt (L.page_state look.old) (L.words look.old) catalog
        key.now) }
    ensures found { IsFoundAt (L.page_state look.new) (L.words look.new) catalog key.now result }
    ensures unchanged { IsUnchanged L.kept L.page_state L.words look.old look.new }
{
    match known {
        Some(found) => found,
        None => find_place(look, catalog, key),
    }
}

/// Returns a node's value for a name from the catalog tree. If the caller knows whether the
/// attribute exists and where it is, no descent is made.
#[inline(always)]
pub fn value_in<L: Look>(
    look: &mut L,
    catalog: u64,
    node: u64,
    name: &Name,
    known: Option<Option<(u64, usize)>>,
) -> Option<Value>
    requires tree { IsTree (L.page_state look.old) (L.words look.old) catalog }
    requires known { IsKnownOf (L.page_state look.old) (L.words look.old) catalog node name.now
        known }
    ensures value { (nodes : AllNodes) → IsCatalog (pairs (L.words look.old) catalog) nodes
        → AreValid nodes → result ≡ value_at nodes node name.now }
    ensures unchanged { IsUnchanged L.kept L.page_state L.words look.old look.new }
{
    let key = catalog_key(node, name);
    let (page, at) = place_of(look, catalog, &key, known)?;
    value_at(look, page, at)
}

/// Returns `true` if a comparison is true of the value that it sees for a node. It sees the node's
/// value for its name if no index has that name, or if the index contains that value. The value is
/// compared on its page, using `test` if the caller has prepared the comparison. The last index
/// found is tried first.
pub(crate) fn holds_in<L: Look>(
    look: &mut L,
    version_page: u64,
    node: u64,
    comparison: &Comparison,
    test: Option<&TextTest<'_>>,
    known: &mut Option<FoundIndex>,
) -> bool
    requires version { HasVersion L.page_state L.words look.old version_page }
    requires test { IfSome (option_copied test) (λ t. t
        ≡ (comparison.now.op, literal comparison.now.literal)) }
    requires known { IsKnown (contents_of (L.words look.old version_page)).entries known.old }
    ensures answer { (volume : State) → IsVersion (L.page_state look.old) (L.words look.old)
        version_page volume →
        result ≡ sat volume (Leaf comparison.now.name comparison.now.op
        (literal comparison.now.literal)) node }
    ensures known { IsKnown (contents_of (L.words look.new version_page)).entries known.new }
    ensures unchanged { IsUnchanged L.kept L.page_state L.words look.old look.new }
{
    let catalog = look.word(version_page, 3);
    let key = catalog_key(node, &comparison.name);
    let Some((page, at)) = find_place(look, catalog, &key) else {
        return false;
    };
    if !holds_at(look, page, at, comparison, test) {
        return false;
    }
    match known_index(look, version_page, &comparison.name, known) {
        Some(index) => is_indexed_at(look, index.root, page, at, node),
        None => true,
    }
}

/// Returns the number of the next new node. It costs one load.
pub fn next<L: Look>(look: &mut L, version_page: u64) -> u64
    requires version { HasVersion L.page_state L.words look.old version_page }
    ensures next { (volume : State) → IsVersion (L.page_state look.old) (L.words look.old)
        version_page volume → result ≡ volume.next }
    ensures unchanged { IsUnchanged L.kept L.page_state L.words look.old look.new }
{
    look.word(version_page, 2)
}

/// Returns the value of an attribute, if the node exists and has it. It costs one descent of the
/// catalog tree and allocates no memory.
#[inline(always)]
pub fn get<L: Look>(look: &mut L, version_page: u64, node: u64, name: &Name) -> Option<Value>
    requires version { HasVersion L.page_state L.words look.old version_page }
    ensures value { (volume : State) → IsVersion (L.page_state look.old) (L.words look.old)
        version_page volume → result ≡ attribute volume node name.now }
    ensures unchanged { IsUnchanged L.kept L.page_state L.words look.old look.new }
{
    let catalog = look.word(version_page, 3);
    value_in(look, catalog, node, name, None)
}

/// Returns a node's attributes, in bytewise ascending order of their names. Returns `NoNode` if the
/// node doesn't exist, and `OutOfMemory` only if it does. It walks over the node's pairs in the
/// catalog tree.
pub fn attrs<L: Look>(
    alloc: Global,
    look: &mut L,
    version_page: u64,
    node: u64,
) -> Result<Vec<(Name, Value)>, Refusal>
    requires version { HasVersion L.page_state L.words look.old version_page }
    ensures answer { (volume : State) → IsVersion (L.page_state look.old) (L.words look.old)
        version_page volume →
        Answers (λ list. list.items) result (attributes_at volume node) }
    ensures wanted { (volume : State) → IsVersion (L.page_state look.old) (L.words look.old)
        version_page volume →
        IfErr result (λ e. e ≡ OutOfMemory → IsOk (attributes_at volume node)) }
    ensures unchanged { IsUnchanged L.kept L.page_state L.words look.old look.new }
{
    let catalog = look.word(version_page, 3);
    if !has_key(look, catalog, &node.to_be_bytes()) {
        return Err(Refusal::NoNode);
    }
    Ok(list_attributes(alloc, look, catalog, node)?)
}

/// Returns the names and kinds of the indices, in bytewise ascending order of the names. The only
/// error is `OutOfMemory`. Only the version page is read.
pub fn indices<L: Look>(
    alloc: Global,
    look: &mut L,
    version_page: u64,
) -> Result<Vec<(Name, Kind)>, Refusal>
    requires version { HasVersion L.page_state L.words look.old version_page }
    ensures answer { (volume : State) → IsVersion (L.page_state look.old) (L.words look.old)
        version_page volume →
        Answers (λ list. list.items) result (Ok (index_kinds volume)) }
    ensures unchanged { IsUnchanged L.kept L.page_state L.words look.old look.new }
{
    let mut version = Version::new();
    fill_version(look, version_page, &mut version);
    Ok(kinds(alloc, &version.entries)?)
}

/// Returns up to `most` nodes with a number of `from` or above, in ascending order. The only error
/// is `OutOfMemory`. It costs one descent of the catalog tree, plus one step for each node returned
/// and for each attribute of these nodes.
pub fn nodes<L: Look>(
    alloc: Global,
    look: &mut L,
    version_page: u64,
    from: u64,
    most: usize,
) -> Result<Vec<u64>, Refusal>
    requires version { HasVersion L.page_state L.words look.old version_page }
    ensures answer { (volume : State) → IsVersion (L.page_state look.old) (L.words look.old)
        version_page volume →
        Answers (λ list. list.items) result (Ok (nodes_from volume from most)) }
    ensures unchanged { IsUnchanged L.kept L.page_state L.words look.old look.new }
{
    let catalog = look.word(version_page, 3);
    Ok(list_nodes(alloc, look, catalog, from, most)?)
}
