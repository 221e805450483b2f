//! Walks over the attributes of a node.
//!
//! In the catalog, a node's mark is followed by its attributes, in ascending order of their names.
//! A walk therefore begins after the mark and ends at the first key of another node. A node has at
//! most 64 attributes, which bounds the length of the walk.
ghost use Rattle.std.specs.Prelude.{◌≡◌, ◌+◌, ◌≤◌, ◌<◌, ℕ, IsTrue, IfOk, IfSome, IfNone, length};
ghost use Rattle.std.specs.Prelude.{option_map, drop, slice_get, is_some, true, Some, None, List};
ghost use Rattle.std.specs.FinMap as map;
ghost use Rattle.be_paged_reading.specs.Imports.{attributes_of, is_readable, item_at, pairs};
ghost use Rattle.be_paged_reading.specs.Imports.{remaining, AllNodes, AnyValue, IsCursor, IsItem};
ghost use Rattle.be_paged_reading.specs.Imports.{IsName, IsReadableAt, IsTree, IsUnchanged};
ghost use Rattle.be_paged_reading.specs.Imports.{IsValue};
ghost use Rattle.be_paged_reading.specs.Catalog.{IsCatalog, catalog_key};
ghost use Rattle.be_paged_reading.specs.Facts.{count_of};
ghost use Rattle.be_paged_reading.specs.Place.{IsPlaceOf};
ghost use Rattle.be_paged_reading.specs.Reading.{AreValid, attribute_pair, front_of_node, is_of};
ghost use Rattle.be_paged_reading.specs.Source.{HasItem};

use crate::catalog::value_at;
use be_pages::Look;
use be_tree_reading::{Cursor, LENGTH_BITS, is_key_at, key_at};
use be_value::{Name, Value};
use be_volume::MAX_ATTRIBUTES;
use std::alloc::{AllocError, Global};
use std::str;

/// Returns `true` if the item at this offset has a key that begins with the node. The first word of
/// the key determines that.
fn is_of_node<L: Look>(look: &mut L, page: u64, at: usize, node: u64) -> bool
    requires readable { IsTrue (is_readable (L.page_state look.old page)) }
    requires in_page { at + 42 ≤ 512 }
    requires item { IsItem (L.words look.old page) at }
    ensures of_node { result ≡ is_of node (item_at (L.words look.old page) at).key }
    ensures unchanged { IsUnchanged L.kept L.page_state L.words look.old look.new }
{
    let key_len = look.word(page, at) >> LENGTH_BITS;
    if key_len < 8 {
        return false;
    }
    look.word(page, at + 1) == node
}

/// Advances the cursor past the node's next attribute and returns the page and offset of that
/// attribute. Returns `None` after the node's last attribute.
fn next_attribute<L: Look>(look: &mut L, cursor: &mut Cursor, node: u64) -> Option<(u64, usize)>
    requires cursor { IsCursor (L.page_state look.old) (L.words look.old) cursor.old }
    ensures none { IfNone result (slice_get
        (front_of_node node (remaining (L.words look.old) cursor.old)) 0 ≡ None) }
    ensures item { IfSome result (λ at. slice_get
        (front_of_node node (remaining (L.words look.old) cursor.old)) 0
        ≡ Some (item_at (L.words look.old at.0) at.1)) }
    ensures fits { HasItem (L.page_state look.old) (L.words look.old) result }
    ensures cursor { IsCursor (L.page_state look.old) (L.words look.old) cursor.new }
    ensures rest { IfSome result (λ _. front_of_node node (remaining (L.words look.old) cursor.new)
        ≡ drop 1 (front_of_node node (remaining (L.words look.old) cursor.old))) }
    ensures unchanged { IsUnchanged L.kept L.page_state L.words look.old look.new }
{
    let (page, at) = cursor.step(look)?;
    if !is_of_node(look, page, at, node) {
        return None;
    }
    Some((page, at))
}

/// Advances the cursor past the node's next attribute. Returns `false` if there is no next
/// attribute. Copies nothing.
fn pass_attribute<L: Look>(look: &mut L, cursor: &mut Cursor, node: u64) -> bool
    requires cursor { IsCursor (L.page_state look.old) (L.words look.old) cursor.old }
    ensures found { result ≡ is_some (slice_get
        (front_of_node node (remaining (L.words look.old) cursor.old)) 0) }
    ensures cursor { IsCursor (L.page_state look.old) (L.words look.old) cursor.new }
    ensures rest { result ≡ true → front_of_node node (remaining (L.words look.old) cursor.new)
        ≡ drop 1 (front_of_node node (remaining (L.words look.old) cursor.old)) }
    ensures unchanged { IsUnchanged L.kept L.page_state L.words look.old look.new }
{
    next_attribute(look, cursor, node).is_some()
}

/// Counts the attributes of the node that are ahead of the cursor. The count stops at the maximum
/// number of attributes of a node.
fn count_rest<L: Look>(look: &mut L, cursor: &mut Cursor, node: u64) -> usize
    requires cursor { IsCursor (L.page_state look.old) (L.words look.old) cursor.old }
    ensures count { length (front_of_node node (remaining (L.words look.old) cursor.old)) ≤ 64 →
        result ≡ length (front_of_node node (remaining (L.words look.old) cursor.old)) }
    ensures unchanged { IsUnchanged L.kept L.page_state L.words look.old look.new }
{
    for count in 0..MAX_ATTRIBUTES {
        if !pass_attribute(look, cursor, node) {
            return count;
        }
    }
    MAX_ATTRIBUTES
}

/// Returns the number of attributes of the node, or `None` if the node doesn't exist. It makes one
/// descent to the node's mark, and then reads the first word of each key.
pub(crate) fn attribute_count<L: Look>(look: &mut L, catalog: u64, node: u64) -> Option<usize>
    requires tree { IsTree (L.page_state look.old) (L.words look.old) catalog }
    ensures count { (nodes : AllNodes) → IsCatalog (pairs (L.words look.old) catalog) nodes
        → AreValid nodes →
        map.len (attributes_of nodes node) ≤ 64 → result ≡ count_of nodes node }
    ensures unchanged { IsUnchanged L.kept L.page_state L.words look.old look.new }
{
    let mark = node.to_be_bytes();
    let mut cursor = Cursor::new();
    cursor.seek(look, catalog, &mark, false);
    let (page, at) = cursor.step(look)?;
    if !is_key_at(look, page, at, &mark) {
        return None;
    }
    Some(count_rest(look, &mut cursor, node))
}

/// Returns the name that follows the node in the key of the catalog item at this offset.
fn name_at<L: Look>(look: &mut L, page: u64, at: usize) -> Option<Name>
    requires readable { IsTrue (is_readable (L.page_state look.old page)) }
    requires in_page { at + 42 ≤ 512 }
    requires item { IsItem (L.words look.old page) at }
    ensures name { (node : ℕ) (name : List ℕ) → IsName name
        → (item_at (L.words look.old page) at).key ≡ catalog_key node name → result ≡ Some name }
    ensures beyond { IfSome result (λ name. name
        ≡ drop 8 (item_at (L.words look.old page) at).key) }
    ensures unchanged { IsUnchanged L.kept L.page_state L.words look.old look.new }
{
    let key = key_at(look, page, at);
    Name::new(str::from_utf8(key.get(8..)?).ok()?).ok()
}

/// Returns the attribute that the catalog item at this offset encodes.
fn read_attribute<L: Look>(look: &mut L, page: u64, at: usize) -> Option<(Name, Value)>
    requires readable { IsTrue (is_readable (L.page_state look.old page)) }
    requires in_page { at + 42 ≤ 512 }
    requires item { IsItem (L.words look.old page) at }
    ensures attribute { (node : ℕ) (name : List ℕ) (value : AnyValue) → IsName name → IsValue value
        →
        item_at (L.words look.old page) at ≡ attribute_pair node (name, value) → result
        ≡ Some (name, value) }
    ensures unchanged { IsUnchanged L.kept L.page_state L.words look.old look.new }
{
    let name = name_at(look, page, at)?;
    let value = value_at(look, page, at)?;
    Some((name, value))
}

/// Advances the cursor past the node's next attribute and returns the attribute. Returns `None`
/// after the node's last attribute.
fn next_value<L: Look>(look: &mut L, cursor: &mut Cursor, node: u64) -> Option<(Name, Value)>
    requires cursor { IsCursor (L.page_state look.old) (L.words look.old) cursor.old }
    ensures value { (name : List ℕ) (value : AnyValue) → IsName name → IsValue value →
        slice_get (front_of_node node (remaining (L.words look.old) cursor.old)) 0
        ≡ Some (attribute_pair node (name, value)) → result ≡ Some (name, value) }
    ensures none { slice_get (front_of_node node (remaining (L.words look.old) cursor.old)) 0 ≡ None
        → result ≡ None }
    ensures more { IfSome result (λ _. 0
        < length (front_of_node node (remaining (L.words look.old) cursor.old))) }
    ensures cursor { IsCursor (L.page_state look.old) (L.words look.old) cursor.new }
    ensures rest { IfSome result (λ _. front_of_node node (remaining (L.words look.old) cursor.new)
        ≡ drop 1 (front_of_node node (remaining (L.words look.old) cursor.old))) }
    ensures unchanged { IsUnchanged L.kept L.page_state L.words look.old look.new }
{
    let (page, at) = next_attribute(look, cursor, node)?;
    read_attribute(look, page, at)
}

/// Lists the node's attributes in ascending order of their names.
pub(crate) fn list_attributes<L: Look>(
    alloc: Global,
    look: &mut L,
    catalog: u64,
    node: u64,
) -> Result<Vec<(Name, Value)>, AllocError>
    requires tree { IsTree (L.page_state look.old) (L.words look.old) catalog }
    ensures list { (nodes : AllNodes) → IsCatalog (pairs (L.words look.old) catalog) nodes
        → AreValid nodes →
        map.len (attributes_of nodes node) ≤ 64
        → IfOk result (λ list. list.items ≡ map.entries (attributes_of nodes node)) }
    ensures unchanged { IsUnchanged L.kept L.page_state L.words look.old look.new }
{
    let mut list = Vec::new(alloc);
    let mut cursor = Cursor::new();
    cursor.seek(look, catalog, &node.to_be_bytes(), true);
    for _ in 0..MAX_ATTRIBUTES {
        let Some(attribute) = next_value(look, &mut cursor, node) else {
            return Ok(list);
        };
        list.push(attribute)?;
    }
    Ok(list)
}

/// Advances the cursor past the node's next attribute and returns its name and location, without
/// reading the value. Returns `None` after the node's last attribute.
fn next_name<L: Look>(look: &mut L, cursor: &mut Cursor, node: u64) -> Option<(Name, (u64, usize))>
    requires cursor { IsCursor (L.page_state look.old) (L.words look.old) cursor.old }
    ensures name { (name : List ℕ) (value : AnyValue) → IsName name →
        slice_get (front_of_node node (remaining (L.words look.old) cursor.old)) 0
        ≡ Some (attribute_pair node (name, value)) → option_map (λ found. found.0) result
        ≡ Some name }
    ensures none { slice_get (front_of_node node (remaining (L.words look.old) cursor.old)) 0 ≡ None
        → option_map (λ found. found.0) result ≡ None }
    ensures item { IfSome result (λ found. slice_get
        (front_of_node node (remaining (L.words look.old) cursor.old)) 0
        ≡ Some (item_at (L.words look.old found.1.0) found.1.1)) }
    ensures fits { IfSome result (λ found. IsReadableAt (L.page_state look.old) (L.words look.old)
        found.1.0 found.1.1) }
    ensures beyond { IfSome result (λ found. found.0
        ≡ drop 8 (item_at (L.words look.old found.1.0) found.1.1).key) }
    ensures unchanged { IsUnchanged L.kept L.page_state L.words look.old look.new }
{
    let (page, at) = next_attribute(look, cursor, node)?;
    let name = name_at(look, page, at)?;
    Some((name, (page, at)))
}

/// Returns the name of the node's first attribute and its location in the catalog tree, or `None`
/// if the node has no attributes.
pub fn first_attribute<L: Look>(
    look: &mut L,
    catalog: u64,
    node: u64,
) -> Option<(Name, (u64, usize))>
    requires tree { IsTree (L.page_state look.old) (L.words look.old) catalog }
    ensures name { (nodes : AllNodes) → IsCatalog (pairs (L.words look.old) catalog) nodes
        → AreValid nodes →
        option_map (λ found. found.0) result
        ≡ option_map (λ e. e.0) (slice_get (map.entries (attributes_of nodes node)) 0) }
    ensures place { IfSome result (λ found. IsPlaceOf (L.page_state look.new) (L.words look.new)
        catalog (catalog_key node found.0) found.1.0 found.1.1) }
    ensures unchanged { IsUnchanged L.kept L.page_state L.words look.old look.new }
{
    let mut cursor = Cursor::new();
    cursor.seek(look, catalog, &node.to_be_bytes(), true);
    next_name(look, &mut cursor, node)
}
