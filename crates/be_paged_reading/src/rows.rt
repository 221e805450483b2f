//! Reads many attributes in one call: the values of several nodes for several names.
//!
//! A row consists of a node's values for these names. One descent leads to the first of its
//! attributes. As long as the names are in bytewise ascending order and lie near each other in the
//! catalog, the cursor steps to the attribute for the next name. Any other name costs a descent. If
//! a node has none of the names, the node itself is looked up.
ghost use Rattle.std.specs.Prelude.{◌≡◌, ◌+◌, ◌*◌, ◌^◌, ◌<◌, ◌≤◌, ℕ, [], ◌∷◌, Err};
ghost use Rattle.std.specs.Prelude.{None, Some, IfSome, IfNone, drop, length, map as each};
ghost use Rattle.std.specs.Prelude.{slice_get};
ghost use Rattle.std.specs.FinMap as map;
ghost use Rattle.be_paged_reading.specs.Imports.{attribute, item_at, pairs, remaining, AllNodes};
ghost use Rattle.be_paged_reading.specs.Imports.{AnyPageState, IsCursor, IsReadableAt, IsTree};
ghost use Rattle.be_paged_reading.specs.Imports.{IsUnchanged, State};
ghost use Rattle.be_paged_reading.specs.Catalog.{IsCatalog};
ghost use Rattle.be_paged_reading.specs.Cells.{GoesOn, IsAmong, IsFew, IsInRow, IsReadInto};
ghost use Rattle.be_paged_reading.specs.Cells.{IsValueAbsent, IsValuePlace, Reports};
ghost use Rattle.be_paged_reading.specs.Cells.{ReportsColumns, StartsElsewhere, WalksIn, cell_of};
ghost use Rattle.be_paged_reading.specs.Cells.{found_at, name_in, why_none};
ghost use Rattle.be_paged_reading.specs.Place.{IsFoundAt};
ghost use Rattle.be_paged_reading.specs.Reading.{AreValid};
ghost use Rattle.be_paged_reading.specs.Source.{HasItem};
ghost use Rattle.be_paged_reading.specs.Version.{HasVersion, IsVersion};

use crate::cells::{Cell, Filled, HeldName, empty_cell, held_key, read_into, report, report_value};
use be_pages::Look;
use be_tree_reading::{Cursor, find_place, first_word, has_key, is_key_at, is_past_at};
use be_value::Refusal;

/// The most items that a search compares before it descends from the root. The attributes of a node
/// lie only a few items apart, and a step to the next item reads much less than a descent.
const MOST_STEPS: usize = 6;

/// The page and offset of an item, if there is one.
type FoundItem = Option<(u64, usize)>;

/// A node whose attributes are read one after another: the position of the cursor, and whether the
/// node exists, if that is known.
#[derive(Drop)]
struct Row {
    catalog: u64,
    node: u64,
    cursor: Cursor,
    known: Option<bool>,
}

impl Row {
    /// Creates a row from which nothing has been read yet.
    fn new(catalog: u64, node: u64) -> Row
        ensures row { (page_state : ℕ → AnyPageState) (words : ℕ → ℕ → ℕ)
            → IsTree page_state words catalog
            → IsInRow page_state words result }
        ensures catalog { result.catalog ≡ catalog }
        ensures node { result.node ≡ node }
    {
        Row {
            catalog,
            node,
            cursor: Cursor::new(),
            known: None,
        }
    }
}

/// Advances the cursor past an item, and returns the location of the item if it has this key.
fn step_to<L: Look>(look: &mut L, cursor: &mut Cursor, key: &[u8]) -> Option<(u64, usize)>
    requires cursor { IsCursor (L.page_state look.old) (L.words look.old) cursor.old }
    ensures item { IfSome result (λ at. IsReadableAt (L.page_state look.old) (L.words look.old) at.0
        at.1) }
    ensures found { IfSome result (λ at. slice_get (remaining (L.words look.old) cursor.old) 0
        ≡ Some (item_at (L.words look.old at.0) at.1)) }
    ensures same { IfSome result (λ at. (item_at (L.words look.old at.0) at.1).key ≡ key.now) }
    ensures none { IfNone result (StartsElsewhere key.now
        (remaining (L.words look.old) cursor.old)) }
    ensures cursor { IsCursor (L.page_state look.old) (L.words look.old) cursor.new }
    ensures rest { remaining (L.words look.old) cursor.new
        ≡ drop 1 (remaining (L.words look.old) cursor.old) }
    ensures unchanged { IsUnchanged L.kept L.page_state L.words look.old look.new }
{
    let (page, at) = cursor.step(look)?;
    if !is_key_at(look, page, at, key) {
        return None;
    }
    Some((page, at))
}

/// Searches the next few items for the one with this key, and returns its location, or `Some(None)`
/// if the tree has no such item. Returns `None` if these items don't determine that, which they
/// do if the key is one of theirs or lies between two of them. The cursor is left past the items
/// that were compared.
fn place_near<L: Look>(look: &mut L, cursor: &mut Cursor, key: &[u8]) -> Option<FoundItem>
    requires cursor { IsCursor (L.page_state look.old) (L.words look.old) cursor.old }
    ensures found { (root : ℕ) → IsTree (L.page_state look.old) (L.words look.old) root
        → IsAmong (L.words look.old) root cursor.old
        → IfSome result (IsFoundAt (L.page_state look.new) (L.words look.new) root key.now) }
    ensures among { (root : ℕ) → IsTree (L.page_state look.old) (L.words look.old) root
        → IsAmong (L.words look.old) root cursor.old → IsAmong (L.words look.new) root cursor.new }
    ensures cursor { IsCursor (L.page_state look.new) (L.words look.new) cursor.new }
    ensures unchanged { IsUnchanged L.kept L.page_state L.words look.old look.new }
{
    let first = first_word(key);
    // The result if the next item has a higher key: after a lower one, that the key is absent.
    let mut beyond = None;
    for _ in 0..MOST_STEPS {
        let Some((page, at)) = cursor.step(look) else {
            return beyond;
        };
        if is_key_at(look, page, at, key) {
            return Some(Some((page, at)));
        }
        if is_past_at(look, page, at, Some(key), first) {
            return beyond;
        }
        beyond = Some(None);
    }
    None
}

/// Returns the location of the catalog item with this key, if there is one. The items at the cursor
/// are tried first; if they don't determine whether there is one, a descent follows. The cursor is
/// left just past the last item that was compared.
fn next_place<L: Look>(
    look: &mut L,
    catalog: u64,
    cursor: &mut Cursor,
    key: &[u8],
) -> Option<(u64, usize)>
    requires tree { IsTree (L.page_state look.old) (L.words look.old) catalog }
    requires cursor { WalksIn (L.page_state look.old) (L.words look.old) catalog cursor.old }
    ensures found { IsFoundAt (L.page_state look.new) (L.words look.new) catalog key.now result }
    ensures cursor { WalksIn (L.page_state look.new) (L.words look.new) catalog cursor.new }
    ensures unchanged { IsUnchanged L.kept L.page_state L.words look.old look.new }
{
    if let Some(found) = place_near(look, cursor, key) {
        return found;
    }
    cursor.seek(look, catalog, key, false);
    step_to(look, cursor, key)
}

/// Returns the location of a node's value for a name, if the node has it. It searches in the same
/// way as `next_place`.
fn value_place<L: Look>(
    look: &mut L,
    catalog: u64,
    node: u64,
    name: &HeldName,
    cursor: &mut Cursor,
) -> Option<(u64, usize)>
    requires tree { IsTree (L.page_state look.old) (L.words look.old) catalog }
    requires cursor { WalksIn (L.page_state look.old) (L.words look.old) catalog cursor.old }
    ensures item { HasItem (L.page_state look.new) (L.words look.new) result }
    ensures some { IsValuePlace (L.words look.old) (L.words look.new) catalog node
        (name_in name.now) result }
    ensures none { IsValueAbsent (L.words look.old) catalog node (name_in name.now) result }
    ensures cursor { WalksIn (L.page_state look.new) (L.words look.new) catalog cursor.new }
    ensures unchanged { IsUnchanged L.kept L.page_state L.words look.old look.new }
{
    let key = held_key(node, name);
    if key.len() <= 8 {
        return None;
    }
    next_place(look, catalog, cursor, &key)
}

/// Returns `true` if the node exists. It is looked up only once per row.
fn is_there<L: Look>(look: &mut L, catalog: u64, node: u64, known: &mut Option<bool>) -> bool
    requires tree { IsTree (L.page_state look.old) (L.words look.old) catalog }
    requires known { (nodes : AllNodes) → IsCatalog (pairs (L.words look.old) catalog) nodes
        → AreValid nodes → IfSome known.old (λ there. there ≡ map.contains_key nodes node) }
    ensures there { (nodes : AllNodes) → IsCatalog (pairs (L.words look.old) catalog) nodes
        → AreValid nodes → result ≡ map.contains_key nodes node }
    ensures known { (nodes : AllNodes) → IsCatalog (pairs (L.words look.old) catalog) nodes
        → AreValid nodes → IfSome known.new (λ there. there ≡ map.contains_key nodes node) }
    ensures unchanged { IsUnchanged L.kept L.page_state L.words look.old look.new }
{
    if let Some(there) = *known {
        return there;
    }
    let there = has_key(look, catalog, &node.to_be_bytes());
    *known = Some(there);
    there
}

/// Returns the cell for a name for which the node has no attribute.
fn none_cell(there: bool, offset: usize) -> Cell
    ensures { result ≡ cell_of offset (Err (why_none there)) }
{
    if there {
        empty_cell(&Refusal::NoAttr, offset)
    } else {
        empty_cell(&Refusal::NoNode, offset)
    }
}

/// Writes the value of the row's node for a name, or the reason why there is none.
fn report_attribute<L: Look>(
    look: &mut L,
    row: &mut Row,
    name: &HeldName,
    cells: &mut [Cell],
    bytes: &mut [u8],
    filled: &mut Filled,
)
    requires row { IsInRow (L.page_state look.old) (L.words look.old) row.old }
    requires cells { filled.old.cells < 2 ^ 32 }
    requires few { IsFew filled.old }
    ensures reported { Reports (L.words look.old) row.old.catalog
        (λ nodes. found_at nodes row.old.node (name_in name.now) ∷ []) cells.old cells.new
        bytes.old bytes.new filled.old filled.new }
    ensures row { GoesOn (L.page_state look.new) (L.words look.new) row.old row.new }
    ensures one { filled.new.cells ≡ filled.old.cells + 1 }
    ensures few { IsFew filled.new }
    ensures unchanged { IsUnchanged L.kept L.page_state L.words look.old look.new }
{
    let place = value_place(look, row.catalog, row.node, name, &mut row.cursor);
    if let Some((page, at)) = place {
        row.known = Some(true);
        report_value(look, page, at, cells, bytes, filled);
        return;
    }
    let there = is_there(look, row.catalog, row.node, &mut row.known);
    let cell = none_cell(there, filled.bytes);
    report(cells, bytes, filled, cell, b"");
}

/// Writes the value of the row's node for each of the names.
fn report_row<L: Look>(
    look: &mut L,
    row: &mut Row,
    names: &[HeldName],
    cells: &mut [Cell],
    bytes: &mut [u8],
    filled: &mut Filled,
)
    requires row { IsInRow (L.page_state look.old) (L.words look.old) row.old }
    requires cells { filled.old.cells + length names.now ≤ 2 ^ 32 }
    requires few { IsFew filled.old }
    ensures reported { Reports (L.words look.old) row.old.catalog
        (λ nodes. each (found_at nodes row.old.node) (each name_in names.now)) cells.old cells.new
        bytes.old bytes.new filled.old filled.new }
    ensures count { filled.new.cells ≡ filled.old.cells + length names.now }
    ensures few { IsFew filled.new }
    ensures unchanged { IsUnchanged L.kept L.page_state L.words look.old look.new }
{
    for name in names {
        report_attribute(look, row, name, cells, bytes, filled);
    }
}

/// Writes the value of each node for each name: all cells of the first node, then those of the
/// second, and so on. The bytes of all strings are written to `bytes`, one after another. Cells and
/// bytes that don't fit are omitted. Returns the total length of all strings in bytes.
///
/// No memory is allocated. Each node costs one descent if the names are in ascending order and its
/// attributes with these names lie only a few items apart. A name for which the node has no
/// attribute may cost one more, and so does a node that has none of the names.
pub fn columns<L: Look>(
    look: &mut L,
    version_page: u64,
    nodes: &[u64],
    names: &[HeldName],
    cells: &mut [Cell],
    bytes: &mut [u8],
) -> u64
    requires version { HasVersion L.page_state L.words look.old version_page }
    requires few { length nodes.now * length names.now ≤ 2 ^ 32 }
    ensures reported { (volume : State) → IsVersion (L.page_state look.old) (L.words look.old)
        version_page volume →
        ReportsColumns volume nodes.now (each name_in names.now) cells.old cells.new bytes.old
        bytes.new result }
    ensures unchanged { IsUnchanged L.kept L.page_state L.words look.old look.new }
{
    let catalog = look.word(version_page, 3);
    let mut filled = Filled { cells: 0, bytes: 0 };
    for node in nodes {
        let mut row = Row::new(catalog, *node);
        report_row(look, &mut row, names, cells, bytes, &mut filled);
    }
    filled.bytes as u64
}

/// Returns a node's attribute as a cell, if the node exists and has the attribute. As many bytes of
/// a string as fit are written to `bytes`. It costs one descent of the catalog tree and allocates
/// no memory.
#[inline(always)]
pub fn get_into<L: Look>(
    look: &mut L,
    version_page: u64,
    node: u64,
    name: &HeldName,
    bytes: &mut [u8],
) -> Option<Cell>
    requires version { HasVersion L.page_state L.words look.old version_page }
    ensures value { (volume : State) → IsVersion (L.page_state look.old) (L.words look.old)
        version_page volume →
        IsReadInto (attribute volume node (name_in name.now)) result bytes.old bytes.new }
    ensures unchanged { IsUnchanged L.kept L.page_state L.words look.old look.new }
{
    let catalog = look.word(version_page, 3);
    let (page, at) = found_value(look, catalog, node, name)?;
    read_into(look, page, at, bytes)
}

/// Returns the location of a node's value for a name, if the node has it. It costs one descent.
#[inline(always)]
fn found_value<L: Look>(look: &mut L, catalog: u64, node: u64, name: &HeldName) -> FoundItem
    requires tree { IsTree (L.page_state look.old) (L.words look.old) catalog }
    ensures item { HasItem (L.page_state look.new) (L.words look.new) result }
    ensures some { IsValuePlace (L.words look.old) (L.words look.new) catalog node
        (name_in name.now) result }
    ensures none { IsValueAbsent (L.words look.old) catalog node (name_in name.now) result }
    ensures unchanged { IsUnchanged L.kept L.page_state L.words look.old look.new }
{
    let key = held_key(node, name);
    if key.len() <= 8 {
        return None;
    }
    find_place(look, catalog, &key)
}
