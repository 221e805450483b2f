//! Walks over the nodes in the catalog.
//!
//! The key of a node's mark consists only of the node's eight bytes. The keys of its attributes
//! follow and are longer. A walk that starts at the key of a node visits both marks and attributes,
//! and the first word of an item distinguishes them. The walk steps over attributes, of which a
//! node has at most 64: each step reads two words, whereas a descent to the next mark would read
//! several dozen.
ghost use Rattle.std.specs.Prelude.{◌≡◌, ◌∷◌, ◌+◌, ◌≤◌, [], IsTrue, IfNone, IfOk, IfSome, false};
ghost use Rattle.std.specs.Prelude.{take, true};
ghost use Rattle.be_paged_reading.specs.Imports.{from_be_bytes, is_readable, item_at, pairs};
ghost use Rattle.be_paged_reading.specs.Imports.{pairs_from, remaining, to_be_bytes, w64, IsCursor};
ghost use Rattle.be_paged_reading.specs.Imports.{IsItem, IsTree, IsUnchanged};
ghost use Rattle.be_paged_reading.specs.Nodes.{is_mark, marked};

use be_pages::Look;
use be_tree_reading::{Cursor, LENGTH_BITS};
use std::alloc::{AllocError, Global};

/// Returns the node whose mark is the catalog item at this offset, or `None` if the item isn't a
/// mark. The first word of the item determines that, and the second word is the node.
fn mark_at<L: Look>(look: &mut L, page: u64, at: usize) -> Option<u64>
    requires readable { IsTrue (is_readable (L.page_state look.old page)) }
    requires in_page { at + 42 ≤ 512 }
    requires item { IsItem (L.words look.old page) at }
    ensures mark { IfSome result (λ _. is_mark (item_at (L.words look.old page) at).key ≡ true) }
    ensures node { IfSome result (λ node. node
        ≡ from_be_bytes w64 (item_at (L.words look.old page) at).key) }
    ensures none { IfNone result (is_mark (item_at (L.words look.old page) at).key ≡ false) }
    ensures unchanged { IsUnchanged L.kept L.page_state L.words look.old look.new }
{
    let key_len = look.word(page, at) >> LENGTH_BITS;
    if key_len != 8 {
        return None;
    }
    Some(look.word(page, at + 1))
}

/// Advances the cursor past the next mark and returns the mark's node. Returns `None` if no mark is
/// left.
fn next_mark<L: Look>(look: &mut L, cursor: &mut Cursor) -> Option<u64>
    requires cursor { IsCursor (L.page_state look.old) (L.words look.old) cursor.old }
    ensures none { IfNone result (marked (remaining (L.words look.old) cursor.old) ≡ []) }
    ensures node { IfSome result (λ node. marked (remaining (L.words look.old) cursor.old)
        ≡ node ∷ marked (remaining (L.words look.old) cursor.new)) }
    ensures cursor { IsCursor (L.page_state look.old) (L.words look.old) cursor.new }
    ensures unchanged { IsUnchanged L.kept L.page_state L.words look.old look.new }
{
    'steps: while let Some((page, at)) = cursor.step(look) {
        if let Some(node) = mark_at(look, page, at) {
            return Some(node);
        }
    }
    None
}

/// Lists the nodes of up to `most` marks, starting with the mark of `from`.
pub(crate) fn list_nodes<L: Look>(
    alloc: Global,
    look: &mut L,
    catalog: u64,
    from: u64,
    most: usize,
) -> Result<Vec<u64>, AllocError>
    requires tree { IsTree (L.page_state look.old) (L.words look.old) catalog }
    ensures list { IfOk result (λ list. list.items
        ≡ take most (marked (pairs_from (pairs (L.words look.old) catalog) (to_be_bytes w64 from)
        false))) }
    ensures unchanged { IsUnchanged L.kept L.page_state L.words look.old look.new }
{
    let mut list = Vec::new(alloc);
    let mut cursor = Cursor::new();
    cursor.seek(look, catalog, &from.to_be_bytes(), false);
    for _ in 0..most {
        let Some(node) = next_mark(look, &mut cursor) else {
            return Ok(list);
        };
        list.push(node)?;
    }
    Ok(list)
}
