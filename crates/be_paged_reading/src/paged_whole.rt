//! Reads a whole version, from which be_volume_state rebuilds a volume.
//!
//! The reader remembers nothing that it has read. To determine whether an index contains a node, it
//! looks up the key of the node's attribute in the tree of the index. That is enough because every
//! pair in an index belongs to an attribute.
ghost use Rattle.std.specs.Prelude.{◌≡◌, IfOk, None, true};
ghost use Rattle.std.specs.FinMap as map;
ghost use Rattle.be_paged_reading.specs.Imports.{index_kinds, is_held, option_map, IsKey};
ghost use Rattle.be_paged_reading.specs.Imports.{IsUnchanged, NoNode, State};
ghost use Rattle.be_paged_reading.specs.Version.{HasVersion, IsVersion};

use crate::on_page::find_index;
use crate::reading::{attrs, get, indices, next};
use be_pages::Look;
use be_tree_reading::has_key;
use be_value::{Kind, Name, Refusal, Value, key_of};
use be_volume_state::Whole;
use std::alloc::{AllocError, Global};

/// A reader for one whole version, consisting of the page of the version and a page reader.
#[derive(Drop)]
pub struct PagedWhole<L> {
    alloc: Global,
    look: L,
    page: u64,
}

/// Creates a reader for the whole version on this page. Nothing is read yet. The reader holds the
/// page reader until `into_look` is called.
pub fn whole<L: Look>(alloc: Global, look: L, version_page: u64) -> PagedWhole<L>
    requires version { HasVersion L.page_state L.words look version_page }
    ensures answers { (volume : State)
        → IsVersion (L.page_state look) (L.words look) version_page volume
        → ⟦<PagedWhole<L> as Whole>⟧.answers_for result volume }
    ensures look { ⟦<PagedWhole<L> as Whole>⟧.kept result
        ≡ (L.kept look, (L.page_state look, L.words look)) }
{
    PagedWhole {
        alloc,
        look,
        page: version_page,
    }
}

impl<L: Look> PagedWhole<L> {
    /// Returns the page reader, for which all facts still hold.
    pub fn into_look(self) -> L
        ensures look { (L.kept result, (L.page_state result, L.words result))
            ≡ ⟦<PagedWhole<L> as Whole>⟧.kept self }
    {
        self.look
    }
}

impl<L: Look> Whole for PagedWhole<L> {
    ghost use Rattle.std.specs.Prelude.{ℕ};
    ghost use Rattle.be_paged_reading.specs.Imports.{AnyPageState};
    ghost use Rattle.be_paged_reading.specs.Version.{HasVersion, IsVersion};

    ghost Kept = { L.Kept × ((ℕ → AnyPageState) × (ℕ → ℕ → ℕ)) };

    ghost kept = { λ w. (L.kept w.look, (L.page_state w.look, L.words w.look)) };

    ghost answers_for = { λ w volume. IsVersion (L.page_state w.look) (L.words w.look) w.page
        volume };

    fn next(&mut self) -> u64 {
        next(&mut self.look, self.page)
    }

    fn attrs(&mut self, node: u64) -> Result<Option<Vec<(Name, Value)>>, AllocError> {
        attrs_of(self.alloc, &mut self.look, self.page, node)
    }

    fn indices(&mut self) -> Result<Vec<(Name, Kind)>, AllocError> {
        kinds_of(self.alloc, &mut self.look, self.page)
    }

    fn is_held(&mut self, node: u64, name: &Name) -> bool {
        index_has(&mut self.look, self.page, node, name)
    }
}

/// Returns a node's attributes in bytewise ascending order of their names, or `None` if the node
/// doesn't exist.
fn attrs_of<L: Look>(
    alloc: Global,
    look: &mut L,
    version_page: u64,
    node: u64,
) -> Result<Option<Vec<(Name, Value)>>, AllocError>
    requires version { HasVersion L.page_state L.words look.old version_page }
    ensures attrs { (volume : State) → IsVersion (L.page_state look.old) (L.words look.old)
        version_page volume →
        IfOk result (λ list. option_map (λ l. l.items) list
        ≡ option_map map.entries (map.get volume.nodes node)) }
    ensures unchanged { IsUnchanged L.kept L.page_state L.words look.old look.new }
{
    match attrs(alloc, look, version_page, node) {
        Ok(list) => Ok(Some(list)),
        Err(refusal) => none_for(refusal),
    }
}

/// Returns `Ok(None)` if the error says that the node doesn't exist. Any other error means that
/// memory ran out.
fn none_for(refusal: Refusal) -> Result<Option<Vec<(Name, Value)>>, AllocError>
    ensures { IfOk result (λ list. (option_map (λ l. l.items) list ≡ None) × (refusal ≡ NoNode)) }
{
    match refusal {
        Refusal::NoNode => Ok(None),
        _ => Err(AllocError),
    }
}

/// Returns the names and kinds of the indices, in bytewise ascending order of the names.
fn kinds_of<L: Look>(
    alloc: Global,
    look: &mut L,
    version_page: u64,
) -> Result<Vec<(Name, Kind)>, AllocError>
    requires version { HasVersion L.page_state L.words look.old version_page }
    ensures indices { (volume : State)
        → IsVersion (L.page_state look.old) (L.words look.old) version_page volume →
        IfOk result (λ list. list.items ≡ index_kinds volume) }
    ensures unchanged { IsUnchanged L.kept L.page_state L.words look.old look.new }
{
    match indices(alloc, look, version_page) {
        Ok(list) => Ok(list),
        Err(_) => Err(AllocError),
    }
}

/// Returns `true` if the index with this name contains a key, and `false` if there is no such
/// index.
fn has_pair<L: Look>(look: &mut L, version_page: u64, name: &Name, key: &[u8]) -> bool
    requires version { HasVersion L.page_state L.words look.old version_page }
    ensures found { (volume : State) → IsVersion (L.page_state look.old) (L.words look.old)
        version_page volume →
        result ≡ true → IsKey volume name.now key.now }
    ensures finds { (volume : State) → IsVersion (L.page_state look.old) (L.words look.old)
        version_page volume →
        IsKey volume name.now key.now → result ≡ true }
    ensures unchanged { IsUnchanged L.kept L.page_state L.words look.old look.new }
{
    match find_index(look, version_page, name) {
        Some(index) => has_key(look, index.root, key),
        None => false,
    }
}

/// Returns `true` if the index with this name contains a node, which means that it contains the key
/// of the node's attribute.
fn index_has<L: Look>(look: &mut L, version_page: u64, node: u64, name: &Name) -> bool
    requires version { HasVersion L.page_state L.words look.old version_page }
    ensures held { (volume : State) → IsVersion (L.page_state look.old) (L.words look.old)
        version_page volume →
        result ≡ is_held volume node name.now }
    ensures unchanged { IsUnchanged L.kept L.page_state L.words look.old look.new }
{
    let Some(value) = get(look, version_page, node, name) else {
        return false;
    };
    value.kind().indexable() && has_pair(look, version_page, name, key_of(&value, node).as_slice())
}
