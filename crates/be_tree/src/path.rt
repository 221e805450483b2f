//! The path down to a key.
//!
//! A change descends a tree once. It keeps the page and the branch taken on each level, so it can
//! go up again without another search.
ghost use Rattle.std.specs.Prelude.{◌≡◌, ◌<◌, [], IfOk, IfErr, IsTrue};
ghost use Rattle.std.specs.declared.cmp.Ordering.TheVariants.{Equal};
ghost use Rattle.be_pages.specs.Pages.{IsUnchanged, is_readable};
ghost use Rattle.be_tree_reading.specs.Key.{IsGap, key_cmp};
ghost use Rattle.be_tree_reading.specs.Page.{IsPage, item_at, item_place, items_of};
ghost use Rattle.be_tree.specs.Path.{IsPathTo};
ghost use Rattle.be_tree_reading.specs.Tree.{IsTree};
ghost use Rattle.be_tree_reading.specs.Words.{IsFirst};

use arrayvec::ArrayVec;
use be_pages::Look;
use be_tree_reading::{branch_in, child_at, first_word, item_number, search};
use be_value::Refusal;

/// An inner page on the path, and the number of the branch that the path takes.
#[derive(Clone, Copy)]
pub(crate) struct Step {
    pub(crate) page: u64,
    pub(crate) at: usize,
}

impl Default for Step {
    fn default() -> Step {
        Step { page: 0, at: 0 }
    }
}

/// The path from a tree's root down to a key. It is valid as long as the tree's pages keep their
/// words.
#[derive(Drop)]
pub(crate) struct Path {
    /// The inner pages, the root first.
    pub(crate) above: ArrayVec<Step, 13>,
    /// The leaf's page.
    pub(crate) leaf: u64,
    /// `Ok` with the number of the leaf's item that has the key, or `Err` with the number of items
    /// that have lower keys.
    pub(crate) place: Result<usize, usize>,
}

impl Path {
    /// Creates an empty path, to be filled.
    pub(crate) fn new() -> Path
        ensures { result.above.items ≡ [] }
    {
        Path {
            above: ArrayVec::new(),
            leaf: 0,
            place: Err(0),
        }
    }
}

/// The root of a changed tree, or the reason why the tree wasn't changed.
pub(crate) type NewRoot = Result<u64, Refusal>;

/// Returns `Ok` with the number of the item that has the key, or `Err` with the number of items
/// that have lower keys.
fn search_number<L: Look>(look: &mut L, page: u64, key: &[u8], first: u64) -> Result<usize, usize>
    requires readable { IsTrue (is_readable (L.page_state look.old page)) }
    requires page { IsPage (L.words look.old page) }
    requires first { IsFirst key.now first }
    ensures in_range { IfOk result (λ at. at < L.words look.old page 1) }
    ensures same { IfOk result (λ at. key_cmp (item_at (L.words look.old page) (item_place at)).key
        key.now ≡ Equal) }
    ensures absent { IfErr result (IsGap key.now (items_of (L.words look.old page))) }
    ensures unchanged { IsUnchanged L.kept L.page_state L.words look.old look.new }
{
    match search(look, page, key, first) {
        Ok(place) => Ok(item_number(place)),
        Err(place) => Err(item_number(place)),
    }
}

/// Descends to a key in a tree that isn't empty, and records the path in `path`, which must be
/// empty. It costs one descent.
pub(crate) fn find_path<L: Look>(look: &mut L, root: u64, key: &[u8], path: &mut Path)
    requires tree { IsTree (L.page_state look.old) (L.words look.old) root }
    requires some { 0 < root }
    requires empty { path.old.above.items ≡ [] }
    ensures path { IsPathTo (L.page_state look.old) (L.words look.old) root key.now path.new }
    ensures unchanged { IsUnchanged L.kept L.page_state L.words look.old look.new }
{
    let first = first_word(key);
    let mut page = root - 1;
    let mut level = look.word(page, 0);
    while level > 0 {
        let place = branch_in(look, page, key, first);
        let at = item_number(place);
        path.above.push(Step { page, at });
        page = child_at(look, page, place);
        level -= 1;
    }
    path.leaf = page;
    path.place = search_number(look, page, key, first);
}
