//! Finds indices directly on a version page.
//!
//! A caller that needs one or two indices by name doesn't load the whole version, which has room
//! for 32 of them. Names are compared on the page, and usually their first words already differ.
//! The indices are in ascending order of their names, so a search examines at most six of them.
//! Most callers request the same name repeatedly, so the last index found is remembered, and its
//! name is compared first.
ghost use Rattle.std.specs.Prelude.{◌≡◌, ◌+◌, ◌<◌, ◌≤◌, IsTrue, length, map, slice_index};
ghost use Rattle.std.specs.Prelude.{slice_index_or, true};
ghost use Rattle.be_paged_reading.specs.Imports.{is_readable, name_cmp, range_with_len};
ghost use Rattle.be_paged_reading.specs.Imports.{to_be_bytes, w64, IsUnchanged};
ghost use Rattle.be_paged_reading.specs.Entry.{Entry as AnyEntry};
ghost use Rattle.be_paged_reading.specs.Page.{contents_of, entry_at, IsEntry, IsNamedAt};
ghost use Rattle.be_paged_reading.specs.Page.{IsVersionPage};
ghost use Rattle.be_paged_reading.specs.Source.{IsFound, IsKnown};
ghost use Rattle.be_paged_reading.specs.Version.{HasVersion};

use crate::entry::kind_numbered;
use be_pages::Look;
use be_tree_reading::word_from;
use be_value::{Kind, Name};
use std::cmp::Ordering;

/// An index on a version page: its position among the indices, its kind and the root of its tree.
#[derive(Clone, Copy)]
pub(crate) struct FoundIndex {
    pub(crate) place: usize,
    pub(crate) kind: Kind,
    pub(crate) root: u64,
}

/// The last index found, if there is one.
pub(crate) type Known = Option<FoundIndex>;

/// Returns the index with this name on a version page, if there is one. The name of the last index
/// found is compared first.
#[inline(always)]
pub(crate) fn known_index<L: Look>(look: &mut L, page: u64, name: &Name, known: &mut Known) -> Known
    requires version { HasVersion L.page_state L.words look.old page }
    requires known { IsKnown (contents_of (L.words look.old page)).entries known.old }
    ensures found { IsFound (contents_of (L.words look.new page)).entries name.now result }
    ensures known { IsKnown (contents_of (L.words look.new page)).entries known.new }
    ensures unchanged { IsUnchanged L.kept L.page_state L.words look.old look.new }
{
    let Some(last) = *known else {
        return find_to_know(look, page, name, known);
    };
    if is_named(look, page, last.place, name) {
        return Some(last);
    }
    find_to_know(look, page, name, known)
}

/// Returns the index at this position on a version page, if there is one.
pub(crate) fn index_there<L: Look>(look: &mut L, page: u64, place: usize) -> Option<FoundIndex>
    requires version { HasVersion L.page_state L.words look.old page }
    ensures known { IsKnown (contents_of (L.words look.new page)).entries result }
    ensures unchanged { IsUnchanged L.kept L.page_state L.words look.old look.new }
{
    let count = look.word(page, 1);
    if place as u64 >= count {
        return None;
    }
    Some(index_at(look, page, place))
}

/// Finds the index with this name and remembers it for the next call.
#[inline(never)]
fn find_to_know<L: Look>(look: &mut L, page: u64, name: &Name, known: &mut Known) -> Known
    requires version { HasVersion L.page_state L.words look.old page }
    ensures found { IsFound (contents_of (L.words look.new page)).entries name.now result }
    ensures known { IsKnown (contents_of (L.words look.new page)).entries known.new }
    ensures unchanged { IsUnchanged L.kept L.page_state L.words look.old look.new }
{
    let index = find_index(look, page, name);
    *known = index;
    index
}

/// Returns `true` if the index at this position on a version page has this name.
fn is_named<L: Look>(look: &mut L, page: u64, i: usize, name: &Name) -> bool
    requires version { HasVersion L.page_state L.words look.old page }
    requires in_range { i < length (contents_of (L.words look.old page)).entries }
    ensures named { result ≡ true → IsNamedAt (contents_of (L.words look.old page)).entries name.now
        i }
    ensures unchanged { IsUnchanged L.kept L.page_state L.words look.old look.new }
{
    let text = name.as_str().as_bytes();
    let first = word_from(text, 0);
    match compare_at(look, page, 4 + 11 * i, text, first) {
        Ordering::Equal => true,
        Ordering::Less | Ordering::Greater => false,
    }
}

/// Finds the index with this name on a version page, if there is one. For most of the indices that
/// the search examines, only one word is read.
pub(crate) fn find_index<L: Look>(look: &mut L, page: u64, name: &Name) -> Option<FoundIndex>
    requires version { HasVersion L.page_state L.words look.old page }
    ensures found { IsFound (contents_of (L.words look.new page)).entries name.now result }
    ensures unchanged { IsUnchanged L.kept L.page_state L.words look.old look.new }
{
    let text = name.as_str().as_bytes();
    let first = word_from(text, 0);
    let mut low = 0;
    let mut high = look.word(page, 1) as usize;
    'halves: while low < high {
        let at = middle(low, high);
        match compare_at(look, page, 4 + 11 * at, text, first) {
            Ordering::Less => low = at + 1,
            Ordering::Equal => return Some(index_at(look, page, at)),
            Ordering::Greater => high = at,
        }
    }
    None
}

/// Returns the middle of the positions from `low` up to, but not including, `high`.
fn middle(low: usize, high: usize) -> usize
    requires { low < high }
    ensures { (low ≤ result) × (result < high) }
{
    low + (high - low) / 2
}

/// Compares the name of the index at this offset of a page with `name`, whose first word is
/// `first`. Names are padded with zeros, so the first word that differs is decisive. If no word
/// differs, the lengths are compared.
fn compare_at<L: Look>(look: &mut L, page: u64, at: usize, name: &[u8], first: u64) -> Ordering
    requires readable { IsTrue (is_readable (L.page_state look.old page)) }
    requires in_page { at + 11 ≤ 512 }
    requires entry { IsEntry (L.words look.old page) at }
    requires short { length name.now ≤ 63 }
    requires first { to_be_bytes w64 first
        ≡ map (λ k. slice_index name.now k) (range_with_len 0 8) }
    ensures order { result ≡ name_cmp (entry_at (L.words look.old page) at).name name.now }
    ensures unchanged { IsUnchanged L.kept L.page_state L.words look.old look.new }
{
    let mine = look.word(page, at + 1);
    if mine != first {
        return mine.cmp(&first);
    }
    for j in 1..name.len() / 8 + 1 {
        let next = look.word(page, at + 1 + j);
        let other = word_from(name, 8 * j);
        if next != other {
            return next.cmp(&other);
        }
    }
    let len = look.word(page, at) as usize;
    len.cmp(&name.len())
}

/// Returns the index at this position on a version page.
fn index_at<L: Look>(look: &mut L, page: u64, i: usize) -> FoundIndex
    requires readable { IsTrue (is_readable (L.page_state look.old page)) }
    requires page { IsVersionPage (L.words look.old page) }
    requires in_range { i < L.words look.old page 1 }
    ensures place { result.place ≡ i }
    ensures kind { (d : AnyEntry) → result.kind
        ≡ (slice_index_or (contents_of (L.words look.old page)).entries i d).kind }
    ensures root { (d : AnyEntry) → result.root
        ≡ (slice_index_or (contents_of (L.words look.old page)).entries i d).root }
    ensures unchanged { IsUnchanged L.kept L.page_state L.words look.old look.new }
{
    let kind = kind_numbered(look.word(page, 13 + 11 * i));
    let root = look.word(page, 14 + 11 * i);
    FoundIndex {
        place: i,
        kind,
        root,
    }
}
