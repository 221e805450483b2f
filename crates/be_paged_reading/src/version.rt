//! Reads and writes version pages.
ghost use Rattle.std.specs.Prelude.{◌≡◌, ◌≢◌, ℕ, ◌+◌, ◌<◌, [], All, IsTrue};
ghost use Rattle.be_paged_reading.specs.Imports.{is_readable, is_taken, Filled, IsName};
ghost use Rattle.be_paged_reading.specs.Imports.{IsUnchanged, SetsStateAt};
ghost use Rattle.be_paged_reading.specs.Page.{contents, contents_of, IsVersionPage};

use crate::entry::Entry;
use arrayvec::ArrayVec;
use be_pages::{Look, Room};

/// The contents of a version page, loaded into memory. Because it is large, a writer reuses one
/// from write to write, whatever it contains.
#[derive(Drop)]
pub struct Version {
    pub next: u64,
    pub catalog: u64,
    pub entries: ArrayVec<Entry, 32>,
}

impl Version {
    /// Creates contents without indices.
    pub fn new() -> Version
        ensures next { result.next ≡ 0 }
        ensures catalog { result.catalog ≡ 0 }
        ensures indices { result.entries.items ≡ [] }
    {
        Version {
            next: 0,
            catalog: 0,
            entries: ArrayVec::new(),
        }
    }
}

/// Loads a version page, replacing the previous contents. The contents are filled in place because
/// passing them by value would copy their whole capacity.
pub fn fill_version<L: Look>(look: &mut L, page: u64, version: &mut Version)
    requires readable { IsTrue (is_readable (L.page_state look.old page)) }
    requires page { IsVersionPage (L.words look.old page) }
    ensures contents { contents version.new ≡ contents_of (L.words look.old page) }
    ensures unchanged { IsUnchanged L.kept L.page_state L.words look.old look.new }
{
    let count = look.word(page, 1) as usize;
    let next = look.word(page, 2);
    let catalog = look.word(page, 3);
    version.next = next;
    version.catalog = catalog;
    version.entries.clear();
    for i in 0..count {
        version.entries.push(Entry::load(look, page, 4 + 11 * i));
    }
}

/// Writes a version to a page that has been taken. Only the words that the version uses are
/// written.
pub fn store_version<R: Room>(room: &mut R, page: u64, version: &Version)
    requires taken { IsTrue (is_taken (R.page_state room.old page)) }
    requires named { All (λ e. IsName e.name) version.now.entries.items }
    requires open { IsTrue (R.is_open (R.kept room.old)) }
    ensures contents { contents_of (R.words room.new page) ≡ contents version.now }
    ensures page { IsVersionPage (R.words room.new page) }
    ensures page_state { SetsStateAt (R.page_state room.old) (R.page_state room.new) page Filled }
    ensures others { (q : ℕ) → q ≢ page → R.words room.new q ≡ R.words room.old q }
    ensures kept { R.kept room.new ≡ R.kept room.old }
{
    room.fill(page, 0, 255);
    room.fill(page, 1, version.entries.len() as u64);
    room.fill(page, 2, version.next);
    room.fill(page, 3, version.catalog);
    for i in 0..version.entries.len() {
        version.entries[i].store(room, page, 4 + 11 * i);
    }
}
