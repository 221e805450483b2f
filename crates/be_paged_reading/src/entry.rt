//! An index as it is stored on a version page.
ghost use Rattle.std.specs.Prelude.{◌≡◌, ℕ, ◌+◌, ◌<◌, ◌≤◌, IsTrue, slice_index};
ghost use Rattle.be_paged_reading.specs.Imports.{is_readable, name_cmp, Filled, IsName};
ghost use Rattle.be_paged_reading.specs.Imports.{IsUnchanged, OnlyWrites};
ghost use Rattle.be_paged_reading.specs.Entry.{Entry as AnyEntry};
ghost use Rattle.be_paged_reading.specs.Page.{kind_numbered as kind_of_number, entry_at, IsEntry};

use arrayvec::ArrayVec;
use be_pages::{Look, Room};
use be_tree_reading::word_from;
use be_value::{Kind, Name};
use std::cmp::Ordering;
use std::marker::Model;
use std::str;

/// An index of a version. Its name is stored in eight words, as it is on the page. Contracts see
/// the bytes of the name, the kind and the root.
#[derive(Drop)]
pub struct Entry {
    len: usize,
    words: [u64; 8],
    kind: Kind,
    root: u64,
}

impl Model for Entry {
    ghost use Rattle.std.specs.Prelude.{◌≤◌, slice_index};
    ghost use Rattle.be_paged_reading.specs.Imports.{bytes_at};
    ghost use Rattle.be_paged_reading.specs.Entry.{Entry as AnyEntry, HaveText};

    ghost Value = { AnyEntry };

    ghost view = { λ e. record {
      name = bytes_at (slice_index e.words) 0 e.len;
      kind = e.kind;
      root = e.root;
    } };

    ghost invariant = { λ e. (e.len ≤ 63)
        × HaveText (slice_index e.words) (bytes_at (slice_index e.words) 0 e.len) };
}

impl Default for Entry {
    fn default() -> Entry {
        Entry {
            len: 0,
            words: [0; 8],
            kind: Kind::Cstr,
            root: 0,
        }
    }
}

/// Returns the kind that has this number on pages.
pub fn kind_numbered(number: u64) -> Kind
    requires { (1 ≤ number) × (number ≤ 7) }
    ensures { result ≡ kind_of_number number }
{
    match number {
        1 => Kind::Cstr,
        2 => Kind::Long,
        3 => Kind::Llng,
        4 => Kind::Mims,
        5 => Kind::Rawt,
        6 => Kind::Ulng,
        _ => Kind::Ullg,
    }
}

/// Returns the number that the kind has on pages.
fn kind_number(kind: Kind) -> u64
    ensures number { (1 ≤ result) × (result ≤ 7) }
    ensures back { kind_of_number result ≡ kind }
{
    u64::from(kind.number())
}

/// Returns the eight words of a page that begin at this offset.
fn load_words<L: Look>(look: &mut L, page: u64, at: usize) -> [u64; 8]
    requires readable { IsTrue (is_readable (L.page_state look.old page)) }
    requires in_page { at + 8 ≤ 512 }
    ensures words { (j : ℕ) → j < 8 → slice_index result j ≡ L.words look.old page (at + j) }
    ensures unchanged { IsUnchanged L.kept L.page_state L.words look.old look.new }
{
    let mut words = [0; 8];
    for j in 0..8 {
        words[j] = look.word(page, at + j);
    }
    words
}

/// Writes eight words at this offset of a page that already has a filled word.
fn store_words<R: Room>(room: &mut R, page: u64, at: usize, words: &[u64; 8])
    requires filled { R.page_state room.old page ≡ Filled }
    requires in_page { at + 8 ≤ 512 }
    requires open { IsTrue (R.is_open (R.kept room.old)) }
    ensures stored { (j : ℕ) → j < 8 → R.words room.new page (at + j) ≡ slice_index words.now j }
    ensures only { OnlyWrites R.kept R.page_state R.words page at (at + 8) room.old room.new }
{
    for j in 0..8 {
        room.refill(page, at + j, words[j]);
    }
}

impl Entry {
    /// Creates an index with this name and kind, without pairs.
    pub fn new(name: &Name, kind: Kind) -> Entry
        ensures entry { result ≡ record { name = name.now; kind = kind; root = 0 } }
        ensures named { IsName name.now }
    {
        let bytes = name.as_str().as_bytes();
        let words = [
            word_from(bytes, 0),
            word_from(bytes, 8),
            word_from(bytes, 16),
            word_from(bytes, 24),
            word_from(bytes, 32),
            word_from(bytes, 40),
            word_from(bytes, 48),
            word_from(bytes, 56),
        ];
        Entry {
            len: bytes.len(),
            words,
            kind,
            root: 0,
        }
    }

    /// Returns the kind of the index.
    pub fn kind(&self) -> Kind
        ensures { result ≡ self.now.kind }
    {
        self.kind
    }

    /// Returns the root of the index's tree.
    pub fn root(&self) -> u64
        ensures { result ≡ self.now.root }
    {
        self.root
    }

    /// Changes the root of the index's tree.
    pub fn set_root(&mut self, root: u64)
        ensures { self.new ≡ record { name = self.old.name; kind = self.old.kind; root = root } }
    {
        self.root = root;
    }

    /// Returns the bytes of the name.
    fn bytes(&self) -> ArrayVec<u8, 64>
        ensures { result.items ≡ self.now.name }
    {
        let mut bytes = ArrayVec::new();
        for j in 0..(self.len + 7) / 8 {
            let _ = bytes.try_extend_from_slice(&self.words[j].to_be_bytes());
        }
        bytes.truncate(self.len);
        bytes
    }

    /// Compares the index's name with `name`. Names are padded with zeros, so the first word that
    /// differs is decisive. If no word differs, the lengths are compared.
    pub fn compare(&self, name: &Name) -> Ordering
        ensures { result ≡ name_cmp self.now.name name.now }
    {
        let text = name.as_str().as_bytes();
        for j in 0..text.len() / 8 + 1 {
            let mine = self.words[j];
            let other = word_from(text, 8 * j);
            if mine != other {
                return mine.cmp(&other);
            }
        }
        self.len.cmp(&text.len())
    }

    /// Returns the name of the index.
    pub fn name(&self) -> Name
        requires { IsName self.now.name }
        ensures { result ≡ self.now.name }
    {
        Name::new(str::from_utf8(&self.bytes()).unwrap()).unwrap()
    }

    /// Loads the index at this offset of a version page.
    #[tactic(auto, unfolding(crate::specs::Page::entry_at))]
    pub fn load<L: Look>(look: &mut L, page: u64, at: usize) -> Entry
        requires readable { IsTrue (is_readable (L.page_state look.old page)) }
        requires in_page { at + 11 ≤ 512 }
        requires entry { IsEntry (L.words look.old page) at }
        ensures entry { result ≡ entry_at (L.words look.old page) at }
        ensures unchanged { IsUnchanged L.kept L.page_state L.words look.old look.new }
    {
        let len = look.word(page, at) as usize;
        let words = load_words(look, page, at + 1);
        let kind = kind_numbered(look.word(page, at + 9));
        let root = look.word(page, at + 10);
        Entry {
            len,
            words,
            kind,
            root,
        }
    }

    /// Writes the index at this offset of a page that already has a filled word. The index takes up
    /// eleven words.
    #[tactic(auto, unfolding(crate::specs::Page::entry_at))]
    pub fn store<R: Room>(&self, room: &mut R, page: u64, at: usize)
        requires filled { R.page_state room.old page ≡ Filled }
        requires in_page { at + 11 ≤ 512 }
        requires named { IsName self.now.name }
        requires open { IsTrue (R.is_open (R.kept room.old)) }
        ensures stored { entry_at (R.words room.new page) at ≡ self.now }
        ensures entry { IsEntry (R.words room.new page) at }
        ensures only { OnlyWrites R.kept R.page_state R.words page at (at + 11) room.old room.new }
    {
        room.refill(page, at, self.len as u64);
        store_words(room, page, at + 1, &self.words);
        room.refill(page, at + 9, kind_number(self.kind));
        room.refill(page, at + 10, self.root);
    }
}
