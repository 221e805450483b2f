//! Writes a page's words.
ghost use Rattle.std.specs.Prelude.{◌≡◌, ◌≢◌, [], ◌+◌, ◌-◌, ◌*◌, ◌/◌, ◌%◌, ◌<◌, ◌≤◌, ◌++◌};
ghost use Rattle.std.specs.Prelude.{IsTrue, length, take, map};
ghost use Rattle.std.specs.List.{range_with_len};
ghost use Rattle.std.specs.Int.{to_be_bytes, w64};
ghost use Rattle.be_pages.specs.Pages.{is_readable, IsUnchanged, OnlyWrites};
ghost use Rattle.be_pages.specs.declared.room.PageState.TheVariants.{Filled};
ghost use Rattle.be_tree_reading.specs.Page.{IsReadableAt, IsItem, IsPadded};
ghost use Rattle.be_tree_reading.specs.Page.{IsPage, IsPairAt, item_at};
ghost use Rattle.be_tree_reading.specs.Page.{bytes_at};
ghost use Rattle.be_tree_reading.specs.Page.{key_len, words_for};
ghost use Rattle.be_tree_reading.specs.Page.{item_place};
ghost use Rattle.std.specs.Prelude.{◌^◌, ◌⊎◌};
ghost use Rattle.be_tree.specs.declared.slot.Slot.TheVariants.{At};
ghost use Rattle.be_tree.specs.Slot.{IsOff, IsReady, branch_to, pair_of};
ghost use Rattle.be_tree_reading.specs.Tree.{child};

use crate::item::Item;
use crate::slot::Slot;
use arrayvec::ArrayVec;
use be_pages::{Look, Room};
use be_tree_reading::{HEADER_WORDS, ITEM_WORDS, LENGTH_BITS, word_from};

/// Writes bytes into a page's words from a place on, eight per word, and pads the last word with
/// zeros. The page must have a filled word.
pub(crate) fn store_bytes<R: Room>(room: &mut R, page: u64, at: usize, bytes: &[u8])
    requires filled { R.page_state room.old page ≡ Filled }
    requires in_page { at + words_for (length bytes.now) ≤ 512 }
    requires fits { length bytes.now ≤ 328 }
    requires open { IsTrue (R.is_open (R.kept room.old)) }
    ensures bytes { bytes_at (R.words room.new page) at (length bytes.now) ≡ bytes.now }
    ensures padded { IsPadded (R.words room.new page) at (length bytes.now) }
    ensures only { OnlyWrites R.kept R.page_state R.words page at
        (at + words_for (length bytes.now))
        room.old room.new }
{
    for i in 0..(bytes.len() + 7) / 8 {
        room.refill(page, at + i, word_from(bytes, 8 * i));
    }
}

/// Writes an item to this place of a page that has a filled word.
pub(crate) fn store_item<R: Room>(room: &mut R, page: u64, at: usize, item: &Item)
    requires filled { R.page_state room.old page ≡ Filled }
    requires in_page { at + 42 ≤ 512 }
    requires key_fits { length item.now.key ≤ 264 }
    requires open { IsTrue (R.is_open (R.kept room.old)) }
    ensures stored { IsPairAt (R.words room.new page) at item.now }
    ensures only { OnlyWrites R.kept R.page_state R.words page at (at + 42) room.old room.new }
{
    let bytes = item.bytes();
    let key_len = item.key_len();
    room.refill(
        page,
        at,
        ((key_len as u64) << LENGTH_BITS) + (bytes.len() - key_len) as u64,
    );
    store_bytes(room, page, at + 1, bytes);
}

/// Copies an item's words to this place of a page that has a filled word. Does nothing if the item
/// is already there.
#[inline(always)]
pub(crate) fn copy_item<R: Room>(room: &mut R, page: u64, at: usize, from: u64, place: usize)
    requires filled { R.page_state room.old page ≡ Filled }
    requires in_page { at + 42 ≤ 512 }
    requires source { IsReadableAt (R.page_state room.old) (R.words room.old) from place }
    requires may_move { from ≡ page → (at ≤ place) ⊎ (place + 42 ≤ at) }
    requires open { IsTrue (R.is_open (R.kept room.old)) }
    ensures stored { IsPairAt (R.words room.new page) at (item_at (R.words room.old from) place) }
    ensures only { OnlyWrites R.kept R.page_state R.words page at (at + 42) room.old room.new }
{
    if from == page && place == at {
        return;
    }
    let header = room.word(from, place);
    room.refill(page, at, header);
    let n = ((header >> LENGTH_BITS) + header % (1 << LENGTH_BITS)) as usize;
    for i in 0..(n + 7) / 8 {
        let word = room.word(from, place + 1 + i);
        room.refill(page, at + 1 + i, word);
    }
}

/// Returns the first `skip` bytes of a word, followed by the first bytes of a number.
#[inline(always)]
fn joined(first: u64, number: u64, skip: usize) -> u64
    requires { (0 < skip) × (skip < 8) }
    ensures { result ≡ first / 2 ^ (64 - 8 * skip) * 2 ^ (64 - 8 * skip) % 2 ^ 64
        + number / 2 ^ (8 * skip) }
{
    (first >> (64 - 8 * skip) << (64 - 8 * skip)) + (number >> (8 * skip))
}

/// Writes the first `skip` bytes of a word, followed by the eight bytes of a number. The rest of
/// the last word is filled with zeros.
#[inline(always)]
fn store_number<R: Room>(room: &mut R, page: u64, at: usize, first: u64, skip: usize, number: u64)
    requires filled { R.page_state room.old page ≡ Filled }
    requires skips { skip < 8 }
    requires in_page { at + words_for (skip + 8) ≤ 512 }
    requires open { IsTrue (R.is_open (R.kept room.old)) }
    ensures bytes { bytes_at (R.words room.new page) at (skip + 8)
        ≡ take skip (to_be_bytes w64 first) ++ to_be_bytes w64 number }
    ensures padded { IsPadded (R.words room.new page) at (skip + 8) }
    ensures only { OnlyWrites R.kept R.page_state R.words page at (at + words_for (skip + 8))
        room.old room.new }
{
    if skip == 0 {
        room.refill(page, at, number);
        return;
    }
    room.refill(page, at, joined(first, number, skip));
    room.refill(page, at + 1, number << (64 - 8 * skip));
}

/// Returns a word whose first `bytes` bytes are those of a page's word. If `bytes` is 0, the page
/// isn't read.
#[inline(always)]
fn begun_word<L: Look>(look: &mut L, page: u64, at: usize, bytes: usize) -> u64
    requires readable { IsTrue (is_readable (L.page_state look.old page)) }
    requires in_page { at < 512 }
    ensures begins { take bytes (to_be_bytes w64 result)
        ≡ take bytes (to_be_bytes w64 (L.words look.old page at)) }
    ensures unchanged { IsUnchanged L.kept L.page_state L.words look.old look.new }
{
    if bytes == 0 {
        return 0;
    }
    look.word(page, at)
}

/// Writes the branch to another page at this place of a page that has a filled word. The whole
/// words of its key are copied as words, and the rest of the key and the number are written as
/// words too.
fn store_branch<R: Room>(room: &mut R, page: u64, at: usize, child: u64)
    requires filled { R.page_state room.old page ≡ Filled }
    requires in_page { at + 42 ≤ 512 }
    requires readable { IsTrue (is_readable (R.page_state room.old child)) }
    requires beside { child ≢ page }
    requires item { IsItem (R.words room.old child) 2 }
    requires open { IsTrue (R.is_open (R.kept room.old)) }
    ensures stored { IsPairAt (R.words room.new page) at (branch_to (R.words room.old) child) }
    ensures only { OnlyWrites R.kept R.page_state R.words page at (at + 42) room.old room.new }
{
    let key_len = (room.word(child, 2) >> LENGTH_BITS) as usize;
    room.refill(page, at, ((key_len as u64) << LENGTH_BITS) + 8);
    let whole = key_len / 8;
    for i in 0..whole {
        let word = room.word(child, 3 + i);
        room.refill(page, at + 1 + i, word);
    }
    let last = begun_word(room, child, 3 + whole, key_len % 8);
    store_number(room, page, at + 1 + whole, last, key_len % 8, child);
}

/// Writes a slot's item to this place of a page that has a filled word.
pub(crate) fn store_slot<R: Room>(room: &mut R, page: u64, at: usize, slot: Slot, pair: &Item)
    requires filled { R.page_state room.old page ≡ Filled }
    requires in_page { at + 42 ≤ 512 }
    requires ready { IsReady (R.page_state room.old) (R.words room.old) slot }
    requires off { IsOff page slot }
    requires key_fits { length pair.now.key ≤ 264 }
    requires open { IsTrue (R.is_open (R.kept room.old)) }
    ensures stored { IsPairAt (R.words room.new page) at
        (pair_of (R.words room.old) pair.now slot) }
    ensures only { OnlyWrites R.kept R.page_state R.words page at (at + 42) room.old room.new }
{
    match slot {
        Slot::At(place, from) => copy_item(room, page, at, from as u64, place as usize),
        Slot::Branch(child) => store_branch(room, page, at, child as u64),
        Slot::New => store_item(room, page, at, pair),
    }
}

/// Fills an empty list with the slots of a page's items.
pub(crate) fn fill_slots<L: Look>(look: &mut L, page: u64, slots: &mut ArrayVec<Slot, 24>)
    requires readable { IsTrue (is_readable (L.page_state look.old page)) }
    requires page { IsPage (L.words look.old page) }
    requires empty { slots.old.items ≡ [] }
    ensures slots { slots.new.items ≡ map (λ j. At (item_place j) page)
        (range_with_len 0 (L.words look.old page 1)) }
    ensures len { length slots.new.items ≡ L.words look.old page 1 }
    ensures few { length slots.new.items ≤ 12 }
    ensures unchanged { IsUnchanged L.kept L.page_state L.words look.old look.new }
{
    let count = look.word(page, 1) as usize;
    for j in 0..count {
        slots.push(Slot::At((HEADER_WORDS + ITEM_WORDS * j) as u16, page as u32));
    }
}
