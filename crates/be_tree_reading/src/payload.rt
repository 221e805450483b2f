//! Reads payloads in place.
//!
//! A caller that knows a payload's format doesn't copy it: a number is read from the one or two
//! words that hold its bytes.
ghost use Rattle.std.specs.Prelude.{◌≡◌, [], ◌+◌, ◌<◌, ◌≤◌, IsTrue, length, take, drop};
ghost use Rattle.std.specs.Prelude.{slice_index};
ghost use Rattle.std.specs.Int.{from_be_bytes, w32, w64};
ghost use Rattle.be_pages.specs.Pages.{IsUnchanged, is_readable};
ghost use Rattle.be_tree_reading.specs.Page.{IsItem, bytes_past, item_at, words_for};

use crate::page::{LENGTH_BITS, fill_bytes, number_beyond, straddled};
use arrayvec::ArrayVec;
use be_pages::Look;

/// Returns the length in bytes of the payload at this place of a page.
pub fn payload_len_at<L: Look>(look: &mut L, page: u64, at: usize) -> usize
    requires readable { IsTrue (is_readable (L.page_state look.old page)) }
    requires in_page { at + 42 ≤ 512 }
    requires item { IsItem (L.words look.old page) at }
    ensures len { result ≡ length (item_at (L.words look.old page) at).payload }
    ensures fits { result ≤ 328 }
    ensures unchanged { IsUnchanged L.kept L.page_state L.words look.old look.new }
{
    (look.word(page, at) % (1 << LENGTH_BITS)) as usize
}

/// Returns the byte at index `from` of a payload.
pub fn payload_byte_at<L: Look>(look: &mut L, page: u64, at: usize, from: usize) -> u8
    requires readable { IsTrue (is_readable (L.page_state look.old page)) }
    requires in_page { at + 42 ≤ 512 }
    requires item { IsItem (L.words look.old page) at }
    requires within { from < length (item_at (L.words look.old page) at).payload }
    ensures byte { result ≡ slice_index (item_at (L.words look.old page) at).payload from }
    ensures unchanged { IsUnchanged L.kept L.page_state L.words look.old look.new }
{
    let key_len = (look.word(page, at) >> LENGTH_BITS) as usize;
    let place = key_len + from;
    let bytes = look.word(page, at + 1 + place / 8).to_be_bytes();
    bytes[place % 8]
}

/// Returns the number in eight bytes of a payload, the first byte highest.
pub fn payload_number_at<L: Look>(look: &mut L, page: u64, at: usize, from: usize) -> u64
    requires readable { IsTrue (is_readable (L.page_state look.old page)) }
    requires in_page { at + 42 ≤ 512 }
    requires item { IsItem (L.words look.old page) at }
    requires within { from + 8 ≤ length (item_at (L.words look.old page) at).payload }
    ensures number { result ≡ from_be_bytes w64
        (take 8 (drop from (item_at (L.words look.old page) at).payload)) }
    ensures unchanged { IsUnchanged L.kept L.page_state L.words look.old look.new }
{
    let key_len = (look.word(page, at) >> LENGTH_BITS) as usize;
    let place = key_len + from;
    number_beyond(look, page, at + 1 + place / 8, place % 8)
}

/// Returns the number in four bytes of a payload, the first byte highest.
pub fn payload_number32_at<L: Look>(look: &mut L, page: u64, at: usize, from: usize) -> u32
    requires readable { IsTrue (is_readable (L.page_state look.old page)) }
    requires in_page { at + 42 ≤ 512 }
    requires item { IsItem (L.words look.old page) at }
    requires within { from + 4 ≤ length (item_at (L.words look.old page) at).payload }
    ensures number { result ≡ from_be_bytes w32
        (take 4 (drop from (item_at (L.words look.old page) at).payload)) }
    ensures unchanged { IsUnchanged L.kept L.page_state L.words look.old look.new }
{
    let key_len = (look.word(page, at) >> LENGTH_BITS) as usize;
    let place = key_len + from;
    number32_after(look, page, at + 1 + place / 8, place % 8)
}

/// Returns the number in the four bytes that begin `skip` bytes after the start of a word. They are
/// in that word, or in that word and the next.
fn number32_after<L: Look>(look: &mut L, page: u64, at: usize, skip: usize) -> u32
    requires readable { IsTrue (is_readable (L.page_state look.old page)) }
    requires skips { skip < 8 }
    requires in_page { at + words_for (skip + 4) ≤ 512 }
    ensures number { result ≡ from_be_bytes w32 (bytes_past (L.words look.old page) at skip 4) }
    ensures unchanged { IsUnchanged L.kept L.page_state L.words look.old look.new }
{
    if skip <= 4 {
        let word = look.word(page, at);
        return ((word >> (32 - 8 * skip)) % (1 << 32)) as u32;
    }
    let first = look.word(page, at);
    let second = look.word(page, at + 1);
    (straddled(first, second, skip) >> 32) as u32
}

/// Writes the payload at this place of a page into an empty vector.
pub fn fill_payload<L: Look>(look: &mut L, page: u64, at: usize, payload: &mut ArrayVec<u8, 328>)
    requires readable { IsTrue (is_readable (L.page_state look.old page)) }
    requires in_page { at + 42 ≤ 512 }
    requires item { IsItem (L.words look.old page) at }
    requires empty { payload.old.items ≡ [] }
    ensures payload { payload.new.items ≡ (item_at (L.words look.old page) at).payload }
    ensures unchanged { IsUnchanged L.kept L.page_state L.words look.old look.new }
{
    let header = look.word(page, at);
    let key_len = (header >> LENGTH_BITS) as usize;
    let from = at + 1 + key_len / 8;
    let payload_len = (header % (1 << LENGTH_BITS)) as usize;
    fill_bytes(look, page, from, key_len % 8, payload_len, payload);
}
