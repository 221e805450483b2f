//! Reads items from a page.
ghost use Rattle.std.specs.Prelude.{◌≡◌, [], ◌+◌, ◌-◌, ◌*◌, ◌/◌, ◌%◌, ◌<◌, ◌≤◌, ◌++◌};
ghost use Rattle.std.specs.Prelude.{IsTrue, length, drop, map, slice_index};
ghost use Rattle.std.specs.List.{range_with_len};
ghost use Rattle.std.specs.Int.{from_be_bytes, to_be_bytes, w64};
ghost use Rattle.be_pages.specs.Pages.{is_readable, IsUnchanged};
ghost use Rattle.be_tree_reading.specs.Page.{IsItem, item_at};
ghost use Rattle.be_tree_reading.specs.Page.{bytes_at, bytes_past};
ghost use Rattle.be_tree_reading.specs.Page.{key_len, words_for};
ghost use Rattle.std.specs.Prelude.{◌^◌, ◌⊎◌};
ghost use Rattle.be_tree_reading.specs.Key.{key_cmp};
ghost use Rattle.be_tree_reading.specs.Words.{IsFirst};
ghost use Rattle.be_tree_reading.specs.Tree.{child};

use arrayvec::ArrayVec;
use be_pages::Look;
use std::cmp::Ordering;

/// The number of words before a page's items, which hold its level and its number of items.
pub const HEADER_WORDS: usize = 2;

/// The number of words in an item: one for its lengths, and 41 for up to 328 bytes.
pub const ITEM_WORDS: usize = 42;

/// In an item's first word, the bits from this one up hold the key's length, and the bits below it
/// hold the payload's.
pub const LENGTH_BITS: usize = 32;

/// The maximum number of items on a page.
pub const MOST_ITEMS: usize = 12;

/// The minimum number of items on a page other than a root.
pub const MINIMUM_ITEMS: usize = 6;

/// Returns the page to which the branch at this place leads.
pub fn child_at<L: Look>(look: &mut L, page: u64, at: usize) -> u64
    requires readable { IsTrue (is_readable (L.page_state look.old page)) }
    requires in_page { at + 42 ≤ 512 }
    requires item { IsItem (L.words look.old page) at }
    requires names_page { length (item_at (L.words look.old page) at).payload ≡ 8 }
    ensures child { result ≡ child (item_at (L.words look.old page) at) }
    ensures unchanged { IsUnchanged L.kept L.page_state L.words look.old look.new }
{
    let key_len = (look.word(page, at) >> LENGTH_BITS) as usize;
    number_beyond(look, page, at + 1 + key_len / 8, key_len % 8)
}

/// Returns the number in the eight bytes that begin `skip` bytes after the start of a word. They
/// are in that word, or in that word and the next.
pub fn number_beyond<L: Look>(look: &mut L, page: u64, at: usize, skip: usize) -> u64
    requires readable { IsTrue (is_readable (L.page_state look.old page)) }
    requires skips { skip < 8 }
    requires in_page { at + words_for (skip + 8) ≤ 512 }
    ensures number { result ≡ from_be_bytes w64 (bytes_past (L.words look.old page) at skip 8) }
    ensures unchanged { IsUnchanged L.kept L.page_state L.words look.old look.new }
{
    let first = look.word(page, at);
    if skip == 0 {
        return first;
    }
    let second = look.word(page, at + 1);
    straddled(first, second, skip)
}

/// Returns the number whose eight bytes begin `skip` bytes into one word and end in the next.
pub fn straddled(first: u64, second: u64, skip: usize) -> u64
    requires { (0 < skip) × (skip < 8) }
    ensures { result ≡ first * 2 ^ (8 * skip) % 2 ^ 64 + second / 2 ^ (64 - 8 * skip) }
{
    (first << (8 * skip)) + (second >> (64 - 8 * skip))
}

/// Compares the key of the item at this place with a key, word by word, in place. Look-ups need it
/// only for short keys, so it isn't inlined into their loops.
#[inline(never)]
pub(crate) fn cmp_at<L: Look>(look: &mut L, page: u64, at: usize, key: &[u8]) -> Ordering
    requires readable { IsTrue (is_readable (L.page_state look.old page)) }
    requires in_page { at + 42 ≤ 512 }
    requires item { IsItem (L.words look.old page) at }
    ensures order { result ≡ key_cmp (item_at (L.words look.old page) at).key key.now }
    ensures unchanged { IsUnchanged L.kept L.page_state L.words look.old look.new }
{
    let len = (look.word(page, at) >> LENGTH_BITS) as usize;
    cmp_from(look, page, at, len, key, 0)
}

/// Compares the key of the item at this place with a key, if their words before word `from` are
/// equal.
#[inline(always)]
pub(crate) fn cmp_from<L: Look>(
    look: &mut L,
    page: u64,
    at: usize,
    len: usize,
    key: &[u8],
    from: usize,
) -> Ordering
    requires readable { IsTrue (is_readable (L.page_state look.old page)) }
    requires in_page { at + 42 ≤ 512 }
    requires item { IsItem (L.words look.old page) at }
    requires len { len ≡ key_len (L.words look.old page) at }
    requires long { (8 * from ≤ len) × (8 * from ≤ length key.now) }
    requires so_far { key_cmp (drop (8 * from) (item_at (L.words look.old page) at).key)
        (drop (8 * from) key.now)
        ≡ key_cmp (item_at (L.words look.old page) at).key key.now }
    ensures order { result ≡ key_cmp (item_at (L.words look.old page) at).key key.now }
    ensures unchanged { IsUnchanged L.kept L.page_state L.words look.old look.new }
{
    let common = smaller_of(len, key.len());
    for i in from..common / 8 {
        let mine = look.word(page, at + 1 + i);
        let other = whole_word(key, 8 * i);
        if mine != other {
            return mine.cmp(&other);
        }
    }
    let rest = common % 8;
    if rest == 0 {
        return len.cmp(&key.len());
    }
    let mine = look.word(page, at + 1 + common / 8);
    let other = word_within(key, 8 * (common / 8));
    let shift = 64 - 8 * rest;
    let mine_first = mine >> shift;
    let other_first = other >> shift;
    if mine_first != other_first {
        return mine_first.cmp(&other_first);
    }
    len.cmp(&key.len())
}

/// Returns the lower of two numbers.
pub(crate) fn smaller_of(a: usize, b: usize) -> usize
    ensures at_most { (result ≤ a) × (result ≤ b) }
    ensures one { (result ≡ a) ⊎ (result ≡ b) }
{
    if a < b { a } else { b }
}

/// Writes the `n` bytes that begin `skip` bytes after the start of a word into an empty vector. The
/// vector is filled in place, because passing one by value costs its whole capacity.
pub fn fill_bytes<L: Look, const N: usize>(
    look: &mut L,
    page: u64,
    at: usize,
    skip: usize,
    n: usize,
    rest: &mut ArrayVec<u8, N>,
)
    requires readable { IsTrue (is_readable (L.page_state look.old page)) }
    requires skips { skip < 8 }
    requires in_page { at + words_for (skip + n) ≤ 512 }
    requires fits { 8 * words_for (skip + n) ≤ N }
    requires empty { rest.old.items ≡ [] }
    ensures bytes { rest.new.items ≡ drop skip (bytes_at (L.words look.old page) at (skip + n)) }
    ensures unchanged { IsUnchanged L.kept L.page_state L.words look.old look.new }
{
    if n == 0 {
        return;
    }
    let first = look.word(page, at).to_be_bytes();
    extend(rest, &first[skip..]);
    for i in 1..(skip + n + 7) / 8 {
        let word = look.word(page, at + i).to_be_bytes();
        extend(rest, &word);
    }
    rest.truncate(n);
}

/// Appends bytes, for which there must be room.
pub fn extend<const N: usize>(bytes: &mut ArrayVec<u8, N>, more: &[u8])
    requires { length bytes.old.items + length more.now ≤ N }
    ensures items { bytes.new.items ≡ bytes.old.items ++ more.now }
    ensures len { length bytes.new.items ≡ length bytes.old.items + length more.now }
{
    let _ = bytes.try_extend_from_slice(more);
}

/// Returns the byte at this index, or 0 past the end.
fn byte_or_zero(bytes: &[u8], i: usize) -> u8
    ensures { result ≡ slice_index bytes.now i }
{
    if i < bytes.len() { bytes[i] } else { 0 }
}

/// Returns the eight bytes from this index on as a word, with one load and a byte swap.
fn whole_word(bytes: &[u8], from: usize) -> u64
    requires { from + 8 ≤ length bytes.now }
    ensures { to_be_bytes w64 result ≡ map (λ k. slice_index bytes.now k) (range_with_len from 8) }
{
    u64::from_be_bytes([
        bytes[from],
        bytes[from + 1],
        bytes[from + 2],
        bytes[from + 3],
        bytes[from + 4],
        bytes[from + 5],
        bytes[from + 6],
        bytes[from + 7],
    ])
}

/// Returns the bytes from an index on as a word, with zeros past the end. The index is among the
/// last seven, so it loads the last eight bytes and shifts them up.
fn last_word(bytes: &[u8], from: usize) -> u64
    requires some { 8 ≤ length bytes.now }
    requires within { from < length bytes.now }
    requires past { length bytes.now < from + 8 }
    ensures { to_be_bytes w64 result ≡ map (λ k. slice_index bytes.now k) (range_with_len from 8) }
{
    let last = bytes.len() - 8;
    whole_word(bytes, last) << (8 * (from - last))
}

/// Returns the eight bytes from this index on as a word, the first byte highest, with zeros past
/// the end.
#[inline(always)]
pub fn word_from(bytes: &[u8], from: usize) -> u64
    requires { from ≤ 328 }
    ensures { to_be_bytes w64 result ≡ map (λ k. slice_index bytes.now k) (range_with_len from 8) }
{
    if from < bytes.len() {
        return word_within(bytes, from);
    }
    padded_word(bytes, from)
}

/// Does the same as `word_from`, from an index within the bytes.
#[inline(always)]
fn word_within(bytes: &[u8], from: usize) -> u64
    requires small { from ≤ 328 }
    requires within { from < length bytes.now }
    ensures { to_be_bytes w64 result ≡ map (λ k. slice_index bytes.now k) (range_with_len from 8) }
{
    if from + 8 <= bytes.len() {
        return whole_word(bytes, from);
    }
    if bytes.len() >= 8 {
        return last_word(bytes, from);
    }
    padded_word(bytes, from)
}

/// Does the same as `word_within`, byte by byte.
fn padded_word(bytes: &[u8], from: usize) -> u64
    requires { from ≤ 328 }
    ensures { to_be_bytes w64 result ≡ map (λ k. slice_index bytes.now k) (range_with_len from 8) }
{
    u64::from_be_bytes([
        byte_or_zero(bytes, from),
        byte_or_zero(bytes, from + 1),
        byte_or_zero(bytes, from + 2),
        byte_or_zero(bytes, from + 3),
        byte_or_zero(bytes, from + 4),
        byte_or_zero(bytes, from + 5),
        byte_or_zero(bytes, from + 6),
        byte_or_zero(bytes, from + 7),
    ])
}

/// Returns a key's first word, padded with zeros if the key is short. Each descent computes it
/// once.
pub fn first_word(key: &[u8]) -> u64
    ensures { IsFirst key.now result }
{
    word_from(key, 0)
}
