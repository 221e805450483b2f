//! Writes values to the caller's buffers.
//!
//! Each value gets a cell. The bytes of all strings are written one after another.
ghost use Rattle.std.specs.Prelude.{◌≡◌, ◌+◌, ◌-◌, ◌*◌, ◌^◌, ◌<◌, ◌≤◌, ℕ, ℤ, List, [], ◌∷◌, ◌++◌};
ghost use Rattle.std.specs.Prelude.{Ok, Err, Some, drop, length};
ghost use Rattle.be_paged_reading.specs.Imports.{cast_unsigned, code_of, item_at, w32, w64};
ghost use Rattle.be_paged_reading.specs.Imports.{AnyRefusal, AnyResult, AnyValue, FitsSigned};
ghost use Rattle.be_paged_reading.specs.Imports.{IsReadableAt, IsUnchanged, IsValue};
ghost use Rattle.be_paged_reading.specs.Catalog.{catalog_key as key_in_catalog};
ghost use Rattle.be_paged_reading.specs.Catalog.{payload_of as payload};
ghost use Rattle.be_paged_reading.specs.Cells.{AreReported, IsFew, cell_of, data_in, data_of};
ghost use Rattle.be_paged_reading.specs.Cells.{name_in, over};
ghost use Rattle.be_paged_reading.specs.declared.cells.Cell.{Cell as AnyCell};

use crate::catalog::{kind_at, number32_at, number64_at};
use arrayvec::ArrayVec;
use be_pages::Look;
use be_tree_reading::{fill_payload, payload_len_at};
use be_value::{Kind, Name, Refusal};

/// A name in the caller's memory: its length, and its bytes at the beginning of `bytes`. The bytes
/// need not form a valid name; a lookup of an invalid name simply finds no attribute.
#[repr(C)]
#[derive(Clone, Copy)]
pub struct HeldName {
    pub length: u64,
    pub bytes: [u8; 64],
}

/// A cell for the attribute of a node. If `error` is 0, it contains the type code of the value, its
/// number, and the offset and length of its bytes. Otherwise `error` is the number of the error.
/// Signed numbers are in two's complement.
#[repr(C)]
#[derive(Clone, Copy)]
pub struct Cell {
    pub error: u32,
    pub code: u32,
    pub number: u64,
    pub offset: u64,
    pub length: u64,
}

/// The number of cells and the number of bytes that were written.
#[derive(Clone, Copy)]
pub struct Filled {
    pub cells: usize,
    pub bytes: usize,
}

impl HeldName {
    /// Returns the name in the representation used by callers.
    pub fn new(name: &Name) -> HeldName
        ensures { name_in result ≡ name.now }
    {
        let text = name.as_str().as_bytes();
        let mut bytes = [0; 64];
        bytes[..text.len()].copy_from_slice(text);
        HeldName {
            length: text.len() as u64,
            bytes,
        }
    }
}

/// Returns the catalog key of the node's attribute with this name.
pub(crate) fn held_key(node: u64, name: &HeldName) -> ArrayVec<u8, 72>
    ensures key { result.items ≡ key_in_catalog node (name_in name.now) }
{
    let length = name.length.min(64) as usize;
    let mut key = ArrayVec::new();
    key.try_extend_from_slice(&node.to_be_bytes()).unwrap();
    key.try_extend_from_slice(&name.bytes[..length]).unwrap();
    key
}

/// Writes as many of the items as fit after those that have already been written.
fn put_at<T: Copy>(places: &mut [T], at: usize, items: &[T])
    ensures { (before all : List T) → length before ≡ at → places.old ≡ over before all → places.new
        ≡ over (before ++ items.now) all }
{
    if at >= places.len() {
        return;
    }
    let room = places.len() - at;
    if items.len() <= room {
        places[at..at + items.len()].copy_from_slice(items);
    } else {
        places[at..].copy_from_slice(&items[..room]);
    }
}

/// Writes the cell and the bytes of another result.
pub(crate) fn report(
    cells: &mut [Cell],
    bytes: &mut [u8],
    filled: &mut Filled,
    cell: Cell,
    content: &[u8],
)
    requires cells { filled.old.cells < 2 ^ 32 }
    requires few { IsFew filled.old }
    requires short { length content.now ≤ 512 }
    ensures reported { (x : AnyResult AnyValue AnyRefusal)
        (found : List (AnyResult AnyValue AnyRefusal)) (cell_places : List AnyCell)
        (byte_places : List ℕ)
        → cell ≡ cell_of filled.old.bytes x → content.now ≡ data_in x
        → AreReported found cell_places cells.old byte_places bytes.old filled.old
        → AreReported (found ++ x ∷ []) cell_places cells.new byte_places bytes.new filled.new }
    ensures one { filled.new.cells ≡ filled.old.cells + 1 }
    ensures few { IsFew filled.new }
{
    put_at(cells, filled.cells, &[cell]);
    put_at(bytes, filled.bytes, content);
    *filled = Filled {
        cells: filled.cells + 1,
        bytes: filled.bytes + content.len(),
    };
}

/// Returns the cell for a missing attribute.
pub(crate) fn empty_cell(why: &Refusal, offset: usize) -> Cell
    ensures { result ≡ cell_of offset (Err why.now) }
{
    Cell {
        error: why.number() as u32,
        code: 0,
        number: 0,
        offset: offset as u64,
        length: 0,
    }
}

/// Returns the cell for a number.
fn number_cell(kind: Kind, number: u64, offset: usize) -> Cell
    ensures { result ≡ record {
      error = 0;
      code = code_of kind;
      number = number;
      offset = offset;
      length = 0;
    } }
{
    Cell {
        error: 0,
        code: kind.code(),
        number,
        offset: offset as u64,
        length: 0,
    }
}

/// Returns the cell for a string or raw bytes. In the payload they are preceded by the byte of the
/// kind.
fn data_cell(kind: Kind, payload_len: usize, offset: usize) -> Cell
    requires { 1 ≤ payload_len }
    ensures { result ≡ record {
      error = 0;
      code = code_of kind;
      number = 0;
      offset = offset;
      length = payload_len - 1;
    } }
{
    Cell {
        error: 0,
        code: kind.code(),
        number: 0,
        offset: offset as u64,
        length: payload_len as u64 - 1,
    }
}

/// Sign-extends a number from four bytes to eight.
fn widened(number: u32) -> u64
    ensures { (n : ℤ) → FitsSigned w32 n → number ≡ cast_unsigned w32 n → result
        ≡ cast_unsigned w64 n }
{
    (number.cast_signed() as i64).cast_unsigned()
}

/// Returns the cell for the value of the catalog item at this offset, if its payload encodes a
/// value. The bytes of the value will begin at `offset`.
fn value_cell<L: Look>(look: &mut L, page: u64, at: usize, offset: usize) -> Option<Cell>
    requires item { IsReadableAt (L.page_state look.old) (L.words look.old) page at }
    ensures cell { (v : AnyValue) → IsValue v → (item_at (L.words look.old page) at).payload
        ≡ payload v → result ≡ Some (cell_of offset (Ok v)) }
    ensures unchanged { IsUnchanged L.kept L.page_state L.words look.old look.new }
{
    let kind = kind_at(look, page, at)?;
    let payload_len = payload_len_at(look, page, at);
    if payload_len == 0 {
        return None;
    }
    match kind {
        Kind::Cstr | Kind::Mims | Kind::Rawt => Some(data_cell(kind, payload_len, offset)),
        Kind::Long => {
            let number = number32_at(look, page, at)?;
            Some(number_cell(kind, widened(number), offset))
        }
        Kind::Llng | Kind::Ullg => Some(number_cell(kind, number64_at(look, page, at)?, offset)),
        Kind::Ulng => {
            let number = number32_at(look, page, at)?;
            Some(number_cell(kind, number as u64, offset))
        }
    }
}

/// Returns all bytes after the first.
fn after_first(payload: &[u8]) -> &[u8]
    ensures { result.now ≡ drop 1 payload.now }
{
    match payload.split_first() {
        Some((_, rest)) => rest,
        None => payload,
    }
}

/// Writes the cell of a string or raw bytes, and copies the bytes from the catalog item.
fn report_data<L: Look>(
    look: &mut L,
    item: (u64, usize),
    cell: Cell,
    cells: &mut [Cell],
    bytes: &mut [u8],
    filled: &mut Filled,
)
    requires item { IsReadableAt (L.page_state look.old) (L.words look.old) item.0 item.1 }
    requires cells { filled.old.cells < 2 ^ 32 }
    requires few { IsFew filled.old }
    ensures reported { (x : AnyResult AnyValue AnyRefusal)
        (found : List (AnyResult AnyValue AnyRefusal)) (cell_places : List AnyCell)
        (byte_places : List ℕ)
        → cell ≡ cell_of filled.old.bytes x
        → drop 1 (item_at (L.words look.old item.0) item.1).payload ≡ data_in x
        → AreReported found cell_places cells.old byte_places bytes.old filled.old
        → AreReported (found ++ x ∷ []) cell_places cells.new byte_places bytes.new filled.new }
    ensures one { filled.new.cells ≡ filled.old.cells + 1 }
    ensures few { IsFew filled.new }
    ensures unchanged { IsUnchanged L.kept L.page_state L.words look.old look.new }
{
    let (page, at) = item;
    let mut payload = ArrayVec::new();
    fill_payload(look, page, at, &mut payload);
    let content = after_first(payload.as_slice());
    report(cells, bytes, filled, cell, content);
}

/// Writes the value of the catalog item at this offset. The bytes of a string are copied from the
/// page to the caller's buffer.
pub(crate) fn report_value<L: Look>(
    look: &mut L,
    page: u64,
    at: usize,
    cells: &mut [Cell],
    bytes: &mut [u8],
    filled: &mut Filled,
)
    requires item { IsReadableAt (L.page_state look.old) (L.words look.old) page at }
    requires cells { filled.old.cells < 2 ^ 32 }
    requires few { IsFew filled.old }
    ensures reported { (v : AnyValue) (found : List (AnyResult AnyValue AnyRefusal))
        (cell_places : List AnyCell) (byte_places : List ℕ)
        → IsValue v → (item_at (L.words look.old page) at).payload ≡ payload v
        → AreReported found cell_places cells.old byte_places bytes.old filled.old
        → AreReported (found ++ Ok v ∷ []) cell_places cells.new byte_places bytes.new filled.new }
    ensures one { filled.new.cells ≡ filled.old.cells + 1 }
    ensures few { IsFew filled.new }
    ensures unchanged { IsUnchanged L.kept L.page_state L.words look.old look.new }
{
    let Some(cell) = value_cell(look, page, at, filled.bytes) else {
        let offset = filled.bytes;
        report(
            cells,
            bytes,
            filled,
            empty_cell(&Refusal::NoAttr, offset),
            b"",
        );
        return;
    };
    if cell.length == 0 {
        report(cells, bytes, filled, cell, b"");
        return;
    }
    report_data(look, (page, at), cell, cells, bytes, filled);
}

/// Returns the cell for the value of the catalog item at this offset, if its payload encodes a
/// value. Copies the bytes of the value to the beginning of the buffer.
pub(crate) fn read_into<L: Look>(
    look: &mut L,
    page: u64,
    at: usize,
    bytes: &mut [u8],
) -> Option<Cell>
    requires item { IsReadableAt (L.page_state look.old) (L.words look.old) page at }
    ensures cell { (v : AnyValue) → IsValue v → (item_at (L.words look.old page) at).payload
        ≡ payload v → result ≡ Some (cell_of 0 (Ok v)) }
    ensures bytes { (v : AnyValue) → IsValue v → (item_at (L.words look.old page) at).payload
        ≡ payload v → bytes.new ≡ over (data_of v) bytes.old }
    ensures unchanged { IsUnchanged L.kept L.page_state L.words look.old look.new }
{
    let cell = value_cell(look, page, at, 0)?;
    if cell.length > 0 {
        put_payload(look, page, at, bytes);
    }
    Some(cell)
}

/// Copies the bytes of the string in the catalog item at this offset to the beginning of the
/// buffer.
fn put_payload<L: Look>(look: &mut L, page: u64, at: usize, bytes: &mut [u8])
    requires item { IsReadableAt (L.page_state look.old) (L.words look.old) page at }
    ensures bytes { bytes.new ≡ over (drop 1 (item_at (L.words look.old page) at).payload)
        bytes.old }
    ensures unchanged { IsUnchanged L.kept L.page_state L.words look.old look.new }
{
    let mut payload = ArrayVec::new();
    fill_payload(look, page, at, &mut payload);
    put_at(bytes, 0, after_first(payload.as_slice()));
}
