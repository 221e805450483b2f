//! Predicates in reverse Polish notation, as other languages encode them.
ghost use Rattle.std.specs.Prelude.{◌≡◌, ◌<◌, ℕ, List, IfOk, IfErr, map};
ghost use Rattle.be_session.specs.Imports.{item_of};
ghost use Rattle.be_session.specs.Items.{AreItemsMeant, AreItemsInvalid, IsBuilt, IsItemMeant};
ghost use Rattle.be_session.specs.Items.{IsItemInvalid, IsNoItem, IsUnbuilt, item_reported};
ghost use Rattle.be_session.specs.Operations.{part};
ghost use Rattle.be_session.specs.declared.faults.Fault.TheVariants.{NoItem};

use crate::lists::part;
use crate::meanings::{name, text};
use crate::{Fault, ListFault};
use be_store::{Item, Query, from_rpn};
use std::alloc::Global;

/// An item of a predicate as C encodes it. Its bytes are a part of one byte string that is shared
/// by all items.
#[repr(C)]
#[derive(Clone, Copy)]
pub struct PredicateItem {
    /// 0 is an attribute and 1 a string, given by their bytes; 2 is a signed number and 3 an
    /// unsigned one. 4 to 9 compare with ==, !=, <, <=, > and >=. 10 to 12 test whether the
    /// attribute contains, begins with or ends with the string. 13 is and, 14 is or, and 15 is not.
    pub kind: u32,
    pub at: u32,
    pub length: u32,
    pub number: u64,
}

/// Returns the item for an operator, which acts on the items before it.
fn working_item(kind: u32) -> Result<Item, Fault>
    requires { 3 < kind }
    ensures ok { IfOk result (λ item. (number : ℕ) (bytes : List ℕ)
        → IsItemMeant kind number bytes (item_of item)) }
    ensures err { IfErr result (λ e. (e ≡ NoItem) × (15 < kind)) }
{
    match kind {
        4 => Ok(Item::Eq),
        5 => Ok(Item::Ne),
        6 => Ok(Item::Lt),
        7 => Ok(Item::Le),
        8 => Ok(Item::Gt),
        9 => Ok(Item::Ge),
        10 => Ok(Item::Contains),
        11 => Ok(Item::BeginsWith),
        12 => Ok(Item::EndsWith),
        13 => Ok(Item::And),
        14 => Ok(Item::Or),
        15 => Ok(Item::Not),
        _ => Err(Fault::NoItem),
    }
}

fn item(alloc: Global, kind: u32, number: u64, bytes: &[u8]) -> Result<Item, Fault>
    ensures ok { IfOk result (λ item. IsItemMeant kind number bytes.now (item_of item)) }
    ensures err { IfErr result (λ e. IsNoItem kind bytes.now e) }
{
    match kind {
        0 => Ok(Item::Attr(name(bytes)?)),
        1 => Ok(Item::Text(String::from_str(alloc, text(bytes)?)?)),
        2 => Ok(Item::Int(number.cast_signed())),
        3 => Ok(Item::Uint(number)),
        _ => working_item(kind),
    }
}

fn one_item(alloc: Global, encoded: &PredicateItem, bytes: &[u8]) -> Result<Item, Fault>
    ensures ok { IfOk result (λ item. IsItemMeant encoded.now.kind encoded.now.number
        (part bytes.now encoded.now.at encoded.now.length) (item_of item)) }
    ensures err { IfErr result (λ e. IsItemInvalid encoded.now bytes.now e) }
{
    match part(bytes, encoded.at, encoded.length) {
        Some(bytes) => item(alloc, encoded.kind, encoded.number, bytes),
        None => Err(Fault::BadPart),
    }
}

/// Returns the place to report for an error in this item, or 0 if memory ran out.
fn reported(fault: &Fault, place: usize) -> u64
    ensures { result ≡ item_reported fault.now place }
{
    if fault.code() == 10 {
        return 0;
    }
    place as u64
}

/// Decodes a list of items. Returns an error if the part of an item isn't within the bytes, or if
/// an item is invalid.
fn items(alloc: Global, encoded: &[PredicateItem], bytes: &[u8]) -> Result<Vec<Item>, ListFault>
    ensures ok { IfOk result (λ items. AreItemsMeant encoded.now bytes.now
        (map item_of items.items)) }
    ensures err { IfErr result (λ e. AreItemsInvalid encoded.now bytes.now e.fault e.place) }
{
    let mut items = Vec::new(alloc);
    for next in encoded {
        match one_item(alloc, next, bytes) {
            Ok(item) => items.push(item)?,
            Err(fault) => {
                let place = reported(&fault, items.len());
                return Err(ListFault { fault, place });
            }
        }
    }
    Ok(items)
}

/// Builds a query from items in reverse Polish notation. If an item is invalid, returns the error
/// and the place of the first such item. Otherwise returns the errors of `be_query::from_rpn`, with
/// the item that it names.
pub fn query_of_items(
    alloc: Global,
    encoded: &[PredicateItem],
    bytes: &[u8],
) -> Result<Query, ListFault>
    ensures ok { IfOk result (λ query. IsBuilt encoded.now bytes.now query) }
    ensures err { IfErr result (λ e. IsUnbuilt encoded.now bytes.now e.fault e.place) }
{
    let items = items(alloc, encoded, bytes)?;
    Ok(from_rpn(alloc, items.as_slice())?)
}
