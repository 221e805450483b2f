//! Calls on the texts of queries: listing what a query compares, and escaping a text for use in a
//! query. These calls take no handle.
ghost use Rattle.std.specs.Prelude.{◌≡◌, ◌⊎◌, ◌≢◌, ℕ, List, IfErr, IfOk, None, false, length, map};
ghost use Rattle.std.specs.Prelude.{string_bytes};
ghost use Rattle.bestore_c.specs.Imports.{described, fault, has_nul, leaves, places, reported};
ghost use Rattle.bestore_c.specs.Imports.{AnyFault, Encodes, Formula, IsNoQuery, IsOneToken};
ghost use Rattle.bestore_c.specs.Imports.{IsTextOf, MatchesAnyCase};
ghost use Rattle.bestore_c.specs.Calls.{Refuses};
ghost use Rattle.bestore_c.specs.Places.{over};
ghost use Rattle.bestore_c.specs.Texts.{Lists, ListsComparisons, MakesText};

use crate::handle::Counts;
use crate::places::put;
use crate::refusing::refuse;
use be_query_text::{
    Compared, EncodedComparison, any_case, comparisons, encoded_comparisons, escaped,
};
use be_session::Fault;
use be_store::Refusal;
use std::alloc::{AllocError, Global};
use std::str;

/// The number of the error for running out of memory.
const NO_MEMORY: u32 = 10;

/// Lists the comparisons in the text of a query, from left to right, and the bytes of their names
/// and values. Writes as many as fit. If the text isn't a query, returns the error and the number
/// that goes with it.
#[unsafe(no_mangle)]
pub extern "C" fn bes_query_comparisons(
    alloc: Global,
    text: &[u8],
    counts: &mut Counts,
    listed: &mut [EncodedComparison],
    bytes: &mut [u8],
    number: &mut u64,
) -> u32
    ensures lists { result ≡ 0 → (number.new ≡ 0) × ListsComparisons text.now counts.new listed.old
        listed.new bytes.old bytes.new }
    ensures refuses { (result ≡ 0) ⊎ ((e : AnyFault) × Refuses e number.new result
        × IsNoQuery text.now e) }
    ensures kept { (result ≡ 0) ⊎ ((counts.new ≡ counts.old) × (listed.new ≡ listed.old)
        × (bytes.new ≡ bytes.old)) }
{
    *number = 0;
    match comparisons_of(alloc, text) {
        Ok(compared) => match encoded_comparisons(alloc, compared.as_slice()) {
            Ok(encoding) => {
                *counts = Counts {
                    operations: encoding.comparisons.len() as u64,
                    bytes: encoding.bytes.len() as u64,
                };
                put(listed, encoding.comparisons.as_slice());
                put(bytes, encoding.bytes.as_slice());
                0
            }
            Err(_) => refuse(Fault::Refused(Refusal::OutOfMemory), number),
        },
        Err(fault) => refuse(fault, number),
    }
}

/// Escapes a text so that a query reads it back as a name or a value. Returns the length of the
/// result in bytes, and as many of the bytes as fit.
#[unsafe(no_mangle)]
pub extern "C" fn bes_escape_bytes(
    alloc: Global,
    text: &[u8],
    bytes: &mut [u8],
    count: &mut u64,
) -> u32
    ensures made { MakesText (λ made. has_nul text.now ≡ false → Encodes made text.now) text.now
        bytes.old bytes.new count.new result }
    ensures kept { (result ≡ 0) ⊎ (bytes.new ≡ bytes.old) }
{
    match str::from_utf8(text) {
        Ok(text) => report_made(escaped(alloc, text), bytes, count),
        Err(_) => {
            *count = 0;
            Fault::NotUtf8.code()
        }
    }
}

/// Creates a pattern that matches every text which equals this one except for case. Otherwise like
/// `bes_escape_bytes`.
#[unsafe(no_mangle)]
pub extern "C" fn bes_any_case_bytes(
    alloc: Global,
    text: &[u8],
    bytes: &mut [u8],
    count: &mut u64,
) -> u32
    ensures made { MakesText (λ made. MatchesAnyCase made text.now
        × (has_nul text.now ≡ false → IsOneToken made)) text.now bytes.old bytes.new count.new
        result }
    ensures kept { (result ≡ 0) ⊎ (bytes.new ≡ bytes.old) }
{
    match str::from_utf8(text) {
        Ok(text) => report_made(any_case(alloc, text), bytes, count),
        Err(_) => {
            *count = 0;
            Fault::NotUtf8.code()
        }
    }
}

/// Lists the comparisons in the text that these bytes encode.
fn comparisons_of(alloc: Global, text: &[u8]) -> Result<Vec<Compared>, Fault>
    ensures ok { IfOk result (λ v. (fault text.now ≡ None) × (tree : Formula)
        × IsTextOf text.now tree × (map reported v.items
        ≡ described (leaves tree) (places text.now))) }
    ensures err { IfErr result (λ e. IsNoQuery text.now e) }
{
    match str::from_utf8(text) {
        Ok(text) => Ok(comparisons(alloc, text)?),
        Err(_) => Err(Fault::NotUtf8),
    }
}

/// Writes the text that one of these calls created, as far as there is room.
fn report_made(made: Result<String, AllocError>, bytes: &mut [u8], count: &mut u64) -> u32
    ensures made { IfOk made (λ s. (result ≡ 0) × (count.new ≡ length (string_bytes s))
        × (bytes.new ≡ over (string_bytes s) bytes.old)) }
    ensures memory { IfErr made (λ e. (result ≡ 10) × (count.new ≡ 0)) }
    ensures kept { (result ≡ 0) ⊎ (bytes.new ≡ bytes.old) }
{
    match made {
        Ok(made) => {
            *count = made.len() as u64;
            put(bytes, made.as_bytes());
            0
        }
        Err(_) => {
            *count = 0;
            NO_MEMORY
        }
    }
}
