//! Writes the answers and explanations of queries for C.
ghost use Rattle.std.specs.Prelude.{◌≡◌, ◌⊎◌, ℕ, List, IfErr, IfOk, false, length, string_bytes};
ghost use Rattle.std.specs.Prelude.{true};
ghost use Rattle.bestore_c.specs.Imports.{AnyFault, AnyOption, AnyRefusal, AnyResult, AtPin};
ghost use Rattle.bestore_c.specs.Imports.{IsNoQuery, IsTextOf, ReadAnswers};
ghost use Rattle.bestore_c.specs.Calls.{IsClosed, PutsOutAtPin, Refuses};
ghost use Rattle.bestore_c.specs.Places.{over};

use crate::CLOSED;
use crate::places::put_counted;
use crate::refusing::refuse;
use be_query::Query;
use be_session::{Fault, query_of};
use std::alloc::Global;

/// Parses this text as a query if the handle is open. Otherwise returns the code of a call that did
/// nothing, and writes the number that goes with it.
pub(crate) fn query_for(
    alloc: Global,
    live: bool,
    text: &[u8],
    number: &mut u64,
) -> Result<Query, u32>
    ensures live { IfOk result (λ _. live ≡ true) }
    ensures query { IfOk result (λ query. IsTextOf text.now query) }
    ensures closed { IfErr result (λ code. live ≡ false → IsClosed number.new code) }
    ensures refused { IfErr result (λ code. live ≡ true → (e : AnyFault) × Refuses e number.new code
        × IsNoQuery text.now e) }
{
    if !live {
        *number = 0;
        return Err(CLOSED);
    }
    match query_of(alloc, text) {
        Ok(query) => Ok(query),
        Err(fault) => Err(refuse(fault, number)),
    }
}

/// Writes how many nodes a session found, and as many of them as fit. On failure, writes the number
/// that the error carries. What this means for the version follows from the session's own contract.
pub(crate) fn report(answer: Result<Vec<u64>, Fault>, nodes: &mut [u64], count: &mut u64) -> u32
    ensures found { (pin : AnyOption ℕ) (meant : AnyResult (List ℕ) AnyRefusal)
        → AtPin pin answer (ReadAnswers (λ found. found.items) answer meant)
        → PutsOutAtPin pin meant nodes.old nodes.new count.new result }
    ensures kept { (result ≡ 0) ⊎ (nodes.new ≡ nodes.old) }
{
    match answer {
        Ok(found) => {
            put_counted(nodes, found.as_slice(), count);
            0
        }
        Err(fault) => refuse(fault, count),
    }
}

/// Writes the length of a text in bytes, and as many of the bytes as fit.
pub(crate) fn put_text(text: &str, bytes: &mut [u8], count: &mut u64)
    ensures count { count.new ≡ length text.now }
    ensures bytes { bytes.new ≡ over text.now bytes.old }
{
    put_counted(bytes, text.as_bytes(), count);
}

/// Writes the length of a session's text in bytes, and as many of the bytes as fit. Otherwise like
/// `report`.
pub(crate) fn report_text(answer: Result<String, Fault>, bytes: &mut [u8], count: &mut u64) -> u32
    ensures found { (pin : AnyOption ℕ) (meant : AnyResult (List ℕ) AnyRefusal)
        → AtPin pin answer (ReadAnswers string_bytes answer meant)
        → PutsOutAtPin pin meant bytes.old bytes.new count.new result }
    ensures kept { (result ≡ 0) ⊎ (bytes.new ≡ bytes.old) }
{
    match answer {
        Ok(text) => {
            put_text(text.as_str(), bytes, count);
            0
        }
        Err(fault) => refuse(fault, count),
    }
}
