//! Reads the answers of prepared queries, whole or in parts, and refreshes prepared queries.
ghost use Rattle.std.specs.Prelude.{◌≡◌, ◌⊎◌, IfErr, OnOk, length};
ghost use Rattle.bestore_c.specs.Imports.{fault_code, name_in, IsLiveOf};
ghost use Rattle.bestore_c.specs.Calls.{HasOnlyRead, Refreshed, Refuses};
ghost use Rattle.bestore_c.specs.Ordering.{AnyFew, First, Ordered, RefreshedByWrites, more_in};
ghost use Rattle.bestore_c.specs.Places.{over};

use crate::handle::UpdateCounts;
use crate::places::put_counted;
use crate::refusing::refuse;
use be_session::{Cursor, Fault, HeldOrder, Prepared, Session};

/// Writes how many nodes a prepared query has found, and as many of them as fit. On failure, writes
/// the number that the error carries.
pub(crate) fn report_found(
    answer: Result<(), Fault>,
    prepared: &Prepared,
    nodes: &mut [u64],
    count: &mut u64,
) -> u32
    ensures found { OnOk answer ((result ≡ 0) × (count.new ≡ length prepared.now.found)
        × (nodes.new ≡ over prepared.now.found nodes.old)) }
    ensures refused { IfErr answer (λ e. Refuses e count.new result) }
    ensures kept { (result ≡ 0) ⊎ (nodes.new ≡ nodes.old) }
{
    match answer {
        Ok(()) => {
            put_counted(nodes, prepared.found(), count);
            0
        }
        Err(fault) => refuse(fault, count),
    }
}

/// Writes how many nodes a refresh added to a prepared query's answer and how many it removed, or
/// returns the code of its error.
fn report_refresh(answer: Result<(), Fault>, prepared: &Prepared, counts: &mut UpdateCounts) -> u32
    ensures refreshed { OnOk answer ((result ≡ 0)
        × (counts.new.created ≡ length prepared.now.came)
        × (counts.new.removed ≡ length prepared.now.went)) }
    ensures refused { IfErr answer (λ e. (result ≡ fault_code e) × (counts.new ≡ counts.old)) }
{
    match answer {
        Ok(()) => {
            *counts = UpdateCounts {
                created: prepared.created().len() as u64,
                removed: prepared.removed().len() as u64,
            };
            0
        }
        Err(fault) => fault.code(),
    }
}

/// Returns 1 if there are more nodes, and otherwise 0.
fn number_of(others: bool) -> u32
    ensures { result ≡ more_in others }
{
    if others { 1 } else { 0 }
}

/// Reads a page of a prepared query's answer in the session's pinned version, in the order of an
/// index, with as many nodes as fit. Writes the nodes, how many there are, and whether more follow,
/// and moves the cursor to the last of them.
pub(crate) fn find_ordered(
    session: &mut Session,
    prepared: &mut Prepared,
    order: HeldOrder<'_>,
    cursor: &mut Cursor,
    nodes: &mut [u64],
    count: &mut u64,
    more: &mut u32,
) -> u32
    requires most { order.most ≡ length nodes.old }
    ensures read { HasOnlyRead session.old session.new }
    ensures asked { Ordered session.old prepared.old prepared.new (name_in order.entry.by.now)
        order.entry.descending cursor.old cursor.new nodes.old nodes.new count.new more.new result }
    ensures kept { (result ≡ 0) ⊎ ((nodes.new ≡ nodes.old) × (more.new ≡ more.old)
        × (cursor.new ≡ cursor.old)) }
{
    match prepared.find_ordered(session, order, cursor) {
        Ok(others) => {
            *more = number_of(others);
            report_found(Ok(()), prepared, nodes, count)
        }
        Err(fault) => refuse(fault, count),
    }
}

/// Writes a prepared query's nodes in the session's pinned version, starting at a given number, as
/// many as fit.
pub(crate) fn find_first(
    session: &mut Session,
    prepared: &mut Prepared,
    from: u64,
    nodes: &mut [u64],
    count: &mut u64,
) -> u32
    ensures read { HasOnlyRead session.old session.new }
    ensures asked { First session.old prepared.old prepared.new from nodes.old nodes.new count.new
        result }
    ensures kept { (result ≡ 0) ⊎ (nodes.new ≡ nodes.old) }
{
    let answer = prepared.find_first(session, from, nodes.len());
    report_found(answer, prepared, nodes, count)
}

/// Writes arbitrary nodes of a prepared query in the session's pinned version, as many as fit.
pub(crate) fn find_any(
    session: &mut Session,
    prepared: &mut Prepared,
    nodes: &mut [u64],
    count: &mut u64,
) -> u32
    ensures read { HasOnlyRead session.old session.new }
    ensures asked { AnyFew session.old prepared.old prepared.new nodes.old nodes.new count.new
        result }
    ensures kept { (result ≡ 0) ⊎ (nodes.new ≡ nodes.old) }
{
    let answer = prepared.find_any(session, nodes.len());
    report_found(answer, prepared, nodes, count)
}

/// Refreshes a prepared query in the session's pinned version. Writes how many nodes were added to
/// its answer and how many were removed.
pub(crate) fn refresh_prepared(
    session: &mut Session,
    prepared: &mut Prepared,
    counts: &mut UpdateCounts,
) -> u32
    ensures read { HasOnlyRead session.old session.new }
    ensures refreshed { Refreshed session.old prepared.old prepared.new counts.new result }
    ensures kept { (result ≡ 0) ⊎ ((counts.new ≡ counts.old) × (prepared.new ≡ prepared.old)) }
{
    let answer = prepared.refresh(session);
    report_refresh(answer, prepared, counts)
}

/// Refreshes a prepared query in the session's pinned version from what was written since its last
/// refresh, which must have been in the session's store. Writes how many nodes were added to the
/// query's answer and how many were removed.
pub(crate) fn refresh_changed(
    session: &mut Session,
    prepared: &mut Prepared,
    counts: &mut UpdateCounts,
) -> u32
    requires own { IsLiveOf session.old.store prepared.old.live }
    ensures store { (session.new.store ≡ session.old.store)
        × (session.new.holds ≡ session.old.holds) }
    ensures refreshed { RefreshedByWrites session.old session.new prepared.old prepared.new
        counts.new result }
    ensures kept { (result ≡ 0) ⊎ ((counts.new ≡ counts.old) × (prepared.new ≡ prepared.old)) }
{
    let answer = prepared.refresh_changed(session);
    report_refresh(answer, prepared, counts)
}
