//! Answers in the order of an index, one page at a time.
//!
//! A page contains up to `most` nodes after a cursor. The cursor is the last key of the previous
//! page. It is a position and not a count, so a page of a later snapshot continues from the same
//! point, whatever has been written since.
ghost use Rattle.std.specs.Prelude.{◌≡◌, OnErr, IfOk};
ghost use Rattle.be_order.specs.Imports.{index_kind, Answers, State};
ghost use Rattle.be_order.specs.Ordered.{after, cursor_bytes, in_order, page, page_of, page_with};

use crate::keys::{Index, keys_after, move_cursor, put_keys_in_order, put_nodes};
use arrayvec::ArrayVec;
use be_plan::{Source, answer_into};
use be_query::Query;
use be_value::{Name, Refusal};
use std::alloc::{AllocError, Global};

/// The order of the nodes and the size of a page: the name whose index determines the order,
/// whether the order is reversed, and the maximum number of nodes per page.
#[derive(Clone, Copy)]
pub struct Order<'a> {
    pub by: &'a Name,
    pub descending: bool,
    pub most: usize,
}

/// Sorts those nodes that have a pair in the index into the order of the index, and keeps the first
/// of them after the cursor. Returns whether there are more, and leaves the cursor at the last node
/// kept.
fn keep_page<S: Source>(
    alloc: Global,
    source: &mut S,
    index: Index<'_>,
    order: Order<'_>,
    cursor: &mut Option<ArrayVec<u8, 264>>,
    found: &mut Vec<u64>,
) -> Result<bool, AllocError>
    ghost volume: { State }
    requires answers { S.answers_for source.old volume }
    requires kind { index_kind volume index.name.now ≡ Some index.kind }
    ensures page { IfOk result (λ more.
        page_of (cursor_bytes cursor.old) order.entry.most
        (after order.entry.descending (cursor_bytes cursor.old)
        (in_order volume index.entry.name.now order.entry.descending found.old.items))
        ≡ page_with found.new.items (cursor_bytes cursor.new) more) }
    ensures cursor { OnErr result (cursor.new ≡ cursor.old) }
    ensures stays { S.kept source.new ≡ S.kept source.old }
    ensures answers { S.answers_for source.new volume }
{
    let descending = order.descending;
    let mut keys = keys_after(alloc, source, index, descending, cursor, found)?;
    put_keys_in_order(&mut keys, descending);
    let more = keys.len() > order.most;
    keys.truncate(order.most);
    put_nodes(&keys, found)?;
    move_cursor(&mut keys, cursor);
    Ok(more)
}

/// Replaces the content of a list with a page of the answer: the first `most` nodes after the
/// cursor that satisfy the query and have a pair in the order's index. Returns whether more nodes
/// follow. The cursor is moved to the key of the last node; if the page is empty, or after an
/// error, it is unchanged. For the first page, pass no cursor.
///
/// Returns `NoSuchIndex` if the name has no index, and `NotCovered` if the indices don't cover the
/// query. After an error the source still represents the volume, but the content of the list is
/// unspecified.
///
/// The whole query is answered first (`answer_into`). The value of each node is then read and
/// checked against the index. Memory is allocated for all keys after the cursor.
pub fn ordered_into<S: Source>(
    alloc: Global,
    query: &Query,
    source: &mut S,
    order: Order<'_>,
    cursor: &mut Option<ArrayVec<u8, 264>>,
    found: &mut Vec<u64>,
) -> Result<bool, Refusal>
    ghost volume: { State }
    requires { S.answers_for source.old volume }
    ensures answer { Answers (page_with found.new.items (cursor_bytes cursor.new)) result
        (page volume query.now order.entry.by.now order.entry.descending
        (cursor_bytes cursor.old) order.entry.most) }
    ensures cursor { OnErr result (cursor.new ≡ cursor.old) }
    ensures stays { S.kept source.new ≡ S.kept source.old }
    ensures answers { S.answers_for source.new volume }
{
    let Some(kind) = source.kind_of(order.by) else {
        return Err(Refusal::NoSuchIndex);
    };
    answer_into(alloc, query, source, found)?;
    let index = Index {
        name: order.by,
        kind,
    };
    Ok(keep_page(alloc, source, index, order, cursor, found)?)
}
