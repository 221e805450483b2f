//! Reads pages of a query's answer in the version that a pass has pinned.
ghost use Rattle.std.specs.Prelude.{◌≡◌, ℕ};
ghost use Rattle.be_script_runner.specs.Pages as spec;
ghost use Rattle.be_script_runner.specs.Imports.{cursor_bytes, page_found, volume_pinned, Answers};
ghost use Rattle.be_script_runner.specs.Imports.{HasRead, IsPassOf, IsPinnedTo};

use arrayvec::ArrayVec;
use be_query::Query;
use be_script_language::{Page, Paging};
use be_store::{Order, Pass, PreparedQuery, Store};
use be_value::{Name, Refusal, Value};
use std::alloc::Global;

/// The value and number of the last of these nodes.
fn last_pair(store: &Store, pass: &mut Pass, by: &Name, nodes: &[u64]) -> Option<(Value, u64)>
    requires pass { IsPassOf store.now pass.old }
    requires pinned { (n : ℕ) × IsPinnedTo pass.old.knows n }
    ensures pass { IsPassOf store.now pass.new × HasRead pass.old.knows pass.new.knows }
    ensures pair { result ≡ spec.last_pair (volume_pinned pass.old.knows) by.now nodes.now }
{
    let node = *nodes.last()?;
    let value = store.get(pass, node, by)?;
    Some((value, node))
}

/// The page that begins after a key.
fn page_after(
    alloc: Global,
    store: &Store,
    pass: &mut Pass,
    query: Query,
    paging: &Paging,
    cursor: Option<ArrayVec<u8, 264>>,
) -> Result<Page, Refusal>
    requires pass { IsPassOf store.now pass.old }
    requires pinned { (n : ℕ) × IsPinnedTo pass.old.knows n }
    ensures pass { IsPassOf store.now pass.new × HasRead pass.old.knows pass.new.knows }
    ensures page { Answers page_found result (spec.page_after (volume_pinned pass.old.knows)
        paging.now (cursor_bytes cursor) query) }
{
    let mut prepared = PreparedQuery::new(query);
    let order = Order {
        by: &paging.by,
        descending: paging.descending,
        most: paging.most as usize,
    };
    let mut cursor = cursor;
    let mut nodes = Vec::new(alloc);
    let more = store.ordered(alloc, pass, &mut prepared, order, &mut cursor, &mut nodes)?;
    let last = last_pair(store, pass, &paging.by, nodes.as_slice());
    Ok(Page { nodes, more, last })
}

/// The page that a line requests.
pub(crate) fn read_page(
    alloc: Global,
    store: &Store,
    pass: &mut Pass,
    query: Query,
    paging: &Paging,
) -> Result<Page, Refusal>
    requires pass { IsPassOf store.now pass.old }
    requires pinned { (n : ℕ) × IsPinnedTo pass.old.knows n }
    ensures pass { IsPassOf store.now pass.new × HasRead pass.old.knows pass.new.knows }
    ensures page { Answers page_found result
        (spec.page_read (volume_pinned pass.old.knows) paging.now query) }
{
    let kind = store.index_kind(pass, &paging.by);
    let cursor = paging.cursor(kind)?;
    page_after(alloc, store, pass, query, paging, cursor)
}
