//! Pages found by walking the index and testing its own keys.
//!
//! The remaining condition of a query may be a single comparison with a string, such as a pattern,
//! on the order's own name. The strings in the keys then decide it. If all nodes that satisfy the
//! condition are known, marks for these nodes decide it. In both cases, the walk reads no node.
ghost use Rattle.std.specs.Prelude.{◌≡◌, IfErr, IfOk, IfSome, None, OnErr, Some};
ghost use Rattle.be_order.specs.Imports.{formula, index_kind, option_copied, Formula, OutOfMemory};
ghost use Rattle.be_order.specs.Imports.{State};
ghost use Rattle.be_order.specs.Asked.{IsPageOfRest, IsTestFor, Lists};
ghost use Rattle.be_order.specs.Ordered.{cursor_bytes};

use crate::asked::Walk;
use crate::prepared::keep_first;
use crate::{OrderedKeys, OrderedSource};
use arrayvec::ArrayVec;
use be_plan::{KeyTest, Marks, TextTest, asked_of_texts};
use be_query::Tree;
use be_value::Refusal;
use std::alloc::Global;

/// Finds a page of a query that the indices cover, using a walk that tests each key against the
/// remaining condition. It costs one test per visited key until the page is full. Returns `None` if
/// the source doesn't test keys in place.
fn test_page<S: OrderedSource>(
    source: &mut S,
    walk: Walk<'_>,
    test: KeyTest<'_, '_>,
    most: usize,
    cursor: &mut Option<ArrayVec<u8, 264>>,
    found: &mut Vec<u64>,
) -> Result<Option<bool>, Refusal>
    ghost volume: { State }
    requires answers { S.answers_for source.old volume }
    requires kind { index_kind volume walk.keys.name.now ≡ Some walk.kind }
    ensures page { IfOk result (λ tested. IfSome tested (λ more. (rest : Formula)
        → IsTestFor volume walk.entry.keys.name.now test.entry rest
        → IsPageOfRest volume rest walk.entry.keys.name.now walk.entry.kind
        walk.entry.keys.low.now (option_copied walk.entry.keys.high) walk.entry.descending most
        (cursor_bytes cursor.old) found.new.items (cursor_bytes cursor.new) more)) }
    ensures memory { IfErr result (λ e. e ≡ OutOfMemory) }
    ensures cursor { OnErr result (cursor.new ≡ cursor.old) }
    ensures none { IfOk result (λ tested. tested ≡ None → cursor.new ≡ cursor.old) }
    ensures stays { S.kept source.new ≡ S.kept source.old }
    ensures answers { S.answers_for source.new volume }
{
    let Some(one_more) = most.checked_add(1) else {
        return Ok(None);
    };
    let keys = OrderedKeys {
        keys: walk.keys,
        descending: walk.descending,
        cursor,
    };
    if !source.first_passing(keys, test, one_more, found)? {
        return Ok(None);
    }
    let more = found.len() > most;
    keep_first(source, walk.keys.name, most, cursor, found);
    Ok(Some(more))
}

/// Finds a page of a query that the indices cover and whose remaining condition is a single
/// comparison with the strings of the order's own index. The walk tests these strings. Returns
/// `None` if the condition is anything else, or if the source doesn't test strings in place.
pub(crate) fn text_page<S: OrderedSource>(
    alloc: Global,
    tree: &Tree,
    source: &mut S,
    walk: Walk<'_>,
    most: usize,
    cursor: &mut Option<ArrayVec<u8, 264>>,
    found: &mut Vec<u64>,
) -> Result<Option<bool>, Refusal>
    ghost volume: { State }
    requires answers { S.answers_for source.old volume }
    requires kind { index_kind volume walk.keys.name.now ≡ Some walk.kind }
    ensures page { IfOk result (λ asked. IfSome asked (IsPageOfRest volume (formula tree.now)
        walk.entry.keys.name.now walk.entry.kind walk.entry.keys.low.now
        (option_copied walk.entry.keys.high) walk.entry.descending most (cursor_bytes cursor.old)
        found.new.items (cursor_bytes cursor.new))) }
    ensures memory { IfErr result (λ e. e ≡ OutOfMemory) }
    ensures cursor { OnErr result (cursor.new ≡ cursor.old) }
    ensures none { IfOk result (λ asked. asked ≡ None → cursor.new ≡ cursor.old) }
    ensures stays { S.kept source.new ≡ S.kept source.old }
    ensures answers { S.answers_for source.new volume }
{
    let Some(comparison) = asked_of_texts(tree, walk.keys.name, walk.kind) else {
        return Ok(None);
    };
    let test = TextTest::new(alloc, comparison)?;
    test_page(source, walk, KeyTest::Text(&test), most, cursor, found)
}

/// Finds a page of a query that the indices cover, using a walk that looks up each node in `nodes`:
/// all nodes that satisfy the remaining condition. Returns `None` if there are only a few of them
/// or they are far apart, if memory runs out, or if the source doesn't test keys in place.
pub(crate) fn marked_page<S: OrderedSource>(
    alloc: Global,
    nodes: &[u64],
    source: &mut S,
    walk: Walk<'_>,
    most: usize,
    cursor: &mut Option<ArrayVec<u8, 264>>,
    found: &mut Vec<u64>,
) -> Result<Option<bool>, Refusal>
    ghost volume: { State }
    requires answers { S.answers_for source.old volume }
    requires kind { index_kind volume walk.keys.name.now ≡ Some walk.kind }
    ensures page { IfOk result (λ looked_up. IfSome looked_up (λ more. (rest : Formula)
        → Lists volume rest nodes.now
        → IsPageOfRest volume rest walk.entry.keys.name.now walk.entry.kind
        walk.entry.keys.low.now (option_copied walk.entry.keys.high) walk.entry.descending most
        (cursor_bytes cursor.old) found.new.items (cursor_bytes cursor.new) more)) }
    ensures memory { IfErr result (λ e. e ≡ OutOfMemory) }
    ensures cursor { OnErr result (cursor.new ≡ cursor.old) }
    ensures none { IfOk result (λ looked_up. looked_up ≡ None → cursor.new ≡ cursor.old) }
    ensures stays { S.kept source.new ≡ S.kept source.old }
    ensures answers { S.answers_for source.new volume }
{
    let Some(marks) = Marks::new(alloc, nodes) else {
        return Ok(None);
    };
    test_page(source, walk, KeyTest::Marked(&marks), most, cursor, found)
}
