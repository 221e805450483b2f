//! Evaluates a query at individual nodes, and updates an ascending list with the results.
ghost use Rattle.std.specs.Prelude.{◌≡◌, ◌==◌, ◌≤◌, ◌<◌, ◌+◌, ◌++◌, ◌&&◌, ◌||◌, ◌∷◌, [], ℕ, not};
ghost use Rattle.std.specs.Prelude.{filter, length};
ghost use Rattle.std.specs.Prelude.{OnOk, IfErr, if◌then◌else◌, vec_capacity, vec_len};
ghost use Rattle.be_store.specs.Imports.{formula, sat, IsStrictlyIncreasing, IsVersion};
ghost use Rattle.be_store.specs.Imports.{OutOfMemory, State};
ghost use Rattle.be_store.specs.Live.{is_among};

use crate::answers::Updates;
use be_paged::source;
use be_pages::Look;
use be_plan::{Source, is_true};
use be_query::{Query, Tree};
use be_value::Refusal;

/// Returns whether an ascending list contains this number.
fn has(numbers: &[u64], number: u64) -> bool
    requires { IsStrictlyIncreasing numbers.now }
    ensures { result ≡ is_among numbers.now number }
{
    numbers.binary_search(&number).is_ok()
}

/// Appends a number to a list if `is` is true.
fn add_if(list: &mut Vec<u64>, number: u64, is: bool) -> Result<(), Refusal>
    ensures ok { OnOk result (list.new.items ≡ list.old.items
        ++ (if is then number ∷ [] else [])) }
    ensures err { IfErr result (λ e. e ≡ OutOfMemory) }
{
    if !is {
        return Ok(());
    }
    list.push(number)?;
    Ok(())
}

/// Appends a node to `created` if it matches the query but isn't in the list, and to `removed` if
/// it is in the list but doesn't match.
fn add_change(list: &[u64], node: u64, is: bool, updates: &mut Updates) -> Result<(), Refusal>
    requires { IsStrictlyIncreasing list.now }
    ensures created { OnOk result (updates.new.created.items ≡ updates.old.created.items
        ++ (if is && not (is_among list.now node) then node ∷ [] else [])) }
    ensures removed { OnOk result (updates.new.removed.items ≡ updates.old.removed.items
        ++ (if is_among list.now node && not is then node ∷ [] else [])) }
    ensures err { IfErr result (λ e. e ≡ OutOfMemory) }
{
    let was = has(list, node);
    add_if(&mut updates.created, node, is && !was)?;
    add_if(&mut updates.removed, node, was && !is)
}

/// Evaluates a tree at each of these nodes. Appends to `created` the nodes that match but aren't in
/// the list, and to `removed` those that are in the list but don't match.
fn ask_nodes<S: Source>(
    source: &mut S,
    tree: &Tree,
    list: &[u64],
    nodes: &[u64],
    updates: &mut Updates,
) -> Result<(), Refusal>
    ghost volume: { State }
    requires answers { S.answers_for source.old volume }
    requires rising { IsStrictlyIncreasing list.now }
    requires empty { (updates.old.created.items ≡ []) × (updates.old.removed.items ≡ []) }
    ensures stays { S.kept source.new ≡ S.kept source.old }
    ensures created { OnOk result (updates.new.created.items
        ≡ filter (λ n. sat volume (formula tree.now) n && not (is_among list.now n)) nodes.now) }
    ensures removed { OnOk result (updates.new.removed.items
        ≡ filter (λ n. is_among list.now n && not (sat volume (formula tree.now) n)) nodes.now) }
    ensures err { IfErr result (λ e. e ≡ OutOfMemory) }
{
    for node in nodes {
        let is = is_true(source, tree, *node);
        add_change(list, *node, is, updates)?;
    }
    Ok(())
}

/// Does what `ask_nodes` does, for a query and through any page reader, which it gives back.
pub(crate) fn ask_each<L: Look>(
    look: L,
    version_page: u64,
    query: &Query,
    list: &[u64],
    nodes: &[u64],
    updates: &mut Updates,
) -> (L, Result<(), Refusal>)
    ghost volume: { State }
    requires version { IsVersion (L.page_state look) (L.words look) version_page volume }
    requires rising { IsStrictlyIncreasing list.now }
    requires empty { (updates.old.created.items ≡ []) × (updates.old.removed.items ≡ []) }
    ensures created { OnOk result.1 (updates.new.created.items
        ≡ filter (λ n. sat volume query.now n && not (is_among list.now n)) nodes.now) }
    ensures removed { OnOk result.1 (updates.new.removed.items
        ≡ filter (λ n. is_among list.now n && not (sat volume query.now n)) nodes.now) }
    ensures err { IfErr result.1 (λ e. e ≡ OutOfMemory) }
    ensures kept { L.kept result.0 ≡ L.kept look }
{
    let mut source = source(look, version_page);
    let answer = ask_nodes(&mut source, query.tree(), list, nodes, updates);
    (source.into_look(), answer)
}

/// Removes a number from an ascending list if it is there.
fn take_one(list: &mut Vec<u64>, number: u64)
    requires { IsStrictlyIncreasing list.old.items }
    ensures rising { IsStrictlyIncreasing list.new.items }
    ensures left { (n : ℕ) → is_among list.new.items n ≡ (is_among list.old.items n
        && not (number == n)) }
    ensures room { (vec_len list.new ≤ vec_len list.old)
        × (vec_capacity list.new ≡ vec_capacity list.old) }
{
    let at = match list.as_slice().binary_search(&number) {
        Ok(at) => at,
        Err(_gap) => return,
    };
    list.remove(at);
}

/// Removes these numbers from an ascending list.
pub(crate) fn take_out(list: &mut Vec<u64>, numbers: &[u64])
    requires { IsStrictlyIncreasing list.old.items }
    ensures rising { IsStrictlyIncreasing list.new.items }
    ensures left { (n : ℕ) → is_among list.new.items n ≡ (is_among list.old.items n
        && not (is_among numbers.now n)) }
    ensures room { (vec_len list.new ≤ vec_len list.old)
        × (vec_capacity list.new ≡ vec_capacity list.old) }
{
    for number in numbers {
        take_one(list, *number);
    }
}

/// Inserts a number into an ascending list unless it is already there. The list must have room for
/// it.
fn put_one(list: &mut Vec<u64>, number: u64)
    requires rising { IsStrictlyIncreasing list.old.items }
    requires room { vec_len list.old < vec_capacity list.old }
    ensures rising { IsStrictlyIncreasing list.new.items }
    ensures both { (n : ℕ) → is_among list.new.items n ≡ (is_among list.old.items n
        || (number == n)) }
    ensures room { (vec_len list.new ≤ vec_len list.old + 1)
        × (vec_capacity list.old ≤ vec_capacity list.new) }
{
    let at = match list.as_slice().binary_search(&number) {
        Ok(_there) => return,
        Err(at) => at,
    };
    let Ok(()) = list.insert(at, number) else {
        unreachable!()
    };
}

/// Inserts these numbers into an ascending list, which must have room for them.
pub(crate) fn put_in(list: &mut Vec<u64>, numbers: &[u64])
    requires rising { IsStrictlyIncreasing list.old.items }
    requires room { vec_len list.old + length numbers.now ≤ vec_capacity list.old }
    ensures rising { IsStrictlyIncreasing list.new.items }
    ensures both { (n : ℕ) → is_among list.new.items n ≡ (is_among list.old.items n
        || is_among numbers.now n) }
{
    for number in numbers {
        put_one(list, *number);
    }
}
