//! What the tests of the store and of its table share: limits, names, and checks on the journal of
//! two passes.
ghost use Rattle.std.specs.Prelude.{◌≡◌, ◌∷◌, [], IfOk};

use be_journal::{EntryView, Journal};
use be_value::{Name, Refusal};
use be_volume::Done;
use std::alloc::{AllocError, Global};
use std::str;

/// Limits (pages, passes and commits), of which one is just out of range.
pub const OUTSIDE_LIMITS: [(u64, u64, u64); 6] = [
    (7, 1, 1),
    (16385, 1, 1),
    (8, 0, 1),
    (8, 65, 1),
    (8, 1, 0),
    (8, 1, 4_294_967_296),
];

/// One of 256 names of two letters, beginning with `aa`.
pub fn numbered(number: u8) -> Result<Name, Refusal> {
    let letters = [b'a' + number / 16, b'a' + number % 16];
    Name::new(str::from_utf8(&letters).unwrap_or(""))
}

/// A list of these two elements. If memory runs out, it is built again.
pub fn pair_of<T: Drop>(alloc: Global, first: T, second: T) -> Result<Vec<T>, AllocError>
    ensures { IfOk result (λ list. list.items ≡ first ∷ second ∷ []) }
{
    let mut list = match Vec::with_capacity(alloc, 2) {
        Err(_) => Vec::with_capacity(alloc, 2)?,
        Ok(list) => list,
    };
    list.push_reserved(first);
    list.push_reserved(second);
    Ok(list)
}

/// The two elements of a list, in order.
pub fn both_of<T: Drop>(mut list: Vec<T>) -> Result<(T, T), Refusal>
    ensures { IfOk result (λ both. list.items ≡ both.0 ∷ both.1 ∷ []) }
{
    match (list.pop(), list.pop()) {
        (Some(second), Some(first)) if list.is_empty() => Ok((first, second)),
        _ => Err(Refusal::BadLimits),
    }
}

/// Whether the journal is legal. If memory runs out, it is checked again.
pub fn is_legal(journal: &Journal) -> Result<bool, Refusal> {
    match journal.check() {
        Err(Refusal::OutOfMemory) => journal.check(),
        answer => answer,
    }
}

/// Whether the entry has one operation, and its outcome is this node.
fn answers_node(entry: &EntryView<'_>, node: u64) -> bool {
    let mut steps = entry.steps();
    entry.len() == 1 && matches!(steps.next(), Some((_, Done::Node(it))) if it == node)
}

/// The number of entries that the pass made, if each entry's outcome is the node with the entry's
/// number.
fn count_by(journal: &Journal, pass: u64) -> u64 {
    let mut count: u64 = 0;
    for i in 0..journal.len() {
        let entry = journal.get(i);
        if !answers_node(&entry, i + 1) {
            return 0;
        }
        if entry.by() == pass {
            count = count.saturating_add(1);
        }
    }
    count
}

/// Whether the journal is legal, and passes 0 and 1 each created exactly a hundred nodes in it.
pub fn has_hundred_by_each(journal: &Journal) -> Result<bool, Refusal> {
    let is_whole = journal.len() == 200
        && count_by(journal, 0) == 100
        && count_by(journal, 1) == 100;
    Ok(is_whole && is_legal(journal)?)
}
