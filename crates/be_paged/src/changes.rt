//! Changes to the trees of a version that is being written.
//!
//! A node's attribute and its pair in an index change one after the other. Between the two changes,
//! the contents encode a volume whose index and attribute disagree. So the invariant between
//! changes is only that the trees are well formed, whatever pairs they hold.
ghost use Rattle.std.specs.Prelude.{◌≡◌, ℕ, ◌<◌, length, IsTrue, IfOk, IfErr, OnOk};
ghost use Rattle.std.specs.Prelude.{OnErr, IfSome, IfNone, Some, None, option_map, true, is_some};
ghost use Rattle.std.specs.Prelude.{List};
ghost use Rattle.be_paged.specs.Imports.{attribute, contents, is_indexable, key, kind_in};
ghost use Rattle.be_paged.specs.Imports.{level_of_root, most_taken, one_of, option_copied, pages};
ghost use Rattle.be_paged.specs.Imports.{pairs, payload_at, with_pair, AnyIndex, AnyValue};
ghost use Rattle.be_paged.specs.Imports.{BecomesTree, Encodes, IsFullOf, IsInHand, IsIndexOf};
ghost use Rattle.be_paged.specs.Imports.{IsKnownIn, IsNamedAt, IsSound, IsTree, IsUnchanged};
ghost use Rattle.be_paged.specs.Imports.{IsValue, KeepsStart, State, TakesFewer};
ghost use Rattle.be_paged.specs.Changes.{IsReady, repaired, with_indices, key_turned};
ghost use Rattle.be_paged.specs.Stops.{Grows, GrowsTree, RefusesAt, RefusesNear, StopsTree};

use arrayvec::ArrayVec;
use be_paged_reading::{Version, index_at, search, set_root, value_in};
use be_pages::{Look, Room};
use be_tree::{has_key, insert, remove};
use be_value::{Kind, Name, Refusal, Value, key_of, valid};

/// Returns the key of the node's pair in an index of this kind, if there is a value of that kind.
fn key_in(kind: Kind, value: Option<&Value>, node: u64) -> Option<ArrayVec<u8, 264>>
    ensures some { IfSome result (λ k. (v : AnyValue) × (option_copied value.entry ≡ Some v)
        × (kind_in v ≡ kind) × IsValue v × (k.items ≡ key v node)) }
    ensures none { IfNone result ((v : AnyValue) → option_copied value.entry ≡ Some v → kind_in v
        ≡ kind → IsTrue (is_indexable kind) → ⊥) }
{
    if !kind.indexable() {
        return None;
    }
    match value {
        Some(value) if value.kind() == kind => {
            valid(value);
            Some(key_of(value, node))
        }
        _ => None,
    }
}

/// Returns `true` if the two keys are equal and the tree has that key. If they differ, the tree
/// isn't searched.
fn holds_both<L: Look>(
    look: &mut L,
    root: u64,
    other: &Option<ArrayVec<u8, 264>>,
    key: &Option<ArrayVec<u8, 264>>,
) -> bool
    requires tree { IsTree (L.page_state look.old) (L.words look.old) root }
    ensures found { result ≡ true → (k : List ℕ) × (option_map (λ k. k.items) key.now ≡ Some k)
        × (is_some (payload_at (pairs (L.words look.old) root) k) ≡ true) }
    ensures finds { (k : List ℕ) → option_map (λ k. k.items) other.now ≡ Some k
        → option_map (λ k. k.items) key.now ≡ Some k →
        is_some (payload_at (pairs (L.words look.old) root) k) ≡ true → result ≡ true }
    ensures unchanged { IsUnchanged L.kept L.page_state L.words look.old look.new }
{
    match (other, key) {
        (Some(other), Some(key)) => other.as_slice() == key.as_slice() && has_key(look, root, key),
        _ => false,
    }
}

/// What happens to a key.
#[derive(Clone, Copy)]
enum Turn {
    Leaves,
    Enters,
}

/// If there is a key, removes it from a tree or inserts it without a payload.
fn turn_key<R: Room>(
    room: &mut R,
    root: u64,
    turn: Turn,
    key: &Option<ArrayVec<u8, 264>>,
) -> Result<u64, Refusal>
    requires tree { IsTree (R.page_state room.old) (R.words room.old) root }
    requires open { IsTrue (R.is_open (R.kept room.old)) }
    ensures ok { IfOk result (λ new. BecomesTree R.kept R.page_state R.words
        (pages (R.words room.old) root)
        (key_turned turn (option_map (λ k. k.items) key.now) (pairs (R.words room.old) root)) new
        room.old room.new) }
    ensures none { IfOk result (λ new. option_map (λ k. k.items) key.now ≡ None → new ≡ root) }
    ensures err { OnErr result (KeepsStart R.kept R.page_state R.words room.old room.new) }
    ensures full { IfErr result (IsFullOf (R.full room.new)) }
    ensures takes { OnErr result (TakesFewer (most_taken (level_of_root (R.words room.old) root))
        (R.page_state room.old) (R.page_state room.new)) }
{
    let Some(key) = key else {
        return Ok(root);
    };
    match turn {
        Turn::Leaves => remove(room, root, key),
        Turn::Enters => insert(room, root, key, &[]),
    }
}

/// Changes the node's pair in an index's tree: it removes the old value's pair and inserts the new
/// value's, if they are of the index's kind. If the tree already has the new pair, the root and the
/// page writer are unchanged. The tree is searched for it only if the old value has the same pair,
/// because an index has no pair of any other value.
fn change_root<R: Room>(
    room: &mut R,
    root: u64,
    kind: Kind,
    node: u64,
    old: Option<&Value>,
    new: Option<&Value>,
) -> Result<u64, Refusal>
    requires tree { IsTree (R.page_state room.old) (R.words room.old) root }
    requires open { IsTrue (R.is_open (R.kept room.old)) }
    ensures grows { IfOk result (λ r. GrowsTree R.kept R.page_state R.words
        (one_of (is_some (option_copied new.entry))) root r room.old room.new) }
    ensures keys { IfOk result (λ r. (index : AnyIndex)
        → IsIndexOf (pairs (R.words room.old) root) index
        → IsReady index kind node (option_copied old.entry) →
        IsIndexOf (pairs (R.words room.new) r) (repaired index node (option_copied new.entry))) }
    ensures stays { IfOk result (λ r. (v : AnyValue) → kind_in v ≡ kind → IsTrue (is_indexable kind)
        →
        option_copied old.entry ≡ Some v → option_copied new.entry ≡ Some v →
        is_some (payload_at (pairs (R.words room.old) root) (key v node)) ≡ true → (r ≡ root)
        × IsUnchanged R.kept R.page_state R.words room.old room.new) }
    ensures apart { IfOk result (λ r. (v : AnyValue) → (kind_in v ≡ kind → ⊥) →
        option_copied old.entry ≡ Some v → option_copied new.entry ≡ Some v → r ≡ root) }
    ensures refused { RefusesAt R.kept R.page_state R.words R.full
        (StopsTree R.kept R.page_state R.words root) result room.old room.new }
{
    let leaves = key_in(kind, old, node);
    let enters = key_in(kind, new, node);
    if holds_both(room, root, &leaves, &enters) {
        return Ok(root);
    }
    let rest = turn_key(room, root, Turn::Leaves, &leaves)?;
    let last = turn_key(room, rest, Turn::Enters, &enters)?;
    Ok(last)
}

/// Changes the node's pair in the index at a position on the version page.
fn change_at<R: Room>(
    room: &mut R,
    version: &mut Version,
    at: usize,
    node: u64,
    old: Option<&Value>,
    new: Option<&Value>,
) -> Result<(), Refusal>
    requires in_hand { IsInHand (R.page_state room.old) (R.words room.old) (contents version.old) }
    requires in_range { at < length version.old.entries.items }
    requires open { IsTrue (R.is_open (R.kept room.old)) }
    ensures changes { OnOk result (Grows R.kept R.page_state R.words
        (one_of (is_some (option_copied new.entry))) (contents version.old) (contents version.new)
        room.old room.new) }
    ensures encodes { OnOk result ((volume : State) (name : List ℕ)
        → IsNamedAt version.old.entries.items name at →
        Encodes (R.words room.old) (contents version.old) volume → IsSound volume
        → option_copied old.entry ≡ attribute volume node name →
        Encodes (R.words room.new) (contents version.new)
        (with_indices volume name node (option_copied new.entry))) }
    ensures stays { OnOk result ((volume : State) (name : List ℕ)
        → IsNamedAt version.old.entries.items name at →
        Encodes (R.words room.old) (contents version.old) volume → IsSound volume
        → option_copied old.entry ≡ attribute volume node name → (v : AnyValue) →
        option_copied old.entry ≡ Some v → option_copied new.entry ≡ Some v
        → with_pair volume.indices name node v ≡ volume.indices →
        version.new.entries.items ≡ version.old.entries.items) }
    ensures rest { OnOk result ((version.new.catalog ≡ version.old.catalog)
        × (version.new.next ≡ version.old.next)) }
    ensures refused { RefusesNear R.kept R.page_state R.words R.full 0 (contents version.old) result
        room.old room.new }
{
    let (kind, root) = index_at(&version.entries, at);
    let changed = change_root(room, root, kind, node, old, new)?;
    set_root(&mut version.entries, at, changed);
    Ok(())
}

/// Changes the node's pair in the index with this name, if there is one. Only then is the node's
/// old value read, and it is searched for only if `known` doesn't say where it is.
pub(crate) fn change_entry<R: Room>(
    room: &mut R,
    version: &mut Version,
    node: u64,
    name: &Name,
    known: Option<Option<(u64, usize)>>,
    new: Option<&Value>,
) -> Result<(), Refusal>
    requires in_hand { IsInHand (R.page_state room.old) (R.words room.old) (contents version.old) }
    requires known { IsKnownIn R.page_state R.words room.old version.old node name.now known }
    requires open { IsTrue (R.is_open (R.kept room.old)) }
    ensures changes { OnOk result (Grows R.kept R.page_state R.words
        (one_of (is_some (option_copied new.entry))) (contents version.old) (contents version.new)
        room.old room.new) }
    ensures encodes { OnOk result ((volume : State)
        → Encodes (R.words room.old) (contents version.old) volume → IsSound volume →
        Encodes (R.words room.new) (contents version.new)
        (with_indices volume name.now node (option_copied new.entry))) }
    ensures stays { OnOk result ((volume : State)
        → Encodes (R.words room.old) (contents version.old) volume → IsSound volume → (v : AnyValue)
        →
        attribute volume node name.now ≡ Some v → option_copied new.entry ≡ Some v
        → with_pair volume.indices name.now node v ≡ volume.indices →
        version.new.entries.items ≡ version.old.entries.items) }
    ensures rest { OnOk result ((version.new.catalog ≡ version.old.catalog)
        × (version.new.next ≡ version.old.next)) }
    ensures refused { RefusesNear R.kept R.page_state R.words R.full 0 (contents version.old) result
        room.old room.new }
{
    let Ok(at) = search(&version.entries, name) else {
        return Ok(());
    };
    let old = value_in(room, version.catalog, node, name, known);
    change_at(room, version, at, node, old.as_ref(), new)?;
    Ok(())
}
