//! Operations on a version that is being written.
//!
//! The volume's refusals have already been found. So each operation only does its work, and the
//! only possible error is that no page is free. The write is then undone, so the contracts say only
//! one thing about the state after such an error: the write holds few pages (`Stops`).
ghost use Rattle.std.specs.Prelude.{◌≡◌, [], ◌+◌, ◌≤◌, ◌<◌, ◌^◌, All, length, IsTrue, IfOk};
ghost use Rattle.std.specs.Prelude.{OnOk, IsOk};
ghost use Rattle.be_volume.specs.declared.ops.Op.TheVariants as ops;
ghost use Rattle.be_paged.specs.Imports.{contents, step, steps, Encodes, IsAsked, IsInHand};
ghost use Rattle.be_paged.specs.Imports.{IsKnownIn, IsSound, State};
ghost use Rattle.be_paged.specs.Changes.{Changes, IsBare, IsInHandFor, Reaches, SetsSameValue};
ghost use Rattle.be_paged.specs.Changes.{Steps};
ghost use Rattle.be_paged.specs.Stops.{Grows, RefusesAt, RefusesNear, StopsList};

use crate::changes::change_entry;
use arrayvec::ArrayVec;
use be_paged_reading::{
    Asked, Entry, Version, catalog_key, first_attribute, known_of, payload_of, search,
};
use be_pages::Room;
use be_tree::{clear, insert, remove};
use be_value::{Kind, Name, Refusal, Value};
use be_volume::{Done, MAX_ATTRIBUTES, MAX_INDICES, Op};

/// Creates a node by inserting its mark into the catalog.
fn add_node<R: Room>(room: &mut R, version: &mut Version) -> Result<Done, Refusal>
    requires in_hand { IsInHandFor (R.page_state room.old) (R.words room.old) 1
        (contents version.old) }
    requires open { IsTrue (R.is_open (R.kept room.old)) }
    ensures changes { OnOk result (Changes R.kept R.page_state R.words (contents version.old)
        (contents version.new) room.old room.new) }
    ensures steps { IfOk result (λ done. (volume : State)
        → Encodes (R.words room.old) (contents version.old) volume → IsSound volume →
        Steps (R.words room.new) (contents version.new) volume ops.New done) }
    ensures next { OnOk result (version.new.next ≡ version.old.next + 1) }
    ensures refused { RefusesNear R.kept R.page_state R.words R.full 0 (contents version.old) result
        room.old room.new }
{
    let node = version.next;
    version.catalog = insert(room, version.catalog, &node.to_be_bytes(), &[])?;
    version.next = node + 1;
    Ok(Done::Node(node))
}

/// Sets an attribute: its pair in an index changes first, then the catalog.
fn set_value<R: Room>(
    room: &mut R,
    version: &mut Version,
    node: u64,
    name: &Name,
    value: &Value,
    known: Option<Option<(u64, usize)>>,
) -> Result<Done, Refusal>
    requires in_hand { IsInHand (R.page_state room.old) (R.words room.old) (contents version.old) }
    requires known { IsKnownIn R.page_state R.words room.old version.old node name.now known }
    requires open { IsTrue (R.is_open (R.kept room.old)) }
    ensures changes { OnOk result (Changes R.kept R.page_state R.words (contents version.old)
        (contents version.new) room.old room.new) }
    ensures steps { IfOk result (λ done. (volume : State)
        → Encodes (R.words room.old) (contents version.old) volume → IsSound volume →
        IsOk (step volume (ops.Set node name.now value.now))
        → Steps (R.words room.new) (contents version.new) volume (ops.Set node name.now value.now)
        done) }
    ensures stays { IfOk result (λ done. (volume : State)
        → Encodes (R.words room.old) (contents version.old) volume → IsSound volume →
        SetsSameValue volume (ops.Set node name.now value.now) → version.new.entries.items
        ≡ version.old.entries.items) }
    ensures next { OnOk result (version.new.next ≡ version.old.next) }
    ensures refused { RefusesNear R.kept R.page_state R.words R.full 1 (contents version.old) result
        room.old room.new }
{
    change_entry(room, version, node, name, known, Some(value))?;
    let key = catalog_key(node, name);
    version.catalog = insert(room, version.catalog, &key, &payload_of(value))?;
    Ok(Done::Unit)
}

/// Removes an attribute, after removing its pair from an index.
fn unset_value<R: Room>(
    room: &mut R,
    version: &mut Version,
    node: u64,
    name: &Name,
    known: Option<Option<(u64, usize)>>,
) -> Result<Done, Refusal>
    requires in_hand { IsInHand (R.page_state room.old) (R.words room.old) (contents version.old) }
    requires known { IsKnownIn R.page_state R.words room.old version.old node name.now known }
    requires open { IsTrue (R.is_open (R.kept room.old)) }
    ensures changes { OnOk result (Grows R.kept R.page_state R.words 0 (contents version.old)
        (contents version.new) room.old room.new) }
    ensures steps { IfOk result (λ done. (volume : State)
        → Encodes (R.words room.old) (contents version.old) volume → IsSound volume →
        IsOk (step volume (ops.Unset node name.now))
        → Steps (R.words room.new) (contents version.new) volume (ops.Unset node name.now) done) }
    ensures next { OnOk result (version.new.next ≡ version.old.next) }
    ensures refused { RefusesNear R.kept R.page_state R.words R.full 0 (contents version.old) result
        room.old room.new }
{
    change_entry(room, version, node, name, known, None)?;
    let key = catalog_key(node, name);
    version.catalog = remove(room, version.catalog, &key)?;
    Ok(Done::Unit)
}

/// Creates an index. The index is empty, whatever the nodes have, and takes no page.
fn make_index<R: Room>(room: &mut R, version: &mut Version, name: &Name, kind: Kind) -> Done
    requires in_hand { IsInHand (R.page_state room.old) (R.words room.old) (contents version.old) }
    ensures room { room.new ≡ room.old }
    ensures changes { Changes R.kept R.page_state R.words (contents version.old)
        (contents version.new) room.old room.old }
    ensures steps { (volume : State) → Encodes (R.words room.old) (contents version.old) volume →
        IsOk (step volume (ops.MkIndex name.now kind))
        → Steps (R.words room.old) (contents version.new) volume (ops.MkIndex name.now kind)
        result }
    ensures next { version.new.next ≡ version.old.next }
{
    if let Err(at) = search(&version.entries, name) {
        if version.entries.len() < MAX_INDICES {
            version.entries.insert(at, Entry::new(name, kind));
        }
    }
    Done::Unit
}

/// Removes an index, and gives up every page of its tree.
fn remove_index<R: Room>(room: &mut R, version: &mut Version, name: &Name) -> Done
    requires in_hand { IsInHand (R.page_state room.old) (R.words room.old) (contents version.old) }
    requires open { IsTrue (R.is_open (R.kept room.old)) }
    ensures changes { Changes R.kept R.page_state R.words (contents version.old)
        (contents version.new) room.old room.new }
    ensures steps { (volume : State) → Encodes (R.words room.old) (contents version.old) volume →
        IsOk (step volume (ops.RmIndex name.now))
        → Steps (R.words room.new) (contents version.new) volume (ops.RmIndex name.now) result }
    ensures next { version.new.next ≡ version.old.next }
{
    if let Ok(at) = search(&version.entries, name) {
        let entry = version.entries.remove(at);
        clear(room, entry.root());
    }
    Done::Unit
}

/// Removes all attributes of a node, each with its pair. It reads each attribute's name, and its
/// value only if the name has an index.
fn unset_all<R: Room>(room: &mut R, version: &mut Version, node: u64) -> Result<(), Refusal>
    requires in_hand { IsInHand (R.page_state room.old) (R.words room.old) (contents version.old) }
    requires open { IsTrue (R.is_open (R.kept room.old)) }
    ensures changes { OnOk result (Grows R.kept R.page_state R.words 0 (contents version.old)
        (contents version.new) room.old room.new) }
    ensures bare { OnOk result ((volume : State)
        → Encodes (R.words room.old) (contents version.old) volume → IsSound volume →
        volume.next + 1 < 2 ^ 64 → IsOk (step volume (ops.Drop node))
        → IsBare (R.words room.new) (contents version.new) volume node) }
    ensures next { OnOk result (version.new.next ≡ version.old.next) }
    ensures refused { RefusesNear R.kept R.page_state R.words R.full 0 (contents version.old) result
        room.old room.new }
{
    for _ in 0..MAX_ATTRIBUTES {
        let Some((name, place)) = first_attribute(room, version.catalog, node) else {
            return Ok(());
        };
        unset_value(room, version, node, &name, Some(Some(place)))?;
    }
    Ok(())
}

/// Drops a node: removes each attribute with its pair, and then the node's mark.
fn drop_node<R: Room>(room: &mut R, version: &mut Version, node: u64) -> Result<Done, Refusal>
    requires in_hand { IsInHand (R.page_state room.old) (R.words room.old) (contents version.old) }
    requires open { IsTrue (R.is_open (R.kept room.old)) }
    ensures changes { OnOk result (Changes R.kept R.page_state R.words (contents version.old)
        (contents version.new) room.old room.new) }
    ensures steps { IfOk result (λ done. (volume : State)
        → Encodes (R.words room.old) (contents version.old) volume → IsSound volume →
        volume.next + 1 < 2 ^ 64 → IsOk (step volume (ops.Drop node))
        → Steps (R.words room.new) (contents version.new) volume (ops.Drop node) done) }
    ensures next { OnOk result (version.new.next ≡ version.old.next) }
    ensures refused { RefusesNear R.kept R.page_state R.words R.full 0 (contents version.old) result
        room.old room.new }
{
    unset_all(room, version, node)?;
    version.catalog = remove(room, version.catalog, &node.to_be_bytes())?;
    Ok(Done::Unit)
}

/// Performs one operation. `asked` is what is known about some attribute, possibly not the
/// operation's own.
fn edit<R: Room>(
    room: &mut R,
    version: &mut Version,
    op: &Op,
    asked: &Option<Asked>,
) -> Result<Done, Refusal>
    requires in_hand { IsInHandFor (R.page_state room.old) (R.words room.old) 1
        (contents version.old) }
    requires asked { IsAsked (R.page_state room.old) (R.words room.old) version.old.catalog
        asked.now }
    requires open { IsTrue (R.is_open (R.kept room.old)) }
    ensures changes { OnOk result (Changes R.kept R.page_state R.words (contents version.old)
        (contents version.new) room.old room.new) }
    ensures steps { IfOk result (λ done. (volume : State)
        → Encodes (R.words room.old) (contents version.old) volume → IsSound volume →
        volume.next + 1 < 2 ^ 64 → IsOk (step volume op.now)
        → Steps (R.words room.new) (contents version.new) volume op.now done) }
    ensures stays { IfOk result (λ done. (volume : State)
        → Encodes (R.words room.old) (contents version.old) volume → IsSound volume →
        SetsSameValue volume op.now → version.new.entries.items ≡ version.old.entries.items) }
    ensures next { OnOk result (version.new.next ≤ version.old.next + 1) }
    ensures refused { RefusesNear R.kept R.page_state R.words R.full 1 (contents version.old) result
        room.old room.new }
{
    match op {
        Op::New => add_node(room, version),
        Op::Drop(node) => drop_node(room, version, *node),
        Op::Set(node, name, value) => {
            let known = known_of(asked, *node, name);
            set_value(room, version, *node, name, value, known)
        }
        Op::Unset(node, name) => {
            let known = known_of(asked, *node, name);
            unset_value(room, version, *node, name, known)
        }
        Op::MkIndex(name, kind) => Ok(make_index(room, version, name, *kind)),
        Op::RmIndex(name) => Ok(remove_index(room, version, name)),
    }
}

/// Performs a list of operations that the volume accepts, one after another. Appends their outcomes
/// to an empty list. The list is filled in place, because passing it by value costs its whole
/// capacity. What `asked` knows about an attribute serves only the first operation, because the
/// trees change after it.
pub(crate) fn edit_all<R: Room>(
    room: &mut R,
    version: &mut Version,
    ops: &[Op],
    asked: Option<Asked>,
    dones: &mut ArrayVec<Done, 64>,
) -> Result<(), Refusal>
    requires lists { (length ops.now ≤ 64) × (dones.old.items ≡ []) }
    requires in_hand { IsInHandFor (R.page_state room.old) (R.words room.old) 64
        (contents version.old) }
    requires asked { IsAsked (R.page_state room.old) (R.words room.old) version.old.catalog asked }
    requires open { IsTrue (R.is_open (R.kept room.old)) }
    ensures changes { OnOk result (Changes R.kept R.page_state R.words (contents version.old)
        (contents version.new) room.old room.new) }
    ensures steps { OnOk result ((volume : State)
        → Encodes (R.words room.old) (contents version.old) volume → IsSound volume →
        IsOk (steps volume ops.now) → Reaches (R.words room.new) (contents version.new) volume
        ops.now dones.new.items) }
    ensures stays { OnOk result ((volume : State)
        → Encodes (R.words room.old) (contents version.old) volume → IsSound volume →
        All (SetsSameValue volume) ops.now → version.new.entries.items
        ≡ version.old.entries.items) }
    ensures refused { RefusesAt R.kept R.page_state R.words R.full
        (StopsList R.kept R.page_state R.words ops.now (contents version.old)) result room.old
        room.new }
{
    let mut first = asked;
    for op in ops {
        op.valid();
        dones.push(edit(room, version, op, &first)?);
        first = None;
    }
    Ok(())
}
