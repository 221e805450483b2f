//! A volume's operations, read list by list.
//!
//! The operations are never all in memory at once. Apart from the list being returned, only those
//! for one number, or those for the indices, are in memory.
ghost use Rattle.std.specs.Prelude.{◌≡◌, ◌<◌, ◌≤◌, ◌++◌, ◌⊎◌, [], IfOk, IfSome, IfNone, OnOk};
ghost use Rattle.std.specs.Prelude.{length, true, false};
ghost use Rattle.be_volume.specs.Volume.{State};
ghost use Rattle.be_volume_state.specs.Places as places;
ghost use Rattle.be_volume_state.specs.Places.{left, given};
ghost use Rattle.be_volume_state.specs.Rebuilding.{state_ops};

use crate::Whole;
use crate::pieces::{held_ops, index_ops, number_ops};
use be_volume::Op;
use std::alloc::{AllocError, Global};
use std::mem;

/// What is read next.
#[derive(Clone, Copy)]
pub(crate) enum Step {
    /// This number, and those attributes of its node that no index has.
    Number(u64),
    /// The indices.
    Indices,
    /// Those attributes of the node with this number that an index has.
    Held(u64),
}

/// How far a volume's operations have been read: what to read next, and what has been read but not
/// yet returned.
#[derive(Drop)]
pub struct Place {
    alloc: Global,
    step: Step,
    ready: Vec<Op>,
}

impl Place {
    /// Creates the place before the first operation. It allocates no memory.
    pub fn new(alloc: Global) -> Place
        ensures { (volume : State) → left volume result ≡ state_ops volume }
    {
        Place {
            alloc,
            step: Step::Number(1),
            ready: Vec::new(alloc),
        }
    }
}

/// The maximum number of operations in a list.
const FULL: usize = 64;

/// Returns the next list of a volume's operations, which has 1 to 64, or `None` after the last.
/// Joined end to end, the lists are `state_ops`, and each but the last has 64 operations. If memory
/// runs out, nothing is lost: the next call continues.
///
/// In total, the calls read each number twice, once for the attributes that no index has and once
/// for the rest. For each attribute they ask twice whether an index has it.
pub fn next_list<W: Whole>(whole: &mut W, place: &mut Place) -> Result<Option<Vec<Op>>, AllocError>
    ghost volume: { State }
    requires answers { W.answers_for whole.old volume }
    ensures list { left volume place.old ≡ given (λ ops. ops.items) result
        ++ left volume place.new }
    ensures length { IfOk result (λ list. IfSome list
        (λ ops. (1 ≤ length ops.items) × (length ops.items ≤ 64))) }
    ensures full { IfOk result (λ list. IfSome list
        (λ ops. length ops.items < 64 → left volume place.new ≡ [])) }
    ensures ends { IfOk result (λ list. IfNone list (left volume place.old ≡ [])) }
    ensures stays { W.kept whole.new ≡ W.kept whole.old }
    ensures answers { W.answers_for whole.new volume }
{
    fill(whole, place)?;
    take(place)
}

/// Reads until a list is full or nothing is left to read.
fn fill<W: Whole>(whole: &mut W, place: &mut Place) -> Result<(), AllocError>
    ghost volume: { State }
    requires answers { W.answers_for whole.old volume }
    ensures same { left volume place.new ≡ left volume place.old }
    ensures filled { OnOk result ((64 ≤ length place.new.ready.items)
        ⊎ (places.left_from volume place.new.step ≡ [])) }
    ensures stays { W.kept whole.new ≡ W.kept whole.old }
    ensures answers { W.answers_for whole.new volume }
{
    let next = whole.next();
    'steps: while !is_ready(place, next) {
        let (mut piece, after) = read(place.alloc, whole, place.step, next)?;
        place.ready.append(&mut piece)?;
        place.step = after;
    }
    Ok(())
}

/// Returns `true` if a list is full or nothing is left to read.
fn is_ready(place: &Place, next: u64) -> bool
    ensures ready { (volume : State) → next ≡ volume.next → result ≡ true →
        (64 ≤ length place.now.ready.items) ⊎ (places.left_from volume place.now.step ≡ []) }
    ensures not_last { result ≡ false → places.IsNotLast place.now.step next }
{
    place.ready.len() >= FULL || is_last(place.step, next)
}

/// Returns `true` if nothing is left to read.
fn is_last(step: Step, next: u64) -> bool
    ensures last { (volume : State) → next ≡ volume.next → result ≡ true
        → places.left_from volume step ≡ [] }
    ensures not_last { result ≡ false → places.IsNotLast step next }
{
    match step {
        Step::Held(node) => node >= next,
        _ => false,
    }
}

/// Returns the operations of a step, and the step after it.
fn read<W: Whole>(
    alloc: Global,
    whole: &mut W,
    step: Step,
    next: u64,
) -> Result<(Vec<Op>, Step), AllocError>
    ghost volume: { State }
    requires answers { W.answers_for whole.old volume }
    requires next { next ≡ volume.next }
    requires last { places.IsNotLast step next }
    ensures piece { IfOk result (λ r. places.left_from volume step ≡ r.0.items
        ++ places.left_from volume r.1) }
    ensures smaller { IfOk result (λ r. places.steps_left next r.1 < places.steps_left next step) }
    ensures stays { W.kept whole.new ≡ W.kept whole.old }
    ensures answers { W.answers_for whole.new volume }
{
    match step {
        Step::Number(node) if node < next => {
            Ok((number_ops(alloc, whole, node)?, Step::Number(node + 1)))
        }
        Step::Number(_) => Ok((Vec::new(alloc), Step::Indices)),
        Step::Indices => Ok((index_ops(alloc, whole)?, Step::Held(1))),
        Step::Held(node) => Ok((held_ops(alloc, whole, node)?, Step::Held(node + 1))),
    }
}

/// Removes up to 64 of the operations that are ready, and returns them.
fn take(place: &mut Place) -> Result<Option<Vec<Op>>, AllocError>
    ensures list { (volume : State) → left volume place.old ≡ given (λ ops. ops.items) result
        ++ left volume place.new }
    ensures length { IfOk result (λ list. IfSome list
        (λ ops. (1 ≤ length ops.items) × (length ops.items ≤ 64))) }
    ensures few { IfOk result (λ list. IfSome list (λ ops. length ops.items < 64 →
        (place.new.ready.items ≡ []) × (length place.old.ready.items < 64))) }
    ensures none { IfOk result (λ list. IfNone list (place.old.ready.items ≡ [])) }
    ensures step { place.new.step ≡ place.old.step }
{
    if place.ready.is_empty() {
        return Ok(None);
    }
    let rest = place.ready.split_off(place.ready.len().min(FULL))?;
    Ok(Some(mem::replace(&mut place.ready, rest)))
}
