//! Laws about the definitions of a volume, for the crates above.
//!
//! Each function's body is empty; its contract is the law.
ghost use Rattle.std.specs.FinMap as map;
ghost use Rattle.std.specs.List.{sum_by};
ghost use Rattle.std.specs.Prelude.{◌≡◌, ◌<◌, ◌≤◌, ◌+◌, ◌*◌, ◌^◌, ℕ, List, All, Ok, length};
ghost use Rattle.be_volume.specs.Items.{items, most_items, most_indices, StaysWithin};
ghost use Rattle.be_volume.specs.Sound.{IsOperation, IsSound};
ghost use Rattle.be_volume.specs.Volume.{State, step, steps};
ghost use Rattle.be_volume.specs.declared.ops.Done.{Done as AnyDone};
ghost use Rattle.be_volume.specs.declared.ops.Op.{Op as AnyOp};

/// Accepted operations preserve a volume's soundness.
pub fn sound_steps()
    ensures { (s t : State) (dones : List AnyDone) (ops : List AnyOp) → IsSound s → s.next
        + length ops < 2 ^ 64 → All IsOperation ops →
        steps s ops ≡ Ok (t, dones) → IsSound t }
{}

/// An accepted operation adds at most the items and indices that its kind allows, which is never
/// more than two items and one index.
pub fn step_items()
    ensures items { (s t : State) (op : AnyOp) (done : AnyDone) → step s op ≡ Ok (t, done)
        → items t ≤ items s + most_items op }
    ensures indices { (s t : State) (op : AnyOp) (done : AnyDone) → step s op ≡ Ok (t, done)
        → map.len t.indices ≤ map.len s.indices + most_indices op }
    ensures few { (op : AnyOp) → (most_items op ≤ 2) × (most_indices op ≤ 1) }
{}

/// While operations are carried out one after another, the volume never has more items and indices
/// than it had before plus what those operations may add. Refused operations add nothing.
pub fn stays_within()
    ensures sums { (s : State) (ops : List AnyOp) (most indices : ℕ)
        → items s + sum_by most_items ops ≤ most
        → map.len s.indices + sum_by most_indices ops ≤ indices
        → StaysWithin most indices s ops }
    ensures lengths { (s : State) (ops : List AnyOp) (most indices : ℕ)
        → items s + 2 * length ops ≤ most
        → map.len s.indices + length ops ≤ indices
        → StaysWithin most indices s ops }
{}
