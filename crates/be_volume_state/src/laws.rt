//! Laws about the operations that rebuild a volume.
//!
//! Each is a function that does nothing; its contract is the law.
ghost use Rattle.std.specs.Prelude.{◌≡◌, ◌≤◌, List, IsOk, Ok, length};
ghost use Rattle.be_volume.specs.Ahead.{state_after};
ghost use Rattle.be_volume.specs.Sound.{IsSound};
ghost use Rattle.be_volume.specs.Volume.{State, empty, steps};
ghost use Rattle.be_volume.specs.declared.ops.Done.{Done as AnyDone};
ghost use Rattle.be_volume.specs.declared.ops.Op.{Op as AnyOp};
ghost use Rattle.be_volume_state.specs.Rebuilding.{IsNumbered, state_ops};

/// A law: the empty volume accepts a volume's operations, and becomes that volume. It has the same
/// next number, nodes, attributes and indices, and the same pairs in each index.
pub fn made_again()
    ensures accepted { (s : State) → IsSound s → IsNumbered s → IsOk (steps empty (state_ops s)) }
    ensures same { (s : State) → IsSound s → IsNumbered s → state_after empty (state_ops s) ≡ s }
{}

/// A law: numbers begin at 1 in the empty volume, and operations preserve this.
pub fn numbered()
    ensures begins { IsNumbered empty }
    ensures stays { (s : State) (ops : List AnyOp) → IsNumbered s → IsNumbered (state_after s ops) }
{}

/// A law: no shorter list of operations creates the volume from the empty one.
pub fn fewest()
    ensures { (s : State) (dones : List AnyDone) (ops : List AnyOp) → steps empty ops
        ≡ Ok (s, dones) → length (state_ops s) ≤ length ops }
{}
