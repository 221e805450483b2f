//! Laws about what a pass can do while it has a change, and about what operations leave of an
//! index.
//!
//! The laws are functions that do nothing. Their contracts are the laws, for use in the crates
//! above.
ghost use Rattle.std.specs.Prelude.{◌≡◌, ℕ, IsOk, List};
ghost use Rattle.be_change.specs.Imports.{index_kind, state_after, steps, Accepts, Done, HasRead};
ghost use Rattle.be_change.specs.Imports.{IsPass, Knowledge, Learns, Op, State};
ghost use Rattle.be_change.specs.Changing.{Changing};
ghost use Rattle.be_change.specs.Ending.{IsChangeOf};
ghost use Rattle.be_change.specs.Left.{index_kind_left};

/// A change still belongs to its pass and reads the same volume when the pass reads, is refused a
/// write, or writes, because none of these moves the pin.
pub fn stays()
    ensures read { (change : Changing) (a c : Knowledge) → HasRead a c → IsChangeOf change a
        → IsChangeOf change c }
    ensures learn { (change : Changing) (a c : Knowledge) → IsPass a → Learns a c
        → IsChangeOf change a → IsChangeOf change c }
    ensures write { (change : Changing) (a c : Knowledge) (ops : List Op) (n : ℕ)
        (dones : List Done) → IsPass a → Accepts a c ops n dones → IsChangeOf change a
        → IsChangeOf change c }
{}

/// If a volume accepts all operations, the kind that they leave for an index is the kind of that
/// index after them.
pub fn index_left()
    ensures { (base : State) (ops : List Op) (name : List ℕ) → IsOk (steps base ops)
        → index_kind (state_after base ops) name ≡ index_kind_left base ops name }
{}
