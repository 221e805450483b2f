//! Laws about versions: undoing a later write restores them, keeping a write preserves them, and a
//! page encodes only one volume.
//!
//! Each law is a function that does nothing; its contract is the law. A caller gets the law by
//! calling the function.
ghost use Rattle.std.specs.Prelude.{◌≡◌, ℕ};
ghost use Rattle.be_paged.specs.Imports.{after_keep, AnyPageState, IsUndone, IsVersion};
ghost use Rattle.be_paged.specs.Imports.{IsWriteStart, State};

/// A version that existed when the write began encodes the same volume after the write is undone.
#[tactic(auto, using(crate::proofs::StayingVersion::version_stays))]
pub fn version_undone()
    ensures { (start undone : ℕ → AnyPageState) (before words : ℕ → ℕ → ℕ) (page : ℕ)
        (volume : State) → IsWriteStart start
        → IsUndone start undone before words → IsVersion start before page volume
        → IsVersion undone words page volume }
{}

/// A version encodes the same volume after its write is kept.
#[tactic(auto, using(crate::proofs::StayingVersion::version_kept))]
pub fn version_kept()
    ensures { (page_state kept : ℕ → AnyPageState) (words : ℕ → ℕ → ℕ) (page : ℕ) (volume : State)
        → ((q : ℕ) → kept q ≡ after_keep (page_state q))
        → IsVersion page_state words page volume → IsVersion kept words page volume }
{}

/// A page encodes only one volume: no reader of its words can find another.
#[tactic(auto, using(crate::proofs::Stored::OneVolume::one_volume))]
pub fn one_volume()
    ensures { (page_state other : ℕ → AnyPageState) (words : ℕ → ℕ → ℕ) (page : ℕ) (a b : State)
        → IsVersion page_state words page a → IsVersion other words page b → a ≡ b }
{}
