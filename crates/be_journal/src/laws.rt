//! Laws about journals, for the crates above this one.
//!
//! Each is a function that does nothing; its contract is the law.
ghost use Rattle.std.specs.Prelude.{◌≡◌, ◌<◌, ◌+◌, ◌*◌, ◌^◌, ◌++◌, ◌∷◌, [], ℕ, List, All, length};
ghost use Rattle.be_volume.specs.Ahead.{state_after};
ghost use Rattle.be_volume.specs.Sound.{IsSound};
ghost use Rattle.be_volume.specs.Volume.{State};
ghost use Rattle.be_journal.specs.Journal.{replay_from, by_pass, Agrees, IsLegalFrom};
ghost use Rattle.be_journal.specs.Journal.{HasOperations};
ghost use Rattle.be_journal.specs.declared.entries.Entry.{Entry as AnyEntry};

/// A law: replaying one more entry is the same as making one more write after the earlier entries.
pub fn replay_push()
    ensures { (base : State) (entries : List AnyEntry) (entry : AnyEntry)
        → replay_from base (entries ++ entry ∷ [])
        ≡ state_after (replay_from base entries) entry.ops }
{}

/// A law: replaying a journal and then one that carries it on is the same as replaying the two as
/// one.
pub fn replay_append()
    ensures { (base : State) (front rest : List AnyEntry)
        → replay_from base (front ++ rest) ≡ replay_from (replay_from base front) rest }
{}

/// A law: the volume after entries with valid operations is sound if the first volume is.
pub fn replay_sound()
    ensures { (base : State) (entries : List AnyEntry) → IsSound base → All HasOperations entries
        → base.next + 64 * length entries < 2 ^ 64 → IsSound (replay_from base entries) }
{}

/// A law: a legal journal followed by another entry is legal if that entry has the outcomes that
/// the volume gives after the journal.
pub fn legal_push()
    ensures { (base : State) (entries : List AnyEntry) (entry : AnyEntry)
        → IsLegalFrom base entries → Agrees (replay_from base entries) entry
        → IsLegalFrom base (entries ++ entry ∷ []) }
{}

/// A law: two journals, of which the second is legal from the volume after the first, are one
/// legal journal. So a store that begins with the volume of another carries on its history.
pub fn legal_append()
    ensures { (base : State) (front rest : List AnyEntry) → IsLegalFrom base front
        → IsLegalFrom (replay_from base front) rest → IsLegalFrom base (front ++ rest) }
{}

/// A law: the last entry of a legal journal has the outcomes that the volume gives after the
/// entries before it.
pub fn legal_last()
    ensures { (base : State) (entries : List AnyEntry) (entry : AnyEntry)
        → IsLegalFrom base (entries ++ entry ∷ []) → Agrees (replay_from base entries) entry }
{}

/// A law: a prefix of a legal journal is legal.
pub fn legal_front()
    ensures { (base : State) (front rest : List AnyEntry) → IsLegalFrom base (front ++ rest)
        → IsLegalFrom base front }
{}

/// A law: a pass's entries in the two parts of a journal, concatenated, are its entries in the
/// whole.
pub fn by_pass_append()
    ensures { (pass : ℕ) (front rest : List AnyEntry) → by_pass pass (front ++ rest)
        ≡ by_pass pass front ++ by_pass pass rest }
{}
