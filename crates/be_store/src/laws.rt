//! Laws about what a pass of a store knows, about which of its writes and pins its steps show,
//! about a store's only pass, and about how large a pool must be.
//!
//! Each law is a function that does nothing. Its contract is the law, for use in the crates above.
//! The laws about the only pass relate what that pass knows before and after a call. `alone` shows
//! that a given pass is the only one.
ghost use Rattle.std.specs.Prelude.{◌≡◌, ◌≤◌, ◌<◌, ◌++◌, ℕ, List, IsOk, length};
ghost use Rattle.be_store.specs.Imports.{by_pass, empty, entries, newcomer, state_after, state_ops};
ghost use Rattle.be_store.specs.Imports.{steps, AreOfPasses, CanEncodeEach, Commit, Done, Full};
ghost use Rattle.be_store.specs.Imports.{IsLegalFrom, IsPass, Knowledge, Op, Refusal, Setting};
ghost use Rattle.be_store.specs.Imports.{StartsWith};
ghost use Rattle.be_store.specs.Alone.{IsAlone, WritesNext};
ghost use Rattle.be_store.specs.Calls.{Calls};
ghost use Rattle.be_store.specs.Capacity.{HasLargePool, IsAtCurrent, IsOut, NoneIsEarlier};
ghost use Rattle.be_store.specs.Capacity.{OthersRest};
ghost use Rattle.be_store.specs.History.{Accepts, Learns, IsReason, IsRefusedAt, Pins as IsPin};
ghost use Rattle.be_store.specs.History.{IsLastReason, Unpins};
ghost use Rattle.be_store.specs.Passes.{IsPassOf, IsPinnedTo, volume_pinned, volume_seen};
ghost use Rattle.be_store.specs.Shown.{shown_by, shown_in};
ghost use Rattle.be_store.specs.SmallMachine.{Step};
ghost use Rattle.be_store.specs.Learned.{ComesAfter, EndedBefore};
ghost use Rattle.be_store.specs.Views.{volume};

use crate::{Pass, Store};
use be_journal::replay_push;

/// What a pass has seen is a journal that is legal from the store's first volume on, whose entries
/// were made by passes of the store. The pass's own writes are exactly the entries with its number.
/// The store's pages can hold the volume after each entry.
pub fn seen_is_legal(store: &Store, pass: &Pass)
    requires { IsPassOf store.now pass.now }
    ensures pass { IsPass pass.now.knows }
    ensures legal { IsLegalFrom store.now.limits.volume (entries pass.now.knows.seen) }
    ensures by { AreOfPasses store.now.limits.passes (entries pass.now.knows.seen) }
    ensures mine { by_pass pass.now.knows.number (entries pass.now.knows.seen)
        ≡ pass.now.knows.mine }
    ensures number { pass.now.knows.number < store.now.limits.passes }
    ensures room { length pass.now.knows.seen ≤ store.now.limits.commits }
    ensures volumes { CanEncodeEach store.now.limits.pages store.now.limits.volume
        (entries pass.now.knows.seen) }
{
    pass.is_pass();
}

/// A pass that has just pinned reads the volume after everything that it has seen.
pub fn pin_reads_all_seen()
    ensures { (a c : Knowledge) (n : ℕ) → IsPin a c n → volume_pinned c ≡ volume_seen c }
{}

/// A pass that has joined a witness pins at least what the witness had seen, and its accepted
/// writes come after that. The same holds with respect to an accepted write of another pass,
/// because a witness that the other pass makes after its write has seen the write.
pub fn learned_order()
    ensures reported { (reported : List Commit) (d : Knowledge) → StartsWith d.seen reported
        → ComesAfter reported d }
    ensures write { (a c d : Knowledge) (ops : List Op) (n : ℕ) (dones : List Done)
        → Accepts a c ops n dones → StartsWith d.seen c.seen
        → ComesAfter c.seen d × (n ≡ length c.seen) }
{}

/// A pin includes every write that ended before it, and its number is at least that of every pin
/// that ended before it. This holds across passes. One call ended before another if its history is
/// a prefix of the other's, and `close` places both in one list of moves.
pub fn pins_have_earlier_writes()
    ensures writes { (a c b d : Knowledge) (ops : List Op) (n m : ℕ) (dones : List Done)
        → Accepts a c ops n dones → IsPin b d m → EndedBefore c d → n ≤ m }
    ensures pins { (a c b d : Knowledge) (n m : ℕ) → IsPin a c n → IsPin b d m → EndedBefore c d → n
        ≤ m }
{}

/// An empty volume accepts the operations that `Store::state` reads from a pinned version, and then
/// equals the volume of that version.
pub fn state_makes_again()
    ensures accepted { (a : Knowledge) (n : ℕ) → IsPass a → IsPinnedTo a n
        → IsOk (steps empty (state_ops (volume_pinned a))) }
    ensures same { (a : Knowledge) (n : ℕ) → IsPass a → IsPinnedTo a n
        → state_after empty (state_ops (volume_pinned a)) ≡ volume_pinned a }
{}

/// The only pass of a store has the number 0 and wrote everything that it has seen.
pub fn alone(store: &Store, pass: &Pass)
    requires pass { IsPassOf store.now pass.now }
    requires one { store.now.limits.passes ≡ 1 }
    ensures alone { IsAlone pass.now.knows }
    ensures number { pass.now.knows.number ≡ 0 }
    ensures written { entries pass.now.knows.seen ≡ pass.now.knows.mine }
{
    seen_is_legal(store, pass);
}

/// An accepted write of the only pass becomes the entry right after what the pass had seen, and
/// changes the volume at that point.
pub fn alone_writes_next()
    ensures { (a c : Knowledge) (ops : List Op) (n : ℕ) (dones : List Done) → IsAlone a → IsAlone c
        → Accepts a c ops n dones → WritesNext a c ops n dones }
{
    replay_push();
}

/// When a write of the only pass is refused, the pass sees nothing new. Such a write is never
/// refused with `Busy`.
pub fn alone_refused()
    ensures seen { (a c : Knowledge) → IsAlone a → IsAlone c → Learns a c → c.seen ≡ a.seen }
    ensures reason { (a c : Knowledge) (ops : List Op) (e : Refusal) → IsAlone a
        → IsReason a c ops e → IsRefusedAt c ops e }
{}

/// A pin of the only pass shows it nothing new.
pub fn alone_pins_seen()
    ensures { (a c : Knowledge) (n : ℕ) → IsAlone a → IsAlone c → IsPin a c n → c.seen ≡ a.seen }
{}

/// If a pool is large enough for a write, the write never returns `Full` as long as no pass is
/// pinned to an earlier version or about to pin one. This holds whatever the store did before. Half
/// of such a pool is for the current version, and the other half for a write that changes all of
/// it. `be_volume::laws::stays_within` bounds the size of the volume between the operations of a
/// write.
pub fn large_enough()
    ensures { (c : Knowledge) (ops : List Op) (least : ℕ) → NoneIsEarlier c → HasLargePool c ops
        → ¬ (IsRefusedAt c ops (Full least)) }
{}

/// `large_enough` for a store's only pass: the write never returns `Full` if the pass isn't itself
/// pinned to an earlier version.
pub fn alone_large_enough()
    ensures { (c : Knowledge) (ops : List Op) (least : ℕ) → IsAlone c → IsAtCurrent c
        → HasLargePool c ops → ¬ (IsRefusedAt c ops (Full least)) }
{}

/// A pass's steps include every accepted write, pin and unpin that its moves show, in the same
/// order. A list of steps can therefore omit only reads and calls that made no such move.
pub fn steps_are_shown()
    ensures { (a : Knowledge) (steps : List (Step volume)) (z : Knowledge) → Calls a steps z
        → shown_by a.number z.history ≡ shown_by a.number a.history ++ shown_in steps }
{}

/// A pass is out if it was unpinned at its last move. It is out when it is new and after it unpins,
/// and it stays out until it pins.
pub fn unpinned_is_out()
    ensures new { (limits its : Setting) (steps k : ℕ) → IsOut limits (newcomer its steps k) }
    ensures unpin { (limits : Setting) (a c : Knowledge) → Unpins a c → IsOut limits c }
    ensures write { (limits : Setting) (a c : Knowledge) (ops : List Op) (n : ℕ)
        (dones : List Done) → IsOut limits a → Accepts a c ops n dones → IsOut limits c }
    ensures other { (limits : Setting) (a c : Knowledge) → IsOut limits a → Learns a c
        → IsOut limits c }
{}

/// In a store with several passes, a large pool refuses no write with `Full` if all passes are
/// unpinned while the write is made. The other passes must have met the writer both before and
/// after the write. The contracts of public calls provide the premises: `meet` ensures the lists of
/// moves, and a refused write ensures the reason.
pub fn large_enough_unpinned()
    ensures once { (limits : Setting) (a c : Knowledge) (ops : List Op) (least : ℕ)
        → c.limits ≡ limits → c.number ≡ a.number → IsOut limits a → OthersRest limits a c
        → HasLargePool c ops → ¬ (IsReason a c ops (Full least)) }
    ensures retried { (limits : Setting) (a c : Knowledge) (ops : List Op) (tries least : ℕ)
        → c.limits ≡ limits → c.number ≡ a.number → IsOut limits a → OthersRest limits a c
        → HasLargePool c ops → ¬ (IsLastReason tries a c ops (Full least)) }
{}
