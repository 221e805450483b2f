//! The machine's laws, one for each event: an allowed event preserves the invariant `Sound`.
//!
//! These functions do nothing. To use a law, call its function and use the fact in its contract.
//! Each law holds for any state of the machine, so a table that only represents a state in its
//! words can use the laws too.
ghost use Rattle.std.specs.Prelude.{◌≡◌, ℕ, suc, ◌<◌, ◌≤◌, ◌||◌, List, Some, IsTrue};
ghost use Rattle.be_core.specs.declared.event.Phase.TheVariants.{Pinned};
ghost use Rattle.be_core.specs.Machine.{World, Sound, first_state, Protected, Partition, MayLook};
ghost use Rattle.be_core.specs.Machine.{after_look, MayAnnounce, after_announce};
ghost use Rattle.be_core.specs.Machine.{MayLookAgain, after_look_again, MayRead, MayUnpin};
ghost use Rattle.be_core.specs.Machine.{after_unpin, MayLock, after_lock, MayScan};
ghost use Rattle.be_core.specs.Machine.{after_scan, Writer, HasOpenWrite, scanned_on, scanned_out};
ghost use Rattle.be_core.specs.Machine.{lowest_after, Unreached, MayFill, after_fill};
ghost use Rattle.be_core.specs.Machine.{MayPublish, after_publish, MayUnlock, after_unlock};
ghost use Rattle.be_core.specs.Machine.{after_return};
ghost use Rattle.be_core.specs.Laws.{FillsNoPinned, ScanLeavesNone};
ghost use Rattle.be_core.specs.Lowest.{FindsLowest};

/// The first state is sound, whatever its words are.
pub fn first()
    ensures { (pages used passes commits : ℕ) (words : ℕ → ℕ → ℕ) → used ≤ pages
        → Sound (first_state pages used passes commits words) }
{}

/// What follows from the invariant.
pub fn holds()
    ensures protected { (w : World) → Sound w → Protected w }
    ensures partition { (w : World) → Sound w → Partition w }
    ensures fills_no_pinned { (w : World) → Sound w → FillsNoPinned w }
{}

/// A look preserves the invariant. It doesn't change the phase of a pass that has announced or
/// pinned.
pub fn look()
    ensures { (w : World) (k : ℕ) → Sound w → MayLook w k → Sound (after_look w k) }
{}

/// Announcing preserves the invariant. From here on, a scan sees the pass.
pub fn announce()
    ensures { (w : World) (k : ℕ) → Sound w → MayAnnounce w k → Sound (after_announce w k) }
{}

/// The second look preserves the invariant. It pins the pass to the current version, whatever
/// number it had announced.
pub fn look_again()
    ensures { (w : World) (k : ℕ) → Sound w → MayLookAgain w k → Sound (after_look_again w k) }
{}

/// A read changes nothing and finds the version's word.
pub fn read()
    ensures { (w : World) (k a n p i : ℕ) → Sound w → w.phases k ≡ Pinned a n → IsTrue (w.reach n p)
        → w.words p i ≡ w.image n p i }
{}

/// Unpinning preserves the invariant. It clears the reader slot, so a later scan can free the
/// version's pages.
pub fn unpin()
    ensures { (w : World) (k : ℕ) → Sound w → MayUnpin w k → Sound (after_unpin w k) }
{}

/// Taking the lock preserves the invariant. At the start of a write, no page is taken and no slot
/// has been scanned.
pub fn lock()
    ensures { (w : World) (k : ℕ) → Sound w → MayLock w k → Sound (after_lock w k) }
{}

/// A scan preserves the invariant. After a whole scan, each page that isn't reached by any version
/// from the minimum on is free or taken. The minimum is the lowest of the number that was current
/// when the scan began and the numbers that it found in the reader slots. This holds whatever else
/// happened between its steps.
pub fn scan()
    ensures kept { (w : World) (k j : ℕ) → Sound w → MayScan w k j → Sound (after_scan w j) }
    // the two outcomes of a scan, if the caller knows the writer's state
    ensures on { (w : World) (k j : ℕ) (h : Writer) → Sound w → HasOpenWrite w k h → j ≡ h.scanned
        → Sound (scanned_on w h j) }
    ensures out { (w : World) (k j : ℕ) (h : Writer) → Sound w → HasOpenWrite w k h → j ≡ h.scanned
        → suc j ≡ w.passes → Sound (scanned_out w h j) }
    // a page that is still retired after a whole scan has a number of at least the minimum
    ensures gone { (w : World) (j p r : ℕ) (h : Writer) → (scanned_out w h j).retired p ≡ Some r
        → lowest_after w h j ≤ r }
    ensures leaves { (w : World) (k j p : ℕ) (h : Writer) → Sound w → HasOpenWrite w k h → j
        ≡ h.scanned → suc j ≡ w.passes
        → p < w.pages → Unreached w (lowest_after w h j) w.current p
        → IsTrue ((scanned_out w h j).free p || (scanned_out w h j).taken p) }
    ensures least { FindsLowest }
    ensures leaves_none { (w : World) → Sound w → ScanLeavesNone w }
{}

/// Filling preserves the invariant. The filled page is taken, and no pinned version contains it.
pub fn fill()
    ensures { (w : World) (k p i word : ℕ) → Sound w → MayFill w k p i
        → Sound (after_fill w p i word) }
{}

/// Publishing preserves the invariant. The pages given up are retired, not free, because passes
/// pinned to the old version may still read them.
pub fn publish()
    ensures { (w : World) (k v : ℕ) (given : List ℕ) → Sound w → MayPublish w k v given
        → Sound (after_publish w given) }
{}

/// Releasing the lock preserves the invariant. Pages that were taken but not published are free
/// again.
pub fn unlock()
    ensures { (w : World) (k : ℕ) → Sound w → MayUnlock w k → Sound (after_unlock w) }
{}

/// Returning a taken page to the free ones preserves the invariant. This isn't an event.
pub fn give_back()
    ensures { (w : World) (p : ℕ) → Sound w → IsTrue (w.taken p) → Sound (after_return w p) }
{}
