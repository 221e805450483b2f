//! What each step on a word does to the reclamation machine.
//!
//! According to the table's rule, the words, the writer state and the passes' knowledge show one
//! state of be_core's machine. The machine's invariant holds in that state. The functions here do
//! nothing. Their contracts say, in terms of definitions only, which event of the machine each step
//! makes.
//!
//! A pass that may step can step in every state of the table. The state that the table shows before
//! the step allows the event, and the state that it shows afterwards is the event's result. A step
//! whose word has no event leaves the machine unchanged. The table's calls are proved with the same
//! lemmas.
ghost use Rattle.std.specs.Prelude.{ℕ, List, Option};
ghost use Rattle.be_table.specs.Laws.{GiveUpIsNoEvent, PublishIsItsEvent, UnlockIsItsEvent};
ghost use Rattle.be_table.specs.Laws.{CompareIsNoEvent, LearnIsNoEvent, SplitIsNoEvent};
ghost use Rattle.be_table.specs.Laws.{AttestIsNoEvent, JoinIsNoEvent, ArrivalIsNoEvent};
ghost use Rattle.be_table.specs.Laws.{EventsAreMoves, RunsAreSound, FrontsRun, UnusedAreZero};
ghost use Rattle.be_table.specs.Laws.{UnusedStayZero, LockIsItsEvent, ScanIsItsEvent};
ghost use Rattle.be_table.specs.Laws.{FillIsItsEvent, FoundFillIsItsEvent, OwnReadIsNoEvent};
ghost use Rattle.be_table.specs.Laws.{TakeIsItsEvent, LookIsItsEvent, AnnounceIsItsEvent};
ghost use Rattle.be_table.specs.Laws.{LookAgainIsItsEvent, UnpinIsItsEvent, PinnedReadIsItsEvent};
ghost use Rattle.be_table.specs.declared.writer_state.WriterState.{WriterState};
ghost use Rattle.be_table.specs.Setting.{Setting};
ghost use Rattle.be_table.specs.declared.pass.Commit.{Commit};
ghost use Rattle.be_table.specs.declared.pass.Knowledge.{Knowledge};
ghost use Rattle.be_table.specs.declared.pass.View.{View};

/// A load of the current number is Look.
pub fn look()
    ensures { (limits : Setting) (slots id : ℕ) (a : Knowledge)
        (carried : List (ℕ × Option WriterState))
        → LookIsItsEvent limits slots id a carried }
{}

/// The store to a reader slot is Announce.
pub fn announce()
    ensures { (limits : Setting) (slots id : ℕ) (a : Knowledge)
        (carried : List (ℕ × Option WriterState))
        → AnnounceIsItsEvent limits slots id a carried }
{}

/// The second load of the current number is LookAgain.
pub fn look_again()
    ensures { (limits : Setting) (slots id : ℕ) (a : Knowledge)
        (carried : List (ℕ × Option WriterState))
        → LookAgainIsItsEvent limits slots id a carried }
{}

/// The store that clears a reader slot is Unpin.
pub fn unpin()
    ensures { (limits : Setting) (slots id : ℕ) (a : Knowledge)
        (carried : List (ℕ × Option WriterState))
        → UnpinIsItsEvent limits slots id a carried }
{}

/// A load of a word of a pinned version is Read, and finds the word that the page had when that
/// version was published.
pub fn pinned_read()
    ensures { (limits : Setting) (slots id : ℕ) (a : Knowledge)
        (carried : List (ℕ × Option WriterState))
        → PinnedReadIsItsEvent limits slots id a carried }
{}

/// A compare-exchange of the lock that finds it free is Lock; one that finds it held is no event.
pub fn lock()
    ensures { (limits : Setting) (slots id : ℕ) (a : Knowledge)
        (carried : List (ℕ × Option WriterState))
        → LockIsItsEvent limits slots id a carried }
{}

/// The writer's load of a reader slot is Scan.
pub fn scan()
    ensures { (limits : Setting) (slots id : ℕ) (a : Knowledge)
        (carried : List (ℕ × Option WriterState))
        → ScanIsItsEvent limits slots id a carried }
{}

/// The store of a page's word is Fill.
pub fn fill()
    ensures { (limits : Setting) (slots id : ℕ) (a : Knowledge)
        (carried : List (ℕ × Option WriterState))
        → FillIsItsEvent limits slots id a carried }
{}

/// A load of a word of a page that the writer holds is Fill, with the word already there.
pub fn found_fill()
    ensures { (limits : Setting) (slots id : ℕ) (a : Knowledge)
        (carried : List (ℕ × Option WriterState))
        → FoundFillIsItsEvent limits slots id a carried }
{}

/// The writer's load of a page's word is no event.
pub fn own_read()
    ensures { (limits : Setting) (slots id : ℕ) (a : Knowledge)
        (carried : List (ℕ × Option WriterState))
        → OwnReadIsNoEvent limits slots id a carried }
{}

/// The load that takes a page is Fill, with the word already there.
pub fn take()
    ensures { (limits : Setting) (slots id : ℕ) (a : Knowledge)
        (carried : List (ℕ × Option WriterState))
        → TakeIsItsEvent limits slots id a carried }
{}

/// The load that gives up a page is no event. A page that the write had taken returns to the free
/// pages; that is the writer's own bookkeeping.
pub fn give_up()
    ensures { (limits : Setting) (slots id : ℕ) (a : Knowledge)
        (carried : List (ℕ × Option WriterState))
        → GiveUpIsNoEvent limits slots id a carried }
{}

/// The store of the current number is Publish, with the pages that the write has given up.
pub fn publish()
    ensures { (limits : Setting) (slots id : ℕ) (a : Knowledge)
        (carried : List (ℕ × Option WriterState))
        → PublishIsItsEvent limits slots id a carried }
{}

/// The store that frees the lock is Unlock.
pub fn unlock()
    ensures { (limits : Setting) (slots id : ℕ) (a : Knowledge) (writer_state : WriterState)
        → UnlockIsItsEvent limits slots id a writer_state }
{}

/// The load with which two passes in one seat compare what they have seen is no event.
pub fn compare()
    ensures { (limits : Setting) (slots id : ℕ) (a c : Knowledge)
        (carried : List (ℕ × Option WriterState)) → CompareIsNoEvent limits slots id a c carried }
{}

/// The load that makes a witness is no event: it gives what a pass has seen a seat without a pass.
pub fn attest()
    ensures { (limits : Setting) (id : ℕ) (a : Knowledge) → AttestIsNoEvent limits id a }
{}

/// The load with which a pass takes in what a witness has seen is no event.
pub fn learn()
    ensures { (limits : Setting) (slots id : ℕ) (a : Knowledge) (front : List Commit)
        (carried : List (ℕ × Option WriterState)) → LearnIsNoEvent limits slots id a front carried }
{}

/// The load that splits a seat is no event: its first pass gets a new seat.
pub fn split()
    ensures { (limits : Setting) (id : ℕ) (a : Knowledge) (v : List Knowledge)
        (fronts : List (List Commit)) → SplitIsNoEvent limits id a v fronts }
{}

/// The load that joins two seats is no event: one seat gets what both had, and the other is left
/// with nothing.
pub fn join()
    ensures { (limits : Setting) (id : ℕ) (v : View) (other : ℕ) (w : View)
        → JoinIsNoEvent limits id v other w }
{}

/// The load that creates a seat without a pass is no event.
pub fn arrive()
    ensures { (limits : Setting) → ArrivalIsNoEvent limits }
{}

/// Every allowed event has the same effect as its moves; a read changes nothing and has no moves.
pub fn events_are_moves()
    ensures { EventsAreMoves }
{}

/// Wherever a trace's moves lead, no page of a pinned version is free, taken or changed. Every
/// prefix of a run is a run.
pub fn runs()
    ensures sound { RunsAreSound }
    ensures fronts { FrontsRun }
{}

/// All of the first 528 words are 0 between any two steps, except the lock, the current version and
/// the passes' reader slots. So no call can keep a lock of its own there.
pub fn unused_words()
    ensures zero { UnusedAreZero }
    ensures stay { UnusedStayZero }
{}
