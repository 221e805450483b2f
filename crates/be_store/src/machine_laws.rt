//! Laws which show that each call of a pass is a step of one small machine, and what a whole run of
//! the machine promises.
//!
//! Each law is a function that does nothing. Its contract is the law. A public call's contract says
//! what the pass knew before and after the call. The law turns this into one step of the machine
//! (`specs/SmallMachine.antt`), which operates on what the pass has seen and written and on its pin
//! (`specs/Views.antt`). Consecutive calls form a run with the same steps (`specs/Calls.antt`). The
//! last law is the main statement (`specs/OneHistory.antt`); example_history is a program that
//! ensures it.
ghost use Rattle.std.specs.Prelude.{◌≡◌, ◌+◌, ℕ, List, None, Some, length, map, take};
ghost use Rattle.be_store.specs.Imports.{entries, entry_by, met, newcomer, one_step_on, Agrees};
ghost use Rattle.be_store.specs.Imports.{Commit, Done, Entry, Knowledge, Op, Setting, StartsWith};
ghost use Rattle.be_store.specs.Imports.{State};
ghost use Rattle.be_store.specs.Calls.{Call, Calls, PassCalls, known_after, views_known};
ghost use Rattle.be_store.specs.Conditional.{AcceptsAt, IsUnapplied};
ghost use Rattle.be_store.specs.History.{Accepts, Learns, Pins, Unpins};
ghost use Rattle.be_store.specs.SmallMachine.{AreSteps, Closes, PassView, first_view, state_of};
ghost use Rattle.be_store.specs.SmallMachine.{Step, Apply, Learn, Pin, Unpin, Read};
ghost use Rattle.be_store.specs.OneHistory.{IsOneHistory, PassRun, ReadsPrefix, steps_of, views_of};
ghost use Rattle.be_store.specs.Passes.{HasRead, IsPinnedTo, volume_pinned};
ghost use Rattle.be_store.specs.declared.conditional.ApplyIfError.{ApplyIfError};
ghost use Rattle.be_store.specs.declared.conditional.ApplyIfError.TheVariants.{Conflict};
ghost use Rattle.be_store.specs.Views.{Answer, IsClosed, IsStep, view_of, volume};

/// A pass that `open` returns has the first view.
pub fn new_pass_has_first_view()
    ensures { (limits : Setting) (steps k : ℕ) → view_of (newcomer limits steps k)
        ≡ first_view volume limits.volume k }
{}

/// An accepted write is the step Apply, with its entry and the number that it returned.
pub fn write_is_step()
    ensures { (a c : Knowledge) (ops : List Op) (n : ℕ) (dones : List Done)
        → Accepts a c ops n dones → IsStep a (Apply (entry_by a ops dones) n) c }
{}

/// An accepted conditional write is also the step Apply, at the number after the one that the
/// caller passed. If the pass was pinned to that number, the pinned volume accepts the write.
pub fn conditional_write_is_step()
    ensures { (a c : Knowledge) (number : ℕ) (ops : List Op) (n : ℕ) (dones : List Done)
        → AcceptsAt a c number ops n dones
        → IsStep a (Apply (entry_by a ops dones) (number + 1)) c
        × (IsPinnedTo a number → Agrees (volume_pinned a) (entry_by a ops dones)) }
{}

/// A refused write is the step Learn, which writes nothing, and so is a call that reads the
/// journal. A `Conflict` returns the number of entries that the pass has then seen.
pub fn refusal_is_step()
    ensures plain { (a c : Knowledge) → Learns a c → IsStep a (Learn (entries c.seen)) c }
    ensures conditional { (a c : Knowledge) (number : ℕ) (ops : List Op) (e : ApplyIfError)
        → IsUnapplied a c number ops e → IsStep a (Learn (entries c.seen)) c }
    ensures conflict { (a c : Knowledge) (number found : ℕ) (ops : List Op)
        → IsUnapplied a c number ops (Conflict found) → found ≡ length (entries c.seen) }
{}

/// A pin is the step Pin, with the number that it returned.
pub fn pin_is_step()
    ensures { (a c : Knowledge) (n : ℕ) → Pins a c n → IsStep a (Pin n) c }
{}

/// An unpin is the step Unpin.
pub fn unpin_is_step()
    ensures { (a c : Knowledge) → Unpins a c → IsStep a Unpin c }
{}

/// A read by a pinned pass is the step Read, whatever question its contract asks of the volume: it
/// returns the answer of the pinned volume. A read that ran out of memory returns no answer.
/// Whether or not a read is among the steps of a run, the one history determines which volume it
/// read.
pub fn read_is_step()
    ensures answered { (a c : Knowledge) (n : ℕ) (ask : State → Answer) → IsPinnedTo a n
        → HasRead a c → IsStep a (Read ask (Some (ask (volume_pinned a)))) c }
    ensures unanswered { (a c : Knowledge) (n : ℕ) (ask : State → Answer) → IsPinnedTo a n
        → HasRead a c → IsStep a (Read ask None) c }
    ensures any { (log : List Entry) (a : Knowledge) (n : ℕ)
        → ReadsPrefix volume log (view_of a) → IsPinnedTo a n
        → volume_pinned a ≡ state_of volume a.limits.volume (take n log) }
{}

/// Refreshing a live query with `refresh_changed` makes two steps. The pass learns, and then reads
/// at its pin, which is unchanged.
pub fn changed_refresh_is_steps()
    ensures { (a c : Knowledge) (n : ℕ) (ask : State → Answer) → Learns a c → IsPinnedTo a n
        → volume_pinned c ≡ volume_pinned a → IsStep a (Learn (entries c.seen)) c
        × IsStep c (Read ask (Some (ask (volume_pinned a)))) c }
{}

/// A join is the step Learn, and a meeting is that step for each of its two passes. Both return how
/// many entries the passes have then seen. Making a witness is also a Learn, one that changes
/// nothing.
pub fn meeting_is_step()
    ensures meets { (a c : Knowledge) (log : List Commit) → StartsWith log a.seen → c ≡ met a log
        → Call a (Learn (entries log)) c }
    ensures number { (log : List Commit) → length (entries log) ≡ length log }
    ensures witness { (a c : Knowledge) → c ≡ one_step_on a → Call a (Learn (entries a.seen)) c }
{}

/// The calls of one pass are a run of the machine with the same steps and with the views that the
/// pass had after each call. The pass keeps its number.
pub fn calls_are_run()
    ensures one { (a : Knowledge) (s : Step volume) (c : Knowledge) → Call a s c → IsStep a s c }
    ensures all { (a : Knowledge) (steps : List (Step volume)) (z : Knowledge)
        (calls : Calls a steps z) → (run : List (Step volume × PassView volume))
        × AreSteps volume (view_of a) run (view_of z)
        × (map (λ (x : Step volume × PassView volume). x.0) run ≡ steps)
        × (map (λ (x : Step volume × PassView volume). x.1) run
        ≡ map view_of (known_after a steps z calls)) }
    ensures number { (a : Knowledge) (steps : List (Step volume)) (z : Knowledge)
        → Calls a steps z → z.number ≡ a.number }
{}

/// Closing a store is the last step. It determines what then holds for the passes and the journal.
pub fn close_is_step()
    ensures { (first : State) (count : ℕ) (log : List Entry) (passes : List Knowledge)
        → IsClosed first count log passes → Closes volume first log (map view_of passes) }
{}

/// The journal that `close` returns explains all runs of its passes. `given` states this for any
/// runs that end in what these passes know. `made` states it for the calls that each pass has made
/// since it was new. The resulting runs have the numbers of the passes, the steps of their calls,
/// and the views that the passes had after each step and at the end.
pub fn one_history()
    ensures given { (first : State) (count : ℕ) (log : List Entry) (passes : List Knowledge)
        (runs : List (PassRun volume)) → IsClosed first count log passes
        → map (λ (r : PassRun volume). r.last) runs ≡ map view_of passes
        → IsOneHistory volume first log runs }
    ensures made { (first : State) (count : ℕ) (log : List Entry) (passes : List PassCalls)
        → IsClosed first count log (map (λ (p : PassCalls). p.last) passes)
        → (runs : List (PassRun volume))
        × (map (λ (r : PassRun volume). r.number) runs
        ≡ map (λ (p : PassCalls). p.first.number) passes)
        × (map (steps_of volume) runs ≡ map (λ (p : PassCalls). p.steps) passes)
        × (map (views_of volume) runs ≡ map views_known passes)
        × (map (λ (r : PassRun volume). r.last) runs
        ≡ map view_of (map (λ (p : PassCalls). p.last) passes))
        × IsOneHistory volume first log runs }
{}
