//! Races several scripts on one shared store, each on its own thread.
//!
//! Script k runs from pass k of the store, and its replies are kept in memory. The scripts interact
//! only inside the store, where none of them waits for the lock, and each write takes its place in
//! one journal. When all threads have ended, the store is closed. Then the replies are written,
//! script by script, followed by the journal and the result of its check.
//!
//! Each thread returns a pass and replies, and makes a promise about them ([`Served`]). The pass
//! belongs to the store and has the script's number. The pass's own writes are some of those that
//! the script requests. The replies are possible replies to the script, given what the pass has
//! seen and that others may write too. So all passes have been returned by the time the store is
//! closed. A pass's entries in the journal are writes of its script, and the replies to each script
//! agree with that journal.
ghost use Rattle.std.specs.Prelude.{◌≡◌, ◌≤◌, ◌<◌, ℕ, ◌^◌, ◌++◌, ◌↔◌, true, false, length, vec_len};
ghost use Rattle.std.specs.Prelude.{map, IfOk, IfErr, OnOk, OnErr, Ok, Err, get_or, nat_lt};
ghost use Rattle.be_script_runner.specs.Imports.{list_any, result_text, string_bytes, Appends};
ghost use Rattle.be_script_runner.specs.Imports.{AreBad, AreNew, IsLegal, IsPassOf, IsWithin};
ghost use Rattle.be_script_runner.specs.Gates.{AreAllReported, AreReported, line_count};
ghost use Rattle.be_script_runner.specs.Race.{IsOutcome, AreFirstTexts, AreServedThrough, IsNew};
ghost use Rattle.be_script_runner.specs.Race.{IsRace, RaceLeaves, bytes_of, pass_line};
ghost use Rattle.be_script_runner.specs.Race.{replies_text};
ghost use Rattle.be_script_runner.specs.Run.{Wrote, IsFrontOf, IsLate};

use crate::gates::Gate;
use crate::runs::{MAX_SCRIPT, put, serve_pass};
use crate::{Limits, RunFault};
use be_journal::Journal;
use be_store::{Pass, Store};
use std::alloc::{AllocError, Global};
use std::io::Write;
use std::snapshot::Snapshot;
use std::sync::Wait;
use std::thread;
use std::thread::{Promise, PromisedHandle, Scope, Threads};

/// A pass that has served a script, with the replies.
type Outcome = (Pass, Result<Vec<u8>, RunFault>);

/// What a thread promises about its outcome. The pass is a pass of this store and has this number.
/// If there are replies, they are an output of this script that leaves what the pass has seen. The
/// pass's own writes are some of those that the script requests, and this gate was called for each
/// line.
#[derive(Drop)]
struct Served<G> {
    store: Snapshot<Store>,
    number: u64,
    script: Snapshot<Vec<u8>>,
    gate: Snapshot<G>,
}

impl<G: Gate> Promise<(Pass, Result<Vec<u8>, RunFault>)> for Served<G> {
    ghost kept_by = { λ p outcome.
        IsPassOf p.store.value outcome.0
        × (outcome.0.knows.number ≡ p.number)
        × IfOk outcome.1 (λ replies. IsOutcome p.store.value.limits p.number p.script.value.items
        outcome.0.knows replies.items)
        × OnOk outcome.1 (AreReported (G.begun p.gate.value p.number)
        (G.ended p.gate.value p.number)
        (line_count p.script.value.items)) };
}

/// Serves a script from a new pass.
fn serve_new<G: Gate>(alloc: Global, store: &Store, pass: Pass, gate: &G, script: &[u8]) -> Outcome
    requires { IsNew store.now pass.knows.number pass }
    ensures pass { IsPassOf store.now result.0 }
    ensures number { result.0.knows.number ≡ pass.knows.number }
    ensures replies { IfOk result.1 (λ replies. IsOutcome store.now.limits pass.knows.number
        script.now result.0.knows replies.items) }
    ensures reported { OnOk result.1 (AreReported (G.begun gate.now pass.knows.number)
        (G.ended gate.now pass.knows.number) (line_count script.now)) }
{
    serve_pass(alloc, store, pass, gate, script)
}

/// Starts a thread for each pass to serve the script that has the pass's number. Returns Memory if
/// a thread can't be started.
fn start<'s, E, G: Gate + Sync>(
    scope: &Scope<'s, E>,
    alloc: Global,
    store: &'s Store,
    passes: Vec<Pass>,
    scripts: &'s Vec<Vec<u8>>,
    gate: &'s G,
) -> Result<Vec<PromisedHandle<Outcome, Served<G>>>, RunFault>
    requires new { AreNew store.now 0 passes.items }
    requires count { length passes.items ≡ length scripts.now.items }
    ensures len { IfOk result (λ threads. length threads.items ≡ length scripts.now.items) }
    ensures each { IfOk result (λ threads. (k : ℕ) (t s : _) → k < length scripts.now.items
        → let promise = (get_or threads.items k t).promise in
        (promise.store.value ≡ store.now) × (promise.number ≡ k)
        × (promise.script.value ≡ get_or scripts.now.items k s) × (promise.gate.value ≡ gate.now)) }
    ensures fault { IfErr result (λ e. e ≡ RunFault.Memory) }
{
    let mut threads = Vec::new(alloc);
    for pass in passes {
        let number = pass.number();
        let script = &scripts[number as usize];
        let promise = Served {
            store: Snapshot::of(store),
            number,
            script: Snapshot::of(script),
            gate: Snapshot::of(gate),
        };
        let thread = scope.spawn_with(
            promise,
            move || -> Outcome
                requires { IsNew store.now pass.knows.number pass }
                ensures pass { IsPassOf store.entry.now result.0 }
                ensures number { result.0.knows.number ≡ pass.knows.number }
                ensures replies { IfOk result.1 (λ replies.
                    IsOutcome store.entry.now.limits pass.knows.number script.entry.now.items
                    result.0.knows replies.items) }
                ensures reported { OnOk result.1
                    (AreReported (G.begun gate.entry.now pass.knows.number)
                    (G.ended gate.entry.now pass.knows.number)
                    (line_count script.entry.now.items)) }
            { serve_new(alloc, store, pass, gate, script) },
        );
        let Ok(thread) = thread else {
            return Err(RunFault::Memory);
        };
        if threads.push(thread).is_err() {
            return Err(RunFault::Memory);
        }
    }
    Ok(threads)
}

/// Splits the outcomes into the passes and their replies. Returns Memory if a pass has no replies.
fn part(alloc: Global, outcomes: Vec<Outcome>) -> Result<(Vec<Pass>, Vec<Vec<u8>>), RunFault>
    ensures passes { IfOk result (λ r. r.0.items ≡ map (λ o. o.0) outcomes.items) }
    ensures replies { IfOk result (λ r. map Ok r.1.items ≡ map (λ o. o.1) outcomes.items) }
    ensures fault { IfErr result (λ e. e ≡ RunFault.Memory) }
{
    let mut passes = Vec::new(alloc);
    let mut replies = Vec::new(alloc);
    for (pass, outcome) in outcomes {
        let Ok(text) = outcome else {
            return Err(RunFault::Memory);
        };
        if passes.push(pass).is_err() || replies.push(text).is_err() {
            return Err(RunFault::Memory);
        }
    }
    Ok((passes, replies))
}

/// Serves each script on a thread in this scope. If all threads could be started, waits for them.
fn serve_in<'s, E, R: Threads, G: Gate + Sync>(
    scope: &Scope<'s, E>,
    rt: &R,
    alloc: Global,
    store: &'s Store,
    passes: Vec<Pass>,
    scripts: &'s Vec<Vec<u8>>,
    gate: &'s G,
) -> Result<(Vec<Pass>, Vec<Vec<u8>>), RunFault>
    requires { AreNew store.now 0 passes.items × (length passes.items ≡ length scripts.now.items) }
    ensures served { IfOk result (λ r. AreServedThrough store.now (G.begun gate.now)
        (G.ended gate.now) (bytes_of scripts.now.items) r.0.items (bytes_of r.1.items)) }
    ensures fault { IfErr result (λ e. e ≡ RunFault.Memory) }
{
    let threads = start(scope, alloc, store, passes, scripts, gate)?;
    match thread::join_promised(rt, threads) {
        Ok(outcomes) => part(alloc, outcomes),
        Err(_) => Err(RunFault::Memory),
    }
}

/// Serves each script on its own thread. All threads have ended when this returns, even after an
/// error.
fn serve_at_once<R: Threads + Wait, G: Gate + Sync>(
    rt: &R,
    alloc: Global,
    store: &Store,
    passes: Vec<Pass>,
    scripts: &Vec<Vec<u8>>,
    gate: &G,
) -> Result<(Vec<Pass>, Vec<Vec<u8>>), RunFault>
    requires { AreNew store.now 0 passes.items × (length passes.items ≡ length scripts.now.items) }
    ensures served { IfOk result (λ r. AreServedThrough store.now (G.begun gate.now)
        (G.ended gate.now) (bytes_of scripts.now.items) r.0.items (bytes_of r.1.items)) }
    ensures fault { IfErr result (λ e. e ≡ RunFault.Memory) }
{
    thread::scope(
        thread::scope_env(),
        rt,
        move |scope| -> Result<(Vec<Pass>, Vec<Vec<u8>>), RunFault>
            requires { AreNew store.now 0 passes.items
                × (length passes.items ≡ length scripts.now.items) }
            ensures served { IfOk result (λ r. AreServedThrough store.entry.now
                (G.begun gate.entry.now) (G.ended gate.entry.now)
                (bytes_of scripts.entry.now.items) r.0.items (bytes_of r.1.items)) }
            ensures fault { IfErr result (λ e. e ≡ RunFault.Memory) }
        { serve_in(scope, rt, alloc, store, passes, scripts, gate) },
    )
}

/// Whether any script is too long.
fn is_some_too_long(scripts: &[Vec<u8>]) -> bool
    ensures { result ≡ list_any (λ s. nat_lt (2 ^ 20) (vec_len s)) scripts.now }
{
    scripts.iter().any(|script| script.len() > MAX_SCRIPT)
}

fn line_of(alloc: Global, pass: usize) -> Result<String, AllocError>
    ensures { IfOk result (λ line. string_bytes line ≡ pass_line pass) }
{
    format!(in alloc; "pass {pass}\n")
}

/// Writes each pass's line and its replies. If a write fails, a prefix of the whole text was
/// written. If memory runs out, only the lines and whole replies of the first passes were written.
fn put_replies<W: Write>(alloc: Global, writer: &mut W, replies: &[Vec<u8>]) -> Result<(), RunFault>
    ensures ok { OnOk result (Appends (W.contents writer.old) (W.contents writer.new)
        (replies_text 0 (map (λ t. t.items) replies.now))) }
    ensures err { OnErr result (Wrote (W.contents writer.old) (W.contents writer.new)
        (IsFrontOf (replies_text 0 (map (λ t. t.items) replies.now)))) }
    ensures whole { IfErr result (λ e. e ≡ RunFault.Memory →
        Wrote (W.contents writer.old) (W.contents writer.new)
        (AreFirstTexts (map (λ t. t.items) replies.now))) }
    ensures late { IfErr result IsLate }
{
    for (pass, text) in replies.iter().enumerate() {
        let Ok(line) = line_of(alloc, pass) else {
            return Err(RunFault::Memory);
        };
        put(writer, line.as_bytes())?;
        put(writer, text)?;
    }
    Ok(())
}

/// Writes three byte strings in order. After an error, a prefix of the whole was written.
fn put_parts<W: Write>(
    writer: &mut W,
    first: &[u8],
    second: &[u8],
    third: &[u8],
) -> Result<(), RunFault>
    ensures ok { OnOk result (Appends (W.contents writer.old) (W.contents writer.new)
        (first.now ++ (second.now ++ third.now))) }
    ensures err { OnErr result (Wrote (W.contents writer.old) (W.contents writer.new)
        (IsFrontOf (first.now ++ (second.now ++ third.now)))) }
    ensures fault { IfErr result (λ e. e ≡ RunFault.Write) }
    ensures late { IfErr result IsLate }
{
    put(writer, first)?;
    put(writer, second)?;
    put(writer, third)
}

/// Writes the journal's length, its text, and the result of its check. Returns that result, which
/// is always true because the journal is legal. If memory runs out, nothing was written; if a write
/// fails, a prefix of the text was written.
pub fn put_result<W: Write>(
    alloc: Global,
    writer: &mut W,
    journal: &Journal,
) -> Result<bool, RunFault>
    requires { IsLegal journal.now.entries }
    ensures ok { IfOk result (λ legal. (legal ≡ true)
        × Appends (W.contents writer.old) (W.contents writer.new)
        (result_text journal.now.entries)) }
    ensures err { OnErr result (Wrote (W.contents writer.old) (W.contents writer.new)
        (IsFrontOf (result_text journal.now.entries))) }
    ensures whole { IfErr result (λ e. e ≡ RunFault.Memory → W.contents writer.new
        ≡ W.contents writer.old) }
    ensures late { IfErr result IsLate }
{
    let count = journal.len();
    let (Ok(head), Ok(text), Ok(legal)) = (
        format!(in alloc; "journal {count}\n"),
        journal.text(),
        journal.check(),
    ) else {
        return Err(RunFault::Memory);
    };
    let last = if legal { "replay ok\n" } else { "replay bad\n" };
    put_parts(writer, head.as_bytes(), text.as_bytes(), last.as_bytes())?;
    Ok(legal)
}

/// Writes each pass's line and its replies, and then the journal. Returns the result of the
/// journal's check. If a write fails, a prefix of the whole text was written. If memory runs out,
/// only the lines and whole replies of the first passes were written.
fn put_race<W: Write>(
    alloc: Global,
    writer: &mut W,
    replies: &[Vec<u8>],
    journal: &Journal,
) -> Result<bool, RunFault>
    requires { IsLegal journal.now.entries }
    ensures ok { IfOk result (λ legal. (legal ≡ true)
        × Appends (W.contents writer.old) (W.contents writer.new)
        (replies_text 0 (map (λ t. t.items) replies.now) ++ result_text journal.now.entries)) }
    ensures err { OnErr result (Wrote (W.contents writer.old) (W.contents writer.new)
        (IsFrontOf (replies_text 0 (map (λ t. t.items) replies.now)
        ++ result_text journal.now.entries))) }
    ensures whole { IfErr result (λ e. e ≡ RunFault.Memory →
        Wrote (W.contents writer.old) (W.contents writer.new)
        (AreFirstTexts (map (λ t. t.items) replies.now))) }
    ensures late { IfErr result IsLate }
{
    put_replies(alloc, writer, replies)?;
    put_result(alloc, writer, journal)
}

/// Serves the scripts at the same time on a new store, and closes the store. Returns each script's
/// replies and the journal.
fn serve_on_new<R: Threads + Wait, G: Gate + Sync>(
    rt: &R,
    alloc: Global,
    scripts: Vec<Vec<u8>>,
    limits: Limits,
    gate: &G,
) -> Result<(Vec<Vec<u8>>, Journal), RunFault>
    requires { limits.passes ≡ vec_len scripts }
    ensures raced { IfOk result (λ r. (race : IsRace limits (map (λ s. s.items) scripts.items)
        (replies_text 0 (map (λ t. t.items) r.0.items) ++ result_text r.1.entries))
        × (race.replies ≡ map (λ t. t.items) r.0.items)) }
    ensures legal { IfOk result (λ r. IsLegal r.1.entries) }
    ensures reported { OnOk result (AreAllReported (G.begun gate.now) (G.ended gate.now)
        (map (λ s. s.items) scripts.items)) }
    ensures fault { IfErr result (λ e. e ≡ RunFault.Memory) }
{
    let Ok((store, passes)) = Store::open(alloc, limits) else {
        return Err(RunFault::Memory);
    };
    let (passes, replies) = serve_at_once(rt, alloc, &store, passes, &scripts, gate)?;
    Ok((replies, store.close(passes)))
}

/// Races two to four scripts on an empty store that has the pages and commits given in the limits
/// and one pass per script. Returns whether the journal is legal, which is always true.
///
/// The limits are checked first, and then the length of each script, which is at most 1,048,576
/// bytes. If any of these is invalid, nothing is written. Script k runs from pass k, on its own
/// thread. A write that finds another pass writing is retried, for up to 10,000,000 tries in all.
/// If the last try fails too, the reply is its error. When all threads have ended, the replies are
/// written, each pass's after a line `pass K`. They are followed by `journal N`, the journal's
/// text, and `replay ok`. The journal is that of the store that gave the replies: it begins with
/// what each pass has seen, and contains the pass's writes with the outcomes that the replies
/// reported.
///
/// Returns Memory if memory runs out or a thread can't be started. In that case nothing was
/// written, or only the lines and whole replies of the first passes. Returns Write if a write fails
/// or accepts no bytes. In that case a prefix of what a race of these scripts writes was written.
pub fn race<R: Threads + Wait, G: Gate + Sync, W: Write>(
    rt: &R,
    alloc: Global,
    scripts: Vec<Vec<u8>>,
    limits: Limits,
    gate: &G,
    writer: &mut W,
) -> Result<bool, RunFault>
    requires scripts { (2 ≤ vec_len scripts) × (vec_len scripts ≤ 4) }
    requires passes { limits.passes ≡ vec_len scripts }
    ensures limits { (result ≡ Err RunFault.Limits) ↔ AreBad limits }
    ensures long { (result ≡ Err RunFault.TooLong) ↔
        (IsWithin limits × (list_any (λ s. nat_lt (2 ^ 20) (vec_len s)) scripts.items ≡ true)) }
    ensures ok { IfOk result (λ legal. (legal ≡ true)
        × Wrote (W.contents writer.old) (W.contents writer.new)
        (IsRace limits (map (λ s. s.items) scripts.items))) }
    ensures reported { OnOk result (AreAllReported (G.begun gate.now) (G.ended gate.now)
        (map (λ s. s.items) scripts.items)) }
    ensures fault { IfErr result (λ e. RaceLeaves limits (map (λ s. s.items) scripts.items) e
        (W.contents writer.old) (W.contents writer.new)) }
{
    if !limits.are_within() {
        return Err(RunFault::Limits);
    }
    if is_some_too_long(&scripts) {
        return Err(RunFault::TooLong);
    }
    match serve_on_new(rt, alloc, scripts, limits, gate) {
        Ok((replies, journal)) => put_race(alloc, writer, &replies, &journal),
        Err(fault) => Err(fault),
    }
}
