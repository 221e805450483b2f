//! Runs that also write their journal.
ghost use Rattle.std.specs.Prelude.{◌≡◌, ◌≤◌, ◌^◌, ◌↔◌, ◌∷◌, [], true, length, IfOk, IfErr, OnOk};
ghost use Rattle.std.specs.Prelude.{OnErr, IfSome, Err};
ghost use Rattle.be_script_runner.specs.Run as spec;
ghost use Rattle.be_script_runner.specs.Imports.{entries, AreBad, CanEncodeEach, IsLegalFrom};
ghost use Rattle.be_script_runner.specs.Imports.{IsPassOf, IsWithin};
ghost use Rattle.be_script_runner.specs.Store.{start};
ghost use Rattle.be_script_runner.specs.JournalRuns.{IsReportedInPart, IsReportedRun};
ghost use Rattle.be_script_runner.specs.JournalRuns.{JournalRunLeaves};

use crate::gates::OpenGate;
use crate::races::put_result;
use crate::runs::{read_script, run_lines};
use crate::script_readers::ScriptReader;
use crate::stores::{PassServer, open_for_one};
use crate::{Limits, RunFault};
use be_journal::Journal;
use be_store::Pass;
use be_store::laws::alone;
use std::alloc::Global;
use std::io::Write;

/// A list with this pass as its only element.
fn only(alloc: Global, pass: Pass) -> Result<Vec<Pass>, RunFault>
    ensures passes { IfOk result (λ passes. passes.items ≡ pass ∷ []) }
    ensures fault { IfErr result (λ e. e ≡ RunFault.Memory) }
{
    let mut passes = Vec::new(alloc);
    match passes.push(pass) {
        Ok(()) => Ok(passes),
        Err(_) => Err(RunFault::Memory),
    }
}

/// Closes a store whose only pass has been returned, and returns its journal, which is all that the
/// pass has seen. The only error is Memory.
pub fn close_alone(alloc: Global, store: be_store::Store, pass: Pass) -> Result<Journal, RunFault>
    requires pass { IsPassOf store pass }
    requires one { store.limits.passes ≡ 1 }
    ensures all { IfOk result (λ journal. journal.entries ≡ entries pass.knows.seen) }
    ensures legal { IfOk result (λ journal. IsLegalFrom store.limits.volume journal.entries) }
    ensures volumes { IfOk result (λ journal.
        CanEncodeEach store.limits.pages store.limits.volume journal.entries) }
    ensures fault { IfErr result (λ e. e ≡ RunFault.Memory) }
{
    alone(&store, &pass);
    let passes = only(alloc, pass)?;
    Ok(store.close(passes))
}

/// Runs a script on a new store, and writes the replies followed by the journal.
fn run_on_new<W: Write>(
    alloc: Global,
    script: &[u8],
    writer: &mut W,
    limits: Limits,
) -> Result<bool, RunFault>
    requires { IsWithin limits }
    ensures reported { IfOk result (λ legal. (legal ≡ true)
        × spec.Wrote (W.contents writer.old) (W.contents writer.new)
        (IsReportedRun limits script.now)) }
    ensures err { OnErr result (spec.Wrote (W.contents writer.old) (W.contents writer.new)
        (IsReportedInPart limits script.now)) }
    ensures whole { IfErr result (λ e. e ≡ RunFault.Memory →
        spec.Wrote (W.contents writer.old) (W.contents writer.new)
        (spec.AreFirstReplies (start limits.commits) script.now)) }
    ensures late { IfErr result spec.IsLate }
{
    let Ok((store, pass)) = open_for_one(alloc, limits) else {
        return Err(RunFault::Memory);
    };
    let mut server = PassServer::new(alloc, &store, pass);
    run_lines(alloc, &mut server, 0, &OpenGate, script, writer)?;
    let pass = server.into_pass();
    let journal = close_alone(alloc, store, pass)?;
    put_result(alloc, writer, &journal)
}

/// Runs a script as [`crate::run`] does. After the replies it writes what a race writes after its
/// replies: `journal N`, the journal's text, and `replay ok`. Returns whether the journal is legal,
/// which is always true.
///
/// The script is read before the store is opened. The journal contains each accepted write of the
/// script, in order. After each of them, the volume fits into the number of pages that the limits
/// allow. The errors are those of `run`. After `Write`, either a prefix of the replies was written,
/// or all the replies and a prefix of what follows. After `Memory`, whole replies to the script's
/// first lines were written, and nothing of the journal. After any other error, nothing was
/// written.
pub fn run_with_journal<R: ScriptReader, W: Write>(
    alloc: Global,
    reader: &mut R,
    writer: &mut W,
    limits: Limits,
) -> Result<bool, RunFault>
    ensures limits { (result ≡ Err RunFault.Limits) ↔ AreBad limits }
    ensures unread { result ≡ Err RunFault.Limits → reader.new ≡ reader.old }
    ensures reported { IfOk result (λ legal. (legal ≡ true)
        × IfSome (R.remaining reader.old) (λ script.
        spec.Wrote (W.contents writer.old) (W.contents writer.new) (IsReportedRun limits script))) }
    ensures fits { OnOk result (IfSome (R.remaining reader.old)
        (λ script. length script ≤ 2 ^ 20)) }
    ensures fault { IfErr result (λ e. JournalRunLeaves limits e (R.remaining reader.old)
        (W.contents writer.old) (W.contents writer.new)) }
    ensures taken { IfErr result (λ e. spec.HasReadScript e (R.remaining reader.old)
        (R.remaining reader.new)) }
    ensures reads { spec.HasFewReads (R.was_read reader.old) (R.was_read reader.new) }
{
    if !limits.are_within() {
        return Err(RunFault::Limits);
    }
    match read_script(alloc, reader) {
        Ok(script) => run_on_new(alloc, &script, writer, limits),
        Err(fault) => Err(fault),
    }
}
