//! Runs that end at the first refused line.
//!
//! Each line runs and its reply is written, as in any run. Once a reply says that its line wasn't
//! carried out, no further line runs and no further reply is written. Then the store is closed and
//! its journal is returned.
ghost use Rattle.std.specs.Prelude.{◌≡◌, ◌≤◌, ◌^◌, ◌↔◌, length, IfOk, OnOk, IfErr, IfSome, OnErr};
ghost use Rattle.std.specs.Prelude.{if◌then◌else◌};
ghost use Rattle.be_script_runner.specs.Run as spec;
ghost use Rattle.be_script_runner.specs.Strict as strict;
ghost use Rattle.be_script_runner.specs.Imports.{option_map, reply_of, string_bytes, AreBad};
ghost use Rattle.be_script_runner.specs.Imports.{IsLegal, IsWithin};
ghost use Rattle.be_script_runner.specs.Output.{IsFrontOfOutput};
ghost use Rattle.be_script_runner.specs.Store.{start};
ghost use Rattle.be_script_runner.specs.View.{session, queued_ops};

use crate::answers::answer;
use crate::client::Client;
use crate::journal_runs::close_alone;
use crate::runs::{put, read_script, split_line};
use crate::script_readers::ScriptReader;
use crate::stores::{PassServer, Server, open_for_one};
use crate::{Limits, RunFault};
use be_journal::Journal;
use be_script_language::{Reply, read_line, reply_text};
use std::alloc::Global;
use std::io::Write;

/// A refused line of a script.
#[derive(Debug, Drop)]
pub struct RefusedLine {
    /// The line's number, counting from 1.
    pub number: u64,
    /// The line's reply, with its LF.
    pub reply: String,
}

/// Whether a reply says that its line wasn't carried out.
fn is_refusal(reply: &Reply) -> bool
    ensures { result ≡ strict.is_refusal (reply_of reply.now) }
{
    match reply {
        Reply::Silent | Reply::Done | Reply::Queued => false,
        Reply::Node(_) | Reply::Nodes(_) | Reply::Value(_) | Reply::Attributes(_) => false,
        Reply::Page(_) | Reply::Kinds(_) | Reply::Cover(_) | Reply::Pinned(_) => false,
        Reply::Updates(_, _) | Reply::Committed(_, _) => false,
        Reply::BadLine | Reply::Refused(_) => true,
        Reply::AlreadyPinned | Reply::NotPinned | Reply::NoLiveQuery => true,
        Reply::FullBatch | Reply::EmptyBatch | Reply::AlreadyBegun | Reply::NotBegun => true,
    }
}

/// The reply's text, if it says that its line wasn't carried out.
fn refusal_in(is_refused: bool, text: String) -> Option<String>
    ensures { option_map string_bytes result
        ≡ (if is_refused then Some (string_bytes text) else None) }
{
    if is_refused { Some(text) } else { None }
}

/// Runs a line, and then writes its reply. Returns the reply if it says that the line wasn't
/// carried out. If memory runs out, nothing of the reply is written.
fn run_line<S: Server, W: Write>(
    alloc: Global,
    server: &mut S,
    client: &mut Client,
    line: &[u8],
    writer: &mut W,
) -> Result<Option<String>, RunFault>
    requires few { length (queued_ops client.old) ≤ 64 }
    ensures ok { IfOk result (λ found. spec.Wrote (W.contents writer.old) (W.contents writer.new)
        (strict.Judged (session (S.shows server.old) client.old) line.now
        (session (S.shows server.new) client.new) (option_map string_bytes found))) }
    ensures err { OnErr result (spec.Wrote (W.contents writer.old) (W.contents writer.new)
        (spec.IsFrontOfAnswer (session (S.shows server.old) client.old) line.now)) }
    ensures whole { IfErr result (λ e. e ≡ RunFault.Memory → W.contents writer.new
        ≡ W.contents writer.old) }
    ensures late { IfErr result spec.IsLate }
    ensures stays { S.kept server.new ≡ S.kept server.old }
    ensures few { length (queued_ops client.new) ≤ 64 }
{
    let Ok(request) = read_line(alloc, line) else {
        return Err(RunFault::Memory);
    };
    let reply = answer(alloc, server, client, request);
    let Ok(text) = reply_text(alloc, &reply) else {
        return Err(RunFault::Memory);
    };
    put(writer, text.as_bytes())?;
    Ok(refusal_in(is_refusal(&reply), text))
}

/// The refused line with this number, if there is a reply.
fn refused_line(number: u64, reply: Option<String>) -> Option<RefusedLine>
    ensures { option_map strict.line_refused result
        ≡ strict.numbered number (option_map string_bytes reply) }
{
    match reply {
        Some(reply) => Some(RefusedLine { number, reply }),
        None => None,
    }
}

/// Runs a script's lines in order up to and including the first refused line, and returns that
/// line. The text after the last LF is a line only if it isn't empty.
fn run_lines<S: Server, W: Write>(
    alloc: Global,
    server: &mut S,
    script: &[u8],
    writer: &mut W,
) -> Result<Option<RefusedLine>, RunFault>
    ensures ok { IfOk result (λ found. spec.Wrote (W.contents writer.old) (W.contents writer.new)
        (strict.IsStrictOutput (S.shows server.old) script.now
        (option_map strict.line_refused found) (S.shows server.new))) }
    ensures front { spec.Wrote (W.contents writer.old) (W.contents writer.new)
        (IsFrontOfOutput (S.shows server.old) script.now) }
    ensures whole { IfErr result (λ e. e ≡ RunFault.Memory →
        spec.Wrote (W.contents writer.old) (W.contents writer.new)
        (spec.AreFirstReplies (S.shows server.old) script.now)) }
    ensures late { IfErr result spec.IsLate }
    ensures stays { S.kept server.new ≡ S.kept server.old }
{
    let mut client = Client::new();
    let mut rest = script;
    let mut number = 1;
    while let Some((line, beyond)) = split_line(rest) {
        let refused = run_line(alloc, server, &mut client, line, writer)?;
        if let Some(reply) = refused {
            return Ok(Some(RefusedLine { number, reply }));
        }
        rest = beyond;
        number += 1;
    }
    if rest.is_empty() {
        return Ok(None);
    }
    let refused = run_line(alloc, server, &mut client, rest, writer)?;
    Ok(refused_line(number, refused))
}

/// Runs a script on a new store up to and including the first refused line, and closes the store.
fn run_on_new<W: Write>(
    alloc: Global,
    script: &[u8],
    writer: &mut W,
    limits: Limits,
) -> Result<(Option<RefusedLine>, Journal), RunFault>
    requires { IsWithin limits }
    ensures ran { IfOk result (λ r. spec.Wrote (W.contents writer.old) (W.contents writer.new)
        (strict.IsStrictRun limits script.now (option_map strict.line_refused r.0) r.1.entries)) }
    ensures legal { IfOk result (λ r. IsLegal r.1.entries) }
    ensures err { OnErr result (spec.Wrote (W.contents writer.old) (W.contents writer.new)
        (IsFrontOfOutput (start limits.commits) script.now)) }
    ensures whole { IfErr result (λ e. e ≡ RunFault.Memory →
        spec.Wrote (W.contents writer.old) (W.contents writer.new)
        (spec.AreFirstReplies (start limits.commits) script.now)) }
    ensures late { IfErr result spec.IsLate }
{
    let Ok((store, pass)) = open_for_one(alloc, limits) else {
        return Err(RunFault::Memory);
    };
    let mut server = PassServer::new(alloc, &store, pass);
    let refused = run_lines(alloc, &mut server, script, writer)?;
    let pass = server.into_pass();
    let journal = close_alone(alloc, store, pass)?;
    Ok((refused, journal))
}

/// Runs a script as [`crate::run`] does, but ends after the first reply that says that its line
/// wasn't carried out. Returns that line, or None if there was no such reply, and the journal of
/// the accepted writes.
///
/// Such replies are a refusal, `bad line`, `already begun`, `not begun`, `full batch`, `empty
/// batch`, `already pinned`, `not pinned` and `no live query`. The text that it writes is an output
/// of the lines up to and including that one. The errors are those of `run`, with the same effects.
pub fn run_strictly<R: ScriptReader, W: Write>(
    alloc: Global,
    reader: &mut R,
    writer: &mut W,
    limits: Limits,
) -> Result<(Option<RefusedLine>, Journal), RunFault>
    ensures limits { (result ≡ Err RunFault.Limits) ↔ AreBad limits }
    ensures unread { result ≡ Err RunFault.Limits → reader.new ≡ reader.old }
    ensures ran { IfOk result (λ r. IfSome (R.remaining reader.old) (λ script.
        spec.Wrote (W.contents writer.old) (W.contents writer.new)
        (strict.IsStrictRun limits script (option_map strict.line_refused r.0) r.1.entries))) }
    ensures legal { IfOk result (λ r. IsLegal r.1.entries) }
    ensures fits { OnOk result (IfSome (R.remaining reader.old)
        (λ script. length script ≤ 2 ^ 20)) }
    ensures fault { IfErr result (λ e. spec.RunLeaves e (start limits.commits)
        (R.remaining reader.old) (W.contents writer.old) (W.contents writer.new)) }
    ensures taken { IfErr result (λ e. spec.HasReadScript e (R.remaining reader.old)
        (R.remaining reader.new)) }
    ensures reads { spec.HasFewReads (R.was_read reader.old) (R.was_read reader.new) }
{
    if !limits.are_within() {
        return Err(RunFault::Limits);
    }
    match read_script(alloc, reader) {
        Ok(script) => run_on_new(alloc, &script, writer, limits),
        Err(fault) => Err(fault),
    }
}
