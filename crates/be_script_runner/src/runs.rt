//! Runs a whole script: reads its bytes and writes the replies.
//!
//! The whole script is read before its first line runs, so nothing is written for a script that
//! can't be read or is too long. Then, for each line in turn, the line runs, the text of its reply
//! is built, and the text is written. After an error, a prefix of an output was written. Unless a
//! write failed, it ends after a whole reply.
ghost use Rattle.std.specs.Prelude.{◌≡◌, ◌<◌, ◌≤◌, ◌^◌, ◌↔◌, ◌∷◌, [], length, vec_len, position};
ghost use Rattle.std.specs.Prelude.{IfOk, OnOk, IfErr, IfSome, OnErr, IfNone, Err};
ghost use Rattle.be_script_runner.specs.Output as outputs;
ghost use Rattle.be_script_runner.specs.Run as spec;
ghost use Rattle.be_script_runner.specs.Imports.{by_pass, entries, lines_of, Appends, AreBad};
ghost use Rattle.be_script_runner.specs.Imports.{IsPassOf};
ghost use Rattle.be_script_runner.specs.Gates.{AreReported, line_count};
ghost use Rattle.be_script_runner.specs.Lines.{IsServedBy};
ghost use Rattle.be_script_runner.specs.Own.{IsPartOf, operations, write_ops};
ghost use Rattle.be_script_runner.specs.Store.{start};
ghost use Rattle.be_script_runner.specs.View.{session, queued_ops};

use crate::answers::answer;
use crate::client::Client;
use crate::gates::{Gate, OpenGate};
use crate::passes::serve_lines;
use crate::script_readers::ScriptReader;
use crate::stores::{PassServer, Server, open_for_one};
use crate::{Limits, RunFault};
use be_script_language::{read_line, reply_text};
use be_store::{Pass, Store};
use std::alloc::Global;
use std::io::Write;

/// The maximum number of bytes in a script.
pub(crate) const MAX_SCRIPT: usize = 1 << 20;

/// The maximum number of reads for a script. Each read returns at least one byte, the end, or an
/// error.
const MAX_READS: u64 = (1 << 20) + 1;

/// Writes all the bytes. After an error, a prefix of them was written.
pub fn put<W: Write>(writer: &mut W, bytes: &[u8]) -> Result<(), RunFault>
    ensures ok { OnOk result (Appends (W.contents writer.old) (W.contents writer.new) bytes.now) }
    ensures err { OnErr result (spec.Wrote (W.contents writer.old) (W.contents writer.new)
        (spec.IsFrontOf bytes.now)) }
    ensures fault { IfErr result (λ e. e ≡ RunFault.Write) }
    ensures late { IfErr result spec.IsLate }
{
    let mut rest = bytes;
    while !rest.is_empty() {
        match writer.write(rest) {
            Ok(0) | Err(_) => return Err(RunFault::Write),
            Ok(n) => rest = rest.split_at(n).1,
        }
    }
    Ok(())
}

/// Runs a line, and then writes its reply. If memory runs out, none of the reply is written.
pub(crate) fn run_line<S: Server, W: Write>(
    alloc: Global,
    server: &mut S,
    client: &mut Client,
    line: &[u8],
    writer: &mut W,
) -> Result<(), RunFault>
    requires few { length (queued_ops client.old) ≤ 64 }
    ensures ok { OnOk result (spec.Wrote (W.contents writer.old) (W.contents writer.new)
        (outputs.Answered (session (S.shows server.old) client.old) line.now
        (session (S.shows server.new) client.new))) }
    ensures err { OnErr result (spec.Wrote (W.contents writer.old) (W.contents writer.new)
        (spec.IsFrontOfAnswer (session (S.shows server.old) client.old) line.now)) }
    ensures whole { IfErr result (λ e. e ≡ RunFault.Memory → W.contents writer.new
        ≡ W.contents writer.old) }
    ensures late { IfErr result spec.IsLate }
    ensures stays { S.kept server.new ≡ S.kept server.old }
    ensures few { length (queued_ops client.new) ≤ 64 }
{
    let Ok(request) = read_line(alloc, line) else {
        return Err(RunFault::Memory);
    };
    let reply = answer(alloc, server, client, request);
    let Ok(text) = reply_text(alloc, &reply) else {
        return Err(RunFault::Memory);
    };
    put(writer, text.as_bytes())
}

fn end_of_line(script: &[u8]) -> Option<usize>
    ensures { result ≡ position spec.is_line_end script.now }
{
    script.iter().position(|c| *c == b'\n')
}

/// The first line without its LF, and the text after the LF, if there is one.
pub(crate) fn split_line(script: &[u8]) -> Option<(&[u8], &[u8])>
    ensures first { IfSome result (λ parts. lines_of script.now ≡ parts.0.now
        ∷ lines_of parts.1.now) }
    ensures shorter { IfSome result (λ parts. length parts.1.now < length script.now) }
    ensures last { IfNone result (lines_of script.now ≡ script.now ∷ []) }
{
    match end_of_line(script) {
        Some(end) => Some((script.split_at(end).0, script.split_at(end + 1).1)),
        None => None,
    }
}

/// Runs a script's lines in order, and calls the gate before and after each line with the numbers
/// of the pass and the line. The text after the last LF is a line only if it isn't empty.
pub(crate) fn run_lines<S: Server, G: Gate, W: Write>(
    alloc: Global,
    server: &mut S,
    pass: u64,
    gate: &G,
    script: &[u8],
    writer: &mut W,
) -> Result<(), RunFault>
    ensures ok { OnOk result (spec.Wrote (W.contents writer.old) (W.contents writer.new)
        (outputs.IsOutputTo (S.shows server.old) script.now (S.shows server.new))) }
    ensures err { OnErr result (spec.Wrote (W.contents writer.old) (W.contents writer.new)
        (outputs.IsFrontOfOutput (S.shows server.old) script.now)) }
    ensures whole { IfErr result (λ e. e ≡ RunFault.Memory →
        spec.Wrote (W.contents writer.old) (W.contents writer.new)
        (spec.AreFirstReplies (S.shows server.old) script.now)) }
    ensures late { IfErr result spec.IsLate }
    ensures reported { OnOk result (AreReported (G.begun gate.now pass) (G.ended gate.now pass)
        (line_count script.now)) }
    ensures stays { S.kept server.new ≡ S.kept server.old }
{
    let mut client = Client::new();
    let mut rest = script;
    let mut number = 1;
    while let Some((line, beyond)) = split_line(rest) {
        gate.before(pass, number);
        let ran = run_line(alloc, server, &mut client, line, writer);
        gate.after(pass, number);
        ran?;
        rest = beyond;
        number += 1;
    }
    if rest.is_empty() {
        return Ok(());
    }
    gate.before(pass, number);
    let ran = run_line(alloc, server, &mut client, rest, writer);
    gate.after(pass, number);
    ran
}

/// Serves a script from a pass that has seen nothing, while the store's other passes may write.
/// Calls the gate before and after each line with the numbers of the pass and the line. Lines are
/// numbered from 1, including blank lines and comments. The replies are kept in memory, so the only
/// error is Memory. Returns the pass even after an error.
pub fn serve_pass<G: Gate>(
    alloc: Global,
    store: &Store,
    pass: Pass,
    gate: &G,
    script: &[u8],
) -> (Pass, Result<Vec<u8>, RunFault>)
    requires pass { IsPassOf store.now pass }
    requires fresh { pass.knows.seen ≡ [] }
    ensures pass { IsPassOf store.now result.0 }
    ensures number { result.0.knows.number ≡ pass.knows.number }
    ensures mine { OnOk result.1 (by_pass result.0.knows.number (entries result.0.knows.seen)
        ≡ result.0.knows.mine) }
    ensures own { OnOk result.1 (IsPartOf (operations result.0.knows.mine) (write_ops script.now)) }
    ensures replies { IfOk result.1 (λ replies. IsServedBy pass.knows script.now result.0.knows
        replies.items) }
    ensures reported { OnOk result.1 (AreReported (G.begun gate.now pass.knows.number)
        (G.ended gate.now pass.knows.number) (line_count script.now)) }
    ensures fault { IfErr result.1 (λ e. e ≡ RunFault.Memory) }
{
    let mut replies = Vec::new(alloc);
    let (pass, ran) = serve_lines(alloc, store, pass, gate, script, &mut replies);
    pass.is_pass();
    match ran {
        Ok(()) => (pass, Ok(replies)),
        Err(_) => (pass, Err(RunFault::Memory)),
    }
}

/// Reads a whole script.
pub(crate) fn read_script<R: ScriptReader>(
    alloc: Global,
    reader: &mut R,
) -> Result<Vec<u8>, RunFault>
    ensures ok { IfOk result (λ script. spec.ReadsAll (R.remaining reader.old)
        (R.remaining reader.new) script.items) }
    ensures fits { IfOk result (λ script. vec_len script ≤ 2 ^ 20) }
    ensures err { IfErr result (λ e. spec.ReadFault e (R.remaining reader.old)
        (R.remaining reader.new)) }
    ensures early { IfErr result spec.IsEarly }
    ensures reads { spec.HasFewReads (R.was_read reader.old) (R.was_read reader.new) }
{
    let mut script = Vec::new(alloc);
    let mut buffer = [0u8; 4096];
    for _reads in 0..MAX_READS {
        match reader.read_once(&mut buffer) {
            Err(_) => return Err(RunFault::Read),
            Ok(0) => return Ok(script),
            Ok(n) => {
                if script.len() + n > MAX_SCRIPT {
                    return Err(RunFault::TooLong);
                }
                if script.extend_from_slice(&buffer[..n]).is_err() {
                    return Err(RunFault::Memory);
                }
            }
        }
    }
    unreachable!()
}

/// Runs a script on a server. If the reader's and the writer's bytes are known, it writes an output
/// of the script. The output begins with the store that the server shows, and leaves the store that
/// it shows afterwards.
pub fn serve<S: Server, R: ScriptReader, W: Write>(
    alloc: Global,
    server: &mut S,
    reader: &mut R,
    writer: &mut W,
) -> Result<(), RunFault>
    ensures output { OnOk result (IfSome (R.remaining reader.old) (λ script.
        spec.Wrote (W.contents writer.old) (W.contents writer.new)
        (outputs.IsOutputTo (S.shows server.old) script (S.shows server.new)))) }
    ensures stays { S.kept server.new ≡ S.kept server.old }
    ensures fault { IfErr result (λ e. spec.RunLeaves e (S.shows server.old)
        (R.remaining reader.old) (W.contents writer.old) (W.contents writer.new)) }
    ensures fits { OnOk result (IfSome (R.remaining reader.old)
        (λ script. length script ≤ 2 ^ 20)) }
    ensures taken { IfErr result (λ e. spec.HasReadScript e (R.remaining reader.old)
        (R.remaining reader.new)) }
    ensures other { IfErr result spec.IsNotLimits }
    ensures reads { spec.HasFewReads (R.was_read reader.old) (R.was_read reader.new) }
{
    match read_script(alloc, reader) {
        Ok(script) => run_lines(alloc, server, 0, &OpenGate, &script, writer),
        Err(fault) => Err(fault),
    }
}

/// Runs a script on its own empty store, which has one pass and the pages and commits given in the
/// limits.
///
/// The limits are checked first, and then the store is opened. The whole script is read, in at most
/// 1,048,577 reads, before the first line runs. Each line runs before its reply is written. Returns
/// `Read` if a read fails, and `Write` if a write fails or accepts no bytes. Returns `TooLong`, and
/// no other error, if more than 1,048,576 bytes were read.
///
/// If the reader's and the writer's bytes are known, as they are for a slice and a vector, it
/// writes an output of the script. After `Write`, a prefix of an output was written; after
/// `Memory`, only whole replies to the script's first lines were; after any other error, nothing
/// was.
pub fn run<R: ScriptReader, W: Write>(
    alloc: Global,
    reader: &mut R,
    writer: &mut W,
    limits: Limits,
) -> Result<(), RunFault>
    ensures limits { (result ≡ Err RunFault.Limits) ↔ AreBad limits }
    ensures unread { result ≡ Err RunFault.Limits → reader.new ≡ reader.old }
    ensures output { OnOk result (IfSome (R.remaining reader.old) (λ script.
        spec.Wrote (W.contents writer.old) (W.contents writer.new) (spec.IsRun limits script))) }
    ensures fits { OnOk result (IfSome (R.remaining reader.old)
        (λ script. length script ≤ 2 ^ 20)) }
    ensures fault { IfErr result (λ e. spec.RunLeaves e (start limits.commits)
        (R.remaining reader.old) (W.contents writer.old) (W.contents writer.new)) }
    ensures taken { IfErr result (λ e. spec.HasReadScript e (R.remaining reader.old)
        (R.remaining reader.new)) }
    ensures reads { spec.HasFewReads (R.was_read reader.old) (R.was_read reader.new) }
{
    if !limits.are_within() {
        return Err(RunFault::Limits);
    }
    let Ok((store, pass)) = open_for_one(alloc, limits) else {
        return Err(RunFault::Memory);
    };
    let mut server = PassServer::new(alloc, &store, pass);
    let ran = serve(alloc, &mut server, reader, writer);
    let pass = server.into_pass();
    pass.is_pass();
    ran
}
