//! Conversations, in which a line is read, its reply is written and flushed, and then the next line
//! is read.
ghost use Rattle.std.specs.Prelude.{◌≡◌, ◌≤◌, ℕ, List, [], ◌∷◌, length, IfOk, IfErr, OnOk};
ghost use Rattle.std.specs.String.{string_bytes};
ghost use Rattle.be_script_language.specs.View.{request_of};
ghost use Rattle.be_script_runner.specs.Run.{IsNotLimits};
ghost use Rattle.be_script_runner.specs.Store.{Joins};
ghost use Rattle.be_script_runner.specs.View.{session, queued_ops};
ghost use Rattle.be_shell.specs.Conversation as spec;
ghost use Rattle.be_shell.specs.Conversation.{Event};

use crate::Line;
use crate::peers::Peer;
use be_script_language::{Request, read_line, reply_text};
use be_script_runner::{Client, RunFault, Server, answer};
use std::alloc::{AllocError, Global};

/// Returns what a line asks for.
fn request_in(alloc: Global, line: &Line) -> Result<Request, AllocError>
    ensures { IfOk result (λ request. request_of request
        ≡ spec.asked_by (spec.line_heard line.now)) }
{
    match line {
        Line::Short(bytes) => read_line(alloc, bytes.as_slice()),
        Line::Long => Ok(Request::Malformed),
    }
}

/// Runs a line, and returns its reply as text.
fn reply_to<S: Server>(
    alloc: Global,
    server: &mut S,
    client: &mut Client,
    line: &Line,
) -> Result<String, RunFault>
    requires few { length (queued_ops client.old) ≤ 64 }
    ensures reply { IfOk result (λ reply. spec.RepliedTo (session (S.shows server.old) client.old)
        (spec.line_heard line.now)
        (session (S.shows server.new) client.new) (string_bytes reply)) }
    ensures fault { IfErr result (λ e. e ≡ RunFault.Memory) }
    ensures stays { S.kept server.new ≡ S.kept server.old }
    ensures few { length (queued_ops client.new) ≤ 64 }
{
    let Ok(request) = request_in(alloc, line) else {
        return Err(RunFault::Memory);
    };
    let reply = answer(alloc, server, client, request);
    match reply_text(alloc, &reply) {
        Ok(text) => Ok(text),
        Err(_) => Err(RunFault::Memory),
    }
}

/// Writes a reply and flushes it.
fn send<P: Peer>(peer: &mut P, reply: &[u8]) -> Result<(), RunFault>
    ensures reported { OnOk result (spec.Happens P.does peer.old
        (spec.says reply.now ∷ spec.flushes ∷ []) peer.new) }
    ensures cut { IfErr result (λ e. (e ≡ RunFault.Write)
        × (cut : List spec.Event) × spec.IsCut reply.now cut
        × spec.Happens P.does peer.old cut peer.new) }
{
    peer.say(reply)?;
    peer.flush()?;
    Ok(())
}

/// Runs a line that was read, then writes and flushes its reply.
fn serve_line<S: Server, P: Peer>(
    alloc: Global,
    server: &mut S,
    client: &mut Client,
    peer: &mut P,
    line: &Line,
) -> Result<(), RunFault>
    requires few { length (queued_ops client.old) ≤ 64 }
    ensures served { OnOk result ((reply : List ℕ)
        × spec.RepliedTo (session (S.shows server.old) client.old) (spec.line_heard line.now)
        (session (S.shows server.new) client.new) reply
        × spec.Happens P.does peer.old (spec.says reply ∷ spec.flushes ∷ []) peer.new) }
    ensures broke { IfErr result (λ e.
        spec.BrokeAfter P.does e (session (S.shows server.old) client.old)
        (spec.line_heard line.now) peer.old peer.new) }
    ensures stays { S.kept server.new ≡ S.kept server.old }
    ensures few { length (queued_ops client.new) ≤ 64 }
{
    let reply = reply_to(alloc, server, client, line)?;
    send(peer, reply.as_bytes())?;
    Ok(())
}

/// Gives the store's state to a peer that asks for it.
fn hand_state<S: Server, P: Peer>(server: &mut S, peer: &mut P)
    ensures same { (event : Event) (before : P) → P.does before event peer.old
        → P.does before event peer.new }
    ensures joins { Joins (S.shows server.old) (S.shows server.new) }
    ensures stays { S.kept server.new ≡ S.kept server.old }
{
    if !peer.wants_state() {
        return;
    }
    match server.state_text() {
        Ok(script) => peer.take_state(Some(script.as_str())),
        Err(_) => peer.take_state(None),
    }
}

/// Reads a line, runs it, then writes and flushes its reply. Returns `false` if there are no more
/// lines.
fn exchange<S: Server, P: Peer>(
    alloc: Global,
    server: &mut S,
    client: &mut Client,
    peer: &mut P,
) -> Result<bool, RunFault>
    requires few { length (queued_ops client.old) ≤ 64 }
    ensures went { IfOk result (λ more. spec.Went P.does (session (S.shows server.old) client.old)
        peer.old more
        (session (S.shows server.new) client.new) peer.new) }
    ensures broke { IfErr result (λ e. spec.Broke P.does e (session (S.shows server.old) client.old)
        peer.old peer.new) }
    ensures stays { S.kept server.new ≡ S.kept server.old }
    ensures few { length (queued_ops client.new) ≤ 64 }
{
    let Some(line) = peer.hear(alloc, client.batch.is_some())? else {
        return Ok(false);
    };
    hand_state(server, peer);
    serve_line(alloc, server, client, peer, &line)?;
    Ok(true)
}

/// Talks with a peer until there are no more lines, or until a fault.
///
/// Each line is run before its reply is written, and the reply is flushed before the next line is
/// read. The client's open batch and live query stay open between lines and afterwards, so the
/// conversation can continue with another peer.
///
/// After a fault, all earlier replies have been written, and the reply that the fault interrupted
/// may have been written in part. After `Memory`, the line may or may not have been run. `Read` is
/// also returned after 2^64 - 1 lines.
pub fn converse<S: Server, P: Peer>(
    alloc: Global,
    server: &mut S,
    client: &mut Client,
    peer: &mut P,
) -> Result<(), RunFault>
    requires few { length (queued_ops client.old) ≤ 64 }
    ensures talked { OnOk result (spec.TalkedTo P.does (session (S.shows server.old) client.old)
        peer.old
        (session (S.shows server.new) client.new) peer.new) }
    ensures broke { IfErr result (λ e. spec.BrokeOff P.does e
        (session (S.shows server.old) client.old) peer.old peer.new) }
    ensures other { IfErr result IsNotLimits }
    ensures stays { S.kept server.new ≡ S.kept server.old }
    ensures few { length (queued_ops client.new) ≤ 64 }
{
    for _lines in 0..u64::MAX {
        let more = exchange(alloc, server, client, peer)?;
        if !more {
            return Ok(());
        }
    }
    Err(RunFault::Read)
}
