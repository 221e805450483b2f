//! Conversations about a store that return its journal at the end.
ghost use Rattle.std.specs.Prelude.{◌≡◌, ◌≤◌, ◌↔◌, IfErr, IfSome, OnOk, Err, length};
ghost use Rattle.be_journal.specs.Journal.{IsLegal};
ghost use Rattle.be_script_runner.specs.Output.{Session, opening};
ghost use Rattle.be_script_runner.specs.Run.{IsNotLimits};
ghost use Rattle.be_script_runner.specs.Store.{start};
ghost use Rattle.be_script_runner.specs.View.{session, queued_ops};
ghost use Rattle.be_shell.specs.Conversation as spec;
ghost use Rattle.be_table.specs.Rule.{AreBad};
ghost use Rattle.be_table.specs.Versions.{CanEncodeEach};
ghost use Rattle.be_volume.specs.Volume.{empty};

use crate::conversations::converse;
use crate::peers::Peer;
use be_script_runner::{
    Client, Journal, Limits, PassServer, RunFault, Server, close_alone, open_for_one,
};
use std::alloc::Global;

/// Talks with the first peer until it has no more lines, and then with the second. A fault ends
/// both conversations.
fn converse_with_both<S: Server, F: Peer, P: Peer>(
    alloc: Global,
    server: &mut S,
    client: &mut Client,
    first: &mut F,
    peer: &mut P,
) -> Result<(), RunFault>
    requires few { length (queued_ops client.old) ≤ 64 }
    ensures talked { OnOk result ((mid : Session)
        × spec.TalkedTo F.does (session (S.shows server.old) client.old) first.old mid first.new
        × spec.TalkedTo P.does mid peer.old (session (S.shows server.new) client.new) peer.new) }
    ensures fault { IfErr result (λ e.
        spec.ShellLeaves F.does P.does e (session (S.shows server.old) client.old) first.old
        first.new peer.old peer.new) }
    ensures other { IfErr result IsNotLimits }
    ensures stays { S.kept server.new ≡ S.kept server.old }
{
    converse(alloc, server, client, first)?;
    converse(alloc, server, client, peer)
}

/// Does what [`crate::shell`] does, but also returns the store's journal. If a fault ends the
/// conversations, the journal has what was accepted before that. The journal is `None` if no store
/// was opened, or if there was no memory to close it.
pub fn shell_and_close<F: Peer, P: Peer>(
    alloc: Global,
    first: &mut F,
    peer: &mut P,
    limits: Limits,
) -> (Result<(), RunFault>, Option<Journal>)
    ensures talked { OnOk result.0 ((mid : Session) × (last : Session)
        × spec.TalkedTo F.does (opening (start limits.commits)) first.old mid first.new
        × spec.TalkedTo P.does mid peer.old last peer.new
        × IfSome result.1 (λ journal. journal.entries ≡ last.store.journal)) }
    ensures legal { IfSome result.1 (λ journal. IsLegal journal.entries) }
    ensures volumes { IfSome result.1 (λ journal.
        CanEncodeEach limits.pages empty journal.entries) }
    ensures fault { IfErr result.0 (λ e. spec.ShellLeaves F.does P.does e
        (opening (start limits.commits)) first.old first.new peer.old peer.new) }
    ensures limits { (result.0 ≡ Err RunFault.Limits) ↔ AreBad limits }
{
    if !limits.are_within() {
        return (Err(RunFault::Limits), None);
    }
    let Ok((store, pass)) = open_for_one(alloc, limits) else {
        return (Err(RunFault::Memory), None);
    };
    let mut server = PassServer::new(alloc, &store, pass);
    let mut client = Client::new();
    let talked = converse_with_both(alloc, &mut server, &mut client, first, peer);
    let pass = server.into_pass();
    match close_alone(alloc, store, pass) {
        Ok(journal) => (talked, Some(journal)),
        Err(_) => (talked, None),
    }
}
