//! The shell, which holds conversations about a store of its own.
ghost use Rattle.std.specs.Prelude.{◌≡◌, ◌↔◌, IfErr, OnOk, Err};
ghost use Rattle.be_script_runner.specs.Output.{Session, opening};
ghost use Rattle.be_script_runner.specs.Store.{start};
ghost use Rattle.be_shell.specs.Conversation as spec;
ghost use Rattle.be_table.specs.Rule.{AreBad};
ghost use Rattle.be_table.specs.Versions.{CanEncodeEach};
ghost use Rattle.be_volume.specs.Volume.{empty};

use crate::conversations::converse;
use crate::peers::Peer;
use be_script_runner::{Client, Limits, PassServer, RunFault, open_for_one};
use std::alloc::Global;

/// Opens an empty store with the pages and commits of the limits and with one pass. Talks with the
/// first peer, such as a file, until it has no more lines, and then with the second.
///
/// The limits are checked first. The store is then opened before anything is read. The second
/// conversation continues the session of the first, with its store, its pin, any open batch and the
/// live query. A fault ends both conversations.
pub fn shell<F: Peer, P: Peer>(
    alloc: Global,
    first: &mut F,
    peer: &mut P,
    limits: Limits,
) -> Result<(), RunFault>
    ensures talked { OnOk result ((mid : Session) × (last : Session)
        × spec.TalkedTo F.does (opening (start limits.commits)) first.old mid first.new
        × spec.TalkedTo P.does mid peer.old last peer.new
        × CanEncodeEach limits.pages empty last.store.journal) }
    ensures fault { IfErr result (λ e. spec.ShellLeaves F.does P.does e
        (opening (start limits.commits)) first.old first.new peer.old peer.new) }
    ensures limits { (result ≡ Err RunFault.Limits) ↔ AreBad limits }
{
    if !limits.are_within() {
        return Err(RunFault::Limits);
    }
    let Ok((store, pass)) = open_for_one(alloc, limits) else {
        return Err(RunFault::Memory);
    };
    let mut server = PassServer::new(alloc, &store, pass);
    let mut client = Client::new();
    converse(alloc, &mut server, &mut client, first)?;
    converse(alloc, &mut server, &mut client, peer)?;
    let pass = server.into_pass();
    pass.is_pass();
    Ok(())
}
