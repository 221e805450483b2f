//! Serves a script from a pass of a shared store, line by line.
//!
//! Between two lines, the pass is the only state. So each line has its own fact about what the pass
//! knows after it: calls to the store led there from what the pass knew before, and the reply is
//! about the store that the pass then shows.
ghost use Rattle.std.specs.Prelude.{◌≡◌, ◌≤◌, OnOk, Some, length};
ghost use Rattle.be_script_runner.specs.Imports.{IsPassOf};
ghost use Rattle.be_script_runner.specs.Gates.{AreReported, line_count};
ghost use Rattle.be_script_runner.specs.Lines.{IsAnsweredBy, IsServedBy};
ghost use Rattle.be_script_runner.specs.Run.{Wrote};
ghost use Rattle.be_script_runner.specs.Served.{known};
ghost use Rattle.be_script_runner.specs.View.{session, queued_ops};

use crate::RunFault;
use crate::client::Client;
use crate::gates::Gate;
use crate::runs::{run_line, split_line};
use crate::stores::PassServer;
use be_store::{Pass, Store};
use std::alloc::Global;

/// Runs a line from the pass, and appends its reply. Returns the pass even after an error.
fn serve_line(
    alloc: Global,
    store: &Store,
    pass: Pass,
    client: &mut Client,
    line: &[u8],
    replies: &mut Vec<u8>,
) -> (Pass, Result<(), RunFault>)
    requires pass { IsPassOf store.now pass }
    requires few { length (queued_ops client.old) ≤ 64 }
    ensures pass { IsPassOf store.now result.0 }
    ensures number { result.0.knows.number ≡ pass.knows.number }
    ensures ok { OnOk result.1 (Wrote (Some replies.old.items) (Some replies.new.items)
        (IsAnsweredBy pass.knows (session (known pass.knows) client.old) line.now result.0.knows
        (session (known result.0.knows) client.new))) }
    ensures few { length (queued_ops client.new) ≤ 64 }
{
    let mut server = PassServer::at_first(alloc, store, pass);
    let ran = run_line(alloc, &mut server, client, line, replies);
    (server.at_last(), ran)
}

/// Runs a script's lines from the pass as `run_lines` does, with a call to the gate before and
/// after each line, and appends the replies. Returns the pass even after an error.
pub(crate) fn serve_lines<G: Gate>(
    alloc: Global,
    store: &Store,
    pass: Pass,
    gate: &G,
    script: &[u8],
    replies: &mut Vec<u8>,
) -> (Pass, Result<(), RunFault>)
    requires { IsPassOf store.now pass }
    ensures pass { IsPassOf store.now result.0 }
    ensures number { result.0.knows.number ≡ pass.knows.number }
    ensures served { OnOk result.1 (Wrote (Some replies.old.items) (Some replies.new.items)
        (IsServedBy pass.knows script.now result.0.knows)) }
    ensures reported { OnOk result.1 (AreReported (G.begun gate.now pass.knows.number)
        (G.ended gate.now pass.knows.number) (line_count script.now)) }
{
    let place = pass.number();
    let mut client = Client::new();
    let mut current = pass;
    let mut rest = script;
    let mut number = 1;
    while let Some((line, beyond)) = split_line(rest) {
        gate.before(place, number);
        let (next, ran) = serve_line(alloc, store, current, &mut client, line, replies);
        gate.after(place, number);
        current = next;
        match ran {
            Ok(()) => rest = beyond,
            Err(fault) => return (current, Err(fault)),
        }
        number += 1;
    }
    if rest.is_empty() {
        return (current, Ok(()));
    }
    gate.before(place, number);
    let (last, ran) = serve_line(alloc, store, current, &mut client, rest, replies);
    gate.after(place, number);
    (last, ran)
}
