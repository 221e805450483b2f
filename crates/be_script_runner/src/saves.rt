//! Writes a version as a script.
ghost use Rattle.std.specs.Prelude.{◌≡◌, All, IfErr, OnOk, OnErr};
ghost use Rattle.be_script_runner.specs.Imports.{state_dump, state_ops, Appends, CanBeOp};
ghost use Rattle.be_script_runner.specs.Run.{Wrote, IsFrontOf, IsLate};
ghost use Rattle.be_script_runner.specs.Store.{Joins, viewed};

use crate::RunFault;
use crate::runs::put;
use crate::stores::Server;
use std::io::Write;

/// Writes the script that rebuilds the version that reads see: the pinned version, or the version
/// after all writes. It is the text that `bestore dump --state` prints for a journal that leaves
/// this version. The script doesn't include an open batch.
///
/// Returns `Memory` if there isn't enough memory for the script; then nothing was written. Returns
/// `Write` if a write fails or accepts no bytes; then a prefix of the script was written. It
/// doesn't flush.
pub fn save_state<S: Server, W: Write>(server: &mut S, writer: &mut W) -> Result<(), RunFault>
    ensures saved { OnOk result (Appends (W.contents writer.old) (W.contents writer.new)
        (state_dump (viewed (S.shows server.new)))) }
    ensures can { OnOk result (All CanBeOp (state_ops (viewed (S.shows server.new)))) }
    ensures cut { OnErr result (Wrote (W.contents writer.old) (W.contents writer.new)
        (IsFrontOf (state_dump (viewed (S.shows server.new))))) }
    ensures whole { IfErr result (λ e. e ≡ RunFault.Memory → W.contents writer.new
        ≡ W.contents writer.old) }
    ensures late { IfErr result IsLate }
    ensures joins { Joins (S.shows server.old) (S.shows server.new) }
    ensures stays { S.kept server.new ≡ S.kept server.old }
{
    let Ok(text) = server.state_text() else {
        return Err(RunFault::Memory);
    };
    put(writer, text.as_bytes())
}
