//! The trait for the partner of the shell in a conversation.
ghost use Rattle.std.specs.Prelude.{◌≡◌, ℕ, List, IfOk, IfErr, OnOk, OnErr};
ghost use Rattle.be_script_runner.specs.Run.{IsFrontOf};
ghost use Rattle.be_shell.specs.Conversation.{Event, IsDeaf, hearing, says, flushes, fails};

use crate::Line;
use be_script_runner::RunFault;
use std::alloc::Global;

/// The partner of the shell in a conversation. `hear` reads a line from the peer, and `say` writes
/// a reply to it.
pub trait Peer {
    /// How an event changes the peer. Only events change the peer's state, so a chain of them gives
    /// the order in which everything was read and written.
    ghost does: { Self → Event → Self → Type 0 };

    /// Waits for the next line, and returns `None` if there are no more. If the line can't be read,
    /// the error is `Read` or `Memory`, and part of the line may be lost. The flag says whether a
    /// batch is open, for peers that prompt.
    fn hear(&mut self, alloc: Global, is_batch_open: bool) -> Result<Option<Line>, RunFault>
        ensures heard { IfOk result (λ next. does self.old (hearing next) self.new) }
        ensures deaf { OnErr result (does self.old fails self.new) }
        ensures fault { IfErr result IsDeaf };

    /// Returns whether the last line that was read asks to save the store.
    fn wants_state(&self) -> bool {
        false
    }

    /// Takes the script that rebuilds the store's state, or `None` if there was no memory for it.
    /// This is not an event: any event that could lead to the old state of the peer could also lead
    /// to its new state.
    fn take_state(&mut self, _script: Option<&str>)
        ensures stays { (event : Event) (before : Self) → does before event self.old
            → does before event self.new }
    {}

    /// Writes a whole reply. If that fails, the error is `Write`, and the reply has been written in
    /// part.
    fn say(&mut self, reply: &[u8]) -> Result<(), RunFault>
        ensures said { OnOk result (does self.old (says reply.now) self.new) }
        ensures cut { OnErr result ((front : List ℕ) × IsFrontOf reply.now front
            × does self.old (says front) self.new) }
        ensures fault { IfErr result (λ e. e ≡ RunFault.Write) };

    /// Flushes what was written. If that fails, the error is `Write`.
    fn flush(&mut self) -> Result<(), RunFault>
        ensures sent { OnOk result (does self.old flushes self.new) }
        ensures unsent { OnErr result (does self.old fails self.new) }
        ensures fault { IfErr result (λ e. e ≡ RunFault.Write) };
}
