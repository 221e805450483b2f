//! A peer that shows control characters as codes.
ghost use Rattle.std.specs.Prelude.{◌≡◌, ◌<◌, ◌≤◌, ◌++◌, ℕ, List, length, IfOk, IfErr, OnOk, OnErr};
ghost use Rattle.std.specs.Prelude.{false};
ghost use Rattle.be_script_runner.specs.Run.{IsFrontOf};
ghost use Rattle.be_shell.specs.Conversation.{says};
ghost use Rattle.be_shell.specs.Escape.{shown};
ghost use Rattle.be_shell.specs.Screen.{SaysAll};

use crate::Line;
use crate::escapes::{control_at, mark, plain_len};
use crate::peers::Peer;
use be_script_runner::RunFault;
use std::alloc::Global;

/// Writes the first part of a text as it is shown, and returns the rest.
fn say_front<'a, P: Peer>(peer: &mut P, bytes: &'a [u8]) -> Result<&'a [u8], RunFault>
    requires some { 1 ≤ length bytes.now }
    ensures said { IfOk result (λ rest. (piece : List ℕ) × P.does peer.old (says piece) peer.new
        × (shown bytes.now ≡ piece ++ shown rest.now)) }
    ensures shorter { IfOk result (λ rest. length rest.now < length bytes.now) }
    ensures cut { OnErr result ((front : List ℕ) × IsFrontOf (shown bytes.now) front
        × P.does peer.old (says front) peer.new) }
    ensures fault { IfErr result (λ e. e ≡ RunFault.Write) }
{
    if let Some((code, rest)) = control_at(bytes) {
        peer.say(mark(code).as_slice())?;
        return Ok(rest);
    }
    let (plain, rest) = bytes.split_at(plain_len(bytes));
    peer.say(plain)?;
    Ok(rest)
}

/// Writes a whole text as it is shown.
fn say_shown<P: Peer>(peer: &mut P, bytes: &[u8]) -> Result<(), RunFault>
    ensures said { OnOk result (SaysAll P.does peer.old (shown bytes.now) peer.new) }
    ensures cut { OnErr result ((front : List ℕ) × IsFrontOf (shown bytes.now) front
        × SaysAll P.does peer.old front peer.new) }
    ensures fault { IfErr result (λ e. e ≡ RunFault.Write) }
{
    let mut rest = bytes;
    while rest.len() > 0 {
        match say_front(peer, rest) {
            Ok(next) => rest = next,
            Err(fault) => return Err(fault),
        }
    }
    Ok(())
}

/// A peer that writes replies with each control character except LF as `\x` and the two hexadecimal
/// digits of its code. The terminal then shows these characters, and no value can control it. No
/// memory is allocated. After a failed write, the text may have been written only in part.
#[derive(Drop)]
pub struct Screen<P> {
    peer: P,
    is_torn: bool,
}

impl<P: Peer> Screen<P> {
    /// Wraps a peer to which no write has failed yet.
    pub fn new(peer: P) -> Screen<P>
        ensures { (result.peer ≡ peer) × (result.is_torn ≡ false) }
    {
        Screen {
            peer,
            is_torn: false,
        }
    }
}

impl<P: Peer> Peer for Screen<P> {
    ghost use Rattle.be_shell.specs.Screen.{shows};

    ghost does = { λ old event new. shows P.does old.peer old.is_torn event new.peer new.is_torn };

    fn hear(&mut self, alloc: Global, is_batch_open: bool) -> Result<Option<Line>, RunFault> {
        self.peer.hear(alloc, is_batch_open)
    }

    fn say(&mut self, reply: &[u8]) -> Result<(), RunFault> {
        match say_shown(&mut self.peer, reply) {
            Ok(()) => Ok(()),
            Err(fault) => {
                self.is_torn = true;
                Err(fault)
            }
        }
    }

    fn flush(&mut self) -> Result<(), RunFault> {
        self.peer.flush()
    }
}
