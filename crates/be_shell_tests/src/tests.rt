//! Conversations with a peer that checks the order of calls and fails at each of them in turn, and
//! with a reader and a writer.
ghost use Rattle.std.specs.Prelude.{⊤};

use be_script_runner::{Limits, RunFault};
use be_shell::{Breaking, Ends, Line, Peer, Screen, shell};
use be_test_tools::longest_list;
use std::alloc::{AllocError, Global};
use std::io::{self, Write};
use std::test::Fail;

const LIMITS: Limits = Limits {
    pages: 128,
    passes: 1,
    commits: 1_000_000,
};

/// The number of rows.
const ROWS: usize = 8;

/// A line and its reply. The batch stays open between rows.
fn row(place: usize) -> Option<(&'static str, &'static str)> {
    match place {
        0 => Some(("new", "node 1\n")),
        1 => Some(("# a comment", "")),
        2 => Some(("begin", "ok\n")),
        3 => Some(("set 1 k LONG 5\r", "queued\n")),
        4 => Some(("sett", "bad line\n")),
        5 => Some(("commit", "commit 2\nok\n")),
        6 => Some(("get 1 k", "LONG 5\n")),
        7 => Some(("", "")),
        _ => None,
    }
}

/// The call that a peer expects next.
#[derive(Clone, Copy, PartialEq, Eq)]
enum Awaits {
    Hear,
    Say,
    Flush,
}

/// A peer that returns the rows' lines, and checks that calls come in order and that each reply is
/// the row's. It fails at one call, if the conversation has that many calls.
#[derive(Drop)]
struct Strict {
    row: usize,
    awaits: Awaits,
    is_in_order: bool,
    calls_left: usize,
}

impl Strict {
    fn new(calls_left: usize) -> Strict {
        Strict {
            row: 0,
            awaits: Awaits::Hear,
            is_in_order: true,
            calls_left,
        }
    }

    /// Counts a call, and returns whether it is the one that fails.
    fn fails_at(&mut self, call: Awaits) -> bool {
        if self.awaits != call {
            self.is_in_order = false;
        }
        if self.calls_left == 0 {
            return true;
        }
        self.calls_left -= 1;
        false
    }
}

fn line_of(alloc: Global, text: &str) -> Result<Line, AllocError> {
    let mut bytes = Vec::new(alloc);
    bytes.extend_from_slice(text.as_bytes())?;
    Ok(Line::Short(bytes))
}

impl Peer for Strict {
    ghost does = { λ _ _ _. ⊤ };

    /// Returns the next row's line, or `None` after the last row. Returns `Read` if this call is
    /// the one that fails, or if it is out of order.
    fn hear(&mut self, alloc: Global, _is_batch_open: bool) -> Result<Option<Line>, RunFault> {
        if self.fails_at(Awaits::Hear) {
            return Err(RunFault::Read);
        }
        let Some((text, _)) = row(self.row) else {
            return Ok(None);
        };
        match line_of(alloc, text) {
            Ok(line) => {
                self.awaits = Awaits::Say;
                Ok(Some(line))
            }
            Err(_) => Err(RunFault::Memory),
        }
    }

    fn say(&mut self, reply: &[u8]) -> Result<(), RunFault> {
        if self.fails_at(Awaits::Say) {
            return Err(RunFault::Write);
        }
        match row(self.row) {
            Some((_, expected)) if expected.as_bytes() == reply => {}
            _ => self.is_in_order = false,
        }
        self.awaits = Awaits::Flush;
        Ok(())
    }

    fn flush(&mut self) -> Result<(), RunFault> {
        if self.fails_at(Awaits::Flush) {
            return Err(RunFault::Write);
        }
        self.row = self.row.saturating_add(1);
        self.awaits = Awaits::Hear;
        Ok(())
    }
}

/// A conversation with only this peer.
fn talk(alloc: Global, peer: &mut Strict) -> Result<(), RunFault> {
    let mut written: Vec<u8> = Vec::new(alloc);
    let mut nothing = Ends::new(b"".as_slice(), &mut written);
    shell(alloc, &mut nothing, peer, LIMITS)
}

/// The number of calls in a whole conversation: three for each line, and one that reaches the end.
const CALLS: usize = 3 * ROWS + 1;

/// Whether a conversation that fails at this call ends there with the call's error, after all
/// earlier calls came in order. If no call fails, whether the conversation reaches its end.
fn ends_at(alloc: Global, call: usize) -> bool {
    let mut peer = Strict::new(call);
    let ended = talk(alloc, &mut peer);
    let is_right = match ended {
        Ok(()) => call == CALLS,
        Err(RunFault::Read) => call < CALLS && call % 3 == 0,
        Err(RunFault::Write) => call < CALLS && call % 3 != 0,
        Err(_) => false,
    };
    is_right && peer.is_in_order && peer.calls_left == 0 && peer.row == call / 3
}

/// A peer that fails at each of its calls in turn, and a peer that never fails.
#[test]
fn failing_peer(rt: HostRuntime) -> Result<(), Fail> {
    for call in 0..CALLS + 1 {
        if !ends_at(rt.alloc(), call) && !ends_at(rt.alloc(), call) {
            return Err(Fail::new(call));
        }
    }
    Ok(())
}

/// What a shell says in reply to the bytes of a reader, after those of a first reader.
fn said_to(alloc: Global, first: &[u8], bytes: &[u8]) -> Result<Vec<u8>, RunFault> {
    let mut early: Vec<u8> = Vec::new(alloc);
    let mut late: Vec<u8> = Vec::new(alloc);
    shell(
        alloc,
        &mut Ends::new(first, &mut early),
        &mut Ends::new(bytes, &mut late),
        LIMITS,
    )?;
    match early.extend_from_slice(&late) {
        Ok(()) => Ok(early),
        Err(_) => Err(RunFault::Memory),
    }
}

/// Fails unless a shell says this. If memory ran out, the conversation is repeated.
fn check(alloc: Global, first: &[u8], bytes: &[u8], replies: &str) -> Result<(), Fail> {
    for _ in 0..2 {
        if let Ok(said) = said_to(alloc, first, bytes) {
            if said.as_slice() == replies.as_bytes() {
                return Ok(());
            }
        }
    }
    Err(Fail::new(replies))
}

/// The end of the last line, a CR, and a byte that isn't valid UTF-8.
#[test]
fn ends_of_lines(rt: HostRuntime) -> Result<(), Fail> {
    let alloc = rt.alloc();
    check(alloc, b"", b"", "")?;
    check(alloc, b"", b"\n\n", "")?;
    check(alloc, b"", b"new\nnew", "node 1\nnode 2\n")?;
    check(alloc, b"", b"new\r\nnew\r", "node 1\nnode 2\n")?;
    check(alloc, b"", b"new\xff\nnew\n", "bad line\nnode 1\n")
}

/// The end of the first peer's last line, and a batch that continues from the first peer to the
/// second.
#[test]
fn two_peers(rt: HostRuntime) -> Result<(), Fail> {
    let alloc = rt.alloc();
    check(alloc, b"new", b"new", "node 1\nnode 2\n")?;
    let replies = "ok\nqueued\ncommit 1\nnode 1\n";
    check(alloc, b"begin\nnew\n", b"commit\n", replies)
}

/// What a screen shows in reply to the bytes of a reader for which Ctrl-C ends a line.
fn shown_to(alloc: Global, bytes: &[u8]) -> Result<Vec<u8>, RunFault> {
    let mut early: Vec<u8> = Vec::new(alloc);
    let mut late: Vec<u8> = Vec::new(alloc);
    let mut nothing = Ends::new(b"".as_slice(), &mut early);
    let mut screen = Screen::new(Ends::new(Breaking::new(bytes), &mut late));
    shell(alloc, &mut nothing, &mut screen, LIMITS)?;
    Ok(late)
}

/// Fails unless the screen shows this. If memory ran out, the conversation is repeated.
fn check_shown(alloc: Global, bytes: &[u8], replies: &str) -> Result<(), Fail> {
    for _ in 0..2 {
        if let Ok(shown) = shown_to(alloc, bytes) {
            if shown.as_slice() == replies.as_bytes() {
                return Ok(());
            }
        }
    }
    Err(Fail::new(replies))
}

/// Control characters of one byte and of two bytes, and other characters that begin with the same
/// byte.
#[test]
fn controls(rt: HostRuntime) -> Result<(), Fail> {
    check_shown(
        rt.alloc(),
        b"new\nset 1 k CSTR \x1b\x07\x01\x7f\xc2\x80\xc2\x9f\xc2\xa0\xc3\x9b\nget 1 k\n",
        "node 1\nok\nCSTR \"\\x1b\\x07\\x01\\x7f\\x80\\x9f\u{a0}\u{db}\"\n",
    )
}

/// The byte of Ctrl-C ends a line, and is part of it.
#[test]
fn cancelled_lines(rt: HostRuntime) -> Result<(), Fail> {
    check_shown(
        rt.alloc(),
        b"new\x03new\n\x03\x03new\x03",
        "bad line\nnode 1\nbad line\nbad line\nbad line\n",
    )
}

/// A comment of `len` bytes, followed by a line that has a reply.
fn commented(alloc: Global, len: usize) -> Result<Vec<u8>, AllocError> {
    let mut bytes: Vec<u8> = vec![in alloc; b'#'; len]?;
    bytes.extend_from_slice(b"\nnew\n")?;
    Ok(bytes)
}

/// A reply is said in one piece, however long it is.
#[test]
fn longest_replies(rt: HostRuntime) -> Result<(), Fail> {
    let (script, replies) = longest_list(rt.alloc())?;
    check(rt.alloc(), b"", script.as_bytes(), &replies)
}

/// Fails unless a shell says this in reply to a comment of this many bytes that is followed by a
/// line with a reply.
fn check_comment(alloc: Global, len: usize, replies: &str) -> Result<(), Fail> {
    let bytes = match commented(alloc, len) {
        Ok(bytes) => bytes,
        Err(_) => commented(alloc, len)?,
    };
    check(alloc, b"", &bytes, replies)
}

/// A line of the maximum length, and longer lines.
#[test]
fn long_lines(rt: HostRuntime) -> Result<(), Fail> {
    check_comment(rt.alloc(), 65_536, "node 1\n")?;
    check_comment(rt.alloc(), 65_537, "bad line\nnode 1\n")?;
    check_comment(rt.alloc(), 1_100_000, "bad line\nnode 1\n")
}

/// A writer that holds bytes until a flush sends them, and fails at each flush after the first few.
#[derive(Drop)]
struct Sending {
    held: u64,
    flushes: u64,
    flushes_left: u64,
}

impl Write for Sending {
    fn write(&mut self, buf: &[u8]) -> io::Result<usize> {
        self.held = self.held.saturating_add(buf.len() as u64);
        Ok(buf.len())
    }

    fn flush(&mut self) -> io::Result<()> {
        if self.flushes_left == 0 {
            return Err(io::Error::from(io::ErrorKind::Other));
        }
        self.held = 0;
        self.flushes = self.flushes.saturating_add(1);
        self.flushes_left -= 1;
        Ok(())
    }
}

/// Whether a conversation of three lines ends with `Write` after `most` replies if the writer sends
/// only that many, and succeeds if the writer sends all of them.
fn sends(alloc: Global, most: u64) -> bool {
    let mut early: Vec<u8> = Vec::new(alloc);
    let mut late = Sending {
        held: 0,
        flushes: 0,
        flushes_left: most,
    };
    let ended = shell(
        alloc,
        &mut Ends::new(b"".as_slice(), &mut early),
        &mut Ends::new(b"new\nbad\nnew\n".as_slice(), &mut late),
        LIMITS,
    );
    match ended {
        Ok(()) => most >= 3 && late.flushes == 3 && late.held == 0,
        Err(RunFault::Write) => most < 3 && late.flushes == most && late.held > 0,
        Err(_) => false,
    }
}

/// A writer that fails at each flush.
#[test]
fn failing_flush(rt: HostRuntime) -> Result<(), Fail> {
    for most in 0..5u64 {
        if !sends(rt.alloc(), most) && !sends(rt.alloc(), most) {
            return Err(Fail::new(most));
        }
    }
    Ok(())
}
