//! Readers and writers that fail, and requests for memory that are refused.
use super::{By, LIMITS, check_bytes, run_by};
use be_script_runner::{RunFault, run};
use be_test_tools::{Narrow, list_with_room};
use std::alloc::Global;
use std::io::Read;
use std::test::Fail;
use std::{io, str};

/// A script with every command.
const SCRIPT: &str =
    "new\nset 1 k LONG 5\nmkindex k LONG\nset 1 k LONG 6\nquery k==6\npage by k limit 1 \
     k==6\nexplain k==6\nget 1 k\nattrs 1\nindices\npin\nlive k>4\n\
    begin\nset 1 \"n\" CSTR \"x\"\nunset 1 \
     k\ncommit\nrefresh\nunpin\nrefresh\nbegin\nabort\nrmindex k\ndrop 1\nsett\n";

/// The script's replies.
const REPLIES: &str = "node 1\nok\nok\nok\nnodes 1\nnodes 1\nend after LONG 6 \
     1\n\"k\"==\"6\" score 1\nLONG 6\nattrs 1\n\"k\" LONG 6\nindices \
     1\n\"k\" LONG\npin 4\nok\n\
    ok\nqueued\nqueued\ncommit 5\nok\nok\ncreated 1\nremoved\nok\ncreated\nremoved \
     1\nok\nok\nok\nok\nbad line\n";

/// An error of one of four kinds.
fn some_error(number: usize) -> io::Error {
    io::Error::from(match number % 4 {
        0 => io::ErrorKind::OutOfMemory,
        1 => io::ErrorKind::Interrupted,
        2 => io::ErrorKind::UnexpectedEof,
        _ => io::ErrorKind::Other,
    })
}

/// Returns its bytes one at a time, then fails if `fails`, and counts its reads.
#[derive(Drop)]
struct Dripping<'a> {
    bytes: &'a [u8],
    fails: bool,
    reads: usize,
}

impl Read for Dripping<'_> {
    /// Counts the read, and returns the next byte. After the last byte it returns the end, or an
    /// error if `fails`.
    fn read(&mut self, buf: &mut [u8]) -> io::Result<usize> {
        self.reads = self.reads.saturating_add(1);
        let Some((byte, rest)) = self.bytes.split_first() else {
            if self.fails {
                return Err(some_error(self.reads));
            }
            return Ok(0);
        };
        if buf.is_empty() {
            return Ok(0);
        }
        buf[0] = *byte;
        self.bytes = rest;
        Ok(1)
    }
}

/// The word for how a run ended.
pub fn end_of(ran: Result<(), RunFault>) -> &'static str {
    match ran {
        Ok(()) => "well",
        Err(RunFault::Limits) => "limits",
        Err(RunFault::Read) => "read",
        Err(RunFault::TooLong) => "too long",
        Err(RunFault::Write) => "write",
        Err(RunFault::Memory) => "memory",
    }
}

/// How a run ended, how many bytes it wrote, and how many reads it made.
#[derive(Clone, Copy)]
pub struct Outcome {
    pub end: &'static str,
    pub written: usize,
    pub reads: usize,
}

/// Runs once a script that comes byte by byte.
fn drip(alloc: Global, bytes: &[u8], fails: bool) -> Outcome {
    let mut reader = Dripping {
        bytes,
        fails,
        reads: 0,
    };
    let mut written: Vec<u8> = Vec::new(alloc);
    let end = end_of(run(alloc, &mut reader, &mut written, LIMITS));
    Outcome {
        end,
        written: written.len(),
        reads: reader.reads,
    }
}

/// Runs a script that comes byte by byte. If memory ran out, it runs it again.
pub fn dripped(alloc: Global, bytes: &[u8], fails: bool) -> Outcome {
    let outcome = drip(alloc, bytes, fails);
    if outcome.end == "memory" {
        return drip(alloc, bytes, fails);
    }
    outcome
}

/// Whether a run whose reader fails after these bytes ends with `Read` and writes nothing.
fn fails_after(alloc: Global, bytes: &[u8]) -> bool {
    let outcome = dripped(alloc, bytes, true);
    outcome.end == "read" && outcome.written == 0
}

/// If the reader fails at any place, or at the end, by errors of four kinds, nothing is written.
#[test]
fn failing_reader(rt: HostRuntime) -> Result<(), Fail> {
    let script = SCRIPT.as_bytes();
    for len in 0..script.len() + 1 {
        if !fails_after(rt.alloc(), &script[..len]) {
            return Err(Fail::new(len));
        }
    }
    Ok(())
}

/// Whether a run writes as many bytes of the replies as there is room for, and then ends with
/// `Write`. It has to succeed if there is room for all.
fn fills(alloc: Global, room: usize, fails: bool) -> bool {
    let mut writer = Narrow::new(REPLIES.as_bytes(), room, fails);
    let end = end_of(run(alloc, &mut SCRIPT.as_bytes(), &mut writer, LIMITS));
    writer.may_end(end == "well", end == "write")
}

/// The same for a writer that fails and for one that takes nothing. If memory may have run out in
/// the first run, the second run decides.
fn fills_by_each(alloc: Global, room: usize) -> bool {
    (fills(alloc, room, true) || fills(alloc, room, true))
        && (fills(alloc, room, false) || fills(alloc, room, false))
}

/// If the writer fails or takes nothing at any place, a front of the replies is written.
#[test]
fn failing_writer(rt: HostRuntime) -> Result<(), Fail> {
    for room in 0..=REPLIES.len() {
        if !fills_by_each(rt.alloc(), room) {
            return Err(Fail::new(room));
        }
    }
    Ok(())
}

/// What is written if memory never runs out.
const OUTPUT: &str = "node 1\nok\nok\nnodes\n";

/// What may be written if memory runs out in a line, without the last LF and with a blank line
/// between the cases. That line is refused, and later lines see a store without it.
const OUTPUTS: &str = "refused 10 OutOfMemory\nrefused 2 NoNode\nok\nnodes\n
node 1\nrefused 10 OutOfMemory\nok\nnodes\n
node 1\nok\nrefused 10 OutOfMemory\nrefused 17 NotCovered\n
node 1\nok\nok\nrefused 10 OutOfMemory";

/// Whether a run that ended like this may have written this text.
fn may_write(end: &str, written: &str) -> bool {
    match end {
        "well" => written == OUTPUT || is_among(written, OUTPUTS),
        "memory" => OUTPUT.starts_with(written),
        _ => false,
    }
}

/// Whether a text is one of these followed by an LF.
fn is_among(text: &str, texts: &str) -> bool {
    let text = text.strip_suffix("\n").unwrap_or("none");
    for other in texts.split("\n\n") {
        if other == text {
            return true;
        }
    }
    false
}

/// If a request for memory is refused, the line's reply says so, or the run ends with `Memory` and
/// a front is written.
#[test]
fn refused_memory(rt: HostRuntime) -> Result<(), Fail> {
    let alloc = rt.alloc();
    let mut written = list_with_room(alloc)?;
    let script = b"new\nset 1 size LONG 5\nmkindex size LONG\nquery size==5\n";
    let result = run_by(By::SharedStore, alloc, script, &mut written, LIMITS.commits);
    assert!(rt; may_write(end_of(result), str::from_utf8(&written)?));
    Ok(())
}

/// Every command, with each request for memory refused in turn by the sweep.
#[test]
fn every_command(rt: HostRuntime) -> Result<(), Fail> {
    check_bytes(rt.alloc(), SCRIPT.as_bytes(), REPLIES, LIMITS.commits)
}
