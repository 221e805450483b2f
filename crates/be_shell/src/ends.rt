//! A peer made of a reader and a writer.
ghost use Rattle.std.specs.Prelude.{◌≡◌, ◌≤◌, ◌<◌, ◌∷◌, ◌++◌, [], IfOk, IfErr, OnOk, vec_len};
ghost use Rattle.be_shell.specs.Bytes.{Hears, TakesByte};
ghost use Rattle.be_shell.specs.Conversation.{IsDeaf, hearing, hears, ends, short_line, long_line};
ghost use Rattle.be_shell.specs.Conversation.{line_heard};

use crate::Line;
use crate::peers::Peer;
use be_script_runner::{RunFault, put};
use std::alloc::Global;
use std::io::{Read, Write};

/// The maximum number of bytes of a line that are kept, not counting its LF.
const MAX_LINE: usize = 1 << 16;

/// Returns the next byte, or `None` at the end.
fn read_byte<R: Read>(reader: &mut R) -> Result<Option<u8>, RunFault>
    ensures byte { IfOk result (λ next. TakesByte (R.remaining reader.old) (R.remaining reader.new)
        next) }
    ensures fault { IfErr result (λ e. e ≡ RunFault.Read) }
{
    let mut one = [0u8; 1];
    match reader.read(&mut one) {
        Ok(0) => Ok(None),
        Ok(_) => Ok(Some(one[0])),
        Err(_) => Err(RunFault::Read),
    }
}

/// Keeps one more byte of a line, up to one more than the maximum length. That last byte shows that
/// the line is too long.
fn keep(line: &mut Vec<u8>, byte: u8) -> Result<(), RunFault>
    ensures more { OnOk result (vec_len line.old ≤ 65536 → line.new.items ≡ line.old.items ++ byte
        ∷ []) }
    ensures full { OnOk result (65536 < vec_len line.old → line.new.items ≡ line.old.items) }
    ensures fault { IfErr result (λ e. e ≡ RunFault.Memory) }
{
    if line.len() > MAX_LINE {
        return Ok(());
    }
    match line.push(byte) {
        Ok(()) => Ok(()),
        Err(_) => Err(RunFault::Memory),
    }
}

/// Returns the line of which these bytes were kept.
fn line_of(kept: Vec<u8>) -> Line
    ensures short { vec_len kept ≤ 65536 → line_heard result ≡ short_line kept.items }
    ensures long { 65536 < vec_len kept → line_heard result ≡ long_line }
{
    if kept.len() > MAX_LINE {
        Line::Long
    } else {
        Line::Short(kept)
    }
}

/// Returns the line after the last LF, of which these bytes were kept. If it is empty, it doesn't
/// count as a line.
fn last_line(kept: Vec<u8>) -> Option<Line>
    ensures none { vec_len kept ≡ 0 → hearing result ≡ ends }
    ensures short { 1 ≤ vec_len kept → vec_len kept ≤ 65536 → hearing result
        ≡ hears (short_line kept.items) }
    ensures long { 65536 < vec_len kept → hearing result ≡ hears long_line }
{
    if kept.is_empty() {
        None
    } else {
        Some(line_of(kept))
    }
}

/// Reads to the next LF, or to the end. Keeps at most 65,537 bytes in memory, however long the line
/// is. `Read` is also returned after 2^64 - 1 bytes without an LF.
fn hear_line<R: Read>(alloc: Global, reader: &mut R) -> Result<Option<Line>, RunFault>
    ensures heard { IfOk result (λ next. Hears (R.remaining reader.old) (R.remaining reader.new)
        (hearing next)) }
    ensures fault { IfErr result IsDeaf }
{
    let mut kept = Vec::new(alloc);
    for _bytes in 0..u64::MAX {
        match read_byte(reader) {
            Ok(None) => return Ok(last_line(kept)),
            Ok(Some(byte)) => {
                if byte == b'\n' {
                    return Ok(Some(line_of(kept)));
                }
                match keep(&mut kept, byte) {
                    Ok(()) => {}
                    Err(_) => return Err(RunFault::Memory),
                }
            }
            Err(_) => return Err(RunFault::Read),
        }
    }
    Err(RunFault::Read)
}

/// A peer that reads lines from a reader, each up to its LF, and writes replies to a writer. It
/// reads one byte at a time, so wrap a file or a pipe in a `BufReader`. It doesn't prompt.
#[derive(Drop)]
pub struct Ends<R, W> {
    reader: R,
    writer: W,
}

impl<R: Read, W: Write> Ends<R, W> {
    /// Creates a peer from this reader and this writer.
    pub fn new(reader: R, writer: W) -> Ends<R, W>
        ensures { (result.reader ≡ reader) × (result.writer ≡ writer) }
    {
        Ends { reader, writer }
    }
}

impl<R: Read, W: Write> Peer for Ends<R, W> {
    ghost use Rattle.be_shell.specs.Bytes.{ends_do};

    ghost does = { ends_do R.remaining W.contents };

    fn hear(&mut self, alloc: Global, _is_batch_open: bool) -> Result<Option<Line>, RunFault> {
        hear_line(alloc, &mut self.reader)
    }

    fn say(&mut self, reply: &[u8]) -> Result<(), RunFault> {
        put(&mut self.writer, reply)
    }

    fn flush(&mut self) -> Result<(), RunFault> {
        match self.writer.flush() {
            Ok(()) => Ok(()),
            Err(_) => Err(RunFault::Write),
        }
    }
}
