//! A reader in which Ctrl-C ends a line.
ghost use Rattle.std.specs.Prelude.{◌≡◌, option_map, IfOk, OnErr};
ghost use Rattle.std.specs.Io.KnownBytes.{Keeps};
ghost use Rattle.be_shell.specs.Break.{breaks_left, broken};
ghost use Rattle.be_shell.specs.Bytes.{TakesByte};

use std::io::{self, Read};

/// The byte that Ctrl-C types if a terminal returns it as a character.
const CANCEL: u8 = 3;

/// Returns the next byte, or `None` at the end.
fn next_byte<R: Read>(reader: &mut R) -> io::Result<Option<u8>>
    ensures byte { IfOk result (λ next. TakesByte (R.remaining reader.old) (R.remaining reader.new)
        next) }
    ensures err { OnErr result (Keeps (R.remaining reader.old) (R.remaining reader.new)) }
{
    let mut one = [0u8; 1];
    match reader.read(&mut one) {
        Ok(0) => Ok(None),
        Ok(_) => Ok(Some(one[0])),
        Err(error) => Err(error),
    }
}

/// A reader that adds an LF after each byte 3 of the underlying reader. The byte that Ctrl-C types
/// therefore ends a line, and is the last byte of that line. Reads one byte at a time.
#[derive(Drop)]
pub struct Breaking<R> {
    reader: R,
    owes_lf: bool,
}

impl<R: Read> Breaking<R> {
    /// Wraps a reader from which nothing has been read yet.
    pub fn new(reader: R) -> Breaking<R>
        ensures { breaks_left R.remaining result ≡ option_map broken (R.remaining reader) }
    {
        Breaking {
            reader,
            owes_lf: false,
        }
    }
}

impl<R: Read> Read for Breaking<R> {
    ghost remaining = { breaks_left R.remaining };

    /// Reads at most one byte, which is an LF after a byte 3, and otherwise the next byte of the
    /// underlying reader. The errors are those of that reader.
    fn read(&mut self, buf: &mut [u8]) -> io::Result<usize> {
        if buf.len() == 0 {
            return Ok(0);
        }
        if self.owes_lf {
            self.owes_lf = false;
            buf[0] = b'\n';
            return Ok(1);
        }
        let Some(byte) = next_byte(&mut self.reader)? else {
            return Ok(0);
        };
        self.owes_lf = byte == CANCEL;
        buf[0] = byte;
        Ok(1)
    }
}
