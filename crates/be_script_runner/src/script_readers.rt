//! The source of a script's bytes.
ghost use Rattle.std.specs.Prelude.{ℕ, ◌+◌, List};
ghost use Rattle.be_script_runner.specs.Imports.{Option, ReadConsumes, ReadsAtMost};

use std::io;
use std::io::Read;

/// A source of a script's bytes: anything that can be read.
///
/// The ghost `was_read` says how many times the reader was read. A reader needn't define it. Code
/// that works with an arbitrary reader learns the number only from its own reads, so a clause about
/// it says how many reads the code made.
pub trait ScriptReader {
    /// The bytes that further reads will return, if they are known.
    ghost remaining: { Self → Option (List ℕ) };

    /// How many times the reader was read.
    ghost was_read: { Self → ℕ → Type 0 } = { λ _ _. Unit {0} };

    /// Reads once, as `Read` does.
    fn read_once(&mut self, buf: &mut [u8]) -> io::Result<usize>
        ensures bound { ReadsAtMost result buf.new }
        ensures bytes { ReadConsumes (remaining self.old) (remaining self.new) result buf.new }
        ensures counted { (times : ℕ) → was_read self.old times → was_read self.new (times + 1) };
}

impl<R: Read> ScriptReader for R {
    ghost remaining = { R.remaining };

    fn read_once(&mut self, buf: &mut [u8]) -> io::Result<usize> {
        self.read(buf)
    }
}
