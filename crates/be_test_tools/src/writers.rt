//! Destinations that tests write to: a writer that fails, and a list with spare capacity.
use std::alloc::{AllocError, Global};
use std::io::{self, Write};

/// A writer that accepts one byte per write while it has room, and then fails or accepts nothing.
/// It needs no memory, because it only compares each byte with the expected one.
#[derive(Drop)]
pub struct Narrow<'a> {
    expected: &'a [u8],
    room: usize,
    fails: bool,
    is_as_expected: bool,
}

impl Narrow<'_> {
    /// A writer that expects these bytes and accepts `room` of them. After that, it fails or
    /// accepts nothing.
    pub fn new(expected: &[u8], room: usize, fails: bool) -> Narrow<'_> {
        Narrow {
            expected,
            room,
            fails,
            is_as_expected: true,
        }
    }

    /// Whether writing may end like this: successfully once everything expected has been written,
    /// or with a failed write once a prefix of it has filled the room.
    pub fn may_end(&self, well: bool, by_write: bool) -> bool {
        let has_all = self.expected.is_empty();
        let is_so = if has_all {
            well
        } else {
            by_write && self.room == 0
        };
        self.is_as_expected && is_so
    }
}

impl Write for Narrow<'_> {
    /// Accepts the first byte, if there is room, and compares it with the expected byte. Without
    /// room, it returns an error or 0.
    fn write(&mut self, buf: &[u8]) -> io::Result<usize> {
        let Some(byte) = buf.first() else {
            return Ok(0);
        };
        if self.room == 0 {
            if self.fails {
                return Err(io::Error::from(io::ErrorKind::Other));
            }
            return Ok(0);
        }
        self.room -= 1;
        match self.expected.split_first() {
            Some((expected, rest)) if *expected == *byte => self.expected = rest,
            _ => self.is_as_expected = false,
        }
        Ok(1)
    }

    fn flush(&mut self) -> io::Result<()> {
        Ok(())
    }
}

/// Whether this may have been written: one of the two strings, or a prefix of one of them if memory
/// ran out.
pub fn may_write(written: &str, well: bool, by_memory: bool, texts: [&str; 2]) -> bool {
    let [one, other] = texts;
    (well && (written == one || written == other))
        || (by_memory && (one.starts_with(written) || other.starts_with(written)))
}

/// An empty list with capacity for 256 bytes, to which a test can write without requesting memory.
/// If memory runs out, it is created again.
pub fn list_with_room(alloc: Global) -> Result<Vec<u8>, AllocError> {
    match Vec::with_capacity(alloc, 256) {
        Ok(list) => Ok(list),
        Err(_) => Vec::with_capacity(alloc, 256),
    }
}
