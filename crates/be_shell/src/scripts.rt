//! The lines of a file that `read` names.
use crate::Line;
use std::alloc::{AllocError, Global};
use std::io::{self, Eprint, Read};
use std::rt::Files;
use std::{fs, str};

/// The maximum number of bytes of a line that are kept.
const MAX_LINE: usize = 1 << 16;

/// A file that was read completely, with the position of its next line.
#[derive(Drop)]
pub(crate) struct Script {
    name: String,
    text: Vec<u8>,
    next: usize,
    /// How many lines have been taken.
    number: u64,
}

impl Script {
    /// Takes the next line, without its LF. Whatever follows the last LF counts as a line only if
    /// it isn't empty.
    fn take_line(&mut self) -> Option<&[u8]> {
        if self.next >= self.text.len() {
            return None;
        }
        let rest = &self.text.as_slice()[self.next..];
        let line = match rest.iter().position(|c| *c == b'\n') {
            Some(end) if end <= rest.len() => &rest[..end],
            _ => rest,
        };
        self.next = self.next.saturating_add(line.len()).saturating_add(1);
        self.number = self.number.saturating_add(1);
        Some(line)
    }

    /// Writes the file's name and the number of the line that was last taken to standard error.
    pub(crate) fn write_place<R: Eprint>(&self, rt: &R) {
        let (name, number) = (self.name.as_str(), self.number);
        let _ = eprint!(rt; "{name}:{number}: ");
    }
}

fn owned(alloc: Global, bytes: &[u8]) -> Result<Vec<u8>, AllocError> {
    let mut copy = Vec::new(alloc);
    copy.extend_from_slice(bytes)?;
    Ok(copy)
}

/// Returns the next line of a script, or `None` at its end.
pub(crate) fn next_line(alloc: Global, script: &mut Script) -> Result<Option<Line>, AllocError> {
    let Some(line) = script.take_line() else {
        return Ok(None);
    };
    if line.len() > MAX_LINE {
        return Ok(Some(Line::Long));
    }
    Ok(Some(Line::Short(owned(alloc, line)?)))
}

/// Reads a whole file.
fn read_whole<R: Files>(rt: &R, alloc: Global, name: &str) -> io::Result<Vec<u8>> {
    let mut text = Vec::new(alloc);
    let mut file = fs::open(rt, name)?;
    file.read_to_end(&mut text)?;
    Ok(text)
}

fn script_of<R: Files>(rt: &R, alloc: Global, name: &str) -> io::Result<Script> {
    let text = read_whole(rt, alloc, name)?;
    Ok(Script {
        name: String::from_str(alloc, name)?,
        text,
        next: 0,
        number: 0,
    })
}

/// Opens the file with this name, or reports on standard error that it can't be opened.
pub(crate) fn open_script<R: Files + Eprint>(rt: &R, alloc: Global, name: &[u8]) -> Option<Script> {
    let Ok(name) = str::from_utf8(name) else {
        let _ = eprintln!(rt; "cannot read it: its name isn't UTF-8");
        return None;
    };
    match script_of(rt, alloc, name) {
        Ok(script) => Some(script),
        Err(_) => {
            let _ = eprintln!(rt; "cannot read {name}");
            None
        }
    }
}
