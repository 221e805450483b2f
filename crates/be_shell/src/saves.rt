//! Files in which a state is saved.
use std::alloc::Global;
use std::fs::{self, File, OpenFile};
use std::io::{self, Eprint, ErrorKind, Write};
use std::rt::Files;

/// Writes a text to a file, and waits until it is on disk.
fn write_whole<R: Files>(mut file: R::File, text: &str) -> io::Result<()> {
    file.write_all(text.as_bytes())?;
    file.flush()?;
    file.sync_all()
}

/// Writes a text to a new file. If the text can't be written completely, the file is removed.
fn write_new<R: Files>(rt: &R, name: &str, text: &str) -> io::Result<()> {
    let file = File::create_new(rt, name)?;
    let written = write_whole::<R>(file, text);
    if written.is_err() {
        let _ = fs::remove_file(rt, name);
    }
    written
}

/// Gives a draft its final name, unless a file with that name exists. If the file system doesn't
/// support links, the draft is renamed.
fn settle<R: Files>(rt: &R, draft: &str, name: &str) -> io::Result<()> {
    match fs::hard_link(rt, draft, name) {
        Ok(()) => fs::remove_file(rt, draft),
        Err(error) if error.kind() == ErrorKind::AlreadyExists => Err(error),
        Err(_) => fs::rename(rt, draft, name),
    }
}

/// Writes a text under another name first, so that the file is either complete or doesn't exist.
fn save_as<R: Files>(rt: &R, draft: &str, name: &str, text: &str) -> io::Result<()> {
    if fs::exists(rt, name)? {
        return Err(io::Error::from(ErrorKind::AlreadyExists));
    }
    write_new(rt, draft, text)?;
    let settled = settle(rt, draft, name);
    if settled.is_err() {
        let _ = fs::remove_file(rt, draft);
    }
    settled
}

/// Saves a script in a file with this name. Reports success, or the reason for failure, on standard
/// error.
pub(crate) fn save<R: Files + Eprint>(rt: &R, alloc: Global, name: &str, script: Option<&str>) {
    let (Some(text), Ok(draft)) = (script, format!(in alloc; "{name}.part")) else {
        let _ = eprintln!(rt; "not saved: out of memory");
        return;
    };
    let _ = match save_as(rt, draft.as_str(), name, text) {
        Ok(()) => eprintln!(rt; "saved {name}"),
        Err(error) if error.kind() == ErrorKind::AlreadyExists => {
            eprintln!(rt; "not saved: {name} or {draft} exists")
        }
        Err(_) => eprintln!(rt; "not saved: cannot write {name}"),
    };
}
