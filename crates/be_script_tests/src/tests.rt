//! Scripts and their replies, as rows `LINE => REPLY`.
//!
//! Each table is run over the shared store, and over a plain volume with its journal. Both must
//! give the rows' replies.
//!
//! Every test passes if any one request for memory is refused. A run that ran out of memory is
//! checked as far as it came, and run again.
ghost use Rattle.std.specs.Prelude.{◌<◌, ◌^◌};

mod alike;
mod examples;
mod faults;
mod journal_runs;
mod limits;
mod pages;
mod plain;
mod pools;
mod readings;

use be_script_runner::{Limits, RunFault, run, serve};
use be_value::word_of;
use plain::PlainStore;
use std::alloc::{AllocError, Global};
use std::str;
use std::test::Fail;

const LIMITS: Limits = Limits {
    pages: 128,
    passes: 1,
    commits: 1_000_000,
};

/// Rows that make an index of k, and a node whose k is 5.
const FIVE: &str = "mkindex k LONG => ok
new => node 1
set 1 k LONG 5 => ok";

/// The character that a row's character stands for: pictures of control characters stand for those.
fn meaning_of(c: char) -> char {
    match c {
        '␀' => '\0',
        '␉' => '\t',
        '␊' => '\n',
        '␋' => '\u{b}',
        '␌' => '\u{c}',
        '␍' => '\r',
        '␠' => ' ',
        _ => c,
    }
}

fn push_meant(text: &mut String, written: &str) -> Result<(), AllocError> {
    for c in written.chars() {
        text.push(meaning_of(c))?;
    }
    Ok(())
}

/// Appends `COUNT*PART}` and what follows it: the part, repeated. Any other text stands for itself.
fn push_repeated(text: &mut String, written: &str) -> Result<(), AllocError> {
    let Some((repeated, rest)) = written.split_once('}') else {
        return push_meant(text, written);
    };
    let Some((count, part)) = repeated.split_once('*') else {
        return push_meant(text, written);
    };
    for _ in 0..word_of(count.as_bytes()).unwrap_or(0) {
        push_meant(text, part)?;
    }
    push_meant(text, rest)
}

/// Appends what a part of a row stands for. In it, `{64*x}` is 64 times x.
fn push_part(text: &mut String, written: &str) -> Result<(), AllocError> {
    let mut parts = written.split('{');
    if let Some(front) = parts.next() {
        push_meant(text, front)?;
    }
    for part in parts {
        push_repeated(text, part)?;
    }
    Ok(())
}

/// Appends what one side of a row stands for. In it, ` / ` separates lines.
fn push_lines(text: &mut String, written: &str) -> Result<(), AllocError> {
    for line in written.split(" / ") {
        push_part(text, line)?;
        text.push('\n')?;
    }
    Ok(())
}

/// Appends a row's lines to a script, and their replies to the replies. A row without ` => ` is a
/// line without a reply.
fn push_row(script: &mut String, replies: &mut String, row: &str) -> Result<(), AllocError> {
    let Some((lines, reply)) = row.split_once(" => ") else {
        push_part(script, row)?;
        return script.push('\n');
    };
    push_lines(script, lines)?;
    push_lines(replies, reply)
}

/// Appends some rows. Spaces before a row are ignored.
fn push_rows(script: &mut String, replies: &mut String, rows: &str) -> Result<(), AllocError> {
    for row in rows.lines() {
        let row = row.trim_start_matches(' ');
        if !row.is_empty() {
            push_row(script, replies, row)?;
        }
    }
    Ok(())
}

/// Appends an example's rows, followed by these rows.
fn push_both(
    script: &mut String,
    replies: &mut String,
    example: &str,
    rows: &str,
) -> Result<(), AllocError> {
    push_rows(script, replies, example)?;
    push_rows(script, replies, rows)
}

/// The script of an example's rows followed by these rows, and its replies.
fn script_of(alloc: Global, example: &str, rows: &str) -> Result<(String, String), AllocError> {
    let mut script = String::new(alloc);
    let mut replies = String::new(alloc);
    push_both(&mut script, &mut replies, example, rows)?;
    Ok((script, replies))
}

/// The first line that isn't as expected.
fn first_other<'a>(written: &'a str, replies: &str) -> Option<&'a str> {
    let mut expected = replies.lines();
    for line in written.lines() {
        if expected.next() != Some(line) {
            return Some(line);
        }
    }
    None
}

/// Whether the first line that isn't as expected reports out of memory.
fn wants_memory(written: &str, replies: &str) -> bool {
    first_other(written, replies) == Some("refused 10 OutOfMemory")
}

/// What serves a script.
#[derive(Clone, Copy)]
enum By {
    SharedStore,
    PlainVolume,
}

/// Runs a script by one of the servers.
fn run_by(
    by: By,
    alloc: Global,
    script: &[u8],
    written: &mut Vec<u8>,
    commits: u64,
) -> Result<(), RunFault>
    requires { commits < 2 ^ 32 }
{
    match by {
        By::SharedStore => run(alloc, &mut &*script, written, Limits { commits, ..LIMITS }),
        By::PlainVolume => serve(
            alloc,
            &mut PlainStore::new(alloc, commits),
            &mut &*script,
            written,
        ),
    }
}

/// Returns true if a run that ended like this wrote these replies, and false if memory ran out
/// after a front of them.
fn has_replies(outcome: Result<(), RunFault>, written: &str, replies: &str) -> Result<bool, Fail> {
    match outcome {
        Ok(()) if written == replies => Ok(true),
        Ok(()) if wants_memory(written, replies) => Ok(false),
        // If the vector can't grow, the write fails.
        Err(RunFault::Memory | RunFault::Write) if replies.starts_with(written) => Ok(false),
        _ => Err(Fail::new(first_other(written, replies).unwrap_or("too few lines"))),
    }
}

/// Runs a script. It returns true if its replies are these, and false if memory ran out after a
/// front of these replies.
fn replies_to(
    by: By,
    alloc: Global,
    script: &[u8],
    replies: &str,
    commits: u64,
) -> Result<bool, Fail>
    requires { commits < 2 ^ 32 }
{
    let mut written: Vec<u8> = Vec::new(alloc);
    let result = run_by(by, alloc, script, &mut written, commits);
    has_replies(result, str::from_utf8(&written)?, replies)
}

/// Fails unless this server gives the script these replies. If memory ran out in the first run, the
/// second run has to.
fn check_by(by: By, alloc: Global, script: &[u8], replies: &str, commits: u64) -> Result<(), Fail>
    requires { commits < 2 ^ 32 }
{
    if replies_to(by, alloc, script, replies, commits)?
        || replies_to(by, alloc, script, replies, commits)?
    {
        return Ok(());
    }
    Err(Fail::new("out of memory twice"))
}

/// Fails unless both servers give the script these replies.
fn check_bytes(alloc: Global, script: &[u8], replies: &str, commits: u64) -> Result<(), Fail>
    requires { commits < 2 ^ 32 }
{
    check_by(By::SharedStore, alloc, script, replies, commits)?;
    check_by(By::PlainVolume, alloc, script, replies, commits)
}

/// Fails unless each line has its reply: the lines of an example's rows, followed by these rows.
fn check_after(alloc: Global, example: &str, rows: &str) -> Result<(), Fail> {
    let (script, replies) = match script_of(alloc, example, rows) {
        Ok(parts) => parts,
        Err(_) => script_of(alloc, example, rows)?,
    };
    check_bytes(alloc, script.as_bytes(), &replies, LIMITS.commits)
}

/// Fails unless each line of these rows has its reply.
fn check(alloc: Global, rows: &str) -> Result<(), Fail> {
    check_after(alloc, "", rows)
}
