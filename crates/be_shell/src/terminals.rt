//! A peer at a terminal.
ghost use Rattle.std.specs.Prelude.{◌≡◌, true, false, is_some, IfSome, IfNone};
ghost use Rattle.be_shell.specs.Conversation.{hearing, line_heard};
ghost use Rattle.be_shell.specs.Terminal as spec;

use crate::Line;
use crate::asides::{Aside, aside_of, skip, split_word, typed_of};
use crate::carets::fault_at;
use crate::help::{hint, print_help, print_usage, wants_hint};
use crate::peers::Peer;
use crate::saves::save;
use crate::scripts::{Script, next_line, open_script};
use be_script_runner::RunFault;
use std::alloc::Global;
use std::io::Eprint;
use std::rt::Files;
use std::str;

/// Returns what a typed line asks of the terminal.
fn typed_in(line: &Line) -> Aside
    ensures { result ≡ spec.asks_of (line_heard line.now) }
{
    match line {
        Line::Short(bytes) => typed_of(bytes.as_slice()),
        Line::Long => Aside::Cut,
    }
}

/// Returns what a line of a file asks of the terminal.
fn aside_in(line: &Line) -> Aside {
    match line {
        Line::Short(bytes) => aside_of(bytes.as_slice()),
        Line::Long => Aside::Nothing,
    }
}

/// Returns a line as the shell sees it. If the line is for the store, this is the line itself.
/// Otherwise it is an empty line, or the end.
fn passed_on(alloc: Global, line: Line, aside: Aside) -> Option<Line>
    ensures { hearing result ≡ spec.passed_on (line_heard line) aside }
{
    match aside {
        Aside::Nothing => Some(line),
        Aside::Quit => None,
        _ => Some(Line::Short(Vec::new(alloc))),
    }
}

/// Returns the name after the command of a line.
fn name_in(line: &[u8]) -> &[u8] {
    let (_, beyond) = split_word(skip(line));
    skip(beyond).trim_ascii_end()
}

/// Opens the file that a `read` line names.
fn open_named<R: Files + Eprint>(rt: &R, alloc: Global, line: &[u8]) -> Option<Script> {
    let name = name_in(line);
    if name.is_empty() {
        print_usage(rt, b"read".as_slice());
        return None;
    }
    open_script(rt, alloc, name)
}

/// Answers a line that is for the terminal, if the answer is only a text on standard error.
fn answer_aside<R: Eprint>(rt: &R, line: &Line, aside: Aside) {
    let _ = match (aside, line) {
        (Aside::Cancelled, _) => eprintln!(rt;),
        (Aside::Cut, _) => eprintln!(rt;
            "not run: a terminal cuts a line of more than 4094 bytes; put it into a file, and: \
             read FILE"
        ),
        (Aside::Help, Line::Short(bytes)) => {
            print_help(rt, bytes.as_slice());
            Ok(())
        }
        _ => Ok(()),
    };
}

/// Answers a typed line that is for the terminal, and returns the file that it opens.
fn answer_typed<R: Files + Eprint>(
    rt: &R,
    alloc: Global,
    line: &Line,
    aside: Aside,
) -> Option<Script>
    ensures { IfSome result (λ _. aside ≡ Aside.Read) }
{
    match (aside, line) {
        (Aside::Read, Line::Short(bytes)) => open_named(rt, alloc, bytes.as_slice()),
        _ => {
            answer_aside(rt, line, aside);
            None
        }
    }
}

/// Returns the file's name in a `save` line, or `None` for any other line.
fn saved_name<R: Eprint>(rt: &R, alloc: Global, line: &Line, aside: Aside) -> Option<String> {
    let (Aside::Save, Line::Short(bytes)) = (aside, line) else {
        return None;
    };
    match str::from_utf8(name_in(bytes.as_slice())) {
        Ok("") => {
            print_usage(rt, b"save".as_slice());
            None
        }
        Ok(name) => String::from_str(alloc, name).ok(),
        Err(_) => {
            let _ = eprintln!(rt; "cannot save it: its name isn't UTF-8");
            None
        }
    }
}

/// Returns a line of a file as the shell sees it.
fn answer_read<R: Eprint>(rt: &R, alloc: Global, line: Line) -> Option<Line> {
    let aside = aside_in(&line);
    if matches!(aside, Aside::Read | Aside::Save) {
        let _ = eprintln!(rt; "not run: a file that is read neither reads nor saves another");
    }
    answer_aside(rt, &line, aside);
    passed_on(alloc, line, aside)
}

/// Returns the next line of the file that is being read, as the shell sees it. Returns `None` if no
/// file is being read or if its lines have ended, after which no file is being read.
fn hear_script<R: Eprint>(
    rt: &R,
    alloc: Global,
    script: &mut Option<Script>,
) -> Option<Option<Line>>
    ensures heard { IfSome result (λ _. is_some script.old ≡ true) }
    ensures none { IfNone result (is_some script.new ≡ false) }
{
    let next = match script {
        Some(open) => next_line(alloc, open),
        None => return None,
    };
    match next {
        Ok(Some(line)) => Some(answer_read(rt, alloc, line)),
        Ok(None) => {
            *script = None;
            None
        }
        Err(_) => {
            let _ = eprintln!(rt; "out of memory: the rest of the file isn't run");
            *script = None;
            None
        }
    }
}

/// Returns a copy of a line, for hints, or `None` if there is no memory for it.
fn remembered(alloc: Global, heard: &Option<Line>) -> Option<Vec<u8>> {
    let Some(Line::Short(bytes)) = heard else {
        return None;
    };
    let mut copy = Vec::new(alloc);
    match copy.extend_from_slice(bytes.as_slice()) {
        Ok(()) => Some(copy),
        Err(_) => None,
    }
}

/// Writes the prompt to standard error.
fn ask<R: Eprint>(rt: &R, is_batch_open: bool) {
    let prompt = if is_batch_open {
        "batch> "
    } else {
        "bestore> "
    };
    let _ = eprint!(rt; "{prompt}");
}

/// Writes the position of a file's last line to standard error if a hint follows. A query that is
/// shown with a caret starts on a line of its own.
fn print_place<R: Eprint>(rt: &R, script: &Script, reply: &[u8]) {
    if !wants_hint(reply) {
        return;
    }
    script.write_place(rt);
    if fault_at(reply).is_some() {
        let _ = eprintln!(rt; "this query isn't valid here:");
    }
}

/// A peer at a terminal, which asks for each line with a prompt on standard error: `batch> ` while
/// a batch is open, and otherwise `bestore> `. Lines for the terminal itself ([`Aside`]) are
/// answered by the terminal, and the shell sees them as empty lines. `quit` and `exit` end the
/// input. The lines of a file that `read` names replace typed lines until the file ends. A hint
/// follows the reply to a line that is bad or has a bad query. Whatever can't be written to
/// standard error is omitted.
#[derive(Drop)]
pub struct Terminal<'a, R, P> {
    rt: &'a R,
    alloc: Global,
    peer: P,
    script: Option<Script>,
    /// The last line that was read, for hints.
    heard: Option<Vec<u8>>,
    /// The file in which the last line asks to save the store.
    saves_to: Option<String>,
}

impl<'a, R: Files + Eprint, P: Peer> Terminal<'a, R, P> {
    /// Creates a terminal from a peer. It doesn't read a file yet.
    pub fn new(rt: &'a R, alloc: Global, peer: P) -> Terminal<'a, R, P>
        ensures { (result.peer ≡ peer) × (is_some result.script ≡ false) }
    {
        Terminal {
            rt,
            alloc,
            peer,
            script: None,
            heard: None,
            saves_to: None,
        }
    }

    /// Writes to standard error what the reply to the last line doesn't say. If the line came from
    /// a file, its position is written first.
    fn print_hint(&self, reply: &[u8]) {
        let Some(heard) = &self.heard else {
            return;
        };
        if let Some(script) = &self.script {
            print_place(self.rt, script, reply);
        }
        hint(self.rt, self.alloc, heard.as_slice(), reply);
    }
}

impl<'a, R: Files + Eprint, P: Peer> Peer for Terminal<'a, R, P> {
    ghost use Rattle.std.specs.Prelude.{is_some};
    ghost use Rattle.be_shell.specs.Terminal.{asks};

    ghost does = { λ old event new. asks P.does old.peer (is_some old.script) event new.peer
        (is_some new.script) };

    /// Reads the next line of the file that is being read. If no file is being read, prompts and
    /// reads a line from the underlying peer. Answers a line for the terminal itself. The errors
    /// are those of the underlying peer.
    fn hear(&mut self, alloc: Global, is_batch_open: bool) -> Result<Option<Line>, RunFault> {
        self.saves_to = None;
        if let Some(heard) = hear_script(self.rt, alloc, &mut self.script) {
            self.heard = remembered(alloc, &heard);
            return Ok(heard);
        }
        ask(self.rt, is_batch_open);
        let Some(line) = self.peer.hear(alloc, is_batch_open)? else {
            let _ = eprintln!(self.rt;);
            return Ok(None);
        };
        let aside = typed_in(&line);
        self.script = answer_typed(self.rt, alloc, &line, aside);
        self.saves_to = saved_name(self.rt, alloc, &line, aside);
        let heard = passed_on(alloc, line, aside);
        self.heard = remembered(alloc, &heard);
        Ok(heard)
    }

    fn wants_state(&self) -> bool {
        self.saves_to.is_some()
    }

    fn take_state(&mut self, script: Option<&str>) {
        if let Some(name) = &self.saves_to {
            save(self.rt, self.alloc, name.as_str(), script);
        }
    }

    fn say(&mut self, reply: &[u8]) -> Result<(), RunFault> {
        self.peer.say(reply)?;
        self.print_hint(reply);
        Ok(())
    }

    fn flush(&mut self) -> Result<(), RunFault> {
        self.peer.flush()
    }
}
