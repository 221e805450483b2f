//! `bestore` runs a script and writes the reply to each of its lines to standard output. It can
//! also race scripts against each other and write their replies and their journal, or run the lines
//! of standard input as they arrive. It can check a printed journal, and write the script that
//! rebuilds the journal or only its last state.
//!
//! The exit status is 0 if a run, a race or a shell reaches the end, if a journal is correct, and
//! for help and the version. It is 2 if the command line is invalid. If the program stops early, as
//! a strict run does at the first refused line, the status is 1, with one line on standard error.
//! It is also 1 if a journal is wrong, in which case the first wrong line is written to standard
//! output. Replies go through a buffer that is flushed before the program ends, except that a shell
//! writes each reply immediately.
#![tactic(auto)]

ghost use Rattle.std.specs.Prelude.{◌≡◌, IfOk, IfSome};
ghost use Rattle.be_journal.specs.Journal.{IsLegal};
ghost use Rattle.bestore.specs.declared.outcomes.Outcome.TheVariants.{Failed};

mod outcomes;

use crate::outcomes::{Outcome, status_of};
use be_script::{
    Breaking, Ends, Finding, Journal, Limits, OpenGate, Peer, RefusedLine, RunFault, Screen, Task,
    Terminal, check, dump, dump_state, put_result, race, read_files, reported_journal, run,
    run_strictly, run_with_journal, shell_and_close, task,
};
use clap::Error;
use clap::error::ErrorKind;
use std::alloc::{AllocGlobal, Global};
use std::fs::{OpenFile, OpenOptions};
use std::io::{BufReader, BufWriter, Eprint, IsTerminal, Print, Read, Write};
use std::process::ExitCode;
use std::rt::{Files, Runtime};
use std::sync::Wait;
use std::thread::Threads;
use std::{env, fs, io};

/// Writes one line to standard error that says what went wrong.
fn fail(rt: &impl Eprint, why: &str) -> io::Result<Outcome>
    ensures { IfOk result (λ outcome. outcome ≡ Failed) }
{
    eprintln!(rt; "bestore: {why}")?;
    Ok(Outcome::Failed)
}

fn fail_to_read(rt: &impl Eprint, file: &str) -> io::Result<Outcome>
    ensures { IfOk result (λ outcome. outcome ≡ Failed) }
{
    eprintln!(rt; "bestore: cannot read {file}")?;
    Ok(Outcome::Failed)
}

fn fail_to_write(rt: &impl Eprint, file: &str) -> io::Result<Outcome>
    ensures { IfOk result (λ outcome. outcome ≡ Failed) }
{
    eprintln!(rt; "bestore: cannot write {file}")?;
    Ok(Outcome::Failed)
}

/// Returns the reason why a run or a race stopped.
fn reason(fault: RunFault) -> &'static str {
    match fault {
        RunFault::Limits => "a limit is out of its range",
        RunFault::Read => "cannot read a script",
        RunFault::TooLong => "script too long",
        RunFault::Write => "write failed",
        RunFault::Memory => "out of memory",
    }
}

/// The file name that stands for standard input.
const STANDARD_INPUT: &str = "-";

/// Flushes the buffer, whether or not the work succeeded. A failed flush is reported as an error
/// only if the work succeeded.
fn finish<W: Write + Drop>(
    mut writer: BufWriter<W>,
    worked: Result<(), RunFault>,
) -> Result<(), RunFault> {
    match (writer.flush(), worked) {
        (Err(_), Ok(())) => Err(RunFault::Write),
        (_, worked) => worked,
    }
}

/// How a script is run.
#[derive(Clone, Copy)]
enum Running {
    Plainly,
    /// The journal is written after the replies.
    Reporting,
    /// The run ends at the first line that is refused.
    Strictly,
    /// The run ends at the first line that is refused, and the journal is written.
    StrictlyReporting,
}

/// How a run ended that no fault stopped.
#[derive(Drop)]
enum Ending {
    Whole,
    /// The journal was found to be wrong.
    Illegal,
    /// A line was refused.
    Refused(RefusedLine),
}

/// Runs a script up to the first line that is refused, and writes its journal if `reports` is set.
fn run_strictly_into<I: Read, W: Write>(
    alloc: Global,
    script: &mut I,
    writer: &mut W,
    limits: Limits,
    reports: bool,
) -> Result<Ending, RunFault> {
    let (refused, journal) = run_strictly(alloc, script, writer, limits)?;
    if reports {
        put_result(alloc, writer, &journal)?;
    }
    match refused {
        Some(line) => Ok(Ending::Refused(line)),
        None => Ok(Ending::Whole),
    }
}

/// Runs a script, and writes its replies.
fn run_into<I: Read, W: Write>(
    alloc: Global,
    script: &mut I,
    writer: &mut W,
    limits: Limits,
    running: Running,
) -> Result<Ending, RunFault> {
    match running {
        Running::Plainly => {
            run(alloc, script, writer, limits)?;
            Ok(Ending::Whole)
        }
        Running::Reporting => {
            let legal = run_with_journal(alloc, script, writer, limits)?;
            Ok(if legal {
                Ending::Whole
            } else {
                Ending::Illegal
            })
        }
        Running::Strictly => run_strictly_into(alloc, script, writer, limits, false),
        Running::StrictlyReporting => run_strictly_into(alloc, script, writer, limits, true),
    }
}

/// Returns the outcome of a run that ended like this. If a line was refused, it is reported on
/// standard error.
fn end_run(rt: &impl Eprint, file: &str, ending: &Ending) -> io::Result<Outcome> {
    match ending {
        Ending::Whole => Ok(Outcome::Done),
        Ending::Illegal => Ok(Outcome::Wrong),
        Ending::Refused(line) => {
            let (number, reply) = (line.number, line.reply.as_str());
            eprint!(rt; "bestore: line {number} of {file}: {reply}")?;
            Ok(Outcome::Refused)
        }
    }
}

/// Runs a script from a reader.
fn run_from<R: Runtime + AllocGlobal, I: Read>(
    rt: &R,
    file: &str,
    script: &mut I,
    limits: Limits,
    running: Running,
) -> io::Result<Outcome> {
    let Ok(mut writer) = BufWriter::new(rt.alloc(), io::writer(rt)) else {
        return fail(rt, reason(RunFault::Memory));
    };
    let (ending, ran) = match run_into(rt.alloc(), script, &mut writer, limits, running) {
        Ok(ending) => (ending, Ok(())),
        Err(fault) => (Ending::Whole, Err(fault)),
    };
    match finish(writer, ran) {
        Ok(()) => end_run(rt, file, &ending),
        Err(RunFault::Read) => fail_to_read(rt, file),
        Err(fault) => fail(rt, reason(fault)),
    }
}

fn run_file<R: Runtime + AllocGlobal>(
    rt: &R,
    file: &str,
    limits: Limits,
    running: Running,
) -> io::Result<Outcome> {
    if file == STANDARD_INPUT {
        return run_from(rt, file, &mut rt.reader(), limits, running);
    }
    match fs::open(rt, file) {
        Ok(mut script) => run_from(rt, file, &mut script, limits, running),
        Err(_) => fail_to_read(rt, file),
    }
}

/// Races the scripts in these files.
fn race_files<R: Runtime + AllocGlobal + Threads + Wait + Sync>(
    rt: &R,
    files: &[String],
    limits: Limits,
) -> io::Result<Outcome> {
    if files.len() < 2 || files.len() > 4 {
        eprintln!(rt; "bestore: race takes two to four scripts")?;
        return Ok(Outcome::Misused);
    }
    if files
        .iter()
        .filter(|file| file.as_str() == STANDARD_INPUT)
        .count()
        > 1
    {
        eprintln!(rt; "bestore: - may stand for one script")?;
        return Ok(Outcome::Misused);
    }
    let scripts = match read_files(rt, rt.alloc(), files) {
        Ok(scripts) => scripts,
        Err((place, RunFault::Read)) => return fail_to_read(rt, files[place].as_str()),
        Err((_, fault)) => return fail(rt, reason(fault)),
    };
    let limits = Limits {
        passes: scripts.len() as u64,
        ..limits
    };
    let Ok(mut writer) = BufWriter::new(rt.alloc(), io::writer(rt)) else {
        return fail(rt, reason(RunFault::Memory));
    };
    let (legal, raced) = match race(rt, rt.alloc(), scripts, limits, &OpenGate, &mut writer) {
        Ok(legal) => (legal, Ok(())),
        Err(fault) => (false, Err(fault)),
    };
    match finish(writer, raced) {
        Ok(()) if legal => Ok(Outcome::Done),
        Ok(()) => Ok(Outcome::Wrong),
        Err(fault) => fail(rt, reason(fault)),
    }
}

/// Writes a journal and the result of its check to a file. If writing fails, the file has only the
/// first part of them.
fn write_journal<R: Runtime + AllocGlobal>(
    rt: &R,
    file: &str,
    opened: R::File,
    journal: &Journal,
) -> io::Result<Outcome>
    requires { IsLegal journal.now.entries }
{
    let Ok(mut writer) = BufWriter::new(rt.alloc(), opened) else {
        return fail(rt, reason(RunFault::Memory));
    };
    let put = match put_result(rt.alloc(), &mut writer, journal) {
        Ok(_) => Ok(()),
        Err(fault) => Err(fault),
    };
    match finish(writer, put) {
        Ok(()) => Ok(Outcome::Done),
        Err(RunFault::Write) => fail_to_write(rt, file),
        Err(fault) => fail(rt, reason(fault)),
    }
}

/// The reason why a file wasn't opened for a journal.
enum Unopened {
    Unwritable,
    /// The file isn't empty.
    Filled,
}

/// Opens a new or empty file for a journal.
fn open_for_journal<R: Files>(rt: &R, file: &str) -> Result<R::File, Unopened> {
    let mut options = OpenOptions::new();
    options.write(true).create(true);
    let Ok(opened) = options.open(rt, file) else {
        return Err(Unopened::Unwritable);
    };
    match opened.metadata() {
        Ok(found) if found.len() == 0 => Ok(opened),
        Ok(_) => Err(Unopened::Filled),
        Err(_) => Err(Unopened::Unwritable),
    }
}

/// How a conversation ended, and the journal of its store, if there is one.
type Talk = (Result<(), RunFault>, Option<Journal>);

/// Whether input comes from a terminal, and whether output goes to one.
#[derive(Clone, Copy)]
struct Sides {
    is_typed: bool,
    is_shown: bool,
}

/// Greets and talks to a terminal once the first peer has no more lines. If replies also go to a
/// terminal, control characters are shown as codes.
fn talk_at_terminal<R: Runtime + AllocGlobal, F: Peer, I: Read + Drop>(
    rt: &R,
    first: &mut F,
    reader: I,
    limits: Limits,
    is_shown: bool,
) -> Talk
    ensures { IfSome result.1 (λ journal. IsLegal journal.entries) }
{
    let _ = eprintln!(rt;
        "bestore: a line is answered when it comes; the end of input ends it; help lists the \
         commands"
    );
    let ends = Ends::new(Breaking::new(reader), io::writer(rt));
    if is_shown {
        let mut peer = Terminal::new(rt, rt.alloc(), Screen::new(ends));
        shell_and_close(rt.alloc(), first, &mut peer, limits)
    } else {
        let mut peer = Terminal::new(rt, rt.alloc(), ends);
        shell_and_close(rt.alloc(), first, &mut peer, limits)
    }
}

/// Talks to standard input once the first peer has no more lines. At a terminal, also greets and
/// prompts.
fn talk<R: Runtime + AllocGlobal, F: Peer>(
    rt: &R,
    first: &mut F,
    limits: Limits,
    sides: Sides,
) -> io::Result<Talk>
    ensures { IfOk result (λ talk. IfSome talk.1 (λ journal. IsLegal journal.entries)) }
{
    let Ok(reader) = BufReader::new(rt.alloc(), rt.reader()) else {
        return Ok((Err(RunFault::Memory), None));
    };
    if sides.is_typed {
        return Ok(talk_at_terminal(rt, first, reader, limits, sides.is_shown));
    }
    let mut ends = Ends::new(reader, io::writer(rt));
    Ok(shell_and_close(rt.alloc(), first, &mut ends, limits))
}

/// Returns the outcome of the program after a conversation that ended like this.
fn end_talk(rt: &impl Eprint, talked: Result<(), RunFault>) -> io::Result<Outcome> {
    match talked {
        Ok(()) => Ok(Outcome::Done),
        Err(RunFault::Read) => fail(rt, "cannot read a line"),
        Err(fault) => fail(rt, reason(fault)),
    }
}

/// Holds the conversation, and then writes the journal to a file, however the conversation ended.
/// If both fail, the error of the conversation is reported.
fn talk_for_journal<R: Runtime + AllocGlobal, F: Peer>(
    rt: &R,
    first: &mut F,
    file: &str,
    limits: Limits,
    sides: Sides,
) -> io::Result<Outcome> {
    let opened = match open_for_journal(rt, file) {
        Ok(opened) => opened,
        Err(Unopened::Unwritable) => return fail_to_write(rt, file),
        Err(Unopened::Filled) => {
            eprintln!(rt; "bestore: {file} isn't empty")?;
            return Ok(Outcome::Failed);
        }
    };
    let (talked, journal) = talk(rt, first, limits, sides)?;
    let Some(journal) = journal else {
        return end_talk(rt, Err(RunFault::Memory));
    };
    let written = write_journal(rt, file, opened, &journal)?;
    match talked {
        Ok(()) => Ok(written),
        Err(fault) => end_talk(rt, Err(fault)),
    }
}

/// Holds the conversation, and writes the journal if a file for it is named.
fn talk_after<R: Runtime + AllocGlobal, F: Peer>(
    rt: &R,
    first: &mut F,
    journal: Option<&str>,
    limits: Limits,
    sides: Sides,
) -> io::Result<Outcome> {
    match journal {
        Some(file) => talk_for_journal(rt, first, file, limits, sides),
        None => end_talk(rt, talk(rt, first, limits, sides)?.0),
    }
}

/// Runs the lines of a file, if one is named, and then talks to standard input.
fn open_shell<R: Runtime + AllocGlobal>(
    rt: &R,
    file: &Option<String>,
    journal: Option<&str>,
    limits: Limits,
    sides: Sides,
) -> io::Result<Outcome> {
    let Some(file) = file else {
        let mut nothing = Ends::new(b"".as_slice(), io::writer(rt));
        return talk_after(rt, &mut nothing, journal, limits, sides);
    };
    let Ok(opened) = fs::open(rt, file.as_str()) else {
        return fail_to_read(rt, file.as_str());
    };
    let Ok(reader) = BufReader::new(rt.alloc(), opened) else {
        return fail(rt, reason(RunFault::Memory));
    };
    let mut lines = Ends::new(reader, io::writer(rt));
    if sides.is_typed && sides.is_shown {
        return talk_after(rt, &mut Screen::new(lines), journal, limits, sides);
    }
    talk_after(rt, &mut lines, journal, limits, sides)
}

/// Reads a whole file.
fn read_whole<R: Runtime + AllocGlobal>(rt: &R, file: &str) -> io::Result<Vec<u8>> {
    let mut text = Vec::new(rt.alloc());
    if file == STANDARD_INPUT {
        let mut reader = rt.reader();
        reader.read_to_end(&mut text)?;
    } else {
        let mut reader = fs::open(rt, file)?;
        reader.read_to_end(&mut text)?;
    }
    Ok(text)
}

/// Reports why a file couldn't be read completely.
fn fail_whole(rt: &impl Eprint, file: &str, error: &io::Error) -> io::Result<Outcome> {
    if matches!(error.kind(), io::ErrorKind::OutOfMemory) {
        return fail(rt, reason(RunFault::Memory));
    }
    fail_to_read(rt, file)
}

fn fail_without_journal(rt: &impl Eprint, file: &str) -> io::Result<Outcome>
    ensures { IfOk result (λ outcome. outcome ≡ Failed) }
{
    eprintln!(rt; "bestore: no journal in {file}")?;
    Ok(Outcome::Failed)
}

/// Prints a text, and returns the outcome.
fn print_text<R: Runtime>(rt: &R, text: &str, outcome: Outcome) -> io::Result<Outcome> {
    let mut writer = io::writer(rt);
    match writer.write_all(text.as_bytes()) {
        Ok(()) => Ok(outcome),
        Err(_) => fail(rt, reason(RunFault::Write)),
    }
}

/// Prints the finding of a check, and reports the number of entries on standard error.
fn print_finding<R: Runtime>(
    rt: &R,
    text: &str,
    count: u64,
    outcome: Outcome,
) -> io::Result<Outcome> {
    let mut writer = io::writer(rt);
    if writer.write_all(text.as_bytes()).is_err() {
        return fail(rt, reason(RunFault::Write));
    }
    let _ = eprintln!(rt; "bestore: entries read: {count}");
    Ok(outcome)
}

/// Checks the journal in a text, and prints either that it is correct or the first line that isn't.
fn check_text<R: Runtime + AllocGlobal>(rt: &R, file: &str, text: &[u8]) -> io::Result<Outcome> {
    match check(rt.alloc(), text) {
        Ok(Finding::Right(count)) => print_finding(rt, "replay ok\n", count, Outcome::Done),
        Ok(Finding::Wrong(line, count)) => {
            print_finding(rt, line.as_str(), count, Outcome::Wrong)
        }
        Ok(Finding::NoJournal) => fail_without_journal(rt, file),
        Err(_) => fail(rt, reason(RunFault::Memory)),
    }
}

/// Prints the script that makes the same writes as the journal in a text.
fn dump_text<R: Runtime + AllocGlobal>(rt: &R, file: &str, text: &[u8]) -> io::Result<Outcome> {
    let entries = match reported_journal(rt.alloc(), text) {
        Ok(Some(entries)) => entries,
        Ok(None) => return fail_without_journal(rt, file),
        Err(_) => return fail(rt, reason(RunFault::Memory)),
    };
    match dump(rt.alloc(), &entries) {
        Ok(script) => print_text(rt, script.as_str(), Outcome::Done),
        Err(_) => fail(rt, reason(RunFault::Memory)),
    }
}

/// Prints the script that rebuilds the last state of the journal in a text.
fn dump_state_of_text<R: Runtime + AllocGlobal>(
    rt: &R,
    file: &str,
    text: &[u8],
) -> io::Result<Outcome> {
    match dump_state(rt.alloc(), text) {
        Ok(Some(script)) => print_text(rt, script.as_str(), Outcome::Done),
        Ok(None) => fail_without_journal(rt, file),
        Err(_) => fail(rt, reason(RunFault::Memory)),
    }
}

/// What to print about a journal.
#[derive(Clone, Copy)]
enum Reporting {
    Check,
    Dump,
    DumpState,
}

/// Prints this about the journal in a file.
fn report_on_file<R: Runtime + AllocGlobal>(
    rt: &R,
    file: &str,
    reporting: Reporting,
) -> io::Result<Outcome> {
    let text = match read_whole(rt, file) {
        Ok(text) => text,
        Err(error) => return fail_whole(rt, file, &error),
    };
    match reporting {
        Reporting::Check => check_text(rt, file, &text),
        Reporting::Dump => dump_text(rt, file, &text),
        Reporting::DumpState => dump_state_of_text(rt, file, &text),
    }
}

/// Performs the task of the command line.
fn run_task<R: Runtime + AllocGlobal + Threads + Wait + Sync>(
    rt: &R,
    task: &Task,
    sides: Sides,
) -> io::Result<Outcome> {
    match task {
        Task::Run(file, limits) => run_file(rt, file.as_str(), *limits, Running::Plainly),
        Task::RunWithJournal(file, limits) => run_file(
            rt,
            file.as_str(),
            *limits,
            Running::Reporting,
        ),
        Task::RunStrictly(file, limits) => run_file(rt, file.as_str(), *limits, Running::Strictly),
        Task::RunStrictlyWithJournal(file, limits) => {
            run_file(rt, file.as_str(), *limits, Running::StrictlyReporting)
        }
        Task::Race(files, limits) => race_files(rt, files.as_slice(), *limits),
        Task::Shell(file, limits) => open_shell(rt, file, None, *limits, sides),
        Task::ShellWithJournal(file, journal, limits) => {
            open_shell(rt, file, Some(journal.as_str()), *limits, sides)
        }
        Task::Check(file) => report_on_file(rt, file.as_str(), Reporting::Check),
        Task::Dump(file) => report_on_file(rt, file.as_str(), Reporting::Dump),
        Task::DumpState(file) => report_on_file(rt, file.as_str(), Reporting::DumpState),
    }
}

/// Prints help and the version to standard output, and errors of the command line to standard
/// error.
fn report<R: Print + Eprint>(rt: &R, error: &Error) -> io::Result<Outcome> {
    match error.print(rt) {
        Err(_) if error.exit_code() == 0 => fail(rt, "write failed"),
        _ if error.exit_code() == 0 => Ok(Outcome::Done),
        _ => Ok(Outcome::Misused),
    }
}

/// Parses the command line and performs its task. If memory runs out, this is reported on standard
/// error.
fn obey<R: Runtime + AllocGlobal + Threads + Wait + Sync>(
    rt: &R,
    given: &[String],
    sides: Sides,
) -> io::Result<Outcome> {
    let alloc = rt.alloc();
    let mut words = Vec::new(alloc);
    for word in given {
        if words.push(word.as_str()).is_err() {
            return fail(rt, "out of memory");
        }
    }
    match task(alloc, words.as_slice()) {
        Ok(task) => run_task(rt, &task, sides),
        Err(error) if matches!(error.kind(), ErrorKind::OutOfMemory) => fail(rt, "out of memory"),
        Err(error) => report(rt, &error),
    }
}

fn read_words(rt: &HostRuntime) -> io::Result<Vec<String>> {
    Ok(env::args(rt)?.collect(rt.alloc())?)
}

/// Runs the program and returns its exit status.
fn main(rt: HostRuntime) -> io::Result<ExitCode> {
    let outcome = match read_words(&rt) {
        Ok(given) => {
            let sides = Sides {
                is_typed: rt.stdin().is_terminal(),
                is_shown: rt.stdout().is_terminal(),
            };
            obey(&rt, &given, sides)?
        }
        Err(error) if matches!(error.kind(), io::ErrorKind::InvalidData) => {
            eprintln!(rt; "bestore: a word of the command line isn't UTF-8")?;
            Outcome::Misused
        }
        Err(_) => fail(&rt, "out of memory")?,
    };
    Ok(status_of(outcome))
}
