//! Command lines, in lines `WORDS => TASK`. The task is given as its command, its pages, passes and
//! commits, and its files in order; an invalid command line is given as the kind of its error. If
//! memory runs out, a command line is read again, so each test passes even if any single request
//! for memory is refused.
use be_command_line::{Task, task};
use clap::Error;
use clap::error::ErrorKind;
use std::alloc::{AllocError, Global};
use std::test::Fail;

/// A task's pages, passes and commits, or zeros if it has no store.
fn numbers(task: &Task) -> (u64, u64, u64) {
    let limits = match task {
        Task::Run(_, limits) | Task::RunWithJournal(_, limits) => limits,
        Task::RunStrictly(_, limits) | Task::RunStrictlyWithJournal(_, limits) => limits,
        Task::Race(_, limits) | Task::Shell(_, limits) => limits,
        Task::ShellWithJournal(_, _, limits) => limits,
        Task::Check(_) | Task::Dump(_) | Task::DumpState(_) => return (0, 0, 0),
    };
    (limits.pages, limits.passes, limits.commits)
}

/// The command of a task.
fn name_of(task: &Task) -> &'static str {
    match task {
        Task::Run(..) => "run",
        Task::RunWithJournal(..) => "run --journal",
        Task::RunStrictly(..) => "run --strict",
        Task::RunStrictlyWithJournal(..) => "run --strict --journal",
        Task::Check(..) => "check",
        Task::Dump(..) => "dump",
        Task::DumpState(..) => "dump --state",
        Task::Race(..) => "race",
        Task::Shell(..) => "shell",
        Task::ShellWithJournal(..) => "shell --journal",
    }
}

/// A task's file at this position, if it has that many files. A shell's first file is the
/// journal's.
fn file_at(task: &Task, place: usize) -> Option<&str> {
    match task {
        Task::Run(file, _) | Task::RunWithJournal(file, _) if place == 0 => Some(file.as_str()),
        Task::RunStrictly(file, _) | Task::RunStrictlyWithJournal(file, _) if place == 0 => {
            Some(file.as_str())
        }
        Task::Check(file) | Task::Dump(file) if place == 0 => Some(file.as_str()),
        Task::DumpState(file) if place == 0 => Some(file.as_str()),
        Task::Shell(Some(file), _) if place == 0 => Some(file.as_str()),
        Task::ShellWithJournal(_, journal, _) if place == 0 => Some(journal.as_str()),
        Task::ShellWithJournal(Some(file), _, _) if place == 1 => Some(file.as_str()),
        Task::Race(files, _) => files.get(place).map(|file| file.as_str()),
        _ => None,
    }
}

/// A task as a text, with up to eight files.
fn task_text(alloc: Global, task: &Task) -> Result<String, AllocError> {
    let name = name_of(task);
    let (pages, passes, commits) = numbers(task);
    let mut text = format!(in alloc; "{name} {pages} {passes} {commits}")?;
    for place in 0..8 {
        if let Some(file) = file_at(task, place) {
            text.push(' ')?;
            text.push_str(file)?;
        }
    }
    Ok(text)
}

/// An error as a text, or `None` if memory ran out.
fn fault_text(alloc: Global, fault: &Error) -> Option<String> {
    let kind = fault.kind();
    if matches!(kind, ErrorKind::OutOfMemory) {
        return None;
    }
    format!(in alloc; "{kind:?}").ok()
}

/// The program's name, followed by the words of a line.
fn words_of(alloc: Global, line: &str) -> Result<Vec<&str>, AllocError> {
    let mut words = Vec::new(alloc);
    words.push("bestore")?;
    for word in line.split(' ') {
        if !word.is_empty() {
            words.push(word)?;
        }
    }
    Ok(words)
}

/// The result of a command line as a text, or `None` if memory ran out.
fn text_of(alloc: Global, line: &str) -> Option<String> {
    let words = words_of(alloc, line).ok()?;
    match task(alloc, &words) {
        Ok(task) => task_text(alloc, &task).ok(),
        Err(fault) => fault_text(alloc, &fault),
    }
}

/// Fails unless each command line has the task or error in its row.
fn check_tasks(alloc: Global, lines: &str) -> Result<(), Fail> {
    for line in lines.lines() {
        let (words, expected) = line.split_once(" => ").unwrap_or((line, ""));
        let found = match text_of(alloc, words) {
            None => text_of(alloc, words),
            found => found,
        };
        match found {
            Some(found) if found.as_str() == expected => {}
            _ => return Err(Fail::new(line)),
        }
    }
    Ok(())
}

/// Command lines with and without the defaults, and with options before and after the files. Here
/// `-` and the names of commands occur as names of files. A race has a pass for each script; the
/// allowed number of scripts isn't checked here. Tasks that only read a journal's file have no
/// limits.
#[test]
fn tasks(rt: HostRuntime) -> Result<(), Fail> {
    let lines = "run f => run 1024 1 1000000 f
run - => run 1024 1 1000000 -
run --pages 8 --commits 1 f => run 8 1 1 f
run --pages 16384 --commits 4294967295 f => run 16384 1 4294967295 f
run --journal f => run --journal 1024 1 1000000 f
run f --pages 9 --journal => run --journal 9 1 1000000 f
run --strict f => run --strict 1024 1 1000000 f
run f --journal --commits 2 --strict => run --strict --journal 1024 1 2 f
check f => check 0 0 0 f
check - => check 0 0 0 -
dump check => dump 0 0 0 check
dump --state f => dump --state 0 0 0 f
dump - --state => dump --state 0 0 0 -
shell => shell 1024 1 1000000
shell --pages 8 --commits 1 f => shell 8 1 1 f
shell --journal j => shell --journal 1024 1 1000000 j
shell f --journal=j --pages 8 => shell --journal 8 1 1000000 j f
race a => race 1024 1 1000000 a
race a b c d e => race 1024 5 1000000 a b c d e
race --commits 9 a b --pages 64 c => race 64 3 9 a b c
run --commits 9 --pages 64 f => run 64 1 9 f
run f --pages 9 --commits 64 => run 9 1 64 f
run race => run 1024 1 1000000 race
race run race => race 1024 2 1000000 run race
race b --pages 64 a --commits 9 b => race 64 3 9 b a b";
    check_tasks(rt.alloc(), lines)
}

/// Invalid command lines, each with the kind of its error.
#[test]
fn faults(rt: HostRuntime) -> Result<(), Fail> {
    let lines = "run --pages 7 f => ValueValidation
run --pages 16385 f => ValueValidation
run --commits 0 f => ValueValidation
run --commits 4294967296 f => ValueValidation
run => MissingRequiredArgument
run f g => UnknownArgument
check => MissingRequiredArgument
dump f g => UnknownArgument
dump --state => MissingRequiredArgument
check --state f => UnknownArgument
check --pages 8 f => UnknownArgument
race --journal f g => UnknownArgument
race --strict f g => UnknownArgument
shell --strict => UnknownArgument
shell --journal => InvalidValue
walk f => InvalidSubcommand
race => MissingRequiredArgument
race --pages 7 f g => ValueValidation
race --commits 0 f g => ValueValidation
 => MissingSubcommand
--help => DisplayHelp
run --help => DisplayHelp
race --help => DisplayHelp
shell --help => DisplayHelp
--version => DisplayVersion
shell f g => UnknownArgument
shell --pages 7 => ValueValidation";
    check_tasks(rt.alloc(), lines)
}
