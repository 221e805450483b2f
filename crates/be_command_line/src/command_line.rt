//! Parses the command line.
//!
//! The commands are `bestore run [--journal] [--strict] [--pages N] [--commits N] FILE`, `bestore
//! race [--pages N] [--commits N] SCRIPT...`, `bestore shell [--journal FILE] [--pages N]
//! [--commits N] [FILE]`, `bestore check FILE` and `bestore dump [--state] FILE`. `clap` reads the
//! words, writes the help and the version, and reports errors. The program itself checks how many
//! scripts a race has.
ghost use Rattle.std.specs.Prelude.{IfOk, IfSome};
ghost use Rattle.be_command_line.specs.Task.{AreForOne, IsTask};

use crate::Task;
use be_table::Limits;
use clap::error::ErrorKind;
use clap::{Arg, ArgAction, ArgMatches, Command, Error, value_parser};
use std::alloc::{AllocError, Global};

/// The version of the program. The library for C has its own version in include/bestore.h, and
/// c/test.sh compares the two.
const VERSION: &str = "0.4.0";

/// The argument of all commands except `race`, as help shows it.
const FILE: &str = "FILE";

/// The option `--journal` of `run`, and of `shell`, where it takes a file.
const JOURNAL: &str = "journal";

/// The option `--strict` of `run`.
const STRICT: &str = "strict";

/// The option `--state` of `dump`.
const STATE: &str = "state";

/// The arguments of `race`.
const SCRIPT: &str = "SCRIPT";

/// Creates an option that takes a number in this range and has this default.
fn number_option<'a>(
    alloc: Global,
    name: &'a str,
    help: &'a str,
    least: i64,
    most: i64,
    default: &'a str,
) -> Arg<'a> {
    Arg::new(alloc, name)
        .long(name)
        .value_name("N")
        .help(help)
        .action(ArgAction::Set)
        .value_parser(value_parser!(u64).range(least..=most))
        .default_value(default)
}

/// Creates an option without a value.
fn flag<'a>(alloc: Global, name: &'a str, help: &'a str) -> Arg<'a> {
    Arg::new(alloc, name)
        .long(name)
        .help(help)
        .action(ArgAction::SetTrue)
}

/// Creates the argument for a file that the command requires.
fn required_file<'a>(alloc: Global, help: &'a str) -> Arg<'a> {
    Arg::new(alloc, FILE)
        .help(help)
        .required(true)
        .action(ArgAction::Set)
}

/// Adds an option or argument to a command.
fn with_arg<'a>(
    command: Result<Command<'a>, AllocError>,
    arg: Arg<'a>,
) -> Result<Command<'a>, AllocError> {
    command?.arg(arg)
}

/// Adds a subcommand to a command.
fn with_subcommand<'a>(
    command: Result<Command<'a>, AllocError>,
    subcommand: Result<Command<'a>, AllocError>,
) -> Result<Command<'a>, AllocError> {
    command?.subcommand(subcommand?)
}

fn pages_option<'a>(alloc: Global) -> Arg<'a> {
    let help = "Pages of 4096 bytes, 8 to 16384";
    number_option(alloc, "pages", help, 8, 16384, "1024")
}

fn commits_option<'a>(alloc: Global) -> Arg<'a> {
    let help = "The most accepted writes, 1 to 4294967295";
    number_option(alloc, "commits", help, 1, 4294967295, "1000000")
}

/// Creates a command with its files and the options for a store's limits.
fn command<'a>(
    alloc: Global,
    name: &'a str,
    about: &'a str,
    files: Arg<'a>,
) -> Result<Command<'a>, AllocError> {
    let command = Ok(Command::new(alloc, name).about(about));
    let command = with_arg(command, pages_option(alloc));
    let command = with_arg(command, commits_option(alloc));
    with_arg(command, files)
}

/// Creates the command `run`, with a file, `--journal`, `--strict` and the limits.
fn run_command<'a>(alloc: Global) -> Result<Command<'a>, AllocError> {
    let file = required_file(alloc, "The script, a command a line; - is standard input");
    let about = "Run a script and print the reply to each line";
    let command = command(alloc, "run", about, file);
    let help = "Print the journal and its check after the replies";
    let command = with_arg(command, flag(alloc, JOURNAL, help));
    let help = "End with status 1 after the first line that is refused";
    with_arg(command, flag(alloc, STRICT, help))
}

/// Creates the command `race`, with the scripts and the limits.
fn race_command<'a>(alloc: Global) -> Result<Command<'a>, AllocError> {
    let scripts = Arg::new(alloc, SCRIPT)
        .help("The scripts, two to four; - is standard input, once")
        .required(true)
        .num_args(1..)
        .action(ArgAction::Append);
    command(
        alloc,
        "race",
        "Run scripts at once, each on a thread of its own, and print the replies and the journal",
        scripts,
    )
}

/// Creates the option of `shell` that names the file for the journal.
fn journal_option<'a>(alloc: Global) -> Arg<'a> {
    Arg::new(alloc, JOURNAL)
        .long(JOURNAL)
        .value_name("FILE")
        .help("Write the journal and its check into a new or empty file at the end")
        .action(ArgAction::Set)
}

/// Creates the command `shell`, with an optional file, `--journal` with a file, and the limits.
fn shell_command<'a>(alloc: Global) -> Result<Command<'a>, AllocError> {
    let file = Arg::new(alloc, FILE)
        .help("Lines that are run first")
        .action(ArgAction::Set);
    let about = "Answer each line of standard input when it comes";
    with_arg(command(alloc, "shell", about, file), journal_option(alloc))
}

/// Creates a command whose only argument is the file of a journal.
fn journal_command<'a>(
    alloc: Global,
    name: &'a str,
    about: &'a str,
) -> Result<Command<'a>, AllocError> {
    let command = Ok(Command::new(alloc, name).about(about));
    let help = "What race or run --journal printed, or a journal's text alone";
    with_arg(command, required_file(alloc, help))
}

fn check_command<'a>(alloc: Global) -> Result<Command<'a>, AllocError> {
    journal_command(
        alloc,
        "check",
        "Run a journal again and print the first line that was answered otherwise",
    )
}

/// Creates the command `dump`, with the file of a journal and `--state`.
fn dump_command<'a>(alloc: Global) -> Result<Command<'a>, AllocError> {
    let about = "Print the script that makes a journal's writes again";
    let help = "Print a script that makes its last state alone, and not its history";
    let state = flag(alloc, STATE, help);
    with_arg(journal_command(alloc, "dump", about), state)
}

/// Creates the program without its commands.
fn program<'a>(alloc: Global) -> Command<'a> {
    Command::new(alloc, "bestore")
        .about(
            "A shared attribute store in memory, with the attributes, indices and queries of BeOS",
        )
        .version(VERSION)
        .subcommand_required(true)
}

/// Creates the program with all commands, in the order in which help lists them.
fn commands<'a>(alloc: Global) -> Result<Command<'a>, AllocError> {
    let command = with_subcommand(Ok(program(alloc)), run_command(alloc));
    let command = with_subcommand(command, race_command(alloc));
    let command = with_subcommand(command, shell_command(alloc));
    let command = with_subcommand(command, check_command(alloc));
    with_subcommand(command, dump_command(alloc))
}

/// Returns the task that the words request, given the program with all its commands.
fn task_by<'a>(
    alloc: Global,
    command: &mut Command<'a>,
    words: &'a [&'a str],
) -> Result<Task, Error>
    ensures { IfOk result IsTask }
{
    let matches = command.try_get_matches_from_mut(words)?;
    match task_of(alloc, &matches)? {
        Some(task) => Ok(task),
        None => Err(command.error(ErrorKind::InvalidValue, "a value is out of its range")?),
    }
}

/// Parses the words of a command line, which start with the name of the program. The errors are
/// those of `clap`. The kind of the error says whether help or the version was requested, the
/// command line is invalid, or memory ran out.
pub fn task<'a>(alloc: Global, words: &'a [&'a str]) -> Result<Task, Error>
    ensures { IfOk result IsTask }
{
    let mut command = commands(alloc)?;
    task_by(alloc, &mut command, words)
}

/// Returns the limits of a store with one pass if they are within their ranges, which `clap` has
/// checked.
fn limits_of(matches: &ArgMatches) -> Option<Limits>
    ensures { IfSome result AreForOne }
{
    let (Some(pages), Some(commits)) = (
        matches.get_one::<u64>("pages"),
        matches.get_one::<u64>("commits"),
    ) else {
        return None;
    };
    let limits = Limits {
        pages,
        passes: 1,
        commits,
    };
    if !limits.are_within() {
        return None;
    }
    Some(limits)
}

/// Returns the value of an option or argument that takes one, if it is given.
fn value_of(alloc: Global, matches: &ArgMatches, name: &str) -> Result<Option<String>, AllocError> {
    match matches.get_strs(name).unwrap_or(&[]).first() {
        Some(value) => Ok(Some(String::from_str(alloc, value)?)),
        None => Ok(None),
    }
}

/// Returns the file's name, if there is one.
fn file_of(alloc: Global, matches: &ArgMatches) -> Result<Option<String>, AllocError> {
    value_of(alloc, matches, FILE)
}

/// Returns the names of the files of a race.
fn files_of(alloc: Global, matches: &ArgMatches) -> Result<Vec<String>, AllocError> {
    let mut files = Vec::new(alloc);
    for file in matches.get_strs(SCRIPT).unwrap_or(&[]) {
        files.push(String::from_str(alloc, file)?)?;
    }
    Ok(files)
}

/// Returns the task of `run` according to its two flags, or `None` if the file is missing or a
/// limit is out of range.
fn run_task(alloc: Global, matches: &ArgMatches) -> Result<Option<Task>, AllocError>
    ensures { IfOk result (λ task. IfSome task IsTask) }
{
    let Some(limits) = limits_of(matches) else {
        return Ok(None);
    };
    let Some(file) = file_of(alloc, matches)? else {
        return Ok(None);
    };
    match (matches.get_flag(STRICT), matches.get_flag(JOURNAL)) {
        (false, false) => Ok(Some(Task::Run(file, limits))),
        (false, true) => Ok(Some(Task::RunWithJournal(file, limits))),
        (true, false) => Ok(Some(Task::RunStrictly(file, limits))),
        (true, true) => Ok(Some(Task::RunStrictlyWithJournal(file, limits))),
    }
}

/// Returns the task of `race` with a pass for each script, or `None` if there is no script or a
/// limit is out of range.
fn race_task(alloc: Global, matches: &ArgMatches) -> Result<Option<Task>, AllocError>
    ensures { IfOk result (λ task. IfSome task IsTask) }
{
    let files = files_of(alloc, matches)?;
    let Some(limits) = limits_of(matches) else {
        return Ok(None);
    };
    if files.is_empty() {
        return Ok(None);
    }
    let limits = Limits {
        passes: files.len() as u64,
        ..limits
    };
    Ok(Some(Task::Race(files, limits)))
}

fn shell_task(alloc: Global, matches: &ArgMatches) -> Result<Option<Task>, AllocError>
    ensures { IfOk result (λ task. IfSome task IsTask) }
{
    let Some(limits) = limits_of(matches) else {
        return Ok(None);
    };
    let file = file_of(alloc, matches)?;
    match value_of(alloc, matches, JOURNAL)? {
        Some(journal) => Ok(Some(Task::ShellWithJournal(file, journal, limits))),
        None => Ok(Some(Task::Shell(file, limits))),
    }
}

fn check_task(alloc: Global, matches: &ArgMatches) -> Result<Option<Task>, AllocError>
    ensures { IfOk result (λ task. IfSome task IsTask) }
{
    match file_of(alloc, matches)? {
        Some(file) => Ok(Some(Task::Check(file))),
        None => Ok(None),
    }
}

fn dump_task(alloc: Global, matches: &ArgMatches) -> Result<Option<Task>, AllocError>
    ensures { IfOk result (λ task. IfSome task IsTask) }
{
    match file_of(alloc, matches)? {
        Some(file) if matches.get_flag(STATE) => Ok(Some(Task::DumpState(file))),
        Some(file) => Ok(Some(Task::Dump(file))),
        None => Ok(None),
    }
}

/// Returns the task of the given command, if there is one and its values are within their ranges,
/// which `clap` has checked.
fn task_of(alloc: Global, matches: &ArgMatches) -> Result<Option<Task>, AllocError>
    ensures { IfOk result (λ task. IfSome task IsTask) }
{
    match matches.subcommand() {
        Some(("run", found)) => run_task(alloc, found),
        Some(("race", found)) => race_task(alloc, found),
        Some(("shell", found)) => shell_task(alloc, found),
        Some(("check", found)) => check_task(alloc, found),
        Some(("dump", found)) => dump_task(alloc, found),
        _ => Ok(None),
    }
}
