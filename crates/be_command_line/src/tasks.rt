//! What a command line requests.
use be_table::Limits;

/// What a command line requests. The default limits are 1024 pages and 1000000 commits. The file
/// `-` is standard input.
#[derive(Drop)]
pub enum Task {
    /// Run the script in a file on a store with one pass.
    Run(String, Limits),
    /// Run the script in a file on a store with one pass, and write the journal after the replies.
    RunWithJournal(String, Limits),
    /// Run the script in a file, stopping at the first line that is refused.
    RunStrictly(String, Limits),
    /// Run the script in a file, stopping at the first line that is refused, and write the journal
    /// after the replies.
    RunStrictlyWithJournal(String, Limits),
    /// Race the scripts in these files against each other on a store with one pass for each script.
    Race(Vec<String>, Limits),
    /// Run the lines of a file, if one is named, and then those of standard input, on a store with
    /// one pass.
    Shell(Option<String>, Limits),
    /// Run these lines in the same way, and write the journal to the second file at the end.
    ShellWithJournal(Option<String>, String, Limits),
    /// Check the journal in a file.
    Check(String),
    /// Print the script that makes the same writes as the journal in a file.
    Dump(String),
    /// Print the script that rebuilds the volume of the journal in a file, without its history.
    DumpState(String),
}
