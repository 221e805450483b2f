//! Scripts: bytes in, bytes out.
//!
//! This crate is the entry to scripts, and has no code of its own. be_script_language has the
//! language as text, be_script_runner runs and races scripts, and be_shell runs lines as they come.
//! be_journal_text reads journals back from their text, and be_command_line parses the command
//! line.
#![tactic(auto)]

pub use be_command_line::{Task, task};
pub use be_journal_text::{Finding, check, dump, dump_state, reported_journal};
pub use be_script_runner::{
    Gate, Journal, Limits, OpenGate, RefusedLine, RunFault, ScriptReader, laws, put_result, race,
    read_files, run, run_strictly, run_with_journal,
};
pub use be_shell::{
    Aside, Breaking, Ends, Line, Peer, Screen, Terminal, converse, shell, shell_and_close,
};
