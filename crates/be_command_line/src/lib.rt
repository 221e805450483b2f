//! The command line of bestore: its words, and the task that they request.
#![tactic(auto)]

mod command_line;
mod tasks;

pub use command_line::task;
pub use tasks::Task;
