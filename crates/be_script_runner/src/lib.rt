//! Runs scripts.
//!
//! [`run`] reads a whole script, runs its lines in order on a new shared store with one pass, and
//! writes the replies. A single definition (`Output` in specs/) says which replies a script may
//! get, and `run` is proved to write nothing else.
//!
//! [`race`] runs several scripts at the same time on one store, each on its own thread and from its
//! own pass. It writes their replies and the store's journal. The journal is proved to be legal and
//! to contain only writes that the scripts request.
//!
//! [`run_with_journal`] runs a script and also writes its journal. [`run_strictly`] ends a run at
//! the first refused line. [`read_files`] reads a race's scripts. [`answer`] answers one line, for
//! callers that get lines from elsewhere. [`save_state`] writes the script that rebuilds the
//! current or pinned version.
#![tactic(auto)]

mod answers;
mod client;
mod faults;
mod files;
mod gates;
mod journal_runs;
pub mod laws;
mod pages;
mod passes;
mod races;
mod runs;
mod saves;
mod script_readers;
mod states;
mod stores;
mod strict_runs;

pub use answers::answer;
pub use be_journal::Journal;
pub use be_store::Limits;
pub use client::Client;
pub use faults::RunFault;
pub use files::read_files;
pub use gates::{Gate, OpenGate};
pub use journal_runs::{close_alone, run_with_journal};
pub use races::{put_result, race};
pub use runs::{put, run, serve};
pub use saves::save_state;
pub use script_readers::ScriptReader;
pub use stores::{PassServer, Server, open_for_one};
pub use strict_runs::{RefusedLine, run_strictly};
