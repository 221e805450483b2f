//! The shell, which keeps a store open and answers lines one by one.
//!
//! [`shell`] opens a store, and answers each line of a peer before it reads the next. The reply to
//! a line is what it would be in a script, by the same definition. [`Peer`] is a trait, so its
//! contract fixes the order of reading lines and writing replies for every peer.
//!
//! [`Ends`] is a peer made of a reader and a writer. [`Screen`] is a peer that shows control
//! characters as codes. [`Terminal`] is a peer that is prompted. [`Breaking`] is a reader in which
//! Ctrl-C ends a line.
//!
//! The modules, from the bottom up, cover lines, peers, conversations, a peer made of a reader and
//! a writer, what is shown, terminals, and the shell.
#![tactic(auto)]

mod asides;
mod breaks;
mod carets;
mod closings;
mod conversations;
mod ends;
mod escapes;
mod help;
pub mod laws;
mod lines;
mod peers;
mod saves;
mod screens;
mod scripts;
mod shells;
mod terminals;

pub use asides::Aside;
pub use breaks::Breaking;
pub use closings::shell_and_close;
pub use conversations::converse;
pub use ends::Ends;
pub use lines::Line;
pub use peers::Peer;
pub use screens::Screen;
pub use shells::shell;
pub use terminals::Terminal;
