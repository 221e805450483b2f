//! The script language as text.
//!
//! A script is a text with one command per line. Each line gets a reply, except blank lines and
//! comments. [`read_line`] reads what a line requests, and [`reply_text`] writes a reply. Neither
//! knows how a script is run. From the bottom up, the modules handle words, the values that words
//! encode, commands, lines `page`, requests, and replies.
#![tactic(auto)]

mod commands;
mod pages;
mod replies;
mod requests;
mod values;
mod words;

pub use pages::{Page, Paging};
pub use replies::{Reply, reply_text};
pub use requests::{Request, read_line};
