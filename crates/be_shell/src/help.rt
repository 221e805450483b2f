//! Messages that a terminal writes to standard error. A message is omitted if it can't be written
//! or if there is no memory for it.
use crate::asides::{skip, split_word};
use crate::carets::{fault_at, point_at};
use std::alloc::Global;
use std::io::Eprint;

/// All commands, one per line.
const HELP: &str = "\
new                       make a node
drop N                    remove a node
set N NAME KIND VALUE     set an attribute; KIND is CSTR, LONG, LLNG, ULNG, ULLG, MIMS or RAWT
unset N NAME              remove an attribute
mkindex NAME KIND         make an index, of what is set from then on
rmindex NAME              remove an index
query TEXT                the nodes of which a query is true
page by NAME limit N TEXT the first N by an index; before limit [descending] [after KIND VALUE NODE]
explain TEXT              the comparisons that answer a query, and their score
get N NAME                an attribute
attrs N                   the attributes of a node
indices                   the indices
pin                       read from this version from now on
unpin                     read from the last write again
live TEXT                 take a live query
refresh                   what changed in its answer
begin                     open a batch
commit                    write the batch as one
abort                     drop the batch
read FILE                 run the lines of a file
save FILE                 write the state as a script into a new file
help                      list the commands; help COMMAND, one of them
quit                      end the shell, as exit and the end of input do
";

/// Returns the help line of a command.
fn usage_of(command: &[u8]) -> Option<&'static str> {
    for line in HELP.lines() {
        let (word, _) = split_word(line.as_bytes());
        if word == command {
            return Some(line);
        }
    }
    None
}

/// Writes the usage of a command to standard error, or reports that there is no such command.
pub(crate) fn print_usage<R: Eprint>(rt: &R, command: &[u8]) {
    let _ = match usage_of(command) {
        Some(usage) => eprintln!(rt; "{usage}"),
        None => eprintln!(rt; "no such command: help lists them"),
    };
}

/// Answers the line `help`, with or without a command after it.
pub(crate) fn print_help<R: Eprint>(rt: &R, line: &[u8]) {
    let (_, beyond) = split_word(skip(line));
    let (command, _) = split_word(skip(beyond));
    if command.is_empty() {
        let _ = eprint!(rt; "{HELP}");
    } else {
        print_usage(rt, command);
    }
}

/// Returns whether there is a hint for a reply.
pub(crate) fn wants_hint(reply: &[u8]) -> bool {
    reply == b"bad line\n".as_slice() || fault_at(reply).is_some()
}

/// Writes to standard error what a reply doesn't say: the usage of the command in a bad line, or
/// the position of the error in a query.
pub(crate) fn hint<R: Eprint>(rt: &R, alloc: Global, line: &[u8], reply: &[u8]) {
    if reply == b"bad line\n".as_slice() {
        let (word, _) = split_word(skip(line));
        print_usage(rt, word);
    } else if let Some(at) = fault_at(reply) {
        point_at(rt, alloc, line, at);
    }
}
