//! Lists of operations, and the text of what calls return, in the script language. If memory runs
//! out, each is built again.
use be_journal::done_text;
use be_script_language::{Reply, Request, read_line, reply_text};
use be_value::Refusal;
use be_volume::{Done, Op};
use std::alloc::{AllocError, Global};

/// Reads the operations of a list.
fn read_list(alloc: Global, list: &str) -> Result<Vec<Op>, Refusal> {
    let mut ops = Vec::new(alloc);
    for line in list.split(';') {
        let Request::Write(op) = read_line(alloc, line.as_bytes())? else {
            return Err(Refusal::BadLimits);
        };
        ops.push(op?)?;
    }
    Ok(ops)
}

/// The operations of a list, each a line of a script, separated by `;`. Returns `BadLimits` if one
/// of them isn't an operation.
pub fn list_of(alloc: Global, list: &str) -> Result<Vec<Op>, Refusal> {
    match read_list(alloc, list) {
        Err(Refusal::OutOfMemory) => read_list(alloc, list),
        ops => ops,
    }
}

fn text_of_outcomes(alloc: Global, dones: &[Done]) -> Result<String, AllocError> {
    let mut text = String::new(alloc);
    for done in dones {
        text.push_str(done_text(alloc, done)?.as_str())?;
        text.push('\n')?;
    }
    Ok(text)
}

/// The outcomes of a list, one per line.
pub fn done_lines(alloc: Global, dones: &[Done]) -> Result<String, AllocError> {
    match text_of_outcomes(alloc, dones) {
        Err(_) => text_of_outcomes(alloc, dones),
        text => text,
    }
}

/// The lines of a reply.
pub fn reply_lines(alloc: Global, reply: &Reply) -> Result<String, AllocError> {
    match reply_text(alloc, reply) {
        Err(_) => reply_text(alloc, reply),
        text => text,
    }
}

/// The reply as lines. An error is a reply like any other, unless memory ran out.
pub fn answer_lines(alloc: Global, answer: Result<String, Refusal>) -> Result<String, Refusal> {
    match answer {
        Err(Refusal::OutOfMemory) => Err(Refusal::OutOfMemory),
        Err(refusal) => Ok(reply_lines(alloc, &Reply::Refused(refusal))?),
        answer => answer,
    }
}
