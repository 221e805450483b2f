//! Requests of tests and the texts of answers, in the words of scripts. If memory runs out, a
//! request is made again.
use arrayvec::ArrayVec;
use be_script_language::{Reply, Request, read_line};
use be_test_tools::{done_lines, reply_lines};
use be_value::Refusal;
use be_volume::Done;
use std::alloc::{AllocError, Global};

/// What a line asks for.
pub(crate) fn request_of(alloc: Global, line: &str) -> Result<Request, AllocError> {
    match read_line(alloc, line.as_bytes()) {
        Err(_) => read_line(alloc, line.as_bytes()),
        request => request,
    }
}

pub(crate) fn refused(alloc: Global, refusal: Refusal) -> Result<String, AllocError> {
    reply_lines(alloc, &Reply::Refused(refusal))
}

/// The text of the answer to a query.
pub(crate) fn nodes_text(
    alloc: Global,
    answer: Result<Vec<u64>, Refusal>,
) -> Result<String, AllocError> {
    match answer {
        Ok(nodes) => reply_lines(alloc, &Reply::Nodes(nodes)),
        Err(refusal) => refused(alloc, refusal),
    }
}

/// The text of the answer to a write.
pub(crate) fn written_text(
    alloc: Global,
    answer: Result<ArrayVec<Done, 64>, Refusal>,
) -> Result<String, AllocError> {
    match answer {
        Ok(dones) => done_lines(alloc, dones.as_slice()),
        Err(refusal) => refused(alloc, refusal),
    }
}
