//! Lines `REQUEST => REPLY`. A line may have several requests, and a reply several lines, separated
//! by ` / `. No line of a reply is empty.
use be_value::Refusal;
use std::alloc::Global;
use std::test::Fail;

/// Anything that can reply to requests.
pub trait Answers {
    /// The reply to a request, with an LF after each line. The only error is `OutOfMemory`, which
    /// leaves everything unchanged.
    fn reply(&mut self, alloc: Global, request: &str) -> Result<String, Refusal>;
}

/// The expected text after the lines of this reply, or `None` if other lines were expected.
pub fn beyond<'a>(expected: &'a str, reply: &str) -> Option<&'a str> {
    let mut expected = expected;
    for line in reply.lines() {
        let (part, rest) = expected.split_once(" / ").unwrap_or((expected, ""));
        if part != line {
            return None;
        }
        expected = rest;
    }
    Some(expected)
}

/// The reply to a request. If memory runs out, the request is repeated.
fn reply_to<A: Answers>(alloc: Global, answers: &mut A, request: &str) -> Result<String, Refusal> {
    match answers.reply(alloc, request) {
        Err(Refusal::OutOfMemory) => answers.reply(alloc, request),
        reply => reply,
    }
}

/// Whether requests get the expected replies.
fn replies<A: Answers>(
    alloc: Global,
    answers: &mut A,
    requests: &str,
    expected: &str,
) -> Result<bool, Refusal> {
    let mut expected = expected;
    for request in requests.split(" / ") {
        let reply = reply_to(alloc, answers, request)?;
        match beyond(expected, reply.as_str()) {
            Some(rest) => expected = rest,
            None => return Ok(false),
        }
    }
    Ok(expected.is_empty())
}

/// Fails unless each request in these lines gets the expected reply. A request that runs out of
/// memory is repeated, so a test passes even if any single request for memory is refused.
pub fn check_lines<A: Answers>(alloc: Global, answers: &mut A, lines: &str) -> Result<(), Fail> {
    for line in lines.lines() {
        let Some((requests, expected)) = line.split_once(" => ") else {
            return Err(Fail::new("no reply"));
        };
        if !replies(alloc, answers, requests, expected)? {
            return Err(Fail::new(line));
        }
    }
    Ok(())
}
