//! Races: scripts that run concurrently, each on its own thread.
use be_script_runner::{Gate, Limits, OpenGate, RunFault, race};
use be_test_tools::{Narrow, list_with_room, longest_list, may_write};
use be_value::word_of;
use std::alloc::{AllocError, Global};
use std::io::Write;
use std::sync::Wait;
use std::sync::atomic::AtomicU64;
use std::sync::atomic::Ordering::SeqCst;
use std::test::Fail;
use std::thread::Threads;
use std::{str, thread};

/// Fails, and shows the text that was written, unless it is as expected.
pub fn expect(is_as_expected: bool, written: &str) -> Result<(), Fail> {
    if is_as_expected {
        return Ok(());
    }
    Err(Fail::new(written))
}

/// The scripts in the form that a race takes.
fn scripts_of(alloc: Global, texts: &[&str]) -> Result<Vec<Vec<u8>>, AllocError> {
    let mut scripts = Vec::new(alloc);
    for text in texts {
        scripts.push(text.as_bytes().to_vec(alloc)?)?;
    }
    Ok(scripts)
}

/// Races scripts on a store with this many pages and a limit of a thousand commits.
fn race_on<R: Threads + Wait, G: Gate + Sync, W: Write>(
    rt: &R,
    scripts: Vec<Vec<u8>>,
    pages: u64,
    gate: &G,
    writer: &mut W,
) -> Result<bool, RunFault> {
    let alloc = *scripts.allocator();
    let limits = Limits {
        pages,
        passes: scripts.len() as u64,
        commits: 1000,
    };
    if scripts.len() < 2 || scripts.len() > 4 {
        return Err(RunFault::Limits);
    }
    race(rt, alloc, scripts, limits, gate, writer)
}

/// The text that was written, or `None` if a line was refused because memory ran out.
fn text_of(written: Vec<u8>) -> Option<String> {
    let text = String::from_utf8(written).ok()?;
    if text.contains("refused 10 OutOfMemory\n") {
        return None;
    }
    Some(text)
}

/// The text that a race on this many pages writes, or `None` if memory ran out.
fn raced_on<R: Threads + Wait, G: Gate + Sync>(
    rt: &R,
    alloc: Global,
    texts: &[&str],
    pages: u64,
    gate: &G,
) -> Result<Option<String>, RunFault> {
    let Ok(scripts) = scripts_of(alloc, texts) else {
        return Ok(None);
    };
    let mut written = Vec::new(alloc);
    match race_on(rt, scripts, pages, gate, &mut written) {
        Ok(true) => Ok(text_of(written)),
        Ok(false) => Err(RunFault::Limits),
        // A vector that can't grow counts as a failed write.
        Err(RunFault::Memory | RunFault::Write) => Ok(None),
        Err(fault) => Err(fault),
    }
}

/// The text that a race on 256 pages writes, or `None` if memory ran out.
pub fn raced<R: Threads + Wait, G: Gate + Sync>(
    rt: &R,
    alloc: Global,
    texts: &[&str],
    gate: &G,
) -> Result<Option<String>, RunFault> {
    raced_on(rt, alloc, texts, 256, gate)
}

/// The text that a race writes. If memory ran out, the race is repeated.
fn outcome_of<R: Threads + Wait, G: Gate + Sync>(
    rt: &R,
    alloc: Global,
    texts: &[&str],
    gate: &G,
) -> Result<String, Fail> {
    if let Some(written) = raced(rt, alloc, texts, gate)? {
        return Ok(written);
    }
    match raced(rt, alloc, texts, gate)? {
        Some(written) => Ok(written),
        None => Err(Fail::new("out of memory")),
    }
}

const OF_TWO: &str = "pass 0\nnode 1\npass 1\njournal 1\n1 by 0 new -> node 1\nreplay ok\n";

#[test]
fn race_of_two(rt: HostRuntime) -> Result<(), Fail> {
    let written = outcome_of(&rt, rt.alloc(), &["new\n", ""], &OpenGate)?;
    expect(written.as_str() == OF_TWO, written.as_str())
}

/// The calls to a gate for the lines of one pass.
#[derive(Drop)]
struct Calls {
    /// The last line that began, and the last line that ended.
    begun: AtomicU64,
    ended: AtomicU64,
    /// The number of calls that were out of order.
    strays: AtomicU64,
}

impl Calls {
    fn new() -> Calls {
        Calls {
            begun: AtomicU64::new(0),
            ended: AtomicU64::new(0),
            strays: AtomicU64::new(0),
        }
    }

    /// A line begins. The line before it must have just ended.
    fn begin(&self, line: u64) {
        let begun = self.begun.swap(line, SeqCst);
        if begun != self.ended.load(SeqCst) || line != begun.wrapping_add(1) {
            self.strays.fetch_add(1, SeqCst);
        }
    }

    /// A line ends. It must be the last line that began, and must not have ended before.
    fn end(&self, line: u64) {
        let ended = self.ended.swap(line, SeqCst);
        if line != self.begun.load(SeqCst) || line != ended.wrapping_add(1) {
            self.strays.fetch_add(1, SeqCst);
        }
    }

    /// Whether there was exactly one call before and one call after each of this many lines, in
    /// order.
    fn are_of(&self, lines: u64) -> bool {
        self.strays.load(SeqCst) == 0
            && self.begun.load(SeqCst) == lines
            && self.ended.load(SeqCst) == lines
    }
}

/// The calls to a gate for each of two passes.
#[derive(Drop)]
struct Record {
    first: Calls,
    second: Calls,
}

impl Record {
    fn new() -> Record {
        Record {
            first: Calls::new(),
            second: Calls::new(),
        }
    }

    fn calls(&self, pass: u64) -> &Calls {
        if pass == 0 { &self.first } else { &self.second }
    }
}

impl Gate for Record {
    fn before(&self, pass: u64, line: u64) {
        self.calls(pass).begin(line);
    }

    fn after(&self, pass: u64, line: u64) {
        self.calls(pass).end(line);
    }
}

/// A flag for each of two passes. Before its second line, each pass raises its flag, and waits
/// until the other flag is raised.
#[derive(Drop)]
struct Meeting {
    flags: [AtomicU64; 2],
    /// The number of waits that timed out.
    missed: AtomicU64,
    record: Record,
}

impl Meeting {
    fn new() -> Meeting {
        Meeting {
            flags: [AtomicU64::new(0), AtomicU64::new(0)],
            missed: AtomicU64::new(0),
            record: Record::new(),
        }
    }

    /// Whether the other pass's flag is raised within 100,000,000 turns.
    fn meets(&self, pass: u64) -> bool {
        let [first, second] = &self.flags;
        let (mine, other) = if pass == 0 {
            (first, second)
        } else {
            (second, first)
        };
        mine.store(1, SeqCst);
        for _ in 0..100_000_000 {
            if other.load(SeqCst) == 1 {
                return true;
            }
            thread::yield_now();
        }
        false
    }
}

impl Gate for Meeting {
    fn before(&self, pass: u64, line: u64) {
        self.record.before(pass, line);
        if line == 2 && !self.meets(pass) {
            self.missed.fetch_add(1, SeqCst);
        }
    }

    fn after(&self, pass: u64, line: u64) {
        self.record.after(pass, line);
    }
}

/// Whether the gate was called for both lines of both passes, and each pass found the other in the
/// middle of its script.
fn have_met(gate: &Meeting) -> bool {
    gate.missed.load(SeqCst) == 0 && gate.record.first.are_of(2) && gate.record.second.are_of(2)
}

/// Two threads are in the middle of their scripts at the same time. A single thread can't pass this
/// test, whatever order it runs the lines in.
#[test]
fn both_threads_run(rt: HostRuntime) -> Result<(), Fail> {
    let gate = Meeting::new();
    let written = outcome_of(&rt, rt.alloc(), &["new\nnew\n", "new\nnew\n"], &gate)?;
    assert!(rt; have_met(&gate));
    let written = written.as_str();
    expect(
        written.contains("\njournal 4\n") && written.ends_with("\nreplay ok\n"),
        written,
    )
}

/// Whether a gate is called for this many lines of a script, and for no line of an empty second
/// script. Returns `None` if memory ran out.
fn is_called_for_lines<R: Threads + Wait>(
    rt: &R,
    alloc: Global,
    script: &str,
    lines: u64,
) -> Result<Option<bool>, RunFault> {
    let record = Record::new();
    match raced(rt, alloc, &[script, ""], &record)? {
        Some(_) => Ok(Some(record.first.are_of(lines) && record.second.are_of(0))),
        None => Ok(None),
    }
}

/// Fails unless a gate is called for the number of lines given before the script. A `|` in the
/// script stands for an LF.
fn check_lines<R: Threads + Wait>(rt: &R, alloc: Global, line: &str) -> Result<(), Fail> {
    let (count, script) = line.split_once(" ").unwrap_or(("0", line));
    let lines = word_of(count.as_bytes()).unwrap_or(0);
    let script = match script.replace(alloc, "|", "\n") {
        Ok(script) => script,
        Err(_) => script.replace(alloc, "|", "\n")?,
    };
    let called = match is_called_for_lines(rt, alloc, script.as_str(), lines)? {
        None => is_called_for_lines(rt, alloc, script.as_str(), lines)?,
        called => called,
    };
    expect(called == Some(true), line)
}

/// Blank lines, comments and bad lines count, and so does the text after the last LF, unless it is
/// empty.
#[test]
fn lines_at_the_gate(rt: HostRuntime) -> Result<(), Fail> {
    let lines = "1 new\n1 new|\n1 |\n2 ||\n4 # a||new\r|sett|\n2 new| ";
    for line in lines.lines() {
        check_lines(&rt, rt.alloc(), line)?;
    }
    Ok(())
}

/// Lines that write, read, pin and fail, with a batch among them.
const MIXED: &str =
    "new\nmkindex k LONG\nset 1 k LONG 5\nset 2 k LONG 6\nquery k>4\nbegin\nnew\nset 3 k LONG \
     7\nnew\ncommit\npin\ndrop 1\nquery k>4\n\
    unpin\nset 2 k LONG 8\nlive k==8\nrefresh\nrmindex k\ndrop 99\nset 2 \"\" CSTR x\nsett\n# a \
     comment\nnew\n";

/// Fails unless a race of this many such scripts ends with a successful replay.
fn check_race<R: Threads + Wait>(rt: &R, alloc: Global, count: usize) -> Result<(), Fail> {
    let texts = [MIXED; 4];
    if count > 4 {
        return Ok(());
    }
    let written = outcome_of(rt, alloc, &texts[..count], &OpenGate)?;
    let written = written.as_str();
    expect(
        written.starts_with("pass 0\n")
            && written.contains("\njournal ")
            && written.ends_with("\nreplay ok\n"),
        written,
    )
}

#[test]
fn races_of_two_to_four(rt: HostRuntime) -> Result<(), Fail> {
    for count in 2..=4 {
        check_race(&rt, rt.alloc(), count)?;
    }
    Ok(())
}

/// A repeated text. If memory runs out, it is built again.
fn repeated(alloc: Global, text: &str, count: usize) -> Result<String, AllocError> {
    match text.repeat(alloc, count) {
        Err(_) => text.repeat(alloc, count),
        texts => texts,
    }
}

/// Whether the journal has 100 entries with two nodes each, and nothing was refused.
fn has_batches(written: &str) -> bool {
    !written.contains("refused")
        && written.contains("\njournal 100\n")
        && written.contains("\n100 by ")
        && written.matches("new; new -> node ").count() == 100
        && written.ends_with("\nreplay ok\n")
}

/// Batches of two scripts that commit at the same time: each batch is committed as a whole, as one
/// entry.
#[test]
fn batches_at_once(rt: HostRuntime) -> Result<(), Fail> {
    let script = repeated(rt.alloc(), "begin\nnew\nnew\ncommit\n", 50)?;
    let script = script.as_str();
    let written = outcome_of(&rt, rt.alloc(), &[script, script], &OpenGate)?;
    expect(has_batches(written.as_str()), written.as_str())
}

/// A reply is written in one piece among a race's replies, however long it is.
#[test]
fn longest_replies(rt: HostRuntime) -> Result<(), Fail> {
    let (script, replies) = longest_list(rt.alloc())?;
    let written = outcome_of(&rt, rt.alloc(), &[script.as_str(), ""], &OpenGate)?;
    assert!(rt; written.as_str().contains(replies.as_str()));
    Ok(())
}

/// How a race ended, and whether anything was written, in words.
fn words_of(ended: Result<bool, RunFault>, has_written: bool) -> &'static str {
    match (ended, has_written) {
        (Ok(true), true) => "right, written",
        (Ok(true), false) => "right",
        (Ok(false), _) => "wrong",
        (Err(RunFault::Memory | RunFault::Write), _) => "memory",
        (Err(RunFault::Limits), false) => "limits",
        (Err(RunFault::TooLong), false) => "too long",
        (Err(RunFault::Read), false) => "read",
        (Err(_), true) => "a fault, written",
    }
}

/// How a race of these scripts on this many pages ends, in words.
fn end_of<R: Threads + Wait>(rt: &R, scripts: Vec<Vec<u8>>, pages: u64) -> &'static str {
    let mut written: Vec<u8> = Vec::new(*scripts.allocator());
    let ended = race_on(rt, scripts, pages, &OpenGate, &mut written);
    words_of(ended, !written.is_empty())
}

/// How a race of an empty script and a script with this many bytes ends, in words.
fn end_of_length<R: Threads + Wait>(rt: &R, alloc: Global, length: usize) -> &'static str {
    let (Ok(mut scripts), Ok(long)) = (scripts_of(alloc, &[""]), vec![in alloc; b'#'; length])
    else {
        return "memory";
    };
    if scripts.push(long).is_err() {
        return "memory";
    }
    end_of(rt, scripts, 64)
}

/// Fails unless the race ends like this. If memory ran out, the race is repeated.
fn check_length<R: Threads + Wait>(
    rt: &R,
    alloc: Global,
    length: usize,
    end: &str,
) -> Result<(), Fail> {
    let ended = match end_of_length(rt, alloc, length) {
        "memory" => end_of_length(rt, alloc, length),
        ended => ended,
    };
    expect(ended == end, ended)
}

/// If a script that follows an empty one is too long, nothing is written. With one byte less, it is
/// run.
#[test]
fn longest_scripts(rt: HostRuntime) -> Result<(), Fail> {
    check_length(&rt, rt.alloc(), 1_048_577, "too long")?;
    check_length(&rt, rt.alloc(), 1_048_576, "right, written")
}

/// How a race of two short scripts on this many pages ends.
fn end_on<R: Threads + Wait>(rt: &R, alloc: Global, pages: u64) -> &'static str {
    match scripts_of(alloc, &["new\n", ""]) {
        Ok(scripts) => end_of(rt, scripts, pages),
        Err(_) => "memory",
    }
}

/// Fails unless this number of pages is reported as out of range. If memory ran out, the race is
/// repeated.
fn check_limits<R: Threads + Wait>(rt: &R, alloc: Global, pages: u64) -> Result<(), Fail> {
    let ended = match end_on(rt, alloc, pages) {
        "memory" => end_on(rt, alloc, pages),
        ended => ended,
    };
    expect(ended == "limits", ended)
}

/// A limit that is out of range is reported first, and nothing is written.
#[test]
fn limits_of_a_race(rt: HostRuntime) -> Result<(), Fail> {
    check_limits(&rt, rt.alloc(), 7)?;
    check_limits(&rt, rt.alloc(), 16385)
}

/// The number of nodes that the second script of a race created, and the number of its lines that
/// were refused with Full and this number of entries.
fn count_fulls(alloc: Global, written: &str) -> Result<(usize, usize), AllocError> {
    let entries = written.matches(" by 1 new -> node ").count();
    let full = format!(in alloc; "refused 11 Full {entries}")?;
    let full = full.as_str();
    let fulls = written.lines().filter(|line| *line == full).count();
    Ok((entries, fulls))
}

/// These two numbers for a race of an empty script and this script on this many pages. Returns
/// `None` if memory ran out.
fn fulls_on<R: Threads + Wait>(
    rt: &R,
    alloc: Global,
    script: &str,
    pages: u64,
) -> Result<Option<(usize, usize)>, RunFault> {
    match raced_on(rt, alloc, &["", script], pages, &OpenGate)? {
        Some(written) => Ok(count_fulls(alloc, written.as_str()).ok()),
        None => Ok(None),
    }
}

/// Fails unless a store with this many pages creates 60 nodes, or refuses the nodes that it can't
/// create.
fn check_fulls<R: Threads + Wait>(
    rt: &R,
    alloc: Global,
    script: &str,
    pages: u64,
    are_refused: bool,
) -> Result<(), Fail> {
    let counted = match fulls_on(rt, alloc, script, pages)? {
        None => fulls_on(rt, alloc, script, pages)?,
        counted => counted,
    };
    let (entries, fulls) = counted.unwrap_or((0, 0));
    if fulls == 60_usize.saturating_sub(entries) && (fulls > 0) == are_refused {
        return Ok(());
    }
    Err(Fail::new(pages))
}

/// A race has the number of pages given in its limits. With 8 pages, some of 60 nodes are refused,
/// and the current version is reported because nothing is pinned. With 64 pages, all are created.
#[test]
fn pages_of_a_race(rt: HostRuntime) -> Result<(), Fail> {
    let script = repeated(rt.alloc(), "new\n", 60)?;
    check_fulls(&rt, rt.alloc(), script.as_str(), 8, true)?;
    check_fulls(&rt, rt.alloc(), script.as_str(), 64, false)
}

/// Whether a race writes all the bytes that the writer accepts, and then ends with `Write`, or with
/// success if the writer accepts the whole text. It may return false if memory ran out, which isn't
/// reported as `Write`.
fn fills<R: Threads + Wait>(rt: &R, alloc: Global, room: usize) -> bool {
    let Ok(scripts) = scripts_of(alloc, &["new\n", ""]) else {
        return false;
    };
    let mut writer = Narrow::new(OF_TWO.as_bytes(), room, true);
    let ended = race_on(rt, scripts, 64, &OpenGate, &mut writer);
    writer.may_end(
        matches!(&ended, Ok(true)),
        matches!(&ended, Err(RunFault::Write)),
    )
}

/// A writer that fails at each position in turn; a prefix is written.
#[test]
fn failing_writer_of_a_race(rt: HostRuntime) -> Result<(), Fail> {
    let alloc = rt.alloc();
    for room in 0..=OF_TWO.len() {
        assert!(rt;
            fills(&rt, alloc, room) || fills(&rt, alloc, room),
            "{room}"
        );
    }
    Ok(())
}

/// The text that is written if the only line of a race is refused because memory ran out.
const OF_NONE: &str = "pass 0\nrefused 10 OutOfMemory\npass 1\njournal 0\nreplay ok\n";

/// If memory runs out, the race returns Memory or the line is refused, even with a writer that
/// needs no memory.
#[test]
fn refused_memory(rt: HostRuntime) -> Result<(), Fail> {
    let alloc = rt.alloc();
    let mut written = list_with_room(alloc)?;
    let scripts = match scripts_of(alloc, &["new\n", ""]) {
        Ok(scripts) => scripts,
        Err(_) => scripts_of(alloc, &["new\n", ""])?,
    };
    let ended = race_on(&rt, scripts, 64, &OpenGate, &mut written);
    let (well, by_memory) = (
        matches!(&ended, Ok(true)),
        matches!(&ended, Err(RunFault::Memory)),
    );
    assert!(rt;
        may_write(
            str::from_utf8(&written)?,
            well,
            by_memory,
            [OF_TWO, OF_NONE]
        )
    );
    Ok(())
}
