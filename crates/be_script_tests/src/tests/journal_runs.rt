//! Runs that write their journal, and the scripts that rebuild the journal, or only its state.
use super::LIMITS;
use be_journal_text::{Finding, check, dump, dump_state, reported_journal};
use be_script_runner::{Limits, RunFault, run_with_journal};
use be_test_tools::{Narrow, list_with_room, may_write};
use std::alloc::{AllocError, Global};
use std::str;
use std::test::Fail;

const SCRIPT: &str = "new\nset 1 k LONG 5\nbegin\nnew\nset 2 k LONG 6\ncommit\nget 1 k\ndrop 9\n";

const PRINTED: &str =
    "node 1\nok\nok\nqueued\nqueued\ncommit 3\nnode 2\nok\nLONG 5\nrefused 2 NoNode\njournal 3\n\
1 by 0 new -> node 1\n2 by 0 set 1 \"k\" LONG 5 -> ok\n3 by 0 new; set 2 \"k\" LONG 6 -> node 2; \
     ok\nreplay ok\n";

const DUMPED: &str = "new\nset 1 \"k\" LONG 5\nbegin\nnew\nset 2 \"k\" LONG 6\ncommit\n";

const PRINTED_AGAIN: &str = "node 1\nok\nok\nqueued\nqueued\ncommit 3\nnode 2\nok\njournal 3\n\
1 by 0 new -> node 1\n2 by 0 set 1 \"k\" LONG 5 -> ok\n3 by 0 new; set 2 \"k\" LONG 6 -> node 2; \
 ok\nreplay ok\n";

const STATE: &str = "begin\nnew\nset 1 \"k\" LONG 5\nnew\nset 2 \"k\" LONG 6\ncommit\n";

const STATE_PRINTED: &str =
    "ok\nqueued\nqueued\nqueued\nqueued\ncommit 1\nnode 1\nok\nnode 2\nok\njournal 1\n\
1 by 0 new; set 1 \"k\" LONG 5; new; set 2 \"k\" LONG 6 -> node 1; ok; node 2; ok\nreplay ok\n";

/// What a run of one line writes; and what it writes if memory ran out and the line was refused.
const OF_ONE: &str = "node 1\njournal 1\n1 by 0 new -> node 1\nreplay ok\n";

const OF_NONE: &str = "refused 10 OutOfMemory\njournal 0\nreplay ok\n";

/// Whether a run of a script that writes its journal writes this. If memory may have run out in the
/// first run, the second run decides. The run must report that the journal is legal.
fn prints(alloc: Global, script: &str, printed: &str) -> Result<bool, Fail> {
    Ok(prints_at_once(alloc, script, printed)? || prints_at_once(alloc, script, printed)?)
}

fn prints_at_once(alloc: Global, script: &str, printed: &str) -> Result<bool, Fail> {
    let mut written: Vec<u8> = Vec::new(alloc);
    match run_with_journal(alloc, &mut script.as_bytes(), &mut written, LIMITS) {
        Ok(true) => Ok(written.as_slice() == printed.as_bytes()),
        Ok(false) => Err(Fail::new("the journal isn't legal")),
        // If the vector can't grow, the write fails.
        Err(RunFault::Memory | RunFault::Write) => Ok(false),
        Err(fault) => Err(fault.into()),
    }
}

fn dump_printed(alloc: Global, printed: &str) -> Result<String, AllocError> {
    match reported_journal(alloc, printed.as_bytes())? {
        Some(entries) => dump(alloc, &entries),
        None => Ok(String::new(alloc)),
    }
}

/// Whether this is the script of the state of the written journal. If memory may have run out at
/// the first try, the second one decides.
fn has_state(alloc: Global, printed: &str) -> bool {
    is_state(alloc, printed) || is_state(alloc, printed)
}

fn is_state(alloc: Global, printed: &str) -> bool {
    match dump_state(alloc, printed.as_bytes()) {
        Ok(Some(script)) => script.as_str() == STATE,
        Ok(None) | Err(_) => false,
    }
}

fn is_right(alloc: Global, printed: &str) -> Result<bool, AllocError> {
    Ok(matches!(&check(alloc, printed.as_bytes())?, Finding::Right(_)))
}

/// A script's journal is written after its replies, and running the journal's script writes the
/// same journal.
#[test]
fn journal_is_made_again(rt: HostRuntime) -> Result<(), Fail> {
    assert!(rt; prints(rt.alloc(), SCRIPT, PRINTED)?);
    assert!(rt; prints(rt.alloc(), DUMPED, PRINTED_AGAIN)?);
    Ok(())
}

/// The state's script rebuilds the state by one write, and the result has the same state.
#[test]
fn state_is_made_again(rt: HostRuntime) -> Result<(), Fail> {
    let alloc = rt.alloc();
    assert!(rt; has_state(alloc, PRINTED));
    assert!(rt; prints(alloc, STATE, STATE_PRINTED)?);
    assert!(rt; has_state(alloc, STATE_PRINTED));
    Ok(())
}

/// The written journal is found right, and this script rebuilds it.
#[test]
fn journal_is_read(rt: HostRuntime) -> Result<(), Fail> {
    let alloc = rt.alloc();
    assert!(rt;
        matches!(is_right(alloc, PRINTED), Ok(true)) || matches!(is_right(alloc, PRINTED), Ok(true))
    );
    let dumped = match dump_printed(alloc, PRINTED) {
        Ok(text) => text,
        Err(_) => dump_printed(alloc, PRINTED)?,
    };
    assert!(rt; dumped.as_str() == DUMPED, "{dumped}");
    Ok(())
}

/// Whether a run that writes its journal writes as many bytes as there is room for, and then ends
/// with `Write`. It has to succeed if there is room for all. It may return false if memory ran out,
/// which isn't reported as `Write`.
fn fills(alloc: Global, room: usize) -> bool {
    let mut writer = Narrow::new(PRINTED.as_bytes(), room, true);
    let ended = run_with_journal(alloc, &mut SCRIPT.as_bytes(), &mut writer, LIMITS);
    writer.may_end(
        matches!(&ended, Ok(true)),
        matches!(&ended, Err(RunFault::Write)),
    )
}

/// If the writer fails at any place, a front is written.
#[test]
fn failing_writer_of_a_journal_run(rt: HostRuntime) -> Result<(), Fail> {
    for room in 0..=PRINTED.len() {
        assert!(rt;
            fills(rt.alloc(), room) || fills(rt.alloc(), room),
            "{room}"
        );
    }
    Ok(())
}

/// Over a writer that needs no memory, a refused request for memory is reported as `Memory`, or by
/// the line's reply.
#[test]
fn refused_memory_of_a_journal_run(rt: HostRuntime) -> Result<(), Fail> {
    let alloc = rt.alloc();
    let mut printed = list_with_room(alloc)?;
    let ended = run_with_journal(alloc, &mut b"new\n".as_slice(), &mut printed, LIMITS);
    let well = matches!(&ended, Ok(true));
    let by_memory = matches!(&ended, Err(RunFault::Memory));
    let printed = str::from_utf8(&printed)?;
    assert!(rt; may_write(printed, well, by_memory, [OF_ONE, OF_NONE]));
    Ok(())
}

/// Whether a run with limits out of range ends with that error, and neither reads nor writes
/// anything.
fn leaves_all(alloc: Global, limits: Limits) -> bool {
    let mut script = SCRIPT.as_bytes();
    let mut written: Vec<u8> = Vec::new(alloc);
    let ran = run_with_journal(alloc, &mut script, &mut written, limits);
    matches!(ran, Err(RunFault::Limits)) && script == SCRIPT.as_bytes() && written.is_empty()
}

/// If a limit is out of its range, nothing is read or written.
#[test]
fn limits_are_looked_at(rt: HostRuntime) -> Result<(), Fail> {
    let limits = Limits {
        commits: 0,
        ..LIMITS
    };
    assert!(rt; leaves_all(rt.alloc(), limits));
    Ok(())
}
