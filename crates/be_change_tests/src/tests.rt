//! Changes: what they read of their own operations, what they refuse, how they end, and two threads
//! that write with them.

mod endings;
mod kinds;
mod moves;
mod reads;
mod steps;

use crate::tests::endings::{ends_again, keeps_pins, refusals, written_of};
use crate::tests::kinds::has_mismatch;
use crate::tests::moves::move_both_ways;
use crate::tests::reads::{kinds_taken, own_reads, unchecked_kinds};
use be_change::CollectError;
use be_store::{Kind, Refusal};
use be_test_tools::again;
use std::test::Fail;

/// Two threads move amounts between two nodes until each has made 200 moves. The sum stays the
/// same, and no move is lost.
#[test]
fn moves_keep_the_sum(rt: HostRuntime) -> Result<(), Fail> {
    let amounts = again!(move_both_ways(&rt));
    assert_eq!(rt; amounts, Ok((1200, 800)));
    Ok(())
}

/// A change reads its own last operation on an attribute or its node, and otherwise the snapshot.
#[test]
fn reads_its_own_operations(rt: HostRuntime) -> Result<(), Fail> {
    let (reads, new) = again!(own_reads(rt.alloc()))?;
    let expected = [
        (Some(1), Some(2)),
        (Some(2), Some(3)),
        (Some(3), None),
        (None, Some(5)),
        (None, Some(1)),
        (Some(1), None),
    ];
    assert_eq!(rt; reads.as_slice(), expected.as_slice());
    assert_eq!(rt; new, Some(5));
    Ok(())
}

/// A set is checked against the index of its name, as the operations before it leave that index.
#[test]
fn refuses_the_wrong_kind(rt: HostRuntime) -> Result<(), Fail> {
    let taken = again!(kinds_taken(rt.alloc()));
    assert_eq!(rt; taken, Ok(((false, true, true), (true, false, true))));
    assert_eq!(rt; again!(unchecked_kinds(rt.alloc())), Ok(true));
    Ok(())
}

/// In a list that is written all at once, the first set of another kind is found, wherever it is.
#[test]
fn finds_the_wrong_kind(rt: HostRuntime) -> Result<(), Fail> {
    let lines = r#"set 1 a CSTR "x"; set 1 b LLNG 1 => none
set 1 a LLNG 1; set 1 a LLNG 2 => 0 CSTR
new; set 1 a CSTR "x"; set 1 a LLNG 1 => 2 CSTR
rmindex a; set 1 a LLNG 1 => none
rmindex a; mkindex a LLNG; set 1 a CSTR "x" => 2 LLNG
set 1 b LLNG 1; mkindex b CSTR; set 1 b LLNG 1 => 2 CSTR"#;
    for line in lines.lines() {
        if !has_mismatch(rt.alloc(), line)? {
            return Err(Fail::new(line));
        }
    }
    Ok(())
}

/// A change of each size is written once, and an empty one writes nothing. The 65th operation is
/// refused.
#[test]
fn sizes(rt: HostRuntime) -> Result<(), Fail> {
    assert_eq!(rt; again!(written_of(rt.alloc(), 0)), Ok((0, 1, 0)));
    for count in 1..=64 {
        assert_eq!(rt;
            again!(written_of(rt.alloc(), count)),
            Ok((1, count + 1, count))
        );
    }
    assert_eq!(rt; again!(written_of(rt.alloc(), 65)), Err(Refusal::TooMany));
    Ok(())
}

/// A change on an old snapshot writes nothing, but its next attempt does.
#[test]
fn begins_anew(rt: HostRuntime) -> Result<(), Fail> {
    assert_eq!(rt;
        again!(ends_again(rt.alloc())),
        Ok((true, Some(7), Some(8)))
    );
    Ok(())
}

/// What the volume refuses is reported at the end, and then nothing is written.
#[test]
fn refused_at_the_end(rt: HostRuntime) -> Result<(), Fail> {
    let refused = again!(refusals(rt.alloc()));
    assert_eq!(rt;
        refused,
        Ok((Refusal::NoNode, Refusal::NoAttr, Refusal::CommitsSpent, 1))
    );
    Ok(())
}

/// A pin that a change made ends with it, and any other stays.
#[test]
fn releases_its_pin(rt: HostRuntime) -> Result<(), Fail> {
    assert_eq!(rt; again!(keeps_pins(rt.alloc())), Ok((None, None, Some(0))));
    Ok(())
}

/// The texts of errors.
#[test]
fn texts(rt: HostRuntime) -> Result<(), Fail> {
    let errors = [
        (CollectError::TooMany, "a change has at most 64 operations"),
        (
            CollectError::WrongKind(Kind::Long, Kind::Cstr),
            "the index of this name takes LONG values, and this one is CSTR",
        ),
        (
            CollectError::OutOfMemory,
            "memory ran out; the call may be made again",
        ),
    ];
    for (error, text) in errors {
        if let Ok(printed) = format!(in rt.alloc(); "{error}") {
            assert_eq!(rt; printed.as_str(), text);
        }
    }
    Ok(())
}
