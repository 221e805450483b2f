//! A live query during random writes, tested through the store's public calls.

mod at_once;
mod refreshing;

use crate::tests::at_once::follows_another_thread;
use crate::tests::refreshing::follows_random_writes;
use be_store::Refusal;
use be_test_tools::again;
use std::test::Fail;

/// During random writes, the results of refreshes keep a list equal to the query's answer.
#[test]
fn live_query_beside_writes(rt: HostRuntime) -> Result<(), Fail> {
    let follows = match follows_random_writes(rt.alloc()) {
        Err(Refusal::OutOfMemory) => follows_random_writes(rt.alloc()),
        answer => answer,
    };
    assert_eq!(rt; follows, Ok(true));
    Ok(())
}

/// While another thread writes, a refresh that reads only the writes since the last refresh gives
/// the same result as running the whole query at its pin.
#[test]
fn live_query_while_another_thread_writes(rt: HostRuntime) -> Result<(), Fail> {
    let follows = again!(follows_another_thread(&rt));
    assert_eq!(rt; follows, Ok(true));
    Ok(())
}
