//! Threads whose writes depend on what they have read, tested through the store's public calls.

mod writers;

use crate::tests::writers::change_by_four;
use be_test_tools::again;
use std::test::Fail;

/// Four threads make writes that depend on what they have read. No thread mixes up its nodes with
/// another's or loses an increment.
#[test]
fn four_writers(rt: HostRuntime) -> Result<(), Fail> {
    let answer = again!(change_by_four(&rt));
    assert_eq!(rt; answer, Ok((4, 200)));
    Ok(())
}
