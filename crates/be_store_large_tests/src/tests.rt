//! A store with far more pages than `Store::open` allows, tested through the store's public calls.

mod large;

use crate::tests::large::{fill, passes_of};
use be_store::Refusal;
use be_test_tools::again;
use std::test::Fail;

/// `open_large` refuses one page more than the largest pool has, and one fewer than the smallest.
/// It opens a store that `open` refuses.
#[test]
fn large_limits(rt: HostRuntime) -> Result<(), Fail> {
    assert_eq!(rt; passes_of(rt.alloc(), 16_777_217), Err(Refusal::BadLimits));
    assert_eq!(rt; passes_of(rt.alloc(), 7), Err(Refusal::BadLimits));
    assert_eq!(rt; again!(passes_of(rt.alloc(), 8)), Ok(2));
    assert_eq!(rt; again!(passes_of(rt.alloc(), 16_385)), Ok(2));
    Ok(())
}

/// Ten times the pages of the largest store of `open` are in use. The first node and the last are
/// found, and no other, but not at a pin from before they had the number.
#[test]
fn large_store(rt: HostRuntime) -> Result<(), Fail> {
    let filled = again!(fill(rt.alloc()))?;
    assert!(rt; filled.used > 163_840);
    assert_eq!(rt; filled.early, Some(Refusal::NotCovered));
    assert_eq!(rt; filled.listed, 50);
    assert_eq!(rt; filled.found, (1, filled.created));
    Ok(())
}
