//! A call that is tried twice.

/// Returns what the call returns or, if the call runs out of memory, what a second try returns. So
/// a test passes even if any single request for memory is refused.
#[macro_export]
macro_rules! again {
    ($call:expr) => {
        match $call {
            Err($crate::Refusal::OutOfMemory) => $call,
            answer => answer,
        }
    };
}
