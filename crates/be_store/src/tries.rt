//! Decides whether a write can be retried, and how long to wait first.
ghost use Rattle.std.specs.Prelude.{◌≡◌, ◌<◌, ◌≤◌, ◌*◌};
ghost use Rattle.be_store.specs.History.{is_busy, was_busy};

use arrayvec::ArrayVec;
use be_value::Refusal;
use be_volume::Done;
use std::thread;

/// The maximum number of times that a pass yields to other threads before it retries. When two
/// passes alternate on the lock at every write, each processor has to fetch what the other has just
/// written. A pass that doesn't get the lock therefore lets the other pass go on writing for a
/// while, twice as long each time.
const MOST_TURNS: u64 = 1024;

/// Returns how often to yield before the next attempt, given that it was `turns` times before the
/// last one.
pub(crate) fn longer(turns: u64) -> u64
    ensures doubled { turns < 1024 → result ≡ 2 * turns }
    ensures enough { 1024 ≤ turns → result ≡ turns }
{
    if turns < MOST_TURNS { 2 * turns } else { turns }
}

/// Yields to other threads this many times.
pub(crate) fn back_off(turns: u64) {
    for _ in 0..turns {
        thread::yield_now();
    }
}

pub(crate) fn is_busy(refusal: &Refusal) -> bool
    ensures { result ≡ is_busy refusal.now }
{
    matches!(refusal, Refusal::Busy(_))
}

/// Returns whether the write failed because another pass held the lock.
pub(crate) fn was_busy(answer: &Result<(u64, ArrayVec<Done, 64>), Refusal>) -> bool
    ensures { result ≡ was_busy answer.now }
{
    match answer {
        Ok(_) => false,
        Err(refusal) => is_busy(refusal),
    }
}
