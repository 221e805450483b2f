//! A witness that one thread hands to another.
ghost use Rattle.std.specs.Prelude.{◌≡◌, None};
ghost use Rattle.be_store.specs.Passes.{IsPassOf};
ghost use Rattle.be_store_tests.specs.Staying.{StaysPass};
ghost use Rattle.be_table.specs.Seats.{pinned_number};
ghost use Rattle.be_table.specs.Works.{IsWitnessOf};

use crate::tests::races::make_hundred;
use be_store::{Pass, Store, Witness};
use std::thread;
use std::thread::Threads;

/// Joins the witness and pins. Returns the pin's number.
fn pin_after(store: &Store, mut pass: Pass, mut witness: Witness) -> (Pass, u64)
    requires pass { IsPassOf store.now pass × (pinned_number pass.knows.phase ≡ None) }
    requires witness { IsWitnessOf store.now witness }
    ensures pass { StaysPass store.now pass result.0 }
{
    store.join(&mut pass, &mut witness);
    let number = store.pin(&mut pass);
    (pass, number)
}

/// The first pass hands what it has seen to the second, which pins on its own thread while the
/// first makes a hundred nodes. Returns whether all nodes were accepted, and the pin's number.
pub(crate) fn hand_over<R: Threads + Sync>(
    rt: &R,
    store: &Store,
    mut first: Pass,
    second: Pass,
) -> ((Pass, bool), (Pass, u64))
    requires first { IsPassOf store.now first }
    requires second { IsPassOf store.now second × (pinned_number second.knows.phase ≡ None) }
    ensures first { StaysPass store.now first result.0.0 }
    ensures second { StaysPass store.now second result.1.0 }
{
    let witness = store.witness(&mut first);
    thread::join(
        rt,
        || make_hundred(store, first),
        || pin_after(store, second, witness),
    )
}
