//! Writes a state to a second room while another pass writes.
ghost use Rattle.std.specs.Prelude.{◌≡◌};
ghost use Rattle.be_store.specs.Passes.{IsPassOf};
ghost use Rattle.be_store_tests.specs.Staying.{StaysPass};

use crate::tests::races::make_hundred;
use crate::tests::room::{Room, for_one};
use crate::tests::states::lists_of;
use be_store::{Pass, Refusal, Store};
use be_test_tools::again;
use std::alloc::Global;
use std::thread;
use std::thread::Threads;

/// A room to which the state at the pin was written, with each list accepted. The lists are read
/// again if memory runs out.
fn carried(store: &Store, alloc: Global, pass: &mut Pass) -> Result<Room, Refusal>
    requires { IsPassOf store.now pass.old }
    ensures { StaysPass store.now pass.old pass.new }
{
    let lists = again!(lists_of(store, alloc, pass))?;
    let mut room = for_one(alloc, 64, 100)?;
    for ops in &lists {
        room.write_list(ops.as_slice())?;
    }
    Ok(room)
}

/// The same; also returns the pass.
fn carry(store: &Store, alloc: Global, mut pass: Pass) -> (Pass, Result<Room, Refusal>)
    requires { IsPassOf store.now pass }
    ensures { StaysPass store.now pass result.0 }
{
    let room = carried(store, alloc, &mut pass);
    (pass, room)
}

/// One pass makes a hundred nodes, while the state at the other pass's pin is written to a second
/// room, each on its own thread.
pub(crate) fn carry_meanwhile<R: Threads + Sync>(
    rt: &R,
    alloc: Global,
    store: &Store,
    writer: Pass,
    reader: Pass,
) -> ((Pass, bool), (Pass, Result<Room, Refusal>))
    requires { IsPassOf store.now writer × IsPassOf store.now reader }
    ensures { StaysPass store.now writer result.0.0 × StaysPass store.now reader result.1.0 }
{
    thread::join(
        rt,
        || make_hundred(store, writer),
        || carry(store, alloc, reader),
    )
}
