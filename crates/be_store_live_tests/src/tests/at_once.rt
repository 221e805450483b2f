//! A live query that one thread refreshes from the changes, while another thread writes.
ghost use Rattle.be_store.specs.Live.{IsLiveOf};
ghost use Rattle.be_store.specs.Passes.{IsPassOf};

use crate::tests::refreshing::{Followed, Numbers, agrees, make_nodes, unread, write_some};
use be_store::{Kind, Limits, Name, Op, Pass, Refusal, Store};
use be_test_tools::both_of;
use std::alloc::{AllocGlobal, Global};
use std::thread;
use std::thread::Threads;

/// Enough nodes for an answer with more than 96 nodes. Above that size, a refresh reads only the
/// changes.
const NODES: u32 = 400;

/// Writes random operations.
fn write_on(store: &Store, mut writer: Pass) -> Result<(), Refusal>
    requires { IsPassOf store.now writer }
{
    write_some(store, &mut writer, NODES, 1_000, &mut Numbers::new(3))
}

/// Refreshes at 100 pins. Returns whether the list was always equal to the query's answer at the
/// pin.
fn follow_on(
    store: &Store,
    alloc: Global,
    mut reader: Pass,
    mut followed: Followed,
) -> Result<bool, Refusal>
    requires reader { IsPassOf store.now reader }
    requires own { IsLiveOf store.now followed.live }
{
    for _ in 0..100 {
        if !agrees(store, alloc, &mut reader, &mut followed)? {
            return Ok(false);
        }
    }
    Ok(true)
}

/// Refreshes and writes concurrently, in a new store.
pub(crate) fn follows_another_thread<R: AllocGlobal + Threads + Sync>(
    rt: &R,
) -> Result<bool, Refusal> {
    let limits = Limits {
        pages: 1024,
        passes: 2,
        commits: 10_000,
    };
    let alloc = rt.alloc();
    let (store, passes) = Store::open(alloc, limits)?;
    let (mut writer, reader) = both_of(passes)?;
    let size = Op::MkIndex(Name::new("size")?, Kind::Llng);
    store.apply(&mut writer, &[size])?;
    make_nodes(&store, &mut writer, NODES)?;
    let followed = unread(alloc)?;
    let (written, follows) = thread::join(
        rt,
        || write_on(&store, writer),
        || follow_on(&store, alloc, reader, followed),
    );
    written?;
    follows
}
