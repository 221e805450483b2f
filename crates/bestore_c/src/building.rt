//! The calls that build a store from a volume, which the caller gives in order.
ghost use Rattle.std.specs.Prelude.{◌≡◌, IfErr, None, OnOk};
ghost use Rattle.bestore_c.specs.Building.{BeginsBuilding, BuildsAttribute, BuildsIndex};
ghost use Rattle.bestore_c.specs.Building.{BuildsNode, FinishesBuilding, GivesNode, IsNoNode};
ghost use Rattle.bestore_c.specs.Calls.{AnswersWhetherOpen, MovesHandle};

use crate::handle::{BuilderHandle, Handle};
use crate::owned::Owned;
use crate::{CLOSED, DONE, NO_MEMORY, OPEN};
use be_session::{Fault, Session, StoreBuilder, give_attribute, give_index};
use be_store::Limits;
use std::alloc::Global;
use std::mem;

/// Gives the builder a node. Returns the builder's own error.
fn give_node(builder: &mut StoreBuilder, node: u64) -> Result<(), Fault>
    ensures ok { OnOk result (GivesNode builder.old builder.new node) }
    ensures err { IfErr result (IsNoNode builder.old builder.new node) }
{
    match builder.node(node) {
        Ok(()) => Ok(()),
        Err(refusal) => Err(Fault::Refused(refusal)),
    }
}

/// Begins a store with these limits, and opens the handle with its builder.
#[unsafe(no_mangle)]
pub extern "C" fn bes_build(
    alloc: Global,
    pages: u64,
    passes: u64,
    commits: u64,
    builder: &mut BuilderHandle,
) -> u32
    ensures { BeginsBuilding (record { pages = pages; passes = passes; commits = commits })
        builder.old.owned.value builder.new.owned.value result }
{
    if builder.live {
        return OPEN;
    }
    let limits = Limits {
        pages,
        passes,
        commits,
    };
    match StoreBuilder::new(alloc, limits) {
        Ok(made) => match Box::new(alloc, made) {
            Ok(made) => {
                *builder.owned.typed() = Owned::of(made);
                builder.live = true;
                DONE
            }
            Err(_) => NO_MEMORY,
        },
        Err(refusal) => Fault::Refused(refusal).code(),
    }
}

/// Gives the builder an index without entries.
#[unsafe(no_mangle)]
pub extern "C" fn bes_build_index(builder: &mut BuilderHandle, name_bytes: &[u8], code: u32) -> u32
    ensures { BuildsIndex builder.old.owned.value builder.new.owned.value name_bytes.now code
        result }
{
    if !builder.live {
        return CLOSED;
    }
    match give_index(builder.owned.typed().lent(), name_bytes, code) {
        Ok(()) => DONE,
        Err(fault) => fault.code(),
    }
}

/// Gives the builder a node without attributes.
#[unsafe(no_mangle)]
pub extern "C" fn bes_build_node(builder: &mut BuilderHandle, node: u64) -> u32
    ensures { BuildsNode builder.old.owned.value builder.new.owned.value node result }
{
    if !builder.live {
        return CLOSED;
    }
    match give_node(builder.owned.typed().lent(), node) {
        Ok(()) => DONE,
        Err(fault) => fault.code(),
    }
}

/// Gives the builder an attribute of its last node. Unless `held` is 0, the index with this name
/// has the attribute.
#[unsafe(no_mangle)]
pub extern "C" fn bes_build_attribute(
    builder: &mut BuilderHandle,
    name_bytes: &[u8],
    code: u32,
    number: u64,
    bytes: &[u8],
    held: u32,
) -> u32
    ensures { BuildsAttribute builder.old.owned.value builder.new.owned.value name_bytes.now code
        number bytes.now held result }
{
    if !builder.live {
        return CLOSED;
    }
    let given = builder.owned.typed().lent();
    match give_attribute(given, name_bytes, code, number, bytes, held != 0) {
        Ok(()) => DONE,
        Err(fault) => fault.code(),
    }
}

/// Closes the builder, and opens the handle of the pass as the first pass of the store that was
/// built.
#[unsafe(no_mangle)]
pub extern "C" fn bes_build_finish(
    alloc: Global,
    builder: &mut BuilderHandle,
    next: u64,
    pass: &mut Handle,
) -> u32
    ensures { FinishesBuilding builder.old.owned.value builder.new.owned.value next
        pass.old.owned.value pass.new.owned.value result }
{
    if !builder.live {
        return CLOSED;
    }
    if pass.live {
        return OPEN;
    }
    let taken = builder.owned.typed().take(alloc);
    builder.live = false;
    match Session::built(alloc, Box::into_inner(taken), next) {
        Ok(session) => match Box::new(alloc, session) {
            Ok(session) => {
                *pass.owned.typed() = Owned::of(session);
                pass.live = true;
                DONE
            }
            Err(_) => NO_MEMORY,
        },
        Err(fault) => fault.code(),
    }
}

/// Closes the builder, and frees what it was given.
#[unsafe(no_mangle)]
pub extern "C" fn bes_build_close(alloc: Global, builder: &mut BuilderHandle) -> u32
    ensures closed { builder.new.owned.value ≡ None }
    ensures answer { AnswersWhetherOpen builder.old.owned.value result }
{
    if !builder.live {
        return CLOSED;
    }
    let taken = builder.owned.typed().take(alloc);
    builder.live = false;
    drop(taken);
    DONE
}

/// Moves the builder of the handle to a closed handle, and closes this one.
#[unsafe(no_mangle)]
pub extern "C" fn bes_move_builder(builder: &mut BuilderHandle, other: &mut BuilderHandle) -> u32
    ensures { MovesHandle builder.old.owned.value other.old.owned.value builder.new.owned.value
        other.new.owned.value result }
{
    if !builder.live {
        return CLOSED;
    }
    if other.live {
        return OPEN;
    }
    mem::swap(builder, other);
    DONE
}
