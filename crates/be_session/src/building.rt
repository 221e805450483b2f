//! Stores that are built from a volume, which is given as other languages encode it.
ghost use Rattle.std.specs.Prelude.{◌≡◌, ℕ, IfErr, IfOk, OnOk};
ghost use Rattle.be_session.specs.Building.{GivesAttribute, GivesIndex, IsNotBuilt, IsNotGiven};
ghost use Rattle.be_session.specs.Building.{IsNoAttribute, IsNoIndex};
ghost use Rattle.be_session.specs.Imports.{with_next};
ghost use Rattle.be_session.specs.Sitting.{BeginsWith};

use crate::meanings::{kind, name, value};
use crate::session::first_session;
use crate::{Fault, Session};
use be_store_building::StoreBuilder;
use std::alloc::Global;

/// Gives the builder an index, by its name and the type code of its kind. Returns the error of the
/// name, then `NoKind`, then the builder's own.
pub fn give_index(builder: &mut StoreBuilder, name_bytes: &[u8], code: u32) -> Result<(), Fault>
    ensures ok { OnOk result (GivesIndex builder.old builder.new name_bytes.now code) }
    ensures err { IfErr result (IsNoIndex builder.old builder.new name_bytes.now code) }
{
    let called = name(name_bytes)?;
    let kind = kind(code)?;
    match builder.index(&called, kind) {
        Ok(()) => Ok(()),
        Err(refusal) => Err(Fault::Refused(refusal)),
    }
}

/// Gives the builder an attribute of its last node, by its name and the encoding of its value.
/// Returns the error of the name, then the error of the value, then the builder's own.
pub fn give_attribute(
    builder: &mut StoreBuilder,
    name_bytes: &[u8],
    code: u32,
    number: u64,
    bytes: &[u8],
    held: bool,
) -> Result<(), Fault>
    ensures ok { OnOk result (GivesAttribute builder.old builder.new name_bytes.now code number
        bytes.now held) }
    ensures err { IfErr result (IsNoAttribute builder.old builder.new name_bytes.now code number
        bytes.now held) }
{
    let called = name(name_bytes)?;
    let value = value(code, number, bytes)?;
    match builder.attribute(&called, &value, held) {
        Ok(()) => Ok(()),
        Err(refusal) => Err(Fault::Refused(refusal)),
    }
}

impl Session {
    /// Opens the store that a builder was given, whose next node will have the number `next`.
    /// Returns a session with the last of its passes, which has seen nothing yet. The other passes
    /// wait with the session, as after `open`.
    ///
    /// Returns the error of the builder's `finish`, or `OutOfMemory`.
    pub fn built(alloc: Global, builder: StoreBuilder, next: u64) -> Result<Session, Fault>
        ensures ok { IfOk result (BeginsWith builder.limits (with_next builder.volume next)) }
        ensures err { IfErr result (IsNotBuilt builder next) }
    {
        let (store, passes) = builder.finish(next)?;
        first_session(alloc, store, passes)
    }
}
