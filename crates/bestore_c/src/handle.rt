//! The structs that C holds.
//!
//! The content of a handle is a boxed value that is kept as a pointer, or nothing. The type of the
//! pointer doesn't mention the value, so the struct can be stored in memory that C passes.
ghost use Rattle.std.specs.Prelude.{◌≡◌, Option, is_some};
ghost use Rattle.std.specs.Coded.{codes};
ghost use Rattle.bestore_c.specs.Imports.{builder_row, change_row, coded_option, coded_prepared};
ghost use Rattle.bestore_c.specs.Imports.{coded_setting, coded_state, ghosts, place_row};
ghost use Rattle.bestore_c.specs.Imports.{prepared_row, session_row};
ghost use Rattle.bestore_c.specs.Imports.{witness_row};
ghost use Rattle.bestore_c.specs.Owned.{may_own};

use crate::owned::Owned;
use be_change::Change;
use be_session::{Prepared, Session, StatePlace, StoreBuilder, sent};
use be_store::Witness;
use std::alloc::Global;
use std::marker::Model;

/// The content of a pass's handle.
#[repr(C)]
#[derive(Drop)]
pub struct OwnedSession {
    at: *mut u8,
    alloc: Global,
    pub ghost value: { Option (session_row).Denot } by { Prim.hlevel (codes, coded_setting) },
}

impl Model for OwnedSession {
    ghost also_owns = { λ p. may_own (ghosts.dealloc_token p.alloc) session_row p.at p.value };
}

unsafe impl Send for OwnedSession {}

impl OwnedSession {
    ghost use Rattle.bestore_c.specs.Imports.{sem};
    ghost use Rattle.bestore_c.specs.Lent.{LendsSession};

    /// Lends the content with a pointer of its type.
    pub fn typed(&mut self) -> &mut Owned<Session, Global>
        ensures* writes_back { sem 𝓛 (LendsSession self.entry result) }
        ensures value { self.old.value ≡ result.now.value }
    {
        unsafe { &mut *(self as *mut OwnedSession as *mut Owned<Session, Global>) }
    }
}

/// The handle of a pass in C, which is either closed or open with a session. A handle of all zero
/// bytes is closed.
#[repr(C)]
#[derive(Drop)]
pub struct Handle {
    pub live: bool,
    pub owned: OwnedSession,
    ghost full: { live ≡ is_some owned.value },
}

/// The content of a prepared query's handle.
#[repr(C)]
#[derive(Drop)]
pub struct OwnedQuery {
    at: *mut u8,
    alloc: Global,
    pub ghost value: { Option (prepared_row).Denot } by { coded_option coded_prepared },
}

impl Model for OwnedQuery {
    ghost also_owns = { λ p. may_own (ghosts.dealloc_token p.alloc) prepared_row p.at p.value };
}

impl OwnedQuery {
    ghost use Rattle.bestore_c.specs.Imports.{sem};
    ghost use Rattle.bestore_c.specs.Lent.{LendsQuery};

    /// Lends the content with a pointer of its type.
    pub fn typed(&mut self) -> &mut Owned<Prepared, Global>
        ensures* writes_back { sem 𝓛 (LendsQuery self.entry result) }
        ensures value { self.old.value ≡ result.now.value }
    {
        unsafe { &mut *(self as *mut OwnedQuery as *mut Owned<Prepared, Global>) }
    }
}

/// The handle of a prepared query in C, which is either closed or open with the query. A handle of
/// all zero bytes is closed.
#[repr(C)]
#[derive(Drop)]
pub struct PreparedHandle {
    pub live: bool,
    pub owned: OwnedQuery,
    ghost full: { live ≡ is_some owned.value },
}

/// The content of a place's handle.
#[repr(C)]
#[derive(Drop)]
pub struct OwnedPlace {
    at: *mut u8,
    alloc: Global,
    pub ghost value: { Option (place_row).Denot },
}

impl Model for OwnedPlace {
    ghost also_owns = { λ p. may_own (ghosts.dealloc_token p.alloc) place_row p.at p.value };
}

impl OwnedPlace {
    ghost use Rattle.bestore_c.specs.Imports.{sem};
    ghost use Rattle.bestore_c.specs.Lent.{LendsPlace};

    /// Lends the content with a pointer of its type.
    pub fn typed(&mut self) -> &mut Owned<StatePlace, Global>
        ensures* writes_back { sem 𝓛 (LendsPlace self.entry result) }
        ensures value { self.old.value ≡ result.now.value }
    {
        unsafe { &mut *(self as *mut OwnedPlace as *mut Owned<StatePlace, Global>) }
    }
}

/// The handle of a place in the operations of a version in C. It is either open with the place, or
/// closed, which means before the first operation. A handle of all zero bytes is closed.
#[repr(C)]
#[derive(Drop)]
pub struct PlaceHandle {
    pub live: bool,
    pub owned: OwnedPlace,
    ghost full: { live ≡ is_some owned.value },
}

/// The content of a witness's handle.
#[repr(C)]
#[derive(Drop)]
pub struct OwnedWitness {
    at: *mut u8,
    alloc: Global,
    pub ghost value: { Option (witness_row).Denot },
}

impl Model for OwnedWitness {
    ghost also_owns = { λ p. may_own (ghosts.dealloc_token p.alloc) witness_row p.at p.value };
}

unsafe impl Send for OwnedWitness {}

impl OwnedWitness {
    ghost use Rattle.bestore_c.specs.Imports.{sem};
    ghost use Rattle.bestore_c.specs.Lent.{LendsWitness};

    /// Lends the content with a pointer of its type.
    pub fn typed(&mut self) -> &mut Owned<Witness, Global>
        ensures* writes_back { sem 𝓛 (LendsWitness self.entry result) }
        ensures value { self.old.value ≡ result.now.value }
    {
        unsafe { &mut *(self as *mut OwnedWitness as *mut Owned<Witness, Global>) }
    }
}

/// A witness's handle in C, which is either closed or open with the witness. A handle of all zero
/// bytes is closed.
#[repr(C)]
#[derive(Drop)]
pub struct WitnessHandle {
    pub live: bool,
    pub owned: OwnedWitness,
    ghost full: { live ≡ is_some owned.value },
}

/// The content of a change's handle.
#[repr(C)]
#[derive(Drop)]
pub struct OwnedDraft {
    at: *mut u8,
    alloc: Global,
    pub ghost value: { Option (change_row).Denot },
}

impl Model for OwnedDraft {
    ghost also_owns = { λ p. may_own (ghosts.dealloc_token p.alloc) change_row p.at p.value };
}

unsafe impl Send for OwnedDraft {}

impl OwnedDraft {
    ghost use Rattle.bestore_c.specs.Imports.{sem};
    ghost use Rattle.bestore_c.specs.Lent.{LendsDraft};

    /// Lends the content with a pointer of its type.
    pub fn typed(&mut self) -> &mut Owned<Change, Global>
        ensures* writes_back { sem 𝓛 (LendsDraft self.entry result) }
        ensures value { self.old.value ≡ result.now.value }
    {
        unsafe { &mut *(self as *mut OwnedDraft as *mut Owned<Change, Global>) }
    }
}

/// A change's handle in C, which is either closed or open with the change. A handle of all zero
/// bytes is closed.
#[repr(C)]
#[derive(Drop)]
pub struct DraftHandle {
    pub live: bool,
    pub owned: OwnedDraft,
    ghost full: { live ≡ is_some owned.value },
}

/// The content of a builder's handle.
#[repr(C)]
#[derive(Drop)]
pub struct OwnedBuilder {
    at: *mut u8,
    alloc: Global,
    pub ghost value: { Option (builder_row).Denot } by { Prim.hlevel (codes, coded_state) },
}

impl Model for OwnedBuilder {
    ghost also_owns = { λ p. may_own (ghosts.dealloc_token p.alloc) builder_row p.at p.value };
}

impl OwnedBuilder {
    ghost use Rattle.bestore_c.specs.Imports.{sem};
    ghost use Rattle.bestore_c.specs.Lent.{LendsBuilder};

    /// Lends the content with a pointer of its type.
    pub fn typed(&mut self) -> &mut Owned<StoreBuilder, Global>
        ensures* writes_back { sem 𝓛 (LendsBuilder self.entry result) }
        ensures value { self.old.value ≡ result.now.value }
    {
        unsafe { &mut *(self as *mut OwnedBuilder as *mut Owned<StoreBuilder, Global>) }
    }
}

/// A builder's handle in C, which is either closed or open with the builder. A handle of all zero
/// bytes is closed.
#[repr(C)]
#[derive(Drop)]
pub struct BuilderHandle {
    pub live: bool,
    pub owned: OwnedBuilder,
    ghost full: { live ≡ is_some owned.value },
}

/// A law: a handle can be sent to another thread together with its session. The function returns
/// the handle unchanged.
pub fn may_move(pass: Handle) -> Handle
    ensures { result ≡ pass }
{
    sent(pass)
}

/// The same law for a witness's handle.
pub fn witness_may_move(witness: WitnessHandle) -> WitnessHandle
    ensures { result ≡ witness }
{
    sent(witness)
}

/// The same law for a change's handle.
pub fn draft_may_move(draft: DraftHandle) -> DraftHandle
    ensures { result ≡ draft }
{
    sent(draft)
}

/// A value as it is returned to C: its type code, its length in bytes, and the number if it is one,
/// or 0. A signed number is in two's complement.
#[repr(C)]
#[derive(Clone, Copy)]
pub struct Attribute {
    pub code: u32,
    pub length: u64,
    pub number: u64,
}

/// How many operations a returned list has, and how many bytes their parts take.
#[repr(C)]
#[derive(Clone, Copy)]
pub struct Counts {
    pub operations: u64,
    pub bytes: u64,
}

/// How full the store is, and the oldest version that a pass has published, if there is one.
#[repr(C)]
#[derive(Clone, Copy)]
pub struct Usage {
    pub pages: u64,
    pub free: u64,
    pub retired: u64,
    pub entries: u64,
    pub commits: u64,
    pub is_held: bool,
    pub oldest: u64,
    pub holder: u64,
}

/// How many nodes a refresh added to the answer, and how many it removed.
#[repr(C)]
#[derive(Clone, Copy)]
pub struct UpdateCounts {
    pub created: u64,
    pub removed: u64,
}
