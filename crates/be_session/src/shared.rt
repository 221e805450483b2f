//! What a store's sessions share: the store, and the passes that were given back.
ghost use Rattle.std.specs.Prelude.{◌≡◌, ◌≤◌, ◌<◌, ◌+◌, ◌^◌, ℕ, IfOk, IfSome, length, map, true};
ghost use Rattle.std.specs.Prelude.{vec_capacity, vec_len};
ghost use Rattle.be_session.specs.Imports.{knows_of, AllAt, AreNew, Has, IsPassOf, IsWitnessOf};
ghost use Rattle.be_session.specs.Imports.{StartsWith};
ghost use Rattle.be_session.specs.Finishing.{IsFinishedBy};
ghost use Rattle.be_session.specs.Sitting.{AreAllSeats, IsUnpinnedOf, MayWaitAt};

use crate::passes::take_last;
use crate::share::returned::Returned;
use be_store::laws::seen_is_legal;
use be_store::{Journal, Pass, Store, Witness};
use counted_slot::{Counted, TAKEN};
use std::alloc::{AllocError, Global};
use std::marker::Model;

/// The word of a slot in which no pass waits.
const EMPTY: u64 = 0;

/// The word of a slot in which a pass waits.
const FULL: u64 = 0x1_0000_0000;

/// Puts a pass into its seat's slot. Returns the pass if another pass waits there or if another
/// thread is using the slot.
fn put(slot: &Counted<Option<Returned>>, returned: Returned) -> Option<Returned>
    requires { MayWaitAt slot.now returned.pass }
    ensures { IfSome result (λ r. r ≡ returned) }
{
    let (found, claim) = slot.turn(EMPTY, TAKEN);
    if found != EMPTY {
        claim.done();
        return Some(returned);
    }
    drop(claim.put(Some(returned), FULL));
    None
}

/// Takes the pass that waits in a slot, if there is one.
fn take(slot: &Counted<Option<Returned>>) -> Option<Returned>
    ensures { IfSome result (λ r. MayWaitAt slot.now r.pass) }
{
    let (found, claim) = slot.turn(FULL, TAKEN);
    if found != FULL {
        claim.done();
        return None;
    }
    claim.put(None, EMPTY)
}

/// Appends pass number k from its slot. Returns `false` if the pass isn't there. If k is `own`,
/// that pass is already in the list.
fn collect(
    store: &mut Store,
    slots: &[Counted<Option<Returned>>],
    own: u64,
    k: usize,
    passes: &mut Vec<Pass>,
) -> bool
    requires seats { AreAllSeats store.old slots.now × (k < length slots.now) }
    requires here { AllAt store.old.id passes.old.items }
    requires own { Has (map knows_of passes.old.items) own }
    requires room { vec_len passes.old < vec_capacity passes.old }
    ensures store { store.new ≡ store.old }
    ensures here { AllAt store.old.id passes.new.items }
    ensures more { StartsWith passes.new.items passes.old.items }
    ensures has { result ≡ true → Has (map knows_of passes.new.items) k }
    ensures room { (vec_capacity passes.new ≡ vec_capacity passes.old)
        × (vec_len passes.new ≤ vec_len passes.old + 1) }
{
    if k as u64 == own {
        return true;
    }
    match take(&slots[k]) {
        Some(returned) => {
            passes.push_reserved(returned.into_pass(store));
            true
        }
        None => false,
    }
}

/// Appends the passes from their slots, starting at the number `first` and skipping `own`. Returns
/// `false` if one of them isn't there.
fn collect_all(
    store: &mut Store,
    slots: &[Counted<Option<Returned>>],
    own: u64,
    first: usize,
    passes: &mut Vec<Pass>,
) -> bool
    requires seats { AreAllSeats store.old slots.now }
    requires here { AllAt store.old.id passes.old.items }
    requires own { Has (map knows_of passes.old.items) own }
    requires first { (k : ℕ) → k < first → Has (map knows_of passes.old.items) k }
    requires room { vec_len passes.old + length slots.now ≤ vec_capacity passes.old }
    ensures store { store.new ≡ store.old }
    ensures here { AllAt store.old.id passes.new.items }
    ensures more { StartsWith passes.new.items passes.old.items }
    ensures all { result ≡ true → (k : ℕ) → k < store.old.limits.passes
        → Has (map knows_of passes.new.items) k }
{
    for k in first..slots.len() {
        if !collect(store, slots, own, k, passes) {
            return false;
        }
    }
    true
}

/// A store with a slot for each of its passes.
#[derive(Drop)]
pub(crate) struct Shared {
    store: Store,
    slots: Vec<Counted<Option<Returned>>>,
}

impl Model for Shared {
    ghost use Rattle.be_session.specs.Imports.{coded_opened, Opened};
    ghost use Rattle.be_session.specs.Sitting.{AreAllSeats};

    ghost Value = { Opened };

    ghost coded = { coded_opened };

    ghost view = { λ s. s.store };

    ghost invariant = { λ s. AreAllSeats s.store s.slots.items };
}

impl Shared {
    /// Creates an empty slot for each pass of the store.
    pub(crate) fn new(alloc: Global, store: Store, passes: &[Pass]) -> Result<Shared, AllocError>
        requires { AreAllSeats store passes.now }
        ensures { IfOk result (λ s. s ≡ store) }
    {
        let mut slots = Vec::new(alloc);
        for pass in passes {
            slots.push(Counted::new(None, pass))?;
        }
        Ok(Shared { store, slots })
    }

    pub(crate) fn store(&self) -> &Store
        ensures { result.now ≡ self.now }
    {
        &self.store
    }

    /// Returns how many passes the store has.
    pub(crate) fn passes(&self) -> usize
        ensures count { result ≡ self.now.limits.passes }
        ensures few { result < 2 ^ 63 }
    {
        self.slots.len()
    }

    /// Closes the store with this pass, the passes that have never been used, and all passes that
    /// were given back. Returns `None` if one is missing.
    pub(crate) fn finish(self, pass: Pass, mut passes: Vec<Pass>) -> Option<Journal>
        requires pass { IsPassOf self pass }
        requires new { AreNew self 0 passes.items }
        requires room { vec_len passes + self.limits.passes < vec_capacity passes }
        ensures { IfSome result (IsFinishedBy self.limits pass.knows) }
    {
        let Shared { mut store, slots } = self;
        let (own, first) = (pass.number(), passes.len());
        passes.push_reserved(pass);
        if !collect_all(&mut store, slots.as_slice(), own, first, &mut passes) {
            return None;
        }
        Some(store.close(passes))
    }

    /// Gives a pass back, after releasing its pin, and returns a witness of what it has seen. Each
    /// pass has its own slot, which is empty while the pass is in use, so the pass goes into that
    /// slot.
    pub(crate) fn give_back(&self, pass: Pass) -> Witness
        requires { IsPassOf self.now pass }
        ensures { IsWitnessOf self.now result × (result.seen ≡ pass.knows.seen) }
    {
        seen_is_legal(&self.store, &pass);
        let slot = &self.slots[pass.number() as usize];
        let (returned, witness) = Returned::of(&self.store, pass);
        drop(put(slot, returned));
        witness
    }

    /// Gives back passes that have never been used.
    pub(crate) fn give_back_all(&self, mut passes: Vec<Pass>)
        requires { AreNew self.now 0 passes.items }
    {
        for _left in 0..passes.len() {
            if let Some(pass) = take_last(&self.store, &mut passes) {
                drop(self.give_back(pass));
            }
        }
    }

    /// Takes a pass that was given back out of its slot. Looks at each slot once.
    pub(crate) fn take_returned(&self) -> Option<Returned>
        ensures { IfSome result (λ r. IsUnpinnedOf self.now r.pass) }
    {
        for slot in &self.slots {
            if let Some(returned) = take(slot) {
                return Some(returned);
            }
        }
        None
    }

    /// Puts a pass that was taken out of its slot back into it.
    pub(crate) fn put_back(&self, returned: Returned)
        requires { IsUnpinnedOf self.now returned.pass }
    {
        let slot = &self.slots[returned.number(&self.store) as usize];
        drop(put(slot, returned));
    }
}
