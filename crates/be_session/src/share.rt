//! A session's share of its store.
ghost use Rattle.std.specs.Prelude.{◌≡◌, ◌⊎◌, ◌+◌, ◌<◌, ◌^◌, IfErr, IfOk, IfSome, MatchOption};
ghost use Rattle.std.specs.Prelude.{length};
ghost use Rattle.be_session.specs.Imports.{AreNew, IsPassOf, IsWitnessOf, OutOfMemory};
ghost use Rattle.be_session.specs.Sitting.{counted, AreAllSeats, HasMet, IsUnpinnedOf};
ghost use Rattle.be_session.specs.declared.faults.Fault.TheVariants.{NoPass, Refused};

pub(crate) mod returned;

use crate::Fault;
use crate::shared::Shared;
use be_store::{Pass, Refusal, Store, Witness};
use std::alloc::{AllocError, Global};
use std::sync::Arc;

/// A session's share of its store, and what the session has done with it.
///
/// A session reaches the passes that wait in the store only through its share, which counts each
/// time that it gives away a share or a pass, and each time that it finds no pass. So a call that
/// leaves the counts as they were has written nothing by a waiting pass.
#[derive(Drop)]
pub(crate) struct Share {
    shared: Arc<Shared, Global>,
    /// How many shares it has given away.
    given: u64,
    /// How many times it has looked at all slots and found no pass.
    vain: u64,
    /// How many journal entries its pass had seen when it was given away with the pass.
    began: u64,
}

impl Share {
    /// Creates the first share of a store.
    pub(crate) fn first(alloc: Global, store: Store, passes: &[Pass]) -> Result<Share, AllocError>
        requires { AreAllSeats store passes.now }
        ensures store { IfOk result (λ s. s.shared.value ≡ store) }
        ensures counts { IfOk result (λ s. (s.given ≡ 0) × (s.vain ≡ 0) × (s.began ≡ 0)) }
    {
        let shared = Shared::new(alloc, store, passes)?;
        Ok(Share {
            shared: Arc::new(alloc, shared)?,
            given: 0,
            vain: 0,
            began: 0,
        })
    }

    pub(crate) fn store(&self) -> &Store
        ensures { result.now ≡ self.now.shared.value }
    {
        self.shared.store()
    }

    /// Returns how many passes the store has.
    pub(crate) fn passes(&self) -> usize
        ensures count { result ≡ self.now.shared.value.limits.passes }
        ensures few { result < 2 ^ 63 }
    {
        self.shared.passes()
    }

    /// Returns whether this is the store's only share.
    pub(crate) fn is_only(&self) -> bool {
        Arc::strong_count(&self.shared) == 1
    }

    /// Gives away a share, for a session whose pass has never been used. Returns `None` if memory
    /// runs out.
    pub(crate) fn give(&mut self) -> Option<Share>
        ensures store { self.new.shared.value ≡ self.old.shared.value }
        ensures share { IfSome result (λ s. (s.shared.value ≡ self.old.shared.value)
            × (s.given ≡ 0) × (s.vain ≡ 0) × (s.began ≡ 0)) }
        ensures counts { (self.new.vain ≡ self.old.vain) × (self.new.began ≡ self.old.began) }
        ensures given { MatchOption result (self.new.given ≡ self.old.given)
            (λ s. self.new.given ≡ self.old.given + 1) }
    {
        let Some(given) = self.given.checked_add(1) else {
            return None;
        };
        let Ok(shared) = Arc::try_clone(&self.shared) else {
            return None;
        };
        self.given = given;
        Some(Share {
            shared,
            given: 0,
            vain: 0,
            began: 0,
        })
    }

    /// Gives away a share with a pass that was given back. The error is `NoPass` if none waits, or
    /// `OutOfMemory`, in which case the pass remains where it was.
    pub(crate) fn give_with_pass(&mut self) -> Result<(Share, Pass), Fault>
        ensures same { (self.new.shared.value ≡ self.old.shared.value)
            × (self.new.began ≡ self.old.began) }
        ensures share { IfOk result (λ r. (r.0.shared.value ≡ self.old.shared.value)
            × (r.0.given ≡ 0) × (r.0.vain ≡ 0) × (r.0.began ≡ length r.1.knows.seen)) }
        ensures pass { IfOk result (λ r. IsUnpinnedOf self.old.shared.value r.1) }
        ensures counts { IfOk result (λ r. (self.new.given ≡ self.old.given + 1)
            × (self.new.vain ≡ self.old.vain)) }
        ensures err { IfErr result (λ e. (self.new.given ≡ self.old.given)
            × (((e ≡ NoPass) × (self.new.vain ≡ counted self.old.vain))
            ⊎ ((e ≡ Refused OutOfMemory) × (self.new.vain ≡ self.old.vain)))) }
    {
        let Some(returned) = self.shared.take_returned() else {
            self.vain = self.vain.saturating_add(1);
            return Err(Fault::NoPass);
        };
        let Some(share) = self.give() else {
            self.shared.put_back(returned);
            return Err(Fault::Refused(Refusal::OutOfMemory));
        };
        Ok(returned.open(share))
    }

    /// Lets a pass meet a pass that was given back. Returns how many journal entries both have then
    /// seen, or `None` if no pass waits.
    pub(crate) fn meet(&mut self, pass: &mut Pass) -> Option<u64>
        requires pass { IsPassOf self.old.shared.value pass.old }
        ensures pass { IsPassOf self.old.shared.value pass.new }
        ensures same { (self.new.shared.value ≡ self.old.shared.value)
            × (self.new.given ≡ self.old.given) × (self.new.began ≡ self.old.began) }
        ensures met { MatchOption result
            ((pass.new ≡ pass.old) × (self.new.vain ≡ counted self.old.vain))
            (λ n. (self.new.vain ≡ self.old.vain)
            × HasMet self.old.shared.value pass.old.knows pass.new.knows n) }
    {
        let Some(mut returned) = self.shared.take_returned() else {
            self.vain = self.vain.saturating_add(1);
            return None;
        };
        let length = returned.meet(self.shared.store(), pass);
        self.shared.put_back(returned);
        Some(length)
    }

    /// Gives a pass back, after releasing its pin, and returns a witness of what it has seen.
    pub(crate) fn give_back(&self, pass: Pass) -> Witness
        requires { IsPassOf self.now.shared.value pass }
        ensures { IsWitnessOf self.now.shared.value result × (result.seen ≡ pass.knows.seen) }
    {
        self.shared.give_back(pass)
    }

    /// Gives back passes that have never been used.
    pub(crate) fn give_back_all(&self, passes: Vec<Pass>)
        requires { AreNew self.now.shared.value 0 passes.items }
    {
        self.shared.give_back_all(passes);
    }

    /// Returns what the store's sessions share, if this is the only share of it.
    pub(crate) fn into_shared(self) -> Result<Shared, Share>
        ensures ok { IfOk result (λ s. s ≡ self.shared.value) }
        ensures err { IfErr result (λ s. (s.shared.value ≡ self.shared.value)
            × (s.given ≡ self.given) × (s.vain ≡ self.vain) × (s.began ≡ self.began)) }
    {
        let Share {
            shared,
            given,
            vain,
            began,
        } = self;
        match Arc::try_unwrap(shared) {
            Ok(shared) => Ok(shared),
            Err(shared) => Err(Share {
                shared,
                given,
                vain,
                began,
            }),
        }
    }
}
