//! Conditional writes, which are made only if no other write was made since the caller's read.
//!
//! A program pins a version, reads it, and calls `apply_if` with the pin's number. If another write
//! came first, the call writes nothing and returns a `Conflict`, and the program pins and reads
//! again. No update is ever lost in this way. A batch can also name the nodes that it creates
//! itself, because `Store::next` returns their numbers.
ghost use Rattle.std.specs.Prelude.{◌≡◌, ◌≤◌, [], IfOk, IfErr, OnErr, length};
ghost use Rattle.be_store.specs.Imports.{OutOfMemory};
ghost use Rattle.be_store.specs.Conditional.{AcceptsAt, IsLastUnapplied, IsUnapplied, was_held};
ghost use Rattle.be_store.specs.Passes.{IsPassOf};
ghost use Rattle.be_store.specs.declared.conditional.ApplyIfError.TheVariants.{Refused};

use crate::tries::{back_off, is_busy, longer};
use crate::writing::write_if;
use crate::{Pass, Store};
use arrayvec::ArrayVec;
use be_value::Refusal;
use be_volume::{Done, Op};
use std::alloc::AllocFailed;
use thiserror::Error;

/// The reason why a conditional write was not made.
#[derive(Debug, Drop, Error)]
pub enum ApplyIfError {
    /// Another write came first: the journal has this many entries, which isn't the number that the
    /// caller passed.
    #[error("another write came first: the journal has {0} entries")]
    Conflict(u64),
    /// The write was refused with an error that `Store::apply` can also return.
    #[error("{0}")]
    Refused(Refusal),
}

impl From<Refusal> for ApplyIfError {
    ghost from_gives = { λ refusal error. error ≡ Refused refusal };

    fn from(refusal: Refusal) -> ApplyIfError {
        ApplyIfError::Refused(refusal)
    }
}

impl<T: Drop> From<AllocFailed<T>> for ApplyIfError {
    ghost from_gives = { λ _ error. error ≡ Refused OutOfMemory };

    fn from(_failed: AllocFailed<T>) -> ApplyIfError {
        ApplyIfError::Refused(Refusal::OutOfMemory)
    }
}

impl Store {
    /// Does what `apply_into` does if the journal has exactly `number` entries, and otherwise
    /// writes nothing. A write by a pass that is pinned to `number` is therefore based on exactly
    /// what the pass read. A pin is unaffected.
    ///
    /// Errors are reported in this order: `Busy`; `Conflict` with the length that was found; the
    /// other errors of `apply_into`. If the call fails, nothing is written and the list is empty. A
    /// `Conflict` costs a lock and an unlock, which are four atomic operations, and allocates no
    /// memory.
    pub fn apply_if_into(
        &self,
        pass: &mut Pass,
        number: u64,
        ops: &[Op],
        dones: &mut ArrayVec<Done, 64>,
    ) -> Result<u64, ApplyIfError>
        requires pass { IsPassOf self.now pass.old }
        requires count { (1 ≤ length ops.now) × (length ops.now ≤ 64) }
        ensures pass { IsPassOf self.now pass.new }
        ensures accepted { IfOk result (λ n. AcceptsAt pass.old.knows pass.new.knows number ops.now
            n dones.new.items) }
        ensures refused { IfErr result (IsUnapplied pass.old.knows pass.new.knows number ops.now) }
        ensures empty { OnErr result (dones.new.items ≡ []) }
    {
        dones.clear();
        let mut writing = self.lock(pass)?;
        let answer = write_if(&mut writing, number, ops, dones);
        *pass = writing.unlock();
        pass.is_pass();
        match answer {
            Ok(length) => Ok(length),
            Err(error) => {
                dones.clear();
                Err(error)
            }
        }
    }

    /// Does what `apply_if_into` does, but returns the outcomes in a new list.
    pub fn apply_if(
        &self,
        pass: &mut Pass,
        number: u64,
        ops: &[Op],
    ) -> Result<(u64, ArrayVec<Done, 64>), ApplyIfError>
        requires pass { IsPassOf self.now pass.old }
        requires count { (1 ≤ length ops.now) × (length ops.now ≤ 64) }
        ensures pass { IsPassOf self.now pass.new }
        ensures accepted { IfOk result (λ r. AcceptsAt pass.old.knows pass.new.knows number ops.now
            r.0 r.1.items) }
        ensures refused { IfErr result (IsUnapplied pass.old.knows pass.new.knows number ops.now) }
    {
        let mut dones = ArrayVec::new();
        match self.apply_if_into(pass, number, ops, &mut dones) {
            Ok(length) => Ok((length, dones)),
            Err(error) => Err(error),
        }
    }

    /// Does what `apply_if` does, but retries while another pass holds the lock, for up to `tries`
    /// attempts in total. Between attempts it yields to other threads, as `apply_or_retry` does. A
    /// `Conflict` is returned immediately, because the same call can no longer succeed.
    pub fn apply_if_or_retry(
        &self,
        pass: &mut Pass,
        number: u64,
        ops: &[Op],
        tries: u64,
    ) -> Result<(u64, ArrayVec<Done, 64>), ApplyIfError>
        requires pass { IsPassOf self.now pass.old }
        requires count { (1 ≤ length ops.now) × (length ops.now ≤ 64) }
        requires tries { 1 ≤ tries }
        ensures pass { IsPassOf self.now pass.new }
        ensures accepted { IfOk result (λ r. AcceptsAt pass.old.knows pass.new.knows number ops.now
            r.0 r.1.items) }
        ensures refused { IfErr result (IsLastUnapplied tries pass.old.knows pass.new.knows number
            ops.now) }
    {
        let mut turns = 1;
        for _made in 1..tries {
            let answer = self.apply_if(pass, number, ops);
            if !was_held(&answer) {
                return answer;
            }
            back_off(turns);
            turns = longer(turns);
        }
        self.apply_if(pass, number, ops)
    }
}

/// Returns whether the write failed because another pass held the lock.
fn was_held(answer: &Result<(u64, ArrayVec<Done, 64>), ApplyIfError>) -> bool
    ensures { result ≡ was_held answer.now }
{
    match answer {
        Err(ApplyIfError::Refused(refusal)) => is_busy(refusal),
        _ => false,
    }
}
