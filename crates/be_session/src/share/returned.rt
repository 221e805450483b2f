//! A pass that was given back. It can only meet another pass until it is taken out, which takes a
//! share of the store that was given away, or the store itself.
ghost use Rattle.std.specs.Prelude.{◌≡◌, ◌<◌, false, length};
ghost use Rattle.be_session.specs.Imports.{IsPassOf, IsWitnessOf};
ghost use Rattle.be_session.specs.Sitting.{IsGivenBack, IsReleased, IsUnpinnedOf, MayWaitAt, Meet};

use crate::share::Share;
use be_store::laws::seen_is_legal;
use be_store::{Pass, Store, Witness};
use counted_slot::Fits;

/// A pass that was given back and isn't pinned.
#[derive(Drop)]
pub(crate) struct Returned {
    pass: Pass,
}

impl Fits for Returned {
    type Tag = Pass;

    ghost fits = { λ seat returned. MayWaitAt seat returned.pass };
}

/// Returns the pass, after releasing its pin if it has one.
fn unpinned(store: &Store, mut pass: Pass) -> Pass
    requires { IsPassOf store.now pass }
    ensures pass { IsUnpinnedOf store.now result }
    ensures knows { IsReleased pass.knows result.knows }
    ensures same { (result.knows.number ≡ pass.knows.number)
        × (result.knows.seen ≡ pass.knows.seen) }
{
    if pass.pinned().is_none() {
        return pass;
    }
    store.unpin(&mut pass);
    pass
}

impl Returned {
    /// Makes a pass wait, after releasing its pin. Returns a witness of what it has seen. The pass
    /// does nothing else.
    pub(crate) fn of(store: &Store, pass: Pass) -> (Returned, Witness)
        requires { IsPassOf store.now pass }
        ensures waits { IsUnpinnedOf store.now result.0.pass }
        ensures knows { IsGivenBack pass.knows result.0.pass.knows }
        ensures number { result.0.pass.knows.number ≡ pass.knows.number }
        ensures witness { IsWitnessOf store.now result.1 × (result.1.seen ≡ pass.knows.seen) }
    {
        let mut pass = unpinned(store, pass);
        let witness = store.witness(&mut pass);
        (Returned { pass }, witness)
    }

    /// Lets the waiting pass meet a pass, so that both have then seen the longer of two prefixes of
    /// the journal. Returns the length of that prefix.
    pub(crate) fn meet(&mut self, store: &Store, pass: &mut Pass) -> u64
        requires { IsUnpinnedOf store.now self.old.pass × IsPassOf store.now pass.old }
        ensures waits { IsUnpinnedOf store.now self.new.pass × IsPassOf store.now pass.new }
        ensures met { Meet store.now pass.old.knows self.old.pass.knows pass.new.knows
            self.new.pass.knows result }
    {
        store.meet(pass, &mut self.pass)
    }

    /// Returns the number of the pass.
    pub(crate) fn number(&self, _store: &Store) -> u64
        requires { IsUnpinnedOf _store.now self.now.pass }
        ensures number { result ≡ self.now.pass.knows.number }
        ensures below { result < _store.now.limits.passes }
    {
        seen_is_legal(_store, &self.pass);
        self.pass.number()
    }

    /// Takes the pass out for a new session, which gets this share, and notes in the share how many
    /// entries the pass has seen.
    pub(crate) fn open(self, mut share: Share) -> (Share, Pass)
        requires { self.pass.blank ≡ false }
        ensures pass { result.1 ≡ self.pass }
        ensures share { (result.0.shared.value ≡ share.shared.value)
            × (result.0.given ≡ share.given) × (result.0.vain ≡ share.vain) }
        ensures began { result.0.began ≡ length self.pass.knows.seen }
    {
        let Returned { pass } = self;
        share.began = pass.seen();
        (share, pass)
    }

    /// Takes the pass out to close its store. Only a store's owner can lend it mutably.
    pub(crate) fn into_pass(self, _store: &mut Store) -> Pass
        ensures store { _store.new ≡ _store.old }
        ensures pass { result ≡ self.pass }
    {
        let Returned { pass } = self;
        pass
    }
}
