//! Passes of a store that have never been used, which are the ones with the lowest numbers, in
//! order.
ghost use Rattle.std.specs.Prelude.{◌≡◌, ◌<◌, ◌+◌, ◌↔◌, IfSome, IsSome, MatchOption, vec_capacity};
ghost use Rattle.std.specs.Prelude.{vec_len};
ghost use Rattle.be_session.specs.Imports.{newcomer, AreNew, IsPassOf};

use be_store::{Pass, Store};

/// Takes the last of these passes, which leaves room for one.
pub(crate) fn take_last(_store: &Store, passes: &mut Vec<Pass>) -> Option<Pass>
    requires { AreNew _store.now 0 passes.old.items }
    ensures rest { AreNew _store.now 0 passes.new.items }
    ensures pass { IfSome result (λ p. IsPassOf _store.now p
        × (p.knows ≡ newcomer _store.now.limits (vec_len passes.new + 1) (vec_len passes.new))) }
    ensures some { IsSome result ↔ (0 < vec_len passes.old) }
    ensures count { MatchOption result ((vec_len passes.old ≡ 0) × (vec_len passes.new ≡ 0))
        (λ _. vec_len passes.new + 1 ≡ vec_len passes.old) }
    ensures room { IfSome result (λ p. vec_len passes.new < vec_capacity passes.new) }
{
    passes.pop()
}

/// Puts a pass that was taken back at the end of the list.
pub(crate) fn put_last(_store: &Store, passes: &mut Vec<Pass>, pass: Pass)
    requires room { vec_len passes.old < vec_capacity passes.old }
    requires new { AreNew _store.now 0 passes.old.items }
    requires pass { IsPassOf _store.now pass }
    requires unused { pass.knows ≡ newcomer _store.now.limits (vec_len passes.old + 1)
        (vec_len passes.old) }
    ensures new { AreNew _store.now 0 passes.new.items }
    ensures count { vec_len passes.new ≡ vec_len passes.old + 1 }
{
    passes.push_reserved(pass);
}
