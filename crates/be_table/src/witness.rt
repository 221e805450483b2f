//! Witnesses: what a pass has seen of the journal, recorded for other passes.
//!
//! A pass makes a witness of what it has seen, and the witness can be sent to another thread over
//! any channel. A pass on that thread that joins the witness has then seen at least as much. It
//! therefore pins that version or a later one, and its writes come after it.
ghost use Rattle.std.specs.Prelude.{◌≡◌, true, false, [], length};
ghost use Rattle.be_table.specs.Rule.{front_of, witnessing};

use crate::pass::View;
use crate::seat::Base;
use atomic_table::Badge;
use std::marker::Model;
use std::mem;

/// A prefix of the journal that some pass has seen. A witness that has been moved out is blank, and
/// no pass may join it.
#[derive(Drop)]
pub struct Witness {
    badge: Badge<View>,
    commits: u64,
}

impl Model for Witness {
    ghost use Rattle.be_table.specs.Place.{WitnessFacts};

    ghost Value = { WitnessFacts };

    ghost use Rattle.be_table.specs.Witnesses.{facts_of, IsWitness};

    ghost view = { facts_of };

    ghost invariant = { IsWitness };
}

/// Returns `value` unchanged. It compiles only if values of the type may be sent to another thread.
fn sent<T: Send>(value: T) -> T
    ensures { result ≡ value }
{
    value
}

impl Witness {
    pub(crate) fn of(base: Base, commits: u64) -> Witness
        requires front { base.me ≡ (witnessing (front_of base.me.0), []) }
        requires length { length (front_of base.me.0) ≡ commits }
        ensures { (result.blank ≡ false) × (result.table ≡ base.table_id)
            × (result.seen ≡ front_of base.me.0) }
    {
        Witness {
            badge: base.into_badge(),
            commits,
        }
    }

    /// Returns the underlying seat and the length of its front.
    pub(crate) fn into_base(self) -> (Base, u64)
        requires { self.blank ≡ false }
        ensures front { (result.0.table_id ≡ self.table)
            × (result.0.me ≡ (witnessing self.seen, [])) }
        ensures length { length self.seen ≡ result.1 }
    {
        let Witness { badge, commits } = self;
        (badge.into_seat(), commits)
    }

    /// Returns how many entries of the journal were seen.
    pub fn seen(&self) -> u64
        requires { self.now.blank ≡ false }
        ensures { result ≡ length self.now.seen }
    {
        self.commits
    }

    /// A law of the type: a witness may be sent to another thread. It does nothing.
    pub fn may_move(self) -> Witness
        ensures { result ≡ self }
    {
        sent(self)
    }

    /// Moves the witness out and leaves a blank one in its place. No step.
    pub fn move_out(&mut self) -> Witness
        ensures { (result ≡ self.old) × (self.new.blank ≡ true) }
    {
        let commits = self.commits;
        let badge = mem::replace(&mut self.badge, Badge::blank());
        Witness { badge, commits }
    }
}
