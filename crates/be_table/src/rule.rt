//! The rule of the table and the names of its steps.
//!
//! A step on a word is allowed if it preserves the rule in every state of the table. The definition
//! attached to the step's name says what the pass learns from it.
ghost use Rattle.std.specs.Prelude.{[]};
ghost use Rattle.be_table.specs.Rule.{Shows, everyone, first_seat, other_seats, seats_together};
ghost use Rattle.be_table.specs.Rule.{empty_view, kept_seat, front_seat};
ghost use Rattle.be_table.specs.Steps.{LookMoves, LockMoves, UnlockMoves, CompareMoves, Learned};
ghost use Rattle.be_table.specs.Steps.{Arrived, AnnounceMoves, LookAgainMoves, UnpinMoves};
ghost use Rattle.be_table.specs.Steps.{ScanMoves, PinnedRead, OwnRead, FillMoves, FoundFillMoves};
ghost use Rattle.be_table.specs.Steps.{TakeMoves, GiveUpMoves, PublishMoves};

use crate::pass::View;
use crate::setting::Setting;
use crate::writer_state::WriterState;
use atomic_table::{Join, Play, Split, TableRule};
use std::marker::{Brand, PhantomData};

pub(crate) struct Law;

impl TableRule<Option<WriterState>, View, Setting> for Law {
    ghost holds = { Shows };

    ghost first = { everyone };
}

pub(crate) struct Look;

impl Play<Option<WriterState>, View> for Look {
    ghost then = { LookMoves };
}

pub(crate) struct Lock;

impl Play<Option<WriterState>, View> for Lock {
    ghost then = { LockMoves };
}

pub(crate) struct Unlock;

impl Play<Option<WriterState>, View> for Unlock {
    ghost then = { UnlockMoves };
}

/// Gives the first pass of the view its own seat.
pub(crate) struct Deal;

impl Split<View> for Deal {
    ghost left = { other_seats };

    ghost right = { first_seat };
}

impl Join<View> for Deal {
    ghost both = { seats_together };

    ghost spent = { empty_view };
}

/// Compares what two passes in one seat have seen.
pub(crate) struct Compare;

impl Play<Option<WriterState>, View> for Compare {
    ghost then = { CompareMoves };
}

/// Gives what the view's pass has seen a seat of its own, without a pass.
pub(crate) struct Attest;

impl Split<View> for Attest {
    ghost left = { kept_seat };

    ghost right = { front_seat };
}

/// Lets a seat's pass learn the front that the seat holds.
pub(crate) struct Learn;

impl Play<Option<WriterState>, View> for Learn {
    ghost then = { Learned };
}

/// Creates a seat without a pass.
pub(crate) struct Arrive;

impl Play<Option<WriterState>, View> for Arrive {
    ghost then = { Arrived };
}

pub(crate) struct Announce;

impl Play<Option<WriterState>, View> for Announce {
    ghost then = { AnnounceMoves };
}

pub(crate) struct LookAgain;

impl Play<Option<WriterState>, View> for LookAgain {
    ghost then = { LookAgainMoves };
}

pub(crate) struct Unpin;

impl Play<Option<WriterState>, View> for Unpin {
    ghost then = { UnpinMoves };
}

pub(crate) struct Scan;

impl Play<Option<WriterState>, View> for Scan {
    ghost then = { ScanMoves };
}

pub(crate) struct PinnedWord;

impl Play<Option<WriterState>, View> for PinnedWord {
    ghost then = { PinnedRead };
}

pub(crate) struct OwnWord;

impl Play<Option<WriterState>, View> for OwnWord {
    ghost then = { OwnRead };
}

pub(crate) struct Fill;

impl Play<Option<WriterState>, View> for Fill {
    ghost then = { FillMoves };
}

/// A load that fills a word with the value already there.
pub(crate) struct FoundFill;

impl Play<Option<WriterState>, View> for FoundFill {
    ghost then = { FoundFillMoves };
}

pub(crate) struct TakePage;

impl Play<Option<WriterState>, View> for TakePage {
    ghost then = { TakeMoves };
}

pub(crate) struct GiveUp;

impl Play<Option<WriterState>, View> for GiveUp {
    ghost then = { GiveUpMoves };
}

/// The entry and the version page of a step that publishes. Each call chooses them.
pub(crate) trait NextVersion {
    ghost use Rattle.std.specs.Prelude.{ℕ};
    ghost use Rattle.be_table.specs.Imports.{Entry};

    ghost entry: { Entry };

    ghost page: { ℕ };
}

impl NextVersion for Brand {
    ghost entry = { record { by = 0; ops = []; dones = [] } };

    ghost page = { 0 };
}

pub(crate) struct Publish<E> {
    marker: PhantomData<E>,
}

impl<E: NextVersion> Play<Option<WriterState>, View> for Publish<E> {
    ghost then = { PublishMoves E.entry E.page };
}
