//! Pins, and what a pinned pass reads.
ghost use Rattle.std.specs.Prelude.{◌≡◌, ℕ};
ghost use Rattle.be_table_tests.specs.Imports.{IsSeatOf, Pinned};
ghost use Rattle.be_table_tests.specs.Resting.{IsPinnedSeat, IsResting, StaysSeat};

use be_paged::{get, source};
use be_pages::Look;
use be_plan::Source;
use be_table::{Seat, VersionTable};
use be_value::{Kind, Name, Value};

/// Pins, unless the pass is pinned already, and returns the pin.
#[tactic(auto, using(crate::proofs::Phases::idle_at_rest))]
pub(crate) fn pin(table: &VersionTable, seat: &mut Seat) -> Option<u64>
    requires { IsResting table.now seat.old }
    ensures { StaysSeat table.now seat.old seat.new }
{
    if seat.pinned().is_some() {
        return None;
    }
    let number = table.look(seat);
    table.announce(seat, number);
    Some(table.look_again(seat).0)
}

/// Unpins, and returns whether the pass was pinned.
#[tactic(auto, using(crate::proofs::Phases::pinned_phase))]
pub(crate) fn unpin(table: &VersionTable, seat: &mut Seat) -> bool
    requires { IsResting table.now seat.old }
    ensures { StaysSeat table.now seat.old seat.new }
{
    match seat.pinned() {
        Some(_) => {
            table.unpin(seat);
            true
        }
        None => false,
    }
}

/// Word 2 of the pinned version's page: the next node's number.
pub(crate) fn read(table: &VersionTable, mut seat: Seat) -> (Seat, u64)
    requires { IsPinnedSeat table.now seat }
    ensures { IsPinnedSeat table.now result.0 }
{
    let page = seat.version_page();
    let word = table.pinned_word(&mut seat, page, 2);
    (seat, word)
}

/// The same word, read through a page reader.
pub(crate) fn look_at(table: &VersionTable, seat: Seat) -> (Seat, u64)
    requires { IsPinnedSeat table.now seat }
    ensures { IsPinnedSeat table.now result.0 }
{
    let page = seat.version_page();
    let mut look = table.pinned_look(seat);
    let word = look.word(page, 2);
    (look.into_seat(), word)
}

/// A node's value at a name, in the pinned version.
fn value_of(table: &VersionTable, seat: Seat, node: u64, name: &Name) -> (Seat, Option<Value>)
    requires seat { IsSeatOf table.now seat }
    requires pinned { (x : ℕ) × (n : ℕ) × (seat.knows.phase ≡ Pinned x n) }
    ensures { IsPinnedSeat table.now result.0 }
{
    let page = seat.version_page();
    let mut look = table.pinned_look(seat);
    let value = get(&mut look, page, node, name);
    (look.into_seat(), value)
}

/// The kind of a name's index, and a node's value at the name, in the pinned version as a query's
/// source.
fn ask_source(
    table: &VersionTable,
    seat: Seat,
    node: u64,
    name: &Name,
) -> (Seat, Option<Kind>, Option<Value>)
    requires seat { IsSeatOf table.now seat }
    requires pinned { (x : ℕ) × (n : ℕ) × (seat.knows.phase ≡ Pinned x n) }
    ensures { IsPinnedSeat table.now result.0 }
{
    let page = seat.version_page();
    let mut source = source(table.pinned_look(seat), page);
    let kind = source.kind_of(name);
    let value = source.value(node, name);
    (source.into_look().into_seat(), kind, value)
}

/// What the page reader and a query's source return for a node and a name.
#[derive(Drop)]
pub(crate) struct Reported {
    pub(crate) value: Option<Value>,
    pub(crate) kind: Option<Kind>,
    pub(crate) asked: Option<Value>,
}

pub(crate) fn report(table: &VersionTable, seat: Seat, node: u64, name: &Name) -> (Seat, Reported)
    requires { IsPinnedSeat table.now seat }
    ensures { IsPinnedSeat table.now result.0 }
{
    let (seat, value) = value_of(table, seat, node, name);
    let (seat, kind, asked) = ask_source(table, seat, node, name);
    (seat, Reported { value, kind, asked })
}
