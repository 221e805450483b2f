//! Deals seats when a table opens, and gathers them when it closes.
ghost use Rattle.std.specs.Prelude.{◌≡◌, ◌≤◌, ◌<◌, ℕ, slice_index, [], length, map, vec_capacity};
ghost use Rattle.std.specs.Prelude.{vec_len, ◌+◌};
ghost use Rattle.be_table.specs.Rule.{empty_view, everyone};
ghost use Rattle.be_table.specs.Setting.{IsSetting};
ghost use Rattle.be_table.specs.Works.{AreNewAt, AllAt, Gathered, knows_of};

use crate::marks::Marks;
use crate::rule::Deal;
use crate::seat::{Base, Seat};
use crate::table::{Inner, PAGES};
use be_pages::PAGE_WORDS;

/// Gives each pass a seat.
pub(crate) fn deal(table: &Inner, rest: &mut Base, passes: u64, seats: &mut Vec<Seat>)
    requires table { (0 < table.now.shared.table_id.words) × IsSetting table.now.shared.key
        × (passes ≡ table.now.shared.key.passes) }
    requires rest { (rest.old.table_id ≡ table.now.shared.table_id)
        × (rest.old.me ≡ (everyone table.now.shared.key, [])) }
    requires seats { (seats.old.items ≡ []) × (passes ≤ vec_capacity seats.old) }
    ensures rest { (rest.new.table_id ≡ table.now.shared.table_id)
        × (rest.new.me ≡ (empty_view, [])) }
    ensures seats { (length seats.new.items ≡ passes)
        × AreNewAt table.now.shared.table_id table.now.shared.key 0 seats.new.items }
{
    for number in 0..passes {
        let base = table.shared.split_seat::<Deal>(rest);
        let marks = Marks {
            number,
            seen: 0,
            pin: None,
        };
        seats.push_reserved(Seat::of(base, marks));
    }
}

/// Copies the words of the first page to page 0.
pub(crate) fn lay_first(words: &mut Vec<u64>, first: &[u64; PAGE_WORDS])
    requires { 528 + 512 ≤ vec_len words.old }
    ensures { (length words.new.items ≡ length words.old.items)
        × ((k : ℕ) → k < 528 → slice_index words.new.items k ≡ slice_index words.old.items k)
        × ((i : ℕ) → i < 512 → slice_index words.new.items (528 + i) ≡ slice_index first.now i) }
{
    for i in 0..PAGE_WORDS {
        words[PAGES + i] = first[i];
    }
}

/// Joins the seats' passes into one seat.
pub(crate) fn gather(table: &Inner, rest: &mut Base, mut seats: Vec<Seat>)
    requires table { 0 < table.now.shared.table_id.words }
    requires rest { (rest.old.table_id ≡ table.now.shared.table_id)
        × (rest.old.me ≡ (empty_view, [])) }
    requires seats { AllAt table.now.shared.table_id seats.items }
    ensures rest { (rest.new.table_id ≡ table.now.shared.table_id) × (rest.new.id ≡ rest.old.id)
        × (rest.new.me.1 ≡ []) }
    ensures passes { Gathered (map knows_of seats.items) rest.new.me.0.passes }
{
    while let Some(seat) = seats.pop() {
        let (other, _) = seat.into_base();
        table.shared.join_seat::<Deal>(rest, other);
    }
}
