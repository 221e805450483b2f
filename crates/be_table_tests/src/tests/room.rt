//! A table with its seats, which replies to requests. Its invariant says what is known about them,
//! so no method needs a clause.
ghost use Rattle.std.specs.Prelude.{◌≡◌, length, IfOk};
ghost use Rattle.be_table_tests.specs.Imports.{AreNew, begins_empty};
ghost use Rattle.be_table_tests.specs.Resting.{IsResting};

use crate::tests::calls::{Text, answer, answers, both_texts, number_text, write_text};
use crate::tests::writes::{act, enter_many, in_write};
use be_paged::first_page;
use be_table::{Limits, Seat, VersionTable};
use be_test_tools::{Answers, again, answer_lines, both_of};
use be_value::{Refusal, word_of};
use be_volume::Op;
use std::alloc::Global;
use std::marker::Model;
use std::mem;

/// A table for three passes.
#[derive(Drop)]
pub(crate) struct Room {
    table: VersionTable,
    first: Seat,
    second: Seat,
    third: Seat,
}

impl Model for Room {
    ghost use Rattle.std.specs.Coded.{codes};
    ghost use Rattle.be_table_tests.specs.Imports.{coded_setting, Opened};
    ghost use Rattle.be_table_tests.specs.Resting.{IsResting};

    ghost Value = { Opened };

    ghost coded = { Prim.hlevel (codes, coded_setting) };

    ghost view = { λ r. r.table };

    ghost invariant = { λ r. IsResting r.table r.first × IsResting r.table r.second
        × IsResting r.table r.third };
}

/// A table with these limits, and its seats. Version 0 encodes the empty volume.
pub(crate) fn open(alloc: Global, limits: Limits) -> Result<(VersionTable, Vec<Seat>), Refusal>
    ensures { IfOk result (λ r. (r.0.limits ≡ begins_empty limits)
        × (length r.1.items ≡ limits.passes)
        × AreNew r.0 0 r.1.items) }
{
    VersionTable::open(alloc, limits, &first_page())
}

/// The number of seats of a table with these limits.
pub(crate) fn count_seats(alloc: Global, limits: Limits) -> Result<usize, Refusal> {
    let (_, seats) = again!(open(alloc, limits))?;
    Ok(seats.len())
}

/// A table with three passes and this many pages. The errors are those of `open`.
fn open_room(alloc: Global, pages: u64) -> Result<Room, Refusal> {
    let limits = Limits {
        pages,
        passes: 3,
        commits: 1000,
    };
    let (table, mut seats) = open(alloc, limits)?;
    let Some(third) = seats.pop() else {
        return Err(Refusal::BadLimits);
    };
    let (first, second) = both_of(seats)?;
    Ok(Room {
        table,
        first,
        second,
        third,
    })
}

/// A table with this many pages. If memory runs out, it is opened again.
pub(crate) fn opened(alloc: Global, pages: u64) -> Result<Room, Refusal> {
    again!(open_room(alloc, pages))
}

/// The replies to two passes while a third one holds the lock. Their requests are before and after
/// ` | `.
fn hold(
    table: &VersionTable,
    alloc: Global,
    writer: &mut Seat,
    second: &mut Seat,
    third: &mut Seat,
    requests: &str,
) -> Text
    requires { IsResting table.now writer.old × IsResting table.now second.old
        × IsResting table.now third.old }
    ensures { IsResting table.now writer.new × IsResting table.now second.new
        × IsResting table.now third.new }
{
    let writing = match table.lock(writer.move_out()) {
        Ok(writing) => writing,
        Err((kept, refusal)) => {
            *writer = kept;
            return Err(refusal);
        }
    };
    let (before, beyond) = requests.split_once(" | ").unwrap_or((requests, ""));
    let first = answers(table, alloc, second, before);
    let last = answers(table, alloc, third, beyond);
    *writer = writing.unlock();
    both_texts(alloc, first, last)
}

/// Two replies, with the reply to a write between them.
fn three_texts(alloc: Global, first: Text, entered: Result<u64, Refusal>, last: Text) -> Text {
    let written = write_text(alloc, entered);
    let rest = both_texts(alloc, written, last);
    both_texts(alloc, first, rest)
}

/// The replies to a pass before and after another one, which holds the lock, makes a node.
fn write_between(
    table: &VersionTable,
    alloc: Global,
    writer: &mut Seat,
    second: &mut Seat,
    requests: &str,
) -> Text
    requires { IsResting table.now writer.old × IsResting table.now second.old }
    ensures { IsResting table.now writer.new × IsResting table.now second.new }
{
    let (before, beyond) = requests.split_once(" | ").unwrap_or((requests, ""));
    let mut writing = match table.lock(writer.move_out()) {
        Ok(writing) => writing,
        Err((kept, refusal)) => {
            *writer = kept;
            return Err(refusal);
        }
    };
    let first = answers(table, alloc, second, before);
    let entered = act(&mut writing, &[Op::New], "");
    let last = answers(table, alloc, second, beyond);
    *writer = writing.unlock();
    three_texts(alloc, first, entered, last)
}

/// A pass looks, another one makes `count` nodes, and then the first announces the number it saw,
/// and looks again. Returns what it saw at both looks.
#[tactic(auto, using(crate::proofs::Phases::idle_at_rest))]
fn pin_late(
    table: &VersionTable,
    writer: &mut Seat,
    reader: &mut Seat,
    count: u64,
) -> Option<(u64, u64)>
    requires { IsResting table.now writer.old × IsResting table.now reader.old }
    ensures { IsResting table.now writer.new × IsResting table.now reader.new }
{
    if reader.pinned().is_some() {
        return None;
    }
    let looked = table.look(reader);
    let entered = enter_many(table, writer, count);
    table.announce(reader, looked);
    let pin = table.look_again(reader).0;
    if entered { Some((looked, pin)) } else { None }
}

fn late_text(alloc: Global, late: Option<(u64, u64)>) -> Text {
    match late {
        Some((looked, pin)) => both_texts(
            alloc,
            number_text(alloc, looked),
            number_text(alloc, pin),
        ),
        None => Err(Refusal::BadLimits),
    }
}

impl Room {
    /// Writes with pass 0, or returns what it finds while it holds the lock.
    pub(crate) fn in_write(&mut self, ops: &[Op], words: &str) -> Result<u64, Refusal> {
        in_write(&self.table, &mut self.first, ops, words)
    }

    fn answer_first(&mut self, alloc: Global, words: &str) -> Text {
        answer(&self.table, alloc, &mut self.first, words)
    }

    fn answer_second(&mut self, alloc: Global, words: &str) -> Text {
        answer(&self.table, alloc, &mut self.second, words)
    }

    fn hold(&mut self, alloc: Global, requests: &str) -> Text {
        hold(
            &self.table,
            alloc,
            &mut self.first,
            &mut self.second,
            &mut self.third,
            requests,
        )
    }

    fn write_between(&mut self, alloc: Global, requests: &str) -> Text {
        write_between(
            &self.table,
            alloc,
            &mut self.first,
            &mut self.second,
            requests,
        )
    }

    fn pin_late(&mut self, count: u64) -> Option<(u64, u64)> {
        pin_late(&self.table, &mut self.first, &mut self.second, count)
    }

    /// Makes the second pass the first, the third the second, and the first the third.
    fn turn(&mut self) {
        mem::swap(&mut self.first, &mut self.second);
        mem::swap(&mut self.second, &mut self.third);
    }

    /// The second pass meets the first.
    fn meet(&mut self) -> u64 {
        let (second, first, both) = self
            .table
            .meet(self.second.move_out(), self.first.move_out());
        self.second = second;
        self.first = first;
        both
    }

    /// The reply to a request, whose first word names a pass or something that several passes do.
    /// BadLimits for any other.
    fn answer(&mut self, alloc: Global, request: &str) -> Text {
        let (who, words) = request.split_once(" ").unwrap_or((request, ""));
        match who {
            "0" => self.answer_first(alloc, words),
            "1" => self.answer_second(alloc, words),
            "hold" => self.hold(alloc, words),
            "between" => self.write_between(alloc, words),
            "late" => late_text(alloc, self.pin_late(word_of(words.as_bytes()).unwrap_or(0))),
            "turn" => {
                self.turn();
                Ok(String::new(alloc))
            }
            "meet" => number_text(alloc, self.meet()),
            _ => Err(Refusal::BadLimits),
        }
    }
}

impl Answers for Room {
    fn reply(&mut self, alloc: Global, request: &str) -> Text {
        answer_lines(alloc, self.answer(alloc, request))
    }
}
