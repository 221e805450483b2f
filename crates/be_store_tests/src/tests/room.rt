//! A store with its passes, which replies to requests. Its invariant says what is known about them,
//! so no method has a clause.

use crate::tests::calls::{Text, answer, ask_again, write};
use crate::tests::carrying::carry_meanwhile;
use crate::tests::conditional::answer_beside;
use crate::tests::handing::hand_over;
use crate::tests::races::{closed, journal_of, make_both};
use crate::tests::states::{nodes_from, state_text};
use be_store::{Journal, Limits, Live, Op, Pass, Refusal, Store, parse};
use be_test_tools::{Answers, again, answer_lines, both_of};
use std::alloc::Global;
use std::marker::Model;
use std::thread::Threads;

/// A store with one pass or two, and a live query.
#[derive(Drop)]
pub(crate) struct Room {
    store: Store,
    first: Pass,
    /// Blank if there is no second pass.
    second: Pass,
    has_second: bool,
    live: Option<Live>,
    /// How many passes the store has.
    passes: u64,
}

impl Model for Room {
    ghost use Rattle.std.specs.Prelude.{◌≡◌, true, IfSome};
    ghost use Rattle.be_store.specs.Live.{coded_opened, IsLiveOf};
    ghost use Rattle.be_store.specs.Passes.{IsPassOf};
    ghost use Rattle.be_table.specs.Place.{Opened};

    ghost Value = { Opened };

    ghost coded = { coded_opened };

    ghost view = { λ r. r.store };

    ghost invariant = { λ r. IsPassOf r.store r.first × (r.first.knows.number ≡ 0)
        × (r.has_second ≡ true → IsPassOf r.store r.second × (r.second.knows.number ≡ 1))
        × (r.store.limits.passes ≡ r.passes)
        × IfSome r.live (λ live. IsLiveOf r.store live) };
}

/// Opens a room for one pass.
fn open_for_one(alloc: Global, pages: u64, commits: u64) -> Result<Room, Refusal> {
    let limits = Limits {
        pages,
        passes: 1,
        commits,
    };
    let (store, mut passes) = Store::open(alloc, limits)?;
    let Some(mut second) = passes.pop() else {
        return Err(Refusal::BadLimits);
    };
    let first = second.move_out();
    Ok(Room {
        store,
        first,
        second,
        has_second: false,
        passes: 1,
        live: None,
    })
}

/// Opens a room for two passes.
fn open_for_two(alloc: Global, pages: u64, commits: u64) -> Result<Room, Refusal> {
    let limits = Limits {
        pages,
        passes: 2,
        commits,
    };
    let (store, passes) = Store::open(alloc, limits)?;
    let (first, second) = both_of(passes)?;
    Ok(Room {
        store,
        first,
        second,
        has_second: true,
        passes: 2,
        live: None,
    })
}

/// A room for one pass; opened again if memory runs out.
pub(crate) fn for_one(alloc: Global, pages: u64, commits: u64) -> Result<Room, Refusal> {
    again!(open_for_one(alloc, pages, commits))
}

/// A room for two passes; opened again if memory runs out.
pub(crate) fn for_two(alloc: Global, pages: u64, commits: u64) -> Result<Room, Refusal> {
    again!(open_for_two(alloc, pages, commits))
}

/// A reply's first line.
fn first_line(alloc: Global, reply: Text) -> Text {
    let reply = reply?;
    let line = reply.as_str().lines().next().unwrap_or("");
    Ok(String::from_str(alloc, line)?)
}

/// How much of the journal each of two passes has seen, as text.
fn seen_text(alloc: Global, seen: Option<(u64, u64)>) -> Text {
    match seen {
        Some((first, second)) => Ok(format!(in alloc; "seen {first} {second}")?),
        None => Err(Refusal::BadLimits),
    }
}

/// How much of the journal two passes have seen after they met, as text.
fn met_text(alloc: Global, met: Option<u64>) -> Text {
    match met {
        Some(number) => Ok(format!(in alloc; "met {number}")?),
        None => Err(Refusal::BadLimits),
    }
}

impl Room {
    /// Writes a list with pass 0. Returns its commit number, or why it was refused.
    fn write_once(&mut self, ops: &[Op]) -> Result<u64, Refusal> {
        match write(&self.store, &mut self.first, ops) {
            Ok((number, _)) => Ok(number),
            Err(refusal) => Err(refusal),
        }
    }

    /// The same, tried once more if memory runs out.
    pub(crate) fn write_list(&mut self, ops: &[Op]) -> Result<u64, Refusal> {
        again!(self.write_once(ops))
    }

    /// The same for one operation.
    pub(crate) fn write(&mut self, op: Op) -> Result<u64, Refusal> {
        self.write_list(&[op])
    }

    /// Pass 0's reply.
    fn answer_first(&mut self, alloc: Global, words: &str) -> Text {
        match answer_beside(&self.store, alloc, &mut self.first, words) {
            Some(text) => text,
            None => answer(&self.store, alloc, &mut self.first, &mut self.live, words),
        }
    }

    /// Pass 1's reply.
    fn answer_second(&mut self, alloc: Global, words: &str) -> Text {
        if !self.has_second {
            return Err(Refusal::BadLimits);
        }
        match answer_beside(&self.store, alloc, &mut self.second, words) {
            Some(text) => text,
            None => answer(&self.store, alloc, &mut self.second, &mut self.live, words),
        }
    }

    /// How much of the journal each of the two passes has seen.
    fn seen(&self) -> Option<(u64, u64)> {
        if !self.has_second {
            return None;
        }
        Some((self.first.seen(), self.second.seen()))
    }

    /// Pass 1 meets pass 0. Returns how much of the journal both have then seen.
    fn meet(&mut self) -> Option<u64> {
        if !self.has_second {
            return None;
        }
        Some(self.store.meet(&mut self.second, &mut self.first))
    }

    /// Pass 1 joins a witness of pass 0. Returns how much of the journal pass 1 has then seen.
    fn join(&mut self) -> Option<u64> {
        if !self.has_second {
            return None;
        }
        let mut witness = self.store.witness(&mut self.first);
        let length = self.store.join(&mut self.second, &mut witness);
        if witness.seen() == length && self.second.seen() == length {
            Some(length)
        } else {
            None
        }
    }

    /// Drops pass 1, whether it is pinned or not.
    pub(crate) fn lose_second(&mut self) {
        self.has_second = false;
        drop(self.second.move_out());
    }

    fn state_once(&mut self, alloc: Global) -> Text {
        state_text(&self.store, alloc, &mut self.first)
    }

    /// The operations that rebuild pass 0's version; read once more if memory runs out.
    pub(crate) fn state(&mut self, alloc: Global) -> Text {
        again!(self.state_once(alloc))
    }

    /// Up to `most` nodes from a number on.
    pub(crate) fn nodes(
        &mut self,
        alloc: Global,
        from: u64,
        most: usize,
    ) -> Result<Vec<u64>, Refusal> {
        nodes_from(&self.store, alloc, &mut self.first, from, most)
    }

    fn watch(&mut self, alloc: Global, text: &str) -> Text {
        self.live = Some(Live::new(alloc, parse(alloc, text)?));
        Ok(String::from_str(alloc, "ok")?)
    }

    /// What the live query finds at pass 0's pin.
    fn again(&mut self, alloc: Global) -> Text {
        ask_again(&self.store, alloc, &mut self.first, &mut self.live)
    }

    /// The reply to a request. As in the tests' texts, its first word names the pass, or what both
    /// passes do; for any other word, BadLimits.
    fn answer(&mut self, alloc: Global, request: &str) -> Text {
        let (who, words) = request.split_once(" ").unwrap_or((request, ""));
        match who {
            "0" => self.answer_first(alloc, words),
            "1" => self.answer_second(alloc, words),
            "head" => first_line(alloc, self.answer_first(alloc, words)),
            "live" => self.watch(alloc, words),
            "again" => self.again(alloc),
            "seen" => seen_text(alloc, self.seen()),
            "meet" => met_text(alloc, self.meet()),
            "join" => met_text(alloc, self.join()),
            "state" => self.state(alloc),
            _ => Err(Refusal::BadLimits),
        }
    }

    /// Closes a store with one pass. Returns the journal's length, and whether it is legal.
    pub(crate) fn close(self, alloc: Global) -> Result<(u64, bool), Refusal> {
        if self.passes != 1 {
            return Err(Refusal::BadLimits);
        }
        let Room { store, first, .. } = self;
        closed(alloc, store, first)
    }

    /// Two passes make a hundred nodes each, each on its own thread. Returns the journal, and
    /// whether all writes were accepted.
    pub(crate) fn race<R: Threads + Sync>(
        self,
        rt: &R,
        alloc: Global,
    ) -> Result<(Journal, bool), Refusal> {
        if self.passes != 2 || !self.has_second {
            return Err(Refusal::BadLimits);
        }
        let Room {
            store,
            first,
            second,
            ..
        } = self;
        let (first, second) = make_both(rt, &store, first, second);
        let is_accepted = first.1 && second.1;
        let journal = journal_of(alloc, store, first.0, second.0)?;
        Ok((journal, is_accepted))
    }

    /// Pass 0 hands what it has seen to pass 1, which pins on its own thread while pass 0 makes a
    /// hundred nodes. Returns the pin's number, and whether all nodes were accepted.
    pub(crate) fn hand<R: Threads + Sync>(&mut self, rt: &R) -> Result<(u64, bool), Refusal> {
        if !self.has_second {
            return Err(Refusal::BadLimits);
        }
        let None = self.second.pinned() else {
            return Err(Refusal::BadLimits);
        };
        let reader = self.second.move_out();
        let writer = self.first.move_out();
        let (written, pinned) = hand_over(rt, &self.store, writer, reader);
        self.first = written.0;
        self.second = pinned.0;
        Ok((pinned.1, written.1))
    }

    /// Writes the state at pass 0's pin to a second room, while pass 1 makes a hundred nodes, each
    /// on its own thread. Returns the second room, and whether all nodes were accepted.
    pub(crate) fn carry<R: Threads + Sync>(
        &mut self,
        rt: &R,
        alloc: Global,
    ) -> Result<(Room, bool), Refusal> {
        if !self.has_second {
            return Err(Refusal::BadLimits);
        }
        let writer = self.second.move_out();
        let reader = self.first.move_out();
        let (written, read) = carry_meanwhile(rt, alloc, &self.store, writer, reader);
        self.second = written.0;
        self.first = read.0;
        Ok((read.1?, written.1))
    }
}

impl Answers for Room {
    fn reply(&mut self, alloc: Global, request: &str) -> Text {
        answer_lines(alloc, self.answer(alloc, request))
    }
}
