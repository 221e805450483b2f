//! Both forms of a volume, the plain one and the one in pages, which have to give the same answers.
//!
//! The type's invariant says that the pages encode the plain volume, so a test that makes one call
//! after another states nothing.
use crate::asking::query_both;
use crate::same::same_lists;
use crate::writing::{accepts, apply_pages, refuses, room_of};
use arrayvec::ArrayVec;
use be_paged::{attrs, get, indices, nodes};
use be_pages::{Look, VecRoom};
use be_query::Query;
use be_test_tools::again;
use be_value::{Kind, Name, Refusal, Value};
use be_volume::{Done, Op, Volume};
use std::alloc::Global;
use std::marker::Model;
use std::test::Fail;

/// Nodes, or the error.
type Nodes = Result<Vec<u64>, Refusal>;

/// A plain volume, and a page writer with the version page of an equal volume.
#[derive(Drop)]
pub struct Both {
    pub plain: Volume,
    pub room: VecRoom,
    pub page: u64,
}

impl Model for Both {
    ghost use Rattle.std.specs.Prelude.{ℕ};
    ghost use Rattle.be_tree_reading.specs.Forest.{IsWriteStart};
    ghost use Rattle.be_paged_reading.specs.Version.{IsVersion};

    ghost Value = { ℕ };

    ghost view = { λ b. b.page };

    ghost invariant = { λ b. IsVersion (⟦<VecRoom as Look>⟧.page_state b.room)
        (⟦<VecRoom as Look>⟧.words b.room) b.page b.plain
        × IsWriteStart (⟦<VecRoom as Look>⟧.page_state b.room) };
}

/// An answer, if both forms gave it.
fn agreed<T: Drop>(same: bool, answer: T, otherwise: &str) -> Result<T, Fail> {
    if same {
        Ok(answer)
    } else {
        Err(Fail::new(otherwise))
    }
}

/// The indices, if both forms gave them.
fn agreed_indices(
    list: Result<Vec<(Name, Kind)>, Refusal>,
    plain: Result<Vec<(Name, Kind)>, Refusal>,
) -> Result<Vec<(Name, Kind)>, Fail> {
    let list = list?;
    let plain = plain?;
    let same = list.as_slice() == plain.as_slice();
    agreed(same, list, "the forms have other indices")
}

impl Both {
    /// Both forms of the empty volume; the one in pages has this many pages.
    pub fn new(alloc: Global, pages: u64) -> Result<Both, Refusal> {
        let (room, page) = room_of(alloc, pages)?;
        Ok(Both {
            plain: Volume::new(alloc),
            room,
            page,
        })
    }

    /// Applies a list of operations to both forms, and returns the outcomes if they agree. An
    /// accepted write is kept, and a refused one undone.
    pub fn write(self, ops: &[Op]) -> Result<(Both, Result<ArrayVec<Done, 64>, Refusal>), Fail> {
        let Both {
            mut plain,
            mut room,
            page,
        } = self;
        if ops.is_empty() || ops.len() > 64 || plain.next() > u64::MAX - 65 {
            return Err(Fail::new("no list, or no node number is left"));
        }
        match apply_pages(&plain, &mut room, page, ops) {
            Ok((page, dones)) => {
                room.keep();
                accepts(&mut plain, ops, dones.as_slice())?;
                Ok((Both { plain, room, page }, Ok(dones)))
            }
            Err(refusal) => {
                room.undo();
                refuses(&mut plain, ops, refusal)?;
                Ok((Both { plain, room, page }, Err(refusal)))
            }
        }
    }

    /// The answer to a query, with the given pick or the chosen indices.
    pub fn query(
        self,
        alloc: Global,
        query: &Query,
        pick: Option<usize>,
    ) -> Result<(Both, Result<Vec<u64>, Refusal>), Fail> {
        let Both { plain, room, page } = self;
        let (room, answer) = query_both(alloc, &plain, room, page, query, pick)?;
        Ok((Both { plain, room, page }, answer))
    }

    /// The attribute of a node, if both forms agree.
    pub fn get(&mut self, node: u64, name: &Name) -> Result<Option<Value>, Fail> {
        let value = get(&mut self.room, self.page, node, name);
        let same = value == self.plain.get(node, name);
        agreed(same, value, "the forms have another attribute")
    }

    /// The attributes of a node, or the error, if both forms agree.
    pub fn attrs(
        &mut self,
        alloc: Global,
        node: u64,
    ) -> Result<Result<Vec<(Name, Value)>, Refusal>, Fail> {
        let list = again!(attrs(alloc, &mut self.room, self.page, node));
        let same = same_lists(&list, &again!(self.plain.attrs(node)));
        agreed(same, list, "the forms have other attributes")
    }

    /// The indices, if both forms agree.
    pub fn indices(&mut self, alloc: Global) -> Result<Vec<(Name, Kind)>, Fail> {
        let list = again!(indices(alloc, &mut self.room, self.page));
        agreed_indices(list, again!(self.plain.indices()))
    }

    /// Up to `most` nodes from a number on, in the form in pages.
    pub fn nodes(&mut self, alloc: Global, from: u64, most: usize) -> Nodes {
        again!(nodes(alloc, &mut self.room, self.page, from, most))
    }
}
