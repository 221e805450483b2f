//! Both forms of a volume, as a test holds them: it lends them to one call after another.
use crate::Both;
use arrayvec::ArrayVec;
use be_query::Query;
use be_test_tools::list_of;
use be_value::{Kind, Name, Refusal, Value};
use be_volume::{Done, Op};
use std::alloc::Global;
use std::test::Fail;

/// Both forms of a volume. After a call that failed, which ends a test, there are none.
#[derive(Drop)]
pub struct Forms {
    pub both: Option<Both>,
}

/// Why a call after one that failed fails as well.
fn none_left() -> Fail {
    Fail::new("no forms are left")
}

impl Forms {
    /// Both forms of the empty volume; the one in pages has this many pages.
    pub fn new(alloc: Global, pages: u64) -> Result<Forms, Refusal> {
        let both = Both::new(alloc, pages)?;
        Ok(Forms { both: Some(both) })
    }

    /// Takes both forms out.
    pub fn take(&mut self) -> Result<Both, Fail> {
        match self.both.take() {
            Some(both) => Ok(both),
            None => Err(none_left()),
        }
    }

    /// Applies a list of operations to both forms, and returns the outcomes if they agree.
    pub fn write(&mut self, ops: &[Op]) -> Result<Result<ArrayVec<Done, 64>, Refusal>, Fail> {
        let both = self.take()?;
        let (both, answer) = both.write(ops)?;
        self.both = Some(both);
        Ok(answer)
    }

    /// Writes a list, which has to be accepted.
    pub fn accept(&mut self, ops: &[Op]) -> Result<(), Fail> {
        let dones = self.write(ops)??;
        if dones.len() == ops.len() {
            return Ok(());
        }
        Err(Fail::new("another number of answers"))
    }

    /// Writes a list in the script language, which has to be accepted.
    pub fn accept_text(&mut self, alloc: Global, list: &str) -> Result<(), Fail> {
        let ops = list_of(alloc, list)?;
        self.accept(&ops)
    }

    /// The answer to a query, with the given pick or the chosen indices.
    pub fn query(
        &mut self,
        alloc: Global,
        query: &Query,
        pick: Option<usize>,
    ) -> Result<Result<Vec<u64>, Refusal>, Fail> {
        let both = self.take()?;
        let (both, answer) = both.query(alloc, query, pick)?;
        self.both = Some(both);
        Ok(answer)
    }

    /// The attribute of a node, if both forms agree.
    pub fn get(&mut self, node: u64, name: &Name) -> Result<Option<Value>, Fail> {
        match &mut self.both {
            Some(both) => both.get(node, name),
            None => Err(none_left()),
        }
    }

    /// The attributes of a node, or the error, if both forms agree.
    pub fn attrs(
        &mut self,
        alloc: Global,
        node: u64,
    ) -> Result<Result<Vec<(Name, Value)>, Refusal>, Fail> {
        match &mut self.both {
            Some(both) => both.attrs(alloc, node),
            None => Err(none_left()),
        }
    }

    /// The indices, if both forms agree.
    pub fn indices(&mut self, alloc: Global) -> Result<Vec<(Name, Kind)>, Fail> {
        match &mut self.both {
            Some(both) => both.indices(alloc),
            None => Err(none_left()),
        }
    }

    /// Up to `most` nodes from a number on, in the form in pages.
    pub fn nodes(&mut self, alloc: Global, from: u64, most: usize) -> Result<Vec<u64>, Fail> {
        match &mut self.both {
            Some(both) => Ok(both.nodes(alloc, from, most)?),
            None => Err(none_left()),
        }
    }

    /// The next node's number.
    pub fn next(&self) -> u64 {
        match &self.both {
            Some(both) => both.plain.next(),
            None => 0,
        }
    }

    /// How many pages are free.
    pub fn free(&self) -> u64 {
        match &self.both {
            Some(both) => both.room.free(),
            None => 0,
        }
    }
}
