//! The entries of a journal.
//!
//! An entry's two lists have a small wrapper type around `Vec`, which contracts see as a list.
//! Converting from a `Vec` and back allocates nothing.
ghost use Rattle.std.specs.Prelude.{◌≡◌};

use be_volume::{Done, Op};
use std::marker::Model;

/// Operations or their outcomes, in order. A contract sees this as a list.
#[derive(Drop)]
pub struct Items<T> {
    items: Vec<T>,
}

impl<T> Model for Items<T> {
    ghost use Rattle.std.specs.Coded.{coded_list};
    ghost use Rattle.std.specs.Prelude.{List};

    ghost Value = { List T };

    ghost coded = { coded_list T.code };

    ghost view = { λ it. it.items.items };
}

impl<T: Drop> Items<T> {
    /// Wraps these items. It allocates nothing.
    pub fn from_vec(items: Vec<T>) -> Items<T>
        ensures { result ≡ items.items }
    {
        Items { items }
    }

    /// Returns the items. It allocates nothing.
    pub fn into_vec(self) -> Vec<T>
        ensures { result.items ≡ self }
    {
        let Items { items } = self;
        items
    }

    /// The items as a slice.
    pub fn as_slice(&self) -> &[T]
        ensures { result.now ≡ self.now }
    {
        self.items.as_slice()
    }
}

/// An accepted write.
#[derive(Drop)]
pub struct Entry {
    /// The number of the pass that made the write.
    pub by: u64,
    /// The write's 1 to 64 operations.
    pub ops: Items<Op>,
    /// The outcome of each operation.
    pub dones: Items<Done>,
}
