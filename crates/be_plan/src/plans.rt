//! The comparisons that a query is answered from.
ghost use Rattle.std.specs.Prelude.{◌≡◌, ◌∷◌, [], IfOk};

use std::alloc::{AllocError, Global};
use std::marker::Model;
use std::slice::from_ref;

/// A list of positions. A single position, which is enough for most queries, is stored inline;
/// several positions are stored in a list on the heap.
#[derive(Debug, Drop)]
enum Places {
    One(usize),
    Many(Vec<usize>),
}

/// The positions of the picked comparisons, counted from 0 and from left to right over the whole
/// query. Contracts view them as a list.
#[derive(Debug, Drop)]
pub struct Picks {
    places: Places,
}

impl Model for Picks {
    ghost use Rattle.std.specs.Prelude.{ℕ, List};
    ghost use Rattle.be_plan.specs.Picked.{places_of};

    ghost Value = { List ℕ };

    ghost view = { λ p. places_of p.places };
}

impl Picks {
    /// Creates picks from a list of positions. Allocates no memory.
    pub fn new(places: Vec<usize>) -> Picks
        ensures { result ≡ places.items }
    {
        Picks {
            places: Places::Many(places),
        }
    }

    /// Creates picks from a single position. Allocates no memory.
    pub fn one(place: usize) -> Picks
        ensures { result ≡ place ∷ [] }
    {
        Picks {
            places: Places::One(place),
        }
    }

    /// Returns the positions as a slice.
    pub fn as_slice(&self) -> &[usize]
        ensures { result.now ≡ self.now }
    {
        match &self.places {
            Places::One(place) => from_ref(place),
            Places::Many(places) => places.as_slice(),
        }
    }

    /// Returns the positions as a list. Allocates memory only for a single position that was stored
    /// inline.
    pub fn into_vec(self, alloc: Global) -> Result<Vec<usize>, AllocError>
        ensures { IfOk result (λ places. places.items ≡ self) }
    {
        let Picks { places } = self;
        match places {
            Places::One(place) => {
                let mut list = Vec::new(alloc);
                list.push(place)?;
                Ok(list)
            }
            Places::Many(list) => Ok(list),
        }
    }
}

/// The comparisons that a query is answered from, and their score. A lower score means that the
/// walks are expected to visit fewer keys.
#[derive(Debug, Drop)]
pub struct Cover {
    pub picks: Picks,
    pub score: u64,
}
