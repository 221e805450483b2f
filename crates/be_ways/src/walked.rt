//! Ranges of keys that were walked.
ghost use Rattle.std.specs.Prelude.{◌≡◌};
ghost use Rattle.be_ways.specs.Imports.{option_copied, option_map};

use arrayvec::ArrayVec;
use be_plan::KeyRange;
use be_value::Name;

/// A range of keys that was walked in the index of a name. Its bounds are copies, because those of
/// the walk don't outlive it.
#[derive(Drop)]
pub(crate) struct Walked {
    pub(crate) name: Name,
    pub(crate) low: ArrayVec<u8, 265>,
    pub(crate) high: Option<ArrayVec<u8, 265>>,
}

/// Returns a copy of the bytes, or `None` if they are longer than any bound of a range.
fn copy_of(bytes: &[u8]) -> Option<ArrayVec<u8, 265>> {
    let mut copy = ArrayVec::new();
    if copy.try_extend_from_slice(bytes).is_err() {
        return None;
    }
    Some(copy)
}

/// Returns the lowest bytes that a walk from `from` can reach. If the walk starts after them, these
/// are the next byte string, which has one more zero byte. Returns `None` if they are too long.
fn start_of(from: &[u8], after: bool) -> Option<ArrayVec<u8, 265>> {
    let mut low = copy_of(from)?;
    if after && low.try_push(0).is_err() {
        return None;
    }
    Some(low)
}

impl Walked {
    /// Returns a copy of the range, or `None` if a bound is longer than any that a walk has.
    fn of(keys: KeyRange<'_>) -> Option<Walked> {
        let low = copy_of(keys.low)?;
        let high = match keys.high {
            Some(high) => Some(copy_of(high)?),
            None => None,
        };
        Some(Walked {
            name: keys.name.copy(),
            low,
            high,
        })
    }

    /// Returns the keys of the range.
    pub(crate) fn keys(&self) -> KeyRange<'_>
        ensures name { result.name.now ≡ self.now.name }
        ensures low { result.low.now ≡ self.now.low.items }
        ensures high { option_copied result.high ≡ option_map (λ high. high.items) self.now.high }
    {
        let high = match &self.high {
            Some(high) => Some(high.as_slice()),
            None => None,
        };
        KeyRange {
            name: &self.name,
            low: self.low.as_slice(),
            high,
        }
    }

    /// Returns `true` if a step after this key of this name continues the walk.
    fn has_come_to(&self, name: &Name, key: &[u8]) -> bool {
        match &self.high {
            Some(high) => self.name == *name && *high.as_slice() == *key,
            None => false,
        }
    }
}

/// Adds a walk over these keys. Returns `false` if it can't be recorded.
pub(crate) fn record(walks: &mut Vec<Walked>, keys: KeyRange<'_>) -> bool {
    match Walked::of(keys) {
        Some(walk) => walks.push(walk).is_ok(),
        None => false,
    }
}

/// Adds a walk that has made its first step. Returns `false` if it can't be recorded.
fn record_start(
    walks: &mut Vec<Walked>,
    name: &Name,
    low: Option<ArrayVec<u8, 265>>,
    high: Option<ArrayVec<u8, 265>>,
) -> bool {
    let Some(low) = low else {
        return false;
    };
    let walk = Walked {
        name: name.copy(),
        low,
        high,
    };
    walks.push(walk).is_ok()
}

/// Records a step to the next key: it continues the last walk, or begins another. A walk by steps
/// has the range up to the key that it has come to, and is open if there was none. Returns `false`
/// if the step can't be recorded.
pub(crate) fn record_step(
    walks: &mut Vec<Walked>,
    name: &Name,
    from: &[u8],
    after: bool,
    next: &Option<ArrayVec<u8, 264>>,
) -> bool {
    let high = match next {
        Some(key) => copy_of(key.as_slice()),
        None => None,
    };
    if after {
        if let Some(last) = walks.last_mut() {
            if last.has_come_to(name, from) {
                last.high = high;
                return true;
            }
        }
    }
    record_start(walks, name, start_of(from, after), high)
}
