//! Answers queries from a plain volume, by a source that records and counts what it is asked.

ghost use Rattle.be_volume.specs.Volume.{State};
ghost use Rattle.be_plan.specs.Sources.{IsVolume};

use arrayvec::{ArrayString, ArrayVec};
use be_plan::{
    Cover, KeyRange, Source, VolumeSource, answer, choose_from, covers, run, volume_source,
};
use be_query::Query;
use be_value::{Kind, Name, Refusal, Value};
use be_volume::Volume;
use std::alloc::Global;

fn first_letter(name: &Name) -> char {
    name.as_str().chars().next().unwrap_or('?')
}

/// Whether the key is above the bound, if there is one.
fn is_past(high: Option<&[u8]>, key: &[u8]) -> bool {
    match high {
        Some(high) => key > high,
        None => false,
    }
}

/// The next key of the index, unless it is above `high`.
fn key_within(
    volume: &Volume,
    name: &Name,
    from: &[u8],
    after: bool,
    high: Option<&[u8]>,
) -> Option<ArrayVec<u8, 264>> {
    match volume.next_key(name, from, after) {
        Some(key) if !is_past(high, key.as_slice()) => Some(key),
        _ => None,
    }
}

/// How many keys of the index lie from `low` to `high`, at most 64, counted from key to key.
fn keys_within(volume: &Volume, name: &Name, low: &[u8], high: Option<&[u8]>) -> usize {
    let mut next = key_within(volume, name, low, false, high);
    for count in 0..64 {
        let Some(key) = &next else {
            return count;
        };
        next = key_within(volume, name, key.as_slice(), true, high);
    }
    64
}

/// What a source was asked.
#[derive(Drop)]
pub(crate) struct Counts {
    /// The first letter of an index's name, for each key that it was asked for. A range that is
    /// asked for whole has one for each of its keys and one for its end.
    pub asked: ArrayString<64>,
    pub kinds: u64,
    pub ranges: u64,
    /// How many keys these ranges have, at most 64 for each.
    pub listed: u64,
    pub values: u64,
    /// How many keys were searched for.
    pub searches: u64,
    /// How many ranges were estimated.
    pub estimates: u64,
}

/// Records a step for each of the keys, and one for the end.
fn write_steps(counts: &mut Counts, name: &Name, keys: usize) {
    for _ in 0..=keys {
        let _full = counts.asked.try_push(first_letter(name));
    }
}

/// How a source estimates the number of keys in a range: 2^32 for each, their number up to 64, or
/// an arbitrary number below 100, by a linear congruential generator in this state.
#[derive(Clone, Copy)]
enum Estimates {
    Same,
    Counted,
    Arbitrary(u64),
}

/// A volume's source that records and counts what it is asked.
#[derive(Drop)]
struct Counting<'a> {
    source: VolumeSource<'a>,
    volume: &'a Volume,
    /// The number of keys that it estimates for each index.
    keys: u64,
    estimates: Estimates,
    counts: Counts,
}

/// A source that has counted nothing yet, and estimates this many keys for each index.
fn start_counting(volume: &Volume, keys: u64) -> Counting<'_>
    ensures { IsVolume result.source volume.now }
{
    Counting {
        source: volume_source(volume),
        volume,
        keys,
        estimates: Estimates::Same,
        counts: Counts {
            asked: ArrayString::new(),
            kinds: 0,
            ranges: 0,
            listed: 0,
            values: 0,
            searches: 0,
            estimates: 0,
        },
    }
}

/// The next state of the generator.
fn next_state(state: u64) -> u64 {
    state
        .wrapping_mul(6_364_136_223_846_793_005)
        .wrapping_add(1_442_695_040_888_963_407)
}

impl Source for Counting<'_> {
    ghost use Rattle.be_volume.specs.Volume.{State};
    ghost use Rattle.be_plan.specs.Sources.{IsVolume};

    ghost Kept = { State };

    ghost kept = { λ s. s.source };

    ghost answers_for = { λ s volume. IsVolume s.source volume };

    ghost sound = { λ s volume is. is.sound };

    fn kind_of(&mut self, name: &Name) -> Option<Kind> {
        self.counts.kinds = self.counts.kinds.wrapping_add(1);
        self.source.kind_of(name)
    }

    fn next_key(&mut self, name: &Name, from: &[u8], after: bool) -> Option<ArrayVec<u8, 264>> {
        let _full = self.counts.asked.try_push(first_letter(name));
        self.source.next_key(name, from, after)
    }

    fn nodes_within(&mut self, keys: KeyRange<'_>, found: &mut Vec<u64>) -> Result<(), Refusal> {
        self.counts.ranges = self.counts.ranges.wrapping_add(1);
        let count = keys_within(self.volume, keys.name, keys.low, keys.high);
        self.counts.listed = self.counts.listed.wrapping_add(count as u64);
        write_steps(&mut self.counts, keys.name, count);
        self.source.nodes_within(keys, found)
    }

    fn has_key(&mut self, name: &Name, key: &[u8]) -> bool {
        self.counts.searches = self.counts.searches.wrapping_add(1);
        self.source.has_key(name, key)
    }

    fn value(&mut self, node: u64, name: &Name) -> Option<Value> {
        self.counts.values = self.counts.values.wrapping_add(1);
        self.source.value(node, name)
    }

    fn estimate(&mut self, _name: &Name) -> u64 {
        self.keys
    }

    /// Counts the call, and estimates as `estimates` says.
    fn about(&mut self, keys: KeyRange<'_>) -> u64 {
        self.counts.estimates = self.counts.estimates.wrapping_add(1);
        match self.estimates {
            Estimates::Same => 1 << 32,
            Estimates::Counted => {
                keys_within(self.volume, keys.name, keys.low, keys.high) as u64
            }
            Estimates::Arbitrary(state) => {
                let state = next_state(state);
                self.estimates = Estimates::Arbitrary(state);
                (state >> 33) % 100
            }
        }
    }
}

/// The nodes that a cover finds, and what was asked for to find them. It is `None` if the cover
/// doesn't cover the query.
pub(crate) fn nodes_by(
    alloc: Global,
    volume: &Volume,
    query: &Query,
    cover: &Cover,
) -> Result<Option<(Vec<u64>, Counts)>, Refusal> {
    let mut source = start_counting(volume, u64::MAX);
    if !covers(cover, query, &mut source) {
        return Ok(None);
    }
    let nodes = run(alloc, cover, query, &mut source)?;
    Ok(Some((nodes, source.counts)))
}

/// The nodes by the picks chosen from a source that knows the kinds, and the counts of what
/// choosing and finding asked for.
pub(crate) fn nodes_chosen(
    alloc: Global,
    volume: &Volume,
    query: &Query,
) -> Result<(Vec<u64>, Counts), Refusal> {
    let mut source = start_counting(volume, u64::MAX);
    let cover = choose_from(alloc, query, &mut source)?;
    let nodes = run(alloc, &cover, query, &mut source)?;
    Ok((nodes, source.counts))
}

/// The nodes that match the query, and what was asked for to find them, if the source estimates
/// this many keys for each index.
pub(crate) fn nodes_estimated(
    alloc: Global,
    volume: &Volume,
    query: &Query,
    keys: u64,
) -> Result<(Vec<u64>, Counts), Refusal> {
    let mut source = start_counting(volume, keys);
    let nodes = answer(alloc, query, &mut source)?;
    Ok((nodes, source.counts))
}

/// The nodes that match the query, and what was asked for to find them, if the source estimates how
/// many keys each range has, up to 64.
pub(crate) fn nodes_fewest(
    alloc: Global,
    volume: &Volume,
    query: &Query,
) -> Result<(Vec<u64>, Counts), Refusal> {
    let mut source = start_counting(volume, u64::MAX);
    source.estimates = Estimates::Counted;
    let nodes = answer(alloc, query, &mut source)?;
    Ok((nodes, source.counts))
}

/// The nodes that match the query, if the source estimates an arbitrary number of keys for each
/// range, and `keys` for each index.
pub(crate) fn nodes_arbitrary(
    alloc: Global,
    volume: &Volume,
    query: &Query,
    keys: u64,
    seed: u64,
) -> Result<Vec<u64>, Refusal> {
    let mut source = start_counting(volume, keys);
    source.estimates = Estimates::Arbitrary(seed);
    answer(alloc, query, &mut source)
}
