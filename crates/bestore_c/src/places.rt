//! Writes to arrays of C, as far as there is room.
ghost use Rattle.std.specs.Prelude.{◌≡◌, drop, length, map};
ghost use Rattle.bestore_c.specs.Places.{over, node_of};

use be_store::Done;

/// Copies as many items as fit to the first places. The remaining places are unchanged.
pub(crate) fn put<T: Copy>(places: &mut [T], numbers: &[T])
    ensures { places.new ≡ over numbers.now places.old }
{
    if numbers.len() <= places.len() {
        places[..numbers.len()].copy_from_slice(numbers);
    } else {
        places.copy_from_slice(&numbers[..places.len()]);
    }
}

/// Writes how many items there are, and as many of them as fit.
pub(crate) fn put_counted<T: Copy>(places: &mut [T], items: &[T], count: &mut u64)
    ensures count { count.new ≡ length items.now }
    ensures places { places.new ≡ over items.now places.old }
{
    *count = items.len() as u64;
    put(places, items);
}

/// Returns the numbers starting at an index. There are none if the index is at or past the end.
pub(crate) fn from_on(numbers: &[u64], from: u64) -> &[u64]
    ensures { result.now ≡ drop from numbers.now }
{
    let from = from.min(numbers.len() as u64);
    &numbers[from as usize..]
}

fn node_of(done: Done) -> u64
    ensures { result ≡ node_of done }
{
    match done {
        Done::Node(node) => node,
        Done::Unit => 0,
    }
}

/// Writes the numbers of new nodes to the first places, and 0 for any other outcome, as many as
/// fit.
pub(crate) fn put_nodes(places: &mut [u64], dones: &[Done])
    ensures { places.new ≡ over (map node_of dones.now) places.old }
{
    let count = dones.len().min(places.len());
    for i in 0..count {
        places[i] = node_of(dones[i]);
    }
}
