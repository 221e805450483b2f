//! Finds out which nodes the journal's entries name.
//!
//! As long as no index is created or removed, a query's answer can change only at these nodes. The
//! numbers are collected in place, so no memory is allocated.
ghost use Rattle.std.specs.Prelude.{◌≡◌, ◌≤◌, ◌<◌, ℕ, true, get_or, length};
ghost use Rattle.be_store.specs.Imports.{entries, AnyEntry, IsStrictlyIncreasing};
ghost use Rattle.be_store.specs.History.{Learns, LocksAtMostOnce};
ghost use Rattle.be_store.specs.Live.{is_among};
ghost use Rattle.be_store.specs.Named.{AreNamedAmong, IsNamedAmong, NamesAmong, node_named};
ghost use Rattle.be_store.specs.Passes.{IsPassOf};

use crate::{Pass, Store};
use arrayvec::ArrayVec;
use be_table::Writing;
use be_volume::{Done, Op};

/// The maximum number of nodes that a refresh checks one by one.
pub(crate) const MOST: usize = 64;

/// Inserts a node into an ascending list unless it is already there. Returns `false` if the list
/// has no room.
fn add_node(nodes: &mut ArrayVec<u64, 64>, node: u64) -> bool
    requires rising { IsStrictlyIncreasing nodes.old.items }
    ensures rising { IsStrictlyIncreasing nodes.new.items }
    ensures keeps { (n : ℕ) → is_among nodes.old.items n ≡ true → is_among nodes.new.items n
        ≡ true }
    ensures has { result ≡ true → is_among nodes.new.items node ≡ true }
{
    match nodes.as_slice().binary_search(&node) {
        Ok(_) => true,
        Err(at) => nodes.try_insert(at, node).is_ok(),
    }
}

/// Returns the node that an operation changes, which for `New` is the new node. Operations on
/// indices change no node.
fn node_named(op: &Op, done: &Done) -> Option<u64>
    ensures { result ≡ node_named op.now done.now }
{
    match op {
        Op::New => match done {
            Done::Node(node) => Some(*node),
            Done::Unit => None,
        },
        Op::Drop(node) | Op::Set(node, _, _) | Op::Unset(node, _) => Some(*node),
        Op::MkIndex(_, _) | Op::RmIndex(_) => None,
    }
}

/// Inserts the node that an operation changes into an ascending list. Returns `false` if the
/// operation creates or removes an index, or if the list has no room.
fn add_step(nodes: &mut ArrayVec<u64, 64>, op: &Op, done: &Done) -> bool
    requires rising { IsStrictlyIncreasing nodes.old.items }
    ensures rising { IsStrictlyIncreasing nodes.new.items }
    ensures keeps { (n : ℕ) → is_among nodes.old.items n ≡ true → is_among nodes.new.items n
        ≡ true }
    ensures named { result ≡ true → IsNamedAmong nodes.new.items op.now done.now }
{
    match node_named(op, done) {
        Some(node) => add_node(nodes, node),
        None => false,
    }
}

/// Inserts the nodes that are changed by operations with these outcomes into an ascending list.
/// Returns `false` if an operation creates or removes an index, or if the list has no room. After
/// that, the contents of the list are unspecified.
fn add_named(nodes: &mut ArrayVec<u64, 64>, ops: &[Op], dones: &[Done]) -> bool
    requires rising { IsStrictlyIncreasing nodes.old.items }
    ensures rising { IsStrictlyIncreasing nodes.new.items }
    ensures keeps { (n : ℕ) → is_among nodes.old.items n ≡ true → is_among nodes.new.items n
        ≡ true }
    ensures named { result ≡ true → AreNamedAmong nodes.new.items ops.now dones.now }
{
    for i in 0..ops.len() {
        let Some(done) = dones.get(i) else {
            return false;
        };
        if !add_step(nodes, &ops[i], done) {
            return false;
        }
    }
    true
}

/// Inserts the nodes that one entry names, while the lock is held. Returns `false` in the same
/// cases as `add_named`, and if there is no memory for the entry.
fn add_entry(held: &Writing<'_>, i: u64, nodes: &mut ArrayVec<u64, 64>) -> bool
    requires inside { i < length held.now.knows.seen }
    requires rising { IsStrictlyIncreasing nodes.old.items }
    ensures rising { IsStrictlyIncreasing nodes.new.items }
    ensures keeps { (n : ℕ) → is_among nodes.old.items n ≡ true → is_among nodes.new.items n
        ≡ true }
    ensures named { result ≡ true → (d : AnyEntry)
        → NamesAmong nodes.new.items (get_or (entries held.now.knows.seen) i d) }
{
    let Ok(entry) = held.entry(i) else {
        return false;
    };
    add_named(nodes, entry.ops.as_slice(), entry.dones.as_slice())
}

/// Inserts the nodes named by the entries from one index up to another, while the lock is held.
fn add_between(held: &Writing<'_>, from: u64, end: u64, nodes: &mut ArrayVec<u64, 64>) -> bool
    requires end { end ≤ length held.now.knows.seen }
    requires rising { IsStrictlyIncreasing nodes.old.items }
    ensures rising { IsStrictlyIncreasing nodes.new.items }
    ensures named { result ≡ true → (i : ℕ) (d : AnyEntry) → from ≤ i → i < end →
        NamesAmong nodes.new.items (get_or (entries held.now.knows.seen) i d) }
{
    for i in from..end {
        if !add_entry(held, i, nodes) {
            return false;
        }
    }
    true
}

impl Store {
    /// Inserts the nodes that are named by the entries from version `from` up to version `end` into
    /// an ascending list. The pass must have seen these entries. A pin is unaffected.
    ///
    /// Returns `false` if `end` comes before `from`, if there are more than `most` entries, if an
    /// entry creates or removes an index, if the list has no room, if memory runs out, or if
    /// another pass holds the lock, which the call tries once. After that, the contents of the list
    /// are unspecified.
    #[tactic(auto, using(crate::proofs::Caught::learns_nothing))]
    pub(crate) fn add_named_between(
        &self,
        pass: &mut Pass,
        from: u64,
        end: u64,
        most: usize,
        nodes: &mut ArrayVec<u64, 64>,
    ) -> bool
        requires pass { IsPassOf self.now pass.old }
        requires end { end ≤ length pass.old.knows.seen }
        requires rising { IsStrictlyIncreasing nodes.old.items }
        ensures pass { IsPassOf self.now pass.new }
        ensures learns { Learns pass.old.knows pass.new.knows }
        ensures moves { LocksAtMostOnce pass.old.knows pass.new.knows }
        ensures rising { IsStrictlyIncreasing nodes.new.items }
        ensures order { result ≡ true → from ≤ end }
        ensures named { result ≡ true → (i : ℕ) (d : AnyEntry) → from ≤ i → i < end →
            NamesAmong nodes.new.items (get_or (entries pass.old.knows.seen) i d) }
    {
        if end < from || end - from > most as u64 {
            return false;
        }
        if from == end {
            return true;
        }
        let Ok(held) = self.lock(pass) else {
            return false;
        };
        let named = add_between(&held, from, end, nodes);
        *pass = held.unlock();
        pass.is_pass();
        named
    }
}
