//! Ranges of keys.
//!
//! Bounds narrow a range. A bound is passed in two parts, a front and an end: for example, the
//! bytes of a literal and the bytes of a node. To be compared, the two parts need not be
//! concatenated. They are copied only if the range changes, and then directly to their final
//! location.
ghost use Rattle.std.specs.Prelude.{◌≡◌, ◌+◌, ◌≤◌, true, false, List, [], ◌++◌, ℕ, length, IfSome};
ghost use Rattle.be_plan.specs.Imports.{is_gt, is_lt, name_cmp, option_copied};
ghost use Rattle.be_plan.specs.Narrow.{IsFrom, IsIn, IsTo, KeepsFrom, KeepsTo, high_of, is_above};

use crate::KeyRange;
use arrayvec::ArrayVec;
use be_value::Name;
use std::cmp::Ordering;
use std::marker::Model;

/// The bytes at one end of a range. The longest possible are one byte longer than the longest key.
/// Short byte strings have an array of their own, because creating an array clears it: 40 bytes are
/// enough for numbers and for strings of up to 30 bytes. Setting `many` to `None` would also clear
/// its array, so it is set only if it is `Some`.
#[derive(Drop)]
struct Bound {
    few: ArrayVec<u8, 40>,
    many: Option<ArrayVec<u8, 265>>,
}

impl Model for Bound {
    ghost use Rattle.std.specs.Prelude.{ℕ};
    ghost use Rattle.be_plan.specs.Imports.{array_vec_code, coded_ℕ, option_map_or, Items};

    ghost Value = { Items ℕ };

    ghost coded = { array_vec_code coded_ℕ };

    ghost view = { λ b. record { items = option_map_or (λ many. many.items) b.many b.few.items } };
}

impl Bound {
    /// Creates an empty byte string.
    fn new() -> Bound
        ensures { result.items ≡ [] }
    {
        Bound {
            few: ArrayVec::new(),
            many: None,
        }
    }

    /// Returns the bytes.
    fn as_slice(&self) -> &[u8]
        ensures value { result.now ≡ self.now.items }
    {
        match &self.many {
            Some(many) => many.as_slice(),
            None => self.few.as_slice(),
        }
    }

    /// Empties the byte string.
    fn clear(&mut self)
        ensures { self.new.items ≡ [] }
    {
        self.few.clear();
        if self.many.is_some() {
            self.many = None;
        }
    }

    /// Replaces the bytes with a front and an end, stored in the small array.
    fn put_few(&mut self, front: &[u8], end: &[u8])
        requires { length front.now + length end.now ≤ 40 }
        ensures { self.new.items ≡ front.now ++ end.now }
    {
        self.few.clear();
        self.few.try_extend_from_slice(front).unwrap();
        self.few.try_extend_from_slice(end).unwrap();
        if self.many.is_some() {
            self.many = None;
        }
    }

    /// Replaces the bytes with a front and an end, stored in the large array. This is a separate
    /// function because each call clears the array.
    #[inline(never)]
    fn put_many(&mut self, front: &[u8], end: &[u8])
        requires { length front.now + length end.now ≤ 265 }
        ensures { self.new.items ≡ front.now ++ end.now }
    {
        let mut many = ArrayVec::new();
        many.try_extend_from_slice(front).unwrap();
        many.try_extend_from_slice(end).unwrap();
        self.many = Some(many);
    }
}

/// The keys from `low` to `high`, both inclusive, or to the last key if the range isn't bounded.
#[derive(Drop)]
pub(crate) struct Range {
    low: Bound,
    high: Bound,
    bounded: bool,
}

impl Range {
    /// Returns the range of all keys.
    pub(crate) fn whole() -> Range
        ensures { (k : List ℕ) → IsIn result k }
    {
        Range {
            low: Bound::new(),
            high: Bound::new(),
            bounded: false,
        }
    }

    /// Resets the range to all keys, so that one range serves all walks of a query. Clearing the
    /// arrays of a new range would take as long as narrowing it.
    pub(crate) fn open(&mut self)
        ensures { (k : List ℕ) → IsIn self.new k }
    {
        self.low.clear();
        self.bounded = false;
    }

    /// Returns a range of the same keys, or `None` if its bounds don't fit.
    pub(crate) fn copy(&self) -> Option<Range>
        ensures within { IfSome result (λ range. (k : List ℕ) → IsIn range k → IsIn self.now k) }
        ensures keeps { IfSome result (λ range. (k : List ℕ) → IsIn self.now k → IsIn range k) }
    {
        let mut range = Range::whole();
        if !range.raise_to(self.low(), &[]) {
            return None;
        }
        let Some(high) = self.high() else {
            return Some(range);
        };
        if !range.lower_to(high, &[]) {
            return None;
        }
        Some(range)
    }

    /// Returns the keys of the range, in the index of `name`.
    pub(crate) fn keys<'a>(&'a self, name: &'a Name) -> KeyRange<'a>
        ensures name { result.name.now ≡ name.now }
        ensures low { result.low.now ≡ self.now.low.items }
        ensures high { option_copied result.high ≡ high_of self.now }
    {
        KeyRange {
            name,
            low: self.low(),
            high: self.high(),
        }
    }

    /// Returns the low bound. The range has no key below it.
    pub(crate) fn low(&self) -> &[u8]
        ensures { result.now ≡ self.now.low.items }
    {
        self.low.as_slice()
    }

    /// Returns the high bound, if there is one. The range has no key above it.
    pub(crate) fn high(&self) -> Option<&[u8]>
        ensures { option_copied result ≡ high_of self.now }
    {
        if self.bounded {
            Some(self.high.as_slice())
        } else {
            None
        }
    }

    /// Returns `true` if the low bound is above the high one, so that the range has no keys.
    pub(crate) fn is_empty(&self) -> bool
        ensures { result ≡ true → (k : List ℕ) → IsIn self.now k → ⊥ }
    {
        match self.high() {
            Some(high) => self.low().cmp(&high).is_gt(),
            None => false,
        }
    }

    /// Returns `true` if the key is above all keys of the range.
    pub(crate) fn ends_before(&self, key: &[u8]) -> bool
        ensures { result ≡ is_above (high_of self.now) key.now }
    {
        self.bounded && key.cmp(&self.high.as_slice()).is_gt()
    }

    /// Returns `true` if the low bound already excludes all keys below `front` followed by `end`.
    /// Otherwise, the low bound excludes no key from that point on. An empty low bound needs no
    /// comparison.
    fn starts_at(&self, front: &[u8], end: &[u8]) -> bool
        ensures starts { result ≡ true → (k : List ℕ) → is_lt (name_cmp k self.now.low.items)
            ≡ false → is_lt (name_cmp k (front.now ++ end.now)) ≡ false }
        ensures reaches { result ≡ false → (k : List ℕ) → is_lt (name_cmp k (front.now ++ end.now))
            ≡ false → is_lt (name_cmp k self.now.low.items) ≡ false }
    {
        let low = self.low.as_slice();
        !low.is_empty() && !order(low, front, end).is_lt()
    }

    /// Excludes keys below `front` followed by `end`, unless the two are too long for a bound.
    /// Returns `true` if the range contains no such keys afterward.
    pub(crate) fn raise_to(&mut self, front: &[u8], end: &[u8]) -> bool
        ensures within { (k : List ℕ) → IsIn self.new k → IsIn self.old k }
        ensures keeps { KeepsFrom (front.now ++ end.now) self.old self.new }
        ensures leaves { result ≡ true → IsFrom (front.now ++ end.now) self.new }
    {
        self.starts_at(front, end) || put(&mut self.low, front, end)
    }

    /// Returns `true` if the high bound already excludes all keys above `front` followed by `end`.
    /// Otherwise, the high bound excludes no key up to that point.
    fn ends_at(&self, front: &[u8], end: &[u8]) -> bool
        ensures ends { result ≡ true → (k : List ℕ) → is_above (high_of self.now) k ≡ false
            → is_gt (name_cmp k (front.now ++ end.now)) ≡ false }
        ensures reaches { result ≡ false → (k : List ℕ) → is_gt (name_cmp k (front.now ++ end.now))
            ≡ false → is_above (high_of self.now) k ≡ false }
    {
        self.bounded && !order(self.high.as_slice(), front, end).is_gt()
    }

    /// Excludes keys above `front` followed by `end`, unless the two are too long for a bound.
    /// Returns `true` if the range contains no such keys afterward.
    pub(crate) fn lower_to(&mut self, front: &[u8], end: &[u8]) -> bool
        ensures within { (k : List ℕ) → IsIn self.new k → IsIn self.old k }
        ensures keeps { KeepsTo (front.now ++ end.now) self.old self.new }
        ensures leaves { result ≡ true → IsTo (front.now ++ end.now) self.new }
    {
        if self.ends_at(front, end) {
            return true;
        }
        if !put(&mut self.high, front, end) {
            return false;
        }
        self.bounded = true;
        true
    }

    /// Excludes all keys by setting the high bound to the empty byte string, which no key equals.
    /// The walk ends at the first key that it reads.
    pub(crate) fn close(&mut self)
        ensures within { (k : List ℕ) → IsIn self.new k → IsIn self.old k }
        ensures leaves { (k : List ℕ) → IsIn self.new k → k ≡ [] }
    {
        self.high.clear();
        self.bounded = true;
    }
}

/// Replaces the bytes with a front and an end if they fit. Returns whether they do.
fn put(bytes: &mut Bound, front: &[u8], end: &[u8]) -> bool
    ensures fits { result ≡ true → bytes.new.items ≡ front.now ++ end.now }
    ensures not { result ≡ false → bytes.new ≡ bytes.old }
{
    if front.len() > 265 || end.len() > 265 - front.len() {
        return false;
    }
    if front.len() + end.len() <= 40 {
        bytes.put_few(front, end);
    } else {
        bytes.put_many(front, end);
    }
    true
}

/// Compares `bytes` with a front followed by an end.
fn order(bytes: &[u8], front: &[u8], end: &[u8]) -> Ordering
    ensures { result ≡ name_cmp bytes.now (front.now ++ end.now) }
{
    if bytes.len() < front.len() {
        return bytes.cmp(&front);
    }
    let (head, tail) = bytes.split_at(front.len());
    head.cmp(&front).then(tail.cmp(&end))
}
