//! Narrowing the range of keys that a walk over an index has to visit.
//!
//! The walk for a pick starts with all keys of the index and excludes those that can't yield an
//! answer through this pick. Each comparison on the picked name that is joined to the pick by `&&`
//! sets a bound; a pattern sets one through its literal prefix. A comparison on the other side of
//! an `||` sets no bound, because it need not be true. A number outside the range of the index's
//! kind excludes either all keys or none, depending on whether it is below or above that range. A
//! literal that isn't a number excludes all keys of an index of numbers. A string longer than any
//! value sets a bound with its first 255 bytes.
//!
//! Bounds are inclusive byte strings. Each is the key of a value with the lowest or the highest
//! node number, or the byte string next to that key if the value itself is excluded. A range of
//! numbers therefore contains no key that the walk would have to reject. The key itself is never
//! assembled: its front is the bytes of the literal or the number, and its end is one of four
//! constants.
//!
//! The functions that narrow a range return whether every remaining value satisfies the comparison,
//! or the whole query. If so, the node of every remaining key is an answer and needs no test. A
//! range decides a pattern only if the pattern does no more than say how a string begins.
ghost use Rattle.std.specs.Prelude.{◌≡◌, ◌<◌, ◌≤◌, ◌+◌, ℕ, ℤ, ◌≤ℤ◌, true, false, List, []};
ghost use Rattle.std.specs.Prelude.{◌∷◌, ◌++◌, ◌&&◌};
ghost use Rattle.std.specs.Prelude.{Some, None, IfSome, IfOk, IfErr, IsUtf8, length};
ghost use Rattle.be_plan.specs.Imports.{chars, comparisons, formula, has_nul, holds};
ghost use Rattle.be_plan.specs.Imports.{holds_of_number, is_plain, is_true_of, key_bytes, kind_of};
ghost use Rattle.be_plan.specs.Imports.{literal, literal_number, matches, name_cmp, option_copied};
ghost use Rattle.be_plan.specs.Imports.{option_map, sat, value_key, AnyValue, Exact, IsValue};
ghost use Rattle.be_plan.specs.Imports.{State};
ghost use Rattle.be_plan.specs.Walk.{AreAllOn};
ghost use Rattle.be_plan.specs.Bounding.{HasAtMost};
ghost use Rattle.be_plan.specs.Narrow.{AllTrue, AllTrueOf, KeepsTrue, KeepsTrueOf, IsIn, IsPair};
ghost use Rattle.be_plan.specs.Narrow.{IsBetween, Represents};
ghost use Rattle.be_plan.specs.Narrow.{HasEnds, Allows, LeavesRest, high_of, limit, rest_true};

use crate::ranges::Range;
use be_pattern::Pattern;
use be_query::{Cmp, Comparison, Literal, Tree};
use be_value::{Kind, Name, counted32, counted64};
use be_volume::literal_number;

/// The bytes after the string in a string's key, for the lowest node.
const TEXT_FIRST: [u8; 9] = [0; 9];

/// The bytes after the string in a string's key, for the highest node, and one more zero byte. A
/// key that is extended by this zero byte is the next byte string after the key itself.
const TEXT_AFTER: [u8; 10] = [0, 255, 255, 255, 255, 255, 255, 255, 255, 0];

/// The bytes after the number in a number's key, for the lowest node.
const NUMBER_FIRST: [u8; 8] = [0; 8];

/// The bytes after the number in a number's key, for the highest node, and one more zero byte.
const NUMBER_AFTER: [u8; 9] = [255, 255, 255, 255, 255, 255, 255, 255, 0];

/// Returns `end` without its last byte. If that byte is zero, no other byte string lies between the
/// two.
fn without_last(end: &[u8]) -> &[u8]
    ensures { (bytes : List ℕ) → end.now ≡ bytes ++ 0 ∷ [] → result.now ≡ bytes }
{
    match end.split_last() {
        Some((_, bytes)) => bytes,
        None => end,
    }
}

/// Excludes the keys of values for which the operator is false with the comparison's literal, given
/// a value that is equivalent to that literal. The keys of this value begin with `front`; what
/// follows is `first` for the lowest node, and `after` without its zero byte for the highest.
/// Returns `true` if the operator is true of all remaining values.
fn narrow_by(
    range: &mut Range,
    op: Cmp,
    comparison: &Comparison,
    kind: Kind,
    front: &[u8],
    first: &[u8],
    after: &[u8],
) -> bool
    ghost bound: { AnyValue }
    requires represents { Represents (literal comparison.now.literal) kind bound }
    requires ends { HasEnds bound front.now first.now after.now }
    ensures within { (k : List ℕ) → IsIn range.new k → IsIn range.old k }
    ensures keeps { KeepsTrue kind op (literal comparison.now.literal) range.old range.new }
    ensures decides { result ≡ true
        → AllTrue kind op (literal comparison.now.literal) range.new }
{
    match op {
        Cmp::Eq => range.raise_to(front, first) && range.lower_to(front, without_last(after)),
        Cmp::Ne => false,
        Cmp::Lt => range.lower_to(front, without_last(first)),
        Cmp::Le => range.lower_to(front, without_last(after)),
        Cmp::Gt => range.raise_to(front, after),
        Cmp::Ge => range.raise_to(front, first),
    }
}

/// Does what `narrow_by` does, for the integer that is encoded as `bytes` in a key.
fn narrow_by_integer(
    range: &mut Range,
    op: Cmp,
    comparison: &Comparison,
    kind: Kind,
    bytes: &[u8],
) -> bool
    ghost bound: { AnyValue }
    requires represents { Represents (literal comparison.now.literal) kind bound }
    requires bytes { bytes.now ≡ value_key bound }
    ensures within { (k : List ℕ) → IsIn range.new k → IsIn range.old k }
    ensures keeps { KeepsTrue kind op (literal comparison.now.literal) range.old range.new }
    ensures decides { result ≡ true
        → AllTrue kind op (literal comparison.now.literal) range.new }
{
    narrow_by(
        range,
        op,
        comparison,
        kind,
        bytes,
        &NUMBER_FIRST,
        &NUMBER_AFTER,
    )
}

/// Does what `narrow_by` does, for the number that the literal encodes. Returns `None` and leaves
/// the range unchanged if this number isn't a value of the kind.
fn narrow_by_number(
    range: &mut Range,
    op: Cmp,
    comparison: &Comparison,
    kind: Kind,
    number: i128,
) -> Option<bool>
    requires { literal_number (literal comparison.now.literal) ≡ Some number }
    ensures within { (k : List ℕ) → IsIn range.new k → IsIn range.old k }
    ensures keeps { KeepsTrue kind op (literal comparison.now.literal) range.old range.new }
    ensures decides { IfSome result (λ all. all ≡ true
        → AllTrue kind op (literal comparison.now.literal) range.new) }
{
    match kind {
        Kind::Long => {
            let n = i32::try_from(number).ok()?;
            let bytes = counted32(n).to_be_bytes();
            Some(narrow_by_integer(range, op, comparison, kind, &bytes))
        }
        Kind::Llng => {
            let n = i64::try_from(number).ok()?;
            let bytes = counted64(n).to_be_bytes();
            Some(narrow_by_integer(range, op, comparison, kind, &bytes))
        }
        Kind::Ulng => {
            let n = u32::try_from(number).ok()?;
            Some(narrow_by_integer(range, op, comparison, kind, &n.to_be_bytes()))
        }
        Kind::Ullg => {
            let n = u64::try_from(number).ok()?;
            Some(narrow_by_integer(range, op, comparison, kind, &n.to_be_bytes()))
        }
        Kind::Cstr | Kind::Mims | Kind::Rawt => None,
    }
}

/// Excludes the keys of integers for which the operator is false with the comparison's literal.
/// Returns `true` if the operator is true of all remaining integers, and `false` if the literal
/// isn't a value of the kind.
pub(crate) fn narrow_by_operator(
    range: &mut Range,
    op: Cmp,
    comparison: &Comparison,
    kind: Kind,
) -> bool
    ensures within { (k : List ℕ) → IsIn range.new k → IsIn range.old k }
    ensures keeps { KeepsTrue kind op (literal comparison.now.literal) range.old range.new }
    ensures decides { result ≡ true
        → AllTrue kind op (literal comparison.now.literal) range.new }
{
    let Some(number) = literal_number(&comparison.literal) else {
        return false;
    };
    match narrow_by_number(range, op, comparison, kind, number) {
        Some(all) => all,
        None => false,
    }
}

/// Returns the lowest and the highest number of an integer kind.
fn numbers_of(kind: Kind) -> Option<(i128, i128)>
    ensures { IfSome result (λ ends. (v : AnyValue) → IsValue v → kind_of v ≡ kind
        → IsBetween ends.0 ends.1 v) }
{
    match kind {
        Kind::Long => Some((i128::from(i32::MIN), i128::from(i32::MAX))),
        Kind::Llng => Some((i128::from(i64::MIN), i128::from(i64::MAX))),
        Kind::Ulng => Some((0, i128::from(u32::MAX))),
        Kind::Ullg => Some((0, i128::from(u64::MAX))),
        Kind::Cstr | Kind::Mims | Kind::Rawt => None,
    }
}

/// Returns `true` if comparing with `number` yields `false` for every number from `least` to
/// `greatest`. If `number` is `None`, this is always the case.
fn is_false_between(op: Cmp, number: Option<i128>, least: i128, greatest: i128) -> bool
    ensures { result ≡ true → (n : ℤ) → least ≤ℤ n → n ≤ℤ greatest → holds_of_number op n number
        ≡ false }
{
    let Some(number) = number else {
        return true;
    };
    match op {
        Cmp::Eq => number < least || greatest < number,
        Cmp::Ne => false,
        Cmp::Lt | Cmp::Le => number < least,
        Cmp::Gt | Cmp::Ge => greatest < number,
    }
}

/// Returns `true` if the comparison is false for all values of an integer kind: its literal encodes
/// either no number or a number on the wrong side of all these values.
fn is_false_of_all(comparison: &Comparison, kind: Kind, number: Option<i128>) -> bool
    requires { number ≡ literal_number (literal comparison.now.literal) }
    ensures { result ≡ true → (v : AnyValue) → IsValue v → kind_of v ≡ kind
        → holds comparison.now.op v (literal comparison.now.literal) ≡ false }
{
    let Some((least, greatest)) = numbers_of(kind) else {
        return false;
    };
    is_false_between(comparison.op, number, least, greatest)
}

/// Excludes the keys of integers that don't satisfy the comparison. Returns `true` if all remaining
/// integers do, and `false` if the literal isn't a value of the kind.
fn narrow_integers(range: &mut Range, comparison: &Comparison, kind: Kind) -> bool
    ensures within { (k : List ℕ) → IsIn range.new k → IsIn range.old k }
    ensures keeps { KeepsTrueOf kind comparison.now range.old range.new }
    ensures decides { result ≡ true → AllTrueOf kind comparison.now range.new }
{
    let number = literal_number(&comparison.literal);
    if let Some(number) = number {
        if let Some(all) = narrow_by_number(range, comparison.op, comparison, kind, number) {
            return all;
        }
    }
    if is_false_of_all(comparison, kind, number) {
        range.close();
    }
    false
}

/// Returns a byte that is greater than every byte that may follow the pattern's literal prefix in a
/// key. Without a wildcard, only a zero byte may follow; with one, so may the first byte of a
/// character.
fn limit_of(pattern: &Pattern) -> u8
    ensures { result ≡ limit (is_plain pattern.now) }
{
    if pattern.is_plain() { 1 } else { 255 }
}

/// Excludes the keys of strings that don't begin with the pattern's literal prefix, or all keys if
/// the prefix is longer than any value. Returns `true` if the pattern matches all remaining
/// strings. A prefix that contains a zero byte could extend into the node number of a key, so the
/// result is then `false`.
fn narrow_by_pattern(range: &mut Range, pattern: &Pattern) -> bool
    ensures within { (k : List ℕ) → IsIn range.new k → IsIn range.old k }
    ensures keeps { (text : List ℕ) (n : ℕ) → IsUtf8 text → length text ≤ 255
        → matches pattern.now (chars text) ≡ true →
        IsIn range.old (key_bytes (AnyValue.Cstr text) n)
        → IsIn range.new (key_bytes (AnyValue.Cstr text) n) }
    ensures decides { result ≡ true → (text : List ℕ) (n : ℕ) → IsUtf8 text → has_nul text ≡ false →
        IsIn range.new (key_bytes (AnyValue.Cstr text) n) → matches pattern.now (chars text)
        ≡ true }
{
    let front = pattern.prefix().as_bytes();
    if front.len() > 255 {
        range.close();
        return false;
    }
    if !range.raise_to(front, &[]) {
        return false;
    }
    if !range.lower_to(front, &[limit_of(pattern)]) {
        return false;
    }
    pattern.is_prefix() && !front.contains(&0)
}

/// Excludes the keys of strings for which the operator is false, given a literal that is longer
/// than any value. Its first 255 bytes set the bound. They set no upper bound if they contain a
/// zero byte, and `==` and `!=` set no bound at all.
fn narrow_by_long(range: &mut Range, op: Cmp, words: &[u8])
    requires { 255 < length words.now }
    ensures within { (k : List ℕ) → IsIn range.new k → IsIn range.old k }
    ensures keeps { (text : List ℕ) (n : ℕ) → length text ≤ 255
        → is_true_of op (name_cmp text words.now) ≡ true →
        IsIn range.old (key_bytes (AnyValue.Cstr text) n)
        → IsIn range.new (key_bytes (AnyValue.Cstr text) n) }
{
    let front = &words[..255];
    match op {
        Cmp::Eq | Cmp::Ne => {}
        Cmp::Lt | Cmp::Le => {
            if !front.contains(&0) {
                let _fits = range.lower_to(front, &[1]);
            }
        }
        Cmp::Gt | Cmp::Ge => {
            let _fits = range.raise_to(front, &[1]);
        }
    }
}

/// Excludes the keys of strings that don't satisfy the comparison with `words`. Returns `true` if
/// all remaining strings do, and `false` if `words` can't be a value.
fn narrow_by_text(range: &mut Range, comparison: &Comparison, words: &str) -> bool
    requires { literal comparison.now.literal ≡ Exact words.now }
    ensures within { (k : List ℕ) → IsIn range.new k → IsIn range.old k }
    ensures keeps { KeepsTrueOf Kind.Cstr comparison.now range.old range.new }
    ensures decides { result ≡ true → AllTrueOf Kind.Cstr comparison.now range.new }
{
    let bytes = words.as_bytes();
    if bytes.len() > 255 {
        narrow_by_long(range, comparison.op, bytes);
        return false;
    }
    if bytes.contains(&0) {
        return false;
    }
    narrow_by(
        range,
        comparison.op,
        comparison,
        Kind::Cstr,
        bytes,
        &TEXT_FIRST,
        &TEXT_AFTER,
    )
}

/// Excludes the keys of strings that don't satisfy the comparison. Returns `true` if all remaining
/// strings do.
fn narrow_texts(range: &mut Range, comparison: &Comparison) -> bool
    ensures within { (k : List ℕ) → IsIn range.new k → IsIn range.old k }
    ensures keeps { KeepsTrueOf Kind.Cstr comparison.now range.old range.new }
    ensures decides { result ≡ true → AllTrueOf Kind.Cstr comparison.now range.new }
{
    match (comparison.op, &comparison.literal) {
        (Cmp::Eq, Literal::Pattern(pattern)) => narrow_by_pattern(range, pattern),
        (_, Literal::Pattern(_)) => false,
        (_, Literal::Text(words)) => narrow_by_text(range, comparison, words.as_str()),
    }
}

/// Excludes the keys of values that don't satisfy the comparison. Returns `true` if all remaining
/// values do.
fn narrow(range: &mut Range, comparison: &Comparison, kind: Kind) -> bool
    ensures within { (k : List ℕ) → IsIn range.new k → IsIn range.old k }
    ensures keeps { KeepsTrueOf kind comparison.now range.old range.new }
    ensures decides { result ≡ true → AllTrueOf kind comparison.now range.new }
{
    match kind {
        Kind::Cstr => narrow_texts(range, comparison),
        Kind::Long | Kind::Llng | Kind::Ulng | Kind::Ullg => {
            narrow_integers(range, comparison, kind)
        }
        Kind::Mims | Kind::Rawt => false,
    }
}

/// Returns the remaining condition of an `&&`, given the remaining conditions of its sides.
fn rest_of_both<'a>(
    tree: &'a Tree,
    left: Option<&'a Tree>,
    right: Option<&'a Tree>,
) -> Option<&'a Tree>
    ensures rest { (s : State) (node : ℕ) →
        sat s (formula tree.now) node ≡ (rest_true s (option_map formula (option_copied left.entry))
        node
        && rest_true s (option_map formula (option_copied right.entry)) node) →
        sat s (formula tree.now) node ≡ rest_true s (option_map formula (option_copied result))
        node }
    ensures few { (most : ℕ) → HasAtMost most (Some (formula tree.now))
        → HasAtMost most (option_map formula (option_copied left.entry))
        → HasAtMost most (option_map formula (option_copied right.entry))
        → HasAtMost most (option_map formula (option_copied result)) }
{
    match (left, right) {
        (None, right) => right,
        (left, None) => left,
        _ => Some(tree),
    }
}

/// Returns the remaining condition of an `||`, given that of one side: `None` if nothing remains of
/// that side, and otherwise the whole `||`.
pub(crate) fn rest_of_or<'a>(tree: &'a Tree, rest: Option<&'a Tree>) -> Option<&'a Tree>
    ensures { (s : State) (node : ℕ) →
        (option_map formula (option_copied rest.entry) ≡ None → sat s (formula tree.now) node
        ≡ true) →
        sat s (formula tree.now) node ≡ rest_true s (option_map formula (option_copied result))
        node }
{
    match rest {
        Some(_) => Some(tree),
        None => None,
    }
}

/// Excludes the keys of values that a node can't have for this name if it satisfies the part. An
/// `||` excludes no keys, because either of its sides may be false. Returns the condition that
/// remains to be tested on the nodes of the remaining keys, or `None` if the range decides the
/// part.
pub(crate) fn narrow_beside<'a>(
    range: &mut Range,
    tree: &'a Tree,
    name: &Name,
    kind: Kind,
) -> Option<&'a Tree>
    ensures within { (k : List ℕ) → IsIn range.new k → IsIn range.old k }
    ensures keeps { (pick at : ℕ) (v : AnyValue) (n : ℕ) → IsPair kind v n
        → Allows pick at (formula tree.now) name.now v →
        IsIn range.old (key_bytes v n) → IsIn range.new (key_bytes v n) }
    ensures leaves { LeavesRest (formula tree.now) name.now kind range.new.low.items
        (high_of range.new) (option_map formula (option_copied result)) }
    ensures few { HasAtMost (comparisons (formula tree.now))
        (option_map formula (option_copied result)) }
{
    match tree {
        Tree::Leaf(comparison) => {
            let decided = comparison.name == *name && narrow(range, comparison, kind);
            if decided { None } else { Some(tree) }
        }
        Tree::And(a, b) => {
            let left = narrow_beside(range, a, name, kind);
            let right = narrow_beside(range, b, name, kind);
            rest_of_both(tree, left, right)
        }
        Tree::Or(_, _) => Some(tree),
    }
}

/// Does what `narrow_beside` does for a part in which all comparisons are on the index's own name.
/// No names are compared.
pub(crate) fn narrow_alone<'a>(range: &mut Range, tree: &'a Tree, kind: Kind) -> Option<&'a Tree>
    ensures within { (k : List ℕ) → IsIn range.new k → IsIn range.old k }
    ensures keeps { (name : List ℕ) → AreAllOn (formula tree.now) name
        → (pick at : ℕ) (v : AnyValue) (n : ℕ) → IsPair kind v n →
        Allows pick at (formula tree.now) name v → IsIn range.old (key_bytes v n)
        → IsIn range.new (key_bytes v n) }
    ensures leaves { (name : List ℕ) → AreAllOn (formula tree.now) name →
        LeavesRest (formula tree.now) name kind range.new.low.items (high_of range.new)
        (option_map formula (option_copied result)) }
{
    match tree {
        Tree::Leaf(comparison) => {
            let decided = narrow(range, comparison, kind);
            if decided { None } else { Some(tree) }
        }
        Tree::And(a, b) => {
            let left = narrow_alone(range, a, kind);
            let right = narrow_alone(range, b, kind);
            rest_of_both(tree, left, right)
        }
        Tree::Or(_, _) => Some(tree),
    }
}

/// Excludes the keys of values that a node can't have for this name if it satisfies the part
/// through the pick. The part's first comparison is at position `at`. Returns the condition that
/// remains to be tested on the nodes of the remaining keys. If the range decides the pick's side of
/// an `||`, it decides the `||`. If the part ends before the pick, the range is unchanged, and the
/// error is the position after the part.
pub(crate) fn narrow_all<'a>(
    range: &mut Range,
    tree: &'a Tree,
    at: usize,
    pick: usize,
    name: &Name,
    kind: Kind,
) -> Result<Option<&'a Tree>, usize>
    requires few { at + comparisons (formula tree.now) ≤ 256 }
    requires from { at ≤ pick }
    ensures within { (k : List ℕ) → IsIn range.new k → IsIn range.old k }
    ensures keeps { (v : AnyValue) (n : ℕ) → IsPair kind v n
        → Allows pick at (formula tree.now) name.now v →
        IsIn range.old (key_bytes v n) → IsIn range.new (key_bytes v n) }
    ensures leaves { IfOk result (λ rest. LeavesRest (formula tree.now) name.now kind
        range.new.low.items (high_of range.new)
        (option_map formula (option_copied rest))) }
    ensures inside { IfOk result (λ _. pick < at + comparisons (formula tree.now)) }
    ensures beyond { IfErr result (λ end. (end ≡ at + comparisons (formula tree.now)) × (end ≤ pick)
        × (range.new ≡ range.old)) }
{
    match tree {
        Tree::Leaf(_) => {
            if at < pick {
                return Err(at + 1);
            }
            Ok(narrow_beside(range, tree, name, kind))
        }
        Tree::And(a, b) => match narrow_all(range, a, at, pick, name, kind) {
            Ok(left) => {
                let right = narrow_beside(range, b, name, kind);
                Ok(rest_of_both(tree, left, right))
            }
            Err(middle) => {
                let right = narrow_all(range, b, middle, pick, name, kind)?;
                let left = narrow_beside(range, a, name, kind);
                Ok(rest_of_both(tree, left, right))
            }
        },
        Tree::Or(a, b) => match narrow_all(range, a, at, pick, name, kind) {
            Ok(rest) => Ok(rest_of_or(tree, rest)),
            Err(middle) => {
                let rest = narrow_all(range, b, middle, pick, name, kind)?;
                Ok(rest_of_or(tree, rest))
            }
        },
    }
}
