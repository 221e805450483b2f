//! How many keys a walk asks for, and what else is asked about the nodes that it finds.
//!
//! A range with too many keys would lose no answer, so no contract forbids it. So these tests count
//! each range. The range of one comparison should have exactly the known keys that it allows, and
//! one more for its end.
//!
//! A walk might also read a value that the key has given, or search an index for a value of which
//! the comparison is false. That would lose no answer either, so these are counted too.

use crate::tests::{replies, replies_of, volume_of};
use be_value::Refusal;
use be_volume::Volume;
use std::alloc::{AllocError, Global};
use std::test::Fail;

/// A volume with an index k of a kind, and `count` nodes 1, 2, .. with these values at k.
fn volume_of_values(
    alloc: Global,
    kind: &str,
    count: u64,
    values: &str,
) -> Result<Volume, Refusal> {
    let lines = match lines_of_values(alloc, kind, count, values) {
        Err(_) => lines_of_values(alloc, kind, count, values)?,
        Ok(lines) => lines,
    };
    volume_of(alloc, lines.as_str())
}

fn lines_of_values(
    alloc: Global,
    kind: &str,
    count: u64,
    values: &str,
) -> Result<String, AllocError> {
    format!(in alloc; "mkindex k {kind}\n{count} times new\neach k {kind}: {values}")
}

/// Seven ascending values of each kind: the lowest and the highest, and both sides of 0 or of the
/// middle.
const SEVENS: &str = "LONG -2147483648 -2147483647 -1 0 1 2147483646 2147483647
LLNG -9223372036854775808 -9223372036854775807 -1 0 1 9223372036854775806 9223372036854775807
ULNG 0 1 2147483647 2147483648 2147483649 4294967294 4294967295
ULLG 0 1 9223372036854775807 9223372036854775808 9223372036854775809 18446744073709551614 \
 18446744073709551615";

/// Of seven ascending values, `below` are below this one. The text says how many keys the range of
/// each comparison with it has.
fn keys_of_value(alloc: Global, value: &str, below: u64) -> Result<String, AllocError> {
    let above = 6u64.wrapping_sub(below);
    let to = below.wrapping_add(1);
    let from = above.wrapping_add(1);
    format!(in alloc;
        "keys k=={value} => 1\nkeys k<{value} => {below}\nkeys k<={value} => {to}\nkeys k>{value} \
         => {above}\nkeys k>={value} => {from}\n"
    )
}

/// The same for each value.
fn keys_of_values(alloc: Global, values: &str) -> Result<String, AllocError> {
    let mut lines = String::new(alloc);
    let mut below: u64 = 0;
    for value in values.split(' ') {
        lines.push_str(keys_of_value(alloc, value, below)?.as_str())?;
        below = below.wrapping_add(1);
    }
    Ok(lines)
}

/// Fails unless the range of each comparison with one of the values leaves out every key that it
/// can.
fn exact(alloc: Global, kind: &str, values: &str) -> Result<(), Fail> {
    let lines = match keys_of_values(alloc, values) {
        Err(_) => keys_of_values(alloc, values)?,
        Ok(lines) => lines,
    };
    let volume = volume_of_values(alloc, kind, 7, values)?;
    replies(alloc, &volume, lines.as_str())
}

#[test]
fn integer_ranges_are_exact(rt: HostRuntime) -> Result<(), Fail> {
    for line in SEVENS.lines() {
        let (kind, values) = line.split_once(" ").unwrap_or((line, ""));
        exact(rt.alloc(), kind, values)?;
    }
    Ok(())
}

/// Texts in ascending order: below a front, the front itself, those that begin with it, and above
/// them.
const TEXTS: &str = "\"\" a a\u{1} ab aé aéz b \u{10ffff} \u{10ffff}z";

/// Patterns, and how many of the texts begin with the pattern's front. Without a wildcard: how many
/// are the text.
const FRONTS: &str = "keys k==\"*\" => 9
keys k==\"a*\" => 5
keys k==\"a?\" => 5
keys k==\"a*z\" => 5
keys k==\"a[b]\" => 5
keys k==\"a\u{1}*\" => 1
keys k==\"aé*\" => 2
keys k==\"ac*\" => 0
keys k==\"\u{10ffff}*\" => 2
keys k==\"\" => 1
keys k==a => 1
keys k==c => 0";

#[test]
fn front_ranges_are_exact(rt: HostRuntime) -> Result<(), Fail> {
    let volume = volume_of_values(rt.alloc(), "CSTR", 9, TEXTS)?;
    replies(rt.alloc(), &volume, FRONTS)
}

/// A volume with five nodes, which have their number at k, p and q. k and q have an index.
const FIVE: &str = "mkindex k ULLG
mkindex q ULLG
5 times new
each k ULLG: 1 2 3 4 5
each p ULLG: 1 2 3 4 5
each q ULLG: 1 2 3 4 5";

/// For a node that a walk finds, the key gives the value at the picked name. At other names, the
/// value is read. If the comparison is then true and the name has an index, that is searched.
const LOOKS: &str = "looks k!=3 => values 0 searches 0
looks k!=3&&(k!=2||k!=4) => values 0 searches 0
looks k>=2&&p<4 => values 4 searches 0
looks k!=3&&q!=2 => values 4 searches 3
looks k!=3&&q!=2&&p==1 => values 7 searches 3";

#[test]
fn looks_are_exact(rt: HostRuntime) -> Result<(), Fail> {
    replies_of(rt.alloc(), FIVE, LOOKS)
}
