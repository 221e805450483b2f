//! A text has a query on its first line, and then the ranges that its answer from pages walks, as
//! `ways_text` prints them, or the error. If they are wrong, the message is what the query returns.
//! A blank line separates two texts.

mod asking;
mod random;

use crate::tests::asking::{Ways, ways_of, ways_of_plain, ways_once};
use crate::tests::random::check_random;
use be_paged_test_tools::{Forms, Random, read_query};
use be_query::Query;
use be_test_tools::{Refusal, again, answer_lines};
use be_volume::Volume;
use be_ways::{Way, ways_text};
use std::alloc::{AllocError, Global};
use std::test::Fail;

/// The lines of these ranges, or of the error.
fn lines_of(alloc: Global, ways: &Ways) -> Result<String, Refusal> {
    let text = match ways {
        Ok(ways) => ways_text(alloc, ways.as_slice()),
        Err(refusal) => Err(*refusal),
    };
    answer_lines(alloc, text)
}

/// Fails unless these are the ranges or the error.
fn expect(alloc: Global, ways: &Ways, expected: &str) -> Result<(), Fail> {
    let lines = again!(lines_of(alloc, ways))?;
    if lines.as_str().trim_end() == expected {
        return Ok(());
    }
    Err(Fail::new(lines.as_str()))
}

/// Fails unless a text is right.
fn check_text(alloc: Global, forms: &mut Forms, text: &str) -> Result<(), Fail> {
    let (text, expected) = text.split_once("\n").unwrap_or((text, ""));
    let query = read_query(alloc, text)?;
    let ways = ways_of(alloc, forms, &query)?;
    expect(alloc, &ways, expected)
}

fn check_texts(alloc: Global, forms: &mut Forms, texts: &str) -> Result<(), Fail> {
    for text in texts.split("\n\n") {
        check_text(alloc, forms, text)?;
    }
    Ok(())
}

/// Both forms of a volume, after these lists.
fn forms_after(alloc: Global, lists: &str) -> Result<Forms, Fail> {
    let mut forms = Forms::new(alloc, 256)?;
    for list in lists.lines() {
        forms.accept_text(alloc, list)?;
    }
    Ok(forms)
}

/// The ends of ranges of each kind, as texts: values that are included and excluded, and open ends.
/// If no number can satisfy a comparison, the walk ends at the first key that it reads.
#[test]
fn ends(rt: HostRuntime) -> Result<(), Fail> {
    let lists = "mkindex i LONG;mkindex u ULNG;mkindex l LLNG;mkindex z ULLG
new;set 1 i LONG 5;set 1 u ULNG 5;set 1 l LLNG 5;set 1 z ULLG 5
new;set 2 i LONG -5;set 2 u ULNG 4294967295
set 2 l LLNG -9223372036854775808;set 2 z ULLG 18446744073709551615";
    let texts = r#"i==5
"i"  5 .. 5  about 1 key, 1 walked

i<5
"i"  .. <5  about 1 key, 1 walked

i<=5
"i"  .. 5  about 2 keys, 2 walked

i>5
"i"  >5 ..  about 0 keys, 0 walked

i>=-5
"i"  -5 ..  about 2 keys, 2 walked

i>-5 && i<6
"i"  >-5 .. <6  about 1 key, 1 walked

i>=5 && i<5
"i"  5 .. <5  about 0 keys, 0 walked

i==2147483648
"i"  .. -5  about 1 key, 1 walked

i==x
"i"  .. -5  about 1 key, 1 walked

i<2147483648
"i"  ..  about 2 keys, 2 walked

u>-1
"u"  ..  about 2 keys, 2 walked

u>5
"u"  >5 ..  about 1 key, 1 walked

u==4294967295
"u"  4294967295 .. 4294967295  about 1 key, 1 walked

l==-9223372036854775808
"l"  -9223372036854775808 .. -9223372036854775808  about 1 key, 1 walked

l<-9223372036854775809
"l"  .. -9223372036854775808  about 1 key, 1 walked

z>=18446744073709551615
"z"  18446744073709551615 ..  about 1 key, 1 walked

z==18446744073709551616
"z"  .. 5  about 1 key, 1 walked"#;
    check_texts(rt.alloc(), &mut forms_after(rt.alloc(), lists)?, texts)
}

/// Lists that make strings.
const STRINGS: &str = r#"mkindex t CSTR;mkindex "a\"b" CSTR
new;set 1 t CSTR "";set 1 "a\"b" CSTR "c\\d"
new;set 2 t CSTR ann;new;set 3 t CSTR anna;new;set 4 t CSTR ben;new;set 5 t CSTR "a*"
new;set 6 t CSTR é"#;

/// The ends of ranges of strings: prefixes, the empty string, the longest one, and characters that
/// are escaped. A name is escaped like a string. A pattern walks the strings with its prefix.
#[test]
fn ends_of_strings(rt: HostRuntime) -> Result<(), Fail> {
    let texts = r#"t==ann
"t"  "ann" .. "ann"  about 1 key, 1 walked

t==""
"t"  .. ""  about 1 key, 1 walked

t=="ann*"
"t"  "ann" .. "ann"*  about 2 keys, 2 walked

t=="a\**"
"t"  "a*" .. "a*"*  about 1 key, 1 walked

t=="a*n*"
"t"  "a" .. "a"*  about 3 keys, 3 walked

t=="*"
"t"  ..  about 6 keys, 6 walked

t=="*n"
"t"  ..  about 6 keys, 6 walked

t>=ann
"t"  "ann" ..  about 4 keys, 4 walked

t>ann && t<b
"t"  >"ann" .. <"b"  about 1 key, 1 walked

t=="a*" && t<=ann
"t"  "a" .. "ann"  about 2 keys, 2 walked

t=="a*" && t=="b*"
"t"  "b" .. "a"*  about 0 keys, 0 walked

t=="é*"
"t"  "é" .. "é"*  about 1 key, 1 walked

"a\"b"=="c\\d"
"a\"b"  "c\\d" .. "c\\d"  about 1 key, 1 walked"#;
    check_texts(rt.alloc(), &mut forms_after(rt.alloc(), STRINGS)?, texts)
}

/// A query for strings that begin with 256 bytes. No value is so long.
fn too_long(alloc: Global) -> Result<Query, Refusal> {
    let front = "x".repeat(alloc, 256)?;
    let text = format!(in alloc; "t=={front}*")?;
    read_query(alloc, text.as_str())
}

/// A range that no string can be in.
#[test]
fn no_range(rt: HostRuntime) -> Result<(), Fail> {
    let mut forms = forms_after(rt.alloc(), STRINGS)?;
    let query = again!(too_long(rt.alloc()))?;
    let ways = ways_of(rt.alloc(), &mut forms, &query)?;
    expect(rt.alloc(), &ways, "\"t\"  none  about 0 keys, 0 walked")
}

/// Fails unless a text is right in the plain volume.
fn check_plain(alloc: Global, plain: &Volume, text: &str) -> Result<(), Fail> {
    let (text, expected) = text.split_once("\n").unwrap_or((text, ""));
    let query = read_query(alloc, text)?;
    let ways = again!(ways_of_plain(alloc, plain, &query));
    expect(alloc, &ways, expected)
}

/// A plain volume steps from key to key to test strings. Such a walk has the key that ended it too.
/// It estimates the same for each range.
#[test]
fn steps(rt: HostRuntime) -> Result<(), Fail> {
    let texts = r#"t=="a*n*"
"t"  "a" .. "ben"  about 4294967296 keys, 4 walked

t=="*n"
"t"  ..  about 4294967296 keys, 6 walked

t=="zz*n"
"t"  "zz" .. "é"  about 4294967296 keys, 1 walked

t=="ann*"
"t"  "ann" .. "ann"*  about 4294967296 keys, 2 walked

t<b || t==ben
"t"  "ben" .. "ben"  about 4294967296 keys, 1 walked
"t"  .. <"b"  about 4294967296 keys, 4 walked

s==1
refused 17 NotCovered"#;
    let both = forms_after(rt.alloc(), STRINGS)?.take()?;
    for text in texts.split("\n\n") {
        check_plain(rt.alloc(), &both.plain, text)?;
    }
    Ok(())
}

/// The operations that make a node. k is the node's number, f is 1 for every sixth node and 0 for
/// the others, and z is 1 for each. z has no index.
fn node_text(alloc: Global, node: u64) -> Result<String, AllocError> {
    let flag = if node % 6 == 0 { 1 } else { 0 };
    format!(in alloc; "new;set {node} k ULLG {node};set {node} f LONG {flag};set {node} z LONG 1")
}

fn make_node(alloc: Global, forms: &mut Forms, node: u64) -> Result<(), Fail> {
    let text = match node_text(alloc, node) {
        Err(_) => node_text(alloc, node)?,
        Ok(text) => text,
    };
    forms.accept_text(alloc, text.as_str())
}

/// Both forms of a volume of this many nodes.
fn flagged(alloc: Global, count: u64) -> Result<Forms, Fail> {
    let mut forms = Forms::new(alloc, 2048)?;
    forms.accept_text(alloc, "mkindex k ULLG;mkindex f LONG")?;
    for node in 1..=count {
        make_node(alloc, &mut forms, node)?;
    }
    Ok(forms)
}

/// The ranges of several comparisons. An answer walks those with the fewest keys, in whatever order
/// the comparisons are. Sides of an `||` are walked from the last to the first. A walk that tests
/// each key has the key that ended it too, or an open end.
#[test]
fn several(rt: HostRuntime) -> Result<(), Fail> {
    let texts = r#"f==0 && k>=11 && k<=30
"k"  11 .. 30  about 20 keys, 20 walked

k>=11 && f==0 && k<=30
"k"  11 .. 30  about 20 keys, 20 walked

f==0 && (k<=30 && k>=11)
"k"  11 .. 30  about 20 keys, 20 walked

f==1 && k>=11 && k<=50
"f"  1 ..  about 10 keys, 10 walked

f==0 && k<=40
"k"  .. 40  about 40 keys, 40 walked

k<=40 && f==0 && z==1
"k"  .. 41  about 41 keys, 41 walked

(k<=3 || f==1) && (k<=30 || f==0)
"f"  1 ..  about 10 keys, 10 walked
"k"  .. 4  about 4 keys, 4 walked

z==1 && k<3
"k"  .. <3  about 2 keys, 2 walked

(k<=3 || k>=58) && f==0
"k"  58 ..  about 3 keys, 3 walked
"k"  .. 3  about 3 keys, 3 walked

k<=3 || k<=3
"k"  .. 3  about 3 keys, 3 walked
"k"  .. 3  about 3 keys, 3 walked

f==0 && k>=31 && k<=30
"k"  31 .. 30  about 0 keys, 0 walked

k==1 || f==2
"f"  2 .. 2  about 0 keys, 0 walked
"k"  1 .. 1  about 1 key, 1 walked

!(k<=50)
"k"  >50 ..  about 10 keys, 10 walked

!(k>3 && f<=0)
"f"  >0 ..  about 10 keys, 10 walked
"k"  .. 3  about 3 keys, 3 walked

k!=7
"k"  .. <7  about 6 keys, 6 walked
"k"  >7 ..  about 53 keys, 53 walked

k>=5 && k!=7
"k"  5 .. <7  about 2 keys, 2 walked
"k"  >7 ..  about 53 keys, 53 walked

k!=7 && k<10
"k"  .. <7  about 6 keys, 6 walked
"k"  >7 .. <10  about 2 keys, 2 walked

z==1
refused 17 NotCovered

z==1 || k==1
refused 17 NotCovered

!(z==1 && k==1)
refused 17 NotCovered"#;
    let mut forms = flagged(rt.alloc(), 60)?;
    check_texts(rt.alloc(), &mut forms, texts)
}

/// Whether an estimate differs from the number by half of it and a page at most.
fn is_near(about: u64, walked: u64) -> bool {
    let more = walked.saturating_add(walked / 2).saturating_add(12);
    about <= more && walked <= about.saturating_add(walked / 2).saturating_add(12)
}

/// Fails unless this is one range with this many keys, and the estimate is near.
fn expect_one(ways: &Ways, count: u64) -> Result<(), Fail> {
    let Ok(ways) = ways else {
        return Err(Fail::new("no ranges"));
    };
    match ways.first() {
        Some(way) if ways.len() == 1 && way.walked == count && is_near(way.about, count) => Ok(()),
        _ => Err(Fail::new(count)),
    }
}

/// A query with this number in it.
fn query_with(alloc: Global, front: &str, number: u64) -> Result<Query, Refusal> {
    let text = format!(in alloc; "{front}{number}")?;
    read_query(alloc, text.as_str())
}

/// Fails unless the keys up to a number, and those above it, are one range each.
fn check_size(alloc: Global, forms: &mut Forms, number: u64) -> Result<(), Fail> {
    let low = again!(query_with(alloc, "k<=", number))?;
    let ways = ways_of(alloc, forms, &low)?;
    expect_one(&ways, number.min(NODES))?;
    let high = again!(query_with(alloc, "k>", number))?;
    let ways = ways_of(alloc, forms, &high)?;
    expect_one(&ways, NODES.saturating_sub(number))
}

/// How many nodes the largest volume has: its index has three levels.
const NODES: u64 = 1800;

/// Numbers of keys at which an index gets another page or another level, and others between.
const SIZES: [u64; 18] = [
    0, 1, 2, 11, 12, 13, 24, 25, 143, 144, 145, 500, 1000, 1727, 1728, 1729, 1799, 1800,
];

/// Ranges of few keys and of many.
#[test]
fn sizes(rt: HostRuntime) -> Result<(), Fail> {
    let mut forms = flagged(rt.alloc(), NODES)?;
    for size in SIZES {
        check_size(rt.alloc(), &mut forms, size)?;
    }
    Ok(())
}

/// Random volumes, in pages and plain: no range of an answer is left out.
#[test]
fn all_ranges(rt: HostRuntime) -> Result<(), Fail> {
    let mut random = Random::new(88_172_645_463_325_252);
    check_random(rt.alloc(), &mut random)
}

/// If a request for memory is refused, that is the result, or all ranges are there.
#[test]
fn refused_memory(rt: HostRuntime) -> Result<(), Fail> {
    let expected = r#""f"  1 .. 1  about 2 keys, 2 walked
"k"  .. 3  about 3 keys, 3 walked
"k"  12 ..  about 1 key, 1 walked"#;
    let mut forms = flagged(rt.alloc(), 12)?;
    let query = read_query(rt.alloc(), "k>=12 || k<=3 || f==1")?;
    match ways_once(rt.alloc(), &mut forms, &query)? {
        Err(Refusal::OutOfMemory) => Ok(()),
        ways => expect(rt.alloc(), &ways, expected),
    }
}
