//! Random volumes: each node of an answer has a key in one of the ranges that were walked. No
//! contract says that no range is left out.
use crate::tests::asking::{Ways, ways_of, ways_of_plain};
use be_paged_test_tools::{Forms, Random, read_query};
use be_query::Query;
use be_test_tools::{again, indexed_value};
use be_value::{Name, Refusal, Value, key_of};
use be_volume::{Op, Volume};
use be_ways::Way;
use std::alloc::Global;
use std::test::Fail;

/// Ranges and patterns on one name and on several, in any order, and queries without an index.
const QUERIES: &str = r#"text=="*"
text=="*b*"
text=="a*" && size>=1
text!=ab
size>=1 && text=="a*" && size<=6
small==0 || text==""
small==0 || small==0 || small>2
small!=0 && size!=1
!(small<0 && text==ab)
(small>=0 || text==ab) && size>=1 && small<=1
(small<0 || small>1) && (text=="b*" || size<3)
small>=-1 && size<=5
size>=1 && other>0 && small<=2
other==1 && (text==a || text==ab)
small>3 && (text=="*" && small<2)
small==x || size>7
small>=-9 && size>=0 && text=="*" && other<9
other==1
other==1 || small==1"#;

/// A random text, some of which are prefixes of others.
fn random_text(random: &mut Random) -> Result<Value, Refusal> {
    Value::text(["", "a", "ab", "abc", "b", "zb"][(random.below(6) % 6) as usize])
}

/// Sets one of a node's attributes to one of a few values. The name `other` has no index.
fn random_set(random: &mut Random, node: u64) -> Result<Op, Refusal> {
    let number = random.below(9);
    match random.below(4) {
        0 => Ok(Op::Set(node, Name::new("text")?, random_text(random)?)),
        1 => Ok(Op::Set(node, Name::new("size")?, Value::uint64(number))),
        2 => Ok(Op::Set(node, Name::new("other")?, Value::uint64(number))),
        _ => Ok(Op::Set(
            node,
            Name::new("small")?,
            Value::int32((number % 9) as i32 - 4),
        )),
    }
}

/// Makes nodes or sets attributes, at random.
fn write(random: &mut Random, forms: &mut Forms, count: u64) -> Result<(), Fail> {
    for _ in 0..count {
        let node = random.below(forms.next());
        let op = match random.below(4) {
            0 => Op::New,
            _ => random_set(random, node)?,
        };
        let _answer = forms.write(&[op])?;
    }
    Ok(())
}

/// Whether the node has a key in the range.
fn has_node(plain: &Volume, way: &Way, node: u64) -> bool {
    let Some(value) = indexed_value(plain, &way.name, node) else {
        return false;
    };
    let key = key_of(&value, node);
    let is_below = match &way.high {
        Some(high) => key.as_slice() <= high.as_slice(),
        None => true,
    };
    is_below && way.low.as_slice() <= key.as_slice()
}

/// Whether one of the ranges has the node.
fn is_walked(plain: &Volume, ways: &[Way], node: u64) -> bool {
    for way in ways {
        if has_node(plain, way, node) {
            return true;
        }
    }
    false
}

/// Whether each node is in one of the ranges.
fn are_walked(plain: &Volume, ways: &[Way], nodes: &[u64]) -> bool {
    for node in nodes {
        if !is_walked(plain, ways, *node) {
            return false;
        }
    }
    true
}

/// Whether the ranges have each node of a scan, or the errors are the same.
fn are_right(plain: &Volume, scan: &Result<Vec<u64>, Refusal>, ways: &Ways) -> bool {
    match (scan, ways) {
        (Ok(nodes), Ok(ways)) => are_walked(plain, ways.as_slice(), nodes.as_slice()),
        (Err(one), Err(other)) => one == other,
        _ => false,
    }
}

/// Whether the ranges in the plain volume and in the pages are right.
fn are_both_right(alloc: Global, forms: &Forms, query: &Query, ways: &Ways) -> bool {
    let Some(both) = &forms.both else {
        return false;
    };
    let scan = again!(both.plain.query(query));
    let of_plain = again!(ways_of_plain(alloc, &both.plain, query));
    are_right(&both.plain, &scan, ways) && are_right(&both.plain, &scan, &of_plain)
}

/// Fails unless each query has all its ranges.
fn check_queries(alloc: Global, forms: &mut Forms) -> Result<(), Fail> {
    for text in QUERIES.lines() {
        let query = read_query(alloc, text)?;
        let ways = ways_of(alloc, forms, &query)?;
        if !are_both_right(alloc, forms, &query, &ways) {
            return Err(Fail::new(text));
        }
    }
    Ok(())
}

/// The same for a volume that grows.
pub(crate) fn check_random(alloc: Global, random: &mut Random) -> Result<(), Fail> {
    let mut forms = Forms::new(alloc, 1024)?;
    forms.accept_text(alloc, "mkindex text CSTR;mkindex size ULLG;new")?;
    for count in [0, 10, 100, 300, 600] {
        write(random, &mut forms, count)?;
        check_queries(alloc, &mut forms)?;
        if count == 10 {
            forms.accept_text(alloc, "mkindex small LONG")?;
        }
    }
    Ok(())
}
