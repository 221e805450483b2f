//! Worked examples of queries and predicates.

use super::lines::{replies, yes_or_no};
use be_query::{Comparison, Item, Literal, Query, Tree, from_rpn, parse, print, print_comparison};
use be_value::{Name, Refusal, number_of};
use std::alloc::Global;
use std::test::Fail;

/// The canonical text of the query that a text encodes.
pub(crate) fn printed(alloc: Global, text: &str) -> Result<String, Refusal> {
    print(alloc, &parse(alloc, text)?)
}

/// The canonical text of the query that a text encodes. Returns `NotCovered` if that text's own
/// canonical text differs from it.
pub(crate) fn printed_twice(alloc: Global, text: &str) -> Result<String, Refusal> {
    let once = printed(alloc, text)?;
    let twice = printed(alloc, once.as_str())?;
    if twice.as_str() == once.as_str() {
        Ok(once)
    } else {
        Err(Refusal::NotCovered)
    }
}

/// The comparison that a tree consists of.
fn leaf(tree: &Tree) -> Result<&Comparison, Refusal> {
    match tree {
        Tree::Leaf(comparison) => Ok(comparison),
        _ => Err(Refusal::NotCovered),
    }
}

/// The canonical text of a comparison's pattern.
fn pattern_of(alloc: Global, comparison: &Comparison) -> Result<String, Refusal> {
    match &comparison.literal {
        Literal::Pattern(pattern) => pattern.canonical(alloc),
        Literal::Text(_) => Err(Refusal::NotCovered),
    }
}

/// The canonical text of the pattern on the right of a query's `&&`.
pub(crate) fn right_pattern(alloc: Global, text: &str) -> Result<String, Refusal> {
    let query = parse(alloc, text)?;
    match query.tree() {
        Tree::And(_, right) => pattern_of(alloc, leaf(right)?),
        _ => Err(Refusal::NotCovered),
    }
}

/// Whether the pattern of a query's only comparison matches the text after it.
pub(crate) fn leaf_matches(alloc: Global, request: &str) -> Result<String, Refusal> {
    let (query, text) = request.split_once(" ").unwrap_or((request, ""));
    let query = parse(alloc, query)?;
    match &leaf(query.tree())?.literal {
        Literal::Pattern(pattern) => yes_or_no(alloc, pattern.matches(text)),
        Literal::Text(_) => Err(Refusal::NotCovered),
    }
}

/// Like `printed_twice`, for a text in which `|` stands for a line feed.
pub(crate) fn printed_with_feeds(alloc: Global, text: &str) -> Result<String, Refusal> {
    printed_twice(alloc, text.replace(alloc, "|", "\n")?.as_str())
}

/// Whether a query can be read.
pub(crate) fn is_read(alloc: Global, text: &str) -> Result<String, Refusal> {
    let _query = parse(alloc, text)?;
    yes_or_no(alloc, true)
}

/// The example `faults`, and each way in which reading a text can fail.
#[test]
fn faults(rt: HostRuntime) -> Result<(), Fail> {
    let lines = "query name==\"[a\" => refused 13 BadPattern 7
query (a==1 => refused 12 Syntax 5
query a==1 b => refused 12 Syntax 5
query a==1 & b==2 => refused 12 Syntax 5
query  => refused 12 Syntax 0
query a==1 &&   => refused 12 Syntax 9
query \"a => refused 12 Syntax 2
query \"\"==1 => refused 12 Syntax 0
query a==[\0 => refused 13 BadPattern 3
query a==\"[z-a => refused 12 Syntax 8
query a==\"x\0 => refused 12 Syntax 5
query a==\"x\0\" => refused 12 Syntax 5
query a==x\0 => refused 12 Syntax 4
query a==1 \"b => refused 12 Syntax 5
query a==1 b\\ => refused 12 Syntax 5
query a==1 \"b\0\" => refused 12 Syntax 5
query a==b\\ => refused 12 Syntax 5
query a==é[z-a] => refused 13 BadPattern 5
query a=!b => refused 12 Syntax 2
query a==b|c==d => refused 12 Syntax 4
read 64 x;==1 => refused 12 Syntax 0
read 64 x;\0 => refused 12 Syntax 0
read 64 x;\\\0 => refused 12 Syntax 65
read 64 ;\";x => refused 12 Syntax 65";
    replies(rt.alloc(), lines)
}

/// The example `hostile_queries`.
#[test]
fn hostile_queries(rt: HostRuntime) -> Result<(), Fail> {
    let lines = "query a==\" => refused 12 Syntax 4
query a==1\\ => refused 12 Syntax 5
query a==\0 => refused 12 Syntax 3
query a==1 || [ => refused 12 Syntax 9
query a==[z-a] => refused 13 BadPattern 3
query a==[] => refused 13 BadPattern 3
query a==[^] => refused 13 BadPattern 3
read 4096 ( => refused 15 TooDeep
read 64 ( => refused 12 Syntax 64
times 64 !;a==1 => \"a\"==\"1\"
read 65 !;a==1 => refused 15 TooDeep";
    replies(rt.alloc(), lines)
}

/// The example `query_limits`, and the last value within each limit. A `!` is open until its
/// operand ends.
#[test]
fn query_limits(rt: HostRuntime) -> Result<(), Fail> {
    let lines = "read 4097 x => refused 14 TooLong
read 4096 x => refused 12 Syntax 0
read 4092  ;a==1 => yes
read 4093  ;a==1 => refused 14 TooLong
read 64 (;a==1;) => yes
read 65 (;a==1;) => refused 15 TooDeep
read 32 (!;a==1;) => yes
read 32 (!;!a==1;) => refused 15 TooDeep
read 255 a==1||;a==1 => yes
read 256 a==1||;a==1 => refused 16 TooMany
read 256 a==1||;a==[ => refused 13 BadPattern 1539
read 256 a==1||;a==1\0 => refused 16 TooMany
read 4092 ;a==1;  => yes
read 4093 ;a==1;  => refused 14 TooLong
read 64 (;a==1( => refused 12 Syntax 68
read 70 !a==1&&;a==1 => yes
read 70 !(a==1)&&;a==1 => yes";
    replies(rt.alloc(), lines)
}

/// After an error, everything that was built is dropped: a tree that leans to the left, levels that
/// are waiting, and a tree that leans to the right.
#[test]
fn trees_given_up(rt: HostRuntime) -> Result<(), Fail> {
    let lines = "read 255 a==1||;a==1;; b => refused 12 Syntax 1535
read 64 (a==1&&;a==1;; b => refused 12 Syntax 453
read 64 (a==1&&;a==1;); b => refused 12 Syntax 517
read 64 (a==1||a==1&&;a==1;); b => refused 12 Syntax 901
read 32 !(a==1||a==1&&;a==1;); b => refused 12 Syntax 485";
    replies(rt.alloc(), lines)
}

/// The example `printing`, and each way to read a text that has a tree.
#[test]
fn printing(rt: HostRuntime) -> Result<(), Fail> {
    let lines = "query a=1||!(b<2&&c='x*') => \"a\"==\"1\" || (\"b\">=\"2\" || \"c\"!=\"x*\")
query ((name==\"*[cC]\")&&(name!=\"b*\")) => \"name\"==\"*[cC]\" && \"name\"!=\"b*\"
query a=1&&b=2&&c=3||d=4||e=5 => \"a\"==\"1\" && \"b\"==\"2\" && \"c\"==\"3\" || \"d\"==\"4\" || \
     \"e\"==\"5\"
query a=1||(b=2||c=3) => \"a\"==\"1\" || (\"b\"==\"2\" || \"c\"==\"3\")
query (a=1||b=2)&&c=3&&(d=4&&e=5) => (\"a\"==\"1\" || \"b\"==\"2\") && \"c\"==\"3\" && \
     (\"d\"==\"4\" && \"e\"==\"5\")
query \\(x==1 => \"(x\"==\"1\"
query a==[^a-a\\-\\]]\\]? => \"a\"==\"[^a\\-\\]]]?\"
query a==[--a]&&b==[a-b-c] => \"a\"==\"[\\--a]\" && \"b\"==\"[a-b\\-c]\"
query 'x\"\\\\'<'\\*\"' => \"x\\\"\\\\\"<\"*\\\"\"
query !!!(a>1||b<=2) => \"a\"<=\"1\" && \"b\">\"2\"
query !!(a=1&&b=2) => \"a\"==\"1\" && \"b\"==\"2\"
query !(a=1&&!(b=2||c=3)) => \"a\"!=\"1\" || (\"b\"==\"2\" || \"c\"==\"3\")
query !(!a=1||b=2)&&!c<3 => \"a\"==\"1\" && \"b\"!=\"2\" && \"c\">=\"3\"
right a==\"x*\" && b==\"[a-b-c]*\" => [a-b\\-c]*
right a==\"*\" && b==y => y";
    replies(rt.alloc(), lines)
}

/// A line feed separates tokens as well.
#[test]
fn line_feeds(rt: HostRuntime) -> Result<(), Fail> {
    replies(rt.alloc(), "feeds \ta|!=\r\"\"  => \"a\"!=\"\"")
}

/// The part of the example `patterns` that matches values against patterns.
#[test]
fn patterns(rt: HostRuntime) -> Result<(), Fail> {
    let lines = "leaf name=\"*[ch]\" x.c => yes
leaf name=\"*[ch]\" x.C => no
leaf name=\"*[ch]\" xh => yes
leaf name==? é => yes
leaf name==\"x.[a-d]\" x.c => yes
leaf name==\"x.[a-d]\" x.C => no
leaf name==\"x.[^a-d]\" x.c => no
leaf name==\"x.[^a-d]\" x.C => yes
leaf name==\"x.\\*\" x.c => no";
    replies(rt.alloc(), lines)
}

/// The item that a word stands for: a string after a `'`, a number, an operator, or otherwise a
/// name.
fn item_of(alloc: Global, word: &str) -> Result<Item, Refusal> {
    if let Some(text) = word.strip_prefix("'") {
        return Ok(Item::Text(String::from_str(alloc, text)?));
    }
    if let Some(number) = number_of(word) {
        return Ok(numbered(number));
    }
    match operator_of(word) {
        Some(item) => Ok(item),
        None => Ok(Item::Attr(Name::new(word)?)),
    }
}

fn numbered(number: i128) -> Item {
    if let Ok(number) = i64::try_from(number) {
        return Item::Int(number);
    }
    match u64::try_from(number) {
        Ok(number) => Item::Uint(number),
        Err(_) => Item::Not,
    }
}

/// The operator item that a word stands for, if it is an operator.
fn operator_of(word: &str) -> Option<Item> {
    match word {
        "==" => Some(Item::Eq),
        "!=" => Some(Item::Ne),
        "<" => Some(Item::Lt),
        "<=" => Some(Item::Le),
        ">" => Some(Item::Gt),
        ">=" => Some(Item::Ge),
        "contains" => Some(Item::Contains),
        "begins" => Some(Item::BeginsWith),
        "ends" => Some(Item::EndsWith),
        "&&" => Some(Item::And),
        "||" => Some(Item::Or),
        "!" => Some(Item::Not),
        _ => None,
    }
}

/// The items of a line of words. An empty line has none.
fn items_of(alloc: Global, line: &str) -> Result<Vec<Item>, Refusal> {
    let mut items = Vec::new(alloc);
    if line.is_empty() {
        return Ok(items);
    }
    for word in line.split(' ') {
        items.push(item_of(alloc, word)?)?;
    }
    Ok(items)
}

/// The query that the items of a line build.
fn built(alloc: Global, line: &str) -> Result<Query, Refusal> {
    let items = items_of(alloc, line)?;
    from_rpn(alloc, &items)
}

pub(crate) fn printed_items(alloc: Global, line: &str) -> Result<String, Refusal> {
    print(alloc, &built(alloc, line)?)
}

pub(crate) fn printed_comparison(alloc: Global, line: &str) -> Result<String, Refusal> {
    let query = built(alloc, line)?;
    print_comparison(alloc, leaf(query.tree())?)
}

pub(crate) fn printed_literal(alloc: Global, line: &str) -> Result<String, Refusal> {
    let query = built(alloc, line)?;
    pattern_of(alloc, leaf(query.tree())?)
}

/// Whether the items of a line build a query.
pub(crate) fn is_built(alloc: Global, line: &str) -> Result<String, Refusal> {
    let _query = built(alloc, line)?;
    yes_or_no(alloc, true)
}

/// The canonical text of the query that the items of a line build, read back.
pub(crate) fn reread(alloc: Global, line: &str) -> Result<String, Refusal> {
    printed(alloc, printed_items(alloc, line)?.as_str())
}

/// The examples `predicates` and `unsigned_keys`, and each way to read a predicate that can be
/// built. If a query has only one comparison, that comparison's text is the query's text. An order
/// operator takes its string literally, and a pattern operator takes it as a pattern.
#[test]
fn predicates(rt: HostRuntime) -> Result<(), Fail> {
    let lines = "items size 5 < ! => \"size\">=\"5\"
items name 'a* begins => \"name\"==\"a\\**\"
items n 18446744073709551615 <= => \"n\"<=\"18446744073709551615\"
items n -9223372036854775808 ends => \"n\"==\"*-9223372036854775808\"
items n ' contains => \"n\"==\"**\"
items a 1 == b 2 != && c 3 >= || ! => (\"a\"!=\"1\" || \"b\"==\"2\") && \"c\"<\"3\"
items n 'a\\b < => \"n\"<\"a\\\\b\"
items n 'a\\b <= => \"n\"<=\"a\\\\b\"
items n 'a\\b > => \"n\">\"a\\\\b\"
items n 'a\\b >= => \"n\">=\"a\\\\b\"
items n 'a\\b == => \"n\"==\"ab\"
comparison size 5 < ! => \"size\">=\"5\"
comparison name 'a* begins => \"name\"==\"a\\**\"
literal name 'a* begins => a\\**";
    replies(rt.alloc(), lines)
}

/// The example `predicates`, and the precedence of a predicate's errors.
#[test]
fn refused_predicates(rt: HostRuntime) -> Result<(), Fail> {
    let lines = "items a => refused 22 BadRpn 1
items && => refused 22 BadRpn 0
items  => refused 22 BadRpn 0
items 1 a == => refused 22 BadRpn 2
items a '[z-a] == => refused 13 BadPattern 2
items a 'x\0 == => refused 22 BadRpn 1
items a 1 == b 1 == => refused 22 BadRpn 6";
    replies(rt.alloc(), lines)
}

/// The stack may hold at most 64 items, and a predicate at most 256 comparisons. The items may
/// build a tree whose canonical text has more parentheses than `parse` allows.
#[test]
fn predicate_limits(rt: HostRuntime) -> Result<(), Fail> {
    let lines = "build 63 ;a; a => refused 22 BadRpn 64
build 64 ;a; a => refused 15 TooDeep
build 255 ;a 1 ==; a 1 == || => yes
build 255 ;a 1 ==; a 1 == ||; a 1 == => refused 16 TooMany
reread 65 ;a 1 ==; a 1 == || a 1 == && => refused 15 TooDeep";
    replies(rt.alloc(), lines)
}
