//! Worked examples, with a plain volume as a source that records its calls.
//!
//! A volume is made by lines of a script, such as `set 1 n LONG 5`. `6 times new` repeats a line,
//! and `each n LONG: 5 7` gives the attribute of nodes 1, 2, .. one of these values each.
//!
//! The requests are lines `COMMAND QUERY => REPLY`. `explain` returns what the query is computed
//! from, and `query` returns its nodes by these picks. `list` explains what is chosen from the list
//! of the indices. Digits are also a command: they return the nodes by these picks, one for each
//! digit.
//!
//! After the nodes, the reply has a letter for each key that was asked for: the first letter of the
//! index's name. A range that is asked for whole has a letter for each of its keys and one for its
//! end: `nodes 2 3 asks nnn`.
//!
//! The commands `keys`, `looks` and `kinds` count the calls to a source that knows the kinds.
//! `ranges` counts the ranges that decide a query whole.

mod both;
mod counting;
mod estimates;
mod fewest;
mod ranges;
mod sizes;

ghost use Rattle.std.specs.Prelude.{◌≡◌, true, IfOk};
ghost use Rattle.be_volume.specs.Volume.{State};
ghost use Rattle.be_plan.specs.Explain.{are_places};

use crate::tests::counting::{Counts, nodes_by, nodes_chosen};
use be_plan::{Cover, Picks, Source, choose, choose_from, explain, volume_source};
use be_query::{Query, parse};
use be_test_tools::{Answers, check_lines, list_of};
use be_value::{Kind, Name, Refusal, word_of};
use be_volume::{Op, Volume};
use std::alloc::{AllocError, Global};
use std::test::Fail;

/// Applies a list of operations, which has to be accepted.
fn write(volume: &mut Volume, ops: &[Op]) -> Result<(), Refusal> {
    if ops.is_empty() || ops.len() > 64 || volume.next() > u64::MAX - 64 {
        return Err(Refusal::BadLimits);
    }
    let _outcomes = volume.apply(ops)?;
    Ok(())
}

/// Applies the operations of a line. If memory runs out, it tries again.
fn write_line(alloc: Global, volume: &mut Volume, line: &str) -> Result<(), Refusal> {
    let ops = list_of(alloc, line)?;
    match write(volume, &ops) {
        Err(Refusal::OutOfMemory) => write(volume, &ops),
        done => done,
    }
}

fn set_line(alloc: Global, node: u64, attribute: &str, value: &str) -> Result<String, AllocError> {
    format!(in alloc; "set {node} {attribute} {value}")
}

/// Sets one attribute of a node.
fn set_one(
    alloc: Global,
    volume: &mut Volume,
    node: u64,
    attribute: &str,
    value: &str,
) -> Result<(), Refusal> {
    let line = match set_line(alloc, node, attribute, value) {
        Err(_) => set_line(alloc, node, attribute, value)?,
        Ok(line) => line,
    };
    write_line(alloc, volume, line.as_str())
}

/// Sets an attribute of nodes 1, 2, .. to one value each. Its name and kind come before the values.
fn set_each(alloc: Global, volume: &mut Volume, words: &str) -> Result<(), Refusal> {
    let (attribute, values) = words.split_once(": ").unwrap_or((words, ""));
    let mut node: u64 = 0;
    for value in values.split(' ') {
        node = node.wrapping_add(1);
        set_one(alloc, volume, node, attribute, value)?;
    }
    Ok(())
}

/// Runs a line: the values of an attribute, or a list of operations as often as the line says.
fn do_line(alloc: Global, volume: &mut Volume, line: &str) -> Result<(), Refusal> {
    if let Some(words) = line.strip_prefix("each ") {
        return set_each(alloc, volume, words);
    }
    let (times, line) = line.split_once(" times ").unwrap_or(("1", line));
    for _ in 0..word_of(times.as_bytes()).unwrap_or(0) {
        write_line(alloc, volume, line)?;
    }
    Ok(())
}

fn do_lines(alloc: Global, volume: &mut Volume, lines: &str) -> Result<(), Refusal> {
    for line in lines.lines() {
        do_line(alloc, volume, line)?;
    }
    Ok(())
}

/// Makes a volume by these lines.
pub(crate) fn volume_of(alloc: Global, lines: &str) -> Result<Volume, Refusal> {
    let mut volume = Volume::new(alloc);
    do_lines(alloc, &mut volume, lines)?;
    Ok(volume)
}

/// The picks that the digits name.
fn picks_of(alloc: Global, digits: &str) -> Result<Picks, Refusal> {
    let mut places = Vec::new(alloc);
    for digit in digits.bytes() {
        places.push(usize::from(digit.wrapping_sub(b'0')))?;
    }
    Ok(Picks::new(places))
}

/// The word `nodes` and the numbers.
fn nodes_text(alloc: Global, nodes: &[u64]) -> Result<String, Refusal> {
    let mut text = String::from_str(alloc, "nodes")?;
    for node in nodes {
        text.push_str(format!(in alloc; " {node}")?.as_str())?;
    }
    Ok(text)
}

/// The nodes, and the indices of the keys that were asked for.
fn found_text(alloc: Global, nodes: &[u64], asked: &str) -> Result<String, Refusal> {
    let mut text = nodes_text(alloc, nodes)?;
    text.push_str(" asks ")?;
    text.push_str(asked)?;
    Ok(text)
}

/// The nodes that the cover finds, and what was asked for to find them.
fn found(alloc: Global, volume: &Volume, query: &Query, cover: &Cover) -> Result<String, Refusal> {
    match nodes_by(alloc, volume, query, cover)? {
        Some((nodes, counts)) => found_text(alloc, &nodes, counts.asked.as_str()),
        None => Ok(String::from_str(alloc, "not covered")?),
    }
}

fn number(alloc: Global, number: u64) -> Result<String, Refusal> {
    Ok(format!(in alloc; "{number}")?)
}

/// Whether these are the nodes of a scan.
fn are_scanned(volume: &Volume, query: &Query, nodes: &[u64]) -> Result<bool, Refusal> {
    Ok(volume.query(query)?.as_slice() == nodes)
}

/// The number of ranges, if these are the nodes of a scan.
fn ranges_text(
    alloc: Global,
    volume: &Volume,
    query: &Query,
    nodes: &[u64],
    ranges: u64,
) -> Result<String, Refusal> {
    if are_scanned(volume, query, nodes)? {
        return number(alloc, ranges);
    }
    Ok(String::from_str(alloc, "not the nodes of a scan")?)
}

/// How many ranges the cover asked for whole. The nodes that it finds have to be those of a scan.
fn count_ranges(
    alloc: Global,
    volume: &Volume,
    query: &Query,
    cover: &Cover,
) -> Result<String, Refusal> {
    match nodes_by(alloc, volume, query, cover)? {
        Some((nodes, counts)) => ranges_text(alloc, volume, query, &nodes, counts.ranges),
        None => Ok(String::from_str(alloc, "not the nodes of a scan")?),
    }
}

/// The nodes, and how many kinds and ranges were asked for to find them.
fn kinds(alloc: Global, nodes: &[u64], kinds: u64, ranges: u64) -> Result<String, Refusal> {
    let mut text = nodes_text(alloc, nodes)?;
    text.push_str(format!(in alloc; " kinds {kinds} ranges {ranges}")?.as_str())?;
    Ok(text)
}

/// The text of two counts: values that were asked for, and searches of an index.
fn looks(alloc: Global, values: u64, searches: u64) -> Result<String, Refusal> {
    Ok(format!(in alloc; "values {values} searches {searches}")?)
}

/// Counts the calls to a source that knows the kinds. They are the keys of a range without its end;
/// the values and the searches for keys; or the kinds and the ranges.
fn counts_text(
    alloc: Global,
    command: &str,
    nodes: &[u64],
    counts: &Counts,
) -> Result<String, Refusal> {
    match command {
        "keys" => number(alloc, (counts.asked.as_str().len() as u64).wrapping_sub(1)),
        "kinds" => kinds(alloc, nodes, counts.kinds, counts.ranges),
        _ => looks(alloc, counts.values, counts.searches),
    }
}

/// The same for what is chosen.
fn counted(
    alloc: Global,
    volume: &Volume,
    command: &str,
    query: &Query,
) -> Result<String, Refusal> {
    let (nodes, counts) = nodes_chosen(alloc, volume, query)?;
    counts_text(alloc, command, &nodes, &counts)
}

/// What is chosen from the volume's indices.
fn chosen(alloc: Global, volume: &Volume, query: &Query) -> Result<Cover, Refusal>
    ensures places { IfOk result (λ cover. are_places query.now cover.picks ≡ true) }
{
    let mut source = volume_source(volume);
    choose_from(alloc, query, &mut source)
}

/// What is chosen from the list of the volume's indices.
fn listed(alloc: Global, volume: &Volume, query: &Query) -> Result<Cover, Refusal>
    ensures places { IfOk result (λ cover. are_places query.now cover.picks ≡ true) }
{
    let indices = volume.indices()?;
    choose(alloc, query, indices.as_slice())
}

/// The text of what is chosen from the list.
fn listed_text(alloc: Global, volume: &Volume, query: &Query) -> Result<String, Refusal> {
    let cover = listed(alloc, volume, query)?;
    explain(alloc, query, &cover)
}

/// The text of what is chosen from the volume's indices.
fn chosen_text(alloc: Global, volume: &Volume, query: &Query) -> Result<String, Refusal> {
    let cover = chosen(alloc, volume, query)?;
    explain(alloc, query, &cover)
}

/// The text of what is chosen, if the list and the volume give the same; otherwise the error is
/// `BadLimits`.
fn explained(alloc: Global, volume: &Volume, query: &Query) -> Result<String, Refusal> {
    let text = chosen_text(alloc, volume, query)?;
    let other = listed_text(alloc, volume, query)?;
    if text.as_str() != other.as_str() {
        return Err(Refusal::BadLimits);
    }
    Ok(text)
}

/// A cover with the picks that the digits name.
fn picked(alloc: Global, digits: &str) -> Result<Cover, Refusal> {
    Ok(Cover {
        picks: picks_of(alloc, digits)?,
        score: 0,
    })
}

/// The answer to a command.
fn answer(alloc: Global, volume: &Volume, command: &str, query: &Query) -> Result<String, Refusal> {
    match command {
        "explain" => explained(alloc, volume, query),
        "list" => listed_text(alloc, volume, query),
        "keys" | "looks" | "kinds" => counted(alloc, volume, command, query),
        "ranges" => count_ranges(alloc, volume, query, &chosen(alloc, volume, query)?),
        "query" => found(alloc, volume, query, &chosen(alloc, volume, query)?),
        _ => found(alloc, volume, query, &picked(alloc, command)?),
    }
}

/// A volume that answers requests.
#[derive(Drop)]
struct Asked<'a> {
    volume: &'a Volume,
}

impl Answers for Asked<'_> {
    fn reply(&mut self, alloc: Global, request: &str) -> Result<String, Refusal> {
        let (command, text) = request.split_once(" ").unwrap_or((request, ""));
        match answer(alloc, self.volume, command, &parse(alloc, text)?) {
            Err(Refusal::NotCovered) => Ok(String::from_str(alloc, "refused 17")?),
            reply => reply,
        }
    }
}

/// Fails unless each request has its reply.
pub(crate) fn replies(alloc: Global, volume: &Volume, lines: &str) -> Result<(), Fail> {
    check_lines(alloc, &mut Asked { volume }, lines)
}

/// Fails unless each request has its reply on a volume of these lines.
pub(crate) fn replies_of(alloc: Global, lines: &str, requests: &str) -> Result<(), Fail> {
    replies(alloc, &volume_of(alloc, lines)?, requests)
}

/// Each pick asks only for keys of its own index.
#[test]
fn two_indices(rt: HostRuntime) -> Result<(), Fail> {
    let lines = "new
set 1 a LONG 1
mkindex a LONG
mkindex b LONG
new
set 1 b LONG 2
set 2 a LONG 1
set 2 b LONG 2";
    let requests = "query a==1 && b==2 => nodes 2 asks aa
explain a==1 && b==2 => \"a\"==\"1\" score 1
query b==2 => nodes 1 2 asks bbb
0 a==1 && b==2 => nodes 2 asks aa
1 a==1 && b==2 => nodes 2 asks bbb
01 a==1 && b==2 => nodes 2 asks bbbaa
01 a==1 || b==2 => nodes 1 2 asks bbbaa
10 a==1 || b==2 => nodes 1 2 asks aabbb
02 a==1 || (b==2 || a==1) => not covered
201 a==1 || (b==2 || a==1) => nodes 1 2 asks bbbaaaa
120 a==1 || b==2 || a==1 => nodes 1 2 asks aaaabbb
0 a==1 || b==2 => not covered
2 a==1 || b==2 => not covered";
    replies_of(rt.alloc(), lines, requests)
}

/// A comparison is covered if its name has an index, an `||` if both sides are, and an `&&` if one
/// side is. A query that isn't covered is refused.
#[test]
fn coverage(rt: HostRuntime) -> Result<(), Fail> {
    let lines = "mkindex a LONG
new
set 1 a LONG 1
set 1 b LONG 2";
    let requests = "query a==1||b==2 => refused 17
query a==1&&b==2 => nodes 1 asks aa
query b==2 => refused 17
query !(a==1||b==3) => nodes asks aa
explain !(a==2||b==3) => \"a\"!=\"2\" score 5
explain b==2 => refused 17
list b==2 => refused 17
list a==1||b==2 => refused 17
0 b==2 => not covered";
    replies_of(rt.alloc(), lines, requests)
}

/// Of an `&&`, the cheaper side is chosen, and the left one if both cost the same. Of an `||`, both
/// sides are.
#[test]
fn choices(rt: HostRuntime) -> Result<(), Fail> {
    let lines = "mkindex a LONG
mkindex b LONG
mkindex t CSTR";
    let requests = "explain a==1 && b==2 => \"a\"==\"1\" score 1
explain b==2 && a==1 => \"b\"==\"2\" score 1
explain a!=1 && b!=2 => \"a\"!=\"1\" score 5
explain t==x && t==\"x*\" => \"t\"==\"x\" score 1
explain a>1 && t==\"x*\" => \"t\"==\"x*\" score 2
explain t==\"*x\" && a<=1 => \"a\"<=\"1\" score 3
explain a!=1 && t==\"*x\" => \"t\"==\"*x\" score 4
explain z==1 && a!=1 => \"a\"!=\"1\" score 5
explain a==1 || b>2 => \"a\"==\"1\" || \"b\">\"2\" score 4
explain (a==1 || b==2) && t==\"x*\" => \"a\"==\"1\" || \"b\"==\"2\" score 2
explain (a==1 || b>2) && t==\"x*\" => \"t\"==\"x*\" score 2
explain a==1 && (b==2 || z==3) => \"a\"==\"1\" score 1
explain z==1 && (b==2 || z==3) => refused 17
list z==1 && (b==2 || z==3) => refused 17";
    replies_of(rt.alloc(), lines, requests)
}

/// Six nodes. At each of them, m is 7 minus n.
const NUMBERS: &str = "mkindex n LONG
mkindex m LONG
6 times new
each n LONG: 1 2 3 4 5 6
each m LONG: 6 5 4 3 2 1";

/// A walk is bounded by what `&&` joins to its pick, and by nothing inside an `||` that the pick
/// isn't in.
#[test]
fn bounds(rt: HostRuntime) -> Result<(), Fail> {
    let requests = "0 n==3 => nodes 3 asks nn
0 n!=3 => nodes 1 2 4 5 6 asks nnnnnnn
0 n>=2 && n<5 => nodes 2 3 4 asks nnnn
1 n>=2 && n<5 => nodes 2 3 4 asks nnnn
0 n>2 && n<=5 => nodes 3 4 5 asks nnnn
0 !(n<=2 || n>5) => nodes 3 4 5 asks nnnn
0 n>=2 && (m>=3 && n<5) => nodes 2 3 4 asks nnnn
1 n>=2 && (m>=3 && n<5) => nodes 2 3 4 asks mmmmm
0 n>=2 && (n<5 || m==1) => nodes 2 3 4 6 asks nnnnnn
12 n>=2 && (n<5 || m==1) => nodes 2 3 4 6 asks mmnnnn
12 (n<5 || m==1) && n>=2 => nodes 2 3 4 6 asks nnnnnnmm
01 (n<5 || m==1) && n>=2 => nodes 2 3 4 6 asks mmnnnn
01 n<2 || n>5 => nodes 1 6 asks nnnn
01 n<4 || n<3 => nodes 1 2 3 asks nnnnnnn
0 n>4 && n<2 => nodes asks n";
    replies_of(rt.alloc(), NUMBERS, requests)
}

/// A number outside the kind of the index also bounds a walk, and so does a text that encodes no
/// number.
#[test]
fn bounds_outside_the_kind(rt: HostRuntime) -> Result<(), Fail> {
    let requests = "0 n>=2147483648 => nodes asks n
0 n>2147483648 => nodes asks n
0 n==2147483648 => nodes asks n
0 n<=-2147483649 => nodes asks n
0 n<-2147483649 => nodes asks n
0 n==-2147483649 => nodes asks n
0 n>=2 && n<abc => nodes asks n
0 n!=abc => nodes asks n
0 n==\"3*\" => nodes asks n
0 n>=5 && n<2147483648 => nodes 5 6 asks nnn
0 n>-2147483649 && n<=2 => nodes 1 2 asks nnn
0 n>=5 && n!=2147483648 => nodes 5 6 asks nnn
0 n<=2147483647 && n>5 => nodes 6 asks nn";
    replies_of(rt.alloc(), NUMBERS, requests)
}

/// The ranges of the other kinds of integers.
#[test]
fn bounds_of_each_kind(rt: HostRuntime) -> Result<(), Fail> {
    let lines = "mkindex l LLNG
mkindex u ULNG
mkindex w ULLG
new
set 1 l LLNG 5
set 1 u ULNG 5
set 1 w ULLG 5";
    let requests = "0 l<9223372036854775808 => nodes 1 asks ll
0 l>=9223372036854775808 => nodes asks l
0 l>=-9223372036854775808 => nodes 1 asks ll
0 u>=-1 => nodes 1 asks uu
0 u<0 => nodes asks u
0 u<=-1 => nodes asks u
0 u<4294967296 => nodes 1 asks uu
0 u>=4294967296 => nodes asks u
0 w>-1 => nodes 1 asks ww
0 w==-5 => nodes asks w
0 w<=18446744073709551615 => nodes 1 asks ww
0 w<=18446744073709551616 => nodes asks w";
    replies_of(rt.alloc(), lines, requests)
}

/// Texts are bounded by their bytes, and patterns by their literal characters before the first
/// wildcard.
#[test]
fn bounds_of_texts(rt: HostRuntime) -> Result<(), Fail> {
    let lines = "mkindex t CSTR
6 times new
each t CSTR: a ab abc ac b é";
    let requests = "0 t==ab => nodes 2 asks tt
0 t==\"ab*\" => nodes 2 3 asks ttt
0 t==\"a?\" => nodes 2 4 asks ttttt
0 t==\"[ab]*\" => nodes 1 2 3 4 5 asks ttttttt
0 t==\"é*\" => nodes 6 asks tt
0 t!=ab => nodes 1 3 4 5 6 asks ttttttt
0 t>=ab && t<b => nodes 2 3 4 asks tttt
0 t==\"a*\" && t>ab => nodes 3 4 asks ttt
1 t==\"a*\" && t>ab => nodes 3 4 asks ttt";
    replies_of(rt.alloc(), lines, requests)
}

/// The kind that a source reports for an index.
fn kind_by<S: Source + Drop>(mut source: S, name: &Name) -> Option<Kind>
    ghost volume: { State }
    requires { S.answers_for source volume }
{
    source.kind_of(name)
}

/// Whether this is the next key that a source returns.
fn is_next<S: Source + Drop>(
    mut source: S,
    name: &Name,
    from: &[u8],
    after: bool,
    key: &[u8],
) -> bool
    ghost volume: { State }
    requires { S.answers_for source volume }
{
    match source.next_key(name, from, after) {
        Some(next) => next.as_slice() == key,
        None => key.is_empty(),
    }
}

/// The key of the text x and node 1.
const FIRST: &[u8] = b"x\0\0\0\0\0\0\0\0\x01";

/// The key of the text x and node 3.
const LAST: &[u8] = b"x\0\0\0\0\0\0\0\0\x03";

fn kind_of(volume: &Volume, name: &Name) -> Option<Kind> {
    kind_by(volume_source(volume), name)
}

fn is_next_in(volume: &Volume, name: &Name, from: &[u8], after: bool, key: &[u8]) -> bool {
    is_next(volume_source(volume), name, from, after, key)
}

fn gives_kinds(volume: &Volume, index: &Name, other: &Name) -> bool {
    matches!(kind_of(volume, index), Some(Kind::Cstr)) && kind_of(volume, other).is_none()
}

fn gives_keys(volume: &Volume, index: &Name, other: &Name) -> bool {
    is_next_in(volume, index, FIRST, true, LAST)
        && is_next_in(volume, index, LAST, true, &[])
        && is_next_in(volume, index, LAST, false, LAST)
        && is_next_in(volume, other, LAST, false, &[])
}

/// Whether a volume returns the kinds and the keys of k, which has an index, and of q, which has
/// none.
fn gives_each(volume: &Volume) -> Result<(bool, bool), Refusal> {
    let k = Name::new("k")?;
    let q = Name::new("q")?;
    Ok((gives_kinds(volume, &k, &q), gives_keys(volume, &k, &q)))
}

/// As a source, a volume returns an index's kind and its keys in order, and neither for a name
/// without an index.
#[test]
fn plan_source(rt: HostRuntime) -> Result<(), Fail> {
    let lines = "mkindex k CSTR
3 times new
each k CSTR: x x x
drop 2
new";
    let (kinds, keys) = gives_each(&volume_of(rt.alloc(), lines)?)?;
    assert!(rt; kinds);
    assert!(rt; keys);
    Ok(())
}

/// The text with each M replaced by 254 times m.
fn lengthened(alloc: Global, text: &str) -> Result<String, Refusal> {
    Ok(text.replace(alloc, "M", "m".repeat(alloc, 254)?.as_str())?)
}

/// The same. If memory runs out, it tries again.
fn with_long(alloc: Global, text: &str) -> Result<String, Refusal> {
    match lengthened(alloc, text) {
        Err(Refusal::OutOfMemory) => lengthened(alloc, text),
        text => text,
    }
}

/// Fails unless each request has its reply on a volume of these lines. In both, each M is replaced
/// by 254 times m.
fn replies_of_long(alloc: Global, lines: &str, requests: &str) -> Result<(), Fail> {
    let lines = with_long(alloc, lines)?;
    let requests = with_long(alloc, requests)?;
    replies_of(alloc, lines.as_str(), requests.as_str())
}

/// A text longer than any value bounds a walk by the bytes that a value may have. A pattern with
/// more literal bytes than a value may have leaves out all keys.
#[test]
fn bounds_of_long_texts(rt: HostRuntime) -> Result<(), Fail> {
    let lines = "mkindex t CSTR
4 times new
each t CSTR: a Mm Mn z";
    let requests = "0 t>=Mmm => nodes 3 4 asks ttt
0 t>Mmm => nodes 3 4 asks ttt
0 t<Mmm => nodes 1 2 asks ttt
0 t<=Mnn => nodes 1 2 3 asks tttt
0 t==Mm => nodes 2 asks tt
0 t==\"Mm*\" => nodes 2 asks tt
0 t==Mmm => nodes asks t
0 t==\"Mmm*\" => nodes asks t
0 t==\"MM*\" => nodes asks t";
    replies_of_long(rt.alloc(), lines, requests)
}

/// Texts around the fronts of patterns: with characters of one, two and four bytes, with the lowest
/// byte after a front, and of 255 bytes.
const BY_FRONT: &str = "mkindex t CSTR
10 times new
each t CSTR: a a\u{1} ab aé aéz aè \u{10ffff} Mm M b";

/// Queries, and how many whole ranges answer each.
const BY_RANGE: &str = "ranges t==a => 1
ranges t==\"\" => 1
ranges t==\"*\" => 1
ranges t==\"a*\" => 1
ranges t==\"a\u{1}*\" => 1
ranges t==\"aé*\" => 1
ranges t==\"\u{10ffff}*\" => 1
ranges t==\"é*\" => 1
ranges t==\"a*\" && t==\"aé*\" => 1
ranges t==\"a*\" && t<b => 1
ranges t==\"a*\" || t==b => 2
ranges t==\"a**\" => 0
ranges t==\"a?\" => 0
ranges t==\"*a\" => 0
ranges t==\"a*z\" => 0
ranges t==\"[a]*\" => 0
ranges t!=\"a*\" => 0";

/// A pattern that only says how a text begins is answered by its range; every other pattern
/// is tested against each key.
#[test]
fn patterns_by_range(rt: HostRuntime) -> Result<(), Fail> {
    replies_of_long(rt.alloc(), BY_FRONT, BY_RANGE)
}

/// The front of a pattern has at most 255 bytes, as a text has.
#[test]
fn longest_front(rt: HostRuntime) -> Result<(), Fail> {
    let requests = "ranges t==\"Mm*\" => 1
ranges t==\"Mmm*\" => 0";
    replies_of_long(rt.alloc(), BY_FRONT, requests)
}

/// 256 comparisons on the names of 32 indices, joined by `||`: i0==0, i1==1, .. i31==255. They find
/// nodes 1 and 2. The kind of each comparison's index is asked for once to choose and once to walk.
fn most_comparisons(alloc: Global) -> Result<String, Refusal> {
    let mut text = String::from_str(alloc, "kinds i0==0")?;
    for number in 1..256u64 {
        let index = number % 32;
        text.push_str(format!(in alloc; "||i{index}=={number}")?.as_str())?;
    }
    text.push_str(" => nodes 1 2 kinds 512 ranges 256")?;
    Ok(text)
}

/// The lines of a volume with 32 indices. The first and the last index have a value that the
/// query's last comparisons look for.
fn most_indices(alloc: Global) -> Result<String, Refusal> {
    let mut lines = String::from_str(alloc, "new\nnew\nnew")?;
    for index in 0..32u64 {
        lines.push_str(format!(in alloc; "\nmkindex i{index} LONG")?.as_str())?;
    }
    lines.push_str("\nset 1 i31 LONG 255\nset 2 i0 LONG 224\nset 3 i0 LONG 1")?;
    Ok(lines)
}

/// The lines of this volume, and the request for these comparisons with its reply.
fn largest(alloc: Global) -> Result<(String, String), Refusal> {
    Ok((most_indices(alloc)?, most_comparisons(alloc)?))
}

#[test]
fn largest_query(rt: HostRuntime) -> Result<(), Fail> {
    let (lines, request) = match largest(rt.alloc()) {
        Err(Refusal::OutOfMemory) => largest(rt.alloc())?,
        both => both?,
    };
    replies_of(rt.alloc(), lines.as_str(), request.as_str())
}

/// The lines of a volume of 300 nodes whose values fall as their numbers rise.
fn descending_values(alloc: Global) -> Result<String, Refusal> {
    let mut lines = String::from_str(alloc, "mkindex n LONG")?;
    for node in 1..301u64 {
        let value = 1000u64.wrapping_sub(node);
        lines.push_str(format!(in alloc; "\nnew\nset {node} n LONG {value}")?.as_str())?;
    }
    Ok(lines)
}

/// Queries on these nodes: they find 255 of them, 256, all, all twice, and one.
const FALLING: &str = "ranges n>=700 && n<955 => 1
ranges n>=700 && n<956 => 1
ranges n>=0 => 1
ranges n>=0 || n<1000 => 2
ranges n==850 => 1";

/// Nodes that are found in descending order are returned in ascending order, each once.
#[test]
fn descending_nodes(rt: HostRuntime) -> Result<(), Fail> {
    let lines = match descending_values(rt.alloc()) {
        Err(Refusal::OutOfMemory) => descending_values(rt.alloc())?,
        lines => lines?,
    };
    replies_of(rt.alloc(), lines.as_str(), FALLING)
}
