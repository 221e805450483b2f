//! Estimates the cost of each method of finding a page.
//!
//! If the keys of the order's own index don't decide the query, there are three methods. A walk can
//! test each node against the remaining condition of the query, or look up each node in a list of
//! all nodes that satisfy the condition. Or the whole answer can be found and sorted. The estimates
//! only select the method, so a wrong estimate can't make a page wrong.
ghost use Rattle.std.specs.Prelude.{◌≡◌, IfSome};
ghost use Rattle.be_order.specs.Imports.{formula, option_copied, Formula, State, StillAnswers};
ghost use Rattle.be_order.specs.Firsts.{IsNeeded};

use crate::OrderedSource;
use be_plan::{KeyBounds, KeyRange};
use be_query::{Cmp, Comparison, Literal, Tree};
use be_value::Name;

/// A probe of a node reads its attribute or looks for it in an index. It takes as many instructions
/// as walking over this many keys.
const KEYS_A_PROBE: u64 = 32;

/// Sorting requires the key of each node and its position in the order, which together cost as much
/// as this many probes.
const PROBES_A_KEY: u64 = 4;

/// Testing the string in a key takes as many instructions as walking over this many keys without a
/// test.
const KEYS_A_TEXT: u64 = 4;

/// Putting a node into a list and the list into order takes as many instructions as walking over
/// this many keys.
const KEYS_A_NODE: u64 = 1;

/// At most this many numbers are tested for each node that is wanted.
const TESTS_A_NODE: u64 = 256;

/// The maximum number of keys in a part of a walk that tests each node for a short page. It is also
/// the minimum for a walk that looks up each node.
const SHORT_PART: usize = 64;

/// The maximum number of keys in a part of any walk.
const LONG_PART: usize = 4096;

/// One in this many nodes is assumed to satisfy a comparison that no index has a range for: a
/// pattern, or `==` with an attribute that has no index. All others are assumed to satisfy a `!=`.
const NODES_A_HIT: u64 = 8;

/// One in this many nodes is assumed to satisfy an order operator with an attribute that has no
/// index.
const NODES_A_SIDE: u64 = 3;

/// Choosing a walk that ends early costs as much as listing this many nodes.
const KEYS_A_WALK: u64 = 512;

/// A part that costs no more than this is found before the costs of other sides are estimated.
const KEYS_A_GUESS: u64 = 16;

/// The cost of answering a part of a query. Costs are the numbers of keys that a walk visits in the
/// same time.
#[derive(Clone, Copy)]
struct Cost<'t> {
    /// The approximate number of keys that a walk visits to list the nodes. Without an index, it is
    /// the highest number.
    keys: u64,
    /// The approximate number of nodes that satisfy the part.
    hits: u64,
    /// The approximate cost of testing one node. A side of an operator is tested only if the other
    /// side doesn't decide it.
    testing: u64,
    /// The approximate cost of finding the nodes, testing them and putting them into order.
    finding: u64,
    /// The name that all comparisons are on, if they are on one name and all joined by `&&`.
    name: Option<&'t Name>,
    /// The number of comparisons.
    count: u64,
}

/// Returns the share of `number` that `hits` are of `all`.
fn share_of(number: u64, hits: u64, all: u64) -> u64 {
    match number.saturating_mul(hits).checked_div(all) {
        Some(share) => share.min(number),
        None => 0,
    }
}

/// Returns the name if both sides have it.
fn common_name<'t>(a: Option<&'t Name>, b: Option<&'t Name>) -> Option<&'t Name> {
    match (a, b) {
        (Some(a), Some(b)) if *a == *b => Some(a),
        _ => None,
    }
}

/// Returns the cost of finding the nodes of a part and then those of them that satisfy the other
/// part, by a test of each or, if all its comparisons are on one name, by a list.
fn finding_beside(part: Cost<'_>, other: Cost<'_>) -> u64 {
    let tested = part.hits.saturating_mul(other.testing);
    let sifted = match (part.name, other.name) {
        (Some(_), Some(_)) => tested.min(other.finding),
        _ => tested,
    };
    part.finding.saturating_add(sifted)
}

/// Returns the cost of two sides of an `&&`. The side whose tests decide more is tested first.
fn cost_of_and<'t>(a: Cost<'t>, b: Cost<'t>, all: u64) -> Cost<'t> {
    let name = common_name(a.name, b.name);
    let finding = match name {
        Some(_) => a.finding.min(b.finding),
        None => finding_beside(a, b).min(finding_beside(b, a)),
    };
    let left_first = a.testing.saturating_add(share_of(b.testing, a.hits, all));
    let right_first = b.testing.saturating_add(share_of(a.testing, b.hits, all));
    Cost {
        keys: a.keys.min(b.keys),
        hits: share_of(a.hits, b.hits, all),
        testing: left_first.min(right_first),
        finding,
        name,
        count: a.count.saturating_add(b.count),
    }
}

/// Returns the cost of two sides of an `||`. The side that is true of more nodes is tested first.
fn cost_of_or<'t>(a: Cost<'t>, b: Cost<'t>, all: u64) -> Cost<'t> {
    let left_missed = all.saturating_sub(a.hits);
    let right_missed = all.saturating_sub(b.hits);
    let left_first = a
        .testing
        .saturating_add(share_of(b.testing, left_missed, all));
    let right_first = b
        .testing
        .saturating_add(share_of(a.testing, right_missed, all));
    Cost {
        keys: a.keys.saturating_add(b.keys),
        hits: a.hits.saturating_add(share_of(b.hits, left_missed, all)),
        testing: left_first.min(right_first),
        finding: a.finding.saturating_add(b.finding),
        name: None,
        count: a.count.saturating_add(b.count),
    }
}

/// The number of keys that a walk takes at a time, and the number of keys that it may visit before
/// it gives up.
#[derive(Clone, Copy)]
pub(crate) struct Pace {
    pub(crate) part: usize,
    pub(crate) limit: u64,
}

/// The paces of a walk that tests each node and of a walk that looks up each node in a list. A walk
/// with a limit of 0 isn't started.
#[derive(Clone, Copy)]
pub(crate) struct Paces {
    pub(crate) asking: Pace,
    pub(crate) looking_up: Pace,
}

/// Returns `true` if the comparison is with a pattern that no range of keys decides.
fn is_loose(comparison: &Comparison) -> bool {
    match &comparison.literal {
        Literal::Pattern(pattern) => !pattern.is_plain() && !pattern.is_prefix(),
        Literal::Text(_) => false,
    }
}

/// Returns about how many of these nodes satisfy a comparison that no range says more about.
fn guessed_hits(op: Cmp, nodes: u64) -> u64 {
    match op {
        Cmp::Eq => nodes / NODES_A_HIT,
        Cmp::Ne => nodes - nodes / NODES_A_HIT,
        _ => nodes / NODES_A_SIDE,
    }
}

/// Returns about how many of the nodes in a comparison's range satisfy it.
fn hits_within(comparison: &Comparison, keys: u64) -> u64 {
    if comparison.op == Cmp::Ne || is_loose(comparison) {
        return guessed_hits(comparison.op, keys);
    }
    keys
}

/// Returns the cost of a comparison. `keys` is the approximate number of keys that the comparison
/// and everything that `&&` joins to it allow in the index of its name, or `None` if there is no
/// index. Only the first comparison on a name counts for the hits, since they are of this range.
fn cost_of_comparison<'t>(
    comparison: &'t Comparison,
    keys: Option<u64>,
    is_first: bool,
    all: u64,
) -> Cost<'t> {
    let Some(keys) = keys else {
        return Cost {
            keys: u64::MAX,
            hits: guessed_hits(comparison.op, all),
            testing: KEYS_A_PROBE,
            finding: u64::MAX,
            name: Some(&comparison.name),
            count: 1,
        };
    };
    let within = hits_within(comparison, keys);
    let hits = if is_first { within.min(all) } else { all };
    let walk = if is_loose(comparison) {
        keys.saturating_mul(KEYS_A_TEXT)
    } else {
        keys
    };
    Cost {
        keys,
        hits,
        testing: KEYS_A_PROBE.saturating_add(share_of(KEYS_A_PROBE, within, all)),
        finding: walk.saturating_add(within.saturating_mul(KEYS_A_NODE)),
        name: Some(&comparison.name),
        count: 1,
    }
}

/// Returns the number of comparisons.
fn count_of(tree: &Tree) -> u64 {
    match tree {
        Tree::Leaf(_) => 1,
        Tree::And(a, b) | Tree::Or(a, b) => count_of(a).saturating_add(count_of(b)),
    }
}

/// Returns the number of comparisons on this name that aren't under `||`.
fn count_on(tree: &Tree, name: &Name) -> u64 {
    match tree {
        Tree::Leaf(comparison) => u64::from(comparison.name == *name),
        Tree::And(a, b) => count_on(a, name).saturating_add(count_on(b, name)),
        Tree::Or(_, _) => 0,
    }
}

/// Returns `true` if the comparison alone has about the range of everything that `&&` joins to it:
/// it is exact, or the only one on its name.
fn has_own_range(comparison: &Comparison, whole: &Tree) -> bool {
    let is_exact = match &comparison.literal {
        Literal::Pattern(pattern) => comparison.op == Cmp::Eq && pattern.is_plain(),
        Literal::Text(_) => false,
    };
    is_exact || count_on(whole, &comparison.name) <= 1
}

/// Returns the position of the first comparison on this name that isn't under `||`. The part's
/// first comparison is at position `at`.
fn first_place(tree: &Tree, name: &Name, at: u64) -> Option<u64> {
    match tree {
        Tree::Leaf(comparison) => {
            if comparison.name == *name {
                Some(at)
            } else {
                None
            }
        }
        Tree::And(a, b) => match first_place(a, name, at) {
            Some(place) => Some(place),
            None => first_place(b, name, at.saturating_add(count_of(a))),
        },
        Tree::Or(_, _) => None,
    }
}

/// A side of an `&&` which is true of every node that the whole is true of, with its cost.
#[derive(Clone, Copy)]
struct Side<'t> {
    tree: &'t Tree,
    finding: u64,
    hits: u64,
}

/// The cost of a part of a query, and the side of it whose nodes cost the least to find. Without an
/// `&&`, that is the part itself.
#[derive(Clone, Copy)]
struct Costed<'t> {
    cost: Cost<'t>,
    side: Side<'t>,
}

/// Returns the side with the lower cost.
fn cheaper_side<'t>(a: Side<'t>, b: Side<'t>) -> Side<'t>
    ensures { (f : Formula) → IsNeeded f (formula a.entry.tree.now)
        → IsNeeded f (formula b.entry.tree.now) → IsNeeded f (formula result.tree.now) }
{
    if b.finding < a.finding { b } else { a }
}

/// Returns the whole part as its own side.
fn undivided<'t>(tree: &'t Tree, cost: Cost<'t>) -> Costed<'t>
    ensures { formula result.side.tree.now ≡ formula tree.now }
{
    let side = Side {
        tree,
        finding: cost.finding,
        hits: cost.hits,
    };
    Costed { cost, side }
}

/// Returns the cost of a part of a query over about `all` nodes. `whole` is the part together with
/// everything that `&&` joins to it, and the part's first comparison is at position `at` in it.
fn cost_of<'t, S: OrderedSource>(
    source: &mut S,
    bounds: &mut KeyBounds,
    tree: &'t Tree,
    whole: &Tree,
    at: u64,
    all: u64,
) -> Costed<'t>
    requires { (volume : State) × S.answers_for source.old volume }
    ensures side { IsNeeded (formula tree.now) (formula result.side.tree.now) }
    ensures stays { S.kept source.new ≡ S.kept source.old }
    ensures answers { StillAnswers S.answers_for source.old source.new }
    ensures still { (volume : State) × S.answers_for source.new volume }
{
    match tree {
        Tree::Leaf(comparison) => {
            let keys = bounds.allowed(source, whole, &comparison.name);
            let is_first = first_place(whole, &comparison.name, 0) == Some(at);
            let cost = cost_of_comparison(comparison, keys, is_first, all);
            let mut costed = undivided(tree, cost);
            if !has_own_range(comparison, whole) {
                costed.side.finding = u64::MAX;
            }
            costed
        }
        Tree::And(a, b) => {
            let left = cost_of(source, bounds, a, whole, at, all);
            if left.cost.finding <= KEYS_A_GUESS {
                return left;
            }
            let middle = at.saturating_add(left.cost.count);
            let right = cost_of(source, bounds, b, whole, middle, all);
            let cost = cost_of_and(left.cost, right.cost, all);
            if cost.name.is_some() {
                return undivided(tree, cost);
            }
            let side = cheaper_side(left.side, right.side);
            Costed { cost, side }
        }
        Tree::Or(a, b) => {
            let left = cost_of(source, bounds, a, a, 0, all);
            let right = cost_of(source, bounds, b, b, 0, all);
            undivided(tree, cost_of_or(left.cost, right.cost, all))
        }
    }
}

/// Returns about how many keys the index of the first indexed name in a query has, or 0 if none of
/// its names has an index. The volume has at least so many nodes.
fn nodes_about<S: OrderedSource>(source: &mut S, tree: &Tree) -> u64
    requires { (volume : State) × S.answers_for source.old volume }
    ensures stays { S.kept source.new ≡ S.kept source.old }
    ensures answers { StillAnswers S.answers_for source.old source.new }
    ensures still { (volume : State) × S.answers_for source.new volume }
{
    match tree {
        Tree::Leaf(comparison) => {
            let name = &comparison.name;
            if source.kind_of(name).is_none() {
                return 0;
            }
            source.about(KeyBounds::new().keys(name))
        }
        Tree::And(a, b) | Tree::Or(a, b) => {
            let nodes = nodes_about(source, a);
            if nodes > 0 {
                return nodes;
            }
            nodes_about(source, b)
        }
    }
}

/// How some nodes of an answer are found: by testing at most so many numbers, and otherwise by
/// listing the nodes of a side and testing these. With no side, the whole answer is found.
#[derive(Clone, Copy)]
pub(crate) struct FirstWays<'t> {
    pub(crate) tests: u64,
    pub(crate) side: Option<&'t Tree>,
}

/// Returns how many numbers are tested, at most, in place of another way that costs `other`. It is
/// 0 if the tests are expected to cost more. They never cost more than the other way's estimate.
fn tests_within(cost: Cost<'_>, all: u64, most: usize, other: u64) -> u64 {
    let limit = other / cost.testing.max(1);
    if passed_for(most as u64, all, cost.hits) > limit {
        return 0;
    }
    limit.min((most as u64).saturating_mul(TESTS_A_NODE))
}

/// Returns what it costs to test the nodes of a side until there are enough, with so many
/// comparisons in a test.
fn testing_side(costed: Costed<'_>, most: usize, count: u64) -> u64 {
    let Costed { cost, side } = costed;
    let tested = passed_for(most as u64, side.hits, cost.hits);
    tested.saturating_mul(count.saturating_mul(2 * KEYS_A_PROBE))
}

/// Returns how the first `most` nodes of a query are found.
pub(crate) fn first_ways<'t, S: OrderedSource>(
    source: &mut S,
    tree: &'t Tree,
    most: usize,
) -> FirstWays<'t>
    ghost volume: { State }
    requires { S.answers_for source.old volume }
    ensures side { IfSome (option_copied result.side)
        (λ side. IsNeeded (formula tree.now) (formula side)) }
    ensures stays { S.kept source.new ≡ S.kept source.old }
    ensures answers { S.answers_for source.new volume }
{
    let mut bounds = KeyBounds::new();
    let all = nodes_about(source, tree);
    let costed = cost_of(source, &mut bounds, tree, tree, 0, all);
    let testing = testing_side(costed, most, costed.cost.count);
    let listed = costed.side.finding.saturating_add(testing);
    let whole = costed.cost.finding;
    let side = if listed < whole {
        Some(costed.side.tree)
    } else {
        None
    };
    let tests = tests_within(costed.cost, all, most, whole.min(listed));
    FirstWays { tests, side }
}

/// Returns how any `most` nodes of a query are found. If no numbers are tested and no side is
/// listed, walks that end early are expected to cost less. A side of an `||` may need no test, so
/// such walks are always tried for it.
pub(crate) fn any_ways<'t, S: OrderedSource>(
    source: &mut S,
    tree: &'t Tree,
    most: usize,
) -> FirstWays<'t>
    ghost volume: { State }
    requires { S.answers_for source.old volume }
    ensures side { IfSome (option_copied result.side)
        (λ side. IsNeeded (formula tree.now) (formula side)) }
    ensures stays { S.kept source.new ≡ S.kept source.old }
    ensures answers { S.answers_for source.new volume }
{
    if let Tree::Or(_, _) = tree {
        return FirstWays {
            tests: 0,
            side: None,
        };
    }
    let mut bounds = KeyBounds::new();
    let all = nodes_about(source, tree);
    let costed = cost_of(source, &mut bounds, tree, tree, 0, all);
    let others = costed.cost.count.saturating_sub(count_of(costed.side.tree));
    let walked = testing_side(costed, most, others);
    let needed = passed_for(most as u64, all, costed.cost.hits).saturating_mul(costed.cost.testing);
    let tests = if needed > walked {
        0
    } else {
        tests_within(costed.cost, all, most, costed.cost.finding)
    };
    let testing = testing_side(costed, most, costed.cost.count);
    let listed = costed.side.finding.saturating_add(testing);
    let is_few = costed.cost.finding <= KEYS_A_GUESS;
    let side = if listed <= walked.saturating_add(KEYS_A_WALK) && !is_few {
        Some(costed.side.tree)
    } else {
        None
    };
    FirstWays { tests, side }
}

/// Returns approximately how many of `all` nodes are passed before `most` of the hits are found.
fn passed_for(most: u64, all: u64, hits: u64) -> u64 {
    match most.saturating_mul(all).checked_div(hits) {
        Some(passed) => passed.min(all),
        None => all,
    }
}

/// Returns the pace of a walk that tests each node. Each part has one key more than the page, so
/// that one part is enough if all nodes pass. A long page is filled in several parts, so that a
/// limit far above the number of nodes allocates no more memory than `LONG_PART` keys take.
fn asking_pace(most: usize, limit: u64) -> Pace {
    Pace {
        part: most
            .saturating_add(1)
            .min(SHORT_PART)
            .max(most / 8)
            .min(LONG_PART),
        limit,
    }
}

/// Returns the pace of a walk that looks up each node and is expected to visit `passed` keys.
fn looking_up_pace(passed: u64, limit: u64) -> Pace {
    let part = match usize::try_from(passed / 4) {
        Ok(part) => part.max(SHORT_PART).min(LONG_PART),
        Err(_) => LONG_PART,
    };
    Pace { part, limit }
}

/// Returns the paces of walks over `keys` keys for a page of `most` nodes, of a volume with about
/// `all` nodes.
fn paces_for(cost: Cost<'_>, keys: u64, all: u64, most: usize) -> Paces {
    let passed = passed_for(most as u64, all, cost.hits).min(keys);
    let list = cost.finding.saturating_add(passed);
    let sorted = cost
        .hits
        .saturating_mul(PROBES_A_KEY)
        .saturating_mul(KEYS_A_PROBE);
    let asked = match list.saturating_mul(2).checked_div(cost.testing) {
        Some(most) if passed <= most / 2 => most,
        _ => 0,
    };
    let looked_up = if passed <= sorted { sorted } else { 0 };
    Paces {
        asking: asking_pace(most, asked),
        looking_up: looking_up_pace(passed, looked_up),
    }
}

/// Returns the paces of walks over these keys for a page of a query with this remaining condition.
/// Neither walk is started if all nodes that satisfy the condition are expected to fit on the page.
pub(crate) fn paces_of<S: OrderedSource>(
    source: &mut S,
    keys: KeyRange<'_>,
    left: &Tree,
    most: usize,
) -> Paces
    ghost volume: { State }
    requires { S.answers_for source.old volume }
    ensures stays { S.kept source.new ≡ S.kept source.old }
    ensures answers { S.answers_for source.new volume }
{
    let mut bounds = KeyBounds::new();
    let all = nodes_about(source, left);
    let Costed { cost, side: _ } = cost_of(source, &mut bounds, left, left, 0, all);
    if cost.keys <= most as u64 {
        return Paces {
            asking: asking_pace(most, 0),
            looking_up: looking_up_pace(0, 0),
        };
    }
    if cost.keys == u64::MAX {
        return Paces {
            asking: asking_pace(most, u64::MAX),
            looking_up: looking_up_pace(0, 0),
        };
    }
    let within = source.about(keys);
    paces_for(cost, within, all, most)
}
