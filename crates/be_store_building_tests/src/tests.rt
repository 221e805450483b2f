//! A line of a test is `WORDS => REPLY`. The words are given to a builder one after another, as in
//! be_paged_building_tests: `i3` an index of numbers by name 3, `t3` one of strings, `n5` node 5,
//! `a2` an attribute by name 2, `h2` one that is held, and `f6` the next node's number, at the end.
//! `25*a0` repeats a word, with the next 25 numbers. An attribute's value is its name's number.
//!
//! The reply to `build WORDS` is `opened` or the error. Later requests go to the opened store:
//! operations of the script language, or one of the reads `next`, `nodes`, `indices`, `attrs NODE`,
//! `held NODE NAME`, `query QUERY` and `pages`, which replies how many pages are in use and how
//! many are free. `head` before a read takes only the first line of its reply.

mod built;
mod given;
mod random;
mod sizes;

use crate::tests::built::{Built, opened};
use crate::tests::given::{begun, built_by, give_each};
use crate::tests::random::check_growing;
use crate::tests::sizes::check_sizes;
use be_paged_test_tools::Random;
use be_store::Refusal;
use be_store_building::StoreBuilder;
use be_test_tools::{Answers, again, answer_lines, check_lines};
use std::alloc::Global;
use std::test::Fail;

/// Builds stores, and passes other requests to the one that was built last.
#[derive(Drop)]
struct Requests {
    built: Option<Built>,
}

impl Requests {
    fn build(&mut self, alloc: Global, words: &str) -> Result<String, Refusal> {
        self.built = None;
        self.built = Some(built_by(alloc, words)?);
        Ok(String::from_str(alloc, "opened")?)
    }

    fn answer(&mut self, alloc: Global, request: &str) -> Result<String, Refusal> {
        if let Some(words) = request.strip_prefix("build ") {
            return self.build(alloc, words);
        }
        match &mut self.built {
            Some(built) => built.answer(alloc, request),
            None => Err(Refusal::BadLimits),
        }
    }
}

impl Answers for Requests {
    fn reply(&mut self, alloc: Global, request: &str) -> Result<String, Refusal> {
        answer_lines(alloc, self.answer(alloc, request))
    }
}

/// As many indices and attributes as there may be, and one more; and the lowest and highest
/// numbers. What the builder accepts is read from the store, which also refuses one more.
#[test]
fn bounds(rt: HostRuntime) -> Result<(), Fail> {
    let lines = "build f1 / nodes / next / pages => opened / nodes / next 1 / 1 used, 63 free
new => commit 1 / node 1
build 32*i0 f1 / head indices / mkindex z LONG => opened / indices 32 / refused 7 TooManyIndices
build 33*i0 f1 => refused 7 TooManyIndices
build i63 n1 64*h0 f2 => refused 6 NoSuchIndex
build i63 n1 63*a0 h63 f2 / head attrs 1 / query dp==63 => opened / attrs 64 / nodes 1
set 1 z LONG 1 / unset 1 aa;set 1 z LONG 1 => refused 4 TooManyAttrs / commit 1 / ok / ok
build n1 65*a0 f2 => refused 4 TooManyAttrs
build n0 f1 => refused 2 NoNode
build i0 n1 h0 n9223372036854775807 h0 f9223372036854775808 => opened
nodes / next => nodes 1 9223372036854775807 / next 9223372036854775808
query aa==0 / held 9223372036854775807 aa => nodes 1 9223372036854775807 / held
new / query aa==0 => commit 1 / node 9223372036854775808 / nodes 1 9223372036854775807
build n9223372036854775808 f9223372036854775809 => refused 2 NoNode
build f9223372036854775808 / next => opened / next 9223372036854775808
build f9223372036854775809 => refused 2 NoNode
build n7 f7 => refused 2 NoNode
build f0 => refused 2 NoNode";
    check_lines(rt.alloc(), &mut Requests { built: None }, lines)
}

/// A store that was built takes what it was given for its beginning: an attribute is in its index
/// only if it was held, until it is set again. Its journal begins empty, with commit 1.
#[test]
fn writes_go_on(rt: HostRuntime) -> Result<(), Fail> {
    let lines = "build i0 t1 n2 h0 a1 n5 a0 n6 f9 / nodes => opened / nodes 2 5 6
indices => indices 2 / \"aa\" ULLG / \"ab\" CSTR
attrs 2 / attrs 3 / attrs 6 => attrs 2 / \"aa\" ULLG 0 / \"ab\" ULLG 1 / refused 2 NoNode / attrs 0
held 2 aa / held 2 ab / held 5 aa / query aa==0 => held / not held / not held / nodes 2
set 5 aa ULLG 0;new;drop 2 / query aa==0 => commit 1 / ok / node 9 / ok / nodes 5
held 5 aa / drop 3 / next => held / refused 2 NoNode / next 10
rmindex aa / query aa==0 => commit 2 / ok / refused 17 NotCovered";
    check_lines(rt.alloc(), &mut Requests { built: None }, lines)
}

/// A volume fits into as many pages as its packed trees have, and into no fewer.
#[test]
fn fewest_pages(rt: HostRuntime) -> Result<(), Fail> {
    check_sizes(rt.alloc())
}

/// Random volumes are built, and then read and written. A plain volume gives the same replies.
#[test]
fn random_volumes(rt: HostRuntime) -> Result<(), Fail> {
    for seed in 1..=4u64 {
        let mut random = Random::new(seed.wrapping_mul(0x9E37_79B9_7F4A_7C15));
        check_growing(rt.alloc(), &mut random)?;
    }
    Ok(())
}

const WORDS: &str = "20*i0 n1 20*h0 n2 12*a0 n7 h0";

/// Gives the words. Once one was refused because memory ran out, each later one has to be refused
/// like it. Returns whether that happened.
fn spent_by(builder: &mut StoreBuilder) -> Result<bool, Fail> {
    let mut spent = false;
    for word in WORDS.split(" ") {
        match give_each(builder, word) {
            Ok(()) if !spent => {}
            Err(Refusal::OutOfMemory) => spent = true,
            _ => return Err(Fail::new(word)),
        }
    }
    Ok(spent)
}

/// Whether the builder opens a store with the nodes, or memory runs out.
fn ends_right(alloc: Global, builder: StoreBuilder, spent: bool) -> Result<bool, Fail> {
    match opened(builder, 8) {
        Ok(mut built) if !spent => {
            built.pin();
            Ok(again!(built.nodes(alloc))?.as_slice() == [1, 2, 7].as_slice())
        }
        Err(Refusal::OutOfMemory) => Ok(true),
        _ => Ok(false),
    }
}

/// If a request for memory is refused, the builder fails from then on, and opens no store.
#[test]
fn refused_memory(rt: HostRuntime) -> Result<(), Fail> {
    let mut builder = again!(begun(rt.alloc(), 64))?;
    let spent = spent_by(&mut builder)?;
    assert!(rt; ends_right(rt.alloc(), builder, spent)?);
    Ok(())
}
