//! The shared store and a plain volume with its journal give scripts the same replies.
ghost use Rattle.std.specs.Prelude.{◌<◌};

use super::{By, LIMITS, run_by};
use std::alloc::{AllocError, Global};
use std::test::Fail;

const NAMES: &str = r#"a
k
"a name""#;

const VALUES: &str = r#"LONG -7
LONG 5
CSTR x.c
CSTR ""
ULLG 18446744073709551615
RAWT 00ff
LONG x
LONG 6"#;

const QUERIES: &str = r#"k==5
k!=5 || a>=-7
a=="*.[ch]"
!(a<6) && "a name"!=x
k>=-7
"a name"==*
k==[
k<18446744073709551615"#;

/// Lines of one word, or of one word and a query, which replaces `{query}`.
const SHORT_LINES: &str = "pin
pin
unpin
unpin
indices
live {query}
refresh
refresh
refresh
begin
commit
abort
explain {query}
query {query}
page by k limit 2 {query}
page by k descending after LONG 5 6 limit 3 {query}
page by a after CSTR x.c 4 limit 1 {query}";

/// Lines in which a node, a name and a value replace these words.
const LONG_LINES: &str = "new
new
drop {node}
unset {node} {name}
mkindex {name} LONG
mkindex {name} CSTR
rmindex {name}
get {node} {name}
attrs {node}
set {node} {name} {value}
set {node} {name} {value}
set {node} {name} {value}
set {node} {name} {value}
set {node} {name} {value}";

const NODES: &str = "0\n1\n2\n3\n4\n5\n6\n7\n8\n9\n10\n11";

/// Pseudo-random numbers, the same in each run.
#[derive(Drop)]
struct Dice {
    state: u64,
}

impl Dice {
    /// A number below `sides`.
    fn roll(&mut self, sides: u64) -> u64
        requires { 0 < sides }
    {
        self.state = self
            .state
            .wrapping_mul(6_364_136_223_846_793_005)
            .wrapping_add(1_442_695_040_888_963_407);
        (self.state >> 33) % sides
    }

    /// One of `count` lines.
    fn one_of(&mut self, lines: &'static str, count: u64) -> &'static str
        requires { 0 < count }
    {
        let place = self.roll(count) as usize;
        lines.lines().nth(place).unwrap_or("")
    }
}

fn short_line(alloc: Global, dice: &mut Dice) -> Result<String, AllocError> {
    let query = dice.one_of(QUERIES, 8);
    let line = dice.one_of(SHORT_LINES, 17);
    line.replace(alloc, "{query}", query)
}

/// The line with this node and this name filled in.
fn with_names(alloc: Global, line: &str, node: &str, name: &str) -> Result<String, AllocError> {
    let line = line.replace(alloc, "{node}", node)?;
    line.replace(alloc, "{name}", name)
}

fn long_line(alloc: Global, dice: &mut Dice) -> Result<String, AllocError> {
    let node = dice.one_of(NODES, 12);
    let name = dice.one_of(NAMES, 3);
    let line = with_names(alloc, dice.one_of(LONG_LINES, 14), node, name)?;
    if line.ends_with("{value}") {
        return line.replace(alloc, "{value}", dice.one_of(VALUES, 8));
    }
    Ok(line)
}

fn any_line(alloc: Global, dice: &mut Dice) -> Result<String, AllocError> {
    match dice.roll(2) {
        0 => short_line(alloc, dice),
        _ => long_line(alloc, dice),
    }
}

fn push_line(script: &mut String, line: &str) -> Result<(), AllocError> {
    script.push_str(line)?;
    script.push('\n')
}

/// A script of this many lines.
fn made(alloc: Global, lines: u64) -> Result<String, AllocError> {
    let mut dice = Dice { state: 1 };
    let mut script = String::new(alloc);
    for _ in 0..lines {
        let line = any_line(alloc, &mut dice)?;
        push_line(&mut script, line.as_str())?;
    }
    Ok(script)
}

/// Whether both run the script to its end and write the same.
fn are_alike(alloc: Global, script: &[u8]) -> bool {
    let mut shared: Vec<u8> = Vec::new(alloc);
    let mut plain: Vec<u8> = Vec::new(alloc);
    run_by(By::SharedStore, alloc, script, &mut shared, LIMITS.commits).is_ok()
        && run_by(By::PlainVolume, alloc, script, &mut plain, LIMITS.commits).is_ok()
        && shared.as_slice() == plain.as_slice()
}

#[test]
fn generated_lines(rt: HostRuntime) -> Result<(), Fail> {
    let alloc = rt.alloc();
    let script = match made(alloc, 800) {
        Ok(script) => script,
        Err(_) => made(alloc, 800)?,
    };
    let script = script.as_bytes();
    assert!(rt; are_alike(alloc, script) || are_alike(alloc, script));
    Ok(())
}
