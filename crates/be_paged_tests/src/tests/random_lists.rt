//! Random lists of operations on both forms of a volume.
use arrayvec::ArrayVec;
use be_paged_test_tools::{Forms, Random, read_query};
use be_test_tools::numbered;
use be_value::{Kind, Refusal, Value, word_of};
use be_volume::{Done, Op};
use std::alloc::{AllocError, Global};
use std::test::Fail;

/// What lists are made of. `nodes` is how many of the youngest nodes are used, and `names` how many
/// names. One in `news` possible new nodes is made. `pages` is the size of the room.
#[derive(Drop)]
struct Mix {
    nodes: u64,
    names: u64,
    news: u64,
    pages: u64,
}

fn random_value(random: &mut Random) -> Option<Value> {
    if random.below(4) > 0 {
        return Some(Value::int32((random.below(8) % 8) as i32 - 4));
    }
    let letters = [b'x'; 255];
    let length = match random.below(8) {
        0 => random.below(256),
        _ => 1,
    };
    Value::text(str::from_utf8(&letters[..length as usize % 256]).ok()?).ok()
}

/// A random kind of an index, mostly LONG. RAWT can't be indexed.
fn random_kind(random: &mut Random) -> Kind {
    match random.below(8) {
        0 => Kind::Rawt,
        1 | 2 => Kind::Cstr,
        _ => Kind::Long,
    }
}

/// A random operation on one of the last nodes before `next`, or a new node if there is none. It is
/// `None` if the name or the value can't be made.
fn random_op(random: &mut Random, mix: &Mix, next: u64) -> Option<Op> {
    if next == 1 {
        return Some(Op::New);
    }
    let node = next.wrapping_sub(1 + random.below(mix.nodes) % 256);
    let name = numbered((random.below(mix.names) % 256) as u8).ok()?;
    match random.below(16) {
        0 | 1 if random.below(mix.news) == 0 => Some(Op::New),
        2 if random.below(mix.news) == 0 && random.below(mix.news) == 0 => Some(Op::Drop(node)),
        3 | 4 => Some(Op::MkIndex(name, random_kind(random))),
        5 => Some(Op::RmIndex(name)),
        6 | 7 => Some(Op::Unset(node, name)),
        _ => Some(Op::Set(node, name, random_value(random)?)),
    }
}

/// A list of 1 to 4 operations.
fn random_list(
    alloc: Global,
    random: &mut Random,
    mix: &Mix,
    next: u64,
) -> Result<Vec<Op>, AllocError> {
    let mut ops = Vec::new(alloc);
    for _ in 0..1 + random.below(4) % 4 {
        if let Some(op) = random_op(random, mix, next) {
            ops.push(op)?;
        }
    }
    Ok(ops)
}

/// A random list. If memory runs out, the same list is made again.
fn list_of(
    alloc: Global,
    random: &mut Random,
    mix: &Mix,
    next: u64,
) -> Result<Vec<Op>, AllocError> {
    let before = random.copy();
    match random_list(alloc, random, mix, next) {
        Err(_) => {
            *random = before;
            random_list(alloc, random, mix, next)
        }
        ops => ops,
    }
}

/// Counts how a list was answered: at 0, or at the number of its error.
fn note(seen: &mut [u64; 23], answer: &Result<ArrayVec<Done, 64>, Refusal>) {
    let place = match answer {
        Ok(_) => 0,
        Err(refusal) => usize::from(refusal.number()) % 23,
    };
    seen[place] = seen[place].wrapping_add(1);
}

/// Queries on few names, some of which have an index.
const QUERIES: &str = "aa==1
aa>=0 && ab<2
aa<0 || ab==x
ab!=1 && (ac>1 || ad<=0)
!(aa<0 || ac==3)
ac==\"x*\"
ad>=-4 && ac>=-4 && ab>=-4
ab>x || ab<x";

/// Asks both forms for an attribute, and for all attributes of its node.
fn random_attributes(
    alloc: Global,
    random: &mut Random,
    mix: &Mix,
    forms: &mut Forms,
) -> Result<(), Fail> {
    let node = forms.next().wrapping_sub(random.below(mix.nodes));
    let name = numbered((random.below(mix.names) % 256) as u8)?;
    let _value = forms.get(node, &name)?;
    let _attributes = forms.attrs(alloc, node)?;
    Ok(())
}

/// Asks both forms a random query.
fn random_query(alloc: Global, random: &mut Random, forms: &mut Forms) -> Result<(), Fail> {
    let text = QUERIES.lines().nth(random.below(8) as usize).unwrap_or("");
    let query = read_query(alloc, text)?;
    let _answer = forms.query(alloc, &query, None)?;
    Ok(())
}

/// Reads random things from both forms.
fn random_reads(
    alloc: Global,
    random: &mut Random,
    mix: &Mix,
    forms: &mut Forms,
) -> Result<(), Fail> {
    random_attributes(alloc, random, mix, forms)?;
    let _indices = forms.indices(alloc)?;
    random_query(alloc, random, forms)
}

/// Writes random lists, and reads after every eighth.
fn write_lists(
    alloc: Global,
    random: &mut Random,
    mix: &Mix,
    forms: &mut Forms,
    seen: &mut [u64; 23],
) -> Result<(), Fail> {
    for i in 0..500 {
        let ops = list_of(alloc, random, mix, forms.next())?;
        note(seen, &forms.write(&ops)?);
        if i % 8 == 0 {
            random_reads(alloc, random, mix, forms)?;
        }
    }
    Ok(())
}

/// The same on a new volume.
fn run_mix(
    alloc: Global,
    random: &mut Random,
    mix: &Mix,
    seen: &mut [u64; 23],
) -> Result<(), Fail> {
    let mut forms = Forms::new(alloc, mix.pages)?;
    write_lists(alloc, random, mix, &mut forms, seen)
}

/// Four sorts: few names, many nodes, one node with many names, and a small room.
fn mix_of(sort: u64) -> Mix {
    match sort {
        0 => Mix {
            nodes: 16,
            names: 4,
            news: 1,
            pages: 64,
        },
        1 => Mix {
            nodes: 64,
            names: 8,
            news: 1,
            pages: 256,
        },
        2 => Mix {
            nodes: 1,
            names: 96,
            news: 256,
            pages: 128,
        },
        _ => Mix {
            nodes: 8,
            names: 4,
            news: 1,
            pages: 16,
        },
    }
}

/// Whether more than 100 lists were answered like this.
fn is_often(seen: &[u64; 23], number: &str) -> bool {
    let place = word_of(number.as_bytes()).unwrap_or(0) as usize % 23;
    seen[place] > 100
}

/// 10,000 lists. Many are accepted, and many are refused by the volume for each reason, or because
/// the pages are full.
#[test]
fn random_lists(rt: HostRuntime) -> Result<(), Fail> {
    let mut random = Random::new(88172645463325252);
    let mut seen = [0; 23];
    for i in 0..20 {
        run_mix(rt.alloc(), &mut random, &mix_of(i % 4), &mut seen)?;
    }
    for number in "0 2 3 4 5 6 7 8 11".split(' ') {
        if !is_often(&seen, number) {
            return Err(Fail::new(number));
        }
    }
    Ok(())
}
