//! A first program with the store: it files a letter, queries the store for senders, and prints the
//! journal.
#![tactic(auto)]

use be_store::{ApplyIfError, Journal, Kind, Limits, Name, Op, Store, Value, parse};
use std::alloc::AllocGlobal;
use std::io;
use std::process::ExitCode;

/// The nodes of the letters whose sender begins with A, and the store's journal.
fn first_letters<R: AllocGlobal>(rt: &R) -> Result<(Vec<u64>, Journal), ApplyIfError> {
    let limits = Limits {
        pages: 64,
        passes: 1,
        commits: 1_000,
    };
    let (store, mut passes) = Store::open(rt.alloc(), limits)?;
    let Some(mut pass) = passes.pop() else {
        unreachable!()
    };
    let from = Name::new("MAIL:from")?;
    store.apply(&mut pass, &[Op::MkIndex(from.copy(), Kind::Cstr)])?;

    let mut snapshot = store.pinned(&mut pass);
    let (number, letter) = (snapshot.number(), snapshot.next());
    drop(snapshot);
    let sender = Op::Set(letter, from, Value::text("Ada")?);
    store.apply_if(&mut pass, number, &[Op::New, sender])?;

    let query = parse(rt.alloc(), "MAIL:from==A*")?;
    let answer = store.pinned(&mut pass).query(rt.alloc(), &query)?;

    passes.push(pass)?;
    Ok((answer.nodes, store.close(passes)))
}

/// Prints the nodes and the journal, or the store's error on standard error.
fn main(rt: HostRuntime) -> io::Result<ExitCode> {
    match first_letters(&rt) {
        Ok((nodes, journal)) => {
            for node in &nodes {
                println!(rt; "node {node}")?;
            }
            if let Ok(text) = journal.text() {
                print!(rt; "{text}")?;
            }
            Ok(ExitCode::SUCCESS)
        }
        Err(error) => {
            eprintln!(rt; "{error}")?;
            Ok(ExitCode::FAILURE)
        }
    }
}
