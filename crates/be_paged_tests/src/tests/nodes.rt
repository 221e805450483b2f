//! The nodes of a version from a number on, in volumes that fit into a leaf and in larger ones. A
//! leaf has at most 12 pairs.
//!
//! A row is `FROM MOST => NODES`. If memory runs out, a request is made again, as elsewhere here.
use be_paged_test_tools::Forms;
use be_test_tools::numbered;
use be_value::{Value, word_of};
use be_volume::Op;
use std::alloc::Global;
use std::test::Fail;

fn number(word: &str) -> u64 {
    word_of(word.as_bytes()).unwrap_or(u64::MAX)
}

/// Whether these are the numbers, with a space between them, or `none`.
fn are_numbers(list: &[u64], words: &str) -> bool {
    if list.is_empty() {
        return words == "none";
    }
    let mut rest = words;
    for node in list {
        let (word, beyond) = rest.split_once(" ").unwrap_or((rest, ""));
        if number(word) != *node {
            return false;
        }
        rest = beyond;
    }
    rest.is_empty()
}

/// Fails unless a row is right.
fn expect_row(alloc: Global, forms: &mut Forms, row: &str) -> Result<(), Fail> {
    let (asked, expected) = row.split_once(" => ").unwrap_or((row, ""));
    let (from, most) = asked.split_once(" ").unwrap_or((asked, ""));
    let list = forms.nodes(alloc, number(from), number(most) as usize)?;
    if are_numbers(&list, expected) {
        return Ok(());
    }
    Err(Fail::new(row))
}

fn expect_rows(alloc: Global, forms: &mut Forms, rows: &str) -> Result<(), Fail> {
    for row in rows.lines() {
        expect_row(alloc, forms, row)?;
    }
    Ok(())
}

/// Writes one operation, which has to be accepted.
fn write(forms: &mut Forms, op: Op) -> Result<(), Fail> {
    forms.write(&[op])??;
    Ok(())
}

/// Makes `count` nodes.
fn make_nodes(forms: &mut Forms, count: u64) -> Result<(), Fail> {
    for _ in 0..count {
        write(forms, Op::New)?;
    }
    Ok(())
}

/// Makes `count` nodes, and then fails unless the rows are right.
fn expect_after(alloc: Global, forms: &mut Forms, count: u64, rows: &str) -> Result<(), Fail> {
    make_nodes(forms, count)?;
    expect_rows(alloc, forms, rows)
}

/// Gives a node 26 attributes, more than two leaves can hold.
fn set_attributes(forms: &mut Forms, node: u64) -> Result<(), Fail> {
    for letter in 0..26u8 {
        let name = numbered(letter)?;
        write(forms, Op::Set(node, name, Value::int32(1)))?;
    }
    Ok(())
}

/// Lists nodes while they are added: none, one, as many as fit into a leaf, and one more.
fn add_nodes(alloc: Global, forms: &mut Forms) -> Result<(), Fail> {
    expect_after(alloc, forms, 0, "0 9 => none\n1 0 => none")?;
    let rows = "0 9 => 1\n1 1 => 1\n1 0 => none\n2 9 => none";
    expect_after(alloc, forms, 1, rows)?;
    let rows = "0 99 => 1 2 3 4 5 6 7 8 9 10 11 12
0 1 => 1
5 3 => 5 6 7
12 9 => 12
13 9 => none";
    expect_after(alloc, forms, 11, rows)?;
    let rows = "0 13 => 1 2 3 4 5 6 7 8 9 10 11 12 13
12 2 => 12 13
13 1 => 13
18446744073709551615 9 => none";
    expect_after(alloc, forms, 1, rows)
}

/// Nodes without attributes are listed from any number on, up to the count asked for, while nodes
/// are added.
#[test]
fn bare_nodes(rt: HostRuntime) -> Result<(), Fail> {
    add_nodes(rt.alloc(), &mut Forms::new(rt.alloc(), 128)?)
}

/// Makes these nodes.
fn make_gap(forms: &mut Forms) -> Result<(), Fail> {
    make_nodes(forms, 100)?;
    for node in [1, 50, 51, 100] {
        set_attributes(forms, node)?;
    }
    write(forms, Op::Drop(51))?;
    write(forms, Op::Drop(52))
}

/// How many nodes are left, if the rows are right.
fn count_with_gap(alloc: Global, forms: &mut Forms) -> Result<usize, Fail> {
    make_gap(forms)?;
    let rows = "0 2 => 1 2
2 1 => 2
49 4 => 49 50 53 54
50 1 => 50
51 2 => 53 54
98 99 => 98 99 100
101 1 => none";
    expect_rows(alloc, forms, rows)?;
    Ok(forms.nodes(alloc, 0, 1000)?.len())
}

/// Two of a hundred nodes are removed. The first and the last node, and the one before the gap,
/// have attributes.
#[test]
fn nodes_with_attributes(rt: HostRuntime) -> Result<(), Fail> {
    let count = count_with_gap(rt.alloc(), &mut Forms::new(rt.alloc(), 128)?)?;
    assert_eq!(rt; count, 98);
    Ok(())
}
