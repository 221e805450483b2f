//! An answer is that of a scan, whatever a source estimates. So each range that may be walked is
//! walked for some of the estimates.

use super::counting::nodes_arbitrary;
use super::volume_of;
use be_query::{Query, parse};
use be_test_tools::again;
use be_value::Refusal;
use be_volume::Volume;
use std::alloc::Global;
use std::test::Fail;

/// The texts of t.
const TEXTS: [&str; 5] = ["a", "ab", "b", "ba", "c"];

/// The lines of nodes 1 to 130. k is the node's number and m falls from 130 to 1; f is 1 for every
/// sixth node and 0 for the others; t is a text. The index of t doesn't have nodes up to 20, and z,
/// which is 0, 1 or 2, has no index.
fn mixed_lines(alloc: Global) -> Result<String, Refusal> {
    let mut lines = String::from_str(alloc, "mkindex k ULLG\nmkindex m LONG\nmkindex f LONG")?;
    for node in 1..=130u64 {
        let descending = 131u64.wrapping_sub(node);
        let flag = if node % 6 == 0 { 1 } else { 0 };
        let text = TEXTS[(node % 5) as usize];
        let third = node % 3;
        lines.push_str(format!(in alloc;
            "\nnew;set {node} k ULLG {node};set {node} m LONG {descending};set {node} f LONG \
             {flag};set {node} t CSTR {text};set {node} z LONG {third}"
        )?
        .as_str())?;
        if node == 20 {
            lines.push_str("\nmkindex t CSTR")?;
        }
    }
    Ok(lines)
}

/// The volume of these lines. If memory runs out, the lines are made again.
fn mixed(alloc: Global) -> Result<Volume, Refusal> {
    let lines = again!(mixed_lines(alloc))?;
    volume_of(alloc, lines.as_str())
}

/// Comparisons in any order and with parentheses anywhere; bounds of one name that are apart or
/// allow no key; `!=` alone, beside bounds of its own name, and beside other names; and conditions
/// that remain on names with an index and without one.
const QUERIES: &str = "f==0 && k>=11 && k<=90
k>=11 && (f==0 && k<=90)
(m<=70 && z==1) && k<=100
k>=3 && m>=5 && k<=120 && m<=125
(k<=3 || k>=58) && f==0
f==1 && (k<=30 || k>=31)
k>=40 && (m>=41 && f!=1)
k<=10 && f==0 && k>=9 || m<=12 && t==a*
(t==a* || f==1) && (k<=100 || m==1)
f==0 && k>=31 && k<=30
k>=31 && (f==0 && k<=30) || k==7
k!=7
f!=0 && f!=1
k>=5 && k!=7 && k<=9
f!=1 && k<=40
f!=0 || t!=ab
t!=a* && f==0 && z!=1
z==1 && (f==0 && m!=3)
!(k<5 || m<5) && !(f==1)
t==*b && t>=a && k<=70
k==5 && k>=44
k!=99999999999999999999 && f==0
k!=-1 && m!=-1 && t!=b
m>=1 && (m<=130 && (f==0 || f==1)) && z==2";

/// Whether the nodes are those of a scan, with estimates by this seed.
fn agrees(alloc: Global, volume: &Volume, query: &Query, seed: u64) -> Result<bool, Refusal> {
    let nodes = nodes_arbitrary(alloc, volume, query, seed.wrapping_mul(300), seed)?;
    Ok(volume.query(query)?.as_slice() == nodes.as_slice())
}

/// Fails unless each answer to a query is that of a scan.
fn check_query(alloc: Global, volume: &Volume, text: &str) -> Result<(), Fail> {
    let query = again!(parse(alloc, text))?;
    for seed in 0..8 {
        if !again!(agrees(alloc, volume, &query, seed))? {
            return Err(Fail::new(text));
        }
    }
    Ok(())
}

fn check_queries(alloc: Global, volume: &Volume) -> Result<(), Fail> {
    for text in QUERIES.lines() {
        check_query(alloc, volume, text)?;
    }
    Ok(())
}

#[test]
fn any_estimates(rt: HostRuntime) -> Result<(), Fail> {
    check_queries(rt.alloc(), &mixed(rt.alloc())?)
}
