//! A volume of three hundred nodes with two indices, for tests of what requests cost.
use crate::{Both, Forms};
use std::alloc::{AllocError, Global};
use std::test::Fail;

/// The number of nodes that have attributes. The next node has none.
pub const NODES: u64 = 300;

/// The list of operations that makes a node. Its name and its size have an index, its kind has
/// none. Names and sizes don't come in ascending order.
fn node_text(alloc: Global, node: u64) -> Result<String, AllocError> {
    let name = 10_000 + node.wrapping_mul(271) % NODES;
    let size = node.wrapping_mul(577) % NODES * 10;
    format!(in alloc;
        "new;set {node} name CSTR {name}-document.txt;set {node} size LONG {size};set {node} kind \
         CSTR text/plain"
    )
}

fn make_node(alloc: Global, forms: &mut Forms, node: u64) -> Result<(), Fail> {
    let text = match node_text(alloc, node) {
        Err(_) => node_text(alloc, node)?,
        Ok(text) => text,
    };
    forms.accept_text(alloc, text.as_str())
}

/// Makes the indices and the nodes.
fn fill(alloc: Global, forms: &mut Forms) -> Result<(), Fail> {
    forms.accept_text(alloc, "mkindex name CSTR;mkindex size LONG")?;
    for node in 1..=NODES {
        make_node(alloc, forms, node)?;
    }
    forms.accept_text(alloc, "new")
}

/// Both forms of the volume, with 1,024 pages. They are the same in each run.
pub fn filled(alloc: Global) -> Result<Both, Fail> {
    let mut forms = Forms::new(alloc, 1024)?;
    fill(alloc, &mut forms)?;
    forms.take()
}
