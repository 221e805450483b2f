//! What queries return.

/// What a query returns: the pin's number, and the matching nodes in ascending order.
#[derive(Debug, Drop)]
pub struct Answer {
    pub pin: u64,
    pub nodes: Vec<u64>,
}

/// How the answer of a live query has changed: the nodes that were added and the nodes that were
/// removed, each list in ascending order.
#[derive(Debug, Drop)]
pub struct Updates {
    pub created: Vec<u64>,
    pub removed: Vec<u64>,
}
