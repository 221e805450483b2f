//! The query language: turns query text and predicates into trees of comparisons.
//!
//! A query is a tree. Its leaves compare an attribute with a literal, and its inner nodes are `&&`
//! and `||`. A `!` is pushed down to the leaves while the tree is built. `parse` reads a query from
//! text, `from_rpn` from items in reverse Polish notation, and `print` returns the canonical text
//! of a query. docs/QUERIES.md shows the language by example.
#![tactic(auto)]

pub mod laws;
mod lexer;
mod parser;
mod printing;
mod query;
mod rpn;
mod token;
mod tree;

pub use printing::{print, print_comparison};
pub use query::{Query, parse};
pub use rpn::{Item, from_rpn};
pub use tree::{Cmp, Comparison, Literal, Tree};
