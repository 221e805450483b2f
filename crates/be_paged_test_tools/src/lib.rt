//! What the tests of volumes in pages share: a plain volume and an equal one in pages, with the
//! same writes and queries.
//!
//! As a library it is proved only once.
#![tactic(auto)]

mod asking;
mod both;
mod files;
mod forms;
mod random;
mod rows;
mod same;
mod writing;

pub use asking::{query_both, read_query};
pub use both::Both;
pub use files::{NODES, filled};
pub use forms::Forms;
pub use random::Random;
pub use rows::check_rows;
pub use writing::{accepts, apply_pages};
