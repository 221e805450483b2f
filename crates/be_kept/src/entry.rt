//! A transaction, as the file has it.

/// An entry of the file, without its number: entries are numbered consecutively.
#[derive(Debug, Drop)]
pub struct Entry {
    /// The pass that wrote the transaction.
    pub pass: u32,
    /// The operations, encoded as docs/KEPT.md describes.
    pub batch: Vec<u8>,
}
