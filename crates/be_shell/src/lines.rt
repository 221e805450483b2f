//! Lines as the shell reads them.

/// A line as the shell reads it.
#[derive(Drop)]
pub enum Line {
    /// The bytes of the line without the LF: at most 65,536, including a CR at the end.
    Short(Vec<u8>),
    /// The line has more bytes than that. None of them are kept.
    Long,
}
