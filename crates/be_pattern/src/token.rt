//! A pattern's tokens.

/// A token of a pattern.
#[derive(Debug, Drop)]
pub enum Token {
    /// `*`: any run of characters.
    AnyRun,
    /// `?`: any single character.
    AnyOne,
    /// A character that is in one of the ranges or, if the set is negated, in none of them.
    Set {
        negated: bool,
        members: Vec<(char, char)>,
    },
    /// This character itself.
    Literal(char),
}
