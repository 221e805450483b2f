//! Whether two answers are the same.
use be_value::Refusal;

/// Whether two lists are equal. If both calls failed, whether their errors are.
pub fn same_lists<T: PartialEq>(
    one: &Result<Vec<T>, Refusal>,
    other: &Result<Vec<T>, Refusal>,
) -> bool {
    match (one, other) {
        (Ok(one), Ok(other)) => one.as_slice() == other.as_slice(),
        (Err(one), Err(other)) => one == other,
        _ => false,
    }
}
