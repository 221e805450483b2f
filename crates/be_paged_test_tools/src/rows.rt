//! Rows `REQUEST => COST`.
use std::alloc::Global;
use std::test::Fail;

/// Fails unless each row is the row that `row_of` returns for its request. The message is the row
/// as it would be right.
pub fn check_rows<F: Fn(Global, &str) -> Result<String, Fail>>(
    alloc: Global,
    rows: &str,
    row_of: F,
) -> Result<(), Fail>
    requires { F.IsAlwaysCallable row_of }
{
    for row in rows.lines() {
        let (request, _) = row.split_once(" => ").unwrap_or((row, ""));
        let right = row_of(alloc, request)?;
        if right.as_str() != row {
            return Err(Fail::new(right.as_str()));
        }
    }
    Ok(())
}
