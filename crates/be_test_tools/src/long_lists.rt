//! The longest reply to a script's line.
use std::alloc::{AllocError, Global};

/// A script that creates a node with 64 attributes and lists them, with its replies.
fn list_with_script(alloc: Global) -> Result<(String, String), AllocError> {
    let name = "\\n".repeat(alloc, 61)?;
    let value = "\\n".repeat(alloc, 255)?;
    let mut script = String::from_str(alloc, "new\n")?;
    let mut replies = String::from_str(alloc, "node 1\n")?;
    let mut list = String::from_str(alloc, "attrs 64\n")?;
    for n in 10..74u64 {
        let attribute = format!(in alloc; "\"{name}{n}\" CSTR \"{value}\"\n")?;
        script.push_str("set 1 ")?;
        script.push_str(attribute.as_str())?;
        replies.push_str("ok\n")?;
        list.push_str(attribute.as_str())?;
    }
    script.push_str("attrs 1\n")?;
    replies.push_str(list.as_str())?;
    Ok((script, replies))
}

/// A script that lists 64 attributes with the longest names and values, with its replies, the last
/// of which has 41,289 bytes. Each LF in a name or value is printed as two characters. If memory
/// runs out, both are built again.
pub fn longest_list(alloc: Global) -> Result<(String, String), AllocError> {
    match list_with_script(alloc) {
        Err(_) => list_with_script(alloc),
        texts => texts,
    }
}
