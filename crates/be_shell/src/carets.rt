//! Shows a query that has an error on standard error, with a caret under the position of the error.
use be_script_language::{Request, read_line};
use std::alloc::{AllocError, Global};
use std::io::Eprint;
use unicode_width::UnicodeWidthChar;

/// Returns the number at the start of the text, or 0.
fn number_at(text: &[u8]) -> usize {
    let mut number: usize = 0;
    for byte in text {
        if *byte < b'0' || *byte > b'9' {
            return number;
        }
        number = number
            .saturating_mul(10)
            .saturating_add((*byte - b'0') as usize);
    }
    number
}

/// Returns the position of the query error that the reply reports.
pub(crate) fn fault_at(reply: &[u8]) -> Option<usize> {
    if let Some(number) = reply.strip_prefix(b"refused 12 Syntax ".as_slice()) {
        return Some(number_at(number));
    }
    let number = reply.strip_prefix(b"refused 13 BadPattern ".as_slice())?;
    Some(number_at(number))
}

/// Returns the text as it is shown, and one space for each column before the byte at this offset.
fn under(alloc: Global, text: &str, at: usize) -> Result<(String, String), AllocError> {
    let mut shown = String::new(alloc);
    let mut spaces = String::new(alloc);
    for (offset, c) in text.char_indices() {
        let code = c as u32;
        let columns = match c.width() {
            Some(columns) => {
                shown.push(c)?;
                columns
            }
            None => {
                shown.push_str(format!(in alloc; "\\x{code:02x}")?.as_str())?;
                4
            }
        };
        if offset < at {
            for _ in 0..columns {
                spaces.push(' ')?;
            }
        }
    }
    Ok((shown, spaces))
}

/// Returns the text of the query in a line, if there is one.
fn query_text(alloc: Global, line: &[u8]) -> Option<String> {
    match read_line(alloc, line) {
        Ok(Request::Query(text)) => Some(text),
        Ok(Request::Page(_, text)) => Some(text),
        Ok(Request::Explain(text)) => Some(text),
        Ok(Request::Live(text)) => Some(text),
        _ => None,
    }
}

/// Shows a query with a caret under the position of its error.
pub(crate) fn point_at<R: Eprint>(rt: &R, alloc: Global, line: &[u8], at: usize) {
    let Some(text) = query_text(alloc, line) else {
        return;
    };
    if let Ok((shown, spaces)) = under(alloc, text.as_str(), at) {
        let _ = eprintln!(rt; "    {shown}\n    {spaces}^");
    }
}
