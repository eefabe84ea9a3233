//! Text of the input, as a reason shows it.

use std::alloc::AllocError;

/// The most characters that are shown of a text.
const SHOWN: usize = 80;

/// Appends a character: a tab and a carriage return by their escapes, another control character as
/// a question mark.
fn put_char(text: &mut String, c: char) -> Result<(), AllocError> {
    match c {
        '\t' => text.push_str("\\t"),
        '\r' => text.push_str("\\r"),
        c if c.is_control() => text.push('?'),
        c => text.push(c),
    }
}

/// Appends the first characters of a text, and two dots if there are more.
pub(crate) fn put_shown(text: &mut String, shown: &str) -> Result<(), AllocError> {
    for (place, c) in shown.chars().enumerate() {
        if place == SHOWN {
            return text.push_str("..");
        }
        put_char(text, c)?;
    }
    Ok(())
}
