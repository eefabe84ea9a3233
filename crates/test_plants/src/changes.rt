//! Changes of the texts of plants.

use std::alloc::Global;
use std::test::Fail;

/// Returns a text with its first `old` changed to `new`; an error where it holds none.
pub fn replace_first(alloc: Global, text: &str, old: &str, new: &str) -> Result<String, Fail> {
    let (head, tail) = text.split_once(old).ok_or("not there")?;
    Ok(format!(in alloc; "{head}{new}{tail}")?)
}
