//! Errors of clap that are of an option of the program.

use crate::asked::OptionsFault;
use crate::names::OptionName;
use clap::Error;
use clap::error::ErrorKind;
use std::alloc::{AllocError, Global};

/// The options.
const OPTIONS: [OptionName; 5] = [
    OptionName::Input,
    OptionName::Json,
    OptionName::Strict,
    OptionName::State,
    OptionName::SnapshotEvery,
];

/// Returns the option that a message of clap quotes first. An error of clap does not hand out the argument that it is of.
fn option_quoted(message: &str) -> Option<OptionName> {
    let (_before, quoted) = message.split_once("'--")?;
    for option in OPTIONS {
        if let Some(after) = quoted.strip_prefix(option.text()) {
            if after.starts_with("'") || after.starts_with(" ") {
                return Some(option);
            }
        }
    }
    None
}

/// Returns why an option is invalid, if the error is of one.
pub(crate) fn option_fault(
    alloc: Global,
    error: &Error,
) -> Result<Option<OptionsFault>, AllocError> {
    let text = format!(in alloc; "{error}")?;
    let Some(option) = option_quoted(text.as_str()) else {
        return Ok(None);
    };
    match error.kind() {
        ErrorKind::InvalidValue => Ok(Some(OptionsFault::NoValue { option })),
        ErrorKind::ArgumentConflict => Ok(Some(OptionsFault::Twice { option })),
        ErrorKind::UnknownArgument => Ok(Some(OptionsFault::NotOf { option })),
        _ => Ok(None),
    }
}
