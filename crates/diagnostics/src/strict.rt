//! What `check --strict` refuses in a valid plant file: what `check` warns of.

use crate::file::File;
use crate::key_messages::Severity;
use crate::parts::parts_of;
use crate::reason::Reason;
use crate::unread::unknown_keys;
use crate::unworkable::unworkable_keys;
use slice_table::{PlantFault, read_plant};
use std::alloc::{AllocError, Global};
use toml::Table;

/// The keys and tables of a plant file that `check --strict` refuses: unknown ones, and keys with which no channel works.
#[derive(Drop)]
pub struct StrictFault {
    /// The name of the first, as messages show it.
    pub first: String,
    /// The message: a line for each.
    pub reason: String,
}

/// Says with which keys a plant file cannot work, if it is valid. Returns the name of the first, empty where there is none.
fn say_unworkable_faults(
    reason: &mut Reason,
    file: &File<'_>,
    text: &str,
) -> Result<String, AllocError> {
    let alloc = reason.alloc;
    match read_plant(alloc, text) {
        Ok(plant) => {
            let found = unworkable_keys(alloc, file, &plant, Severity::Fault);
            found.say(reason);
            found.into_first_name()
        }
        Err(PlantFault::NoMemory) => Err(AllocError),
        Err(_fault) => Ok(String::new(alloc)),
    }
}

/// Returns what is refused of a plant file that is TOML.
fn fault_of_document(
    alloc: Global,
    document: &Table,
    text: &str,
) -> Result<Option<StrictFault>, AllocError> {
    let mut reason = Reason::new(alloc);
    let file = File::new(&mut reason, document, text);
    let unknown = unknown_keys(alloc, &file, Severity::Fault);
    unknown.say(&mut reason);
    let unworkable = say_unworkable_faults(&mut reason, &file, text)?;
    let reason = reason.into_text()?;
    let unknown = unknown.into_first_name()?;
    let first = if unknown.is_empty() {
        unworkable
    } else {
        unknown
    };
    if first.is_empty() {
        return Ok(None);
    }
    Ok(Some(StrictFault { first, reason }))
}

/// Returns what `check --strict` refuses in the plant file of an input. None where it refuses nothing, or the file is not TOML.
/// No clause says which keys these are: tests do.
pub fn strict_fault_of(alloc: Global, input: &str) -> Result<Option<StrictFault>, AllocError> {
    let parts = parts_of(input);
    match toml::table_from_str(alloc, parts.plant) {
        Ok(document) => fault_of_document(alloc, &document, parts.plant),
        Err(error) if error.is_memory() => Err(AllocError),
        Err(_error) => Ok(None),
    }
}
