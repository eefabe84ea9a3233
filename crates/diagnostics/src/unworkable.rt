//! Keys of a valid plant file with which its channel cannot work, or not as the file says. The scheduler takes each such plant.

use crate::file::File;
use crate::key_messages::{KeyMessages, Severity};
use crate::reason::Reason;
use crate::unworkable_channel::add_channel;
use crate::unworkable_encodings::{add_classes, add_flows};
use crate::unworkable_limits::add_limits;
use plant::Plant;
use std::alloc::Global;

/// Returns the keys with which the channel of a valid plant file cannot work, each with what to do.
pub(crate) fn unworkable_keys(
    alloc: Global,
    file: &File<'_>,
    plant: &Plant,
    severity: Severity,
) -> KeyMessages {
    let (one, several) = match severity {
        Severity::Warning => ("warning", "warnings"),
        Severity::Fault => ("fault", "faults"),
    };
    let mut found = KeyMessages::new(alloc, severity, one, several);
    add_channel(&mut found, file, plant);
    add_classes(&mut found, file, plant);
    for (operator, row) in plant.rows().iter().enumerate() {
        let row = row.get_fields();
        add_limits(&mut found, file, plant.consts(), operator, row);
        add_flows(&mut found, file, plant.consts(), operator, row);
    }
    found
}

/// Says with which keys the channel of a valid plant file cannot work, as warnings.
pub(crate) fn say_unworkable(reason: &mut Reason, file: &File<'_>, plant: &Plant) {
    unworkable_keys(reason.alloc, file, plant, Severity::Warning).say(reason);
}
