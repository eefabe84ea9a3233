//! What standard error says if a new plant file does not keep what all operators share.

use plant::{Backoffs, Channel, Class, Consts, Plant};
use slice_table::{Field, plant_fields};
use std::alloc::{AllocError, Global};

/// What a new plant file has otherwise than the plant in service, of what all operators share.
#[derive(Clone, Copy)]
enum Difference {
    /// A key of the table `plant` has another value.
    Key { field: Field, new: u32, old: u32 },
    /// A class is missing or changed.
    Class { class: Class },
}

/// Returns the value of a key of the backoff windows, or nothing for another key.
fn backoff_value(backoffs: Backoffs, field: Field) -> Option<u32> {
    match field {
        Field::RangingStart => Some(u32::from(backoffs.ranging_start)),
        Field::RangingEnd => Some(u32::from(backoffs.ranging_end)),
        Field::DataStart => Some(u32::from(backoffs.data_start)),
        Field::DataEnd => Some(u32::from(backoffs.data_end)),
        _ => None,
    }
}

/// Returns the value of a key of the channel, or nothing for another key.
fn channel_value(channel: Channel, field: Field) -> Option<u32> {
    match field {
        Field::FrameMinislots => Some(u32::from(channel.frame_minislots)),
        Field::Head => Some(u32::from(channel.head)),
        Field::Channel => Some(u32::from(channel.id)),
        Field::UcdCount => Some(u32::from(channel.ucd_count)),
        Field::FirstFrame => Some(channel.first_frame),
        _ => backoff_value(channel.backoffs, field),
    }
}

/// Returns the value of a key of the table `plant`, or nothing for a key of another table.
fn shared_value(consts: &Consts, field: Field) -> Option<u32> {
    let shared = consts.get_fields();
    match field {
        Field::FrameUs => Some(shared.units.get_frame_us()),
        Field::BytesPerMinislot => Some(shared.units.get_bytes_per_minislot()),
        Field::ShortMax => Some(u32::from(shared.short_max)),
        Field::AckWait => Some(u32::from(shared.timers.get_ack_wait())),
        Field::Resends => Some(u32::from(shared.timers.get_resends())),
        Field::Hold => Some(u32::from(shared.timers.get_hold())),
        _ => channel_value(shared.channel, field),
    }
}

/// Returns how a key of the table `plant` differs, or nothing if it has the same value.
fn key_difference(old: &Consts, new: &Consts, field: Field) -> Option<Difference> {
    let old = shared_value(old, field)?;
    let new = shared_value(new, field)?;
    if old == new {
        None
    } else {
        Some(Difference::Key { field, new, old })
    }
}

/// Returns the first class of the plant in service that is missing or changed, or nothing if each is there unchanged.
fn class_difference(old: &[Class], new: &[Class]) -> Option<Difference> {
    for class in old {
        if !new.contains(class) {
            return Some(Difference::Class { class: *class });
        }
    }
    None
}

/// Returns the first difference, or nothing if there is none.
fn first_difference(old: &Consts, new: &Consts) -> Option<Difference> {
    for field in plant_fields() {
        if let Some(difference) = key_difference(old, new, field) {
            return Some(difference);
        }
    }
    class_difference(
        old.get_fields().classes.as_slice(),
        new.get_fields().classes.as_slice(),
    )
}

/// Returns a difference in words, and what to do. It is part of a sentence.
fn difference_text(alloc: Global, difference: &Difference) -> Result<String, AllocError> {
    match difference {
        Difference::Key { field, new, old } => {
            let key = field.text();
            format!(in alloc;
                "its key {key} in [plant] is {new}, and {old} in the plant in service; keep it"
            )
        }
        Difference::Class { class } => {
            let name = str::from_utf8(class.name.as_slice()).unwrap_or("");
            format!(in alloc;
                "its class {name} is missing or changed; keep the classes in service as they are (others may be added)"
            )
        }
    }
}

/// Returns which value of what all operators share is not kept, and what to do. Without both plants it names no key. It is part
/// of a sentence.
pub(crate) fn shared_text(
    alloc: Global,
    in_service: Option<&Plant>,
    plant: Option<&Plant>,
) -> Result<String, AllocError> {
    if let (Some(old), Some(new)) = (in_service, plant) {
        if let Some(difference) = first_difference(old.consts(), new.consts()) {
            return difference_text(alloc, &difference);
        }
    }
    String::from_str(
        alloc,
        "its table [plant] has other values, or a class is missing or changed; keep them as they are (classes may be added)",
    )
}
