//! What each key of a plant file must be, in words.

use crate::file::File;
use crate::reason::{GapText, Reason};
use slice_table::{Field, Place};

/// Returns whether one of the keys has this name.
pub(crate) fn has(fields: &[Field], word: &str) -> bool {
    for field in fields {
        if field.text() == word {
            return true;
        }
    }
    false
}

/// Returns the least and the greatest integer under a key. `None` where the key has no integer, and for the head, whose
/// greatest depends on the frame.
pub(crate) fn bounds_of(field: Field) -> Option<(u64, u64)> {
    match field {
        Field::FrameMinislots => Some((1, 4_096)),
        Field::FrameUs => Some((1, 1_000_000)),
        Field::BytesPerMinislot | Field::AckWait | Field::Hold => Some((1, 65_535)),
        Field::ShortMax | Field::Budget => Some((0, 4_096)),
        Field::Channel | Field::UcdCount | Field::Resends => Some((0, 255)),
        Field::RangingStart | Field::RangingEnd => Some((0, 15)),
        Field::DataStart | Field::DataEnd => Some((0, 15)),
        Field::FirstFrame => Some((0, 4_294_967_295)),
        Field::Flows => Some((1, 1_024)),
        Field::Transactions | Field::Inbox => Some((1, 256)),
        Field::Elements => Some((0, 235)),
        Field::Step => Some((1, 255)),
        _ => None,
    }
}

/// Returns what a key must be that has no integer.
fn wanted_of(place: Place, field: Field) -> &'static str {
    match (place, field) {
        (Place::Class(_), Field::Name) => "a string of 1 to 15 ASCII letters or digits",
        (_, Field::Name) => "a string of 1 to 16 ASCII letters or digits",
        (_, Field::Slice) => "two integers, [start, length], in minislots",
        (_, Field::Sfids) => "two integers, [first, last], from 1 to 4294967295",
        (_, Field::Sids) => "two integers, [first, last], from 1 to 8191",
        (_, Field::Policy) => "\"strict\", \"aged\" or \"short\"",
        (_, Field::Modems) =>
            "an array of 1 to 1024 addresses, each a string of 12 hexadecimal digits",
        (_, Field::Flow) => "an array of tables: write [[operator.flow]]",
        (_, Field::Modem) =>
            "the address of a modem of this operator, a string of 12 hexadecimal digits",
        _ => "a flow encoding, a string of hexadecimal digits",
    }
}

/// Says what the head must be.
fn say_wanted_head(reason: &mut Reason, file: &File<'_>) {
    match file.frame() {
        Some(frame) => reason.say(
            "an integer from 0 to {} (frame_minislots)",
            &[GapText::Number(frame)],
        ),
        None => reason.say("an integer from 0 to frame_minislots", &[]),
    }
}

/// Says what a key must be.
pub(crate) fn say_wanted(reason: &mut Reason, file: &File<'_>, place: Place, field: Field) {
    match (field, bounds_of(field)) {
        (Field::Head, _) => say_wanted_head(reason, file),
        (Field::Step, Some((low, high))) => reason.say(
            "an integer from {} to {}, since policy is \"aged\"",
            &[GapText::Number(low), GapText::Number(high)],
        ),
        (_, Some((low, high))) => reason.say(
            "an integer from {} to {}",
            &[GapText::Number(low), GapText::Number(high)],
        ),
        _ => reason.say("{}", &[GapText::Words(wanted_of(place, field))]),
    }
}

/// Says that a value is not what its key must be.
pub(crate) fn say_must<'v>(
    reason: &mut Reason,
    file: &File<'_>,
    place: Place,
    field: Field,
    value: &'v toml::Value,
) {
    reason.say("{} must be ", &[GapText::Words(field.text())]);
    say_wanted(reason, file, place, field);
    reason.say(", not {}", &[GapText::Typed(value)]);
}
