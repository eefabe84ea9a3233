//! What is wrong with a value of a plant file: numbers, ranges, slices, names and addresses.

use crate::file::File;
use crate::reason::{GapText, Reason};
use crate::tree::{natural, pair_in, place_of, values};
use crate::wanted::{bounds_of, say_must};
use slice_table::{Field, Key, Place};
use toml::Value;

/// Returns the least and the greatest integer under a key, as far as they are known.
fn limits_of(file: &File<'_>, field: Field) -> (u64, u64) {
    match bounds_of(field) {
        Some(limits) => limits,
        None => (0, file.frame().unwrap_or(4_096)),
    }
}

/// Says what is wrong with a value that must be an integer.
pub(crate) fn say_number<'v>(
    reason: &mut Reason,
    file: &File<'_>,
    place: Place,
    field: Field,
    value: &'v Value,
) {
    let (low, high) = limits_of(file, field);
    match natural(value) {
        Some(number) if low <= number && number <= high => {}
        _ => say_must(reason, file, place, field, value),
    }
}

/// Returns the greatest identifier of a range under a key.
fn greatest_of(field: Field) -> u64 {
    match field {
        Field::Sids => 8_191,
        _ => 4_294_967_295,
    }
}

/// Says what is wrong with a value that must be a range of identifiers.
pub(crate) fn say_range<'v>(
    reason: &mut Reason,
    file: &File<'_>,
    place: Place,
    field: Field,
    value: &'v Value,
) {
    let most = greatest_of(field);
    let Some((first, last)) = pair_in(value) else {
        return say_must(reason, file, place, field, value);
    };
    let wrong = if first == 0 {
        "first must be at least 1"
    } else if last > most {
        return say_over(reason, field, value, most);
    } else if first > last {
        "first must not be greater than last"
    } else {
        return;
    };
    reason.say(
        "{} {}: {}",
        &[
            GapText::Words(field.text()),
            GapText::Value(value),
            GapText::Words(wrong),
        ],
    );
}

/// Says that the last identifier of a range is over the greatest.
fn say_over<'v>(reason: &mut Reason, field: Field, value: &'v Value, most: u64) {
    reason.say(
        "{} {}: last must be at most {}",
        &[
            GapText::Words(field.text()),
            GapText::Value(value),
            GapText::Number(most),
        ],
    );
}

/// Says what is wrong with a slice, after what it is called, where the head and the frame have so
/// many minislots.
pub(crate) fn say_slice(reason: &mut Reason, slice: (u64, u64), head: u64, frame: u64) {
    let (start, length) = slice;
    let end = start.saturating_add(length);
    if length == 0 {
        reason.say("length must be at least 1", &[]);
    } else if start < head {
        reason.say(
            "start must be at least {}, after the head",
            &[GapText::Number(head)],
        );
    } else if end > frame {
        reason.say(
            "start + length must be at most {} (frame_minislots), not {}",
            &[GapText::Number(frame), GapText::Number(end)],
        );
    }
}

/// Says what is wrong with a value that must be a slice. Where the head or the frame is invalid, its length alone is judged.
pub(crate) fn say_slice_value<'v>(
    reason: &mut Reason,
    file: &File<'_>,
    place: Place,
    field: Field,
    value: &'v Value,
) {
    let Some(slice) = pair_in(value) else {
        return say_must(reason, file, place, field, value);
    };
    let (head, frame) = file.head_and_frame().unwrap_or((0, u64::MAX));
    let mut wrong = Reason::new(reason.alloc);
    say_slice(&mut wrong, slice, head, frame);
    if !wrong.is_silent() {
        reason.say(
            "slice {}: {}",
            &[GapText::Value(value), GapText::Told(&wrong)],
        );
    }
}

/// The characters that a text may have.
#[derive(Clone, Copy)]
pub(crate) enum Letters {
    /// Hexadecimal digits.
    Hexadecimal,
    /// Letters and digits of ASCII.
    Alphanumeric,
}

impl Letters {
    /// Returns whether a character is one of these.
    fn has(self, c: char) -> bool {
        match self {
            Letters::Hexadecimal => c.is_ascii_hexdigit(),
            Letters::Alphanumeric => c.is_ascii_alphanumeric(),
        }
    }
}

/// Returns the first character of a text that it may not have, and how many characters come before it.
pub(crate) fn first_beside(text: &str, letters: Letters) -> Option<(usize, char)> {
    for (before, c) in text.chars().enumerate() {
        if !letters.has(c) {
            return Some((before, c));
        }
    }
    None
}

/// Returns the array that a place is in, the number of its table there, and the most characters of a name in it.
fn array_of(place: Place) -> (&'static str, usize, u64) {
    match place {
        Place::Class(class) => ("class", class, 15),
        Place::Operator(operator) => ("operator", operator, 16),
        _ => ("operator", 0, 16),
    }
}

/// Returns the place of a table of the array that a place is in.
fn place_in_array(place: Place, number: usize) -> Place {
    match place {
        Place::Class(_) => Place::Class(number),
        _ => Place::Operator(number),
    }
}

/// Says that an earlier table of the same array has a name.
fn say_taken(reason: &mut Reason, file: &File<'_>, place: Place, name: &str) {
    let (array, number, _most) = array_of(place);
    let Some(first) = place_of(values(file.document, array), name) else {
        return;
    };
    if first < number {
        let other = place_in_array(place, first);
        reason.say(
            "name \"{}\" is taken by {}",
            &[GapText::Words(name), GapText::Place(other)],
        );
        if let Some(line) = file.lines.line_of(Key::Entry(other, Field::Name)) {
            reason.say(", line {}", &[GapText::Number(line)]);
        }
        reason.say(": choose another name", &[]);
    }
}

/// Says what is wrong with a value that must be a name.
pub(crate) fn say_name<'v>(
    reason: &mut Reason,
    file: &File<'_>,
    place: Place,
    field: Field,
    value: &'v Value,
) {
    let Some(name) = value.as_str() else {
        return say_must(reason, file, place, field, value);
    };
    let (_array, _number, most) = array_of(place);
    let count = name.chars().count() as u64;
    if let Some((_before, c)) = first_beside(name, Letters::Alphanumeric) {
        say_must(reason, file, place, field, value);
        reason.say(" (invalid character {})", &[GapText::Letter(c)]);
    } else if count == 0 {
        say_must(reason, file, place, field, value);
    } else if count > most {
        say_must(reason, file, place, field, value);
        reason.say(" ({} characters)", &[GapText::Number(count)]);
    } else {
        say_taken(reason, file, place, name);
    }
}

/// Returns whether a text is an address.
pub(crate) fn is_address(text: &str) -> bool {
    text.len() == 12 && first_beside(text, Letters::Hexadecimal).is_none()
}

/// Returns a text without the characters that separate the bytes of an address.
fn without_separators(reason: &mut Reason, text: &str) -> String {
    let mut digits = String::new(reason.alloc);
    for c in text.chars() {
        if c != ':' && c != '.' && c != '-' && digits.push(c).is_err() {
            reason.is_lost = true;
        }
    }
    digits
}

/// Says that a text is not an address, if it is none: what is called so must be one.
pub(crate) fn say_address<'a>(reason: &mut Reason, what: &'a Reason, text: &'a str) {
    if is_address(text) {
        return;
    }
    let digits = without_separators(reason, text);
    if is_address(digits.as_str()) {
        reason.say(
            "{} must be 12 hexadecimal digits without separators: write {}, not {}",
            &[
                GapText::Told(what),
                GapText::Words(digits.as_str()),
                GapText::Quoted(text),
            ],
        );
        return;
    }
    reason.say(
        "{} must be 12 hexadecimal digits, not {}",
        &[GapText::Told(what), GapText::Quoted(text)],
    );
    match first_beside(text, Letters::Hexadecimal) {
        Some((_before, c)) => reason.say(" (invalid character {})", &[GapText::Letter(c)]),
        None => reason.say(" ({} digits)", &[GapText::Number(text.len() as u64)]),
    }
}

/// Says what is wrong with an item of a list of addresses.
pub(crate) fn say_item(reason: &mut Reason, number: u64, value: &Value) {
    let mut what = Reason::new(reason.alloc);
    what.say("modems[{}]", &[GapText::Number(number)]);
    match value.as_str() {
        None => reason.say(
            "{} must be a string of 12 hexadecimal digits, not {}",
            &[GapText::Told(&what), GapText::Typed(value)],
        ),
        Some(address) => say_address(reason, &what, address),
    }
}
