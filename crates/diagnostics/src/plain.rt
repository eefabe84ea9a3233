//! Plant files of which each line is seen at once to be read. The lines are looked at as bytes, since
//! most plant files are ASCII; where the end of a text is not, `str` decides what white space is.

use memchr::{memchr, memchr_iter};
use slice_table::{Field, class_fields, flow_fields, operator_fields, plant_fields};
use std::iter::once;

/// Whether a plant file has a `{` anywhere.
#[derive(Clone, Copy)]
enum Braces {
    Absent,
    Present,
}

/// What is known of a plant file before its lines are read.
#[derive(Drop)]
struct Known {
    plant: [Field; 15],
    class: [Field; 2],
    operator: [Field; 13],
    flow: [Field; 2],
    braces: Braces,
}

impl Known {
    /// Returns the keys of each table that is read, and whether this file has a `{`.
    fn of_file(text: &str) -> Known {
        Known {
            plant: plant_fields(),
            class: class_fields(),
            operator: operator_fields(),
            flow: flow_fields(),
            braces: match memchr(b'{', text.as_bytes()) {
                Some(_) => Braces::Present,
                None => Braces::Absent,
            },
        }
    }

    /// Returns the keys of the table that a line begins. None where it begins no table, or one that
    /// nothing reads.
    fn of_head(&self, line: &str) -> Option<&[Field]> {
        match line {
            "[[operator.flow]]" => Some(&self.flow),
            "[[operator]]" => Some(&self.operator),
            "[[class]]" => Some(&self.class),
            "[plant]" => Some(&self.plant),
            _ => None,
        }
    }

    /// Returns whether a value holds no table and ends no later than its line, except an array's.
    fn is_in_line(&self, value: &str) -> bool {
        let value = without_lead(value);
        if value.starts_with("\"\"\"") || value.starts_with("'''") {
            return false;
        }
        match self.braces {
            Braces::Absent => true,
            Braces::Present => memchr(b'{', value.as_bytes()).is_none(),
        }
    }

    /// Returns whether a line is one of these keys with a value that holds no table and ends no later
    /// than the line, except an array's.
    fn is_entry(&self, line: &str, fields: &[Field]) -> bool {
        for field in fields {
            if let Some(value) = value_of(line, field.text()) {
                return self.is_in_line(value);
            }
        }
        false
    }

    /// Returns the keys of the table that the line after this one is in: those given, or those of
    /// the table that this line begins. None where this line is not plain.
    fn fields_after<'a>(&'a self, line: &str, fields: &'a [Field]) -> Option<&'a [Field]> {
        let line = without_lead(line);
        match line.as_bytes().first() {
            None | Some(b'#') => Some(fields),
            Some(b'[') => self.of_head(without_tail(line)),
            Some(_) => {
                if self.is_entry(line, fields) {
                    Some(fields)
                } else {
                    None
                }
            }
        }
    }
}

/// Returns whether a byte is an ASCII character that can be seen, and so no part of white space.
fn is_visible(byte: Option<&u8>) -> bool {
    match byte {
        Some(byte) => byte.is_ascii_graphic(),
        None => false,
    }
}

/// Returns a text without the white space at its start.
fn without_lead(text: &str) -> &str {
    let text = text.trim_ascii_start();
    if is_visible(text.as_bytes().first()) {
        text
    } else {
        text.trim_start()
    }
}

/// Returns a text without the white space at its end.
fn without_tail(text: &str) -> &str {
    let text = text.trim_ascii_end();
    if is_visible(text.as_bytes().last()) {
        text
    } else {
        text.trim_end()
    }
}

/// Returns what is after a key, where a line begins with it. Keys are short, and most lines differ
/// from most keys in the first byte.
fn after_key<'a>(line: &'a str, key: &str) -> Option<&'a str> {
    let bytes = line.as_bytes();
    for (place, byte) in key.bytes().enumerate() {
        if bytes.get(place).copied() != Some(byte) {
            return None;
        }
    }
    line.get(key.len()..)
}

/// Returns what is after the `=` of a line that begins with this key. None where it does not.
fn value_of<'a>(line: &'a str, key: &str) -> Option<&'a str> {
    let rest = without_lead(after_key(line, key)?);
    match rest.as_bytes().first() {
        Some(b'=') => rest.get(1..),
        _ => None,
    }
}

/// Returns whether each line of a plant file is empty, a comment, the head of a table that is read,
/// or a key of that table that is read: then nothing in it is unread. Of a file that is written in
/// another way nothing is said.
pub(crate) fn is_plain(text: &str) -> bool {
    let known = Known::of_file(text);
    let mut fields: &[Field] = &[];
    let mut start = 0usize;
    for end in memchr_iter(b'\n', text.as_bytes()).chain(once(text.len())) {
        let line = text.get(start..end).unwrap_or("");
        match known.fields_after(line, fields) {
            Some(found) => fields = found,
            None => return false,
        }
        start = end.saturating_add(1);
    }
    true
}
