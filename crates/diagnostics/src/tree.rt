//! The values at places of a plant file that is TOML.

use slice_table::{Field, Place};
use toml::{Table, Value};

/// Returns the value at a table's place.
pub(crate) fn value_at(document: &Table, place: Place) -> Option<&Value> {
    match place {
        Place::Plant => document.get("plant"),
        Place::Class(class) => values(document, "class").get(class),
        Place::Operator(operator) => values(document, "operator").get(operator),
        Place::Flow(operator, flow) => match values(document, "operator").get(operator) {
            Some(value) => values_below(value, "flow").get(flow),
            None => None,
        },
    }
}

/// Returns the table at a place.
pub(crate) fn table_at(document: &Table, place: Place) -> Option<&Table> {
    value_at(document, place)?.as_table()
}

/// Returns the number of 0 or more that a value is.
pub(crate) fn natural(value: &Value) -> Option<u64> {
    match value.as_integer() {
        Some(number) if number >= 0 => Some(number as u64),
        _ => None,
    }
}

/// Returns the number of 0 or more under a key.
pub(crate) fn number(table: &Table, field: Field) -> Option<u64> {
    natural(table.get(field.text())?)
}

/// Returns the two numbers that a value is.
pub(crate) fn pair_in(value: &Value) -> Option<(u64, u64)> {
    let [a, b] = values_in(value) else {
        return None;
    };
    match (natural(a), natural(b)) {
        (Some(a), Some(b)) => Some((a, b)),
        _ => None,
    }
}

/// Returns the two numbers under a key.
pub(crate) fn pair(table: &Table, field: Field) -> Option<(u64, u64)> {
    pair_in(table.get(field.text())?)
}

/// Returns the values of an array; none where there is no such array.
pub(crate) fn values<'a>(table: &'a Table, name: &str) -> &'a [Value] {
    match table.get(name) {
        Some(value) => values_in(value),
        None => &[],
    }
}

/// Returns the values of an array; none where the value is not an array.
pub(crate) fn values_in(value: &Value) -> &[Value] {
    match value.as_array() {
        Some(values) => values.as_slice(),
        None => &[],
    }
}

/// Returns the values of an array of a table; none where it is not a table, or has no such array.
pub(crate) fn values_below<'a>(value: &'a Value, name: &str) -> &'a [Value] {
    match value.as_table() {
        Some(table) => values(table, name),
        None => &[],
    }
}

/// Returns the text under a key.
pub(crate) fn text(table: &Table, field: Field) -> Option<&str> {
    table.get(field.text())?.as_str()
}

/// Returns whether a value is a table of this name.
fn is_called(value: &Value, name: &str) -> bool {
    match value.as_table() {
        Some(table) => text(table, Field::Name) == Some(name),
        None => false,
    }
}

/// Returns the place of the first table that has this name.
pub(crate) fn place_of(values: &[Value], name: &str) -> Option<usize> {
    for (place, value) in values.iter().enumerate() {
        if is_called(value, name) {
            return Some(place);
        }
    }
    None
}

/// Returns the first table of an array that has this name.
pub(crate) fn table_named<'a>(document: &'a Table, array: &str, name: &str) -> Option<&'a Table> {
    let values = values(document, array);
    values.get(place_of(values, name)?)?.as_table()
}
