//! What is under a key of a TOML table.

ghost use Rattle.std.specs.Prelude.{◌≡◌, ◌≤◌, option_map, Some, IfOk};
ghost use Rattle.toml.specs.Data.{get_member, as_array, as_table};
ghost use Rattle.toml.specs.View.{view, table_view, items_view};
ghost use Rattle.lists.specs.Results.{result_map, Gives};
ghost use Rattle.slice_table.specs.Tree.{plant_cause, required_value, expected_value, array_at, modem_at, at_field, natural, number_of, number_at, number_of_key, pair_in, pair_at, text_at, bytes_at, modem_of, table_of};
ghost use Rattle.slice_table.specs.Ranges.{range_of, default_of};
ghost use Rattle.slice_table.specs.declared.plant_key.Key.TheVariants.{Entry};

use crate::plant_fault::PlantFault;
use crate::plant_key::{Field, Key, Place};
use crate::ranges::{default_of, range_of};
use dsx_messages::Modem;
use hex::{FromHex, FromHexError};
use std::alloc::Global;
use toml::{Table, Value};

/// Returns what is under a key of this name.
pub(crate) fn entry<'a>(table: &'a Table, name: &str) -> Option<&'a Value>
    ensures { option_map (λ v. view v.now) result ≡ get_member name.now (table_view table.now) }
{
    table.get(name)
}

/// Returns what is under a key that is required.
fn required_value(table: &Table, place: Place, field: Field) -> Result<&Value, PlantFault>
    ensures { result_map (λ v. view v.now) result ≡ required_value (Entry place field) (at_field field (table_view table.now)) }
{
    match entry(table, field.text()) {
        Some(value) => Ok(value),
        None => Err(PlantFault::Missing {
            key: Key::Entry(place, field),
        }),
    }
}

/// Returns the number of 0 or more that a value is.
fn natural(value: &Value) -> Option<u64>
    ensures { result ≡ natural (view value.now) }
{
    match value.as_integer() {
        Some(n) if n >= 0 => Some(n as u64),
        _ => None,
    }
}

/// Returns a number from `low` to `high`.
#[tactic(auto, unfolding(crate::specs::Tree::number_of))]
fn number_of(value: &Value, key: Key, low: u32, high: u32) -> Result<u32, PlantFault>
    ensures value { result ≡ number_of key low high (view value.now) }
    ensures in_range { IfOk result (λ n. (low ≤ n) × (n ≤ high)) }
{
    match natural(value) {
        Some(n) if u64::from(low) <= n && n <= u64::from(high) => Ok(n as u32),
        _ => Err(PlantFault::BadValue { key }),
    }
}

/// Returns the number from `low` to `high` under a key that is required.
#[tactic(auto, unfolding(crate::specs::Tree::number_at))]
pub(crate) fn number_at(
    table: &Table,
    place: Place,
    field: Field,
    low: u32,
    high: u32,
) -> Result<u32, PlantFault>
    ensures value { result ≡ number_at place field low high (table_view table.now) }
    ensures in_range { IfOk result (λ n. (low ≤ n) × (n ≤ high)) }
{
    let value = required_value(table, place, field)?;
    number_of(value, Key::Entry(place, field), low, high)
}

/// Returns the number under a key, of the key's range, and the key's default where it is not there.
#[tactic(auto, unfolding(crate::specs::Tree::number_of_key))]
pub(crate) fn number_of_key(table: &Table, place: Place, field: Field) -> Result<u32, PlantFault>
    ensures value { result ≡ number_of_key place field (table_view table.now) }
    ensures in_range { IfOk result (λ n. ((range_of field).low ≤ n) × (n ≤ (range_of field).high)) }
{
    let key = Key::Entry(place, field);
    let range = range_of(field);
    match entry(table, field.text()) {
        Some(value) => number_of(value, key, range.low, range.high),
        None => default_of(field).ok_or(PlantFault::Missing { key }),
    }
}

/// Returns the two numbers that an array is.
fn pair_in(values: &[Value]) -> Option<(u64, u64)>
    ensures { result ≡ pair_in (items_view values.now) }
{
    match values {
        [a, b] => {
            let a = natural(a)?;
            let b = natural(b)?;
            Some((a, b))
        }
        _ => None,
    }
}

/// Returns the values of an array.
pub(crate) fn array_of(value: &Value, key: Key) -> Result<&[Value], PlantFault>
    ensures { result_map (λ vs. items_view vs.now) result ≡ expected_value key (as_array (view value.now)) }
{
    match value.as_array() {
        Some(values) => Ok(values.as_slice()),
        None => Err(PlantFault::BadValue { key }),
    }
}

/// Returns the values of the array under a key that is required.
#[tactic(auto, unfolding(crate::specs::Tree::array_at))]
pub(crate) fn array_at(table: &Table, place: Place, field: Field) -> Result<&[Value], PlantFault>
    ensures { result_map (λ vs. items_view vs.now) result ≡ array_at place field (table_view table.now) }
{
    let value = required_value(table, place, field)?;
    array_of(value, Key::Entry(place, field))
}

/// Returns the two numbers under a key that is required.
#[tactic(auto, unfolding(crate::specs::Tree::pair_at))]
pub(crate) fn pair_at(table: &Table, place: Place, field: Field) -> Result<(u64, u64), PlantFault>
    ensures { result ≡ pair_at place field (table_view table.now) }
{
    let values = array_at(table, place, field)?;
    pair_in(values).ok_or(place.wrong(field))
}

/// Returns the text under a key that is required.
#[tactic(auto, unfolding(crate::specs::Tree::text_at))]
pub(crate) fn text_at(table: &Table, place: Place, field: Field) -> Result<&str, PlantFault>
    ensures { result_map (λ s. s.now) result ≡ text_at place field (table_view table.now) }
{
    let value = required_value(table, place, field)?;
    match value.as_str() {
        Some(text) => Ok(text),
        None => Err(place.wrong(field)),
    }
}

/// Returns the bytes under a key that is required, which are written in hexadecimal.
#[tactic(auto, unfolding(crate::specs::Tree::bytes_at))]
pub(crate) fn bytes_at(
    alloc: Global,
    table: &Table,
    place: Place,
    field: Field,
) -> Result<Vec<u8>, PlantFault>
    ensures { Gives plant_cause (λ v. v.items) result (bytes_at place field (table_view table.now)) }
{
    let text = text_at(table, place, field)?;
    match hex::decode(alloc, text) {
        Ok(bytes) => Ok(bytes),
        Err(FromHexError::OutOfMemory) => Err(PlantFault::NoMemory),
        Err(_) => Err(place.wrong(field)),
    }
}

/// Returns the address of a modem.
#[tactic(auto, unfolding(crate::specs::Tree::modem_of))]
pub(crate) fn modem_of(value: &Value, key: Key) -> Result<Modem, PlantFault>
    ensures { result ≡ modem_of key (view value.now) }
{
    let Some(text) = value.as_str() else {
        return Err(PlantFault::BadValue { key });
    };
    match <[u8; 6] as FromHex>::from_hex(text) {
        Ok(address) => Ok(Modem(address)),
        Err(_) => Err(PlantFault::BadValue { key }),
    }
}

/// Returns the address of a modem under a key that is required.
#[tactic(auto, unfolding(crate::specs::Tree::modem_at))]
pub(crate) fn modem_at(table: &Table, place: Place, field: Field) -> Result<Modem, PlantFault>
    ensures { result ≡ modem_at place field (table_view table.now) }
{
    let value = required_value(table, place, field)?;
    modem_of(value, Key::Entry(place, field))
}

/// Returns the table that a value is.
#[tactic(auto, unfolding(crate::specs::Tree::table_of))]
pub(crate) fn table_of(value: &Value, place: Place) -> Result<&Table, PlantFault>
    ensures { result_map (λ t. table_view t.now) result ≡ table_of place (view value.now) }
{
    match value.as_table() {
        Some(table) => Ok(table),
        None => Err(PlantFault::BadValue {
            key: Key::Table(place),
        }),
    }
}
