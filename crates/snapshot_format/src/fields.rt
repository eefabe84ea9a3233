//! The fields of a line.

ghost use Rattle.std.specs.Prelude.{◌≡◌, ◌==◌, ◌≤◌, ◌<◌, length, position, IfOk, IfSome};
ghost use Rattle.hex.specs.Hex.{decode_sized};
ghost use Rattle.lists.specs.Results.{result_map, Gives};
ghost use Rattle.snapshot_format.specs.declared.fault.ReadFault.TheVariants.{Stopped};
ghost use Rattle.snapshot_format.specs.Reading.{read_cause};
ghost use Rattle.snapshot_format.specs.Fields.{take_literal, take_presence, take_field, parse_number, take_number, parse_name, take_name, address_of, take_modem, take_bytes};

use crate::fault::{ReadFault, ReadStop, Wrong};
use dsx_messages::Modem;
use hex::{FromHexError, decode, decode_to_slice};
use plant::OperatorName;
use std::alloc::Global;
use tlv24::Bytes;

/// Returns that reading stops at these bytes.
pub(crate) fn stop_at(wrong: Wrong, bytes: &[u8]) -> ReadFault
    ensures { result ≡ Stopped (record { wrong = wrong; left = length bytes.now }) }
{
    ReadFault::Stopped(ReadStop {
        wrong,
        left: bytes.len(),
    })
}

/// Returns the bytes after a literal.
#[tactic(auto, unfolding(crate::specs::Fields::take_literal))]
pub(crate) fn take_literal<'a>(bytes: &'a [u8], literal: &[u8]) -> Result<&'a [u8], ReadFault>
    ensures { Gives read_cause (λ rest. rest.now) result (take_literal literal.now bytes.now) }
{
    match bytes.strip_prefix(literal) {
        Some(rest) => Ok(rest),
        None if bytes.is_empty() => Err(stop_at(Wrong::Cut, bytes)),
        None => Err(stop_at(Wrong::Shape, bytes)),
    }
}

/// Returns whether a value follows, and what is after that mark.
#[tactic(auto, unfolding(crate::specs::Fields::take_presence))]
pub(crate) fn take_presence(bytes: &[u8], end: u8) -> Result<(bool, &[u8]), ReadFault>
    ensures { Gives read_cause (λ x. (x.0, x.1.now)) result (take_presence end bytes.now) }
{
    if let Some(rest) = bytes.strip_prefix(b"=") {
        return Ok((true, rest));
    }
    let rest = take_literal(bytes, &[b'-', end])?;
    Ok((false, rest))
}

/// Returns the offset of the byte that ends a field, if one does.
fn field_end(bytes: &[u8], end: u8) -> Option<usize>
    ensures value { result ≡ position (λ b. b == end) bytes.now }
    ensures within { IfSome result (λ place. place < length bytes.now) }
{
    bytes.iter().position(|byte| *byte == end)
}

/// Returns the bytes of a field, and those after the byte that ends it.
pub(crate) fn take_field(bytes: &[u8], end: u8) -> Result<(&[u8], &[u8]), ReadFault>
    ensures { Gives read_cause (λ x. (x.0.now, x.1.now)) result (take_field end bytes.now) }
{
    match field_end(bytes, end) {
        Some(place) => Ok((&bytes[..place], &bytes[place + 1..])),
        None => Err(stop_at(Wrong::Cut, bytes)),
    }
}

/// Returns a decimal number, at most `most`.
fn parse_number(most: u32, field: &[u8]) -> Result<u32, Wrong>
    ensures value { result ≡ parse_number most field.now }
    ensures bound { IfOk result (λ number. number ≤ most) }
{
    if field.is_empty() {
        return Err(Wrong::Shape);
    }
    let mut number = 0u64;
    for digit in field {
        if !digit.is_ascii_digit() {
            return Err(Wrong::Shape);
        }
        number = number * 10 + (*digit - b'0') as u64;
        if number > most as u64 {
            return Err(Wrong::Range);
        }
    }
    Ok(number as u32)
}

/// Returns the number in a field, at most `most`, and what is after the field.
#[tactic(auto, unfolding(crate::specs::Fields::take_number))]
pub(crate) fn take_number(bytes: &[u8], most: u32, end: u8) -> Result<(u32, &[u8]), ReadFault>
    ensures value { Gives read_cause (λ x. (x.0, x.1.now)) result (take_number most end bytes.now) }
    ensures bound { IfOk result (λ x. x.0 ≤ most) }
{
    let (field, rest) = take_field(bytes, end)?;
    match parse_number(most, field) {
        Ok(number) => Ok((number, rest)),
        Err(wrong) => Err(stop_at(wrong, bytes)),
    }
}

/// Returns the number of 32 bits in a field, and what is after the field.
pub(crate) fn take_long(bytes: &[u8], end: u8) -> Result<(u32, &[u8]), ReadFault>
    ensures { Gives read_cause (λ x. (x.0, x.1.now)) result (take_number 4294967295 end bytes.now) }
{
    take_number(bytes, u32::MAX, end)
}

/// Returns the number of 16 bits in a field, and what is after the field.
pub(crate) fn take_short(bytes: &[u8], end: u8) -> Result<(u16, &[u8]), ReadFault>
    ensures { Gives read_cause (λ x. (x.0, x.1.now)) result (take_number 65535 end bytes.now) }
{
    let (number, rest) = take_number(bytes, 65535, end)?;
    Ok((number as u16, rest))
}

/// Returns the number of 8 bits in a field, and what is after the field.
pub(crate) fn take_byte(bytes: &[u8], end: u8) -> Result<(u8, &[u8]), ReadFault>
    ensures { Gives read_cause (λ x. (x.0, x.1.now)) result (take_number 255 end bytes.now) }
{
    let (number, rest) = take_number(bytes, 255, end)?;
    Ok((number as u8, rest))
}

/// Returns the operator's name in a field, if it is one.
#[tactic(auto, unfolding(plant::specs::Name::is_operator_name))]
fn parse_name(field: &[u8]) -> Result<OperatorName, Wrong>
    ensures { result_map (λ name. name) result ≡ parse_name field.now }
{
    match OperatorName::new(field) {
        Some(name) => Ok(name),
        None => Err(Wrong::Shape),
    }
}

/// Returns the operator's name in a field, and what is after the field.
#[tactic(auto, unfolding(crate::specs::Fields::take_name))]
pub(crate) fn take_name(bytes: &[u8], end: u8) -> Result<(OperatorName, &[u8]), ReadFault>
    ensures { Gives read_cause (λ x. (x.0, x.1.now)) result (take_name end bytes.now) }
{
    let (field, rest) = take_field(bytes, end)?;
    match parse_name(field) {
        Ok(name) => Ok((name, rest)),
        Err(wrong) => Err(stop_at(wrong, bytes)),
    }
}

/// Returns the address of 12 hexadecimal digits in a field.
fn address_in(field: &[u8]) -> Result<Modem, Wrong>
    ensures { result ≡ address_of (decode_sized field.now 6) }
{
    let mut address_field = [0u8; 6];
    match decode_to_slice(field, &mut address_field) {
        Ok(()) => Ok(Modem(address_field)),
        Err(_fault) => Err(Wrong::Shape),
    }
}

/// Returns the address of a modem in a field, and what is after the field.
#[tactic(auto, unfolding(crate::specs::Fields::take_modem))]
pub(crate) fn take_modem(bytes: &[u8], end: u8) -> Result<(Modem, &[u8]), ReadFault>
    ensures { Gives read_cause (λ x. (x.0, x.1.now)) result (take_modem end bytes.now) }
{
    let (field, rest) = take_field(bytes, end)?;
    match address_in(field) {
        Ok(modem) => Ok((modem, rest)),
        Err(wrong) => Err(stop_at(wrong, bytes)),
    }
}

/// Returns the bytes in a field, if it has them, and what is after the field.
#[tactic(auto, unfolding(crate::specs::Fields::take_bytes))]
pub(crate) fn take_bytes(alloc: Global, bytes: &[u8], end: u8) -> Result<(Bytes, &[u8]), ReadFault>
    ensures { Gives read_cause (λ x. (x.0, x.1.now)) result (take_bytes end bytes.now) }
{
    let (field, rest) = take_field(bytes, end)?;
    if field == b"-".as_slice() {
        return Ok((Bytes::new(), rest));
    }
    match decode(alloc, field) {
        Ok(decoded) => Ok((Bytes::from_vec(decoded), rest)),
        Err(FromHexError::OutOfMemory) => Err(ReadFault::NoMemory),
        Err(_) => Err(stop_at(Wrong::Shape, bytes)),
    }
}
