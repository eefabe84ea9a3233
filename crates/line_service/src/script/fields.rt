//! What is in a field of a script's line.

ghost use Rattle.std.specs.Prelude.{◌≡◌, ◌≤◌, [], ◌∷◌, map, MatchOption, IfOk, IfSome};
ghost use Rattle.lists.specs.Results.{result_map};
ghost use Rattle.line_service.specs.script.Fields.{three_of, decimal_in, number_in, short_in, message_bytes};
ghost use Rattle.line_service.specs.script.Lines.{line_fields};
ghost use Rattle.line_service.specs.declared.script.fields.FieldFault.TheVariants.{Invalid, NoMemory};

use crate::script::lines::{message_in, part};
use dsx_messages::Modem;
use memchr::memchr;
use std::alloc::{AllocError, AllocFailed, Global};
use tlv24::Bytes;

/// A number of a line, by what it says.
#[derive(Clone, Copy, Debug, PartialEq, Eq)]
pub enum NumberName {
    Sid,
    Minislots,
    Frame,
    Start,
    Length,
    Budget,
}

/// The first thing wrong with a line, from the left. Fields are counted from 0, the command.
#[derive(Clone, Copy, Debug, PartialEq, Eq)]
pub enum FieldError {
    /// The first field is not a command.
    UnknownCommand,
    /// The command needs another number of fields.
    FieldCount,
    /// Field 1 is not an address, 12 hexadecimal digits.
    Address,
    /// No operator lists the modem whose address is in field 1.
    UnknownModem {
        modem: Modem,
    },
    /// Field 2 is not a message, pairs of hexadecimal digits or a dash.
    Hexadecimal,
    /// No operator has the name in field 1.
    UnknownOperator,
    /// The field is not a slice, three numbers separated by slashes.
    SliceParts {
        field: usize,
    },
    /// The number in the field is not decimal, or is greater than its limit.
    Number {
        field: usize,
        name: NumberName,
        limit: u32,
    },
    /// The number in the field has more digits than it may have.
    DigitCount {
        field: usize,
        name: NumberName,
        digits: usize,
    },
    /// The line has more bytes than its reader takes.
    TooLong,
}

/// Why a line of a script says no steps.
#[derive(Clone, Copy, Debug, PartialEq, Eq)]
pub enum FieldFault {
    /// The line is invalid, and this is the first thing wrong with it.
    Invalid(FieldError),
    /// Memory ran out before any effect.
    NoMemory,
}

impl From<FieldError> for FieldFault {
    ghost from_gives = { λ error fault. fault ≡ Invalid error };

    fn from(error: FieldError) -> FieldFault {
        FieldFault::Invalid(error)
    }
}

impl From<AllocError> for FieldFault {
    ghost from_gives = { λ _ fault. fault ≡ NoMemory };

    fn from(_error: AllocError) -> FieldFault {
        FieldFault::NoMemory
    }
}

impl<T: Drop> From<AllocFailed<T>> for FieldFault {
    ghost from_gives = { λ _ fault. fault ≡ NoMemory };

    fn from(_error: AllocFailed<T>) -> FieldFault {
        FieldFault::NoMemory
    }
}

/// Returns a line in two at its first space: what is before it and what after it. None where it has
/// none.
#[tactic(auto, using(crate::proofs::ScriptLemmas::Splits::halves_of, crate::proofs::ScriptLemmas::Splits::whole_of))]
pub fn halves(line: &[u8]) -> Option<(&[u8], &[u8])>
    ensures { MatchOption result (line_fields line.now ≡ line.now ∷ [])
        (λ p. line_fields line.now ≡ p.0.now ∷ line_fields p.1.now) }
{
    match memchr(b' ', line) {
        Some(place) => Some((part(line, 0, place), part(line, place + 1, line.len()))),
        None => None,
    }
}

/// Returns a line in two as by `halves`, with no search where its first field is of one byte, as
/// that of most lines is.
#[tactic(auto, using(crate::proofs::ScriptLemmas::Splits::word_of))]
#[inline(always)]
pub fn word_and_rest(line: &[u8]) -> Option<(&[u8], &[u8])>
    ensures { MatchOption result (line_fields line.now ≡ line.now ∷ [])
        (λ p. line_fields line.now ≡ p.0.now ∷ line_fields p.1.now) }
{
    if line.len() > 1 && line[0] != b' ' && line[1] == b' ' {
        Some((part(line, 0, 1), part(line, 2, line.len())))
    } else {
        halves(line)
    }
}

/// Returns three fields, if there are just three, otherwise the error.
pub fn three_of<'a>(
    error: FieldError,
    fields: &[&'a [u8]],
) -> Result<(&'a [u8], &'a [u8], &'a [u8]), FieldError>
    ensures { result_map (λ p. (p.0.now, p.1.now, p.2.now)) result ≡ three_of error (map (λ field. field.now) fields.now) }
{
    match fields {
        [a, b, c] => Ok((*a, *b, *c)),
        _ => Err(error),
    }
}

/// Returns the number of decimal digits, if it is at most `most`. Leading zeros are digits.
#[inline(always)]
fn decimal_in(most: u32, text: &[u8]) -> Option<u32>
    ensures value { result ≡ decimal_in most text.now }
    ensures bound { IfSome result (λ number. number ≤ most) }
{
    if text.is_empty() {
        return None;
    }
    let mut number = 0u64;
    for digit in text {
        if !digit.is_ascii_digit() {
            return None;
        }
        number = number * 10 + (*digit - b'0') as u64;
        if number > most as u64 {
            return None;
        }
    }
    Some(number as u32)
}

/// Returns a decimal number of at most so many digits, and at most `limit`.
#[inline(always)]
pub fn number_in(
    field: usize,
    name: NumberName,
    digits: usize,
    limit: u32,
    text: &[u8],
) -> Result<u32, FieldError>
    ensures value { result ≡ number_in field name digits limit text.now }
    ensures bound { IfOk result (λ number. number ≤ limit) }
{
    let Some(number) = decimal_in(limit, text) else {
        return Err(FieldError::Number { field, name, limit });
    };
    if text.len() > digits {
        return Err(FieldError::DigitCount {
            field,
            name,
            digits,
        });
    }
    Ok(number)
}

/// Returns a decimal number of 1 to 5 digits, at most 65,535.
#[inline(always)]
pub fn short_in(field: usize, name: NumberName, text: &[u8]) -> Result<u16, FieldError>
    ensures { result ≡ short_in field name text.now }
{
    let number = number_in(field, name, 5, 65535, text)?;
    Ok(number as u16)
}

/// Returns the bytes of a message: `-` for none, else hexadecimal. None where the text is not a
/// message.
#[inline(always)]
pub fn message_bytes(alloc: Global, text: &[u8]) -> Result<Option<Bytes>, AllocError>
    ensures { IfOk result (λ bytes. bytes ≡ message_bytes text.now) }
{
    if text.is_empty() {
        return Ok(None);
    }
    message_in(alloc, text)
}
