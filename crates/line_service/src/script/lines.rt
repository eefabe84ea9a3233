//! The parts of bytes, and the messages in lines.

ghost use Rattle.std.specs.Prelude.{◌≡◌, ◌≤◌, ◌%◌, length, take, drop, map, IfOk, OnOk};
ghost use Rattle.std.specs.Result.{result_ok};
ghost use Rattle.hex.specs.Hex.{decode_of};
ghost use Rattle.line_service.specs.script.Lines.{parts_of};
ghost use Rattle.line_service.specs.script.Messages.{message_in, messages_of};
ghost use Rattle.lists.specs.Results.{Gives};
ghost use Rattle.line_service.specs.script.LineFault.{line_cause};
ghost use Rattle.line_service.specs.declared.script.lines.LineFault.TheVariants.{NoMemory};

use crate::script::unhex::decode_into;
use memchr::memchr;
use std::alloc::{AllocError, AllocFailed, Global};
use tlv24::{Bytes, ShortBytes};

/// Why lines do not hold messages.
#[derive(Clone, Copy, Debug, PartialEq, Eq)]
pub enum LineFault {
    /// The line of this number, counted from 1, is not a message.
    Shape { number: u64 },
    /// Memory ran out before any effect.
    NoMemory,
}

impl From<AllocError> for LineFault {
    ghost from_gives = { λ _ fault. fault ≡ NoMemory };

    fn from(_error: AllocError) -> LineFault {
        LineFault::NoMemory
    }
}

impl<T: Drop> From<AllocFailed<T>> for LineFault {
    ghost from_gives = { λ _ fault. fault ≡ NoMemory };

    fn from(_error: AllocFailed<T>) -> LineFault {
        LineFault::NoMemory
    }
}

/// Returns the bytes from a place up to another.
pub(crate) fn part(input: &[u8], start: usize, end: usize) -> &[u8]
    requires begun { start ≤ end }
    requires inside { end ≤ length input.now }
    ensures { result.now ≡ drop start (take end input.now) }
{
    let (front, _rest) = input.split_at(end);
    let (_before, line) = front.split_at(start);
    line
}

/// Returns the parts of bytes: each mark ends one, and the last has none after it.
pub fn parts_of(alloc: Global, mark: u8, input: &[u8]) -> Result<Vec<&[u8]>, AllocError>
    ensures { IfOk result (λ parts. map (λ part. part.now) parts.items ≡ parts_of mark input.now) }
{
    let mut parts = Vec::new(alloc);
    put_parts(mark, input, &mut parts)?;
    Ok(parts)
}

/// Splits bytes into parts, which replace those in `parts`.
pub fn put_parts<'a>(mark: u8, input: &'a [u8], parts: &mut Vec<&'a [u8]>) -> Result<(), AllocError>
    ensures { OnOk result (map (λ part. part.now) parts.new.items ≡ parts_of mark input.now) }
{
    parts.clear();
    let mut rest = input;
    while let Some(place) = memchr(mark, rest) {
        parts.push(part(rest, 0, place))?;
        rest = part(rest, place + 1, rest.len());
    }
    parts.push(rest)?;
    Ok(())
}

/// Returns the bytes that at most 60 digits say; none where one is not a digit. Takes no memory.
#[inline(always)]
fn short_message(digits: &[u8]) -> Option<ShortBytes>
    requires pairs { length digits.now % 2 ≡ 0 }
    requires few { length digits.now ≤ 60 }
    ensures { result ≡ result_ok (decode_of digits.now) }
{
    let mut room = [0u8; 30];
    let count = digits.len() / 2;
    if decode_into(digits, &mut room[..count]) {
        ShortBytes::from_slice(&room[..count])
    } else {
        None
    }
}

/// Returns the bytes that digits say; none where one is not a digit.
fn long_message(alloc: Global, digits: &[u8]) -> Result<Option<Bytes>, AllocError>
    requires { length digits.now % 2 ≡ 0 }
    ensures { IfOk result (λ message. message ≡ result_ok (decode_of digits.now)) }
{
    let mut bytes = vec![in alloc; 0u8; digits.len() / 2]?;
    if decode_into(digits, bytes.as_mut_slice()) {
        Ok(Some(Bytes::from_vec(bytes)))
    } else {
        Ok(None)
    }
}

/// Returns the message in a line that is not empty; none where it is not a message. A message of at
/// most 30 bytes takes no memory.
#[inline(always)]
pub fn message_in(alloc: Global, line: &[u8]) -> Result<Option<Bytes>, AllocError>
    ensures { IfOk result (λ message. message ≡ message_in line.now) }
{
    if line == b"-".as_slice() {
        return Ok(Some(Bytes::new()));
    }
    if line.len() % 2 == 1 {
        return Ok(None);
    }
    if line.len() <= 60 {
        return match short_message(line) {
            Some(bytes) => Ok(Some(Bytes::from_short(bytes))),
            None => Ok(None),
        };
    }
    long_message(alloc, line)
}

/// Returns the messages in lines; empty lines are counted and say nothing.
pub fn messages_of(alloc: Global, lines: &[&[u8]]) -> Result<Vec<Bytes>, LineFault>
    ensures { Gives line_cause (λ messages. messages.items) result (messages_of (map (λ line. line.now) lines.now)) }
{
    let mut messages = Vec::new(alloc);
    let mut number = 1u64;
    for line in lines {
        if !line.is_empty() {
            let Some(message) = message_in(alloc, line)? else {
                return Err(LineFault::Shape { number });
            };
            messages.push(message)?;
        }
        number += 1;
    }
    Ok(messages)
}
