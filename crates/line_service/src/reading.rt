//! Reading a line of an input, as much at a time as the reader has at hand.

ghost use Rattle.std.specs.Prelude.{◌≤◌, ◌++◌, [], List, ℕ, Option, drop, length, IfOk};
ghost use Rattle.line_service.specs.Bytes.{WhereKnown};
ghost use Rattle.line_service.specs.Lines.{IsPartRead, IsMoreRead, IsLineRead};
ghost use Rattle.line_service.specs.SoFar.{IsHeld};

use crate::line_break::LineBreak;
use crate::line_buffer::LineBuffer;
use memchr::memchr;
use std::alloc::AllocError;
use std::io;
use std::io::BufRead;

/// What a reader has at hand of a line.
#[derive(Clone, Copy, Debug, PartialEq, Eq)]
struct LinePart {
    /// How many bytes these are, with the line feed that ends the line.
    count: usize,
    /// What is after the line, if that ends it.
    end: Option<LineBreak>,
}

/// Adds bytes to the line that is being read, up to the line feed that ends it or all of them.
#[tactic(auto, using(crate::proofs::ReadLemmas::line_broken, crate::proofs::ReadLemmas::part_read))]
fn take_part(held: &mut LineBuffer, bytes: &[u8]) -> Result<LinePart, AllocError>
    ensures count { IfOk result (λ part. part.count ≤ length bytes.now) }
    ensures read { IfOk result (λ part. (input rest : List ℕ)
        → IsPartRead input (bytes.now ++ rest) held.old.bytes.items held.old.is_long
        → IsMoreRead input (drop part.count bytes.now ++ rest) held.new.bytes.items held.new.is_long part.end) }
{
    match memchr(b'\n', bytes) {
        Some(place) => {
            held.extend(&bytes[..place])?;
            Ok(LinePart {
                count: place + 1,
                end: Some(LineBreak::Another),
            })
        }
        None => {
            held.extend(bytes)?;
            Ok(LinePart {
                count: bytes.len(),
                end: None,
            })
        }
    }
}

/// Adds what the reader has at hand to the line that is being read, up to its end. It reads if the reader has nothing at hand.
/// Returns what is after the line, if it is read.
fn read_part<R: BufRead>(reader: &mut R, held: &mut LineBuffer) -> io::Result<Option<LineBreak>>
    ensures { IfOk result (λ end. (known : Option (List ℕ))
        → WhereKnown known (R.remaining reader.old) (λ input rest. IsPartRead input rest held.old.bytes.items held.old.is_long)
        → WhereKnown known (R.remaining reader.new) (λ input rest. IsMoreRead input rest held.new.bytes.items held.new.is_long end)) }
{
    let bytes = reader.fill_buf()?;
    if bytes.is_empty() {
        return Ok(Some(LineBreak::End));
    }
    let part = take_part(held, bytes)?;
    reader.consume(part.count);
    Ok(part.end)
}

/// Reads a line, which is held then. Returns what is after it. Nothing after its line feed is taken from the reader. An error is one of
/// the reader's, or out of memory.
pub fn read_line<R: BufRead>(reader: &mut R, held: &mut LineBuffer) -> io::Result<LineBreak>
    requires { IsHeld held.old.bytes.items held.old.is_long [] }
    // The first line that is left, with the line feed that ends it; of one of more than 4,096 bytes, that it is longer.
    ensures { IfOk result (λ end. WhereKnown (R.remaining reader.old) (R.remaining reader.new)
        (λ input rest. IsLineRead input rest held.new.bytes.items held.new.is_long end)) }
{
    for _ in 0..u64::MAX {
        if let Some(end) = read_part(reader, held)? {
            return Ok(end);
        }
    }
    Err(io::Error::from(io::ErrorKind::Other))
}
