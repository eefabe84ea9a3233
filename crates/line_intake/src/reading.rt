//! Reading a line of bounded length.

ghost use Rattle.std.specs.Prelude.{◌≤◌, length, IfOk, IfSome, OnOk};

use fair_queue::MOST_LINE_BYTES;
use memchr::memchr;
use std::alloc::{AllocError, Global};
use std::io;
use std::io::BufRead;

/// The most bytes of a line that are kept: one more than a line may have, so that a line that is too long stays too long.
pub(crate) const MOST_KEPT: usize = MOST_LINE_BYTES + 1;

/// Holds how many bytes belong to a line, and whether a line feed ends it.
#[derive(Clone, Copy, Debug, PartialEq, Eq)]
struct InputPart {
    /// The number of bytes, with the line feed.
    count: usize,
    is_end: bool,
}

/// Adds the bytes up to a line feed, or all, to the line that is being read, unless enough of it is kept.
fn add_part(line: &mut Vec<u8>, bytes: &[u8]) -> Result<InputPart, AllocError>
    ensures count { IfOk result (λ part. part.count ≤ length bytes.now) }
    ensures bound { OnOk result (length line.old.items ≤ 4097 → length line.new.items ≤ 4097) }
{
    let (added, part) = match memchr(b'\n', bytes) {
        Some(place) => (
            place,
            InputPart {
                count: place + 1,
                is_end: true,
            },
        ),
        None => (
            bytes.len(),
            InputPart {
                count: bytes.len(),
                is_end: false,
            },
        ),
    };
    let room = MOST_KEPT.saturating_sub(line.len());
    line.extend_from_slice(&bytes[..added.min(room)])?;
    Ok(part)
}

/// Reads a line without its line feed, or none at the end of the input. What follows the last line feed is a line too. Of a line that is
/// too long the first 4,097 bytes are kept.
pub fn read_line<B: BufRead>(alloc: Global, reader: &mut B) -> io::Result<Option<Vec<u8>>>
    ensures { IfOk result (λ read. IfSome read (λ line. length line.items ≤ 4097)) }
{
    let mut line = Vec::new(alloc);
    let mut is_begun = false;
    for _ in 0..u64::MAX {
        let bytes = reader.fill_buf()?;
        if bytes.is_empty() {
            if is_begun {
                return Ok(Some(line));
            }
            return Ok(None);
        }
        is_begun = true;
        let part = add_part(&mut line, bytes)?;
        reader.consume(part.count);
        if part.is_end {
            return Ok(Some(line));
        }
    }
    Err(io::Error::from(io::ErrorKind::Other))
}
