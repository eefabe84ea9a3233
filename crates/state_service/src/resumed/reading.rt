//! Reading what is before the lines.

ghost use Rattle.std.specs.Prelude.{◌≡◌, Some, IfOk, OnOk, IfSome};
ghost use Rattle.state_service.specs.resumed.Beginning.{front_text, lines_after};

use crate::resumed::beginning::is_snapshot_head;
use line_service::read_to_bar;
use std::alloc::Global;
use std::io;
use std::io::Read;

/// The most bytes of a plant file.
const MOST_PLANT_BYTES: usize = 1_048_576;

/// The most bytes of a snapshot before its line of three dashes: the plant file, and a line before it.
const MOST_FRONT_BYTES: usize = 1_048_640;

/// The most bytes of a snapshot after that line.
const MOST_RECORD_BYTES: usize = 1_073_741_824;

/// Reads the text before the lines, and the line of three dashes that ends it: a plant file, or a snapshot, which has one such
/// line in itself. An error is one of the reader's, out of memory, or a text that is too long: a plant file of more than 1,048,576
/// bytes, or states of more than 1 GiB.
pub(crate) fn read_front<R: Read>(alloc: Global, reader: &mut R) -> io::Result<Vec<u8>>
    ensures text { IfOk result (λ text. IfSome (R.remaining reader.old) (λ input. text.items ≡ front_text input)) }
    ensures lines { OnOk result (IfSome (R.remaining reader.old) (λ input. R.remaining reader.new ≡ Some (lines_after input))) }
{
    let mut text = read_to_bar(alloc, reader, MOST_FRONT_BYTES)?;
    if !is_snapshot_head(text.as_slice()) {
        return if text.len() > MOST_PLANT_BYTES {
            Err(io::Error::from(io::ErrorKind::FileTooLarge))
        } else {
            Ok(text)
        };
    }
    let records = read_to_bar(alloc, reader, MOST_RECORD_BYTES)?;
    text.extend_from_slice(b"---\n")?;
    text.extend_from_slice(records.as_slice())?;
    Ok(text)
}
