//! Bytes of a reader, one after the other.

ghost use Rattle.std.specs.Prelude.{IfOk};
ghost use Rattle.line_service.specs.Bytes.{Takes};

use std::io;
use std::io::Read;

/// Returns the next byte; none where the reader is at its end.
pub fn next_byte<R: Read>(reader: &mut R) -> io::Result<Option<u8>>
    ensures { IfOk result (λ byte. Takes (R.remaining reader.old) (R.remaining reader.new) byte) }
{
    let mut byte = [0u8; 1];
    if reader.read(&mut byte)? == 0 {
        return Ok(None);
    }
    Ok(Some(byte[0]))
}
