//! The first bytes of an input, by which a snapshot is known.

ghost use Rattle.std.specs.Prelude.{IfOk};
ghost use Rattle.line_service.specs.Bytes.{WhereKnown};
ghost use Rattle.program_runner.specs.Heads.{IsHeadRead};

use line_service::next_byte;
use std::alloc::Global;
use std::io;
use std::io::Read;

/// The first bytes of a snapshot of any version.
const SNAPSHOT_HEAD: &[u8; 18] = b"melfjits-snapshot ";

/// Reads as many first bytes of an input as show whether it begins as a snapshot does: up to the first one that differs. An error is
/// one of the reader's, or out of memory before the first byte is read.
pub(crate) fn read_head<R: Read>(alloc: Global, reader: &mut R) -> io::Result<Vec<u8>>
    ensures { IfOk result (λ head. WhereKnown (R.remaining reader.old) (R.remaining reader.new) (λ input rest. IsHeadRead input rest head.items)) }
{
    let mut head = Vec::with_capacity(alloc, SNAPSHOT_HEAD.len())?;
    for expected in SNAPSHOT_HEAD {
        let Some(byte) = next_byte(reader)? else {
            return Ok(head);
        };
        head.push(byte)?;
        if byte != *expected {
            return Ok(head);
        }
    }
    Ok(head)
}
