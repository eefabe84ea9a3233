//! The bytes of the file in memory.
ghost use Rattle.std.specs.Prelude.{◌≡◌, ◌≤◌, length, OnOk, OnErr};
ghost use Rattle.line_journal.specs.Device.{IsOverwritten};

use std::alloc::AllocError;

/// Writes over bytes from an offset on, and past the end. An error changes nothing.
pub(crate) fn overwrite(mirror: &mut Vec<u8>, at: usize, bytes: &[u8]) -> Result<(), AllocError>
    requires { at ≤ length mirror.old.items }
    ensures ok { OnOk result (IsOverwritten mirror.old.items at bytes.now mirror.new.items) }
    ensures err { OnErr result (mirror.new.items ≡ mirror.old.items) }
{
    let room = mirror.len() - at;
    if bytes.len() <= room {
        mirror[at..at + bytes.len()].copy_from_slice(bytes);
        return Ok(());
    }
    let (over, behind) = bytes.split_at(room);
    mirror.extend_from_slice(behind)?;
    mirror[at..at + room].copy_from_slice(over);
    Ok(())
}
