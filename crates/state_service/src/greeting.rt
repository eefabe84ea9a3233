//! The first line of the output.

ghost use Rattle.std.specs.Prelude.{◌+◌, OnOk};
ghost use Rattle.std.specs.Io.KnownBytes.{Appends};
ghost use Rattle.plant_core.specs.live.LiveView.{live_view};
ghost use Rattle.state_service.specs.Serving.{IsRestFrame, greeting};

use line_service::next_number;
use plant_core::LiveCore;
use std::io;
use std::io::Write;

/// Returns the frame before which a core rests, if it rests.
pub(crate) fn resting_frame(core: &LiveCore) -> Option<u32>
    ensures { IsRestFrame (live_view core.now) result }
{
    match core.resting_frame() {
        Ok(frame) => Some(frame),
        Err(_why) => None,
    }
}

/// Writes with which line a service goes on after so many lines, and before which frame, if the core rests.
pub(crate) fn write_greeting<W: Write>(
    writer: &mut W,
    count: u64,
    frame: Option<u32>,
) -> io::Result<()>
    ensures { OnOk result (Appends (W.contents writer.old) (W.contents writer.new) (greeting (count + 1) frame)) }
{
    let number = next_number(count)?;
    match frame {
        Some(frame) => write!(writer, "S line {number} frame {frame}\n")?,
        None => write!(writer, "S line {number}\n")?,
    }
    writer.flush()
}
