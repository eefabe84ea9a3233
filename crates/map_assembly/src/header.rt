//! The header of a MAP.

ghost use Rattle.std.specs.Prelude.{◌≡◌};
ghost use Rattle.map_assembly.specs.Map.{frame_start, map_header};

use crate::view::MapHeader;
use plant::Channel;

/// Returns when a frame begins: the low 32 bits of the minislots before it.
fn frame_start(channel: Channel, frame: u32) -> u32
    ensures { result ≡ frame_start channel frame }
{
    frame.wrapping_mul(channel.frame_minislots as u32)
}

/// Returns the header of a frame's MAP with so many elements.
pub(crate) fn header_of(channel: Channel, frame: u32, elements: u8) -> MapHeader
    ensures { result ≡ map_header channel frame elements }
{
    let start = frame_start(channel, frame);
    MapHeader {
        channel: channel.id,
        ucd_count: channel.ucd_count,
        elements,
        alloc_start: start,
        ack_time: start,
        backoffs: channel.backoffs,
    }
}
