//! Frames.

ghost use Rattle.std.specs.Prelude.{◌≡◌, ◌≤◌, length, IfOk, IfSome};
ghost use Rattle.std.specs.Option.{option_map};
ghost use Rattle.pcap_capture.specs.Management.{mac_header, mac_frame};
ghost use Rattle.pcap_capture.specs.Frames.{frame_of};

use crate::checks::{frame_check, header_check};
use crate::managed::{Management, managed_of};
use crate::packet::Packet;
use std::alloc::{AllocError, Global};

/// Returns the MAC header before its check.
fn mac_header(count: u16) -> [u8; 4]
    ensures { result ≡ mac_header count }
{
    let [high, low] = count.to_be_bytes();
    [0xC2, 0x00, high, low]
}

/// Returns the frame of a management message.
fn mac_frame(alloc: Global, message: &Management<'_>) -> Result<Vec<u8>, AllocError>
    ensures value { IfOk result (λ frame. frame.items ≡ mac_frame message.now) }
    ensures short { IfOk result (λ frame. length frame.items ≤ 65541) }
{
    let header = mac_header(message.count());
    let body = message.body(alloc)?;
    let mut frame = Vec::with_capacity(alloc, 10 + body.len())?;
    frame.extend_from_slice(&header)?;
    frame.extend_from_slice(&header_check(&header))?;
    frame.extend_from_slice(body.as_slice())?;
    frame.extend_from_slice(&frame_check(body.as_slice()))?;
    Ok(frame)
}

/// Returns the frame of a packet, if it can have one.
pub(crate) fn frame_of(alloc: Global, packet: &Packet) -> Result<Option<Vec<u8>>, AllocError>
    ensures value { IfOk result (λ frame. option_map (λ f. f.items) frame ≡ frame_of packet.now) }
    ensures short { IfOk result (λ frame. IfSome frame (λ f. length f.items ≤ 65541)) }
{
    match managed_of(packet) {
        Some(message) => Ok(Some(mac_frame(alloc, &message)?)),
        None => Ok(None),
    }
}
