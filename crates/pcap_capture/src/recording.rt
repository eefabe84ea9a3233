//! The bytes of a capture file.

ghost use Rattle.std.specs.Prelude.{◌≡◌, ◌≤◌, ◌++◌, Some, length, IfOk, OnOk};
ghost use Rattle.pcap_capture.specs.Frames.{frame_of};
ghost use Rattle.pcap_capture.specs.File.{packet_frame, next_after, word_bytes, record_of, records_from, file_header, file_of};

use crate::clock::Clock;
use crate::framing::frame_of;
use crate::packet::Packet;
use std::alloc::{AllocError, Global};

/// The header of a file: pcap 2.4, microseconds, frames of up to 65,541 bytes, DOCSIS.
const FILE_HEADER: [u8; 24] = [
    0xD4, 0xC3, 0xB2, 0xA1, 2, 0, 4, 0, 0, 0, 0, 0, 0, 0, 0, 0, 0x05, 0x00, 0x01, 0x00, 143, 0, 0,
    0,
];

/// Adds the header of a file.
fn put_file_header(file: &mut Vec<u8>) -> Result<(), AllocError>
    ensures { OnOk result (file.new.items ≡ file.old.items ++ file_header) }
{
    file.extend_from_slice(&FILE_HEADER)?;
    Ok(())
}

/// Adds 32 bits, the low byte first.
#[tactic(auto, unfolding(crate::specs::File::word_bytes))]
fn put_word(file: &mut Vec<u8>, number: u32) -> Result<(), AllocError>
    ensures { OnOk result (file.new.items ≡ file.old.items ++ word_bytes number) }
{
    file.extend_from_slice(&number.to_le_bytes())?;
    Ok(())
}

/// Adds the record of a frame, so many microseconds from the begin of frame 0.
fn put_record(file: &mut Vec<u8>, microseconds: u64, frame: &[u8]) -> Result<(), AllocError>
    requires { length frame.now ≤ 65541 }
    ensures { OnOk result (file.new.items ≡ file.old.items ++ record_of microseconds (Some frame.now)) }
{
    let length = frame.len() as u32;
    put_word(file, (microseconds / 1_000_000 % 4_294_967_296) as u32)?;
    put_word(file, (microseconds % 1_000_000) as u32)?;
    put_word(file, length)?;
    put_word(file, length)?;
    file.extend_from_slice(frame)?;
    Ok(())
}

/// Adds the record of a packet, if it has a frame.
fn put_packet(
    alloc: Global,
    file: &mut Vec<u8>,
    microseconds: u64,
    packet: &Packet,
) -> Result<(), AllocError>
    ensures { OnOk result (file.new.items ≡ file.old.items ++ record_of microseconds (frame_of packet.now)) }
{
    match frame_of(alloc, packet)? {
        Some(frame) => put_record(file, microseconds, frame.as_slice()),
        None => Ok(()),
    }
}

/// Returns the frame at whose begin a packet exists: a MAP's own, else that whose MAP comes next.
fn packet_frame(next: u64, packet: &Packet) -> u64
    requires { next ≤ 4294967296 }
    ensures value { result ≡ packet_frame next packet.now }
    ensures bound { result ≤ 4294967296 }
{
    match packet {
        Packet::Map { frame, bytes: _ } => *frame as u64,
        _ => next,
    }
}

/// Returns the frame whose MAP comes next after a packet.
fn next_after(next: u64, packet: &Packet) -> u64
    requires { next ≤ 4294967296 }
    ensures value { result ≡ next_after next packet.now }
    ensures bound { result ≤ 4294967296 }
{
    match packet {
        Packet::Map { frame, bytes: _ } => *frame as u64 + 1,
        _ => next,
    }
}

/// Adds the records of packets.
fn put_records(
    alloc: Global,
    file: &mut Vec<u8>,
    clock: Clock,
    packets: &[Packet],
) -> Result<(), AllocError>
    ensures { OnOk result (file.new.items ≡ file.old.items
        ++ records_from clock.frame_us clock.first_frame packets.now) }
{
    let mut next = clock.first_frame as u64;
    for packet in packets {
        let microseconds = packet_frame(next, packet) * clock.frame_us as u64;
        put_packet(alloc, file, microseconds, packet)?;
        next = next_after(next, packet);
    }
    Ok(())
}

/// Returns the capture of packets.
pub(crate) fn file_of(
    alloc: Global,
    clock: Clock,
    packets: &[Packet],
) -> Result<Vec<u8>, AllocError>
    ensures { IfOk result (λ file. file.items ≡ file_of clock packets.now) }
{
    let mut file = Vec::new(alloc);
    put_file_header(&mut file)?;
    put_records(alloc, &mut file, clock, packets)?;
    Ok(file)
}
