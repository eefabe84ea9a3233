//! Packets as MAC management messages.

ghost use Rattle.std.specs.Prelude.{◌≡◌, ◌+◌, ◌≤◌, length, IfOk};
ghost use Rattle.pcap_capture.specs.Management.{body_of};
ghost use Rattle.pcap_capture.specs.Packets.{version_of, packet_message, map_message, managed_of};

use crate::packet::Packet;
use dsx_messages::message_type;
use std::alloc::{AllocError, Global};
use std::marker::Model;

/// The address of the CMTS.
const CMTS: [u8; 6] = [0x02, 0, 0, 0, 0, 0];

/// The address of all modems.
const ALL_MODEMS: [u8; 6] = [0x01, 0xE0, 0x2F, 0, 0, 0x01];

/// The message type of a MAP (CM-SP-MULPIv3.1, 6.4.4).
const MAP: u8 = 3;

/// The longest payload of a management message: the MAC header counts in 16 bits what follows it.
const LONGEST: usize = 65_511;

/// A MAC management message (CM-SP-MULPIv3.1, 6.4.1) that fits a frame. Contracts see its parts.
#[derive(Drop)]
pub(crate) struct Management<'a> {
    to: [u8; 6],
    from: [u8; 6],
    version: u8,
    kind: u8,
    payload: &'a [u8],
}

impl<'a> Model for Management<'a> {
    ghost use Rattle.std.specs.Prelude.{length, ◌≤◌};
    ghost use Rattle.pcap_capture.specs.Management.{ManagementMessage};

    ghost Value = { ManagementMessage };

    ghost view = { λ m. record { to = m.to; from = m.from; version = m.version; kind = m.kind; payload = m.payload.now } };

    ghost invariant = { λ m. length m.payload.now ≤ 65511 };
}

/// Returns the version of a message of this type: that of dynamic service messages is 2.
fn version_of(kind: u8) -> u8
    ensures { result ≡ version_of kind }
{
    if message_type::DSA_REQ <= kind && kind <= message_type::DSD_RSP {
        2
    } else {
        1
    }
}

/// Returns the management message of one byte of message type and the payload, if it can have a
/// frame.
fn packet_message(to: [u8; 6], from: [u8; 6], bytes: &[u8]) -> Option<Management<'_>>
    ensures { result ≡ packet_message to from bytes.now }
{
    let [kind, payload @ ..] = bytes else {
        return None;
    };
    if payload.len() > LONGEST {
        return None;
    }
    Some(Management {
        to,
        from,
        version: version_of(*kind),
        kind: *kind,
        payload,
    })
}

/// Returns the management message of a MAP's body, if it can have a frame.
fn map_message(body: &[u8]) -> Option<Management<'_>>
    ensures { result ≡ map_message body.now }
{
    if body.len() > LONGEST {
        return None;
    }
    Some(Management {
        to: ALL_MODEMS,
        from: CMTS,
        version: 1,
        kind: MAP,
        payload: body,
    })
}

/// Returns the management message of a packet, if it can have a frame: a message of no byte has no
/// type, and a MAC header says only so many bytes.
pub(crate) fn managed_of(packet: &Packet) -> Option<Management<'_>>
    ensures { result ≡ managed_of packet.now }
{
    match packet {
        Packet::Sent { modem, bytes } => packet_message(CMTS, modem.0, bytes.as_slice()),
        Packet::Reply { modem, bytes } => packet_message(modem.0, CMTS, bytes.as_slice()),
        Packet::Map { frame: _, bytes } => map_message(bytes.as_slice()),
    }
}

impl Management<'_> {
    /// Returns the management header and the payload.
    pub(crate) fn body(&self, alloc: Global) -> Result<Vec<u8>, AllocError>
        ensures value { IfOk result (λ body. body.items ≡ body_of self.now) }
        ensures len { IfOk result (λ body. length body.items ≤ 65531) }
    {
        let mut body = Vec::with_capacity(alloc, 20 + self.payload.len())?;
        body.extend_from_slice(&self.to)?;
        body.extend_from_slice(&self.from)?;
        let [high, low] = (6 + self.payload.len() as u16).to_be_bytes();
        body.extend_from_slice(&[high, low, 0, 0, 3, self.version, self.kind, 0])?;
        body.extend_from_slice(self.payload)?;
        Ok(body)
    }

    /// Returns how many bytes follow the MAC header.
    pub(crate) fn count(&self) -> u16
        ensures { result ≡ 24 + length self.now.payload }
    {
        24 + self.payload.len() as u16
    }
}
