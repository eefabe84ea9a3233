//! Packets of a capture.

ghost use Rattle.std.specs.Prelude.{◌≡◌, length};

use dsx_messages::Modem;
use tlv24::Bytes;

/// What is in a capture.
#[derive(Debug, Drop)]
pub enum Packet {
    /// What a modem sent: one byte of message type and the payload.
    Sent { modem: Modem, bytes: Bytes },
    /// A reply to a modem, in the same form.
    Reply { modem: Modem, bytes: Bytes },
    /// The MAP of a frame: its body.
    Map { frame: u32, bytes: Bytes },
}

/// States that an address has six bytes, as its type says. Does nothing.
pub(crate) fn always_six(modem: Modem)
    ensures { length modem.0 ≡ 6 }
{
    // For the proof: what the type of `modem.0` keeps.
    let _address = modem.0;
}
