//! What is received of a modem.

ghost use Rattle.std.specs.Prelude.{◌≡◌, IfOk};

use dsx_messages::Modem;
use std::alloc::{AllocError, Global};
use tlv24::Bytes;

/// What a modem sent to the operator.
#[derive(Debug, Drop)]
pub enum Heard {
    /// A dynamic service message (CM-SP-MULPIv3.1, 6.4.12 to 6.4.19): one byte of message type and the payload.
    Message(Bytes),
    /// A request for minislots (CM-SP-MULPIv3.1, 7.2): the SID that asks, and for how many.
    Request { sid: u16, minislots: u16 },
}

impl Heard {
    /// Returns an equal value with bytes of its own.
    pub fn copy(&self, alloc: Global) -> Result<Heard, AllocError>
        ensures { IfOk result (λ heard. heard ≡ self.now) }
    {
        match self {
            Heard::Message(bytes) => Ok(Heard::Message(bytes.copy(alloc)?)),
            Heard::Request { sid, minislots } => Ok(Heard::Request {
                sid: *sid,
                minislots: *minislots,
            }),
        }
    }
}

/// What was received, and of whom.
#[derive(Debug, Drop)]
pub struct Arrival {
    pub modem: Modem,
    pub heard: Heard,
}

impl Arrival {
    /// Returns an equal value with bytes of its own.
    pub fn copy(&self, alloc: Global) -> Result<Arrival, AllocError>
        ensures { IfOk result (λ arrival. arrival ≡ self.now) }
    {
        Ok(Arrival {
            modem: self.modem,
            heard: self.heard.copy(alloc)?,
        })
    }
}
